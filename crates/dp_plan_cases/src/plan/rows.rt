//! Worked cases, with their answers.

/// Texts, and what each of them loads as.
pub(crate) const WORKED: &str = r"
# Classes and doubles: `_[2-9]X` is the name of the first line.
[main]\nexten => _NX,1,NoOp()\nexten => _[4-8]X,1,NoOp()\nexten => _[0-4]X,1,NoOp()\nexten => _[2-9]X,1,NoOp()\n→[main]<_NX,1,NoOp()><_[45678]X,1,NoOp()><_[01234]X,1,NoOp()> note 5 DoublePriority
# A usual file of thirteen lines. The last line includes a context that is not there.
[general]\nstatic=yes\nwriteprotect=no\n\n[globals]\nTRUNK=Line/9\n\n[main]\nexten => _NXXXXXX,1,Answer()\n same => n,Playback(hello-world)\n same => n(q),Queue(support,c)\n same => n,Hangup()\ninclude => out\n→{TRUNK=Line/9}[main]<_NXXXXXX,1,Answer()><_NXXXXXX,2,Playback(hello-world)><_NXXXXXX,3(q),Queue(support,c)><_NXXXXXX,4,Hangup()>{+out} note 13 UnknownContext
";

/// The same texts, and the order in which a look-up asks their entries.
pub(super) const RANKED: &str = r"
# The lesser of two classes of five members is asked first.
[main]\nexten => _NX,1,NoOp()\nexten => _[4-8]X,1,NoOp()\nexten => _[0-4]X,1,NoOp()\nexten => _[2-9]X,1,NoOp()\n→<_[01234]X,1><_[45678]X,1><_NX,1>
# The entries of one name are in the order of their priorities.
[general]\nstatic=yes\nwriteprotect=no\n\n[globals]\nTRUNK=Line/9\n\n[main]\nexten => _NXXXXXX,1,Answer()\n same => n,Playback(hello-world)\n same => n(q),Queue(support,c)\n same => n,Hangup()\ninclude => out\n→<_NXXXXXX,1><_NXXXXXX,2><_NXXXXXX,3><_NXXXXXX,4>
";

/// Lines with their faults. Each line is after `[main]`, except one that is before any section.
pub(crate) const FAULT_LINES: &str = r#"
[main]\nexten => _,1,A\n→fault 10 line 2
[main]\nexten => _[],1,A\n→fault 11 line 2
[main]\nexten => _[9-0],1,A\n→fault 12 line 2
[main]\nexten => _[12,1,A\n→fault 13 line 2
[main]\nexten => _1.2,1,A\n→fault 14 line 2
[main]\nexten => a b,1,A\n→fault 15 line 2
[main]\nexten => s,0,A\n→fault 20 line 2
[main]\nexten => s,n,A\n→fault 21 line 2
[main]\nexten => s,1(),A\n→fault 22 line 2
[main]\nexten => s,1,A(\n→fault 23 line 2
[main]\nexten => s,hint,A\n→fault 24 Hint line 2
[main]\nsame => 1,A\n→fault 26 line 2
[main]\nexten => s,2147483648,A\n→fault 27 line 2
[main]\nexten => s,1\n→fault 28 line 2
[main]\nabc\n→fault 4 line 2
[main]\n#include "x"\n→fault 5 line 2
[main]\n[x\n→fault 3 line 2
[main]\n[x](!)\n→fault 6 line 2
a=1\n[main]\n→fault 2 line 1
a=1\n→fault 2 line 1
[main]\nexten => s,01,A\n→[main]<s,1,A()>
[main]\nexten => s,1,A\n→[main]<s,1,A()>
# Similar lines that load.
[main]\nexten => _1.,1,A\n→[main]<_1.,1,A()>
[main]\nexten => s,1(a),A\n→[main]<s,1(a),A()>
[main]\nexten => s,2147483647,A\n→[main]<s,2147483647,A()>
"#;

/// `\;` is a semicolon. `;--` is refused, but `;---` is a comment.
pub(crate) const ESCAPED_SEMICOLONS: &str = r"
[main]\nexten => s,1,NoOp(a\\;b\\\\;c)\n→[main]<s,1,NoOp(a;b\\;c)>
[main]\n;-- x\n→fault 1 line 2
[main]\n\n;-- x\n→fault 1 line 3
[main]\nexten => s,1,NoOp() ;-- x\n→fault 1 line 2
[main]\n\n;--- x\n→[main]
[main]\nexten => s,1,NoOp() ;--- x\n→[main]<s,1,NoOp()>
";
