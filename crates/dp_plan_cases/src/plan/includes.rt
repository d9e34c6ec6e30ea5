//! Includes of contexts.

/// Includes that load.
pub(crate) const INCLUDES: &str = r"
# The context is there, before the line or after it.
[a]\n[b]\ninclude => a\n→[a][b]{+a}
[a]\ninclude => b\n[b]\n→[a]{+b}[b]
[a]\ninclude => b\n[b]\ninclude => a\n→[a]{+b}[b]{+a}
[m]\ninclude => m\n→[m]{+m}
[a]\ninclude => c\ninclude => b\n[b]\n[c]\n→[a]{+c}{+b}[b][c]
[a]\ninclude = b\nInclude=>b\nINCLUDE => b ; x\n[b]\n→[a]{+b}{+b}{+b}[b]
[a]\ninclude =>\t two words \t\n[two words]\n→[a]{+two words}[two words]
[a]\ninclude => x\\;y\n[x\\;y]\n→[a]{+x;y}[x;y]
[a]\ninclude => \xC3\xA9\n[\xC3\xA9]\n→[a]{+é}[é]
# Includes of several sections of a context, after its entries.
[a]\ninclude => b\n[b]\n[a]\ninclude => a\n→[a]{+b}{+a}[b]
[a]\ninclude => b\nexten => s,1,A\n[b]\n[a]\nexten => s,n,B\ninclude => b\n→[a]<s,1,A()><s,2,B()>{+b}{+b}[b]
# An include of a context that is not there is kept and noted.
[a]\ninclude => b\n→[a]{+b} note 2 UnknownContext
[a]\ninclude => b\ninclude => b\n→[a]{+b}{+b} note 2 UnknownContext note 3 UnknownContext
[a]\ninclude => b\ninclude => c\n[c]\ninclude => d\n→[a]{+b}{+c}[c]{+d} note 2 UnknownContext note 5 UnknownContext
# Case and dashes count in the names of contexts.
[a]\ninclude => A\n→[a]{+A} note 2 UnknownContext
[a-b]\ninclude => ab\ninclude => a-b\n→[a-b]{+ab}{+a-b} note 2 UnknownContext
# The empty name.
[a]\ninclude =>\ninclude =\ninclude => ; a\n→[a]{+}{+}{+} note 2 UnknownContext note 3 UnknownContext note 4 UnknownContext
# Settings and global variables are not contexts.
[general]\n[globals]\n[a]\ninclude => general\ninclude => globals\n→[a]{+general}{+globals} note 4 UnknownContext note 5 UnknownContext
[globals]\ninclude => b\n[general]\ninclude => a,b\n→{include=b}
# Any text in the place of a name is a name.
[a]\ninclude => ${X}\n→[a]{+${X}} note 2 UnknownContext
[a]\ninclude => [a]\n→[a]{+[a]} note 2 UnknownContext
[a]\ninclude => a/b\n→[a]{+a/b} note 2 UnknownContext
# Notes are in the order of the lines.
[m]\ninclude => x\nfoo=1\nexten => s,1(a),A\nexten => s,1,B\nexten => s,2(a),C\ninclude => y\nbar=2\n→[m]<s,1(a),A()>{+x}{+y} note 2 UnknownContext note 3 UnknownKey note 5 DoublePriority note 6 DoubleLabel note 7 UnknownContext note 8 UnknownKey
[b]\nexten => s,1,A\ninclude => c\n[a]\ninclude => b\nx=1\n[b]\nexten => s,1,B\ninclude => d\n[d]\n→[b]<s,1,A()>{+c}{+d}[a]{+b}[d] note 3 UnknownContext note 6 UnknownKey note 8 DoublePriority
[globals]\n=1\n[m]\ninclude => x\n[globals]\n=2\n[m]\ninclude => y\n[y]\n→[m]{+x}{+y}[y] note 2 UnknownKey note 4 UnknownContext note 6 UnknownKey
";

/// Includes with a comma are refused.
pub(crate) const WITH_TIMES: &str = r"
[m]\ninclude => m,9:00-17:00,mon-fri,*,*\n[m]\n→fault 24 IncludeTimes line 2
[m]\ninclude => m,\n→fault 24 IncludeTimes line 2
[m]\ninclude => ,\n→fault 24 IncludeTimes line 2
[m]\nINCLUDE => x,${X}\n→fault 24 IncludeTimes line 2
[m]\ninclude => x\ninclude => a,b\nexten => s,0,A\n→fault 24 IncludeTimes line 3
[m]\nexten => s,0,A\ninclude => a,b\n→fault 20 line 2
[m]\ninclude => a ; ,b\n→[m]{+a} note 2 UnknownContext
";
