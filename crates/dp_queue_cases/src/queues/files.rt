//! Files of queues, with the result of loading them.
use crate::queues::{manual, rows};

/// The tables of files.
pub(super) const TABLES: &[&str] = &[
    rows::FILE_FAULTS,
    manual::FILE,
    KEYS,
    MEMBERS,
    LAST_VALUES,
    SECTIONS,
    FAULTS,
    FIRST_FAULTS,
];

/// Each key with its values.
const KEYS: &str = r"
→
[q]→<q ringall 0 yes no ()>
[q]\nstrategy=ringall→<q ringall 0 yes no ()>
[q]\nstrategy=linear→<q linear 0 yes no ()>
[q]\nstrategy=leastrecent→<q leastrecent 0 yes no ()>
[q]\nstrategy=fewestcalls→<q fewestcalls 0 yes no ()>
[q]\nstrategy=rrmemory→<q rrmemory 0 yes no ()>
[q]\nSTRATEGY => RRMemory→<q rrmemory 0 yes no ()>
[q]\nmaxlen=0→<q ringall 0 yes no ()>
[q]\nmaxlen=7→<q ringall 7 yes no ()>
[q]\nMaxLen = 0007→<q ringall 7 yes no ()>
[q]\nmaxlen=2147483647→<q ringall 2147483647 yes no ()>
[q]\njoinempty=yes→<q ringall 0 yes no ()>
[q]\njoinempty=no→<q ringall 0 no no ()>
[q]\njoinempty=strict→<q ringall 0 strict no ()>
[q]\njoinempty=loose→<q ringall 0 loose no ()>
[q]\nJoinEmpty=No→<q ringall 0 no no ()>
[q]\nleavewhenempty=yes→<q ringall 0 yes yes ()>
[q]\nleavewhenempty=no→<q ringall 0 yes no ()>
[q]\nleavewhenempty=strict→<q ringall 0 yes strict ()>
[q]\nleavewhenempty=loose→<q ringall 0 yes loose ()>
[q]\nleaveWhenEmpty=LOOSE→<q ringall 0 yes loose ()>
[q]\ncontext=out→<q ringall 0 yes no (out)>
[q]\ncontext = Out of hours→<q ringall 0 yes no (Out of hours)>
[q]\ncontext=→<q ringall 0 yes no ()>
# Other keys are ignored, whatever their value is.
[q]\nweight=x\ntimeout=\n=7\nmembers => A,x→<q ringall 0 yes no ()>
[q]\nstrategy=linear\nmaxlen=3\njoinempty=strict\nleavewhenempty=yes\ncontext=out\nmember => A→<q linear 3 strict yes (out) A/0>{A}
";

/// Members, in their order.
const MEMBERS: &str = r"
[q]\nmember => A→<q ringall 0 yes no () A/0>{A}
[q]\nMEMBER=A→<q ringall 0 yes no () A/0>{A}
[q]\nmember => A\nmember => B,2→<q ringall 0 yes no () A/0 B/2>{A}{B}
[q]\nmember => B,2\nmember => A→<q ringall 0 yes no () B/2 A/0>{B}{A}
[q]\nmember => A,2147483647→<q ringall 0 yes no () A/2147483647>{A}
[q]\nmember => A,007→<q ringall 0 yes no () A/7>{A}
# An empty penalty is 0, and further parts are ignored.
[q]\nmember => A,→<q ringall 0 yes no () A/0>{A}
[q]\nmember => A , 3 , Alice,x→<q ringall 0 yes no () A/3>{A}
[q]\nmember => A,,9→<q ringall 0 yes no () A/0>{A}
# Commas inside parentheses do not separate.
[q]\nmember => L(1,2),4→<q ringall 0 yes no () L(1,2)/4>{L(1,2)}
# A member that is one already is skipped, and so is an empty interface.
[q]\nmember => A,1\nmember => B\nmember => A,2→<q ringall 0 yes no () A/1 B/0>{A}{B}
[q]\nmember =>→<q ringall 0 yes no ()>
[q]\nmember => ,5→<q ringall 0 yes no ()>
# Interfaces keep their case.
[q]\nmember => a\nmember => A→<q ringall 0 yes no () a/0 A/0>{a}{A}
# Agents are numbered as they are first named, over all queues.
[q]\nmember => B\nmember => A\n[r]\nmember => A,2\nmember => C\nmember => B→<q ringall 0 yes no () B/0 A/0><r ringall 0 yes no () A/2 C/0 B/0>{B}{A}{C}
";

/// A repeated key other than `member` has its last value.
const LAST_VALUES: &str = r"
[q]\nstrategy=linear\nstrategy=fewestcalls→<q fewestcalls 0 yes no ()>
[q]\nstrategy=linear\nstrategy=ringall→<q ringall 0 yes no ()>
[q]\nmaxlen=5\nmember => A\nMAXLEN=3→<q ringall 3 yes no () A/0>{A}
[q]\njoinempty=no\njoinempty=loose\njoinempty=yes→<q ringall 0 yes no ()>
[q]\nleavewhenempty=strict\nleavewhenempty=yes→<q ringall 0 yes yes ()>
[q]\ncontext=a\ncontext=b→<q ringall 0 yes no (b)>
[q]\ncontext=a\ncontext=→<q ringall 0 yes no ()>
";

/// Sections, and the lines of the text.
const SECTIONS: &str = r"
[q]\n[r]→<q ringall 0 yes no ()><r ringall 0 yes no ()>
[q]\nmaxlen=1\n[r]\nstrategy=linear\n[s]→<q ringall 1 yes no ()><r linear 0 yes no ()><s ringall 0 yes no ()>
[ Help Desk ]→<Help Desk ringall 0 yes no ()>
[globals]\nmember => A→<globals ringall 0 yes no () A/0>{A}
# `[general]` is ignored, and may occur often.
[general]→
[general]\nstrategy=best\nmember => A,x→
[general]\n[general]\n[q]→<q ringall 0 yes no ()>
[General]\nmaxlen=x\n[q]\nmember => A\n[GENERAL]\nmember => B\n[r]\nmember => C→<q ringall 0 yes no () A/0><r ringall 0 yes no () C/0>{A}{C}
# Comments, semicolons, blanks and the byte order mark.
[q] ; a queue\nmember => A ; B\n\n ;member => C\nmember => D\\;E→<q ringall 0 yes no () A/0 D;E/0>{A}{D;E}
[q]\r\n\tstrategy = linear \r\nmember=A\r\n→<q linear 0 yes no () A/0>{A}
\xEF\xBB\xBF[q]\nmaxlen=2→<q ringall 2 yes no ()>
";

/// Each fault of a line.
const FAULTS: &str = r#"
[q]\nstrategy=best→fault 30 BadStrategy line 2
[q]\nstrategy=→fault 30 BadStrategy line 2
[q]\nstrategy=ring all→fault 30 BadStrategy line 2
[q]\nstrategy=roundrobin→fault 30 BadStrategy line 2
[q]\nmaxlen=x→fault 31 BadNumber line 2
[q]\nmaxlen=→fault 31 BadNumber line 2
[q]\nmaxlen=-1→fault 31 BadNumber line 2
[q]\nmaxlen=+1→fault 31 BadNumber line 2
[q]\nmaxlen=1 2→fault 31 BadNumber line 2
[q]\nmaxlen=2147483648→fault 31 BadNumber line 2
[q]\nmaxlen=99999999999999999999999999→fault 31 BadNumber line 2
[q]\nmember => A,x→fault 31 BadNumber line 2
[q]\nmember => A,-1→fault 31 BadNumber line 2
[q]\nmember => A,1.5→fault 31 BadNumber line 2
[q]\nmember => A,2147483648→fault 31 BadNumber line 2
# The penalty is checked first, even if the member is skipped.
[q]\nmember => ,x→fault 31 BadNumber line 2
[q]\nmember => A\nmember => A,x→fault 31 BadNumber line 3
[q]\nstrategy=random→fault 32 LeftOut line 2
[q]\nstrategy=wrandom→fault 32 LeftOut line 2
[q]\nstrategy=rrordered→fault 32 LeftOut line 2
[q]\nstrategy=Random→fault 32 LeftOut line 2
[q]\njoinempty=paused→fault 32 LeftOut line 2
[q]\njoinempty=→fault 32 LeftOut line 2
[q]\njoinempty=paused,strict→fault 32 LeftOut line 2
[q]\nleavewhenempty=penalty→fault 32 LeftOut line 2
[q]\nleavewhenempty=→fault 32 LeftOut line 2
[q]\nleavewhenempty=1→fault 32 LeftOut line 2
[q]\n[q]→fault 33 DoubleQueue line 2
[q]\n[r]\n[Q]→fault 33 DoubleQueue line 3
"#;

/// Of several faults the first of the text comes first, and then the lowest line.
const FIRST_FAULTS: &str = r#"
[q]\nstrategy=best\nmaxlen=x→fault 30 BadStrategy line 2
[q]\nmaxlen=x\nstrategy=best→fault 31 BadNumber line 2
[q]\nstrategy=best\nstrategy=linear→fault 30 BadStrategy line 2
[q]\n[q]\nstrategy=best→fault 33 DoubleQueue line 2
[q]\nstrategy=best\n[q]→fault 30 BadStrategy line 2
# Faults of the text come before those of queues, wherever they are.
[q]\nstrategy=best\nabc→fault 4 NoEquals line 3
[q]\n[q]\n[x→fault 3 BadHeader line 3
[q]\n[q]\na=1 ;-- x→fault 1 BlockComment line 3
[q]\nmaxlen=x\n[r](!)→fault 6 Template line 3
[q]\nmaxlen=x\n#include "x"→fault 5 Directive line 3
member => A\n[q]\n[q]→fault 2 NoSection line 1
[general]\nabc→fault 4 NoEquals line 2
"#;
