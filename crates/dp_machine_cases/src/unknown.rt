//! What is unknown ahead of a channel, and what is set from outside, over a table by another author and over the program's own. The answers
//! are worked out by hand from the rules.
use dp_case_tables::{Question, check};
use dp_machine_fixture::told_ahead;
use dp_own_table::OwnApps;
use dp_table::StandardApps;
use std::alloc::Global;
use std::test::Fail;

/// The cases of `told_ahead` over the table by another author.
const OWN: &str = r"
# A cell is known once something set it, even to the empty text.
1,Ping(${BOX(a)})¦?→BOX(a)
1,Ping(${BOX(a)})¦1 BOX(a)=5;?;step;$P→none, P=5
1,Ping(${BOX(a)})¦1 BOX(a)=;?;step;$P→none, P=
1,Ping(${BOX(a)})¦- BOX(a)=7;?;step;$P→none, P=7
1,Ping(${BOX(a)})¦1 BOX(b)=5;?→BOX(a)
# It is a variable with that very name, and a step that is taken nevertheless reads nothing.
1,Ping(${BOX(a)})¦?;step;$P→BOX(a), P=
# A function that is never known, and one that is computed.
1,Ping(${AWAY(1)})¦?→AWAY(1)
1,Ping(${TWICE(ab)})¦?;step;$P→none, P=abab
1,Ping(${TWICE(ab):1:2})¦?;step;$P→none, P=ba
# The first one in the order in which groups are expanded, with its argument expanded.
1,Ping(${AWAY(1)}${BOX(a)})¦?→AWAY(1)
1,Ping(${BOX(a)}${AWAY(1)})¦?→BOX(a)
1,Ping(${AWAY(${BOX(a)})})¦?→BOX(a)
1,Ping(${AWAY(${BOX(a)})})¦1 BOX(a)=x;?→AWAY(x)
1,Ping(${BOX(${BOX(b)})})¦1 BOX(b)=k;?→BOX(k)
1,Ping(${BOX(${BOX(b)})})¦1 BOX(b)=k;1 BOX(k)=9;?;step;$P→none, P=9
1,Ping(${BOX(a):1:2}x)¦?→BOX(a)
1,Ping(${LEN(${BOX(a)})})¦?→BOX(a)
1,Ping($[${BOX(a)} + 1])¦?→BOX(a)
1,Ping($[${BOX(a)} + 1])¦1 BOX(a)=4;?;step;$P→none, P=5
# A name that is not a call is known, and so are a function of the program, a plain text, and an opening without an end.
1,Ping(${NAME}${EXTEN})¦?;step;$P→none, P=s
1,Ping(${LEN(abc)}${GLOBAL(x)}${NOSUCH(x)})¦?;step;$P→none, P=3
1,Ping(plain)¦?→none
1,Ping(${BOX(a)¦?→none
# An application that the table lacks comes first.
1,NoOp(${BOX(a)})¦?→application NoOp
# A variable that is known if it was set.
1,Ping(${STATUS}${BOX(a)})¦?→STATUS
1,Ping(${STATUS:1:2})¦?;1 STATUS=abcd;?;step;$P→STATUS, none, P=bc
1,Ping(${BOX(${STATUS})})¦?→STATUS
1,Ping(${BOX(${STATUS})})¦- STATUS=k;?→BOX(k)
1,Ping(${LEN(${STATUS})}${STATUSES})¦1 STATUS=;?;step;$P→none, P=0
# An application that does not look at its arguments, and one that asks with them.
1,Stay(${AWAY(1)}${STATUS})¦?→none
1,sTAY(?)¦?→none
1,Ping(?)¦?→asks PINGS
1,ping(?)¦1 PINGS=;?;step;$P→none, P=?
1,Ping(?)¦- PINGS=1;?→none
1,Ping(${BOX(a)})¦1 BOX(a)=?;?→asks PINGS
1,Ping(?${AWAY(1)})¦?→AWAY(1)
1,Ping(??)¦?→none
1,pING(x)¦?→none
# Nothing is unknown if no entry would be run.
1,Stay()\n2,Ping(${BOX(a)})¦?;step;?;time;?→none, none, BOX(a)
3,Ping(${BOX(a)})¦?→none
1,NoOp()¦step;?→none
# An expression that is unknown, which comes after what is inside it, one that is `0`, and one that has its value.
1,Ping($[?])¦?→$[?]
1,Ping(a$[!]b$[1 + 2])¦?;step;$P→none, P=a0b3
1,Ping($[${LEN()}]$[?]${BOX(a)})¦?→$[?]
1,Ping($[?${BOX(a)}])¦?→BOX(a)
1,Ping($[${BOX(a)}])¦1 BOX(a)=?;?→$[?]
1,Ping($[${BOX(a)}])¦1 BOX(a)=!;?;step;$P→none, P=0
1,Ping($[${BOX(a)}])¦1 BOX(a)=4;?;step;$P→none, P=4
1,Ping(${LEN($[?])})¦?→$[?]
# A text in which the table reads other groups is itself unknown.
1,Ping(${[})¦?→${[}
# The table says what a name sets: a global, the caller's number, nothing, a local without a frame, a variable.
1,Ping(${GLOBAL(ALL)}${ALL})¦1 ALL=3;step;$P→P=33
1,Ping(${CALLERID(num)})¦1 WHO=99;step;$P→P=99
1,Ping(${NONE}.)¦1 NONE=5;step;$P→P=.
1,Ping(${MINE}.)¦1 MINE=5;step;$P→P=.
1,Ping(${GLOBAL(B)}${B})¦1 B=5;step;$P→P=5
1,Ping(${WHO}${CALLERID(num)})¦- WHO=5;step;$P→P=5
";

/// The same over the program's own table.
const STANDARD: &str = r"
# Every function is known, and those that the program lacks are empty.
1,NoOp(${BOX(a)}${LEN(x)})¦?→none
1,Macro(x,${BOX(a)})¦?→application Macro
1,goto(s,2)¦?→none
# Every name that is set is a variable.
1,Set(P=${CALLERID(num)}${WHO})¦1 WHO=99;step;$P→P=99
";

/// What is unknown over the table by another author.
struct OwnUnknown;

impl Question for OwnUnknown {
    fn answer(alloc: Global, asked: &str) -> Result<String, Fail> {
        told_ahead::<OwnApps>(alloc, asked)
    }
}

/// What is unknown over the program's own table.
struct StandardUnknown;

impl Question for StandardUnknown {
    fn answer(alloc: Global, asked: &str) -> Result<String, Fail> {
        told_ahead::<StandardApps>(alloc, asked)
    }
}

/// A table's functions are asked in the order of expansion, and they say what a name sets.
#[test]
fn what_is_unknown_ahead_of_a_channel(rt: HostRuntime) -> Result<(), Fail> {
    check::<OwnUnknown>(rt.alloc(), OWN)?;
    check::<StandardUnknown>(rt.alloc(), STANDARD)
}
