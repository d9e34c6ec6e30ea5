//! What is unknown ahead of applications that look at their arguments, and of those that do not, in a machine over a table by another
//! author after those that go on and those that run outside.
use crate::names::machine_of;
use dp_case_tables::{Question, push_bytes, text_of};
use dp_machine::{Machine, NoMemory, Unknown};
use dp_machine_fixture::call;
use dp_own_table::OwnApps;
use dp_wide::{WithGoing, WithOutside};
use std::alloc::Global;
use std::test::Fail;

/// The table by another author after the names. Its function `AWAY(x)` is never known, and `Ping(?)` asks `PINGS`.
type OwnNames = WithGoing<WithOutside<OwnApps>>;

/// An application with its arguments, and what is unknown ahead of a channel there.
pub(super) const AHEAD: &str = r"
# An application that goes on, or runs outside, looks at no arguments.
Ringing()→none
Ringing(${AWAY(1)})→none
mixmonitor(${AWAY(1)}.wav)→none
System(ls ${AWAY(1)})→none
VoiceMail(${AWAY(1)})→none
agi(a.py,${AWAY(1)})→none
# `Read` and `ReadExten` do: their first argument names a variable.
Read(X,beep)→none
Read(${AWAY(1)})→group AWAY(1)
ReadExten(${AWAY(1)})→group AWAY(1)
rEAD(X,${AWAY(1)})→group AWAY(1)
# Applications of the other table are as they are there.
Ping(${AWAY(1)})→group AWAY(1)
Ping(?)→asks PINGS
Stay(${AWAY(1)})→none
Ringing(?)→none
VoiceMail(?)→none
# A name that no application has.
While(1)→application While
Busy()→application Busy
";

fn push_unknown(out: &mut String, unknown: Unknown) -> Result<(), NoMemory> {
    match unknown {
        Unknown::Application(name) => {
            out.push_str("application ")?;
            push_bytes(out, name.bytes())
        }
        Unknown::Group(group) => {
            out.push_str("group ")?;
            push_bytes(out, group.bytes())
        }
        Unknown::Asked(text) => {
            out.push_str("asks ")?;
            push_bytes(out, text.bytes())
        }
    }
}

fn push_ahead(
    out: &mut String,
    alloc: Global,
    machine: &mut Machine<OwnNames>,
) -> Result<(), NoMemory> {
    machine.apply(alloc, call(alloc, b"main", b"s", b"")?)?;
    match machine.unknown_ahead(alloc, 1)? {
        None => out.push_str("none"),
        Some(unknown) => push_unknown(out, unknown),
    }
}

/// What is unknown ahead of an application.
pub(super) struct Ahead;

impl Question for Ahead {
    fn answer(alloc: Global, asked: &str) -> Result<String, Fail> {
        let mut line = text_of(alloc, "s,1,")?;
        line.push_str(asked)?;
        let mut machine: Machine<OwnNames> = machine_of(alloc, &line)?;
        let mut out = String::new(alloc);
        push_ahead(&mut out, alloc, &mut machine)?;
        Ok(out)
    }
}
