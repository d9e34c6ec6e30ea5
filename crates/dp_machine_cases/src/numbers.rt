//! The numbers of channels, of which there are as many as there may be calls.
use dp_case_tables::check_that;
use dp_machine::{EntryId, Event, MOST_CHANNELS, Refusal, Reply};
use dp_machine_fixture::{Checked, StandardMachine, call, check_on};
use std::alloc::Global;
use std::test::Fail;

/// Whether a reply is the expected one, to a step of a channel, or to a call for channel 0.
fn check_reply(channel: u32, got: Reply, want: Reply) -> Result<(), Fail> {
    if got == want {
        return Ok(());
    }
    Err(Fail::new(format_args!("{got:?}, not {want:?}, at {channel}")))
}

/// Asserts the reply to a call.
fn check_call(alloc: Global, machine: &mut StandardMachine, want: Reply) -> Result<(), Fail> {
    let call = call(alloc, b"main", b"s", b"")?;
    let reply = machine.apply(alloc, call)?;
    check_reply(0, reply, want)
}

/// Asserts the reply to a step.
fn check_step(
    alloc: Global,
    machine: &mut StandardMachine,
    channel: u32,
    want: Reply,
) -> Result<(), Fail> {
    let reply = machine.apply(alloc, Event::Step { channel })?;
    check_reply(channel, reply, want)
}

const HUNG_UP: Reply = Reply::Ran(EntryId {
    context: 0,
    entry: 0,
});

/// The steps with their replies, each after a call that is refused.
const STEPS: [(u32, Reply); 4] = [
    (65_535, HUNG_UP),
    (65_535, Reply::Refused(Refusal::Ended)),
    (65_536, Reply::Refused(Refusal::NoChannel)),
    (1, HUNG_UP),
];

struct Spent;

impl Checked for Spent {
    fn check(alloc: Global, machine: &mut StandardMachine) -> Result<(), Fail> {
        check_that(MOST_CHANNELS == 65_535, "the greatest number")?;
        for number in 1..65_536 {
            check_call(alloc, machine, Reply::Started(number))?;
        }
        for (channel, want) in &STEPS {
            check_call(alloc, machine, Reply::Refused(Refusal::NumbersSpent))?;
            check_step(alloc, machine, *channel, *want)?;
        }
        check_that(machine.phase(65_536).is_none(), "no further channel")
    }
}

/// After 65,535 calls each further one is refused, even if calls have ended.
#[test]
fn calls_are_refused_once_channel_numbers_are_spent(rt: HostRuntime) -> Result<(), Fail> {
    check_on::<Spent>(rt.alloc(), b"[main]\nexten => s,1,Hangup()\n")
}
