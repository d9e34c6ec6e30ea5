//! Applications on a queue that has a member with the empty name, worked out by hand from their pages in the Asterisk documentation's
//! application reference. No file and no application makes such a member, so a function of the queues does.
ghost use Rattle.std.specs.Prelude.{IfOk};
ghost use Rattle.dp_queue.specs.Rest.{IsAtRest};

use dp_case_tables::{Question, bytes_of, check, check_that};
use dp_machine::{Dialplan, Event, NoMemory, Queues};
use dp_machine_fixture::{StandardMachine, call, push_value};
use dp_queue::{Added, Member, Queue};
use std::alloc::Global;
use std::test::Fail;

/// The queue, with a member of the file.
const QUEUE: &[u8] = b"[q]\nmember => Line/1\n";

/// An application, and the report of a call to it, with the members of the queue after it: ` NAME` and ` paused`, each between pointed
/// brackets.
const ROWS: &str = r"
# An empty interface names no member, in a queue and in all of them.
PauseQueueMember(q,)→NOTFOUND < Line/1>< >
PauseQueueMember(q, )→NOTFOUND < Line/1>< >
PauseQueueMember(q)→NOTFOUND < Line/1>< >
PauseQueueMember(,)→NOTFOUND < Line/1>< >
PauseQueueMember→NOTFOUND < Line/1>< >
UnpauseQueueMember(q,)→NOTFOUND < Line/1>< >
UnpauseQueueMember(,)→NOTFOUND < Line/1>< >
UnpauseQueueMember→NOTFOUND < Line/1>< >
# A member with a name is paused even so.
PauseQueueMember(,Line/1)→PAUSED < Line/1 paused>< >
# When members are added or removed, an empty interface is the channel's name.
AddQueueMember(q,)→ADDED < Line/1>< >< Channel/1>
RemoveQueueMember(q,)→NOTINQUEUE < Line/1>< >
";

/// The queue with one more member, whose name is empty, and which the functions of the queues find.
fn queues_with_nameless(alloc: Global) -> Result<Queues, Fail>
    ensures rest { IfOk result IsAtRest }
{
    let mut queues = Queues::load(alloc, QUEUE)?;
    let added = queues.add(alloc, b"q", b"", 0)?;
    check_that(added == Added::Added, "that the member was added")?;
    check_that(queues.would_pause(Some(b"q"), b""), "that it is there")?;
    Ok(queues)
}

/// A machine over these queues, with the application at priority 1 of `s` in `main`.
fn machine_with(alloc: Global, application: &[u8]) -> Result<StandardMachine, Fail> {
    let mut text = Vec::from_slice(alloc, b"[main]\nexten => s,1,")?;
    text.extend_from_slice(application)?;
    let (plan, _) = Dialplan::load(alloc, &text)?;
    let queues = queues_with_nameless(alloc)?;
    let machine = StandardMachine::new(alloc, plan, queues)?;
    Ok(machine)
}

/// The report of the applications: one of them has run, so one of the variables has a value.
fn push_reports(
    out: &mut String,
    alloc: Global,
    machine: &StandardMachine,
) -> Result<(), NoMemory> {
    for name in ["AQMSTATUS", "RQMSTATUS", "PQMSTATUS", "UPQMSTATUS"] {
        push_value(out, alloc, machine, 1, name)?;
    }
    Ok(())
}

fn push_member(out: &mut String, queues: &Queues, member: &Member) -> Result<(), NoMemory> {
    let paused = if member.is_paused { " paused" } else { "" };
    match queues.agents().get(member.agent) {
        Some(agent) => write!(out, "< {}{paused}>", agent.name),
        None => out.push_str("a member that is no agent"),
    }
}

fn push_members(out: &mut String, queues: &Queues, queue: &Queue) -> Result<(), NoMemory> {
    for member in queue.members() {
        push_member(out, queues, member)?;
    }
    Ok(())
}

/// The report of a call to the application, and the members of the queue after it.
fn push_run(
    out: &mut String,
    alloc: Global,
    machine: &mut StandardMachine,
) -> Result<(), NoMemory> {
    let call = call(alloc, b"main", b"s", b"")?;
    let _started = machine.apply(alloc, call)?;
    let _ran = machine.apply(alloc, Event::Step { channel: 1 })?;
    push_reports(out, alloc, machine)?;
    out.push(' ')?;
    match machine.queues().queues().first() {
        Some(queue) => push_members(out, machine.queues(), queue),
        None => out.push_str("no queue"),
    }
}

/// The members of a queue, one of which has the empty name, after an application.
struct NamelessMembers;

impl Question for NamelessMembers {
    fn answer(alloc: Global, asked: &str) -> Result<String, Fail> {
        let application = bytes_of(alloc, asked)?;
        let mut machine = machine_with(alloc, &application)?;
        let mut out = String::new(alloc);
        push_run(&mut out, alloc, &mut machine)?;
        Ok(out)
    }
}

/// No application that pauses members names a member with the empty name.
#[test]
fn applications_never_name_a_nameless_member(rt: HostRuntime) -> Result<(), Fail> {
    check::<NamelessMembers>(rt.alloc(), ROWS)
}
