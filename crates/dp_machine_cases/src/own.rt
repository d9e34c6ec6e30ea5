//! A machine over a table of applications by another author.
use dp_case_tables::{check_same, push_bytes};
use dp_machine::{Dialplan, Event, Machine, NoMemory, Queues};
use dp_machine_fixture::call;
use dp_own_table::OwnApps;
use std::alloc::Global;
use std::test::Fail;

type OwnMachine = Machine<OwnApps>;

/// A dialplan that names both applications, one of them in another case, and one that the table does not have.
const PLAN: &[u8] = b"[main]\nexten => s,1,Ping(7)\nexten => s,2,sTAY()\nexten => s,3,NoOp()\n";

/// `Ping` sets `P` and goes on, `Stay` waits, and a step does not end the wait. A time-out ends it, and a name that only the program's own
/// table has ends the call.
const STORY: &str = "\
Started(1)
Ran(EntryId { context: 0, entry: 0 })
Ran(EntryId { context: 0, entry: 1 })
Refused(NotReady)
P is 7, Some(Pause)
Done
Some(3)
Ran(EntryId { context: 0, entry: 2 })
Some(Ended)
";

/// Gives an event, and adds the reply.
fn push_applied(
    out: &mut String,
    alloc: Global,
    machine: &mut OwnMachine,
    event: Event,
) -> Result<(), NoMemory> {
    let reply = machine.apply(alloc, event)?;
    write!(out, "{reply:?}\n")
}

/// A call and three steps of it.
fn push_steps(out: &mut String, alloc: Global, machine: &mut OwnMachine) -> Result<(), NoMemory> {
    let call = call(alloc, b"main", b"s", b"")?;
    push_applied(out, alloc, machine, call)?;
    for _step in 0..3 {
        push_applied(out, alloc, machine, Event::Step { channel: 1 })?;
    }
    Ok(())
}

/// The value that was set, and that the channel waits.
fn push_waiting(out: &mut String, alloc: Global, machine: &OwnMachine) -> Result<(), NoMemory> {
    out.push_str("P is ")?;
    push_bytes(out, &machine.value(alloc, 1, b"P")?)?;
    write!(out, ", {:?}\n", machine.phase(1))
}

/// A time-out and the next priority, and one more step and the phase after it.
fn push_end(out: &mut String, alloc: Global, machine: &mut OwnMachine) -> Result<(), NoMemory> {
    push_applied(out, alloc, machine, Event::Timeout { channel: 1 })?;
    write!(out, "{:?}\n", machine.place(1).map(|place| place.priority))?;
    push_applied(out, alloc, machine, Event::Step { channel: 1 })?;
    write!(out, "{:?}\n", machine.phase(1))
}

fn push_story(out: &mut String, alloc: Global, machine: &mut OwnMachine) -> Result<(), Fail> {
    push_steps(out, alloc, machine)?;
    push_waiting(out, alloc, machine)?;
    push_end(out, alloc, machine)?;
    Ok(())
}

fn own_machine(alloc: Global) -> Result<OwnMachine, Fail> {
    let (plan, _) = Dialplan::load(alloc, PLAN)?;
    Ok(Machine::new(alloc, plan, Queues::none(alloc))?)
}

/// The course of a call in a machine over the table.
fn push_run(out: &mut String, alloc: Global) -> Result<(), Fail> {
    let mut machine = own_machine(alloc)?;
    push_story(out, alloc, &mut machine)
}

/// A table of two applications that the program does not have.
#[test]
fn a_machine_runs_another_table(rt: HostRuntime) -> Result<(), Fail> {
    let mut story = String::new(rt.alloc());
    push_run(&mut story, rt.alloc())?;
    check_same("the call", &story, STORY)
}
