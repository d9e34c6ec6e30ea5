//! A debugged run that halts if memory runs out, and goes on from there.
use dp_case_tables::{check_same, check_that};
use dp_debug::{Break, Debugger, Event, Halt, Place, Text, Why};
use dp_machine::{Exten, NoMemory};
use dp_machine_fixture::{Checked, StandardMachine, call, check_on, state_of};
use std::alloc::Global;
use std::test::Fail;

/// Row break-and-way-out.
const PLAN: &[u8] = b"[main]
exten => 100,1,NoOp(hello)
exten => 100,2,Goto(200,1)
exten => 200,1,Hangup()
";

/// Where the channel is after none of its steps, after one, after two and after all.
const STATES: &str = "ready main,100,1;ready main,100,2;ready main,200,1;ended main,200,1";

/// The debugger has the replies to the steps that were taken, and the channel is after these steps.
fn check_halt(
    alloc: Global,
    debugger: &Debugger,
    machine: &StandardMachine,
    taken: usize,
) -> Result<(), Fail> {
    check_that(debugger.trace().len() == taken, "a reply to each step")?;
    let wanted = STATES.split(';').nth(taken).unwrap_or("");
    let state = state_of(alloc, machine, 1)?;
    check_same("the channel", &state, wanted)
}

fn steps(alloc: Global) -> Result<Vec<Event>, NoMemory> {
    let mut events = Vec::new(alloc);
    for _step in 0..3 {
        events.push(Event::Step { channel: 1 })?;
    }
    Ok(events)
}

fn break_at_once(alloc: Global) -> Result<Break, NoMemory> {
    Ok(Break::At(Place {
        context: Text::copy_of(alloc, b"main")?,
        exten: Exten::new(Text::copy_of(alloc, b"100")?),
        priority: 1,
    }))
}

/// Goes on after the break. If memory runs out, the run halts after the steps that it took, and goes on again from there.
fn resume_again(
    alloc: Global,
    debugger: &mut Debugger,
    machine: &mut StandardMachine,
    events: &[Event],
    breaks: &[Break],
) -> Result<Halt, Fail> {
    let halt = debugger.resume(alloc, machine, events, 0, breaks);
    if halt.why != Why::NoMemory {
        return Ok(halt);
    }
    check_halt(alloc, debugger, machine, halt.taken)?;
    Ok(debugger.resume(alloc, machine, events, halt.taken, breaks))
}

/// The run halts at the break, and at its end.
fn check_run(
    alloc: Global,
    debugger: &mut Debugger,
    machine: &mut StandardMachine,
    events: &[Event],
    breaks: &[Break],
) -> Result<(), Fail> {
    let first = debugger.run(alloc, machine, events, breaks);
    let at_break = Halt {
        taken: 0,
        why: Why::Break(0),
    };
    check_that(first == at_break, "a halt at the break")?;
    check_halt(alloc, debugger, machine, 0)?;
    let last = resume_again(alloc, debugger, machine, events, breaks)?;
    let at_end = Halt {
        taken: 3,
        why: Why::End,
    };
    check_that(last == at_end, "a halt at the end")?;
    check_halt(alloc, debugger, machine, 3)
}

fn check_steps(alloc: Global, machine: &mut StandardMachine, breaks: &[Break]) -> Result<(), Fail> {
    let events = steps(alloc)?;
    let mut debugger = Debugger::new(alloc);
    check_run(alloc, &mut debugger, machine, &events, breaks)
}

/// Debugs the call of the row.
struct DebuggedCall;

impl Checked for DebuggedCall {
    fn check(alloc: Global, machine: &mut StandardMachine) -> Result<(), Fail> {
        machine.apply(alloc, call(alloc, b"main", b"100", b"")?)?;
        let breaks = [break_at_once(alloc)?];
        check_steps(alloc, machine, &breaks)
    }
}

#[test]
fn a_debugged_run_resumes_after_no_memory(rt: HostRuntime) -> Result<(), Fail> {
    check_on::<DebuggedCall>(rt.alloc(), PLAN)
}
