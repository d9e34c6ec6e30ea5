//! Machines, their readers, runs of events, and copies of events.
use dp_case_tables::{check_same, check_that};
use dp_commands::{ScriptLine, Turn, read_script};
use dp_machine::{EntryId, Event, NoMemory, Phase, Place, Queues, Refusal, Reply};
use dp_machine_fixture::{Checked, StandardMachine, check_on, push_state, state_of};
use std::alloc::Global;
use std::test::Fail;

const PLAN: &[u8] = b"[globals]\nN=1\n[main]\nexten => s,1,NoOp()\nexten => s,2,Goto(out,t,1)\n\
[out]\nexten => t,1,Hangup()\n";

fn push_copy(events: &mut Vec<Event>, event: &Event) -> Result<(), NoMemory> {
    let copy = event.copy()?;
    events.push(copy)?;
    Ok(())
}

/// Adds the event of each line of a script.
fn push_events(events: &mut Vec<Event>, lines: &[ScriptLine]) -> Result<(), NoMemory> {
    for line in lines {
        if let Turn::Event(event) = &line.turn {
            push_copy(events, event)?;
        }
    }
    Ok(())
}

/// The events of a script, in which `reload` gives the empty dialplan.
fn events_of(alloc: Global, script: &[u8]) -> Result<Vec<Event>, Fail> {
    let empty = b"".as_slice();
    let lines = read_script(alloc, Some(empty), script)?;
    let mut events = Vec::new(alloc);
    push_events(&mut events, &lines)?;
    Ok(events)
}

fn ran_entry(context: usize, entry: usize) -> Reply {
    Reply::Ran(EntryId { context, entry })
}

/// A new machine has its dialplan.
fn check_plan(machine: &StandardMachine) -> Result<(), Fail> {
    check_that(machine.plan().globals().len() == 1, "one global variable")?;
    match machine.plan().contexts() {
        [_, second] => check_that(second.name().bytes() == b"out".as_slice(), "the name"),
        _ => check_that(false, "two contexts"),
    }
}

/// Whether a place is priority 1 of an extension.
fn is_first(place: &Place, exten: &[u8]) -> bool {
    place.context.bytes() == b"main".as_slice()
        && place.exten.bytes() == exten
        && place.priority == 1
}

fn is_cloned(place: &Place) -> Result<bool, NoMemory> {
    let copy = place.clone()?;
    Ok(copy == *place)
}

/// Asserts what a channel is, at priority 1 of an extension.
fn check_place(
    machine: &StandardMachine,
    channel: u32,
    phase: &Phase,
    exten: &[u8],
) -> Result<(), Fail> {
    check_that(machine.phase(channel) == Some(phase), "the phase")?;
    let place = machine.place(channel).ok_or("no place")?;
    let holds = is_first(place, exten) && is_cloned(place)?;
    check_that(holds, "the place and its copy")
}

/// A new machine has its dialplan, and a channel that has ended keeps its place.
struct ReadMachine;

impl Checked for ReadMachine {
    fn check(alloc: Global, machine: &mut StandardMachine) -> Result<(), Fail> {
        check_plan(machine)?;
        let script = b"start main s\nstart main x\nstep 2";
        run_of(alloc, machine, script, &mut Vec::new(alloc))?;
        check_place(machine, 1, &Phase::Ready, b"s")?;
        check_place(machine, 2, &Phase::Ended, b"x")
    }
}

/// Asserts the states of three channels, each on a line.
fn check_states(alloc: Global, machine: &StandardMachine, want: &str) -> Result<(), Fail> {
    let mut got = String::new(alloc);
    for channel in 1..4 {
        push_state(&mut got, machine, channel)?;
        got.push('\n')?;
    }
    check_same("the machine", &got, want)
}

/// The replies to the runs, after an existing one: a run without events has none.
fn check_replies(replies: &[Reply]) -> Result<(), Fail> {
    let want = [
        Reply::NoEntry,
        Reply::Started(1),
        ran_entry(0, 0),
        Reply::Refused(Refusal::NoChannel),
        Reply::Started(2),
        ran_entry(1, 0),
        ran_entry(0, 1),
        Reply::Refused(Refusal::Ended),
        ran_entry(1, 0),
        Reply::Refused(Refusal::Ended),
    ];
    check_that(replies == want.as_slice(), "the replies")
}

fn run_of(
    alloc: Global,
    machine: &mut StandardMachine,
    script: &[u8],
    replies: &mut Vec<Reply>,
) -> Result<(), Fail> {
    let events = events_of(alloc, script)?;
    machine.run(alloc, &events, replies)?;
    Ok(())
}

fn check_runs(
    alloc: Global,
    machine: &mut StandardMachine,
    replies: &mut Vec<Reply>,
) -> Result<(), Fail> {
    machine.run(alloc, &[], replies)?;
    check_that(
        replies.len() == 1 && machine.phase(1).is_none(),
        "a run of no event",
    )?;
    run_of(
        alloc,
        machine,
        b"start main s\nstep 1\nstep 2\nstart out t\nstep 2",
        replies,
    )?;
    run_of(alloc, machine, b"step 1\nstep 2\nstep 1\nstep 1", replies)?;
    check_replies(replies)?;
    check_states(alloc, machine, "ended out,t,1\nended out,t,1\nnone\n")
}

/// The replies come after the existing ones, and the machine is the one after the last event.
struct AppendedReplies;

impl Checked for AppendedReplies {
    fn check(alloc: Global, machine: &mut StandardMachine) -> Result<(), Fail> {
        let mut replies = vec![in alloc; Reply::NoEntry]?;
        check_runs(alloc, machine, &mut replies)
    }
}

fn give(alloc: Global, machine: &mut StandardMachine, event: &Event) -> Result<Reply, NoMemory> {
    let copy = event.copy()?;
    machine.apply(alloc, copy)
}

fn check_unchanged(alloc: Global, machine: &StandardMachine, before: &str) -> Result<(), Fail> {
    let after = state_of(alloc, machine, 1)?;
    check_same("a refused event", &after, before)
}

/// Gives an event, and again if memory runs out; then the channel is as before.
fn give_again(
    alloc: Global,
    machine: &mut StandardMachine,
    event: &Event,
    before: &str,
) -> Result<(), Fail> {
    if give(alloc, machine, event).is_err() {
        check_unchanged(alloc, machine, before)?;
        give(alloc, machine, event)?;
    }
    Ok(())
}

/// Gives an event in this way, and adds the state after it.
fn push_given_again(
    out: &mut String,
    alloc: Global,
    machine: &mut StandardMachine,
    event: &Event,
) -> Result<(), Fail> {
    let before = state_of(alloc, machine, 1)?;
    give_again(alloc, machine, event, &before)?;
    push_state(out, machine, 1)?;
    out.push('\n')?;
    Ok(())
}

/// If memory runs out, the machine is as before, so the event, given again, has its own reply.
struct EventGivenAgain;

impl Checked for EventGivenAgain {
    fn check(alloc: Global, machine: &mut StandardMachine) -> Result<(), Fail> {
        let events = events_of(alloc, b"start main s\nstep 1\nstep 1\nstep 1")?;
        let mut got = String::new(alloc);
        for event in &events {
            push_given_again(&mut got, alloc, machine, event)?;
        }
        let want = "ready main,s,1\nready main,s,2\nready out,t,1\nended out,t,1\n";
        check_same("the events", &got, want)
    }
}

/// Gives the events to the machine, and if memory runs out again those without a reply.
fn run_on(
    alloc: Global,
    machine: &mut StandardMachine,
    events: &[Event],
    replies: &mut Vec<Reply>,
) -> Result<(), Fail> {
    if machine.run(alloc, events, replies).is_err() {
        let left = events.get(replies.len()..).unwrap_or(&[]);
        machine.run(alloc, left, replies)?;
    }
    Ok(())
}

fn check_a_run_goes_on(
    alloc: Global,
    machine: &mut StandardMachine,
    replies: &mut Vec<Reply>,
) -> Result<(), Fail> {
    let events = events_of(alloc, b"start main s\nstep 1\nstep 2\nstep 1\nstep 1")?;
    run_on(alloc, machine, &events, replies)?;
    let want = [
        Reply::Started(1),
        ran_entry(0, 0),
        Reply::Refused(Refusal::NoChannel),
        ran_entry(0, 1),
        ran_entry(1, 0),
    ];
    check_that(replies.as_slice() == want.as_slice(), "the replies")
}

/// If memory runs out, the replies say how far a run came, so it goes on from there.
struct RunGoesOn;

impl Checked for RunGoesOn {
    fn check(alloc: Global, machine: &mut StandardMachine) -> Result<(), Fail> {
        let mut replies = Vec::new(alloc);
        check_a_run_goes_on(alloc, machine, &mut replies)
    }
}

/// A dialplan whose calls change its global.
const COUNTED: &[u8] =
    b"[globals]\nN=1\n[main]\nexten => s,1,Set(GLOBAL(N)=${N}1)\nexten => s,2,NoOp()\n";

fn check_global(machine: &StandardMachine, want: &[u8]) -> Result<(), Fail> {
    check_that(machine.global(b"N") == want, "the global")
}

/// Puts the machine back, and again if memory runs out; then it is as before.
fn restart(alloc: Global, machine: &mut StandardMachine) -> Result<(), Fail> {
    let before = state_of(alloc, machine, 1)?;
    if machine.restart(alloc, Queues::none(alloc)).is_err() {
        check_unchanged(alloc, machine, &before)?;
        check_global(machine, b"11")?;
        machine.restart(alloc, Queues::none(alloc))?;
    }
    Ok(())
}

/// A machine that is put back has no channels and the first globals, so that its next phone call has number 1; after a reload it has those of
/// the dialplan in force, and no others.
struct PutBack;

impl Checked for PutBack {
    fn check(alloc: Global, machine: &mut StandardMachine) -> Result<(), Fail> {
        for _turn in 0..2 {
            run_of(
                alloc,
                machine,
                b"start main s\nstart main s\nstep 1",
                &mut Vec::new(alloc),
            )?;
            check_states(alloc, machine, "ready main,s,2\nready main,s,1\nnone\n")?;
            check_global(machine, b"11")?;
            restart(alloc, machine)?;
            check_states(alloc, machine, "none\nnone\nnone\n")?;
            check_global(machine, b"1")?;
        }
        run_of(alloc, machine, b"reload", &mut Vec::new(alloc))?;
        check_global(machine, b"1")?;
        machine.restart(alloc, Queues::none(alloc))?;
        check_global(machine, b"")
    }
}

/// An event of each kind.
const EVENTS: &[u8] =
    b"start main 2-00 555\xFF\nstep 4294967295\ndigit 1 5\ntimeout 1\npoll 2\nhangup 3\nresult 4 BUSY\n\
offer q\nanswer Line/1\ndecline Line/2\ndone Line/3\nreload\n";

/// For each of them, whether its copy is the same, and the copy.
const COPIES: &str = r#"true Start { context: "main", exten: "2-00", caller: "555\xff" }
true Step { channel: 4294967295 }
true Digit { channel: 1, digit: 53 }
true Timeout { channel: 1 }
true Poll { channel: 2 }
true Hangup { channel: 3 }
true DialResult { channel: 4, status: Busy }
true Offer { queue: "q" }
true Answer { agent: "Line/1" }
true Decline { agent: "Line/2" }
true AgentDone { agent: "Line/3" }
true Reload { text: "" }
"#;

fn push_copied(out: &mut String, event: &Event) -> Result<(), NoMemory> {
    let copy = event.copy()?;
    let same = copy == *event;
    write!(out, "{same} {copy:?}\n")
}

fn check_copies(alloc: Global, events: &[Event]) -> Result<(), Fail> {
    let mut got = String::new(alloc);
    for event in events {
        push_copied(&mut got, event)?;
    }
    check_same("the copies", &got, COPIES)
}

fn events_are_copied_whole(alloc: Global) -> Result<(), Fail> {
    let events = events_of(alloc, EVENTS)?;
    check_copies(alloc, &events)
}

fn check_machines(alloc: Global) -> Result<(), Fail> {
    check_on::<ReadMachine>(alloc, PLAN)?;
    check_on::<AppendedReplies>(alloc, PLAN)?;
    events_are_copied_whole(alloc)
}

/// Machines and their readers, runs, and copies of events.
#[test]
fn machines_run_and_events_are_copied(rt: HostRuntime) -> Result<(), Fail> {
    check_machines(rt.alloc())
}

fn check_again(alloc: Global) -> Result<(), Fail> {
    check_on::<EventGivenAgain>(alloc, PLAN)?;
    check_on::<RunGoesOn>(alloc, PLAN)?;
    check_on::<PutBack>(alloc, COUNTED)
}

/// What goes on after memory ran out.
#[test]
fn events_are_retried_after_no_memory(rt: HostRuntime) -> Result<(), Fail> {
    check_again(rt.alloc())
}
