//! A program over the libraries: it loads a dialplan, asks which entry answers a number, and lets a call run.
//! docs/CONTRIBUTING.md shows it.
use dp_case_tables::check_same;
use dp_lookup::{SearchOrder, find};
use dp_machine::{Dialplan, Event, Machine, NoMemory, Queues, Text};
use dp_table::StandardApps;
use std::alloc::Global;
use std::test::Fail;

const PLAN: &[u8] = b"\
[main]
exten => _1XX,1,Set(desk=${EXTEN:1})
 same => n,Dial(PJSIP/${EXTEN},20)
";

const ANSWERS: &str = "\
105 is answered by Set
Started(1)
Ran(EntryId { context: 0, entry: 0 })
Ran(EntryId { context: 0, entry: 1 })
Some(Dialling { goes_on: false, has_timer: true })
";

/// Adds the application of the entry that answers a number in the context `main`.
fn push_answering(
    out: &mut String,
    alloc: Global,
    plan: &Dialplan,
    number: &str,
) -> Result<(), Fail> {
    let main = Text::copy_of(alloc, b"main")?;
    let order = SearchOrder::of(alloc, plan, &main)?;
    let id = find(plan, &order, number.as_bytes(), 1).ok_or("no entry")?;
    let entry = plan.entry(id).ok_or("no entry")?;
    write!(out, "{number} is answered by {}\n", entry.application)?;
    Ok(())
}

/// A call to a number in the context `main`.
fn call_to(alloc: Global, number: &str) -> Result<Event, NoMemory> {
    Ok(Event::Start {
        context: Text::copy_of(alloc, b"main")?,
        exten: Text::copy_of(alloc, number.as_bytes())?,
        caller: Text::copy_of(alloc, b"200")?,
    })
}

/// Gives the machine a call and two steps of it, and adds the replies and what the call finally waits for.
fn push_call(
    out: &mut String,
    alloc: Global,
    machine: &mut Machine<StandardApps>,
) -> Result<(), Fail> {
    let started = machine.apply(alloc, call_to(alloc, "105")?)?;
    let first = machine.apply(alloc, Event::Step { channel: 1 })?;
    let second = machine.apply(alloc, Event::Step { channel: 1 })?;
    write!(
        out,
        "{started:?}\n{first:?}\n{second:?}\n{:?}\n",
        machine.phase(1)
    )?;
    Ok(())
}

/// The output of a program that asks which entry answers 105, and lets a call to it run.
fn push_all(out: &mut String, alloc: Global) -> Result<(), Fail> {
    let (plan, _notes) = Dialplan::load(alloc, PLAN)?;
    push_answering(out, alloc, &plan, "105")?;
    let mut machine = Machine::new(alloc, plan, Queues::none(alloc))?;
    push_call(out, alloc, &mut machine)
}

#[test]
fn a_program_loads_a_dialplan_and_runs_a_call(rt: HostRuntime) -> Result<(), Fail> {
    let mut out = String::new(rt.alloc());
    push_all(&mut out, rt.alloc())?;
    check_same("the program", &out, ANSWERS)
}
