//! Debugged runs of a machine: where they halt.
use dp_case_tables::{Question, bytes_of, check};
use dp_conf::read_number;
use dp_debug::{Break, Debugger, Event, NoMemory, Place, Text};
use dp_machine::Exten;
use dp_machine_fixture::{AskMachine, StandardMachine, answer_on, call};
use std::alloc::Global;
use std::test::Fail;

/// Worked cases. A case is a dialplan that begins in `[main]`, breaks separated by `&`, a number of steps of channel 1, which has called
/// 100, and calls of the debugger, separated by `¦`: `run`, or `resume:` and a number. A break is a place, or `!` and an application. The
/// answer is the halt of each call, and the final number of replies in the trace.
const ROWS: &str = r"
# break-and-way-out
exten => 100,1,NoOp(hello)\nexten => 100,2,Goto(200,1)\nexten => 200,1,Hangup()¦main,100,1¦3¦run→Halt { taken: 0, why: Break(0) } 0
exten => 100,1,NoOp(hello)\nexten => 100,2,Goto(200,1)\nexten => 200,1,Hangup()¦main,100,1¦3¦run resume:0→Halt { taken: 0, why: Break(0) } Halt { taken: 3, why: End } 3
# breaks-by-application
exten => 100,1,NoOp(hello)\nexten => 100,2,Goto(200,1)\nexten => 200,1,Hangup()¦!goto¦3¦run→Halt { taken: 1, why: Break(0) } 1
exten => 100,1,NoOp(hello)\nexten => 100,2,Goto(200,1)\nexten => 200,1,Hangup()¦main,200,1&!HANGUP¦3¦run→Halt { taken: 2, why: Break(0) } 2
# If several breaks hold the first is named, or the second if the first does not hold.
exten => 100,1,NoOp(hello)¦!NoOp&main,100,1¦1¦run→Halt { taken: 0, why: Break(0) } 0
exten => 100,1,NoOp(hello)¦main,100,2&main,100,1&!noop¦1¦run→Halt { taken: 0, why: Break(1) } 0
exten => 100,1,NoOp(hello)¦main,100,2&!noops&!NOOP¦1¦run→Halt { taken: 0, why: Break(2) } 0
# Before the last step, without any break, without a step, and without breaks.
exten => 100,1,NoOp()\nexten => 100,2,NoOp()¦main,100,2¦2¦run resume:1→Halt { taken: 1, why: Break(0) } Halt { taken: 2, why: End } 2
exten => 100,1,NoOp()\nexten => 100,2,NoOp()¦main,100,3¦2¦run→Halt { taken: 2, why: End } 2
exten => 100,1,NoOp()¦main,100,1¦0¦run→Halt { taken: 0, why: End } 0
exten => 100,1,NoOp()¦¦1¦run→Halt { taken: 1, why: End } 1
# At each turn of a loop.
exten => 100,1,Goto(1)¦main,100,1¦3¦run resume:0 resume:1 resume:2→Halt { taken: 0, why: Break(0) } Halt { taken: 1, why: Break(0) } Halt { taken: 2, why: Break(0) } Halt { taken: 3, why: End } 3
# At the end and past it there is nothing left to run.
exten => 100,1,NoOp()\nexten => 100,2,NoOp()¦!Goto¦2¦run resume:2→Halt { taken: 2, why: End } Halt { taken: 2, why: End } 2
exten => 100,1,NoOp()\nexten => 100,2,NoOp()¦main,100,2¦2¦run resume:9→Halt { taken: 1, why: Break(0) } Halt { taken: 2, why: End } 1
exten => 100,1,NoOp()¦main,100,1¦0¦run resume:0→Halt { taken: 0, why: End } Halt { taken: 0, why: End } 0
# A run begins with an empty trace.
exten => 100,1,NoOp()\nexten => 100,2,NoOp()¦main,100,2¦2¦run run→Halt { taken: 1, why: Break(0) } Halt { taken: 0, why: Break(0) } 0
# A pattern is not a place, and neither is an included context; the application is that of the entry that was found.
exten => _1XX,1,NoOp()¦main,_1XX,1¦1¦run→Halt { taken: 1, why: End } 1
include => more\n[more]\nexten => _1XX,1,NoOp()¦more,100,1¦1¦run→Halt { taken: 1, why: End } 1
include => more\n[more]\nexten => _1XX,1,NoOp()¦more,100,1&main,100,1¦1¦run→Halt { taken: 0, why: Break(1) } 0
include => more\n[more]\nexten => _1XX,1,NoOp()¦!nOoP¦1¦run→Halt { taken: 0, why: Break(0) } 0
# If no entry is found, a break at a place holds and a break at an application does not; for a channel that is over neither holds.
exten => 100,2,NoOp()¦!NoOp&main,100,1¦1¦run→Halt { taken: 0, why: Break(1) } 0
exten => 100,1,Hangup()¦main,100,1&!Hangup¦2¦run resume:0→Halt { taken: 0, why: Break(0) } Halt { taken: 2, why: End } 2
";

fn number_of(word: &str) -> u32 {
    match read_number(word.as_bytes()) {
        Some(number) => u32::try_from(number).unwrap_or(0),
        None => 0,
    }
}

fn read_place(alloc: Global, text: &str) -> Result<Place, NoMemory> {
    let (context, rest) = text.split_once(',').unwrap_or((text, ""));
    let (exten, priority) = rest.split_once(',').unwrap_or((rest, ""));
    Ok(Place {
        context: Text::copy_of(alloc, context.as_bytes())?,
        exten: Exten::new(Text::copy_of(alloc, exten.as_bytes())?),
        priority: number_of(priority),
    })
}

fn read_break(alloc: Global, text: &str) -> Result<Break, NoMemory> {
    match text.strip_prefix('!') {
        Some(name) => Ok(Break::App(Text::copy_of(alloc, name.as_bytes())?)),
        None => Ok(Break::At(read_place(alloc, text)?)),
    }
}

fn read_breaks(alloc: Global, text: &str) -> Result<Vec<Break>, NoMemory> {
    let mut breaks = Vec::new(alloc);
    for part in text.split('&') {
        if !part.is_empty() {
            breaks.push(read_break(alloc, part)?)?;
        }
    }
    Ok(breaks)
}

fn steps(alloc: Global, count: u32) -> Result<Vec<Event>, NoMemory> {
    let mut events = Vec::new(alloc);
    for _step in 0..count {
        events.push(Event::Step { channel: 1 })?;
    }
    Ok(events)
}

/// The halts of the calls, and the number of replies in the trace after them.
fn halts_of(
    alloc: Global,
    machine: &mut StandardMachine,
    events: &[Event],
    breaks: &[Break],
    calls: &str,
) -> Result<String, NoMemory> {
    let mut out = String::new(alloc);
    let mut debugger = Debugger::new(alloc);
    for call in calls.split(' ') {
        let halt = match call.strip_prefix("resume:") {
            Some(taken) => {
                let taken = number_of(taken) as usize;
                debugger.resume(alloc, machine, events, taken, breaks)
            }
            None => debugger.run(alloc, machine, events, breaks),
        };
        write!(out, "{halt:?} ")?;
    }
    write!(out, "{}", debugger.trace().len())?;
    Ok(out)
}

/// Where the calls of a case halt, without its dialplan.
struct HaltsOn;

impl AskMachine for HaltsOn {
    fn answer(alloc: Global, machine: &mut StandardMachine, asked: &str) -> Result<String, Fail> {
        let (breaks, rest) = asked.split_once('¦').ok_or("no steps")?;
        let (count, calls) = rest.split_once('¦').ok_or("no calls")?;
        let call = call(alloc, b"main", b"100", b"")?;
        machine.apply(alloc, call)?;
        let events = steps(alloc, number_of(count))?;
        let breaks = read_breaks(alloc, breaks)?;
        let out = halts_of(alloc, machine, &events, &breaks, calls)?;
        Ok(out)
    }
}

/// Where the calls of a case halt.
struct Halts;

impl Question for Halts {
    fn answer(alloc: Global, asked: &str) -> Result<String, Fail> {
        let (plan, rest) = asked.split_once('¦').ok_or("no breaks")?;
        let mut text = bytes_of(alloc, r"[main]\n")?;
        text.extend_from_slice(&bytes_of(alloc, plan)?)?;
        answer_on::<HaltsOn>(alloc, &text, rest)
    }
}

#[test]
fn debugged_runs_halt_at_breaks_and_at_the_end(rt: HostRuntime) -> Result<(), Fail> {
    check::<Halts>(rt.alloc(), ROWS)
}
