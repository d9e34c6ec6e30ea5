//! Events that no line of a script gives: a name that is set from outside, and a channel that is sent to a place. Each is given again after
//! memory ran out. The answers are worked out by hand from the rules.
use crate::again::{machine_of, push_given, push_lines};
use dp_case_tables::{Question, bytes_of, check};
use dp_commands::read_script;
use dp_machine::{Event, Exten, NoMemory, Place, Text};
use dp_machine_fixture::{StandardMachine, push_state};
use std::alloc::Global;
use std::str;
use std::test::Fail;

/// A case is a dialplan, a file of queues and the lines of a script, separated by `¦`; then an arrow, the reply to each event and each
/// value that is shown, and the states of channels 1 and 2. The script may have two further lines: `set CHANNEL NAME=VALUE`, with `-` for
/// no channel, and `send CHANNEL CONTEXT,EXTEN,PRIORITY`.
const ROWS: &str = r"
# A variable is set while the channel waits, and the next step reads it.
[main]\nexten => s,1,Wait(5)\nexten => s,2,Set(B=${A}${A})¦¦start main s\nstep 1\nset 1 A=5\nshow 1 A\ntimeout 1\nstep 1\nshow 1 B→Started(1), ran 0 0, Done, A=5, Done, ran 0 1, B=55, ready main,s,3, none
# A global, which every channel reads, also one that has ended.
[main]\nexten => s,1,Hangup()¦¦start main s\nstart main s\nstep 1\nset - X=7\nshow 1 X\nshow 2 X\nset - X=\nshow 2 X→Started(1), Started(2), ran 0 0, Done, X=7, X=7, Done, X=, ended main,s,1, ready main,s,1
# Without a channel a global is set, and not a channel's variable with that name.
[main]\nexten => s,1,Set(A=1)¦¦start main s\nstep 1\nset - A=2\nshow 1 A→Started(1), ran 0 0, Done, A=1, ready main,s,2, none
# The local of the innermost frame that has the name.
[main]\nexten => s,1,Gosub(sub,s,1(x))\nexten => s,2,NoOp()\n[sub]\nexten => s,1,Return()¦¦start main s\nstep 1\nset 1 ARG1=9\nshow 1 ARG1\nstep 1\nshow 1 ARG1→Started(1), ran 0 0, Done, ARG1=9, ran 1 0, ARG1=, ready main,s,2, none
# A name with parentheses is a variable with that name, and neither a global nor the caller's number.
[main]\nexten => s,1,NoOp()¦¦start main s\nset 1 GLOBAL(X)=5\nshow 1 X\nshow 1 GLOBAL(X)→Started(1), Done, X=, GLOBAL(X)=5, ready main,s,1, none
# A channel that is over keeps its values, and a missing channel has none.
[main]\nexten => s,1,Hangup()¦¦start main s\nstep 1\nset 1 A=5\nshow 1 A\nset 2 A=5\nset 0 A=5→Started(1), ran 0 0, Refused(Ended), A=, Refused(NoChannel), Refused(NoChannel), ended main,s,1, none
# A channel that waits in a queue, talks, or calls devices.
[main]\nexten => s,1,Queue(q)¦[q]\nmember => Line/1¦start main s\nstep 1\nset 1 A=5\noffer q\nanswer Line/1\nset 1 B=6\nshow 1 A\nshow 1 B→Started(1), ran 0 0, Done, Offered { channel: 1, rung: 1 }, Done, Done, A=5, B=6, talking main,s,1, none
[main]\nexten => s,1,Dial(Line/5)¦¦start main s\nstep 1\nset 1 A=5\nshow 1 A→Started(1), ran 0 0, Done, A=5, dialling main,s,1, none
# A channel that is ready, waits for digits or waits for a time goes to the place.
[main]\nexten => s,1,NoOp()\nexten => 9,3,NoOp()¦¦start main s\nsend 1 main,9,3\nstep 1→Started(1), Done, ran 0 1, ready main,9,4, none
[main]\nexten => s,1,WaitExten()\nexten => 12,1,NoOp()\nexten => 9,3,NoOp()¦¦start main s\nstep 1\ndigit 1 1\nsend 1 main,9,3\nstep 1→Started(1), ran 0 0, Done, Done, ran 0 2, ready main,9,4, none
[main]\nexten => s,1,Wait(5)\n[out]\nexten => 9,3,NoOp()¦¦start main s\nstep 1\nsend 1 out,9,3\nstep 1→Started(1), ran 0 0, Done, ran 1 0, ready out,9,4, none
# Its frames and variables are as they were.
[main]\nexten => s,1,Gosub(sub,s,1(x))\nexten => s,2,NoOp()\nexten => r,1,Return()\n[sub]\nexten => s,1,NoOp()¦¦start main s\nstep 1\nset 1 A=5\nsend 1 main,r,1\nshow 1 ARG1\nstep 1\nshow 1 A→Started(1), ran 0 0, Done, Done, ARG1=x, ran 0 2, A=5, ready main,s,2, none
# A place without an entry is found out at the next step, and so is a place that no entry can have.
[main]\nexten => s,1,NoOp()¦¦start main s\nsend 1 main,7,1\nstep 1→Started(1), Done, NoEntry, ended main,7,1, none
[main]\nexten => s,1,NoOp()\nexten => i,1,NoOp()¦¦start main s\nsend 1 main,7,1\nstep 1→Started(1), Done, Invalid, ready main,i,1, none
[main]\nexten => s,1,NoOp()¦¦start main s\nsend 1 main,s,4294967295\nstep 1→Started(1), Done, NoEntry, ended main,s,4294967295, none
# A channel that is closing goes there too, and has no second `h`.
[main]\nexten => s,1,Hangup()\nexten => h,1,NoOp()\nexten => 9,1,NoOp()¦¦start main s\nstep 1\nsend 1 main,9,1\nstep 1\nstep 1→Started(1), ran 0 0, Done, ran 0 2, NoEntry, ended main,9,2, none
# One that waits in a queue, talks or calls devices stays, and so does one that is over.
[main]\nexten => s,1,Queue(q)¦[q]\nmember => Line/1¦start main s\nstep 1\nsend 1 main,s,1→Started(1), ran 0 0, Refused(NotReady), queued main,s,1, none
[main]\nexten => s,1,Queue(q)¦[q]\nmember => Line/1¦start main s\nstep 1\noffer q\nanswer Line/1\nsend 1 main,s,1→Started(1), ran 0 0, Offered { channel: 1, rung: 1 }, Done, Refused(NotReady), talking main,s,1, none
[main]\nexten => s,1,Dial(Line/5)¦¦start main s\nstep 1\nsend 1 main,s,1→Started(1), ran 0 0, Refused(NotReady), dialling main,s,1, none
[main]\nexten => s,1,Hangup()¦¦start main s\nstep 1\nsend 1 main,s,1\nsend 2 main,s,1→Started(1), ran 0 0, Refused(Ended), Refused(NoChannel), ended main,s,1, none
";

/// The event of a line `set`.
fn set_event(alloc: Global, words: &str) -> Result<Event, Fail> {
    let (channel, rest) = words.split_once(' ').ok_or("no name")?;
    let (name, value) = rest.split_once('=').ok_or("no value")?;
    let name = Text::copy_of(alloc, name.as_bytes())?;
    let value = Text::copy_of(alloc, value.as_bytes())?;
    Ok(Event::Assign {
        channel: channel.parse().ok(),
        name,
        value,
    })
}

/// A place that is written `CONTEXT,EXTEN,PRIORITY`.
fn place_of(alloc: Global, text: &str) -> Result<Place, Fail> {
    let (context, rest) = text.split_once(',').ok_or("no extension")?;
    let (exten, priority) = rest.split_once(',').ok_or("no priority")?;
    let context = Text::copy_of(alloc, context.as_bytes())?;
    let exten = Text::copy_of(alloc, exten.as_bytes())?;
    Ok(Place {
        context,
        exten: Exten::new(exten),
        priority: priority.parse().unwrap_or(0),
    })
}

/// The event of a line `send`.
fn send_event(alloc: Global, words: &str) -> Result<Event, Fail> {
    let (channel, place) = words.split_once(' ').ok_or("no place")?;
    let place = place_of(alloc, place)?;
    Ok(Event::Redirect {
        channel: channel.parse().unwrap_or(0),
        place,
    })
}

/// The line of a script.
fn push_script_line(
    out: &mut String,
    alloc: Global,
    machine: &mut StandardMachine,
    line: &str,
) -> Result<(), Fail> {
    let lines = read_script(alloc, None, line.as_bytes())?;
    push_lines(out, alloc, machine, &lines)
}

/// An event from outside, or the line of a script.
fn push_line(
    out: &mut String,
    alloc: Global,
    machine: &mut StandardMachine,
    line: &str,
) -> Result<(), Fail> {
    match line.split_once(' ') {
        Some(("set", words)) => push_given(out, alloc, machine, &set_event(alloc, words)?),
        Some(("send", words)) => push_given(out, alloc, machine, &send_event(alloc, words)?),
        _ => push_script_line(out, alloc, machine, line),
    }
}

fn push_lines_of(
    out: &mut String,
    alloc: Global,
    machine: &mut StandardMachine,
    script: &str,
) -> Result<(), Fail> {
    for line in script.lines() {
        push_line(out, alloc, machine, line)?;
    }
    Ok(())
}

fn push_states(out: &mut String, machine: &StandardMachine) -> Result<(), NoMemory> {
    push_state(out, machine, 1)?;
    out.push_str(", ")?;
    push_state(out, machine, 2)
}

fn told_on(alloc: Global, plan: &[u8], queues: &[u8], script: &str) -> Result<String, Fail> {
    let mut machine = machine_of(alloc, plan, queues)?;
    let mut out = String::new(alloc);
    push_lines_of(&mut out, alloc, &mut machine, script)?;
    push_states(&mut out, &machine)?;
    Ok(out)
}

/// The answers of a machine to events, some of them from outside.
struct FromOutside;

impl Question for FromOutside {
    fn answer(alloc: Global, asked: &str) -> Result<String, Fail> {
        let (plan, rest) = asked.split_once('¦').ok_or("no queues")?;
        let (queues, script) = rest.split_once('¦').ok_or("no script")?;
        let plan = bytes_of(alloc, plan)?;
        let queues = bytes_of(alloc, queues)?;
        let script = bytes_of(alloc, script)?;
        told_on(alloc, &plan, &queues, str::from_utf8(&script)?)
    }
}

/// What is set and sent from outside has the effect that the rules say, and changes nothing if memory runs out.
#[test]
fn names_are_set_and_channels_sent_from_outside(rt: HostRuntime) -> Result<(), Fail> {
    check::<FromOutside>(rt.alloc(), ROWS)
}
