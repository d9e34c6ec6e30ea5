//! Stories of machines: a dialplan, and what happens in it, worked out by hand from the rules.
use dp_case_tables::{bytes_of, check_heading, check_same};
use dp_machine::NoMemory;
use dp_machine_fixture::{
    AskMachine, StandardMachine, answer_on, call, notes_of, push_called, push_state, push_stepped,
    push_value,
};
use std::alloc::Global;
use std::test::Fail;

/// A story begins with its dialplan, `plan TEXT→N notes`. After it, a line is a call, `CONTEXT:EXTEN→REPLY -> STATE`, a step of a
/// channel, `CHANNEL→REPLY -> STATE`, or a question, `state CHANNEL→STATE` or `value CHANNEL NAME→VALUE`.
const STORIES: &str = r"# A call from its start to its end.
plan [main]\nexten => 100,1,NoOp(hello)\nexten => 100,2,Goto(200,1)\nexten => 200,1,Hangup()→0 notes
main:100→started 1 -> ready main,100,1
1→ran main,100,1 NoOp -> ready main,100,2
1→ran main,100,2 Goto -> ready main,200,1
1→ran main,200,1 Hangup -> ended main,200,1
# Events of channels that do not exist or are over.
plan [main]\nexten => s,1,Hangup()→0 notes
0→refused 40 NoChannel -> none
1→refused 40 NoChannel -> none
2→refused 40 NoChannel -> none
4294967295→refused 40 NoChannel -> none
main:s→started 1 -> ready main,s,1
0→refused 40 NoChannel -> none
2→refused 40 NoChannel -> none
65536→refused 40 NoChannel -> none
4294967295→refused 40 NoChannel -> none
1→ran main,s,1 Hangup -> ended main,s,1
1→refused 49 Ended -> ended main,s,1
1→refused 49 Ended -> ended main,s,1
2→refused 40 NoChannel -> none
# In an empty dialplan there is no entry.
plan →0 notes
:→started 1 -> ready ,,1
main:s→started 2 -> ready main,s,1
1→no entry -> ended ,,1
2→no entry -> ended main,s,1
3→refused 40 NoChannel -> none
# Contexts are found by their bytes, and the settings and the global variables are not contexts.
plan [general]\nexten => s,1,NoOp()\n[globals]\ns=1\n[main]\nexten => s,1,NoOp()→0 notes
Main:s→started 1 -> ready Main,s,1
general:s→started 2 -> ready general,s,1
globals:s→started 3 -> ready globals,s,1
main-:s→started 4 -> ready main-,s,1
main:s→started 5 -> ready main,s,1
1→no entry -> ended Main,s,1
2→no entry -> ended general,s,1
3→no entry -> ended globals,s,1
4→no entry -> ended main-,s,1
5→ran main,s,1 NoOp -> ready main,s,2
# Dashes in what was dialled do not count, and are kept.
plan [main]\nexten => 555,1,NoOp()\nexten => 555,2,Goto(3)\nexten => 555,3,Hangup()→0 notes
main:5-55→started 1 -> ready main,5-55,1
main:--5--5-5--→started 2 -> ready main,--5--5-5--,1
main:---→started 3 -> ready main,---,1
main:→started 4 -> ready main,,1
main:5-5→started 5 -> ready main,5-5,1
main:555-5→started 6 -> ready main,555-5,1
main:5 55→started 7 -> ready main,5 55,1
1→ran main,555,1 NoOp -> ready main,5-55,2
1→ran main,555,2 Goto -> ready main,5-55,3
1→ran main,555,3 Hangup -> ended main,5-55,3
2→ran main,555,1 NoOp -> ready main,--5--5-5--,2
3→no entry -> ended main,---,1
4→no entry -> ended main,,1
5→no entry -> ended main,5-5,1
6→no entry -> ended main,555-5,1
7→no entry -> ended main,5 55,1
# Names are matched by their bytes, with case, and as a whole.
plan [main]\nexten => s,1,NoOp()\nexten => *72#,1,NoOp()\nexten => 10,1,NoOp()\nexten => X,1,NoOp()→0 notes
main:S→started 1 -> ready main,S,1
main:*72#→started 2 -> ready main,*72#,1
main:1→started 3 -> ready main,1,1
main:100→started 4 -> ready main,100,1
main:5→started 5 -> ready main,5,1
main:X→started 6 -> ready main,X,1
1→no entry -> ended main,S,1
2→ran main,*72#,1 NoOp -> ready main,*72#,2
3→no entry -> ended main,1,1
4→no entry -> ended main,100,1
5→no entry -> ended main,5,1
6→ran main,X,1 NoOp -> ready main,X,2
# The next priority of another extension, or a later one of the same, does not take its place.
plan [main]\nexten => 1,1,NoOp()\nexten => 2,2,NoOp()\nexten => 1,3,NoOp()\n[out]\nexten => 1,2,NoOp()→0 notes
main:1→started 1 -> ready main,1,1
1→ran main,1,1 NoOp -> ready main,1,2
1→no entry -> ended main,1,2
1→refused 49 Ended -> ended main,1,2
main:2→started 2 -> ready main,2,1
2→no entry -> ended main,2,1
2→refused 49 Ended -> ended main,2,1
# After the greatest priority of an entry there is a place where no entry can be.
plan [main]\nexten => s,1,Goto(2147483647)\nexten => s,2147483647,NoOp()\nexten => t,1,Goto(s,2147483648)→0 notes
main:s→started 1 -> ready main,s,1
1→ran main,s,1 Goto -> ready main,s,2147483647
1→ran main,s,2147483647 NoOp -> ready main,s,2147483648
1→no entry -> ended main,s,2147483648
1→refused 49 Ended -> ended main,s,2147483648
main:t→started 2 -> ready main,t,1
2→ran main,t,1 Goto -> ready main,s,2147483648
2→no entry -> ended main,s,2147483648
# Lines may be in any order, and in two sections of one context; of two lines for a place the first counts.
plan [main]\nexten => s,3,Hangup()\nexten => s,1,Goto(2)\nexten => s,1,Hangup()\n[out]\nexten => s,1,Hangup()\n[main]\nexten => s,2,noop(x)\nexten => s,3,NoOp()→2 notes
main:s→started 1 -> ready main,s,1
1→ran main,s,1 Goto -> ready main,s,2
1→ran main,s,2 noop -> ready main,s,3
1→ran main,s,3 Hangup -> ended main,s,3
1→refused 49 Ended -> ended main,s,3
out:s→started 2 -> ready out,s,1
2→ran out,s,1 Hangup -> ended out,s,1
# A call reads its own place, even at the entry of another extension; its number is not used again.
plan [a]\nexten => 1,1,NoOp()\nexten => 1,2,Goto(b,2,1)\n[b]\nexten => 2,1,NoOp()\nexten => 2,2,Goto(a,1,1)\nexten => 2,3,NoOp()→0 notes
a:1→started 1 -> ready a,1,1
1→ran a,1,1 NoOp -> ready a,1,2
b:2→started 2 -> ready b,2,1
2→ran b,2,1 NoOp -> ready b,2,2
1→ran a,1,2 Goto -> ready b,2,1
2→ran b,2,2 Goto -> ready a,1,1
1→ran b,2,1 NoOp -> ready b,2,2
2→ran a,1,1 NoOp -> ready a,1,2
2→ran a,1,2 Goto -> ready b,2,1
2→ran b,2,1 NoOp -> ready b,2,2
a:9→started 3 -> ready a,9,1
3→no entry -> ended a,9,1
3→refused 49 Ended -> ended a,9,1
a:1→started 4 -> ready a,1,1
1→ran b,2,2 Goto -> ready a,1,1
4→ran a,1,1 NoOp -> ready a,1,2
2→ran b,2,2 Goto -> ready a,1,1
# If a context has no `h` and no `i`, a call that hangs up is over.
plan [main]\nexten => 1,1,Hangup()\nexten => 2,1,Macro()\nexten => 3,1,Goto(x)→0 notes
main:1→started 1 -> ready main,1,1
main:2→started 2 -> ready main,2,1
main:3→started 3 -> ready main,3,1
main:4→started 4 -> ready main,4,1
4→no entry -> ended main,4,1
3→ran main,3,1 Goto -> ended main,3,1
2→ran main,2,1 Macro -> ended main,2,1
1→ran main,1,1 Hangup -> ended main,1,1
1→refused 49 Ended -> ended main,1,1
5→refused 40 NoChannel -> none
0→refused 40 NoChannel -> none
# Globals are expanded when the machine is made. An ended channel keeps its values.
plan [globals]\nN=200\nM=${N}1\n[main]\nexten => 100,1,Goto(${N},1)\nexten => 200,1,NoOp()→0 notes
main:100→started 1 -> ready main,100,1
1→ran main,100,1 Goto -> ready main,200,1
1→ran main,200,1 NoOp -> ready main,200,2
value 1 M→2001
value 1 EXTEN→200
value 1 PRIORITY→2
1→no entry -> ended main,200,2
value 1 EXTEN→200
# A step is expanded with what its own call sees.
plan [main]\nexten => _X,1,Goto(${CHANNEL}-${EXTEN},1)→0 notes
main:1→started 1 -> ready main,1,1
main:2→started 2 -> ready main,2,1
2→ran main,_X,1 Goto -> ready main,Channel/2-2,1
main:3→started 3 -> ready main,3,1
1→ran main,_X,1 Goto -> ready main,Channel/1-1,1
3→ran main,_X,1 Goto -> ready main,Channel/3-3,1
# A new machine has no channel.
plan [globals]\nN=1\n[main]\nexten => s,1,NoOp()\nexten => s,2,Goto(out,t,1)\n[out]\nexten => t,1,Hangup()→0 notes
state 0→none
state 1→none
state 2→none
state 65535→none
state 4294967295→none
# A channel is read by its number, and keeps its place after its end.
plan [globals]\nN=1\n[main]\nexten => s,1,NoOp()\nexten => s,2,Goto(out,t,1)\n[out]\nexten => t,1,Hangup()→0 notes
main:s→started 1 -> ready main,s,1
main:x→started 2 -> ready main,x,1
2→no entry -> ended main,x,1
state 1→ready main,s,1
state 2→ended main,x,1
state 0→none
state 3→none
state 4294967295→none
";

/// The number of a channel, or 0, which no channel has.
fn number_of(word: &str) -> u32 {
    word.parse().unwrap_or(0)
}

fn push_call(
    out: &mut String,
    alloc: Global,
    machine: &mut StandardMachine,
    context: &str,
    exten: &str,
) -> Result<(), NoMemory> {
    let call = call(alloc, context.as_bytes(), exten.as_bytes(), b"")?;
    push_called(out, alloc, machine, call)
}

/// Adds the answer of the machine to a call or a step.
fn push_event(
    out: &mut String,
    alloc: Global,
    machine: &mut StandardMachine,
    asked: &str,
) -> Result<(), NoMemory> {
    match asked.split_once(':') {
        Some((context, exten)) => push_call(out, alloc, machine, context, exten),
        None => push_stepped(out, alloc, machine, number_of(asked)),
    }
}

/// Adds the answer of the machine to a line of a story.
fn push_line(
    out: &mut String,
    alloc: Global,
    machine: &mut StandardMachine,
    asked: &str,
) -> Result<(), NoMemory> {
    if let Some(channel) = asked.strip_prefix("state ") {
        return push_state(out, machine, number_of(channel));
    }
    match asked.strip_prefix("value ") {
        Some(rest) => {
            let (channel, name) = rest.split_once(' ').unwrap_or((rest, ""));
            push_value(out, alloc, machine, number_of(channel), name)
        }
        None => push_event(out, alloc, machine, asked),
    }
}

/// Compares the answer of the machine to a line with the expected one.
fn check_line(
    alloc: Global,
    machine: &mut StandardMachine,
    asked: &str,
    want: &str,
) -> Result<(), Fail> {
    let mut got = String::new(alloc);
    push_line(&mut got, alloc, machine, asked)?;
    check_same(asked, &got, want)
}

/// Checks each line of a story, up to the first with another answer.
struct InStory;

impl AskMachine for InStory {
    fn answer(alloc: Global, machine: &mut StandardMachine, asked: &str) -> Result<String, Fail> {
        for line in asked.lines() {
            match line.split_once('→') {
                Some((asked, want)) => check_line(alloc, machine, asked, want)?,
                None => check_heading(line)?,
            }
        }
        Ok(String::new(alloc))
    }
}

fn check_notes(alloc: Global, text: &[u8], want: &str) -> Result<(), Fail> {
    let got = format!(in alloc; "{} notes", notes_of(alloc, text)?)?;
    check_same("the dialplan", &got, want)
}

/// Checks the lines of a story on the dialplan of a text.
fn check_lines(alloc: Global, text: &[u8], notes: &str, lines: &str) -> Result<(), Fail> {
    check_notes(alloc, text, notes)?;
    let _nothing = answer_on::<InStory>(alloc, text, lines)?;
    Ok(())
}

/// Checks a story that begins with its dialplan.
fn check_story(alloc: Global, plan: &str, lines: &str) -> Result<(), Fail> {
    let (text, notes) = plan.split_once('→').ok_or("a dialplan without notes")?;
    let text = bytes_of(alloc, text)?;
    check_lines(alloc, &text, notes, lines)
}

/// Checks each story. Before the first one comes its heading.
fn check_stories(alloc: Global) -> Result<(), Fail> {
    for story in STORIES.split("\nplan ") {
        match story.split_once('\n') {
            Some((plan, lines)) => check_story(alloc, plan, lines)?,
            None => check_heading(story)?,
        }
    }
    Ok(())
}

#[test]
fn machines_answer_calls_and_steps(rt: HostRuntime) -> Result<(), Fail> {
    check_stories(rt.alloc())
}
