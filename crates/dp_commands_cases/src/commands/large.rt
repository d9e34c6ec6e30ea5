//! Long scripts, long chains of includes, and many notes.
use dp_commands::{PbxFault, check_explained, match_one};
use dp_commands_fixture::{Command, JoinedRun, Sink, check_into, check_text, make_sink};
use dp_conf::{NoMemory, Told};
use dp_plan::Priority;
use std::alloc::Global;
use std::str;
use std::test::Fail;

/// A text that starts as many calls as there are numbers.
fn many_starts(alloc: Global) -> Result<String, NoMemory> {
    let mut text = String::new(alloc);
    text.push_str("[main]\nexten => s,1,NoOp()\n;; script\n")?;
    for _number in 1..65_536 {
        text.push_str("start main s\n")?;
    }
    Ok(text)
}

/// The trace of that text.
fn many_started(alloc: Global) -> Result<String, NoMemory> {
    let mut want = String::new(alloc);
    for number in 1..65_536 {
        write!(want, "started {number}\n")?;
    }
    Ok(want)
}

/// The trace of a run in which nothing is refused, followed by its result.
fn with_status(alloc: Global, trace: &str) -> Result<String, NoMemory> {
    format!(in alloc; "{trace}status 0")
}

/// Adds the events after these calls, and their expected answers.
fn push_refused(text: &mut String, want: &mut String) -> Result<(), NoMemory> {
    text.push_str("start main s\nstep 65536\nstep 65535\nstart main s")?;
    want.push_str("refused 50 NumbersSpent\nrefused 40 NoChannel\n")?;
    want.push_str("ran 65535 main,s,1 NoOp -> ready main,s,2\nrefused 50 NumbersSpent\n")?;
    want.push_str("status 1")
}

fn check_started(alloc: Global, text: &str, trace: &str) -> Result<(), Fail> {
    let want = with_status(alloc, trace)?;
    check_text::<JoinedRun>(alloc, text.as_bytes(), want.as_bytes())
}

fn check_spent(alloc: Global, text: &mut String, want: &mut String) -> Result<(), Fail> {
    check_started(alloc, text, want)?;
    push_refused(text, want)?;
    check_text::<JoinedRun>(alloc, text.as_bytes(), want.as_bytes())
}

/// After 65,535 calls each further one is refused, and the existing calls go on.
fn check_numbers(alloc: Global) -> Result<(), Fail> {
    let mut text = many_starts(alloc)?;
    let mut want = many_started(alloc)?;
    check_spent(alloc, &mut text, &mut want)
}

/// A text whose trace has a line for a call, and this number of lines of 38 bytes.
const LOOP: &[u8] = b"[main]\nexten => s,1,Goto(1)\n;; script\nstart main s\nstep 1 100000\n";

/// The beginning of its trace with this number of steps, and the expected rest.
fn loop_trace(alloc: Global, steps: u32, after: &str) -> Result<String, NoMemory> {
    let mut want = String::new(alloc);
    want.push_str("started 1\n")?;
    for _step in 0..steps {
        want.push_str("ran 1 main,s,1 Goto -> ready main,s,1\n")?;
    }
    want.push_str(after)?;
    Ok(want)
}

/// Asserts that this number of steps are written whole if write k of a writer that takes everything fails.
fn check_block(alloc: Global, k: usize, steps: u32) -> Result<(), Fail> {
    let want = loop_trace(alloc, steps, "fault 9 WriteFailed, told")?;
    let writer = make_sink(alloc, usize::MAX, Some(k));
    check_into::<JoinedRun>(alloc, LOOP, writer, want.as_bytes())
}

fn check_whole(alloc: Global) -> Result<(), Fail> {
    let want = loop_trace(alloc, 100_000, "status 0")?;
    check_text::<JoinedRun>(alloc, LOOP, want.as_bytes())
}

/// The greatest count is accepted. The lines are written in blocks: the first is full after 1,617 steps, and each further one after 1,617
/// more.
fn check_steps(alloc: Global) -> Result<(), Fail> {
    check_whole(alloc)?;
    check_block(alloc, 1, 1_617)?;
    check_block(alloc, 2, 3_234)
}

/// A dialplan with an extension of this name, and a call to it.
fn wide_run(alloc: Global, name: &str) -> Result<String, NoMemory> {
    format!(in alloc; "[main]\nexten => {name},1,NoOp()\n;; script\nstart main {name}\nstep 1\n")
}

/// Its trace.
fn wide_trace(alloc: Global, name: &str) -> Result<String, NoMemory> {
    format!(in alloc; "started 1\nran 1 main,{name},1 NoOp -> ready main,{name},2\nstatus 0")
}

fn check_name(alloc: Global, name: &str) -> Result<(), Fail> {
    let text = wide_run(alloc, name)?;
    let want = wide_trace(alloc, name)?;
    check_text::<JoinedRun>(alloc, text.as_bytes(), want.as_bytes())
}

/// A line is longer than a block.
fn check_wide(alloc: Global) -> Result<(), Fail> {
    let name = vec![in alloc; b'7'; 70_000]?;
    check_name(alloc, str::from_utf8(&name)?)
}

/// The entry that answers `77` at priority 1, from the context `c0` on.
struct Match77;

impl Command for Match77 {
    fn serve(alloc: Global, text: &[u8], writer: &mut Told<Sink>) -> Result<u8, PbxFault> {
        match Priority::new(1) {
            Some(priority) => match_one(alloc, text, b"c0", b"77", priority, writer),
            None => Ok(2),
        }
    }
}

/// Ten thousand contexts that each include the next one, of which the last has the extension 77.
fn chain(alloc: Global) -> Result<String, NoMemory> {
    let mut plan = String::new(alloc);
    for number in 0..9_999u32 {
        write!(plan, "[c{number}]\ninclude => c{}\n", number + 1)?;
    }
    plan.push_str("[c9999]\nexten => 77,1,NoOp()\n")?;
    Ok(plan)
}

/// They are followed to the last one, even if that includes the first.
fn check_chain(alloc: Global) -> Result<(), Fail> {
    let mut plan = chain(alloc)?;
    let want = b"c9999,77,1 NoOp\nstatus 0";
    check_text::<Match77>(alloc, plan.as_bytes(), want)?;
    plan.push_str("include => c0\n")?;
    check_text::<Match77>(alloc, plan.as_bytes(), want)
}

/// A call that enters a subroutine this often, hangs up, and is followed by another.
fn deep_calls(alloc: Global, depth: u32) -> Result<String, NoMemory> {
    format!(in alloc;
        "[main]\nexten => s,1,Gosub(1)\n;; script\nstart main s\nstep 1 {depth}\nhangup 1\nstart main s\n"
    )
}

/// The trace of that text.
fn deep_trace(alloc: Global, depth: u32) -> Result<String, NoMemory> {
    let mut want = String::new(alloc);
    want.push_str("started 1\n")?;
    for _step in 0..depth {
        want.push_str("ran 1 main,s,1 Gosub -> ready main,s,1\n")?;
    }
    want.push_str("ok 1 -> ended\nstarted 2\nstatus 0")?;
    Ok(want)
}

/// A thousand frames are entered, and are dropped with the call.
fn check_depth(alloc: Global) -> Result<(), Fail> {
    let text = deep_calls(alloc, 1_000)?;
    let want = deep_trace(alloc, 1_000)?;
    check_text::<JoinedRun>(alloc, text.as_bytes(), want.as_bytes())
}

/// The report on loading a dialplan with its notes explained, if the path of its file is `p`.
struct CheckNoted;

impl Command for CheckNoted {
    fn serve(alloc: Global, text: &[u8], writer: &mut Told<Sink>) -> Result<u8, PbxFault> {
        check_explained(alloc, "p", text, writer)
    }
}

/// A dialplan with a note on each of this number of lines.
fn plan_with_notes(alloc: Global, count: u32) -> Result<String, NoMemory> {
    let mut plan = String::new(alloc);
    plan.push_str("[main]\n")?;
    for number in 0..count {
        write!(plan, "k{number}=\n")?;
    }
    Ok(plan)
}

/// The report on it.
fn noted_report(alloc: Global, count: u32) -> Result<String, NoMemory> {
    let mut want = String::new(alloc);
    for number in 0..count {
        let line = u64::from(number) + 2;
        write!(
            want,
            "note {line} UnknownKey\n  p:{line}\n  k{number}=\n  a context has no such key, or a key in `[globals]` is empty, \
            whatever its value is; this line is dropped\n"
        )?;
    }
    want.push_str("ok 1 contexts 0 entries\nstatus 0")?;
    Ok(want)
}

/// Each of a hundred thousand notes finds its line.
fn check_notes(alloc: Global) -> Result<(), Fail> {
    let plan = plan_with_notes(alloc, 100_000)?;
    let want = noted_report(alloc, 100_000)?;
    check_text::<CheckNoted>(alloc, plan.as_bytes(), want.as_bytes())
}

#[test]
fn large_scripts_and_dialplans_are_handled(rt: HostRuntime) -> Result<(), Fail> {
    check_numbers(rt.alloc())?;
    check_steps(rt.alloc())?;
    check_wide(rt.alloc())?;
    check_depth(rt.alloc())?;
    check_notes(rt.alloc())?;
    check_chain(rt.alloc())
}
