//! Writers that fail.
use crate::commands::listings::List;
use dp_commands::{PbxFault, RunTexts, match_one, run_script};
use dp_commands_fixture::{Check, Command, JoinedRun, Sink, check_into, make_sink};
use dp_conf::{NoMemory, Told};
use dp_plan::Priority;
use std::alloc::Global;
use std::test::Fail;

/// The entry of `main` that answers `23` at priority 1.
pub(super) struct Match23;

impl Command for Match23 {
    fn serve(alloc: Global, text: &[u8], writer: &mut Told<Sink>) -> Result<u8, PbxFault> {
        match Priority::new(1) {
            Some(priority) => match_one(alloc, text, b"main", b"23", priority, writer),
            None => Ok(2),
        }
    }
}

/// The dialplan of a call that waits in a queue of two agents, which ring together.
const RING_ALL_PLAN: &[u8] = b"[main]\nexten => s,1,Queue(q,c)\nexten => s,2,NoOp()\n";

/// The queue.
const RING_ALL_QUEUES: &[u8] = b"[q]\nstrategy = ringall\nmember => Line/1\nmember => Line/2\n";

/// The script: the second agent answers too late.
const RING_ALL_SCRIPT: &[u8] = b"start main s\nstep 1\noffer q\nanswer Line/1\nanswer Line/2\n\
done Line/1\nshow 1 QUEUESTATUS\n";

/// Its trace.
const RING_ALL_TRACE: &[u8] = b"started 1\nran 1 main,s,1 Queue -> queued q\noffered 1 2\nok\n\
refused 47 NotRinging\nok\nQUEUESTATUS=CONTINUE\n";

/// The run of a script over the call that waits in a queue.
struct RingAll;

impl Command for RingAll {
    fn serve(alloc: Global, text: &[u8], writer: &mut Told<Sink>) -> Result<u8, PbxFault> {
        let texts = RunTexts {
            plan: RING_ALL_PLAN,
            queues: Some(RING_ALL_QUEUES),
            second_plan: None,
            script: text,
        };
        run_script(alloc, texts, writer)
    }
}

/// A joined text.
const RUN: &[u8] = b"[main]\nexten => 100,1,NoOp(hello)\n\
exten => 100,2,Goto(200,1)\nexten => 200,1,Hangup()\n;; script\nstart main 100\nstep 1 3\n";

/// Its trace.
const TRACE: &[u8] = b"started 1\nran 1 main,100,1 NoOp -> ready main,100,2\n\
ran 1 main,100,2 Goto -> ready main,200,1\nran 1 main,200,1 Hangup -> ended\n";

/// A dialplan with something to report.
const NOTED: &[u8] = b"[main]\nexten => _NX,1,NoOp()\ninclude => out\n";

/// Its listing.
const LISTED: &[u8] = b"[main]\nexten => _NX,1,NoOp()\ninclude => out\n";

/// The output of `check` for it.
const CHECKED: &[u8] = b"note 3 UnknownContext\nok 1 contexts 1 entries\n";

/// The entry that answers `23`.
const MATCHED: &[u8] = b"main,_NX,1 NoOp\n";

/// Some bytes, followed by others.
fn with_after(alloc: Global, bytes: &[u8], after: &[u8]) -> Result<Vec<u8>, NoMemory> {
    let mut all = Vec::from_slice(alloc, bytes)?;
    all.extend_from_slice(after)?;
    Ok(all)
}

/// Asserts that a command on a writer whose write k fails has written these bytes before it.
fn check_failing<C: Command>(
    alloc: Global,
    text: &[u8],
    sink: (usize, usize),
    written: &[u8],
) -> Result<(), Fail> {
    let (step, k) = sink;
    let want = with_after(alloc, written, b"fault 9 WriteFailed, told")?;
    check_into::<C>(alloc, text, make_sink(alloc, step, Some(k)), &want)
}

/// One byte at a time, a text is as many writes as it has bytes: if write k fails, the bytes before it were written. If none fails, the
/// command ends with its status.
fn check_each<C: Command>(
    alloc: Global,
    text: &[u8],
    whole: &[u8],
    ending: &[u8],
) -> Result<(), Fail> {
    for k in 0..whole.len() {
        check_failing::<C>(alloc, text, (1, k), &whole[..k])?;
    }
    let want = with_after(alloc, whole, ending)?;
    let writer = make_sink(alloc, 1, Some(whole.len()));
    check_into::<C>(alloc, text, writer, &want)
}

#[test]
fn commands_stop_at_the_first_failed_write(rt: HostRuntime) -> Result<(), Fail> {
    check_each::<JoinedRun>(rt.alloc(), RUN, TRACE, b"status 0")?;
    check_each::<RingAll>(rt.alloc(), RING_ALL_SCRIPT, RING_ALL_TRACE, b"status 1")?;
    check_each::<Check>(rt.alloc(), NOTED, CHECKED, b"status 0")?;
    check_each::<List>(rt.alloc(), NOTED, LISTED, b"status 0")?;
    check_each::<Match23>(rt.alloc(), NOTED, MATCHED, b"status 0")?;
    check_failing::<JoinedRun>(rt.alloc(), RUN, (4096, 0), b"")
}

/// Asserts that a command does not use a writer that always fails.
fn check_unasked<C: Command>(alloc: Global, text: &[u8], want: &[u8]) -> Result<(), Fail> {
    check_into::<C>(alloc, text, make_sink(alloc, 1, Some(0)), want)
}

/// Nothing is written for a faulty text, nor if nothing happens.
#[test]
fn faulty_texts_and_empty_runs_write_nothing(rt: HostRuntime) -> Result<(), Fail> {
    check_unasked::<JoinedRun>(rt.alloc(), b"[main]\nabc\n", b"fault 4 NoEquals line 2")?;
    check_unasked::<JoinedRun>(
        rt.alloc(),
        b";; script\nstart a b\njump 1\n",
        b"fault 70 BadScript line 2",
    )?;
    check_unasked::<JoinedRun>(rt.alloc(), b";; script\nstep 1 0\n", b"status 0")?;
    check_unasked::<Check>(rt.alloc(), b"[main]\nabc\n", b"fault 4 NoEquals line 2")?;
    check_unasked::<List>(rt.alloc(), b"[main]\nabc\n", b"fault 4 NoEquals line 2")?;
    check_unasked::<List>(rt.alloc(), b"", b"status 0")?;
    check_unasked::<Match23>(rt.alloc(), b"abc\n", b"fault 2 NoSection line 1")
}
