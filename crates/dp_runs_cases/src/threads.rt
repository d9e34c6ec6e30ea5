//! Runs in threads, with the line that they print and their histories, worked out by hand from the rules.
use dp_board::Gate;
use dp_board_fixture::{Crossed, gate_of, hold_until};
use dp_case_tables::{bytes_of, check_answer, check_heading};
use dp_commands::{PbxFault, RunTexts, Sharing, run_threads};
use dp_conf::{NoMemory, Told};
use dp_machine::Reply;
use std::alloc::Global;
use std::process::Abort;
use std::str;
use std::sync::Wait;
use std::sync::atomic::{AtomicU64, Ordering};
use std::test::Fail;
use std::thread::Threads;

/// A gate that holds nobody.
struct FreeGate;

impl Gate for FreeGate {
    fn before(&self, _channel: u32, _turn: u64) {}

    fn after(&self, _channel: u32, _reply: &Reply) {}
}

/// Worked cases. A case is the number of threads, a dialplan that begins in `[main]` and a script, separated by `¦`; then an arrow, and the
/// output followed by the status.
const ROWS: &str = r"
# threads-run
2¦exten => s,1,NoOp()¦start main s\nstart main s\nstep 1\nstep 2→settled 2 seats 2 calls\nstatus 0
# One seat, and more seats than events.
1¦exten => s,1,NoOp()¦start main s\nstart main s\nstep 1\nstep 2→settled 1 seats 2 calls\nstatus 0
64¦exten => s,1,NoOp()¦start main s\nstep 1→settled 64 seats 1 calls\nstatus 0
0¦exten => s,1,NoOp()¦start main s\nstep 1→settled 1 seats 1 calls\nstatus 0
# No event after the calls that come in first, and no events at all.
3¦exten => s,1,NoOp()¦start main s→settled 3 seats 0 calls\nstatus 0
3¦¦→settled 3 seats 0 calls\nstatus 0
# A `show` is skipped, and a call that comes in later is an event of a seat.
2¦exten => s,1,NoOp()¦show 1 EXTEN\nstart main s\nshow 9 EXTEN\nstep 1 2\nstart main s→settled 2 seats 3 calls\nstatus 0
# A line that is taken several times has several events.
2¦exten => s,1,Goto(1)¦start main s\nstep 1 1000→settled 2 seats 1000 calls\nstatus 0
# A refused event leaves the status 1, and so does a refused event that comes before any call.
2¦exten => s,1,NoOp()¦start main s\nstep 1\nstep 2→settled 2 seats 2 calls\nstatus 1
2¦exten => s,1,NoOp()¦step 1→settled 2 seats 1 calls\nstatus 1
# Faults come as in a run without threads, and nothing is printed.
2¦jump¦step→fault 4 NoEquals line 2
2¦exten => s,1,NoOp()¦start main s\njump 1→fault 70 BadScript line 2
";

/// Adds the result of a run: `status STATUS`, or its fault as it is printed.
fn push_ending(out: &mut String, ended: Result<u8, PbxFault>) -> Result<(), NoMemory> {
    match ended {
        Ok(status) => write!(out, "status {status}"),
        Err(
            PbxFault::Coded {
                code,
                line: Some(line),
            },
        ) => write!(out, "fault {} {} line {line}", code.number(), code.name()),
        Err(PbxFault::Coded { code, line: None }) => {
            write!(out, "fault {} {}", code.number(), code.name())
        }
        Err(PbxFault::NoMemory) => out.push_str("fault out of memory"),
    }
}

/// The whole output, followed by the result of the run.
fn outcome(alloc: Global, ended: Result<u8, PbxFault>, written: &[u8]) -> Result<String, Fail> {
    let mut out = String::from_str(alloc, str::from_utf8(written)?)?;
    push_ending(&mut out, ended)?;
    Ok(out)
}

/// Asserts the output and result of a run.
fn check_outcome(
    alloc: Global,
    asked: &str,
    ended: Result<u8, PbxFault>,
    written: &[u8],
    want: &str,
) -> Result<(), Fail> {
    let got = outcome(alloc, ended, written)?;
    check_answer(alloc, asked, &got, want)
}

/// Only a dialplan and a script.
fn bare<'a>(plan: &'a [u8], script: &'a [u8]) -> RunTexts<'a> {
    RunTexts {
        plan,
        queues: None,
        second_plan: None,
        script,
    }
}

/// The status of a run of these texts, whose history is dropped.
fn end_status<R: Threads + Wait + Sync>(
    rt: &R,
    alloc: Global,
    texts: RunTexts<'_>,
    threads: u32,
    writer: &mut Told<Vec<u8>>,
) -> Result<u8, PbxFault> {
    let sharing = Sharing {
        threads,
        gate: &FreeGate,
    };
    let (status, _) = run_threads(rt, alloc, texts, sharing, writer)?;
    Ok(status)
}

/// The output and result of a run in threads.
fn check_row<R: Threads + Wait + Sync>(
    rt: &R,
    alloc: Global,
    asked: &str,
    want: &str,
) -> Result<(), Fail> {
    let (threads, rest) = asked.split_once('¦').ok_or("no threads")?;
    let (plan, script) = rest.split_once('¦').ok_or("no script")?;
    let threads: u32 = threads.parse().ok().ok_or("no number")?;
    let text = format!(in alloc; "[main]\\n{plan}")?;
    let text = bytes_of(alloc, &text)?;
    let events = bytes_of(alloc, script)?;
    let mut writer = Told::new(Vec::new(alloc));
    let ended = end_status(rt, alloc, bare(&text, &events), threads, &mut writer);
    check_outcome(alloc, script, ended, &writer.into_inner(), want)
}

/// Runs of scripts in threads.
#[test]
fn scripts_run_in_threads(rt: HostRuntime) -> Result<(), Fail> {
    for line in ROWS.lines() {
        match line.split_once('→') {
            Some((asked, want)) => check_row(&rt, rt.alloc(), asked, want)?,
            None => check_heading(line)?,
        }
    }
    Ok(())
}

/// The dialplan of all cases of gates.
const GATED_PLAN: &[u8] = b"[main]\nexten => s,1,NoOp()\n";

/// Cases of the gate of a run, after two calls to `s`, which has one priority. A case is the number of threads, the channel that is held
/// until the other has had its turns, or 0, and the events after the calls, separated by `¦`; then an arrow, the output followed by the
/// status, and for channel 1 and for channel 2 the turn and the reply of each of its events, also separated by `¦`.
const GATED: &str = r"
# One seat has all turns.
1¦0¦step 1\nstep 2\nstep 1\nstep 2→settled 1 seats 4 calls\nstatus 0¦0 ran 2 none¦1 ran 3 none
1¦0¦step 2\nstep 2 2\nstep 1→settled 1 seats 4 calls\nstatus 1¦3 ran¦0 ran 1 none 2 refused
# Each of two seats counts its own turns, and acts while the other is held.
2¦1¦step 1\nstep 2→settled 2 seats 2 calls\nstatus 0¦0 ran¦0 ran
2¦2¦step 1\nstep 2→settled 2 seats 2 calls\nstatus 0¦0 ran¦0 ran
2¦1¦step 1\nstep 2\nstep 1\nstep 2→settled 2 seats 4 calls\nstatus 0¦0 ran 1 none¦0 ran 1 none
2¦2¦step 1\nstep 2\nstep 1\nstep 2→settled 2 seats 4 calls\nstatus 0¦0 ran 1 none¦0 ran 1 none
# A seat with no event is not called.
3¦1¦step 1\nstep 2→settled 3 seats 2 calls\nstatus 0¦0 ran¦0 ran
";

/// The status of a run through its gate, and whether the gate was called as it should be.
fn run_gated<R: Threads + Wait + Sync>(
    rt: &R,
    alloc: Global,
    texts: RunTexts<'_>,
    sharing: Sharing<'_, Crossed>,
    writer: &mut Told<Vec<u8>>,
) -> Result<(u8, bool), PbxFault> {
    let (status, history) = run_threads(rt, alloc, texts, sharing, writer)?;
    Ok((status, sharing.gate.fits(history.entries())))
}

fn check_gated<R: Threads + Wait + Abort + Sync>(
    rt: &R,
    alloc: Global,
    sharing: Sharing<'_, Crossed>,
    events: &str,
    want: &str,
) -> Result<(), Fail> {
    let text = format!(in alloc; "start main s\\nstart main s\\n{events}")?;
    let script = bytes_of(alloc, &text)?;
    let mut writer = Told::new(Vec::new(alloc));
    let ended = match run_gated(rt, alloc, bare(GATED_PLAN, &script), sharing, &mut writer) {
        Ok((status, fits)) => {
            let threads = sharing.threads;
            assert!(rt; fits, "the gate of {events} in {threads} threads");
            Ok(status)
        }
        Err(fault) => Err(fault),
    };
    check_outcome(alloc, events, ended, &writer.into_inner(), want)
}

fn check_gate<R: Threads + Wait + Abort + Sync>(
    rt: &R,
    alloc: Global,
    asked: &str,
    want: &'static str,
) -> Result<(), Fail> {
    let (threads, rest) = asked.split_once('¦').ok_or("no threads")?;
    let (held, events) = rest.split_once('¦').ok_or("no channel")?;
    let (printed, calls) = want.split_once('¦').ok_or("no calls")?;
    let (first, second) = calls.split_once('¦').ok_or("no two channels")?;
    let threads: u32 = threads.parse().ok().ok_or("no number")?;
    let gate = match held {
        "1" => gate_of(1, 2, first, second),
        "2" => gate_of(2, 1, first, second),
        _ => gate_of(0, 0, first, second),
    };
    let sharing = Sharing {
        threads,
        gate: &gate,
    };
    check_gated(rt, alloc, sharing, events, printed)
}

/// The gate is called around each event, with the turns of its seat, and the seats act at once.
#[test]
fn gates_are_called_around_each_event(rt: HostRuntime) -> Result<(), Fail> {
    for line in GATED.lines() {
        match line.split_once('→') {
            Some((asked, want)) => check_gate(&rt, rt.alloc(), asked, want)?,
            None => check_heading(line)?,
        }
    }
    Ok(())
}

/// Holds each seat before its event until this number of seats have come, and marks one that waits too long.
#[derive(Drop)]
struct Gathered {
    seats: u64,
    come: AtomicU64,
    marks: AtomicU64,
}

impl Gate for Gathered {
    fn before(&self, _channel: u32, _turn: u64) {
        self.come.fetch_add(1, Ordering::SeqCst);
        hold_until(&self.come, self.seats, &self.marks);
    }

    fn after(&self, _channel: u32, _reply: &Reply) {}
}

/// A call for each of nine seats, and one event for each.
const NINE: &[u8] =
    b"start main s\nstart main s\nstart main s\nstart main s\nstart main s\nstart main s\n\
start main s\nstart main s\nstart main s\nstep 1\nstep 2\nstep 3\nstep 4\nstep 5\nstep 6\nstep 7\nstep 8\nstep 9\n";

/// The status of a run of nine seats through the gate.
fn run_nine<R: Threads + Wait + Sync>(
    rt: &R,
    alloc: Global,
    gate: &Gathered,
    writer: &mut Told<Vec<u8>>,
) -> Result<u8, PbxFault> {
    let sharing = Sharing { threads: 9, gate };
    let (status, _) = run_threads(rt, alloc, bare(GATED_PLAN, NINE), sharing, writer)?;
    Ok(status)
}

fn check_gathered<R: Threads + Wait + Abort + Sync>(rt: &R, alloc: Global) -> Result<(), Fail> {
    let gate = Gathered {
        seats: 9,
        come: AtomicU64::new(0),
        marks: AtomicU64::new(0),
    };
    let mut writer = Told::new(Vec::new(alloc));
    let ended = run_nine(rt, alloc, &gate, &mut writer);
    assert!(rt;
        gate.marks.load(Ordering::SeqCst) == 0,
        "a seat waited too long for the others"
    );
    check_outcome(
        alloc,
        "nine seats",
        ended,
        &writer.into_inner(),
        "settled 9 seats 9 calls\nstatus 0",
    )
}

/// Each seat has a thread of its own, even if there are more than eight: each comes to its gate while all others wait there.
#[test]
fn nine_seats_act_at_once(rt: HostRuntime) -> Result<(), Fail> {
    check_gathered(&rt, rt.alloc())
}
