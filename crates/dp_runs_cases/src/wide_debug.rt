//! Debugged runs that state facts, plain and verbose, with everything that they print, worked out by hand from the rules.
use crate::verbose::{NAMES, SameExplanation};
use dp_case_tables::{Question, check_all};
use dp_commands_fixture::{RunTextsOf, make_sink, outcome_text, read_texts};
use dp_conf::NoMemory;
use dp_wide_runs::{debug_wide, debug_wide_verbose};
use std::alloc::Global;
use std::test::Fail;

/// Worked cases. A case is a break, a dialplan that begins in `[main]`, which is line 1 of its file, a file of queues and a script,
/// separated by `¦`, and a second dialplan after another `¦`, if there is one; then an arrow, and the trace followed by the status.
const BREAKS: &str = r"
# The break holds each time that the channel is ready there.
main,s,1¦exten => s,1,NoOp()\nexten => s,2,Goto(1)¦¦start main s\nstep 1 3→started 1\nbreak 1\nran 1 main,s,1 NoOp -> ready main,s,2\nran 1 main,s,2 Goto -> ready main,s,1\nbreak 3\nran 1 main,s,1 NoOp -> ready main,s,2\nend 4\nstatus 0
# Nothing is given if something is unknown ahead: there is no halt, and nothing is counted, also of the other steps of the line.
main,s,1¦exten => s,1,While(1)\nexten => s,2,NoOp()¦¦start main s\nstep 1 3\npass 1\nstep 1→started 1\nunknown 1 While -> ready main,s,1\nok 1 -> ready main,s,2\nran 1 main,s,2 NoOp -> ready main,s,3\nend 3\nstatus 4
# A pass is an event, and the step after it halts.
main,s,2¦exten => s,1,While(1)\nexten => s,2,NoOp()¦¦start main s\nstep 1\npass 1\nstep 1→started 1\nunknown 1 While -> ready main,s,1\nok 1 -> ready main,s,2\nbreak 2\nran 1 main,s,2 NoOp -> ready main,s,3\nend 3\nstatus 4
# So does a step that is given once a fact is stated; a fact is an event.
main,s,1¦exten => s,1,Set(A=${DB(x)})¦¦start main s\nstep 1\nlet 1 DB(x)=5\nstep 1→started 1\nunknown 1 DB(x) -> ready main,s,1\nok 1 -> ready main,s,1\nbreak 2\nran 1 main,s,1 Set -> ready main,s,2\nend 3\nstatus 4
main,s,1¦exten => s,1,Set(A=<${DB(x)}>)¦¦assume DB CDR\nstart main s\nstep 1→ok\nok\nstarted 1\nbreak 3\nran 1 main,s,1 Set -> ready main,s,2\nend 4\nstatus 0
# A refused event is counted, and a refused pass is none.
main,s,1¦exten => s,1,NoOp()¦¦start main s\npass 1\npass 9\nstep 9\nlet 9 X=1\nstep 1→started 1\nrefused 41 NotReady\nrefused 40 NoChannel\nrefused 40 NoChannel\nrefused 40 NoChannel\nbreak 3\nran 1 main,s,1 NoOp -> ready main,s,2\nend 4\nstatus 1
# There is no halt while the channel waits.
main,s,1¦exten => s,1,VoiceMail(1)¦¦start main s\nstep 1\nstep 1\ngo 1→started 1\nbreak 1\nran 1 main,s,1 VoiceMail -> pause\nrefused 41 NotReady\nok 1 -> ready main,s,2\nend 4\nstatus 1
# The dialplan that a reload puts in force.
main,s,2¦exten => s,1,NoOp()\nexten => s,2,NoOp()¦¦start main s\nstep 1\nreload\nstep 1¦[main]\nexten => s,2,Hangup()→started 1\nran 1 main,s,1 NoOp -> ready main,s,2\nok\nbreak 3\nran 1 main,s,2 Hangup -> ended\nend 4\nstatus 0
# A line that shows a value is left out, whether there is such a channel or not.
main,s,1¦exten => s,1,Set(A=5)¦¦start main s\nshow 9 A\nstep 1\nshow 1 A→started 1\nbreak 1\nran 1 main,s,1 Set -> ready main,s,2\nend 2\nstatus 0
main,s,1¦exten => s,1,NoOp()¦¦start main s\nshow 1 DB(k)\nshow 9 DB(k)→started 1\nend 1\nstatus 0
main,s,1¦exten => s,1,NoOp()¦¦; nothing→end 0\nstatus 0
# The break's fault comes first.
main,s¦abc¦¦walk 1→fault 71 BadBreak
main,s,0¦exten => s,1,NoOp()¦¦start main s→fault 71 BadBreak
main,s,1¦abc¦¦walk 1→fault 4 NoEquals line 2
main,s,1¦exten => s,1,NoOp()¦¦start main s\nwalk 1→fault 70 BadScript line 2
";

/// The same for verbose runs.
const VERBOSE_BREAKS: &str = r"
# The line of a halt is above the entry that the step runs, and there is none above a step that is not taken.
main,s,1¦exten => s,1,NoOp(${TOUPPER(ab)})\nexten => s,2,Set(A=${DB(x)})¦¦start main s\nstep 1 3\nlet 1 DB(x)=5\nstep 1\nshow 1 A→started 1\nbreak 1\n  conf/a.conf:2 NoOp(AB)\nran 1 main,s,1 NoOp -> ready main,s,2\nunknown 1 DB(x) -> ready main,s,2\nok 1 -> ready main,s,2\n  conf/a.conf:3 Set(A=5)\nran 1 main,s,2 Set -> ready main,s,3\nend 4\nstatus 4
main,s,2¦exten => s,1,NoOp(a)\nexten => s,2,Set(A=${DB(x)})¦¦start main s\nstep 1 2\nlet 1 DB(x)=5\nstep 1→started 1\n  conf/a.conf:2 NoOp(a)\nran 1 main,s,1 NoOp -> ready main,s,2\nunknown 1 DB(x) -> ready main,s,2\nok 1 -> ready main,s,2\nbreak 3\n  conf/a.conf:3 Set(A=5)\nran 1 main,s,2 Set -> ready main,s,3\nend 4\nstatus 4
# After a reload the second dialplan is shown.
main,s,2¦exten => s,1,NoOp(a)\nexten => s,2,NoOp(b)¦¦start main s\nstep 1\nreload\nstep 1¦[globals]\nX=1\n[main]\n\nexten => s,2,NoOp(<${X}>)→started 1\n  conf/a.conf:2 NoOp(a)\nran 1 main,s,1 NoOp -> ready main,s,2\nok\nbreak 3\n  b.conf:5 NoOp(<1>)\nran 1 main,s,2 NoOp -> ready main,s,3\nend 4\nstatus 0
# The explanations of a refused pass and of a refused event.
main,s,1¦exten => s,1,NoOp()¦¦start main s\npass 1\nstep 9\nshow 9 X\nstep 1→started 1\n  because\n  such as\nrefused 41 NotReady\n  because\n  such as\nrefused 40 NoChannel\nbreak 2\n  conf/a.conf:2 NoOp()\nran 1 main,s,1 NoOp -> ready main,s,2\nend 3\nstatus 1
# The faults are those of a run that is not verbose.
main,s¦abc¦¦walk 1→fault 71 BadBreak
main,s,1¦abc¦¦walk 1→fault 4 NoEquals line 2
main,s,1¦exten => s,1,NoOp()¦¦start main s\nwalk 1→fault 70 BadScript line 2
";

/// The texts of a case.
fn texts_of(alloc: Global, asked: &str) -> Result<RunTextsOf, Fail> {
    let (plan, rest) = asked.split_once('¦').ok_or("no queues")?;
    let (queues, script) = rest.split_once('¦').ok_or("no script")?;
    let texts = read_texts(alloc, plan, queues, script)?;
    Ok(texts)
}

/// The whole output of a debugged run of these texts, followed by its result.
fn plain_answer(alloc: Global, held: &str, texts: &RunTextsOf) -> Result<String, NoMemory> {
    let mut writer = make_sink(alloc, 4096, None);
    let ended = debug_wide(alloc, texts.lend(), held.as_bytes(), &mut writer);
    outcome_text(alloc, ended, writer)
}

/// The same for a verbose debugged run.
fn verbose_answer(alloc: Global, held: &str, texts: &RunTextsOf) -> Result<String, NoMemory> {
    let mut writer = make_sink(alloc, 4096, None);
    let ended = debug_wide_verbose::<SameExplanation, _>(
        alloc,
        texts.lend(),
        NAMES.places(),
        held.as_bytes(),
        &mut writer,
    );
    outcome_text(alloc, ended, writer)
}

/// The output and result of the debugged run of a case.
struct WideDebugged;

impl Question for WideDebugged {
    fn answer(alloc: Global, asked: &str) -> Result<String, Fail> {
        let (held, rest) = asked.split_once('¦').ok_or("no dialplan")?;
        let texts = texts_of(alloc, rest)?;
        let answer = plain_answer(alloc, held, &texts)?;
        Ok(answer)
    }
}

/// The output and result of the verbose debugged run of a case.
struct VerboseDebugged;

impl Question for VerboseDebugged {
    fn answer(alloc: Global, asked: &str) -> Result<String, Fail> {
        let (held, rest) = asked.split_once('¦').ok_or("no dialplan")?;
        let texts = texts_of(alloc, rest)?;
        let answer = verbose_answer(alloc, held, &texts)?;
        Ok(answer)
    }
}

/// Runs that stop before anything unknown halt at their break, and count the events that the machine was given.
#[test]
fn wide_runs_halt_at_their_break(rt: HostRuntime) -> Result<(), Fail> {
    check_all::<WideDebugged>(rt.alloc(), &[BREAKS])
}

/// Verbose runs halt at the same places.
#[test]
fn verbose_wide_runs_halt_at_their_break(rt: HostRuntime) -> Result<(), Fail> {
    check_all::<VerboseDebugged>(rt.alloc(), &[VERBOSE_BREAKS])
}
