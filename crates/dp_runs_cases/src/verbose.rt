//! Verbose runs and verbose debugged runs, with everything that they print, worked out by hand from the rules.
use dp_case_tables::{Question, check_all};
use dp_commands::{Explanations, PlanNames, debug_verbose, run_verbose};
use dp_commands_fixture::{RunTextsOf, make_sink, outcome_text, read_texts};
use dp_conf::NoMemory;
use dp_machine::Refusal;
use std::alloc::Global;
use std::test::Fail;

/// One explanation of two lines for all refusals.
pub(crate) struct SameExplanation;

impl Explanations for SameExplanation {
    ghost use Rattle.std.specs.Prelude.{codes};

    ghost explanation_of = { λ refusal. codes "because\nsuch as\n" };

    fn explanation(_refusal: Refusal) -> &'static str {
        "because\nsuch as\n"
    }
}

/// The files of the dialplans of all cases.
pub(crate) const NAMES: PlanNames<'static> = PlanNames {
    plan: "conf/a.conf",
    second_plan: Some("b.conf"),
};

/// Runs. A case is a dialplan that begins in `[main]`, which is line 1 of its file, a file of queues and a script, separated by `¦`, and a
/// second dialplan after another `¦`, if there is one; then an arrow, and the trace followed by the status.
const RUNS: &str = r"
# Each step that runs an entry is shown, by the line of the entry, and nothing else is.
exten => s,1,NoOp(hello)\n\n; a comment\n same => n,Goto(200,1)\nexten => 200,1,Hangup()¦¦start main s\nstep 1 3→started 1\n  conf/a.conf:2 NoOp(hello)\nran 1 main,s,1 NoOp -> ready main,s,2\n  conf/a.conf:5 Goto(200,1)\nran 1 main,s,2 Goto -> ready main,200,1\n  conf/a.conf:6 Hangup()\nran 1 main,200,1 Hangup -> ended\nstatus 0
exten => s,1,WaitExten()\nexten => i,1,NoOp()\nexten => h,1,NoOp()¦¦start main s\nstep 1\ndigit 1 7\nstep 1\nshow 1 INVALID_EXTEN\nhangup 1\nstep 1 2→started 1\n  conf/a.conf:2 WaitExten()\nran 1 main,s,1 WaitExten -> digits\nok 1 -> ready main,7,1\ninvalid 1 -> ready main,i,1\nINVALID_EXTEN=7\nok 1 -> ready main,h,1\n  conf/a.conf:4 NoOp()\nran 1 main,h,1 NoOp -> ready main,h,2\nno entry 1 -> ended\nstatus 0
# The arguments are those of the step, as they are expanded before it; the application is as the entry writes it.
exten => s,1,Set(N=4)\nexten => s,2,Set(N=$[${N} + 1])\nexten => s,3,nOoP(${N}-${EXTEN}-${LEN(${N}00)})\nexten => s,4,Goto(2)¦¦start main s\nstep 1 5→started 1\n  conf/a.conf:2 Set(N=4)\nran 1 main,s,1 Set -> ready main,s,2\n  conf/a.conf:3 Set(N=5)\nran 1 main,s,2 Set -> ready main,s,3\n  conf/a.conf:4 nOoP(5-s-3)\nran 1 main,s,3 nOoP -> ready main,s,4\n  conf/a.conf:5 Goto(2)\nran 1 main,s,4 Goto -> ready main,s,2\n  conf/a.conf:3 Set(N=6)\nran 1 main,s,2 Set -> ready main,s,3\nstatus 0
exten => s,1,NoOp\nexten => s,2,Set(A=(x)¦¦start main s\nstep 1 2→started 1\n  conf/a.conf:2 NoOp()\nran 1 main,s,1 NoOp -> ready main,s,2\n  conf/a.conf:3 Set(A=(x)\nran 1 main,s,2 Set -> ready main,s,3\nstatus 0
# Each channel expands for itself.
exten => s,1,NoOp(${CALLERID(num)} in ${CHANNEL})¦¦start main s 55\nstart main s 66\nstep 2\nstep 1→started 1\nstarted 2\n  conf/a.conf:2 NoOp(66 in Channel/2)\nran 2 main,s,1 NoOp -> ready main,s,2\n  conf/a.conf:2 NoOp(55 in Channel/1)\nran 1 main,s,1 NoOp -> ready main,s,2\nstatus 0
# An entry of a pattern, in an included context, and one below a line that is dropped.
include => more\n[more]\nexten => _2XX,1,NoOp(${EXTEN})\nexten => _2XX,1,NoOp(again)\nexten => _2XX,2,NoOp(${CONTEXT})¦¦start main 200\nstep 1 2→started 1\n  conf/a.conf:4 NoOp(200)\nran 1 more,_2XX,1 NoOp -> ready main,200,2\n  conf/a.conf:6 NoOp(main)\nran 1 more,_2XX,2 NoOp -> ready main,200,3\nstatus 0
# A context that is in two places.
exten => s,1,NoOp(a)\n[x]\nexten => s,1,NoOp(x)\n[main]\nexten => s,2,NoOp(b)¦¦start main s\nstep 1 2→started 1\n  conf/a.conf:2 NoOp(a)\nran 1 main,s,1 NoOp -> ready main,s,2\n  conf/a.conf:6 NoOp(b)\nran 1 main,s,2 NoOp -> ready main,s,3\nstatus 0
# Each refusal is explained, that of a `show` too.
exten => s,1,Queue(q)¦[q]¦step 1\nstart main s\ndigit 1 5\ndigit 1 x\noffer z\noffer q\nstep 1\nstep 1→  because\n  such as\nrefused 40 NoChannel\nstarted 1\n  because\n  such as\nrefused 42 NotWaiting\n  because\n  such as\nrefused 51 BadDigit\n  because\n  such as\nrefused 44 NoQueue\n  because\n  such as\nrefused 45 NobodyWaiting\n  conf/a.conf:2 Queue(q)\nran 1 main,s,1 Queue -> queued q\n  because\n  such as\nrefused 41 NotReady\nstatus 1
exten => s,1,Queue(q)¦[q]¦start main s\nstep 1\ntimeout 1\noffer q\nanswer Line/1\ndone Line/1\nhangup 1\nstep 1→started 1\n  conf/a.conf:2 Queue(q)\nran 1 main,s,1 Queue -> queued q\n  because\n  such as\nrefused 43 NoTimer\n  because\n  such as\nrefused 46 NoMember\n  because\n  such as\nrefused 47 NotRinging\n  because\n  such as\nrefused 48 NotTalking\nok 1 -> ended\n  because\n  such as\nrefused 49 Ended\nstatus 1
¦¦show 1 N\nstart main s\nresult 1 BUSY\nshow 1 EXTEN→  because\n  such as\nrefused 40 NoChannel\nstarted 1\n  because\n  such as\nrefused 53 NotDialling\nEXTEN=s\nstatus 1
# After a reload the second dialplan is shown, and after a refused one still the first.
exten => 100,1,NoOp(a)\nexten => 100,2,NoOp(b)¦¦start main 100\nstep 1\nreload\nstep 1\nreload\nstep 1¦[globals]\nX=1\n[main]\n\nexten => _1XX,2,NoOp(${X})\nexten => _1XX,3,NoOp(c)→started 1\n  conf/a.conf:2 NoOp(a)\nran 1 main,100,1 NoOp -> ready main,100,2\nok\n  b.conf:5 NoOp(1)\nran 1 main,_1XX,2 NoOp -> ready main,100,3\nok\n  b.conf:6 NoOp(c)\nran 1 main,_1XX,3 NoOp -> ready main,100,4\nstatus 0
exten => 100,1,NoOp(a)\nexten => 100,2,NoOp(b)¦¦start main 100\nstep 1\nreload\nstep 1¦[main→started 1\n  conf/a.conf:2 NoOp(a)\nran 1 main,100,1 NoOp -> ready main,100,2\n  because\n  such as\nrefused 52 BadPlan\n  conf/a.conf:3 NoOp(b)\nran 1 main,100,2 NoOp -> ready main,100,3\nstatus 1
# The faults are those of a plain run.
abc¦[q]\nmaxlen=x¦jump 1→fault 4 NoEquals line 2
¦[q]\nmaxlen=x¦jump 1→fault 31 BadNumber line 2
¦¦start main s\njump 1→fault 70 BadScript line 2
¦¦reload→fault 70 BadScript line 1
¦¦→status 0
";

/// Debugged runs. A case has a break before the other parts.
const DEBUGS: &str = r"
# Below the line of a halt.
main,200,1¦exten => 100,1,NoOp(hello)\nexten => 100,2,Goto(200,1)\nexten => 200,1,Hangup()¦¦start main 100\nstep 1 3→started 1\n  conf/a.conf:2 NoOp(hello)\nran 1 main,100,1 NoOp -> ready main,100,2\n  conf/a.conf:3 Goto(200,1)\nran 1 main,100,2 Goto -> ready main,200,1\nbreak 3\n  conf/a.conf:4 Hangup()\nran 1 main,200,1 Hangup -> ended\nend 4\nstatus 0
main,s,1¦exten => s,1,Set(A=${A}x)\nexten => s,2,Goto(1)¦¦start main s\nstep 1 3→started 1\nbreak 1\n  conf/a.conf:2 Set(A=x)\nran 1 main,s,1 Set -> ready main,s,2\n  conf/a.conf:3 Goto(1)\nran 1 main,s,2 Goto -> ready main,s,1\nbreak 3\n  conf/a.conf:2 Set(A=xx)\nran 1 main,s,1 Set -> ready main,s,2\nend 4\nstatus 0
# If no entry runs, there is nothing.
main,s,1¦¦¦start main s\nstep 1→started 1\nbreak 1\nno entry 1 -> ended\nend 2\nstatus 0
# Refusals and reloads, and a `show` that is skipped.
main,100,2¦exten => 100,1,NoOp(a)\nexten => 100,2,NoOp(b)¦¦step 1\nshow 1 X\nstart main 100\nstep 1\nreload\nstep 1¦[globals]\nX=1\n[main]\nexten => _1XX,2,NoOp(${X})→  because\n  such as\nrefused 40 NoChannel\nstarted 1\n  conf/a.conf:2 NoOp(a)\nran 1 main,100,1 NoOp -> ready main,100,2\nok\nbreak 4\n  b.conf:4 NoOp(1)\nran 1 main,_1XX,2 NoOp -> ready main,100,3\nend 5\nstatus 1
main,100,2¦exten => 100,1,NoOp(a)\nexten => 100,2,NoOp(b)¦¦start main 100\nstep 1\nreload\nstep 1¦[main→started 1\n  conf/a.conf:2 NoOp(a)\nran 1 main,100,1 NoOp -> ready main,100,2\n  because\n  such as\nrefused 52 BadPlan\nbreak 3\n  conf/a.conf:3 NoOp(b)\nran 1 main,100,2 NoOp -> ready main,100,3\nend 4\nstatus 1
# The faults are those of a plain debugged run.
main,s¦abc¦¦jump 1→fault 71 BadBreak
main,s,1¦abc¦¦jump 1→fault 4 NoEquals line 2
main,s,1¦¦¦jump 1→fault 70 BadScript line 1
";

/// The whole output of a verbose run of these texts, followed by its result.
fn run_answer(alloc: Global, texts: &RunTextsOf) -> Result<String, NoMemory> {
    let mut writer = make_sink(alloc, 4096, None);
    let ended = run_verbose::<SameExplanation, _>(alloc, texts.lend(), NAMES, &mut writer);
    outcome_text(alloc, ended, writer)
}

/// The same for a verbose debugged run.
fn debug_answer(alloc: Global, held: &str, texts: &RunTextsOf) -> Result<String, NoMemory> {
    let mut writer = make_sink(alloc, 4096, None);
    let ended = debug_verbose::<SameExplanation, _>(
        alloc,
        texts.lend(),
        NAMES,
        held.as_bytes(),
        &mut writer,
    );
    outcome_text(alloc, ended, writer)
}

/// The texts of a case.
fn texts_of(alloc: Global, asked: &str) -> Result<RunTextsOf, Fail> {
    let (plan, rest) = asked.split_once('¦').ok_or("no queues")?;
    let (queues, script) = rest.split_once('¦').ok_or("no script")?;
    let texts = read_texts(alloc, plan, queues, script)?;
    Ok(texts)
}

/// The output and result of the verbose run of a case.
struct PlainVerboseRun;

impl Question for PlainVerboseRun {
    fn answer(alloc: Global, asked: &str) -> Result<String, Fail> {
        let texts = texts_of(alloc, asked)?;
        let answer = run_answer(alloc, &texts)?;
        Ok(answer)
    }
}

/// The output and result of the verbose debugged run of a case.
struct PlainVerboseDebugged;

impl Question for PlainVerboseDebugged {
    fn answer(alloc: Global, asked: &str) -> Result<String, Fail> {
        let (held, rest) = asked.split_once('¦').ok_or("no dialplan")?;
        let texts = texts_of(alloc, rest)?;
        let answer = debug_answer(alloc, held, &texts)?;
        Ok(answer)
    }
}

/// Verbose runs of scripts.
#[test]
fn verbose_runs_print_their_steps(rt: HostRuntime) -> Result<(), Fail> {
    check_all::<PlainVerboseRun>(rt.alloc(), &[RUNS])
}

/// Verbose debugged runs of scripts.
#[test]
fn verbose_debugged_runs_print_their_steps(rt: HostRuntime) -> Result<(), Fail> {
    check_all::<PlainVerboseDebugged>(rt.alloc(), &[DEBUGS])
}
