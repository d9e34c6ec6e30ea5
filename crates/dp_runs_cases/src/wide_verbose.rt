//! Verbose runs that state facts, with everything that they print, worked out by hand from the rules.
use crate::verbose::{NAMES, SameExplanation};
use dp_case_tables::{Question, check_all};
use dp_commands_fixture::{RunTextsOf, make_sink, outcome_text, read_texts};
use dp_conf::NoMemory;
use dp_wide_runs::run_wide_verbose;
use std::alloc::Global;
use std::test::Fail;

/// Worked cases. A case is a dialplan that begins in `[main]`, which is line 1 of its file, a file of queues and a script, separated by
/// `¦`, and a second dialplan after another `¦`, if there is one; then an arrow, and the trace followed by the status.
const RUNS: &str = r"
# Each step that is taken is shown, with its arguments as the functions of the wide table expand them; one that is not taken is not.
exten => s,1,NoOp(${TOUPPER(ab)})\nexten => s,2,Set(A=${DB(x)})¦¦start main s\nstep 1 3\nlet 1 DB(x)=5\nstep 1→started 1\n  conf/a.conf:2 NoOp(AB)\nran 1 main,s,1 NoOp -> ready main,s,2\nunknown 1 DB(x) -> ready main,s,2\nok 1 -> ready main,s,2\n  conf/a.conf:3 Set(A=5)\nran 1 main,s,2 Set -> ready main,s,3\nstatus 4
exten => s,1,Set(N=4)\nexten => s,2,NoOp(${N})\nexten => s,3,Goto(2)¦¦start main s\nstep 1 4\nshow 1 N→started 1\n  conf/a.conf:2 Set(N=4)\nran 1 main,s,1 Set -> ready main,s,2\n  conf/a.conf:3 NoOp(4)\nran 1 main,s,2 NoOp -> ready main,s,3\n  conf/a.conf:4 Goto(2)\nran 1 main,s,3 Goto -> ready main,s,2\n  conf/a.conf:3 NoOp(4)\nran 1 main,s,2 NoOp -> ready main,s,3\nN=4\nstatus 0
# An application that only the wide table has.
exten => s,1,VoiceMail(1)\nexten => s,2,NoOp()¦¦start main s\nstep 1\ngo 1\nstep 1→started 1\n  conf/a.conf:2 VoiceMail(1)\nran 1 main,s,1 VoiceMail -> pause\nok 1 -> ready main,s,2\n  conf/a.conf:3 NoOp()\nran 1 main,s,2 NoOp -> ready main,s,3\nstatus 0
# There is nothing above a pass, and above a refused pass its explanation, as above each other refusal.
exten => s,1,While(1)\nexten => s,2,Hangup()¦¦start main s\nstep 1 2\npass 1\npass 1\nstep 1\npass 1\npass 2→started 1\nunknown 1 While -> ready main,s,1\nok 1 -> ready main,s,2\n  because\n  such as\nrefused 41 NotReady\n  conf/a.conf:3 Hangup()\nran 1 main,s,2 Hangup -> ended\n  because\n  such as\nrefused 49 Ended\n  because\n  such as\nrefused 40 NoChannel\nstatus 1
exten => s,1,NoOp()¦¦start main s\nlet 9 X=1\nredirect 9 main s\nstep 9\nshow 9 X\nlet 1 X=1\nredirect 1 main t→started 1\n  because\n  such as\nrefused 40 NoChannel\n  because\n  such as\nrefused 40 NoChannel\n  because\n  such as\nrefused 40 NoChannel\n  because\n  such as\nrefused 40 NoChannel\nok 1 -> ready main,s,1\nok 1 -> ready main,t,1\nstatus 1
# There is nothing above the value of a call, and above its refusal the explanation.
exten => s,1,Set(X=a-b)¦¦start main s\nstep 1\nshow 1 CUT(X,-,2)\nshow 1 DB(k)\nshow 9 DB(k)→started 1\n  conf/a.conf:2 Set(X=a-b)\nran 1 main,s,1 Set -> ready main,s,2\nCUT(X,-,2)=b\nunknown 1 DB(k) -> ready main,s,2\n  because\n  such as\nrefused 40 NoChannel\nstatus 1
# After a reload the second dialplan is shown, and after a refused one still the first.
exten => s,1,NoOp(a)\nexten => s,2,NoOp(b)¦¦start main s\nstep 1\nreload\nstep 1¦[globals]\nX=1\n[main]\n\nexten => s,2,NoOp(<${X}>)→started 1\n  conf/a.conf:2 NoOp(a)\nran 1 main,s,1 NoOp -> ready main,s,2\nok\n  b.conf:5 NoOp(<1>)\nran 1 main,s,2 NoOp -> ready main,s,3\nstatus 0
exten => s,1,NoOp(a)\nexten => s,2,NoOp(b)¦¦start main s\nstep 1\nreload\nstep 1¦[main→started 1\n  conf/a.conf:2 NoOp(a)\nran 1 main,s,1 NoOp -> ready main,s,2\n  because\n  such as\nrefused 52 BadPlan\n  conf/a.conf:3 NoOp(b)\nran 1 main,s,2 NoOp -> ready main,s,3\nstatus 1
# The faults are those of a run that is not verbose.
abc¦¦walk 1→fault 4 NoEquals line 2
exten => s,1,NoOp()¦¦start main s\nwalk 1→fault 70 BadScript line 2
";

/// The whole output of a verbose run of these texts, followed by its result.
fn answer_to(alloc: Global, texts: &RunTextsOf) -> Result<String, NoMemory> {
    let mut writer = make_sink(alloc, 4096, None);
    let ended = run_wide_verbose::<SameExplanation, _>(
        alloc,
        texts.lend(),
        NAMES.places(),
        &mut writer,
    );
    outcome_text(alloc, ended, writer)
}

/// The output and result of the verbose run of a case.
struct VerboseRun;

impl Question for VerboseRun {
    fn answer(alloc: Global, asked: &str) -> Result<String, Fail> {
        let (plan, rest) = asked.split_once('¦').ok_or("no queues")?;
        let (queues, script) = rest.split_once('¦').ok_or("no script")?;
        let texts = read_texts(alloc, plan, queues, script)?;
        let answer = answer_to(alloc, &texts)?;
        Ok(answer)
    }
}

/// Runs that stop before anything unknown are verbose like others.
#[test]
fn verbose_wide_runs_print_their_steps(rt: HostRuntime) -> Result<(), Fail> {
    check_all::<VerboseRun>(rt.alloc(), &[RUNS])
}
