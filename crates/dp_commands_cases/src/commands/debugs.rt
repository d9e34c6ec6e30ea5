//! Debugged runs, with everything that they print, worked out by hand from the rules.
use dp_case_tables::{Question, check_all};
use dp_commands::debug_script;
use dp_commands_fixture::{RunTextsOf, make_sink, outcome_text, read_texts};
use dp_conf::NoMemory;
use std::alloc::Global;
use std::test::Fail;

/// Worked cases. A case is a break, a dialplan that begins in `[main]`, a file of queues and a script, separated by `¦`, and a second
/// dialplan after another `¦`, if there is one; then an arrow, and the trace followed by the status.
const ROWS: &str = r"
# first-run
main,200,1¦exten => 100,1,NoOp(hello)\nexten => 100,2,Goto(200,1)\nexten => 200,1,Hangup()¦¦start main 100\nstep 1 3→started 1\nran 1 main,100,1 NoOp -> ready main,100,2\nran 1 main,100,2 Goto -> ready main,200,1\nbreak 3\nran 1 main,200,1 Hangup -> ended\nend 4\nstatus 0
# reload
main,100,2¦exten => 100,1,NoOp(a)\nexten => 100,2,NoOp(b)\n[globals]\nX=1\nY=5¦¦start main 100\nstep 1\nreload\nshow 1 X\nshow 1 Y\nstep 1¦[globals]\nX=${X}2\n[main]\nexten => _1XX,2,Hangup()→started 1\nran 1 main,100,1 NoOp -> ready main,100,2\nok\nbreak 3\nran 1 main,_1XX,2 Hangup -> ended\nend 4\nstatus 0
main,100,2¦exten => 100,1,NoOp(a)\nexten => 100,2,NoOp(b)\n[globals]\nX=1\nY=5¦¦start main 100\nstep 1\nreload\nshow 1 X\nshow 1 Y\nstep 1¦[main→started 1\nran 1 main,100,1 NoOp -> ready main,100,2\nrefused 52 BadPlan\nbreak 3\nran 1 main,100,2 NoOp -> ready main,100,3\nend 4\nstatus 1
# dial
main,s,1¦exten => s,1,Dial(Line/5,20)\nexten => s,2,NoOp()\nexten => h,1,Dial(Line/6)¦¦start main s\nstep 1\nresult 1 BUSY\nshow 1 DIALSTATUS\nresult 1 BUSY→started 1\nbreak 1\nran 1 main,s,1 Dial -> dialling\nok 1 -> ready main,s,2\nrefused 53 NotDialling\nend 4\nstatus 1
# Before the first step.
main,100,1¦exten => 100,1,NoOp(hello)\nexten => 100,2,Goto(200,1)\nexten => 200,1,Hangup()¦¦start main 100\nstep 1 3→started 1\nbreak 1\nran 1 main,100,1 NoOp -> ready main,100,2\nran 1 main,100,2 Goto -> ready main,200,1\nran 1 main,200,1 Hangup -> ended\nend 4\nstatus 0
# No break holds, or there is no event.
main,100,3¦exten => 100,1,NoOp(hello)¦¦start main 100\nstep 1→started 1\nran 1 main,100,1 NoOp -> ready main,100,2\nend 2\nstatus 0
main,100,1¦¦¦→end 0\nstatus 0
main,100,1¦¦¦step 1 0→end 0\nstatus 0
# It holds at each turn of a loop.
main,s,1¦exten => s,1,Goto(1)¦¦start main s\nstep 1\nstep 1 2→started 1\nbreak 1\nran 1 main,s,1 Goto -> ready main,s,1\nbreak 2\nran 1 main,s,1 Goto -> ready main,s,1\nbreak 3\nran 1 main,s,1 Goto -> ready main,s,1\nend 4\nstatus 0
main,s,2¦exten => s,1,NoOp()\nexten => s,2,Goto(1)¦¦start main s\nstep 1 4→started 1\nran 1 main,s,1 NoOp -> ready main,s,2\nbreak 2\nran 1 main,s,2 Goto -> ready main,s,1\nran 1 main,s,1 NoOp -> ready main,s,2\nbreak 4\nran 1 main,s,2 Goto -> ready main,s,1\nend 5\nstatus 0
# For each channel at the place.
main,s,1¦exten => s,1,NoOp()¦¦start main s\nstart main s\nstep 2\nstep 1→started 1\nstarted 2\nbreak 2\nran 2 main,s,1 NoOp -> ready main,s,2\nbreak 3\nran 1 main,s,1 NoOp -> ready main,s,2\nend 4\nstatus 0
# It also holds if no entry is found.
main,s,1¦¦¦start main s\nstep 1→started 1\nbreak 1\nno entry 1 -> ended\nend 2\nstatus 0
main,s,2147483647¦exten => s,1,Goto(2147483647)¦¦start main s\nstep 1 2→started 1\nran 1 main,s,1 Goto -> ready main,s,2147483647\nbreak 2\nno entry 1 -> ended\nend 3\nstatus 0
# No break holds before a reload, also of an empty dialplan, nor before the result of a call to devices.
main,s,1¦exten => s,1,NoOp()¦¦start main s\nreload\nstep 1¦→started 1\nok\nbreak 2\nno entry 1 -> ended\nend 3\nstatus 0
main,s,1¦exten => s,1,Dial(x,,g)¦¦start main s\nstep 1\nresult 1 ANSWER\nreload¦→started 1\nbreak 1\nran 1 main,s,1 Dial -> dialling\nok 1 -> ready main,s,2\nok\nend 4\nstatus 0
# A `show` is skipped: it is not counted, and for a missing channel it leaves the status 0.
main,s,1¦exten => s,1,NoOp()¦¦show 1 EXTEN\nstart main s\nshow 1 EXTEN\nshow 2 EXTEN\nstep 1→started 1\nbreak 1\nran 1 main,s,1 NoOp -> ready main,s,2\nend 2\nstatus 0
# A refused event is counted.
main,s,1¦exten => s,1,NoOp()¦¦step 1\nstart main s\nstep 1→refused 40 NoChannel\nstarted 1\nbreak 2\nran 1 main,s,1 NoOp -> ready main,s,2\nend 3\nstatus 1
";

/// Cases in which a break does not hold.
const ELSEWHERE: &str = r"
# The name of a pattern is not a place; what was dialled is one, with its dashes.
main,_2XX,1¦exten => _2XX,1,NoOp()¦¦start main 2-00\nstep 1→started 1\nran 1 main,_2XX,1 NoOp -> ready main,2-00,2\nend 2\nstatus 0
main,200,1¦exten => _2XX,1,NoOp()¦¦start main 2-00\nstep 1→started 1\nran 1 main,_2XX,1 NoOp -> ready main,2-00,2\nend 2\nstatus 0
main,2-00,1¦exten => _2XX,1,NoOp()¦¦start main 2-00\nstep 1→started 1\nbreak 1\nran 1 main,_2XX,1 NoOp -> ready main,2-00,2\nend 2\nstatus 0
# An included context is not a place.
more,s,1¦include => more\n[more]\nexten => s,1,NoOp()¦¦start main s\nstep 1→started 1\nran 1 more,s,1 NoOp -> ready main,s,2\nend 2\nstatus 0
main,s,1¦include => more\n[more]\nexten => s,1,NoOp()¦¦start main s\nstep 1→started 1\nbreak 1\nran 1 more,s,1 NoOp -> ready main,s,2\nend 2\nstatus 0
# Case counts, and blanks are kept.
Main,s,1¦exten => s,1,NoOp()¦¦start main s\nstep 1→started 1\nran 1 main,s,1 NoOp -> ready main,s,2\nend 2\nstatus 0
main, s,1¦exten => s,1,NoOp()¦¦start main s\nstep 1→started 1\nran 1 main,s,1 NoOp -> ready main,s,2\nend 2\nstatus 0
,,1¦exten => s,1,NoOp()¦¦start main s\nstep 1→started 1\nran 1 main,s,1 NoOp -> ready main,s,2\nend 2\nstatus 0
# A priority is a number.
main,s,002¦exten => s,1,NoOp()\nexten => s,2,NoOp()¦¦start main s\nstep 1 2→started 1\nran 1 main,s,1 NoOp -> ready main,s,2\nbreak 2\nran 1 main,s,2 NoOp -> ready main,s,3\nend 3\nstatus 0
# It does not hold before another event, nor before a step of a channel that is over or waits.
main,s,1¦exten => s,1,NoOp()¦¦start main s\nhangup 1→started 1\nok 1 -> ended\nend 2\nstatus 0
main,s,1¦exten => s,1,Hangup()¦¦start main s\nstep 1 2→started 1\nbreak 1\nran 1 main,s,1 Hangup -> ended\nrefused 49 Ended\nend 3\nstatus 1
main,s,1¦exten => s,1,Queue(q,,,,30)¦[q]¦start main s\nstep 1 2\ntimeout 1→started 1\nbreak 1\nran 1 main,s,1 Queue -> queued q\nrefused 41 NotReady\nok 1 -> ready main,s,2\nend 4\nstatus 1
# With an agent.
main,s,2¦exten => s,1,Queue(q,c)\nexten => s,2,NoOp()¦[q]\nmember => Line/1\nmember => Line/2¦start main s\nstep 1\noffer q\nanswer Line/1\nanswer Line/2\ndone Line/1\nstep 1→started 1\nran 1 main,s,1 Queue -> queued q\noffered 1 2\nok\nrefused 47 NotRinging\nok\nbreak 6\nran 1 main,s,2 NoOp -> ready main,s,3\nend 7\nstatus 1
";

/// Texts that are not a break, and faults of the other texts after them.
const FAULTS: &str = r"
# breaks-by-application
main,s¦exten => s,1,NoOp()¦¦start main s→fault 71 BadBreak
¦¦¦→fault 71 BadBreak
main¦¦¦→fault 71 BadBreak
,,¦¦¦→fault 71 BadBreak
main,s,1,¦¦¦→fault 71 BadBreak
main,s,1,2¦¦¦→fault 71 BadBreak
main,s,0¦¦¦→fault 71 BadBreak
main,s,00¦¦¦→fault 71 BadBreak
main,s,+1¦¦¦→fault 71 BadBreak
main,s,-1¦¦¦→fault 71 BadBreak
main,s, 1¦¦¦→fault 71 BadBreak
main,s,1 ¦¦¦→fault 71 BadBreak
main,s,n¦¦¦→fault 71 BadBreak
main,s,2147483648¦¦¦→fault 71 BadBreak
main,s,18446744073709551617¦¦¦→fault 71 BadBreak
# Before the faults of the three texts.
main,s¦abc¦[q]\nmaxlen=x¦jump 1→fault 71 BadBreak
main,s,1¦abc¦[q]\nmaxlen=x¦jump 1→fault 4 NoEquals line 2
main,s,1¦¦[q]\nmaxlen=x¦jump 1→fault 31 BadNumber line 2
main,s,1¦¦¦start main s\njump 1→fault 70 BadScript line 2
# A second dialplan that is missing, and one whose fault no event meets.
main,s¦¦¦reload→fault 71 BadBreak
main,s,1¦¦[q]\nmaxlen=x¦reload→fault 31 BadNumber line 2
main,s,1¦¦¦reload→fault 70 BadScript line 1
main,s,1¦¦¦¦[main→end 0\nstatus 0
";

/// The whole output of a debugged run of these texts, followed by its result.
fn answer_to(alloc: Global, held: &str, texts: &RunTextsOf) -> Result<String, NoMemory> {
    let mut writer = make_sink(alloc, 4096, None);
    let ended = debug_script(alloc, texts.lend(), held.as_bytes(), &mut writer);
    outcome_text(alloc, ended, writer)
}

/// The same for the texts of a case.
fn answer_of(
    alloc: Global,
    held: &str,
    plan: &str,
    queues: &str,
    script: &str,
) -> Result<String, NoMemory> {
    let texts = read_texts(alloc, plan, queues, script)?;
    answer_to(alloc, held, &texts)
}

/// The output and result of the debugged run of a case.
struct DebuggedScript;

impl Question for DebuggedScript {
    fn answer(alloc: Global, asked: &str) -> Result<String, Fail> {
        let (held, rest) = asked.split_once('¦').ok_or("no dialplan")?;
        let (plan, rest) = rest.split_once('¦').ok_or("no queues")?;
        let (queues, script) = rest.split_once('¦').ok_or("no script")?;
        let answer = answer_of(alloc, held, plan, queues, script)?;
        Ok(answer)
    }
}

/// Debugged runs of scripts, from their breaks to their ends.
#[test]
fn scripts_are_debugged(rt: HostRuntime) -> Result<(), Fail> {
    check_all::<DebuggedScript>(rt.alloc(), &[ROWS, ELSEWHERE, FAULTS])
}
