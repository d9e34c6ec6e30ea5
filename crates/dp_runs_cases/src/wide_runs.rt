//! Runs that state facts and stop before anything unknown, with everything that they print, worked out by hand from the rules.
use dp_case_tables::{Question, check_all};
use dp_commands_fixture::{RunTextsOf, make_sink, outcome_text, read_texts};
use dp_conf::NoMemory;
use dp_wide_runs::run_wide;
use std::alloc::Global;
use std::test::Fail;

/// Worked cases. A case is a dialplan that begins in `[main]`, a file of queues and a script, separated by `¦`, and a second dialplan after
/// another `¦`, if there is one; then an arrow, and the trace followed by the status.
const STOPS: &str = r"
# If everything is known, a run goes as without the option.
exten => s,1,Set(A=1)\nexten => s,2,Hangup()¦¦start main s\nstep 1 2\nshow 1 A→started 1\nran 1 main,s,1 Set -> ready main,s,2\nran 1 main,s,2 Hangup -> ended\nA=1\nstatus 0
exten => s,1,Queue(q)¦[q]\nmember => Line/1¦start main s\nstep 1\noffer q→started 1\nran 1 main,s,1 Queue -> queued q\noffered 1 1\nstatus 0
# A step is not taken if a group or an application is unknown, and the state stays.
exten => s,1,Set(A=${DB(x)})¦¦start main s\nstep 1\nshow 1 A→started 1\nunknown 1 DB(x) -> ready main,s,1\nA=\nstatus 4
exten => s,1,While(1)¦¦start main s\nstep 1→started 1\nunknown 1 While -> ready main,s,1\nstatus 4
exten => s,1,GotoIf($[7 / 2 = 3]?2)¦¦start main s\nstep 1→started 1\nunknown 1 $[7 / 2 = 3] -> ready main,s,1\nstatus 4
# The other steps of the line are left out, and the next line tries again.
exten => s,1,NoOp()\nexten => s,2,While(1)¦¦start main s\nstep 1 5\nstep 1→started 1\nran 1 main,s,1 NoOp -> ready main,s,2\nunknown 1 While -> ready main,s,2\nunknown 1 While -> ready main,s,2\nstatus 4
# The other channels go on.
exten => s,1,While(1)\nexten => t,1,NoOp()¦¦start main s\nstart main t\nstep 1\nstep 2→started 1\nstarted 2\nunknown 1 While -> ready main,s,1\nran 2 main,t,1 NoOp -> ready main,t,2\nstatus 4
# A refusal counts for more than a stop.
exten => s,1,While(1)¦¦start main s\nstep 1\nstep 9→started 1\nunknown 1 While -> ready main,s,1\nrefused 40 NoChannel\nstatus 1
";

/// The same for facts.
const FACTS: &str = r"
# A fact makes something known, and the next step goes on.
exten => s,1,Set(A=${DB(x)})¦¦start main s\nstep 1\nlet 1 DB(x)=5\nstep 1\nshow 1 A→started 1\nunknown 1 DB(x) -> ready main,s,1\nok 1 -> ready main,s,1\nran 1 main,s,1 Set -> ready main,s,2\nA=5\nstatus 4
exten => s,1,Set(A=${DB(x)})¦¦start main s\nglobal DB(x)=a b\nstep 1\nshow 1 A→started 1\nok\nran 1 main,s,1 Set -> ready main,s,2\nA=a b\nstatus 0
# A cell of one channel is not that of another.
exten => s,1,Set(A=${CDR(x)})¦¦start main s\nstart main s\nlet 1 CDR(x)=5\nstep 1\nstep 2→started 1\nstarted 2\nok 1 -> ready main,s,1\nran 1 main,s,1 Set -> ready main,s,2\nunknown 2 CDR(x) -> ready main,s,1\nstatus 4
# A value may be empty, and have blanks and signs inside.
exten => s,1,NoOp()¦¦start main s\nlet 1 X=\nshow 1 X\nlet 1  Y =  a = b  \nshow 1 Y→started 1\nok 1 -> ready main,s,1\nX=\nok 1 -> ready main,s,1\nY=a = b\nstatus 0
exten => s,1,NoOp()¦¦start main s\nlet 9 X=1→started 1\nrefused 40 NoChannel\nstatus 1
# The result of an application that runs outside, and how the call goes on.
exten => s,1,VoiceMail(1)\nexten => s,2,Set(A=${VMSTATUS})¦¦start main s\nstep 1\nlet 1 VMSTATUS=OK\ngo 1\nstep 1\nshow 1 A→started 1\nran 1 main,s,1 VoiceMail -> pause\nok 1 -> pause\nok 1 -> ready main,s,2\nran 1 main,s,2 Set -> ready main,s,3\nA=OK\nstatus 0
exten => s,1,Read(PIN,beep)\nexten => s,2,GotoIf($[${PIN} = 42]?4)\nexten => s,4,NoOp()¦¦start main s\nstep 1\ngo 1\nstep 1\nlet 1 PIN=42\nstep 1→started 1\nran 1 main,s,1 Read -> pause\nok 1 -> ready main,s,2\nunknown 1 PIN -> ready main,s,2\nok 1 -> ready main,s,2\nran 1 main,s,2 GotoIf -> ready main,s,4\nstatus 4
# The results of a call to devices that a plain script does not have.
exten => s,1,Dial(SIP/1)\nexten => s,2,NoOp(${DIALSTATUS})¦¦start main s\nstep 1\nresult 1 TORTURE\nshow 1 DIALSTATUS→started 1\nran 1 main,s,1 Dial -> dialling\nok 1 -> ready main,s,2\nDIALSTATUS=TORTURE\nstatus 0
exten => s,1,Dial(SIP/1,,g)¦¦start main s\nresult 1 DONTCALL\nstep 1\nresult 1 INVALIDARGS\nresult 9 DONTCALL→started 1\nrefused 53 NotDialling\nran 1 main,s,1 Dial -> dialling\nok 1 -> ready main,s,2\nrefused 40 NoChannel\nstatus 1
# A macro that is not there, and keys that are deleted with those below them.
exten => s,1,Macro(none,x)\nexten => s,2,NoOp(${ARG1})¦¦start main s\nstep 1 2→started 1\nran 1 main,s,1 Macro -> ready main,s,2\nran 1 main,s,2 NoOp -> ready main,s,3\nstatus 0
exten => s,1,Set(DB(a/b)=1)\nexten => s,2,DBdeltree(a)\nexten => s,3,Set(A=<${DB(a/b)}${DB(a/c)}>)\nexten => s,4,Set(A=${DB(b)})¦¦start main s\nstep 1 4\nshow 1 A→started 1\nran 1 main,s,1 Set -> ready main,s,2\nran 1 main,s,2 DBdeltree -> ready main,s,3\nran 1 main,s,3 Set -> ready main,s,4\nunknown 1 DB(b) -> ready main,s,4\nA=<>\nstatus 4
# The clock.
exten => s,1,GotoIfTime(9:00-17:00,mon-fri,*,*?3)\nexten => s,3,NoOp()¦¦start main s\nstep 1\nclock wed 2026-11-25 10:30\nstep 1→started 1\nunknown 1 CLOCK -> ready main,s,1\nok\nran 1 main,s,1 GotoIfTime -> ready main,s,3\nstatus 4
# What nothing set is empty if the script says so, in the functions that it names and in no others.
exten => s,1,Set(A=<${DB(x)}>)\nexten => s,2,Set(B=<${CDR(x)}>)¦¦assume DB\nstart main s\nstep 1 2\nshow 1 A→ok\nstarted 1\nran 1 main,s,1 Set -> ready main,s,2\nunknown 1 CDR(x) -> ready main,s,2\nA=<>\nstatus 4
exten => s,1,Set(A=<${CDR(x)}${DB(x)}>)¦¦start main s\nassume DB  CDR\nstep 1\nshow 1 A→started 1\nok\nok\nran 1 main,s,1 Set -> ready main,s,2\nA=<>\nstatus 0
exten => s,1,Set(A=${DB_EXISTS(x)}${DB_DELETE(x)}${CALLERID(name)}${DB(y)})¦¦assume DB CALLERID\nglobal DB(y)=1\nstart main s\nstep 1\nshow 1 A→ok\nok\nok\nstarted 1\nran 1 main,s,1 Set -> ready main,s,2\nA=01\nstatus 0
exten => s,1,Set(A=${LEN(${CALLERID(all)})})¦¦start main s 7\nstep 1\nassume CALLERID\nstep 1\nshow 1 A→started 1\nunknown 1 CALLERID(all) -> ready main,s,1\nok\nran 1 main,s,1 Set -> ready main,s,2\nA=6\nstatus 4
# Another place.
exten => s,1,While(1)\nexten => t,1,NoOp()\nexten => t,2,NoOp()¦¦start main s\nredirect 1 main t\nstep 1\nredirect 1 main t 2\nredirect 9 main t→started 1\nok 1 -> ready main,t,1\nran 1 main,t,1 NoOp -> ready main,t,2\nok 1 -> ready main,t,2\nrefused 40 NoChannel\nstatus 1
# It skips an entry that is unknown, and no other.
exten => s,1,While(1)\nexten => s,2,NoOp()¦¦start main s\npass 1\nstep 1\npass 1\npass 2\nhangup 1\npass 1→started 1\nok 1 -> ready main,s,2\nran 1 main,s,2 NoOp -> ready main,s,3\nrefused 41 NotReady\nrefused 40 NoChannel\nok 1 -> ended\nrefused 49 Ended\nstatus 1
";

/// The same for calls that are shown.
const CALLS: &str = r"
# A call is shown with its value in the channel.
exten => s,1,Set(X=a-b-c)¦¦start main s\nstep 1\nshow 1 CUT(X,-,2)\nshow 1 LEN(${X})\nshow 1 X→started 1\nran 1 main,s,1 Set -> ready main,s,2\nCUT(X,-,2)=b\nLEN(${X})=5\nX=a-b-c\nstatus 0
exten => s,1,NoOp()¦¦start main s\nglobal DB(k)=a b\nshow 1 DB(k)→started 1\nok\nDB(k)=a b\nstatus 0
# The name of the channel is shown like a call.
exten => s,1,Set(A=${CHANNEL})¦¦start main s\nshow 1 CHANNEL\nstep 1\nlet 1 CHANNEL=SIP/1-01\nshow 1 CHANNEL\nstep 1\nshow 1 A→started 1\nunknown 1 CHANNEL -> ready main,s,1\nunknown 1 CHANNEL -> ready main,s,1\nok 1 -> ready main,s,1\nCHANNEL=SIP/1-01\nran 1 main,s,1 Set -> ready main,s,2\nA=SIP/1-01\nstatus 4
# It is not shown while something in it is unknown, and the run has stopped once.
exten => s,1,NoOp()¦¦start main s\nshow 1 DB(k)\nstep 1\nlet 1 DB(k)=5\nshow 1 DB(k)→started 1\nunknown 1 DB(k) -> ready main,s,1\nran 1 main,s,1 NoOp -> ready main,s,2\nok 1 -> ready main,s,2\nDB(k)=5\nstatus 4
exten => s,1,NoOp()¦¦start main s\nhangup 1\nshow 1 DB(a)\nshow 1 LEN(${DB(b)})→started 1\nok 1 -> ended\nunknown 1 DB(a) -> ended\nunknown 1 DB(b) -> ended\nstatus 4
exten => s,1,NoOp()¦¦assume DB\nstart main s\nshow 1 DB(k)→ok\nstarted 1\nDB(k)=\nstatus 0
# Without a channel it is refused.
exten => s,1,NoOp()¦¦start main s\nshow 9 DB(k)→started 1\nrefused 40 NoChannel\nstatus 1
# Other names are shown as in a run without the option.
exten => s,1,NoOp()¦¦start main s\nlet 1 A)=5\nshow 1 A)\nshow 1 DB(k\nshow 1 DB(k):1→started 1\nok 1 -> ready main,s,1\nA)=5\nDB(k=\nDB(k):1=\nstatus 0
";

/// The same for faulty lines.
const FAULTS: &str = r"
exten => s,1,NoOp()¦¦start main s\nlet 1 =5→fault 70 BadScript line 2
exten => s,1,NoOp()¦¦let 1 X→fault 70 BadScript line 1
exten => s,1,NoOp()¦¦let X=5→fault 70 BadScript line 1
exten => s,1,NoOp()¦¦global =5→fault 70 BadScript line 1
exten => s,1,NoOp()¦¦clock wed 2026-11-25→fault 70 BadScript line 1
exten => s,1,NoOp()¦¦clock wed 2026-13-25 10:30→fault 70 BadScript line 1
exten => s,1,NoOp()¦¦go→fault 70 BadScript line 1
exten => s,1,NoOp()¦¦redirect 1 main→fault 70 BadScript line 1
exten => s,1,NoOp()¦¦redirect 1 main t 0→fault 70 BadScript line 1
exten => s,1,NoOp()¦¦pass→fault 70 BadScript line 1
exten => s,1,NoOp()¦¦assume→fault 70 BadScript line 1
exten => s,1,NoOp()¦¦walk 1→fault 70 BadScript line 1
abc¦¦walk 1→fault 4 NoEquals line 2
";

/// The whole output of a run of these texts, followed by its result.
fn answer_to(alloc: Global, texts: &RunTextsOf) -> Result<String, NoMemory> {
    let mut writer = make_sink(alloc, 4096, None);
    let ended = run_wide(alloc, texts.lend(), &mut writer);
    outcome_text(alloc, ended, writer)
}

/// The output and result of the run of a case.
struct WideRunAnswer;

impl Question for WideRunAnswer {
    fn answer(alloc: Global, asked: &str) -> Result<String, Fail> {
        let (plan, rest) = asked.split_once('¦').ok_or("no queues")?;
        let (queues, script) = rest.split_once('¦').ok_or("no script")?;
        let texts = read_texts(alloc, plan, queues, script)?;
        let answer = answer_to(alloc, &texts)?;
        Ok(answer)
    }
}

/// Runs stop before anything unknown, and go on once a fact is stated.
#[test]
fn runs_stop_before_the_unknown(rt: HostRuntime) -> Result<(), Fail> {
    check_all::<WideRunAnswer>(rt.alloc(), &[STOPS, FACTS, CALLS, FAULTS])
}
