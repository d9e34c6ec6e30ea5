//! Tests that run, with what comes of them, worked out by hand from the rules of tests.
mod reports;

use dp_case_tables::{Question, bytes_of, check, check_all, check_same};
use dp_commands::{PbxFault, RunTexts};
use dp_commands_fixture::read_texts;
use dp_plan::{SharedText, Text};
use dp_test_runs::{
    Failure, FailureReport, NamedFileText, Point, RunItems, TestResult, TestTexts, run_test,
    tap_text,
};
use dp_tests::{Test, TestFaults, TestFile, read_tests};
use std::alloc::Global;
use std::test::Fail;

/// Worked cases. A case is a dialplan that begins in `[main]`, a file of queues and the lines of a test from line 3 on, parted by `¦`, and the
/// file `b`, a dialplan, after a further `¦`, where there is one; then an arrow, and `ok` or the line of the first failure and its kind.
const STEPS: &str = r"
# Each event is followed by the steps that it makes possible.
exten => s,1,NoOp()\nexten => s,2,Hangup()¦¦call main s\nexpect 1 ended→ok
exten => s,1,NoOp()\nexten => s,2,Wait(5)¦¦call main s\nexpect 1 pause→ok
exten => s,1,WaitExten(5)\nexten => 55,1,Hangup()¦¦call main s\ndial 1 55\nexpect 1 ended→ok
exten => s,1,WaitExten(5)\nexten => 5,1,Hangup()¦¦call main s\ndial 1 55→4 Refused(Ended)
# A step that finds no end.
exten => s,1,Goto(s,1)¦¦call main s→3 Endless
exten => s,1,Wait(5)\nexten => s,2,Goto(s,2)¦¦call main s\ngo 1\nexpect 1 ended→4 Endless
# A test without events, and one without lines.
exten => s,1,NoOp()¦¦→ok
exten => s,1,NoOp()¦¦expect not 1 ended→ok
";

/// The same of what is unknown.
const UNKNOWN: &str = r"
# A channel that is stopped has to be expected, after the last event.
exten => s,1,While(1)¦¦call main s→3 LeftUnknown(1)
exten => s,1,While(1)¦¦call main s\nexpect 1 unknown While→ok
exten => s,1,While(1)¦¦call main s\nexpect 1 ready main,s,1→ok
exten => s,1,While(1)¦¦call main s\nexpect 1 unknown→ok
exten => s,1,While(1)¦¦call main s\nexpect 1 unknown Whil→4 Unmet
exten => s,1,While(1)¦¦call main s\nexpect not 1 unknown While→4 Unmet
exten => s,1,While(1)¦¦call main s\nexpect 1 unknown While\nglobal X=1→5 LeftUnknown(1)
exten => s,1,While(1)¦¦call main s\ncall main s\nexpect 1 unknown While→5 LeftUnknown(2)
exten => s,1,While(1)¦¦call main s\ncall main s\nexpect 2 unknown While\nexpect 1 unknown While→ok
# A pass leads on.
exten => s,1,While(1)\nexten => s,2,Hangup()¦¦call main s\npass 1\nexpect 1 ended→ok
exten => s,1,Wait(5)¦¦call main s\npass 1→4 Refused(NotReady)
exten => s,1,Hangup()¦¦call main s\npass 1\nexpect refused 49\npass 2→6 Refused(NoChannel)
# A fact makes known what was not.
exten => s,1,Set(A=${DB(x)})\nexten => s,2,Hangup()¦¦call main s\nexpect 1 unknown DB(x)\nglobal DB(x)=5\nexpect 1 ended\nexpect 1 A=5→ok
";

/// The same of refusals.
const REFUSALS: &str = r"
exten => s,1,Hangup()¦¦hangup 9→3 Refused(NoChannel)
exten => s,1,Hangup()¦¦hangup 9\nexpect refused→ok
exten => s,1,Hangup()¦¦hangup 9\nexpect refused 40→ok
exten => s,1,Hangup()¦¦hangup 9\nexpect refused nochannel→ok
exten => s,1,Hangup()¦¦hangup 9\nexpect refused 41→4 Unmet
exten => s,1,Hangup()¦¦hangup 9\nexpect not refused 41→3 Refused(NoChannel)
exten => s,1,Hangup()¦¦hangup 9\nexpect not 9 ended\nexpect refused→3 Refused(NoChannel)
exten => s,1,Hangup()¦¦call main s\nexpect refused→4 Unmet
exten => s,1,Hangup()¦¦call main s\nexpect not refused→ok
exten => s,1,Hangup()¦¦hangup 9\nexpect refused\ncall main s\nexpect not refused→ok
# Another dialplan.
exten => s,1,NoOp(old)\nexten => s,2,Wait(5)¦¦call main s\nreload b\ngo 1\nexpect 1 ran NoOp(new)\nexpect 1 at main,s,3¦[main]\nexten => s,3,NoOp(new)→ok
exten => s,1,NoOp()¦¦reload c→3 Refused(BadPlan)
exten => s,1,NoOp()¦¦reload b\nexpect refused BadPlan¦[main→ok
";

/// The same of what ran.
const RAN: &str = r"
exten => _1XX,1,Set(A=${EXTEN})\nexten => _1XX,2,Hangup()¦¦call main 123\nexpect 1 ran hangup\nexpect 1 ran Hangup()\nexpect not 1 ran Hangup(1)\nexpect not 1 ran Set→ok
exten => _1XX,1,Set(A=${EXTEN})\nexten => _1XX,2,Hangup()¦¦call main 123\nexpect 1 passed SET\nexpect 1 passed Set(A=123)\nexpect not 1 passed Set(A=${EXTEN})\nexpect not 1 passed Set(a=123)\nexpect not 2 passed Set→ok
exten => _1XX,1,Set(A=${EXTEN})\nexten => _1XX,2,Hangup()¦¦call main 123\nexpect 1 at main,_1XX,2\nexpect 1 at main,_1-X[0-9]\nexpect not 1 at main,_1XX,1\nexpect not 1 at main,123\nexpect not 1 at other,_1XX→ok
exten => s,1,Hangup()¦¦call main s\nexpect 2 ran Hangup→4 Unmet
# What an `ExecIf` runs counts, after the `ExecIf` itself.
exten => s,1,ExecIf($[1]?Set(X=1):NoOp())¦¦call main s\nexpect 1 ran Set(X=1)\nexpect not 1 ran ExecIf\nexpect 1 passed execif\nexpect 1 passed ExecIf(1?Set(X=1):NoOp())\nexpect not 1 passed NoOp\nexpect 1 at main,s,1→ok
exten => s,1,ExecIf($[0]?Set(X=1))¦¦call main s\nexpect 1 ran ExecIf(0?Set(X=1))\nexpect not 1 passed Set→ok
exten => s,1,ExecIf(1,NoOp,a,b)¦¦call main s\nexpect 1 ran NoOp(a,b)\nexpect 1 passed ExecIf(1,NoOp,a,b)→ok
exten => s,1,execif(1?ExecIf(1?NoOp(b)))¦¦call main s\nexpect 1 ran NoOp(b)\nexpect 1 passed ExecIf(1?NoOp(b))\nexpect 1 passed ExecIf(1?ExecIf(1?NoOp(b)))\nexpect not 1 passed NoOp→7 Unmet
exten => s,1,ExecIf(1?ExecIf(0?NoOp(b)))\nexten => s,2,Hangup()¦¦call main s\nexpect 1 passed ExecIf(0?NoOp(b))\nexpect 1 ran Hangup\nexpect not 1 passed NoOp→ok
# The least channel goes first, and each to its end.
exten => s,1,Set(A=${DB(x)})\nexten => s,2,NoOp(${GLOBAL(G)})\nexten => s,3,Set(GLOBAL(G)=1)\nexten => s,4,Hangup()¦¦call main s\ncall main s\nglobal DB(x)=5\nexpect 1 passed NoOp()\nexpect 2 passed NoOp(1)→ok
";

/// The same of values.
const VALUES: &str = r"
exten => s,1,Set(A=5)\nexten => s,2,Wait(1)¦¦call main s 200\nexpect 1 A=5\nexpect not 1 A=\nexpect not 1 a=5\nexpect 1 B=\nexpect 1 EXTEN=s→ok
# Of a value that is unknown nothing comes true.
exten => s,1,Wait(1)¦¦call main s\nexpect 1 CDR(x)=→4 Unmet
exten => s,1,Wait(1)¦¦call main s\nexpect not 1 CDR(x)=5→4 Unmet
exten => s,1,Wait(1)¦¦call main s\nexpect not 1 HANGUPCAUSE=5→4 Unmet
exten => s,1,Read(PIN)¦¦call main s\nexpect 1 PIN=→4 Unmet
exten => s,1,Read(PIN)¦¦call main s\nexpect 1 PAN=→ok
exten => s,1,Wait(1)¦¦call main s\nexpect 2 A=→4 Unmet
exten => s,1,Wait(1)¦¦call main s\nlet 1 CDR(x)=5\nexpect 1 CDR(x)=5\nexpect not 1 CDR(x)=6→ok
exten => s,1,Wait(1)¦¦call main s\nglobal DB(x)=a b\nexpect 1 DB(x)=a b→ok
exten => s,1,Wait(1)¦¦call main s\nglobal DB(x)=\nexpect 1 DB(x)=→ok
exten => s,1,Wait(1)¦¦call main s\nexpect 1 CDR(x)=\nassume CDR→4 Unmet
exten => s,1,Wait(1)¦¦call main s\nassume CDR\nexpect 1 CDR(x)=→ok
exten => s,1,Wait(1)¦¦call main s\nexpect not 1 TOUPPER(${CDR(x)})=5→4 Unmet
# A name is read as the dialplan reads it, with its function or its substring.
exten => s,1,Set(X=a-b-c)\nexten => s,2,Wait(1)¦¦call main s\nexpect 1 CUT(X,-,2)=b\nexpect 1 LEN(${X})=5\nexpect 1 X:2=b-c\nexpect not 1 CUT(X,-,1)=b→ok
exten => s,1,Set(DB(a/b)=1)\nexten => s,2,Wait(1)¦¦call main s 200\nexpect 1 DB(a/b)=1\nexpect not 1 DB(a/b)=\nexpect 1 CALLERID(num)=200→ok
exten => s,1,Set(CALLERID(num)=7)\nexten => s,2,Wait(1)¦¦call main s 200\nexpect 1 CALLERID(num)=7→ok
# A global, also one that a dialplan has set.
exten => s,1,Set(GLOBAL(G)=2)\nexten => s,2,Wait(1)¦¦global X=5\nexpect global X=5\nexpect not global X=6\nexpect global G=\ncall main s\nexpect global G=2\nexpect not global g=2→ok
exten => s,1,Set(A=2)\nexten => s,2,Wait(1)¦¦call main s\nexpect not global A=2→ok
exten => s,1,Wait(1)¦¦global DB(x)=7\nexpect global DB(x)=7\nexpect not global DB(x)=→ok
exten => s,1,Wait(1)¦¦expect not global DB(x)=7→3 Unmet
exten => s,1,Wait(1)¦¦assume DB\nexpect global DB(x)=→ok
exten => s,1,Wait(1)¦¦assume CDR\nexpect global DB(x)=→4 Unmet
exten => s,1,Wait(1)¦¦expect global SYSTEMNAME=→3 Unmet
";

/// The same of queues.
const QUEUES: &str = r"
exten => s,1,Queue(q)¦[q]\nmember => Line/1\nmember => Line/2¦call main s\nexpect waiting q 1\nexpect waiting Q 1\nexpect not waiting q 0\nexpect 1 queued q\nexpect waiting z 0→ok
exten => s,1,Queue(q)¦[q]\nmember => Line/1\nmember => Line/2¦call main s\nexpect not rings Line/1\noffer q\nexpect rings Line/2 Line/1\nexpect rings Line/1 Line/1 Line/2\nexpect not rings Line/1\nexpect not rings Line/1 Line/2 Line/3→ok
exten => s,1,Queue(q)¦[q]\nmember => Line/1¦call main s\noffer q\nanswer Line/1\nexpect 1 talking q Line/1\nexpect 1 talking q\nexpect not 1 talking q Line\nexpect not rings Line/1\ndone Line/1\nexpect 1 ended→ok
";

/// The same with what came of it behind the failure.
const GOT: &str = r"
exten => s,1,Wait(5)¦¦call main s\nexpect 1 ended→4 Unmet got pause
exten => s,1,While(1)¦¦call main s\nexpect 1 ended→4 Unmet got unknown While
exten => s,1,Set(A=5)\nexten => s,2,Wait(1)¦¦call main s\nexpect 1 ran Set→4 Unmet got Wait(1)
exten => s,1,Set(A=5)\nexten => s,2,Wait(1)¦¦call main s\nexpect 1 passed NoOp→4 Unmet got Wait(1)
exten => s,1,Set(A=5)\nexten => s,2,Wait(1)¦¦call main s\nexpect 1 at main,s,1→4 Unmet got main,s,2
exten => s,1,Set(A=5)\nexten => s,2,Wait(1)¦¦call main s\nexpect 1 A=6→4 Unmet got 5
exten => s,1,Wait(1)¦¦call main s\nexpect 1 CDR(x)=→4 Unmet got unknown
exten => s,1,Set(X=a-b)\nexten => s,2,Wait(1)¦¦call main s\nexpect 1 CUT(X,-,2)=a→4 Unmet got b
exten => s,1,Wait(1)¦¦global X=5\nexpect global X=6→4 Unmet got 5
exten => s,1,Wait(1)¦¦expect global DB(x)=5→3 Unmet got unknown
exten => s,1,Wait(1)¦¦call main s\nexpect 2 ran Wait→4 Unmet got nothing
exten => s,1,Queue(q)¦[q]\nmember => Line/1\nmember => Line/2¦call main s\nexpect rings Line/1→4 Unmet got rings
exten => s,1,Queue(q)¦[q]\nmember => Line/1\nmember => Line/2¦call main s\noffer q\nexpect rings Line/3→5 Unmet got rings Line/1 Line/2
exten => s,1,Queue(q)¦[q]\nmember => Line/1¦call main s\nexpect waiting q 2→4 Unmet got 1
exten => s,1,Hangup()¦¦hangup 9→3 Refused(NoChannel) got refused 40 NoChannel
exten => s,1,Hangup()¦¦hangup 9\nexpect refused 41→4 Unmet got refused 40 NoChannel
exten => s,1,Hangup()¦¦call main s\nexpect refused→4 Unmet got taken
exten => s,1,Goto(s,1)¦¦call main s→3 Endless got more than 10000 steps
exten => s,1,While(1)¦¦call main s→3 LeftUnknown(1) got unknown While
exten => s,1,Hangup()¦¦call main s→ok got 
";

/// The text of the file of a case.
fn test_text(alloc: Global, script: &[u8]) -> Result<Vec<u8>, Fail> {
    let mut text = bytes_of(alloc, "dialplan a\\ntest x\\n")?;
    text.extend_from_slice(script)?;
    Ok(text)
}

/// The files that the `reload` lines of a case name.
fn reloaded_files(alloc: Global, text: Option<&[u8]>) -> Result<Vec<NamedFileText>, Fail> {
    let mut files = Vec::new(alloc);
    if let Some(text) = text {
        let name = Text::copy_of(alloc, b"b")?;
        let text = Text::copy_of(alloc, text)?;
        let text = SharedText::new(alloc, text)?;
        files.push(NamedFileText { name, text })?;
    }
    Ok(files)
}

/// The verdict on a test: `ok`, or its first failure.
fn verdict_text(alloc: Global, failure: Option<Failure>) -> Result<String, Fail> {
    let mut out = String::new(alloc);
    match failure {
        Some(failure) => write!(out, "{} {:?}", failure.line, failure.kind)?,
        None => out.push_str("ok")?,
    }
    Ok(out)
}

/// A fault that a case does not expect.
fn failed_by(fault: PbxFault) -> Fail {
    match fault {
        PbxFault::Coded { code, .. } => Fail::new(format_args!("{}", code.name())),
        PbxFault::NoMemory => Fail::new(format_args!("out of memory")),
    }
}

/// The result of a test of a file on the texts of a case.
fn run_case(
    alloc: Global,
    texts: &RunTexts<'_>,
    file: &TestFile,
    test: &Test,
) -> Result<TestResult, Fail> {
    let reloaded = reloaded_files(alloc, texts.second_plan)?;
    let given = TestTexts {
        plan: texts.plan,
        queues: texts.queues,
        reloaded: &reloaded,
    };
    match run_test(alloc, given, file, test) {
        Ok(result) => Ok(result),
        Err(fault) => Err(failed_by(fault)),
    }
}

/// The result of the only test of a case.
fn result_of(alloc: Global, asked: &str) -> Result<TestResult, Fail> {
    let (plan, rest) = asked.split_once('¦').ok_or("no queues")?;
    let (queues, script) = rest.split_once('¦').ok_or("no test")?;
    let texts = read_texts(alloc, plan, queues, script)?;
    let lent = texts.lend();
    let text = test_text(alloc, lent.script)?;
    match read_tests(alloc, &text) {
        Ok(file) => {
            let test = file.tests.as_slice().first().ok_or("no test")?;
            run_case(alloc, &lent, &file, test)
        }
        Err(TestFaults::Faulty(_)) => Err(Fail::new(format_args!("a faulty file"))),
        Err(TestFaults::NoMemory) => Err(Fail::new(format_args!("out of memory"))),
    }
}

/// The verdict on the only test of a case.
struct OneTest;

impl Question for OneTest {
    fn answer(alloc: Global, asked: &str) -> Result<String, Fail> {
        let result = result_of(alloc, asked)?;
        verdict_text(alloc, result.failure)
    }
}

/// The verdict on the only test of a case, and what came of it in place of what was expected.
struct WithGot;

impl Question for WithGot {
    fn answer(alloc: Global, asked: &str) -> Result<String, Fail> {
        let result = result_of(alloc, asked)?;
        let mut out = verdict_text(alloc, result.failure)?;
        write!(out, " got {}", result.got)?;
        Ok(out)
    }
}

/// A trace of two lines.
fn trace(alloc: Global) -> Result<RunItems<Text>, Fail> {
    let mut trace = RunItems::none(alloc);
    trace.push(Text::copy_of(alloc, b"Set(A='5')")?)?;
    trace.push(Text::copy_of(alloc, b"Wait(1)")?)?;
    Ok(trace)
}

/// The report of a test that failed.
fn report(alloc: Global) -> Result<FailureReport, Fail> {
    let trace = trace(alloc)?;
    let at = Text::copy_of(alloc, b"a.test:4")?;
    let expected = Text::copy_of(alloc, b"1 A='6'")?;
    let got = Text::copy_of(alloc, b"'5'")?;
    Ok(FailureReport {
        at,
        expected,
        got,
        trace,
    })
}

/// A test that passed, one that failed, and one that failed before anything ran.
fn points(alloc: Global) -> Result<Vec<Point>, Fail> {
    let mut points = Vec::new(alloc);
    let name = Text::copy_of(alloc, b"A call is answered")?;
    points.push(Point {
        name,
        report: None,
        trace: trace(alloc)?,
        entered: RunItems::none(alloc),
    })?;
    let name = Text::copy_of(alloc, b"A #2 call \\ it's lost")?;
    let failed = report(alloc)?;
    points.push(Point {
        name,
        report: Some(failed),
        trace: trace(alloc)?,
        entered: RunItems::none(alloc),
    })?;
    let name = Text::copy_of(alloc, b"x")?;
    let mut failed = report(alloc)?;
    failed.trace = RunItems::none(alloc);
    points.push(Point {
        name,
        report: Some(failed),
        trace: RunItems::none(alloc),
        entered: RunItems::none(alloc),
    })?;
    Ok(points)
}

/// The text of these results.
const TAP: &str = r"TAP version 14
1..3
ok 1 - A call is answered
not ok 2 - A \#2 call \\ it's lost
  ---
  at: 'a.test:4'
  expected: '1 A=''6'''
  got: '''5'''
  trace:
    - 'Set(A=''5'')'
    - 'Wait(1)'
  ...
not ok 3 - x
  ---
  at: 'a.test:4'
  expected: '1 A=''6'''
  got: '''5'''
  trace: []
  ...
";

/// The text of the same results, below the traces of the tests.
const TRACED: &str = r"TAP version 14
1..3
# Set(A='5')
# Wait(1)
ok 1 - A call is answered
# Set(A='5')
# Wait(1)
not ok 2 - A \#2 call \\ it's lost
  ---
  at: 'a.test:4'
  expected: '1 A=''6'''
  got: '''5'''
  trace:
    - 'Set(A=''5'')'
    - 'Wait(1)'
  ...
not ok 3 - x
  ---
  at: 'a.test:4'
  expected: '1 A=''6'''
  got: '''5'''
  trace: []
  ...
";

/// Whether results are written so.
fn check_tap(alloc: Global, shows_traces: bool, want: &str) -> Result<(), Fail> {
    let points = points(alloc)?;
    let text = tap_text(alloc, shows_traces, &points)?;
    let mut out = String::new(alloc);
    write!(out, "{text}")?;
    check_same("the text of the results", &out, want)
}

/// Results are written as the protocol says, and names and texts stay what they are.
#[test]
fn results_are_written_as_the_protocol_says(rt: HostRuntime) -> Result<(), Fail> {
    check_tap(rt.alloc(), false, TAP)?;
    check_tap(rt.alloc(), true, TRACED)
}

/// What came of a test is shown in place of what it expected.
#[test]
fn failures_show_what_came_instead(rt: HostRuntime) -> Result<(), Fail> {
    check::<WithGot>(rt.alloc(), GOT)
}

/// A test passes, or fails at the line and for the reason that its lines say.
#[test]
fn tests_end_as_their_lines_say(rt: HostRuntime) -> Result<(), Fail> {
    check_all::<OneTest>(rt.alloc(), &[STEPS, UNKNOWN, REFUSALS, RAN, VALUES, QUEUES])
}
