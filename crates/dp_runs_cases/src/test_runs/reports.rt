//! Reports of tests, worked out by hand from the rules of tests.
use super::{failed_by, reloaded_files};
use dp_case_tables::{Question, bytes_of, check_all};
use dp_commands::{LinePlaces, LinePosition, PbxFault, RunTexts, SourceLines};
use dp_commands_fixture::{push_fault, read_texts};
use dp_plan::Text;
use dp_test_runs::{
    CoveredPlan, FailureReport, Point, RunItems, TestTexts, TestedFile, add_entered, coverage_text,
    has_failed, run_tests,
};
use dp_tests::{TestFaults, TestFile, read_tests};
use std::alloc::Global;
use std::test::Fail;

/// Worked cases. A case is a dialplan that begins in `[main]`, a file of queues, and the lines of a test file from line 2 on, parted by `¦`,
/// and the file `b`, a dialplan, after a further `¦`, where there is one; then an arrow, and what each test came to: its name and `ok`, or
/// its report in square brackets, the lines of its trace behind it; then whether a test failed.
const REPORTS: &str = r"
# What was expected is told in the words of the line.
exten => s,1,Set(A=5)\nexten => s,2,Wait(1)¦¦test one\ncall main s\n \texpect  not 1  pause \ntest two\ncall main s\nexpect 1 A=5→one [t:4 'not 1  pause' got 'pause' a:2 main,s,1 Set(A=5)|a:3 main,s,2 Wait(1)] two ok, failed
exten => s,1,Wait(1)¦¦test one\ncall main s\nexpect 1 A=;x→one [t:4 '1 A=;x' got '' a:2 main,s,1 Wait(1)], failed
# An event that is refused was to be done.
exten => s,1,Hangup()¦¦test one\n\nhangup 9→one [t:4 'done' got 'refused 40 NoChannel'], failed
exten => s,1,Hangup()¦¦hangup 9\n; more\ntest one\ntest two→one [t:2 'done' got 'refused 40 NoChannel'] two [t:2 'done' got 'refused 40 NoChannel'], failed
# Steps without an end, of which the last five are told.
exten => s,1,NoOp(1)\n\nexten => s,2,Goto(s,1)¦¦test one\ncall main s→one [t:3 'at most 10000 steps' got 'more than 10000 steps' a:4 main,s,2 Goto(s,1)|a:2 main,s,1 NoOp(1)|a:4 main,s,2 Goto(s,1)|a:2 main,s,1 NoOp(1)|a:4 main,s,2 Goto(s,1)], failed
# A channel that is left unknown.
exten => s,1,While(1)¦¦test one\ncall main s\ncall main s\nexpect 1 unknown While→one [t:5 'an expectation of channel 2' got 'unknown While'], failed
# The name of an entry is told by its meaning, its application as it is written, its arguments as they were expanded.
exten => s,1,Wait(1)¦¦test one\nexpect 1 ended→one [t:3 '1 ended' got ''], failed
exten => _[1-3]-x,1,noop(${EXTEN},a)\nexten => _[1-3]X,2,Wait(1)¦¦test one\ncall main 14\nexpect 1 ended→one [t:4 '1 ended' got 'pause' a:2 main,_[123]X,1 noop(14,a)|a:3 main,_[123]X,2 Wait(1)], failed
# What an `ExecIf` ran has no line of its own.
exten => s,1,ExecIf(1?NoOp())\nexten => s,2,Wait(1)¦¦test one\ncall main s\nexpect 1 ended→one [t:4 '1 ended' got 'pause' a:2 main,s,1 ExecIf(1?NoOp())|a:3 main,s,2 Wait(1)], failed
# Each test begins anew, with the setup.
exten => s,1,Set(GLOBAL(G)=${G}1)\nexten => s,2,Hangup()¦¦global G=2\ntest one\ncall main s\nexpect 1 G=21\ntest two\ncall main s\nexpect 1 G=21→one ok two ok
exten => s,1,Hangup()¦¦test one→one ok
exten => s,1,Hangup()¦¦→
exten => s,1,Queue(q)¦[q]\nmember => Line/1¦test one\ncall main s\noffer q\nanswer Line/1\ntest two\nexpect waiting q 0\ncall main s\nexpect waiting q 1\noffer q\nexpect rings Line/1\ntest three\nexpect waiting q 0\nanswer Line/1\nexpect refused NotRinging→one ok two ok three ok
exten => s,1,Set(GLOBAL(G)=${G}1)\nexten => s,2,Wait(5)\n[globals]\nG=2¦¦test one\ncall main s\nreload b\ngo 1\nexpect 1 at main,s,3\ntest two\ncall main s\nexpect 1 G=21\nexpect 1 at main,s,2\ngo 1\nexpect 1 ended\ntest three\ncall main s\nexpect 1 G=21¦[main]\n\n\nexten => s,3,Wait(1)→one ok two ok three ok
# After a reload the entries are those of the other dialplan, until another reload; a reload that is refused changes nothing.
exten => s,1,Wait(5)¦¦test one\ncall main s\nreload b\ngo 1\nexpect 1 at main,s,1¦[main]\n\nexten => s,2,NoOp(new)→one [t:6 '1 at main,s,1' got 'main,s,2' a:2 main,s,1 Wait(5)|b:3 main,s,2 NoOp(new)], failed
exten => s,1,Wait(5)\nexten => s,2,Wait(6)¦¦test one\ncall main s\nreload b\nexpect refused BadPlan\ngo 1\nexpect 1 ended¦[main→one [t:7 '1 ended' got 'pause' a:2 main,s,1 Wait(5)|a:3 main,s,2 Wait(6)], failed
# A fault of the dialplan or of the queues, also without a test.
abc¦¦test one→fault 4 NoEquals line 2
exten => s,1,Hangup()¦abc¦test one→fault 2 NoSection line 1
exten => s,1,Hangup()¦abc¦→fault 2 NoSection line 1
";

/// Worked cases. A case is a dialplan that begins in `[main]`, a file of queues, and the lines of a test file from line 2 on, parted by `¦`,
/// and the file `b`, a dialplan, after a further `¦`, where there is one; then an arrow, and the coverage of the dialplan by the tests.
const COVERAGE: &str = r"
exten => s,1,Hangup()¦¦test one\ncall main s→# covered 1 of 1 entries\n
exten => s,1,Hangup()¦¦→# covered 0 of 1 entries\n# never a:2 main,s,1 Hangup\n
# Entries in the order of the dialplan; each counts once, also if two tests ran it.
exten => s,1,Set(A=5)\nexten => s,2,hangup()\n[other]\nexten => _X!,1,NoOp()\n[main]\nexten => t,1,Answer()\nexten => s,3,Wait(${A})¦¦test one\ncall main s\ntest two\ncall main s→# covered 2 of 5 entries\n# never a:7 main,t,1 Answer\n# never a:8 main,s,3 Wait\n# never a:5 other,_X!,1 NoOp\n
# A step that finds nothing covers nothing, nor does one that is not taken since something is unknown ahead.
exten => s,1,NoOp()\nexten => s,3,NoOp()¦¦test one\ncall main s→# covered 1 of 2 entries\n# never a:3 main,s,3 NoOp\n
exten => s,1,NoOp()\nexten => s,2,While(1)¦¦test one\ncall main s→# covered 1 of 2 entries\n# never a:3 main,s,2 While\n
# What an `ExecIf` ran is no entry of its own.
exten => s,1,ExecIf(1?NoOp())\nexten => s,2,NoOp()\nexten => t,1,NoOp()¦¦test one\ncall main s→# covered 2 of 3 entries\n# never a:4 main,t,1 NoOp\n
# Entries of another dialplan do not count.
exten => s,1,Wait(5)\nexten => s,2,NoOp()¦¦test one\ncall main s\nreload b\ngo 1¦[main]\nexten => s,2,NoOp(new)→# covered 1 of 2 entries\n# never a:3 main,s,2 NoOp\n
";

/// The same, with the coverage behind it, of a dialplan whose lines 2, 3 and 4 are line 7 of `y`, line 2 of `x`, and line 9 of a file that has
/// no name. No file is named for its other lines.
const SOURCES: &str = r"
exten => s,1,Set(A=5)\nexten => s,2,NoOp()\nexten => s,3,NoOp()\nexten => s,4,Wait(1)\nexten => s,5,Wait(2)¦¦test one\ncall main s\nexpect 1 ended→one [t:4 '1 ended' got 'pause' y:7 main,s,1 Set(A=5)|x:2 main,s,2 NoOp()|:9 main,s,3 NoOp()| main,s,4 Wait(1)], failed\n# covered 4 of 5 entries\n# never  main,s,5 Wait\n
exten => s,1,Hangup()\nexten => t,1,Answer()¦¦test one\ncall main s→one ok\n# covered 1 of 2 entries\n# never x:2 main,t,1 Answer\n
";

/// Adds the lines of a trace, with a `|` between two.
fn push_trace(out: &mut String, report: &FailureReport) -> Result<(), Fail> {
    let mut part = " ";
    for text in report.trace.as_slice() {
        write!(out, "{part}{text}")?;
        part = "|";
    }
    Ok(())
}

/// Adds a report.
fn push_report(out: &mut String, report: &FailureReport) -> Result<(), Fail> {
    write!(
        out,
        "[{} '{}' got '{}'",
        report.at, report.expected, report.got
    )?;
    push_trace(out, report)?;
    out.push_str("]")?;
    Ok(())
}

/// Adds what a test came to.
fn push_point(out: &mut String, point: &Point) -> Result<(), Fail> {
    write!(out, "{} ", point.name)?;
    match &point.report {
        Some(report) => push_report(out, report),
        None => {
            out.push_str("ok")?;
            Ok(())
        }
    }
}

/// Adds what tests came to, with a blank between two, and whether one failed.
fn push_points(out: &mut String, points: &[Point]) -> Result<(), Fail> {
    let mut part = "";
    for point in points {
        out.push_str(part)?;
        push_point(out, point)?;
        part = " ";
    }
    if has_failed(points) {
        out.push_str(", failed")?;
    }
    Ok(())
}

/// A way to tell what tests came to.
trait TestTelling {
    /// Adds what the tests of a file on this dialplan came to.
    fn tell(
        alloc: Global,
        out: &mut String,
        plan: CoveredPlan<'_>,
        points: &[Point],
    ) -> Result<(), Fail>;
}

/// What the tests of a file with this text come to on the texts of a case, whose dialplan's lines come from these places.
fn told_text<T: TestTelling>(
    alloc: Global,
    texts: &RunTexts<'_>,
    text: &[u8],
    file: &TestFile,
    places: LinePlaces<'_>,
) -> Result<String, Fail> {
    let reloaded = reloaded_files(alloc, texts.second_plan)?;
    let tested = TestedFile {
        path: b"t",
        text,
        file,
        texts: TestTexts {
            plan: texts.plan,
            queues: texts.queues,
            reloaded: &reloaded,
        },
        places,
    };
    let mut out = String::new(alloc);
    match run_tests(alloc, &tested) {
        Ok(points) => T::tell(
            alloc,
            &mut out,
            CoveredPlan {
                text: texts.plan,
                places,
            },
            points.as_slice(),
        )?,
        Err(fault) => push_fault(&mut out, fault)?,
    }
    Ok(out)
}

/// The text of the test file of a case.
fn file_text(alloc: Global, script: &[u8]) -> Result<Vec<u8>, Fail> {
    let mut text = bytes_of(alloc, "dialplan a\\n")?;
    text.extend_from_slice(script)?;
    Ok(text)
}

/// What the tests of a case come to, given where the lines of its dialplan come from.
fn answer_to<T: TestTelling>(
    alloc: Global,
    asked: &str,
    places: LinePlaces<'_>,
) -> Result<String, Fail> {
    let (plan, rest) = asked.split_once('¦').ok_or("no queues")?;
    let (queues, script) = rest.split_once('¦').ok_or("no test file")?;
    let texts = read_texts(alloc, plan, queues, script)?;
    let lent = texts.lend();
    let text = file_text(alloc, lent.script)?;
    match read_tests(alloc, &text) {
        Ok(file) => told_text::<T>(alloc, &lent, &text, &file, places),
        Err(TestFaults::Faulty(_)) => Err(Fail::new(format_args!("a faulty file"))),
        Err(TestFaults::NoMemory) => Err(failed_by(PbxFault::NoMemory)),
    }
}

/// What the tests of a case come to, with their reports.
struct TestReports;

impl TestTelling for TestReports {
    fn tell(
        _alloc: Global,
        out: &mut String,
        _plan: CoveredPlan<'_>,
        points: &[Point],
    ) -> Result<(), Fail> {
        push_points(out, points)
    }
}

impl Question for TestReports {
    fn answer(alloc: Global, asked: &str) -> Result<String, Fail> {
        answer_to::<TestReports>(alloc, asked, LinePlaces::InFile("a"))
    }
}

/// The coverage of the dialplan of a case by its tests.
struct Coverage;

impl TestTelling for Coverage {
    fn tell(
        alloc: Global,
        out: &mut String,
        plan: CoveredPlan<'_>,
        points: &[Point],
    ) -> Result<(), Fail> {
        let mut entered = RunItems::none(alloc);
        add_entered(&mut entered, points)?;
        match coverage_text(alloc, plan, entered.as_slice()) {
            Ok(text) => write!(out, "{text}")?,
            Err(fault) => push_fault(out, fault)?,
        }
        Ok(())
    }
}

impl Question for Coverage {
    fn answer(alloc: Global, asked: &str) -> Result<String, Fail> {
        answer_to::<Coverage>(alloc, asked, LinePlaces::InFile("a"))
    }
}

/// What the tests of a case come to, and the coverage of its dialplan, whose lines come from several files.
struct ReportSources;

impl TestTelling for ReportSources {
    fn tell(
        alloc: Global,
        out: &mut String,
        plan: CoveredPlan<'_>,
        points: &[Point],
    ) -> Result<(), Fail> {
        TestReports::tell(alloc, out, plan, points)?;
        out.push_str("\n")?;
        Coverage::tell(alloc, out, plan, points)
    }
}

impl Question for ReportSources {
    fn answer(alloc: Global, asked: &str) -> Result<String, Fail> {
        let x = Text::copy_of(alloc, b"x")?;
        let y = Text::copy_of(alloc, b"y")?;
        let files = vec![in alloc; x, y]?;
        let lines = [
            LinePosition { file: 0, line: 1 },
            LinePosition { file: 1, line: 7 },
            LinePosition { file: 0, line: 2 },
            LinePosition { file: 2, line: 9 },
        ];
        answer_to::<ReportSources>(
            alloc,
            asked,
            LinePlaces::InFiles(SourceLines {
                files: &files,
                lines: &lines,
            }),
        )
    }
}

/// Entries are told with the lines of the files that they come from.
#[test]
fn entries_are_told_with_their_sources(rt: HostRuntime) -> Result<(), Fail> {
    check_all::<ReportSources>(rt.alloc(), &[SOURCES])
}

/// A test that fails is reported with its line, what was expected, what came of it, and the last entries that ran.
#[test]
fn reports_say_what_was_expected_and_what_came(rt: HostRuntime) -> Result<(), Fail> {
    check_all::<TestReports>(rt.alloc(), &[REPORTS])
}

/// The coverage of a dialplan names exactly the entries that no test ran.
#[test]
fn coverage_names_what_no_test_ran(rt: HostRuntime) -> Result<(), Fail> {
    check_all::<Coverage>(rt.alloc(), &[COVERAGE])
}
