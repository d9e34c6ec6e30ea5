//! The request that runs the tests of files.
ghost use Rattle.std.specs.Prelude.{◌≡◌, ◌||◌, map, IfOk};
ghost use Rattle.dp_commands.specs.Faults.{is_write_failed};
ghost use Rattle.dp_program.specs.Faulted.{without_place};
ghost use Rattle.dp_program.specs.TestSuites as spec;
ghost use Rattle.dp_program.specs.TestTexts.{text_in};
ghost use Rattle.dp_test_runs.specs.Tap.{tap_text as results_in_tap};

use crate::fault_places::Faulted;
use crate::files::ReadFiles;
use crate::hints::ServedRequest;
use crate::json_tests::tests_json;
use crate::plan_coverage::push_coverage_asked;
use crate::test_pictures::report_picture;
use crate::test_results::{PlanRun, Results, run_suite};
use crate::test_suites::{ReadyTests, Suite, read_suite};
use crate::texts::{TextWithPath, read_all};
use dp_commands::PbxFault;
use dp_conf::WriteTold;
use dp_plan::{NoMemory, Text};
use dp_test_runs::{Point, has_failed, tap_text};
use std::alloc::Global;

/// The report on test files: what is written, what is told beside it, and the status.
#[derive(Drop)]
pub(crate) struct TestReport {
    pub(crate) written: Text,
    pub(crate) told: Vec<u8>,
    pub(crate) status: u8,
}

/// What is asked for besides the results of tests: the trace of each test, the coverage of the dialplans, JSON in place of text, which has no
/// traces, and a picture in place of all results.
#[derive(Clone, Copy)]
pub(crate) struct TestManner {
    pub(crate) traces: bool,
    pub(crate) covers: bool,
    pub(crate) is_json: bool,
    pub(crate) draws: bool,
}

/// The report without results, because of what these lines say.
fn refuse_tests(alloc: Global, lines: Vec<u8>) -> TestReport
    ensures { spec.report_now result ≡ spec.refuses lines.items }
{
    TestReport {
        written: Text::new(Vec::new(alloc)),
        told: lines,
        status: 1,
    }
}

/// The results of tests as text.
fn results_tap(alloc: Global, traces: bool, points: &[Point]) -> Result<Vec<u8>, NoMemory>
    ensures { IfOk result (λ text. text.items ≡ results_in_tap traces points.now) }
{
    let results = tap_text(alloc, traces, points)?;
    let text = Vec::from_slice(alloc, results.bytes())?;
    Ok(text)
}

/// The results of tests, as text or as JSON.
fn results_text(alloc: Global, manner: TestManner, points: &[Point]) -> Result<Vec<u8>, NoMemory>
    ensures { IfOk result (λ text. text.items ≡ spec.results_text (spec.manner_now manner) points.now) }
{
    if manner.is_json {
        tests_json(alloc, points)
    } else {
        results_tap(alloc, manner.traces, points)
    }
}

/// The report on the points of tests, with the coverage of their dialplans if it is asked for.
fn report_listed(
    alloc: Global,
    manner: TestManner,
    points: &[Point],
    plans: &[PlanRun<'_>],
) -> Result<TestReport, NoMemory>
    ensures { IfOk result (λ report. spec.report_now report
        ≡ spec.passes (spec.manner_now manner) points.now (spec.coverage_asked manner.is_json manner.covers plans.now)) }
{
    let mut written = results_text(alloc, manner, points)?;
    push_coverage_asked(alloc, &mut written, manner, plans)?;
    Ok(TestReport {
        written: Text::new(written),
        told: Vec::new(alloc),
        status: if has_failed(points) { 1 } else { 0 },
    })
}

/// The report on tests: their points, or a picture of the dialplan that they are on.
fn report_points(
    alloc: Global,
    manner: TestManner,
    points: &[Point],
    plans: &[PlanRun<'_>],
) -> Result<TestReport, NoMemory>
    ensures { IfOk result (λ report. spec.report_now report ≡ spec.report_of (spec.manner_now manner) points.now plans.now) }
{
    if manner.draws {
        return report_picture(alloc, plans);
    }
    report_listed(alloc, manner, points, plans)
}

/// The report on results.
fn report_results(
    alloc: Global,
    manner: TestManner,
    results: Results<'_>,
) -> Result<TestReport, NoMemory>
    ensures { IfOk result (λ report. spec.report_now report
        ≡ spec.report_by (spec.manner_now manner) (spec.results_now results.entry) (spec.results_now results.entry).lines) }
{
    let Results {
        points,
        plans,
        lines,
    } = results;
    if !lines.is_empty() {
        return Ok(refuse_tests(alloc, lines));
    }
    report_points(alloc, manner, points.as_slice(), &plans)
}

/// The report on files whose tests can run.
fn report_ready(
    alloc: Global,
    manner: TestManner,
    tests: &[ReadyTests<'_>],
) -> Result<TestReport, NoMemory>
    ensures { IfOk result (λ report. spec.ReportsReady (spec.manner_now manner) (map spec.ready_now tests.now) (spec.report_now report)) }
{
    let results = run_suite(alloc, tests)?;
    let report = report_results(alloc, manner, results)?;
    Ok(report)
}

/// The report on test files that were read. With anything wrong, no test runs.
fn report_suite(alloc: Global, manner: TestManner, suite: Suite<'_>) -> Result<TestReport, NoMemory>
    ensures { IfOk result (λ report. spec.ReportsSuite (spec.manner_now manner) (spec.suite_now suite.entry).ready (spec.report_now report)
        (spec.suite_now suite.entry).lines) }
{
    let Suite { ready, lines } = suite;
    if !lines.is_empty() {
        return Ok(refuse_tests(alloc, lines));
    }
    let report = report_ready(alloc, manner, &ready)?;
    Ok(report)
}

/// The report on test files, given their texts.
fn report_texts<F: ReadFiles>(
    files: &F,
    alloc: Global,
    manner: TestManner,
    sources: &[TextWithPath<'_>],
) -> Result<TestReport, NoMemory>
    ensures { IfOk result (λ report. spec.MayReport (spec.manner_now manner) (F.source_at files.now) (map text_in sources.now) (spec.report_now report)) }
{
    let suite = read_suite(files, alloc, sources)?;
    let report = report_suite(alloc, manner, suite)?;
    Ok(report)
}

/// Writes a report.
fn write_report<W: WriteTold>(report: TestReport, output: &mut W) -> Result<ServedRequest, PbxFault>
    ensures writes { spec.WritesBytes (spec.report_now report) (W.contents output.old) (W.contents output.new) result }
    ensures told { W.has_failed output.new ≡ (W.has_failed output.old || is_write_failed result) }
{
    output.write_told(report.written.bytes())?;
    let TestReport {
        written: _,
        told,
        status,
    } = report;
    Ok(ServedRequest { status, hint: told })
}

/// Writes a report that was made, unless memory ran out.
fn write_made<'a, W: WriteTold>(
    made: Result<TestReport, NoMemory>,
    output: &mut W,
) -> Result<ServedRequest, Faulted<'a>>
    ensures writes { spec.WritesMade made (W.contents output.old) (W.contents output.new) result }
    ensures told { W.has_failed output.new ≡ (W.has_failed output.old || is_write_failed (without_place result)) }
{
    let report = match made {
        Ok(report) => report,
        Err(refused) => return Err(Faulted::from(PbxFault::from(refused))),
    };
    match write_report(report, output) {
        Ok(served) => Ok(served),
        Err(fault) => Err(Faulted::from(fault)),
    }
}

/// Runs the tests of the files at these paths and writes their results as one list. Everything that is wrong with the files, or with those
/// that they name, is told beside the result; then no test runs.
pub(crate) fn serve_tests<'a, F: ReadFiles, W: WriteTold>(
    files: &F,
    alloc: Global,
    manner: TestManner,
    paths: &[&'a str],
    output: &mut W,
) -> Result<ServedRequest, Faulted<'a>>
    ensures serves { spec.TestsFiles (spec.manner_now manner) (F.source_at files.now) (map (λ path. path.now) paths.now)
        (W.contents output.old) (W.contents output.new) result }
    ensures told { W.has_failed output.new ≡ (W.has_failed output.old || is_write_failed (without_place result)) }
{
    let texts = read_all(files, alloc, paths)?;
    let made = report_texts(files, alloc, manner, &texts);
    write_made(made, output)
}
