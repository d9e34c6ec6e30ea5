//! What the tests of a file came to, as it is reported.
ghost use Rattle.std.specs.Prelude.{◌≡◌, ◌++◌, IfErr, IfOk, IsOk, OnOk, Ok, None, false, position};
ghost use Rattle.std.specs.Option.{option_map};
ghost use Rattle.dp_conf.specs.Answers.{Answers};
ghost use Rattle.dp_conf.specs.Blanks as blanks;
ghost use Rattle.dp_machine.specs.World.{opening_with};
ghost use Rattle.dp_queue.specs.Rest.{IsAtRest};
ghost use Rattle.dp_wide.specs.Functions.{wide_functions};
ghost use Rattle.dp_commands.specs.Faults.{reason_of};
ghost use Rattle.dp_commands.specs.Run.{queues_of};
ghost use Rattle.dp_test_runs.specs.Points as spec;
ghost use Rattle.dp_test_runs.specs.Tests as tests;
ghost use Rattle.dp_test_runs.specs.steps.Reloads as reloads;

use crate::course::Course;
use crate::failure::{Failure, FailureKind};
use crate::items::RunItems;
use crate::reloads::test_reloads;
use crate::showing::push_decimal;
use crate::sources::Sources;
use crate::tap::{FailureReport, Point};
use crate::test_run::{TestResult, TestTexts, begin, run_on};
use crate::traces::{entered_entries, last_five, trace_of};
use dp_commands::{LinePlaces, PbxFault, line_in};
use dp_conf::{beside, is_blank, trim};
use dp_machine::{Machine, Queues};
use dp_plan::{EntryId, NoMemory, Text};
use dp_tests::{Test, TestFile};
use dp_wide::WideApps;
use std::alloc::Global;

/// A test file with what its tests run on.
#[derive(Clone, Copy)]
pub struct TestedFile<'a> {
    /// The path of the test file, as reports print it.
    pub path: &'a [u8],
    /// The text of the test file.
    pub text: &'a [u8],
    /// What the text says.
    pub file: &'a TestFile,
    /// The texts that its tests run on.
    pub texts: TestTexts<'a>,
    /// Where the lines of the dialplan come from, as reports print it.
    pub places: LinePlaces<'a>,
}

/// A line of a file, `PATH:LINE`.
fn copy_line(alloc: Global, path: &[u8], line: usize) -> Result<Text, NoMemory>
    ensures { IfOk result (λ text. text ≡ spec.line_shown path.now line) }
{
    let mut out = Vec::from_slice(alloc, path)?;
    out.extend_from_slice(b":")?;
    push_decimal(&mut out, line)?;
    Ok(Text::new(out))
}

/// The place of the first blank of a text.
fn blank_place(text: &[u8]) -> Option<usize>
    ensures { result ≡ position blanks.is_blank text.now }
{
    text.iter().position(|byte| is_blank(*byte))
}

/// What the line with a number expects: the text after its first word.
fn expectation_at(text: &[u8], line: usize) -> &[u8]
    ensures { result.now ≡ spec.expectation_at text.now line }
{
    let content = trim(line_in(text, line));
    match blank_place(content) {
        Some(place) => trim(&content[place..]),
        None => b"",
    }
}

/// That something is expected of a channel.
fn of_channel(alloc: Global, channel: u32) -> Result<Text, NoMemory>
    ensures { IfOk result (λ text. text ≡ spec.of_channel channel) }
{
    let mut out = Vec::from_slice(alloc, b"an expectation of channel ")?;
    push_decimal(&mut out, channel)?;
    Ok(Text::new(out))
}

/// What was expected where a line of the file with this text failed.
fn copy_expected(alloc: Global, text: &[u8], failure: Failure) -> Result<Text, NoMemory>
    ensures { IfOk result (λ expected. expected ≡ spec.expected_by text.now failure.line failure.kind) }
{
    match failure.kind {
        FailureKind::Unmet => Text::copy_of(alloc, expectation_at(text, failure.line)),
        FailureKind::Refused(_) => Text::copy_of(alloc, b"done"),
        FailureKind::Endless => Text::copy_of(alloc, b"at most 10000 steps"),
        FailureKind::LeftUnknown(channel) => of_channel(alloc, channel),
    }
}

/// Where the entries of the dialplans of a file's tests stand.
fn sources_for<'a>(alloc: Global, tested: &TestedFile<'a>) -> Result<Sources<'a>, NoMemory>
    ensures { IfOk result (λ sources. sources ≡ spec.sources_for tested.now) }
{
    Sources::of(
        alloc,
        tested.places,
        tested.texts.plan,
        tested.texts.reloaded,
    )
}

/// The report of a test that failed, given its trace.
fn report_of(
    alloc: Global,
    tested: &TestedFile<'_>,
    trace: &[Text],
    got: &Text,
    failure: Failure,
) -> Result<FailureReport, NoMemory>
    ensures { IfOk result (λ report. report ≡ spec.report_of tested.now trace.now got.now failure) }
{
    let at = copy_line(alloc, tested.path, failure.line)?;
    let expected = copy_expected(alloc, tested.text, failure)?;
    let got = got.clone()?;
    let trace = last_five(alloc, trace)?;
    Ok(FailureReport {
        at,
        expected,
        got,
        trace,
    })
}

/// The report of a test, if it failed.
fn report_if_failed(
    alloc: Global,
    tested: &TestedFile<'_>,
    trace: &[Text],
    ended: &TestResult,
) -> Result<Option<FailureReport>, NoMemory>
    ensures { IfOk result (λ report. report ≡ option_map (spec.report_of tested.now trace.now ended.now.got) ended.now.failure) }
{
    match ended.failure {
        Some(failure) => {
            let report = report_of(alloc, tested, trace, &ended.got, failure)?;
            Ok(Some(report))
        }
        None => Ok(None),
    }
}

/// The point of a test with a name that ended so.
fn point_by(
    alloc: Global,
    tested: &TestedFile<'_>,
    sources: &Sources<'_>,
    name: &Text,
    ended: &TestResult,
) -> Result<Point, NoMemory>
    requires { sources.now ≡ spec.sources_for tested.now }
    ensures { IfOk result (λ point. point ≡ spec.point_by tested.now name.now ended.now) }
{
    let changes = ended.changes.as_slice();
    let ran = ended.ran.as_slice();
    let trace = trace_of(alloc, sources, changes, ran)?;
    let report = report_if_failed(alloc, tested, trace.as_slice(), ended)?;
    let entered = entered_entries(alloc, changes, ran)?;
    let name = name.clone()?;
    Ok(Point {
        name,
        report,
        trace,
        entered,
    })
}

/// The point of a test that begins with this course. A test that does not reload leaves the dialplan in force as it is.
fn point_in(
    alloc: Global,
    tested: &TestedFile<'_>,
    sources: &Sources<'_>,
    test: &Test,
    course: &mut Course,
) -> Result<Point, NoMemory>
    requires sources { sources.now ≡ spec.sources_for tested.now }
    requires beginning { course.old ≡ tests.beginning course.old.machine }
    ensures point { IfOk result (λ point. point ≡ spec.point_in tested.now course.old.machine test.now) }
    ensures plan { OnOk result (reloads.test_reloads tested.now.file.now test.now ≡ false → course.new.machine.plan ≡ course.old.machine.plan) }
{
    let ended = run_on(alloc, tested.texts.reloaded, tested.file, test, course)?;
    let point = point_by(alloc, tested, sources, &test.name, &ended)?;
    Ok(point)
}

/// The machine in which each test of a file begins.
#[tactic(auto, unfolding(crate::specs::Points::opening))]
fn begin_tests(alloc: Global, tested: &TestedFile<'_>) -> Result<Machine<WideApps>, PbxFault>
    ensures { Answers (λ machine. machine) reason_of result (spec.opening tested.now) }
{
    begin(alloc, tested.texts.plan, tested.texts.queues)
}

/// The queues of a file's tests, in which nothing has happened. The error is their first fault, or want of memory.
fn load_queues(alloc: Global, text: Option<&[u8]>) -> Result<Queues, PbxFault>
    ensures queues { Answers (λ queues. queues) reason_of result (queues_of (option_map (λ text. text.now) text.entry)) }
    ensures rest { IfOk result IsAtRest }
{
    let Some(text) = text else {
        return Ok(Queues::none(alloc));
    };
    let queues = Queues::load(alloc, text)?;
    Ok(queues)
}

/// The course at the beginning of a test in a machine that is made anew. The texts have been read before, so it fails only if memory runs
/// out.
#[tactic(auto, using(crate::proofs::PointsLemmas::refused_memory))]
fn begin_anew(alloc: Global, tested: &TestedFile<'_>, course: &mut Course) -> Result<(), PbxFault>
    requires { IsOk (spec.opening tested.now) }
    ensures machine { OnOk result (spec.opening tested.now ≡ Ok course.new.machine) }
    ensures beginning { OnOk result (course.new ≡ tests.beginning course.new.machine) }
    ensures memory { IfErr result (λ fault. reason_of fault ≡ None) }
{
    let machine = begin_tests(alloc, tested)?;
    *course = Course::beginning(alloc, machine);
    Ok(())
}

/// The course at the beginning of a test in the machine of the test before, with these queues. It fails only if memory runs out.
fn restart(alloc: Global, course: &mut Course, queues: Queues) -> Result<(), PbxFault>
    requires { IsAtRest queues }
    ensures ok { OnOk result (course.new ≡ tests.beginning (opening_with wide_functions course.old.machine.plan queues)) }
    ensures memory { IfErr result (λ fault. reason_of fault ≡ None) }
{
    match course.restart(alloc, queues) {
        Ok(()) => Ok(()),
        Err(refused) => Err(PbxFault::from(refused)),
    }
}

/// The course at the beginning of a test in the machine of the test before, which has left the dialplan in force as it was. The queues have
/// been read before, so it fails only if memory runs out.
#[tactic(auto, using(crate::proofs::PointsLemmas::queues_memory, crate::proofs::PointsLemmas::begins_over))]
fn begin_over(alloc: Global, tested: &TestedFile<'_>, course: &mut Course) -> Result<(), PbxFault>
    requires { reloads.BeginWith (spec.opening tested.now) course.old.machine.plan }
    ensures machine { OnOk result (spec.opening tested.now ≡ Ok course.new.machine) }
    ensures beginning { OnOk result (course.new ≡ tests.beginning course.new.machine) }
    ensures memory { IfErr result (λ fault. reason_of fault ≡ None) }
{
    match load_queues(alloc, tested.texts.queues) {
        Ok(queues) => restart(alloc, course, queues),
        Err(fault) => Err(fault),
    }
}

/// The course at the beginning of the next test, after a test of a file. It fails only if memory runs out.
fn begin_next(
    alloc: Global,
    tested: &TestedFile<'_>,
    test: &Test,
    course: &mut Course,
) -> Result<(), PbxFault>
    requires opening { IsOk (spec.opening tested.now) }
    requires plan { reloads.test_reloads tested.now.file.now test.now ≡ false → reloads.BeginWith (spec.opening tested.now) course.old.machine.plan }
    ensures machine { OnOk result (spec.opening tested.now ≡ Ok course.new.machine) }
    ensures beginning { OnOk result (course.new ≡ tests.beginning course.new.machine) }
    ensures memory { IfErr result (λ fault. reason_of fault ≡ None) }
{
    if test_reloads(tested.file, test) {
        return begin_anew(alloc, tested, course);
    }
    begin_over(alloc, tested, course)
}

/// Runs a test of a file, and gives its point. The course is at the beginning of the test, and then of the next one. It fails only if memory
/// runs out.
fn run_point(
    alloc: Global,
    tested: &TestedFile<'_>,
    sources: &Sources<'_>,
    test: &Test,
    course: &mut Course,
) -> Result<Point, PbxFault>
    requires opening { spec.opening tested.now ≡ Ok course.old.machine }
    requires beginning { course.old ≡ tests.beginning course.old.machine }
    requires sources { sources.now ≡ spec.sources_for tested.now }
    ensures point { IfOk result (λ point. point ≡ spec.point_in tested.now course.old.machine test.now) }
    ensures again { OnOk result (course.new ≡ course.old) }
    ensures memory { IfErr result (λ fault. reason_of fault ≡ None) }
{
    let point = match point_in(alloc, tested, sources, test, course) {
        Ok(point) => point,
        Err(refused) => return Err(PbxFault::from(refused)),
    };
    begin_next(alloc, tested, test, course)?;
    Ok(point)
}

/// Runs the tests of a file, which begin in this machine, and gives their points in order. It fails only if memory runs out.
fn run_points(
    alloc: Global,
    tested: &TestedFile<'_>,
    sources: &Sources<'_>,
    first: Machine<WideApps>,
) -> Result<RunItems<Point>, PbxFault>
    requires opening { spec.opening tested.now ≡ Ok first }
    requires sources { sources.now ≡ spec.sources_for tested.now }
    ensures points { IfOk result (λ points. points ≡ spec.points_in tested.now first) }
    ensures memory { IfErr result (λ fault. reason_of fault ≡ None) }
{
    let mut course = Course::beginning(alloc, first);
    let mut points = RunItems::none(alloc);
    for test in tested.file.tests.as_slice() {
        let point = run_point(alloc, tested, sources, test, &mut course)?;
        points.push(point)?;
    }
    Ok(points)
}

/// Reads where the entries of the dialplans stand, and runs the tests of a file. It fails only if memory runs out.
fn run_from(
    alloc: Global,
    tested: &TestedFile<'_>,
    first: Machine<WideApps>,
) -> Result<RunItems<Point>, PbxFault>
    requires opening { spec.opening tested.now ≡ Ok first }
    ensures points { IfOk result (λ points. points ≡ spec.points_in tested.now first) }
    ensures memory { IfErr result (λ fault. reason_of fault ≡ None) }
{
    match beside(sources_for(alloc, tested), first) {
        Ok((sources, first)) => run_points(alloc, tested, &sources, first),
        Err(refused) => Err(PbxFault::from(refused)),
    }
}

/// Runs the tests of a file, and gives their points in order. Each begins in a world of its own: after a test the machine is put back, and if
/// the test reloads it is made anew from its texts.
///
/// The error is the first fault of the dialplan or of the queues, also in a file without tests, or want of memory.
#[tactic(auto, unfolding(crate::specs::Points::points_of))]
pub fn run_tests(alloc: Global, tested: &TestedFile<'_>) -> Result<RunItems<Point>, PbxFault>
    ensures { Answers (λ points. points) reason_of result (spec.points_of tested.now) }
{
    let first = begin_tests(alloc, tested)?;
    run_from(alloc, tested, first)
}

/// Adds the entries of the dialplan that one test ran.
fn push_each(entered: &mut RunItems<EntryId>, ids: &[EntryId]) -> Result<(), NoMemory>
    ensures { OnOk result (entered.new ≡ entered.old ++ ids.now) }
{
    for id in ids {
        entered.push(*id)?;
    }
    Ok(())
}

/// Adds the entries of the dialplan that tests ran, in the order in which they ran. An entry that ran twice is added twice.
pub fn add_entered(entered: &mut RunItems<EntryId>, points: &[Point]) -> Result<(), NoMemory>
    ensures { OnOk result (entered.new ≡ entered.old ++ spec.entered_in points.now) }
{
    for point in points {
        push_each(entered, point.entered.as_slice())?;
    }
    Ok(())
}

/// Whether a test failed.
pub fn has_failed(points: &[Point]) -> bool
    ensures { result ≡ spec.has_failed points.now }
{
    points.iter().any(|point| point.report.is_some())
}
