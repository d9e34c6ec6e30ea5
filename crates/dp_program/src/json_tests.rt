//! The results of tests as JSON, with the coverage of their dialplans.
ghost use Rattle.std.specs.Prelude.{◌≡◌, ◌++◌, IfOk, List, ℕ, OnOk, Result, filter, length};
ghost use Rattle.std.specs.List.{flat_map};
ghost use Rattle.dp_conf.specs.Answers.{Answers};
ghost use Rattle.dp_commands.specs.Faults.{reason_of};
ghost use Rattle.dp_commands.specs.LinePlaces.{places_of};
ghost use Rattle.dp_json.specs.Objects.{object_text};
ghost use Rattle.dp_program.specs.JsonTests as spec;

use crate::test_results::PlanRun;
use dp_commands::{LinePlaces, PbxFault};
use dp_json::{TestFailure, TestPoint, push_covered, push_never, push_test, push_test_count};
use dp_plan::{Dialplan, EntryId, LoadedPlan, NoMemory};
use dp_test_runs::{FailureReport, Point, cover_entries};
use std::alloc::Global;

/// The report of a test that failed.
fn failure_of(report: &FailureReport) -> TestFailure<'_>
    ensures at { result.at.now ≡ report.now.at }
    ensures expected { result.expected.now ≡ report.now.expected }
    ensures got { result.got.now ≡ report.now.got }
    ensures trace { result.trace.now ≡ report.now.trace }
{
    TestFailure {
        at: report.at.bytes(),
        expected: report.expected.bytes(),
        got: report.got.bytes(),
        trace: report.trace.as_slice(),
    }
}

/// Adds the line of a test that failed.
#[tactic(auto, unfolding(dp_json::specs::Tests::point_fields, dp_json::specs::Tests::got_fields, dp_json::specs::Tests::trace_field))]
fn push_failed(
    alloc: Global,
    out: &mut Vec<u8>,
    number: usize,
    name: &[u8],
    report: &FailureReport,
) -> Result<(), NoMemory>
    ensures { OnOk result (out.new.items ≡ out.old.items ++ object_text (spec.failed_object number name.now report.now)) }
{
    let point = TestPoint {
        number,
        name,
        failure: Some(failure_of(report)),
    };
    push_test(alloc, out, &point)
}

/// Adds the line of a test that passed.
#[tactic(auto, unfolding(dp_json::specs::Tests::point_fields))]
fn push_passed(alloc: Global, out: &mut Vec<u8>, number: usize, name: &[u8]) -> Result<(), NoMemory>
    ensures { OnOk result (out.new.items ≡ out.old.items ++ object_text (spec.passed_object number name.now)) }
{
    let point = TestPoint {
        number,
        name,
        failure: None,
    };
    push_test(alloc, out, &point)
}

/// Adds the line of a test with this number.
fn push_point(
    alloc: Global,
    out: &mut Vec<u8>,
    number: usize,
    point: &Point,
) -> Result<(), NoMemory>
    ensures { OnOk result (out.new.items ≡ out.old.items ++ object_text (spec.point_object number point.now)) }
{
    match &point.report {
        Some(report) => push_failed(alloc, out, number, point.name.bytes(), report),
        None => push_passed(alloc, out, number, point.name.bytes()),
    }
}

/// Adds the lines of tests, which are counted from 1.
fn push_points(alloc: Global, out: &mut Vec<u8>, points: &[Point]) -> Result<(), NoMemory>
    ensures { OnOk result (out.new.items ≡ out.old.items ++ spec.points_text 1 points.now) }
{
    let mut number: usize = 0;
    for point in points {
        number += 1;
        push_point(alloc, out, number, point)?;
    }
    Ok(())
}

/// Whether a test failed.
fn is_failed(point: &Point) -> bool
    ensures { result ≡ spec.is_failed point.now }
{
    point.report.is_some()
}

/// How many tests failed.
fn count_failed(points: &[Point]) -> usize
    ensures { result ≡ length (filter spec.is_failed points.now) }
{
    let mut count = 0;
    for point in points {
        if is_failed(point) {
            count += 1;
        }
    }
    count
}

/// The lines of tests, and then that of their number.
pub(crate) fn tests_json(alloc: Global, points: &[Point]) -> Result<Vec<u8>, NoMemory>
    ensures { IfOk result (λ text. text.items ≡ spec.tests_json points.now) }
{
    let mut out = Vec::new(alloc);
    push_points(alloc, &mut out, points)?;
    push_test_count(&mut out, points.len(), count_failed(points))?;
    Ok(out)
}

/// Adds the line of an entry that no test ran.
fn push_never_at(
    out: &mut Vec<u8>,
    places: LinePlaces<'_>,
    loaded: &LoadedPlan,
    id: EntryId,
) -> Result<(), NoMemory>
    ensures { OnOk result (out.new.items ≡ out.old.items ++ spec.never_line (places_of places.entry) loaded.now.lines loaded.now.plan id) }
{
    let line = loaded.lines.line(id);
    match places {
        LinePlaces::InFile(name) => push_never(out, name.as_bytes(), line, &loaded.plan, id),
        LinePlaces::InFiles(sources) => match sources.position(line) {
            Some(position) => {
                let file = sources.file_name(position.file);
                push_never(out, file, Some(position.line), &loaded.plan, id)
            }
            None => push_never(out, b"", None, &loaded.plan, id),
        },
    }
}

/// Adds the lines of entries that no test ran.
fn push_each_never(
    out: &mut Vec<u8>,
    places: LinePlaces<'_>,
    loaded: &LoadedPlan,
    ids: &[EntryId],
) -> Result<(), NoMemory>
    ensures { OnOk result (out.new.items ≡ out.old.items
        ++ flat_map (spec.never_line (places_of places.entry) loaded.now.lines loaded.now.plan) ids.now) }
{
    for id in ids {
        push_never_at(out, places, loaded, *id)?;
    }
    Ok(())
}

/// The coverage of a loaded dialplan by the entries that tests ran.
#[tactic(auto, unfolding(crate::specs::JsonTests::coverage_of))]
fn coverage_of(
    alloc: Global,
    plan: &PlanRun<'_>,
    loaded: &LoadedPlan,
    ran: &[EntryId],
) -> Result<Vec<u8>, NoMemory>
    ensures { IfOk result (λ text. text.items
        ≡ spec.coverage_of plan.now.path (places_of plan.now.tested.places) loaded.now.lines loaded.now.plan ran.now) }
{
    let coverage = cover_entries(alloc, &loaded.plan, ran)?;
    let mut out = Vec::new(alloc);
    push_covered(&mut out, plan.path.bytes(), coverage.covered, coverage.all)?;
    push_each_never(
        &mut out,
        plan.tested.places,
        loaded,
        coverage.never.as_slice(),
    )?;
    Ok(out)
}

/// The coverage of the dialplan of a test file by the entries of it that tests ran, or the dialplan's first fault.
#[tactic(auto, unfolding(crate::specs::JsonTests::coverage_json))]
pub(crate) fn coverage_json(
    alloc: Global,
    plan: &PlanRun<'_>,
    ran: &[EntryId],
) -> Result<Vec<u8>, PbxFault>
    ensures { Answers (λ text. text.items) reason_of result (spec.coverage_json plan.now ran.now) }
{
    let loaded = Dialplan::load_with_lines(alloc, plan.tested.texts.plan)?;
    match coverage_of(alloc, plan, &loaded, ran) {
        Ok(text) => Ok(text),
        Err(refused) => Err(PbxFault::from(refused)),
    }
}
