//! How the lines of a test run.
ghost use Rattle.std.specs.Prelude.{◌≡◌, IfOk, OnOk};
ghost use Rattle.dp_test_runs.specs.Tests as spec;

use crate::course::Course;
use crate::failure::{Failure, FailureKind};
use crate::named_text::NamedFileText;
use crate::verdict::is_met;
use dp_machine::{NoMemory, Refusal};
use dp_tests::{Act, Expectation, LineClaim, TestLine};
use std::alloc::Global;

/// Does what a line says.
fn take_act(
    alloc: Global,
    files: &[NamedFileText],
    course: &mut Course,
    act: &Act,
) -> Result<(), NoMemory>
    ensures { OnOk result (course.new ≡ spec.after_act files.now course.old act.now) }
{
    match act {
        Act::Turns(turns) => course.take_turns(alloc, turns.as_slice()),
        Act::Reload(name) => course.take_reload(alloc, files, name.bytes()),
        Act::Expect(_) => Ok(()),
    }
}

/// Whether a line expects that the event line before was refused.
fn expects_refusal(act: &Act) -> bool
    ensures { result ≡ spec.expects_refusal act.now }
{
    match act {
        Act::Expect(
            Expectation {
                is_negated,
                claim: LineClaim::Refused { .. },
            },
        ) => !*is_negated,
        _ => false,
    }
}

/// Whether the first of some lines expects that the event line before was refused.
fn first_expects_refusal(lines: &[TestLine]) -> bool
    ensures { result ≡ spec.first_expects_refusal lines.now }
{
    match lines {
        [line, ..] => expects_refusal(&line.act),
        [] => false,
    }
}

/// The failure of an event line that was refused, if the next line does not expect it.
fn refused_failure(line: usize, refusal: Option<Refusal>, is_expected: bool) -> Option<Failure>
    ensures { result ≡ spec.refused_failure line refusal is_expected }
{
    let refusal = refusal?;
    if is_expected {
        return None;
    }
    Some(Failure {
        line,
        kind: FailureKind::Refused(refusal),
    })
}

/// The failure of an event line, given the course after it and the lines after it.
fn event_failure(course: &Course, line: usize, after: &[TestLine]) -> Option<Failure>
    ensures { result ≡ spec.event_failure course.now line after.now }
{
    if course.is_endless {
        return Some(Failure {
            line,
            kind: FailureKind::Endless,
        });
    }
    refused_failure(line, course.refusal, first_expects_refusal(after))
}

/// The failure of an expectation that does not come true.
fn expect_failure(
    alloc: Global,
    course: &mut Course,
    line: usize,
    expectation: &Expectation,
) -> Result<Option<Failure>, NoMemory>
    ensures failure { IfOk result (λ failure. failure ≡ spec.expect_failure course.old line expectation.now) }
    ensures same { OnOk result (course.new ≡ course.old) }
{
    if is_met(alloc, course, expectation)? {
        return Ok(None);
    }
    Ok(Some(Failure {
        line,
        kind: FailureKind::Unmet,
    }))
}

/// The failure of a line, given the course after it and the lines after it.
fn failure_of(
    alloc: Global,
    course: &mut Course,
    line: &TestLine,
    after: &[TestLine],
) -> Result<Option<Failure>, NoMemory>
    ensures failure { IfOk result (λ failure. failure ≡ spec.failure_of course.old line.now.line after.now line.now.act) }
    ensures same { OnOk result (course.new ≡ course.old) }
{
    match &line.act {
        Act::Turns(_) | Act::Reload(_) => Ok(event_failure(course, line.line, after)),
        Act::Expect(expectation) => expect_failure(alloc, course, line.line, expectation),
    }
}

/// Runs lines one after another until one fails, and gives its failure.
pub(crate) fn run_test_lines(
    alloc: Global,
    files: &[NamedFileText],
    course: &mut Course,
    lines: &[TestLine],
) -> Result<Option<Failure>, NoMemory>
    ensures { IfOk result (λ failure. spec.test_end course.new failure ≡ spec.ended_after files.now course.old lines.now) }
{
    let mut rest = lines;
    while let [line, after @ ..] = rest {
        take_act(alloc, files, course, &line.act)?;
        let failure = failure_of(alloc, course, line, after)?;
        if failure.is_some() {
            return Ok(failure);
        }
        rest = after;
    }
    Ok(None)
}
