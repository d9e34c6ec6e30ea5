//! Whether what a test expects comes true.
ghost use Rattle.std.specs.Prelude.{◌≡◌, IfOk, OnOk};
ghost use Rattle.dp_test_runs.specs.Verdicts as spec;

use crate::course::Course;
use crate::queue_claims::{is_refused_so, ring_after, wait_in};
use crate::ran_claims::{has_passed, last_is_call, last_stands_at};
use crate::state_claims::shows;
use crate::value_claims::has_value;
use dp_machine::NoMemory;
use dp_tests::{Expectation, LineClaim};
use std::alloc::Global;

/// Whether a claim is true; None if it is about a value that is unknown.
fn truth_of(alloc: Global, course: &mut Course, claim: &LineClaim) -> Result<Option<bool>, NoMemory>
    ensures truth { IfOk result (λ truth. truth ≡ spec.truth_of course.old claim.now) }
    ensures same { OnOk result (course.new ≡ course.old) }
{
    match claim {
        LineClaim::State { channel, state } => {
            let is_shown = shows(alloc, &mut course.machine, *channel, state.bytes())?;
            Ok(Some(is_shown))
        }
        LineClaim::Ran { channel, call } => {
            Ok(Some(last_is_call(course.ran.as_slice(), *channel, call)))
        }
        LineClaim::Passed { channel, call } => {
            Ok(Some(has_passed(course.ran.as_slice(), *channel, call)))
        }
        LineClaim::At { channel, place } => {
            Ok(Some(last_stands_at(course.ran.as_slice(), *channel, place)))
        }
        LineClaim::Value {
            channel,
            name,
            value,
        } => has_value(
            alloc,
            &course.machine,
            *channel,
            name.bytes(),
            value.bytes(),
        ),
        LineClaim::Rings { agents } => Ok(Some(ring_after(
            course.machine.queues().agents(),
            course.offered,
            agents.as_slice(),
        ))),
        LineClaim::Waiting { queue, count } => {
            Ok(Some(wait_in(course.machine.queues(), queue.bytes(), *count)))
        }
        LineClaim::Refused { refusal } => Ok(Some(is_refused_so(*refusal, course.refusal))),
    }
}

/// Whether an expectation of a claim that is true or not comes true; one of an unknown value never does.
fn comes_true(is_negated: bool, truth: Option<bool>) -> bool
    ensures { result ≡ spec.comes_true is_negated truth }
{
    match truth {
        None => false,
        Some(truth) => { if is_negated { !truth } else { truth } }
    }
}

/// Whether an expectation comes true.
pub(crate) fn is_met(
    alloc: Global,
    course: &mut Course,
    expectation: &Expectation,
) -> Result<bool, NoMemory>
    ensures met { IfOk result (λ is_met. is_met ≡ spec.is_met course.old expectation.now) }
    ensures same { OnOk result (course.new ≡ course.old) }
{
    let truth = truth_of(alloc, course, &expectation.claim)?;
    Ok(comes_true(expectation.is_negated, truth))
}
