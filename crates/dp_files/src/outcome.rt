//! The outcome of a priority.
ghost use Rattle.std.specs.Prelude.{◌≡◌, IfOk};
ghost use Rattle.dp_files.specs.ContextLines as spec;
ghost use Rattle.dp_files.specs.ContextSteps as steps;
ghost use Rattle.dp_files.specs.PriorityView as view;
ghost use Rattle.std.specs.Option.{option_map};

use crate::history::LineHistory;
use crate::priority::{Base, WrittenBase, WrittenPriority, within_limit};
use dp_conf::NoMemory;
use std::alloc::Global;

/// The outcome of a priority.
#[derive(Clone, Copy)]
pub(crate) enum PriorityOutcome {
    /// The loader refuses it.
    Refused,
    /// It is a hint.
    Hinted,
    /// It is an `n` after a hint, for which the exchange has no number.
    AfterTheHint,
    /// It is this number.
    Numbered(u64),
}

/// The number with the added number, unless the sum is too great.
#[tactic(auto, using(crate::proofs::LimitLemmas::within_limit_capped))]
fn sum_of(base: Option<u64>, more: Option<u64>) -> Option<u64>
    ensures { result ≡ spec.sum_of base more }
{
    match base {
        Some(number) => within_limit(number.saturating_add(more.unwrap_or(0))),
        None => None,
    }
}

/// The number from which a priority counts, for an extension with this spelling.
fn base_number(
    alloc: Global,
    history: &LineHistory<'_>,
    spelling: &[u8],
    base: Base<'_>,
) -> Result<Option<u64>, NoMemory>
    ensures { IfOk result (λ number.
        number ≡ spec.base_number (steps.history_in history.now) spelling.now (view.base_now base.entry)) }
{
    match base {
        Base::Number(number) => Ok(Some(number)),
        Base::Next => Ok(sum_of(history.number(), Some(1))),
        Base::Same => Ok(history.number()),
        Base::Label(label) => history.number_of_label(alloc, spelling, label),
    }
}

/// Whether the base is `n` or `next`.
fn is_next(base: Base<'_>) -> bool
    ensures { result ≡ spec.is_next (view.base_now base.entry) }
{
    match base {
        Base::Next => true,
        Base::Number(_) | Base::Same | Base::Label(_) => false,
    }
}

/// The outcome of a number, if there is one.
fn outcome_of_number(number: Option<u64>) -> PriorityOutcome
    ensures { result ≡ spec.outcome_of_number number }
{
    match number {
        Some(number) => PriorityOutcome::Numbered(number),
        None => PriorityOutcome::Refused,
    }
}

/// The outcome of a priority without its label.
fn written_outcome(
    alloc: Global,
    history: &LineHistory<'_>,
    spelling: &[u8],
    written: WrittenBase<'_>,
) -> Result<PriorityOutcome, NoMemory>
    ensures { IfOk result (λ outcome.
        outcome ≡ spec.written_outcome (steps.history_in history.now) spelling.now (view.written_now written.entry)) }
{
    match written {
        WrittenBase::Hint => Ok(PriorityOutcome::Hinted),
        WrittenBase::Counted { base, more } => {
            if is_next(base) && history.is_after_hint() {
                return Ok(PriorityOutcome::AfterTheHint);
            }
            let number = base_number(alloc, history, spelling, base)?;
            Ok(outcome_of_number(sum_of(number, more)))
        }
    }
}

/// The outcome of a priority of the extension with this spelling.
pub(crate) fn outcome_of(
    alloc: Global,
    history: &LineHistory<'_>,
    spelling: &[u8],
    priority: Option<WrittenPriority<'_>>,
) -> Result<PriorityOutcome, NoMemory>
    ensures { IfOk result (λ outcome. outcome
        ≡ spec.outcome_of (steps.history_in history.now) spelling.now (option_map view.priority_now priority.entry)) }
{
    match priority {
        Some(priority) => written_outcome(alloc, history, spelling, priority.written),
        None => Ok(PriorityOutcome::Refused),
    }
}
