//! The traces of tests: what ran, with the lines of the files where it stands.
ghost use Rattle.std.specs.Prelude.{◌≡◌, ◌++◌, IfOk, OnOk};
ghost use Rattle.dp_test_runs.specs.Traces as spec;

use crate::course::PlanChange;
use crate::items::RunItems;
use crate::ran_entries::RanEntry;
use crate::showing::{push_call, push_place};
use crate::sources::Sources;
use dp_plan::{EntryId, NoMemory, Text};
use std::alloc::Global;

/// The greatest number of lines of a trace in a report.
const MOST_SHOWN: usize = 5;

/// The number of the file whose dialplan was in force when the entry with this place ran; None for the dialplan of the test file.
fn plan_at(changes: &[PlanChange], place: usize) -> Option<usize>
    ensures { result ≡ spec.plan_at changes.now place }
{
    let mut plan = None;
    for change in changes {
        if change.after <= place {
            plan = Some(change.file);
        }
    }
    plan
}

/// Adds an entry that ran, `CONTEXT,NAME,PRIORITY APP(ARGS)`.
fn push_ran(out: &mut Vec<u8>, ran: &RanEntry) -> Result<(), NoMemory>
    ensures { OnOk result (out.new.items ≡ out.old.items ++ spec.ran_shown ran.now) }
{
    push_place(out, ran)?;
    out.extend_from_slice(b" ")?;
    push_call(out, ran)
}

/// An entry of the dialplan with this number that ran, `FILE:LINE CONTEXT,NAME,PRIORITY APP(ARGS)`.
fn trace_line(
    alloc: Global,
    sources: &Sources<'_>,
    plan: Option<usize>,
    ran: &RanEntry,
) -> Result<Text, NoMemory>
    ensures { IfOk result (λ text. text ≡ spec.trace_line sources.now plan ran.now) }
{
    let mut out = Vec::new(alloc);
    sources.push_place(&mut out, plan, ran.id)?;
    out.extend_from_slice(b" ")?;
    push_ran(&mut out, ran)?;
    Ok(Text::new(out))
}

/// Adds the line of an entry of the dialplan with this number, if it has one.
fn push_traced(
    alloc: Global,
    trace: &mut RunItems<Text>,
    sources: &Sources<'_>,
    plan: Option<usize>,
    ran: &RanEntry,
) -> Result<(), NoMemory>
    ensures { OnOk result (trace.new ≡ trace.old ++ spec.traced_by sources.now plan ran.now) }
{
    if ran.is_side {
        return Ok(());
    }
    let text = trace_line(alloc, sources, plan, ran)?;
    trace.push(text)
}

/// The trace of a test.
#[tactic(auto, unfolding(crate::specs::Traces::trace_of))]
pub(crate) fn trace_of(
    alloc: Global,
    sources: &Sources<'_>,
    changes: &[PlanChange],
    ran: &[RanEntry],
) -> Result<RunItems<Text>, NoMemory>
    ensures { IfOk result (λ trace. trace ≡ spec.trace_of sources.now changes.now ran.now) }
{
    let mut trace = RunItems::none(alloc);
    let mut place: usize = 0;
    for entry in ran {
        push_traced(alloc, &mut trace, sources, plan_at(changes, place), entry)?;
        place += 1;
    }
    Ok(trace)
}

/// Adds copies of texts.
fn push_copies(copies: &mut RunItems<Text>, texts: &[Text]) -> Result<(), NoMemory>
    ensures { OnOk result (copies.new ≡ copies.old ++ texts.now) }
{
    for text in texts {
        let copy = text.clone()?;
        copies.push(copy)?;
    }
    Ok(())
}

/// Copies of the last five lines of a trace.
pub(crate) fn last_five(alloc: Global, trace: &[Text]) -> Result<RunItems<Text>, NoMemory>
    ensures { IfOk result (λ last. last ≡ spec.last_five trace.now) }
{
    let mut last = RunItems::none(alloc);
    push_copies(&mut last, &trace[trace.len().saturating_sub(MOST_SHOWN)..])?;
    Ok(last)
}

/// Adds an entry that ran, if it is one of the dialplan of the test file.
fn push_entered(
    entered: &mut RunItems<EntryId>,
    plan: Option<usize>,
    id: EntryId,
) -> Result<(), NoMemory>
    ensures { OnOk result (entered.new ≡ entered.old ++ spec.entered_by plan id) }
{
    match plan {
        Some(_) => Ok(()),
        None => entered.push(id),
    }
}

/// The entries of the dialplan of the test file among those that ran, in the order in which they ran.
#[tactic(auto, unfolding(crate::specs::Traces::entered_entries))]
pub(crate) fn entered_entries(
    alloc: Global,
    changes: &[PlanChange],
    ran: &[RanEntry],
) -> Result<RunItems<EntryId>, NoMemory>
    ensures { IfOk result (λ entered. entered ≡ spec.entered_entries changes.now ran.now) }
{
    let mut entered = RunItems::none(alloc);
    let mut place: usize = 0;
    for entry in ran {
        push_entered(&mut entered, plan_at(changes, place), entry.id)?;
        place += 1;
    }
    Ok(entered)
}
