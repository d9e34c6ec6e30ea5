//! Which entries of a dialplan tests ran.
ghost use Rattle.std.specs.Prelude.{◌≡◌, ◌++◌, IfOk, OnOk, filter, length};
ghost use Rattle.std.specs.List.{flat_map};
ghost use Rattle.dp_conf.specs.Answers.{Answers};
ghost use Rattle.dp_commands.specs.Faults.{reason_of};
ghost use Rattle.dp_commands.specs.LinePlaces.{line_place, places_of};
ghost use Rattle.dp_plan.specs.Lookup.{line_at};
ghost use Rattle.dp_test_runs.specs.Coverage as spec;
ghost use Rattle.dp_test_runs.specs.Ran.{context_name};
ghost use Rattle.dp_test_runs.specs.steps.Kept as steps;

use crate::items::RunItems;
use crate::showing::push_decimal;
use crate::sources::push_line_place;
use dp_commands::{LinePlaces, PbxFault};
use dp_plan::{Context, Dialplan, Entry, EntryId, EntryLines, LoadedPlan, NoMemory, Text};
use indexmap::IndexSet;
use std::alloc::Global;

/// A dialplan whose coverage is told.
#[derive(Clone, Copy)]
pub struct CoveredPlan<'a> {
    /// The text of the dialplan.
    pub text: &'a [u8],
    /// Where its lines come from, as they are printed.
    pub places: LinePlaces<'a>,
}

/// A dialplan with the lines of its entries.
#[derive(Clone, Copy)]
struct NumberedPlan<'a> {
    places: LinePlaces<'a>,
    plan: &'a Dialplan,
    lines: &'a EntryLines,
}

/// Adds the numbers of the entries of a context.
fn push_ids_in(
    ids: &mut RunItems<EntryId>,
    context: usize,
    entries: &[Entry],
) -> Result<(), NoMemory>
    ensures { OnOk result (ids.new ≡ ids.old ++ spec.ids_in context 0 entries.now) }
{
    let mut number: usize = 0;
    for _entry in entries {
        ids.push(EntryId {
            context,
            entry: number,
        })?;
        number += 1;
    }
    Ok(())
}

/// Adds the numbers of the entries of contexts.
fn push_ids(ids: &mut RunItems<EntryId>, contexts: &[Context]) -> Result<(), NoMemory>
    ensures { OnOk result (ids.new ≡ ids.old ++ spec.ids_from 0 contexts.now) }
{
    let mut number: usize = 0;
    for context in contexts {
        push_ids_in(ids, number, context.entries())?;
        number += 1;
    }
    Ok(())
}

/// The numbers of all entries, in the order of the dialplan.
#[tactic(auto, unfolding(crate::specs::Coverage::ids_of))]
fn ids_of(alloc: Global, plan: &Dialplan) -> Result<RunItems<EntryId>, NoMemory>
    ensures { IfOk result (λ ids. ids ≡ spec.ids_of plan.now) }
{
    let mut ids = RunItems::none(alloc);
    push_ids(&mut ids, plan.contexts())?;
    Ok(ids)
}

/// Adds an entry to those that are kept.
fn add_id(kept: &mut IndexSet<EntryId>, id: EntryId) -> Result<(), NoMemory>
    ensures { OnOk result (steps.Adds (λ other. spec.same_id other id) kept.old.keys kept.new.keys) }
{
    kept.insert(id)?;
    Ok(())
}

/// Adds entries to those that are kept.
fn add_ids(kept: &mut IndexSet<EntryId>, ids: &[EntryId]) -> Result<(), NoMemory>
    ensures { OnOk result (steps.Adds (spec.has_run ids.now) kept.old.keys kept.new.keys) }
{
    for id in ids {
        add_id(kept, *id)?;
    }
    Ok(())
}

/// The entries that tests ran, each kept once, so that it is found without a walk over all that ran.
fn kept_of(alloc: Global, ran: &[EntryId]) -> Result<IndexSet<EntryId>, NoMemory>
    ensures { IfOk result (λ kept. (id : EntryId) → spec.has_run kept.keys id ≡ spec.has_run ran.now id) }
{
    let mut kept = IndexSet::new(alloc);
    add_ids(&mut kept, ran)?;
    Ok(kept)
}

/// Whether an entry is one of those that tests ran.
fn has_run(ran: &IndexSet<EntryId>, id: EntryId) -> bool
    ensures { result ≡ spec.has_run ran.now.keys id }
{
    ran.contains(&id)
}

/// How many entries are among those that tests ran.
fn count_covered(ran: &IndexSet<EntryId>, ids: &[EntryId]) -> usize
    ensures { result ≡ length (filter (spec.has_run ran.now.keys) ids.now) }
{
    ids.iter().filter(|id| has_run(ran, **id)).count()
}

/// Adds how many entries tests ran, of how many.
fn push_covered(out: &mut Vec<u8>, covered: usize, count: usize) -> Result<(), NoMemory>
    ensures { OnOk result (out.new.items ≡ out.old.items ++ spec.covered_line covered count) }
{
    out.extend_from_slice(b"# covered ")?;
    push_decimal(out, covered)?;
    out.extend_from_slice(b" of ")?;
    push_decimal(out, count)?;
    out.extend_from_slice(b" entries\n")
}

/// Adds the name of the context with a number, if there is one.
fn push_context_name(out: &mut Vec<u8>, plan: &Dialplan, number: usize) -> Result<(), NoMemory>
    ensures { OnOk result (out.new.items ≡ out.old.items ++ context_name plan.now number) }
{
    match plan.contexts().get(number) {
        Some(context) => out.extend_from_slice(context.name().bytes()),
        None => Ok(()),
    }
}

/// Adds an entry, `CONTEXT,NAME,PRIORITY APP`.
fn push_entry(
    out: &mut Vec<u8>,
    plan: &Dialplan,
    context: usize,
    entry: &Entry,
) -> Result<(), NoMemory>
    ensures { OnOk result (out.new.items ≡ out.old.items ++ spec.entry_shown plan.now context entry.now) }
{
    push_context_name(out, plan, context)?;
    out.extend_from_slice(b",")?;
    out.extend_from_slice(entry.name.spelling())?;
    out.extend_from_slice(b",")?;
    push_decimal(out, entry.priority.get())?;
    out.extend_from_slice(b" ")?;
    out.extend_from_slice(entry.application.bytes())
}

/// Adds the line of an entry that no test ran.
fn push_never(
    out: &mut Vec<u8>,
    plan: &NumberedPlan<'_>,
    id: EntryId,
    entry: &Entry,
) -> Result<(), NoMemory>
    ensures { OnOk result (out.new.items ≡ out.old.items
        ++ spec.never_line (line_place (places_of plan.now.places) (line_at plan.now.lines.now id))
        (spec.entry_shown plan.now.plan.now id.context entry.now)) }
{
    out.extend_from_slice(b"# never ")?;
    push_line_place(out, plan.places, plan.lines.line(id))?;
    out.extend_from_slice(b" ")?;
    push_entry(out, plan.plan, id.context, entry)?;
    out.extend_from_slice(b"\n")
}

/// Adds the line of the entry with these numbers, which no test ran.
fn push_never_at(out: &mut Vec<u8>, plan: &NumberedPlan<'_>, id: EntryId) -> Result<(), NoMemory>
    ensures { OnOk result (out.new.items ≡ out.old.items
        ++ spec.never_at plan.now.places plan.now.lines.now plan.now.plan.now id) }
{
    match plan.plan.entry(id) {
        Some(entry) => push_never(out, plan, id, entry),
        None => Ok(()),
    }
}

/// Adds the line of the entry with these numbers if no test ran it.
fn push_never_by(
    out: &mut Vec<u8>,
    plan: &NumberedPlan<'_>,
    ran: &IndexSet<EntryId>,
    id: EntryId,
) -> Result<(), NoMemory>
    ensures { OnOk result (out.new.items ≡ out.old.items
        ++ spec.never_by plan.now.places plan.now.lines.now plan.now.plan.now ran.now.keys id) }
{
    if has_run(ran, id) {
        return Ok(());
    }
    push_never_at(out, plan, id)
}

/// Adds the lines of the entries that no test ran.
fn push_each_never(
    out: &mut Vec<u8>,
    plan: &NumberedPlan<'_>,
    ran: &IndexSet<EntryId>,
    ids: &[EntryId],
) -> Result<(), NoMemory>
    ensures { OnOk result (out.new.items ≡ out.old.items
        ++ flat_map (spec.never_by plan.now.places plan.now.lines.now plan.now.plan.now ran.now.keys) ids.now) }
{
    for id in ids {
        push_never_by(out, plan, ran, *id)?;
    }
    Ok(())
}

/// The coverage of a dialplan by the entries that tests ran.
#[tactic(auto, unfolding(crate::specs::Coverage::coverage_of))]
fn coverage_of(
    alloc: Global,
    plan: &NumberedPlan<'_>,
    ran: &IndexSet<EntryId>,
) -> Result<Text, NoMemory>
    ensures { IfOk result (λ text. text
        ≡ spec.coverage_of plan.now.places plan.now.lines.now plan.now.plan.now ran.now.keys) }
{
    let ids = ids_of(alloc, plan.plan)?;
    let ids = ids.as_slice();
    let mut out = Vec::new(alloc);
    push_covered(&mut out, count_covered(ran, ids), ids.len())?;
    push_each_never(&mut out, plan, ran, ids)?;
    Ok(Text::new(out))
}

/// The coverage of a loaded dialplan, whose lines come from these places.
#[tactic(auto, using(crate::proofs::KeptLemmas::coverage_alike))]
fn coverage_in(
    alloc: Global,
    places: LinePlaces<'_>,
    loaded: &LoadedPlan,
    ran: &[EntryId],
) -> Result<Text, NoMemory>
    ensures { IfOk result (λ text. text ≡ spec.coverage_of places.entry loaded.now.lines loaded.now.plan ran.now) }
{
    let plan = NumberedPlan {
        places,
        plan: &loaded.plan,
        lines: &loaded.lines,
    };
    let kept = kept_of(alloc, ran)?;
    let text = coverage_of(alloc, &plan, &kept)?;
    Ok(text)
}

/// The coverage of a dialplan by the entries of it that tests ran: `# covered E of M entries`, and below it, in the order of the dialplan,
/// `# never FILE:LINE CONTEXT,NAME,PRIORITY APP` for each entry that is not among them.
///
/// The error is the first fault of the dialplan, or want of memory.
#[tactic(auto, unfolding(crate::specs::Coverage::coverage_in))]
pub fn coverage_text(
    alloc: Global,
    plan: CoveredPlan<'_>,
    ran: &[EntryId],
) -> Result<Text, PbxFault>
    ensures { Answers (λ text. text) reason_of result (spec.coverage_in plan.entry ran.now) }
{
    let loaded = Dialplan::load_with_lines(alloc, plan.text)?;
    match coverage_in(alloc, plan.places, &loaded, ran) {
        Ok(text) => Ok(text),
        Err(refused) => Err(PbxFault::from(refused)),
    }
}

/// How many entries of a dialplan tests ran, and which they did not.
#[derive(Drop)]
pub struct EntryCoverage {
    /// The number of entries that tests ran.
    pub covered: usize,
    /// The number of all entries.
    pub all: usize,
    /// The entries that no test ran, in the order of the dialplan.
    pub never: RunItems<EntryId>,
}

/// Adds an entry, unless tests ran it.
fn push_unless_run(
    never: &mut RunItems<EntryId>,
    ran: &IndexSet<EntryId>,
    id: EntryId,
) -> Result<(), NoMemory>
    ensures { OnOk result (never.new ≡ never.old ++ spec.unless_run ran.now.keys id) }
{
    if has_run(ran, id) {
        return Ok(());
    }
    never.push(id)
}

/// The entries among these that no test ran.
fn never_among(
    alloc: Global,
    ran: &IndexSet<EntryId>,
    ids: &[EntryId],
) -> Result<RunItems<EntryId>, NoMemory>
    ensures { IfOk result (λ never. never ≡ flat_map (spec.unless_run ran.now.keys) ids.now) }
{
    let mut never = RunItems::none(alloc);
    for id in ids {
        push_unless_run(&mut never, ran, *id)?;
    }
    Ok(never)
}

/// How many entries of a dialplan are among those that tests ran, and which are not. It fails only if memory runs out.
#[tactic(auto, using(crate::proofs::KeptLemmas::covered_alike, crate::proofs::KeptLemmas::never_alike), unfolding(crate::specs::Coverage::never_run))]
pub fn cover_entries(
    alloc: Global,
    plan: &Dialplan,
    ran: &[EntryId],
) -> Result<EntryCoverage, NoMemory>
    ensures covered { IfOk result (λ coverage. coverage.covered ≡ length (filter (spec.has_run ran.now) (spec.ids_of plan.now))) }
    ensures all { IfOk result (λ coverage. coverage.all ≡ length (spec.ids_of plan.now)) }
    ensures never { IfOk result (λ coverage. coverage.never ≡ spec.never_run plan.now ran.now) }
{
    let ids = ids_of(alloc, plan)?;
    let ids = ids.as_slice();
    let kept = kept_of(alloc, ran)?;
    let never = never_among(alloc, &kept, ids)?;
    Ok(EntryCoverage {
        covered: count_covered(&kept, ids),
        all: ids.len(),
        never,
    })
}
