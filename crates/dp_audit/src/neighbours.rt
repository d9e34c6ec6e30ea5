//! Which entries of a context have other entries with the same name. A ranking has the entries with one name side by side, ordered by
//! priority.
ghost use Rattle.std.specs.Prelude.{◌≡◌, ◌+◌, ◌<◌, ◌≤◌, false, length, replicate, IfOk, if◌then◌else◌};
ghost use Rattle.std.specs.Option.{option_copied};
ghost use Rattle.dp_audit.specs.Findings.{has_greater, has_lower};
ghost use Rattle.dp_audit.specs.steps.Neighbours as spec;
ghost use Rattle.dp_lookup.specs.FoundEntry.{entries_at};
ghost use Rattle.dp_plan.specs.Ranking.{ranked_entry};

use dp_plan::{Dialplan, Entry, EntryId, NoMemory};
use std::alloc::Global;

/// The entry at a place in a ranking.
fn ranked_entry<'a>(entries: &'a [Entry], ids: &[EntryId], place: usize) -> Option<&'a Entry>
    ensures { option_copied result ≡ ranked_entry entries.now ids.now place }
{
    let id = ids.get(place)?;
    entries.get(id.entry)
}

/// Whether both are entries with the same name.
fn are_of_one_name(left: Option<&Entry>, right: Option<&Entry>) -> bool
    ensures { result ≡ spec.are_of_one_name (option_copied left.entry) (option_copied right.entry) }
{
    match (left, right) {
        (Some(left), Some(right)) => left.name.spelling() == right.name.spelling(),
        (Some(_), None) | (None, _) => false,
    }
}

/// Whether the entry at a place in a ranking has an entry with the same name after it.
fn is_followed(entries: &[Entry], ids: &[EntryId], place: usize) -> bool
    requires { place < length ids.now }
    ensures { result ≡ spec.is_followed entries.now ids.now place }
{
    let one = ranked_entry(entries, ids, place);
    let next = ranked_entry(entries, ids, place + 1);
    are_of_one_name(one, next)
}

/// Marks the entry at a place in a ranking, if there is one.
fn mark(ids: &[EntryId], place: usize, marks: &mut [bool])
    ensures { marks.new ≡ spec.with_mark ids.now place marks.old }
{
    if let Some(id) = ids.get(place) {
        if id.entry < marks.len() {
            marks[id.entry] = true;
        }
    }
}

/// Marks the entry this far after the one at the place, if that one has an entry with the same name after it.
fn mark_after(entries: &[Entry], ids: &[EntryId], place: usize, shift: usize, marks: &mut [bool])
    requires place { place < length ids.now }
    requires near { shift ≤ 1 }
    ensures { marks.new ≡ (if spec.is_followed entries.now ids.now place then spec.with_mark ids.now
        (place + shift) marks.old else marks.old) }
{
    if is_followed(entries, ids, place) {
        mark(ids, place + shift, marks);
    }
}

/// Marks the entries this far after those that have an entry with the same name after them.
fn mark_all(entries: &[Entry], ids: &[EntryId], shift: usize, marks: &mut [bool])
    requires near { shift ≤ 1 }
    requires none { marks.old ≡ replicate (length entries.now) false }
    ensures { spec.AreAfter entries.now ids.now shift (length ids.now) marks.new }
{
    for place in 0..ids.len() {
        mark_after(entries, ids, place, shift, marks);
    }
}

/// The marks of the entries this far after those that have an entry with the same name after them.
fn marks_of(
    alloc: Global,
    entries: &[Entry],
    ids: &[EntryId],
    shift: usize,
) -> Result<Vec<bool>, NoMemory>
    requires { shift ≤ 1 }
    ensures { IfOk result (λ marks. spec.AreAfter entries.now ids.now shift (length ids.now) marks.items) }
{
    let mut marks = vec![in alloc; false; entries.len()]?;
    mark_all(entries, ids, shift, &mut marks);
    Ok(marks)
}

/// The entries of the context with the number.
pub(crate) fn entries_at(plan: &Dialplan, number: usize) -> &[Entry]
    ensures { result.now ≡ entries_at plan.now number }
{
    match plan.contexts().get(number) {
        Some(context) => context.entries(),
        None => &[],
    }
}

/// For each entry of the context with the number, whether its extension has an entry with a greater priority.
pub(crate) fn greater_marks(
    alloc: Global,
    plan: &Dialplan,
    number: usize,
) -> Result<Vec<bool>, NoMemory>
    ensures { IfOk result (λ marks. let entries = entries_at plan.now number in
        spec.AreMarks (has_greater entries) entries marks.items) }
{
    plan.show_entries_known();
    let marks = marks_of(alloc, entries_at(plan, number), plan.ranked_at(number), 0)?;
    Ok(marks)
}

/// For each entry of the context with the number, whether its extension has an entry with a lower priority.
pub(crate) fn lower_marks(
    alloc: Global,
    plan: &Dialplan,
    number: usize,
) -> Result<Vec<bool>, NoMemory>
    ensures { IfOk result (λ marks. let entries = entries_at plan.now number in
        spec.AreMarks (has_lower entries) entries marks.items) }
{
    plan.show_entries_known();
    let marks = marks_of(alloc, entries_at(plan, number), plan.ranked_at(number), 1)?;
    Ok(marks)
}
