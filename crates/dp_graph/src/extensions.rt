//! The name of a context and its extensions: its ranked entries, cut where the name changes.
ghost use Rattle.std.specs.Prelude.{◌≡◌, ◌<◌, ◌∷◌, length};
ghost use Rattle.dp_audit.specs.Candidates as spec;
ghost use Rattle.dp_audit.specs.Findings.{context_name};

use dp_plan::{Dialplan, EntryId};

/// The name of the context with this number; empty if there is no such context.
pub(crate) fn name_of(plan: &Dialplan, number: usize) -> &[u8]
    ensures { result.now ≡ context_name plan.now number }
{
    match plan.contexts().get(number) {
        Some(context) => context.name().bytes(),
        None => b"",
    }
}

/// The entries of the context with this number, in the order in which a look-up tries them.
pub(crate) fn ranked_of(plan: &Dialplan, number: usize) -> &[EntryId]
    ensures { result.now ≡ spec.ranked_of plan.now number }
{
    plan.show_entries_known();
    plan.ranked_at(number)
}

/// Whether the entries have the same name.
fn have_one_name(plan: &Dialplan, left: EntryId, right: EntryId) -> bool
    ensures { result ≡ spec.have_one_name plan.now left right }
{
    match (plan.entry(left), plan.entry(right)) {
        (Some(left), Some(right)) => left.name.spelling() == right.name.spelling(),
        _ => false,
    }
}

/// The number of ranked entries, from the first on, that belong to the first entry's extension.
fn first_size(plan: &Dialplan, ids: &[EntryId]) -> usize
    ensures { result ≡ spec.first_size plan.now ids.now }
{
    for place in 0..ids.len().saturating_sub(1) {
        if !have_one_name(plan, ids[place], ids[place + 1]) {
            return place + 1;
        }
    }
    ids.len()
}

/// The first extension of ranked entries, and the entries after it.
pub(crate) fn split_first<'a>(plan: &Dialplan, ids: &'a [EntryId]) -> (&'a [EntryId], &'a [EntryId])
    requires { 0 < length ids.now }
    ensures split { spec.extensions plan.now ids.now ≡ result.0.now ∷ spec.extensions plan.now result.1.now }
    ensures shorter { length result.1.now < length ids.now }
{
    ids.split_at(first_size(plan, ids))
}
