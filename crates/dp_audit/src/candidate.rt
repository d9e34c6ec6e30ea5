//! The extensions that match a dialled text, and what decides about each.
ghost use Rattle.std.specs.Prelude.{◌≡◌, ◌<◌, ◌++◌, ◌∷◌, ℕ, length, map, IfOk, OnOk, All};
ghost use Rattle.std.specs.List as lists;
ghost use Rattle.std.specs.Option.{option_map};
ghost use Rattle.dp_plan.specs.Lookup.{IsRankedAt};
ghost use Rattle.dp_plan.specs.Plan.{PlanOf};
ghost use Rattle.dp_plan.specs.Ranking.{AreApart};
ghost use Rattle.dp_lookup.specs.FoundEntry.{found_entry};
ghost use Rattle.dp_audit.specs.Candidates as spec;

use dp_lookup::SearchOrder;
use dp_pattern::matches;
use dp_plan::{Dialplan, EntryId, NoMemory};
use std::alloc::Global;

/// What decides about an extension whose name matches a dialled text.
#[derive(Clone, Copy, Debug, PartialEq, Eq)]
pub enum Verdict {
    /// It has the entry that a look-up finds.
    Answers,
    /// It has an entry with the priority, but an entry of the same context with a more specific name answers.
    LessSpecific,
    /// It has an entry with the priority, but an entry of an earlier context in the search order answers.
    LaterContext,
    /// It has no entry with the priority.
    NoSuchPriority,
}

/// An extension whose name matches a dialled text, and what decides about it.
#[derive(Clone, Copy, Debug, PartialEq, Eq)]
pub struct Candidate {
    /// The extension's entry with the priority or, if it has none, its entry with the lowest priority.
    pub id: EntryId,
    pub verdict: Verdict,
}

/// An extension whose name matches, represented by its entry with the priority or, if it has none, by its first entry.
#[derive(Clone, Copy)]
struct Matching {
    id: EntryId,
    has_priority: bool,
}

/// Whether the entries have the same name.
fn have_one_name(plan: &Dialplan, left: EntryId, right: EntryId) -> bool
    ensures { result ≡ spec.have_one_name plan.now left right }
{
    match (plan.entry(left), plan.entry(right)) {
        (Some(left), Some(right)) => left.name.spelling() == right.name.spelling(),
        _ => false,
    }
}

/// Whether the name of the entry matches the text.
fn is_matched(plan: &Dialplan, text: &[u8], id: EntryId) -> bool
    ensures { result ≡ spec.is_matched plan.now text.now id }
{
    match plan.entry(id) {
        Some(entry) => matches(entry.name.name(), text),
        None => false,
    }
}

/// Whether the entry has the priority.
fn has_number(plan: &Dialplan, priority: u32, id: EntryId) -> bool
    ensures { result ≡ spec.has_number plan.now priority id }
{
    match plan.entry(id) {
        Some(entry) => entry.priority.get() == priority,
        None => false,
    }
}

/// The number of ranked entries, from the first on, that belong to the first entry's extension.
fn first_size(plan: &Dialplan, ids: &[EntryId]) -> usize
    ensures { result ≡ spec.first_size plan.now ids.now }
{
    for place in 0..ids.len().saturating_sub(1) {
        if !have_one_name(plan, ids[place], ids[place + 1]) {
            return place + 1;
        }
    }
    ids.len()
}

/// The first extension of ranked entries, and the entries after it.
fn split_first<'a>(plan: &Dialplan, ids: &'a [EntryId]) -> (&'a [EntryId], &'a [EntryId])
    requires { 0 < length ids.now }
    ensures split { spec.extensions plan.now ids.now ≡ result.0.now ∷ spec.extensions plan.now result.1.now }
    ensures shorter { length result.1.now < length ids.now }
{
    ids.split_at(first_size(plan, ids))
}

/// The first of these entries that has the priority.
fn entry_of_number(plan: &Dialplan, priority: u32, ids: &[EntryId]) -> Option<EntryId>
    ensures { result ≡ lists.find (spec.has_number plan.now priority) ids.now }
{
    for id in ids {
        if has_number(plan, priority, *id) {
            return Some(*id);
        }
    }
    None
}

/// The extension of these entries, if its name matches.
fn matching_of(
    plan: &Dialplan,
    text: &[u8],
    priority: u32,
    extension: &[EntryId],
) -> Option<Matching>
    ensures { result ≡ spec.matching_of plan.now text.now priority extension.now }
{
    let first = *extension.first()?;
    if !is_matched(plan, text, first) {
        return None;
    }
    match entry_of_number(plan, priority, extension) {
        Some(id) => Some(Matching {
            id,
            has_priority: true,
        }),
        None => Some(Matching {
            id: first,
            has_priority: false,
        }),
    }
}

/// Adds the extensions of ranked entries whose names match.
fn push_matching(
    list: &mut Vec<Matching>,
    plan: &Dialplan,
    ids: &[EntryId],
    text: &[u8],
    priority: u32,
) -> Result<(), NoMemory>
    ensures { OnOk result (list.new.items ≡ list.old.items ++ spec.matching_in plan.now text.now priority ids.now) }
{
    let mut rest = ids;
    while !rest.is_empty() {
        let (extension, after) = split_first(plan, rest);
        if let Some(matching) = matching_of(plan, text, priority, extension) {
            list.push(matching)?;
        }
        rest = after;
    }
    Ok(())
}

/// Adds the extensions of the context with this number whose names match.
fn push_context(
    list: &mut Vec<Matching>,
    plan: &Dialplan,
    number: usize,
    text: &[u8],
    priority: u32,
) -> Result<(), NoMemory>
    ensures { OnOk result (list.new.items
        ≡ list.old.items ++ spec.matching_in plan.now text.now priority (spec.ranked_of plan.now number)) }
{
    plan.show_entries_known();
    push_matching(list, plan, plan.ranked_at(number), text, priority)
}

/// The extensions of the contexts with these numbers whose names match.
fn all_matching(
    alloc: Global,
    plan: &Dialplan,
    order: &[usize],
    text: &[u8],
    priority: u32,
) -> Result<Vec<Matching>, NoMemory>
    ensures { IfOk result (λ list. list.items ≡ spec.all_matching plan.now order.now text.now priority) }
{
    let mut list = Vec::new(alloc);
    for number in order {
        push_context(&mut list, plan, *number, text, priority)?;
    }
    Ok(list)
}

/// The entry of the first of these extensions that has the priority.
fn answer_of(list: &[Matching]) -> Option<EntryId>
    ensures { result ≡ spec.answer_of list.now }
{
    for matching in list {
        if matching.has_priority {
            return Some(matching.id);
        }
    }
    None
}

/// What decides about an extension, given the entry that answers.
fn verdict_of(answer: Option<EntryId>, matching: Matching) -> Verdict
    ensures { result ≡ spec.verdict_of answer matching }
{
    match answer {
        _ if !matching.has_priority => Verdict::NoSuchPriority,
        Some(found) if found == matching.id => Verdict::Answers,
        Some(found) if found.context == matching.id.context => Verdict::LessSpecific,
        _ => Verdict::LaterContext,
    }
}

/// Each of these extensions, with what decides about it.
fn judge(
    alloc: Global,
    answer: Option<EntryId>,
    list: &[Matching],
) -> Result<Vec<Candidate>, NoMemory>
    ensures { IfOk result (λ judged. judged.items ≡ map (spec.candidate_of answer) list.now) }
{
    list.iter()
        .map(|matching| Candidate {
            id: matching.id,
            verdict: verdict_of(answer, *matching),
        })
        .collect(alloc)
}

/// The extensions of the order's contexts whose names match the dialled text, in the order in which a look-up tries them, each with what
/// decides about it.
///
/// An extension is a context and a name (dialplan, pattern matching). The contexts are in their order; in each, the more specific name
/// comes first. A number in the order that no context of the dialplan has gives no extension. The cost is proportional to the number of
/// entries in the order's contexts, and each name is matched once. It fails only if memory runs out.
pub fn candidates(
    alloc: Global,
    plan: &Dialplan,
    order: &SearchOrder,
    text: &[u8],
    priority: u32,
) -> Result<Vec<Candidate>, NoMemory>
    ensures exact { IfOk result (λ list. list.items
        ≡ spec.candidates_of plan.now order.now.contexts text.now priority) }
    ensures answer { IfOk result (λ list. option_map (λ c. c.id) (lists.find spec.answers list.items)
        ≡ found_entry plan.now order.now.contexts text.now priority) }
    ensures only { IfOk result (λ list. All (spec.IsOfAnswer
        (found_entry plan.now order.now.contexts text.now priority)) list.items) }
{
    plan.show_entries_known();
    let list = all_matching(alloc, plan, order.contexts(), text, priority)?;
    judge(alloc, answer_of(&list), &list)
}

/// The order in which a look-up tries the entries of a context, in any dialplan in which no two entries of a context have the same name and
/// priority, as in every loaded one.
pub fn ranked_is_the_ranking()
    ensures { (plan : PlanOf) → All (λ context. AreApart context.entries) plan.contexts
        → (number : ℕ) → IsRankedAt plan number (spec.ranked_of plan number) }
{}
