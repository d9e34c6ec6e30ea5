//! The entries that a look-up finds in a search order.
ghost use Rattle.std.specs.Prelude.{◌≡◌, ◌↔◌, ℕ, List, Some, is_some, All, IsTrue, MatchOption};
ghost use Rattle.std.specs.List as lists;
ghost use Rattle.dp_plan.specs.Contexts.{AreNamed};
ghost use Rattle.dp_plan.specs.Plan.{PlanOf};
ghost use Rattle.dp_plan.specs.Ranking.{AreApart};
ghost use Rattle.dp_plan.specs.declared.entry.EntryId.{EntryId};
ghost use Rattle.dp_lookup.specs.Found.{HasPriority, HasLabel, NoneAsked, IsFound, SomeFound, IsFoundLabel, SomeGoesOn};
ghost use Rattle.dp_lookup.specs.FoundEntry.{passes, passing, least, found_by, found_entry, found_label, goes_on_more};
ghost use Rattle.dp_lookup.specs.steps.Questions.{asks};

use crate::order::SearchOrder;
use dp_pattern::{could_match_more, matches};
use dp_plan::{Dialplan, Entry, EntryId};

/// The condition for an entry, in addition to a text.
#[derive(Clone, Copy)]
enum LookUp<'a> {
    /// It matches the text and has this priority.
    Priority(u32),
    /// It matches the text and has this label.
    Label(&'a [u8]),
    /// It has priority 1 and its name goes on from the text.
    More,
}

fn has_label(entry: &Entry, label: &[u8]) -> bool
    ensures { IsTrue result ↔ (entry.now.label ≡ Some label.now) }
{
    match &entry.label {
        Some(entry_label) => entry_label.bytes() == label,
        None => false,
    }
}

/// Whether the entry meets the condition.
fn is_asked(question: LookUp<'_>, text: &[u8], entry: &Entry) -> bool
    ensures { result ≡ asks question.entry text.now entry.now }
{
    match question {
        LookUp::Priority(priority) => {
            entry.priority.get() == priority && matches(entry.name.name(), text)
        }
        LookUp::Label(label) => has_label(entry, label) && matches(entry.name.name(), text),
        LookUp::More => entry.priority.get() == 1 && could_match_more(entry.name.name(), text),
    }
}

/// The first of these entries that meets the condition.
fn first_of(plan: &Dialplan, ids: &[EntryId], question: LookUp<'_>, text: &[u8]) -> Option<EntryId>
    ensures { result ≡ lists.find (passes plan.now (asks question.entry text.now)) ids.now }
{
    for id in ids {
        if let Some(entry) = plan.entry(*id) {
            if is_asked(question, text, entry) {
                return Some(*id);
            }
        }
    }
    None
}

/// The least entry of the context with this number that meets the condition.
fn find_in(plan: &Dialplan, number: usize, question: LookUp<'_>, text: &[u8]) -> Option<EntryId>
    ensures { result ≡ least plan.now (passing plan.now (asks question.entry text.now) number) }
{
    first_of(plan, plan.ranked_at(number), question, text)
}

/// The least entry that meets the condition, in the first of the contexts with these numbers that has such an entry.
fn find_first(
    plan: &Dialplan,
    order: &[usize],
    question: LookUp<'_>,
    text: &[u8],
) -> Option<EntryId>
    ensures { result ≡ found_by plan.now (asks question.entry text.now) order.now }
{
    for number in order {
        let found = find_in(plan, *number, question, text);
        if found.is_some() {
            return found;
        }
    }
    None
}

/// The entry of the order's contexts that matches the dialled text and has the priority, or None if there is none.
///
/// If there are several, it is in the context that comes first in the order, and there it has the most specific name,
/// after the Asterisk documentation's page on pattern matching. The priority is checked before the name is chosen (a
/// choice of this program), and the extensions `s`, `i`, `t` and `h` are found like any other text. It never allocates.
/// A number in the order that is not that of a context finds nothing.
pub fn find(plan: &Dialplan, order: &SearchOrder, text: &[u8], priority: u32) -> Option<EntryId>
    ensures found { MatchOption result (NoneAsked (HasPriority text.now priority) plan.now order.now.contexts)
        (IsFound plan.now order.now.contexts text.now priority) }
    ensures value { result ≡ found_entry plan.now order.now.contexts text.now priority }
    ensures once { (a b : EntryId) → IsFound plan.now order.now.contexts text.now priority a
        → IsFound plan.now order.now.contexts text.now priority b → a ≡ b }
{
    plan.show_entries_known();
    find_first(plan, order.contexts(), LookUp::Priority(priority), text)
}

/// The priority of the entry of the order's contexts that matches the dialled text and has the label, or None if there
/// is none.
///
/// If there are several entries, it is the one that `find` would choose, by the context and then by the name (a choice
/// of this program); of those with the same name, the one with the lowest priority. It never allocates.
pub fn find_label(plan: &Dialplan, order: &SearchOrder, text: &[u8], label: &[u8]) -> Option<u32>
    ensures found { MatchOption result (NoneAsked (HasLabel text.now label.now) plan.now order.now.contexts)
        (IsFoundLabel plan.now order.now.contexts text.now label.now) }
    ensures value { result ≡ found_label plan.now order.now.contexts text.now label.now }
    ensures once { (a b : ℕ) → IsFoundLabel plan.now order.now.contexts text.now label.now a
        → IsFoundLabel plan.now order.now.contexts text.now label.now b → a ≡ b }
{
    let id = find_first(plan, order.contexts(), LookUp::Label(label), text)?;
    let entry = plan.entry(id)?;
    Some(entry.priority.get())
}

/// Whether `find` gives an entry. It never allocates.
pub fn exists(plan: &Dialplan, order: &SearchOrder, text: &[u8], priority: u32) -> bool
    ensures found { IsTrue result ↔ SomeFound plan.now order.now.contexts text.now priority }
    ensures value { result ≡ is_some (found_entry plan.now order.now.contexts text.now priority) }
{
    find(plan, order, text, priority).is_some()
}

/// Whether some ending of one or more bytes other than `-` makes the dialled text match an entry of priority 1 whose
/// name does not end with `!`: then a caller who has dialled the text may go on. It never allocates, and is a choice of
/// this program.
pub fn could_be_more(plan: &Dialplan, order: &SearchOrder, text: &[u8]) -> bool
    ensures found { IsTrue result ↔ SomeGoesOn plan.now order.now.contexts text.now }
    ensures value { result ≡ goes_on_more plan.now order.now.contexts text.now }
{
    plan.show_entries_known();
    find_first(plan, order.contexts(), LookUp::More, text).is_some()
}

/// States what `found_entry` finds, in any dialplan: the least entry with the priority, and None exactly if there is
/// none. If no two entries of a context have the same name and priority, as in every loaded dialplan, there is no
/// other. It does nothing.
pub fn found_entry_is_the_least()
    ensures found { (plan : PlanOf) (order text : List ℕ) (priority : ℕ)
        → MatchOption (found_entry plan order text priority) (NoneAsked (HasPriority text priority) plan order)
        (IsFound plan order text priority) }
    ensures once { (plan : PlanOf) (order text : List ℕ) (priority : ℕ)
        → All (λ context. AreApart context.entries) plan.contexts
        → (a b : EntryId) → IsFound plan order text priority a → IsFound plan order text priority b → a ≡ b }
{}

/// States what `found_label` finds, in any dialplan: the priority of the least entry with the label, and None exactly
/// if there is none. There is no other. It does nothing.
pub fn found_label_is_of_the_least()
    ensures found { (plan : PlanOf) (order text label : List ℕ)
        → MatchOption (found_label plan order text label) (NoneAsked (HasLabel text label) plan order)
        (IsFoundLabel plan order text label) }
    ensures once { (plan : PlanOf) (order text label : List ℕ) (a b : ℕ) → IsFoundLabel plan order text label a
        → IsFoundLabel plan order text label b → a ≡ b }
{}

/// States what `goes_on_more` says, in any dialplan whose names are meanings of texts, as in every loaded dialplan:
/// some ending of the text would match an entry of priority 1. It does nothing.
pub fn goes_on_more_is_some_ending()
    ensures { (plan : PlanOf) (order text : List ℕ) → All (λ context. AreNamed context.entries) plan.contexts
        → IsTrue (goes_on_more plan order text) ↔ SomeGoesOn plan order text }
{}
