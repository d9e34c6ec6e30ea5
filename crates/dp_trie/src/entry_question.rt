//! The conditions of a look-up on an entry.
ghost use Rattle.std.specs.Prelude.{◌≡◌, ◌==◌};
ghost use Rattle.std.specs.List as lists;
ghost use Rattle.std.specs.Option.{option_map};
ghost use Rattle.dp_trie.specs.Asked.{is_more, wants, holds, hit_held, Rise};

use crate::node::HeldEntry;
use dp_lookup::EntryId;

/// What an entry is asked for, besides a text.
#[derive(Clone, Copy)]
pub(crate) enum EntryQuestion {
    /// That it matches the text and has this priority.
    Priority(u32),
    /// That it has priority 1 and its name goes on from the text.
    More,
}

/// Whether the question is which names go on from the text.
#[inline(always)]
pub(crate) fn is_more(question: EntryQuestion) -> bool
    ensures { result ≡ is_more question }
{
    match question {
        EntryQuestion::Priority(_) => false,
        EntryQuestion::More => true,
    }
}

/// The entry with the priority, by binary search.
fn search_priority(held: &[HeldEntry], priority: u32) -> Option<EntryId>
    requires { Rise held.now }
    ensures { result ≡ option_map hit_held (lists.find (λ one. one.priority == priority) held.now) }
{
    let place = held.partition_point(|one| one.priority < priority);
    match held.get(place) {
        Some(one) if one.priority == priority => Some(one.id),
        _ => None,
    }
}

/// The entry with the priority. Priorities mostly count from 1, so its place there is tried first.
#[inline(always)]
fn of_priority(held: &[HeldEntry], priority: u32) -> Option<EntryId>
    requires { Rise held.now }
    ensures { result ≡ option_map hit_held (lists.find (λ one. one.priority == priority) held.now) }
{
    let place = (priority as usize).saturating_sub(1);
    match held.get(place) {
        Some(one) if one.priority == priority => Some(one.id),
        _ => search_priority(held, priority),
    }
}

/// The first of these entries, which have the same name, that the question asks for.
#[inline(always)]
pub(crate) fn first_wanted(question: EntryQuestion, held: &[HeldEntry]) -> Option<EntryId>
    requires { Rise held.now }
    ensures { result ≡ option_map hit_held (lists.find (holds (wants question)) held.now) }
{
    match question {
        EntryQuestion::Priority(priority) => of_priority(held, priority),
        EntryQuestion::More => of_priority(held, 1),
    }
}
