//! The entries of a context in the order in which a look-up tries them.
ghost use Rattle.std.specs.Prelude.{◌≡◌, ◌≢◌, ◌<◌, [], ◌∷◌, ◌++◌, length, map, slice_get, filter_map, Some, IfOk, OnOk, IsTrue, ◌↔◌};
ghost use Rattle.dp_trie.specs.declared.ranked.Ranked.{Ranked};
ghost use Rattle.dp_pattern.specs.Name.{Plain, Pattern};
ghost use Rattle.dp_trie.specs.Known.{known_at, KeepsEntries};
ghost use Rattle.dp_trie.specs.steps.Ranked.{known_now, hold_of, IsPattern, IsPlain, IsGroup, ArePlainFirst, AreInOrder};

use crate::node::HeldEntry;
use dp_lookup::{Dialplan, EntryId, NoMemory};
use dp_pattern::{Class, Name, Parts, Tail};
use dp_plan::{Entry, SharedName, same_names_are_equal};
use std::alloc::Global;

/// An entry with its number.
#[derive(Clone, Copy)]
pub(crate) struct Ranked<'a> {
    pub(crate) id: EntryId,
    pub(crate) entry: &'a Entry,
}

/// The name of an entry.
pub(crate) fn name_of(entry: &Entry) -> &Name
    ensures { result.now ≡ entry.now.name }
{
    entry.name.name()
}

/// The classes and the tail of a pattern.
pub(crate) fn pattern_of(name: &Name) -> (&[Class], Tail)
    requires { IsPattern name.now }
    ensures { Pattern result.0.now result.1 ≡ name.now }
{
    match name.parts() {
        Parts::Pattern(classes, tail) => (classes, tail),
        Parts::Plain(_) => unreachable!(),
    }
}

/// The text of a plain name.
pub(crate) fn plain_of(name: &Name) -> &[u8]
    requires { IsPlain name.now }
    ensures { Plain result.now ≡ name.now }
{
    match name.parts() {
        Parts::Plain(text) => text,
        Parts::Pattern(_, _) => unreachable!(),
    }
}

/// Adds the entry with a number, if there is one.
fn push_entry<'a>(
    plan: &'a Dialplan,
    id: EntryId,
    ranked: &mut Vec<Ranked<'a>>,
) -> Result<(), NoMemory>
    ensures { OnOk result (map known_now ranked.new.items
        ≡ map known_now ranked.old.items ++ filter_map (known_at plan.now) (id ∷ [])) }
{
    match plan.entry(id) {
        Some(entry) => {
            ranked.push(Ranked { id, entry })?;
            Ok(())
        }
        None => Ok(()),
    }
}

/// The entries of a context in their order.
pub(crate) fn rank(
    alloc: Global,
    plan: &Dialplan,
    number: usize,
) -> Result<Vec<Ranked<'_>>, NoMemory>
    ensures keeps { IfOk result (λ ranked. KeepsEntries plan.now number (map known_now ranked.items)) }
    ensures plain_first { IfOk result (λ ranked. ArePlainFirst (map known_now ranked.items)) }
    ensures order { IfOk result (λ ranked. AreInOrder (map known_now ranked.items)) }
{
    let ids = plan.ranked_at(number);
    let mut ranked = Vec::with_capacity(alloc, ids.len())?;
    for id in ids {
        push_entry(plan, *id, &mut ranked)?;
    }
    Ok(ranked)
}

/// Whether two names are the same. It compares their spellings many bytes at a time; classes would be compared one by one.
fn are_one(left: &SharedName, right: &SharedName) -> bool
    ensures { IsTrue result ↔ (left.now ≡ right.now) }
{
    // What a name is made of is what some text means, and that has one spelling.
    same_names_are_equal();
    let _left = left.name().parts();
    let _right = right.name().parts();
    left.spelling() == right.spelling()
}

/// The place after the entries that have the name of the entry at a place: anything there has another name.
pub(crate) fn group_end(ranked: &[Ranked<'_>], from: usize, name: &SharedName) -> usize
    requires within { from < length ranked.now }
    requires first { (one : Ranked) → slice_get ranked.now from ≡ Some one → (known_now one).name ≡ name.now }
    ensures group { IsGroup (map known_now ranked.now) from result name.now }
    ensures apart { (next : Ranked) → slice_get ranked.now result ≡ Some next → (known_now next).name ≢ name.now }
{
    let mut until = from + 1;
    while let Some(next) = ranked.get(until) {
        if !are_one(&next.entry.name, name) {
            return until;
        }
        until += 1;
    }
    until
}

/// The data held of an entry.
fn hold(one: Ranked<'_>) -> Result<HeldEntry, NoMemory>
    ensures { IfOk result (λ held. held ≡ hold_of (known_now one.entry)) }
{
    let label = one.entry.label.clone()?;
    Ok(HeldEntry {
        id: one.id,
        priority: one.entry.priority.get(),
        label,
    })
}

/// The data held of all entries.
pub(crate) fn hold_all(alloc: Global, ranked: &[Ranked<'_>]) -> Result<Vec<HeldEntry>, NoMemory>
    ensures { IfOk result (λ held. held.items ≡ map hold_of (map known_now ranked.now)) }
{
    let mut held = Vec::with_capacity(alloc, ranked.len())?;
    for one in ranked {
        let one = hold(*one)?;
        held.push(one)?;
    }
    Ok(held)
}
