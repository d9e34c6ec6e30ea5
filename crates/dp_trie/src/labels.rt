//! The labels of a context: a table from each label to the names that have it, in the order of names.
ghost use Rattle.std.specs.Prelude.{◌≡◌, ℕ, List, ◌<◌, ◌≤◌, [], ◌∷◌, ◌++◌, length, map, take, drop, find, unwrap_or, if◌then◌else◌, nat_eq, IfOk, OnOk};
ghost use Rattle.std.specs.Cmp.Lexicographic.{pointwise};
ghost use Rattle.std.specs.List.{AllByRecursion};
ghost use Rattle.std.specs.Option.{option_map};
ghost use Rattle.dp_pattern.specs.Dashes.{without_dashes};
ghost use Rattle.dp_trie.specs.steps.Labels.{held_of, is_matched, name_rank, Adds, AreRising, AreLabels};
ghost use Rattle.dp_trie.specs.steps.Ranked.{known_now, AreInOrder};

use crate::digits::Digits;
use crate::label_key::LabelKey;
use crate::matching::matches;
use crate::plain::{rank, side_of};
use crate::ranked::Ranked;
use dp_lookup::NoMemory;
use dp_pattern::{Name, Parts};
use dp_plan::{SharedName, SharedText};
use indexmap::IndexMap;
use std::alloc::Global;
use std::marker::Model;

/// A name that has a label, and the priority of the label there.
#[derive(Drop)]
pub(crate) struct Holder {
    pub(crate) name: SharedName,
    pub(crate) priority: u32,
}

/// The names that have one label, at least one of them. A contract sees them as a list.
#[derive(Drop)]
pub(crate) struct Holders {
    first: Holder,
    more: Vec<Holder>,
}

impl Model for Holders {
    ghost use Rattle.std.specs.Prelude.{List, ◌∷◌};
    ghost use Rattle.dp_trie.specs.declared.labels.Holder.{Holder};

    ghost Value = { List Holder };

    ghost view = { λ holders. holders.first ∷ holders.more.items };
}

/// The names that have each of the labels of a context.
#[derive(Drop)]
pub(crate) struct Labels {
    rows: IndexMap<LabelKey, Holders>,
}

/// The rank of the patterns among the names with a label, after all plain names.
const PATTERN: u8 = 4;

/// The rank of a name among those with a label.
fn name_rank(name: &Name, digits: &Digits<'_>) -> u8
    ensures { result ≡ name_rank (without_dashes digits.now.text.now) name.now }
{
    match name.parts() {
        Parts::Plain(text) => rank(side_of(text, digits)),
        Parts::Pattern(_, _) => PATTERN,
    }
}

/// The number of holders of a label whose names are below a rank.
fn count_below(holders: &[Holder], digits: &Digits<'_>, limit: u8) -> usize
    requires { AreRising holders.now }
    ensures within { result ≤ length holders.now }
    ensures below { AllByRecursion (λ holder. name_rank (without_dashes digits.now.text.now) holder.name < limit)
        (take result holders.now) }
    ensures above { AllByRecursion (λ holder. limit ≤ name_rank (without_dashes digits.now.text.now) holder.name)
        (drop result holders.now) }
{
    holders.partition_point(|holder| name_rank(holder.name.name(), digits) < limit)
}

/// The priority of the first holder whose name the digits match, trying each in turn.
fn first_matched(holders: &[Holder], digits: &Digits<'_>) -> Option<u32>
    ensures { result ≡ option_map (λ holder. holder.priority)
        (find (λ holder. is_matched (without_dashes digits.now.text.now) holder.name) holders.now) }
{
    for holder in holders {
        if matches(holder.name.name(), digits) {
            return Some(holder.priority);
        }
    }
    None
}

/// The priority of the first holder of a label whose name the digits match. A plain name is found by binary search, and after the plain
/// names each pattern is tried in turn.
fn find_among(holders: &[Holder], digits: &Digits<'_>) -> Option<u32>
    requires { AreRising holders.now }
    ensures { result ≡ option_map (λ holder. holder.priority)
        (find (λ holder. is_matched (without_dashes digits.now.text.now) holder.name) holders.now) }
{
    match holders.get(count_below(holders, digits, 1)) {
        Some(holder) if matches(holder.name.name(), digits) => Some(holder.priority),
        _ => {
            let (_, patterns) = holders.split_at(count_below(holders, digits, PATTERN));
            first_matched(patterns, digits)
        }
    }
}

/// The earlier holders, and one more after them.
fn holders_with(before: Option<Holders>, alloc: Global, holder: Holder) -> Result<Holders, NoMemory>
    ensures { IfOk result (λ holders. holders ≡ unwrap_or before [] ++ holder ∷ []) }
{
    match before {
        Some(before) => before.with(holder),
        None => Ok(Holders {
            first: holder,
            more: Vec::new(alloc),
        }),
    }
}

impl Holders {
    /// These holders, and one more after them.
    fn with(self, holder: Holder) -> Result<Self, NoMemory>
        ensures { IfOk result (λ holders. holders ≡ self ++ holder ∷ []) }
    {
        let mut holders = self;
        holders.more.push(holder)?;
        Ok(holders)
    }

    /// The priority of the first of these holders whose name the digits match.
    #[tactic(auto, using(crate::proofs::LabelLemmas::rise_rest))]
    fn find(&self, digits: &Digits<'_>) -> Option<u32>
        requires { AreRising self.now }
        ensures { result ≡ option_map (λ holder. holder.priority)
            (find (λ holder. is_matched (without_dashes digits.now.text.now) holder.name) self.now) }
    {
        if matches(self.first.name.name(), digits) {
            return Some(self.first.priority);
        }
        find_among(&self.more, digits)
    }
}

impl Labels {
    /// Adds a holder of a label after its others.
    fn add_holder(
        &mut self,
        alloc: Global,
        label: &SharedText,
        holder: Holder,
    ) -> Result<(), NoMemory>
        ensures { OnOk result ((sought : List ℕ) → held_of self.new sought ≡ held_of self.old sought
            ++ (if pointwise nat_eq label.now sought then holder ∷ [] else [])) }
    {
        let key = LabelKey::of(label)?;
        let before = self.rows.swap_remove(&key);
        let holders = holders_with(before, alloc, holder)?;
        self.rows.insert(key, holders)?;
        Ok(())
    }

    /// Adds an entry as a holder of its label, if it has one.
    fn add_entry(&mut self, alloc: Global, one: Ranked<'_>) -> Result<(), NoMemory>
        ensures { OnOk result (Adds self.old self.new (known_now one.entry)) }
    {
        match &one.entry.label {
            Some(label) => {
                let name = one.entry.name.clone()?;
                let priority = one.entry.priority.get();
                self.add_holder(alloc, label, Holder { name, priority })
            }
            None => Ok(()),
        }
    }

    /// The labels of the entries.
    pub(crate) fn of(alloc: Global, ranked: &[Ranked<'_>]) -> Result<Self, NoMemory>
        requires { AreInOrder (map known_now ranked.now) }
        ensures { IfOk result (λ labels. AreLabels (map known_now ranked.now) labels) }
    {
        let mut labels = Labels {
            rows: IndexMap::new(alloc),
        };
        for one in ranked {
            labels.add_entry(alloc, *one)?;
        }
        Ok(labels)
    }

    /// The priority of the label in the first name that has it and that the digits match.
    pub(crate) fn find(&self, label: &[u8], digits: &Digits<'_>) -> Option<u32>
        requires { AreRising (held_of self.now label.now) }
        ensures { result ≡ option_map (λ holder. holder.priority)
            (find (λ holder. is_matched (without_dashes digits.now.text.now) holder.name) (held_of self.now label.now)) }
    {
        match self.rows.get(label) {
            Some(holders) => holders.find(digits),
            None => None,
        }
    }
}
