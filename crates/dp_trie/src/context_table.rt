//! The data kept of one context: its plain names, the tree of its patterns, and the table of its labels.
ghost use Rattle.std.specs.Prelude.{◌≡◌, ◌≤◌, false, length, map, take, drop, find, MatchOption, IsTrue, IsFalse, IfOk};
ghost use Rattle.std.specs.List.{AllByRecursion};
ghost use Rattle.std.specs.Option.{option_map};
ghost use Rattle.dp_pattern.specs.Dashes.{without_dashes};
ghost use Rattle.dp_trie.specs.Asked.{is_more, wants, is_asked, has_label, hit_of};
ghost use Rattle.dp_trie.specs.Entered.{entered_count};
ghost use Rattle.dp_trie.specs.Known.{KeepsEntries, class_count, most_nodes};
ghost use Rattle.dp_trie.specs.steps.Ranked.{known_now, IsPattern, IsPlain, ArePlainFirst, AreInOrder};

use crate::build::build_nodes;
use crate::digits::Digits;
use crate::entry_question::EntryQuestion;
use crate::labels::Labels;
use crate::leap::{Leap, leaps_of};
use crate::link::link;
use crate::node::{HeldEntry, Node};
use crate::plain::{PlainName, find_plain, plain_names};
use crate::ranked::{Ranked, hold_all, name_of, rank};
use crate::walk::{Counted, PatternTree};
use dp_lookup::{Dialplan, NoMemory};
use dp_pattern::{Name, Parts};
use std::alloc::Global;
use std::marker::Model;

/// The data kept of a context. A contract sees it as its entries in the order in which a look-up tries them, and the number of nodes of its
/// tree.
#[derive(Drop)]
pub(crate) struct ContextTable {
    names: Vec<PlainName>,
    plain: Vec<HeldEntry>,
    nodes: Vec<Node>,
    ends: Vec<usize>,
    leaps: Vec<Leap>,
    held: Vec<HeldEntry>,
    labels: Labels,
}

impl Model for ContextTable {
    ghost use Rattle.std.specs.Prelude.{◌≤◌, [], ◌++◌, length};
    ghost use Rattle.dp_trie.specs.Entered.{StandOnce};
    ghost use Rattle.dp_trie.specs.Known.{KeptContext, most_nodes};
    ghost use Rattle.dp_trie.specs.steps.Labels.{AreLabels};
    ghost use Rattle.dp_trie.specs.steps.Leaps.{AreLeaps};
    ghost use Rattle.dp_trie.specs.Names.{known_plain, ArePlainRanges};
    ghost use Rattle.dp_trie.specs.steps.Ranked.{AreInOrder};
    ghost use Rattle.dp_trie.specs.Tree.{known_from, IsTree};

    ghost Value = { KeptContext };

    ghost view = { λ table. record {
      entries = known_plain table.plain.items table.names.items ++ known_from table.held.items [] table.nodes.items;
      size = length table.nodes.items;
    } };

    ghost invariant = { λ table.
        ArePlainRanges (length table.plain.items) table.names.items
        × AreInOrder (known_plain table.plain.items table.names.items)
        × IsTree table.held.items table.nodes.items table.ends.items
        × AreLeaps table.nodes.items table.ends.items table.leaps.items
        × AreLabels (known_plain table.plain.items table.names.items ++ known_from table.held.items [] table.nodes.items)
        table.labels
        × (length table.nodes.items
        ≤ most_nodes (known_plain table.plain.items table.names.items ++ known_from table.held.items [] table.nodes.items))
        × StandOnce table.held.items table.nodes.items };
}

/// Whether the name is plain.
fn is_plain(name: &Name) -> bool
    ensures plain { IsTrue result → IsPlain name.now }
    ensures pattern { IsFalse result → IsPattern name.now }
{
    match name.parts() {
        Parts::Plain(_) => true,
        Parts::Pattern(_, _) => false,
    }
}

/// The number of entries with plain names, which come first.
fn count_plain(ranked: &[Ranked<'_>]) -> usize
    requires { ArePlainFirst (map known_now ranked.now) }
    ensures within { result ≤ length ranked.now }
    ensures plain { AllByRecursion (λ one. IsPlain (known_now one).name) (take result ranked.now) }
    ensures pattern { AllByRecursion (λ one. IsPattern (known_now one).name) (drop result ranked.now) }
{
    let mut count = 0;
    while let Some(one) = ranked.get(count) {
        if !is_plain(name_of(one.entry)) {
            return count;
        }
        count += 1;
    }
    count
}

/// The data kept of the entries in their order.
fn build_table(alloc: Global, ranked: &[Ranked<'_>]) -> Result<ContextTable, NoMemory>
    requires plain_first { ArePlainFirst (map known_now ranked.now) }
    requires order { AreInOrder (map known_now ranked.now) }
    ensures { IfOk result (λ table. table.entries ≡ map known_now ranked.now) }
{
    let (first, rest) = ranked.split_at(count_plain(ranked));
    let names = plain_names(alloc, first)?;
    let plain = hold_all(alloc, first)?;
    let nodes = build_nodes(alloc, rest)?;
    let ends = link(alloc, &nodes)?;
    let leaps = leaps_of(alloc, &nodes, &ends)?;
    let held = hold_all(alloc, rest)?;
    let labels = Labels::of(alloc, ranked)?;
    Ok(ContextTable {
        names,
        plain,
        nodes,
        ends,
        leaps,
        held,
        labels,
    })
}

impl ContextTable {
    /// The data kept of the context with a number.
    pub(crate) fn build(alloc: Global, plan: &Dialplan, number: usize) -> Result<Self, NoMemory>
        ensures { IfOk result (λ table. KeepsEntries plan.now number table.entries) }
    {
        let ranked = rank(alloc, plan, number)?;
        let table = build_table(alloc, &ranked)?;
        Ok(table)
    }

    /// The number of nodes of the tree.
    pub(crate) fn nodes(&self) -> usize
        ensures value { result ≡ self.now.size }
        ensures most { result ≤ most_nodes self.now.entries }
    {
        self.nodes.len()
    }

    /// The first entry that the question asks for, and the number of nodes that were entered. Plain names are searched before the tree.
    pub(crate) fn find(&self, question: EntryQuestion, digits: &Digits<'_>) -> Counted
        ensures hit { result.hit ≡ option_map hit_of
            (find (is_asked (is_more question) (wants question) (without_dashes digits.now.text.now)) self.now.entries) }
        ensures count { result.count ≡ entered_count (is_more question) (wants question) (without_dashes digits.now.text.now)
            self.now.entries }
        ensures most { result.count ≤ self.now.size }
        ensures least { MatchOption
            (find (is_asked (is_more question) (wants question) (without_dashes digits.now.text.now)) self.now.entries)
            (Unit {0}) (λ known. class_count known.name ≤ result.count) }
    {
        match find_plain(&self.names, &self.plain, question, digits) {
            Some(hit) => Counted {
                hit: Some(hit),
                count: 0,
            },
            None => {
                if self.nodes.is_empty() {
                    return Counted {
                        hit: None,
                        count: 0,
                    };
                }
                let tree = PatternTree {
                    nodes: &self.nodes,
                    ends: &self.ends,
                    leaps: &self.leaps,
                    held: &self.held,
                };
                tree.find(question, digits)
            }
        }
    }

    /// The priority of the first entry that matches and has the label.
    pub(crate) fn find_label(&self, label: &[u8], digits: &Digits<'_>) -> Option<u32>
        ensures { result ≡ option_map (λ known. known.priority)
            (find (is_asked false (has_label label.now) (without_dashes digits.now.text.now)) self.now.entries) }
    {
        self.labels.find(label, digits)
    }
}
