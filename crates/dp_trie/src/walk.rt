//! The walk through a tree of patterns. It never allocates and is not recursive.
ghost use Rattle.std.specs.Prelude.{◌≡◌, ◌≤◌, length, slice_index, MatchOption, [], find};
ghost use Rattle.std.specs.Option.{option_map};
ghost use Rattle.dp_pattern.specs.Walk.{classes_of};
ghost use Rattle.dp_trie.specs.Asked.{is_more, wants, is_asked, hit_of};
ghost use Rattle.dp_pattern.specs.Dashes.{without_dashes};
ghost use Rattle.dp_trie.specs.Entered.{tree_entered};
ghost use Rattle.dp_trie.specs.steps.Digits.{Stands};
ghost use Rattle.dp_trie.specs.steps.Leaps.{AreLeaps};
ghost use Rattle.dp_trie.specs.Tree.{takes, allows, step_visit, known_from, IsRange, IsTree, Rises};

use crate::digits::{Cursor, Digits};
use crate::entry_question::{EntryQuestion, first_wanted, is_more};
use crate::leap::{Leap, leap_over};
use crate::node::{HeldEntry, Node, Step};
use dp_lookup::EntryId;
use dp_pattern::{Class, Tail};

/// The action of a walk at a node.
#[derive(Clone, Copy)]
pub(crate) enum Visit {
    /// It enters the node and goes on after it.
    Enters,
    /// It goes on after everything below the node.
    Fails,
    /// It enters the node, which holds the entry that was asked for.
    Holds(EntryId),
}

/// The result of a walk, and the number of nodes that it entered.
#[derive(Clone, Copy)]
pub(crate) struct Counted {
    pub(crate) hit: Option<EntryId>,
    pub(crate) count: usize,
}

/// Whether the class takes the digit with this number. After the last digit it does if the question asks for names that go on.
pub(crate) fn takes(
    class: &Class,
    number: usize,
    digits: &Digits<'_>,
    cursor: &mut Cursor,
    more: bool,
) -> bool
    requires { Stands digits.now.text.now cursor.old }
    ensures value { result ≡ takes more (without_dashes digits.now.text.now) class.now number }
    ensures stands { Stands digits.now.text.now cursor.new }
{
    match digits.at(number, cursor) {
        Some(digit) => class.has(digit),
        None => more,
    }
}

/// Whether the tail allows the digits that are left after so many of them.
pub(crate) fn allows(
    tail: Tail,
    number: usize,
    digits: &Digits<'_>,
    cursor: &mut Cursor,
    more: bool,
) -> bool
    requires { Stands digits.now.text.now cursor.old }
    ensures value { result ≡ allows more tail number (length (without_dashes digits.now.text.now)) }
    ensures stands { Stands digits.now.text.now cursor.new }
{
    match (more, tail) {
        (false, Tail::End) => !digits.has(number, cursor),
        (false, Tail::Dot) => digits.has(number, cursor),
        (false, Tail::Bang) => true,
        (true, Tail::End) => digits.are_fewer(number, cursor),
        (true, Tail::Dot) => true,
        (true, Tail::Bang) => false,
    }
}

/// The action of a walk at a node.
fn visit_node(
    node: &Node,
    held: &[HeldEntry],
    question: EntryQuestion,
    digits: &Digits<'_>,
    cursor: &mut Cursor,
) -> Visit
    requires range { IsRange (length held.now) node.now.step }
    requires rises { Rises held.now node.now.step }
    requires stands { Stands digits.now.text.now cursor.old }
    ensures stands { Stands digits.now.text.now cursor.new }
    ensures visit { result ≡ step_visit held.now (is_more question) (wants question) (without_dashes digits.now.text.now)
        node.now.depth node.now.step }
{
    match &node.step {
        Step::Class(class) => {
            if takes(class, node.depth, digits, cursor, is_more(question)) {
                Visit::Enters
            } else {
                Visit::Fails
            }
        }
        Step::Leaf(leaf) => {
            if !allows(leaf.tail, node.depth, digits, cursor, is_more(question)) {
                return Visit::Enters;
            }
            match first_wanted(question, &held[leaf.from..leaf.until]) {
                Some(hit) => Visit::Holds(hit),
                None => Visit::Enters,
            }
        }
    }
}

/// A tree of patterns: its nodes, the end of each, the leaps over its roots, and the entries of its leaves.
#[derive(Clone, Copy)]
pub(crate) struct PatternTree<'a> {
    pub(crate) nodes: &'a [Node],
    pub(crate) ends: &'a [usize],
    pub(crate) leaps: &'a [Leap],
    pub(crate) held: &'a [HeldEntry],
}

impl PatternTree<'_> {
    /// The first entry that the question asks for, in the order in which a walk meets them. A node that fails ends only the walk below it,
    /// and a leap passes many failing roots.
    pub(crate) fn find(&self, question: EntryQuestion, digits: &Digits<'_>) -> Counted
        requires tree { IsTree self.now.held.now self.now.nodes.now self.now.ends.now }
        requires leaps { AreLeaps self.now.nodes.now self.now.ends.now self.now.leaps.now }
        ensures hit { result.hit ≡ option_map hit_of
            (find (is_asked (is_more question) (wants question) (without_dashes digits.now.text.now))
            (known_from self.now.held.now [] self.now.nodes.now)) }
        ensures count { result.count ≡ tree_entered self.now.held.now (is_more question) (wants question)
            (without_dashes digits.now.text.now) [] self.now.nodes.now }
        ensures most { result.count ≤ length self.now.nodes.now }
        ensures least { MatchOption
            (find (is_asked (is_more question) (wants question) (without_dashes digits.now.text.now))
            (known_from self.now.held.now [] self.now.nodes.now))
            (Unit {0}) (λ known. length (classes_of known.name) ≤ result.count) }
    {
        let mut cursor = digits.first();
        let first = digits.at(0, &mut cursor);
        let mut next = 0;
        let mut place = 0;
        let mut count = 0;
        while let Some(node) = self.nodes.get(place) {
            if let Some(until) = leap_over(self.leaps, &mut next, place, first) {
                place = until;
                continue;
            }
            match visit_node(node, self.held, question, digits, &mut cursor) {
                Visit::Holds(hit) => {
                    return Counted {
                        hit: Some(hit),
                        count: count + 1,
                    };
                }
                Visit::Enters => {
                    place += 1;
                    count += 1;
                }
                Visit::Fails => place = self.ends[place],
            }
        }
        Counted { hit: None, count }
    }
}
