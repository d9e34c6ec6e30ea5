//! Building a tree of patterns from the entries of a context in their order.
ghost use Rattle.std.specs.Prelude.{◌≡◌, ◌↔◌, ◌+◌, ◌≤◌, [], ◌∷◌, ◌++◌, length, map, take, drop, IfOk, OnOk, IsTrue, sum_by};
ghost use Rattle.std.specs.List.{AllByRecursion};
ghost use Rattle.dp_trie.specs.Entered.{shared_count, StandOnce};
ghost use Rattle.dp_trie.specs.Known.{most_added};
ghost use Rattle.dp_trie.specs.steps.Ranked.{known_now, hold_of, IsPattern};
ghost use Rattle.dp_trie.specs.Tree.{known_from, path_end, AreRanges, IsRooted, pattern_nodes, Pushes, Reaches};

use crate::node::{Leaf, Node, Step};
use crate::ranked::{Ranked, group_end, name_of, pattern_of};
use dp_lookup::NoMemory;
use dp_pattern::{Class, compare_classes};
use std::alloc::Global;

/// Whether two classes are the same.
fn is_same(left: &Class, right: &Class) -> bool
    ensures { IsTrue result ↔ (left.now ≡ right.now) }
{
    compare_classes(left, right).is_eq()
}

/// The number of classes that two patterns share at their start.
fn count_shared(left: &[Class], right: &[Class]) -> usize
    ensures left { result ≤ length left.now }
    ensures right { result ≤ length right.now }
    ensures same { take result left.now ≡ take result right.now }
    ensures value { result ≡ shared_count left.now right.now }
{
    let most = left.len().min(right.len());
    for place in 0..most {
        if !is_same(&left[place], &right[place]) {
            return place;
        }
    }
    most
}

/// Adds the node of a class.
fn push_class(nodes: &mut Vec<Node>, depth: usize, class: &Class) -> Result<(), NoMemory>
    ensures { OnOk result (nodes.new.items ≡ nodes.old.items ++
        (record { depth = depth; step = Step.Class class.now }) ∷ []) }
{
    let class = class.clone()?;
    nodes.push(Node {
        depth,
        step: Step::Class(class),
    })?;
    Ok(())
}

/// Adds the nodes of the classes, from a place on.
fn push_classes(nodes: &mut Vec<Node>, classes: &[Class], from: usize) -> Result<(), NoMemory>
    requires within { from ≤ length classes.now }
    requires above { take from (path_end [] nodes.old.items) ≡ take from classes.now }
    requires long { from ≤ length (path_end [] nodes.old.items) }
    ensures { OnOk result (Reaches nodes.old.items nodes.new.items classes.now from (length classes.now)) }
{
    for depth in from..classes.len() {
        push_class(nodes, depth, &classes[depth])?;
    }
    Ok(())
}

/// Adds the nodes of a pattern that it does not share with the pattern above it.
fn push_pattern(
    nodes: &mut Vec<Node>,
    above: &[Class],
    classes: &[Class],
    leaf: Leaf,
) -> Result<(), NoMemory>
    requires { path_end [] nodes.old.items ≡ above.now }
    ensures pushes { OnOk result (Pushes nodes.old.items nodes.new.items classes.now leaf) }
    ensures added { OnOk result (nodes.new.items ≡ nodes.old.items ++
        pattern_nodes (shared_count above.now classes.now) (drop (shared_count above.now classes.now) classes.now) leaf) }
{
    let from = count_shared(above, classes);
    push_classes(nodes, classes, from)?;
    nodes.push(Node {
        depth: classes.len(),
        step: Step::Leaf(leaf),
    })?;
    Ok(())
}

/// The nodes of the patterns of these entries.
pub(crate) fn build_nodes(alloc: Global, ranked: &[Ranked<'_>]) -> Result<Vec<Node>, NoMemory>
    requires { AllByRecursion (λ one. IsPattern (known_now one).name) ranked.now }
    ensures known { IfOk result (λ nodes. known_from (map hold_of (map known_now ranked.now)) [] nodes.items
        ≡ map known_now ranked.now) }
    ensures rooted { IfOk result (λ nodes. IsRooted 0 nodes.items) }
    ensures ranges { IfOk result (λ nodes. AreRanges (length ranked.now) nodes.items) }
    ensures size { IfOk result (λ nodes. length nodes.items ≤ sum_by (λ known. most_added known.name)
        (map known_now ranked.now)) }
    ensures once { IfOk result (λ nodes. StandOnce (map hold_of (map known_now ranked.now)) nodes.items) }
{
    let mut nodes = Vec::new(alloc);
    let mut above: &[Class] = &[];
    let mut from = 0;
    while let Some(first) = ranked.get(from) {
        let name = name_of(first.entry);
        let until = group_end(ranked, from, &first.entry.name);
        let (classes, tail) = pattern_of(name);
        push_pattern(&mut nodes, above, classes, Leaf { tail, from, until })?;
        above = classes;
        from = until;
    }
    Ok(nodes)
}
