//! Leaps over the roots of a tree: each passes many classes at once if none of them has the first digit.
ghost use Rattle.std.specs.Prelude.{◌≡◌, ℕ, ◌≤◌, false, slice_get, Some, IfOk, IfSome};
ghost use Rattle.dp_trie.specs.steps.Leaps.{IsOutside, IsLeap, AreLeaps, Leads};
ghost use Rattle.dp_trie.specs.Tree.{HaveEnds};

use crate::node::{Node, Step};
use dp_lookup::NoMemory;
use dp_pattern::Class;
use std::alloc::Global;

/// The greatest number of classes that a leap passes.
const MOST_PASSED: usize = 64;

/// Consecutive classes at the root of a tree, from one place up to another, and for each byte whether one of them has it.
#[derive(Drop)]
pub(crate) struct Leap {
    pub(crate) from: usize,
    pub(crate) until: usize,
    pub(crate) marks: [bool; 256],
}

/// Marks the bytes of the class.
fn mark(class: &Class, marks: &mut [bool; 256])
    ensures kept { (b : ℕ) → slice_get marks.new b ≡ Some false → slice_get marks.old b ≡ Some false }
    ensures outside { IsOutside marks.new class.now }
{
    for byte in 0..=255 {
        let place = usize::from(byte);
        marks[place] = marks[place] | class.has(byte);
    }
}

/// The class at the root at this place, if there is one.
fn root_class(nodes: &[Node], place: usize) -> Option<&Class>
    ensures { IfSome result (λ class. slice_get nodes.now place
        ≡ Some (record { depth = 0; step = Step.Class class.now })) }
{
    let node = nodes.get(place)?;
    match &node.step {
        Step::Class(class) if node.depth == 0 => Some(class),
        _ => None,
    }
}

/// The leap from a place, over the classes there.
fn leap_from(nodes: &[Node], ends: &[usize], from: usize) -> Leap
    requires { HaveEnds nodes.now ends.now }
    ensures from { result.from ≡ from }
    ensures leap { IsLeap nodes.now ends.now result }
{
    let mut marks = [false; 256];
    let mut until = from;
    let mut passed = 0;
    while let Some(class) = root_class(nodes, until) {
        if passed == MOST_PASSED {
            return Leap { from, until, marks };
        }
        mark(class, &mut marks);
        until = ends[until];
        passed += 1;
    }
    Leap { from, until, marks }
}

/// The leaps over the roots of a tree, in the order of their places.
pub(crate) fn leaps_of(alloc: Global, nodes: &[Node], ends: &[usize]) -> Result<Vec<Leap>, NoMemory>
    requires { HaveEnds nodes.now ends.now }
    ensures { IfOk result (λ leaps. AreLeaps nodes.now ends.now leaps.items) }
{
    let mut leaps = Vec::new(alloc);
    let mut place = 0;
    while place < nodes.len() {
        let leap = leap_from(nodes, ends, place);
        place = leap.until.max(place + 1);
        leaps.push(leap)?;
    }
    Ok(leaps)
}

/// Where a leap from the place leads for the first digit, if one does. It moves past the leaps that begin before the place.
pub(crate) fn leap_over(
    leaps: &[Leap],
    next: &mut usize,
    place: usize,
    digit: Option<u8>,
) -> Option<usize>
    ensures { IfSome result (Leads leaps.now place digit) }
{
    let digit = usize::from(digit?);
    while let Some(leap) = leaps.get(*next) {
        if leap.from > place {
            return None;
        }
        if leap.from == place && leap.until > place && !leap.marks[digit] {
            return Some(leap.until);
        }
        *next += 1;
    }
    None
}
