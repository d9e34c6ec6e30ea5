//! The nodes of a tree of patterns.
use dp_lookup::EntryId;
use dp_pattern::{Class, Tail};
use dp_plan::SharedText;

/// The data held of an entry, without its name. A contract sees its label here; a look-up finds it in the table of labels.
#[derive(Drop)]
pub(crate) struct HeldEntry {
    pub(crate) id: EntryId,
    pub(crate) priority: u32,
    pub(crate) label: Option<SharedText>,
}

/// The end of a pattern: its tail, and which of the held entries are its own, from one place up to another.
#[derive(Clone, Copy)]
pub(crate) struct Leaf {
    pub(crate) tail: Tail,
    pub(crate) from: usize,
    pub(crate) until: usize,
}

/// The content of a node: a class that takes one more digit, or the end of a pattern.
#[derive(Drop)]
pub(crate) enum Step {
    Class(Class),
    Leaf(Leaf),
}

/// A node of a tree, with the number of classes above it; the nodes are in the order in which a walk meets them.
#[derive(Drop)]
pub(crate) struct Node {
    pub(crate) depth: usize,
    pub(crate) step: Step,
}
