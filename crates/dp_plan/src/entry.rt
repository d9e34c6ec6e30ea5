//! The entries of a context.
use crate::priority::Priority;
use crate::shared_name::SharedName;
use crate::shared_text::SharedText;
use dp_conf::ShallowText;
use std::mem::size_of;

/// An entry of a context: it runs the application with these arguments at this priority of this extension.
#[derive(Debug, Drop)]
pub struct Entry {
    /// The name of the extension, which may be a pattern. Consecutive entries of an extension share it.
    pub name: SharedName,
    pub priority: Priority,
    /// The label of the priority, if it has one.
    pub label: Option<SharedText>,
    /// The name of the application, as written. Entries that write it alike share it.
    pub application: SharedText,
    /// The bytes between the parentheses of the application, not expanded.
    pub arguments: ShallowText,
}

// A dialplan has an entry for each line, so its size matters.
const _: () = prove!(size_of::<Entry>() == 64);

/// Identifies an entry of a dialplan: the number of its context in the order of first appearance, and its own number in
/// file order, both counted from 0.
#[derive(Clone, Copy, Debug, PartialEq, Eq, Hash)]
pub struct EntryId {
    pub context: usize,
    pub entry: usize,
}
