//! What the fills of boxes and rows say.
use dp_plan::EntryId;
use indexmap::IndexSet;

/// What the fills of boxes and rows say.
#[derive(Clone, Copy)]
pub enum Shading<'a> {
    /// Nothing.
    Plain,
    /// Which of them have one of these entries, which a call reaches.
    Reached(&'a IndexSet<EntryId>),
    /// Of which of them all entries are among these, which tests ran; of which only some; and of which none.
    Tested(&'a IndexSet<EntryId>),
}
