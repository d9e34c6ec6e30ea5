//! The lines of the entries of a dialplan.
ghost use Rattle.std.specs.Prelude.{◌≡◌};
ghost use Rattle.dp_plan.specs.Lookup.{line_at};

use crate::entry::EntryId;
use crate::numbers::Numbers;
use std::marker::Model;

/// The line of the text from which each entry of a dialplan was loaded. A contract sees it as the numbers of the lines, counted from 1: for
/// each context in the order of the dialplan, for each of its entries in file order.
///
/// They are kept separately from the dialplan, because two texts of the same dialplan may have different lines.
#[derive(Debug, Drop)]
pub struct EntryLines {
    contexts: Vec<Numbers>,
}

impl Model for EntryLines {
    ghost use Rattle.std.specs.Prelude.{ℕ, List};

    ghost Value = { List (List ℕ) };

    ghost view = { λ lines. lines.contexts.items };
}

impl EntryLines {
    /// The lines of the entries of these contexts.
    pub(crate) fn of_contexts(contexts: Vec<Numbers>) -> Self
        ensures { result ≡ contexts.items }
    {
        EntryLines { contexts }
    }

    /// The line of the entry with these numbers, counted from 1, or None if there is no such entry.
    pub fn line(&self, id: EntryId) -> Option<usize>
        ensures { result ≡ line_at self.now id }
    {
        let lines = self.contexts.get(id.context)?;
        let line = lines.number_at(id.entry)?;
        Some(line as usize)
    }
}
