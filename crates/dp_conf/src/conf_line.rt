//! The items of a configuration text, all read at once and owned.
ghost use Rattle.std.specs.Prelude.{◌≡◌, IfOk, map};
ghost use Rattle.dp_conf.specs.Answers.{Answers};
ghost use Rattle.dp_conf.specs.Borrowed.{line_now};
ghost use Rattle.dp_conf.specs.Lines.{line_fault, lines_of};
ghost use Rattle.dp_conf.specs.Owned.{line_of};

use crate::fault::ConfFault;
use crate::lines::Line;
use crate::taking::{TakeLine, take_lines};
use crate::text::Text;
use std::alloc::{AllocError, Global};
use std::marker::Model;

/// One item of a configuration text, with the number of its line, counted from 1.
#[derive(Debug, PartialEq, Eq, Drop)]
pub enum ConfLine {
    /// A section's header, `[name]`, with its name without blanks at either end.
    Header { line: usize, name: Text },
    /// A line `key = value` or `key => value`, with both texts without blanks at either end.
    Pair { line: usize, key: Text, value: Text },
}

impl ConfLine {
    ghost use Rattle.std.specs.Prelude.{◌≡◌, IfOk};
    ghost use Rattle.dp_conf.specs.Borrowed.{line_now};
    ghost use Rattle.dp_conf.specs.Owned.{line_of};

    /// A copy of an item that borrows from its line.
    fn copy_of(alloc: Global, line: Line<'_>) -> Result<Self, AllocError>
        ensures { IfOk result (λ copy. line_of copy ≡ line_now line.entry) }
    {
        match line {
            Line::Header { line, name } => {
                let name = Text::copy_of(alloc, name)?;
                Ok(ConfLine::Header { line, name })
            }
            Line::Pair { line, key, value } => {
                let key = Text::copy_of(alloc, key)?;
                let value = Text::copy_of(alloc, value)?;
                Ok(ConfLine::Pair { line, key, value })
            }
        }
    }
}

/// The items read so far.
#[derive(Drop)]
struct ItemsRead {
    items: Vec<ConfLine>,
}

impl Model for ItemsRead {
    ghost use Rattle.std.specs.Prelude.{List, map};
    ghost use Rattle.dp_conf.specs.Lines.{LineOf};
    ghost use Rattle.dp_conf.specs.Owned.{line_of};

    ghost Value = { List LineOf };

    ghost view = { λ read. map line_of read.items.items };
}

impl TakeLine for ItemsRead {
    ghost use Rattle.std.specs.Prelude.{◌++◌, ◌∷◌, []};

    ghost after_line = { λ items line. items ++ line ∷ [] };

    fn take(&mut self, alloc: Global, line: Line<'_>) -> Result<(), AllocError> {
        let copy = ConfLine::copy_of(alloc, line)?;
        self.items.push(copy)?;
        Ok(())
    }
}

/// The items of a configuration text in order, or the fault of its first faulty line.
///
/// See [`take_lines`] for how lines are read and which are refused. This call copies the texts of all items; a caller that processes them
/// one at a time uses [`take_lines`]. The fault has the number of its line, counted from 1, or is out-of-memory.
pub fn read_lines(alloc: Global, text: &[u8]) -> Result<Vec<ConfLine>, ConfFault>
    ensures { Answers (λ lines. map line_of lines.items) line_fault result (lines_of text.now) }
{
    let mut read = ItemsRead {
        items: Vec::new(alloc),
    };
    take_lines(alloc, text, &mut read)?;
    let ItemsRead { items } = read;
    Ok(items)
}
