//! The lines of a configuration text, taken one at a time.
ghost use Rattle.std.specs.Prelude.{◌≡◌, fold, OnOk};
ghost use Rattle.dp_conf.specs.Answers.{Answers};
ghost use Rattle.dp_conf.specs.Borrowed.{line_now};
ghost use Rattle.dp_conf.specs.Lines.{LineOf, line_fault, item_of, part_item, at_line, lines_of, items_before_fault};
ghost use Rattle.dp_conf.specs.Taking as spec;

use crate::cut::first_part;
use crate::fault::ConfFault;
use crate::lines::{Line, has_begun, read_content, read_line, without_mark};
use std::alloc::{AllocError, Global};

/// A taker of the lines of a text, which takes one after another.
pub trait TakeLine {
    // The taker after a line.
    ghost after_line: { Self → LineOf → Self };

    /// Takes a line. It fails only if memory runs out.
    fn take(&mut self, alloc: Global, line: Line<'_>) -> Result<(), AllocError>
        ensures { OnOk result (self.new ≡ after_line self.old (line_now line.entry)) };
}

/// Takes the line with a content, and returns whether a section has begun after it.
fn take_content<T: TakeLine>(
    alloc: Global,
    taker: &mut T,
    line: usize,
    in_section: bool,
    content: &[u8],
) -> Result<bool, ConfFault>
    ensures kept { spec.AtFault (taker.new ≡ taker.old) result }
    ensures taken { Answers (λ begun. (begun, taker.new)) line_fault result
        (spec.part_taken T.after_line in_section taker.old (at_line line (item_of in_section line content.now))) }
{
    let item = read_line(line, in_section, content)?;
    if let Some(item) = item {
        taker.take(alloc, item)?;
    }
    Ok(has_begun(in_section, item))
}

/// Takes a part of the text, and returns whether a section has begun after it.
fn take_part<T: TakeLine>(
    alloc: Global,
    taker: &mut T,
    line: usize,
    in_section: bool,
    part: &[u8],
) -> Result<bool, ConfFault>
    ensures kept { spec.AtFault (taker.new ≡ taker.old) result }
    ensures taken { Answers (λ begun. (begun, taker.new)) line_fault result
        (spec.part_taken T.after_line in_section taker.old (at_line line (part_item in_section line part.now))) }
{
    // An empty part has no item.
    if part.is_empty() {
        return Ok(in_section);
    }
    let content = read_content(alloc, line, part)?;
    take_content(alloc, taker, line, in_section, content.bytes())
}

/// Takes the lines of a configuration text in order, with their numbers, up to the first faulty one.
///
/// Lines end at line feeds; a byte order mark at the start is skipped, and blanks are bytes of 32 or less (choices of
/// this program). A `;` begins a comment unless a `\` comes directly before it, and `\;` is a `;`. The rest of a line,
/// without blanks at either end, is empty, a header `[name]`, or a pair `key = value` or `key => value`.
///
/// A line is refused, in this order, for a block comment, a bad header, a template, a directive, a pair before any
/// header, and a missing `=`: see [`LineKind`](crate::LineKind). It allocates only for lines with a `\`.
///
/// After a faulty line the taker has taken the lines before it, and no others. If memory runs out it is as its own
/// [`take`](TakeLine::take) left it; its type says how.
pub fn take_lines<T: TakeLine>(alloc: Global, text: &[u8], taker: &mut T) -> Result<(), ConfFault>
    ensures taken { Answers (λ done. taker.new) line_fault result (spec.all_taken T.after_line taker.old (lines_of text.now)) }
    ensures left { spec.AtFault (taker.new ≡ fold T.after_line taker.old (items_before_fault text.now)) result }
{
    let mut line: usize = 0;
    let mut in_section = false;
    let mut rest = Some(without_mark(text));
    while let Some(left) = rest {
        let (part, after) = first_part(left);
        line += 1;
        in_section = take_part(alloc, taker, line, in_section, part)?;
        rest = after;
    }
    Ok(())
}
