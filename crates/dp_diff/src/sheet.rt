//! The lines of differences, which wait until a block of them is written.
ghost use Rattle.std.specs.Prelude.{◌≡◌, ◌++◌, [], ◌∷◌, IfOk, OnOk, decimal, option_copied};
ghost use Rattle.dp_diff.specs.Printing as spec;

use crate::fault::DiffFault;
use dp_conf::WriteTold;
use dp_plan::{Entry, NoMemory, Text};
use itoa::Buffer;
use std::alloc::Global;
use std::marker::Model;

/// The room for the lines that wait, in bytes.
const ROOM: usize = 65_536;

/// The lines are written if there is less room left than this number of bytes. A longer line makes the room grow.
const LEAST_LEFT: usize = 4_096;

/// The lines that wait, and how many differences were told, up to the greatest number of 64 bits. A contract sees it as these two.
#[derive(Drop)]
pub(crate) struct Sheet {
    waiting: Vec<u8>,
    count: u64,
}

impl Model for Sheet {
    ghost use Rattle.dp_diff.specs.steps.Telling.{SheetOf};

    ghost Value = { SheetOf };

    ghost view = { λ sheet. record { waiting = sheet.waiting.items; count = sheet.count } };
}

/// Adds a number in decimal.
fn push_number(out: &mut Vec<u8>, number: u32) -> Result<(), NoMemory>
    ensures { OnOk result (out.new.items ≡ out.old.items ++ decimal number) }
{
    let mut buffer = Buffer::new();
    out.extend_from_slice(buffer.format(number).as_bytes())
}

/// Adds the position of an entry after a sign, `CONTEXT,NAME,PRIORITY`.
fn push_position(
    out: &mut Vec<u8>,
    sign: &[u8],
    context: &[u8],
    entry: &Entry,
) -> Result<(), NoMemory>
    ensures { OnOk result (out.new.items ≡ out.old.items ++ spec.position_text sign.now context.now entry.now) }
{
    out.extend_from_slice(sign)?;
    out.extend_from_slice(context)?;
    out.extend_from_slice(b",")?;
    out.extend_from_slice(entry.name.spelling())?;
    out.extend_from_slice(b",")?;
    push_number(out, entry.priority.get())
}

/// Adds the application of an entry with its arguments.
fn push_application(out: &mut Vec<u8>, entry: &Entry) -> Result<(), NoMemory>
    ensures { OnOk result (out.new.items ≡ out.old.items ++ spec.application_text entry.now) }
{
    out.extend_from_slice(entry.application.bytes())?;
    out.extend_from_slice(b"(")?;
    out.extend_from_slice(entry.arguments.bytes())?;
    out.extend_from_slice(b")")
}

/// Adds the line of an entry.
fn push_entry(out: &mut Vec<u8>, sign: &[u8], context: &[u8], entry: &Entry) -> Result<(), NoMemory>
    ensures { OnOk result (out.new.items ≡ out.old.items ++ spec.entry_line sign.now context.now entry.now) }
{
    push_position(out, sign, context, entry)?;
    out.extend_from_slice(b" ")?;
    push_application(out, entry)?;
    out.extend_from_slice(b"\n")
}

/// Adds the line of an entry, if there is one.
fn push_line(
    out: &mut Vec<u8>,
    sign: &[u8],
    context: &[u8],
    entry: Option<&Entry>,
) -> Result<(), NoMemory>
    ensures { OnOk result (out.new.items ≡ out.old.items ++ spec.line_of sign.now context.now (option_copied entry.entry)) }
{
    match entry {
        Some(entry) => push_entry(out, sign, context, entry),
        None => Ok(()),
    }
}

impl Sheet {
    ghost use Rattle.std.specs.Prelude.{◌≡◌, ◌++◌, [], ◌∷◌, IfOk, OnOk, option_copied};
    ghost use Rattle.dp_diff.specs.Printing.{difference_lines};
    ghost use Rattle.dp_diff.specs.steps.Telling.{Tells, writer_of};

    /// No lines, and no differences. It fails only if memory runs out.
    pub(crate) fn new(alloc: Global) -> Result<Self, NoMemory>
        ensures { IfOk result (λ sheet. sheet ≡ record { waiting = []; count = 0 }) }
    {
        let waiting = Vec::with_capacity(alloc, ROOM)?;
        Ok(Sheet { waiting, count: 0 })
    }

    /// How many differences were told, up to the greatest number of 64 bits.
    pub(crate) fn count(&self) -> u64
        ensures { result ≡ self.now.count }
    {
        self.count
    }

    /// Writes the lines that wait.
    pub(crate) fn send<W: WriteTold>(&mut self, writer: &mut W) -> Result<(), DiffFault>
        ensures tells { Tells (writer_of (W.contents writer.old) (W.has_failed writer.old)) self.old
            (writer_of (W.contents writer.new) (W.has_failed writer.new)) self.new [] result }
        ensures empty { OnOk result (self.new.waiting ≡ []) }
    {
        writer.write_told(&self.waiting)?;
        self.waiting.clear();
        Ok(())
    }

    /// Writes the lines that wait if there is hardly any room for another line.
    fn send_full<W: WriteTold>(&mut self, writer: &mut W) -> Result<(), DiffFault>
        ensures { Tells (writer_of (W.contents writer.old) (W.has_failed writer.old)) self.old
            (writer_of (W.contents writer.new) (W.has_failed writer.new)) self.new [] result }
    {
        if self.waiting.len() > ROOM - LEAST_LEFT {
            return self.send(writer);
        }
        Ok(())
    }

    /// Adds the lines of a difference to those that wait.
    fn push(
        &mut self,
        context: &Text,
        before: Option<&Entry>,
        after: Option<&Entry>,
    ) -> Result<(), NoMemory>
        ensures lines { OnOk result (self.new.waiting ≡ self.old.waiting
            ++ difference_lines (record { context = context.now; before = option_copied before.entry; after = option_copied after.entry })) }
        ensures count { self.new.count ≡ self.old.count }
    {
        push_line(&mut self.waiting, b"- ", context.bytes(), before)?;
        push_line(&mut self.waiting, b"+ ", context.bytes(), after)
    }

    /// Tells a difference.
    pub(crate) fn tell<W: WriteTold>(
        &mut self,
        writer: &mut W,
        context: &Text,
        before: Option<&Entry>,
        after: Option<&Entry>,
    ) -> Result<(), DiffFault>
        ensures { Tells (writer_of (W.contents writer.old) (W.has_failed writer.old)) self.old
            (writer_of (W.contents writer.new) (W.has_failed writer.new)) self.new
            ((record { context = context.now; before = option_copied before.entry; after = option_copied after.entry }) ∷ []) result }
    {
        self.push(context, before, after)?;
        self.count = self.count.saturating_add(1);
        self.send_full(writer)
    }
}
