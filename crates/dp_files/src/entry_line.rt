//! The line of an entry whose extension is known.
ghost use Rattle.std.specs.Prelude.{◌≡◌, ◌++◌, ◌&&◌, not, IfOk, OnOk, decimal};
ghost use Rattle.std.specs.Option.{option_map};
ghost use Rattle.dp_files.specs.ContextLines as spec;
ghost use Rattle.dp_files.specs.ContextSteps as steps;
ghost use Rattle.dp_files.specs.PriorityView as view;

use crate::extension::WrittenExtension;
use crate::line_text::LineText;
use crate::priority::{Base, WrittenBase, WrittenPriority};
use dp_conf::{NoMemory, Text, escape};
use itoa::Buffer;
use std::alloc::Global;

/// The line of an entry, with its extension.
#[derive(Clone, Copy)]
pub(crate) struct EntryLine<'a, 'e> {
    pub(crate) is_same: bool,
    pub(crate) extension: &'e WrittenExtension,
    pub(crate) priority: Option<WrittenPriority<'a>>,
    pub(crate) application: &'a [u8],
}

/// The line of an entry with its number and the label that it keeps, and whether a hint comes before it.
#[derive(Clone, Copy)]
pub(crate) struct NumberedLine<'a, 'e> {
    pub(crate) entry: EntryLine<'a, 'e>,
    pub(crate) number: u64,
    pub(crate) label: Option<&'a [u8]>,
    pub(crate) is_after_hint: bool,
}

impl<'a> EntryLine<'a, '_> {
    /// The label after the priority, if there is one.
    pub(crate) fn label(&self) -> Option<&'a [u8]>
        ensures { option_map (λ label. label.now) result ≡ spec.label_of (steps.entry_now self.now).priority }
    {
        match self.priority {
            Some(priority) => priority.label,
            None => None,
        }
    }

    /// Whether the priority is a plain number.
    fn is_number_alone(&self) -> bool
        ensures { result ≡ spec.is_number_alone (steps.entry_now self.now).priority }
    {
        match self.priority {
            Some(priority) => is_number_alone(priority.written),
            None => false,
        }
    }
}

/// Whether a priority without its label is a plain number.
fn is_number_alone(written: WrittenBase<'_>) -> bool
    ensures { result ≡ spec.is_alone (view.written_now written.entry) }
{
    matches!(
        written,
        WrittenBase::Counted {
            base: Base::Number(_),
            more: None
        }
    )
}

/// Adds the key of an entry with its name.
fn push_name(out: &mut Vec<u8>, is_same: bool, name: &[u8]) -> Result<(), NoMemory>
    ensures { OnOk result (out.new.items ≡ out.old.items ++ spec.entry_front is_same name.now) }
{
    if is_same {
        out.extend_from_slice(b"same => ")?;
        return Ok(());
    }
    out.extend_from_slice(b"exten => ")?;
    out.extend_from_slice(name)?;
    out.push(b',')?;
    Ok(())
}

/// Adds the number of an entry and its label.
fn push_number(out: &mut Vec<u8>, number: u64, label: Option<&[u8]>) -> Result<(), NoMemory>
    ensures { OnOk result (out.new.items
        ≡ out.old.items ++ (decimal number ++ spec.label_text (option_map (λ label. label.now) label.entry))) }
{
    let mut buffer = Buffer::new();
    out.extend_from_slice(buffer.format(number).as_bytes())?;
    if let Some(label) = label {
        out.push(b'(')?;
        out.extend_from_slice(label)?;
        out.push(b')')?;
    }
    Ok(())
}

impl NumberedLine<'_, '_> {
    /// Whether an earlier line of the extension has the label.
    pub(crate) fn is_double(&self) -> bool
        ensures { result ≡ spec.is_double (spec.label_of (steps.entry_now self.now.entry).priority)
            (option_map (λ label. label.now) self.now.label) }
    {
        self.entry.label().is_some() && self.label.is_none()
    }

    /// Whether the line needs no change.
    fn needs_no_change(&self) -> bool
        ensures { result ≡ spec.needs_no_change self.now.is_after_hint (steps.entry_now self.now.entry)
            (spec.is_double (spec.label_of (steps.entry_now self.now.entry).priority) (option_map (λ label. label.now) self.now.label)) }
    {
        self.entry.is_number_alone()
            && !self.is_double()
            && !(self.entry.is_same && self.is_after_hint)
    }

    /// The content of the line with its number.
    fn content(&self, alloc: Global) -> Result<Vec<u8>, NoMemory>
        ensures { IfOk result (λ content. content.items
            ≡ spec.entry_content (self.now.entry.is_same && not self.now.is_after_hint) self.now.entry.extension.now.name
            self.now.number (option_map (λ label. label.now) self.now.label) self.now.entry.application.now) }
    {
        let mut content = Vec::new(alloc);
        let is_same = self.entry.is_same && !self.is_after_hint;
        push_name(&mut content, is_same, self.entry.extension.name.bytes())?;
        push_number(&mut content, self.number, self.label)?;
        content.push(b',')?;
        content.extend_from_slice(self.entry.application)?;
        Ok(content)
    }

    /// The text made from the line.
    pub(crate) fn text(&self, alloc: Global, line: &LineText) -> Result<LineText, NoMemory>
        ensures { IfOk result (λ text. text ≡ spec.entry_text self.now.is_after_hint line.now
            (steps.entry_now self.now.entry) self.now.number (option_map (λ label. label.now) self.now.label)) }
    {
        if self.needs_no_change() {
            return line.clone();
        }
        let content = self.content(alloc)?;
        let text = escape(alloc, &content)?;
        Ok(LineText::new(Text::new(text)))
    }
}
