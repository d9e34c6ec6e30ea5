//! The line of an entry: `exten => name,priority[(label)],application` or `same => priority[(label)],application`.
ghost use Rattle.std.specs.Prelude.{◌≡◌, IfOk, IfSome};
ghost use Rattle.std.specs.Option.{option_map};
ghost use Rattle.dp_conf.specs.Answers.{Answers};
ghost use Rattle.dp_plan.specs.EntryLine as spec;
ghost use Rattle.dp_plan.specs.Extensions.{extension_of};
ghost use Rattle.dp_plan.specs.steps.ItemFaults.{item_reason};
ghost use Rattle.dp_plan.specs.steps.Open.{IsLast, history_at, last_name};
ghost use Rattle.dp_plan.specs.steps.Reader.{last_priority};
ghost use Rattle.dp_plan.specs.steps.Table.{HasNumber, priority_at};

use crate::application::{read_application, read_shallow};
use crate::context_name::ContextName;
use crate::entry::Entry;
use crate::fault::{ItemFault, PlanKind, fault};
use crate::naming::read_name;
use crate::numbering::{Written, number_after, read_numbering};
use crate::reader::Reader;
use crate::section::OpenContext;
use crate::shared_name::SharedName;
use crate::shared_text::SharedText;
use dp_conf::{NoMemory, cut_once, trim};
use std::alloc::Global;

/// A copy of the text, if there is one.
#[inline(always)]
fn copy_label(alloc: Global, label: Option<&[u8]>) -> Result<Option<SharedText>, NoMemory>
    ensures { IfOk result (λ copy. copy ≡ option_map (λ label. label.now) label.entry) }
{
    match label {
        None => Ok(None),
        Some(label) => {
            let copy = SharedText::copy_of(alloc, label)?;
            Ok(Some(copy))
        }
    }
}

/// The parts of the line of an entry after the name.
#[derive(Clone, Copy)]
pub(crate) struct EntryParts<'a> {
    line: usize,
    priority: &'a [u8],
    application: &'a [u8],
}

/// The extension that a line names: its name, and its number if that is known.
#[derive(Drop)]
pub(crate) struct LineExtension {
    name: SharedName,
    number: Option<u32>,
}

/// The entry that a line writes, with the number of its extension if that is known.
#[derive(Drop)]
pub(crate) struct LineEntry {
    pub(crate) entry: Entry,
    pub(crate) number: Option<u32>,
}

/// The number of the extension. If it is not known, it is looked up only if the priority of the line needs the last priority of the
/// extension.
#[tactic(auto, using(crate::proofs::TableLemmas::priority_found))]
#[inline(always)]
fn number_before(
    reader: &Reader,
    context: &ContextName,
    extension: &LineExtension,
    written: Written,
) -> Result<Option<u32>, NoMemory>
    requires { IfSome extension.now.number (HasNumber reader.now (extension_of context.now extension.now.name)) }
    ensures number { IfOk result (λ number.
        IfSome number (HasNumber reader.now (extension_of context.now extension.now.name))) }
    ensures last { IfOk result (λ number. spec.number_after (priority_at reader.now number) written
        ≡ spec.number_after (last_priority reader.now context.now extension.now.name) written) }
{
    match (extension.number, written) {
        (Some(number), _) => Ok(Some(number)),
        (None, Written::Next) => reader.find(context, &extension.name),
        (None, Written::Number(_) | Written::TooGreat) => Ok(None),
    }
}

/// The entry of the extension, with its priority and its application.
#[inline(always)]
fn read_named(
    alloc: Global,
    reader: &mut Reader,
    context: &OpenContext,
    extension: LineExtension,
    parts: EntryParts<'_>,
) -> Result<LineEntry, ItemFault>
    requires { IfSome extension.number (HasNumber reader.old (extension_of context.now.name extension.name)) }
    ensures read { Answers (λ read. read.entry) item_reason result (spec.entry_by (history_at context.now reader.old)
        parts.entry.line context.now.name extension.name parts.entry.priority.now parts.entry.application.now) }
    ensures same { reader.new ≡ reader.old }
    ensures number { IfOk result (λ read.
        IfSome read.number (HasNumber reader.old (extension_of context.now.name read.entry.name))) }
{
    let numbering = match read_numbering(parts.priority) {
        Ok(numbering) => numbering,
        Err(kind) => return Err(fault(parts.line, kind)),
    };
    let number = number_before(reader, &context.name, &extension, numbering.written)?;
    let priority = match number_after(reader.priority(number), numbering.written) {
        Ok(priority) => priority,
        Err(kind) => return Err(fault(parts.line, kind)),
    };
    let called = match read_application(parts.application) {
        Ok(called) => called,
        Err(kind) => return Err(fault(parts.line, kind)),
    };
    let arguments = read_shallow(alloc, parts.line, called.arguments)?;
    let label = copy_label(alloc, numbering.label)?;
    let application = reader.application(alloc, called.name)?;
    let LineExtension { name, number: _ } = extension;
    let entry = Entry {
        name,
        priority,
        label,
        application,
        arguments,
    };
    Ok(LineEntry { entry, number })
}

/// The entry that the value of an `exten` line writes.
#[tactic(auto, unfolding(crate::specs::EntryLine::exten_entry))]
pub(crate) fn read_exten(
    alloc: Global,
    reader: &mut Reader,
    context: &OpenContext,
    line: usize,
    value: &[u8],
) -> Result<LineEntry, ItemFault>
    requires { IsLast reader.old context.now }
    ensures read { Answers (λ read. read.entry) item_reason result
        (spec.exten_entry (history_at context.now reader.old) line context.now.name value.now) }
    ensures same { reader.new ≡ reader.old }
    ensures number { IfOk result (λ read.
        IfSome read.number (HasNumber reader.old (extension_of context.now.name read.entry.name))) }
{
    let Some((name, rest)) = cut_once(value, b',') else {
        return Err(fault(line, PlanKind::ShortLine));
    };
    let Some((priority, application)) = cut_once(rest, b',') else {
        return Err(fault(line, PlanKind::ShortLine));
    };
    let name = read_name(alloc, line, trim(name))?;
    let number = reader.number_of(context, &name);
    let extension = LineExtension { name, number };
    let parts = EntryParts {
        line,
        priority: trim(priority),
        application: trim(application),
    };
    let read = read_named(alloc, reader, context, extension, parts)?;
    Ok(read)
}

/// The extension of a line that continues the one before it.
fn extension_again(
    reader: &Reader,
    context: &OpenContext,
    line: usize,
) -> Result<LineExtension, ItemFault>
    requires { IsLast reader.now context.now }
    ensures again { Answers (λ extension. extension.name) item_reason result (spec.name_again line (last_name context.now)) }
    ensures number { IfOk result (λ extension.
        IfSome extension.number (HasNumber reader.now (extension_of context.now.name extension.name))) }
{
    // The reader contains the number.
    let _reader = reader;
    match &context.last {
        None => Err(fault(line, PlanKind::NoExten)),
        Some(last) => {
            let name = last.name.clone()?;
            let number = Some(last.number);
            Ok(LineExtension { name, number })
        }
    }
}

/// The entry that the value of a `same` line writes.
#[tactic(auto, unfolding(crate::specs::EntryLine::same_entry))]
pub(crate) fn read_same(
    alloc: Global,
    reader: &mut Reader,
    context: &OpenContext,
    line: usize,
    value: &[u8],
) -> Result<LineEntry, ItemFault>
    requires { IsLast reader.old context.now }
    ensures read { Answers (λ read. read.entry) item_reason result
        (spec.same_entry (history_at context.now reader.old) line context.now.name value.now) }
    ensures same { reader.new ≡ reader.old }
    ensures number { IfOk result (λ read.
        IfSome read.number (HasNumber reader.old (extension_of context.now.name read.entry.name))) }
{
    let Some((priority, application)) = cut_once(value, b',') else {
        extension_again(reader, context, line)?;
        return Err(fault(line, PlanKind::ShortLine));
    };
    let extension = extension_again(reader, context, line)?;
    let parts = EntryParts {
        line,
        priority: trim(priority),
        application: trim(application),
    };
    let read = read_named(alloc, reader, context, extension, parts)?;
    Ok(read)
}
