//! The notices on the lines of files.
ghost use Rattle.std.specs.Prelude.{◌≡◌, ◌++◌, OnOk};
ghost use Rattle.dp_json.specs.Notices as spec;
ghost use Rattle.dp_json.specs.Objects.{fields_text, more_text, object_text};
ghost use Rattle.dp_notices.specs.Printing.{file_name, is_missing_file};

use crate::object::{begin_object, end_object, push_number, push_text};
use dp_conf::line_content;
use dp_files::{Fault, SourceFile, SourceLine, included_name, path_of};
use dp_notices::{NotedLine, Notice, NoticeFault, Shown};
use dp_plan::NoMemory;
use std::alloc::Global;

/// The name of the file with a number, as a line writes it.
fn file_name(files: &[SourceFile], number: usize) -> &[u8]
    ensures { result.now ≡ file_name files.now number }
{
    match files.get(number) {
        Some(file) => file.name.bytes(),
        None => b"",
    }
}

/// The word for what a notice is.
fn notice_word(notice: Notice) -> &'static [u8]
    ensures { result.now ≡ spec.notice_word notice }
{
    if notice.is_fault() { b"fault" } else { b"note" }
}

/// Adds the field of the number of a fault, if it has one.
fn push_code(out: &mut Vec<u8>, number: Option<u8>) -> Result<(), NoMemory>
    ensures { OnOk result (out.new.items ≡ out.old.items ++ fields_text (spec.code_fields number)) }
{
    match number {
        Some(number) => push_number(out, b"code", u128::from(number)),
        None => Ok(()),
    }
}

/// Whether the notice says that a file is not there.
fn is_missing_file(notice: Notice) -> bool
    ensures { result ≡ is_missing_file notice }
{
    match notice {
        Notice::Fault(NoticeFault::Reading(Fault::NotFound)) => true,
        _ => false,
    }
}

/// Adds the field of the name of the file that a line asks for.
#[tactic(auto, unfolding(crate::specs::Notices::included_field))]
fn push_included(alloc: Global, out: &mut Vec<u8>, text: &[u8]) -> Result<(), NoMemory>
    ensures { OnOk result (out.new.items ≡ out.old.items ++ more_text (spec.included_field text.now)) }
{
    let content = line_content(alloc, text)?;
    push_text(out, b"included", included_name(content.bytes()))?;
    Ok(())
}

/// Adds the field of the name of the file that a line asks for, if the notice says that the file is not there.
fn push_missing(
    alloc: Global,
    out: &mut Vec<u8>,
    text: &[u8],
    notice: Notice,
) -> Result<(), NoMemory>
    ensures { OnOk result (out.new.items ≡ out.old.items ++ fields_text (spec.missing_fields text.now notice)) }
{
    if is_missing_file(notice) {
        return push_included(alloc, out, text);
    }
    Ok(())
}

/// Adds the fields of a file and of a line in it.
#[tactic(auto, unfolding(crate::specs::Notices::position_fields))]
fn push_position(out: &mut Vec<u8>, file: &[u8], line: usize) -> Result<(), NoMemory>
    ensures { OnOk result (out.new.items ≡ out.old.items ++ fields_text (spec.position_fields file.now line)) }
{
    push_text(out, b"file", file)?;
    push_number(out, b"line", line as u128)
}

/// Adds the fields of what a notice tells of a line.
#[tactic(auto, unfolding(crate::specs::Notices::told_fields))]
fn push_told(alloc: Global, out: &mut Vec<u8>, text: &[u8], notice: Notice) -> Result<(), NoMemory>
    ensures { OnOk result (out.new.items ≡ out.old.items ++ fields_text (spec.told_fields text.now notice)) }
{
    push_text(out, b"kind", notice.name().as_bytes())?;
    push_code(out, notice.number())?;
    push_missing(alloc, out, text, notice)
}

/// A line of a file, with the path of the file.
#[derive(Clone, Copy)]
struct LineWithPath<'a> {
    file: &'a [u8],
    line: &'a SourceLine,
}

/// Adds the line of a notice.
#[tactic(auto, unfolding(crate::specs::Notices::notice_line, crate::specs::Objects::object_text))]
fn push_notice(
    alloc: Global,
    out: &mut Vec<u8>,
    named: LineWithPath<'_>,
    notice: Notice,
) -> Result<(), NoMemory>
    ensures { OnOk result (out.new.items ≡ out.old.items ++ spec.notice_line named.entry.file.now named.entry.line.now notice) }
{
    begin_object(out, notice_word(notice))?;
    push_position(out, named.file, named.line.line)?;
    push_told(alloc, out, named.line.text.bytes(), notice)?;
    end_object(out)
}

/// Adds the lines of the notices on a line, without those that are not shown.
fn push_line(
    alloc: Global,
    out: &mut Vec<u8>,
    shown: Shown,
    named: LineWithPath<'_>,
    notices: &[Notice],
) -> Result<(), NoMemory>
    ensures { OnOk result (out.new.items
        ≡ out.old.items ++ spec.notice_lines shown named.entry.file.now named.entry.line.now notices.now) }
{
    for notice in notices {
        if shown.shows(*notice) {
            push_notice(alloc, out, named, *notice)?;
        }
    }
    Ok(())
}

/// Adds the lines of the notices on a line of some files, without those that are not shown.
fn push_noted(
    alloc: Global,
    out: &mut Vec<u8>,
    shown: Shown,
    files: &[SourceFile],
    noted: &NotedLine,
) -> Result<(), NoMemory>
    ensures { OnOk result (out.new.items ≡ out.old.items ++ spec.noted_text shown files.now noted.now) }
{
    let notices = noted.notices.as_slice();
    if notices.is_empty() {
        return Ok(());
    }
    let path = path_of(
        alloc,
        file_name(files, 0),
        file_name(files, noted.line.file),
    )?;
    let named = LineWithPath {
        file: path.bytes(),
        line: &noted.line,
    };
    push_line(alloc, out, shown, named, notices)
}

/// Adds the lines of the notices that are shown, in the order of the lines of the files that they are on. Each is an object of the type
/// `note` or `fault` with the `file` and the `line` that it is on, its `kind`, and the `code` of a fault that has one. If it says that a
/// file is not there, the name that the line asks for follows as `included`. The files and the lines are those of a dialplan, or of a file
/// of queues.
///
/// It fails only if memory runs out.
pub fn push_notices(
    alloc: Global,
    out: &mut Vec<u8>,
    shown: Shown,
    files: &[SourceFile],
    lines: &[NotedLine],
) -> Result<(), NoMemory>
    ensures { OnOk result (out.new.items ≡ out.old.items ++ spec.notices_text shown files.now lines.now) }
{
    for noted in lines {
        push_noted(alloc, out, shown, files, noted)?;
    }
    Ok(())
}

/// Adds the last line of files with faults: an object of the type `count` with the number of `faults`. It fails only if memory runs out.
#[tactic(auto, unfolding(crate::specs::Objects::object_text))]
pub fn push_fault_count(out: &mut Vec<u8>, faults: u128) -> Result<(), NoMemory>
    ensures { OnOk result (out.new.items ≡ out.old.items ++ object_text (spec.faults_object faults)) }
{
    begin_object(out, b"count")?;
    push_number(out, b"faults", faults)?;
    end_object(out)
}

/// Adds the line of queues that load: an object of the type `count` with the number of `queues`. It fails only if memory runs out.
#[tactic(auto, unfolding(crate::specs::Objects::object_text))]
pub fn push_queue_count(out: &mut Vec<u8>, queues: usize) -> Result<(), NoMemory>
    ensures { OnOk result (out.new.items ≡ out.old.items ++ object_text (spec.queues_object queues)) }
{
    begin_object(out, b"count")?;
    push_number(out, b"queues", queues as u128)?;
    end_object(out)
}
