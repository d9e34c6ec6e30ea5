//! The printed lines of notices.
ghost use Rattle.std.specs.Prelude.{◌≡◌, ◌++◌, IfOk, OnOk};
ghost use Rattle.dp_notices.specs.Printing as spec;
ghost use Rattle.dp_notices.specs.QueueFiles.{queue_notices_text, queues_now};
ghost use Rattle.dp_notices.specs.PlanFiles.{plan_now};

use crate::line_notices::NotedLine;
use crate::notice::{Notice, NoticeFault};
use crate::plan_files::PlanFiles;
use crate::queue_files::QueueFiles;
use dp_conf::{NoMemory, line_content, same_word};
use dp_files::{Fault, LineNote, SourceFile, SourceLine, included_name, path_of};
use itoa::Buffer;
use std::alloc::Global;

/// The name of the file with a number, as a line writes it.
fn file_name(files: &[SourceFile], number: usize) -> &[u8]
    ensures { result.now ≡ spec.file_name files.now number }
{
    match files.get(number) {
        Some(file) => file.name.bytes(),
        None => b"",
    }
}

/// Adds the place of a line, `FILE:LINE: `.
fn push_place(out: &mut Vec<u8>, file: &[u8], line: usize) -> Result<(), NoMemory>
    ensures { OnOk result (out.new.items ≡ out.old.items ++ spec.place_text file.now line) }
{
    let mut buffer = Buffer::new();
    out.extend_from_slice(file)?;
    out.push(b':')?;
    out.extend_from_slice(buffer.format(line).as_bytes())?;
    out.extend_from_slice(b": ")?;
    Ok(())
}

/// Adds a number and a blank, if there is a number.
fn push_number(out: &mut Vec<u8>, number: Option<u8>) -> Result<(), NoMemory>
    ensures { OnOk result (out.new.items ≡ out.old.items ++ spec.number_text number) }
{
    let Some(number) = number else {
        return Ok(());
    };
    let mut buffer = Buffer::new();
    out.extend_from_slice(buffer.format(number).as_bytes())?;
    out.push(b' ')?;
    Ok(())
}

/// The word with which a printed notice begins.
fn first_word(notice: Notice) -> &'static str
    ensures { result.now ≡ spec.first_word notice }
{
    if notice.is_fault() { "fault " } else { "note " }
}

/// Adds the printed words of a notice.
fn push_words(out: &mut Vec<u8>, notice: Notice) -> Result<(), NoMemory>
    ensures { OnOk result (out.new.items ≡ out.old.items ++ spec.notice_text notice) }
{
    out.extend_from_slice(first_word(notice).as_bytes())?;
    push_number(out, notice.number())?;
    out.extend_from_slice(notice.name().as_bytes())?;
    Ok(())
}

/// Whether the notice says that a file is not there.
fn is_missing_file(notice: Notice) -> bool
    ensures { result ≡ spec.is_missing_file notice }
{
    match notice {
        Notice::Fault(NoticeFault::Reading(Fault::NotFound)) => true,
        _ => false,
    }
}

/// Adds a blank and the name of the file that a line asks for.
fn push_name(alloc: Global, out: &mut Vec<u8>, text: &[u8]) -> Result<(), NoMemory>
    ensures { OnOk result (out.new.items ≡ out.old.items ++ spec.name_behind text.now) }
{
    let content = line_content(alloc, text)?;
    out.push(b' ')?;
    out.extend_from_slice(included_name(content.bytes()))?;
    Ok(())
}

/// Adds a blank and the name of the file that a line asks for, if the notice says that the file is not there.
fn push_missing_name(
    alloc: Global,
    out: &mut Vec<u8>,
    text: &[u8],
    notice: Notice,
) -> Result<(), NoMemory>
    ensures { OnOk result (out.new.items ≡ out.old.items ++ spec.missing_name text.now notice) }
{
    if is_missing_file(notice) {
        return push_name(alloc, out, text);
    }
    Ok(())
}

/// A line of a file, with the name of the file.
#[derive(Clone, Copy)]
struct NamedLine<'a> {
    file: &'a [u8],
    line: &'a SourceLine,
}

/// Adds the printed line of a notice.
fn push_notice(
    alloc: Global,
    out: &mut Vec<u8>,
    named: NamedLine<'_>,
    notice: Notice,
) -> Result<(), NoMemory>
    ensures { OnOk result (out.new.items ≡ out.old.items ++ spec.notice_line named.entry.file.now named.entry.line.now notice) }
{
    push_place(out, named.file, named.line.line)?;
    push_words(out, notice)?;
    push_missing_name(alloc, out, named.line.text.bytes(), notice)?;
    out.push(b'\n')?;
    Ok(())
}

/// What is assumed of lines that this program leaves out although calls may depend on them: lines of a kind have no effect if its flag is
/// set.
#[derive(Clone, Copy, Debug, PartialEq, Eq)]
pub struct Assumptions {
    /// `#exec`, which takes lines from a program.
    pub exec: bool,
    /// `switch`, which asks another dialplan for a name.
    pub switch: bool,
    /// `autofallthrough=no`, with which a call waits where it finds no entry.
    pub auto_fall_through: bool,
    /// An extension for one caller.
    pub caller_id: bool,
}

impl Assumptions {
    ghost use Rattle.std.specs.Prelude.{◌≡◌};
    ghost use Rattle.dp_notices.specs.Printing as spec;

    /// Nothing is assumed.
    pub fn none() -> Self
        ensures { result ≡ spec.no_assumptions }
    {
        Assumptions {
            exec: false,
            switch: false,
            auto_fall_through: false,
            caller_id: false,
        }
    }

    /// What is assumed if the lines that get the note with a name, in any ASCII case, have no effect either: `Exec`, `Switch`,
    /// `AutoFallThrough` or `CallerId`. Any other name changes nothing.
    pub fn assume(self, name: &[u8]) -> Self
        ensures { result ≡ spec.with_assumed self name.now }
    {
        Assumptions {
            exec: self.exec || same_word(name, b"Exec"),
            switch: self.switch || same_word(name, b"Switch"),
            auto_fall_through: self.auto_fall_through || same_word(name, b"AutoFallThrough"),
            caller_id: self.caller_id || same_word(name, b"CallerId"),
        }
    }
}

/// Which notices are printed.
#[derive(Clone, Copy, Debug, PartialEq, Eq)]
pub enum Shown {
    /// Notes and faults.
    All,
    /// Only faults.
    Faults,
    /// Faults, and notes on lines that this program leaves out although calls may depend on them, unless it is assumed that they have no
    /// effect.
    Unfollowed(Assumptions),
    /// Only notes.
    Notes,
    /// Only notes, without those on lines that this program leaves out although calls may depend on them.
    Followed,
}

/// Whether the notice is a note on a line that is left out although calls may depend on it, and that may have an effect by what is assumed.
fn is_unfollowed(assumed: Assumptions, notice: Notice) -> bool
    ensures { result ≡ spec.is_unfollowed assumed notice }
{
    match notice {
        Notice::Read(LineNote::Exec) => !assumed.exec,
        Notice::Read(LineNote::Switch) => !assumed.switch,
        Notice::Read(LineNote::AutoFallThrough) => !assumed.auto_fall_through,
        Notice::Read(LineNote::CallerId) => !assumed.caller_id,
        _ => false,
    }
}

impl Shown {
    ghost use Rattle.std.specs.Prelude.{◌≡◌};
    ghost use Rattle.dp_notices.specs.Printing as spec;

    /// Whether a notice is printed.
    pub fn shows(self, notice: Notice) -> bool
        ensures { result ≡ spec.is_shown self notice }
    {
        match self {
            Shown::All => true,
            Shown::Faults => notice.is_fault(),
            Shown::Unfollowed(assumed) => notice.is_fault() || is_unfollowed(assumed, notice),
            Shown::Notes => !notice.is_fault(),
            Shown::Followed => !notice.is_fault() && !is_unfollowed(Assumptions::none(), notice),
        }
    }
}

/// Adds the printed lines of the notices on a line, without those that are not shown.
fn push_line(
    alloc: Global,
    out: &mut Vec<u8>,
    shown: Shown,
    named: NamedLine<'_>,
    notices: &[Notice],
) -> Result<(), NoMemory>
    ensures { OnOk result (out.new.items
        ≡ out.old.items ++ spec.notice_lines shown named.entry.file.now named.entry.line.now notices.now) }
{
    for notice in notices {
        if shown.shows(*notice) {
            push_notice(alloc, out, named, *notice)?;
        }
    }
    Ok(())
}

/// Adds the printed lines of the notices on a line of some files, without those that are not shown.
fn push_noted(
    alloc: Global,
    out: &mut Vec<u8>,
    shown: Shown,
    files: &[SourceFile],
    noted: &NotedLine,
) -> Result<(), NoMemory>
    ensures { OnOk result (out.new.items ≡ out.old.items ++ spec.noted_text shown files.now noted.now) }
{
    let notices = noted.notices.as_slice();
    if notices.is_empty() {
        return Ok(());
    }
    let path = path_of(
        alloc,
        file_name(files, 0),
        file_name(files, noted.line.file),
    )?;
    let named = NamedLine {
        file: path.bytes(),
        line: &noted.line,
    };
    push_line(alloc, out, shown, named, notices)
}

/// Adds the printed lines of the notices on some lines of these files, without those that are not shown.
fn push_lines(
    alloc: Global,
    out: &mut Vec<u8>,
    shown: Shown,
    files: &[SourceFile],
    lines: &[NotedLine],
) -> Result<(), NoMemory>
    ensures { OnOk result (out.new.items ≡ out.old.items ++ spec.lines_text shown files.now lines.now) }
{
    for noted in lines {
        push_noted(alloc, out, shown, files, noted)?;
    }
    Ok(())
}

/// Prints the notices on a dialplan that is read from files, in the order of the lines that they are on. A notice is printed as
/// `FILE:LINE: note KIND`, as `FILE:LINE: fault CODE NAME`, or as `FILE:LINE: fault NAME` if the fault has no number. FILE is the path at
/// which the file was opened. `ReadFailed` is followed by the name of the file that is not there, and `LeftOut` by the kind of what this
/// program leaves out. The error comes only if a growth was refused.
#[tactic(auto, unfolding(crate::specs::Printing::notices_text))]
pub fn print_notices(alloc: Global, shown: Shown, plan: &PlanFiles) -> Result<Vec<u8>, NoMemory>
    ensures { IfOk result (λ text. text.items ≡ spec.notices_text shown (plan_now plan.now)) }
{
    let mut out = Vec::new(alloc);
    push_lines(alloc, &mut out, shown, &plan.files, &plan.lines)?;
    Ok(out)
}

/// Prints the notices on a file of queues in the same way.
#[tactic(auto, unfolding(crate::specs::QueueFiles::queue_notices_text))]
pub fn print_queue_notices(
    alloc: Global,
    shown: Shown,
    queues: &QueueFiles,
) -> Result<Vec<u8>, NoMemory>
    ensures { IfOk result (λ text. text.items ≡ queue_notices_text shown (queues_now queues.now)) }
{
    let mut out = Vec::new(alloc);
    push_lines(alloc, &mut out, shown, &queues.files, &queues.lines)?;
    Ok(out)
}
