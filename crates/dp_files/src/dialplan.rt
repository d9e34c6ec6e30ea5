//! The text of a dialplan, made from a file and the files that it includes.
ghost use Rattle.std.specs.Prelude.{◌≡◌, IfOk};
ghost use Rattle.dp_conf.specs.Answers.{Answers};
ghost use Rattle.dp_files.specs.Dialplan as spec;
ghost use Rattle.dp_files.specs.Reading.{files_read, first_fault};
ghost use Rattle.dp_files.specs.Sources.{Files, Telling};

use crate::dialplan_text::make_dialplan;
use crate::made_text::MadeText;
use crate::reading::{FilesRead, ReadingFault, read_files};
use crate::sections::{Sections, read_sections};
use crate::source::Source;
use crate::source_line::{SourceFile, SourceLine};
use dp_conf::NoMemory;
use std::alloc::Global;

/// The files of a dialplan, and the text that is made from them.
#[derive(Drop)]
pub struct DialplanFiles {
    /// The files in the order in which they were opened.
    pub files: Vec<SourceFile>,
    /// The lines of all files, in the order in which they were read.
    pub lines: Vec<SourceLine>,
    /// The lines for the loader, and the remarks: first those from reading the files, then those on sections, then those on the lines of
    /// sections.
    pub made: MadeText,
}

/// The text that is made from files that were read.
fn make_text(alloc: Global, read: FilesRead) -> Result<DialplanFiles, NoMemory>
    ensures { IfOk result (λ made. spec.dialplan_now made ≡ spec.dialplan_in (files_read read)) }
{
    let FilesRead {
        files,
        lines,
        mut remarks,
    } = read;
    let Sections {
        sections,
        remarks: mut of_sections,
    } = read_sections(alloc, &files, &lines)?;
    let mut made = make_dialplan(alloc, &lines, &sections)?;
    of_sections.append(&mut made.remarks)?;
    remarks.append(&mut of_sections)?;
    made.remarks = remarks;
    Ok(DialplanFiles { files, lines, made })
}

/// The text of a dialplan for the loader, made from the file with a name and the files that it includes.
///
/// See [`read_files`] for how files are read, [`read_sections`](crate::read_sections) for which lines are in which section, and
/// [`make_dialplan`](crate::make_dialplan) for what is made from them. The fault is `NotFound` if the first file does not exist or cannot
/// be read, `TooLong` if it has more than 16,777,216 bytes, or out-of-memory.
pub fn read_dialplan<S: Source>(
    alloc: Global,
    source: &mut S,
    name: &[u8],
) -> Result<DialplanFiles, ReadingFault>
    ensures read { (has : Files) → S.agrees source.new has
        → Answers spec.dialplan_now first_fault result (spec.dialplan_of has name.now) }
    ensures kept { (has : Files) → S.agrees source.new has → S.agrees source.old has }
    ensures same { (told : Telling) → S.may_tell source.new told → S.may_tell source.old told }
{
    let read = read_files(alloc, source, name)?;
    let made = make_text(alloc, read)?;
    Ok(made)
}
