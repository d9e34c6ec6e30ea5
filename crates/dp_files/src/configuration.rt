//! The text of a configuration file and of the files that it includes.
ghost use Rattle.std.specs.Prelude.{◌≡◌, ◌++◌, IfOk, OnOk};
ghost use Rattle.dp_conf.specs.Answers.{Answers};
ghost use Rattle.dp_files.specs.Configuration as spec;
ghost use Rattle.dp_files.specs.Reading.{files_read, first_fault};
ghost use Rattle.dp_files.specs.Sources.{Files, Telling};

use crate::dialplan_text::{push_all_standing, push_header};
use crate::reading::{FilesRead, ReadingFault, read_files};
use crate::remark::LineRemark;
use crate::sections::{Sections, SourceSection, read_sections};
use crate::source::Source;
use crate::source_line::{MadeLine, SourceFile, SourceLine};
use dp_conf::NoMemory;
use std::alloc::Global;

/// The files of a configuration, and the text that is made from them.
#[derive(Drop)]
pub struct ConfigurationFiles {
    /// The files in the order in which they were opened.
    pub files: Vec<SourceFile>,
    /// The lines of all files, in the order in which they were read.
    pub lines: Vec<SourceLine>,
    /// The lines of all sections, unchanged, each section after its header. A template is left out, and so are the parentheses of headers.
    pub made: Vec<MadeLine>,
    /// The remarks on the lines: first those from reading the files, then those on sections.
    pub remarks: Vec<LineRemark>,
}

/// Adds the header of a section and its lines, unless it is a template.
fn push_section(
    alloc: Global,
    made: &mut Vec<MadeLine>,
    lines: &[SourceLine],
    section: &SourceSection,
) -> Result<(), NoMemory>
    ensures { OnOk result (made.new.items ≡ made.old.items ++ spec.section_text lines.now section.now) }
{
    if section.is_template {
        return Ok(());
    }
    push_header(alloc, made, lines, section.header)?;
    push_all_standing(made, lines, section.lines.as_slice())
}

/// The lines of all sections, without those of templates.
fn sections_text(
    alloc: Global,
    lines: &[SourceLine],
    sections: &[SourceSection],
) -> Result<Vec<MadeLine>, NoMemory>
    ensures { IfOk result (λ made. made.items ≡ spec.sections_text lines.now sections.now) }
{
    let mut made = Vec::new(alloc);
    for section in sections {
        push_section(alloc, &mut made, lines, section)?;
    }
    Ok(made)
}

/// The text that is made from files that were read.
fn make_text(alloc: Global, read: FilesRead) -> Result<ConfigurationFiles, NoMemory>
    ensures { IfOk result (λ made. spec.configuration_now made ≡ spec.configuration_in (files_read read)) }
{
    let FilesRead {
        files,
        lines,
        mut remarks,
    } = read;
    let Sections {
        sections,
        remarks: mut of_sections,
    } = read_sections(alloc, &files, &lines)?;
    let made = sections_text(alloc, &lines, &sections)?;
    remarks.append(&mut of_sections)?;
    Ok(ConfigurationFiles {
        files,
        lines,
        made,
        remarks,
    })
}

/// The text of the file with a name and the files that it includes.
///
/// See [`read_files`] for how files are read, and [`read_sections`](crate::read_sections) for which lines are in which section. The fault is
/// `NotFound` if the first file does not exist or cannot be read, `TooLong` if it has more than 16,777,216 bytes, or out-of-memory.
pub fn read_configuration<S: Source>(
    alloc: Global,
    source: &mut S,
    name: &[u8],
) -> Result<ConfigurationFiles, ReadingFault>
    ensures read { (has : Files) → S.agrees source.new has
        → Answers spec.configuration_now first_fault result (spec.configuration_of has name.now) }
    ensures kept { (has : Files) → S.agrees source.new has → S.agrees source.old has }
    ensures same { (told : Telling) → S.may_tell source.new told → S.may_tell source.old told }
{
    let read = read_files(alloc, source, name)?;
    let made = make_text(alloc, read)?;
    Ok(made)
}
