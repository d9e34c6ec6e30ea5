//! The text of a dialplan, made from the sections of files.
ghost use Rattle.std.specs.Prelude.{◌≡◌, ◌++◌, IfOk, OnOk, slice_get};
ghost use Rattle.dp_files.specs.DialplanText as spec;

use crate::context_text::read_context;
use crate::general_text::read_general;
use crate::header::header_text;
use crate::line_text::LineText;
use crate::made_text::MadeText;
use crate::sections::SourceSection;
use crate::source_line::{MadeLine, SourceLine};
use dp_conf::{NoMemory, same_word};
use std::alloc::Global;

/// Whether a section has settings for the whole dialplan: `[general]`.
fn is_general(section: &SourceSection) -> bool
    ensures { result ≡ spec.is_general section.now }
{
    same_word(section.name.bytes(), b"general")
}

/// Whether a section has no entries: `[globals]`, or the lines before any header.
fn is_without_entries(section: &SourceSection) -> bool
    ensures { result ≡ spec.is_without_entries section.now }
{
    section.header.is_none() || same_word(section.name.bytes(), b"globals")
}

/// Adds the line made from the header at a place, if there is a line.
fn push_header_at(
    alloc: Global,
    made: &mut Vec<MadeLine>,
    lines: &[SourceLine],
    source: usize,
) -> Result<(), NoMemory>
    ensures { OnOk result (made.new.items ≡ made.old.items ++ spec.header_at source (slice_get lines.now source)) }
{
    match lines.get(source) {
        Some(line) => {
            let text = LineText::new(header_text(alloc, line.text.bytes())?);
            made.push(MadeLine { source, text })?;
            Ok(())
        }
        None => Ok(()),
    }
}

/// Adds the line of the header of a section, if it has one.
pub(crate) fn push_header(
    alloc: Global,
    made: &mut Vec<MadeLine>,
    lines: &[SourceLine],
    header: Option<usize>,
) -> Result<(), NoMemory>
    ensures { OnOk result (made.new.items ≡ made.old.items ++ spec.header_lines lines.now header) }
{
    match header {
        Some(source) => push_header_at(alloc, made, lines, source),
        None => Ok(()),
    }
}

/// Adds the line at a place unchanged, if there is a line.
fn push_standing(
    made: &mut Vec<MadeLine>,
    lines: &[SourceLine],
    source: usize,
) -> Result<(), NoMemory>
    ensures { OnOk result (made.new.items ≡ made.old.items ++ spec.standing_at source (slice_get lines.now source)) }
{
    match lines.get(source) {
        Some(line) => {
            let text = line.text.clone()?;
            made.push(MadeLine { source, text })?;
            Ok(())
        }
        None => Ok(()),
    }
}

/// Adds the lines at some places unchanged.
pub(crate) fn push_all_standing(
    made: &mut Vec<MadeLine>,
    lines: &[SourceLine],
    places: &[usize],
) -> Result<(), NoMemory>
    ensures { OnOk result (made.new.items ≡ made.old.items ++ spec.standing lines.now places.now) }
{
    for source in places {
        push_standing(made, lines, *source)?;
    }
    Ok(())
}

impl MadeText {
    ghost use Rattle.std.specs.Prelude.{◌≡◌, ◌++◌, OnOk};
    ghost use Rattle.dp_files.specs.DialplanText as spec;

    /// Adds the lines made from a section that is not a template.
    fn push_body(
        &mut self,
        alloc: Global,
        lines: &[SourceLine],
        section: &SourceSection,
    ) -> Result<(), NoMemory>
        ensures lines { OnOk result (self.new.lines.items
            ≡ self.old.lines.items ++ spec.body_lines lines.now section.now) }
        ensures remarks { OnOk result (self.new.remarks.items
            ≡ self.old.remarks.items ++ spec.body_remarks lines.now section.now) }
    {
        let places = section.lines.as_slice();
        if is_general(section) {
            let general = read_general(alloc, lines, places)?;
            return self.append(general);
        }
        if is_without_entries(section) {
            return push_all_standing(&mut self.lines, lines, places);
        }
        let context = read_context(alloc, lines, places)?;
        self.append(context)
    }

    /// Adds the lines made from a section.
    #[tactic(auto, unfolding(crate::specs::DialplanText::lines_of_section, crate::specs::DialplanText::remarks_on_section))]
    fn push_section(
        &mut self,
        alloc: Global,
        lines: &[SourceLine],
        section: &SourceSection,
    ) -> Result<(), NoMemory>
        ensures lines { OnOk result (self.new.lines.items ≡ self.old.lines.items ++ spec.lines_of_section lines.now section.now) }
        ensures remarks { OnOk result (self.new.remarks.items ≡ self.old.remarks.items ++ spec.remarks_on_section lines.now section.now) }
    {
        if section.is_template {
            return Ok(());
        }
        push_header(alloc, &mut self.lines, lines, section.header)?;
        self.push_body(alloc, lines, section)
    }
}

/// The lines of a dialplan for the loader, made from the sections of files, and the remarks on the lines from which they are made, section
/// by section.
///
/// A template is left out, and so are the parentheses of headers. See [`read_context`] for the lines of a context, and [`read_general`] for
/// those of `[general]`, with its name in any case; those of `[globals]` and those before any header are unchanged. It fails only if memory
/// runs out.
pub fn make_dialplan(
    alloc: Global,
    lines: &[SourceLine],
    sections: &[SourceSection],
) -> Result<MadeText, NoMemory>
    ensures lines { IfOk result (λ text. text.lines.items ≡ spec.dialplan_lines lines.now sections.now) }
    ensures remarks { IfOk result (λ text. text.remarks.items ≡ spec.dialplan_remarks lines.now sections.now) }
{
    let mut text = MadeText::new(alloc);
    for section in sections {
        text.push_section(alloc, lines, section)?;
    }
    Ok(text)
}

/// The text of some lines, each with the line feed that ends it. It fails only if memory runs out.
pub fn text_of(alloc: Global, lines: &[MadeLine]) -> Result<Vec<u8>, NoMemory>
    ensures { IfOk result (λ text. text.items ≡ spec.text_of lines.now) }
{
    let mut text = Vec::new(alloc);
    for line in lines {
        text.extend_from_slice(line.text.bytes())?;
        text.push(b'\n')?;
    }
    Ok(text)
}
