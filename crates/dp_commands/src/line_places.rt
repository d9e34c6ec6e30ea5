//! Where the lines of a dialplan's text come from, as a verbose run prints it.
ghost use Rattle.std.specs.Prelude.{◌≡◌, ◌++◌, OnOk};
ghost use Rattle.dp_commands.specs.LinePlaces as spec;

use crate::block::Block;
use crate::trace::push_number;
use dp_plan::{NoMemory, Text};

/// The line of a file.
#[derive(Clone, Copy, Debug, PartialEq, Eq)]
pub struct LinePosition {
    /// The number of the file, counted from 0.
    pub file: usize,
    /// The number of the line, counted from 1.
    pub line: usize,
}

/// The lines of files that the lines of a text come from.
#[derive(Clone, Copy)]
pub struct SourceLines<'a> {
    /// The names of the files, by their numbers.
    pub files: &'a [Text],
    /// The line of a file that each line of the text comes from.
    pub lines: &'a [LinePosition],
}

impl<'a> SourceLines<'a> {
    ghost use Rattle.std.specs.Prelude.{◌≡◌};
    ghost use Rattle.dp_commands.specs.LinePlaces as spec;

    /// The position from which a line of the text comes, if there is such a line.
    pub fn position(&self, line: Option<usize>) -> Option<LinePosition>
        ensures { result ≡ spec.position_of self.now.lines.now line }
    {
        match line {
            Some(line) => self.lines.get(line.saturating_sub(1)).copied(),
            None => None,
        }
    }

    /// The name of the file with the number, or an empty text.
    pub fn file_name(&self, file: usize) -> &'a [u8]
        ensures { result.now ≡ spec.file_name self.now.files.now file }
    {
        match self.files.get(file) {
            Some(name) => name.bytes(),
            None => b"",
        }
    }
}

/// Where the lines of a dialplan's text come from.
#[derive(Clone, Copy)]
pub enum LinePlaces<'a> {
    /// The text is that of the file with this name.
    InFile(&'a str),
    /// Each line comes from a line of some file.
    InFiles(SourceLines<'a>),
}

/// Adds the number of an entry's line.
fn push_line_number(out: &mut Block, line: Option<usize>) -> Result<(), NoMemory>
    ensures kept { out.new.whole ≡ out.old.whole }
    ensures ok { OnOk result (out.new.begun ≡ out.old.begun ++ spec.line_number line) }
{
    match line {
        Some(line) => push_number(out, line),
        None => Ok(()),
    }
}

/// Adds a line of the file with a name, `FILE:LINE`.
fn push_in_file(out: &mut Block, name: &[u8], line: Option<usize>) -> Result<(), NoMemory>
    ensures kept { out.new.whole ≡ out.old.whole }
    ensures ok { OnOk result (out.new.begun ≡ out.old.begun ++ spec.in_file_text name.now line) }
{
    out.push(name)?;
    out.push_byte(b':')?;
    push_line_number(out, line)
}

/// Adds the line of a file from which a line of the text comes, `FILE:LINE`, if there is such a line.
fn push_in_files(
    out: &mut Block,
    sources: SourceLines<'_>,
    line: Option<usize>,
) -> Result<(), NoMemory>
    ensures kept { out.new.whole ≡ out.old.whole }
    ensures ok { OnOk result (out.new.begun ≡ out.old.begun
        ++ spec.in_files_text sources.entry.files.now sources.entry.lines.now line) }
{
    match sources.position(line) {
        Some(position) => push_in_file(out, sources.file_name(position.file), Some(position.line)),
        None => Ok(()),
    }
}

/// Adds where a line of the text comes from, `FILE:LINE`.
pub(crate) fn push_line_place(
    out: &mut Block,
    places: LinePlaces<'_>,
    line: Option<usize>,
) -> Result<(), NoMemory>
    ensures kept { out.new.whole ≡ out.old.whole }
    ensures ok { OnOk result (out.new.begun ≡ out.old.begun ++ spec.line_place (spec.places_of places.entry) line) }
{
    match places {
        LinePlaces::InFile(name) => push_in_file(out, name.as_bytes(), line),
        LinePlaces::InFiles(sources) => push_in_files(out, sources, line),
    }
}
