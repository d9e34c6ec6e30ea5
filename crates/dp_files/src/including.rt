//! Files inside the lines of other files, after the Asterisk documentation's page on its configuration files.
ghost use Rattle.std.specs.Prelude.{◌≡◌, OnOk};
ghost use Rattle.dp_conf.specs.Lines.{content_of};
ghost use Rattle.dp_files.specs.Directives.{directive_of};
ghost use Rattle.dp_files.specs.Reading as spec;
ghost use Rattle.dp_files.specs.Sources.{Files, Telling};

use crate::comments::{FileLines, file_lines};
use crate::directive::{Directive, read_directive};
use crate::line_text::{LineText, WholeText};
use crate::reading::FilesReading;
use crate::remark::{Fault, LineNote, RemarkKind};
use crate::source::{FileText, Source};
use crate::wildcard::is_wildcard;
use dp_conf::{LineKind, NoMemory, Text};
use std::alloc::Global;
use std::marker::PhantomData;

/// The request of a line for the files with a name.
#[derive(Clone, Copy)]
pub(crate) struct FileRequest<'a> {
    /// The place of the line.
    place: usize,
    name: &'a [u8],
    /// Whether it is reported if there is no such file.
    required: bool,
}

/// A file that was read.
#[derive(Clone, Copy)]
pub(crate) struct FileRead<'a> {
    pub(crate) name: &'a [u8],
    /// The place of the line that includes the file.
    pub(crate) included_by: Option<usize>,
    pub(crate) text: &'a WholeText,
}

/// A line of a file.
#[derive(Clone, Copy)]
struct LineRead<'a> {
    file: usize,
    line: usize,
    /// Whether it has the innermost opening of the block comments that are open at the end of the file.
    opens: bool,
    text: &'a LineText,
}

/// How the files requested by a line are read. The type says how deep they may be nested.
pub(crate) trait Including<S: Source> {
    // The result after reading the files requested by a line.
    ghost after: { Files → spec.FileRequestOf → spec.FilesReadSoFar → spec.FilesReadSoFar };

    /// Reads the files requested by a line.
    fn include(
        alloc: Global,
        source: &mut S,
        reading: &mut FilesReading,
        request: FileRequest<'_>,
    ) -> Result<(), NoMemory>
        ensures read { OnOk result ((has : Files) → S.agrees source.new has
            → reading.new ≡ after has (spec.request_now request.entry) reading.old) }
        ensures kept { (has : Files) → S.agrees source.new has → S.agrees source.old has }
        ensures same { (told : Telling) → S.may_tell source.new told → S.may_tell source.old told };
}

/// A file nested inside nine others, in which no file is read.
pub(crate) struct Deepest;

impl<S: Source> Including<S> for Deepest {
    ghost use Rattle.dp_files.specs.Reading as spec;

    ghost after = { spec.including 0 };

    #[tactic(auto, unfolding(crate::specs::Reading::including))]
    fn include(
        _alloc: Global,
        _source: &mut S,
        reading: &mut FilesReading,
        request: FileRequest<'_>,
    ) -> Result<(), NoMemory> {
        reading.tell(request.place, RemarkKind::Fault(Fault::IncludeDepth))?;
        Ok(())
    }
}

/// A file in whose lines files are read as `I` says.
pub(crate) struct Within<I> {
    inner: PhantomData<I>,
}

impl<S: Source, I: Including<S>> Including<S> for Within<I> {
    ghost use Rattle.dp_files.specs.Reading as spec;

    ghost after = { λ has. spec.after_request (I.after has) has };

    fn include(
        alloc: Global,
        source: &mut S,
        reading: &mut FilesReading,
        request: FileRequest<'_>,
    ) -> Result<(), NoMemory> {
        include_request::<S, I>(alloc, source, reading, request)?;
        Ok(())
    }
}

/// The lines of the first file: files may be nested ten deep, including the first.
pub(crate) type First = Within<
    Within<Within<Within<Within<Within<Within<Within<Within<Deepest>>>>>>>>,
>;

/// Reads the files requested by a line.
#[tactic(auto, unfolding(crate::specs::Reading::after_request))]
fn include_request<S: Source, I: Including<S>>(
    alloc: Global,
    source: &mut S,
    reading: &mut FilesReading,
    request: FileRequest<'_>,
) -> Result<(), NoMemory>
    ensures read { OnOk result ((has : Files) → S.agrees source.new has
        → reading.new ≡ spec.after_request (I.after has) has (spec.request_now request.entry) reading.old) }
    ensures kept { (has : Files) → S.agrees source.new has → S.agrees source.old has }
    ensures same { (told : Telling) → S.may_tell source.new told → S.may_tell source.old told }
{
    if !is_wildcard(request.name) {
        include_name::<S, I>(alloc, source, reading, request, request.name)?;
        return Ok(());
    }
    let names = source.names(alloc, request.name)?;
    include_names::<S, I>(alloc, source, reading, request, &names)?;
    Ok(())
}

/// Reads the files with some names, of which there must be at least one.
fn include_names<S: Source, I: Including<S>>(
    alloc: Global,
    source: &mut S,
    reading: &mut FilesReading,
    request: FileRequest<'_>,
    names: &[Text],
) -> Result<(), NoMemory>
    ensures read { OnOk result ((has : Files) → S.agrees source.new has
        → reading.new ≡ spec.after_names (I.after has) has (spec.request_now request.entry) names.now reading.old) }
    ensures kept { (has : Files) → S.agrees source.new has → S.agrees source.old has }
    ensures same { (told : Telling) → S.may_tell source.new told → S.may_tell source.old told }
{
    if names.is_empty() {
        reading.miss(request.required, request.place)?;
        return Ok(());
    }
    for name in names {
        include_name::<S, I>(alloc, source, reading, request, name.bytes())?;
    }
    Ok(())
}

/// Reads the file with a name, if it exists and there is room for it.
#[tactic(auto, unfolding(crate::specs::Reading::after_name))]
fn include_name<S: Source, I: Including<S>>(
    alloc: Global,
    source: &mut S,
    reading: &mut FilesReading,
    request: FileRequest<'_>,
    name: &[u8],
) -> Result<(), NoMemory>
    ensures read { OnOk result ((has : Files) → S.agrees source.new has
        → reading.new ≡ spec.after_name (I.after has) has (spec.request_now request.entry) reading.old name.now) }
    ensures kept { (has : Files) → S.agrees source.new has → S.agrees source.old has }
    ensures same { (told : Telling) → S.may_tell source.new told → S.may_tell source.old told }
{
    let room = reading.room();
    let text = match source.read(alloc, name, room)? {
        FileText::Bytes(text) => text,
        FileText::Absent => {
            reading.miss(request.required, request.place)?;
            return Ok(());
        }
        FileText::TooLong => {
            reading.tell(request.place, RemarkKind::Fault(Fault::TooLong))?;
            return Ok(());
        }
    };
    let text = WholeText::new(alloc, text)?;
    let file = FileRead {
        name,
        included_by: Some(request.place),
        text: &text,
    };
    include_file::<S, I>(alloc, source, reading, request.place, file)?;
    Ok(())
}

/// Reads a file that a line names, if one more may be open.
fn include_file<S: Source, I: Including<S>>(
    alloc: Global,
    source: &mut S,
    reading: &mut FilesReading,
    place: usize,
    file: FileRead<'_>,
) -> Result<(), NoMemory>
    ensures read { OnOk result ((has : Files) → S.agrees source.new has
        → reading.new ≡ spec.after_included (I.after has) place file.entry.name.now file.entry.included_by file.entry.text.now
        reading.old) }
    ensures kept { (has : Files) → S.agrees source.new has → S.agrees source.old has }
    ensures same { (told : Telling) → S.may_tell source.new told → S.may_tell source.old told }
{
    if reading.is_full() {
        reading.tell(place, RemarkKind::Fault(Fault::TooLong))?;
        return Ok(());
    }
    read_file::<S, I>(alloc, source, reading, file)?;
    Ok(())
}

/// Opens a file, and reads its lines and the files in them.
#[tactic(auto, unfolding(crate::specs::Reading::after_text))]
pub(crate) fn read_file<S: Source, I: Including<S>>(
    alloc: Global,
    source: &mut S,
    reading: &mut FilesReading,
    file: FileRead<'_>,
) -> Result<(), NoMemory>
    ensures read { OnOk result ((has : Files) → S.agrees source.new has
        → reading.new ≡ spec.after_file (I.after has) file.entry.name.now file.entry.included_by file.entry.text.now reading.old) }
    ensures kept { (has : Files) → S.agrees source.new has → S.agrees source.old has }
    ensures same { (told : Telling) → S.may_tell source.new told → S.may_tell source.old told }
{
    let number = reading.open_file(alloc, file.name, file.included_by, file.text.bytes().len())?;
    let lines = file_lines(alloc, file.text)?;
    read_lines::<S, I>(alloc, source, reading, number, &lines)?;
    Ok(())
}

/// Whether a line is the one of the innermost opening.
fn is_open_at(opening: Option<usize>, line: usize) -> bool
    ensures { result ≡ spec.is_open_at line opening }
{
    match opening {
        None => false,
        Some(opening) => opening == line,
    }
}

/// Reads the lines of a file, and the files in them.
fn read_lines<S: Source, I: Including<S>>(
    alloc: Global,
    source: &mut S,
    reading: &mut FilesReading,
    file: usize,
    lines: &FileLines,
) -> Result<(), NoMemory>
    ensures read { OnOk result ((has : Files) → S.agrees source.new has
        → reading.new ≡ spec.after_lines (I.after has) file lines.now.open_comment 0 lines.now.texts.items reading.old) }
    ensures kept { (has : Files) → S.agrees source.new has → S.agrees source.old has }
    ensures same { (told : Telling) → S.may_tell source.new told → S.may_tell source.old told }
{
    for (at, text) in lines.texts.iter().enumerate() {
        let line = LineRead {
            file,
            line: at + 1,
            opens: is_open_at(lines.open_comment, at + 1),
            text,
        };
        read_line::<S, I>(alloc, source, reading, line)?;
    }
    Ok(())
}

/// Reads a line of a file, and the files that it requests.
#[tactic(auto, unfolding(crate::specs::Reading::after_line))]
fn read_line<S: Source, I: Including<S>>(
    alloc: Global,
    source: &mut S,
    reading: &mut FilesReading,
    line: LineRead<'_>,
) -> Result<(), NoMemory>
    ensures read { OnOk result ((has : Files) → S.agrees source.new has
        → reading.new ≡ spec.after_line (I.after has) line.entry.file line.entry.opens line.entry.line line.entry.text.now reading.old) }
    ensures kept { (has : Files) → S.agrees source.new has → S.agrees source.old has }
    ensures same { (told : Telling) → S.may_tell source.new told → S.may_tell source.old told }
{
    let place = reading.add_line(line.file, line.line, line.text)?;
    reading.note_comment(line.opens, place)?;
    follow_text::<S, I>(alloc, source, reading, place, line.text)?;
    Ok(())
}

/// Handles the request of the line at a place, given its text.
fn follow_text<S: Source, I: Including<S>>(
    alloc: Global,
    source: &mut S,
    reading: &mut FilesReading,
    place: usize,
    text: &LineText,
) -> Result<(), NoMemory>
    ensures read { OnOk result ((has : Files) → S.agrees source.new has
        → reading.new ≡ spec.after_directive (I.after has) place (directive_of (content_of text.now)) reading.old) }
    ensures kept { (has : Files) → S.agrees source.new has → S.agrees source.old has }
    ensures same { (told : Telling) → S.may_tell source.new told → S.may_tell source.old told }
{
    if let Some(content) = text.plain_content() {
        follow_line::<S, I>(alloc, source, reading, place, content)?;
        return Ok(());
    }
    let content = text.content(alloc)?;
    follow_line::<S, I>(alloc, source, reading, place, content.bytes())?;
    Ok(())
}

/// Handles the request of the line at a place, given its content.
fn follow_line<S: Source, I: Including<S>>(
    alloc: Global,
    source: &mut S,
    reading: &mut FilesReading,
    place: usize,
    content: &[u8],
) -> Result<(), NoMemory>
    ensures read { OnOk result ((has : Files) → S.agrees source.new has
        → reading.new ≡ spec.after_directive (I.after has) place (directive_of content.now) reading.old) }
    ensures kept { (has : Files) → S.agrees source.new has → S.agrees source.old has }
    ensures same { (told : Telling) → S.may_tell source.new told → S.may_tell source.old told }
{
    let Some(directive) = read_directive(content) else {
        return Ok(());
    };
    match directive {
        Directive::Include(name) => {
            let required = true;
            I::include(
                alloc,
                source,
                reading,
                FileRequest {
                    place,
                    name,
                    required,
                },
            )?;
        }
        Directive::TryInclude(name) => {
            let required = false;
            I::include(
                alloc,
                source,
                reading,
                FileRequest {
                    place,
                    name,
                    required,
                },
            )?;
        }
        Directive::Exec => reading.tell(place, RemarkKind::Note(LineNote::Exec))?,
        Directive::Unknown => {
            reading.tell(place, RemarkKind::Fault(Fault::Line(LineKind::Directive)))?;
        }
    }
    Ok(())
}
