//! The result of reading files that include each other.
ghost use Rattle.std.specs.Prelude.{◌≡◌, None, IfOk};
ghost use Rattle.dp_conf.specs.Answers.{Answers};
ghost use Rattle.dp_files.specs.Reading as spec;
ghost use Rattle.dp_files.specs.Sources.{Files, Telling};

use crate::including::{FileRead, First, read_file};
use crate::line_text::{LineText, WholeText};
use crate::remark::{Fault, LineNote, LineRemark, RemarkKind};
use crate::source::{FileText, Source};
use crate::source_line::{SourceFile, SourceLine};
use dp_conf::{MOST_BYTES, NoMemory, Text};
use std::alloc::{AllocError, Global};
use std::marker::Model;

/// The greatest number of opened files.
const MOST_FILES: usize = 100_000;

/// The files that were read, with all their lines.
#[derive(Drop)]
pub struct FilesRead {
    /// The files in the order in which they were opened, beginning with the requested one.
    pub files: Vec<SourceFile>,
    /// The lines of the first file, with the lines of included files after each line that includes them.
    pub lines: Vec<SourceLine>,
    /// The remarks on the lines, in the order in which they are found. That is the order of the lines, except if a line names several files
    /// with `*` or `?`: a remark on it for one of them comes after the remarks on the lines of earlier ones.
    pub remarks: Vec<LineRemark>,
}

/// Why nothing was read.
#[derive(Clone, Copy, Debug, PartialEq, Eq)]
pub enum ReadingFault {
    /// The first file does not exist, or cannot be read.
    NotFound,
    /// The first file has more than 16,777,216 bytes.
    TooLong,
    /// Memory ran out.
    NoMemory,
}

impl From<AllocError> for ReadingFault {
    ghost use Rattle.std.specs.Prelude.{◌≡◌};
    ghost use Rattle.dp_files.specs.declared.reading.ReadingFault.TheVariants.{NoMemory};

    ghost from_gives = { λ _ fault. fault ≡ NoMemory };

    fn from(_: AllocError) -> Self {
        ReadingFault::NoMemory
    }
}

/// The result of reading so far.
#[derive(Drop)]
pub(crate) struct FilesReading {
    files: Vec<SourceFile>,
    lines: Vec<SourceLine>,
    remarks: Vec<LineRemark>,
    room: usize,
}

impl Model for FilesReading {
    ghost use Rattle.dp_files.specs.Reading.{FilesReadSoFar};

    ghost Value = { FilesReadSoFar };

    ghost view = { λ reading. record {
      files = reading.files.items;
      lines = reading.lines.items;
      remarks = reading.remarks.items;
      room = reading.room;
    } };
}

impl FilesReading {
    ghost use Rattle.std.specs.Prelude.{◌≡◌, IfOk, OnOk, length, nat_le};
    ghost use Rattle.dp_files.specs.Reading as spec;

    /// The value before the first file. It never allocates.
    fn new(alloc: Global) -> Self
        ensures { result ≡ spec.nothing_read }
    {
        FilesReading {
            files: Vec::new(alloc),
            lines: Vec::new(alloc),
            remarks: Vec::new(alloc),
            room: MOST_BYTES,
        }
    }

    /// The number of bytes that a further file may have.
    pub(crate) fn room(&self) -> usize
        ensures { result ≡ self.now.room }
    {
        self.room
    }

    /// Whether as many files are open as allowed.
    pub(crate) fn is_full(&self) -> bool
        ensures { result ≡ nat_le spec.most_files (length self.now.files) }
    {
        MOST_FILES <= self.files.len()
    }

    /// Adds a remark on the line at a place.
    pub(crate) fn tell(&mut self, place: usize, kind: RemarkKind) -> Result<(), NoMemory>
        ensures { OnOk result (self.new ≡ spec.with_remark place kind self.old) }
    {
        self.remarks.push(LineRemark {
            source: place,
            kind,
        })?;
        Ok(())
    }

    /// Notes that block comments are open at the end of a file, on the line of the innermost opening.
    pub(crate) fn note_comment(&mut self, opens: bool, place: usize) -> Result<(), NoMemory>
        ensures { OnOk result (self.new ≡ spec.after_comment opens place self.old) }
    {
        if opens {
            self.tell(place, RemarkKind::Note(LineNote::OpenComment))?;
        }
        Ok(())
    }

    /// Reports that a file does not exist, if it must.
    pub(crate) fn miss(&mut self, required: bool, place: usize) -> Result<(), NoMemory>
        ensures { OnOk result (self.new ≡ spec.after_miss required place self.old) }
    {
        if required {
            self.tell(place, RemarkKind::Fault(Fault::NotFound))?;
        }
        Ok(())
    }

    /// Adds a line of a file, and returns its place.
    #[inline(always)]
    pub(crate) fn add_line(
        &mut self,
        file: usize,
        line: usize,
        text: &LineText,
    ) -> Result<usize, NoMemory>
        ensures place { IfOk result (λ place. place ≡ length self.old.lines) }
        ensures line { OnOk result (self.new ≡ spec.with_line file line text.now self.old) }
    {
        let place = self.lines.len();
        let text = text.clone()?;
        self.lines.push(SourceLine { file, line, text })?;
        Ok(place)
    }

    /// Opens a file with this many bytes, and returns its number.
    pub(crate) fn open_file(
        &mut self,
        alloc: Global,
        name: &[u8],
        included_by: Option<usize>,
        count: usize,
    ) -> Result<usize, NoMemory>
        ensures number { IfOk result (λ number. number ≡ length self.old.files) }
        ensures file { OnOk result (self.new ≡ spec.with_file name.now included_by count self.old) }
    {
        let number = self.files.len();
        let name = Text::copy_of(alloc, name)?;
        self.files.push(SourceFile { name, included_by })?;
        self.room = self.room.saturating_sub(count);
        Ok(number)
    }

    /// The files that were read.
    fn into_files_read(self) -> FilesRead
        ensures { spec.files_read result ≡ spec.files_of self }
    {
        let FilesReading {
            files,
            lines,
            remarks,
            room: _,
        } = self;
        FilesRead {
            files,
            lines,
            remarks,
        }
    }
}

/// The lines of the first file, which has this text, and of the files that it includes.
fn read_first<S: Source>(
    alloc: Global,
    source: &mut S,
    name: &[u8],
    text: &WholeText,
) -> Result<FilesRead, NoMemory>
    ensures read { IfOk result (λ read. (has : Files) → S.agrees source.new has
        → spec.files_read read ≡ spec.files_of (spec.after_file (spec.including_first has) name.now None text.now spec.nothing_read)) }
    ensures kept { (has : Files) → S.agrees source.new has → S.agrees source.old has }
    ensures same { (told : Telling) → S.may_tell source.new told → S.may_tell source.old told }
{
    let mut reading = FilesReading::new(alloc);
    let file = FileRead {
        name,
        included_by: None,
        text,
    };
    read_file::<S, First>(alloc, source, &mut reading, file)?;
    Ok(reading.into_files_read())
}

/// The lines of a file and of the files that it includes, with the remarks on them.
///
/// Block comments are left out of each line, and a line keeps the comment that ends it. A line whose content begins with `#` is a
/// directive, whose word may be in any case. After `#include NAME` come the lines of the file with that name, or, if the last part of NAME
/// contains a `*` or a `?`, those of all matching files, in byte order. `#tryinclude NAME` is the same, but reports nothing if a file does
/// not exist. NAME may be in `"`, in `'`, or in `<` and `>`. `#exec` is noted and runs nothing.
///
/// Files may be nested at most 10 deep, including the first. There may be 100,000 files with 16,777,216 bytes in total: a file beyond this
/// is left out with a fault on the line that names it, and every other line is read.
///
/// The fault is `NotFound` if the first file does not exist or cannot be read, `TooLong` if it has too many bytes, or out-of-memory.
#[tactic(auto, unfolding(crate::specs::Reading::reading_of))]
pub fn read_files<S: Source>(
    alloc: Global,
    source: &mut S,
    name: &[u8],
) -> Result<FilesRead, ReadingFault>
    ensures read { (has : Files) → S.agrees source.new has
        → Answers spec.files_read spec.first_fault result (spec.reading_of has name.now) }
    ensures kept { (has : Files) → S.agrees source.new has → S.agrees source.old has }
    ensures same { (told : Telling) → S.may_tell source.new told → S.may_tell source.old told }
{
    match source.read(alloc, name, MOST_BYTES)? {
        FileText::Bytes(text) => {
            let text = WholeText::new(alloc, text)?;
            let read = read_first(alloc, source, name, &text)?;
            Ok(read)
        }
        FileText::Absent => Err(ReadingFault::NotFound),
        FileText::TooLong => Err(ReadingFault::TooLong),
    }
}
