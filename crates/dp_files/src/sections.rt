//! The sections in the lines of files, after the Asterisk documentation's pages on configuration files: on their format, on includes and on
//! templates.
ghost use Rattle.std.specs.Prelude.{◌≡◌, ◌≤◌, ◌++◌, ◌∷◌, [], IfOk, OnOk, IfSome, Ok, Some, None, is_ok, map, true, vec_len};
ghost use Rattle.std.specs.Option.{option_map, option_zip};
ghost use Rattle.dp_conf.specs.Changes.{changed_at};
ghost use Rattle.dp_conf.specs.Lines.{content_of, item_of};
ghost use Rattle.dp_files.specs.Headers as headers;
ghost use Rattle.dp_files.specs.SectionParts as parts;
ghost use Rattle.dp_files.specs.Sections as spec;

use crate::header::{SectionHeader, parents_of, read_header};
use crate::line_text::LineText;
use crate::remark::{Fault, LineRemark, RemarkKind};
use crate::source_line::{SourceFile, SourceLine};
use dp_conf::{ConfFault, LineKind, NoMemory, Text, read_line, same_word};
use std::alloc::Global;
use std::marker::Model;

/// The greatest number of line places that the headers of all files may copy, so that templates of templates do not fill the memory.
pub const MOST_COPIED: usize = 16_777_216;

/// Places of lines among the lines of all files, in the order of a section.
///
/// A contract sees it as the list of the places.
#[derive(Drop)]
pub struct SectionPlaces {
    places: Vec<usize>,
}

impl Model for SectionPlaces {
    ghost use Rattle.std.specs.Prelude.{ℕ, List};

    ghost Value = { List ℕ };

    ghost view = { λ places. places.places.items };
}

impl SectionPlaces {
    ghost use Rattle.std.specs.Prelude.{◌≡◌, ◌++◌, ◌∷◌, [], OnOk, OnErr};

    /// The list of these places. It never allocates.
    pub fn new(places: Vec<usize>) -> Self
        ensures { result ≡ places.items }
    {
        SectionPlaces { places }
    }

    /// Adds places at the end. If memory runs out nothing changes.
    pub fn extend(&mut self, more: &[usize]) -> Result<(), NoMemory>
        ensures ok { OnOk result (self.new ≡ self.old ++ more.now) }
        ensures err { OnErr result (self.new ≡ self.old) }
    {
        self.places.extend_from_slice(more)?;
        Ok(())
    }

    /// Adds a place at the end. If memory runs out nothing changes.
    #[inline(always)]
    fn push(&mut self, place: usize) -> Result<(), NoMemory>
        ensures ok { OnOk result (self.new ≡ self.old ++ place ∷ []) }
        ensures err { OnErr result (self.new ≡ self.old) }
    {
        self.places.push(place)?;
        Ok(())
    }

    /// The places, in order.
    pub fn as_slice(&self) -> &[usize]
        ensures { result.now ≡ self.now }
    {
        &self.places
    }
}

/// A section in the lines of files.
#[derive(Drop)]
pub struct SourceSection {
    /// The place of its header's line. None for the first section, which has the lines before any header.
    pub header: Option<usize>,
    /// The name in its header, or an empty one without a header.
    pub name: Text,
    /// Whether its lines only count if other sections name it.
    pub is_template: bool,
    /// The places of its lines: first those of the sections that its header names, then its own.
    pub lines: SectionPlaces,
}

/// The sections in the lines of files, with remarks on lines.
#[derive(Drop)]
pub struct Sections {
    /// The sections in the order of their headers. The first has no header.
    pub sections: Vec<SourceSection>,
    /// The remarks, in the order of the lines.
    pub remarks: Vec<LineRemark>,
}

/// A header, and the place of its line.
#[derive(Clone, Copy)]
struct HeaderLine<'a> {
    place: usize,
    header: SectionHeader<'a>,
}

/// The section that a header opens.
#[derive(Clone, Copy)]
enum Opening {
    /// A new one.
    New,
    /// The existing one at a place.
    Extends(usize),
}

/// The section that a header opens, and the sections that it names.
#[derive(Drop)]
struct NamedSections {
    opening: Opening,
    /// The sections whose lines it copies.
    parents: Vec<usize>,
}

/// The result of reading so far.
#[derive(Drop)]
struct SectionReading {
    sections: Vec<SourceSection>,
    remarks: Vec<LineRemark>,
    /// For each file, the section that is open after its last line so far.
    open_in: Vec<Option<usize>>,
    /// The number of places that may still be copied.
    room: usize,
}

/// The place of the first section with a name, in any case.
fn place_of(sections: &[SourceSection], name: &[u8]) -> Option<usize>
    ensures { result ≡ spec.place_of sections.now name.now }
{
    sections
        .iter()
        .position(|section| same_word(section.name.bytes(), name))
}

/// The places of the sections with these names, if all of them exist.
fn places_of(
    alloc: Global,
    sections: &[SourceSection],
    names: &[&[u8]],
) -> Result<Option<Vec<usize>>, NoMemory>
    ensures { IfOk result (λ places. option_map (λ places. places.items) places
        ≡ spec.places_of sections.now (map (λ name. name.now) names.now)) }
{
    let mut places = Vec::new(alloc);
    for name in names {
        match place_of(sections, name) {
            None => return Ok(None),
            Some(place) => places.push(place)?,
        }
    }
    Ok(Some(places))
}

/// The lines of the section at a place.
fn lines_at(sections: &[SourceSection], place: usize) -> &[usize]
    ensures { result.now ≡ spec.lines_at sections.now place }
{
    match sections.get(place) {
        None => &[],
        Some(section) => section.lines.as_slice(),
    }
}

/// The lines of the sections at these places, one section after another, unless there are more than may be copied.
#[tactic(auto, unfolding(crate::specs::Sections::copies_within))]
fn copies_within(
    alloc: Global,
    room: usize,
    sections: &[SourceSection],
    places: &[usize],
) -> Result<Option<Vec<usize>>, NoMemory>
    ensures copies { IfOk result (λ copies. option_map (λ lines. lines.items) copies
        ≡ spec.copies_within room sections.now places.now) }
    ensures within { IfOk result (λ copies. IfSome copies (λ lines. vec_len lines ≤ room)) }
{
    let mut copies = Vec::new(alloc);
    for place in places {
        let lines = lines_at(sections, *place);
        if lines.len() > room - copies.len() {
            return Ok(None);
        }
        copies.extend_from_slice(lines)?;
    }
    Ok(Some(copies))
}

/// The section that a header opens: a new one, or with `+` the first one with its name, if there is one.
#[tactic(auto, unfolding(crate::specs::Sections::opening_of))]
fn opening_of(sections: &[SourceSection], header: SectionHeader<'_>) -> Option<Opening>
    ensures { result ≡ spec.opening_of sections.now (headers.header_now header.entry) }
{
    if !header.is_addition() {
        return Some(Opening::New);
    }
    match place_of(sections, header.name) {
        None => None,
        Some(place) => Some(Opening::Extends(place)),
    }
}

/// The section that a header opens, and the sections that it names, if all of them exist.
fn named_sections(
    alloc: Global,
    sections: &[SourceSection],
    header: SectionHeader<'_>,
) -> Result<Option<NamedSections>, NoMemory>
    ensures { IfOk result (λ named. option_map parts.named_now named
        ≡ option_zip (spec.opening_of sections.now (headers.header_now header.entry))
        (spec.places_of sections.now (headers.parents_of (headers.header_now header.entry)))) }
{
    let Some(opening) = opening_of(sections, header) else {
        return Ok(None);
    };
    let names = parents_of(alloc, header)?;
    match places_of(alloc, sections, &names)? {
        None => Ok(None),
        Some(parents) => Ok(Some(NamedSections { opening, parents })),
    }
}

/// Adds a line to the section at a place.
#[inline(always)]
fn add_line(sections: &mut Vec<SourceSection>, place: usize, line: usize) -> Result<(), NoMemory>
    ensures { OnOk result (sections.new.items ≡ changed_at (spec.with_lines (line ∷ [])) place sections.old.items) }
{
    if let Some(section) = sections.get_mut(place) {
        section.lines.push(line)?;
    }
    Ok(())
}

/// Extends the section at a place with a header.
fn extend_section(
    sections: &mut Vec<SourceSection>,
    place: usize,
    header: SectionHeader<'_>,
    lines: &[usize],
) -> Result<(), NoMemory>
    ensures { OnOk result (sections.new.items
        ≡ changed_at (spec.longer_section (headers.header_now header.entry) lines.now) place sections.old.items) }
{
    let makes_template = header.makes_template();
    if let Some(section) = sections.get_mut(place) {
        section.lines.extend(lines)?;
        section.is_template |= makes_template;
    }
    Ok(())
}

/// Begins a section.
fn begin_section(
    alloc: Global,
    sections: &mut Vec<SourceSection>,
    line: HeaderLine<'_>,
    lines: Vec<usize>,
) -> Result<(), NoMemory>
    ensures { OnOk result (sections.new.items
        ≡ sections.old.items ++ spec.new_section line.entry.place (headers.header_now line.entry.header) lines.items ∷ []) }
{
    let name = Text::copy_of(alloc, line.header.name)?;
    sections.push(SourceSection {
        header: Some(line.place),
        name,
        is_template: line.header.makes_template(),
        lines: SectionPlaces::new(lines),
    })?;
    Ok(())
}

/// Opens the section of a header with these lines of other sections, and returns its place.
#[tactic(auto, unfolding(crate::specs::Sections::sections_after))]
fn open_section(
    alloc: Global,
    sections: &mut Vec<SourceSection>,
    line: HeaderLine<'_>,
    opening: Opening,
    lines: Vec<usize>,
) -> Result<usize, NoMemory>
    ensures { IfOk result (λ current.
        spec.sections_after line.entry.place (headers.header_now line.entry.header) opening lines.items sections.old.items
        ≡ (sections.new.items, current)) }
{
    match opening {
        Opening::New => {
            let current = sections.len();
            begin_section(alloc, sections, line, lines)?;
            Ok(current)
        }
        Opening::Extends(place) => {
            extend_section(sections, place, line.header, &lines)?;
            Ok(place)
        }
    }
}

/// Reports a fault of the line at a place.
fn tell(remarks: &mut Vec<LineRemark>, place: usize, fault: Fault) -> Result<(), NoMemory>
    ensures { OnOk result (remarks.new.items ≡ remarks.old.items ++ parts.fault_at place fault ∷ []) }
{
    remarks.push(LineRemark {
        source: place,
        kind: RemarkKind::Fault(fault),
    })?;
    Ok(())
}

/// The lines that a header copies: those of its parents, or none with a remark if there are too many.
#[tactic(auto, unfolding(crate::specs::Sections::with_copies))]
fn lines_to_copy(
    alloc: Global,
    reading: &mut SectionReading,
    place: usize,
    parents: &[usize],
) -> Result<Vec<usize>, NoMemory>
    ensures { IfOk result (λ lines. spec.copies_of place parents.now (parts.reading_now reading.old)
        ≡ (parts.reading_now reading.new, lines.items)) }
{
    match copies_within(alloc, reading.room, &reading.sections, parents)? {
        None => {
            tell(&mut reading.remarks, place, Fault::TooLong)?;
            Ok(Vec::new(alloc))
        }
        Some(lines) => {
            reading.room -= lines.len();
            Ok(lines)
        }
    }
}

/// Takes a header, given the open section, and returns the section that is open after it.
#[tactic(auto, unfolding(crate::specs::Sections::after_named_header))]
fn take_header(
    alloc: Global,
    reading: &mut SectionReading,
    current: usize,
    line: HeaderLine<'_>,
) -> Result<usize, NoMemory>
    ensures { IfOk result (λ after.
        spec.after_header line.entry.place current (Ok (headers.header_now line.entry.header)) (parts.reading_now reading.old)
        ≡ (parts.reading_now reading.new, after)) }
{
    match named_sections(alloc, &reading.sections, line.header)? {
        None => {
            tell(
                &mut reading.remarks,
                line.place,
                Fault::Line(LineKind::Template),
            )?;
            Ok(current)
        }
        Some(NamedSections { opening, parents }) => {
            let lines = lines_to_copy(alloc, reading, line.place, &parents)?;
            let after = open_section(alloc, &mut reading.sections, line, opening, lines)?;
            Ok(after)
        }
    }
}

/// Takes a line that begins with `[`.
fn take_header_line(
    alloc: Global,
    reading: &mut SectionReading,
    place: usize,
    current: usize,
    inside: &[u8],
) -> Result<usize, NoMemory>
    ensures { IfOk result (λ after. spec.after_header place current (headers.header_of inside.now) (parts.reading_now reading.old)
        ≡ (parts.reading_now reading.new, after)) }
{
    match read_header(inside) {
        Err(kind) => {
            tell(&mut reading.remarks, place, Fault::Line(kind))?;
            Ok(current)
        }
        Ok(header) => {
            let after = take_header(alloc, reading, current, HeaderLine { place, header })?;
            Ok(after)
        }
    }
}

/// Whether a content is that of a pair: it begins with neither `[` nor `#`, and has a `=`.
fn is_pair(content: &[u8]) -> bool
    ensures { result ≡ true → is_ok (item_of true 0 content.now) ≡ true }
{
    match content.split_first() {
        Some((byte, _)) => *byte != b'[' && *byte != b'#' && content.contains(&b'='),
        None => false,
    }
}

/// Takes a line that is neither a header nor a directive.
#[tactic(auto, unfolding(crate::specs::Sections::after_item))]
fn take_plain_line(
    reading: &mut SectionReading,
    place: usize,
    current: usize,
    content: &[u8],
) -> Result<(), NoMemory>
    ensures { OnOk result (spec.after_plain_line place current content.now (parts.reading_now reading.old)
        ≡ (parts.reading_now reading.new, current)) }
{
    // Most lines are pairs, and the search for a single byte is faster than reading one.
    if current != 0 && is_pair(content) {
        return add_line(&mut reading.sections, current, place);
    }
    match read_line(0, current != 0, content) {
        Ok(_) => add_line(&mut reading.sections, current, place)?,
        Err(ConfFault::At { line: _, kind }) => {
            tell(&mut reading.remarks, place, Fault::Line(kind))?
        }
        Err(ConfFault::NoMemory) => return Err(NoMemory),
    }
    Ok(())
}

/// Takes a line, given its content and the open section, and returns the section that is open after it.
#[inline(always)]
#[tactic(auto, unfolding(crate::specs::Sections::after_content))]
fn take_content(
    alloc: Global,
    reading: &mut SectionReading,
    place: usize,
    current: usize,
    content: &[u8],
) -> Result<usize, NoMemory>
    ensures { IfOk result (λ after. spec.after_content place current content.now (parts.reading_now reading.old)
        ≡ (parts.reading_now reading.new, after)) }
{
    match content.split_first() {
        Some((b'[', inside)) => {
            let after = take_header_line(alloc, reading, place, current, inside)?;
            Ok(after)
        }
        Some((b'#', _)) => Ok(current),
        _ => {
            take_plain_line(reading, place, current, content)?;
            Ok(current)
        }
    }
}

/// The section that is open after the last line of a file so far.
fn open_after(open_in: &[Option<usize>], file: usize) -> Option<usize>
    ensures { result ≡ spec.open_after open_in.now file }
{
    match open_in.get(file) {
        None => None,
        Some(current) => *current,
    }
}

/// The file with the line that includes a file.
fn including(files: &[SourceFile], lines: &[SourceLine], file: usize) -> Option<usize>
    ensures { result ≡ spec.including files.now lines.now file }
{
    let place = files.get(file)?.included_by?;
    let line = lines.get(place)?;
    Some(line.file)
}

/// The section of the next line of a file.
#[tactic(auto, unfolding(crate::specs::Sections::section_of_next))]
fn section_of_next(
    files: &[SourceFile],
    lines: &[SourceLine],
    open_in: &[Option<usize>],
    file: usize,
) -> usize
    ensures { result ≡ spec.section_of_next files.now lines.now open_in.now file }
{
    if let Some(current) = open_after(open_in, file) {
        return current;
    }
    match including(files, lines, file) {
        None => 0,
        Some(other) => open_after(open_in, other).unwrap_or(0),
    }
}

/// Keeps the section that is open after the last line of a file so far.
fn keep_open(open_in: &mut Vec<Option<usize>>, file: usize, current: usize)
    ensures { open_in.new.items ≡ changed_at (λ _. Some current) file open_in.old.items }
{
    if let Some(after) = open_in.get_mut(file) {
        *after = Some(current);
    }
}

/// Takes the text of the line at a place, given the open section, and returns the section that is open after it.
fn take_text(
    alloc: Global,
    reading: &mut SectionReading,
    place: usize,
    current: usize,
    text: &LineText,
) -> Result<usize, NoMemory>
    ensures { IfOk result (λ after. spec.after_content place current (content_of text.now) (parts.reading_now reading.old)
        ≡ (parts.reading_now reading.new, after)) }
{
    if let Some(content) = text.plain_content() {
        let after = take_content(alloc, reading, place, current, content)?;
        return Ok(after);
    }
    let content = text.content(alloc)?;
    let after = take_content(alloc, reading, place, current, content.bytes())?;
    Ok(after)
}

/// Takes the line at a place.
fn take_line(
    alloc: Global,
    reading: &mut SectionReading,
    current: usize,
    place: usize,
    line: &SourceLine,
) -> Result<(), NoMemory>
    ensures { OnOk result (spec.with_open line.now.file
        (spec.after_content place current (content_of line.now.text) (parts.reading_now reading.old)) ≡ parts.reading_now reading.new) }
{
    let after = take_text(alloc, reading, place, current, &line.text)?;
    keep_open(&mut reading.open_in, line.file, after);
    Ok(())
}

/// For each file, no open section yet.
fn none_open(alloc: Global, files: &[SourceFile]) -> Result<Vec<Option<usize>>, NoMemory>
    ensures { IfOk result (λ open_in. open_in.items ≡ map (λ file. None) files.now) }
{
    files.iter().map(|_file| None).collect(alloc)
}

/// The value before the first line: one section without a header.
fn before_lines(alloc: Global, files: &[SourceFile]) -> Result<SectionReading, NoMemory>
    ensures { IfOk result (λ reading. parts.reading_now reading ≡ spec.before_lines files.now) }
{
    let open_in = none_open(alloc, files)?;
    let mut sections = Vec::new(alloc);
    sections.push(SourceSection {
        header: None,
        name: Text::new(Vec::new(alloc)),
        is_template: false,
        lines: SectionPlaces::new(Vec::new(alloc)),
    })?;
    Ok(SectionReading {
        sections,
        remarks: Vec::new(alloc),
        open_in,
        room: MOST_COPIED,
    })
}

/// The sections in the lines of files: all lines of all files in the order in which they are read, where each include's own line comes
/// before those of the file that it includes.
///
/// A line belongs to the section of the last header before it in its file; before the first header of a file, to the section that is open
/// in the file that includes it; else to the first section, which has no header. A line without content stays in its section, and a line
/// that begins with `#` is in none.
///
/// A header begins a section, even if there is an earlier one with its name. With the word `!` the section is a template. With `+` the
/// header adds to the first section with its name, and begins none. Every other word names an earlier section: the lines that the first
/// section with that name has so far are copied to the front of this one, or with `+` to the end of the existing one, in the order of the
/// words. Names are compared without regard to case.
///
/// A faulty line gets a remark, and is in no section: a pair before any header (`NoSection`), a line without a `=` (`NoEquals`), and a
/// faulty header, which begins no section (`BadHeader`, or `Template` for its parentheses and for a word that names no section). All
/// headers together copy at most [`MOST_COPIED`] lines: one that would copy more gets the remark `TooLong`, and copies none. This limit,
/// and leaving out only the faulty line, are choices of this program.
///
/// It fails only if memory runs out.
#[tactic(auto, unfolding(crate::specs::Sections::sections_of))]
pub fn read_sections(
    alloc: Global,
    files: &[SourceFile],
    lines: &[SourceLine],
) -> Result<Sections, NoMemory>
    ensures sections { IfOk result (λ read. read.sections.items ≡ (spec.sections_of files.now lines.now).sections) }
    ensures remarks { IfOk result (λ read. read.remarks.items ≡ (spec.sections_of files.now lines.now).remarks) }
{
    let mut reading = before_lines(alloc, files)?;
    for (place, line) in lines.iter().enumerate() {
        let current = section_of_next(files, lines, &reading.open_in, line.file);
        take_line(alloc, &mut reading, current, place, line)?;
    }
    let SectionReading {
        sections,
        remarks,
        open_in: _,
        room: _,
    } = reading;
    Ok(Sections { sections, remarks })
}
