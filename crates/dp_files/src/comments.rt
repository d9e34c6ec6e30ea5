//! Block comments, after the Asterisk documentation's page on its configuration files.
ghost use Rattle.std.specs.Prelude.{◌≡◌, ◌∷◌, ◌<◌, ◌≤◌, ◌==◌, ◌&&◌, [], false, true, not, IfOk, IfSome, ℕ, drop, length, slice_range};
ghost use Rattle.dp_conf.specs.Blanks.{trim};
ghost use Rattle.dp_conf.specs.Lines.{content_of, parts_of, without_mark};
ghost use Rattle.dp_files.specs.Comments as spec;
ghost use Rattle.dp_files.specs.LineSteps as steps;

use crate::line_text::{LineText, WholeText};
use dp_conf::{NoMemory, Text, cut_once, opens_block};
use std::alloc::Global;
use std::marker::Model;

/// The open block comments, given by the lines of their openings. A contract sees the innermost first.
#[derive(Drop)]
struct OpenComments {
    lines: Vec<usize>,
}

impl Model for OpenComments {
    ghost use Rattle.std.specs.Prelude.{ℕ, List, reverse};

    ghost Value = { List ℕ };

    ghost view = { λ comments. reverse comments.lines.items };
}

impl OpenComments {
    ghost use Rattle.std.specs.Prelude.{◌≡◌, ◌==◌, ◌∷◌, OnOk, [], drop, length};
    ghost use Rattle.dp_files.specs.Comments as spec;

    /// Without comments. It never allocates.
    fn new(alloc: Global) -> Self
        ensures { result ≡ [] }
    {
        OpenComments {
            lines: Vec::new(alloc),
        }
    }

    /// Whether no block comment is open.
    fn is_empty(&self) -> bool
        ensures { result ≡ (length self.now == 0) }
    {
        self.lines.is_empty()
    }

    /// Opens a block comment at this line.
    fn open(&mut self, line: usize) -> Result<(), NoMemory>
        ensures { OnOk result (self.new ≡ line ∷ self.old) }
    {
        self.lines.push(line)?;
        Ok(())
    }

    /// Closes the innermost block comment, if one is open.
    fn close(&mut self)
        ensures { self.new ≡ drop 1 self.old }
    {
        let _closed = self.lines.pop();
    }

    /// The line of the innermost opening.
    fn innermost(&self) -> Option<usize>
        ensures { result ≡ spec.innermost self.now }
    {
        self.lines.last().copied()
    }
}

/// Whether a byte outside block comments begins a comment: a `;` without a `\` directly before it.
fn begins_comment(previous: u8, byte: u8) -> bool
    ensures { result ≡ (byte == 59 && not (previous == 92)) }
{
    byte == b';' && previous != b'\\'
}

/// Whether a text inside a block comment begins with its end: `--;`, unless its `;` opens another one.
fn closes_block(text: &[u8]) -> bool
    ensures { result ≡ spec.closes_block text.now }
{
    text.starts_with(b"--;") && !opens_block(&text[2..])
}

/// Skips a mark or a byte inside a block comment, and returns the text after it.
fn pass_covered<'a>(
    line: usize,
    open: &mut OpenComments,
    text: &'a [u8],
) -> Result<&'a [u8], NoMemory>
    requires open { 0 < length open.old }
    requires some { 0 < length text.now }
    ensures rest { IfOk result (λ after. (previous : ℕ) → spec.uncovered_from line 0 open.new 10 after.now
        ≡ spec.uncovered_from line 0 open.old previous text.now) }
    ensures shorter { IfOk result (λ after. length after.now < length text.now) }
{
    if opens_block(text) {
        open.open(line)?;
        return Ok(&text[3..]);
    }
    if closes_block(text) {
        open.close();
        return Ok(&text[3..]);
    }
    Ok(&text[1..])
}

/// Whether a line has no `;`. Then it has no comment, and its content is all of it, without blanks at its ends.
fn is_plain(part: &[u8]) -> bool
    ensures stands { (line : ℕ) → result ≡ true → spec.rest_of_line line [] part.now ≡ record { text = part.now; unclosed = [] } }
    ensures content { result ≡ true → content_of part.now ≡ trim part.now }
{
    !part.contains(&b';')
}

/// Whether a block comment opens in a line outside block comments.
fn begins_block(part: &[u8]) -> bool
    ensures { (line : ℕ) → result ≡ false → spec.rest_of_line line [] part.now ≡ record { text = part.now; unclosed = [] } }
{
    let mut previous = b'\n';
    let mut left = part;
    while let Some((byte, rest)) = left.split_first() {
        if begins_comment(previous, *byte) {
            return opens_block(left);
        }
        previous = *byte;
        left = rest;
    }
    false
}

/// The part of a line outside block comments. A comment of another kind ends the line, and stays in it.
fn uncover_part(
    alloc: Global,
    line: usize,
    open: &mut OpenComments,
    part: &[u8],
) -> Result<Text, NoMemory>
    ensures { IfOk result (λ text. spec.rest_of_line line open.old part.now ≡ record { text = text; unclosed = open.new }) }
{
    let mut kept = Vec::new(alloc);
    let mut previous = b'\n';
    let mut left = part;
    while let Some((byte, rest)) = left.split_first() {
        if !open.is_empty() {
            left = pass_covered(line, open, left)?;
            previous = b'\n';
        } else if !begins_comment(previous, *byte) {
            kept.push(*byte)?;
            left = rest;
            previous = *byte;
        } else if opens_block(left) {
            open.open(line)?;
            left = &left[3..];
            previous = b'\n';
        } else {
            kept.extend_from_slice(left)?;
            return Ok(Text::new(kept));
        }
    }
    Ok(Text::new(kept))
}

/// A line of the text of a file: where it begins and ends, and where the next one begins, if there is one.
#[derive(Clone, Copy)]
struct LineRange {
    start: usize,
    end: usize,
    next: Option<usize>,
}

/// The line that begins at a place of a text.
fn line_from(text: &[u8], start: usize) -> LineRange
    requires { start ≤ length text.now }
    ensures start { result.start ≡ start }
    ensures within { (result.start ≤ result.end) × (result.end ≤ length text.now) }
    ensures next { IfSome result.next (λ next. (start < next) × (next ≤ length text.now)) }
    ensures parts { parts_of (drop start text.now) ≡ slice_range text.now start result.end ∷ steps.parts_from text.now result.next }
{
    match cut_once(&text[start..], b'\n') {
        None => LineRange {
            start,
            end: text.len(),
            next: None,
        },
        Some((part, _)) => LineRange {
            start,
            end: start + part.len(),
            next: Some(start + part.len() + 1),
        },
    }
}

/// The text of a line outside block comments. It shares the text of its file if no block comment is in it.
fn uncover_line(
    alloc: Global,
    line: usize,
    open: &mut OpenComments,
    whole: &WholeText,
    range: LineRange,
) -> Result<LineText, NoMemory>
    requires { (range.start ≤ range.end) × (range.end ≤ length whole.now) }
    ensures { IfOk result (λ text. spec.rest_of_line line open.old (slice_range whole.now range.start range.end)
        ≡ record { text = text; unclosed = open.new }) }
{
    let part = &whole.bytes()[range.start..range.end];
    let is_plain = is_plain(part);
    if open.is_empty() && (is_plain || !begins_block(part)) {
        return whole.part_between(range.start, range.end, is_plain);
    }
    let text = uncover_part(alloc, line, open, part)?;
    Ok(LineText::new(text))
}

/// The lines of a file.
#[derive(Drop)]
pub(crate) struct FileLines {
    /// The lines in order, without their block comments.
    pub(crate) texts: Vec<LineText>,
    /// The line of the innermost opening, counted from 1, if block comments are open at the end of the file.
    pub(crate) open_comment: Option<usize>,
}

/// The number of bytes of the byte order mark at the start of a text.
fn mark_length(text: &[u8]) -> usize
    ensures mark { without_mark text.now ≡ drop result text.now }
    ensures within { result ≤ length text.now }
{
    if text.starts_with(b"\xEF\xBB\xBF") {
        3
    } else {
        0
    }
}

/// The lines of the text of a file without their block comments. A byte order mark at the start is left out.
pub(crate) fn file_lines(alloc: Global, text: &WholeText) -> Result<FileLines, NoMemory>
    ensures { IfOk result (λ lines. spec.file_lines text.now ≡ record { texts = lines.texts.items; open_comment = lines.open_comment }) }
{
    let mut texts = Vec::new(alloc);
    let mut open = OpenComments::new(alloc);
    let mut line: usize = 0;
    let mut next = Some(mark_length(text.bytes()));
    while let Some(start) = next {
        let range = line_from(text.bytes(), start);
        line += 1;
        let kept = uncover_line(alloc, line, &mut open, text, range)?;
        texts.push(kept)?;
        next = range.next;
    }
    Ok(FileLines {
        texts,
        open_comment: open.innermost(),
    })
}
