//! The explanation below a fault or a note: the line of the file, and a sentence.
ghost use Rattle.std.specs.Prelude.{◌≡◌, ◌<◌, ◌≤◌, ◌+◌, ◌++◌, OnOk, map, take, length};
ghost use Rattle.std.specs.List.{flat_map};
ghost use Rattle.arrayvec.specs.ArrayVec.{array_vec_len};
ghost use Rattle.dp_conf.specs.Lines.{parts_of};
ghost use Rattle.dp_commands.specs.Explained as spec;

use crate::block::Block;
use crate::trace::push_number;
use arrayvec::ArrayVec;
use dp_conf::first_part;
use dp_plan::{NoMemory, NoteKind};
use std::marker::Model;

/// The greatest number of bytes of a line that are shown.
const MOST_SHOWN: usize = 200;

/// Room for the shown part of a line: a byte takes at most four.
const ROOM: usize = 800;

/// A line of a file, as it is shown. It has its own memory, so that the text of the file can be dropped.
#[derive(Clone, Debug, Drop)]
pub struct FileLine<'a> {
    path: &'a str,
    number: usize,
    shown: ArrayVec<u8, ROOM>,
}

impl<'a> Model for FileLine<'a> {
    ghost use Rattle.dp_commands.specs.Explained.{LineOfFile};

    ghost Value = { LineOfFile };

    ghost view = { λ line. record { path = line.path.now; number = line.number; shown = line.shown.items } };
}

impl<'a> FileLine<'a> {
    ghost use Rattle.std.specs.Prelude.{◌≡◌};
    ghost use Rattle.dp_commands.specs.Explained.{file_line, line_at};

    /// A line with its number and its bytes.
    pub(crate) fn new(path: &'a str, number: usize, line: &[u8]) -> Self
        ensures { result ≡ file_line path.now number line.now }
    {
        FileLine {
            path,
            number,
            shown: show(line),
        }
    }

    /// The line with the number, counted from 1, in the text of a file: its first 200 bytes, and each byte that cannot be printed as
    /// `\xNN`.
    pub fn at(path: &'a str, text: &[u8], number: usize) -> Self
        ensures { result ≡ line_at path.now text.now number }
    {
        FileLine::new(path, number, line_in(text, number))
    }

    /// The path of the file.
    pub fn path(&self) -> &'a str
        ensures { result.now ≡ self.now.path }
    {
        self.path
    }

    /// The number of the line, counted from 1.
    pub fn number(&self) -> usize
        ensures { result ≡ self.now.number }
    {
        self.number
    }

    /// The part of the line that is shown.
    pub fn shown_part(&self) -> &[u8]
        ensures { result.now ≡ self.now.shown }
    {
        self.shown.as_slice()
    }
}

/// The digit for a number below 16.
fn hex_digit(number: u8) -> u8
    requires { number < 16 }
    ensures { result ≡ spec.hex_digit number }
{
    if number < 10 {
        b'0' + number
    } else {
        87 + number
    }
}

/// Adds a byte as it is shown.
fn show_byte(shown: &mut ArrayVec<u8, ROOM>, byte: u8)
    requires { array_vec_len shown.old + 4 ≤ 800 }
    ensures shown { shown.new.items ≡ shown.old.items ++ spec.shown_byte byte }
    ensures room { array_vec_len shown.new ≤ array_vec_len shown.old + 4 }
{
    if 32 <= byte && byte <= 126 {
        shown.push(byte);
        return;
    }
    shown.push(b'\\');
    shown.push(b'x');
    shown.push(hex_digit(byte / 16));
    shown.push(hex_digit(byte % 16));
}

/// This number of bytes from the start of a line, or all if it has fewer.
fn front(line: &[u8], most: usize) -> &[u8]
    ensures front { result.now ≡ take most line.now }
    ensures short { length result.now ≤ most }
{
    if line.len() <= most {
        return line;
    }
    &line[..most]
}

/// At most the shown number of bytes of a line, as they are shown.
fn show_bytes(bytes: &[u8]) -> ArrayVec<u8, ROOM>
    requires { length bytes.now ≤ 200 }
    ensures { result.items ≡ flat_map spec.shown_byte bytes.now }
{
    let mut shown = ArrayVec::new();
    for byte in bytes {
        show_byte(&mut shown, *byte);
    }
    shown
}

/// The part of a line that is shown.
fn show(line: &[u8]) -> ArrayVec<u8, ROOM>
    ensures { result.items ≡ spec.line_told line.now }
{
    show_bytes(front(line, MOST_SHOWN))
}

/// The line with the number, counted from 1, in a list of lines.
pub(crate) fn line_among<'a>(lines: &[&'a [u8]], number: usize) -> &'a [u8]
    ensures { result.now ≡ spec.line_among (map (λ line. line.now) lines.now) number }
{
    match lines.get(number.saturating_sub(1)) {
        Some(line) => *line,
        None => b"",
    }
}

/// The line with the number, counted from 1, in a text.
pub fn line_in(text: &[u8], number: usize) -> &[u8]
    ensures { result.now ≡ spec.line_among (parts_of text.now) number }
{
    let mut before = number.saturating_sub(1);
    let mut rest = Some(text);
    while let Some(left) = rest {
        let (part, after) = first_part(left);
        if before == 0 {
            return part;
        }
        before -= 1;
        rest = after;
    }
    b""
}

/// The sentence that explains a note.
fn note_sentence(kind: NoteKind) -> &'static str
    ensures { result.now ≡ spec.note_sentence kind }
{
    match kind {
        NoteKind::DoublePriority => {
            "an earlier line of the context that is kept has the extension and the priority; this line is dropped"
        }
        NoteKind::DoubleLabel => {
            "an earlier line of the context and the extension that is kept has the label; this line is dropped"
        }
        NoteKind::UnknownContext => {
            "there is no context of this name; the include is kept, and finds nothing"
        }
        NoteKind::UnknownKey => {
            "a context has no such key, or a key in `[globals]` is empty, whatever its value is; this line is dropped"
        }
    }
}

/// Adds the position of a line.
fn push_where(out: &mut Block, line: &FileLine<'_>) -> Result<(), NoMemory>
    ensures { OnOk result (out.new.begun ≡ out.old.begun ++ spec.where_text line.now) }
{
    out.push(b"  ")?;
    out.push(line.path().as_bytes())?;
    out.push(b":")?;
    push_number(out, line.number())?;
    out.push(b"\n")
}

/// Adds the line itself.
fn push_shown(out: &mut Block, line: &FileLine<'_>) -> Result<(), NoMemory>
    ensures { OnOk result (out.new.begun ≡ out.old.begun ++ spec.shown_text line.now) }
{
    out.push(b"  ")?;
    out.push(line.shown_part())?;
    out.push(b"\n")
}

/// Adds the position of a line, then the line itself.
fn push_line(out: &mut Block, line: &FileLine<'_>) -> Result<(), NoMemory>
    ensures { OnOk result (out.new.begun ≡ out.old.begun ++ spec.line_text line.now) }
{
    push_where(out, line)?;
    push_shown(out, line)
}

/// Adds the sentence that explains a note.
fn push_sentence(out: &mut Block, kind: NoteKind) -> Result<(), NoMemory>
    ensures { OnOk result (out.new.begun ≡ out.old.begun ++ spec.sentence_text (spec.note_sentence kind)) }
{
    out.push(b"  ")?;
    out.push(note_sentence(kind).as_bytes())?;
    out.push(b"\n")
}

/// Adds the explanation of a note.
pub(crate) fn push_explanation(
    out: &mut Block,
    line: &FileLine<'_>,
    kind: NoteKind,
) -> Result<(), NoMemory>
    ensures { OnOk result (out.new.begun ≡ out.old.begun ++
        (spec.line_text line.now ++ spec.sentence_text (spec.note_sentence kind))) }
{
    push_line(out, line)?;
    push_sentence(out, kind)
}
