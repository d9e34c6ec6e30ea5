//! Shapes, areas and entries as they are printed.
ghost use Rattle.std.specs.Prelude.{◌≡◌, ◌++◌, OnOk, codes, decimal};
ghost use Rattle.dp_answer.specs.Reports.{entry_text, name_at};
ghost use Rattle.dp_pattern.specs.Spelling.{spelling};

use dp_conf::NoMemory;
use dp_pattern::matches;
use dp_pieces::{ByteSet, Piece};
use dp_plan::{Dialplan, Entry, EntryId, Name};
use itoa::Buffer;
use std::alloc::Global;

/// Adds a number in decimal.
pub(crate) fn push_number(out: &mut Vec<u8>, number: u64) -> Result<(), NoMemory>
    ensures { OnOk result (out.new.items ≡ out.old.items ++ decimal number) }
{
    let mut buffer = Buffer::new();
    out.extend_from_slice(buffer.format(number).as_bytes())?;
    Ok(())
}

/// The byte at a place in the order in which a set is printed: digits, letters, other bytes that may be dialled, and then all others from
/// the lowest.
fn printed_at(place: u8) -> u8 {
    match place {
        0..10 => b'0' + place,
        10..36 => b'A' + (place - 10),
        36..62 => b'a' + (place - 36),
        62 => b'*',
        63 => b'#',
        64 => b'+',
        65 => b'_',
        66 => b'.',
        67..102 => place - 67,
        102..108 => b'$' + (place - 102),
        108..110 => b',' + (place - 108),
        110 => b'/',
        111..118 => b':' + (place - 111),
        118..122 => b'[' + (place - 118),
        122 => b'`',
        123..=255 => place,
    }
}

/// A hexadecimal digit.
fn hex_digit(digit: u8) -> u8 {
    match digit {
        0..10 => b'0' + digit,
        _ => b'a' + (digit.min(15) - 10),
    }
}

/// Adds a byte: as it is if it can be printed, else as `\xHH`.
fn push_byte(out: &mut Vec<u8>, byte: u8) -> Result<(), NoMemory> {
    if byte > b' ' && byte < 127 {
        out.push(byte)?;
        return Ok(());
    }
    out.extend_from_slice(b"\\x")?;
    out.push(hex_digit(byte / 16))?;
    out.push(hex_digit(byte % 16))?;
    Ok(())
}

/// Consecutive bytes of a set.
#[derive(Clone, Copy)]
struct ByteRun {
    first: u8,
    last: u8,
}

/// Adds the bytes of a run, if there is one: three or more as a range.
fn push_run(out: &mut Vec<u8>, run: Option<ByteRun>) -> Result<(), NoMemory> {
    let Some(run) = run else {
        return Ok(());
    };
    push_byte(out, run.first)?;
    if run.first == run.last {
        return Ok(());
    }
    if run.first.saturating_add(1) != run.last {
        out.push(b'-')?;
    }
    push_byte(out, run.last)
}

/// Adds a set of bytes in braces, such as `{0-9A-D*#}`.
fn push_set(out: &mut Vec<u8>, set: &ByteSet) -> Result<(), NoMemory> {
    let mut run: Option<ByteRun> = None;
    out.push(b'{')?;
    for place in 0..=255u8 {
        let byte = printed_at(place);
        if set.has(byte) {
            run = match run {
                Some(run) if run.last.saturating_add(1) == byte => Some(ByteRun {
                    first: run.first,
                    last: byte,
                }),
                _ => {
                    push_run(out, run)?;
                    Some(ByteRun {
                        first: byte,
                        last: byte,
                    })
                }
            };
        } else {
            push_run(out, run)?;
            run = None;
        }
    }
    push_run(out, run)?;
    out.push(b'}')?;
    Ok(())
}

/// Adds a piece: its byte, a set for exactly one byte, or a set for any number of bytes.
fn push_piece(out: &mut Vec<u8>, piece: &Piece) -> Result<(), NoMemory> {
    match piece {
        Piece::Known(byte) => push_byte(out, *byte),
        Piece::OneOf(set) => push_set(out, set),
        Piece::AnyOf(set) => {
            push_set(out, set)?;
            out.push(b'*')?;
            Ok(())
        }
    }
}

/// Adds pieces one after another.
pub(crate) fn push_pieces(out: &mut Vec<u8>, pieces: &[Piece]) -> Result<(), NoMemory> {
    for piece in pieces {
        push_piece(out, piece)?;
    }
    Ok(())
}

/// Adds an area as `CONTEXT,SHAPE`.
pub(crate) fn push_area(
    out: &mut Vec<u8>,
    context: &[u8],
    exten: &[Piece],
) -> Result<(), NoMemory> {
    out.extend_from_slice(context)?;
    out.push(b',')?;
    push_pieces(out, exten)
}

/// The name of the context with the number.
pub(crate) fn context_name(plan: &Dialplan, number: usize) -> &[u8]
    ensures { result.now ≡ name_at plan.now number }
{
    match plan.contexts().get(number) {
        Some(context) => context.name().bytes(),
        None => b"",
    }
}

/// Adds the position of an entry of the context with the name, as `CONTEXT,NAME,PRIORITY`.
fn push_spot(out: &mut Vec<u8>, context: &[u8], entry: &Entry) -> Result<(), NoMemory>
    ensures { OnOk result (out.new.items
        ≡ out.old.items ++ context.now ++ codes "," ++ spelling entry.now.name ++ codes "," ++ decimal entry.now.priority) }
{
    out.extend_from_slice(context)?;
    out.push(b',')?;
    out.extend_from_slice(entry.name.spelling())?;
    out.push(b',')?;
    push_number(out, u64::from(entry.priority.get()))
}

/// Adds what an entry runs, as `APPLICATION(ARGUMENTS)`.
fn push_call(out: &mut Vec<u8>, entry: &Entry) -> Result<(), NoMemory>
    ensures { OnOk result (out.new.items
        ≡ out.old.items ++ codes " " ++ entry.now.application ++ codes "(" ++ entry.now.arguments ++ codes ")") }
{
    out.push(b' ')?;
    out.extend_from_slice(entry.application.bytes())?;
    out.push(b'(')?;
    out.extend_from_slice(entry.arguments.bytes())?;
    out.push(b')')?;
    Ok(())
}

/// Adds an entry as `CONTEXT,NAME,PRIORITY APPLICATION(ARGUMENTS)`.
pub(crate) fn push_entry(out: &mut Vec<u8>, plan: &Dialplan, id: EntryId) -> Result<(), NoMemory>
    ensures { OnOk result (out.new.items ≡ out.old.items ++ entry_text plan.now id) }
{
    let Some(entry) = plan.entry(id) else {
        return Ok(());
    };
    push_spot(out, context_name(plan, id.context), entry)?;
    push_call(out, entry)
}

/// The byte that an example has for one of a set: 1 if the set has it, else the first that is printed.
fn example_of(set: &ByteSet) -> Option<u8> {
    if set.has(b'1') {
        return Some(b'1');
    }
    for place in 0..=255u8 {
        if set.has(printed_at(place)) {
            return Some(printed_at(place));
        }
    }
    None
}

/// An extension of the shape, if it has one, with this number of bytes where any number may be.
fn example_with(alloc: Global, exten: &[Piece], any: usize) -> Result<Option<Vec<u8>>, NoMemory> {
    let mut text = Vec::new(alloc);
    for piece in exten {
        let (byte, count) = match piece {
            Piece::Known(byte) => (Some(*byte), 1),
            Piece::OneOf(set) => (example_of(set), 1),
            Piece::AnyOf(set) => (example_of(set), any),
        };
        match byte {
            Some(byte) => text.resize(text.len().saturating_add(count), byte)?,
            None => {
                if count > 0 {
                    return Ok(None);
                }
            }
        }
    }
    Ok(Some(text))
}

/// The first of some extensions of the shape that matches the name, with none, one and more bytes where any number may be.
pub(crate) fn example(
    alloc: Global,
    exten: &[Piece],
    name: &Name,
) -> Result<Option<Vec<u8>>, NoMemory> {
    for any in 0..4 {
        if let Some(text) = example_with(alloc, exten, any)? {
            if matches(name, &text) {
                return Ok(Some(text));
            }
        }
    }
    Ok(None)
}
