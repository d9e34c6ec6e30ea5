//! Parts of values, after the Asterisk documentation's page on variables.
//!
//! After a value comes nothing, `:offset` or `:offset:length`. A negative offset counts from the end, and a negative length leaves out this
//! many bytes at the end. An empty offset is 0, and an empty length means none. Anything else gives the empty text (a choice of this
//! program).
ghost use Rattle.std.specs.Prelude.{◌≡◌, ◌≤◌, Some};
ghost use Rattle.std.specs.Option.{option_map};
ghost use Rattle.dp_vars.specs.Parts as parts;
ghost use Rattle.dp_vars.specs.Far as far;

use dp_conf::{cut_once, read_number};

/// An offset or a length: this many bytes forward, or this many back from the end.
#[derive(Clone, Copy)]
pub enum Reach {
    Ahead(usize),
    Back(usize),
}

/// The requested part of a value.
#[derive(Clone, Copy)]
pub enum Selection {
    Whole,
    Part(Reach, Option<Reach>),
    Nothing,
}

/// A number as a size. A number that is too large for a size counts as the greatest one.
fn size_of(number: u64) -> usize
    ensures { result ≡ number }
{
    number as usize
}

/// This many bytes back; zero back is zero forward.
fn back(number: usize) -> Reach
    ensures { result ≡ parts.back number }
{
    if number == 0 {
        Reach::Ahead(0)
    } else {
        Reach::Back(number)
    }
}

/// An optional `-` and digits.
fn read_reach(text: &[u8]) -> Option<Reach>
    ensures { result ≡ option_map far.at_most (parts.reach_of text.now) }
{
    let (first, digits) = text.split_first()?;
    if *first == b'-' {
        match read_number(digits) {
            Some(number) => Some(back(size_of(number))),
            None => None,
        }
    } else {
        match read_number(text) {
            Some(number) => Some(Reach::Ahead(size_of(number))),
            None => None,
        }
    }
}

/// An offset, which may be empty.
fn read_offset(text: &[u8]) -> Option<Reach>
    ensures { result ≡ option_map far.at_most (parts.offset_of text.now) }
{
    if text.is_empty() {
        return Some(Reach::Ahead(0));
    }
    read_reach(text)
}

/// A length, which may be empty.
fn read_length(text: &[u8]) -> Option<Option<Reach>>
    ensures { result ≡ option_map (option_map far.at_most) (parts.length_of text.now) }
{
    if text.is_empty() {
        return Some(None);
    }
    match read_reach(text) {
        Some(reach) => Some(Some(reach)),
        None => None,
    }
}

/// An offset and a length as the requested part.
fn part_from(offset: Option<Reach>, length: Option<Option<Reach>>) -> Selection
    ensures { result ≡ parts.part_from offset length }
{
    match (offset, length) {
        (Some(offset), Some(length)) => Selection::Part(offset, length),
        _ => Selection::Nothing,
    }
}

/// The part that is requested by the text after the first `:`: an offset, or an offset, a `:` and a length. A number above the greatest of
/// 64 bits counts as the greatest.
pub fn read_asked(tail: &[u8]) -> Selection
    ensures { result ≡ far.asked_at_most (parts.asked_of (Some tail.now)) }
{
    match cut_once(tail, b':') {
        None => part_from(read_offset(tail), Some(None)),
        Some((offset, length)) => part_from(read_offset(offset), read_length(length)),
    }
}

/// The start of a part in a value of this size.
fn start_of(offset: Reach, size: usize) -> usize
    ensures start { result ≡ parts.start_of offset size }
    ensures within { result ≤ size }
{
    match offset {
        Reach::Ahead(number) => number.min(size),
        Reach::Back(number) => size.saturating_sub(number),
    }
}

/// The end of a part that begins here.
fn end_of(length: Option<Reach>, start: usize, size: usize) -> usize
    requires { start ≤ size }
    ensures end { result ≡ parts.end_of length start size }
    ensures after { start ≤ result }
    ensures within { result ≤ size }
{
    match length {
        None => size,
        Some(Reach::Ahead(number)) => start.saturating_add(number).min(size),
        Some(Reach::Back(number)) => size.saturating_sub(number).max(start),
    }
}

/// The requested part of a value.
pub(crate) fn part(value: &[u8], asked: Selection) -> &[u8]
    ensures { result.now ≡ parts.part asked value.now }
{
    match asked {
        Selection::Whole => value,
        Selection::Part(offset, length) => {
            let start = start_of(offset, value.len());
            let end = end_of(length, start, value.len());
            &value[start..end]
        }
        Selection::Nothing => b"",
    }
}
