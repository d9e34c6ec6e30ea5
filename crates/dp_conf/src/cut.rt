//! Cutting a text: trimming its blanks, and cutting it at a byte, into lines, and into arguments.
ghost use Rattle.std.specs.Prelude.{◌≡◌, ◌+◌, ◌^◌, ◌<◌, IfOk, IfSome, MatchOption, Some, None, [], ◌∷◌, length, map};
ghost use Rattle.std.specs.Option.{option_map};
ghost use Rattle.dp_conf.specs.Blanks as blanks;
ghost use Rattle.dp_conf.specs.Cut as cuts;
ghost use Rattle.dp_conf.specs.Levels as levels;
ghost use Rattle.dp_conf.specs.Lines as lines;

use bstr::ByteSlice;
use std::alloc::{AllocError, Global};

/// Whether the byte is a blank: 32 or less, but not a line feed (a choice of this program).
pub fn is_blank(byte: u8) -> bool
    ensures { result ≡ blanks.is_blank byte }
{
    byte <= b' ' && byte != b'\n'
}

/// The text without the blanks at both ends. A blank is a byte of 32 or less other than a line feed.
#[inline(always)]
pub fn trim(text: &[u8]) -> &[u8]
    ensures { result.now ≡ blanks.trim text.now }
{
    trim_end(trim_start(text))
}

/// The text from its first byte that is not a blank.
#[inline(always)]
pub fn trim_start(text: &[u8]) -> &[u8]
    ensures { result.now ≡ blanks.trim_start text.now }
{
    let mut left = text;
    while let Some((first, rest)) = left.split_first() {
        if !is_blank(*first) {
            break;
        }
        left = rest;
    }
    left
}

/// The text up to its last byte that is not a blank.
#[inline(always)]
fn trim_end(text: &[u8]) -> &[u8]
    ensures { result.now ≡ blanks.trim_end text.now }
{
    let mut left = text;
    while let Some((last, front)) = left.split_last() {
        if !is_blank(*last) {
            break;
        }
        left = front;
    }
    left
}

/// The text before the first such byte and the text after it, or None if there is no such byte.
#[inline(always)]
pub fn cut_once(text: &[u8], byte: u8) -> Option<(&[u8], &[u8])>
    ensures { MatchOption result (cuts.cut_once byte text.now ≡ None)
        (λ cut. cuts.cut_once byte text.now ≡ Some (cut.0.now, cut.1.now)) }
{
    match text.find_byte(byte) {
        None => None,
        Some(at) => Some((&text[..at], &text[at + 1..])),
    }
}

/// The text before the last such byte, or None if there is no such byte.
pub fn before_last(text: &[u8], byte: u8) -> Option<&[u8]>
    ensures { option_map (λ front. front.now) result ≡ cuts.before_last byte text.now }
{
    let mut left = text;
    while let Some((last, front)) = left.split_last() {
        if *last == byte {
            return Some(front);
        }
        left = front;
    }
    None
}

/// The text up to the first line feed, and the text after it if there is one.
pub fn first_part(text: &[u8]) -> (&[u8], Option<&[u8]>)
    ensures parts { MatchOption result.1 (lines.parts_of text.now ≡ result.0.now ∷ [])
        (λ rest. lines.parts_of text.now ≡ result.0.now ∷ lines.parts_of rest.now) }
    ensures shorter { IfSome result.1 (λ rest. length rest.now < length text.now) }
{
    // An empty part needs no search.
    if let Some((b'\n', rest)) = text.split_first() {
        return (&text[..0], Some(rest));
    }
    match cut_once(text, b'\n') {
        None => (text, None),
        Some((part, rest)) => (part, Some(rest)),
    }
}

/// The level after a byte at this level.
fn next_level(level: usize, byte: u8) -> usize
    requires { level + 1 < 2 ^ 64 }
    ensures { result ≡ levels.next_level level byte }
{
    match byte {
        b'(' => level + 1,
        b')' => level.saturating_sub(1),
        _ => level,
    }
}

/// The text before the first such byte outside parentheses and the text after it, or None if there is no such byte.
///
/// A `)` without a `(` before it is plain (a choice of this program).
pub fn cut_outside(text: &[u8], byte: u8) -> Option<(&[u8], &[u8])>
    ensures cut { MatchOption result (levels.cut_outside byte text.now ≡ None)
        (λ cut. levels.cut_outside byte text.now ≡ Some (cut.0.now, cut.1.now)) }
    ensures shorter { IfSome result (λ cut. length cut.1.now < length text.now) }
{
    let mut level: usize = 0;
    for (at, other) in text.iter().enumerate() {
        if *other == byte && level == 0 {
            return Some((&text[..at], &text[at + 1..]));
        }
        level = next_level(level, *other);
    }
    None
}

/// The text up to its first comma outside parentheses, and the text after it if there is such a comma.
pub fn first_argument(text: &[u8]) -> (&[u8], Option<&[u8]>)
    ensures parts { MatchOption result.1 (levels.parts_of text.now ≡ result.0.now ∷ [])
        (λ rest. levels.parts_of text.now ≡ result.0.now ∷ levels.parts_of rest.now) }
    ensures shorter { IfSome result.1 (λ rest. length rest.now < length text.now) }
{
    match cut_outside(text, b',') {
        None => (text, None),
        Some((argument, rest)) => (argument, Some(rest)),
    }
}

/// The arguments of a text: its parts between commas outside parentheses, each without blanks at either end.
///
/// A `)` without a `(` before it is plain, and the empty text has one empty argument (choices of this program). It fails only if memory
/// runs out.
pub fn split_args(alloc: Global, text: &[u8]) -> Result<Vec<&[u8]>, AllocError>
    ensures { IfOk result (λ arguments. map (λ argument. argument.now) arguments.items
        ≡ levels.arguments_of text.now) }
{
    let mut arguments = Vec::new(alloc);
    let mut rest = Some(text);
    while let Some(left) = rest {
        let (argument, after) = first_argument(left);
        arguments.push(trim(argument))?;
        rest = after;
    }
    Ok(arguments)
}
