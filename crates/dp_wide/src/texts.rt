//! Texts that are cut into fields, reduced to some of their bytes, or changed in case, after the Asterisk documentation's pages on the
//! functions `CUT`, `FIELDQTY`, `FILTER`, `TOUPPER` and `TOLOWER`.
ghost use Rattle.std.specs.Prelude.{◌≡◌, ◌+◌, ◌++◌, ◌<◌, ◌^◌, ◌==◌, ◌∷◌, [], IfOk, IfSome, MatchOption, None, OnOk, length, map};
ghost use Rattle.std.specs.Char.{to_ascii_lowercase, to_ascii_uppercase};
ghost use Rattle.std.specs.List.{flat_map, join_with_byte, list_any};
ghost use Rattle.std.specs.Option.{option_map};
ghost use Rattle.dp_wide.specs.Texts as spec;
ghost use Rattle.dp_wide.specs.steps.Far.{at_most, range_at_most};

use dp_conf::{NoMemory, cut_once, read_number};
use std::alloc::Global;

/// Fields, by number: from the first to the last, or to the end.
#[derive(Clone, Copy)]
struct FieldRange {
    first: u64,
    last: Option<u64>,
}

/// Bytes from the first to the last.
#[derive(Clone, Copy)]
struct ByteRange {
    first: u8,
    last: u8,
}

/// The byte at which a value is cut: the first byte of the text, where `\,` is a comma. An empty text means `-`, after the Asterisk
/// documentation's page on the function `CUT`.
///
/// A text that begins with `\,` means a comma, whatever follows. This is a choice of this program.
pub fn delimiter_of(text: &[u8]) -> u8
    ensures { result ≡ spec.delimiter_of text.now }
{
    match text {
        [] => b'-',
        [b'\\', b',', ..] => b',',
        [first, ..] => *first,
    }
}

/// The number of fields of a value that is cut at each such byte, after the Asterisk documentation's page on the function `FIELDQTY`: 0 if
/// the value is empty.
pub fn field_count(value: &[u8], delimiter: u8) -> usize
    ensures { result ≡ spec.field_count delimiter value.now }
{
    if value.is_empty() {
        return 0;
    }
    value.iter().filter(|byte| **byte == delimiter).count() + 1
}

/// The first field of a range; an empty text means the first of all.
fn read_first(text: &[u8]) -> Option<u64>
    ensures { result ≡ option_map at_most (spec.first_of text.now) }
{
    if text.is_empty() {
        return Some(1);
    }
    read_number(text)
}

/// The last field of a range; an empty text means that it has none.
fn read_last(text: &[u8]) -> Option<Option<u64>>
    ensures { result ≡ option_map (option_map at_most) (spec.last_of text.now) }
{
    if text.is_empty() {
        return Some(None);
    }
    match read_number(text) {
        Some(number) => Some(Some(number)),
        None => None,
    }
}

/// The fields from a first one to a last one.
fn range_from(first: Option<u64>, last: Option<Option<u64>>) -> Option<FieldRange>
    ensures { result ≡ spec.range_from first last }
{
    match (first, last) {
        (Some(first), Some(last)) => Some(FieldRange { first, last }),
        _ => None,
    }
}

/// The fields between two ends, one of which may be empty.
fn read_between(first: &[u8], last: &[u8]) -> Option<FieldRange>
    ensures { result ≡ option_map range_at_most (spec.range_between first.now last.now) }
{
    if first.is_empty() && last.is_empty() {
        return None;
    }
    range_from(read_first(first), read_last(last))
}

/// One field alone.
fn read_one(text: &[u8]) -> Option<FieldRange>
    ensures { result ≡ option_map range_at_most (spec.range_of_cut text.now None) }
{
    match read_number(text) {
        Some(number) => Some(FieldRange {
            first: number,
            last: Some(number),
        }),
        None => None,
    }
}

/// The fields that `3`, `2-4`, `-3` or `2-` names.
fn read_range(text: &[u8]) -> Option<FieldRange>
    ensures { result ≡ option_map range_at_most (spec.range_of text.now) }
{
    match cut_once(text, b'-') {
        None => read_one(text),
        Some((first, last)) => read_between(first, last),
    }
}

/// Whether the range has the field with this number.
fn has_field(range: FieldRange, number: u64) -> bool
    ensures { result ≡ spec.has_field number range }
{
    match range.last {
        None => range.first <= number,
        Some(last) => range.first <= number && number <= last,
    }
}

/// Whether the text names a range that has the field with this number. No value has so many fields that one has the greatest number.
fn writes_field(text: &[u8], number: u64) -> bool
    ensures { number + 1 < 2 ^ 64 → result ≡ spec.writes_field number text.now }
{
    match read_range(text) {
        None => false,
        Some(range) => has_field(range, number),
    }
}

/// Whether one of the ranges between `&` has the field with this number.
fn is_chosen(fields: &[u8], number: u64) -> bool
    ensures { number + 1 < 2 ^ 64 → result ≡ spec.is_chosen fields.now number }
{
    fields
        .split(|byte| *byte == b'&')
        .any(|part| writes_field(part, number))
}

/// Whether every part between `&` is a range.
fn are_ranges(fields: &[u8]) -> bool
    ensures { result ≡ spec.are_ranges fields.now }
{
    fields
        .split(|byte| *byte == b'&')
        .all(|part| read_range(part).is_some())
}

/// The text before the first such byte, and the text after it, if there is one.
fn first_part(text: &[u8], delimiter: u8) -> (&[u8], Option<&[u8]>)
    ensures parts { MatchOption result.1 (spec.parts_of delimiter text.now ≡ result.0.now ∷ [])
        (λ rest. spec.parts_of delimiter text.now ≡ result.0.now ∷ spec.parts_of delimiter rest.now) }
    ensures shorter { IfSome result.1 (λ rest. length rest.now < length text.now) }
{
    match cut_once(text, delimiter) {
        None => (text, None),
        Some((part, rest)) => (part, Some(rest)),
    }
}

/// The chosen fields of a value, in their own order. The choice is read again for each field, so that nothing of it has to be kept.
fn chosen_fields<'a>(
    alloc: Global,
    value: &'a [u8],
    delimiter: u8,
    fields: &[u8],
) -> Result<Vec<&'a [u8]>, NoMemory>
    ensures { IfOk result (λ chosen. map (λ field. field.now) chosen.items
        ≡ spec.chosen_from 1 fields.now (spec.parts_of delimiter value.now)) }
{
    let mut chosen = Vec::new(alloc);
    let mut number: u64 = 1;
    let mut left = Some(value);
    while let Some(now) = left {
        let (field, rest) = first_part(now, delimiter);
        let is_wanted = is_chosen(fields, number);
        number += 1;
        left = rest;
        if is_wanted {
            chosen.push(field)?;
        }
    }
    Ok(chosen)
}

/// Adds each part, with the byte before it.
fn push_each(joined: &mut Vec<u8>, parts: &[&[u8]], delimiter: u8) -> Result<(), NoMemory>
    ensures { OnOk result (joined.new.items ≡ joined.old.items ++ flat_map (λ part. delimiter ∷ part.now) parts.now) }
{
    for part in parts {
        joined.push(delimiter)?;
        joined.extend_from_slice(part)?;
    }
    Ok(())
}

/// The parts in order, with the byte between them.
fn join(alloc: Global, parts: &[&[u8]], delimiter: u8) -> Result<Vec<u8>, NoMemory>
    ensures { IfOk result (λ joined. joined.items ≡ join_with_byte delimiter (map (λ part. part.now) parts.now)) }
{
    let Some((first, rest)) = parts.split_first() else {
        return Ok(Vec::new(alloc));
    };
    let mut joined = Vec::from_slice(alloc, first)?;
    push_each(&mut joined, rest, delimiter)?;
    Ok(joined)
}

/// The chosen fields of a value that is cut at each such byte, with that byte between them, after the Asterisk documentation's page on the
/// function `CUT`.
///
/// The choice is one or more ranges, separated by `&`: `3`, `2-4`, `-3` or `2-`, counted from 1. A field is given once, in its own place,
/// however often it is chosen. If a part is no such range the result is empty (a choice of this program).
#[tactic(auto, unfolding(crate::specs::Texts::cut_fields))]
pub fn cut_fields(
    alloc: Global,
    value: &[u8],
    delimiter: u8,
    fields: &[u8],
) -> Result<Vec<u8>, NoMemory>
    ensures { IfOk result (λ chosen. chosen.items ≡ spec.cut_fields value.now delimiter fields.now) }
{
    if !are_ranges(fields) {
        return Ok(Vec::new(alloc));
    }
    let chosen = chosen_fields(alloc, value, delimiter, fields)?;
    join(alloc, &chosen, delimiter)
}

/// The first range of a set, and the rest.
fn first_range(set: &[u8]) -> Option<(ByteRange, &[u8])>
    ensures ranges { MatchOption result (spec.byte_ranges set.now ≡ [])
        (λ found. spec.byte_ranges set.now ≡ found.0 ∷ spec.byte_ranges found.1.now) }
    ensures shorter { IfSome result (λ found. length found.1.now < length set.now) }
{
    match set {
        [] => None,
        [first, b'-', last, rest @ ..] => Some((
            ByteRange {
                first: *first,
                last: *last,
            },
            rest,
        )),
        [byte, rest @ ..] => Some((
            ByteRange {
                first: *byte,
                last: *byte,
            },
            rest,
        )),
    }
}

/// Whether a byte is in a range.
fn has_byte(range: ByteRange, byte: u8) -> bool
    ensures { result ≡ spec.has_byte byte range }
{
    range.first <= byte && byte <= range.last
}

/// Whether a set has a byte.
fn is_in_set(set: &[u8], byte: u8) -> bool
    ensures { result ≡ list_any (spec.has_byte byte) (spec.byte_ranges set.now) }
{
    let mut left = set;
    while let Some((range, rest)) = first_range(left) {
        if has_byte(range, byte) {
            return true;
        }
        left = rest;
    }
    false
}

/// The bytes of a text that are in a set, after the Asterisk documentation's page on the function `FILTER`.
///
/// In a set `a-b` is a range of bytes that includes both ends; it is empty if they are in the wrong order. A `-` at either end of the set
/// means itself. Ranges are read from the start, so `+--` is one range, which ends with the `-` (a choice of this program).
pub fn filter(alloc: Global, set: &[u8], text: &[u8]) -> Result<Vec<u8>, NoMemory>
    ensures { IfOk result (λ kept. kept.items ≡ spec.kept_of set.now text.now) }
{
    text.iter()
        .copied()
        .filter(|byte| is_in_set(set, *byte))
        .collect(alloc)
}

/// A text with its ASCII letters in upper case, and everything else unchanged, after the Asterisk documentation's page on the function
/// `TOUPPER`.
pub fn to_upper(alloc: Global, text: &[u8]) -> Result<Vec<u8>, NoMemory>
    ensures { IfOk result (λ upper. upper.items ≡ map to_ascii_uppercase text.now) }
{
    text.iter()
        .map(|byte| byte.to_ascii_uppercase())
        .collect(alloc)
}

/// A text with its ASCII letters in lower case, and everything else unchanged, after the Asterisk documentation's page on the function
/// `TOLOWER`.
pub fn to_lower(alloc: Global, text: &[u8]) -> Result<Vec<u8>, NoMemory>
    ensures { IfOk result (λ lower. lower.items ≡ map to_ascii_lowercase text.now) }
{
    text.iter()
        .map(|byte| byte.to_ascii_lowercase())
        .collect(alloc)
}
