//! Reading a text as a name, piece by piece.
ghost use Rattle.std.specs.Prelude.{◌≡◌, ◌<◌, ◌≤◌, ◌+◌, ◌∷◌, [], Ok, Err, false, length, MatchOption, MatchResult, IfOk, IfSome};
ghost use Rattle.std.specs.List.{list_all, list_any, position};
ghost use Rattle.dp_pattern.specs.Dashes.{without_dashes, is_dash};
ghost use Rattle.dp_pattern.specs.Name.{pieces_of, pieces_after, piece_of, set_piece, set_size, is_end, parts_of, pattern_reading, is_bad, plain_of, meaning_of, IsReason};
ghost use Rattle.dp_pattern.specs.Kept.{kept_meaning, cut_piece, is_class, class_count};

use crate::class::{Class, class_of, class_of_set, is_bad};
use crate::dashes::from_first;
use crate::fault::{NameFault, PatternFault};
use crate::name::Kind;
use crate::tail::Tail;
use arrayvec::ArrayVec;
use std::alloc::{AllocError, Global};

/// A piece of the text of a pattern.
#[derive(Clone, Copy)]
enum PatternPiece<'a> {
    Dash,
    Wild(Tail),
    Byte(u8),
    Set(&'a [u8]),
    Unclosed,
}

// The place of the first `]`.
fn place_of_end(text: &[u8]) -> Option<usize>
    ensures { result ≡ position is_end text.now }
{
    text.iter().position(|b| *b == b']')
}

// The set in the text after a `[`, and the text after the set.
fn set_at(text: &[u8]) -> (PatternPiece<'_>, &[u8])
    ensures piece { cut_piece result.0 ≡ set_piece (position is_end text.now) text.now }
    ensures after { pieces_of result.1.now
        ≡ pieces_after (set_size (position is_end text.now) text.now) text.now }
    ensures shorter { length result.1.now ≤ length text.now }
{
    match place_of_end(text) {
        Some(n) => (PatternPiece::Set(&text[..n]), &text[n + 1..]),
        None => (PatternPiece::Unclosed, &text[text.len()..]),
    }
}

// The first piece of the text, and the text after it.
fn first_piece(text: &[u8]) -> Option<(PatternPiece<'_>, &[u8])>
    ensures { MatchOption result (text.now ≡ [])
        (λ x. (pieces_of text.now ≡ cut_piece x.0 ∷ pieces_of x.1.now)
        × (length x.1.now < length text.now)) }
{
    let (byte, after) = text.split_first()?;
    let piece = match *byte {
        b'[' => return Some(set_at(after)),
        b'-' => PatternPiece::Dash,
        b'.' => PatternPiece::Wild(Tail::Dot),
        b'!' => PatternPiece::Wild(Tail::Bang),
        byte => PatternPiece::Byte(byte),
    };
    Some((piece, after))
}

// Whether the rest consists of dashes.
fn only_dashes(text: &[u8]) -> bool
    ensures { result ≡ list_all is_dash text.now }
{
    text.iter().all(|b| *b == b'-')
}

// Whether the piece is a class.
fn is_class(piece: PatternPiece<'_>) -> bool
    ensures { result ≡ is_class (cut_piece piece.entry) }
{
    match piece {
        PatternPiece::Byte(_) | PatternPiece::Set(_) => true,
        PatternPiece::Dash | PatternPiece::Wild(_) | PatternPiece::Unclosed => false,
    }
}

// The number of classes in the text.
fn class_count(text: &[u8]) -> usize
    ensures { result ≡ class_count (pieces_of text.now) }
{
    let mut count = 0;
    let mut rest = text;
    while let Some((piece, after)) = first_piece(rest) {
        if is_class(piece) {
            count += 1;
        }
        rest = after;
    }
    count
}

// The classes and the tail of a pattern.
fn read_parts(alloc: Global, text: &[u8]) -> Result<(Vec<Class>, Tail), PatternFault>
    ensures { MatchResult result (λ x. parts_of (pieces_of text.now) ≡ Ok (x.0.items, x.1))
        (λ fault. IsReason fault (parts_of (pieces_of text.now))) }
{
    let mut classes = Vec::with_capacity(alloc, class_count(text))?;
    let mut rest = text;
    while let Some((piece, after)) = first_piece(rest) {
        match piece {
            PatternPiece::Dash => {}
            PatternPiece::Wild(tail) if only_dashes(after) => return Ok((classes, tail)),
            PatternPiece::Wild(_) => return Err(PatternFault::Name(NameFault::AfterWildcard)),
            PatternPiece::Byte(byte) => classes.push(class_of(byte)?)?,
            PatternPiece::Set(bytes) => classes.push(class_of_set(alloc, bytes)?)?,
            PatternPiece::Unclosed => return Err(PatternFault::Name(NameFault::OpenSet)),
        }
        rest = after;
    }
    Ok((classes, Tail::End))
}

// The pattern that the text spells.
fn read_pattern(alloc: Global, text: &[u8]) -> Result<Kind, PatternFault>
    ensures { MatchResult result (λ kind. pattern_reading text.now ≡ Ok (kept_meaning kind))
        (λ fault. IsReason fault (pattern_reading text.now)) }
{
    let (classes, tail) = read_parts(alloc, text)?;
    if classes.is_empty() && tail == Tail::End {
        return Err(PatternFault::Name(NameFault::EmptyName));
    }
    Ok(Kind::Pattern(tail, classes))
}

// The text without its dashes, if it is short and names may contain each of its bytes.
fn short_of(text: &[u8]) -> Option<ArrayVec<u8, 16>>
    ensures kept { IfSome result (λ kept. kept.items ≡ without_dashes text.now) }
    ensures fine { IfSome result (λ _. list_any is_bad text.now ≡ false) }
{
    let mut kept = ArrayVec::new();
    for byte in text {
        if is_bad(*byte) {
            return None;
        }
        if *byte != b'-' {
            kept.try_push(*byte).ok()?;
        }
    }
    Some(kept)
}

// The text without its dashes.
fn without_dashes(alloc: Global, text: &[u8]) -> Result<Vec<u8>, AllocError>
    ensures { IfOk result (λ kept. kept.items ≡ without_dashes text.now) }
{
    let mut kept: Vec<u8> = text.iter().copied().filter(|b| *b != b'-').collect(alloc)?;
    kept.shrink_to_fit();
    Ok(kept)
}

// Whether the text contains a byte that no name may contain.
fn has_bad(text: &[u8]) -> bool
    ensures { result ≡ list_any is_bad text.now }
{
    text.iter().any(|b| is_bad(*b))
}

// The plain name that the text spells. A short one is read in a single pass.
fn read_plain(alloc: Global, text: &[u8]) -> Result<Kind, PatternFault>
    ensures { MatchResult result (λ kind. plain_of text.now ≡ Ok (kept_meaning kind))
        (λ fault. IsReason fault (plain_of text.now)) }
{
    if let Some(kept) = short_of(text) {
        return Ok(Kind::Short(kept));
    }
    if has_bad(text) {
        return Err(PatternFault::Name(NameFault::BadByte));
    }
    let kept = without_dashes(alloc, text)?;
    Ok(Kind::Plain(kept))
}

/// The kept form of the name that the text spells.
#[tactic(auto, unfolding(crate::specs::Name::meaning_of))]
pub(crate) fn read_kind(alloc: Global, text: &[u8]) -> Result<Kind, PatternFault>
    ensures { MatchResult result (λ kind. meaning_of text.now ≡ Ok (kept_meaning kind))
        (λ fault. IsReason fault (meaning_of text.now)) }
{
    let named = from_first(text);
    match named.split_first() {
        None => Err(PatternFault::Name(NameFault::EmptyName)),
        Some((b'_', after)) => read_pattern(alloc, after),
        Some(_) => read_plain(alloc, named),
    }
}
