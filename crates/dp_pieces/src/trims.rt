//! Pieces of a text without the blanks at its ends.
ghost use Rattle.std.specs.Prelude.{◌≡◌, ◌∷◌, IfOk, MatchOption, None, Some};
ghost use Rattle.dp_pieces.specs.Bytes.{has_blank};
ghost use Rattle.dp_pieces.specs.Pieces.{AnyOf};
ghost use Rattle.dp_pieces.specs.Sets.{set_by};
ghost use Rattle.dp_pieces.specs.Shown.{shown_piece, shown_all};
ghost use Rattle.dp_pieces.specs.Trimmed as trims;
ghost use Rattle.dp_pieces.specs.steps.Softened.{blank_of, losing_set, soft_piece, start_by, without_blanks, without_last};

use crate::byte_set::ByteSet;
use crate::piece::{Piece, add_pieces};
use dp_conf::{NoMemory, is_blank};
use std::alloc::Global;

/// The pieces from the first one that is not a known blank.
fn skip_blanks(pieces: &[Piece]) -> &[Piece]
    ensures { shown_all result.now ≡ without_blanks (shown_all pieces.now) }
{
    let mut left = pieces;
    while let Some((first, rest)) = left.split_first() {
        if !is_known_blank(first) {
            break;
        }
        left = rest;
    }
    left
}

/// Whether the piece is a known blank.
fn is_known_blank(piece: &Piece) -> bool
    ensures { result ≡ blank_of (shown_piece piece.now) }
{
    match piece.byte() {
        Some(byte) => is_blank(byte),
        None => false,
    }
}

/// Whether no text of these pieces begins with a blank. An empty text does not begin with one.
fn starts_kept(pieces: &[Piece]) -> bool
    ensures { result ≡ trims.starts_kept (shown_all pieces.now) }
{
    let mut left = pieces;
    while let Some((first, rest)) = left.split_first() {
        match first {
            Piece::Known(byte) => return !is_blank(*byte),
            Piece::OneOf(set) => return !set.has_blank(),
            Piece::AnyOf(set) => {
                if set.has_blank() {
                    return false;
                }
                left = rest;
            }
        }
    }
    true
}

/// The bytes of a piece that may lose blanks at the start: any number of bytes, or one byte that may be a blank.
fn losing(piece: &Piece) -> Option<ByteSet>
    ensures { MatchOption result (losing_set (shown_piece piece.now) ≡ None) (λ set. losing_set (shown_piece piece.now) ≡ Some (set_by set)) }
{
    match piece {
        Piece::Known(_) => None,
        Piece::OneOf(set) => { if set.has_blank() { Some(*set) } else { None } }
        Piece::AnyOf(set) => Some(*set),
    }
}

/// Any number of bytes of the set, before these pieces.
fn any_before(alloc: Global, set: ByteSet, pieces: &[Piece]) -> Result<Vec<Piece>, NoMemory>
    ensures { IfOk result (λ all. shown_all all.items ≡ AnyOf (set_by set) ∷ shown_all pieces.now) }
{
    let mut all = Vec::new(alloc);
    all.push(Piece::AnyOf(set))?;
    all.extend_from_slice(pieces)?;
    Ok(all)
}

/// Any number of bytes of the set, before these pieces; if these may lose blanks too, any number of bytes of all.
fn loose_front(alloc: Global, set: ByteSet, pieces: &[Piece]) -> Result<Vec<Piece>, NoMemory>
    ensures { IfOk result (λ loose. shown_all loose.items ≡ trims.loose_front (set_by set) (shown_all pieces.now)) }
{
    if starts_kept(pieces) {
        return any_before(alloc, set, pieces);
    }
    let mut all = set;
    add_pieces(&mut all, pieces);
    let loose = any_before(alloc, all, &[])?;
    Ok(loose)
}

/// The replacement for pieces whose first one is not a known blank, without the blanks at the start, or None if they are unchanged.
fn loose_start(alloc: Global, pieces: &[Piece]) -> Result<Option<Vec<Piece>>, NoMemory>
    ensures { IfOk result (λ loose. MatchOption loose (start_by (shown_all pieces.now) ≡ shown_all pieces.now)
        (λ all. start_by (shown_all pieces.now) ≡ shown_all all.items)) }
{
    if let Some((first, rest)) = pieces.split_first() {
        if let Some(set) = losing(first) {
            let all = loose_front(alloc, set, rest)?;
            return Ok(Some(all));
        }
    }
    Ok(None)
}

/// A piece before others that may all lose their blanks.
fn soften(piece: Piece) -> Piece
    ensures { shown_piece result ≡ soft_piece (shown_piece piece) }
{
    match piece {
        Piece::Known(byte) => {
            if is_blank(byte) {
                Piece::AnyOf(ByteSet::of(byte))
            } else {
                piece
            }
        }
        Piece::OneOf(set) => {
            if set.has_blank() {
                Piece::AnyOf(set)
            } else {
                piece
            }
        }
        Piece::AnyOf(_) => piece,
    }
}

/// The pieces up to the last one that is not a known blank.
fn skip_last(pieces: &[Piece]) -> &[Piece]
    ensures { shown_all result.now ≡ without_last (shown_all pieces.now) }
{
    let mut left = pieces;
    while let Some((last, front)) = left.split_last() {
        if !is_known_blank(last) {
            break;
        }
        left = front;
    }
    left
}

/// The pieces without the blanks at the end.
fn trimmed_end(alloc: Global, pieces: &[Piece]) -> Result<Vec<Piece>, NoMemory>
    ensures { IfOk result (λ kept. shown_all kept.items ≡ trims.trimmed_end (shown_all pieces.now)) }
{
    let left = skip_last(pieces);
    let mut kept = Vec::with_capacity(alloc, left.len())?;
    for piece in left {
        kept.push(soften(*piece))?;
    }
    Ok(kept)
}

/// The pieces of a text without the blanks at both ends. It fails only if memory runs out.
pub fn trim_pieces(alloc: Global, pieces: &[Piece]) -> Result<Vec<Piece>, NoMemory>
    ensures { IfOk result (λ kept. shown_all kept.items ≡ trims.without_end_blanks (shown_all pieces.now)) }
{
    let left = skip_blanks(pieces);
    let loose = loose_start(alloc, left)?;
    match loose {
        Some(start) => trimmed_end(alloc, &start),
        None => trimmed_end(alloc, left),
    }
}
