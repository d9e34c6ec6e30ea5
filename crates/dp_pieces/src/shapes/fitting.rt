//! Known texts and shapes.
ghost use Rattle.std.specs.Prelude.{IsFalse, IsTrue};
ghost use Rattle.dp_pieces.specs.Bytes.{Within};
ghost use Rattle.dp_pieces.specs.Pieces.{Fits};
ghost use Rattle.dp_pieces.specs.Sets.{set_by};
ghost use Rattle.dp_pieces.specs.Shown.{shown_all};

use crate::byte_set::ByteSet;
use crate::piece::{Piece, bytes_of};
use crate::shapes::length::is_any;

/// Whether the set contains each byte of the text.
fn has_all(set: &ByteSet, text: &[u8]) -> bool
    ensures { IsFalse result → Within (set_by set.now) text.now → ⊥ }
{
    for byte in text {
        if !set.has(*byte) {
            return false;
        }
    }
    true
}

/// Whether the last byte of the shape is known, and the text ends with another one. Names of contexts often begin alike, so this
/// distinguishes most of them at once.
fn ends_apart(pieces: &[Piece], text: &[u8]) -> bool
    ensures { IsTrue result → Fits (shown_all pieces.now) text.now → ⊥ }
{
    let Some((piece, _)) = pieces.split_last() else {
        return false;
    };
    let Some((last, _)) = text.split_last() else {
        return false;
    };
    match piece {
        Piece::Known(byte) => *byte != *last,
        Piece::OneOf(_) | Piece::AnyOf(_) => false,
    }
}

/// Whether the text may have this shape: if it returns false the text does not have it.
pub fn may_fit(pieces: &[Piece], text: &[u8]) -> bool
    ensures { IsFalse result → Fits (shown_all pieces.now) text.now → ⊥ }
{
    if ends_apart(pieces, text) {
        return false;
    }
    let mut left = pieces;
    let mut rest = text;
    while let Some((piece, later)) = left.split_first() {
        if is_any(piece) {
            return has_all(&bytes_of(left), rest);
        }
        let Some((byte, after)) = rest.split_first() else {
            return false;
        };
        if !piece.may_be(*byte) {
            return false;
        }
        left = later;
        rest = after;
    }
    rest.is_empty()
}
