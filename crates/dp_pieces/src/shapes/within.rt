//! Shapes whose texts all have another shape.
ghost use Rattle.std.specs.Prelude.{◌≡◌, ℕ, List, ◌∷◌, IfSome, IsTrue};
ghost use Rattle.dp_pieces.specs.Pieces.{Fits, any_bytes_of};
ghost use Rattle.dp_pieces.specs.Sets.{set_by};
ghost use Rattle.dp_pieces.specs.ShapeSteps.{IsWithinPiece};
ghost use Rattle.dp_pieces.specs.Shown.{shown_piece, shown_all};

use crate::byte_set::ByteSet;
use crate::piece::{Piece, bytes_of};
use crate::shapes::length::skip_nothing;

/// Whether each text of the one piece is one of the other, where both have one byte or both any number.
fn is_within_piece(piece: &Piece, wide: &Piece) -> bool
    ensures { IsTrue result → IsWithinPiece (shown_piece piece.now) (shown_piece wide.now) }
{
    match (piece, wide) {
        (Piece::Known(byte), Piece::Known(other)) => byte == other,
        (Piece::Known(byte), Piece::OneOf(set)) => set.has(*byte),
        (Piece::OneOf(set), Piece::OneOf(more)) => set.is_part(more),
        (Piece::AnyOf(set), Piece::AnyOf(more)) => set.is_part(more),
        (Piece::Known(_), Piece::AnyOf(_))
        | (Piece::OneOf(_), Piece::Known(_) | Piece::AnyOf(_))
        | (Piece::AnyOf(_), Piece::Known(_) | Piece::OneOf(_)) => false,
    }
}

/// The set of a shape with any number of bytes of a single set, given its first piece and those after it.
fn only_set<'a>(first: &'a Piece, after: &[Piece]) -> Option<&'a ByteSet>
    ensures { IfSome result (λ set. shown_all (first.now ∷ after.now) ≡ any_bytes_of (set_by set.now)) }
{
    match (first, after) {
        (Piece::AnyOf(set), []) => Some(set),
        _ => None,
    }
}

/// Whether each text of the one shape is seen to have the other shape: if it returns true each does.
pub fn is_within(pieces: &[Piece], other: &[Piece]) -> bool
    ensures { IsTrue result → (text : List ℕ) → Fits (shown_all pieces.now) text → Fits (shown_all other.now) text }
{
    let mut left = pieces;
    let mut right = skip_nothing(other);
    while let Some((wide, more)) = right.split_first() {
        let more = skip_nothing(more);
        if let Some(set) = only_set(wide, more) {
            return bytes_of(left).is_part(set);
        }
        let Some((piece, later)) = skip_nothing(left).split_first() else {
            return false;
        };
        if !is_within_piece(piece, wide) {
            return false;
        }
        left = later;
        right = more;
    }
    skip_nothing(left).is_empty()
}
