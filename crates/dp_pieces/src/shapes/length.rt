//! The lengths of texts of pieces.
ghost use Rattle.std.specs.Prelude.{◌≡◌, ◌≤◌, IsTrue, length};
ghost use Rattle.dp_pieces.specs.ShapeSteps.{AreTextsOf, IsNothing, is_any, least_of};
ghost use Rattle.dp_pieces.specs.Shown.{shown_piece, shown_all};

use crate::piece::Piece;
use crate::shapes::sets::is_none;

/// Whether the piece has any number of bytes of a set, rather than one.
pub(crate) fn is_any(piece: &Piece) -> bool
    ensures { result ≡ is_any (shown_piece piece.now) }
{
    match piece {
        Piece::Known(_) | Piece::OneOf(_) => false,
        Piece::AnyOf(_) => true,
    }
}

/// The smallest number of bytes in a text of the pieces.
pub(crate) fn least_of(pieces: &[Piece]) -> usize
    ensures { result ≡ least_of (shown_all pieces.now) }
{
    let mut least = 0;
    for piece in pieces {
        if !is_any(piece) {
            least += 1;
        }
    }
    least
}

/// Whether the piece has any number of bytes of the empty set.
fn is_nothing(piece: &Piece) -> bool
    ensures { IsTrue result → IsNothing (shown_piece piece.now) }
{
    match piece {
        Piece::Known(_) | Piece::OneOf(_) => false,
        Piece::AnyOf(set) => is_none(set),
    }
}

/// The pieces without the first ones that have any number of bytes of the empty set.
pub(crate) fn skip_nothing(pieces: &[Piece]) -> &[Piece]
    ensures same { AreTextsOf (shown_all result.now) (shown_all pieces.now) }
    ensures shorter { length result.now ≤ length pieces.now }
{
    let mut left = pieces;
    while let Some((piece, after)) = left.split_first() {
        if !is_nothing(piece) {
            break;
        }
        left = after;
    }
    left
}
