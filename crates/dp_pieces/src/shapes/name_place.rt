//! The places of a name, and the bytes allowed there.
ghost use Rattle.std.specs.Prelude.{◌≡◌, ℕ, [], ◌∷◌, IsFalse, IsTrue, MatchOption};
ghost use Rattle.dp_pattern.specs.Kept.{parts_meaning};
ghost use Rattle.dp_pattern.specs.Walk.{classes_of, tail_of};
ghost use Rattle.dp_pieces.specs.Bytes.{IsPart, both};
ghost use Rattle.dp_pieces.specs.Pieces.{bytes_in, piece_set};
ghost use Rattle.dp_pieces.specs.Sets.{set_by};
ghost use Rattle.dp_pieces.specs.ShapeSteps.{AreBytes, Lacks, class_at};
ghost use Rattle.dp_pieces.specs.Shown.{shown_piece};

use crate::byte_set::ByteSet;
use crate::piece::Piece;
use crate::shapes::sets::is_none;
use dp_pattern::{Class, Parts, Tail};

/// A place of a name: a byte of a plain name, or a class.
#[derive(Clone, Copy)]
pub(crate) enum NamePlace<'a> {
    Byte(u8),
    Class(&'a Class),
}

impl NamePlace<'_> {
    /// Whether the byte is allowed there.
    pub(crate) fn has(self, byte: u8) -> bool
        ensures { result ≡ bytes_in (class_at self.entry) byte }
    {
        match self {
            NamePlace::Byte(only) => only == byte,
            NamePlace::Class(class) => class.has(byte),
        }
    }
}

/// The first place of a name, and the rest of the name.
pub(crate) fn next_place<'a>(parts: Parts<'a>) -> Option<(NamePlace<'a>, Parts<'a>)>
    ensures { MatchOption result (classes_of (parts_meaning parts.entry) ≡ [])
        (λ x. (classes_of (parts_meaning parts.entry) ≡ class_at x.0 ∷ classes_of (parts_meaning x.1))
        × (tail_of (parts_meaning x.1) ≡ tail_of (parts_meaning parts.entry))) }
{
    match parts {
        Parts::Plain(plain) => match plain.split_first() {
            None => None,
            Some((byte, after)) => Some((NamePlace::Byte(*byte), Parts::Plain(after))),
        },
        Parts::Pattern(classes, tail) => match classes.split_first() {
            None => None,
            Some((class, after)) => Some((NamePlace::Class(class), Parts::Pattern(after, tail))),
        },
    }
}

/// The tail of a name.
pub(crate) fn tail_of(parts: Parts<'_>) -> Tail
    ensures { result ≡ tail_of (parts_meaning parts.entry) }
{
    match parts {
        Parts::Plain(_) => Tail::End,
        Parts::Pattern(_, tail) => tail,
    }
}

/// The set of the bytes that are allowed at the place.
fn set_at(place: NamePlace<'_>) -> ByteSet
    requires { AreBytes (class_at place) }
    ensures { (b : ℕ) → set_by result b ≡ bytes_in (class_at place.entry) b }
{
    match place {
        NamePlace::Byte(only) => ByteSet::of(only),
        NamePlace::Class(class) => ByteSet::of_words(class.words()),
    }
}

/// The bytes of the set that are allowed at the place.
pub(crate) fn meet(set: &ByteSet, place: NamePlace<'_>) -> ByteSet
    requires { AreBytes (class_at place) }
    ensures { (b : ℕ) → set_by result b ≡ both (set_by set.now) (bytes_in (class_at place.entry)) b }
{
    set.common(&set_at(place))
}

/// Whether a byte of the set is allowed at the place.
pub(crate) fn may_stand(set: &ByteSet, place: NamePlace<'_>) -> bool
    requires { AreBytes (class_at place) }
    ensures { IsFalse result → Lacks (set_by set.now) (class_at place.entry) }
{
    !is_none(&meet(set, place))
}

/// Whether a byte of the piece is allowed at the place.
pub(crate) fn may_be(piece: &Piece, place: NamePlace<'_>) -> bool
    requires { AreBytes (class_at place) }
    ensures { IsFalse result → Lacks (piece_set (shown_piece piece.now)) (class_at place.entry) }
{
    match piece {
        Piece::Known(byte) => place.has(*byte),
        Piece::OneOf(set) | Piece::AnyOf(set) => may_stand(set, place),
    }
}

/// Whether each byte of the set is allowed at the place.
pub(crate) fn all_stand(set: &ByteSet, place: NamePlace<'_>) -> bool
    requires { AreBytes (class_at place) }
    ensures { IsTrue result → IsPart (set_by set.now) (bytes_in (class_at place.entry)) }
{
    set.is_part(&meet(set, place))
}

/// Whether each byte of the piece is allowed at the place.
pub(crate) fn all_be(piece: &Piece, place: NamePlace<'_>) -> bool
    requires { AreBytes (class_at place) }
    ensures { IsTrue result → IsPart (piece_set (shown_piece piece.now)) (bytes_in (class_at place.entry)) }
{
    match piece {
        Piece::Known(byte) => place.has(*byte),
        Piece::OneOf(set) | Piece::AnyOf(set) => all_stand(set, place),
    }
}
