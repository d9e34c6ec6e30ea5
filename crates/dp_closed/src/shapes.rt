//! At most two shapes: the sides of a choice, and the possible parts of a target.
ghost use Rattle.std.specs.Prelude.{◌≡◌};
ghost use Rattle.std.specs.Option.{option_map};
ghost use Rattle.dp_closed.specs.Steps.{shown_shapes};
ghost use Rattle.dp_pieces.specs.Arguments.{split_pieces};
ghost use Rattle.dp_pieces.specs.Cuts.{cut_level};
ghost use Rattle.dp_pieces.specs.Shown.{shown_all};
ghost use Rattle.dp_reach.specs.Areas as areas;
ghost use Rattle.dp_reach.specs.Choices as choices;

use dp_pieces::{Cutting, Piece, cut_level, cut_pieces, first_part};

/// No shape, one, or two.
#[derive(Clone, Copy)]
pub(crate) enum Shapes<'a> {
    Nothing,
    One(&'a [Piece]),
    Two(&'a [Piece], &'a [Piece]),
}

/// Whether a text of this shape may be empty.
fn may_be_empty(pieces: &[Piece]) -> bool
    ensures { result ≡ areas.may_be_empty (shown_all pieces.now) }
{
    for piece in pieces {
        match piece {
            Piece::Known(_) | Piece::OneOf(_) => return false,
            Piece::AnyOf(_) => (),
        }
    }
    true
}

/// The possible values of a part of a target: itself, or the channel's own if it is empty.
pub(crate) fn or_own<'a>(held: &'a [Piece], part: &'a [Piece]) -> Shapes<'a>
    ensures { shown_shapes result ≡ areas.or_own (shown_all held.now) (shown_all part.now) }
{
    if part.is_empty() {
        return Shapes::One(held);
    }
    if may_be_empty(part) {
        return Shapes::Two(part, held);
    }
    Shapes::One(part)
}

/// The sides of a choice, given the text after its `?`, or None if an unknown piece may separate them.
fn sides_by(rest: &[Piece]) -> Option<Shapes<'_>>
    ensures { option_map shown_shapes result ≡ choices.sides_by (shown_all rest.now) (cut_level 58 0 (shown_all rest.now)) }
{
    match cut_level(rest, b':') {
        Cutting::Nowhere => Some(Shapes::One(rest)),
        Cutting::Unsure => None,
        Cutting::At(first, second) => Some(Shapes::Two(first, second)),
    }
}

/// The sides of `CONDITION?SIDE:SIDE`, or None if they are unknown.
pub(crate) fn sides_in(pieces: &[Piece]) -> Option<Shapes<'_>>
    ensures { option_map shown_shapes result ≡ choices.sides_in (shown_all pieces.now) }
{
    match cut_pieces(pieces, b'?') {
        Cutting::Nowhere => Some(Shapes::Nothing),
        Cutting::Unsure => None,
        Cutting::At(_, rest) => sides_by(rest),
    }
}

/// The last of the parts between known commas outside parentheses.
pub(crate) fn last_part(pieces: &[Piece]) -> &[Piece]
    ensures { shown_all result.now ≡ choices.last_part (split_pieces 0 (shown_all pieces.now)) }
{
    let mut last = pieces;
    let mut rest = Some(pieces);
    while let Some(left) = rest {
        let (part, after) = first_part(left);
        last = part;
        rest = after;
    }
    last
}
