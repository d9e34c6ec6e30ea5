//! The duties of the applications that enter subroutines with the number of their arguments.
ghost use Rattle.std.specs.Prelude.{◌≡◌, ◌++◌, OnOk};
ghost use Rattle.std.specs.List.{flat_map};
ghost use Rattle.dp_closed.specs.Shown.{shown_area, shown_duties};
ghost use Rattle.dp_pieces.specs.Cuts.{cut_level};
ghost use Rattle.dp_pieces.specs.Pieces.{any_bytes_of, pieces_set};
ghost use Rattle.dp_pieces.specs.Shown.{shown_all};
ghost use Rattle.dp_reach.specs.Bounds.{sides_or};
ghost use Rattle.dp_reach.specs.Choices.{sides_by};
ghost use Rattle.dp_wide_reach.specs.Subroutines as spec;

use crate::held_bytes::push_digits;
use dp_closed::{KeptArea, KeptDuty, push_gosub, set_of};
use dp_conf::NoMemory;
use dp_pieces::{Cutting, Piece, cut_level, cut_pieces};
use std::alloc::Global;

/// Adds the duties of `Gosub`.
pub(crate) fn push_counted(
    alloc: Global,
    area: &KeptArea,
    pieces: &[Piece],
    duties: &mut Vec<KeptDuty>,
) -> Result<(), NoMemory>
    ensures { OnOk result (shown_duties duties.new.items
        ≡ shown_duties duties.old.items ++ spec.counted_duties (shown_area area.now) (shown_all pieces.now)) }
{
    push_digits(alloc, b"ARGC", duties)?;
    push_gosub(alloc, area, pieces, duties)
}

/// Adds the duties of `Gosub` with any text of the bytes of the pieces.
fn push_counted_any(
    alloc: Global,
    area: &KeptArea,
    pieces: &[Piece],
    duties: &mut Vec<KeptDuty>,
) -> Result<(), NoMemory>
    ensures { OnOk result (shown_duties duties.new.items ≡ shown_duties duties.old.items
        ++ spec.counted_duties (shown_area area.now) (any_bytes_of (pieces_set (shown_all pieces.now)))) }
{
    let any = [Piece::AnyOf(set_of(pieces))];
    push_counted(alloc, area, &any, duties)
}

/// Adds the duties of `Gosub` for each side of a choice, given its text after the `?`.
fn push_counted_sides(
    alloc: Global,
    area: &KeptArea,
    pieces: &[Piece],
    rest: &[Piece],
    duties: &mut Vec<KeptDuty>,
) -> Result<(), NoMemory>
    ensures { OnOk result (shown_duties duties.new.items ≡ shown_duties duties.old.items
        ++ flat_map (spec.counted_duties (shown_area area.now))
        (sides_or (pieces_set (shown_all pieces.now)) (sides_by (shown_all rest.now) (cut_level 58 0 (shown_all rest.now))))) }
{
    match cut_level(rest, b':') {
        Cutting::Nowhere => push_counted(alloc, area, rest, duties),
        Cutting::Unsure => push_counted_any(alloc, area, pieces, duties),
        Cutting::At(first, second) => {
            push_counted(alloc, area, first, duties)?;
            push_counted(alloc, area, second, duties)
        }
    }
}

/// Adds the duties of `GosubIf`.
pub(crate) fn push_counted_if(
    alloc: Global,
    area: &KeptArea,
    pieces: &[Piece],
    duties: &mut Vec<KeptDuty>,
) -> Result<(), NoMemory>
    ensures { OnOk result (shown_duties duties.new.items
        ≡ shown_duties duties.old.items ++ spec.counted_gosub_if_duties (shown_area area.now) (shown_all pieces.now)) }
{
    match cut_pieces(pieces, b'?') {
        Cutting::Nowhere => Ok(()),
        Cutting::Unsure => push_counted_any(alloc, area, pieces, duties),
        Cutting::At(_, rest) => push_counted_sides(alloc, area, pieces, rest, duties),
    }
}
