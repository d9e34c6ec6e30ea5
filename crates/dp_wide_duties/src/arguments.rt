//! The arguments of an application, given the pieces of all of them.
ghost use Rattle.std.specs.Prelude.{◌≡◌, IfOk, slice_get, unwrap_or, []};
ghost use Rattle.dp_pieces.specs.Arguments as arguments;
ghost use Rattle.dp_pieces.specs.Pieces.{any_bytes_of, pieces_set};
ghost use Rattle.dp_pieces.specs.Shown.{shown_all};
ghost use Rattle.dp_reach.specs.Areas as areas;
ghost use Rattle.dp_wide_duties.specs.Arguments as spec;

use dp_closed::set_of;
use dp_conf::NoMemory;
use dp_pieces::{Piece, are_clean, shapes_of};
use std::alloc::Global;

/// Any text with the bytes of the pieces.
pub(crate) fn any_of(alloc: Global, pieces: &[Piece]) -> Result<Vec<Piece>, NoMemory>
    ensures { IfOk result (λ all. shown_all all.items ≡ any_bytes_of (pieces_set (shown_all pieces.now))) }
{
    let mut all = Vec::new(alloc);
    all.push(Piece::AnyOf(set_of(pieces)))?;
    Ok(all)
}

/// The part with a number, which is empty if it is missing.
fn part_of(alloc: Global, number: usize, pieces: &[Piece]) -> Result<Vec<Piece>, NoMemory>
    ensures { IfOk result (λ part. shown_all part.items ≡ unwrap_or (slice_get (arguments.shapes_of (shown_all pieces.now)) number) []) }
{
    let shapes = shapes_of(alloc, pieces)?;
    let mut part = Vec::new(alloc);
    if let Some(shape) = shapes.get(number) {
        part.extend_from_slice(shape)?;
    }
    Ok(part)
}

/// The argument with a number, which is empty if it is missing, or any text with the bytes of all pieces, if an unknown one may separate
/// arguments.
pub(crate) fn argument(
    alloc: Global,
    number: usize,
    pieces: &[Piece],
) -> Result<Vec<Piece>, NoMemory>
    ensures { IfOk result (λ shape. shown_all shape.items ≡ spec.argument number (shown_all pieces.now)) }
{
    if are_clean(pieces) {
        return part_of(alloc, number, pieces);
    }
    any_of(alloc, pieces)
}

/// Whether a text of this shape may be empty.
pub(crate) fn may_be_empty(pieces: &[Piece]) -> bool
    ensures { result ≡ areas.may_be_empty (shown_all pieces.now) }
{
    for piece in pieces {
        match piece {
            Piece::Known(_) | Piece::OneOf(_) => return false,
            Piece::AnyOf(_) => (),
        }
    }
    true
}
