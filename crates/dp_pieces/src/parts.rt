//! Parts of pieces, as requested by `:offset` and `:offset:length` after a name.
ghost use Rattle.std.specs.Prelude.{◌≡◌, IfOk, Some};
ghost use Rattle.dp_pieces.specs.Names as names;
ghost use Rattle.dp_pieces.specs.Shown.{shown_all};
ghost use Rattle.dp_vars.specs.declared.part.Reach.TheVariants.{Ahead};

use crate::arguments::{any_of, front, without};
use crate::piece::{Piece, copy_of};
use dp_conf::NoMemory;
use dp_vars::{Reach, Selection};
use std::alloc::Global;

/// The first bytes of the pieces after an offset.
fn range_of(
    alloc: Global,
    offset: usize,
    size: usize,
    pieces: &[Piece],
) -> Result<Vec<Piece>, NoMemory>
    ensures { IfOk result (λ part. shown_all part.items ≡ names.part_ahead offset (Some (Ahead size)) (shown_all pieces.now)) }
{
    let rest = without(alloc, offset, pieces)?;
    let part = front(alloc, size, &rest)?;
    Ok(part)
}

/// The pieces from an offset that counts from the front, to the end or this many bytes. A length that counts from the end gives any bytes
/// of the whole.
fn part_ahead(
    alloc: Global,
    offset: usize,
    size: Option<Reach>,
    pieces: &[Piece],
) -> Result<Vec<Piece>, NoMemory>
    ensures { IfOk result (λ part. shown_all part.items ≡ names.part_ahead offset size (shown_all pieces.now)) }
{
    match size {
        None => without(alloc, offset, pieces),
        Some(Reach::Ahead(size)) => range_of(alloc, offset, size, pieces),
        Some(Reach::Back(_)) => any_of(alloc, pieces),
    }
}

/// The requested part of the pieces. It fails only if memory runs out.
pub fn part_of(alloc: Global, asked: Selection, pieces: &[Piece]) -> Result<Vec<Piece>, NoMemory>
    ensures { IfOk result (λ part. shown_all part.items ≡ names.part_pieces asked (shown_all pieces.now)) }
{
    match asked {
        Selection::Whole => copy_of(alloc, pieces),
        Selection::Part(Reach::Ahead(offset), size) => part_ahead(alloc, offset, size, pieces),
        Selection::Part(Reach::Back(_), _) => any_of(alloc, pieces),
        Selection::Nothing => Ok(Vec::new(alloc)),
    }
}
