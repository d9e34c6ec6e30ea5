//! The arguments of a text given as pieces, and prefixes and suffixes of pieces.
ghost use Rattle.std.specs.Prelude.{◌≡◌, IfOk, map};
ghost use Rattle.dp_pieces.specs.Arguments.{shapes_of};
ghost use Rattle.dp_pieces.specs.Pieces.{front, any_bytes_of, pieces_set, without};
ghost use Rattle.dp_pieces.specs.Shown.{shown_all};

use crate::cuts::first_part;
use crate::piece::{Piece, any_bytes, bytes_of};
use crate::trims::trim_pieces;
use dp_conf::NoMemory;
use std::alloc::Global;

/// The shapes of the arguments, which are separated by known commas outside parentheses, each without the blanks at its ends. It fails only
/// if memory runs out.
pub fn shapes_of(alloc: Global, pieces: &[Piece]) -> Result<Vec<Vec<Piece>>, NoMemory>
    ensures { IfOk result (λ shapes. map (λ shape. shown_all shape.items) shapes.items ≡ shapes_of (shown_all pieces.now)) }
{
    // A target has at most three parts.
    let mut shapes = Vec::with_capacity(alloc, 3)?;
    let mut rest = Some(pieces);
    while let Some(left) = rest {
        let (part, after) = first_part(left);
        shapes.push(trim_pieces(alloc, part)?)?;
        rest = after;
    }
    Ok(shapes)
}

/// Any bytes of these pieces, as a single piece.
pub(crate) fn any_of(alloc: Global, pieces: &[Piece]) -> Result<Vec<Piece>, NoMemory>
    ensures { IfOk result (λ all. shown_all all.items ≡ any_bytes_of (pieces_set (shown_all pieces.now))) }
{
    let all = any_bytes(alloc, bytes_of(pieces))?;
    Ok(all)
}

/// The pieces without this many of the first bytes. If a piece with any number of bytes comes first, it and the pieces after it become a
/// single such piece. It fails only if memory runs out.
pub fn without(alloc: Global, count: usize, pieces: &[Piece]) -> Result<Vec<Piece>, NoMemory>
    ensures { IfOk result (λ rest. shown_all rest.items ≡ without count (shown_all pieces.now)) }
{
    let mut left = pieces;
    let mut count = count;
    while count > 0 {
        let Some((first, rest)) = left.split_first() else {
            break;
        };
        if let Piece::AnyOf(_) = first {
            let all = any_of(alloc, left)?;
            return Ok(all);
        }
        left = rest;
        count -= 1;
    }
    let mut kept = Vec::new(alloc);
    kept.extend_from_slice(left)?;
    Ok(kept)
}

/// This many of the first bytes of the pieces. If a piece with any number of bytes comes before their end, it and the pieces after it
/// become a single such piece. It fails only if memory runs out.
pub fn front(alloc: Global, count: usize, pieces: &[Piece]) -> Result<Vec<Piece>, NoMemory>
    ensures { IfOk result (λ first. shown_all first.items ≡ front count (shown_all pieces.now)) }
{
    let mut kept = Vec::new(alloc);
    let mut left = pieces;
    let mut count = count;
    while count > 0 {
        let Some((first, rest)) = left.split_first() else {
            break;
        };
        if let Piece::AnyOf(_) = first {
            let all = any_of(alloc, left)?;
            kept.extend_from_slice(&all)?;
            return Ok(kept);
        }
        kept.push(*first)?;
        left = rest;
        count -= 1;
    }
    Ok(kept)
}
