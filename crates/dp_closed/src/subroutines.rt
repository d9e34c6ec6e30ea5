//! The duties of applications that enter a subroutine.
ghost use Rattle.std.specs.Prelude.{◌≡◌, ◌++◌, ◌∷◌, [], IfOk, OnOk, codes};
ghost use Rattle.std.specs.Fmt.{decimal};
ghost use Rattle.std.specs.List.{flat_map};
ghost use Rattle.dp_closed.specs.Shown.{shown_area, shown_duties};
ghost use Rattle.dp_closed.specs.Steps.{shown_parts, shown_shapes};
ghost use Rattle.dp_pieces.specs.Pieces.{pieces_set};
ghost use Rattle.dp_pieces.specs.Sets.{set_by};
ghost use Rattle.dp_pieces.specs.Shown.{shown_all};
ghost use Rattle.dp_pieces.specs.ShownCuts.{shown_cutting};
ghost use Rattle.dp_reach.specs.Bounds as bounds;

use crate::area::KeptArea;
use crate::duty::KeptDuty;
use crate::sets::set_of;
use crate::shapes::{Shapes, last_part, sides_in};
use crate::targets::push_targets;
use dp_conf::NoMemory;
use dp_pieces::{ByteSet, Cutting, Piece, are_clean, cut_last, cut_pieces, shapes_of};
use itoa::Buffer;
use std::alloc::Global;

/// `ARG` and the number.
fn argument_name(alloc: Global, number: usize) -> Result<Vec<u8>, NoMemory>
    ensures { IfOk result (λ name. name.items ≡ codes "ARG" ++ decimal number) }
{
    let mut name = Vec::new(alloc);
    name.extend_from_slice(b"ARG")?;
    let mut buffer = Buffer::new();
    name.extend_from_slice(buffer.format(number).as_bytes())?;
    Ok(name)
}

/// Adds that the local with a number may have the bytes of a shape.
fn push_argument(
    alloc: Global,
    number: usize,
    shape: &[Piece],
    duties: &mut Vec<KeptDuty>,
) -> Result<(), NoMemory>
    ensures { OnOk result (shown_duties duties.new.items
        ≡ shown_duties duties.old.items ++ bounds.numbered_duties number (shown_all shape.now ∷ [])) }
{
    let name = argument_name(alloc, number)?;
    duties.push(KeptDuty::Holds(name, set_of(shape)))?;
    Ok(())
}

/// Adds that `ARG1`, `ARG2` and so on may have the bytes of these shapes.
fn push_arguments(
    alloc: Global,
    shapes: &[Vec<Piece>],
    duties: &mut Vec<KeptDuty>,
) -> Result<(), NoMemory>
    ensures { OnOk result (shown_duties duties.new.items
        ≡ shown_duties duties.old.items ++ bounds.numbered_duties 1 (shown_parts shapes.now)) }
{
    for (at, shape) in shapes.iter().enumerate() {
        push_argument(alloc, at + 1, shape, duties)?;
    }
    Ok(())
}

/// Adds the duties for the arguments of a subroutine, given the text before its last `)`, and the bytes of the whole text. It fails only if
/// memory runs out.
pub fn push_inside(
    alloc: Global,
    set: ByteSet,
    cutting: Cutting<'_>,
    duties: &mut Vec<KeptDuty>,
) -> Result<(), NoMemory>
    ensures { OnOk result (shown_duties duties.new.items
        ≡ shown_duties duties.old.items ++ bounds.inside_duties (set_by set) (shown_cutting cutting.entry)) }
{
    match cutting {
        Cutting::Nowhere => Ok(()),
        Cutting::At(inside, _) if are_clean(inside) => {
            let shapes = shapes_of(alloc, inside)?;
            push_arguments(alloc, &shapes, duties)
        }
        Cutting::Unsure | Cutting::At(_, _) => {
            duties.push(KeptDuty::HoldsAll(set))?;
            Ok(())
        }
    }
}

/// Adds the duties for the arguments of a subroutine, given the text after its first `(`.
fn push_call(
    alloc: Global,
    set: ByteSet,
    cutting: Cutting<'_>,
    duties: &mut Vec<KeptDuty>,
) -> Result<(), NoMemory>
    ensures { OnOk result (shown_duties duties.new.items
        ≡ shown_duties duties.old.items ++ bounds.call_duties (set_by set) (shown_cutting cutting.entry)) }
{
    match cutting {
        Cutting::Nowhere => Ok(()),
        Cutting::Unsure => {
            duties.push(KeptDuty::HoldsAll(set))?;
            Ok(())
        }
        Cutting::At(_, rest) => push_inside(alloc, set, cut_last(rest, b')'), duties),
    }
}

/// Adds the duties for the arguments of a subroutine, given its target.
fn push_called(alloc: Global, pieces: &[Piece], duties: &mut Vec<KeptDuty>) -> Result<(), NoMemory>
    ensures { OnOk result (shown_duties duties.new.items ≡ shown_duties duties.old.items
        ++ bounds.target_duties (pieces_set (shown_all pieces.now)) (shown_all pieces.now)) }
{
    let set = set_of(pieces);
    if are_clean(pieces) {
        return push_call(alloc, set, cut_pieces(last_part(pieces), b'('), duties);
    }
    duties.push(KeptDuty::HoldsAll(set))?;
    Ok(())
}

/// Adds the duties of `Gosub`. It fails only if memory runs out.
pub fn push_gosub(
    alloc: Global,
    area: &KeptArea,
    pieces: &[Piece],
    duties: &mut Vec<KeptDuty>,
) -> Result<(), NoMemory>
    ensures { OnOk result (shown_duties duties.new.items
        ≡ shown_duties duties.old.items ++ bounds.gosub_duties (shown_area area.now) (shown_all pieces.now)) }
{
    push_targets(alloc, area, pieces, duties)?;
    push_called(alloc, pieces, duties)
}

/// Adds the duties of `Gosub` for each of these shapes.
fn push_gosubs(
    alloc: Global,
    area: &KeptArea,
    sides: Shapes<'_>,
    duties: &mut Vec<KeptDuty>,
) -> Result<(), NoMemory>
    ensures { OnOk result (shown_duties duties.new.items ≡ shown_duties duties.old.items
        ++ flat_map (bounds.subroutine_duties (shown_area area.now)) (shown_shapes sides.entry)) }
{
    match sides {
        Shapes::Nothing => Ok(()),
        Shapes::One(side) => push_gosub(alloc, area, side, duties),
        Shapes::Two(side, other) => {
            push_gosub(alloc, area, side, duties)?;
            push_gosub(alloc, area, other, duties)
        }
    }
}

/// Adds the duties of `GosubIf`.
pub(crate) fn push_gosub_if(
    alloc: Global,
    area: &KeptArea,
    pieces: &[Piece],
    duties: &mut Vec<KeptDuty>,
) -> Result<(), NoMemory>
    ensures { OnOk result (shown_duties duties.new.items
        ≡ shown_duties duties.old.items ++ bounds.gosub_if_duties (shown_area area.now) (shown_all pieces.now)) }
{
    match sides_in(pieces) {
        None => {
            let any = [Piece::AnyOf(set_of(pieces))];
            push_gosubs(alloc, area, Shapes::One(&any), duties)
        }
        Some(sides) => push_gosubs(alloc, area, sides, duties),
    }
}
