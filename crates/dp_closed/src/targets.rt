//! The duties of applications that jump to a target, or to a side of a choice.
ghost use Rattle.std.specs.Prelude.{◌≡◌, ◌++◌, OnOk, map};
ghost use Rattle.std.specs.List.{flat_map};
ghost use Rattle.dp_closed.specs.Shown.{shown_area, shown_duties};
ghost use Rattle.dp_closed.specs.Steps.{shown_parts, shown_shapes};
ghost use Rattle.dp_pieces.specs.Sets.{set_by};
ghost use Rattle.dp_pieces.specs.Shown.{shown_all};
ghost use Rattle.dp_reach.specs.Areas as areas;
ghost use Rattle.dp_reach.specs.Bounds as bounds;

use crate::area::KeptArea;
use crate::duty::{KeptDuty, push_area};
use crate::sets::set_of;
use crate::shapes::{Shapes, or_own, sides_in};
use dp_conf::NoMemory;
use dp_pieces::{ByteSet, Piece, are_clean, shapes_of};
use std::alloc::Global;

/// Adds the areas of a context with each of these extensions.
fn push_extens(
    alloc: Global,
    context: &[Piece],
    extens: Shapes<'_>,
    duties: &mut Vec<KeptDuty>,
) -> Result<(), NoMemory>
    ensures { OnOk result (shown_duties duties.new.items ≡ shown_duties duties.old.items
        ++ map bounds.Leads (map (areas.area_at (shown_all context.now)) (shown_shapes extens.entry))) }
{
    match extens {
        Shapes::Nothing => Ok(()),
        Shapes::One(exten) => push_area(alloc, context, exten, duties),
        Shapes::Two(exten, other) => {
            push_area(alloc, context, exten, duties)?;
            push_area(alloc, context, other, duties)
        }
    }
}

/// Adds the areas of each of these contexts with each of these extensions.
fn push_areas(
    alloc: Global,
    contexts: Shapes<'_>,
    extens: Shapes<'_>,
    duties: &mut Vec<KeptDuty>,
) -> Result<(), NoMemory>
    ensures { OnOk result (shown_duties duties.new.items ≡ shown_duties duties.old.items
        ++ map bounds.Leads (areas.areas_of (shown_shapes contexts.entry) (shown_shapes extens.entry))) }
{
    match contexts {
        Shapes::Nothing => Ok(()),
        Shapes::One(context) => push_extens(alloc, context, extens, duties),
        Shapes::Two(context, other) => {
            push_extens(alloc, context, extens, duties)?;
            push_extens(alloc, other, extens, duties)
        }
    }
}

/// Adds where any parts with these bytes may lead from an area.
fn push_targets_within(
    alloc: Global,
    area: &KeptArea,
    set: ByteSet,
    duties: &mut Vec<KeptDuty>,
) -> Result<(), NoMemory>
    ensures { OnOk result (shown_duties duties.new.items ≡ shown_duties duties.old.items
        ++ map bounds.Leads (areas.targets_within (shown_area area.now) (set_by set))) }
{
    let any = [Piece::AnyOf(set)];
    let contexts = Shapes::Two(&any, &area.context);
    let extens = Shapes::Two(&any, &area.exten);
    push_areas(alloc, contexts, extens, duties)
}

/// Adds where the parts of a target may lead from an area.
fn push_targets_of(
    alloc: Global,
    area: &KeptArea,
    parts: &[Vec<Piece>],
    duties: &mut Vec<KeptDuty>,
) -> Result<(), NoMemory>
    ensures { OnOk result (shown_duties duties.new.items ≡ shown_duties duties.old.items
        ++ map bounds.Leads (areas.targets_of (shown_area area.now) (shown_parts parts.now))) }
{
    match parts {
        [_priority] => push_area(alloc, &area.context, &area.exten, duties),
        [exten, _priority] => {
            let extens = or_own(&area.exten, exten);
            push_areas(alloc, Shapes::One(&area.context), extens, duties)
        }
        [context, exten, _priority] => {
            let contexts = or_own(&area.context, context);
            let extens = or_own(&area.exten, exten);
            push_areas(alloc, contexts, extens, duties)
        }
        _ => Ok(()),
    }
}

/// Adds where a target in pieces may lead from an area: the duties of `Goto`.
pub(crate) fn push_targets(
    alloc: Global,
    area: &KeptArea,
    pieces: &[Piece],
    duties: &mut Vec<KeptDuty>,
) -> Result<(), NoMemory>
    ensures { OnOk result (shown_duties duties.new.items ≡ shown_duties duties.old.items
        ++ bounds.goto_duties (shown_area area.now) (shown_all pieces.now)) }
{
    if are_clean(pieces) {
        let parts = shapes_of(alloc, pieces)?;
        push_targets_of(alloc, area, &parts, duties)
    } else {
        push_targets_within(alloc, area, set_of(pieces), duties)
    }
}

/// Adds where the targets of each of these shapes may lead from an area.
fn push_sides(
    alloc: Global,
    area: &KeptArea,
    sides: Shapes<'_>,
    duties: &mut Vec<KeptDuty>,
) -> Result<(), NoMemory>
    ensures { OnOk result (shown_duties duties.new.items ≡ shown_duties duties.old.items
        ++ map bounds.Leads (flat_map (areas.targets (shown_area area.now)) (shown_shapes sides.entry))) }
{
    match sides {
        Shapes::Nothing => Ok(()),
        Shapes::One(side) => push_targets(alloc, area, side, duties),
        Shapes::Two(side, other) => {
            push_targets(alloc, area, side, duties)?;
            push_targets(alloc, area, other, duties)
        }
    }
}

/// Adds the duties of `GotoIf`. It fails only if memory runs out.
pub fn push_goto_if(
    alloc: Global,
    area: &KeptArea,
    pieces: &[Piece],
    duties: &mut Vec<KeptDuty>,
) -> Result<(), NoMemory>
    ensures { OnOk result (shown_duties duties.new.items ≡ shown_duties duties.old.items
        ++ bounds.goto_if_duties (shown_area area.now) (shown_all pieces.now)) }
{
    match sides_in(pieces) {
        None => push_targets_within(alloc, area, set_of(pieces), duties),
        Some(sides) => push_sides(alloc, area, sides, duties),
    }
}
