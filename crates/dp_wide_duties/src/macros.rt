//! The duties of `Macro`.
ghost use Rattle.std.specs.Prelude.{◌≡◌, ◌++◌, ◌∷◌, [], IfOk, OnOk, codes};
ghost use Rattle.dp_closed.specs.Shown.{shown_area, shown_duties};
ghost use Rattle.dp_pieces.specs.Bytes.{digits};
ghost use Rattle.dp_pieces.specs.Cuts.{cut_level};
ghost use Rattle.dp_pieces.specs.Pieces.{any_bytes_of, exactly, pieces_set};
ghost use Rattle.dp_pieces.specs.Shown.{shown_all};
ghost use Rattle.dp_pieces.specs.Trimmed.{without_end_blanks};
ghost use Rattle.dp_reach.specs.Bounds as bounds;
ghost use Rattle.dp_wide_reach.specs.Subroutines as spec;

use crate::held_bytes::{push_digits, push_each, push_held};
use dp_closed::{KeptArea, KeptDuty, push_area, push_inside, set_of};
use dp_conf::NoMemory;
use dp_pieces::{Cutting, Piece, cut_level, trim_pieces};
use std::alloc::Global;

/// Adds the duties of the extension and the context of the caller, which a macro sees as locals.
fn push_place(alloc: Global, area: &KeptArea, duties: &mut Vec<KeptDuty>) -> Result<(), NoMemory>
    ensures { OnOk result (shown_duties duties.new.items ≡ shown_duties duties.old.items
        ++ bounds.Holds (codes "MACRO_EXTEN") (pieces_set (shown_all area.now.exten.items))
        ∷ bounds.Holds (codes "MACRO_CONTEXT") (pieces_set (shown_all area.now.context.items)) ∷ []) }
{
    push_held(alloc, b"MACRO_EXTEN", &area.exten, duties)?;
    push_held(alloc, b"MACRO_CONTEXT", &area.context, duties)
}

/// Adds the duties of the priority of the caller, and of the number of the arguments.
fn push_numbers(alloc: Global, duties: &mut Vec<KeptDuty>) -> Result<(), NoMemory>
    ensures { OnOk result (shown_duties duties.new.items
        ≡ shown_duties duties.old.items ++ bounds.Holds (codes "MACRO_PRIORITY") digits ∷ spec.count_duty ∷ []) }
{
    push_digits(alloc, b"MACRO_PRIORITY", duties)?;
    push_digits(alloc, b"ARGC", duties)
}

/// Adds the duties of the place of the caller, and of the number of the arguments.
fn push_caller(alloc: Global, area: &KeptArea, duties: &mut Vec<KeptDuty>) -> Result<(), NoMemory>
    ensures { OnOk result (shown_duties duties.new.items ≡ shown_duties duties.old.items ++ spec.caller_duties (shown_area area.now)) }
{
    push_place(alloc, area, duties)?;
    push_numbers(alloc, duties)
}

/// The pieces of the context of a macro, given those of its name.
fn macro_context(alloc: Global, name: &[Piece]) -> Result<Vec<Piece>, NoMemory>
    ensures { IfOk result (λ context. shown_all context.items ≡ exactly (codes "macro-") ++ shown_all name.now) }
{
    let mut context = Vec::new(alloc);
    context.extend_from_slice(&[
        Piece::Known(b'm'),
        Piece::Known(b'a'),
        Piece::Known(b'c'),
        Piece::Known(b'r'),
        Piece::Known(b'o'),
        Piece::Known(b'-'),
    ])?;
    context.extend_from_slice(name)?;
    Ok(context)
}

/// Adds that the reach has the start of the macro whose name has these pieces.
fn push_start(alloc: Global, name: &[Piece], duties: &mut Vec<KeptDuty>) -> Result<(), NoMemory>
    ensures { OnOk result (shown_duties duties.new.items
        ≡ shown_duties duties.old.items ++ bounds.Leads (spec.macro_area (shown_all name.now)) ∷ []) }
{
    let context = macro_context(alloc, name)?;
    push_area(alloc, &context, &[Piece::Known(b's')], duties)
}

/// Adds that the reach has the start of the macro whose name has these pieces without the blanks at their ends.
fn push_named(alloc: Global, name: &[Piece], duties: &mut Vec<KeptDuty>) -> Result<(), NoMemory>
    ensures { OnOk result (shown_duties duties.new.items
        ≡ shown_duties duties.old.items ++ bounds.Leads (spec.macro_area (without_end_blanks (shown_all name.now))) ∷ []) }
{
    let name = trim_pieces(alloc, name)?;
    push_start(alloc, &name, duties)
}

/// Adds the duties if any text of the bytes of these pieces may be the name of a macro, and its arguments.
fn push_any_macro(
    alloc: Global,
    pieces: &[Piece],
    duties: &mut Vec<KeptDuty>,
) -> Result<(), NoMemory>
    ensures { OnOk result (shown_duties duties.new.items ≡ shown_duties duties.old.items
        ++ bounds.Leads (spec.macro_area (any_bytes_of (pieces_set (shown_all pieces.now)))) ∷ bounds.HoldsAll (pieces_set (shown_all pieces.now)) ∷ []) }
{
    let set = set_of(pieces);
    push_start(alloc, &[Piece::AnyOf(set)], duties)?;
    push_each(set, duties)
}

/// Adds the duties of the name and the arguments of a macro.
fn push_called(alloc: Global, pieces: &[Piece], duties: &mut Vec<KeptDuty>) -> Result<(), NoMemory>
    ensures { OnOk result (shown_duties duties.new.items ≡ shown_duties duties.old.items
        ++ spec.called_macro_duties (shown_all pieces.now) (cut_level 44 0 (shown_all pieces.now))) }
{
    match cut_level(pieces, b',') {
        Cutting::Nowhere => push_named(alloc, pieces, duties),
        Cutting::Unsure => push_any_macro(alloc, pieces, duties),
        Cutting::At(name, rest) => {
            push_named(alloc, name, duties)?;
            push_inside(alloc, set_of(pieces), Cutting::At(rest, &[]), duties)
        }
    }
}

/// Adds the duties of `Macro`.
pub(crate) fn push_macro(
    alloc: Global,
    area: &KeptArea,
    pieces: &[Piece],
    duties: &mut Vec<KeptDuty>,
) -> Result<(), NoMemory>
    ensures { OnOk result (shown_duties duties.new.items
        ≡ shown_duties duties.old.items ++ spec.macro_duties (shown_area area.now) (shown_all pieces.now)) }
{
    push_caller(alloc, area, duties)?;
    push_called(alloc, pieces, duties)
}
