//! Macros, after the Asterisk documentation's pages on `Macro` and `MacroExit`.
ghost use Rattle.std.specs.Prelude.{◌≡◌, ◌≤◌, IfOk, OnErr};
ghost use Rattle.dp_app.specs.Cells.{KeepsLoans, cell_now};
ghost use Rattle.dp_conf.specs.Numbers.{most_priority};
ghost use Rattle.dp_flow.specs.Jumps.{inner_arguments};
ghost use Rattle.dp_wide.specs.Macros as spec;

use crate::subroutines::{counted_locals, push_call, push_local, push_number};
use dp_app::{Application, Cell, Move, Place, Target, TargetParts, Touch};
use dp_conf::{NoMemory, cut_outside, trim};
use dp_vars::Local;
use std::alloc::Global;

/// The locals of a macro, given the text of its arguments and the place of the caller.
fn macro_locals(alloc: Global, place: &Place, arguments: &[u8]) -> Result<Vec<Local>, NoMemory>
    ensures { IfOk result (λ locals. locals.items ≡ spec.macro_locals place.now (inner_arguments arguments.now)) }
{
    let mut locals = counted_locals(alloc, arguments)?;
    push_local(alloc, &mut locals, b"MACRO_EXTEN", place.exten.bytes())?;
    push_local(alloc, &mut locals, b"MACRO_CONTEXT", place.context.bytes())?;
    push_number(
        alloc,
        &mut locals,
        b"MACRO_PRIORITY",
        place.priority as usize,
    )?;
    Ok(locals)
}

/// The start of a macro.
fn macro_target(alloc: Global, name: &[u8]) -> Result<TargetParts, NoMemory>
    ensures { IfOk result (λ target. target ≡ spec.macro_target name.now) }
{
    let mut context = Vec::from_slice(alloc, b"macro-")?;
    context.extend_from_slice(name)?;
    TargetParts::with_last(alloc, &[&context, b"s"], b"1")
}

/// Enters a macro, given its name and the text of its arguments. If memory runs out the cell is as before.
fn enter_macro(
    alloc: Global,
    name: &[u8],
    arguments: &[u8],
    cell: &mut Cell,
) -> Result<Move, NoMemory>
    requires { cell.old.place.now.priority ≤ most_priority }
    ensures ok { IfOk result (λ going. spec.enter_macro (cell_now cell.old) name.now (inner_arguments arguments.now)
        ≡ record { cell = cell_now cell.new; next = going }) }
    ensures err { OnErr result (cell_now cell.new ≡ cell_now cell.old) }
    ensures loans { KeepsLoans cell.old cell.new }
{
    let target = macro_target(alloc, trim(name))?;
    let locals = macro_locals(alloc, cell.place, arguments)?;
    push_call(alloc, locals, cell)?;
    Ok(Move::Enter(target))
}

/// `Macro(name[,arguments])`: does `Gosub` to the extension `s` of the context `macro-name`, with the place of the caller in the locals
/// `MACRO_EXTEN`, `MACRO_CONTEXT` and `MACRO_PRIORITY`.
///
/// If no entry is found there, the channel goes on at the next priority, and nothing changes.
pub struct Macro;

impl Application for Macro {
    ghost use Rattle.std.specs.Prelude.{codes};
    ghost use Rattle.dp_flow.specs.Touches.{the_frames};
    ghost use Rattle.dp_wide.specs.Macros.{macro_row};
    ghost use Rattle.dp_wide.specs.laws.MacrosLawful.{macro_lawful};

    ghost meaning = { macro_row };

    ghost title = { codes "Macro" };

    ghost TOUCH = { the_frames };

    ghost lawful = { macro_lawful };

    const TOUCH: Touch = Touch {
        frames: true,
        ..Touch::NOTHING
    };

    fn name() -> &'static [u8] {
        b"Macro"
    }

    #[tactic(auto, unfolding(crate::specs::Macros::macro_row))]
    fn apply(alloc: Global, arguments: &[u8], cell: &mut Cell) -> Result<Move, NoMemory> {
        match cut_outside(arguments, b',') {
            None => {
                let going = enter_macro(alloc, arguments, b"", cell)?;
                Ok(going)
            }
            Some((name, inner)) => {
                let going = enter_macro(alloc, name, inner, cell)?;
                Ok(going)
            }
        }
    }
}

/// `MacroExit()`: removes the innermost frame, and sends the channel back to the frame's place. Without a frame the channel goes on.
pub struct MacroExit;

impl Application for MacroExit {
    ghost use Rattle.std.specs.Prelude.{codes};
    ghost use Rattle.dp_flow.specs.Touches.{the_frames};
    ghost use Rattle.dp_wide.specs.Macros.{macro_exit_row};
    ghost use Rattle.dp_wide.specs.laws.MacrosLawful.{macro_exit_lawful};

    ghost meaning = { macro_exit_row };

    ghost title = { codes "MacroExit" };

    ghost TOUCH = { the_frames };

    ghost lawful = { macro_exit_lawful };

    const TOUCH: Touch = Touch {
        frames: true,
        ..Touch::NOTHING
    };

    fn name() -> &'static [u8] {
        b"MacroExit"
    }

    fn apply(_alloc: Global, _arguments: &[u8], cell: &mut Cell) -> Result<Move, NoMemory> {
        match cell.store.pop_frame() {
            None => Ok(Move::Next),
            Some(place) => Ok(Move::Jump(Target::To(place))),
        }
    }
}
