//! The applications that jump, after the Asterisk documentation's pages on `Goto` and `GotoIf`.
ghost use Rattle.std.specs.Prelude.{◌≡◌, IfOk};
ghost use Rattle.std.specs.Option.{option_map};
ghost use Rattle.dp_flow.specs.Jumps as spec;

use crate::choice::chosen_side;
use dp_app::{Application, Cell, Move, Target, TargetParts, Touch};
use dp_conf::NoMemory;
use std::alloc::Global;

/// A jump to a target, given its text.
fn jump_to(alloc: Global, target: &[u8]) -> Result<Move, NoMemory>
    ensures { IfOk result (λ going. going ≡ spec.jump_to target.now) }
{
    let parts = TargetParts::of(alloc, target)?;
    Ok(Move::Jump(Target::Parts(parts)))
}

/// A jump to a side, given its text, or to the next priority if there is none.
pub fn jump_if(alloc: Global, side: Option<&[u8]>) -> Result<Move, NoMemory>
    ensures { IfOk result (λ going. going ≡ spec.jump_if (option_map (λ side. side.now) side.entry)) }
{
    match side {
        None => Ok(Move::Next),
        Some(side) => jump_to(alloc, side),
    }
}

/// `Goto([[context,]extension,]priority)`: the channel goes to the target.
pub struct Goto;

impl Application for Goto {
    ghost use Rattle.std.specs.Prelude.{codes};
    ghost use Rattle.dp_flow.specs.Jumps.{goto_row};
    ghost use Rattle.dp_flow.specs.laws.Lawful.{goto_lawful};
    ghost use Rattle.dp_flow.specs.Touches.{nothing};

    ghost meaning = { goto_row };

    ghost title = { codes "Goto" };

    ghost TOUCH = { nothing };

    ghost lawful = { goto_lawful };

    const TOUCH: Touch = Touch::NOTHING;

    fn name() -> &'static [u8] {
        b"Goto"
    }

    fn apply(alloc: Global, arguments: &[u8], _cell: &mut Cell) -> Result<Move, NoMemory> {
        jump_to(alloc, arguments)
    }
}

/// `GotoIf(condition?[target][:target])`: the channel goes to the target on the side that is taken. A side that is missing, or of blanks
/// alone, means the next priority.
pub struct GotoIf;

impl Application for GotoIf {
    ghost use Rattle.std.specs.Prelude.{codes};
    ghost use Rattle.dp_flow.specs.Jumps.{goto_if_row};
    ghost use Rattle.dp_flow.specs.laws.Lawful.{goto_if_lawful};
    ghost use Rattle.dp_flow.specs.Touches.{nothing};

    ghost meaning = { goto_if_row };

    ghost title = { codes "GotoIf" };

    ghost TOUCH = { nothing };

    ghost lawful = { goto_if_lawful };

    const TOUCH: Touch = Touch::NOTHING;

    fn name() -> &'static [u8] {
        b"GotoIf"
    }

    fn apply(alloc: Global, arguments: &[u8], _cell: &mut Cell) -> Result<Move, NoMemory> {
        jump_if(alloc, chosen_side(arguments))
    }
}
