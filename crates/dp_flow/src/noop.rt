//! The application that does nothing, after the Asterisk documentation's page on `NoOp`.
ghost use Rattle.std.specs.Prelude.{◌≡◌};

use dp_app::{Application, Cell, Move, Touch};
use dp_conf::NoMemory;
use std::alloc::Global;

/// `NoOp(text)`: nothing, and the channel goes on.
pub struct NoOp;

impl Application for NoOp {
    ghost use Rattle.std.specs.Prelude.{codes};
    ghost use Rattle.dp_flow.specs.laws.Lawful.{next_lawful};
    ghost use Rattle.dp_flow.specs.Plain.{next_row};
    ghost use Rattle.dp_flow.specs.Touches.{nothing};

    ghost meaning = { next_row };

    ghost title = { codes "NoOp" };

    ghost TOUCH = { nothing };

    ghost lawful = { next_lawful };

    const TOUCH: Touch = Touch::NOTHING;

    fn name() -> &'static [u8] {
        b"NoOp"
    }

    fn apply(_alloc: Global, _arguments: &[u8], _cell: &mut Cell) -> Result<Move, NoMemory> {
        Ok(Move::Next)
    }
}
