//! The applications that end a call with a tone, after the Asterisk documentation's pages on `Busy` and `Congestion`. Media is left
//! out, so the call ends at once.
ghost use Rattle.std.specs.Prelude.{◌≡◌};

use dp_app::{Application, Cell, Move, Touch};
use dp_conf::NoMemory;
use std::alloc::Global;

/// `Busy([seconds])`: the call ends; the number of seconds has no effect (a choice of this program).
pub struct Busy;

impl Application for Busy {
    ghost use Rattle.std.specs.Prelude.{codes};
    ghost use Rattle.dp_flow.specs.laws.Lawful.{hangup_lawful};
    ghost use Rattle.dp_flow.specs.Plain.{hangup_row};
    ghost use Rattle.dp_flow.specs.Touches.{nothing};

    ghost meaning = { hangup_row };

    ghost title = { codes "Busy" };

    ghost TOUCH = { nothing };

    ghost lawful = { hangup_lawful };

    const TOUCH: Touch = Touch::NOTHING;

    fn name() -> &'static [u8] {
        b"Busy"
    }

    fn apply(_alloc: Global, _arguments: &[u8], _cell: &mut Cell) -> Result<Move, NoMemory> {
        Ok(Move::Hang)
    }
}

/// `Congestion([seconds])`: the call ends; the number of seconds has no effect (a choice of this program).
pub struct Congestion;

impl Application for Congestion {
    ghost use Rattle.std.specs.Prelude.{codes};
    ghost use Rattle.dp_flow.specs.laws.Lawful.{hangup_lawful};
    ghost use Rattle.dp_flow.specs.Plain.{hangup_row};
    ghost use Rattle.dp_flow.specs.Touches.{nothing};

    ghost meaning = { hangup_row };

    ghost title = { codes "Congestion" };

    ghost TOUCH = { nothing };

    ghost lawful = { hangup_lawful };

    const TOUCH: Touch = Touch::NOTHING;

    fn name() -> &'static [u8] {
        b"Congestion"
    }

    fn apply(_alloc: Global, _arguments: &[u8], _cell: &mut Cell) -> Result<Move, NoMemory> {
        Ok(Move::Hang)
    }
}
