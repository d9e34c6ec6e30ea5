//! The applications that do not change the cell, after the Asterisk documentation's application reference. Media is left out, so
//! applications that only play or print go on.
ghost use Rattle.std.specs.Prelude.{◌≡◌};

use dp_app::{Application, Cell, Move, Touch};
use dp_conf::NoMemory;
use std::alloc::Global;

/// `Answer()`: the call is answered, and the channel goes on.
pub struct Answer;

impl Application for Answer {
    ghost use Rattle.std.specs.Prelude.{codes};
    ghost use Rattle.dp_flow.specs.laws.Lawful.{next_lawful};
    ghost use Rattle.dp_flow.specs.Plain.{next_row};
    ghost use Rattle.dp_flow.specs.Touches.{nothing};

    ghost meaning = { next_row };

    ghost title = { codes "Answer" };

    ghost TOUCH = { nothing };

    ghost lawful = { next_lawful };

    const TOUCH: Touch = Touch::NOTHING;

    fn name() -> &'static [u8] {
        b"Answer"
    }

    fn apply(_alloc: Global, _arguments: &[u8], _cell: &mut Cell) -> Result<Move, NoMemory> {
        Ok(Move::Next)
    }
}

/// `Verbose(text)`: nothing is printed here, and the channel goes on.
pub struct Verbose;

impl Application for Verbose {
    ghost use Rattle.std.specs.Prelude.{codes};
    ghost use Rattle.dp_flow.specs.laws.Lawful.{next_lawful};
    ghost use Rattle.dp_flow.specs.Plain.{next_row};
    ghost use Rattle.dp_flow.specs.Touches.{nothing};

    ghost meaning = { next_row };

    ghost title = { codes "Verbose" };

    ghost TOUCH = { nothing };

    ghost lawful = { next_lawful };

    const TOUCH: Touch = Touch::NOTHING;

    fn name() -> &'static [u8] {
        b"Verbose"
    }

    fn apply(_alloc: Global, _arguments: &[u8], _cell: &mut Cell) -> Result<Move, NoMemory> {
        Ok(Move::Next)
    }
}

/// `Playback(files)`: nothing is played here, and the channel goes on.
pub struct Playback;

impl Application for Playback {
    ghost use Rattle.std.specs.Prelude.{codes};
    ghost use Rattle.dp_flow.specs.laws.Lawful.{next_lawful};
    ghost use Rattle.dp_flow.specs.Plain.{next_row};
    ghost use Rattle.dp_flow.specs.Touches.{nothing};

    ghost meaning = { next_row };

    ghost title = { codes "Playback" };

    ghost TOUCH = { nothing };

    ghost lawful = { next_lawful };

    const TOUCH: Touch = Touch::NOTHING;

    fn name() -> &'static [u8] {
        b"Playback"
    }

    fn apply(_alloc: Global, _arguments: &[u8], _cell: &mut Cell) -> Result<Move, NoMemory> {
        Ok(Move::Next)
    }
}

/// `Hangup([cause])`: the call ends; the cause has no effect.
pub struct Hangup;

impl Application for Hangup {
    ghost use Rattle.std.specs.Prelude.{codes};
    ghost use Rattle.dp_flow.specs.laws.Lawful.{hangup_lawful};
    ghost use Rattle.dp_flow.specs.Plain.{hangup_row};
    ghost use Rattle.dp_flow.specs.Touches.{nothing};

    ghost meaning = { hangup_row };

    ghost title = { codes "Hangup" };

    ghost TOUCH = { nothing };

    ghost lawful = { hangup_lawful };

    const TOUCH: Touch = Touch::NOTHING;

    fn name() -> &'static [u8] {
        b"Hangup"
    }

    fn apply(_alloc: Global, _arguments: &[u8], _cell: &mut Cell) -> Result<Move, NoMemory> {
        Ok(Move::Hang)
    }
}
