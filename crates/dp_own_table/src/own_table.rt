//! A table of applications by another author, over which a machine is proved as it is over the program's own.
ghost use Rattle.std.specs.Prelude.{◌≡◌};

use crate::own_functions::OwnFunctions;
use dp_app::{AppNumber, AppTable, Application, Cell, Move, Phase, Touch};
use dp_conf::{NoMemory, same_word};
use std::alloc::Global;

/// `Ping(text)`: sets `P` to the text, and the channel goes on.
pub struct Ping;

impl Application for Ping {
    ghost use Rattle.std.specs.Prelude.{codes, refl};
    ghost use Rattle.dp_own_table.specs.OwnTable.{ping_lawful, ping_row, the_variables};

    ghost meaning = { ping_row };

    ghost title = { codes "Ping" };

    ghost TOUCH = { the_variables };

    ghost lawful = { ping_lawful the_variables refl };

    const TOUCH: Touch = Touch {
        variables: true,
        ..Touch::NOTHING
    };

    fn name() -> &'static [u8] {
        b"Ping"
    }

    fn apply(alloc: Global, arguments: &[u8], cell: &mut Cell) -> Result<Move, NoMemory> {
        cell.store.set(alloc, b"P", arguments)?;
        Ok(Move::Next)
    }
}

/// `Stay()`: the channel waits for a time-out. During `h` the call ends.
pub struct Stay;

impl Application for Stay {
    ghost use Rattle.std.specs.Prelude.{codes};
    ghost use Rattle.dp_own_table.specs.OwnTable.{nothing, stay_lawful, stay_row};

    ghost meaning = { stay_row };

    ghost title = { codes "Stay" };

    ghost TOUCH = { nothing };

    ghost lawful = { stay_lawful nothing };

    const TOUCH: Touch = Touch::NOTHING;

    fn name() -> &'static [u8] {
        b"Stay"
    }

    fn apply(_alloc: Global, _arguments: &[u8], cell: &mut Cell) -> Result<Move, NoMemory> {
        if cell.is_closing {
            return Ok(Move::Hang);
        }
        Ok(Move::Park(Phase::Pause))
    }
}

/// The table of these two, written by hand.
pub struct OwnApps;

impl AppTable for OwnApps {
    ghost use Rattle.dp_own_table.specs.OwnTable.{own_blind, own_lawful, own_rows, own_touches};
    ghost use Rattle.dp_conf.specs.Words.{same_word};

    ghost rows = { own_rows same_word };

    ghost touches = { own_touches same_word };

    ghost lawful = { own_lawful same_word };

    ghost blind = { own_blind };

    type Functions = OwnFunctions;

    fn number_of(name: &[u8]) -> Option<AppNumber> {
        if same_word(name, b"Ping") || same_word(name, b"Stay") {
            return Some(AppNumber::first());
        }
        None
    }

    fn dispatch(
        alloc: Global,
        name: &[u8],
        arguments: &[u8],
        cell: &mut Cell,
    ) -> Result<Option<Move>, NoMemory> {
        if same_word(name, b"Ping") {
            let going = Ping::apply(alloc, arguments, cell)?;
            return Ok(Some(going));
        }
        if same_word(name, b"Stay") {
            let going = Stay::apply(alloc, arguments, cell)?;
            return Ok(Some(going));
        }
        Ok(None)
    }
}
