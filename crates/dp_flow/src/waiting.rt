//! The applications that wait, after the Asterisk documentation's pages on `Wait`, `WaitExten` and `Background`. Time and
//! media are left out: a wait ends when the channel is told of a time-out, and nothing is played.
ghost use Rattle.std.specs.Prelude.{◌≡◌, []};
ghost use Rattle.dp_app.specs.declared.phase.Phase.TheVariants.{Digits};
ghost use Rattle.dp_flow.specs.Waiting as spec;

use dp_app::{Application, Cell, Move, Phase, Touch};
use dp_conf::{NoMemory, Text};
use std::alloc::Global;

/// The channel waits in this phase. A channel that runs the extension `h` is hung up and cannot wait, so its call ends.
pub(crate) fn park_move(phase: Phase, is_closing: bool) -> Move
    ensures { result ≡ spec.park_move phase is_closing }
{
    if is_closing {
        return Move::Hang;
    }
    Move::Park(phase)
}

/// Digits, of which none has come yet. It never allocates.
fn no_digits(alloc: Global, is_background: bool) -> Phase
    ensures { result ≡ Digits [] is_background }
{
    Phase::Digits {
        text: Text::new(Vec::new(alloc)),
        is_background,
    }
}

/// `Wait(seconds)`: the channel waits until a time-out and then goes on; neither the number of seconds nor digits have an effect. During
/// `h` the call ends instead of waiting (a choice of this program).
pub struct Wait;

impl Application for Wait {
    ghost use Rattle.std.specs.Prelude.{codes};
    ghost use Rattle.dp_flow.specs.laws.Lawful.{wait_lawful};
    ghost use Rattle.dp_flow.specs.Touches.{nothing};
    ghost use Rattle.dp_flow.specs.Waiting.{wait_row};

    ghost meaning = { wait_row };

    ghost title = { codes "Wait" };

    ghost TOUCH = { nothing };

    ghost lawful = { wait_lawful };

    const TOUCH: Touch = Touch::NOTHING;

    fn name() -> &'static [u8] {
        b"Wait"
    }

    fn apply(_alloc: Global, _arguments: &[u8], cell: &mut Cell) -> Result<Move, NoMemory> {
        Ok(park_move(Phase::Pause, cell.is_closing))
    }
}

/// `WaitExten(seconds)`: the channel waits for the digits of an extension. On a time-out without a digit it goes on if the next priority
/// exists, else to the extension `t`. During `h` the call ends instead of waiting (a choice of this program).
pub struct WaitExten;

impl Application for WaitExten {
    ghost use Rattle.std.specs.Prelude.{codes};
    ghost use Rattle.dp_flow.specs.laws.Lawful.{wait_exten_lawful};
    ghost use Rattle.dp_flow.specs.Touches.{nothing};
    ghost use Rattle.dp_flow.specs.Waiting.{wait_exten_row};

    ghost meaning = { wait_exten_row };

    ghost title = { codes "WaitExten" };

    ghost TOUCH = { nothing };

    ghost lawful = { wait_exten_lawful };

    const TOUCH: Touch = Touch::NOTHING;

    fn name() -> &'static [u8] {
        b"WaitExten"
    }

    fn apply(alloc: Global, _arguments: &[u8], cell: &mut Cell) -> Result<Move, NoMemory> {
        Ok(park_move(no_digits(alloc, false), cell.is_closing))
    }
}

/// `Background(files)`: nothing is played here, and the channel waits for the digits of an extension. On a time-out without a digit it goes
/// on at the next priority. During `h` the call ends instead of waiting (a choice of this program).
pub struct Background;

impl Application for Background {
    ghost use Rattle.std.specs.Prelude.{codes};
    ghost use Rattle.dp_flow.specs.laws.Lawful.{background_lawful};
    ghost use Rattle.dp_flow.specs.Touches.{nothing};
    ghost use Rattle.dp_flow.specs.Waiting.{background_row};

    ghost meaning = { background_row };

    ghost title = { codes "Background" };

    ghost TOUCH = { nothing };

    ghost lawful = { background_lawful };

    const TOUCH: Touch = Touch::NOTHING;

    fn name() -> &'static [u8] {
        b"Background"
    }

    fn apply(alloc: Global, _arguments: &[u8], cell: &mut Cell) -> Result<Move, NoMemory> {
        Ok(park_move(no_digits(alloc, true), cell.is_closing))
    }
}
