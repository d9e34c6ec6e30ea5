//! Sessions: each is one board with its seats.
ghost use Rattle.dp_machine.specs.World.{World};
ghost use Rattle.dp_board.specs.Log.{nothing_yet};

use std::marker::Brand;
use std::sync::ledger::Ledger;

/// A session, to which a board and its seats belong: its ledger, and the world in which it opens. A call of a function that is generic over
/// its session picks both by `Brand`, so that seats of another board do not fit.
pub trait Session: Ledger {
    /// The world of the machine that the board is opened with.
    ghost opening: { World };
}

impl Session for Brand {
    ghost opening = { nothing_yet };
}
