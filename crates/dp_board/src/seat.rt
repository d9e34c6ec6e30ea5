//! Seats, through which threads act on a shared world.
ghost use Rattle.std.specs.Prelude.{◌≡◌, ◌+◌, ◌<◌};

use crate::seat_call::SeatCall;
use crate::session::Session;
use std::marker::Model;
use std::sync::ledger::Share;

/// A seat of a board, which one thread at a time holds. It has a number, and a record of its calls: for each of them the place of its entry
/// in the history, the event and the reply. A contract sees it as these.
#[derive(Drop)]
pub struct Seat<S: Session> {
    pub(crate) number: u32,
    pub(crate) told: Vec<SeatCall>,
    pub(crate) share: Share<S>,
}

impl<S: Session> Model for Seat<S> {
    ghost use Rattle.std.specs.Prelude.{◌≡◌, ◌+◌, ◌<◌, length};
    ghost use Rattle.dp_board.specs.Sittings.{SeatSitting};

    ghost Value = { SeatSitting };

    ghost view = { λ seat. record { number = seat.number; told = seat.told.items } };

    ghost invariant = { λ seat.
        (seat.share.parts ≡ 1) × (seat.share.amount ≡ length seat.told.items) × (seat.number + 1 < S.parts) };
}

impl<S: Session> Seat<S> {
    /// The number of the seat. Seats are numbered from 0.
    pub fn number(&self) -> u32
        ensures number { result ≡ self.now.number }
        ensures bound { result + 1 < S.parts }
    {
        self.number
    }

    /// What the seat was told call by call: the place of the call's entry in the history, the event, and the reply.
    pub fn record(&self) -> &[SeatCall]
        ensures { result.now ≡ self.now.told }
    {
        &self.told
    }
}
