//! What a seat was told, without its part of the ledger.
ghost use Rattle.std.specs.Prelude.{◌≡◌, length};

use crate::seat::Seat;
use crate::seat_call::SeatCall;
use crate::session::Session;
use std::marker::{Model, PhantomData};
use std::sync::ledger::Share;

/// The number of a seat and its record, while the seat's part of the ledger is joined with the others.
#[derive(Drop)]
pub(crate) struct SeatSheet<S: Session> {
    number: u32,
    told: Vec<SeatCall>,
    session: PhantomData<S>,
}

impl<S: Session> Model for SeatSheet<S> {
    ghost use Rattle.std.specs.Prelude.{◌+◌, ◌<◌};
    ghost use Rattle.dp_board.specs.Sittings.{SeatSitting};

    ghost Value = { SeatSitting };

    ghost view = { λ sheet. record { number = sheet.number; told = sheet.told.items } };

    ghost invariant = { λ sheet. sheet.number + 1 < S.parts };
}

impl<S: Session> SeatSheet<S> {
    /// The number of calls that the seat was told of.
    pub(crate) fn count(&self) -> u64
        ensures { result ≡ length self.now.told }
    {
        self.told.len() as u64
    }

    /// The seat, with its part of the ledger again.
    pub(crate) fn into_seat(self, share: Share<S>) -> Seat<S>
        requires { (share.parts ≡ 1) × (share.amount ≡ length self.told) }
        ensures { result ≡ self }
    {
        Seat {
            number: self.number,
            told: self.told,
            share,
        }
    }
}

impl<S: Session> Seat<S> {
    /// The seat's part of the ledger, and the rest of the seat.
    pub(crate) fn into_parts(self) -> (SeatSheet<S>, Share<S>)
        ensures sheet { result.0 ≡ self }
        ensures share { (result.1.parts ≡ 1) × (result.1.amount ≡ length self.told) }
    {
        let sheet = SeatSheet {
            number: self.number,
            told: self.told,
            session: PhantomData,
        };
        (sheet, self.share)
    }
}
