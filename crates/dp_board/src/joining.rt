//! The parts of a ledger, joined from the seats and split among them again.
ghost use Rattle.std.specs.Prelude.{◌≡◌, ◌+◌, ◌<◌, ◌≤◌, [], length, reverse, vec_len, vec_capacity};
ghost use Rattle.dp_board.specs.Settled.{calls_of};

use crate::seat::Seat;
use crate::session::Session;
use crate::sheet::SeatSheet;
use std::sync::ledger::Share;

/// Joins the seats' parts of the ledger into one share, and leaves the rest of the seats, last seat first.
pub(crate) fn join_parts<S: Session>(
    seats: &mut Vec<Seat<S>>,
    sheets: &mut Vec<SeatSheet<S>>,
    all: &mut Share<S>,
)
    requires empty { sheets.old.items ≡ [] }
    requires room { vec_len seats.old ≤ vec_capacity sheets.old }
    requires bound { all.old.parts ≤ S.parts }
    ensures sheets { sheets.new.items ≡ reverse seats.old.items }
    ensures seats { seats.new.items ≡ [] }
    ensures capacity { vec_capacity seats.new ≡ vec_capacity seats.old }
    ensures parts { all.new.parts ≡ all.old.parts + length seats.old.items }
    ensures amount { all.new.amount ≡ all.old.amount + calls_of seats.old.items }
    ensures bound { all.new.parts ≤ S.parts }
{
    while let Some(seat) = seats.pop() {
        let (sheet, share) = seat.into_parts();
        all.merge(share);
        sheets.push_reserved(sheet);
    }
}

/// Splits one share into the seats' parts of the ledger, and puts the seats together again, that of the last sheet first.
pub(crate) fn split_parts<S: Session>(
    sheets: &mut Vec<SeatSheet<S>>,
    seats: &mut Vec<Seat<S>>,
    all: &mut Share<S>,
)
    requires empty { seats.old.items ≡ [] }
    requires room { vec_len sheets.old ≤ vec_capacity seats.old }
    requires parts { length sheets.old.items < all.old.parts }
    requires amount { calls_of sheets.old.items ≤ all.old.amount }
    ensures { seats.new.items ≡ reverse sheets.old.items }
{
    while let Some(sheet) = sheets.pop() {
        let share = all.split_off(1, sheet.count());
        seats.push_reserved(sheet.into_seat(share));
    }
}
