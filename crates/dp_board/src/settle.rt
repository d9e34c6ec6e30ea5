//! Settling a board: once all seats have come together, one history records its calls.
ghost use Rattle.std.specs.Prelude.{◌≡◌, ◌+◌, ◌<◌, ◌≤◌, [], All, IfOk, IfErr, MatchOption, length, replicate};
ghost use Rattle.std.specs.Prelude.{vec_len, vec_capacity};
ghost use Rattle.dp_app.specs.Rows.{with_functions};
ghost use Rattle.dp_board.specs.Difference as difference;
ghost use Rattle.dp_board.specs.Settled as settled;
ghost use Rattle.dp_board.specs.steps.Places as places;
ghost use Rattle.dp_board.specs.Unsettled as unsettled;

use crate::board::Board;
use crate::difference::{Disagree, first_difference};
use crate::entry::Entry;
use crate::fault::SettleFault;
use crate::history::History;
use crate::joining::{join_parts, split_parts};
use crate::places::{count_entries, is_record};
use crate::presence::least_absent;
use crate::seat::Seat;
use crate::session::Session;
use crate::sheet::SeatSheet;
use dp_app::AppTable;
use std::alloc::Global;

/// What is handed back of a board that was not settled.
#[derive(Drop)]
pub enum Back<T: AppTable, S: Session> {
    /// The board and the seats, as they were.
    Open {
        board: Board<T, S>,
        seats: Vec<Seat<S>>,
    },
    /// The history and the seats, as they were.
    Closed {
        history: History<T>,
        seats: Vec<Seat<S>>,
    },
}

/// Why a board was not settled, and what is handed back.
#[derive(Drop)]
pub struct Unsettled<T: AppTable, S: Session> {
    pub fault: SettleFault,
    pub back: Back<T, S>,
}

/// The difference with the lesser seat, of two.
fn lesser(least: Option<Disagree>, found: Option<Disagree>) -> Option<Disagree>
    ensures { result ≡ settled.lesser least found }
{
    match (least, found) {
        (None, found) => found,
        (least, None) => least,
        (Some(least), Some(found)) if found.seat < least.seat => Some(found),
        (least, _) => least,
    }
}

/// The first difference between what the entries tell a seat and its record. The counts give the number of the seat's entries. If there is
/// no difference only the record is walked.
fn difference_of<S: Session>(
    counts: &[usize],
    entries: &[Entry],
    seat: &Seat<S>,
) -> Option<Disagree>
    requires parts { S.parts ≡ length counts.now + 1 }
    requires counts { places.CountsEntries entries.now counts.now }
    ensures { MatchOption result (settled.Agrees entries.now seat.now) (λ found. (found.seat ≡ seat.now.number)
        × difference.FirstDiffers (difference.told_to seat.now.number entries.now) seat.now.told found.index) }
{
    let number = seat.number();
    if is_record(entries, number, seat.record(), counts[number as usize]) {
        return None;
    }
    first_difference(entries, number, seat.record())
}

/// Of the seats that differ from the entries, the one with the least number, and where it first differs. There is a count for each seat of
/// the board, which starts at 0.
fn least_difference<S: Session>(
    mut counts: Vec<usize>,
    entries: &[Entry],
    seats: &[Seat<S>],
) -> Option<Disagree>
    requires parts { S.parts ≡ length counts.items + 1 }
    requires fresh { counts.items ≡ replicate (length counts.items) 0 }
    requires seated { All (λ entry. entry.seat < length counts.items) entries.now }
    ensures { MatchOption result (All (settled.Agrees entries.now) seats.now)
        (settled.IsLeastDifference entries.now seats.now) }
{
    count_entries(&mut counts, entries);
    let mut least = None;
    for seat in seats {
        let found = difference_of(&counts, entries, seat);
        least = lesser(least, found);
    }
    least
}

/// Room to settle a board: for the rest of its seats, and for the number of entries of each.
#[derive(Drop)]
struct Room<S: Session> {
    sheets: Vec<SeatSheet<S>>,
    counts: Vec<usize>,
}

/// Room to settle a board with so many seats, if each of them is there.
fn room_for<S: Session>(
    alloc: Global,
    count: u32,
    seats: &[Seat<S>],
) -> Result<Room<S>, SettleFault>
    requires { S.parts ≡ count + 1 }
    ensures present { IfOk result (λ _. settled.AllPresent count seats.now × (count ≤ length seats.now)) }
    ensures sheets { IfOk result (λ room. (room.sheets.items ≡ []) × (length seats.now ≤ vec_capacity room.sheets)) }
    ensures counts { IfOk result (λ room. room.counts.items ≡ replicate count 0) }
    ensures err { IfErr result (unsettled.IsOpenFault count seats.now) }
{
    let mut present = vec![in alloc; false; count as usize]?;
    let counts = vec![in alloc; 0; count as usize]?;
    let sheets = Vec::with_capacity(alloc, seats.len())?;
    match least_absent(&mut present, count, seats) {
        Some(seat) => Err(SettleFault::SeatMissing { seat }),
        None => Ok(Room { sheets, counts }),
    }
}

/// One history with the calls of all seats of a board. The seats are the same afterwards.
fn history_of<T: AppTable, S: Session>(
    board: Board<T, S>,
    mut sheets: Vec<SeatSheet<S>>,
    seats: &mut Vec<Seat<S>>,
) -> History<T>
    requires present { settled.AllPresent board seats.old.items × (board ≤ length seats.old.items) }
    requires room { (sheets.items ≡ []) × (vec_len seats.old ≤ vec_capacity sheets) }
    ensures whole { settled.IsWholeHistory (with_functions T.rows T.Functions.table) S.opening board seats.old.items result }
    ensures same { seats.new.items ≡ seats.old.items }
{
    let shared = board.shared.into_inner();
    let mut all = board.rest.into_inner().share;
    join_parts(seats, &mut sheets, &mut all);
    let history = shared.into_history(&mut all);
    split_parts(&mut sheets, seats, &mut all);
    history
}

/// The history of a board whose seats are all there.
fn close<T: AppTable, S: Session>(
    board: Board<T, S>,
    room: Room<S>,
    mut seats: Vec<Seat<S>>,
) -> Result<History<T>, Unsettled<T, S>>
    requires present { settled.AllPresent board seats.items × (board ≤ length seats.items) }
    requires sheets { (room.sheets.items ≡ []) × (vec_len seats ≤ vec_capacity room.sheets) }
    requires counts { room.counts.items ≡ replicate board 0 }
    ensures ok { IfOk result (λ history. settled.IsSettled (with_functions T.rows T.Functions.table) S.opening board seats.items history) }
    ensures err { IfErr result (λ it. unsettled.IsUnsettled (with_functions T.rows T.Functions.table) S.opening board seats.items it.fault it.back) }
{
    let history = history_of(board, room.sheets, &mut seats);
    match least_difference(room.counts, history.entries(), &seats) {
        None => Ok(history),
        Some(found) => Err(Unsettled {
            fault: SettleFault::Differs(found),
            back: Back::Closed { history, seats },
        }),
    }
}

impl<T: AppTable, S: Session> Board<T, S> {
    /// The history of the board if all its seats are handed in: the entries of each seat, with their places, are its record, and there are
    /// no others. If memory runs out, or a seat is missing, the board and the seats are handed back. If the entries of a seat are not its
    /// record, the history and the seats are; such a history still has as many entries as the records have items, and replays.
    ///
    /// Running out of memory comes first, then the least number that is absent, then the least seat that differs.
    pub fn settle(self, alloc: Global, seats: Vec<Seat<S>>) -> Result<History<T>, Unsettled<T, S>>
        ensures ok { IfOk result (λ history. settled.IsSettled (with_functions T.rows T.Functions.table) S.opening self seats.items history) }
        ensures err { IfErr result (λ it. unsettled.IsUnsettled (with_functions T.rows T.Functions.table) S.opening self seats.items it.fault it.back) }
    {
        match room_for(alloc, self.seats, &seats) {
            Ok(room) => close(self, room, seats),
            Err(fault) => Err(Unsettled {
                fault,
                back: Back::Open { board: self, seats },
            }),
        }
    }
}
