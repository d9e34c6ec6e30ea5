//! A board: one machine under one lock, to which threads give events through their seats.
ghost use Rattle.std.specs.Prelude.{◌≡◌, ◌+◌, ◌<◌, ◌≤◌, IfOk, OnErr, IfErr, [], map, vec_capacity};
ghost use Rattle.std.specs.List.{range_with_len};
ghost use Rattle.dp_board.specs.Sittings as spec;

use crate::seat::Seat;
use crate::session::Session;
use crate::shared::Shared;
use dp_app::AppTable;
use dp_machine::{Event, Machine, NoMemory, Reply};
use std::alloc::Global;
use std::marker::Model;
use std::sync::ledger::{Blank, Book, Share};
use std::sync::{Condvar, Mutex, Wait};

/// The part of the ledger that belongs to no seat. Its amount stays 0.
#[derive(Drop)]
pub(crate) struct Rest<S: Session> {
    pub(crate) share: Share<S>,
    ghost one_part: { share.parts ≡ 1 },
    ghost no_call: { share.amount ≡ 0 },
}

impl<S: Session> Rest<S> {
    fn new(share: Share<S>) -> Self
        requires { (share.parts ≡ 1) × (share.amount ≡ 0) }
    {
        Rest { share }
    }
}

/// One machine for many threads, each of which acts through a seat of the board. A contract sees it as the number of its seats.
#[derive(Drop)]
pub struct Board<T: AppTable, S: Session> {
    pub(crate) shared: Mutex<Shared<T, S>>,
    pub(crate) changed: Condvar,
    pub(crate) rest: Mutex<Rest<S>>,
    pub(crate) seats: u32,
}

impl<T: AppTable, S: Session> Model for Board<T, S> {
    ghost use Rattle.std.specs.Prelude.{◌≡◌, ◌+◌, ℕ};

    ghost Value = { ℕ };

    ghost view = { λ board. board.seats };

    ghost invariant = { λ board. S.parts ≡ board.seats + 1 };
}

/// A number of seats with empty records, each with a part of the ledger from the share.
fn split_seats<S: Session>(
    alloc: Global,
    share: &mut Share<S>,
    count: u32,
    seats: &mut Vec<Seat<S>>,
)
    requires parts { (share.old.parts ≡ S.parts) × (S.parts ≡ count + 1) }
    requires amount { share.old.amount ≡ 0 }
    requires empty { seats.old.items ≡ [] }
    requires room { count ≤ vec_capacity seats.old }
    ensures seats { seats.new.items ≡ map spec.new_sitting (range_with_len 0 count) }
    ensures left { (share.new.parts ≡ 1) × (share.new.amount ≡ 0) }
{
    for number in 0..count {
        let part = share.split_off(1, 0);
        let seat = Seat {
            number,
            told: Vec::new(alloc),
            share: part,
        };
        seats.push_reserved(seat);
    }
}

/// A board with a number of seats over a machine, and the share's part of its own.
fn board_over<T: AppTable, S: Session>(
    machine: Machine<T>,
    alloc: Global,
    calls: Book<S>,
    share: Share<S>,
    seats: u32,
) -> Board<T, S>
    requires opening { machine ≡ S.opening }
    requires calls { calls.total ≡ 0 }
    requires rest { (share.parts ≡ 1) × (share.amount ≡ 0) }
    requires parts { S.parts ≡ seats + 1 }
    ensures { result ≡ seats }
{
    Board {
        shared: Mutex::new(Shared::new(alloc, machine, calls)),
        changed: Condvar::new(),
        rest: Mutex::new(Rest::new(share)),
        seats,
    }
}

impl<T: AppTable, S: Session> Board<T, S> {
    /// A board with a number of seats over a machine, and its seats, which are numbered from 0 and have empty records. The ledger of the
    /// session has a part for each seat, and one more, which the board keeps.
    ///
    /// If memory runs out the machine is handed back. The session is over then: another attempt needs another session.
    pub fn open(
        alloc: Global,
        blank: Blank,
        machine: Machine<T>,
        seats: u32,
    ) -> Result<(Board<T, S>, Vec<Seat<S>>), (Machine<T>, NoMemory)>
        requires name { blank.name ≡ S.name }
        requires parts { (blank.parts ≡ S.parts) × (blank.parts ≡ seats + 1) }
        requires opening { machine ≡ S.opening }
        ensures board { IfOk result (λ opened. opened.0 ≡ seats) }
        ensures seats { IfOk result (λ opened. opened.1.items ≡ map spec.new_sitting (range_with_len 0 seats)) }
        ensures err { IfErr result (λ back. back.0 ≡ machine) }
    {
        let mut places = match Vec::with_capacity(alloc, seats as usize) {
            Ok(places) => places,
            Err(refused) => return Err((machine, refused)),
        };
        let (calls, mut share) = blank.open::<S>();
        split_seats(alloc, &mut share, seats, &mut places);
        Ok((board_over(machine, alloc, calls, share, seats), places))
    }

    /// Gives one event to the machine for a seat, and wakes the threads that wait. It adds the entry of the call to the history. It returns
    /// the entry's place there, counted from 0, and the reply, and adds them with the event to the seat's record.
    ///
    /// If memory runs out the machine, the history and the record are as before.
    pub fn act<R: Wait>(
        &self,
        rt: &R,
        alloc: Global,
        seat: &mut Seat<S>,
        event: Event,
    ) -> Result<(usize, Reply), NoMemory>
        ensures told { IfOk result (λ told. seat.new ≡ spec.with_call seat.old told.0 event told.1) }
        ensures err { OnErr result (seat.new ≡ seat.old) }
    {
        let answer = self.shared.lock(rt).step(alloc, seat, event)?;
        self.changed.notify_all();
        Ok(answer)
    }
}
