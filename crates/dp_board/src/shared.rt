//! The data under the lock of a board.
ghost use Rattle.std.specs.Prelude.{◌≡◌, ◌++◌, ◌∷◌, ◌<◌, [], length, vec_len, vec_capacity, IfOk, OnOk, OnErr};
ghost use Rattle.dp_app.specs.Rows.{with_functions};
ghost use Rattle.dp_board.specs.Log as log;
ghost use Rattle.dp_board.specs.Sittings as sittings;
ghost use Rattle.dp_machine.specs.Events as events;

use crate::entry::Entry;
use crate::history::History;
use crate::seat::Seat;
use crate::seat_call::SeatCall;
use crate::session::Session;
use dp_app::AppTable;
use dp_machine::{Event, Machine, NoMemory, Phase, Reply};
use std::alloc::Global;
use std::marker::Model;
use std::sync::ledger::{Book, Share};

/// The machine that the seats of a session share, and the entries of the calls so far. Its world and the replies in the entries always come
/// from the events in the entries, one after another, starting from the world in which the session opened. A contract sees it as the world
/// and the entries.
pub struct Shared<T: AppTable, S: Session> {
    machine: Machine<T>,
    entries: Vec<Entry>,
    calls: Book<S>,
}

impl<T: AppTable, S: Session> Drop for Shared<T, S> {
    fn drop(self) {
        let Shared {
            machine: _,
            entries: _,
            calls: _,
        } = self;
    }
}

impl<T: AppTable, S: Session> Model for Shared<T, S> {
    ghost use Rattle.std.specs.Prelude.{◌≡◌, length};
    ghost use Rattle.std.specs.Coded.{codes};
    ghost use Rattle.dp_vars.specs.Variables.{named_code};
    ghost use Rattle.dp_app.specs.Rows.{with_functions};
    ghost use Rattle.dp_board.specs.Log.{Log, Replays, AreSeated};

    ghost Value = { Log };

    ghost coded = { Prim.hlevel (codes, named_code) };

    ghost view = { λ shared. record { world = shared.machine; entries = shared.entries.items } };

    ghost invariant = { λ shared.
        Replays (with_functions T.rows T.Functions.table) S.opening (record { world = shared.machine; entries = shared.entries.items })
        × (length shared.entries.items ≡ shared.calls.total)
        × AreSeated S.parts shared.entries.items };
}

/// Whether a channel in this phase waits for something other than its next step.
fn is_parked(phase: &Phase) -> bool
    ensures { result ≡ log.is_parked_in phase.now }
{
    match phase {
        Phase::Digits { .. }
        | Phase::Pause
        | Phase::Queued { .. }
        | Phase::Talking { .. }
        | Phase::Dialling { .. } => true,
        Phase::Ready | Phase::Ended => false,
    }
}

/// Whether a channel in this phase has ended.
fn is_ended(phase: &Phase) -> bool
    ensures { result ≡ log.has_ended_in phase.now }
{
    match phase {
        Phase::Ended => true,
        Phase::Ready
        | Phase::Digits { .. }
        | Phase::Pause
        | Phase::Queued { .. }
        | Phase::Talking { .. }
        | Phase::Dialling { .. } => false,
    }
}

/// Makes room for one more entry, and for one more call in a record.
fn make_room(entries: &mut Vec<Entry>, told: &mut Vec<SeatCall>) -> Result<(), NoMemory>
    ensures entries { entries.new.items ≡ entries.old.items }
    ensures told { told.new.items ≡ told.old.items }
    ensures room { OnOk result ((vec_len entries.new < vec_capacity entries.new) ×
        (vec_len told.new < vec_capacity told.new)) }
{
    entries.reserve(1)?;
    told.reserve(1)
}

/// Applies an event, with room for its entry and its record, and gives a copy of it with the reply. If memory runs out the machine is as
/// before.
fn apply_copied<T: AppTable>(
    alloc: Global,
    machine: &mut Machine<T>,
    entries: &mut Vec<Entry>,
    told: &mut Vec<SeatCall>,
    event: &Event,
) -> Result<(Event, Reply), NoMemory>
    ensures entries { entries.new.items ≡ entries.old.items }
    ensures told { told.new.items ≡ told.old.items }
    ensures room { OnOk result ((vec_len entries.new < vec_capacity entries.new) ×
        (vec_len told.new < vec_capacity told.new)) }
    ensures copy { IfOk result (λ applied. applied.0 ≡ event.now) }
    ensures row { IfOk result (λ applied. events.event_row (with_functions T.rows T.Functions.table) machine.old event.now ≡ (machine.new, applied.1)) }
    ensures err { OnErr result (machine.new ≡ machine.old) }
{
    make_room(entries, told)?;
    let copy = event.copy()?;
    let reply = machine.apply_kept(alloc, event)?;
    Ok((copy, reply))
}

impl<T: AppTable, S: Session> Shared<T, S> {
    /// A machine on which no seat has acted.
    pub(crate) fn new(alloc: Global, machine: Machine<T>, calls: Book<S>) -> Self
        requires opening { machine ≡ S.opening }
        requires calls { calls.total ≡ 0 }
        ensures { result ≡ record { world = machine; entries = [] } }
    {
        Shared {
            machine,
            entries: Vec::new(alloc),
            calls,
        }
    }

    /// Gives one event to the machine for a seat. It adds the entry of the call at the end of the entries. It returns the entry's place
    /// there, counted from 0, and the reply, and adds them with the event at the end of the seat's record.
    ///
    /// If memory runs out everything is as before.
    pub fn step(
        &mut self,
        alloc: Global,
        seat: &mut Seat<S>,
        event: Event,
    ) -> Result<(usize, Reply), NoMemory>
        ensures row { IfOk result (λ told. log.IsRow (with_functions T.rows T.Functions.table) self.old event told.1 self.new) }
        ensures place { IfOk result (λ told. told.0 ≡ length self.old.entries) }
        ensures logged { IfOk result (λ told. self.new.entries
            ≡ self.old.entries ++ record { seat = seat.old.number; event = event; reply = told.1 } ∷ []) }
        ensures replays { IfOk result (λ _. log.Replays (with_functions T.rows T.Functions.table) S.opening self.new) }
        ensures kept { IfOk result (λ told. seat.new ≡ sittings.with_call seat.old told.0 event told.1) }
        ensures err { OnErr result ((self.new ≡ self.old) × (seat.new ≡ seat.old)) }
    {
        let (told, reply) = apply_copied(
            alloc,
            &mut self.machine,
            &mut self.entries,
            &mut seat.told,
            &event,
        )?;
        let place = self.entries.len();
        self.entries.push_reserved(Entry {
            seat: seat.number,
            event,
            reply,
        });
        seat.told.push_reserved(SeatCall {
            place,
            event: told,
            reply,
        });
        self.calls.add(&mut seat.share, 1);
        Ok((place, reply))
    }

    /// Whether the channel exists and waits for something other than its next step.
    pub fn parked(&self, channel: u32) -> bool
        ensures { result ≡ log.is_parked self.now channel }
    {
        match self.machine.phase(channel) {
            Some(phase) => is_parked(phase),
            None => false,
        }
    }

    /// Whether the channel exists and has ended.
    pub(crate) fn has_ended(&self, channel: u32) -> bool
        ensures { result ≡ log.has_ended self.now channel }
    {
        match self.machine.phase(channel) {
            Some(phase) => is_ended(phase),
            None => false,
        }
    }

    /// The entries of the calls so far.
    pub(crate) fn entries(&self) -> &[Entry]
        ensures { result.now ≡ self.now.entries }
    {
        &self.entries
    }

    /// The history, once all parts of the ledger are in one share: it has as many entries as the share counts calls.
    pub(crate) fn into_history(self, all: &mut Share<S>) -> History<T>
        requires { all.old.parts ≡ S.parts }
        ensures history { result ≡ self }
        ensures replays { log.Replays (with_functions T.rows T.Functions.table) S.opening self }
        ensures calls { length self.entries ≡ all.old.amount }
        ensures seated { log.AreSeated S.parts self.entries }
        ensures same { (all.new.parts ≡ all.old.parts) × (all.new.amount ≡ all.old.amount) }
    {
        let Shared {
            machine,
            entries,
            mut calls,
        } = self;
        calls.audit(all);
        History::new(machine, entries)
    }
}
