//! The events of seats, which are dealt to the seats in turn, and the work of each seat with its events.
ghost use Rattle.std.specs.Prelude.{◌≡◌, ◌++◌, ◌∷◌, ◌<◌, ◌≤◌, [], IfOk, OnOk, OnErr, All, length, replicate, true, false, ◌+◌};
ghost use Rattle.std.specs.List.{prefix_len};
ghost use Rattle.dp_commands.specs.Script.{line_turns, turns_of};
ghost use Rattle.dp_commands.specs.Threads as spec;
ghost use Rattle.dp_commands.specs.steps.Deals.{GaveFront, KeepNumbers};
ghost use Rattle.dp_commands.specs.declared.script.Turn.TheVariants as turns;

use crate::script::{ScriptLine, Turn};
use dp_board::{Board, Gate, Seat, Session};
use dp_machine::Event;
use dp_plan::NoMemory;
use dp_table::StandardApps;
use std::alloc::Global;
use std::sync::Wait;
use std::thread::{Threads, for_each_mut};

/// Adds an event a number of times.
fn push_copies(events: &mut Vec<Event>, event: &Event, count: u32) -> Result<(), NoMemory>
    ensures { OnOk result (events.new.items ≡ events.old.items ++ spec.events_in
        (replicate count (turns.Event event.now))) }
{
    for _copy in 0..count {
        events.push(event.copy()?)?;
    }
    Ok(())
}

/// Adds the events of a line; a line that shows a value has no event.
fn push_events(events: &mut Vec<Event>, line: &ScriptLine) -> Result<(), NoMemory>
    ensures { OnOk result (events.new.items ≡ events.old.items ++ spec.events_in (line_turns line.now)) }
{
    match &line.turn {
        Turn::Event(event) => push_copies(events, event, line.count),
        Turn::Show { .. } => Ok(()),
    }
}

/// The events of a script, in order.
pub(crate) fn events_of(alloc: Global, lines: &[ScriptLine]) -> Result<Vec<Event>, NoMemory>
    ensures { IfOk result (λ events. events.items ≡ spec.events_in (turns_of lines.now)) }
{
    let mut events = Vec::new(alloc);
    for line in lines {
        push_events(&mut events, line)?;
    }
    Ok(events)
}

fn is_start(event: &Event) -> bool
    ensures { result ≡ spec.is_start event.now }
{
    matches!(event, Event::Start { .. })
}

/// The number of events before the first that is not an incoming phone call.
pub(crate) fn leading_calls(events: &[Event]) -> usize
    ensures { result ≡ prefix_len spec.is_start events.now }
{
    events.iter().take_while(|event| is_start(event)).count()
}

/// The phone calls at the start of a list of events, and the events after them.
pub(crate) fn calls_and_others(events: &[Event]) -> (&[Event], &[Event])
    ensures calls { result.0.now ≡ spec.leading_calls events.now }
    ensures shared { result.1.now ≡ spec.shared_events events.now }
{
    events.split_at(leading_calls(events))
}

/// The number of events of one seat, if this number of seats take turns.
fn own_count(events: &[Event], count: usize, number: usize) -> usize
    requires { 0 < count }
    ensures is { result ≡ length (spec.items_of_seat count number events.now) }
    ensures within { result ≤ length events.now }
{
    let mut own = 0;
    for at in 0..events.len() {
        if at % count == number {
            own += 1;
        }
    }
    own
}

/// Whether each seat has replies to all its events.
pub(crate) fn have_acted<S: Session>(seats: &[Seat<S>], events: &[Event]) -> bool
    ensures { result ≡ true → All (λ seat. length
        (spec.items_of_seat (length seats.now) seat.number events.now) ≤ length seat.told) seats.now }
{
    for seat in seats {
        if seat.record().len() < own_count(events, seats.len(), seat.number() as usize) {
            return false;
        }
    }
    true
}

/// Events that are dealt to seats in turn, the gate whose two function calls enclose each event, and the allocator of what they need.
#[derive_where(Clone, Copy)]
pub(crate) struct Deal<'a, G> {
    pub(crate) alloc: Global,
    pub(crate) events: &'a [Event],
    pub(crate) gate: &'a G,
}

impl<G: Gate + Sync> Deal<'_, G> {
    /// Gives the machine one event for a seat, between the function calls of the gate. The gate gets the number of the seat's turn, counted
    /// from 0.
    fn act_one<S: Session, R: Wait>(
        self,
        rt: &R,
        board: &Board<StandardApps, S>,
        seat: &mut Seat<S>,
        event: &Event,
    ) -> Result<(), NoMemory>
        ensures number { seat.new.number ≡ seat.old.number }
        ensures ok { OnOk result (spec.events_told seat.new.told ≡ spec.events_told seat.old.told ++ event.now ∷ []) }
        ensures err { OnErr result (seat.new ≡ seat.old) }
    {
        let copy = event.copy()?;
        let channel = event.channel();
        self.gate.before(channel, seat.record().len() as u64);
        let (_place, reply) = board.act(rt, self.alloc, seat, copy)?;
        self.gate.after(channel, &reply);
        Ok(())
    }

    /// Gives the machine the events of one seat one after another, if this number of seats take turns.
    fn act_all<S: Session, R: Wait>(
        self,
        rt: &R,
        board: &Board<StandardApps, S>,
        seat: &mut Seat<S>,
        count: usize,
    ) -> Result<(), NoMemory>
        requires count { 0 < count }
        requires fresh { seat.old.told ≡ [] }
        ensures number { seat.new.number ≡ seat.old.number }
        ensures front { GaveFront count self.entry.events.now seat.new }
    {
        let events = self.events;
        let number = seat.number() as usize;
        for at in 0..events.len() {
            if at % count == number {
                self.act_one(rt, board, seat, &events[at])?;
            }
        }
        Ok(())
    }

    /// Each seat gives its events in a thread of its own.
    pub(crate) fn act_at_once<S: Session + Send + Sync, R: Threads + Wait + Sync>(
        self,
        rt: &R,
        board: &Board<StandardApps, S>,
        seats: &mut [Seat<S>],
    )
        requires some { 0 < length seats.old }
        requires fresh { All (λ seat. seat.told ≡ []) seats.old }
        ensures gave { All (GaveFront (length seats.old) self.entry.events.now) seats.new }
        ensures numbers { KeepNumbers seats.old seats.new }
    {
        let Deal {
            alloc,
            events,
            gate,
        } = self;
        let count = seats.len();
        let give = |_place: usize, seat: &mut Seat<S>|
            requires { (0 < count) × (seat.now.told ≡ []) }
            ensures { GaveFront count events.entry.now seat.exit.now × (seat.exit.now.number ≡ seat.entry.now.number) }
        {
            // If memory ran out, the seat has replies to fewer events than it has.
            let deal = Deal {
                alloc,
                events,
                gate,
            };
            let _ = deal.act_all(rt, board, seat, count);
        };
        for_each_mut(rt, seats, count, &give);
    }
}
