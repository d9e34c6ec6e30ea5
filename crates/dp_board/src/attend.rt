//! Attending a channel: step after step, until it ends or the turns are spent.
ghost use Rattle.std.specs.Prelude.{◌≡◌, ◌+◌, ◌≤◌, length, IfOk, OnErr};
ghost use Rattle.dp_app.specs.Rows.{with_functions};
ghost use Rattle.dp_board.specs.Attending as steps;
ghost use Rattle.dp_board.specs.Sittings as sittings;
ghost use Rattle.dp_machine.specs.declared.event.Event.TheVariants.{Step};

use crate::board::Board;
use crate::seat::Seat;
use crate::session::Session;
use dp_app::AppTable;
use dp_machine::{Event, NoMemory, Refusal, Reply};
use std::alloc::Global;
use std::sync::Wait;

/// A gate, whose function calls enclose each event that a thread gives. Turns are counted from 0.
pub trait Gate {
    /// Called before the event of a turn.
    fn before(&self, channel: u32, turn: u64);

    /// Called with the reply to the event.
    fn after(&self, channel: u32, reply: &Reply);
}

/// Why an attendance is over.
#[derive(Clone, Copy, Debug, PartialEq, Eq)]
pub enum AttendedWhy {
    /// The channel has ended.
    Ended,
    /// All turns were taken.
    TurnsSpent,
    /// The last step was refused because there is no such channel.
    Refused(Refusal),
}

/// How an attendance went: how many steps were given, and why it is over.
#[derive(Clone, Copy, Debug, PartialEq, Eq)]
pub struct Attended {
    pub steps: u64,
    pub why: AttendedWhy,
}

/// Why an attendance is over after this reply, if it is: `has_ended` says that the channel had ended after the turn.
fn end_after(reply: Reply, has_ended: bool) -> Option<AttendedWhy>
    ensures { steps.IsEndAfter has_ended reply result }
{
    if has_ended || reply == Reply::Refused(Refusal::Ended) {
        return Some(AttendedWhy::Ended);
    }
    if reply == Reply::Refused(Refusal::NoChannel) {
        return Some(AttendedWhy::Refused(Refusal::NoChannel));
    }
    None
}

impl<T: AppTable, S: Session> Board<T, S> {
    /// Waits while the channel is parked, then releases the lock.
    fn wait_for<R: Wait>(&self, rt: &R, channel: u32) {
        let guard = self.shared.lock(rt);
        let _guard = self
            .changed
            .wait_while(rt, guard, |shared| shared.parked(channel));
    }

    /// Gives a channel its next step for a seat. Returns the place of its entry, the reply, and whether the channel has ended after it.
    fn step<R: Wait>(
        &self,
        rt: &R,
        alloc: Global,
        seat: &mut Seat<S>,
        channel: u32,
    ) -> Result<(usize, Reply, bool), NoMemory>
        ensures ok { IfOk result (λ answer. seat.new ≡ steps.with_step seat.old channel answer.0 answer.1) }
        ensures left { IfOk result (λ answer. steps.EndsWithStep (with_functions T.rows T.Functions.table) S.opening channel
            (sittings.call_of answer.0 (Step channel) answer.1) answer.2) }
        ensures err { OnErr result (seat.new ≡ seat.old) }
    {
        let mut shared = self.shared.lock(rt);
        let (place, reply) = shared.step(alloc, seat, Event::Step { channel })?;
        let has_ended = shared.has_ended(channel);
        drop(shared);
        self.changed.notify_all();
        Ok((place, reply, has_ended))
    }

    /// One turn: waits while the channel is parked, and gives it its next step between the function calls of the gate.
    fn turn<R: Wait, G: Gate>(
        &self,
        rt: &R,
        alloc: Global,
        seat: &mut Seat<S>,
        channel: u32,
        gate: &G,
        turn: u64,
    ) -> Result<(usize, Reply, Option<AttendedWhy>), NoMemory>
        ensures ok { IfOk result (λ answer. seat.new ≡ steps.with_step seat.old channel answer.0 answer.1) }
        ensures end { IfOk result (λ answer. steps.IsEnd (with_functions T.rows T.Functions.table) S.opening channel
            (sittings.call_of answer.0 (Step channel) answer.1) answer.2) }
        ensures err { OnErr result (seat.new ≡ seat.old) }
    {
        self.wait_for(rt, channel);
        gate.before(channel, turn);
        let (place, reply, has_ended) = self.step(rt, alloc, seat, channel)?;
        gate.after(channel, &reply);
        Ok((place, reply, end_after(reply, has_ended)))
    }

    /// Gives a channel one step after another for a seat, up to a limit. Before each step it waits while the channel is parked, and it
    /// calls the gate before and after the step; it does not hold the lock then. It is over if the channel has ended, if there is no such
    /// channel, or if the turns are spent, checked in this order. A step that is refused for another reason counts as one.
    ///
    /// If memory runs out the earlier steps stay.
    pub fn attend<R: Wait, G: Gate>(
        &self,
        rt: &R,
        alloc: Global,
        seat: &mut Seat<S>,
        channel: u32,
        gate: &G,
        turns: u64,
    ) -> Result<Attended, NoMemory>
        ensures steps { steps.AddsSteps channel seat.old seat.new }
        ensures bound { length seat.new.told ≤ length seat.old.told + turns }
        ensures count { IfOk result (λ attended. length seat.new.told ≡ length seat.old.told + attended.steps) }
        ensures on { steps.GoesOnToLast (with_functions T.rows T.Functions.table) S.opening channel (steps.calls_since seat.old seat.new) }
        ensures why { IfOk result (λ attended. steps.IsReason (with_functions T.rows T.Functions.table) S.opening channel attended.why turns
            (steps.calls_since seat.old seat.new)) }
    {
        for turn in 0..turns {
            let (_place, _reply, end) = self.turn(rt, alloc, seat, channel, gate, turn)?;
            if let Some(why) = end {
                return Ok(Attended {
                    steps: turn + 1,
                    why,
                });
            }
        }
        Ok(Attended {
            steps: turns,
            why: AttendedWhy::TurnsSpent,
        })
    }
}
