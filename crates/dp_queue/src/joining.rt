//! How calls join queues and leave them, after the Asterisk documentation's page on the application `Queue`.
ghost use Rattle.std.specs.Prelude.{◌≡◌, ◌<◌, ◌≤◌, ℕ, IfOk, OnOk, OnErr, None, Some, false, length};
ghost use Rattle.dp_queue.specs.Agents.{all_freed, is_talking};
ghost use Rattle.dp_conf.specs.Changes.{changed_at};
ghost use Rattle.dp_queue.specs.Joining as spec;
ghost use Rattle.dp_queue.specs.steps.Seats.{seat_at, rung_count, talk_at, ReplacesSeat, ReplacesTalk};

use crate::agents::Agents;
use crate::freeing::free_rung;
use crate::join::Join;
use crate::queue_list::QueueList;
use crate::queues::Queues;
use crate::waiting_seat::{
    Seats, WaitingSeat, leave_seat, make_room, next_arrival, place_by_arrival, seat_at, take_seat,
};
use dp_conf::NoMemory;

/// The result of joining the queue with a name.
fn join_answer(queues: &QueueList, name: &[u8]) -> Join
    ensures answer { result ≡ spec.would_join queues.now name.now }
    ensures within { spec.IsWithin (length queues.now) result }
{
    match queues.number_of(name) {
        None => Join::Unknown,
        Some(number) => queues.list()[number].join_answer(number),
    }
}

/// Adds a channel at the end of those that wait in a queue.
fn sit(
    queues: &mut QueueList,
    seats: &mut Seats,
    number: usize,
    channel: u32,
) -> Result<(), NoMemory>
    requires { number < length queues.old }
    ensures ok { OnOk result (queues.new ≡ changed_at (spec.with_caller channel) number queues.old) }
    ensures seated { OnOk result (ReplacesSeat channel (Some (record { queue = number; rung = 0 })) seats.old seats.new) }
    ensures talks { OnOk result (ReplacesTalk channel None seats.old seats.new) }
    ensures err { OnErr result (queues.new ≡ queues.old) }
    ensures same { OnErr result ((c : ℕ) → seat_at seats.new c ≡ seat_at seats.old c) }
    ensures still { OnErr result ((c : ℕ) → talk_at seats.new c ≡ talk_at seats.old c) }
{
    make_room(seats)?;
    let arrival = next_arrival(seats, queues.list()[number].waiting());
    queues.push_caller(number, channel)?;
    take_seat(
        seats,
        channel,
        WaitingSeat {
            queue: number,
            rung: 0,
        },
        arrival,
    );
    Ok(())
}

/// Removes a channel from the queue in which it waits, but keeps its seat. The agents that ring for it, if any, become
/// idle.
pub(crate) fn unseat(
    queues: &mut QueueList,
    agents: &mut Agents,
    seats: &Seats,
    seat: WaitingSeat,
    channel: u32,
)
    requires within { seat.queue < length queues.old }
    requires once { spec.times_waiting queues.old channel ≤ 1 }
    requires rung { seat.rung ≡ rung_count agents.old channel }
    ensures queues { queues.new ≡ changed_at (spec.without_caller channel) seat.queue queues.old }
    ensures agents { agents.new ≡ all_freed channel agents.old }
{
    let queue = &queues.list()[seat.queue];
    let place = place_by_arrival(seats, queue.waiting(), channel);
    free_rung(agents, queue.members(), channel, seat.rung);
    queues.remove_caller(seat.queue, place, channel);
}

impl Queues {
    /// The result that joining the queue with this name would have. It never allocates.
    pub fn would_join(&self, queue: &[u8]) -> Join
        ensures { result ≡ spec.would_join self.now.queues queue.now }
    {
        join_answer(&self.queues, queue)
    }

    /// Adds a call as the last one waiting in the queue with this name, in any ASCII case, unless the result says
    /// otherwise. It is checked first whether the queue is too empty, according to `joinempty`, and then whether it is
    /// full. If memory runs out nothing changes.
    pub fn join(&mut self, queue: &[u8], channel: u32) -> Result<Join, NoMemory>
        requires nowhere { spec.waits_in self.old.queues channel ≡ None }
        requires silent { is_talking self.old.agents channel ≡ false }
        ensures ok { IfOk result (λ join. spec.join_row self.old queue.now channel ≡ (self.new, join)) }
        ensures err { OnErr result (self.new ≡ self.old) }
    {
        match join_answer(&self.queues, queue) {
            Join::Joined(number) => {
                sit(&mut self.queues, &mut self.seats, number, channel)?;
                Ok(Join::Joined(number))
            }
            Join::Unknown => Ok(Join::Unknown),
            Join::Empty => Ok(Join::Empty),
            Join::Full => Ok(Join::Full),
        }
    }

    /// Removes a call from the queue in which it waits, and makes the agents that ring for it idle. Returns whether it
    /// waited.
    pub fn leave(&mut self, channel: u32) -> bool
        ensures { spec.leave_row self.old channel ≡ (self.new, result) }
    {
        match seat_at(&self.seats, channel) {
            None => false,
            Some(seat) => {
                unseat(
                    &mut self.queues,
                    &mut self.agents,
                    &self.seats,
                    seat,
                    channel,
                );
                leave_seat(&mut self.seats, channel);
                true
            }
        }
    }

    /// Whether the calls that wait in the queue with this number must leave it because it is too empty, according to
    /// `leavewhenempty`; false if there is no such queue.
    pub fn should_leave(&self, queue: usize) -> bool
        ensures { result ≡ spec.should_leave self.now queue }
    {
        match self.queues.list().get(queue) {
            None => false,
            Some(queue) => queue.should_leave(),
        }
    }
}
