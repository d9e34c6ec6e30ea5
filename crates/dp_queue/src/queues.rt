//! The queues of an exchange and their agents.
ghost use Rattle.std.specs.Prelude.{◌≡◌, ◌<◌, ℕ, List, length, IfSome};
ghost use Rattle.dp_queue.specs.Good.{IsGood};
ghost use Rattle.dp_queue.specs.Counted.{counts_of};
ghost use Rattle.dp_queue.specs.Joining.{waits_in};
ghost use Rattle.dp_queue.specs.Queues as spec;
ghost use Rattle.dp_queue.specs.steps.Seats.{seat_at};

use crate::agent::Agent;
use crate::agents::Agents;
use crate::queue::Queue;
use crate::queue_list::QueueList;
use crate::waiting_seat::{Seats, seat_at};
use dp_vars::Counts;
use std::marker::Model;

/// The queues of an exchange, with the agents that are their members and the count of finished calls.
///
/// A contract sees the queues in file order, the agents in the order in which they were first named, which are never
/// dropped, and the count of finished calls of all queues, which stays at its greatest value.
pub struct Queues {
    pub(crate) queues: QueueList,
    pub(crate) agents: Agents,
    // The queue in which each channel waits, or the agent with which it talks, so that no call walks over all waiting
    // lists or all agents.
    pub(crate) seats: Seats,
    pub(crate) finished: u64,
}

impl Drop for Queues {
    #[inline(always)]
    fn drop(self) {
        let Queues {
            queues: _,
            agents: _,
            seats: _,
            finished: _,
        } = self;
    }
}

impl Model for Queues {
    ghost use Rattle.dp_queue.specs.Good.{AreLinked};
    ghost use Rattle.dp_queue.specs.Queues.{QueuesOf};
    ghost use Rattle.dp_queue.specs.steps.Seats.{AreFound, AreSeated};

    ghost Value = { QueuesOf };

    ghost view = { λ q. record { queues = q.queues; agents = q.agents; finished = q.finished } };

    ghost invariant = { λ q. AreLinked q.queues q.agents × AreSeated q.seats q.queues q.agents × AreFound q.seats q.agents };
}

impl Queues {
    /// The queues, in file order; the number of a queue is its place.
    pub fn queues(&self) -> &[Queue]
        ensures { result.now ≡ self.now.queues }
    {
        self.queues.list()
    }

    /// The agents, in the order in which they were first named; the number of an agent is its place.
    pub fn agents(&self) -> &[Agent]
        ensures { result.now ≡ self.now.agents }
    {
        self.agents.list()
    }

    /// The number of finished calls of all queues.
    pub fn finished(&self) -> u64
        ensures { result ≡ self.now.finished }
    {
        self.finished
    }

    /// The number of the queue with this name, in any ASCII case.
    pub fn number_of(&self, queue: &[u8]) -> Option<usize>
        ensures number { result ≡ spec.queue_number self.now.queues queue.now }
        ensures within { IfSome result (λ number. number < length self.now.queues) }
    {
        self.queues.number_of(queue)
    }

    /// The number of the queue in which the channel waits.
    pub fn waits_in(&self, channel: u32) -> Option<usize>
        ensures { result ≡ waits_in self.now.queues channel }
    {
        match seat_at(&self.seats, channel) {
            Some(seat) => Some(seat.queue),
            None => None,
        }
    }

    /// States what is known of all queues: a channel waits at most once; the channel for which an agent rings waits in
    /// the queue of the agent's state; a channel with which an agent talks waits nowhere, and the queue of the agent's
    /// state is one of the queues; no two agents talk with the same channel; each member of a queue is one of the
    /// agents; no agent is a member of a queue twice; and no two agents have the same name. It does nothing.
    pub fn show_good(&self)
        ensures { IsGood self.now }
    {
        let _queues = &self.queues;
    }
}

impl Counts for Queues {
    ghost count = { λ q. counts_of q.queues };

    fn waiting(&self, queue: &[u8]) -> usize {
        match self.queues.number_of(queue) {
            None => 0,
            Some(number) => self.queues.list()[number].waiting_count(),
        }
    }

    fn members(&self, queue: &[u8]) -> Option<usize> {
        match self.queues.number_of(queue) {
            None => None,
            Some(number) => Some(self.queues.list()[number].members().len()),
        }
    }
}
