//! The call of a queue that is offered next, and the agents to which it is offered, after the Asterisk documentation's page on queues.
ghost use Rattle.std.specs.Prelude.{◌≡◌, ◌+◌, ◌<◌, ◌^◌, not, length, slice_get, Some, if◌then◌else◌};
ghost use Rattle.std.specs.List.{All, filter, find};
ghost use Rattle.std.specs.Option.{option_copied, option_to_list};
ghost use Rattle.dp_queue.specs.Agents.{is_rung, with_state_at};
ghost use Rattle.dp_conf.specs.Changes.{changed_at};
ghost use Rattle.dp_queue.specs.Choices as choices;
ghost use Rattle.dp_queue.specs.Good.{StandOnce};
ghost use Rattle.dp_queue.specs.Offers as spec;
ghost use Rattle.dp_queue.specs.Queues.{queue_number};
ghost use Rattle.dp_queue.specs.steps.Seats.{AreSeated, is_unrung};

use crate::agent::{Agent, AgentState};
use crate::agents::Agents;
use crate::choice::{is_candidate, least_penalty, pick_one};
use crate::fault::OfferFault;
use crate::member::Member;
use crate::queue::Queue;
use crate::queue_list::QueueList;
use crate::queues::Queues;
use crate::settings::Strategy;
use crate::waiting_seat::{Seats, WaitingSeat, put_seat, seat_at};
use std::collections::VecDeque;

/// An offered call: its channel, and the number of agents to which it is offered.
#[derive(Clone, Copy, Debug, PartialEq, Eq)]
pub struct Offered {
    pub channel: u32,
    pub rung: usize,
}

/// The request of an offer: agents of a queue for a channel, from the members with this penalty.
#[derive(Clone, Copy, PartialEq, Eq)]
pub(crate) struct OfferRequest {
    queue: usize,
    channel: u32,
    penalty: u32,
}

/// Whether no agent rings for the channel, according to its seat.
fn is_unrung(seats: &Seats, channel: u32) -> bool
    ensures { result ≡ is_unrung seats.now channel }
{
    match seat_at(seats, channel) {
        Some(seat) => seat.rung == 0,
        None => true,
    }
}

/// The first channel of a waiting list for which no agent rings, according to the seats.
fn find_unrung<'a>(waiting: &'a VecDeque<u32>, seats: &Seats) -> Option<&'a u32>
    ensures { option_copied result ≡ find (is_unrung seats.now) waiting.now.items }
{
    waiting.iter().find(|channel| is_unrung(seats, **channel))
}

/// The request of an offer of the queue.
fn ask_in(
    queue: &Queue,
    agents: &[Agent],
    seats: &Seats,
    number: usize,
) -> Result<OfferRequest, OfferFault>
    requires { find (is_unrung seats.now) queue.now.waiting ≡ find (λ channel. not (is_rung agents.now channel)) queue.now.waiting }
    ensures { result ≡ spec.asked_in agents.now number (Some queue.now) }
{
    let Some(channel) = find_unrung(queue.waiting(), seats) else {
        return Err(OfferFault::NobodyWaiting);
    };
    match least_penalty(agents, queue.members()) {
        None => Err(OfferFault::NoMember),
        Some(penalty) => Ok(OfferRequest {
            queue: number,
            channel: *channel,
            penalty,
        }),
    }
}

/// The request of an offer of the queue with a name.
fn ask(
    queues: &QueueList,
    agents: &[Agent],
    seats: &Seats,
    name: &[u8],
) -> Result<OfferRequest, OfferFault>
    requires { AreSeated seats.now queues.now agents.now }
    ensures { result ≡ spec.asked_at queues.now agents.now (queue_number queues.now name.now) }
{
    match queues.number_of(name) {
        None => Err(OfferFault::NoQueue),
        Some(number) => ask_in(&queues.list()[number], agents, seats, number),
    }
}

/// Makes the agent with a number ring.
fn ring_one(agents: &mut Agents, asked: OfferRequest, number: usize)
    ensures { agents.new ≡ with_state_at number (AgentState.Ringing asked.queue asked.channel) agents.old }
{
    agents.set_state(
        number,
        AgentState::Ringing {
            queue: asked.queue,
            channel: asked.channel,
        },
    );
}

/// Makes the agent of a member ring, if an offer may ring the member and it has the penalty. Takes and returns the number of agents that
/// ring.
fn ring_candidate(agents: &mut Agents, asked: OfferRequest, member: &Member, count: usize) -> usize
    requires { count + 1 < 2 ^ 64 }
    ensures agents { agents.new ≡ (if choices.is_candidate agents.old asked.penalty member.now
        then with_state_at member.now.agent (AgentState.Ringing asked.queue asked.channel) agents.old else agents.old) }
    ensures count { result ≡ count + (if choices.is_candidate agents.old asked.penalty member.now then 1 else 0) }
{
    if !is_candidate(agents.list(), asked.penalty, member) {
        return count;
    }
    ring_one(agents, asked, member.agent);
    count + 1
}

/// Makes the agents of all candidates ring, and returns their number.
fn ring_candidates(agents: &mut Agents, asked: OfferRequest, members: &[Member]) -> usize
    requires { StandOnce members.now }
    ensures agents { agents.new ≡ spec.all_ringing asked.queue asked.channel
        (filter (choices.is_candidate agents.old asked.penalty) members.now) agents.old }
    ensures count { result ≡ length (filter (choices.is_candidate agents.old asked.penalty) members.now) }
{
    let mut count: usize = 0;
    let mut left = members;
    while let Some((member, rest)) = left.split_first() {
        count = ring_candidate(agents, asked, member, count);
        left = rest;
    }
    count
}

/// Makes the agent of the member ring, if there is one, and returns the number of agents that ring.
fn ring_picked(agents: &mut Agents, asked: OfferRequest, picked: Option<&Member>) -> usize
    ensures agents { agents.new ≡ spec.all_ringing asked.queue asked.channel (option_to_list (option_copied picked.entry)) agents.old }
    ensures count { result ≡ length (option_to_list (option_copied picked.entry)) }
{
    match picked {
        None => 0,
        Some(member) => {
            ring_one(agents, asked, member.agent);
            1
        }
    }
}

/// The agent that is remembered after a choice.
fn last_choice(last: Option<usize>, picked: Option<&Member>) -> Option<usize>
    ensures { result ≡ choices.last_choice last (option_copied picked.entry) }
{
    match picked {
        Some(member) => Some(member.agent),
        None => last,
    }
}

/// The member that the strategy of the queue chooses; `ringall` does not choose a single one.
fn picked_in<'a>(agents: &[Agent], penalty: u32, queue: &'a Queue) -> Option<&'a Member>
    ensures { option_copied result ≡ choices.one_choice queue.now.settings.strategy queue.now.last (choices.is_candidate agents.now penalty) queue.now.members }
{
    pick_one(
        queue.settings().strategy,
        queue.last(),
        agents,
        penalty,
        queue.members(),
    )
}

/// Makes the agents ring that the strategy of the queue chooses. Returns their number, and the agent that the queue remembers, which
/// changes only for `rrmemory`.
fn ring(agents: &mut Agents, asked: OfferRequest, queue: &Queue) -> (usize, Option<usize>)
    requires { StandOnce queue.now.members }
    ensures agents { agents.new ≡ spec.all_ringing asked.queue asked.channel
        (spec.chosen_of agents.old asked.penalty queue.now) agents.old }
    ensures count { result.0 ≡ length (spec.chosen_of agents.old asked.penalty queue.now) }
    ensures last { result.1 ≡ choices.last_after queue.now.settings.strategy queue.now.last
        (choices.is_candidate agents.old asked.penalty) queue.now.members }
{
    match queue.settings().strategy {
        Strategy::RingAll => {
            let count = ring_candidates(agents, asked, queue.members());
            (count, queue.last())
        }
        Strategy::Linear | Strategy::LeastRecent | Strategy::FewestCalls => {
            let chosen = picked_in(agents.list(), asked.penalty, queue);
            let count = ring_picked(agents, asked, chosen);
            (count, queue.last())
        }
        Strategy::RrMemory => {
            let chosen = picked_in(agents.list(), asked.penalty, queue);
            let last = last_choice(queue.last(), chosen);
            let count = ring_picked(agents, asked, chosen);
            (count, last)
        }
    }
}

/// Makes the agents ring that the queue chooses, and remembers its choice in the queue. Returns their number.
fn ring_at(queues: &mut QueueList, agents: &mut Agents, asked: OfferRequest) -> usize
    requires queue { asked.queue < length queues.old }
    requires once { All (λ queue. StandOnce queue.members) queues.old }
    ensures queues { queues.new ≡ changed_at (spec.with_choice agents.old asked.penalty) asked.queue queues.old }
    ensures agents { agents.new ≡ spec.all_ringing asked.queue asked.channel
        (spec.chosen_in agents.old asked.penalty (slice_get queues.old asked.queue)) agents.old }
    ensures count { result ≡ length (spec.chosen_in agents.old asked.penalty (slice_get queues.old asked.queue)) }
{
    let queue = &queues.list()[asked.queue];
    let (count, last) = ring(agents, asked, queue);
    queues.set_last(asked.queue, last);
    count
}

impl Queues {
    /// Offers the first call of the queue with this name for which no agent rings yet: the agents that the queue's strategy chooses ring
    /// for it. Only members that are not paused and whose agents are idle are chosen, and of them only those with the smallest penalty (a
    /// busy member is never rung: a choice of this program). The errors are, in this order, `NoQueue`, `NobodyWaiting` and `NoMember`.
    pub fn offer(&mut self, queue: &[u8]) -> Result<Offered, OfferFault>
        ensures { spec.offer_row self.old queue.now ≡ (self.new, result) }
    {
        match ask(&self.queues, self.agents.list(), &self.seats, queue) {
            Err(fault) => Err(fault),
            Ok(asked) => {
                let rung = ring_at(&mut self.queues, &mut self.agents, asked);
                put_seat(
                    &mut self.seats,
                    asked.channel,
                    WaitingSeat {
                        queue: asked.queue,
                        rung,
                    },
                );
                Ok(Offered {
                    channel: asked.channel,
                    rung,
                })
            }
        }
    }
}
