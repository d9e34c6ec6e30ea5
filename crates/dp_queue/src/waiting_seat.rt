//! The queue in which each channel waits, or the agent with which it talks, found without a walk over the queues or the agents. The memory
//! for the seats depends on the number of channels that wait or talk, and not on their numbers.
ghost use Rattle.std.specs.HashMap.{spare};
ghost use Rattle.std.specs.Prelude.{◌≡◌, ◌<◌, ℕ, OnOk, None, Some, IsSome};
ghost use Rattle.dp_queue.specs.steps.Seats as spec;

use crate::member::one_more;
use dp_conf::NoMemory;
use std::collections::{HashMap, VecDeque};

/// The number of the queue in which a channel waits, and the number of agents that ring for it.
#[derive(Clone, Copy, PartialEq, Eq)]
pub(crate) struct WaitingSeat {
    pub(crate) queue: usize,
    pub(crate) rung: usize,
}

/// The activity of a channel.
#[derive(Clone, Copy, PartialEq, Eq)]
pub(crate) enum Sitting {
    /// It waits, with the rank of its arrival: among the channels that wait in one queue, each has a greater rank than those before it.
    Waits { seat: WaitingSeat, arrival: u64 },
    /// It talks with the agent with this number.
    Talks { agent: usize },
}

/// The seats of the channels that wait or talk, given their numbers.
pub(crate) type Seats = HashMap<u32, Sitting>;

/// The seat of a waiting channel.
pub(crate) fn seat_at(seats: &Seats, channel: u32) -> Option<WaitingSeat>
    ensures { result ≡ spec.seat_at seats.now channel }
{
    match seats.get(&channel) {
        Some(Sitting::Waits { seat, .. }) => Some(*seat),
        Some(Sitting::Talks { .. }) | None => None,
    }
}

/// The number of agents that ring for a waiting channel; 0 if it does not wait.
pub(crate) fn rung_at(seats: &Seats, channel: u32) -> usize
    ensures { result ≡ spec.rung_at seats.now channel }
{
    match seat_at(seats, channel) {
        Some(seat) => seat.rung,
        None => 0,
    }
}

/// The rank of a channel's arrival; 0 if it does not wait.
fn arrival_of(seats: &Seats, channel: u32) -> u64
    ensures { result ≡ spec.arrival_of seats.now channel }
{
    match seats.get(&channel) {
        Some(Sitting::Waits { arrival, .. }) => *arrival,
        Some(Sitting::Talks { .. }) | None => 0,
    }
}

/// The number of the agent that talks with a channel.
pub(crate) fn talk_at(seats: &Seats, channel: u32) -> Option<usize>
    ensures { result ≡ spec.talk_at seats.now channel }
{
    match seats.get(&channel) {
        Some(Sitting::Talks { agent }) => Some(*agent),
        Some(Sitting::Waits { .. }) | None => None,
    }
}

/// The rank of the next arrival after the waiting channels.
pub(crate) fn next_arrival(seats: &Seats, waiting: &VecDeque<u32>) -> u64 {
    match waiting.back() {
        Some(last) => one_more(arrival_of(seats, *last)),
        None => 0,
    }
}

/// The place of a waiting channel, found by binary search, because the arrivals rise along the list.
pub(crate) fn place_by_arrival(seats: &Seats, waiting: &VecDeque<u32>, channel: u32) -> usize {
    let arrival = arrival_of(seats, channel);
    waiting.partition_point(|other| arrival_of(seats, *other) < arrival)
}

/// Makes room for one more seat. No seat changes. It fails only if memory runs out.
pub(crate) fn make_room(seats: &mut Seats) -> Result<(), NoMemory>
    ensures room { OnOk result (0 < spare seats.new) }
    ensures same { (c : ℕ) → spec.seat_at seats.new c ≡ spec.seat_at seats.old c }
    ensures talks { (c : ℕ) → spec.talk_at seats.new c ≡ spec.talk_at seats.old c }
{
    seats.reserve(1)?;
    Ok(())
}

/// Adds the seat of a channel, for which there is room.
pub(crate) fn take_seat(seats: &mut Seats, channel: u32, seat: WaitingSeat, arrival: u64)
    requires { 0 < spare seats.old }
    ensures seats { spec.ReplacesSeat channel (Some seat) seats.old seats.new }
    ensures talks { spec.ReplacesTalk channel None seats.old seats.new }
{
    let seated: Result<_, _> = seats.insert(channel, Sitting::Waits { seat, arrival });
    seated.unwrap();
}

/// Changes the activity of a channel that has a seat. It never allocates.
fn put_sitting(seats: &mut Seats, channel: u32, sitting: Sitting)
    requires { IsSome (spec.seat_at seats.old channel) }
    ensures seats { spec.ReplacesSeat channel (spec.seat_of (Some sitting)) seats.old seats.new }
    ensures talks { spec.ReplacesTalk channel (spec.agent_of (Some sitting)) seats.old seats.new }
{
    if let Some(place) = seats.get_mut(&channel) {
        *place = sitting;
    }
}

/// Changes the seat of a channel that has one. It never allocates.
pub(crate) fn put_seat(seats: &mut Seats, channel: u32, seat: WaitingSeat)
    requires { IsSome (spec.seat_at seats.old channel) }
    ensures seats { spec.ReplacesSeat channel (Some seat) seats.old seats.new }
    ensures talks { spec.ReplacesTalk channel None seats.old seats.new }
{
    let arrival = arrival_of(seats, channel);
    put_sitting(seats, channel, Sitting::Waits { seat, arrival });
}

/// Makes a channel that has a seat talk with the agent with a number. It never allocates.
pub(crate) fn put_talk(seats: &mut Seats, channel: u32, agent: usize)
    requires { IsSome (spec.seat_at seats.old channel) }
    ensures seats { spec.ReplacesSeat channel None seats.old seats.new }
    ensures talks { spec.ReplacesTalk channel (Some agent) seats.old seats.new }
{
    put_sitting(seats, channel, Sitting::Talks { agent });
}

/// Removes the seat of a channel, if it has one.
pub(crate) fn leave_seat(seats: &mut Seats, channel: u32)
    ensures seats { spec.ReplacesSeat channel None seats.old seats.new }
    ensures talks { spec.ReplacesTalk channel None seats.old seats.new }
{
    let _seat = seats.remove(&channel);
}
