//! The members of a queue that an offer rings, after the Asterisk documentation's page on the strategies of queues.
ghost use Rattle.std.specs.Prelude.{◌≡◌, ◌+◌, ◌<◌, ◌++◌, length, take, drop, if◌then◌else◌};
ghost use Rattle.std.specs.List.{filter, find};
ghost use Rattle.std.specs.Option.{option_copied};
ghost use Rattle.dp_queue.specs.Choices as spec;

use crate::agent::{Agent, AgentState, state_at};
use crate::member::{Member, place_of};
use crate::settings::Strategy;

/// The number by which members are compared.
#[derive(Clone, Copy, PartialEq, Eq)]
pub(crate) enum Key {
    Penalty,
    Last,
    Calls,
}

/// The number by which a member is compared.
fn rank(key: Key, member: &Member) -> u64
    ensures { result ≡ spec.rank key member.now }
{
    match key {
        Key::Penalty => u64::from(member.penalty),
        Key::Last => member.last,
        Key::Calls => member.calls,
    }
}

/// Whether the agent with a number is idle; an unknown agent is.
fn is_idle_at(agents: &[Agent], number: usize) -> bool
    ensures { result ≡ spec.is_idle_at agents.now number }
{
    state_at(agents, number) == AgentState::Idle
}

/// Whether an offer may ring the member.
fn is_eligible(agents: &[Agent], member: &Member) -> bool
    ensures { result ≡ spec.is_eligible agents.now member.now }
{
    !member.is_paused && is_idle_at(agents, member.agent)
}

/// Whether an offer may ring the member, and the member has this penalty.
pub(crate) fn is_candidate(agents: &[Agent], penalty: u32, member: &Member) -> bool
    ensures { result ≡ spec.is_candidate agents.now penalty member.now }
{
    is_eligible(agents, member) && member.penalty == penalty
}

/// The member with the smaller number, or the first if they are equal.
fn lesser<'a>(key: Key, best: Option<&'a Member>, member: &'a Member) -> Option<&'a Member>
    ensures { option_copied result ≡ spec.lesser (spec.rank key) (option_copied best.entry) member.now }
{
    match best {
        None => Some(member),
        Some(other) => {
            if rank(key, member) < rank(key, other) {
                Some(member)
            } else {
                Some(other)
            }
        }
    }
}

/// The better of two members, if the second may be chosen at all.
fn better<'a>(
    key: Key,
    is_allowed: bool,
    best: Option<&'a Member>,
    member: &'a Member,
) -> Option<&'a Member>
    ensures { option_copied result ≡ (if is_allowed then spec.lesser (spec.rank key) (option_copied best.entry) member.now else option_copied best.entry) }
{
    if is_allowed {
        lesser(key, best, member)
    } else {
        best
    }
}

/// The smallest penalty of the members that an offer may ring.
pub(crate) fn least_penalty(agents: &[Agent], members: &[Member]) -> Option<u32>
    ensures { result ≡ spec.least_penalty agents.now members.now }
{
    let mut best: Option<&Member> = None;
    let mut left = members;
    while let Some((member, rest)) = left.split_first() {
        best = better(Key::Penalty, is_eligible(agents, member), best, member);
        left = rest;
    }
    match best {
        Some(member) => Some(member.penalty),
        None => None,
    }
}

/// The first of the candidates with the smallest number.
fn first_least<'a>(
    key: Key,
    agents: &[Agent],
    penalty: u32,
    members: &'a [Member],
) -> Option<&'a Member>
    ensures { option_copied result ≡ spec.first_least (spec.rank key) (filter (spec.is_candidate agents.now penalty) members.now) }
{
    let mut best: Option<&Member> = None;
    let mut left = members;
    while let Some((member, rest)) = left.split_first() {
        best = better(key, is_candidate(agents, penalty, member), best, member);
        left = rest;
    }
    best
}

/// The first of the candidates.
fn first<'a>(agents: &[Agent], penalty: u32, members: &'a [Member]) -> Option<&'a Member>
    ensures { option_copied result ≡ find (spec.is_candidate agents.now penalty) members.now }
{
    members
        .iter()
        .find(|member| is_candidate(agents, penalty, member))
}

/// The first of the candidates after a place, wrapping around.
fn next_after<'a>(
    agents: &[Agent],
    penalty: u32,
    members: &'a [Member],
    place: usize,
) -> Option<&'a Member>
    requires { place < length members.now }
    ensures { option_copied result ≡ find (spec.is_candidate agents.now penalty) (drop (place + 1) members.now ++ take (place + 1) members.now) }
{
    let (front, back) = members.split_at(place + 1);
    match first(agents, penalty, back) {
        Some(member) => Some(member),
        None => first(agents, penalty, front),
    }
}

/// The first of the candidates after the one that was chosen last, wrapping around.
fn next_in_turn<'a>(
    agents: &[Agent],
    penalty: u32,
    last: Option<usize>,
    members: &'a [Member],
) -> Option<&'a Member>
    ensures { option_copied result ≡ find (spec.is_candidate agents.now penalty) (spec.members_after last members.now) }
{
    match last {
        None => first(agents, penalty, members),
        Some(agent) => match place_of(members, agent) {
            None => first(agents, penalty, members),
            Some(place) => next_after(agents, penalty, members, place),
        },
    }
}

/// The candidate that a strategy chooses; `ringall` does not choose a single one.
pub(crate) fn pick_one<'a>(
    strategy: Strategy,
    last: Option<usize>,
    agents: &[Agent],
    penalty: u32,
    members: &'a [Member],
) -> Option<&'a Member>
    ensures { option_copied result ≡ spec.one_choice strategy last (spec.is_candidate agents.now penalty) members.now }
{
    match strategy {
        Strategy::RingAll => None,
        Strategy::Linear => first(agents, penalty, members),
        Strategy::LeastRecent => first_least(Key::Last, agents, penalty, members),
        Strategy::FewestCalls => first_least(Key::Calls, agents, penalty, members),
        Strategy::RrMemory => next_in_turn(agents, penalty, last, members),
    }
}
