//! The members of a queue, with their places and agents.
ghost use Rattle.std.specs.Prelude.{◌≡◌, ◌<◌, ◌++◌, ◌∷◌, [], false, IfSome, OnOk, OnErr, length, map, vec_len};
ghost use Rattle.std.specs.List.{find, list_any, position};
ghost use Rattle.std.specs.Option.{option_copied};
ghost use Rattle.dp_queue.specs.Calls.{finished_member};
ghost use Rattle.dp_conf.specs.Changes.{changed_at};
ghost use Rattle.dp_queue.specs.Changes.{without};
ghost use Rattle.dp_queue.specs.Good.{StandOnce};
ghost use Rattle.dp_queue.specs.steps.Held.{is_agent_at};
ghost use Rattle.dp_queue.specs.Members as spec;

use crate::member::{Member, finished_member, paused_member, place_of};
use dp_conf::NoMemory;
use std::alloc::Global;
use std::collections::HashMap;
use std::marker::Model;

/// The members of a queue, in the order in which they came. No agent is a member twice.
#[derive(Drop)]
pub(crate) struct Members {
    list: Vec<Member>,
    // For the agent of each member, the rank of its arrival, which is greater than those before it. It is the place of
    // the member, unless one before it was removed.
    ranks: HashMap<usize, usize>,
}

impl Model for Members {
    ghost use Rattle.std.specs.Prelude.{List};
    ghost use Rattle.dp_queue.specs.steps.Held.{AreHeld};
    ghost use Rattle.dp_queue.specs.declared.member.Member.{Member};

    ghost Value = { List Member };

    ghost view = { λ members. members.list.items };

    ghost invariant = { λ members. AreHeld members.ranks members.list.items };
}

/// Whether the member at a place is this agent.
fn is_agent_at(members: &[Member], place: usize, agent: usize) -> bool
    ensures { result ≡ is_agent_at agent members.now place }
{
    match members.get(place) {
        Some(member) => member.agent == agent,
        None => false,
    }
}

/// The rank of an agent's arrival; 0 if it is not a member.
fn rank_of(ranks: &HashMap<usize, usize>, agent: usize) -> usize {
    match ranks.get(&agent) {
        Some(rank) => *rank,
        None => 0,
    }
}

/// The rank of the next arrival after some members.
fn next_rank(members: &[Member], ranks: &HashMap<usize, usize>) -> usize {
    match members.last() {
        Some(member) => rank_of(ranks, member.agent).saturating_add(1),
        None => 0,
    }
}

/// The place of the member with a rank, found by binary search, because the ranks rise along the list.
fn place_by_rank(members: &[Member], ranks: &HashMap<usize, usize>, rank: usize) -> usize {
    members.partition_point(|member| rank_of(ranks, member.agent) < rank)
}

/// The place of the member that is this agent, given a place where it may be.
fn place_by(members: &[Member], hint: usize, agent: usize) -> Option<usize>
    requires { StandOnce members.now }
    ensures { result ≡ position (spec.is_agent agent) members.now }
{
    if is_agent_at(members, hint, agent) {
        return Some(hint);
    }
    place_of(members, agent)
}

/// A place where the member with this rank may be: the rank itself, or the one found by binary search.
fn likely_place(
    members: &[Member],
    ranks: &HashMap<usize, usize>,
    rank: usize,
    agent: usize,
) -> usize {
    if is_agent_at(members, rank, agent) {
        return rank;
    }
    place_by_rank(members, ranks, rank)
}

/// Pauses or unpauses the member at a place, if it is this agent.
fn pause_at(members: &mut Vec<Member>, place: usize, agent: usize, is_paused: bool)
    requires { place < vec_len members.old }
    ensures { members.new.items ≡ changed_at (spec.paused_member agent is_paused) place members.old.items }
{
    members[place] = paused_member(members[place], agent, is_paused);
}

/// Counts a finished call for the member at a place, if it is this agent.
fn finish_at(members: &mut Vec<Member>, place: usize, agent: usize, count: u64)
    requires { place < vec_len members.old }
    ensures { members.new.items ≡ changed_at (finished_member agent count) place members.old.items }
{
    members[place] = finished_member(members[place], agent, count);
}

impl Members {
    /// Without members. It never allocates.
    pub(crate) fn new(alloc: Global) -> Self
        ensures { result ≡ [] }
    {
        Members {
            list: Vec::new(alloc),
            ranks: HashMap::new(alloc),
        }
    }

    /// The members, in the order in which they came.
    pub(crate) fn list(&self) -> &[Member]
        ensures { result.now ≡ self.now }
    {
        &self.list
    }

    /// Whether some member is this agent.
    pub(crate) fn has(&self, agent: usize) -> bool
        ensures { result ≡ list_any (spec.is_agent agent) self.now }
    {
        self.ranks.contains_key(&agent)
    }

    /// The place of the member that is this agent.
    pub(crate) fn place_of(&self, agent: usize) -> Option<usize>
        ensures place { result ≡ position (spec.is_agent agent) self.now }
        ensures within { IfSome result (λ place. place < length self.now) }
    {
        match self.ranks.get(&agent) {
            None => None,
            Some(rank) => {
                let hint = likely_place(&self.list, &self.ranks, *rank, agent);
                place_by(&self.list, hint, agent)
            }
        }
    }

    /// The member that is this agent.
    pub(crate) fn find(&self, agent: usize) -> Option<Member>
        ensures { result ≡ find (spec.is_agent agent) self.now }
    {
        match self.place_of(agent) {
            None => None,
            Some(place) => Some(self.list[place]),
        }
    }

    /// Adds a member at the end. Its agent is not yet a member. If memory runs out nothing changes.
    pub(crate) fn push(&mut self, member: Member) -> Result<(), NoMemory>
        requires { list_any (spec.is_agent member.agent) self.old ≡ false }
        ensures ok { OnOk result (self.new ≡ self.old ++ member ∷ []) }
        ensures err { OnErr result (self.new ≡ self.old) }
    {
        let rank = next_rank(&self.list, &self.ranks);
        self.list.reserve(1)?;
        self.ranks.insert(member.agent, rank)?;
        self.list.push(member).unwrap();
        Ok(())
    }

    /// Removes the member that is this agent.
    pub(crate) fn remove(&mut self, agent: usize)
        ensures { self.new ≡ without (spec.is_agent agent) self.old }
    {
        if let Some(place) = self.place_of(agent) {
            let _member = self.list.remove(place);
            let _rank = self.ranks.remove(&agent);
        }
    }

    /// Pauses or unpauses the member that is this agent.
    pub(crate) fn pause(&mut self, agent: usize, is_paused: bool)
        ensures { self.new ≡ map (spec.paused_member agent is_paused) self.old }
    {
        if let Some(place) = self.place_of(agent) {
            pause_at(&mut self.list, place, agent, is_paused);
        }
    }

    /// Counts a finished call for the member that is this agent.
    pub(crate) fn finish(&mut self, agent: usize, count: u64)
        ensures { self.new ≡ map (finished_member agent count) self.old }
    {
        if let Some(place) = self.place_of(agent) {
            finish_at(&mut self.list, place, agent, count);
        }
    }
}
