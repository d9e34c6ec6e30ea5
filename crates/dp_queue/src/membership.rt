//! How members are added, removed and paused, after the Asterisk documentation's pages on the applications that do so.
ghost use Rattle.std.specs.Prelude.{◌≡◌, ◌<◌, IfOk, false, OnOk, OnErr, length, slice_get};
ghost use Rattle.std.specs.List.{list_any};
ghost use Rattle.std.specs.Option.{option_copied};
ghost use Rattle.dp_queue.specs.Agents.{agent_number};
ghost use Rattle.dp_conf.specs.Changes.{changed_at};
ghost use Rattle.dp_queue.specs.Members as spec;

use crate::agents::Agents;
use crate::change::{Added, Removed};
use crate::member::{Member, new_member};
use crate::queue::Queue;
use crate::queue_list::QueueList;
use crate::queues::Queues;
use dp_conf::NoMemory;
use std::alloc::Global;

/// An agent that becomes a member, by its interface.
#[derive(Clone, Copy)]
pub(crate) struct NewMember<'a> {
    pub(crate) interface: &'a [u8],
    pub(crate) penalty: u32,
    pub(crate) is_dynamic: bool,
}

/// Makes the agent with an interface a member of the queue with a number; it is not one yet. If memory runs out nothing
/// changes.
pub(crate) fn add_member(
    alloc: Global,
    queues: &mut QueueList,
    agents: &mut Agents,
    number: usize,
    member: NewMember<'_>,
) -> Result<(), NoMemory>
    requires within { number < length queues.old }
    requires absent { spec.is_member_at queues.old number (agent_number agents.old member.interface.now) ≡ false }
    ensures ok { OnOk result (queues.new ≡ changed_at (spec.with_member
        (spec.new_member (agent_number agents.old member.entry.interface.now) member.entry.penalty member.entry.is_dynamic))
        number queues.old) }
    ensures agents { OnOk result (agents.new ≡ spec.with_agent agents.old member.entry.interface.now) }
    ensures err { OnErr result (queues.new ≡ queues.old) }
    ensures same { OnErr result (agents.new ≡ agents.old) }
{
    let agent = agents.number_of(member.interface);
    queues.push_member(number, new_member(agent, member.penalty, member.is_dynamic))?;
    match agents.know(alloc, member.interface) {
        Ok(()) => Ok(()),
        Err(fault) => {
            queues.remove_member(number, agent);
            Err(fault)
        }
    }
}

/// Whether the agent with a number is a member of some queue.
pub(crate) fn is_member(queues: &[Queue], agent: usize) -> bool
    ensures { result ≡ list_any (spec.has_member agent) queues.now }
{
    queues.iter().any(|queue| queue.has_member(agent))
}

/// Whether the agent with a number is a member of the queue with a number.
pub(crate) fn is_member_at(queues: &[Queue], number: usize, agent: usize) -> bool
    ensures { result ≡ spec.is_member_at queues.now number agent }
{
    match queues.get(number) {
        Some(queue) => queue.has_member(agent),
        None => false,
    }
}

/// The member of the queue with a number that is the agent with a number.
pub(crate) fn member_at(queues: &[Queue], number: usize, agent: usize) -> Option<Member>
    ensures { result ≡ spec.member_of agent (slice_get queues.now number) }
{
    match queues.get(number) {
        Some(queue) => queue.find_member(agent),
        None => None,
    }
}

impl Queues {
    /// Adds the agent with this interface to the queue with this name for an application, as its last member and
    /// unpaused. If memory runs out nothing changes.
    pub fn add(
        &mut self,
        alloc: Global,
        queue: &[u8],
        interface: &[u8],
        penalty: u32,
    ) -> Result<Added, NoMemory>
        ensures ok { IfOk result (λ told. spec.add_row self.old queue.now interface.now penalty ≡ (self.new, told)) }
        ensures err { OnErr result (self.new ≡ self.old) }
    {
        let Some(number) = self.queues.number_of(queue) else {
            return Ok(Added::NoSuchQueue);
        };
        let agent = self.agents.number_of(interface);
        if is_member_at(self.queues.list(), number, agent) {
            return Ok(Added::MemberAlready);
        }
        let member = NewMember {
            interface,
            penalty,
            is_dynamic: true,
        };
        add_member(alloc, &mut self.queues, &mut self.agents, number, member)?;
        Ok(Added::Added)
    }

    /// Removes the agent with this interface from the queue with this name for an application, unless the file made it
    /// a member. A call for which it rings, or with which it talks, is not affected.
    pub fn remove(&mut self, queue: &[u8], interface: &[u8]) -> Removed
        ensures { spec.remove_row self.old queue.now interface.now ≡ (self.new, result) }
    {
        let Some(number) = self.queues.number_of(queue) else {
            return Removed::NoSuchQueue;
        };
        let agent = self.agents.number_of(interface);
        match member_at(self.queues.list(), number, agent) {
            None => Removed::NotInQueue,
            Some(member) => {
                if !member.is_dynamic {
                    return Removed::NotDynamic;
                }
                self.queues.remove_member(number, agent);
                Removed::Removed
            }
        }
    }

    /// Pauses or unpauses the agent with this interface in the queue with this name, or in all queues. Returns whether
    /// it is a member there, even if it is paused already. A call for which it rings is not affected.
    pub fn pause(&mut self, queue: Option<&[u8]>, interface: &[u8], is_paused: bool) -> bool
        ensures { spec.pause_row self.old (option_copied queue.entry) interface.now is_paused ≡ (self.new, result) }
    {
        let agent = self.agents.number_of(interface);
        match queue {
            None => {
                let is_there = is_member(self.queues.list(), agent);
                self.queues.pause_all(agent, is_paused);
                is_there
            }
            Some(name) => match self.queues.number_of(name) {
                None => false,
                Some(number) => {
                    let is_there = is_member_at(self.queues.list(), number, agent);
                    self.queues.pause(number, agent, is_paused);
                    is_there
                }
            },
        }
    }
}
