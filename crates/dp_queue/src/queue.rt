//! A call queue.
ghost use Rattle.std.specs.Prelude.{◌≡◌, ◌==◌, false, OnOk, OnErr, IfSome, ◌<◌, ◌≤◌, length};
ghost use Rattle.std.specs.List.{find, position};
ghost use Rattle.std.specs.VecDeque.{deque_len};
ghost use Rattle.dp_queue.specs.Changes.{without};
ghost use Rattle.dp_queue.specs.Calls as calls;
ghost use Rattle.dp_queue.specs.File as file;
ghost use Rattle.dp_queue.specs.Joining as joining;
ghost use Rattle.dp_queue.specs.Members as members;
ghost use Rattle.dp_queue.specs.steps.Seats.{stands_at};

use crate::join::Join;
use crate::member::{Member, has_active};
use crate::members::Members;
use crate::setting::{Setting, put_setting, usual_settings};
use crate::settings::{EmptyRule, Settings};
use dp_conf::{NoMemory, Text};
use std::alloc::Global;
use std::collections::VecDeque;
use std::marker::Model;

/// A queue: its name as written in its section, its settings, its members in the order in which they came, and the
/// channels that wait, in order. A contract sees it as these, with the agent that `rrmemory` chose last.
#[derive(Drop)]
pub struct Queue {
    name: Text,
    settings: Settings,
    members: Members,
    waiting: VecDeque<u32>,
    last: Option<usize>,
}

impl Model for Queue {
    ghost use Rattle.dp_queue.specs.Queues.{QueueOf};

    ghost Value = { QueueOf };

    ghost view = { λ queue. record {
      name = queue.name;
      settings = queue.settings;
      members = queue.members;
      waiting = queue.waiting.items;
      last = queue.last;
    } };
}

/// Whether a queue with these members is too empty to join.
fn refuses_join(rule: EmptyRule, members: &[Member]) -> bool
    ensures { result ≡ joining.refuses_join rule members.now }
{
    match rule {
        EmptyRule::Yes => false,
        EmptyRule::No | EmptyRule::Strict => !has_active(members),
        EmptyRule::Loose => members.is_empty(),
    }
}

/// Whether a queue with these members is too empty to stay.
fn refuses_stay(rule: EmptyRule, members: &[Member]) -> bool
    ensures { result ≡ joining.refuses_stay rule members.now }
{
    match rule {
        EmptyRule::No => false,
        EmptyRule::Yes | EmptyRule::Strict => !has_active(members),
        EmptyRule::Loose => members.is_empty(),
    }
}

/// The place of a channel in a waiting list.
fn place_of(waiting: &VecDeque<u32>, channel: u32) -> Option<usize>
    ensures place { result ≡ position (λ d. d == channel) waiting.now.items }
    ensures within { IfSome result (λ place. place < deque_len waiting.now) }
{
    waiting.iter().position(|other| *other == channel)
}

/// Whether a channel is at a place of a waiting list.
fn stands_at(waiting: &VecDeque<u32>, place: usize, channel: u32) -> bool
    ensures { result ≡ stands_at channel waiting.now.items place }
{
    match waiting.get(place) {
        Some(other) => *other == channel,
        None => false,
    }
}

/// The place of a channel in a waiting list, given a place where it may be.
fn place_by(waiting: &VecDeque<u32>, hint: usize, channel: u32) -> Option<usize>
    requires { joining.times_in channel waiting.now.items ≤ 1 }
    ensures place { result ≡ position (λ d. d == channel) waiting.now.items }
    ensures within { IfSome result (λ place. place < deque_len waiting.now) }
{
    if stands_at(waiting, hint, channel) {
        return Some(hint);
    }
    place_of(waiting, channel)
}

/// Removes a channel from a waiting list, given a place where it may be.
fn take_out(waiting: &mut VecDeque<u32>, hint: usize, channel: u32)
    requires { joining.times_in channel waiting.old.items ≤ 1 }
    ensures { waiting.new.items ≡ without (λ d. d == channel) waiting.old.items }
{
    if let Some(place) = place_by(waiting, hint, channel) {
        let _channel = waiting.remove(place);
    }
}

impl Queue {
    /// A queue with this name and the default settings.
    pub(crate) fn new(alloc: Global, name: Text) -> Self
        ensures { result ≡ file.queue_named name }
    {
        Queue {
            name,
            settings: usual_settings(alloc),
            members: Members::new(alloc),
            waiting: VecDeque::new(alloc),
            last: None,
        }
    }

    /// Changes one of the settings.
    pub(crate) fn set(&mut self, setting: Setting)
        ensures { self.new ≡ file.with_queue_setting setting self.old }
    {
        put_setting(&mut self.settings, setting);
    }

    /// The queue's name, as written in its section.
    pub fn name(&self) -> &Text
        ensures { result.now ≡ self.now.name }
    {
        &self.name
    }

    /// The queue's settings.
    pub fn settings(&self) -> &Settings
        ensures { result.now ≡ self.now.settings }
    {
        &self.settings
    }

    /// The queue's members, in the order in which they came.
    pub fn members(&self) -> &[Member]
        ensures { result.now ≡ self.now.members }
    {
        self.members.list()
    }

    /// The channels that wait, in order.
    pub fn waiting(&self) -> &VecDeque<u32>
        ensures { result.now.items ≡ self.now.waiting }
    {
        &self.waiting
    }

    /// The result of joining.
    pub(crate) fn join_answer(&self, number: usize) -> Join
        ensures { result ≡ joining.join_answer number self.now }
    {
        if refuses_join(self.settings.joinempty, self.members.list()) {
            return Join::Empty;
        }
        let maxlen = self.settings.maxlen as usize;
        if maxlen > 0 && maxlen <= self.waiting.len() {
            return Join::Full;
        }
        Join::Joined(number)
    }

    /// Whether the calls that wait must leave, because the queue is too empty.
    pub(crate) fn should_leave(&self) -> bool
        ensures { result ≡ joining.refuses_stay self.now.settings.leavewhenempty self.now.members }
    {
        refuses_stay(self.settings.leavewhenempty, self.members.list())
    }

    /// Adds a call at the end.
    pub(crate) fn push_caller(&mut self, channel: u32) -> Result<(), NoMemory>
        ensures ok { OnOk result (self.new ≡ joining.with_caller channel self.old) }
        ensures err { OnErr result (self.new ≡ self.old) }
    {
        self.waiting.push_back(channel)?;
        Ok(())
    }

    /// Removes a call, given the place where it may be.
    pub(crate) fn remove_caller(&mut self, hint: usize, channel: u32)
        requires { joining.times_in channel self.old.waiting ≤ 1 }
        ensures { self.new ≡ joining.without_caller channel self.old }
    {
        take_out(&mut self.waiting, hint, channel);
    }

    /// The number of calls that wait.
    pub fn waiting_count(&self) -> usize
        ensures { result ≡ length self.now.waiting }
    {
        self.waiting.len()
    }

    /// The number of the agent that `rrmemory` chose last.
    pub(crate) fn last(&self) -> Option<usize>
        ensures { result ≡ self.now.last }
    {
        self.last
    }

    /// Remembers the agent that `rrmemory` chose.
    pub(crate) fn set_last(&mut self, last: Option<usize>)
        ensures { self.new ≡ record self.old { last = last } }
    {
        self.last = last;
    }

    /// Whether the agent with a number is a member.
    pub(crate) fn has_member(&self, agent: usize) -> bool
        ensures { result ≡ members.has_member agent self.now }
    {
        self.members.has(agent)
    }

    /// The member that is the agent with a number.
    pub(crate) fn find_member(&self, agent: usize) -> Option<Member>
        ensures { result ≡ find (members.is_agent agent) self.now.members }
    {
        self.members.find(agent)
    }

    /// Adds a member at the end. Its agent is not yet a member.
    pub(crate) fn push_member(&mut self, member: Member) -> Result<(), NoMemory>
        requires { members.has_member member.agent self.old ≡ false }
        ensures ok { OnOk result (self.new ≡ members.with_member member self.old) }
        ensures err { OnErr result (self.new ≡ self.old) }
    {
        self.members.push(member)?;
        Ok(())
    }

    /// Removes the member that is the agent with a number.
    pub(crate) fn remove_member(&mut self, agent: usize)
        ensures { self.new ≡ members.without_member agent self.old }
    {
        self.members.remove(agent);
    }

    /// Pauses or unpauses the member that is the agent with a number.
    pub(crate) fn pause(&mut self, agent: usize, is_paused: bool)
        ensures { self.new ≡ members.paused_queue agent is_paused self.old }
    {
        self.members.pause(agent, is_paused);
    }

    /// Counts a finished call for the member that is the agent with a number.
    pub(crate) fn finish(&mut self, agent: usize, count: u64)
        ensures { self.new ≡ calls.finished_queue agent count self.old }
    {
        self.members.finish(agent, count);
    }
}
