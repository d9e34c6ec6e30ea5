//! The queues of an exchange, with their numbers and names.
ghost use Rattle.std.specs.Prelude.{◌≡◌, ◌<◌, ◌≤◌, ◌++◌, ◌∷◌, [], false, None, IfSome, OnOk, OnErr, Option, ℕ, length, map, vec_len};
ghost use Rattle.std.specs.List.{position};
ghost use Rattle.dp_queue.specs.Calls.{finished_queue};
ghost use Rattle.dp_conf.specs.Changes.{changed_at};
ghost use Rattle.dp_queue.specs.Choices.{with_last};
ghost use Rattle.dp_queue.specs.File.{queue_named, with_queue_setting};
ghost use Rattle.dp_queue.specs.Joining.{times_waiting, with_caller, without_caller};
ghost use Rattle.dp_queue.specs.Members.{is_member_at, with_member, without_member, paused_queue};
ghost use Rattle.dp_queue.specs.steps.Places.{AreWorded, is_worded_at};
ghost use Rattle.dp_queue.specs.Queues as spec;

use crate::member::Member;
use crate::places::{Places, word_hash};
use crate::queue::Queue;
use crate::setting::Setting;
use dp_conf::{NoMemory, Text, same_word};
use std::alloc::Global;
use std::marker::Model;

/// The queues, in file order. No two have the same name, in any ASCII case.
#[derive(Drop)]
pub(crate) struct QueueList {
    list: Vec<Queue>,
    // The places of the queues, given the hashes of their names, so that finding one does not take a walk over all of them.
    places: Places,
}

impl Model for QueueList {
    ghost use Rattle.std.specs.Prelude.{List};
    ghost use Rattle.dp_queue.specs.steps.Places.{AreWorded};
    ghost use Rattle.dp_queue.specs.Queues.{QueueOf};

    ghost Value = { List QueueOf };

    ghost view = { λ queues. queues.list.items };

    ghost invariant = { λ queues. AreWorded queues.places queues.list.items };
}

/// Whether the queue with a number has this name, in any ASCII case.
fn is_worded(queues: &[Queue], number: usize, name: &[u8]) -> bool
    ensures { result ≡ is_worded_at name.now queues.now number }
{
    match queues.get(number) {
        Some(queue) => same_word(queue.name().bytes(), name),
        None => false,
    }
}

/// The number of the queue with this name, in any ASCII case.
fn find_queue(queues: &[Queue], places: &Places, name: &[u8]) -> Option<usize>
    requires { AreWorded places.now queues.now }
    ensures { result ≡ spec.queue_number queues.now name.now }
{
    let mut at = places.last(word_hash(name));
    while let Some(number) = at {
        if is_worded(queues, number, name) {
            return Some(number);
        }
        at = places.before(number);
    }
    None
}

/// Changes a setting of the queue with a number.
fn set_at(queues: &mut Vec<Queue>, number: usize, setting: Setting)
    requires { number < vec_len queues.old }
    ensures { queues.new.items ≡ changed_at (with_queue_setting setting) number queues.old.items }
{
    let queue = &mut queues[number];
    queue.set(setting);
}

/// Adds a call at the end of those that wait in the queue with a number.
fn push_caller_at(queues: &mut Vec<Queue>, number: usize, channel: u32) -> Result<(), NoMemory>
    requires { number < vec_len queues.old }
    ensures ok { OnOk result (queues.new.items ≡ changed_at (with_caller channel) number queues.old.items) }
    ensures err { OnErr result (queues.new.items ≡ queues.old.items) }
{
    let queue = &mut queues[number];
    queue.push_caller(channel)
}

/// Removes a call from the queue with a number, given the place where it may be.
fn remove_caller_at(queues: &mut Vec<Queue>, number: usize, hint: usize, channel: u32)
    requires within { number < vec_len queues.old }
    requires once { times_waiting queues.old.items channel ≤ 1 }
    ensures { queues.new.items ≡ changed_at (without_caller channel) number queues.old.items }
{
    let queue = &mut queues[number];
    queue.remove_caller(hint, channel);
}

/// Adds a member to the queue with a number. Its agent is not yet a member there.
fn push_member_at(queues: &mut Vec<Queue>, number: usize, member: Member) -> Result<(), NoMemory>
    requires within { number < vec_len queues.old }
    requires absent { is_member_at queues.old.items number member.agent ≡ false }
    ensures ok { OnOk result (queues.new.items ≡ changed_at (with_member member) number queues.old.items) }
    ensures err { OnErr result (queues.new.items ≡ queues.old.items) }
{
    let queue = &mut queues[number];
    queue.push_member(member)
}

/// Removes the member that is the agent with a number from a queue.
fn remove_member_at(queues: &mut Vec<Queue>, number: usize, agent: usize)
    requires { number < vec_len queues.old }
    ensures { queues.new.items ≡ changed_at (without_member agent) number queues.old.items }
{
    let queue = &mut queues[number];
    queue.remove_member(agent);
}

/// Pauses or unpauses the agent with a number in a queue.
fn pause_at(queues: &mut Vec<Queue>, number: usize, agent: usize, is_paused: bool)
    requires { number < vec_len queues.old }
    ensures { queues.new.items ≡ changed_at (paused_queue agent is_paused) number queues.old.items }
{
    let queue = &mut queues[number];
    queue.pause(agent, is_paused);
}

/// Pauses or unpauses the agent with a number in all queues of a slice.
fn pause_each(queues: &mut [Queue], agent: usize, is_paused: bool)
    ensures { queues.new ≡ map (paused_queue agent is_paused) queues.old }
{
    for queue in queues.iter_mut() {
        queue.pause(agent, is_paused);
    }
}

/// Pauses or unpauses the agent with a number in all queues.
fn pause_all(queues: &mut Vec<Queue>, agent: usize, is_paused: bool)
    ensures { queues.new.items ≡ map (paused_queue agent is_paused) queues.old.items }
{
    pause_each(queues, agent, is_paused);
}

/// Counts a finished call for the member of a queue that is the agent with a number.
fn finish_at(queues: &mut Vec<Queue>, number: usize, agent: usize, count: u64)
    requires { number < vec_len queues.old }
    ensures { queues.new.items ≡ changed_at (finished_queue agent count) number queues.old.items }
{
    let queue = &mut queues[number];
    queue.finish(agent, count);
}

/// Remembers in a queue the agent that `rrmemory` chose.
fn set_last_at(queues: &mut Vec<Queue>, number: usize, last: Option<usize>)
    requires { number < vec_len queues.old }
    ensures { queues.new.items ≡ changed_at (with_last last) number queues.old.items }
{
    let queue = &mut queues[number];
    queue.set_last(last);
}

impl QueueList {
    /// Without queues. It never allocates.
    pub(crate) fn new(alloc: Global) -> Self
        ensures { result ≡ [] }
    {
        QueueList {
            list: Vec::new(alloc),
            places: Places::new(alloc),
        }
    }

    /// The queues; the number of a queue is its place.
    pub(crate) fn list(&self) -> &[Queue]
        ensures { result.now ≡ self.now }
    {
        &self.list
    }

    /// The number of the queue with this name, in any ASCII case.
    pub(crate) fn number_of(&self, name: &[u8]) -> Option<usize>
        ensures number { result ≡ spec.queue_number self.now name.now }
        ensures within { IfSome result (λ number. number < length self.now) }
    {
        find_queue(&self.list, &self.places, name)
    }

    /// Adds a queue with the default settings and a name that no queue has. If memory runs out nothing changes.
    pub(crate) fn push(&mut self, alloc: Global, name: &[u8]) -> Result<(), NoMemory>
        requires { spec.queue_number self.old name.now ≡ None }
        ensures ok { OnOk result (self.new ≡ self.old ++ queue_named name.now ∷ []) }
        ensures err { OnErr result (self.new ≡ self.old) }
    {
        self.list.reserve(1)?;
        let text = Text::copy_of(alloc, name)?;
        self.places.push(word_hash(name))?;
        self.list.push(Queue::new(alloc, text)).unwrap();
        Ok(())
    }

    /// Changes a setting of the queue with a number.
    pub(crate) fn set(&mut self, number: usize, setting: Setting)
        requires { number < length self.old }
        ensures { self.new ≡ changed_at (with_queue_setting setting) number self.old }
    {
        set_at(&mut self.list, number, setting);
    }

    /// Adds a call at the end of those that wait in the queue with a number.
    pub(crate) fn push_caller(&mut self, number: usize, channel: u32) -> Result<(), NoMemory>
        requires { number < length self.old }
        ensures ok { OnOk result (self.new ≡ changed_at (with_caller channel) number self.old) }
        ensures err { OnErr result (self.new ≡ self.old) }
    {
        push_caller_at(&mut self.list, number, channel)?;
        Ok(())
    }

    /// Removes a call from the queue with a number, given the place where it may be.
    pub(crate) fn remove_caller(&mut self, number: usize, hint: usize, channel: u32)
        requires within { number < length self.old }
        requires once { times_waiting self.old channel ≤ 1 }
        ensures { self.new ≡ changed_at (without_caller channel) number self.old }
    {
        remove_caller_at(&mut self.list, number, hint, channel);
    }

    /// Adds a member to the queue with a number. Its agent is not yet a member there.
    pub(crate) fn push_member(&mut self, number: usize, member: Member) -> Result<(), NoMemory>
        requires within { number < length self.old }
        requires absent { is_member_at self.old number member.agent ≡ false }
        ensures ok { OnOk result (self.new ≡ changed_at (with_member member) number self.old) }
        ensures err { OnErr result (self.new ≡ self.old) }
    {
        push_member_at(&mut self.list, number, member)?;
        Ok(())
    }

    /// Removes the member that is the agent with a number from a queue.
    pub(crate) fn remove_member(&mut self, number: usize, agent: usize)
        requires { number < length self.old }
        ensures { self.new ≡ changed_at (without_member agent) number self.old }
    {
        remove_member_at(&mut self.list, number, agent);
    }

    /// Pauses or unpauses the agent with a number in a queue.
    pub(crate) fn pause(&mut self, number: usize, agent: usize, is_paused: bool)
        requires { number < length self.old }
        ensures { self.new ≡ changed_at (paused_queue agent is_paused) number self.old }
    {
        pause_at(&mut self.list, number, agent, is_paused);
    }

    /// Pauses or unpauses the agent with a number in all queues.
    pub(crate) fn pause_all(&mut self, agent: usize, is_paused: bool)
        ensures { self.new ≡ map (paused_queue agent is_paused) self.old }
    {
        pause_all(&mut self.list, agent, is_paused);
    }

    /// Counts a finished call for the member of a queue that is the agent with a number.
    pub(crate) fn finish(&mut self, number: usize, agent: usize, count: u64)
        requires { number < length self.old }
        ensures { self.new ≡ changed_at (finished_queue agent count) number self.old }
    {
        finish_at(&mut self.list, number, agent, count);
    }

    /// Remembers in a queue the agent that `rrmemory` chose.
    pub(crate) fn set_last(&mut self, number: usize, last: Option<usize>)
        requires { number < length self.old }
        ensures { self.new ≡ changed_at (with_last last) number self.old }
    {
        set_last_at(&mut self.list, number, last);
    }
}
