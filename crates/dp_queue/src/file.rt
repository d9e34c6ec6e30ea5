//! The effect of each line of a file of queues, after the Asterisk documentation's page on that file.
ghost use Rattle.std.specs.Prelude.{◌≡◌, ◌<◌, ◌++◌, ◌∷◌, [], None, Ok, IfOk, length, map};
ghost use Rattle.dp_conf.specs.Answers.{Answers};
ghost use Rattle.dp_conf.specs.Borrowed.{line_now};
ghost use Rattle.dp_conf.specs.Levels.{arguments_of};
ghost use Rattle.dp_queue.specs.Queues.{queue_number};
ghost use Rattle.dp_queue.specs.Faults.{at_line};
ghost use Rattle.dp_queue.specs.File as spec;
ghost use Rattle.dp_queue.specs.Rest.{IsAtRest};
ghost use Rattle.dp_queue.specs.steps.Loading.{AtRefusal, line_reason};

use crate::agents::Agents;
use crate::fault::QueueKind;
use crate::membership::{NewMember, add_member, is_member_at};
use crate::queue::Queue;
use crate::queue_list::QueueList;
use crate::queues::Queues;
use crate::setting::{Setting, at_line, read_limited, read_setting};
use crate::waiting_seat::Seats;
use dp_conf::{FaultyLine, Line, NoMemory, TakeFault, same_word, split_args};
use std::alloc::Global;
use std::marker::Model;

/// The result of the lines so far, and the number of the queue whose section they end in, if there is one.
#[derive(Drop)]
pub(crate) struct File {
    section: Option<usize>,
    queues: QueueList,
    agents: Agents,
}

impl Model for File {
    ghost use Rattle.std.specs.Prelude.{◌<◌, IfSome, length};
    ghost use Rattle.dp_queue.specs.File.{FileOf};
    ghost use Rattle.dp_queue.specs.Good.{AreMembers};

    ghost Value = { FileOf };

    ghost view = { λ file. record {
      section = file.section;
      made = record { queues = file.queues; agents = file.agents; finished = 0 };
    } };

    ghost invariant = { λ file. IfSome file.section (λ number. number < length file.queues) × AreMembers file.queues file.agents };
}

/// The penalty of a member; an empty text is 0.
fn read_penalty(text: &[u8]) -> Result<u32, QueueKind>
    ensures { result ≡ spec.penalty_in text.now }
{
    if text.is_empty() {
        return Ok(0);
    }
    read_limited(text)
}

/// The argument at a place, or an empty one if there is none.
fn argument_at<'a>(arguments: &[&'a [u8]], place: usize) -> &'a [u8]
    ensures { result.now ≡ spec.argument_at (map (λ argument. argument.now) arguments.now) place }
{
    match arguments.get(place) {
        Some(argument) => argument,
        None => b"",
    }
}

/// The penalty of a member, given the arguments of its line.
fn penalty_of(arguments: &[&[u8]]) -> Result<u32, QueueKind>
    ensures { result ≡ spec.penalty_of (map (λ argument. argument.now) arguments.now) }
{
    read_penalty(argument_at(arguments, 1))
}

/// Whether a member in the file is skipped: its name is empty, or it is already a member of the queue.
fn is_passed_over(queues: &[Queue], agents: &Agents, number: usize, name: &[u8]) -> bool
    ensures { result ≡ spec.is_passed_over (record { queues = queues.now; agents = agents.now; finished = 0 }) number name.now }
{
    name.is_empty() || is_member_at(queues, number, agents.number_of(name))
}

impl File {
    /// The value before the first line.
    pub(crate) fn new(alloc: Global) -> Self
        ensures { result ≡ spec.nothing_read }
    {
        File {
            section: None,
            queues: QueueList::new(alloc),
            agents: Agents::new(alloc),
        }
    }

    /// Begins the section of a new queue.
    fn push_queue(&mut self, alloc: Global, name: &[u8]) -> Result<(), NoMemory>
        requires { queue_number self.old.made.queues name.now ≡ None }
        ensures { IfOk result (λ done. spec.with_queue self.old name.now ≡ self.new) }
    {
        let number = self.queues.list().len();
        self.queues.push(alloc, name)?;
        self.section = Some(number);
        Ok(())
    }

    /// Takes a header.
    fn begin(&mut self, alloc: Global, line: usize, name: &[u8]) -> Result<(), TakeFault<QueueKind>>
        ensures taken { Answers (λ done. self.new) line_reason result (at_line line (spec.after_header self.old name.now)) }
        ensures kept { AtRefusal (self.new ≡ self.old) result }
    {
        if same_word(name, b"general") {
            self.section = None;
            return Ok(());
        }
        if self.queues.number_of(name).is_some() {
            return Err(TakeFault::Line(FaultyLine {
                line,
                kind: QueueKind::DoubleQueue,
            }));
        }
        self.push_queue(alloc, name)?;
        Ok(())
    }

    /// Makes the agent with a name a member of the queue with a number, unless the name is empty or it is one already.
    fn add_named(
        &mut self,
        alloc: Global,
        number: usize,
        name: &[u8],
        penalty: u32,
    ) -> Result<(), NoMemory>
        requires { number < length self.old.made.queues }
        ensures { IfOk result (λ done. spec.with_made self.old (spec.with_named self.old.made number name.now penalty) ≡ self.new) }
    {
        if is_passed_over(self.queues.list(), &self.agents, number, name) {
            return Ok(());
        }
        let member = NewMember {
            interface: name,
            penalty,
            is_dynamic: false,
        };
        add_member(alloc, &mut self.queues, &mut self.agents, number, member)?;
        Ok(())
    }

    /// Takes a member's line in the section of the queue with a number, given its arguments.
    fn take_arguments(
        &mut self,
        alloc: Global,
        line: usize,
        number: usize,
        arguments: &[&[u8]],
    ) -> Result<(), TakeFault<QueueKind>>
        requires { number < length self.old.made.queues }
        ensures taken { Answers (λ done. self.new) line_reason result (at_line line (spec.made_in self.old
            (spec.with_member_line self.old.made number (map (λ argument. argument.now) arguments.now)))) }
        ensures kept { AtRefusal (self.new ≡ self.old) result }
    {
        let penalty = at_line(line, penalty_of(arguments))?;
        self.add_named(alloc, number, argument_at(arguments, 0), penalty)?;
        Ok(())
    }

    /// Takes a member's line in the section of the queue with a number.
    fn take_member(
        &mut self,
        alloc: Global,
        line: usize,
        number: usize,
        value: &[u8],
    ) -> Result<(), TakeFault<QueueKind>>
        requires { number < length self.old.made.queues }
        ensures taken { Answers (λ done. self.new) line_reason result
            (at_line line (spec.made_in self.old (spec.with_member_line self.old.made number (arguments_of value.now)))) }
        ensures kept { AtRefusal (self.new ≡ self.old) result }
    {
        let arguments = split_args(alloc, value)?;
        self.take_arguments(alloc, line, number, &arguments)
    }

    /// Takes a pair.
    fn take_pair(
        &mut self,
        alloc: Global,
        line: usize,
        key: &[u8],
        value: &[u8],
    ) -> Result<(), TakeFault<QueueKind>>
        ensures taken { Answers (λ done. self.new) line_reason result
            (at_line line (spec.after_pair self.old self.old.section key.now value.now)) }
        ensures kept { AtRefusal (self.new ≡ self.old) result }
    {
        match self.section {
            None => Ok(()),
            Some(number) => {
                if same_word(key, b"member") {
                    return self.take_member(alloc, line, number, value);
                }
                let setting = read_setting(alloc, line, key, value)?;
                self.queues.set(number, setting);
                Ok(())
            }
        }
    }

    /// Takes a line. A refused line changes nothing.
    pub(crate) fn take(&mut self, alloc: Global, line: Line<'_>) -> Result<(), TakeFault<QueueKind>>
        ensures taken { Answers (λ done. self.new) line_reason result (spec.after_line self.old (line_now line.entry)) }
        ensures kept { AtRefusal (self.new ≡ self.old) result }
    {
        match line {
            Line::Header { line, name } => self.begin(alloc, line, name),
            Line::Pair { line, key, value } => self.take_pair(alloc, line, key, value),
        }
    }

    /// The queues that result from the lines.
    pub(crate) fn into_queues(self, alloc: Global) -> Queues
        requires { IsAtRest self.made }
        ensures { result ≡ self.made }
    {
        let File {
            section: _,
            queues,
            agents,
        } = self;
        Queues {
            queues,
            agents,
            seats: Seats::new(alloc),
            finished: 0,
        }
    }
}
