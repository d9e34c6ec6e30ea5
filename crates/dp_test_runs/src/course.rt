//! The course of a test.
ghost use Rattle.std.specs.Prelude.{◌≡◌};
ghost use Rattle.dp_test_runs.specs.Courses as spec;

use crate::items::RunItems;
use crate::named_text::{NamedFileText, number_named, text_named};
use crate::ran_entries::{RanEntries, give};
use crate::settling::settle;
use crate::turns::{event_given, refusal_without};
use dp_commands::ScriptLine;
use dp_machine::{Event, Machine, NoMemory, Queues, Refusal, Reply};
use dp_wide::WideApps;
use dp_wide_runs::WideTurn;
use std::alloc::Global;

/// After so many entries ran, a `reload` line put the dialplan in force of the file with this number, counted from 0.
#[derive(Clone, Copy, Debug, PartialEq, Eq)]
pub struct PlanChange {
    pub after: usize,
    pub file: usize,
}

/// What is known at a line of a test: the machine, what ran so far, why the last event line was refused if it was, the channel that was last
/// offered to agents, whether the steps after an event found no end, and the dialplans that `reload` lines put in force, in order.
pub(crate) struct Course {
    pub(crate) machine: Machine<WideApps>,
    pub(crate) ran: RanEntries,
    pub(crate) refusal: Option<Refusal>,
    pub(crate) offered: Option<u32>,
    pub(crate) is_endless: bool,
    pub(crate) changes: RunItems<PlanChange>,
}

impl Drop for Course {
    fn drop(self) {
        let Course {
            machine: _,
            ran: _,
            refusal: _,
            offered: _,
            is_endless: _,
            changes: _,
        } = self;
    }
}

/// The refusal that a reply is.
fn refusal_of(reply: Reply) -> Option<Refusal>
    ensures { result ≡ spec.refusal_of reply }
{
    match reply {
        Reply::Refused(refusal) => Some(refusal),
        Reply::Started(_)
        | Reply::Ran(_)
        | Reply::Invalid
        | Reply::NoEntry
        | Reply::Offered { .. }
        | Reply::Done => None,
    }
}

/// The channel that a reply says was offered to agents.
fn offered_by(reply: Reply) -> Option<u32>
    ensures { result ≡ spec.offered_by reply }
{
    match reply {
        Reply::Offered { channel, rung: _ } => Some(channel),
        Reply::Started(_)
        | Reply::Ran(_)
        | Reply::Invalid
        | Reply::NoEntry
        | Reply::Done
        | Reply::Refused(_) => None,
    }
}

impl Course {
    ghost use Rattle.std.specs.Prelude.{◌≡◌, [], OnOk, Some, fold};
    ghost use Rattle.std.specs.Option.{option_map};
    ghost use Rattle.dp_commands.specs.Script.{line_turns, turns_of};
    ghost use Rattle.dp_machine.specs.World.{opening_with};
    ghost use Rattle.dp_queue.specs.Rest.{IsAtRest};
    ghost use Rattle.dp_wide.specs.Functions.{wide_functions};
    ghost use Rattle.dp_test_runs.specs.Courses as spec;
    ghost use Rattle.dp_test_runs.specs.Tests as tests;

    /// The course at the beginning of a test.
    pub(crate) fn beginning(alloc: Global, machine: Machine<WideApps>) -> Self
        ensures { result ≡ tests.beginning machine }
    {
        Course {
            machine,
            ran: RunItems::none(alloc),
            refusal: None,
            offered: None,
            is_endless: false,
            changes: RunItems::none(alloc),
        }
    }

    /// The course at the beginning of a test in the machine of this one, with its dialplan in force and these queues.
    pub(crate) fn restart(&mut self, alloc: Global, queues: Queues) -> Result<(), NoMemory>
        requires { IsAtRest queues }
        ensures { OnOk result (self.new ≡ tests.beginning (opening_with wide_functions self.old.machine.plan queues)) }
    {
        self.machine.restart(alloc, queues)?;
        self.ran = RunItems::none(alloc);
        self.refusal = None;
        self.offered = None;
        self.is_endless = false;
        self.changes = RunItems::none(alloc);
        Ok(())
    }

    /// The entries that ran, and the dialplans that were put in force, which leave the course.
    pub(crate) fn take_ran(&mut self, alloc: Global) -> (RanEntries, RunItems<PlanChange>)
        ensures taken { result ≡ (self.old.ran, self.old.changes) }
        ensures left { self.new ≡ record self.old { ran = []; changes = [] } }
    {
        let ran = std::mem::replace(&mut self.ran, RunItems::none(alloc));
        let changes = std::mem::replace(&mut self.changes, RunItems::none(alloc));
        (ran, changes)
    }

    /// Gives the machine an event, and settles it.
    fn take_event(&mut self, alloc: Global, event: Event) -> Result<(), NoMemory>
        ensures { OnOk result (self.new ≡ spec.after_event self.old event) }
    {
        let reply = give(alloc, &mut self.machine, event, &mut self.ran)?;
        let is_endless = settle(alloc, &mut self.machine, &mut self.ran)?;
        self.refusal = self.refusal.or(refusal_of(reply));
        self.offered = offered_by(reply).or(self.offered);
        self.is_endless = self.is_endless || is_endless;
        Ok(())
    }

    /// Takes a turn.
    fn take_turn(&mut self, alloc: Global, turn: &WideTurn) -> Result<(), NoMemory>
        ensures { OnOk result (self.new ≡ spec.after_turn self.old turn.now) }
    {
        let event = event_given(alloc, &mut self.machine, turn)?;
        match event {
            Some(event) => self.take_event(alloc, event),
            None => {
                self.refusal = self.refusal.or(refusal_without(&self.machine, turn));
                Ok(())
            }
        }
    }

    /// Takes the turn of a line as often as the line says.
    fn take_line(&mut self, alloc: Global, line: &ScriptLine<WideTurn>) -> Result<(), NoMemory>
        ensures { OnOk result (self.new ≡ fold spec.after_turn self.old (line_turns line.now)) }
    {
        for _turn in 0..line.count {
            self.take_turn(alloc, &line.turn)?;
        }
        Ok(())
    }

    /// Takes the turns of lines, one after another.
    fn take_lines(&mut self, alloc: Global, lines: &[ScriptLine<WideTurn>]) -> Result<(), NoMemory>
        ensures { OnOk result (self.new ≡ fold spec.after_turn self.old (turns_of lines.now)) }
    {
        for line in lines {
            self.take_line(alloc, line)?;
        }
        Ok(())
    }

    /// Takes an event line with these turns.
    pub(crate) fn take_turns(
        &mut self,
        alloc: Global,
        lines: &[ScriptLine<WideTurn>],
    ) -> Result<(), NoMemory>
        ensures { OnOk result (self.new ≡ spec.after_turns self.old lines.now) }
    {
        self.refusal = None;
        self.take_lines(alloc, lines)
    }

    /// Keeps that the dialplan of a file was put in force after so many entries ran, unless this was refused.
    fn keep_change(&mut self, after: usize, file: Option<usize>) -> Result<(), NoMemory>
        ensures { OnOk result (self.new ≡ spec.with_change after file self.old) }
    {
        match (self.refusal, file) {
            (None, Some(file)) => self.changes.push(PlanChange { after, file }),
            (None, None) | (Some(_), _) => Ok(()),
        }
    }

    /// Takes a `reload` line, given the files that the caller has read.
    pub(crate) fn take_reload(
        &mut self,
        alloc: Global,
        files: &[NamedFileText],
        name: &[u8],
    ) -> Result<(), NoMemory>
        ensures { OnOk result (self.new
            ≡ spec.after_reload self.old (spec.number_named files.now name.now) (spec.text_named files.now name.now)) }
    {
        let Some(text) = text_named(files, name) else {
            self.refusal = Some(Refusal::BadPlan);
            return Ok(());
        };
        let after = self.ran.as_slice().len();
        self.refusal = None;
        let text = text.clone()?;
        self.take_event(alloc, Event::Reload { text })?;
        self.keep_change(after, number_named(files, name))
    }
}
