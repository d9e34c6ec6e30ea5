//! Debugged runs of a dialplan by a script.
ghost use Rattle.std.specs.Prelude.{◌≡◌, ◌++◌, ◌||◌, ◌∷◌, [], IfOk, OnOk, OnErr, Ok, is_some, map, false};
ghost use Rattle.dp_conf.specs.Answers.{Answers};
ghost use Rattle.dp_debug.specs.Breaks.{first_before};
ghost use Rattle.dp_machine.specs.Events.{event_row};
ghost use Rattle.dp_table.specs.Standard.{standard_meanings};
ghost use Rattle.dp_commands.specs.Debug as spec;
ghost use Rattle.dp_commands.specs.Faults.{is_write_failed, reason_of};
ghost use Rattle.dp_commands.specs.Run.{run_of_texts};
ghost use Rattle.dp_commands.specs.Trace.{reply_text};

use crate::block::Block;
use crate::fault::{Code, PbxFault};
use crate::run::run_texts;
use crate::script::Turn;
use crate::script_line::number_within;
use crate::taker::Taker;
use crate::texts::RunTexts;
use crate::trace::{push_number, push_reply};
use dp_conf::WriteTold;
use dp_debug::{Break, Debugger, Why};
use dp_machine::{Event, Exten, Machine, Place, Reply};
use dp_plan::{MOST_PRIORITY, NoMemory, Text};
use dp_table::StandardApps;
use std::alloc::Global;
use std::marker::Model;
use std::slice;

/// The parts of a text between its commas.
fn parts<'a>(alloc: Global, text: &'a [u8]) -> Result<Vec<&'a [u8]>, NoMemory>
    ensures { IfOk result (λ parts. map (λ part. part.now) parts.items ≡ spec.parts_of text.now) }
{
    text.split(|byte| *byte == b',').collect(alloc)
}

/// The priority that a part writes: digits with a number from 1 to 2,147,483,647.
fn read_priority(part: &[u8]) -> Option<u32>
    ensures { result ≡ spec.priority_in part.now }
{
    let number = number_within(MOST_PRIORITY, part)?;
    if number == 0 {
        return None;
    }
    Some(number)
}

/// The break that three parts name, or None if they do not name one.
fn read_parts(alloc: Global, parts: &[&[u8]]) -> Result<Option<Break>, NoMemory>
    ensures { IfOk result (λ held. held ≡ spec.break_by (map (λ part. part.now) parts.now)) }
{
    let (context, exten, part) = match parts {
        [context, exten, part] => (*context, *exten, *part),
        _ => return Ok(None),
    };
    let Some(priority) = read_priority(part) else {
        return Ok(None);
    };
    let context = Text::copy_of(alloc, context)?;
    let exten = Exten::new(Text::copy_of(alloc, exten)?);
    Ok(Some(Break::At(Place {
        context,
        exten,
        priority,
    })))
}

/// The break that the text `CONTEXT,EXTEN,PRIORITY` names, or None if it does not name one. The parts are not trimmed.
fn cut_break(alloc: Global, text: &[u8]) -> Result<Option<Break>, NoMemory>
    ensures { IfOk result (λ held. held ≡ spec.break_by (spec.parts_of text.now)) }
{
    let parts = parts(alloc, text)?;
    read_parts(alloc, &parts)
}

/// The break that the text `CONTEXT,EXTEN,PRIORITY` names, none of its parts trimmed, or fault 71 if it does not name one. It fails only
/// then, and if memory runs out.
#[tactic(auto, unfolding(crate::specs::Debug::break_of))]
pub fn read_break(alloc: Global, text: &[u8]) -> Result<Break, PbxFault>
    ensures held { Answers (λ held. held) reason_of result (spec.break_of text.now) }
    ensures quiet { is_write_failed result ≡ false }
{
    match cut_break(alloc, text) {
        Ok(Some(held)) => Ok(held),
        Ok(None) => Err(PbxFault::Coded {
            code: Code::BadBreak,
            line: None,
        }),
        Err(_) => Err(PbxFault::NoMemory),
    }
}

/// Adds the line of a halt after a number of events.
pub(crate) fn push_halt(out: &mut Block, taken: u64) -> Result<(), NoMemory>
    ensures kept { out.new.whole ≡ out.old.whole }
    ensures ok { OnOk result (out.new.begun ≡ out.old.begun ++ spec.halt_line taken) }
{
    out.push(b"break ")?;
    push_number(out, taken)?;
    out.push(b"\n")
}

/// The outcome of an event under the debugger: whether the debugger halted before the event, and the reply.
#[derive(Clone, Copy)]
pub(crate) struct Stepped {
    pub(crate) halted: bool,
    pub(crate) reply: Reply,
}

/// Adds the line of a reply to the waiting lines, after that of a halt, if there was one.
fn push_stepped(
    block: &mut Block,
    machine: &Machine<StandardApps>,
    channel: u32,
    taken: u64,
    stepped: Stepped,
) -> Result<(), NoMemory>
    ensures ok { OnOk result (block.new.whole ≡ block.old.whole
        ++ (spec.halt_text stepped.halted taken ++ (reply_text machine.now channel stepped.reply ++ 10 ∷ []))) }
    ensures err { OnErr result (block.new.whole ≡ block.old.whole) }
{
    block.begin_line();
    if stepped.halted {
        push_halt(block, taken)?;
    }
    push_reply(block, machine, channel, stepped.reply)?;
    block.end_line()
}

/// Continues with the event before which the debugger halted, and gives the reply.
fn go_on(
    alloc: Global,
    debugger: &mut Debugger,
    machine: &mut Machine<StandardApps>,
    event: &Event,
    held: &Break,
) -> Result<Reply, NoMemory>
    requires { debugger.old ≡ [] }
    ensures reply { IfOk result (λ reply. reply ≡ (event_row standard_meanings machine.old event.now).1) }
    ensures world { OnOk result (machine.new ≡ (event_row standard_meanings machine.old event.now).0) }
{
    let events = slice::from_ref(event);
    let halt = debugger.resume(alloc, machine, events, 0, slice::from_ref(held));
    match halt.why {
        Why::End | Why::Break(_) => Ok(debugger.trace()[0]),
        Why::NoMemory => Err(NoMemory),
    }
}

/// Gives the debugger one event. If it halts before the event it then continues with it.
pub(crate) fn step(
    alloc: Global,
    debugger: &mut Debugger,
    machine: &mut Machine<StandardApps>,
    event: &Event,
    held: &Break,
) -> Result<Stepped, NoMemory>
    ensures halted { IfOk result (λ stepped. stepped.halted
        ≡ is_some (first_before machine.old event.now (held.now ∷ []))) }
    ensures reply { IfOk result (λ stepped. stepped.reply ≡ (event_row standard_meanings machine.old event.now).1) }
    ensures world { OnOk result (machine.new ≡ (event_row standard_meanings machine.old event.now).0) }
{
    let halt = debugger.run(
        alloc,
        machine,
        slice::from_ref(event),
        slice::from_ref(held),
    );
    match halt.why {
        Why::End => Ok(Stepped {
            halted: false,
            reply: debugger.trace()[0],
        }),
        Why::Break(_) => Ok(Stepped {
            halted: true,
            reply: go_on(alloc, debugger, machine, event, held)?,
        }),
        Why::NoMemory => Err(NoMemory),
    }
}

/// A debugger that takes the turns of a script. Contracts see it as its break and the number of events taken.
#[derive(Drop)]
struct Watched {
    debugger: Debugger,
    held: Break,
    taken: u64,
}

impl Model for Watched {
    ghost use Rattle.dp_commands.specs.Debug.{Watch};

    ghost Value = { Watch };

    ghost view = { λ watched. record { held = watched.held; taken = watched.taken } };
}

impl Taker for Watched {
    ghost use Rattle.dp_commands.specs.Debug.{debug_turn, end_text};
    ghost use Rattle.dp_commands.specs.Run.{status_by};

    type Table = StandardApps;

    type Turn = Turn;

    ghost step = { debug_turn };

    ghost last = { end_text };

    ghost status = { λ _ refused. status_by refused };

    fn take(
        &mut self,
        alloc: Global,
        machine: &mut Machine<StandardApps>,
        turn: &Turn,
        block: &mut Block,
    ) -> Result<bool, NoMemory> {
        match turn {
            Turn::Event(event) => self.take_event(alloc, machine, event, block),
            Turn::Show { .. } => Ok(false),
        }
    }

    fn finish(&self, block: &mut Block) -> Result<(), NoMemory> {
        push_end(block, self.taken)
    }

    fn status(&self, refused: bool) -> u8 {
        u8::from(refused)
    }
}

/// Adds the last line of a debugged run that took this number of events, `end TAKEN`, to the waiting lines. It fails only if memory runs
/// out; then no line was added.
pub fn push_end(block: &mut Block, taken: u64) -> Result<(), NoMemory>
    ensures ok { OnOk result (block.new.whole ≡ block.old.whole ++ spec.end_line taken) }
    ensures err { OnErr result (block.new.whole ≡ block.old.whole) }
{
    block.begin_line();
    block.push(b"end ")?;
    push_number(block, taken)?;
    block.end_line()
}

impl Watched {
    /// Gives the debugger one event, and adds its lines to the waiting lines. It says whether the event was refused.
    #[tactic(auto, unfolding(crate::specs::Trace::event_line_by))]
    fn take_event(
        &mut self,
        alloc: Global,
        machine: &mut Machine<StandardApps>,
        event: &Event,
        block: &mut Block,
    ) -> Result<bool, NoMemory>
        ensures lines { OnOk result (block.new.whole
            ≡ block.old.whole ++ (spec.debug_turn (self.old, machine.old) (Turn.Event event.now)).lines) }
        ensures state { OnOk result ((self.new, machine.new)
            ≡ (spec.debug_turn (self.old, machine.old) (Turn.Event event.now)).state) }
        ensures refused { IfOk result (λ refused. refused
            ≡ (spec.debug_turn (self.old, machine.old) (Turn.Event event.now)).refused) }
        ensures err { OnErr result (block.new.whole ≡ block.old.whole) }
    {
        let stepped = step(alloc, &mut self.debugger, machine, event, &self.held)?;
        push_stepped(block, machine, event.channel(), self.taken, stepped)?;
        self.taken = self.taken.saturating_add(1);
        Ok(stepped.reply.is_refusal())
    }
}

/// A debugger with a break, before the first event.
fn watch(alloc: Global, held: Break) -> Watched
    ensures { result ≡ record { held = held; taken = 0 } }
{
    Watched {
        debugger: Debugger::new(alloc),
        held,
        taken: 0,
    }
}

/// Runs a script on a dialplan with its queues under a debugger, and writes the trace as it goes, a block of lines at a time. Before a step
/// of a channel that is ready at the place of the break it writes the line `break TAKEN`, and at the end `end TAKEN`: TAKEN counts the
/// events of the script. A `show` is skipped. The status is 1 if an event was refused, else 0.
///
/// The break is written `CONTEXT,EXTEN,PRIORITY`; its fault comes first, then those of [`crate::run_script`]. If memory runs out the lines
/// of the earlier events are written. If memory runs out or a write fails, what was written stays written.
#[tactic(auto, unfolding(crate::specs::Debug::debug_of))]
pub fn debug_script<W: WriteTold>(
    alloc: Global,
    texts: RunTexts<'_>,
    held: &[u8],
    writer: &mut W,
) -> Result<u8, PbxFault>
    ensures writes { spec.WritesDebug (W.contents writer.old) (W.contents writer.new)
        (spec.debug_of (run_of_texts texts.entry) held.now) result }
    ensures told { W.has_failed writer.new ≡ (W.has_failed writer.old || is_write_failed result) }
{
    let held = read_break(alloc, held)?;
    let watched = watch(alloc, held);
    run_texts(alloc, texts, watched, writer)
}
