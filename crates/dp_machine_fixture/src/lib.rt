//! Machines that cases give events and ask questions, and their answers as text.
//!
//! Each way out of a function that owns a machine is proved with the drop of everything in the machine. So only the functions here own one,
//! and are proved once; whoever asks or checks something takes the machine by reference.
//!
//! This is only for tests.
#![tactic(auto)]

mod ahead;

pub use ahead::told_ahead;
use dp_case_tables::push_bytes;
use dp_machine::{Dialplan, EntryId, Event, Machine, NoMemory, Phase, Queues, Reply, Text};
use dp_table::StandardApps;
use std::alloc::Global;
use std::test::Fail;

/// A machine with the applications of the program.
pub type StandardMachine = Machine<StandardApps>;

/// A question to a machine.
pub trait AskMachine {
    /// The answer of a machine to a question, as text.
    fn answer(alloc: Global, machine: &mut StandardMachine, asked: &str) -> Result<String, Fail>;
}

/// A check of a machine.
pub trait Checked {
    /// Whether the machine does what it should.
    fn check(alloc: Global, machine: &mut StandardMachine) -> Result<(), Fail>;
}

/// A machine with the dialplan of a text, without queues.
fn machine_of(alloc: Global, text: &[u8]) -> Result<StandardMachine, Fail> {
    let (plan, _) = Dialplan::load(alloc, text)?;
    let machine = StandardMachine::new(alloc, plan, Queues::none(alloc))?;
    Ok(machine)
}

/// The answer of a new machine with the dialplan of a text.
pub fn answer_on<A: AskMachine>(alloc: Global, text: &[u8], asked: &str) -> Result<String, Fail> {
    let mut machine = machine_of(alloc, text)?;
    A::answer(alloc, &mut machine, asked)
}

/// Checks a new machine with the dialplan of a text.
pub fn check_on<C: Checked>(alloc: Global, text: &[u8]) -> Result<(), Fail> {
    let mut machine = machine_of(alloc, text)?;
    C::check(alloc, &mut machine)
}

/// The number of notes with which the dialplan of a text loads.
pub fn notes_of(alloc: Global, text: &[u8]) -> Result<usize, Fail> {
    let (_, notes) = Dialplan::load(alloc, text)?;
    Ok(notes.len())
}

/// A call to the extension of the context, from a caller with this number.
pub fn call(alloc: Global, context: &[u8], exten: &[u8], caller: &[u8]) -> Result<Event, NoMemory> {
    let context = Text::copy_of(alloc, context)?;
    let exten = Text::copy_of(alloc, exten)?;
    let caller = Text::copy_of(alloc, caller)?;
    Ok(Event::Start {
        context,
        exten,
        caller,
    })
}

/// The entry with a number, as `CONTEXT,NAME,PRIORITY APPLICATION`.
fn push_entry(
    out: &mut String,
    alloc: Global,
    plan: &Dialplan,
    id: EntryId,
) -> Result<(), NoMemory> {
    match (plan.contexts().get(id.context), plan.entry(id)) {
        (Some(context), Some(entry)) => {
            let name = Text::new(entry.name.name().text(alloc)?);
            let priority = entry.priority.get();
            write!(
                out,
                "{},{},{priority} {}",
                context.name(),
                name,
                entry.application
            )
        }
        _ => out.push_str("an entry that is not there"),
    }
}

fn push_reply(
    out: &mut String,
    alloc: Global,
    plan: &Dialplan,
    reply: Reply,
) -> Result<(), NoMemory> {
    match reply {
        Reply::Started(number) => write!(out, "started {number}"),
        Reply::Ran(id) => {
            out.push_str("ran ")?;
            push_entry(out, alloc, plan, id)
        }
        Reply::Invalid => out.push_str("invalid"),
        Reply::NoEntry => out.push_str("no entry"),
        Reply::Offered { channel, rung } => write!(out, "offered {channel} {rung}"),
        Reply::Done => out.push_str("done"),
        Reply::Refused(refusal) => { write!(out, "refused {} {}", refusal.code(), refusal.name()) }
    }
}

/// The word of a phase.
fn word_of(phase: &Phase) -> &'static str {
    match phase {
        Phase::Ready => "ready",
        Phase::Digits { .. } => "digits",
        Phase::Pause => "pause",
        Phase::Queued { .. } => "queued",
        Phase::Talking { .. } => "talking",
        Phase::Dialling { .. } => "dialling",
        Phase::Ended => "ended",
    }
}

/// A channel as the word of its phase with its place, `ready CONTEXT,EXTEN,PRIORITY`, or `none`.
pub fn push_state(
    out: &mut String,
    machine: &StandardMachine,
    channel: u32,
) -> Result<(), NoMemory> {
    match (machine.phase(channel), machine.place(channel)) {
        (None, None) => out.push_str("none"),
        (Some(phase), Some(place)) => write!(
            out,
            "{} {},{},{}",
            word_of(phase),
            place.context,
            place.exten,
            place.priority
        ),
        _ => out.push_str("a phase without a place, or the other way round"),
    }
}

/// The state of a channel.
pub fn state_of(
    alloc: Global,
    machine: &StandardMachine,
    channel: u32,
) -> Result<String, NoMemory> {
    let mut out = String::new(alloc);
    push_state(&mut out, machine, channel)?;
    Ok(out)
}

/// A reply, and the state of a channel after it: `REPLY -> STATE`.
fn push_answer(
    out: &mut String,
    alloc: Global,
    machine: &StandardMachine,
    reply: Reply,
    channel: u32,
) -> Result<(), NoMemory> {
    push_reply(out, alloc, machine.plan(), reply)?;
    out.push_str(" -> ")?;
    push_state(out, machine, channel)
}

/// The channel whose state is shown after an event: none has the number 0.
fn channel_started(reply: Reply) -> u32 {
    match reply {
        Reply::Started(channel) => channel,
        _ => 0,
    }
}

/// Gives a call, and adds the reply and the state of the channel after it.
pub fn push_called(
    out: &mut String,
    alloc: Global,
    machine: &mut StandardMachine,
    call: Event,
) -> Result<(), NoMemory> {
    let reply = machine.apply(alloc, call)?;
    push_answer(out, alloc, machine, reply, channel_started(reply))
}

/// Gives a step, and adds the reply and the state of the channel after it.
pub fn push_stepped(
    out: &mut String,
    alloc: Global,
    machine: &mut StandardMachine,
    channel: u32,
) -> Result<(), NoMemory> {
    let reply = machine.apply(alloc, Event::Step { channel })?;
    push_answer(out, alloc, machine, reply, channel)
}

/// The number of the channel that an event is about, or None if it is not about a channel.
fn about(reply: Reply, named: u32) -> Option<u32> {
    match (reply, named) {
        (Reply::Started(channel), _) => Some(channel),
        (_, 0) => None,
        (_, channel) => Some(channel),
    }
}

/// Gives an event, and adds the reply and the state of its channel after it, or only the reply if it is not about a channel.
pub fn push_given(
    out: &mut String,
    alloc: Global,
    machine: &mut StandardMachine,
    event: &Event,
) -> Result<(), NoMemory> {
    let reply = machine.apply_kept(alloc, event)?;
    match about(reply, event.channel()) {
        Some(channel) => push_answer(out, alloc, machine, reply, channel),
        None => push_reply(out, alloc, machine.plan(), reply),
    }
}

/// Adds the value of a name in a channel, each byte as the character with its number.
pub fn push_value(
    out: &mut String,
    alloc: Global,
    machine: &StandardMachine,
    channel: u32,
    name: &str,
) -> Result<(), NoMemory> {
    let value = machine.value(alloc, channel, name.as_bytes())?;
    push_bytes(out, &value)
}
