//! What events run.
ghost use Rattle.std.specs.Prelude.{◌≡◌, ◌∷◌, ◌++◌, [], IfOk, OnOk};
ghost use Rattle.std.specs.Option.{option_map};
ghost use Rattle.dp_machine.specs.Events.{event_row};
ghost use Rattle.dp_machine.specs.Replay.{final_world};
ghost use Rattle.dp_commands.specs.Verbose.{arguments_of_by};
ghost use Rattle.dp_wide_runs.specs.Turns.{wide_meanings};
ghost use Rattle.dp_test_runs.specs.Ran as spec;

use crate::items::RunItems;
use dp_conf::same_word;
use dp_machine::{Event, Machine, Reply};
use dp_plan::{Dialplan, Entry, EntryId, NoMemory, SharedName, SharedText, Text};
use dp_wide::{WideApps, exec_if_application};
use std::alloc::Global;

/// The greatest number of calls that run one inside the other in that of an entry.
const MOST_SIDES: u32 = 8;

/// An entry that a channel ran: its numbers, its context, its name by its meaning, its priority, its application as written, and its
/// arguments as they were expanded.
///
/// After an entry that runs `ExecIf` comes the call that this runs, as a side of the entry: the same entry with the application and the
/// arguments of that call. After one that is an `ExecIf` again comes its own call, and so on.
#[derive(Drop)]
pub struct RanEntry {
    pub channel: u32,
    pub id: EntryId,
    pub context: Text,
    pub name: SharedName,
    pub priority: u32,
    pub application: SharedText,
    pub arguments: Text,
    pub is_side: bool,
}

/// Entries that were run, in order.
pub type RanEntries = RunItems<RanEntry>;

/// The channel that an event names, and the arguments of the entry that the event runs.
#[derive(Drop)]
struct EventArguments {
    channel: u32,
    arguments: Text,
}

/// The name of the context with a number; empty if there is none.
fn context_name(alloc: Global, plan: &Dialplan, number: usize) -> Result<Text, NoMemory>
    ensures { IfOk result (λ name. name ≡ spec.context_name plan.now number) }
{
    match plan.contexts().get(number) {
        Some(context) => {
            let name = context.name().clone()?;
            Ok(name)
        }
        None => Ok(Text::new(Vec::new(alloc))),
    }
}

/// The call that an application runs in turn with these arguments.
#[tactic(auto, unfolding(crate::specs::Ran::call_in))]
fn call_in<'a>(application: &[u8], arguments: &'a [u8]) -> Option<(&'a [u8], &'a [u8])>
    ensures { option_map (λ call. (call.0.now, call.1.now)) result ≡ spec.call_in (application.now, arguments.now) }
{
    if !same_word(application, b"ExecIf") {
        return None;
    }
    exec_if_application(arguments)
}

/// Adds a call that an entry ran inside its own.
fn push_side(
    alloc: Global,
    sides: &mut RanEntries,
    ran: &RanEntry,
    application: &[u8],
    arguments: &[u8],
) -> Result<(), NoMemory>
    ensures { OnOk result (sides.new ≡ sides.old ++ spec.side_ran ran.now (application.now, arguments.now) ∷ []) }
{
    let application = Text::copy_of(alloc, application)?;
    let application = SharedText::new(alloc, application)?;
    let arguments = Text::copy_of(alloc, arguments)?;
    let context = ran.context.clone()?;
    let name = ran.name.clone()?;
    sides.push(RanEntry {
        channel: ran.channel,
        id: ran.id,
        context,
        name,
        priority: ran.priority,
        application,
        arguments,
        is_side: true,
    })
}

/// Adds the calls that an entry ran inside its own, if so many may run inside each other.
fn push_sides_within(
    alloc: Global,
    sides: &mut RanEntries,
    ran: &RanEntry,
    left: u32,
) -> Result<(), NoMemory>
    ensures { OnOk result (sides.new ≡ sides.old ++ spec.sides_within left ran.now (ran.now.application, ran.now.arguments)) }
{
    let mut application = ran.application.bytes();
    let mut arguments = ran.arguments.bytes();
    for _depth in 0..left {
        let Some((inner, given)) = call_in(application, arguments) else {
            return Ok(());
        };
        push_side(alloc, sides, ran, inner, given)?;
        application = inner;
        arguments = given;
    }
    Ok(())
}

/// The calls that an entry ran inside its own.
#[tactic(auto, unfolding(crate::specs::Ran::sides_of))]
fn sides_of(alloc: Global, ran: &RanEntry) -> Result<RanEntries, NoMemory>
    ensures { IfOk result (λ sides. sides ≡ spec.sides_of ran.now) }
{
    let mut sides = RunItems::none(alloc);
    push_sides_within(alloc, &mut sides, ran, MOST_SIDES)?;
    Ok(sides)
}

/// Adds an entry that ran, and the calls inside its own.
fn push_with_sides(alloc: Global, ran: &mut RanEntries, entry: RanEntry) -> Result<(), NoMemory>
    ensures { OnOk result (ran.new ≡ ran.old ++ spec.with_sides entry) }
{
    let sides = sides_of(alloc, &entry)?;
    ran.push(entry)?;
    ran.append(sides)
}

/// An entry of a context that a channel ran.
fn entry_ran(
    asked: EventArguments,
    id: EntryId,
    context: Text,
    entry: &Entry,
) -> Result<RanEntry, NoMemory>
    ensures { IfOk result (λ ran. ran ≡ spec.entry_ran asked.channel id context asked.arguments entry.now) }
{
    let EventArguments { channel, arguments } = asked;
    let name = entry.name.clone()?;
    let application = entry.application.clone()?;
    Ok(RanEntry {
        channel,
        id,
        context,
        name,
        priority: entry.priority.get(),
        application,
        arguments,
        is_side: false,
    })
}

/// Adds the entry of a dialplan with these numbers, which a channel ran, and the calls inside its own.
#[tactic(auto, unfolding(crate::specs::Ran::ran_at))]
fn push_ran_at(
    alloc: Global,
    ran: &mut RanEntries,
    plan: &Dialplan,
    asked: EventArguments,
    id: EntryId,
) -> Result<(), NoMemory>
    ensures { OnOk result (ran.new ≡ ran.old ++ spec.ran_at plan.now asked.channel id asked.arguments) }
{
    match plan.entry(id) {
        Some(entry) => {
            let context = context_name(alloc, plan, id.context)?;
            let first = entry_ran(asked, id, context, entry)?;
            push_with_sides(alloc, ran, first)
        }
        None => Ok(()),
    }
}

/// Adds what was run, given the reply and the dialplan in force.
fn push_ran(
    alloc: Global,
    ran: &mut RanEntries,
    plan: &Dialplan,
    asked: EventArguments,
    reply: Reply,
) -> Result<(), NoMemory>
    ensures { OnOk result (ran.new ≡ ran.old ++ spec.ran_told plan.now asked.channel asked.arguments reply) }
{
    match reply {
        Reply::Ran(id) => push_ran_at(alloc, ran, plan, asked, id),
        Reply::Started(_)
        | Reply::Invalid
        | Reply::NoEntry
        | Reply::Offered { .. }
        | Reply::Done
        | Reply::Refused(_) => Ok(()),
    }
}

/// The arguments of the entry that an event runs, as they expand now. Only a step runs an entry.
fn arguments_of(
    alloc: Global,
    machine: &mut Machine<WideApps>,
    event: &Event,
) -> Result<Text, NoMemory>
    ensures arguments { IfOk result (λ arguments. arguments ≡ arguments_of_by wide_meanings machine.old event.now) }
    ensures same { machine.new ≡ machine.old }
{
    let Event::Step { channel } = event else {
        return Ok(Text::new(Vec::new(alloc)));
    };
    match machine.arguments_ahead(alloc, *channel)? {
        Some(arguments) => Ok(Text::new(arguments)),
        None => Ok(Text::new(Vec::new(alloc))),
    }
}

/// Gives the machine one event, and adds what it runs.
#[tactic(auto, unfolding(crate::specs::Ran::ran_by))]
pub(crate) fn give(
    alloc: Global,
    machine: &mut Machine<WideApps>,
    event: Event,
    ran: &mut RanEntries,
) -> Result<Reply, NoMemory>
    ensures reply { IfOk result (λ reply. reply ≡ (event_row wide_meanings machine.old event).1) }
    ensures world { OnOk result (machine.new ≡ final_world wide_meanings machine.old event) }
    ensures ran { OnOk result (ran.new ≡ ran.old ++ spec.ran_by machine.old event) }
{
    let channel = event.channel();
    let arguments = arguments_of(alloc, machine, &event)?;
    let reply = machine.apply(alloc, event)?;
    let asked = EventArguments { channel, arguments };
    push_ran(alloc, ran, machine.plan(), asked, reply)?;
    Ok(reply)
}
