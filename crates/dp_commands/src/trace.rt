//! The lines of a trace.
ghost use Rattle.std.specs.Prelude.{◌≡◌, ◌++◌, ◌∷◌, [], IfOk, OnOk, OnErr, Some, codes, decimal};
ghost use Rattle.std.specs.Option.{option_copied};
ghost use Rattle.dp_machine.specs.World.{value_in};
ghost use Rattle.dp_commands.specs.Trace as spec;

use crate::block::Block;
use dp_app::AppTable;
use dp_machine::{EntryId, Machine, Phase, Place, Queues, Refusal, Reply};
use dp_plan::{Context, Dialplan, Entry, NoMemory};
use itoa::{Buffer, Integer};
use std::alloc::Global;

/// Adds a number in decimal. It fails only if memory runs out.
pub fn push_number<I: Integer>(out: &mut Block, number: I) -> Result<(), NoMemory>
    ensures kept { out.new.whole ≡ out.old.whole }
    ensures ok { OnOk result (out.new.begun ≡ out.old.begun ++ I.text number) }
{
    let mut buffer = Buffer::new();
    out.push(buffer.format(number).as_bytes())
}

/// Adds the number of a channel or of a priority in decimal. Many have one digit.
#[tactic(auto, using(std::proofs::lemmas::Fmt::decimal_digit))]
#[inline(always)]
pub fn push_short(out: &mut Block, number: u32) -> Result<(), NoMemory>
    ensures kept { out.new.whole ≡ out.old.whole }
    ensures ok { OnOk result (out.new.begun ≡ out.old.begun ++ decimal number) }
{
    match u8::try_from(number) {
        Ok(digit) if digit < 10 => out.push_byte(b'0' + digit),
        _ => push_number(out, number),
    }
}

/// Adds `CONTEXT,EXTEN,PRIORITY`.
pub(crate) fn push_place(
    out: &mut Block,
    context: &[u8],
    exten: &[u8],
    priority: u32,
) -> Result<(), NoMemory>
    ensures kept { out.new.whole ≡ out.old.whole }
    ensures ok { OnOk result (out.new.begun ≡ out.old.begun ++ spec.place_text context.now exten.now priority) }
{
    out.push(context)?;
    out.push_byte(b',')?;
    out.push(exten)?;
    out.push_byte(b',')?;
    push_short(out, priority)
}

/// Adds ` -> ` and the state of a channel that is ready.
fn push_ready(out: &mut Block, place: Option<&Place>) -> Result<(), NoMemory>
    ensures kept { out.new.whole ≡ out.old.whole }
    ensures ok { OnOk result (out.new.begun ≡ out.old.begun ++ (codes " -> " ++ spec.ready_text (option_copied place.entry))) }
{
    let Some(place) = place else {
        return out.push(b" -> ");
    };
    out.push(b" -> ready ")?;
    push_place(
        out,
        place.context.bytes(),
        place.exten.bytes(),
        place.priority,
    )
}

/// Adds ` -> ` and the state of the channel with this number.
#[tactic(auto, unfolding(crate::specs::Trace::state_text))]
pub fn push_after<A: AppTable>(
    out: &mut Block,
    machine: &Machine<A>,
    number: u32,
) -> Result<(), NoMemory>
    ensures kept { out.new.whole ≡ out.old.whole }
    ensures ok { OnOk result (out.new.begun ≡ out.old.begun ++ (codes " -> " ++ spec.state_text machine.now number)) }
{
    let Some(phase) = machine.phase(number) else {
        return out.push(b" -> ");
    };
    push_phase(out, machine.queues(), phase, machine.place(number))
}

/// Adds ` -> ` and the state of a channel, given its phase and its place. The arrow is added together with the word of the state.
#[inline(always)]
fn push_phase(
    out: &mut Block,
    queues: &Queues,
    phase: &Phase,
    place: Option<&Place>,
) -> Result<(), NoMemory>
    ensures kept { out.new.whole ≡ out.old.whole }
    ensures ok { OnOk result (out.new.begun ≡ out.old.begun ++ (codes " -> " ++ spec.state_by queues.now (Some phase.now)
        (option_copied place.entry))) }
{
    match phase {
        Phase::Ready => push_ready(out, place),
        Phase::Digits { .. } => out.push(b" -> digits"),
        Phase::Pause => out.push(b" -> pause"),
        Phase::Queued { queue, .. } => push_queued(out, queues, *queue),
        Phase::Talking { queue, agent, .. } => {
            out.push(b" -> ")?;
            push_talking(out, queues, *queue, *agent)
        }
        Phase::Dialling { .. } => out.push(b" -> dialling"),
        Phase::Ended => out.push(b" -> ended"),
    }
}

/// Adds ` -> ` and the state of a channel that waits in the queue with a number.
fn push_queued(out: &mut Block, queues: &Queues, queue: usize) -> Result<(), NoMemory>
    ensures kept { out.new.whole ≡ out.old.whole }
    ensures ok { OnOk result (out.new.begun ≡ out.old.begun ++ (codes " -> " ++ (codes "queued " ++ spec.queue_name queues.now queue))) }
{
    out.push(b" -> queued ")?;
    push_queue(out, queues, queue)
}

/// Adds the state of a channel that talks with the agent with a number, in the queue with a number.
fn push_talking(
    out: &mut Block,
    queues: &Queues,
    queue: usize,
    agent: usize,
) -> Result<(), NoMemory>
    ensures kept { out.new.whole ≡ out.old.whole }
    ensures ok { OnOk result (out.new.begun ≡ out.old.begun
        ++ (codes "talking " ++ spec.queue_name queues.now queue ++ codes " " ++ spec.agent_name queues.now agent)) }
{
    out.push(b"talking ")?;
    push_queue(out, queues, queue)?;
    out.push_byte(b' ')?;
    push_agent(out, queues, agent)
}

/// Adds the name of the queue with a number.
fn push_queue(out: &mut Block, queues: &Queues, number: usize) -> Result<(), NoMemory>
    ensures kept { out.new.whole ≡ out.old.whole }
    ensures ok { OnOk result (out.new.begun ≡ out.old.begun ++ spec.queue_name queues.now number) }
{
    match queues.queues().get(number) {
        Some(queue) => out.push(queue.name().bytes()),
        None => Ok(()),
    }
}

/// Adds the name of the agent with a number.
fn push_agent(out: &mut Block, queues: &Queues, number: usize) -> Result<(), NoMemory>
    ensures kept { out.new.whole ≡ out.old.whole }
    ensures ok { OnOk result (out.new.begun ≡ out.old.begun ++ spec.agent_name queues.now number) }
{
    match queues.agents().get(number) {
        Some(agent) => out.push(agent.name.bytes()),
        None => Ok(()),
    }
}

/// Adds an entry of a context, `CONTEXT,NAME,PRIORITY APP`, with its name in canonical spelling.
fn push_entry_of(out: &mut Block, context: &Context, entry: &Entry) -> Result<(), NoMemory>
    ensures kept { out.new.whole ≡ out.old.whole }
    ensures ok { OnOk result (out.new.begun ≡ out.old.begun ++ spec.entry_by context.now (Some entry.now)) }
{
    out.push(context.name().bytes())?;
    out.push_byte(b',')?;
    out.push(entry.name.spelling())?;
    out.push_byte(b',')?;
    push_short(out, entry.priority.get())?;
    out.push_byte(b' ')?;
    out.push(entry.application.bytes())
}

/// Adds the entry of the dialplan with these numbers.
#[tactic(auto, unfolding(crate::specs::Trace::entry_text))]
pub(crate) fn push_entry(out: &mut Block, plan: &Dialplan, id: EntryId) -> Result<(), NoMemory>
    ensures kept { out.new.whole ≡ out.old.whole }
    ensures ok { OnOk result (out.new.begun ≡ out.old.begun ++ spec.entry_text plan.now id) }
{
    let Some(context) = plan.contexts().get(id.context) else {
        return Ok(());
    };
    let Some(entry) = context.entries().get(id.entry) else {
        return Ok(());
    };
    push_entry_of(out, context, entry)
}

/// Adds the line of a refusal.
pub fn push_refused(out: &mut Block, refusal: Refusal) -> Result<(), NoMemory>
    ensures kept { out.new.whole ≡ out.old.whole }
    ensures ok { OnOk result (out.new.begun ≡ out.old.begun ++ spec.refusal_text refusal) }
{
    out.push(b"refused ")?;
    push_number(out, u32::from(refusal.code()))?;
    out.push_byte(b' ')?;
    out.push(refusal.name().as_bytes())
}

/// Adds the line of a step that ran an entry.
fn push_ran<A: AppTable>(
    out: &mut Block,
    machine: &Machine<A>,
    number: u32,
    id: EntryId,
) -> Result<(), NoMemory>
    ensures kept { out.new.whole ≡ out.old.whole }
    ensures ok { OnOk result (out.new.begun ≡ out.old.begun ++ spec.reply_text machine.now number (Reply.Ran id)) }
{
    out.push(b"ran ")?;
    push_short(out, number)?;
    out.push_byte(b' ')?;
    push_entry(out, machine.plan(), id)?;
    push_after(out, machine, number)
}

/// Adds the line of a channel that comes in.
fn push_started(out: &mut Block, channel: u32) -> Result<(), NoMemory>
    ensures kept { out.new.whole ≡ out.old.whole }
    ensures ok { OnOk result (out.new.begun ≡ out.old.begun ++ (codes "started " ++ decimal channel)) }
{
    out.push(b"started ")?;
    push_short(out, channel)
}

/// Adds the line of a channel whose place has no entry.
fn push_no_entry<A: AppTable>(
    out: &mut Block,
    machine: &Machine<A>,
    number: u32,
) -> Result<(), NoMemory>
    ensures kept { out.new.whole ≡ out.old.whole }
    ensures ok { OnOk result (out.new.begun ≡ out.old.begun ++ spec.reply_text machine.now number Reply.NoEntry) }
{
    out.push(b"no entry ")?;
    push_short(out, number)?;
    push_after(out, machine, number)
}

/// Adds the line of a channel that went to the extension `i`.
fn push_invalid<A: AppTable>(
    out: &mut Block,
    machine: &Machine<A>,
    number: u32,
) -> Result<(), NoMemory>
    ensures kept { out.new.whole ≡ out.old.whole }
    ensures ok { OnOk result (out.new.begun ≡ out.old.begun ++ spec.reply_text machine.now number Reply.Invalid) }
{
    out.push(b"invalid ")?;
    push_short(out, number)?;
    push_after(out, machine, number)
}

/// Adds the line of an offer.
fn push_offered(out: &mut Block, channel: u32, rung: usize) -> Result<(), NoMemory>
    ensures kept { out.new.whole ≡ out.old.whole }
    ensures ok { OnOk result (out.new.begun ≡ out.old.begun ++
        (codes "offered " ++ decimal channel ++ codes " " ++ decimal rung)) }
{
    out.push(b"offered ")?;
    push_short(out, channel)?;
    out.push_byte(b' ')?;
    push_number(out, rung)
}

/// Adds the line of an event that was taken.
fn push_done<A: AppTable>(
    out: &mut Block,
    machine: &Machine<A>,
    number: u32,
) -> Result<(), NoMemory>
    ensures kept { out.new.whole ≡ out.old.whole }
    ensures ok { OnOk result (out.new.begun ≡ out.old.begun ++ spec.done_text machine.now number) }
{
    if number == 0 {
        return out.push(b"ok");
    }
    out.push(b"ok ")?;
    push_short(out, number)?;
    push_after(out, machine, number)
}

/// Adds the line of a reply to an event of the channel with this number, given the machine after the event.
pub(crate) fn push_reply<A: AppTable>(
    out: &mut Block,
    machine: &Machine<A>,
    number: u32,
    reply: Reply,
) -> Result<(), NoMemory>
    ensures kept { out.new.whole ≡ out.old.whole }
    ensures ok { OnOk result (out.new.begun ≡ out.old.begun ++ spec.reply_text machine.now number reply) }
{
    match reply {
        Reply::Started(channel) => push_started(out, channel),
        Reply::Ran(id) => push_ran(out, machine, number, id),
        Reply::NoEntry => push_no_entry(out, machine, number),
        Reply::Invalid => push_invalid(out, machine, number),
        Reply::Offered { channel, rung } => push_offered(out, channel, rung),
        Reply::Done => push_done(out, machine, number),
        Reply::Refused(refusal) => push_refused(out, refusal),
    }
}

/// Adds the line of a reply to the waiting lines, given the channel that the event names and the machine after the event. If memory runs
/// out the whole lines stay as they were.
pub(crate) fn push_line<A: AppTable>(
    block: &mut Block,
    machine: &Machine<A>,
    number: u32,
    reply: Reply,
) -> Result<(), NoMemory>
    ensures ok { OnOk result (block.new.whole
        ≡ block.old.whole ++ (spec.reply_text machine.now number reply ++ 10 ∷ [])) }
    ensures err { OnErr result (block.new.whole ≡ block.old.whole) }
{
    block.begin_line();
    push_reply(block, machine, number, reply)?;
    block.end_line()
}

/// Adds the value of a name in a channel, `NAME=VALUE`.
fn push_value<A: AppTable>(
    alloc: Global,
    out: &mut Block,
    machine: &Machine<A>,
    channel: u32,
    name: &[u8],
) -> Result<(), NoMemory>
    ensures kept { out.new.whole ≡ out.old.whole }
    ensures ok { OnOk result (out.new.begun ≡ out.old.begun ++
        (name.now ++ codes "=" ++ value_in machine.now channel name.now)) }
{
    let value = machine.value(alloc, channel, name)?;
    out.push(name)?;
    out.push_byte(b'=')?;
    out.push(&value)
}

/// Adds the value of a name in a channel, or the refusal if no channel has the number.
#[tactic(auto, unfolding(crate::specs::Trace::show_text))]
pub(crate) fn push_show<A: AppTable>(
    alloc: Global,
    out: &mut Block,
    machine: &Machine<A>,
    channel: u32,
    name: &[u8],
) -> Result<(), NoMemory>
    ensures kept { out.new.whole ≡ out.old.whole }
    ensures ok { OnOk result (out.new.begun ≡ out.old.begun ++ spec.show_text machine.now channel name.now) }
{
    match machine.phase(channel) {
        Some(_) => push_value(alloc, out, machine, channel, name),
        None => push_refused(out, Refusal::NoChannel),
    }
}

/// Adds the line that shows a name in a channel to the waiting lines. If memory runs out the whole lines stay as they were.
pub(crate) fn push_show_line<A: AppTable>(
    alloc: Global,
    block: &mut Block,
    machine: &Machine<A>,
    channel: u32,
    name: &[u8],
) -> Result<(), NoMemory>
    ensures ok { OnOk result (block.new.whole
        ≡ block.old.whole ++ (spec.show_text machine.now channel name.now ++ 10 ∷ [])) }
    ensures err { OnErr result (block.new.whole ≡ block.old.whole) }
{
    block.begin_line();
    push_show(alloc, block, machine, channel, name)?;
    block.end_line()
}
