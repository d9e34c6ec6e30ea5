//! Steps of queues, each with its answer.
ghost use Rattle.std.specs.Prelude.{◌≡◌};
ghost use Rattle.dp_queue.specs.Agents as spec;

use crate::queues::render::push_queues;
use dp_conf::read_number;
use dp_queue::{Added, Agent, AgentState, Call, Join, NoMemory, Queues, Removed};
use dp_vars::Counts;
use std::alloc::Global;

/// The words of a step.
#[derive(Clone, Copy)]
struct StepWords<'a> {
    verb: &'a str,
    first: &'a str,
    second: &'a str,
    third: &'a str,
}

fn words_of(step: &str) -> StepWords<'_> {
    let (verb, rest) = step.split_once(' ').unwrap_or((step, ""));
    let (first, rest) = rest.split_once(' ').unwrap_or((rest, ""));
    let (second, third) = rest.split_once(' ').unwrap_or((rest, ""));
    StepWords {
        verb,
        first,
        second,
        third,
    }
}

fn number_of(word: &str) -> u32 {
    match read_number(word.as_bytes()) {
        Some(number) => u32::try_from(number).unwrap_or(0),
        None => 0,
    }
}

fn talks_with(state: AgentState, channel: u32) -> bool
    ensures { result ≡ spec.talks_with channel state }
{
    match state {
        AgentState::Talking {
            queue: _,
            channel: other,
        } => other == channel,
        AgentState::Idle | AgentState::Ringing { .. } => false,
    }
}

fn is_talking(agents: &[Agent], channel: u32) -> bool
    ensures { result ≡ spec.is_talking agents.now channel }
{
    agents.iter().any(|agent| talks_with(agent.state, channel))
}

/// Joins, unless the channel waits or talks.
fn join(out: &mut String, queues: &mut Queues, queue: &str, channel: u32) -> Result<(), NoMemory> {
    if is_talking(queues.agents(), channel) {
        return out.push_str("talks");
    }
    match queues.waits_in(channel) {
        Some(_) => out.push_str("waits"),
        None => match queues.join(queue.as_bytes(), channel)? {
            Join::Unknown => out.push_str("unknown"),
            Join::Empty => out.push_str("empty"),
            Join::Full => out.push_str("full"),
            Join::Joined(number) => write!(out, "joined {number}"),
        },
    }
}

fn push_call(out: &mut String, call: Option<Call>) -> Result<(), NoMemory> {
    match call {
        Some(call) => write!(out, "call {} {} #{}", call.queue, call.agent, call.channel),
        None => out.push_str("none"),
    }
}

fn push_yes(out: &mut String, is_so: bool) -> Result<(), NoMemory> {
    out.push_str(if is_so { "yes" } else { "no" })
}

fn offer(out: &mut String, queues: &mut Queues, queue: &str) -> Result<(), NoMemory> {
    match queues.offer(queue.as_bytes()) {
        Ok(offered) => write!(out, "offered #{} {}", offered.channel, offered.rung),
        Err(fault) => write!(out, "refused {} {}", fault.code(), fault.name()),
    }
}

fn push_added(out: &mut String, added: Added) -> Result<(), NoMemory> {
    out.push_str(match added {
        Added::NoSuchQueue => "no queue",
        Added::MemberAlready => "already",
        Added::Added => "added",
    })
}

fn push_removed(out: &mut String, removed: Removed) -> Result<(), NoMemory> {
    out.push_str(match removed {
        Removed::NoSuchQueue => "no queue",
        Removed::NotInQueue => "not there",
        Removed::NotDynamic => "of the file",
        Removed::Removed => "removed",
    })
}

/// Adds this number of agents to a queue, `Line/0` and those that follow it: how many of them were not yet members.
fn fill(
    alloc: Global,
    out: &mut String,
    queues: &mut Queues,
    queue: &str,
    count: u32,
) -> Result<(), NoMemory> {
    let mut name = String::new(alloc);
    let mut added: u32 = 0;
    for number in 0..count {
        name.clear();
        write!(name, "Line/{number}")?;
        if queues.add(alloc, queue.as_bytes(), name.as_bytes(), 0)? == Added::Added {
            added = added.saturating_add(1);
        }
    }
    write!(out, "{added} added")
}

fn pause(queues: &mut Queues, words: StepWords<'_>, is_paused: bool) -> bool {
    let queue = if words.first == "*" {
        None
    } else {
        Some(words.first.as_bytes())
    };
    queues.pause(queue, words.second.as_bytes(), is_paused)
}

fn change_members(
    alloc: Global,
    out: &mut String,
    queues: &mut Queues,
    words: StepWords<'_>,
) -> Result<(), NoMemory> {
    let queue = words.first.as_bytes();
    let agent = words.second.as_bytes();
    match words.verb {
        "add" => push_added(
            out,
            queues.add(alloc, queue, agent, number_of(words.third))?,
        ),
        "remove" => push_removed(out, queues.remove(queue, agent)),
        "pause" => push_yes(out, pause(queues, words, true)),
        "unpause" => push_yes(out, pause(queues, words, false)),
        _ => out.push_str("what?"),
    }
}

fn act(out: &mut String, queues: &mut Queues, words: StepWords<'_>) -> Result<(), NoMemory> {
    let agent = words.first.as_bytes();
    match words.verb {
        "answer" => push_call(out, queues.answer(agent)),
        "decline" => push_yes(out, queues.decline(agent)),
        "done" => push_call(out, queues.done(agent)),
        "end" => push_call(out, queues.end_talk(number_of(words.first))),
        "leave" => push_yes(out, queues.leave(number_of(words.first))),
        _ => out.push_str("what?"),
    }
}

/// The answer to a step: `join QUEUE CHANNEL`, `leave CHANNEL`, `offer QUEUE`, `answer AGENT`, `decline AGENT`, `done AGENT`, `end
/// CHANNEL`, `add QUEUE AGENT PENALTY`, `remove QUEUE AGENT`, `pause QUEUE AGENT` and `unpause QUEUE AGENT` (`*` is all queues), `fill
/// QUEUE COUNT`, `empty NUMBER` (whether its calls are to leave), `count QUEUE`, and `show`.
pub(super) fn take(
    alloc: Global,
    out: &mut String,
    queues: &mut Queues,
    step: &str,
) -> Result<(), NoMemory> {
    let words = words_of(step);
    match words.verb {
        "join" => join(out, queues, words.first, number_of(words.second)),
        "offer" => offer(out, queues, words.first),
        "empty" => push_yes(out, queues.should_leave(number_of(words.first) as usize)),
        "count" => write!(out, "{}", queues.waiting(words.first.as_bytes())),
        "show" => push_queues(out, queues, false),
        "fill" => fill(alloc, out, queues, words.first, number_of(words.second)),
        "add" | "remove" | "pause" | "unpause" => change_members(alloc, out, queues, words),
        _ => act(out, queues, words),
    }
}
