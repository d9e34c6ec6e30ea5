//! What came of a test, shown in place of what it expected.
ghost use Rattle.std.specs.Prelude.{◌≡◌, ◌++◌, ◌==◌, IfOk, OnOk};
ghost use Rattle.std.specs.List.{find, flat_map};
ghost use Rattle.std.specs.Option.{option_map};
ghost use Rattle.dp_commands.specs.Trace.{refusal_text};
ghost use Rattle.dp_test_runs.specs.Shown as spec;
ghost use Rattle.dp_test_runs.specs.Verdicts as verdicts;

use crate::course::Course;
use crate::failure::{Failure, FailureKind};
use crate::queue_claims::rings_for;
use crate::ran_claims::last_of;
use crate::ran_entries::RanEntry;
use crate::state_claims::{push_state, unknown_state};
use crate::value_claims::value_of;
use dp_machine::{Machine, NoMemory, Refusal};
use dp_queue::Agent;
use dp_tests::{Act, LineClaim, TestLine};
use dp_vars::Counts;
use dp_wide::WideApps;
use itoa::{Buffer, Integer};
use std::alloc::Global;

/// Adds a number in decimal.
pub(crate) fn push_decimal<I: Integer>(out: &mut Vec<u8>, number: I) -> Result<(), NoMemory>
    ensures { OnOk result (out.new.items ≡ out.old.items ++ I.text number) }
{
    let mut buffer = Buffer::new();
    out.extend_from_slice(buffer.format(number).as_bytes())
}

/// Adds the state of a channel: what stops it, if it is stopped.
fn push_shown_state(
    alloc: Global,
    out: &mut Vec<u8>,
    machine: &mut Machine<WideApps>,
    channel: u32,
) -> Result<(), NoMemory>
    ensures shown { OnOk result (out.new.items ≡ out.old.items ++ spec.state_shown machine.old channel) }
    ensures same { OnOk result (machine.new ≡ machine.old) }
{
    match machine.unknown_ahead(alloc, channel)? {
        Some(unknown) => {
            let state = unknown_state(alloc, &unknown)?;
            out.extend_from_slice(&state)
        }
        None => push_state(alloc, out, machine, channel),
    }
}

/// Adds an entry that ran, `APP(ARGS)`.
pub(crate) fn push_call(out: &mut Vec<u8>, ran: &RanEntry) -> Result<(), NoMemory>
    ensures { OnOk result (out.new.items ≡ out.old.items ++ spec.call_shown ran.now) }
{
    out.extend_from_slice(ran.application.bytes())?;
    out.extend_from_slice(b"(")?;
    out.extend_from_slice(ran.arguments.bytes())?;
    out.extend_from_slice(b")")
}

/// Adds the place of an entry that ran.
pub(crate) fn push_place(out: &mut Vec<u8>, ran: &RanEntry) -> Result<(), NoMemory>
    ensures { OnOk result (out.new.items ≡ out.old.items ++ spec.place_shown ran.now) }
{
    out.extend_from_slice(ran.context.bytes())?;
    out.extend_from_slice(b",")?;
    out.extend_from_slice(ran.name.spelling())?;
    out.extend_from_slice(b",")?;
    push_decimal(out, ran.priority)
}

/// Adds the last entry that a channel ran, as `APP(ARGS)`.
fn push_last_call(out: &mut Vec<u8>, ran: &[RanEntry], channel: u32) -> Result<(), NoMemory>
    ensures { OnOk result (out.new.items ≡ out.old.items ++ spec.last_shown spec.call_shown (verdicts.last_of channel ran.now)) }
{
    match last_of(ran, channel) {
        Some(entry) => push_call(out, entry),
        None => out.extend_from_slice(b"nothing"),
    }
}

/// Adds the place of the last entry that a channel ran.
fn push_last_place(out: &mut Vec<u8>, ran: &[RanEntry], channel: u32) -> Result<(), NoMemory>
    ensures { OnOk result (out.new.items ≡ out.old.items ++ spec.last_shown spec.place_shown (verdicts.last_of channel ran.now)) }
{
    match last_of(ran, channel) {
        Some(entry) => push_place(out, entry),
        None => out.extend_from_slice(b"nothing"),
    }
}

/// Adds the value of a name in a channel or, without one, of a global.
fn push_value(
    alloc: Global,
    out: &mut Vec<u8>,
    machine: &Machine<WideApps>,
    channel: Option<u32>,
    name: &[u8],
) -> Result<(), NoMemory>
    ensures { OnOk result (out.new.items ≡ out.old.items ++ spec.value_shown machine.now channel name.now) }
{
    match value_of(alloc, machine, channel, name)? {
        Some(value) => out.extend_from_slice(&value),
        None => out.extend_from_slice(b"unknown"),
    }
}

/// Adds the name of an agent with a blank before it, if the agent rings for a channel.
fn push_agent(out: &mut Vec<u8>, channel: u32, agent: &Agent) -> Result<(), NoMemory>
    ensures { OnOk result (out.new.items ≡ out.old.items ++ spec.agent_shown channel agent.now) }
{
    if !rings_for(channel, agent.state) {
        return Ok(());
    }
    out.extend_from_slice(b" ")?;
    out.extend_from_slice(agent.name.bytes())
}

/// Adds the names of the agents that ring for a channel.
fn push_agents(out: &mut Vec<u8>, channel: u32, agents: &[Agent]) -> Result<(), NoMemory>
    ensures { OnOk result (out.new.items ≡ out.old.items ++ flat_map (spec.agent_shown channel) agents.now) }
{
    for agent in agents {
        push_agent(out, channel, agent)?;
    }
    Ok(())
}

/// Adds the agents that ring for the channel of the last offer.
fn push_ringing(out: &mut Vec<u8>, agents: &[Agent], offered: Option<u32>) -> Result<(), NoMemory>
    ensures { OnOk result (out.new.items ≡ out.old.items ++ spec.ringing_shown agents.now offered) }
{
    out.extend_from_slice(b"rings")?;
    match offered {
        Some(channel) => push_agents(out, channel, agents),
        None => Ok(()),
    }
}

/// Adds a refusal, `refused CODE NAME`.
fn push_refusal(out: &mut Vec<u8>, refusal: Refusal) -> Result<(), NoMemory>
    ensures { OnOk result (out.new.items ≡ out.old.items ++ refusal_text refusal) }
{
    out.extend_from_slice(b"refused ")?;
    push_decimal(out, refusal.code())?;
    out.extend_from_slice(b" ")?;
    out.extend_from_slice(refusal.name().as_bytes())
}

/// Adds why the last event line was refused.
fn push_refused(out: &mut Vec<u8>, refusal: Option<Refusal>) -> Result<(), NoMemory>
    ensures { OnOk result (out.new.items ≡ out.old.items ++ spec.refusal_shown refusal) }
{
    match refusal {
        Some(refusal) => push_refusal(out, refusal),
        None => out.extend_from_slice(b"taken"),
    }
}

/// Adds what a course has in place of a claim.
fn push_claim(
    alloc: Global,
    out: &mut Vec<u8>,
    course: &mut Course,
    claim: &LineClaim,
) -> Result<(), NoMemory>
    ensures shown { OnOk result (out.new.items ≡ out.old.items ++ spec.claim_shown course.old claim.now) }
    ensures same { OnOk result (course.new ≡ course.old) }
{
    match claim {
        LineClaim::State { channel, .. } => {
            push_shown_state(alloc, out, &mut course.machine, *channel)
        }
        LineClaim::Ran { channel, .. } | LineClaim::Passed { channel, .. } => {
            push_last_call(out, course.ran.as_slice(), *channel)
        }
        LineClaim::At { channel, .. } => push_last_place(out, course.ran.as_slice(), *channel),
        LineClaim::Value { channel, name, .. } => {
            push_value(alloc, out, &course.machine, *channel, name.bytes())
        }
        LineClaim::Rings { .. } => {
            push_ringing(out, course.machine.queues().agents(), course.offered)
        }
        LineClaim::Waiting { queue, .. } => {
            push_decimal(out, course.machine.queues().waiting(queue.bytes()))
        }
        LineClaim::Refused { .. } => push_refused(out, course.refusal),
    }
}

/// The line with a number.
fn line_numbered(lines: &[TestLine], number: usize) -> Option<&TestLine>
    ensures { option_map (λ line. line.now) result ≡ find (λ line. line.line == number) lines.now }
{
    lines.iter().find(|line| line.line == number)
}

/// Adds what a course has in place of what a line expects.
fn push_act(
    alloc: Global,
    out: &mut Vec<u8>,
    course: &mut Course,
    act: &Act,
) -> Result<(), NoMemory>
    ensures shown { OnOk result (out.new.items ≡ out.old.items ++ spec.act_shown course.old act.now) }
    ensures same { OnOk result (course.new ≡ course.old) }
{
    match act {
        Act::Turns(_) | Act::Reload(_) => Ok(()),
        Act::Expect(expectation) => push_claim(alloc, out, course, &expectation.claim),
    }
}

/// Adds what a course has in place of what the line with a number expects.
fn push_line(
    alloc: Global,
    out: &mut Vec<u8>,
    course: &mut Course,
    lines: &[TestLine],
    number: usize,
) -> Result<(), NoMemory>
    ensures shown { OnOk result (out.new.items ≡ out.old.items ++ spec.line_shown course.old lines.now number) }
    ensures same { OnOk result (course.new ≡ course.old) }
{
    match line_numbered(lines, number) {
        Some(line) => push_act(alloc, out, course, &line.act),
        None => Ok(()),
    }
}

/// Adds what a course has in place of what was expected where these lines failed.
fn push_failure(
    alloc: Global,
    out: &mut Vec<u8>,
    course: &mut Course,
    lines: &[TestLine],
    failure: Failure,
) -> Result<(), NoMemory>
    ensures shown { OnOk result (out.new.items ≡ out.old.items ++ spec.got_of course.old lines.now failure) }
    ensures same { OnOk result (course.new ≡ course.old) }
{
    match failure.kind {
        FailureKind::Unmet => push_line(alloc, out, course, lines, failure.line),
        FailureKind::Refused(refusal) => push_refusal(out, refusal),
        FailureKind::Endless => out.extend_from_slice(b"more than 10000 steps"),
        FailureKind::LeftUnknown(channel) => {
            push_shown_state(alloc, out, &mut course.machine, channel)
        }
    }
}

/// What a course has in place of what was expected where a test failed; nothing if it passed.
pub(crate) fn got_text(
    alloc: Global,
    course: &mut Course,
    lines: &[TestLine],
    failure: Option<Failure>,
) -> Result<Vec<u8>, NoMemory>
    ensures got { IfOk result (λ got. got.items ≡ spec.got_text course.old lines.now failure) }
    ensures same { OnOk result (course.new ≡ course.old) }
{
    let mut out = Vec::new(alloc);
    if let Some(failure) = failure {
        push_failure(alloc, &mut out, course, lines, failure)?;
    }
    Ok(out)
}
