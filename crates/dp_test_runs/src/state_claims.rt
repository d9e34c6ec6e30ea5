//! Claims about the states of channels.
ghost use Rattle.std.specs.Prelude.{◌≡◌, ◌++◌, IfOk, OnOk};
ghost use Rattle.std.specs.Option.{option_map};
ghost use Rattle.dp_commands.specs.Trace.{state_text};
ghost use Rattle.dp_wide_runs.specs.Turns as turns;
ghost use Rattle.dp_test_runs.specs.Verdicts as spec;

use dp_commands::{Block, push_after};
use dp_machine::{Machine, NoMemory, Unknown};
use dp_plan::Text;
use dp_wide::WideApps;
use std::alloc::Global;

/// The room for a state, in bytes. A longer one makes the block grow.
const ROOM: usize = 64;

/// Whether a text ends, or begins with a blank or a comma.
fn is_parted(text: &[u8]) -> bool
    ensures { result ≡ spec.is_parted text.now }
{
    match text {
        [] => true,
        [byte, ..] => *byte == b' ' || *byte == b',',
    }
}

/// Whether a state begins with a text, and ends there or goes on with a blank or a comma.
fn begins_state(text: &[u8], state: &[u8]) -> bool
    ensures { result ≡ spec.begins_state text.now state.now }
{
    match state.strip_prefix(text) {
        Some(rest) => is_parted(rest),
        None => false,
    }
}

/// Adds the printed state of a channel.
pub(crate) fn push_state(
    alloc: Global,
    out: &mut Vec<u8>,
    machine: &Machine<WideApps>,
    channel: u32,
) -> Result<(), NoMemory>
    ensures { OnOk result (out.new.items ≡ out.old.items ++ state_text machine.now channel) }
{
    let mut block = Block::new(alloc, ROOM)?;
    push_after(&mut block, machine, channel)?;
    match block.bytes().strip_prefix(b" -> ".as_slice()) {
        Some(state) => out.extend_from_slice(state),
        None => Ok(()),
    }
}

/// Whether the printed state of a channel begins with a text.
fn prints(
    alloc: Global,
    machine: &Machine<WideApps>,
    channel: u32,
    text: &[u8],
) -> Result<bool, NoMemory>
    ensures { IfOk result (λ prints. prints ≡ spec.begins_state text.now (state_text machine.now channel)) }
{
    let mut state = Vec::new(alloc);
    push_state(alloc, &mut state, machine, channel)?;
    Ok(begins_state(text, &state))
}

/// The name of something unknown.
fn unknown_name(unknown: &Unknown) -> &Text
    ensures { result.now ≡ turns.unknown_name unknown.now }
{
    match unknown {
        Unknown::Application(name) | Unknown::Group(name) | Unknown::Asked(name) => name,
    }
}

/// The state of a channel that is stopped.
pub(crate) fn unknown_state(alloc: Global, unknown: &Unknown) -> Result<Vec<u8>, NoMemory>
    ensures { IfOk result (λ state. state.items ≡ spec.unknown_state unknown.now) }
{
    let mut state = Vec::from_slice(alloc, b"unknown ")?;
    state.extend_from_slice(unknown_name(unknown).bytes())?;
    Ok(state)
}

/// Whether a channel is stopped, and its state as a stopped one begins with a text.
fn is_stopped_so(
    alloc: Global,
    machine: &mut Machine<WideApps>,
    channel: u32,
    text: &[u8],
) -> Result<bool, NoMemory>
    ensures so { IfOk result (λ so. so ≡ spec.is_stopped_so text.now (turns.unknown_at machine.old channel)) }
    ensures same { machine.new ≡ machine.old }
{
    let Some(unknown) = machine.unknown_ahead(alloc, channel)? else {
        return Ok(false);
    };
    let state = unknown_state(alloc, &unknown)?;
    Ok(begins_state(text, &state))
}

/// Whether the state of a channel begins with a text.
pub(crate) fn shows(
    alloc: Global,
    machine: &mut Machine<WideApps>,
    channel: u32,
    text: &[u8],
) -> Result<bool, NoMemory>
    ensures shows { IfOk result (λ shows. shows ≡ spec.shows machine.old channel text.now) }
    ensures same { machine.new ≡ machine.old }
{
    if prints(alloc, machine, channel, text)? {
        return Ok(true);
    }
    is_stopped_so(alloc, machine, channel, text)
}
