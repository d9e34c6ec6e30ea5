//! The arguments that the applications of queues read.
ghost use Rattle.std.specs.Prelude.{◌≡◌, ◌≤◌, IfOk};
ghost use Rattle.dp_qapps.specs.Reports as spec;
ghost use Rattle.dp_vars.specs.Sights as sights;

use dp_conf::{NoMemory, Text, read_number};
use itoa::Buffer;
use std::alloc::Global;

/// The greatest penalty.
const MOST_PENALTY: u64 = 2_147_483_647;

/// The name of a channel.
fn channel_name(alloc: Global, channel: u32) -> Result<Text, NoMemory>
    ensures { IfOk result (λ name. name ≡ sights.channel_name channel) }
{
    let mut name = Vec::from_slice(alloc, b"Channel/")?;
    let mut buffer = Buffer::new();
    name.extend_from_slice(buffer.format(channel).as_bytes())?;
    Ok(Text::new(name))
}

/// The interface that a part names. An empty part means the channel that runs the application.
pub(crate) fn interface_of(alloc: Global, channel: u32, text: &[u8]) -> Result<Text, NoMemory>
    ensures { IfOk result (λ interface. interface ≡ spec.interface_of channel text.now) }
{
    if text.is_empty() {
        let name = channel_name(alloc, channel)?;
        return Ok(name);
    }
    let name = Text::copy_of(alloc, text)?;
    Ok(name)
}

/// The penalty that a part writes: digits with a value up to 2,147,483,647; any other part means 0.
pub(crate) fn penalty_of(text: &[u8]) -> u32
    ensures { result ≡ spec.penalty_of text.now }
{
    match read_number(text) {
        Some(number) if number <= MOST_PENALTY => number as u32,
        _ => 0,
    }
}
