//! The channels, numbered from 1.
ghost use Rattle.std.specs.Prelude.{◌≡◌, ◌+◌, ◌<◌, ◌⊎◌, IfSome, IfNone};
ghost use Rattle.std.specs.Option.{option_copied};
ghost use Rattle.dp_machine.specs.World as worlds;

use crate::channel::Channel;

/// The index of the channel with a number, among so many channels.
pub(crate) fn index_of(number: u32, count: usize) -> Option<usize>
    ensures index { IfSome result (λ index. (index + 1 ≡ number) × (index < count)) }
    ensures none { IfNone result ((number ≡ 0) ⊎ (count < number)) }
{
    let index = (number as usize).checked_sub(1)?;
    if index < count { Some(index) } else { None }
}

/// The channel with a number.
pub(crate) fn channel_at(channels: &[Channel], number: u32) -> Option<&Channel>
    ensures { option_copied result ≡ worlds.channel_at channels.now number }
{
    let index = index_of(number, channels.len())?;
    Some(&channels[index])
}
