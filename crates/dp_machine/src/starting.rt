//! Incoming phone calls.
ghost use Rattle.std.specs.Prelude.{◌≡◌, IfOk, OnErr, false};
ghost use Rattle.dp_machine.specs.Events as spec;

use crate::channel::Channel;
use crate::refusal::Refusal;
use crate::reply::Reply;
use dp_app::{Exten, Phase, Place};
use dp_plan::{NoMemory, Text};
use dp_vars::Store;
use std::alloc::Global;

/// The greatest number of channels of a machine.
pub const MOST_CHANNELS: usize = 65_535;

/// A phone call comes in. If all channel numbers were given the event is refused without allocating.
#[tactic(auto, unfolding(crate::specs::Events::start_call))]
pub(crate) fn start(
    alloc: Global,
    channels: &mut Vec<Channel>,
    context: Text,
    exten: Text,
    caller: Text,
) -> Result<Reply, NoMemory>
    ensures ok { IfOk result (λ reply. spec.start_call channels.old.items context exten caller
        ≡ record { channels = channels.new.items; reply = reply }) }
    ensures err { OnErr result (channels.new.items ≡ channels.old.items) }
    ensures memory { OnErr result (spec.is_refused_at_once
        (spec.start_call channels.old.items context exten caller).reply ≡ false) }
{
    let count = channels.len();
    if count >= MOST_CHANNELS {
        return Ok(Reply::Refused(Refusal::NumbersSpent));
    }
    let place = Place {
        context,
        exten: Exten::new(exten),
        priority: 1,
    };
    channels.push(Channel {
        place,
        phase: Phase::Ready,
        is_closing: false,
        caller,
        store: Store::new(alloc),
    })?;
    Ok(Reply::Started(count as u32 + 1))
}

/// A phone call comes in with texts that are borrowed. If all channel numbers were given no text is copied.
#[tactic(auto, unfolding(crate::specs::Events::start_call))]
pub(crate) fn start_kept(
    alloc: Global,
    channels: &mut Vec<Channel>,
    context: &Text,
    exten: &Text,
    caller: &Text,
) -> Result<Reply, NoMemory>
    ensures ok { IfOk result (λ reply. spec.start_call channels.old.items context.now exten.now caller.now
        ≡ record { channels = channels.new.items; reply = reply }) }
    ensures err { OnErr result (channels.new.items ≡ channels.old.items) }
    ensures memory { OnErr result (spec.is_refused_at_once
        (spec.start_call channels.old.items context.now exten.now caller.now).reply ≡ false) }
{
    if channels.len() >= MOST_CHANNELS {
        return Ok(Reply::Refused(Refusal::NumbersSpent));
    }
    let context = context.clone()?;
    let exten = exten.clone()?;
    let caller = caller.clone()?;
    start(alloc, channels, context, exten, caller)
}
