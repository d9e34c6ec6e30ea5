//! Values that are set from outside, after the Asterisk documentation's page on the AMI action `Setvar`.
ghost use Rattle.std.specs.Prelude.{◌≡◌, IfOk, List, OnErr};
ghost use Rattle.dp_vars.specs.Functions.{target_seen};
ghost use Rattle.dp_machine.specs.Events as spec;
ghost use Rattle.dp_machine.specs.World as worlds;
ghost use Rattle.dp_machine.specs.declared.channel.Channel.{Channel as AnyChannel};
ghost use Rattle.dp_machine.specs.steps.Follows.{Follows, Makes};

use crate::channel::Channel;
use crate::exchange::Exchange;
use crate::refusal::Refusal;
use crate::reply::Reply;
use crate::waiting::is_over;
use dp_plan::{NoMemory, Text};
use dp_vars::{Functions, SetTarget};
use std::alloc::Global;

/// Sets the target of a name. If memory runs out nothing changes.
fn set_target(
    alloc: Global,
    exchange: &mut Exchange,
    channel: &mut Channel,
    target: SetTarget<'_>,
    value: &[u8],
) -> Result<Reply, NoMemory>
    ensures { Follows (spec.assign_value (target_seen target.entry) value.now exchange.old.shared channel.old)
        exchange.old exchange.new channel.old channel.new result }
{
    match target {
        SetTarget::Variable(name) => channel.store.set(alloc, name, value)?,
        SetTarget::Global(name) => exchange.shared.globals.put(alloc, name, value)?,
        SetTarget::Local(name) => {
            let _has_frame = channel.store.set_local(alloc, name, value)?;
        }
        SetTarget::Caller => channel.caller = Text::new(Vec::from_slice(alloc, value)?),
        SetTarget::Nothing => {}
    }
    Ok(Reply::Done)
}

/// A name, and the value to which it is set from outside.
#[derive(Clone, Copy)]
pub(crate) struct Assignment<'a> {
    pub(crate) name: &'a [u8],
    pub(crate) value: &'a [u8],
}

/// Sets a name of the channel with this number from outside: the functions say what the name sets. A channel that is over keeps its values.
#[tactic(auto, unfolding(crate::specs::Events::assign_row))]
pub(crate) fn assign<F: Functions>(
    alloc: Global,
    exchange: &mut Exchange,
    number: u32,
    channel: &mut Channel,
    setting: Assignment<'_>,
) -> Result<Reply, NoMemory>
    ensures { Follows (spec.assign_row F.table setting.entry.name.now setting.entry.value.now
        exchange.old.plan exchange.old.shared number channel.old) exchange.old exchange.new channel.old channel.new result }
{
    if is_over(&channel.phase) {
        return Ok(Reply::Refused(Refusal::Ended));
    }
    set_target(
        alloc,
        exchange,
        channel,
        F::target(setting.name),
        setting.value,
    )
}

/// Sets a global from outside.
pub(crate) fn assign_global(
    alloc: Global,
    exchange: &mut Exchange,
    name: &[u8],
    value: &[u8],
) -> Result<Reply, NoMemory>
    ensures { (channels : List AnyChannel) → Makes (spec.global_assigned (worlds.world_in exchange.old channels) name.now value.now)
        (worlds.world_in exchange.old channels) (worlds.world_in exchange.new channels) result }
{
    exchange.shared.globals.put(alloc, name, value)?;
    Ok(Reply::Done)
}
