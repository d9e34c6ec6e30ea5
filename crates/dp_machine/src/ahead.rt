//! The entry that the next step of a channel would run.
ghost use Rattle.std.specs.Prelude.{◌≡◌, IfOk, List};
ghost use Rattle.std.specs.Option.{option_map};
ghost use Rattle.dp_machine.specs.Events as spec;
ghost use Rattle.dp_machine.specs.World as worlds;
ghost use Rattle.dp_machine.specs.declared.channel.Channel.{Channel as AnyChannel};

use crate::channel::Channel;
use crate::channel_view::expand_arguments;
use crate::directory::Directory;
use crate::exchange::Exchange;
use dp_app::Phase;
use dp_plan::{EntryId, NoMemory};
use dp_vars::Functions;
use std::alloc::Global;

/// The entry that the next step of the channel would run.
#[tactic(auto, using(crate::proofs::LookupLemmas::located_id))]
pub(crate) fn next_entry_of(
    alloc: Global,
    plan: &Directory,
    channel: &Channel,
) -> Result<Option<EntryId>, NoMemory>
    ensures { IfOk result (λ entry. entry ≡ spec.next_in channel.now.phase plan.now channel.now) }
{
    match channel.phase {
        Phase::Ready => plan.entry_of(alloc, &channel.place),
        Phase::Digits { .. }
        | Phase::Pause
        | Phase::Queued { .. }
        | Phase::Talking { .. }
        | Phase::Dialling { .. }
        | Phase::Ended => Ok(None),
    }
}

/// The same entry, looked up in the way a step looks it up.
#[tactic(auto, using(crate::proofs::LookupLemmas::located_id))]
pub(crate) fn entry_ahead_of(plan: &mut Directory, channel: &Channel) -> Option<EntryId>
    ensures entry { result ≡ spec.next_in channel.now.phase plan.old channel.now }
    ensures same { plan.new ≡ plan.old }
{
    let place = &channel.place;
    match channel.phase {
        Phase::Ready => plan.find(&place.context, place.exten.bytes(), place.priority),
        Phase::Digits { .. }
        | Phase::Pause
        | Phase::Queued { .. }
        | Phase::Talking { .. }
        | Phase::Dialling { .. }
        | Phase::Ended => None,
    }
}

/// The expanded arguments of the entry that the next step of the channel would run.
pub(crate) fn arguments_ahead_of<F: Functions>(
    alloc: Global,
    exchange: &mut Exchange,
    number: u32,
    channel: &Channel,
) -> Result<Option<Vec<u8>>, NoMemory>
    ensures arguments { IfOk result (λ arguments. (channels : List AnyChannel) → option_map (λ text. text.items) arguments
        ≡ spec.arguments_in F.table (worlds.world_in exchange.old channels) number channel.now) }
    ensures same { exchange.new ≡ exchange.old }
{
    let Some(id) = entry_ahead_of(&mut exchange.plan, channel) else {
        return Ok(None);
    };
    let prepared = exchange.plan.prepared_entry(id);
    let text = expand_arguments::<F>(alloc, &exchange.shared, number, channel, prepared)?;
    Ok(Some(text))
}
