//! The values that the texts of a channel read.
ghost use Rattle.std.specs.Prelude.{◌≡◌, IfOk, Some};
ghost use Rattle.std.specs.Option.{option_map};
ghost use Rattle.dp_queue.specs.Counted.{counts_of};
ghost use Rattle.dp_vars.specs.Sights.{maps_of, sight_of};
ghost use Rattle.dp_machine.specs.Seen as spec;
ghost use Rattle.dp_machine.specs.Unknown.{unknown_seen};
ghost use Rattle.dp_machine.specs.steps.Templates.{IsOf};

use crate::channel::Channel;
use crate::shared_state::SharedState;
use crate::templates::{Arguments, PreparedEntry};
use dp_app::Place;
use dp_plan::NoMemory;
use dp_queue::Queues;
use dp_vars::{ChannelSeen, Expanded, Functions, Pieces, Scope, value_of};
use std::alloc::Global;

/// What the texts of the channel with this number see.
pub(crate) fn scope_of<'a>(
    shared: &'a SharedState,
    number: u32,
    channel: &'a Channel,
) -> Scope<'a, Place, Queues>
    ensures sight { sight_of (λ queues. counts_of queues.queues) result
        ≡ spec.sight_in shared.now number channel.now }
    ensures maps { maps_of result ≡ spec.maps_in shared.now number channel.now }
{
    Scope {
        channel: Some(ChannelSeen {
            number,
            context: channel.place.context.bytes(),
            extension: channel.place.exten.bytes(),
            priority: channel.place.priority,
            caller: channel.caller.bytes(),
        }),
        store: Some(&channel.store),
        globals: &shared.globals,
        counts: &shared.queues,
    }
}

/// The arguments of an entry, expanded by these functions with what the channel with this number sees.
#[tactic(auto, unfolding(crate::specs::Seen::arguments_seen))]
pub(crate) fn expand_arguments<F: Functions>(
    alloc: Global,
    shared: &SharedState,
    number: u32,
    channel: &Channel,
    prepared: PreparedEntry<'_>,
) -> Result<Vec<u8>, NoMemory>
    requires { IsOf prepared.entry.now prepared.template.now }
    ensures { IfOk result (λ bytes. bytes.items
        ≡ spec.arguments_seen F.table shared.now number channel.now prepared.entry.entry.now.arguments) }
{
    let arguments = prepared.entry.arguments.bytes();
    match &prepared.template.arguments {
        Arguments::Plain => Vec::from_slice(alloc, arguments),
        Arguments::Read(pieces) => {
            let scope = scope_of(shared, number, channel);
            let bytes = pieces.expand_with::<F, Place, Queues>(alloc, arguments, &scope)?;
            Ok(bytes)
        }
    }
}

/// The value of a name in the channel with this number.
pub(crate) fn channel_value(
    alloc: Global,
    shared: &SharedState,
    number: u32,
    channel: &Channel,
    name: &[u8],
) -> Result<Vec<u8>, NoMemory>
    ensures { IfOk result (λ value. value.items ≡ spec.value_seen shared.now number (Some channel.now) name.now) }
{
    let scope = scope_of(shared, number, channel);
    value_of(alloc, &scope, name)
}

/// A text, expanded by these functions with what the channel with this number sees, and the first group in it that is unknown.
#[tactic(auto, unfolding(crate::specs::Seen::arguments_seen, crate::specs::Unknown::unknown_seen))]
pub(crate) fn expand_text_in<F: Functions>(
    alloc: Global,
    shared: &SharedState,
    number: u32,
    channel: &Channel,
    text: &[u8],
) -> Result<Expanded, NoMemory>
    ensures bytes { IfOk result (λ expanded. expanded.bytes.items ≡ spec.arguments_seen F.table shared.now number channel.now text.now) }
    ensures unknown { IfOk result (λ expanded. option_map (λ group. group.items) expanded.unknown
        ≡ unknown_seen F.table shared.now number channel.now text.now) }
{
    let pieces = Pieces::read(alloc, text)?;
    let scope = scope_of(shared, number, channel);
    let expanded = pieces.expand_checked::<F, Place, Queues>(alloc, text, &scope)?;
    Ok(expanded)
}
