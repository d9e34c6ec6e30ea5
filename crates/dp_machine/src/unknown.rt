//! What is unknown ahead of a channel: an application that the table lacks, a group that its functions do not know, or what its application
//! asks for.
ghost use Rattle.std.specs.Prelude.{◌≡◌, IfOk, List};
ghost use Rattle.std.specs.Option.{option_map};
ghost use Rattle.dp_app.specs.Rows.{with_functions};
ghost use Rattle.dp_machine.specs.Unknown as spec;
ghost use Rattle.dp_vars.specs.Unknown.{any_text};
ghost use Rattle.dp_machine.specs.World as worlds;
ghost use Rattle.dp_machine.specs.declared.channel.Channel.{Channel as AnyChannel};
ghost use Rattle.dp_machine.specs.steps.Templates.{IsOf};

use crate::ahead::entry_ahead_of;
use crate::channel::Channel;
use crate::channel_view::{expand_arguments, scope_of};
use crate::exchange::Exchange;
use crate::shared_state::SharedState;
use crate::templates::{Arguments, PreparedEntry};
use dp_app::{KnownTable, Place};
use dp_plan::{NoMemory, Text};
use dp_queue::Queues;
use dp_vars::Functions;
use std::alloc::Global;

/// What is unknown ahead of a channel, by its name.
#[derive(Debug, PartialEq, Eq, Drop)]
pub enum Unknown {
    /// The application of this name, which the table lacks.
    Application(Text),
    /// The group of this variable, or of this function and its expanded argument such as `DB(a/b)`, whose value is unknown.
    Group(Text),
    /// What the application asks for with its arguments: an application with this name, or the value of this name.
    Asked(Text),
}

/// A text, if it has bytes.
fn any_text(text: Vec<u8>) -> Option<Vec<u8>>
    ensures { option_map (λ text. text.items) result ≡ any_text text.items }
{
    if text.is_empty() { None } else { Some(text) }
}

/// The first unknown group in the arguments of an entry.
#[tactic(auto, unfolding(crate::specs::Unknown::unknown_seen))]
fn unknown_group<F: Functions>(
    alloc: Global,
    shared: &SharedState,
    number: u32,
    channel: &Channel,
    prepared: PreparedEntry<'_>,
) -> Result<Option<Vec<u8>>, NoMemory>
    requires { IsOf prepared.entry.now prepared.template.now }
    ensures { IfOk result (λ unknown. option_map (λ text. text.items) unknown
        ≡ spec.unknown_seen F.table shared.now number channel.now prepared.entry.entry.now.arguments) }
{
    match &prepared.template.arguments {
        Arguments::Plain => Ok(None),
        Arguments::Read(pieces) => {
            let arguments = prepared.entry.arguments.bytes();
            let scope = scope_of(shared, number, channel);
            let unknown = pieces.first_unknown::<F, Place, Queues>(alloc, arguments, &scope)?;
            Ok(unknown)
        }
    }
}

/// The unknown text that the application of an entry asks for with the entry's arguments.
#[tactic(auto, unfolding(crate::specs::Unknown::unknown_asked))]
fn unknown_asked<T: KnownTable>(
    alloc: Global,
    shared: &SharedState,
    number: u32,
    channel: &Channel,
    prepared: PreparedEntry<'_>,
) -> Result<Option<Vec<u8>>, NoMemory>
    requires { IsOf prepared.entry.now prepared.template.now }
    ensures { IfOk result (λ asked. option_map (λ text. text.items) asked
        ≡ spec.unknown_asked (with_functions T.rows T.Functions.table) T.knowledge shared.now number channel.now
        prepared.entry.entry.now) }
{
    let arguments = expand_arguments::<T::Functions>(alloc, shared, number, channel, prepared)?;
    let scope = scope_of(shared, number, channel);
    let asked = T::unknown_need(
        alloc,
        &scope,
        prepared.entry.application.bytes(),
        &arguments,
    )?;
    Ok(any_text(asked))
}

/// What is unknown in the arguments of an entry.
fn unknown_of_arguments<T: KnownTable>(
    alloc: Global,
    shared: &SharedState,
    number: u32,
    channel: &Channel,
    prepared: PreparedEntry<'_>,
) -> Result<Option<Unknown>, NoMemory>
    requires { IsOf prepared.entry.now prepared.template.now }
    ensures { IfOk result (λ unknown. unknown
        ≡ spec.unknown_of_arguments (with_functions T.rows T.Functions.table) T.knowledge shared.now number channel.now
        prepared.entry.entry.now) }
{
    if !T::looks_at_arguments(prepared.entry.application.bytes()) {
        return Ok(None);
    }
    let group = unknown_group::<T::Functions>(alloc, shared, number, channel, prepared)?;
    if let Some(group) = group {
        return Ok(Some(Unknown::Group(Text::new(group))));
    }
    match unknown_asked::<T>(alloc, shared, number, channel, prepared)? {
        Some(asked) => Ok(Some(Unknown::Asked(Text::new(asked)))),
        None => Ok(None),
    }
}

/// What is unknown of an entry.
fn unknown_of_entry<T: KnownTable>(
    alloc: Global,
    shared: &SharedState,
    number: u32,
    channel: &Channel,
    prepared: PreparedEntry<'_>,
) -> Result<Option<Unknown>, NoMemory>
    requires { IsOf prepared.entry.now prepared.template.now }
    ensures { IfOk result (λ unknown. unknown
        ≡ spec.unknown_of_entry (with_functions T.rows T.Functions.table) T.knowledge shared.now number channel.now
        prepared.entry.entry.now) }
{
    if T::number_of(prepared.entry.application.bytes()).is_none() {
        let name = prepared.entry.application.text().clone()?;
        return Ok(Some(Unknown::Application(name)));
    }
    let unknown = unknown_of_arguments::<T>(alloc, shared, number, channel, prepared)?;
    Ok(unknown)
}

/// What is unknown of the entry that the next step of the channel would run.
pub(crate) fn unknown_ahead_of<T: KnownTable>(
    alloc: Global,
    exchange: &mut Exchange,
    number: u32,
    channel: &Channel,
) -> Result<Option<Unknown>, NoMemory>
    ensures unknown { IfOk result (λ unknown. (channels : List AnyChannel) → unknown
        ≡ spec.unknown_in (with_functions T.rows T.Functions.table) T.knowledge (worlds.world_in exchange.old channels) number channel.now) }
    ensures same { exchange.new ≡ exchange.old }
{
    let Some(id) = entry_ahead_of(&mut exchange.plan, channel) else {
        return Ok(None);
    };
    let prepared = exchange.plan.prepared_entry(id);
    let unknown = unknown_of_entry::<T>(alloc, &exchange.shared, number, channel, prepared)?;
    Ok(unknown)
}
