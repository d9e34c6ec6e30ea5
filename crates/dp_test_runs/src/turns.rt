//! The event that a turn of a test gives.
ghost use Rattle.std.specs.Prelude.{◌≡◌, IfOk, Some};
ghost use Rattle.std.specs.Option.{option_map};
ghost use Rattle.dp_commands.specs.declared.script.Turn.{Turn as plain};
ghost use Rattle.dp_commands.specs.declared.script.Turn.TheVariants.{Event as turn_event};
ghost use Rattle.dp_machine.specs.declared.event.Event.TheVariants.{Redirect as redirects};
ghost use Rattle.dp_wide_runs.specs.Given as given;
ghost use Rattle.dp_wide_runs.specs.Lines as lines;
ghost use Rattle.dp_wide_runs.specs.Turns as turns;
ghost use Rattle.dp_test_runs.specs.Courses as spec;

use dp_commands::Turn;
use dp_machine::{Event, Machine, NoMemory, Phase, Place, Refusal};
use dp_wide::WideApps;
use dp_wide_runs::WideTurn;
use std::alloc::Global;

/// The priority after another; the greatest 32-bit number, which no entry has, stays.
fn priority_after(priority: u32) -> u32
    ensures { result ≡ turns.priority_after priority }
{
    priority.saturating_add(1)
}

/// A copy of the place after another.
fn place_after(place: &Place) -> Result<Place, NoMemory>
    ensures { IfOk result (λ after. after ≡ turns.place_after place.now) }
{
    let mut after = place.clone()?;
    after.priority = priority_after(place.priority);
    Ok(after)
}

/// The place after that of a channel if something is unknown ahead of it.
fn place_past(
    alloc: Global,
    machine: &mut Machine<WideApps>,
    channel: u32,
) -> Result<Option<Place>, NoMemory>
    ensures place { IfOk result (λ place. place ≡ option_map turns.place_after (turns.place_of_unknown machine.old channel)) }
    ensures same { machine.new ≡ machine.old }
{
    let unknown = machine.unknown_ahead(alloc, channel)?;
    if unknown.is_none() {
        return Ok(None);
    }
    match machine.place(channel) {
        Some(place) => {
            let after = place_after(place)?;
            Ok(Some(after))
        }
        None => Ok(None),
    }
}

/// The redirection that a pass gives, if something is unknown ahead of its channel.
fn redirect_past(
    alloc: Global,
    machine: &mut Machine<WideApps>,
    channel: u32,
) -> Result<Option<Event>, NoMemory>
    ensures event { IfOk result (λ event. event ≡ spec.event_in
        (option_map (λ place. turn_event (redirects channel (turns.place_after place))) (turns.place_of_unknown machine.old channel))) }
    ensures same { machine.new ≡ machine.old }
{
    match place_past(alloc, machine, channel)? {
        Some(place) => Ok(Some(Event::Redirect { channel, place })),
        None => Ok(None),
    }
}

/// The step of a channel, if nothing is unknown ahead of it.
fn known_step(
    alloc: Global,
    machine: &mut Machine<WideApps>,
    channel: u32,
) -> Result<Option<Event>, NoMemory>
    ensures event { IfOk result (λ event. event ≡ spec.event_in (given.step_given channel (turns.unknown_at machine.old channel))) }
    ensures same { machine.new ≡ machine.old }
{
    match machine.unknown_ahead(alloc, channel)? {
        Some(_) => Ok(None),
        None => Ok(Some(Event::Step { channel })),
    }
}

/// An event, unless it is a step of a channel ahead of which something is unknown.
fn known_event(
    alloc: Global,
    machine: &mut Machine<WideApps>,
    event: &Event,
) -> Result<Option<Event>, NoMemory>
    ensures event { IfOk result (λ asked. asked
        ≡ spec.event_in (given.first_given machine.old (turn_event event.now) (lines.stepped_channel event.now))) }
    ensures same { machine.new ≡ machine.old }
{
    match event {
        Event::Step { channel } => known_step(alloc, machine, *channel),
        _ => {
            let event = event.copy()?;
            Ok(Some(event))
        }
    }
}

/// The event that a turn gives.
#[tactic(auto, unfolding(crate::specs::Courses::event_given))]
pub(crate) fn event_given(
    alloc: Global,
    machine: &mut Machine<WideApps>,
    turn: &WideTurn,
) -> Result<Option<Event>, NoMemory>
    ensures event { IfOk result (λ event. event ≡ spec.event_given machine.old turn.now) }
    ensures same { machine.new ≡ machine.old }
{
    match turn {
        WideTurn::Plain(Turn::Event(event)) => known_event(alloc, machine, event),
        WideTurn::Plain(Turn::Show { .. }) => Ok(None),
        WideTurn::Further { channel } => known_step(alloc, machine, *channel),
        WideTurn::Pass { channel } => redirect_past(alloc, machine, *channel),
    }
}

/// Why a channel does not pass if nothing is unknown ahead of it, given its phase, if there is a channel.
fn pass_refusal(phase: Option<&Phase>) -> Refusal
    ensures { result ≡ turns.pass_refusal (option_map (λ phase. phase.now) phase.entry) }
{
    match phase {
        None => Refusal::NoChannel,
        Some(Phase::Ended) => Refusal::Ended,
        Some(_) => Refusal::NotReady,
    }
}

/// Why a turn that gives no event is refused.
pub(crate) fn refusal_without(machine: &Machine<WideApps>, turn: &WideTurn) -> Option<Refusal>
    ensures { result ≡ spec.refusal_without machine.now turn.now }
{
    match turn {
        WideTurn::Plain(_) | WideTurn::Further { .. } => None,
        WideTurn::Pass { channel } => Some(pass_refusal(machine.phase(*channel))),
    }
}
