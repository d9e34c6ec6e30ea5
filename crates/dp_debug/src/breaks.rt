//! Breaks: where a debugged run halts.
ghost use Rattle.std.specs.Prelude.{◌≡◌, true};
ghost use Rattle.std.specs.List.{list_any, position};
ghost use Rattle.dp_machine.specs.Events.{next_entry};
ghost use Rattle.dp_machine.specs.World as worlds;
ghost use Rattle.dp_debug.specs.Breaks as spec;

use dp_app::AppTable;
use dp_conf::same_word;
use dp_machine::{Dialplan, EntryId, Event, Machine, Phase, Place, Text};

/// Where a debugged run halts.
#[derive(Debug, PartialEq, Eq, Drop)]
pub enum Break {
    /// Before a step of a channel that is ready at this place. The bytes of the extension are compared, including dashes.
    At(Place),
    /// Before a step of a channel whose entry has this application, in any ASCII case.
    App(Text),
}

/// Whether two places are the same.
fn same_place(a: &Place, b: &Place) -> bool
    ensures { result ≡ spec.same_place a.now b.now }
{
    a.context.bytes() == b.context.bytes()
        && a.exten.bytes() == b.exten.bytes()
        && a.priority == b.priority
}

/// Whether a channel is ready.
fn is_ready(phase: &Phase) -> bool
    ensures { result ≡ spec.is_ready phase.now }
{
    match phase {
        Phase::Ready => true,
        Phase::Digits { .. }
        | Phase::Pause
        | Phase::Queued { .. }
        | Phase::Talking { .. }
        | Phase::Dialling { .. }
        | Phase::Ended => false,
    }
}

/// Whether the channel with this number is ready at the place.
fn stands_at<T: AppTable>(machine: &Machine<T>, channel: u32, place: &Place) -> bool
    ensures { result ≡ spec.stands_at (worlds.channel_at machine.now.channels channel) place.now }
{
    match (machine.phase(channel), machine.place(channel)) {
        (Some(phase), Some(stands)) => is_ready(phase) && same_place(stands, place),
        _ => false,
    }
}

/// Whether the entry with these numbers has the application.
fn runs_at(plan: &Dialplan, id: Option<EntryId>, name: &[u8]) -> bool
    ensures { result ≡ spec.runs_at plan.now id name.now }
{
    let Some(id) = id else {
        return false;
    };
    match plan.entry(id) {
        Some(entry) => same_word(entry.application.bytes(), name),
        None => false,
    }
}

/// Whether the break names an application.
fn names_app(held: &Break) -> bool
    ensures { result ≡ spec.names_app held.now }
{
    match held {
        Break::At(_) => false,
        Break::App(_) => true,
    }
}

/// Whether a break among these names an application.
fn asks_entry(breaks: &[Break]) -> bool
    ensures { result ≡ list_any spec.names_app breaks.now }
{
    breaks.iter().any(|held| names_app(held))
}

/// The entry that a step of the channel with this number would run, if a break asks for it.
fn entry_for<T: AppTable>(
    machine: &mut Machine<T>,
    channel: u32,
    breaks: &[Break],
) -> Option<EntryId>
    ensures entry { list_any spec.names_app breaks.now ≡ true → result ≡ next_entry machine.old channel }
    ensures same { machine.new ≡ machine.old }
{
    if asks_entry(breaks) {
        machine.entry_ahead(channel)
    } else {
        None
    }
}

/// Whether the break holds before a step of the channel with this number, which would run this entry.
fn holds_at<T: AppTable>(
    machine: &Machine<T>,
    channel: u32,
    entry: Option<EntryId>,
    held: &Break,
) -> bool
    ensures { result ≡ spec.holds_at machine.now channel entry held.now }
{
    match held {
        Break::At(place) => stands_at(machine, channel, place),
        Break::App(name) => runs_at(machine.plan(), entry, name.bytes()),
    }
}

/// The number of the first break that holds before a step of the channel with this number, which would run this entry.
fn first_at<T: AppTable>(
    machine: &Machine<T>,
    channel: u32,
    entry: Option<EntryId>,
    breaks: &[Break],
) -> Option<usize>
    ensures { result ≡ position (spec.holds_at machine.now channel entry) breaks.now }
{
    breaks
        .iter()
        .position(|held| holds_at(machine, channel, entry, held))
}

/// The number of the first break that holds before a step of the channel with this number.
fn first_for<T: AppTable>(machine: &mut Machine<T>, channel: u32, breaks: &[Break]) -> Option<usize>
    ensures first { result ≡ spec.first_for machine.old channel breaks.now }
    ensures same { machine.new ≡ machine.old }
{
    let entry = entry_for(machine, channel, breaks);
    first_at(machine, channel, entry, breaks)
}

/// The number of the first break that holds before the event, counted from 0. Only a step can have one. It never allocates.
pub fn first_before<T: AppTable>(
    machine: &mut Machine<T>,
    event: &Event,
    breaks: &[Break],
) -> Option<usize>
    ensures first { result ≡ spec.first_before machine.old event.now breaks.now }
    ensures same { machine.new ≡ machine.old }
{
    match event {
        Event::Step { channel } => first_for(machine, *channel, breaks),
        Event::Start { .. }
        | Event::Digit { .. }
        | Event::Timeout { .. }
        | Event::Poll { .. }
        | Event::Hangup { .. }
        | Event::DialResult { .. }
        | Event::Offer { .. }
        | Event::Answer { .. }
        | Event::Decline { .. }
        | Event::AgentDone { .. }
        | Event::Reload { .. }
        | Event::Assign { .. }
        | Event::Redirect { .. } => None,
    }
}
