//! The step of a channel, after the Asterisk documentation's pages on dialplans and on their special extensions.
ghost use Rattle.std.specs.Prelude.{◌≡◌, ◌+◌, ◌^◌, ◌<◌, ◌≤◌, OnErr, OnOk, Some};
ghost use Rattle.dp_app.specs.Lawful.{IsLawful, MayRun};
ghost use Rattle.dp_conf.specs.Numbers.{most_priority};
ghost use Rattle.dp_app.specs.Rows.{after_dispatch, with_functions};
ghost use Rattle.dp_app.specs.declared.phase.Phase.TheVariants.{Ready};
ghost use Rattle.dp_machine.specs.Channels as channels;
ghost use Rattle.dp_machine.specs.Events as spec;
ghost use Rattle.dp_machine.specs.steps.Follows.{Follows, Runs};
ghost use Rattle.dp_machine.specs.Found.{entry_found, id_at};
ghost use Rattle.dp_machine.specs.GoodWorld.{IsSoundIn, MayAct};
ghost use Rattle.dp_machine.specs.Seen.{arguments_seen};
ghost use Rattle.dp_machine.specs.steps.Templates.{IsOf};

use crate::channel::Channel;
use crate::channel_view::expand_arguments;
use crate::directory::Directory;
use crate::ending::{go_to_exten, hang_up};
use crate::exchange::Exchange;
use crate::refusal::Refusal;
use crate::reply::Reply;
use crate::shared_state::SharedState;
use crate::target::{enter, land};
use crate::templates::{Arguments, PreparedEntry};
use dp_app::{AppNumber, AppTable, Cell, Exten, Move, Phase, Place};
use dp_plan::{EntryId, NoMemory};
use std::alloc::Global;

/// Moves the channel after an application, which a table may lack.
#[inline(always)]
fn go(plan: &mut Directory, channel: &mut Channel, going: Option<Move>)
    requires { channel.old.place.priority ≤ most_priority }
    ensures channel { channel.new ≡ channels.after_application plan.old channel.old going }
    ensures same { plan.new ≡ plan.old }
{
    match going {
        Some(Move::Next) => go_on(channel),
        Some(Move::Jump(target)) => land(plan, channel, target),
        Some(Move::Enter(parts)) => enter(plan, channel, parts),
        Some(Move::Park(phase)) => channel.phase = phase,
        Some(Move::Hang) => hang_up(plan, channel),
        None => hang_up(plan, channel),
    }
}

/// Makes the channel ready at its next priority.
pub(crate) fn go_on(channel: &mut Channel)
    requires { channel.old.place.priority ≤ most_priority }
    ensures { channel.new ≡ channels.going_on channel.old }
{
    channel.place.priority += 1;
    channel.phase = Phase::Ready;
}

/// The application that an entry calls, by name, where the table first looks for it, and its arguments.
#[derive(Clone, Copy)]
struct AppCall<'a> {
    number: AppNumber,
    name: &'a [u8],
    arguments: &'a [u8],
}

/// Runs the application that is called, for the channel with this number, if the table has it. It lends the application what that may
/// change.
fn run_application<T: AppTable>(
    alloc: Global,
    shared: &mut SharedState,
    number: u32,
    channel: &mut Channel,
    call: AppCall<'_>,
) -> Result<Option<Move>, NoMemory>
    requires { MayRun (spec.cell_of shared.old number channel.old) }
    ensures { Runs (after_dispatch (T.rows call.entry.name.now) call.entry.arguments.now (spec.cell_of shared.old number channel.old))
        shared.old shared.new channel.old channel.new result }
{
    let mut cell = Cell {
        number,
        place: &channel.place,
        is_closing: channel.is_closing,
        caller: &mut channel.caller,
        store: &mut channel.store,
        globals: &mut shared.globals,
        queues: &mut shared.queues,
    };
    T::run_by_number(alloc, call.number, call.name, call.arguments, &mut cell)
}

/// Runs the application of the entry, after it has expanded the arguments with their template.
#[tactic(auto, unfolding(crate::specs::Seen::arguments_seen))]
fn run_entry<T: AppTable>(
    alloc: Global,
    shared: &mut SharedState,
    number: u32,
    channel: &mut Channel,
    prepared: PreparedEntry<'_>,
) -> Result<Option<Move>, NoMemory>
    requires run { MayRun (spec.cell_of shared.old number channel.old) }
    requires template { IsOf prepared.entry.now prepared.template.now }
    ensures { Runs (after_dispatch (T.rows prepared.entry.entry.now.application)
        (arguments_seen T.Functions.table shared.old number channel.old prepared.entry.entry.now.arguments)
        (spec.cell_of shared.old number channel.old)) shared.old shared.new channel.old channel.new result }
{
    let call = AppCall {
        number: prepared.template.number,
        name: prepared.entry.application.bytes(),
        arguments: prepared.entry.arguments.bytes(),
    };
    match &prepared.template.arguments {
        Arguments::Plain => run_application::<T>(alloc, shared, number, channel, call),
        Arguments::Read(_) => {
            let arguments = expand_arguments::<T::Functions>(
                alloc, shared, number, channel, prepared,
            )?;
            let expanded = AppCall {
                arguments: &arguments,
                ..call
            };
            run_application::<T>(alloc, shared, number, channel, expanded)
        }
    }
}

/// Whether the extension of a place does not exist, but `i` is found in its context.
fn is_invalid(plan: &mut Directory, place: &Place) -> bool
    ensures invalid { result ≡ channels.is_invalid plan.old place.now }
    ensures same { plan.new ≡ plan.old }
{
    if plan.is_found(&place.context, place.exten.bytes(), 1) {
        return false;
    }
    plan.is_found(&place.context, b"i", 1)
}

/// Makes the channel ready at the extension `i` of its context, where it reads what was dialled.
fn go_to_invalid(alloc: Global, channel: &mut Channel) -> Result<(), NoMemory>
    ensures ok { OnOk result (channel.new ≡ channels.invalid channel.old) }
    ensures err { OnErr result (channel.new ≡ channel.old) }
{
    channel
        .store
        .set(alloc, b"INVALID_EXTEN", channel.place.exten.bytes())?;
    go_to_exten(channel, Exten::of_byte(b'i'));
    Ok(())
}

/// A step that finds no entry: it goes to the extension `i` if the extension does not exist at all, else it hangs up.
#[tactic(auto, using(crate::proofs::StepLemmas::hung_up_sound, crate::proofs::StepLemmas::unfound_taken), unfolding(crate::specs::Events::step_without_entry))]
fn step_unfound(
    alloc: Global,
    exchange: &mut Exchange,
    channel: &mut Channel,
) -> Result<Reply, NoMemory>
    ensures follows { Follows (spec.step_without_entry exchange.old.plan exchange.old.shared channel.old)
        exchange.old exchange.new channel.old channel.new result }
    ensures sound { OnOk result (IsSoundIn channel.new.phase channel.new) }
{
    if is_invalid(&mut exchange.plan, &channel.place) {
        go_to_invalid(alloc, channel)?;
        return Ok(Reply::Invalid);
    }
    hang_up(&mut exchange.plan, channel);
    Ok(Reply::NoEntry)
}

/// Runs the entry with these numbers, which answers at the channel's place.
#[tactic(auto, using(crate::proofs::StepLemmas::found_taken))]
fn step_found<T: AppTable>(
    alloc: Global,
    exchange: &mut Exchange,
    number: u32,
    channel: &mut Channel,
    id: EntryId,
) -> Result<Reply, NoMemory>
    requires found { id_at exchange.old.plan channel.old.place ≡ Some id }
    requires act { MayAct exchange.old.shared number channel.old }
    requires ready { channel.old.phase ≡ Ready }
    ensures follows { Follows (spec.step_at (with_functions T.rows T.Functions.table) exchange.old.plan exchange.old.shared number channel.old
        (entry_found exchange.old.plan channel.old.place)) exchange.old exchange.new channel.old channel.new result }
    ensures sound { OnOk result (IsSoundIn channel.new.phase channel.new) }
{
    let prepared = exchange.plan.prepared_entry(id);
    // The channel stands at the entry's priority, which is at most 2,147,483,647.
    let _ = prepared.entry.priority.get();
    let going = run_entry::<T>(alloc, &mut exchange.shared, number, channel, prepared)?;
    go(&mut exchange.plan, channel, going);
    Ok(Reply::Ran(id))
}

/// A step of a channel that is ready.
#[tactic(auto, using(crate::proofs::LookupLemmas::not_found))]
fn step_ready<T: AppTable>(
    alloc: Global,
    exchange: &mut Exchange,
    number: u32,
    channel: &mut Channel,
) -> Result<Reply, NoMemory>
    requires act { MayAct exchange.old.shared number channel.old }
    requires ready { channel.old.phase ≡ Ready }
    ensures follows { Follows (spec.step_at (with_functions T.rows T.Functions.table) exchange.old.plan exchange.old.shared number channel.old
        (entry_found exchange.old.plan channel.old.place)) exchange.old exchange.new channel.old channel.new result }
    ensures sound { OnOk result (IsSoundIn channel.new.phase channel.new) }
{
    let place = &channel.place;
    match exchange
        .plan
        .find(&place.context, place.exten.bytes(), place.priority)
    {
        Some(id) => step_found::<T>(alloc, exchange, number, channel, id),
        None => step_unfound(alloc, exchange, channel),
    }
}

/// A step of the channel with this number. A channel that is not ready takes none.
#[tactic(auto, unfolding(crate::specs::Events::step_row))]
#[inline(always)]
pub(crate) fn step_channel<T: AppTable>(
    alloc: Global,
    exchange: &mut Exchange,
    number: u32,
    channel: &mut Channel,
) -> Result<Reply, NoMemory>
    requires { MayAct exchange.old.shared number channel.old }
    ensures follows { Follows (spec.step_row (with_functions T.rows T.Functions.table) exchange.old.plan exchange.old.shared number channel.old)
        exchange.old exchange.new channel.old channel.new result }
    ensures sound { IsSoundIn channel.new.phase channel.new }
{
    match channel.phase {
        Phase::Ready => step_ready::<T>(alloc, exchange, number, channel),
        Phase::Digits { .. }
        | Phase::Pause
        | Phase::Queued { .. }
        | Phase::Talking { .. }
        | Phase::Dialling { .. } => Ok(Reply::Refused(Refusal::NotReady)),
        Phase::Ended => Ok(Reply::Refused(Refusal::Ended)),
    }
}
