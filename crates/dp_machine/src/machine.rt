//! The machine: a world that events change one after another.
ghost use Rattle.std.specs.Prelude.{◌≡◌, ◌≤◌, ◌++◌, ◌∷◌, [], IfOk, OnOk, OnErr, Some, false, length, true};
ghost use Rattle.std.specs.Option.{option_and_then, option_copied, option_map};
ghost use Rattle.dp_queue.specs.Rest.{IsAtRest};
ghost use Rattle.dp_app.specs.Rows.{with_functions};
ghost use Rattle.dp_vars.specs.Variables.{value_or_empty};
ghost use Rattle.dp_machine.specs.Events as spec;
ghost use Rattle.dp_machine.specs.steps.Follows.{Follows, Makes};
ghost use Rattle.dp_machine.specs.GoodWorld as good;
ghost use Rattle.dp_machine.specs.Replay as replay;
ghost use Rattle.dp_machine.specs.Unknown as unknowns;
ghost use Rattle.dp_machine.specs.World as worlds;

use crate::agents::{agent_done, answer, decline, offer};
use crate::ahead::{arguments_ahead_of, entry_ahead_of, next_entry_of};
use crate::assigning::{Assignment, assign, assign_global};
use crate::channel::Channel;
use crate::channel_event::ChannelEvent;
use crate::channel_numbers::{channel_at, index_of};
use crate::channel_view::{channel_value, expand_text_in};
use crate::dialling::take_result;
use crate::event::Event;
use crate::exchange::Exchange;
use crate::redirect::redirect;
use crate::refusal::Refusal;
use crate::reload::reload;
use crate::reply::Reply;
use crate::starting::{start, start_kept};
use crate::step::step_channel;
use crate::unknown::{Unknown, unknown_ahead_of};
use crate::waiting::{dial, end_time, hang_up_channel, poll};
use dp_app::{AppTable, KnownTable, Phase, Place};
use dp_plan::{Dialplan, EntryId, NoMemory, Text};
use dp_queue::Queues;
use dp_vars::Expanded;
use std::alloc::Global;
use std::marker::{Model, PhantomData};

/// A machine over a table of applications, with its dialplan, its channels and what they share. A contract sees it as its world, which is
/// always a good one.
pub struct Machine<T> {
    exchange: Exchange,
    channels: Vec<Channel>,
    table: PhantomData<T>,
}

impl<T> Drop for Machine<T> {
    fn drop(self) {
        let Machine {
            exchange: _,
            channels: _,
            table: _,
        } = self;
    }
}

impl<T> Model for Machine<T> {
    ghost use Rattle.std.specs.Coded.{codes};
    ghost use Rattle.dp_vars.specs.Variables.{named_code};
    ghost use Rattle.dp_machine.specs.GoodWorld.{IsGoodWorld};
    ghost use Rattle.dp_machine.specs.World.{World, world_in};

    ghost Value = { World };

    ghost coded = { Prim.hlevel (codes, named_code) };

    ghost view = { λ machine. world_in machine.exchange machine.channels.items };

    ghost invariant = { λ machine. IsGoodWorld (world_in machine.exchange machine.channels.items) };
}

/// An event of the channel.
#[inline(always)]
fn answer_to<T: AppTable>(
    alloc: Global,
    exchange: &mut Exchange,
    number: u32,
    channel: &mut Channel,
    asked: ChannelEvent<'_>,
) -> Result<Reply, NoMemory>
    requires { good.MayAct exchange.old.shared number channel.old }
    ensures follows { Follows (spec.own_row (with_functions T.rows T.Functions.table) asked.entry exchange.old.plan exchange.old.shared number channel.old)
        exchange.old exchange.new channel.old channel.new result }
    ensures sound { good.IsSoundAfter asked.entry channel.new }
{
    match asked {
        ChannelEvent::Step => step_channel::<T>(alloc, exchange, number, channel),
        ChannelEvent::Digit(digit) => dial(alloc, exchange, number, channel, digit),
        ChannelEvent::Timeout => end_time(alloc, exchange, number, channel),
        ChannelEvent::Poll => poll(alloc, exchange, number, channel),
        ChannelEvent::Hangup => hang_up_channel(alloc, exchange, number, channel),
        ChannelEvent::DialResult(status) => take_result(alloc, exchange, number, channel, status),
        ChannelEvent::Assign(name, value) => {
            let setting = Assignment { name, value };
            assign::<T::Functions>(alloc, exchange, number, channel, setting)
        }
        ChannelEvent::Redirect(place) => redirect(exchange, number, channel, place),
    }
}

/// An event of the channel with a number.
#[inline(always)]
fn ask<T: AppTable>(
    alloc: Global,
    exchange: &mut Exchange,
    channels: &mut Vec<Channel>,
    number: u32,
    asked: ChannelEvent<'_>,
) -> Result<Reply, NoMemory>
    requires { good.IsGoodWorld (worlds.world_in exchange.old channels.old.items) }
    ensures makes { Makes (spec.asked_event (with_functions T.rows T.Functions.table) (worlds.world_in exchange.old channels.old.items) number asked.entry)
        (worlds.world_in exchange.old channels.old.items) (worlds.world_in exchange.new channels.new.items) result }
    ensures sound { OnOk result (good.IsSoundAsked (with_functions T.rows T.Functions.table)
        (worlds.world_in exchange.old channels.old.items) number asked.entry) }
{
    let Some(index) = index_of(number, channels.len()) else {
        return Ok(Reply::Refused(Refusal::NoChannel));
    };
    let channel = &mut channels[index];
    answer_to::<T>(alloc, exchange, number, channel, asked)
}

/// Applies one event to an exchange and its channels. The texts of an incoming phone call are copied.
#[inline(always)]
fn apply_kept_to<T: AppTable>(
    alloc: Global,
    exchange: &mut Exchange,
    channels: &mut Vec<Channel>,
    event: &Event,
) -> Result<Reply, NoMemory>
    requires { good.IsGoodWorld (worlds.world_in exchange.old channels.old.items) }
    ensures makes { Makes (spec.event_row (with_functions T.rows T.Functions.table) (worlds.world_in exchange.old channels.old.items) event.now)
        (worlds.world_in exchange.old channels.old.items) (worlds.world_in exchange.new channels.new.items) result }
    ensures sound { OnOk result (good.StepsSoundly (with_functions T.rows T.Functions.table) (worlds.world_in exchange.old channels.old.items) event.now) }
{
    match event {
        Event::Start {
            context,
            exten,
            caller,
        } => start_kept(alloc, channels, context, exten, caller),
        Event::Step { channel } => ask::<T>(
            alloc,
            exchange,
            channels,
            *channel,
            ChannelEvent::Step,
        ),
        Event::Digit { channel, digit } => {
            ask::<T>(
                alloc,
                exchange,
                channels,
                *channel,
                ChannelEvent::Digit(*digit),
            )
        }
        Event::Timeout { channel } => ask::<T>(
            alloc,
            exchange,
            channels,
            *channel,
            ChannelEvent::Timeout,
        ),
        Event::Poll { channel } => ask::<T>(
            alloc,
            exchange,
            channels,
            *channel,
            ChannelEvent::Poll,
        ),
        Event::Hangup { channel } => ask::<T>(
            alloc,
            exchange,
            channels,
            *channel,
            ChannelEvent::Hangup,
        ),
        Event::DialResult { channel, status } => {
            ask::<T>(
                alloc,
                exchange,
                channels,
                *channel,
                ChannelEvent::DialResult(*status),
            )
        }
        Event::Offer { queue } => Ok(offer(exchange, queue.bytes())),
        Event::Answer { agent } => Ok(answer(exchange, channels, agent.bytes())),
        Event::Decline { agent } => Ok(decline(exchange, agent.bytes())),
        Event::AgentDone { agent } => agent_done(alloc, exchange, channels, agent.bytes()),
        Event::Reload { text } => reload::<T>(alloc, exchange, text.bytes()),
        Event::Assign {
            channel: None,
            name,
            value,
        } => assign_global(alloc, exchange, name.bytes(), value.bytes()),
        Event::Assign {
            channel: Some(channel),
            name,
            value,
        } => ask::<T>(
            alloc,
            exchange,
            channels,
            *channel,
            ChannelEvent::Assign(name.bytes(), value.bytes()),
        ),
        Event::Redirect { channel, place } => ask::<T>(
            alloc,
            exchange,
            channels,
            *channel,
            ChannelEvent::Redirect(place),
        ),
    }
}

/// Applies one event to an exchange and its channels. An incoming phone call gives its texts away; those of other events are not kept.
fn apply_to<T: AppTable>(
    alloc: Global,
    exchange: &mut Exchange,
    channels: &mut Vec<Channel>,
    event: Event,
) -> Result<Reply, NoMemory>
    requires { good.IsGoodWorld (worlds.world_in exchange.old channels.old.items) }
    ensures makes { Makes (spec.event_row (with_functions T.rows T.Functions.table) (worlds.world_in exchange.old channels.old.items) event)
        (worlds.world_in exchange.old channels.old.items) (worlds.world_in exchange.new channels.new.items) result }
    ensures sound { OnOk result (good.StepsSoundly (with_functions T.rows T.Functions.table) (worlds.world_in exchange.old channels.old.items) event) }
{
    match event {
        Event::Start {
            context,
            exten,
            caller,
        } => start(alloc, channels, context, exten, caller),
        kept => apply_kept_to::<T>(alloc, exchange, channels, &kept),
    }
}

impl<T: AppTable> Machine<T> {
    /// A machine with this dialplan and these queues before the first phone call: nobody waits in the queues, and no agent rings or talks.
    /// The globals are expanded in the order of the file; there is no channel then, and whatever a channel would give is empty (a choice of
    /// this program).
    pub fn new(alloc: Global, plan: Dialplan, queues: Queues) -> Result<Self, NoMemory>
        requires { IsAtRest queues }
        ensures { IfOk result (λ machine. machine ≡ worlds.opening_with T.Functions.table plan queues) }
    {
        let exchange = Exchange::of::<T>(alloc, plan, queues)?;
        exchange.shared.queues.show_good();
        Ok(Machine {
            exchange,
            channels: Vec::new(alloc),
            table: PhantomData,
        })
    }

    /// Puts the machine back to before the first phone call, as `new` makes it of the dialplan in force and these queues: there are no
    /// channels, and the globals are those of the dialplan. The tables that look-ups search are kept, so this takes no longer with a
    /// larger dialplan unless it has more globals. If memory runs out the machine is as before.
    pub fn restart(&mut self, alloc: Global, queues: Queues) -> Result<(), NoMemory>
        requires { IsAtRest queues }
        ensures ok { OnOk result (self.new ≡ worlds.opening_with T.Functions.table self.old.plan queues) }
        ensures good { good.IsGoodWorld self.new }
        ensures err { OnErr result (self.new ≡ self.old) }
    {
        self.exchange.restart::<T>(alloc, queues)?;
        self.exchange.shared.queues.show_good();
        self.channels = Vec::new(alloc);
        Ok(())
    }

    /// Applies one event, and gives the reply. A refused event changes nothing, and allocates only if it gives another dialplan, which must
    /// be loaded to decide that. If memory runs out the machine is as before.
    pub fn apply(&mut self, alloc: Global, event: Event) -> Result<Reply, NoMemory>
        ensures ok { IfOk result (λ reply. spec.event_row (with_functions T.rows T.Functions.table) self.old event ≡ (self.new, reply)) }
        ensures unchanged { IfOk result (λ reply. spec.is_refused reply ≡ true → self.new ≡ self.old) }
        ensures good { good.IsGoodWorld self.new }
        ensures err { OnErr result (self.new ≡ self.old) }
        ensures refused { OnErr result (spec.is_refused_at_once (spec.event_row (with_functions T.rows T.Functions.table) self.old event).1 ≡ false) }
    {
        let reply = apply_to::<T>(alloc, &mut self.exchange, &mut self.channels, event);
        self.exchange.shared.queues.show_good();
        reply
    }

    /// Applies one event by reference, as `apply` does: the texts of an incoming phone call are copied, and no others.
    #[inline(always)]
    pub fn apply_kept(&mut self, alloc: Global, event: &Event) -> Result<Reply, NoMemory>
        ensures ok { IfOk result (λ reply. spec.event_row (with_functions T.rows T.Functions.table) self.old event.now ≡ (self.new, reply)) }
        ensures unchanged { IfOk result (λ reply. spec.is_refused reply ≡ true → self.new ≡ self.old) }
        ensures good { good.IsGoodWorld self.new }
        ensures err { OnErr result (self.new ≡ self.old) }
        ensures refused { OnErr result (spec.is_refused_at_once (spec.event_row (with_functions T.rows T.Functions.table) self.old event.now).1 ≡ false) }
    {
        let reply = apply_kept_to::<T>(alloc, &mut self.exchange, &mut self.channels, event);
        self.exchange.shared.queues.show_good();
        reply
    }

    /// Applies the events one after another, and adds the reply to each at the end of the replies. If memory runs out it stops: the number
    /// of replies shows how many events were applied.
    pub fn run(
        &mut self,
        alloc: Global,
        events: &[Event],
        replies: &mut Vec<Reply>,
    ) -> Result<(), NoMemory>
        ensures replies { OnOk result (replies.new.items
            ≡ replies.old.items ++ replay.replies_to (with_functions T.rows T.Functions.table) self.old events.now) }
        ensures world { OnOk result (self.new ≡ replay.world_after (with_functions T.rows T.Functions.table) self.old events.now) }
        ensures first { replay.RanFirst (with_functions T.rows T.Functions.table) self.old events.now replies.old.items replies.new.items self.new }
    {
        for event in events {
            replies.reserve(1)?;
            let reply = self.apply_kept(alloc, event)?;
            replies.push(reply).unwrap();
        }
        Ok(())
    }

    /// The phase of the channel with this number, or None if there is none.
    pub fn phase(&self, number: u32) -> Option<&Phase>
        ensures { option_copied result ≡ option_map (λ channel. channel.phase)
            (worlds.channel_at self.now.channels number) }
    {
        let channel = channel_at(&self.channels, number)?;
        Some(&channel.phase)
    }

    /// The place of the channel with this number, or None if there is none.
    pub fn place(&self, number: u32) -> Option<&Place>
        ensures { option_copied result ≡ option_map (λ channel. channel.place)
            (worlds.channel_at self.now.channels number) }
    {
        let channel = channel_at(&self.channels, number)?;
        Some(&channel.place)
    }

    /// The value of a name in the channel with this number, as `${NAME}` reads it there: what the channel gives under the names `EXTEN`,
    /// `CONTEXT`, `PRIORITY` and `CHANNEL`, else the local of the innermost frame that has the name, else the channel's variable, else the
    /// global. It is empty if none of these has the name, and if no channel has the number. A channel that has ended keeps its values.
    ///
    /// It fails only if memory runs out.
    pub fn value(&self, alloc: Global, channel: u32, name: &[u8]) -> Result<Vec<u8>, NoMemory>
        ensures { IfOk result (λ value. value.items ≡ worlds.value_in self.now channel name.now) }
    {
        match channel_at(&self.channels, channel) {
            Some(found) => channel_value(alloc, &self.exchange.shared, channel, found, name),
            None => Ok(Vec::new(alloc)),
        }
    }

    /// The value of the global with this name, or the empty text if there is none. It never allocates.
    pub fn global(&self, name: &[u8]) -> &[u8]
        ensures { result.now ≡ value_or_empty (self.now.shared.globals ∷ []) name.now }
    {
        self.exchange.shared.globals.at(name)
    }

    /// A text, expanded by the table's functions as the arguments of an entry of the channel with this number would be, and the first group
    /// in it that these functions do not know. It is None if no channel has the number.
    ///
    /// It fails only if memory runs out.
    pub fn expand(
        &self,
        alloc: Global,
        channel: u32,
        text: &[u8],
    ) -> Result<Option<Expanded>, NoMemory>
        ensures bytes { IfOk result (λ expanded. option_map (λ known. known.bytes.items) expanded
            ≡ worlds.text_in T.Functions.table self.now channel text.now) }
        ensures unknown { IfOk result (λ expanded. option_and_then (λ known. option_map (λ group. group.items) known.unknown) expanded
            ≡ unknowns.unknown_in_text T.Functions.table self.now channel text.now) }
    {
        match channel_at(&self.channels, channel) {
            Some(found) => {
                let expanded = expand_text_in::<T::Functions>(
                    alloc,
                    &self.exchange.shared,
                    channel,
                    found,
                    text,
                )?;
                Ok(Some(expanded))
            }
            None => Ok(None),
        }
    }

    /// The entry that the next step of the channel with this number would run, or None if the step would run none: the channel is not
    /// ready, does not exist, or is at a place without an entry.
    ///
    /// It fails only if memory runs out.
    pub fn next_entry(&self, alloc: Global, channel: u32) -> Result<Option<EntryId>, NoMemory>
        ensures { IfOk result (λ entry. entry ≡ spec.next_entry self.now channel) }
    {
        match channel_at(&self.channels, channel) {
            Some(found) => next_entry_of(alloc, &self.exchange.plan, found),
            None => Ok(None),
        }
    }

    /// The same as `next_entry`, looked up in the way a step looks it up. It never allocates, and changes nothing that a contract sees.
    pub fn entry_ahead(&mut self, channel: u32) -> Option<EntryId>
        ensures entry { result ≡ spec.next_entry self.old channel }
        ensures same { self.new ≡ self.old }
    {
        match channel_at(&self.channels, channel) {
            Some(found) => entry_ahead_of(&mut self.exchange.plan, found),
            None => None,
        }
    }

    /// The arguments of the entry that the next step of the channel with this number would run, as they would be expanded, or None if the
    /// step would run none. It changes nothing that a contract sees.
    ///
    /// It fails only if memory runs out.
    pub fn arguments_ahead(
        &mut self,
        alloc: Global,
        channel: u32,
    ) -> Result<Option<Vec<u8>>, NoMemory>
        ensures arguments { IfOk result (λ arguments. option_map (λ text. text.items) arguments
            ≡ spec.arguments_ahead T.Functions.table self.old channel) }
        ensures same { self.new ≡ self.old }
    {
        match channel_at(&self.channels, channel) {
            Some(found) => {
                arguments_ahead_of::<T::Functions>(alloc, &mut self.exchange, channel, found)
            }
            None => Ok(None),
        }
    }

    /// The queues with their agents and the count of finished calls.
    pub fn queues(&self) -> &Queues
        ensures { result.now ≡ self.now.shared.queues }
    {
        &self.exchange.shared.queues
    }

    /// The invariant: channels, waiting lists and agents agree on who waits and who talks. This function does nothing.
    pub fn show_good(&self)
        ensures { good.IsGoodWorld self.now }
    {
        let _exchange = &self.exchange;
    }

    /// The dialplan in force.
    pub fn plan(&self) -> &Dialplan
        ensures { result.now ≡ self.now.plan }
    {
        self.exchange.plan.plan()
    }
}

impl<T: KnownTable> Machine<T> {
    /// What is unknown of the entry that the next step of the channel with this number would run: its application if the table lacks it,
    /// else the first group in its arguments that the table's functions do not know, in the order in which groups are expanded, else what
    /// the application asks for with these arguments. It is None if everything is known, if the application does not look at its arguments,
    /// and if the step would run no entry. It changes nothing that a contract sees.
    ///
    /// It fails only if memory runs out.
    pub fn unknown_ahead(
        &mut self,
        alloc: Global,
        channel: u32,
    ) -> Result<Option<Unknown>, NoMemory>
        ensures unknown { IfOk result (λ unknown. unknown
            ≡ unknowns.unknown_ahead (with_functions T.rows T.Functions.table) T.knowledge self.old channel) }
        ensures same { self.new ≡ self.old }
    {
        match channel_at(&self.channels, channel) {
            Some(found) => unknown_ahead_of::<T>(alloc, &mut self.exchange, channel, found),
            None => Ok(None),
        }
    }
}
