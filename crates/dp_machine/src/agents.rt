//! The events of agents, after the Asterisk documentation's page on queues.
ghost use Rattle.std.specs.Prelude.{◌≡◌, ℕ, OnOk, OnErr, List, Some};
ghost use Rattle.dp_plan.specs.Plan.{PlanOf};
ghost use Rattle.dp_machine.specs.Channels.{goes_on_after, after_talk};
ghost use Rattle.dp_machine.specs.Events as spec;
ghost use Rattle.dp_machine.specs.steps.Follows.{Makes};
ghost use Rattle.dp_machine.specs.GoodWorld.{IsSoundAt, IsSoundIn};
ghost use Rattle.dp_machine.specs.World as worlds;
ghost use Rattle.dp_machine.specs.declared.reply.Reply.TheVariants.{Done};
ghost use Rattle.dp_machine.specs.declared.shared_state.SharedState.{SharedState};

use crate::channel::Channel;
use crate::channel_numbers::index_of;
use crate::directory::Directory;
use crate::ending::hang_up;
use crate::exchange::Exchange;
use crate::refusal::Refusal;
use crate::reply::Reply;
use crate::step::go_on;
use dp_app::Phase;
use dp_plan::NoMemory;
use dp_queue::{Call, OfferFault};
use std::alloc::Global;

/// The refusal for a failed offer.
fn offer_refusal(fault: OfferFault) -> Refusal
    ensures { result ≡ spec.offer_refusal fault }
{
    match fault {
        OfferFault::NoQueue => Refusal::NoQueue,
        OfferFault::NobodyWaiting => Refusal::NobodyWaiting,
        OfferFault::NoMember => Refusal::NoMember,
    }
}

/// Offers a call of the queue with this name to agents.
#[tactic(auto, unfolding(crate::specs::Events::serve_offer))]
pub(crate) fn offer(exchange: &mut Exchange, queue: &[u8]) -> Reply
    ensures { (channels : List Channel) → spec.agent_event (worlds.world_in exchange.old channels)
        (spec.serve_offer exchange.old.shared queue.now)
        ≡ (worlds.world_in exchange.new channels, result) }
{
    match exchange.shared.queues.offer(queue) {
        Ok(offered) => Reply::Offered {
            channel: offered.channel,
            rung: offered.rung,
        },
        Err(fault) => Reply::Refused(offer_refusal(fault)),
    }
}

/// Whether the channel goes on when its agent is done.
fn goes_on_after(phase: &Phase) -> bool
    ensures { result ≡ goes_on_after phase.now }
{
    match phase {
        Phase::Queued { goes_on, .. } | Phase::Talking { goes_on, .. } => *goes_on,
        Phase::Ready
        | Phase::Digits { .. }
        | Phase::Pause
        | Phase::Dialling { .. }
        | Phase::Ended => false,
    }
}

/// The channel of a call, if there is one, begins to talk with the agent.
fn talk(channels: &mut Vec<Channel>, call: Call)
    ensures { (plan : PlanOf) (before after : SharedState)
        → spec.agent_event (worlds.world_of plan channels.old.items before) (spec.begin_talk after (Some call))
        ≡ (worlds.world_of plan channels.new.items after, Done) }
{
    let Some(index) = index_of(call.channel, channels.len()) else {
        return;
    };
    let channel = &mut channels[index];
    channel.phase = Phase::Talking {
        queue: call.queue,
        agent: call.agent,
        goes_on: goes_on_after(&channel.phase),
    };
}

/// The agent with this interface answers the call for which it rings.
#[tactic(auto, unfolding(crate::specs::Events::serve_answer))]
pub(crate) fn answer(exchange: &mut Exchange, channels: &mut Vec<Channel>, agent: &[u8]) -> Reply
    ensures { spec.agent_event (worlds.world_in exchange.old channels.old.items)
        (spec.serve_answer exchange.old.shared agent.now)
        ≡ (worlds.world_in exchange.new channels.new.items, result) }
{
    match exchange.shared.queues.answer(agent) {
        Some(call) => {
            talk(channels, call);
            Reply::Done
        }
        None => Reply::Refused(Refusal::NotRinging),
    }
}

/// The agent with this interface declines the call for which it rings.
#[tactic(auto, unfolding(crate::specs::Events::serve_decline))]
pub(crate) fn decline(exchange: &mut Exchange, agent: &[u8]) -> Reply
    ensures { (channels : List Channel) → spec.agent_event (worlds.world_in exchange.old channels)
        (spec.serve_decline exchange.old.shared agent.now)
        ≡ (worlds.world_in exchange.new channels, result) }
{
    if exchange.shared.queues.decline(agent) {
        Reply::Done
    } else {
        Reply::Refused(Refusal::NotRinging)
    }
}

/// The talk of the channel ends: the channel reads that and goes on, or is hung up.
fn end_talk(alloc: Global, plan: &mut Directory, channel: &mut Channel) -> Result<(), NoMemory>
    requires { IsSoundIn channel.old.phase channel.old }
    ensures ok { OnOk result (channel.new ≡ after_talk plan.old channel.old (goes_on_after channel.old.phase)) }
    ensures err { OnErr result (channel.new ≡ channel.old) }
    ensures same { plan.new ≡ plan.old }
{
    if goes_on_after(&channel.phase) {
        channel.store.set(alloc, b"QUEUESTATUS", b"CONTINUE")?;
        go_on(channel);
        return Ok(());
    }
    hang_up(plan, channel);
    Ok(())
}

/// The talk of the channel of a call, if there is one, ends.
fn part(
    alloc: Global,
    plan: &mut Directory,
    channels: &mut Vec<Channel>,
    call: Call,
) -> Result<(), NoMemory>
    requires { IsSoundAt (worlds.channel_at channels.old.items call.channel) }
    ensures row { (before after : SharedState) → OnOk result
        (spec.agent_event (worlds.world_of plan.old channels.old.items before) (spec.end_talk after (Some call))
        ≡ (worlds.world_of plan.old channels.new.items after, Done)) }
    ensures err { OnErr result (channels.new.items ≡ channels.old.items) }
    ensures same { plan.new ≡ plan.old }
{
    let Some(index) = index_of(call.channel, channels.len()) else {
        return Ok(());
    };
    end_talk(alloc, plan, &mut channels[index])
}

/// The agent with this interface is done with the call with which it talks.
#[tactic(auto, unfolding(crate::specs::Events::agent_done))]
pub(crate) fn agent_done(
    alloc: Global,
    exchange: &mut Exchange,
    channels: &mut Vec<Channel>,
    agent: &[u8],
) -> Result<Reply, NoMemory>
    requires { (number : ℕ) → IsSoundAt (worlds.channel_at channels.old.items number) }
    ensures { Makes (spec.agent_event (worlds.world_in exchange.old channels.old.items)
        (spec.agent_done exchange.old.shared agent.now))
        (worlds.world_in exchange.old channels.old.items) (worlds.world_in exchange.new channels.new.items) result }
{
    let Some(call) = exchange.shared.queues.talk_of(agent) else {
        return Ok(Reply::Refused(Refusal::NotTalking));
    };
    part(alloc, &mut exchange.plan, channels, call)?;
    let _call = exchange.shared.queues.done(agent);
    Ok(Reply::Done)
}
