//! The events of a channel that waits: for digits, for a time, or in a queue. After the Asterisk documentation's pages on
//! the applications `WaitExten`, `Background`, `Wait` and `Queue`.
ghost use Rattle.std.specs.Prelude.{◌≡◌, ◌≤◌, ◌++◌, ◌∷◌, [], IfOk, Some};
ghost use Rattle.dp_conf.specs.Numbers.{most_priority};
ghost use Rattle.dp_queue.specs.Joining.{should_leave};
ghost use Rattle.dp_machine.specs.Channels as channels;
ghost use Rattle.dp_machine.specs.Events as spec;
ghost use Rattle.dp_machine.specs.steps.Follows.{Follows};
ghost use Rattle.dp_machine.specs.Found as found;
ghost use Rattle.dp_machine.specs.GoodWorld.{MayAct};
ghost use Rattle.dp_machine.specs.Targets.{if_found, place_of};

use crate::channel::Channel;
use crate::dialling::{cancel_dial, end_dial_time};
use crate::directory::Directory;
use crate::ending::{go_to_exten, hang_up};
use crate::exchange::Exchange;
use crate::refusal::Refusal;
use crate::reply::Reply;
use crate::shared_state::SharedState;
use crate::step::go_on;
use dp_app::{Exten, Phase, Place};
use dp_plan::{NoMemory, Text};
use dp_queue::Queues;
use std::alloc::Global;
use std::mem;

/// Whether the byte is a telephone digit.
fn is_digit(byte: u8) -> bool
    ensures { result ≡ spec.is_digit byte }
{
    matches!(byte, b'0'..=b'9' | b'*' | b'#' | b'A'..=b'D')
}

/// Whether the channel is over.
pub(crate) fn is_over(phase: &Phase) -> bool
    ensures { result ≡ spec.is_over phase.now }
{
    match phase {
        Phase::Ready
        | Phase::Digits { .. }
        | Phase::Pause
        | Phase::Queued { .. }
        | Phase::Talking { .. }
        | Phase::Dialling { .. } => false,
        Phase::Ended => true,
    }
}

/// The channel has dialled these digits: it waits for more if they may continue, else it goes where they lead.
fn collect(plan: &mut Directory, channel: &mut Channel, text: Text, is_background: bool)
    ensures channel { channel.new ≡ channels.after_digit
        (found.could_go_on plan.old channel.old.place.context text) channel.old text is_background }
    ensures same { plan.new ≡ plan.old }
{
    if plan.could_go_on(&channel.place.context, text.bytes()) {
        channel.phase = Phase::Digits {
            text,
            is_background,
        };
    } else {
        go_to_exten(channel, Exten::new(text));
    }
}

/// The context in which the digits of channels that wait in the queue with this number are looked up; `nowhere` if there is no such queue.
fn way_out_of<'a>(queues: &'a Queues, queue: usize, nowhere: &'a Text) -> &'a Text
    requires { nowhere.now ≡ [] }
    ensures { result.now ≡ spec.way_out_of queues.now queue }
{
    match queues.queues().get(queue) {
        Some(queue) => &queue.settings().context,
        None => nowhere,
    }
}

/// The place to which a digit leads channels that wait in the queue with this number, if the queue's context has the digit.
fn way_out(
    alloc: Global,
    exchange: &mut Exchange,
    queue: usize,
    digit: u8,
) -> Result<Option<Place>, NoMemory>
    ensures place { IfOk result (λ place. place ≡ if_found exchange.old.plan
        (Some (place_of (spec.way_out_of exchange.old.shared.queues queue) (digit ∷ []) 1))) }
    ensures same { exchange.new ≡ exchange.old }
{
    let nowhere = Text::new(Vec::new(alloc));
    let context = way_out_of(&exchange.shared.queues, queue, &nowhere);
    let digits = [digit];
    if !exchange.plan.is_found(context, &digits, 1) {
        return Ok(None);
    }
    Ok(Some(Place {
        context: context.clone()?,
        exten: Exten::of_byte(digit),
        priority: 1,
    }))
}

/// A telephone digit.
#[tactic(auto, using(crate::proofs::DigitLemmas::way_out_there, crate::proofs::DigitLemmas::way_out_nowhere))]
fn dial_digit(
    alloc: Global,
    exchange: &mut Exchange,
    number: u32,
    channel: &mut Channel,
    digit: u8,
) -> Result<Reply, NoMemory>
    ensures { Follows (spec.dial_in channel.old.phase digit exchange.old.plan exchange.old.shared number channel.old)
        exchange.old exchange.new channel.old channel.new result }
{
    match &mut channel.phase {
        Phase::Digits {
            text,
            is_background,
        } => {
            text.push(digit)?;
            let text = mem::replace(text, Text::new(Vec::new(alloc)));
            let is_background = *is_background;
            collect(&mut exchange.plan, channel, text, is_background);
            Ok(Reply::Done)
        }
        Phase::Pause | Phase::Dialling { .. } => Ok(Reply::Done),
        Phase::Queued { queue, .. } => {
            let queue = *queue;
            if let Some(place) = way_out(alloc, exchange, queue, digit)? {
                let _waited = exchange.shared.queues.leave(number);
                channel.place = place;
                channel.phase = Phase::Ready;
            }
            Ok(Reply::Done)
        }
        Phase::Ready | Phase::Talking { .. } => Ok(Reply::Refused(Refusal::NotWaiting)),
        Phase::Ended => Ok(Reply::Refused(Refusal::Ended)),
    }
}

/// The caller dials a digit.
#[tactic(auto, unfolding(crate::specs::Events::digit_row))]
pub(crate) fn dial(
    alloc: Global,
    exchange: &mut Exchange,
    number: u32,
    channel: &mut Channel,
    digit: u8,
) -> Result<Reply, NoMemory>
    ensures { Follows (spec.digit_row digit exchange.old.plan exchange.old.shared number channel.old)
        exchange.old exchange.new channel.old channel.new result }
{
    if !is_over(&channel.phase) && !is_digit(digit) {
        return Ok(Reply::Refused(Refusal::BadDigit));
    }
    dial_digit(alloc, exchange, number, channel, digit)
}

/// A channel leaves its queue, and reads why.
fn leave_queue(
    alloc: Global,
    exchange: &mut Exchange,
    number: u32,
    channel: &mut Channel,
    status: &[u8],
) -> Result<Reply, NoMemory>
    requires { channel.old.place.priority ≤ most_priority }
    ensures { Follows (spec.leave exchange.old.shared number channel.old status.now)
        exchange.old exchange.new channel.old channel.new result }
{
    channel.store.set(alloc, b"QUEUESTATUS", status)?;
    let _left = exchange.shared.queues.leave(number);
    go_on(channel);
    Ok(Reply::Done)
}

/// No digit came in time for `WaitExten`: the channel goes on, or to the extension `t`, or is hung up.
fn end_wait(plan: &mut Directory, channel: &mut Channel)
    requires { channel.old.place.priority ≤ most_priority }
    ensures channel { channel.new ≡ channels.after_wait plan.old channel.old }
    ensures same { plan.new ≡ plan.old }
{
    let place = &channel.place;
    let exten = place.exten.bytes();
    if plan.is_found(&place.context, exten, place.priority + 1) {
        go_on(channel);
    } else if plan.is_found(&place.context, b"t", 1) {
        go_to_exten(channel, Exten::of_byte(b't'));
    } else {
        hang_up(plan, channel);
    }
}

/// The time of a channel that waits for digits is over, and none came.
fn end_undialled(plan: &mut Directory, channel: &mut Channel, is_background: bool)
    requires { channel.old.place.priority ≤ most_priority }
    ensures channel { channel.new ≡ channels.without_digits plan.old channel.old is_background }
    ensures same { plan.new ≡ plan.old }
{
    if is_background {
        go_on(channel);
    } else {
        end_wait(plan, channel);
    }
}

/// The time of a channel that waits in a queue is over.
fn end_time_in_queue(
    alloc: Global,
    exchange: &mut Exchange,
    number: u32,
    channel: &mut Channel,
    has_timer: bool,
) -> Result<Reply, NoMemory>
    requires { channel.old.place.priority ≤ most_priority }
    ensures { Follows (spec.time_in_queue has_timer exchange.old.shared number channel.old)
        exchange.old exchange.new channel.old channel.new result }
{
    if !has_timer {
        return Ok(Reply::Refused(Refusal::NoTimer));
    }
    leave_queue(alloc, exchange, number, channel, b"TIMEOUT")
}

/// The time of what the channel waits for is over.
#[tactic(auto, unfolding(crate::specs::Events::timeout_row))]
pub(crate) fn end_time(
    alloc: Global,
    exchange: &mut Exchange,
    number: u32,
    channel: &mut Channel,
) -> Result<Reply, NoMemory>
    requires { MayAct exchange.old.shared number channel.old }
    ensures { Follows (spec.timeout_row exchange.old.plan exchange.old.shared number channel.old)
        exchange.old exchange.new channel.old channel.new result }
{
    match &mut channel.phase {
        Phase::Digits {
            text,
            is_background,
        } => {
            if text.bytes().is_empty() {
                let is_background = *is_background;
                end_undialled(&mut exchange.plan, channel, is_background);
            } else {
                let digits = mem::replace(text, Text::new(Vec::new(alloc)));
                go_to_exten(channel, Exten::new(digits));
            }
            Ok(Reply::Done)
        }
        Phase::Pause => {
            go_on(channel);
            Ok(Reply::Done)
        }
        Phase::Queued { has_timer, .. } => {
            let has_timer = *has_timer;
            end_time_in_queue(alloc, exchange, number, channel, has_timer)
        }
        Phase::Dialling { has_timer, .. } => {
            let has_timer = *has_timer;
            end_dial_time(alloc, exchange, channel, has_timer)
        }
        Phase::Ready | Phase::Talking { .. } => Ok(Reply::Refused(Refusal::NotWaiting)),
        Phase::Ended => Ok(Reply::Refused(Refusal::Ended)),
    }
}

/// A channel in the queue with this number asks whether it has to leave.
fn poll_queue(
    alloc: Global,
    exchange: &mut Exchange,
    number: u32,
    channel: &mut Channel,
    queue: usize,
) -> Result<Reply, NoMemory>
    requires { channel.old.place.priority ≤ most_priority }
    ensures { Follows (spec.poll_queue (should_leave exchange.old.shared.queues queue) exchange.old.shared number channel.old)
        exchange.old exchange.new channel.old channel.new result }
{
    if !exchange.shared.queues.should_leave(queue) {
        return Ok(Reply::Done);
    }
    leave_queue(alloc, exchange, number, channel, b"LEAVEEMPTY")
}

/// The channel asks whether it has to leave its queue because the queue is too empty.
#[tactic(auto, unfolding(crate::specs::Events::poll_row))]
pub(crate) fn poll(
    alloc: Global,
    exchange: &mut Exchange,
    number: u32,
    channel: &mut Channel,
) -> Result<Reply, NoMemory>
    requires { MayAct exchange.old.shared number channel.old }
    ensures { Follows (spec.poll_row exchange.old.plan exchange.old.shared number channel.old)
        exchange.old exchange.new channel.old channel.new result }
{
    match &channel.phase {
        Phase::Queued { queue, .. } => {
            let queue = *queue;
            poll_queue(alloc, exchange, number, channel, queue)
        }
        Phase::Ready
        | Phase::Digits { .. }
        | Phase::Pause
        | Phase::Talking { .. }
        | Phase::Dialling { .. } => Ok(Reply::Refused(Refusal::NotWaiting)),
        Phase::Ended => Ok(Reply::Refused(Refusal::Ended)),
    }
}

/// The caller hangs up: the channel leaves its queue, or its talk ends, or it reads that its call to devices was cancelled, and it is hung
/// up. Only that reading allocates.
#[tactic(auto, unfolding(crate::specs::Events::hang_up_row))]
pub(crate) fn hang_up_channel(
    alloc: Global,
    exchange: &mut Exchange,
    number: u32,
    channel: &mut Channel,
) -> Result<Reply, NoMemory>
    ensures { Follows (spec.hang_up_row exchange.old.plan exchange.old.shared number channel.old)
        exchange.old exchange.new channel.old channel.new result }
{
    match &channel.phase {
        Phase::Ready | Phase::Digits { .. } | Phase::Pause => {}
        Phase::Queued { .. } => {
            let _left = exchange.shared.queues.leave(number);
        }
        Phase::Talking { .. } => {
            let _call = exchange.shared.queues.end_talk(number);
        }
        Phase::Dialling { .. } => return cancel_dial(alloc, exchange, channel),
        Phase::Ended => return Ok(Reply::Refused(Refusal::Ended)),
    }
    hang_up(&mut exchange.plan, channel);
    Ok(Reply::Done)
}
