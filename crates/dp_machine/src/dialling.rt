//! The events of a channel that waits for the result of its call to devices, after the Asterisk documentation's page on the application
//! `Dial`.
ghost use Rattle.std.specs.Prelude.{◌≡◌, ◌≤◌, OnErr, OnOk};
ghost use Rattle.dp_conf.specs.Numbers.{most_priority};
ghost use Rattle.dp_machine.specs.Channels as channels;
ghost use Rattle.dp_machine.specs.Codes.{status_name};
ghost use Rattle.dp_machine.specs.Events as spec;
ghost use Rattle.dp_machine.specs.steps.Follows.{Follows};
ghost use Rattle.dp_machine.specs.GoodWorld.{MayAct};

use crate::channel::Channel;
use crate::dial_status::DialStatus;
use crate::directory::Directory;
use crate::ending::hang_up;
use crate::exchange::Exchange;
use crate::refusal::Refusal;
use crate::reply::Reply;
use crate::step::go_on;
use dp_app::Phase;
use dp_plan::NoMemory;
use std::alloc::Global;

/// The channel reads the result of its call to devices.
fn read_status(alloc: Global, channel: &mut Channel, status: &[u8]) -> Result<(), NoMemory>
    ensures ok { OnOk result (channel.new ≡ channels.with_dial_status channel.old status.now) }
    ensures err { OnErr result (channel.new ≡ channel.old) }
{
    channel.store.set(alloc, b"DIALSTATUS", status)
}

/// Whether a channel is hung up together with the far side.
fn ends_call(status: DialStatus, goes_on: bool) -> bool
    ensures { result ≡ channels.ends_call status goes_on }
{
    match status {
        DialStatus::Answer => !goes_on,
        DialStatus::Busy
        | DialStatus::NoAnswer
        | DialStatus::Congestion
        | DialStatus::ChanUnavail
        | DialStatus::DontCall
        | DialStatus::Torture
        | DialStatus::InvalidArgs => false,
    }
}

/// The call to devices had this result: the channel reads it and goes on, or is hung up together with the far side.
fn end_dial(
    alloc: Global,
    plan: &mut Directory,
    channel: &mut Channel,
    status: DialStatus,
    goes_on: bool,
) -> Result<(), NoMemory>
    requires { channel.old.place.priority ≤ most_priority }
    ensures ok { OnOk result (channel.new ≡ channels.after_dialling plan.old channel.old status goes_on) }
    ensures err { OnErr result (channel.new ≡ channel.old) }
    ensures same { plan.new ≡ plan.old }
{
    read_status(alloc, channel, status.name())?;
    if ends_call(status, goes_on) {
        hang_up(plan, channel);
    } else {
        go_on(channel);
    }
    Ok(())
}

/// The time of a call to devices ends.
pub(crate) fn end_dial_time(
    alloc: Global,
    exchange: &mut Exchange,
    channel: &mut Channel,
    has_timer: bool,
) -> Result<Reply, NoMemory>
    requires { channel.old.place.priority ≤ most_priority }
    ensures { Follows (spec.dial_time has_timer exchange.old.shared channel.old)
        exchange.old exchange.new channel.old channel.new result }
{
    if !has_timer {
        return Ok(Reply::Refused(Refusal::NoTimer));
    }
    read_status(alloc, channel, b"NOANSWER")?;
    go_on(channel);
    Ok(Reply::Done)
}

/// The caller hangs up before the call to devices has a result.
pub(crate) fn cancel_dial(
    alloc: Global,
    exchange: &mut Exchange,
    channel: &mut Channel,
) -> Result<Reply, NoMemory>
    ensures { Follows (spec.dial_cancelled exchange.old.plan exchange.old.shared channel.old)
        exchange.old exchange.new channel.old channel.new result }
{
    read_status(alloc, channel, b"CANCEL")?;
    hang_up(&mut exchange.plan, channel);
    Ok(Reply::Done)
}

/// The call to devices for which the channel waits had this result.
#[tactic(auto, unfolding(crate::specs::Events::dial_result_row))]
pub(crate) fn take_result(
    alloc: Global,
    exchange: &mut Exchange,
    number: u32,
    channel: &mut Channel,
    status: DialStatus,
) -> Result<Reply, NoMemory>
    requires { MayAct exchange.old.shared number channel.old }
    ensures { Follows (spec.dial_result_row status exchange.old.plan exchange.old.shared number channel.old)
        exchange.old exchange.new channel.old channel.new result }
{
    match &channel.phase {
        Phase::Dialling { goes_on, .. } => {
            let goes_on = *goes_on;
            end_dial(alloc, &mut exchange.plan, channel, status, goes_on)?;
            Ok(Reply::Done)
        }
        Phase::Ready
        | Phase::Digits { .. }
        | Phase::Pause
        | Phase::Queued { .. }
        | Phase::Talking { .. } => Ok(Reply::Refused(Refusal::NotDialling)),
        Phase::Ended => Ok(Reply::Refused(Refusal::Ended)),
    }
}
