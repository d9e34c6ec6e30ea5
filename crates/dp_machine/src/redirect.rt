//! Channels that are sent to a place from outside, after the Asterisk documentation's page on the AMI action `Redirect`.
ghost use Rattle.dp_machine.specs.Events as spec;
ghost use Rattle.dp_machine.specs.steps.Follows.{Follows};

use crate::channel::Channel;
use crate::exchange::Exchange;
use crate::refusal::Refusal;
use crate::reply::Reply;
use dp_app::{Phase, Place};
use dp_plan::NoMemory;

/// Sends the channel with this number to the place. A channel that waits for an agent or for a far side, or that talks, stays.
#[tactic(auto, unfolding(crate::specs::Events::redirect_row))]
pub(crate) fn redirect(
    exchange: &mut Exchange,
    _number: u32,
    channel: &mut Channel,
    place: &Place,
) -> Result<Reply, NoMemory>
    ensures { Follows (spec.redirect_row place.now exchange.old.plan exchange.old.shared _number channel.old)
        exchange.old exchange.new channel.old channel.new result }
{
    match channel.phase {
        Phase::Ready | Phase::Digits { .. } | Phase::Pause => {
            channel.place = place.clone()?;
            channel.phase = Phase::Ready;
            Ok(Reply::Done)
        }
        Phase::Queued { .. } | Phase::Talking { .. } | Phase::Dialling { .. } => {
            Ok(Reply::Refused(Refusal::NotReady))
        }
        Phase::Ended => Ok(Reply::Refused(Refusal::Ended)),
    }
}
