//! How a channel is hung up, after the Asterisk documentation's page on the special extensions of dialplans.
ghost use Rattle.std.specs.Prelude.{◌≡◌};
ghost use Rattle.dp_machine.specs.Channels as spec;

use crate::channel::Channel;
use crate::directory::Directory;
use dp_app::{Exten, Phase};

/// Makes the channel ready at priority 1 of an extension of its context.
pub(crate) fn go_to_exten(channel: &mut Channel, exten: Exten)
    ensures { channel.new ≡ spec.ready_in channel.old exten }
{
    channel.place.exten = exten;
    channel.place.priority = 1;
    channel.phase = Phase::Ready;
}

/// Whether a hang-up of the channel continues at the extension `h`.
fn runs_hang_up(plan: &mut Directory, channel: &Channel) -> bool
    ensures runs { result ≡ spec.runs_hang_up plan.old channel.now }
    ensures same { plan.new ≡ plan.old }
{
    if channel.is_closing {
        return false;
    }
    plan.is_found(&channel.place.context, b"h", 1)
}

/// Hangs the channel up. It runs the extension `h` of its context, if this is found and the channel has not done so before, or is over; its
/// frames are dropped (a choice of this program).
#[tactic(auto, unfolding(crate::specs::Channels::hung_up))]
pub(crate) fn hang_up(plan: &mut Directory, channel: &mut Channel)
    ensures channel { channel.new ≡ spec.hung_up plan.old channel.old }
    ensures same { plan.new ≡ plan.old }
{
    let runs = runs_hang_up(plan, channel);
    channel.store.drop_frames();
    if runs {
        go_to_exten(channel, Exten::of_byte(b'h'));
        channel.is_closing = true;
    } else {
        channel.phase = Phase::Ended;
    }
}
