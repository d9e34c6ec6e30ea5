//! What an event asks of one channel.

use crate::dial_status::DialStatus;
use dp_app::Place;

/// What an event asks of one channel. It borrows the event's texts and place.
#[derive(Clone, Copy)]
pub(crate) enum ChannelEvent<'a> {
    Step,
    Digit(u8),
    Timeout,
    Poll,
    Hangup,
    DialResult(DialStatus),
    /// A name, and the value to which it is set from outside.
    Assign(&'a [u8], &'a [u8]),
    Redirect(&'a Place),
}
