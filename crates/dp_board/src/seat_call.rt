//! The calls in the record of a seat.

use dp_machine::{Event, Reply};

/// What a seat was told about one call: the place of the call's entry in the history, the event, and the reply.
#[derive(Debug, Drop)]
pub struct SeatCall {
    pub place: usize,
    pub event: Event,
    pub reply: Reply,
}
