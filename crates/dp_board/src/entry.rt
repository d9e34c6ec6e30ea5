//! The entries of a history.
use dp_machine::{Event, Reply};

/// One call: the number of the seat that made it, the event that it gave, and the reply.
#[derive(Debug, PartialEq, Eq, Drop)]
pub struct Entry {
    pub seat: u32,
    pub event: Event,
    pub reply: Reply,
}
