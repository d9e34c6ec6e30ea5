//! The applications of call queues, after the Asterisk documentation's application reference: `Queue`, and the applications that add,
//! remove and pause the members of queues.
#![tactic(auto)]

mod membership;
mod pausing;
mod queueing;
mod reports;

pub use membership::{AddQueueMember, RemoveQueueMember};
pub use pausing::{PauseQueueMember, UnpauseQueueMember};
pub use queueing::QueueApp;
