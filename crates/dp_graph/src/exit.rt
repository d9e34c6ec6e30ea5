//! The ways out of queues.
use dp_plan::Text;

/// A way out of a queue: a caller who waits in the queue with this name, and dials an extension of the context, goes there.
#[derive(Debug, PartialEq, Eq, Drop)]
pub struct QueueExit {
    pub queue: Text,
    pub context: Text,
}
