//! The result of joining a queue.

/// The result of joining a queue.
#[derive(Clone, Copy, Debug, PartialEq, Eq)]
pub enum Join {
    /// There is no queue with that name.
    Unknown,
    /// The queue is too empty, according to its `joinempty`.
    Empty,
    /// As many calls are waiting as its `maxlen` allows.
    Full,
    /// The call waits in the queue with this number.
    Joined(usize),
}
