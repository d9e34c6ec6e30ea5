//! A call of a queue, answered by an agent.

/// A call: the numbers of its queue, of the agent that answered it, and of the channel.
#[derive(Clone, Copy, Debug, PartialEq, Eq)]
pub struct Call {
    pub queue: usize,
    pub agent: usize,
    pub channel: u32,
}
