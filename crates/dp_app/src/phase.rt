//! What a channel waits for.
use dp_conf::Text;

/// What a channel waits for.
#[derive(Debug, PartialEq, Eq, Drop)]
pub enum Phase {
    /// The next step.
    Ready,
    /// Digits, of which these have come. After a time-out the channel goes on at the next priority if `Background` waits for the digits.
    Digits {
        text: Text,
        is_background: bool,
    },
    /// A time-out.
    Pause,
    /// An agent of the queue with this number.
    Queued {
        queue: usize,
        /// Whether the channel goes on at the next priority when the agent is done.
        goes_on: bool,
        /// Whether a time-out removes it from the queue.
        has_timer: bool,
    },
    /// The end of a talk with the agent with this number.
    Talking {
        queue: usize,
        agent: usize,
        goes_on: bool,
    },
    /// The result of a call to devices.
    Dialling {
        /// Whether the channel goes on at the next priority when the far side has answered and hung up.
        goes_on: bool,
        /// Whether a time-out ends the call to the devices.
        has_timer: bool,
    },
    /// Nothing more: the call is over.
    Ended,
}
