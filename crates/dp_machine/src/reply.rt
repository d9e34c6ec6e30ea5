//! What a machine replies to an event.
ghost use Rattle.std.specs.Prelude.{◌≡◌};
ghost use Rattle.dp_machine.specs.Events.{is_refused};

use crate::refusal::Refusal;
use dp_plan::EntryId;

/// The reply to an event.
#[derive(Clone, Copy, Debug, PartialEq, Eq)]
pub enum Reply {
    /// A channel with this number was started.
    Started(u32),
    /// The application of this entry was run.
    Ran(EntryId),
    /// The extension does not exist, and the channel went to the extension `i` of its context.
    Invalid,
    /// There is no entry at the channel's place, and the channel is hung up.
    NoEntry,
    /// A call of this channel rings at a number of agents.
    Offered { channel: u32, rung: usize },
    /// The event was taken.
    Done,
    /// The event was refused, and nothing has changed.
    Refused(Refusal),
}

impl Reply {
    /// Whether the event was refused.
    pub fn is_refusal(self) -> bool
        ensures { result ≡ is_refused self }
    {
        matches!(self, Reply::Refused(_))
    }
}
