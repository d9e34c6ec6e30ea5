//! What a text sees when it is expanded, after the Asterisk documentation's pages on variables.
ghost use Rattle.std.specs.Prelude.{◌≡◌};
ghost use Rattle.dp_vars.specs.Sights.{QueueCounts};

use crate::globals::Globals;
use crate::store::Store;

/// The counts of queues, given their names.
pub trait Counts {
    // The counts.
    ghost count: { Self → QueueCounts };

    /// The number of calls that wait in the queue with this name; 0 if there is no such queue.
    fn waiting(&self, queue: &[u8]) -> usize
        ensures { result ≡ (count self.now).waiting queue.now };

    /// The number of members of the queue with this name, or None if there is no such queue.
    fn members(&self, queue: &[u8]) -> Option<usize>
        ensures { result ≡ (count self.now).members queue.now };
}

/// What a text sees of a channel: its number and place, and the caller's number.
#[derive(Clone, Copy)]
pub struct ChannelSeen<'a> {
    pub number: u32,
    pub context: &'a [u8],
    pub extension: &'a [u8],
    pub priority: u32,
    pub caller: &'a [u8],
}

/// What a text sees. Without a channel, everything that a channel would give is empty (a choice of this program).
#[derive_where(Clone, Copy)]
pub struct Scope<'a, B, C> {
    pub channel: Option<ChannelSeen<'a>>,
    pub store: Option<&'a Store<B>>,
    pub globals: &'a Globals,
    pub counts: &'a C,
}
