//! A channel: its place, and what it waits for.

use dp_app::{Phase, Place};
use dp_plan::Text;
use dp_vars::Store;

/// A channel, with the number of its caller, its variables and its frames, each of which returns to a place. Channels are numbered from 1
/// in the order of their starts.
#[derive(Drop)]
pub struct Channel {
    pub place: Place,
    pub phase: Phase,
    /// Whether the channel is hung up and runs the extension `h`.
    pub is_closing: bool,
    pub caller: Text,
    pub store: Store<Place>,
}
