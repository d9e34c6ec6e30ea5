//! The parts of a machine that an application sees and may change.

use crate::place::Place;
use dp_conf::Text;
use dp_queue::Queues;
use dp_vars::{Globals, Store};

/// The parts of a machine that an application sees: the channel that runs it, and what all channels share. It owns none of it: what an
/// application may change is borrowed, and so is the place, which it may only read.
///
/// The name of its channel is `Channel/` followed by the number.
#[derive(Drop)]
pub struct Cell<'a> {
    /// The channel's number.
    pub number: u32,
    pub place: &'a Place,
    /// Whether the channel is hung up and runs the extension `h`.
    pub is_closing: bool,
    /// The caller's number.
    pub caller: &'a mut Text,
    /// The channel's variables and frames. A frame returns to a place.
    pub store: &'a mut Store<Place>,
    pub globals: &'a mut Globals,
    pub queues: &'a mut Queues,
}
