//! The turn that a line of a script with facts gives.
use dp_commands::Turn;

/// The turn that a line of a script with facts gives.
#[derive(PartialEq, Eq, Drop)]
pub enum WideTurn {
    /// A turn of a plain script. A step is the first of its line.
    Plain(Turn),
    /// A further step of a line. It is left out if an earlier one was not taken.
    Further { channel: u32 },
    /// `pass CH`: the channel skips an entry that is unknown ahead, and goes to its next priority.
    Pass { channel: u32 },
}
