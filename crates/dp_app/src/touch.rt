//! The parts of a cell that an application may change.

/// The parts of a cell that an application may change. A part with false is not changed.
#[derive(Clone, Copy, Debug, PartialEq, Eq)]
pub struct Touch {
    /// The channel's variables, and the locals of its frames.
    pub variables: bool,
    /// The list of frames.
    pub frames: bool,
    /// The global variables.
    pub globals: bool,
    /// The caller's number.
    pub caller: bool,
    /// The members of queues with their penalties and pauses, and the members that `rrmemory` chose last.
    pub members: bool,
    /// The waiting lists of queues.
    pub waiting: bool,
}

impl Touch {
    /// No part.
    pub const NOTHING: Touch = Touch {
        variables: false,
        frames: false,
        globals: false,
        caller: false,
        members: false,
        waiting: false,
    };
}
