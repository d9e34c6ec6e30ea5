//! Where a debugged run halts.

/// Why a debugged run halts.
#[derive(Clone, Copy, Debug, PartialEq, Eq)]
pub enum Why {
    /// All events were taken.
    End,
    /// The break with this number, counted from 0, is the first that holds.
    Break(usize),
    /// Memory ran out.
    NoMemory,
}

/// Where a debugged run halts: how many of its events were taken, and why it halts.
#[derive(Clone, Copy, Debug, PartialEq, Eq)]
pub struct Halt {
    pub taken: usize,
    pub why: Why,
}
