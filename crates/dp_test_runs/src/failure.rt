//! Why a test fails.
use dp_machine::Refusal;

/// What made a line of a test fail.
#[derive(Clone, Copy, Debug, PartialEq, Eq)]
pub enum FailureKind {
    /// What the line expects did not come true.
    Unmet,
    /// The event of the line was refused, and the next line does not expect that.
    Refused(Refusal),
    /// After the event of the line 10,000 steps were taken, and there was one more to take.
    Endless,
    /// It is the last line, something is unknown ahead of this channel, and nothing was expected of the channel since the last event.
    LeftUnknown(u32),
}

/// The first failure of a test, with its line in the test file.
#[derive(Clone, Copy, Debug, PartialEq, Eq)]
pub struct Failure {
    pub line: usize,
    pub kind: FailureKind,
}
