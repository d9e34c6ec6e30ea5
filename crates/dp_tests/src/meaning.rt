//! What a line of a test file means by itself.
use crate::expectation::Expectation;
use crate::fault::TestFaultKind;
use crate::file::{Act, Turns};
use dp_plan::Text;

/// The first word of a line of the head.
#[derive(Clone, Copy)]
pub(crate) enum HeadWord {
    Dialplan,
    Queues,
    Clock,
    Assume,
}

/// What a line means by itself.
#[derive(Drop)]
pub(crate) enum LineMeaning {
    /// A blank line or a comment.
    Nothing,
    /// A line of the head, unless it is a `clock` or `assume` line of a test.
    Head {
        word: HeadWord,
        text: Text,
        turns: Turns,
    },
    /// A line that begins a test, whose name may be missing.
    Begin {
        name: Text,
    },
    /// An event line.
    Event {
        act: Act,
    },
    /// An `expect` line.
    Expect {
        expectation: Expectation,
    },
    /// A faulty line.
    Faulty {
        kind: TestFaultKind,
    },
}

/// A line, counted from 1, and what it means by itself.
#[derive(Drop)]
pub(crate) struct MeantLine {
    pub(crate) line: usize,
    pub(crate) meaning: LineMeaning,
}
