//! The faults of test files, with their printed names.
ghost use Rattle.std.specs.Prelude.{◌≡◌};
ghost use Rattle.dp_tests.specs.Faults.{kind_name};

use crate::items::Items;
use dp_plan::NoMemory;

/// What is wrong with a line of a test file.
#[derive(Clone, Copy, Debug, PartialEq, Eq)]
pub enum TestFaultKind {
    /// The line is not of this language.
    BadLine,
    /// The line begins with `expect`, and the text after it has none of the forms of an expectation.
    BadExpect,
    /// The head has a line with this first word already.
    HeadTwice,
    /// A `dialplan` or `queues` line comes after the first `test`.
    HeadLate,
    /// There is no `dialplan` line before the first `test`. This fault is reported at line 1.
    NoDialplan,
    /// An `expect` line comes before the first `test`.
    ExpectOutside,
    /// A test has no name.
    NoName,
}

impl TestFaultKind {
    /// The printed name of the kind.
    pub fn name(self) -> &'static str
        ensures { result.now ≡ kind_name self }
    {
        match self {
            TestFaultKind::BadLine => "BadLine",
            TestFaultKind::BadExpect => "BadExpect",
            TestFaultKind::HeadTwice => "HeadTwice",
            TestFaultKind::HeadLate => "HeadLate",
            TestFaultKind::NoDialplan => "NoDialplan",
            TestFaultKind::ExpectOutside => "ExpectOutside",
            TestFaultKind::NoName => "NoName",
        }
    }
}

/// A fault of a test file: its line, counted from 1, and its kind.
#[derive(Clone, Copy, Debug, PartialEq, Eq)]
pub struct TestFault {
    pub line: usize,
    pub kind: TestFaultKind,
}

/// Why a test file could not be read.
#[derive(Drop)]
pub enum TestFaults {
    /// The file has these faults, and no others.
    Faulty(Items<TestFault>),
    /// The allocator had no memory.
    NoMemory,
}

impl From<NoMemory> for TestFaults {
    ghost use Rattle.std.specs.Prelude.{◌≡◌};
    ghost use Rattle.dp_tests.specs.declared.fault.TestFaults.TheVariants.{NoMemory};

    ghost from_gives = { λ _ faults. faults ≡ NoMemory };

    fn from(_: NoMemory) -> Self {
        TestFaults::NoMemory
    }
}
