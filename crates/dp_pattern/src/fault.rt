//! The reasons why a text is not a name, with their numbers and their printed names.
ghost use Rattle.std.specs.Prelude.{◌≡◌, Some};
ghost use Rattle.dp_pattern.specs.Codes.{name_code, fault_name, pattern_fault_text};

use std::alloc::{AllocError, AllocFailed};
use std::error::Error;
use std::fmt;

/// The reason why a text is not a name: the first fault from the left. Of two faults at one byte it is `AfterWildcard` if that is one of
/// them, else the one with the lower number. Which texts are refused is this program's own choice.
#[derive(Clone, Copy, Debug, PartialEq, Eq)]
pub enum NameFault {
    /// The name is empty without its dashes, and without the `_` of a pattern.
    EmptyName,
    /// An empty set: `[]`.
    EmptySet,
    /// A range whose ends are not two digits, two capitals or two small letters in rising or equal order, or a `-` in a set that is not
    /// part of a range.
    BadRange,
    /// A `[` without a `]` after it.
    OpenSet,
    /// Anything other than `-` after a `.` or a `!`.
    AfterWildcard,
    /// A byte of 32 or less, 127 or `\`.
    BadByte,
}

impl NameFault {
    /// The number of the fault, 10 to 15.
    pub fn code(self) -> u8
        ensures { result ≡ name_code self }
    {
        match self {
            NameFault::EmptyName => 10,
            NameFault::EmptySet => 11,
            NameFault::BadRange => 12,
            NameFault::OpenSet => 13,
            NameFault::AfterWildcard => 14,
            NameFault::BadByte => 15,
        }
    }

    /// The name of the fault, as it is printed next to its number.
    pub fn name(self) -> &'static str
        ensures { result.now ≡ fault_name self }
    {
        match self {
            NameFault::EmptyName => "EmptyName",
            NameFault::EmptySet => "EmptySet",
            NameFault::BadRange => "BadRange",
            NameFault::OpenSet => "OpenSet",
            NameFault::AfterWildcard => "AfterWildcard",
            NameFault::BadByte => "BadByte",
        }
    }
}

impl fmt::Display for NameFault {
    ghost output = { λ fault. Some (fault_name fault) };

    fn fmt<W: fmt::Write>(&self, f: &mut fmt::Formatter<W>) -> fmt::Result {
        f.write_str(self.name())
    }
}

impl Error for NameFault {}

/// Why a text could not be read as a name. It is printed as the name of the fault, or as `out of memory`.
#[derive(Clone, Copy, Debug, PartialEq, Eq)]
pub enum PatternFault {
    /// The text is not a name.
    Name(NameFault),
    /// Memory ran out.
    NoMemory,
}

impl fmt::Display for PatternFault {
    ghost output = { λ fault. Some (pattern_fault_text fault) };

    fn fmt<W: fmt::Write>(&self, f: &mut fmt::Formatter<W>) -> fmt::Result {
        match self {
            PatternFault::Name(fault) => f.write_str(fault.name()),
            PatternFault::NoMemory => f.write_str("out of memory"),
        }
    }
}

impl Error for PatternFault {}

impl From<NameFault> for PatternFault {
    ghost use Rattle.std.specs.Prelude.{◌≡◌};
    ghost use Rattle.dp_pattern.specs.declared.fault.PatternFault.TheVariants.{Name};

    ghost from_gives = { λ fault e. e ≡ Name fault };

    fn from(fault: NameFault) -> PatternFault {
        PatternFault::Name(fault)
    }
}

impl From<AllocError> for PatternFault {
    ghost use Rattle.std.specs.Prelude.{◌≡◌};
    ghost use Rattle.dp_pattern.specs.declared.fault.PatternFault.TheVariants.{NoMemory};

    ghost from_gives = { λ _ e. e ≡ NoMemory };

    fn from(_: AllocError) -> PatternFault {
        PatternFault::NoMemory
    }
}

impl<T: Drop> From<AllocFailed<T>> for PatternFault {
    ghost use Rattle.std.specs.Prelude.{◌≡◌};
    ghost use Rattle.dp_pattern.specs.declared.fault.PatternFault.TheVariants.{NoMemory};

    ghost from_gives = { λ _ e. e ≡ NoMemory };

    fn from(_: AllocFailed<T>) -> PatternFault {
        PatternFault::NoMemory
    }
}
