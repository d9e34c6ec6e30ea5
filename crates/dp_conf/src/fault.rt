//! The faults of a configuration text, a reader or a writer, with their numbers and their printed names.
ghost use Rattle.std.specs.Prelude.{◌≡◌, Some};
ghost use Rattle.dp_conf.specs.Codes.{line_code, line_name, conf_fault_text, read_code, read_name, write_code, write_name};

use std::alloc::{AllocError, AllocFailed};
use std::error::Error;
use std::fmt;

/// Why one line of a configuration text is refused.
#[derive(Clone, Copy, Debug, PartialEq, Eq)]
pub enum LineKind {
    /// A comment that begins with `;--` but no third dash: block comments are not supported.
    BlockComment,
    /// A pair before the header of any section.
    NoSection,
    /// A header without a `]`, with an empty name, or with text after the `]` that does not begin with `(`.
    BadHeader,
    /// A line of a section that is not a header and has no `=`.
    NoEquals,
    /// A line that begins with `#`, such as `#include`.
    Directive,
    /// A header with a `(` after its `]`: templates are not supported.
    Template,
}

impl LineKind {
    /// The number of the fault, 1 to 6.
    pub fn code(self) -> u8
        ensures { result ≡ line_code self }
    {
        match self {
            LineKind::BlockComment => 1,
            LineKind::NoSection => 2,
            LineKind::BadHeader => 3,
            LineKind::NoEquals => 4,
            LineKind::Directive => 5,
            LineKind::Template => 6,
        }
    }

    /// The name of the fault, as it is printed next to its number.
    pub fn name(self) -> &'static str
        ensures { result.now ≡ line_name self }
    {
        match self {
            LineKind::BlockComment => "BlockComment",
            LineKind::NoSection => "NoSection",
            LineKind::BadHeader => "BadHeader",
            LineKind::NoEquals => "NoEquals",
            LineKind::Directive => "Directive",
            LineKind::Template => "Template",
        }
    }
}

/// Why a configuration text could not be read as lines.
#[derive(Clone, Copy, Debug, PartialEq, Eq)]
pub enum ConfFault {
    /// The first refused line, counted from 1, and the reason.
    At { line: usize, kind: LineKind },
    /// Memory ran out.
    NoMemory,
}

impl From<AllocError> for ConfFault {
    ghost use Rattle.std.specs.Prelude.{◌≡◌};
    ghost use Rattle.dp_conf.specs.declared.fault.ConfFault.TheVariants.{NoMemory};

    ghost from_gives = { λ _ fault. fault ≡ NoMemory };

    fn from(_: AllocError) -> Self {
        ConfFault::NoMemory
    }
}

impl<T: Drop> From<AllocFailed<T>> for ConfFault {
    ghost use Rattle.std.specs.Prelude.{◌≡◌};
    ghost use Rattle.dp_conf.specs.declared.fault.ConfFault.TheVariants.{NoMemory};

    ghost from_gives = { λ _ fault. fault ≡ NoMemory };

    fn from(_: AllocFailed<T>) -> Self {
        ConfFault::NoMemory
    }
}

impl fmt::Display for ConfFault {
    ghost output = { λ fault. Some (conf_fault_text fault) };

    fn fmt<W: fmt::Write>(&self, f: &mut fmt::Formatter<W>) -> fmt::Result {
        match self {
            ConfFault::At { line, kind } => write!(f, "{} line {line}", kind.name()),
            ConfFault::NoMemory => f.write_str("out of memory"),
        }
    }
}

impl Error for ConfFault {}

/// Why a reader could not be read to its end.
#[derive(Clone, Copy, Debug, PartialEq, Eq)]
pub enum ReadFault {
    /// A read returned an error.
    ReadFailed,
    /// More bytes came than a file may have.
    TooLong,
    /// Memory ran out.
    NoMemory,
}

impl ReadFault {
    /// The number of the fault, 7 or 8; out-of-memory has none.
    pub fn code(self) -> Option<u8>
        ensures { result ≡ read_code self }
    {
        match self {
            ReadFault::ReadFailed => Some(7),
            ReadFault::TooLong => Some(8),
            ReadFault::NoMemory => None,
        }
    }

    /// The name of the fault, as it is printed.
    pub fn name(self) -> &'static str
        ensures { result.now ≡ read_name self }
    {
        match self {
            ReadFault::ReadFailed => "ReadFailed",
            ReadFault::TooLong => "TooLong",
            ReadFault::NoMemory => "out of memory",
        }
    }
}

impl From<AllocError> for ReadFault {
    ghost use Rattle.std.specs.Prelude.{◌≡◌};
    ghost use Rattle.dp_conf.specs.declared.fault.ReadFault.TheVariants.{NoMemory};

    ghost from_gives = { λ _ fault. fault ≡ NoMemory };

    fn from(_: AllocError) -> Self {
        ReadFault::NoMemory
    }
}

impl fmt::Display for ReadFault {
    ghost output = { λ fault. Some (read_name fault) };

    fn fmt<W: fmt::Write>(&self, f: &mut fmt::Formatter<W>) -> fmt::Result {
        f.write_str(self.name())
    }
}

impl Error for ReadFault {}

/// A write returned an error, or took none of the remaining bytes.
#[derive(Clone, Copy, Debug, PartialEq, Eq)]
pub struct WriteFailed;

impl WriteFailed {
    /// The number of the fault, 9.
    pub fn code(self) -> u8
        ensures { result ≡ write_code }
    {
        9
    }

    /// The name of the fault, as it is printed.
    pub fn name(self) -> &'static str
        ensures { result.now ≡ write_name }
    {
        "WriteFailed"
    }
}

impl fmt::Display for WriteFailed {
    ghost output = { λ _. Some write_name };

    fn fmt<W: fmt::Write>(&self, f: &mut fmt::Formatter<W>) -> fmt::Result {
        f.write_str(WriteFailed.name())
    }
}

impl Error for WriteFailed {}
