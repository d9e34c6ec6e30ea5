//! The faults that the program ends with instead of a status, with their numbers and printed names.
ghost use Rattle.std.specs.Prelude.{◌≡◌};
ghost use Rattle.dp_commands.specs.Codes.{code_number, code_name};

use dp_board::SettleFault;
use dp_conf::{LineKind, ReadFault, WriteFailed};
use dp_plan::{LoadFault, LoadKind, NameFault, NoMemory, PlanKind};
use dp_queue::{QueueFault, QueueKind, QueueLoadKind};
use std::alloc::AllocFailed;

/// The kind of a fault. It tells which text has the line of the fault, if there is one.
#[derive(Clone, Copy, Debug, PartialEq, Eq)]
pub enum Code {
    /// A line of the dialplan's text is refused.
    Line(LineKind),
    /// The name in a line is invalid.
    Name(NameFault),
    /// A line of a context or of the global variables is refused.
    Plan(PlanKind),
    /// A line of the text of queues is refused, like a line of a dialplan's text.
    QueueLine(LineKind),
    /// A line of a queue is refused.
    Queue(QueueKind),
    /// A file or the standard input could not be read.
    ReadFailed,
    /// A file or the standard input has more than 16,777,216 bytes.
    TooLong,
    /// The output could not be written.
    WriteFailed,
    /// The seats of a board were not settled.
    Settle(SettleFault),
    /// A line of the script is of no known form.
    BadScript,
    /// The text of a break is invalid.
    BadBreak,
}

impl Code {
    /// The number of the fault.
    pub fn number(self) -> u8
        ensures { result ≡ code_number self }
    {
        match self {
            Code::Line(kind) => kind.code(),
            Code::Name(fault) => fault.code(),
            Code::Plan(kind) => kind.code(),
            Code::QueueLine(kind) => kind.code(),
            Code::Queue(kind) => kind.code(),
            Code::ReadFailed => ReadFault::ReadFailed.code().unwrap(),
            Code::TooLong => ReadFault::TooLong.code().unwrap(),
            Code::WriteFailed => WriteFailed.code(),
            Code::Settle(fault) => fault.code(),
            Code::BadScript => 70,
            Code::BadBreak => 71,
        }
    }

    /// The printed name of the fault.
    pub fn name(self) -> &'static str
        ensures { result.now ≡ code_name self }
    {
        match self {
            Code::Line(kind) => kind.name(),
            Code::Name(fault) => fault.name(),
            Code::Plan(kind) => kind.name(),
            Code::QueueLine(kind) => kind.name(),
            Code::Queue(kind) => kind.name(),
            Code::ReadFailed => ReadFault::ReadFailed.name(),
            Code::TooLong => ReadFault::TooLong.name(),
            Code::WriteFailed => WriteFailed.name(),
            Code::Settle(fault) => fault.name(),
            Code::BadScript => "BadScript",
            Code::BadBreak => "BadBreak",
        }
    }
}

impl From<LoadKind> for Code {
    ghost use Rattle.std.specs.Prelude.{◌≡◌};
    ghost use Rattle.dp_commands.specs.Faults.{code_of_load};

    ghost from_gives = { λ kind code. code ≡ code_of_load kind };

    fn from(kind: LoadKind) -> Self {
        match kind {
            LoadKind::Conf(kind) => Code::Line(kind),
            LoadKind::Pattern(fault) => Code::Name(fault),
            LoadKind::Plan(kind) => Code::Plan(kind),
        }
    }
}

impl From<QueueLoadKind> for Code {
    ghost use Rattle.std.specs.Prelude.{◌≡◌};
    ghost use Rattle.dp_commands.specs.Faults.{code_of_queue};

    ghost from_gives = { λ kind code. code ≡ code_of_queue kind };

    fn from(kind: QueueLoadKind) -> Self {
        match kind {
            QueueLoadKind::Conf(kind) => Code::QueueLine(kind),
            QueueLoadKind::Queue(kind) => Code::Queue(kind),
        }
    }
}

/// A fault with its line, counted from 1 in its own text, if it has one; or that memory ran out.
#[derive(Clone, Copy, Debug, PartialEq, Eq)]
pub enum PbxFault {
    Coded { code: Code, line: Option<usize> },
    NoMemory,
}

impl From<LoadFault> for PbxFault {
    ghost use Rattle.std.specs.Prelude.{◌≡◌};
    ghost use Rattle.dp_commands.specs.Faults.{fault_of_load};

    ghost from_gives = { λ load fault. fault ≡ fault_of_load load };

    fn from(load: LoadFault) -> Self {
        match load {
            LoadFault::Line { line, kind } => PbxFault::Coded {
                code: Code::from(kind),
                line: Some(line),
            },
            LoadFault::NoMemory => PbxFault::NoMemory,
        }
    }
}

impl From<QueueFault> for PbxFault {
    ghost use Rattle.std.specs.Prelude.{◌≡◌};
    ghost use Rattle.dp_commands.specs.Faults.{fault_of_queue};

    ghost from_gives = { λ queue fault. fault ≡ fault_of_queue queue };

    fn from(queue: QueueFault) -> Self {
        match queue {
            QueueFault::Line { line, kind } => PbxFault::Coded {
                code: Code::from(kind),
                line: Some(line),
            },
            QueueFault::NoMemory => PbxFault::NoMemory,
        }
    }
}

impl From<ReadFault> for PbxFault {
    ghost use Rattle.std.specs.Prelude.{◌≡◌};
    ghost use Rattle.dp_commands.specs.Faults.{fault_of_read};

    ghost from_gives = { λ read fault. fault ≡ fault_of_read read };

    fn from(read: ReadFault) -> Self {
        match read {
            ReadFault::ReadFailed => PbxFault::Coded {
                code: Code::ReadFailed,
                line: None,
            },
            ReadFault::TooLong => PbxFault::Coded {
                code: Code::TooLong,
                line: None,
            },
            ReadFault::NoMemory => PbxFault::NoMemory,
        }
    }
}

impl From<WriteFailed> for PbxFault {
    ghost use Rattle.std.specs.Prelude.{◌≡◌, None};
    ghost use Rattle.dp_commands.specs.declared.fault.Code.TheVariants.{WriteFailed as write_failed};
    ghost use Rattle.dp_commands.specs.declared.fault.PbxFault.TheVariants.{Coded};

    ghost from_gives = { λ _ fault. fault ≡ Coded write_failed None };

    fn from(_: WriteFailed) -> Self {
        PbxFault::Coded {
            code: Code::WriteFailed,
            line: None,
        }
    }
}

impl From<NoMemory> for PbxFault {
    ghost use Rattle.std.specs.Prelude.{◌≡◌};
    ghost use Rattle.dp_commands.specs.declared.fault.PbxFault.TheVariants.{NoMemory};

    ghost from_gives = { λ _ fault. fault ≡ NoMemory };

    fn from(_: NoMemory) -> Self {
        PbxFault::NoMemory
    }
}

impl<T: Drop> From<AllocFailed<T>> for PbxFault {
    ghost use Rattle.std.specs.Prelude.{◌≡◌};
    ghost use Rattle.dp_commands.specs.declared.fault.PbxFault.TheVariants.{NoMemory};

    ghost from_gives = { λ _ fault. fault ≡ NoMemory };

    fn from(_: AllocFailed<T>) -> Self {
        PbxFault::NoMemory
    }
}
