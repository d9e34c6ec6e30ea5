//! The faults of a file of queues and the refusals of an offer, with their numbers and their printed names.
ghost use Rattle.std.specs.Prelude.{◌≡◌, ◌++◌, Some, codes, decimal};
ghost use Rattle.dp_queue.specs.Codes.{queue_code, queue_name, queue_load_code, queue_load_name, offer_code, offer_name, queue_fault_text};

use dp_conf::{ConfFault, FaultyLine, LineKind, NoMemory};
use std::alloc::AllocFailed;
use std::error::Error;
use std::fmt;

/// Why a line of a queue is refused.
#[derive(Clone, Copy, Debug, PartialEq, Eq)]
pub enum QueueKind {
    /// A `strategy` that does not exist.
    BadStrategy,
    /// A `maxlen` or the penalty of a member that is not a number up to 2,147,483,647.
    BadNumber,
    /// A `strategy`, `joinempty` or `leavewhenempty` that this program does not support.
    LeftOut,
    /// A second section with the same name.
    DoubleQueue,
}

impl QueueKind {
    /// The number of the fault, 30 to 33.
    pub fn code(self) -> u8
        ensures { result ≡ queue_code self }
    {
        match self {
            QueueKind::BadStrategy => 30,
            QueueKind::BadNumber => 31,
            QueueKind::LeftOut => 32,
            QueueKind::DoubleQueue => 33,
        }
    }

    /// The name of the fault, as it is printed next to its number.
    pub fn name(self) -> &'static str
        ensures { result.now ≡ queue_name self }
    {
        match self {
            QueueKind::BadStrategy => "BadStrategy",
            QueueKind::BadNumber => "BadNumber",
            QueueKind::LeftOut => "LeftOut",
            QueueKind::DoubleQueue => "DoubleQueue",
        }
    }
}

/// Why a line of a file of queues is refused.
#[derive(Clone, Copy, Debug, PartialEq, Eq)]
pub enum QueueLoadKind {
    /// The line is refused whatever its section.
    Conf(LineKind),
    /// A line of a queue is refused.
    Queue(QueueKind),
}

impl QueueLoadKind {
    /// The number of the fault: 1 to 6, or 30 to 33.
    pub fn code(self) -> u8
        ensures { result ≡ queue_load_code self }
    {
        match self {
            QueueLoadKind::Conf(kind) => kind.code(),
            QueueLoadKind::Queue(kind) => kind.code(),
        }
    }

    /// The name of the fault, as it is printed next to its number.
    pub fn name(self) -> &'static str
        ensures { result.now ≡ queue_load_name self }
    {
        match self {
            QueueLoadKind::Conf(kind) => kind.name(),
            QueueLoadKind::Queue(kind) => kind.name(),
        }
    }
}

/// Why a file of queues did not load.
#[derive(Clone, Copy, Debug, PartialEq, Eq)]
pub enum QueueFault {
    /// A line is refused; lines are counted from 1.
    Line { line: usize, kind: QueueLoadKind },
    /// Memory ran out.
    NoMemory,
}

impl From<ConfFault> for QueueFault {
    ghost use Rattle.dp_queue.specs.Faults.{fault_of_conf};
    ghost use Rattle.std.specs.Prelude.{◌≡◌};

    ghost from_gives = { λ conf fault. fault ≡ fault_of_conf conf };

    fn from(conf: ConfFault) -> Self {
        match conf {
            ConfFault::At { line, kind } => QueueFault::Line {
                line,
                kind: QueueLoadKind::Conf(kind),
            },
            ConfFault::NoMemory => QueueFault::NoMemory,
        }
    }
}

impl From<FaultyLine<QueueKind>> for QueueFault {
    ghost use Rattle.dp_queue.specs.Faults.{fault_of_line};
    ghost use Rattle.std.specs.Prelude.{◌≡◌};

    ghost from_gives = { λ faulty fault. fault ≡ fault_of_line faulty };

    fn from(faulty: FaultyLine<QueueKind>) -> Self {
        let FaultyLine { line, kind } = faulty;
        QueueFault::Line {
            line,
            kind: QueueLoadKind::Queue(kind),
        }
    }
}

impl From<NoMemory> for QueueFault {
    ghost use Rattle.std.specs.Prelude.{◌≡◌};
    ghost use Rattle.dp_queue.specs.declared.fault.QueueFault.TheVariants.{NoMemory};

    ghost from_gives = { λ _ fault. fault ≡ NoMemory };

    fn from(_: NoMemory) -> Self {
        QueueFault::NoMemory
    }
}

impl<T: Drop> From<AllocFailed<T>> for QueueFault {
    ghost use Rattle.std.specs.Prelude.{◌≡◌};
    ghost use Rattle.dp_queue.specs.declared.fault.QueueFault.TheVariants.{NoMemory};

    ghost from_gives = { λ _ fault. fault ≡ NoMemory };

    fn from(_: AllocFailed<T>) -> Self {
        QueueFault::NoMemory
    }
}

impl fmt::Display for QueueFault {
    ghost output = { λ fault. Some (queue_fault_text fault) };

    fn fmt<W: fmt::Write>(&self, f: &mut fmt::Formatter<W>) -> fmt::Result {
        match self {
            QueueFault::Line { line, kind } => write!(f, "{} line {line}", kind.name()),
            QueueFault::NoMemory => f.write_str("out of memory"),
        }
    }
}

impl Error for QueueFault {}

/// Why no call is offered.
#[derive(Clone, Copy, Debug, PartialEq, Eq)]
pub enum OfferFault {
    /// There is no queue with that name.
    NoQueue,
    /// There is no waiting call for which no agent rings.
    NobodyWaiting,
    /// There is no member that is not paused and whose agent is idle.
    NoMember,
}

impl OfferFault {
    /// The number of the refusal, 44 to 46.
    pub fn code(self) -> u8
        ensures { result ≡ offer_code self }
    {
        match self {
            OfferFault::NoQueue => 44,
            OfferFault::NobodyWaiting => 45,
            OfferFault::NoMember => 46,
        }
    }

    /// The name of the refusal, as it is printed next to its number.
    pub fn name(self) -> &'static str
        ensures { result.now ≡ offer_name self }
    {
        match self {
            OfferFault::NoQueue => "NoQueue",
            OfferFault::NobodyWaiting => "NobodyWaiting",
            OfferFault::NoMember => "NoMember",
        }
    }
}
