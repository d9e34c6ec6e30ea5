//! The faults for which a dialplan is refused, with their numbers and their printed names.
ghost use Rattle.std.specs.Prelude.{◌≡◌, Some};
ghost use Rattle.dp_conf.specs.declared.first_fault.TakeFault.TheVariants.{Line};
ghost use Rattle.dp_plan.specs.Codes.{plan_code, plan_name, load_code, load_name, load_fault_text};

use dp_conf::{ConfFault, FaultyLine, LineKind, NoMemory, TakeFault};
use dp_pattern::NameFault;
use std::alloc::AllocFailed;
use std::error::Error;
use std::fmt;

/// A feature used by a line that this program does not support.
#[derive(Clone, Copy, Debug, PartialEq, Eq)]
pub enum Word {
    /// A key `switch`, `lswitch` or `eswitch`.
    Switch,
    /// A key `ignorepat`.
    IgnorePat,
    /// A name with a `/`, after which the number of a caller would come.
    CallerId,
    /// An include with a comma, after which times would come.
    IncludeTimes,
    /// A name with a `${`.
    Variable,
    /// The priority `hint`.
    Hint,
    /// An application with a comma before its `(`, or with a comma and without a `(`.
    OldForm,
    /// A priority `next`, `s` or `same`, or one with a `+`.
    PriorityWord,
}

/// Why a line of a context is refused.
#[derive(Clone, Copy, Debug, PartialEq, Eq)]
pub enum PlanKind {
    /// A priority that is neither a number from 1 nor `n`.
    BadPriority,
    /// A priority `n` without an earlier line of its extension.
    NoPrevious,
    /// A label that is empty, only digits, or contains a parenthesis, or a `(` without a `)` as the last byte.
    BadLabel,
    /// An application with an empty name, or with a `(` but without a `)` as its last byte.
    BadApplication,
    /// The line uses a feature that is not supported.
    LeftOut(Word),
    /// Arguments, or the value of a global variable, whose groups are nested more than 32 deep.
    TooDeep,
    /// A line `same` without a line `exten` since the header.
    NoExten,
    /// A priority above 2,147,483,647.
    PriorityLimit,
    /// A line `exten` with fewer than two commas, or a line `same` without a comma.
    ShortLine,
}

impl PlanKind {
    /// The number of the fault, 20 to 28.
    pub fn code(self) -> u8
        ensures { result ≡ plan_code self }
    {
        match self {
            PlanKind::BadPriority => 20,
            PlanKind::NoPrevious => 21,
            PlanKind::BadLabel => 22,
            PlanKind::BadApplication => 23,
            PlanKind::LeftOut(_) => 24,
            PlanKind::TooDeep => 25,
            PlanKind::NoExten => 26,
            PlanKind::PriorityLimit => 27,
            PlanKind::ShortLine => 28,
        }
    }

    /// The name of the fault, as it is printed next to its number.
    pub fn name(self) -> &'static str
        ensures { result.now ≡ plan_name self }
    {
        match self {
            PlanKind::BadPriority => "BadPriority",
            PlanKind::NoPrevious => "NoPrevious",
            PlanKind::BadLabel => "BadLabel",
            PlanKind::BadApplication => "BadApplication",
            PlanKind::LeftOut(_) => "LeftOut",
            PlanKind::TooDeep => "TooDeep",
            PlanKind::NoExten => "NoExten",
            PlanKind::PriorityLimit => "PriorityLimit",
            PlanKind::ShortLine => "ShortLine",
        }
    }
}

/// Why a line of the text of a dialplan is refused.
#[derive(Clone, Copy, Debug, PartialEq, Eq)]
pub enum LoadKind {
    /// The line is refused whatever its section.
    Conf(LineKind),
    /// The name of an extension is not valid.
    Pattern(NameFault),
    /// A line of a context or of the global variables is refused for another reason.
    Plan(PlanKind),
}

impl LoadKind {
    /// The number of the fault: 1 to 6, 10 to 16, or 20 to 28.
    pub fn code(self) -> u8
        ensures { result ≡ load_code self }
    {
        match self {
            LoadKind::Conf(kind) => kind.code(),
            LoadKind::Pattern(fault) => fault.code(),
            LoadKind::Plan(kind) => kind.code(),
        }
    }

    /// The name of the fault, as it is printed next to its number.
    pub fn name(self) -> &'static str
        ensures { result.now ≡ load_name self }
    {
        match self {
            LoadKind::Conf(kind) => kind.name(),
            LoadKind::Pattern(fault) => fault.name(),
            LoadKind::Plan(kind) => kind.name(),
        }
    }
}

/// Why a line has no item.
pub(crate) type ItemFault = TakeFault<LoadKind>;

/// The fault of a refused line of a context or of the global variables.
pub(crate) fn fault(line: usize, kind: PlanKind) -> ItemFault
    ensures { result ≡ Line (record { line = line; kind = LoadKind.Plan kind }) }
{
    let kind = LoadKind::Plan(kind);
    TakeFault::Line(FaultyLine { line, kind })
}

/// Why a dialplan did not load.
#[derive(Clone, Copy, Debug, PartialEq, Eq)]
pub enum LoadFault {
    /// A line is refused; lines are counted from 1.
    Line { line: usize, kind: LoadKind },
    /// Memory ran out.
    NoMemory,
}

impl From<FaultyLine<LoadKind>> for LoadFault {
    ghost use Rattle.std.specs.Prelude.{◌≡◌};
    ghost use Rattle.dp_plan.specs.Faults.{fault_of_line};

    ghost from_gives = { λ faulty fault. fault ≡ fault_of_line faulty };

    fn from(faulty: FaultyLine<LoadKind>) -> Self {
        let FaultyLine { line, kind } = faulty;
        LoadFault::Line { line, kind }
    }
}

impl fmt::Display for LoadFault {
    ghost output = { λ fault. Some (load_fault_text fault) };

    fn fmt<W: fmt::Write>(&self, f: &mut fmt::Formatter<W>) -> fmt::Result {
        match self {
            LoadFault::Line { line, kind } => write!(f, "{} line {line}", kind.name()),
            LoadFault::NoMemory => f.write_str("out of memory"),
        }
    }
}

impl Error for LoadFault {}

impl From<ConfFault> for LoadFault {
    ghost use Rattle.dp_plan.specs.Faults.{fault_of_conf};
    ghost use Rattle.std.specs.Prelude.{◌≡◌};

    ghost from_gives = { λ conf fault. fault ≡ fault_of_conf conf };

    fn from(conf: ConfFault) -> Self {
        match conf {
            ConfFault::At { line, kind } => LoadFault::Line {
                line,
                kind: LoadKind::Conf(kind),
            },
            ConfFault::NoMemory => LoadFault::NoMemory,
        }
    }
}

impl From<NoMemory> for LoadFault {
    ghost use Rattle.std.specs.Prelude.{◌≡◌};
    ghost use Rattle.dp_plan.specs.declared.fault.LoadFault.TheVariants.{NoMemory};

    ghost from_gives = { λ _ fault. fault ≡ NoMemory };

    fn from(_: NoMemory) -> Self {
        LoadFault::NoMemory
    }
}

impl<T: Drop> From<AllocFailed<T>> for LoadFault {
    ghost use Rattle.std.specs.Prelude.{◌≡◌};
    ghost use Rattle.dp_plan.specs.declared.fault.LoadFault.TheVariants.{NoMemory};

    ghost from_gives = { λ _ fault. fault ≡ NoMemory };

    fn from(_: AllocFailed<T>) -> Self {
        LoadFault::NoMemory
    }
}
