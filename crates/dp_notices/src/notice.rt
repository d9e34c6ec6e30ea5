//! Notices on lines, with the numbers and the names that are printed.
ghost use Rattle.std.specs.Prelude.{◌≡◌};
ghost use Rattle.dp_notices.specs.Notices as spec;

use dp_files::{Fault, LineNote, RemarkKind};
use dp_pattern::NameFault;
use dp_plan::{NoteKind, PlanKind, Word};
use dp_queue::QueueKind;

/// Why a line is left out.
#[derive(Clone, Copy, Debug, PartialEq, Eq)]
pub enum NoticeFault {
    /// The file reader leaves the line out.
    Reading(Fault),
    /// The name of an extension is not valid.
    Name(NameFault),
    /// The loader refuses the line.
    Plan(PlanKind),
    /// The reader of queues refuses the line.
    Queue(QueueKind),
}

/// A note on a line of a file of queues, which is read as another line.
#[derive(Clone, Copy, Debug, PartialEq, Eq)]
pub enum QueueNote {
    /// A strategy that chooses at random is read as `ringall`.
    Random,
    /// A list of words has `inuse`: an agent that talks counts as a member here, and does not in Asterisk.
    InUse,
}

/// A notice on a line: a note, or a fault.
#[derive(Clone, Copy, Debug, PartialEq, Eq)]
pub enum Notice {
    /// A note of the file reader.
    Read(LineNote),
    /// A note of the loader.
    Loaded(NoteKind),
    /// A note on a line of a file of queues.
    Queue(QueueNote),
    /// A fault: the reason why the line is left out.
    Fault(NoticeFault),
}

/// The name of a note of the file reader.
fn note_name(note: LineNote) -> &'static str
    ensures { result.now ≡ spec.reading_note_name note }
{
    match note {
        LineNote::OpenComment => "OpenComment",
        LineNote::Exec => "Exec",
        LineNote::AfterHint => "AfterHint",
        LineNote::DoubleLabel => "DoubleLabel",
        LineNote::Hint => "Hint",
        LineNote::IgnorePat => "IgnorePat",
        LineNote::Switch => "Switch",
        LineNote::AutoFallThrough => "AutoFallThrough",
        LineNote::CallerId => "CallerId",
    }
}

/// The name of a note on a line of a file of queues.
fn queue_note_name(note: QueueNote) -> &'static str
    ensures { result.now ≡ spec.queue_note_name note }
{
    match note {
        QueueNote::Random => "Random",
        QueueNote::InUse => "InUse",
    }
}

/// The name of the fault `LeftOut`, with the kind of what this program leaves out.
fn left_out_name(word: Word) -> &'static str
    ensures { result.now ≡ spec.left_out_name word }
{
    match word {
        Word::Switch => "LeftOut Switch",
        Word::IgnorePat => "LeftOut IgnorePat",
        Word::CallerId => "LeftOut CallerId",
        Word::IncludeTimes => "LeftOut IncludeTimes",
        Word::Variable => "LeftOut Variable",
        Word::Hint => "LeftOut Hint",
        Word::OldForm => "LeftOut OldForm",
        Word::PriorityWord => "LeftOut PriorityWord",
    }
}

/// The name of a fault of the loader.
fn loader_name(kind: PlanKind) -> &'static str
    ensures { result.now ≡ spec.loader_name kind }
{
    match kind {
        PlanKind::LeftOut(word) => left_out_name(word),
        kind => kind.name(),
    }
}

/// The name of a fault of the file reader.
fn reading_name(fault: Fault) -> &'static str
    ensures { result.now ≡ (spec.reading_wording fault).name }
{
    match fault {
        Fault::IncludeDepth => "IncludeDepth",
        Fault::NotFound => "ReadFailed",
        Fault::TooLong => "TooLong",
        Fault::Line(kind) => kind.name(),
        Fault::OldForm => "OldForm",
        Fault::NoClock => "NoClock",
    }
}

/// The number of a fault of the file reader, if it has one.
fn reading_number(fault: Fault) -> Option<u8>
    ensures { result ≡ (spec.reading_wording fault).number }
{
    match fault {
        Fault::IncludeDepth | Fault::OldForm | Fault::NoClock => None,
        Fault::NotFound => Some(7),
        Fault::TooLong => Some(8),
        Fault::Line(kind) => Some(kind.code()),
    }
}

impl NoticeFault {
    ghost use Rattle.std.specs.Prelude.{◌≡◌};
    ghost use Rattle.dp_notices.specs.Notices.{fault_wording};

    /// The name of the fault, as it is printed. `LeftOut` is followed by the kind of what this program leaves out.
    pub fn name(self) -> &'static str
        ensures { result.now ≡ (fault_wording self).name }
    {
        match self {
            NoticeFault::Reading(fault) => reading_name(fault),
            NoticeFault::Name(fault) => fault.name(),
            NoticeFault::Plan(kind) => loader_name(kind),
            NoticeFault::Queue(kind) => kind.name(),
        }
    }

    /// The number of the fault, if it has one.
    pub fn number(self) -> Option<u8>
        ensures { result ≡ (fault_wording self).number }
    {
        match self {
            NoticeFault::Reading(fault) => reading_number(fault),
            NoticeFault::Name(fault) => Some(fault.code()),
            NoticeFault::Plan(kind) => Some(kind.code()),
            NoticeFault::Queue(kind) => Some(kind.code()),
        }
    }
}

impl Notice {
    ghost use Rattle.std.specs.Prelude.{◌≡◌};
    ghost use Rattle.dp_notices.specs.Notices.{is_fault, of_reading, wording};

    /// The name of the notice, as it is printed.
    pub fn name(self) -> &'static str
        ensures { result.now ≡ (wording self).name }
    {
        match self {
            Notice::Read(note) => note_name(note),
            Notice::Loaded(kind) => kind.name(),
            Notice::Queue(note) => queue_note_name(note),
            Notice::Fault(fault) => fault.name(),
        }
    }

    /// The number of the notice, if it is a fault that has one.
    pub fn number(self) -> Option<u8>
        ensures { result ≡ (wording self).number }
    {
        match self {
            Notice::Read(_) | Notice::Loaded(_) | Notice::Queue(_) => None,
            Notice::Fault(fault) => fault.number(),
        }
    }

    /// Whether it is a fault.
    pub fn is_fault(self) -> bool
        ensures { result ≡ is_fault self }
    {
        match self {
            Notice::Read(_) | Notice::Loaded(_) | Notice::Queue(_) => false,
            Notice::Fault(_) => true,
        }
    }

    /// The notice of a remark of the file reader.
    pub(crate) fn of_reading(kind: RemarkKind) -> Self
        ensures { result ≡ of_reading kind }
    {
        match kind {
            RemarkKind::Note(note) => Notice::Read(note),
            RemarkKind::Fault(fault) => Notice::Fault(NoticeFault::Reading(fault)),
        }
    }
}
