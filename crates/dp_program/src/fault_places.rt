//! Faults and their places.
ghost use Rattle.std.specs.Prelude.{◌≡◌};
ghost use Rattle.std.specs.Option.{option_map};
ghost use Rattle.dp_program.specs.Faulted as spec;
ghost use Rattle.dp_program.specs.Texts.{paths_of, texts_of};

use crate::request::RunFiles;
use crate::texts::{TextWithPath, Texts};
use dp_commands::{Code, FileLine, PbxFault};

/// The place of a fault.
#[derive(Debug, Drop)]
pub enum FaultPlace<'a> {
    /// In a line of a file that was read.
    InLine(FileLine<'a>),
    /// In the file at this path, which could not be read.
    InFile(&'a str),
    /// In no file.
    Nowhere,
}

/// A fault, and its place.
#[derive(Debug, Drop)]
pub struct Faulted<'a> {
    pub fault: PbxFault,
    pub place: FaultPlace<'a>,
}

impl<'a> From<PbxFault> for Faulted<'a> {
    ghost use Rattle.std.specs.Prelude.{◌≡◌};
    ghost use Rattle.dp_program.specs.Faulted.{nowhere};

    ghost from_gives = { λ fault faulted. faulted ≡ nowhere fault };

    fn from(fault: PbxFault) -> Self {
        Faulted {
            fault,
            place: FaultPlace::Nowhere,
        }
    }
}

/// Why the file at a path could not be read.
#[derive(Clone, Copy, Debug)]
pub(crate) struct Unread<'a> {
    pub(crate) path: &'a str,
    pub(crate) fault: PbxFault,
}

/// The place of the fault of a file that could not be read.
fn place_unread<'a>(unread: Unread<'a>) -> FaultPlace<'a>
    ensures { result ≡ spec.place_unread unread.entry unread.entry.fault }
{
    match unread.fault {
        PbxFault::Coded { code: _, line: _ } => FaultPlace::InFile(unread.path),
        PbxFault::NoMemory => FaultPlace::Nowhere,
    }
}

impl<'a> From<Unread<'a>> for Faulted<'a> {
    ghost use Rattle.std.specs.Prelude.{◌≡◌};
    ghost use Rattle.dp_program.specs.Faulted.{unread_fault};

    ghost from_gives = { λ unread faulted. faulted ≡ unread_fault unread };

    fn from(unread: Unread<'a>) -> Self {
        Faulted {
            fault: unread.fault,
            place: place_unread(unread),
        }
    }
}

/// The place of a fault in the text of a file.
fn place_in_file<'a>(path: &'a str, text: &[u8], fault: PbxFault) -> FaultPlace<'a>
    ensures { spec.place_of result ≡ spec.place_in_file path.now text.now fault }
{
    match fault {
        PbxFault::Coded {
            code: _,
            line: Some(number),
        } => FaultPlace::InLine(FileLine::at(path, text, number)),
        PbxFault::Coded {
            code: _,
            line: None,
        } => FaultPlace::Nowhere,
        PbxFault::NoMemory => FaultPlace::Nowhere,
    }
}

/// A result for the text of a file, with the place of its fault.
pub(crate) fn with_place<'a, T>(
    path: &'a str,
    text: &[u8],
    answered: Result<T, PbxFault>,
) -> Result<T, Faulted<'a>>
    ensures same { spec.without_place result ≡ answered }
    ensures stands { spec.StandsIn (spec.place_in_file path.now text.now) result }
{
    match answered {
        Ok(answer) => Ok(answer),
        Err(fault) => Err(Faulted {
            fault,
            place: place_in_file(path, text, fault),
        }),
    }
}

/// The place of a fault in an optional file.
fn place_in_named<'a>(path: Option<&'a str>, text: Option<&[u8]>, fault: PbxFault) -> FaultPlace<'a>
    ensures { spec.place_of result ≡ spec.place_in (spec.named_file (option_map (λ path. path.now) path.entry)
        (option_map (λ text. text.now) text.entry)) fault }
{
    match (path, text) {
        (Some(path), Some(text)) => place_in_file(path, text, fault),
        _ => FaultPlace::Nowhere,
    }
}

/// The place of a fault in the texts of a run.
fn place_in_files<'a>(run: &RunFiles<'a>, texts: &Texts, fault: PbxFault) -> FaultPlace<'a>
    ensures { spec.place_of result ≡ spec.place_in_files (paths_of run.now) (texts_of texts.now) fault }
{
    let PbxFault::Coded { code, line: _ } = fault else {
        return FaultPlace::Nowhere;
    };
    match code {
        Code::Line(_) | Code::Name(_) | Code::Plan(_) => {
            place_in_file(run.plan, &texts.plan, fault)
        }
        Code::QueueLine(_) | Code::Queue(_) => {
            place_in_named(run.queues, texts.queues.as_deref(), fault)
        }
        Code::BadScript => place_in_file(run.script, &texts.script, fault),
        Code::ReadFailed | Code::TooLong | Code::WriteFailed | Code::Settle(_) | Code::BadBreak =>
            FaultPlace::Nowhere,
    }
}

/// A result for the texts of a run, with the place of its fault.
pub(crate) fn placed_in_run<'a, T>(
    run: &RunFiles<'a>,
    texts: &Texts,
    answered: Result<T, PbxFault>,
) -> Result<T, Faulted<'a>>
    ensures same { spec.without_place result ≡ answered }
    ensures stands { spec.StandsIn (spec.place_in_files (paths_of run.now) (texts_of texts.now)) result }
{
    match answered {
        Ok(status) => Ok(status),
        Err(fault) => Err(Faulted {
            fault,
            place: place_in_files(run, texts, fault),
        }),
    }
}

/// The place of a fault in the texts of a dialplan and of queues.
fn place_in_two<'a>(
    plan: &TextWithPath<'a>,
    queues: &TextWithPath<'a>,
    fault: PbxFault,
) -> FaultPlace<'a>
    ensures { spec.place_of result ≡ spec.place_in_two (plan.now.path.now, plan.now.text.items)
        (queues.now.path.now, queues.now.text.items) fault }
{
    let PbxFault::Coded { code, line: _ } = fault else {
        return FaultPlace::Nowhere;
    };
    match code {
        Code::Line(_) | Code::Name(_) | Code::Plan(_) => {
            place_in_file(plan.path, &plan.text, fault)
        }
        Code::QueueLine(_) | Code::Queue(_) => place_in_file(queues.path, &queues.text, fault),
        Code::ReadFailed
        | Code::TooLong
        | Code::WriteFailed
        | Code::Settle(_)
        | Code::BadScript
        | Code::BadBreak => FaultPlace::Nowhere,
    }
}

/// A result for the texts of a dialplan and of queues, with the place of its fault.
pub(crate) fn placed_in_two<'a, T>(
    plan: &TextWithPath<'a>,
    queues: &TextWithPath<'a>,
    answered: Result<T, PbxFault>,
) -> Result<T, Faulted<'a>>
    ensures same { spec.without_place result ≡ answered }
    ensures stands { spec.StandsIn (spec.place_in_two (plan.now.path.now, plan.now.text.items)
        (queues.now.path.now, queues.now.text.items)) result }
{
    match answered {
        Ok(answer) => Ok(answer),
        Err(fault) => Err(Faulted {
            fault,
            place: place_in_two(plan, queues, fault),
        }),
    }
}

/// A result whose fault has no place in a file.
pub(crate) fn placed_nowhere<'a, T>(answered: Result<T, PbxFault>) -> Result<T, Faulted<'a>>
    ensures same { spec.without_place result ≡ answered }
    ensures stands { spec.StandsIn (λ _. spec.in_none) result }
{
    match answered {
        Ok(given) => Ok(given),
        Err(fault) => Err(Faulted::from(fault)),
    }
}
