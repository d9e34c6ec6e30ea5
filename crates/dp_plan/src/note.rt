//! The notes on loading a dialplan: lines that are dropped, and includes of unknown contexts.
ghost use Rattle.std.specs.Prelude.{◌≡◌};
ghost use Rattle.dp_plan.specs.Codes.{note_name};

/// The kind of a note on a line.
#[derive(Clone, Copy, Debug, PartialEq, Eq)]
pub enum NoteKind {
    /// A kept earlier line has the extension and the priority: the line is dropped (this program's choice).
    DoublePriority,
    /// A kept earlier line of the extension has the label: the line is dropped (this program's choice).
    DoubleLabel,
    /// No context has the included name: the include is kept and finds nothing (this program's choice).
    UnknownContext,
    /// A context has no such key, or the key of a global variable is empty: the line is dropped (this program's choice).
    UnknownKey,
}

impl NoteKind {
    /// The name of the note, as it is printed.
    pub fn name(self) -> &'static str
        ensures { result.now ≡ note_name self }
    {
        match self {
            NoteKind::DoublePriority => "DoublePriority",
            NoteKind::DoubleLabel => "DoubleLabel",
            NoteKind::UnknownContext => "UnknownContext",
            NoteKind::UnknownKey => "UnknownKey",
        }
    }
}

/// A line, counted from 1, and what the note says of it.
#[derive(Clone, Copy, Debug, PartialEq, Eq)]
pub struct Note {
    pub line: usize,
    pub kind: NoteKind,
}
