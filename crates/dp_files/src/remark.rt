//! Remarks on lines.

use dp_conf::LineKind;

/// A note on a line. The rest of the file is read as if the note were not there.
#[derive(Clone, Copy, Debug, PartialEq, Eq)]
pub enum LineNote {
    /// A block comment that is open at the end of its file.
    OpenComment,
    /// `#exec`, which runs nothing here.
    Exec,
    /// A priority `n` after a hint, without a number between them: the exchange drops such a line.
    AfterHint,
    /// A label that an earlier line of the extension has: it is left out of its line.
    DoubleLabel,
    /// A hint, which no call reaches.
    Hint,
    /// A key `ignorepat`, which no call reaches.
    IgnorePat,
    /// A key `switch`, `lswitch` or `eswitch`: another exchange may have the extension.
    Switch,
    /// `autofallthrough=no` in the section `[general]`.
    AutoFallThrough,
    /// An extension with a caller's number after a `/`.
    CallerId,
}

/// Why a line is left out.
#[derive(Clone, Copy, Debug, PartialEq, Eq)]
pub enum Fault {
    /// An include in a file nested inside nine others.
    IncludeDepth,
    /// A file that does not exist or cannot be read, or a name with `*` or `?` that matches none.
    NotFound,
    /// More than 16,777,216 bytes of text or 100,000 files, or headers that copy more than 16,777,216 lines.
    TooLong,
    /// The line is not valid in a configuration file.
    Line(LineKind),
    /// A line `NAME,ARGUMENTS` instead of `NAME(ARGUMENTS)`.
    OldForm,
    /// An include with times, if no moment is given.
    NoClock,
}

/// A note or a fault.
#[derive(Clone, Copy, Debug, PartialEq, Eq)]
pub enum RemarkKind {
    Note(LineNote),
    Fault(Fault),
}

/// A remark on a line.
#[derive(Clone, Copy, Debug, PartialEq, Eq)]
pub struct LineRemark {
    /// The place of the line among the lines of all files.
    pub source: usize,
    pub kind: RemarkKind,
}
