//! The lines of the files that were read, and the lines made from them.

use crate::line_text::LineText;
use dp_conf::Text;

/// An opened file. Files are numbered from 0 in the order in which they are opened; one that is opened twice has two numbers.
#[derive(Debug, PartialEq, Eq, Drop)]
pub struct SourceFile {
    /// The name with which it was opened.
    pub name: Text,
    /// The place, among the lines of all files, of the line that includes the file. None for the first file.
    pub included_by: Option<usize>,
}

/// A line of a file.
#[derive(Debug, PartialEq, Eq, Drop)]
pub struct SourceLine {
    /// The number of its file.
    pub file: usize,
    /// Its number in the file, counted from 1.
    pub line: usize,
    /// Its bytes, without those in block comments.
    pub text: LineText,
}

/// A line of the text that is made.
#[derive(Debug, PartialEq, Eq, Drop)]
pub struct MadeLine {
    /// The place, among the lines of all files, of the line from which it is made.
    pub source: usize,
    /// Its bytes.
    pub text: LineText,
}
