//! The tail of a pattern: the part after its classes.

/// The tail of a pattern: the part after its classes, and so what may come after them in a text.
#[derive(Clone, Copy, Debug, PartialEq, Eq)]
pub enum Tail {
    /// No tail: the text ends with the classes.
    End,
    /// `.`: one or more characters come after.
    Dot,
    /// `!`: zero or more characters come after.
    Bang,
}
