//! The place of a walk between two tokens.

use crate::text_value::TextValue;

/// The place of a walk between two tokens.
#[derive(Clone, Copy)]
pub enum WalkPlace<'a> {
    /// An operand must come next.
    Wanting,
    /// An operand was read, with this value.
    Holding(Option<TextValue<'a>>),
    /// The tokens are not an expression, whatever comes next.
    Failed,
}
