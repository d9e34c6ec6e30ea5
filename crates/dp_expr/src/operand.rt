//! The operands of a text.

ghost use Rattle.std.specs.Prelude.{◌≡◌};
ghost use Rattle.dp_expr.specs.Numbers.{number_of};

use crate::number::number_of;

/// An operand as written in the text, and the number that it writes, if it writes one.
#[derive(Clone, Copy)]
pub struct Operand<'a> {
    pub text: &'a [u8],
    pub number: Option<i64>,
    ghost read: { number ≡ number_of text.now },
}

impl<'a> Operand<'a> {
    /// The operand with this text. The number is read once, so that no later step reads the bytes for it again.
    pub fn new(text: &'a [u8]) -> Self
        ensures { result.text.now ≡ text.now }
    {
        let number = number_of(text);
        Operand { text, number }
    }
}
