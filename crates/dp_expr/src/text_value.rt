//! The texts that expressions have as values.

ghost use Rattle.std.specs.Prelude.{◌≡◌};
ghost use Rattle.std.specs.Cmp.Lexicographic.{slice_cmp};
ghost use Rattle.std.specs.Ordering.{nat_cmp};
ghost use Rattle.dp_expr.specs.Numbers.{number_of};
ghost use Rattle.dp_expr.specs.Values.{is_zero, is_false, order_of, truth};
ghost use Rattle.dp_expr.specs.steps.Texts.{text_seen};

use crate::operand::Operand;
use itoa::Buffer;
use std::cmp::Ordering;

/// The value of an expression without a fault. It borrows from the text and never allocates.
#[derive(Clone, Copy)]
pub enum TextValue<'a> {
    /// An operand as written.
    Written(Operand<'a>),
    /// A computed number, in decimal.
    Computed(i64),
}

impl<'a> TextValue<'a> {
    /// The text `1` or `0`.
    pub fn truth(holds: bool) -> Self
        ensures { text_seen result ≡ truth holds }
    {
        if holds {
            TextValue::Computed(1)
        } else {
            TextValue::Computed(0)
        }
    }

    /// The number that the text writes, if it writes one.
    pub fn number(&self) -> Option<i64>
        ensures { result ≡ number_of (text_seen self.now) }
    {
        match self {
            TextValue::Written(operand) => operand.number,
            TextValue::Computed(number) => Some(*number),
        }
    }

    /// Whether the text is empty, or a number equal to zero.
    #[tactic(auto, unfolding(crate::specs::Values::is_false))]
    pub fn is_false(&self) -> bool
        ensures { result ≡ is_false (text_seen self.now) }
    {
        match self {
            TextValue::Written(operand) => operand.text.is_empty() || is_zero(operand.number),
            TextValue::Computed(number) => is_zero(Some(*number)),
        }
    }

    /// The order of two texts: as numbers if both are numbers, else by bytes.
    pub fn order(&self, other: &Self) -> Ordering
        ensures { result ≡ order_of (text_seen self.now) (text_seen other.now) }
    {
        let Some(left) = self.number() else {
            return self.order_of_bytes(other);
        };
        let Some(right) = other.number() else {
            return self.order_of_bytes(other);
        };
        left.cmp(&right)
    }

    fn order_of_bytes(&self, other: &Self) -> Ordering
        ensures { result ≡ slice_cmp nat_cmp (text_seen self.now) (text_seen other.now) }
    {
        match self {
            TextValue::Written(operand) => other.order_after(operand.text),
            TextValue::Computed(number) => other.order_after(
                Buffer::new().format(*number).as_bytes(),
            ),
        }
    }

    /// The order of these bytes relative to the text.
    fn order_after(&self, bytes: &[u8]) -> Ordering
        ensures { result ≡ slice_cmp nat_cmp bytes.now (text_seen self.now) }
    {
        match self {
            TextValue::Written(operand) => bytes.cmp(operand.text),
            TextValue::Computed(number) => bytes.cmp(Buffer::new().format(*number).as_bytes()),
        }
    }
}

fn is_zero(number: Option<i64>) -> bool
    ensures { result ≡ is_zero number }
{
    number == Some(0)
}
