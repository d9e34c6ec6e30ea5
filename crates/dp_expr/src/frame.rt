//! The frames that wait for an operand during a walk.

ghost use Rattle.std.specs.Prelude.{◌≡◌, ◌+◌, ◌≤◌, ℕ};
ghost use Rattle.dp_expr.specs.steps.Texts.{value_seen};
ghost use Rattle.dp_expr.specs.declared.frame.Frame.TheVariants as frames;
ghost use Rattle.dp_expr.specs.Walk.{is_due, depth_with, value_under};
ghost use Rattle.dp_expr.specs.steps.Exact.{values_by};
ghost use Rattle.dp_expr.specs.steps.Frames.{frame_seen};

use crate::division::Division;
use crate::operation;
use crate::operator::{Operator, Prefix};
use crate::text_value::TextValue;

/// A frame, which waits for an operand.
#[derive(Clone, Copy)]
pub enum Frame<'a> {
    /// A binary operator with the value on its left.
    Left(Operator, Option<TextValue<'a>>),
    /// A unary operator.
    Front(Prefix),
    /// A parenthesis.
    Paren,
}

impl Default for Frame<'_> {
    ghost is_default = { λ frame. frame ≡ frames.Paren };

    /// An empty frame.
    fn default() -> Self {
        Frame::Paren
    }
}

impl<'a> Frame<'a> {
    /// Whether the frame takes its operand before an operator of that level does.
    pub fn is_due(&self, level: u8) -> bool
        ensures { result ≡ is_due level (frame_seen self.now) }
    {
        match self {
            Frame::Left(operator, _) => level <= operator.level(),
            Frame::Front(_) => true,
            Frame::Paren => false,
        }
    }

    /// The depth that the frame adds to what is inside it.
    pub fn depth(&self) -> usize
        ensures { (n : ℕ) → depth_with (frame_seen self.now) n ≡ n + result }
    {
        match self {
            Frame::Left(_, _) => 0,
            Frame::Front(_) | Frame::Paren => 1,
        }
    }

    /// The value of the frame with its operand.
    pub fn apply(self, operand: Option<TextValue<'a>>, division: Division) -> Option<TextValue<'a>>
        ensures { value_seen result
            ≡ value_under (values_by division) (frame_seen self.entry) (value_seen operand.entry) }
    {
        match self {
            Frame::Left(operator, left) => operation::between_by(division, operator, left, operand),
            Frame::Front(prefix) => operation::before(prefix, operand),
            Frame::Paren => operand,
        }
    }
}
