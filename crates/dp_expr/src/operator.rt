//! The operators of expressions.

ghost use Rattle.std.specs.Prelude.{◌≡◌};
ghost use Rattle.dp_expr.specs.Trees.{level_of};

/// An operator between two operands. `||`, `&&` and `==` are other spellings of the first three.
#[derive(Clone, Copy, PartialEq, Eq)]
pub enum Operator {
    Or,
    And,
    Equal,
    NotEqual,
    LessThan,
    AtMost,
    MoreThan,
    AtLeast,
    Plus,
    Minus,
    Times,
    Over,
    Remainder,
}

impl Operator {
    /// How tightly the operator binds.
    pub fn level(self) -> u8
        ensures { result ≡ level_of self }
    {
        match self {
            Operator::Or => 1,
            Operator::And => 2,
            Operator::Equal
            | Operator::NotEqual
            | Operator::LessThan
            | Operator::AtMost
            | Operator::MoreThan
            | Operator::AtLeast => 3,
            Operator::Plus | Operator::Minus => 4,
            Operator::Times | Operator::Over | Operator::Remainder => 5,
        }
    }
}

/// An operator before its only operand.
#[derive(Clone, Copy, PartialEq, Eq)]
pub enum Prefix {
    Negate,
    Not,
}
