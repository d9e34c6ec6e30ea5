//! The results of operators. A value is a text, or none for a fault.

ghost use Rattle.std.specs.Prelude.{◌≡◌};
ghost use Rattle.dp_expr.specs.Numbers.{decimal_text};
ghost use Rattle.dp_expr.specs.Values.{either, both, value_between, text_between, arithmetic, result_of, quotient, remainder, negation, value_before};
ghost use Rattle.dp_expr.specs.steps.Texts.{text_seen, value_seen};
ghost use Rattle.dp_expr.specs.Quotients.{is_rest, leaves_rest};
ghost use Rattle.dp_expr.specs.steps.Exact.{between_by, exact_between};

use crate::division::Division;
use crate::operator::{Operator, Prefix};
use crate::text_value::TextValue;

/// The value of a binary operator between two values, with the given kind of division.
pub fn between_by<'a>(
    division: Division,
    operator: Operator,
    left: Option<TextValue<'a>>,
    right: Option<TextValue<'a>>,
) -> Option<TextValue<'a>>
    ensures { value_seen result
        ≡ between_by division operator (value_seen left.entry) (value_seen right.entry) }
{
    match division {
        Division::Cut => between(operator, left, right),
        Division::Exact => exact_between(operator, left, right),
    }
}

/// The same, but a quotient that is not whole is a fault.
fn exact_between<'a>(
    operator: Operator,
    left: Option<TextValue<'a>>,
    right: Option<TextValue<'a>>,
) -> Option<TextValue<'a>>
    ensures { value_seen result
        ≡ exact_between operator (value_seen left.entry) (value_seen right.entry) }
{
    if leaves_rest(operator, left, right) {
        None
    } else {
        between(operator, left, right)
    }
}

/// Whether the operator is a division of two numbers with a remainder.
fn leaves_rest(
    operator: Operator,
    left: Option<TextValue<'_>>,
    right: Option<TextValue<'_>>,
) -> bool
    ensures { result ≡ leaves_rest operator (value_seen left.entry) (value_seen right.entry) }
{
    match operator {
        Operator::Over => is_rest(between(Operator::Remainder, left, right)),
        Operator::Or
        | Operator::And
        | Operator::Equal
        | Operator::NotEqual
        | Operator::LessThan
        | Operator::AtMost
        | Operator::MoreThan
        | Operator::AtLeast
        | Operator::Plus
        | Operator::Minus
        | Operator::Times
        | Operator::Remainder => false,
    }
}

/// Whether there is a remainder that is not zero.
fn is_rest(remainder: Option<TextValue<'_>>) -> bool
    ensures { result ≡ is_rest (value_seen remainder.entry) }
{
    match remainder {
        Some(rest) => !rest.is_false(),
        None => false,
    }
}

/// The value of a binary operator between two values. A fault on either side is a fault of the whole.
fn between<'a>(
    operator: Operator,
    left: Option<TextValue<'a>>,
    right: Option<TextValue<'a>>,
) -> Option<TextValue<'a>>
    ensures { value_seen result ≡ value_between operator (value_seen left.entry) (value_seen right.entry) }
{
    let left = left?;
    let right = right?;
    text_between(operator, left, right)
}

fn text_between<'a>(
    operator: Operator,
    left: TextValue<'a>,
    right: TextValue<'a>,
) -> Option<TextValue<'a>>
    ensures { value_seen result ≡ text_between operator (text_seen left.entry) (text_seen right.entry) }
{
    match operator {
        Operator::Or => Some(either(left, right)),
        Operator::And => Some(both(left, right)),
        Operator::Equal => Some(TextValue::truth(left.order(&right).is_eq())),
        Operator::NotEqual => Some(TextValue::truth(left.order(&right).is_ne())),
        Operator::LessThan => Some(TextValue::truth(left.order(&right).is_lt())),
        Operator::AtMost => Some(TextValue::truth(left.order(&right).is_le())),
        Operator::MoreThan => Some(TextValue::truth(left.order(&right).is_gt())),
        Operator::AtLeast => Some(TextValue::truth(left.order(&right).is_ge())),
        Operator::Plus | Operator::Minus | Operator::Times | Operator::Over | Operator::Remainder =>
            arithmetic(operator, &left, &right),
    }
}

/// The left side unless it is false, else the right side.
fn either<'a>(left: TextValue<'a>, right: TextValue<'a>) -> TextValue<'a>
    ensures { text_seen result ≡ either (text_seen left.entry) (text_seen right.entry) }
{
    if left.is_false() { right } else { left }
}

/// The left side if neither is false, else `0`.
fn both<'a>(left: TextValue<'a>, right: TextValue<'a>) -> TextValue<'a>
    ensures { text_seen result ≡ both (text_seen left.entry) (text_seen right.entry) }
{
    if left.is_false() || right.is_false() {
        TextValue::truth(false)
    } else {
        left
    }
}

fn arithmetic<'a>(
    operator: Operator,
    left: &TextValue<'_>,
    right: &TextValue<'_>,
) -> Option<TextValue<'a>>
    ensures { value_seen result ≡ arithmetic operator (text_seen left.now) (text_seen right.now) }
{
    let left = left.number()?;
    let right = right.number()?;
    decimal_text(result_of(operator, left, right))
}

/// The text of a number in range.
fn decimal_text<'a>(number: Option<i64>) -> Option<TextValue<'a>>
    ensures { value_seen result ≡ decimal_text number }
{
    Some(TextValue::Computed(number?))
}

fn result_of(operator: Operator, left: i64, right: i64) -> Option<i64>
    ensures { result ≡ result_of operator left right }
{
    match operator {
        Operator::Plus => left.checked_add(right),
        Operator::Minus => left.checked_sub(right),
        Operator::Times => left.checked_mul(right),
        Operator::Over => quotient(left, right),
        Operator::Remainder => remainder(left, right),
        Operator::Or
        | Operator::And
        | Operator::Equal
        | Operator::NotEqual
        | Operator::LessThan
        | Operator::AtMost
        | Operator::MoreThan
        | Operator::AtLeast => None,
    }
}

fn quotient(left: i64, right: i64) -> Option<i64>
    ensures { result ≡ quotient left right }
{
    left.checked_div(right)
}

fn remainder(left: i64, right: i64) -> Option<i64>
    ensures { result ≡ remainder left right }
{
    if right == 0 {
        None
    } else {
        Some(left.wrapping_rem(right))
    }
}

/// The value of a unary operator before a value. A fault stays a fault.
pub fn before<'a>(prefix: Prefix, operand: Option<TextValue<'a>>) -> Option<TextValue<'a>>
    ensures { value_seen result ≡ value_before prefix (value_seen operand.entry) }
{
    let operand = operand?;
    match prefix {
        Prefix::Negate => negation(operand.number()),
        Prefix::Not => Some(TextValue::truth(operand.is_false())),
    }
}

fn negation<'a>(number: Option<i64>) -> Option<TextValue<'a>>
    ensures { value_seen result ≡ negation number }
{
    decimal_text(number?.checked_neg())
}
