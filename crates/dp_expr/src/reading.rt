//! The value of an expression in Asterisk, compared with its value here.

ghost use Rattle.std.specs.Prelude.{◌≡◌, IfOk, is_some, unwrap_or, None, []};
ghost use Rattle.dp_expr.specs.AsteriskReading.{asterisk_reading, reading_of, reading_without_tree, tree_reading, is_unknown_text};
ghost use Rattle.dp_expr.specs.Tokens.{tokens_of};
ghost use Rattle.dp_expr.specs.Trees.{Tree, IsTree};
ghost use Rattle.dp_expr.specs.Walk.{Wanting, walk, trees};
ghost use Rattle.dp_expr.specs.steps.Exact.{values_by};

use crate::division::Division;
use crate::fraction::has_fraction;
use crate::token::{has_foreign_mark, next_token};
use crate::{NoMemory, walk};
use std::alloc::Global;

/// The value of an expression in Asterisk, compared with its value here.
#[derive(Clone, Copy, Debug, PartialEq, Eq)]
pub enum ExpressionReading {
    /// The value that it has here.
    Value,
    /// `0`: the expression has a fault, and is not empty.
    Zero,
    /// The value in Asterisk is not known here.
    Unknown,
}

/// The value in Asterisk of the expression in a text.
///
/// The text may contain any bytes. The value is unknown for what the two evaluate in different ways: an expression with `:`, `=~`, `~~` or
/// `?` outside quotes, or with an operand that is a fraction, such as `1.5`; and an expression with a value here that contains a quotient
/// that is not whole, even on the side of `|` or `&` that is not chosen. Any other expression with a fault is `0`, unless it is empty.
/// `evaluate` gives the value.
///
/// It fails only if memory runs out.
pub fn asterisk_reading(alloc: Global, text: &[u8]) -> Result<ExpressionReading, NoMemory>
    // Given the text's one tree.
    ensures tree { (tree : Tree) → IsTree text.now tree
        → IfOk result (λ reading. reading ≡ reading_of tree) }
    // A text without a tree.
    ensures fault { ((tree : Tree) → ¬ (IsTree text.now tree))
        → IfOk result (λ reading. reading ≡ reading_without_tree text.now) }
    // The same, given by a function.
    ensures exact { IfOk result (λ reading. reading ≡ asterisk_reading text.now) }
{
    if is_unknown_text(text) {
        return Ok(ExpressionReading::Unknown);
    }
    match next_token(text) {
        Some(_) => tree_reading(alloc, text),
        None => Ok(ExpressionReading::Value),
    }
}

/// Whether the reading is unknown whatever the value of the text is.
fn is_unknown_text(text: &[u8]) -> bool
    ensures { result ≡ is_unknown_text text.now }
{
    has_foreign_mark(text) || has_fraction(text)
}

/// The reading, given the value here and whether some quotient is not whole.
fn tree_reading(alloc: Global, text: &[u8]) -> Result<ExpressionReading, NoMemory>
    ensures { IfOk result (λ reading.
        reading ≡ tree_reading (walk trees (Wanting []) (tokens_of text.now))) }
{
    if has_value(alloc, text, Division::Exact)? {
        Ok(ExpressionReading::Value)
    } else if has_value(alloc, text, Division::Cut)? {
        Ok(ExpressionReading::Unknown)
    } else {
        Ok(ExpressionReading::Zero)
    }
}

/// Whether the text has a value with that kind of division.
fn has_value(alloc: Global, text: &[u8], division: Division) -> Result<bool, NoMemory>
    ensures { IfOk result (λ has. has
        ≡ is_some (unwrap_or (walk (values_by division) (Wanting []) (tokens_of text.now)) None)) }
{
    Ok(walk::value(alloc, text, division)?.is_some())
}
