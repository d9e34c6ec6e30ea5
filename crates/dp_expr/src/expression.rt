//! The value of an expression. There is at most one.

ghost use Rattle.std.specs.Prelude.{◌≡◌, ◌↔◌, ℕ, List, [], IfOk};
ghost use Rattle.dp_expr.specs.Tokens.{tokens_of};
ghost use Rattle.dp_expr.specs.steps.Texts.{value_seen};
ghost use Rattle.dp_expr.specs.Trees.{Tree, IsTree};
ghost use Rattle.dp_expr.specs.Values.{value_of, answer};
ghost use Rattle.dp_expr.specs.Expression.{IsValue, expression_value};

use crate::division::Division;
use crate::value::Value;
use crate::{NoMemory, walk};
use std::alloc::Global;

/// The value of the expression in a text, or the empty text for a fault.
///
/// The text may contain any bytes. A fault is a text that the grammar does not allow, more than 32 nested parentheses and unary operators,
/// an operand of arithmetic that is not a number, a result outside signed 64 bits, or a divisor that is zero. A fault anywhere, even on the
/// side of `|` or `&` that is not chosen, is a fault of the whole.
///
/// Grammar and operators follow the Asterisk documentation's page on expressions. These are choices of this program: a fault gives the
/// empty text, the limits, texts are ordered by bytes, the rank of the unary operators, and quotes stay.
///
/// It fails only if memory runs out.
pub fn evaluate(alloc: Global, text: &[u8]) -> Result<Value, NoMemory>
    // The value of the text's one tree.
    ensures value { (tree : Tree) → IsTree text.now tree
        → IfOk result (λ value. value ≡ answer (value_of tree)) }
    // A text without a tree.
    ensures fault { ((tree : Tree) → ¬ (IsTree text.now tree)) → IfOk result (λ value. value ≡ []) }
    // The same, given by a function.
    ensures exact { IfOk result (λ value. value ≡ expression_value text.now) }
{
    match walk::value(alloc, text, Division::Cut)? {
        Some(value) => Value::of(alloc, &value),
        None => Ok(Value::empty(alloc)),
    }
}

/// Every text reads as at most one tree.
pub fn one_tree()
    ensures { (text : List ℕ) (first second : Tree) → IsTree text first → IsTree text second
        → first ≡ second }
{}

/// Every text has exactly one value: that of its tree, or the empty text if it has none.
pub fn one_value()
    ensures { (text bytes : List ℕ) → IsValue text bytes ↔ (bytes ≡ expression_value text) }
{}
