#![tactic(auto)]
//! Expressions as dialplans write them in `$[..]`, after the Asterisk documentation's page on expressions.
//!
//! ```text
//! expr  = and  { "|" and }
//! and   = cmp  { "&" cmp }
//! cmp   = sum  { ("=" | "!=" | "<" | "<=" | ">" | ">=") sum }
//! sum   = prod { ("+" | "-") prod }
//! prod  = unary { ("*" | "/" | "%") unary }
//! unary = ("-" | "!") unary | prim
//! prim  = word | quoted | "(" expr ")"
//! ```
//!
//! Operators group to the left. At most 32 parentheses and unary operators may be nested.

mod division;
mod expression;
mod fraction;
mod frame;
mod number;
mod operand;
mod operation;
mod operator;
mod reading;
mod stack;
mod text_value;
mod token;
mod value;
mod walk;
mod walk_place;

pub use expression::{evaluate, one_tree, one_value};
pub use reading::{ExpressionReading, asterisk_reading};
pub use std::alloc::AllocError as NoMemory;
pub use value::Value;
