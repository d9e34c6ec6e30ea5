//! Variables of a dialplan and the texts that contain them, after the Asterisk documentation's pages on variables.
//!
//! A `Store` has the variables of a channel and its frames, and `Globals` has those that all channels share. A `Template` is a text with
//! groups, and `expand` replaces them with the values of a `Scope`. `Pieces` do the same for a text that is kept elsewhere, `expand_text`
//! for a text that was not read before, and `value_of` gives the value of a single name. The functions in groups are those of a table:
//! `StandardFunctions`, or with `expand_with` those of any `Functions`.
#![tactic(auto)]

mod binding_stack;
mod binding_table;
mod change;
mod expanding;
mod frame;
mod functions;
mod globals;
mod head;
pub mod laws;
mod local;
mod local_name;
mod naming;
mod opening;
mod parsing;
mod part;
mod pieces;
mod reference;
mod scope;
mod span;
mod store;
mod template;
mod text_piece;
mod value;
mod variables;

pub use change::Change;
pub use dp_conf::MOST_NESTING;
pub use dp_expr::ExpressionReading;
pub use expanding::{Expanded, group_value};
pub use functions::{FunctionName, FunctionValue, Functions, SetTarget, StandardFunctions};
pub use globals::Globals;
pub use local::Local;
pub use local_name::LocalName;
pub use opening::has_opening;
pub use part::{Reach, Selection, read_asked};
pub use pieces::Pieces;
pub use reference::value_of;
pub use scope::{ChannelSeen, Counts, Scope};
pub use store::Store;
pub use template::{
    Template, TemplateFault, expand, expand_text, expand_text_checked, expand_text_with,
    expand_with,
};
pub use value::{FoundValue, Function, function_of, held_value, is_set, variable};
