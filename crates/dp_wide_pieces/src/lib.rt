//! Unexpanded texts over the functions of the wide table, as pieces.
#![tactic(auto)]

mod computed_bytes;
pub mod laws;
mod wide_names;

pub use computed_bytes::function_bytes;
pub use wide_names::{WideNamesAt, read_wide_pieces};
