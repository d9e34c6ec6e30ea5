//! Look-up in a dialplan through tries: each context has its plain names in order, and its patterns as a tree in which patterns share their
//! start.
//!
//! It finds what `dp_lookup` finds, after the Asterisk documentation's pages on the dialplan and on pattern matching.
#![tactic(auto)]

mod build;
mod context_table;
mod digits;
mod entry_question;
mod finder;
mod label_key;
mod labels;
mod leap;
mod link;
mod matching;
mod node;
mod orders;
mod plain;
mod ranked;
mod trie;
mod walk;

pub use dp_lookup::{Dialplan, EntryId, NoMemory, SearchOrder, Text};
pub use finder::Finder;
pub use trie::Trie;
