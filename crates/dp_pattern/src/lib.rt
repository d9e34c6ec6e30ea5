//! Names of extensions, after the Asterisk documentation's page on pattern matching.
//!
//! ```text
//! name    = plain | "_" pattern           a "-" outside sets is ignored
//! plain   = byte { byte }
//! pattern = { class } [ "." | "!" ]       at least a class or a wildcard
//! class   = "X" | "Z" | "N" | set | byte  X is 0 to 9, Z is 1 to 9, N is 2 to 9, in either case
//! set     = "[" item { item } "]"
//! item    = byte | byte "-" byte          two digits, two capitals or two small letters
//! ```
//!
//! A byte is 33 or more and neither 127 nor `\`. `.` means one or more characters and `!` any number of them; every other byte means
//! itself. The faults, dashes before the `_` and dashes in dialled text are this program's own choice.
#![tactic(auto)]

mod class;
mod class_members;
mod dashes;
mod fault;
mod matching;
mod name;
mod order;
mod reading;
mod spelling;
mod tail;
mod walk;
mod words;

pub use class::{Class, compare_classes};
pub use fault::{NameFault, PatternFault};
pub use matching::{could_match_more, matches};
pub use name::{Name, Parts, spelling_is_clean};
pub use order::{compare, order_is_total, same};
pub use std::alloc::AllocError as NoMemory;
pub use tail::Tail;
