//! A table of applications by another author, over which cases run a machine. It keeps the laws as the program's own table does.
//!
//! This is only for tests.
#![tactic(auto)]

mod own_functions;
mod own_knowledge;
mod own_table;

pub use own_functions::OwnFunctions;
pub use own_table::{OwnApps, Ping, Stay};
