//! What a command line asks of the program `pbx`, and the program's answer.
#![tactic(auto)]

mod audit_words;
mod check_words;
mod clock_words;
mod command_line;
mod commands;
mod help;
mod program;

pub use command_line::{Invocation, read_words};
pub use program::answer;
