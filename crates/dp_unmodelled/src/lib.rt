//! The names of applications and functions that a run without `--asterisk` meets and that the program does not model.
#![tactic(auto)]

mod lines;
mod meeting;
mod memory_lines;
mod model_table;
mod report;

pub use report::{RunReport, run_reported, unmodelled_lines};
