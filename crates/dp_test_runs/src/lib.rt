//! Runs of the tests of dialplans: the events that a test gives the machine with the steps that follow each, and whether what it expects
//! comes true.
#![tactic(auto)]

mod course;
mod coverage;
mod failure;
mod items;
pub mod laws;
mod lines;
mod named_text;
mod points;
mod queue_claims;
mod ran_claims;
mod ran_entries;
mod reloads;
mod settling;
mod showing;
mod sources;
mod state_claims;
mod tap;
mod test_run;
mod traces;
mod turns;
mod value_claims;
mod verdict;

pub use course::PlanChange;
pub use coverage::{CoveredPlan, EntryCoverage, cover_entries, coverage_text};
pub use dp_commands::PbxFault;
pub use dp_plan::NoMemory;
pub use failure::{Failure, FailureKind};
pub use items::RunItems;
pub use named_text::NamedFileText;
pub use points::{TestedFile, add_entered, has_failed, run_tests};
pub use ran_entries::{RanEntries, RanEntry};
pub use tap::{FailureReport, Point, tap_text};
pub use test_run::{TestResult, TestTexts, run_test};
