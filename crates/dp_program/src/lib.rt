//! What the program `pbx` does with a request, over files, an input and outputs that the caller gives.
#![tactic(auto)]

mod assumptions;
mod checks;
mod dialplans;
mod diffs;
mod entries;
mod fault;
mod fault_places;
mod files;
mod graphs;
mod hints;
mod including;
mod including_reports;
mod json_audits;
mod json_checks;
mod json_matches;
mod json_tests;
mod made_files;
mod nearest;
mod options;
mod plan_and_queues;
mod plan_coverage;
mod plan_pairs;
mod plan_questions;
mod program;
mod queue_texts;
mod reach_diffs;
mod reaches;
mod reported_runs;
mod reports;
mod request;
mod runs;
mod system_paths;
mod test_inputs;
mod test_pictures;
mod test_reports;
mod test_results;
mod test_suites;
mod texts;
mod verbose_runs;
mod wide_audits;
mod wide_debugs;
mod wide_runs;

pub use dp_commands::{Code, FileLine, PbxFault};
pub use dp_wide_runs::{AuditChoice, KindChoice, are_kinds};
pub use entries::{FaultNumber, entries_are_headed};
pub use fault::{finish, print_fault};
pub use fault_places::{FaultPlace, Faulted};
pub use files::ReadFiles;
pub use hints::ServedRequest;
pub use options::Options;
pub use program::serve;
pub use request::{
    CheckFiles, DiffFiles, GraphQuestion, Lookup, ReachDiffQuestion, ReachQuestion, Request,
    RunFiles,
};
