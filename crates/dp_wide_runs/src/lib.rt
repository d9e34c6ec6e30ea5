//! The commands over the wide table: runs of a script that states facts, which stop before anything unknown, with a debugger or without,
//! and audits for some kinds of findings.
#![tactic(auto)]

mod audit_findings;
mod beginning;
mod debug;
mod functions_called;
mod kinds;
pub mod laws;
mod manner;
mod mentions;
mod own_line;
mod run;
mod taker;
mod verbose;
mod wide_audit;
mod wide_finding;
mod wide_lines;
mod wide_targets;
mod wide_turn;

pub use audit_findings::find_told;
pub use debug::{debug_wide, debug_wide_verbose};
pub use kinds::{AuditChoice, KindChoice, are_kinds};
pub use run::run_wide;
pub use verbose::run_wide_verbose;
pub use wide_audit::audit_by;
pub use wide_finding::WideFinding;
pub use wide_lines::WideLines;
pub use wide_turn::WideTurn;
