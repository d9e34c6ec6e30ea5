//! What answers differently after a change of a dialplan: for each context, the entries with which it answers before and after the change.
//! Which entries are compared, and how the differences are printed, is this program's own choice.
#![tactic(auto)]

mod diff;
mod fault;
pub mod laws;
mod place;
mod reaches;
mod searcher;
mod sheet;
mod telling;

pub use diff::write_differences;
pub use dp_plan::{Dialplan, EntryId, NoMemory};
pub use fault::DiffFault;
pub use reaches::{PlanReach, write_reach_changes};
