//! Which entries a phone call that comes in at a context may run: the search for them, the proof about them, and the report on them.
#![tactic(auto)]

mod answer;
mod ask;
mod ask_parts;
mod chain;
mod head;
mod jumps;
mod names;
mod ranges;
mod reach_answer;
mod reach_entries;
mod report;
mod route;
mod search;
mod terms;
mod text;
mod text_lines;
mod trails;
mod turned_orders;
mod ways;

pub use ask::Ask;
pub use reach_answer::{ReachAnswer, ReachFinding, ReachedContext, answer_on};
pub use reach_entries::reached_entries;
pub use report::{Report, report_on};
