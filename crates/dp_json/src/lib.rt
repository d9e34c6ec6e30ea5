//! What `check`, `match`, `audit`, `reach` and `test` find, as JSON for other tools: an object on a line of its own for each line that the command prints
//! otherwise.
//!
//! ```text
//! LINE  = '{' FIELD (',' FIELD)* '}' LINE-FEED
//! FIELD = STRING ':' (STRING | NUMBER)
//! ```
//!
//! The first field of each object is `type`, with a word for what the object tells of. A field that does not apply is left out. Which
//! fields an object has is this program's own choice. So is how a text is written that is not UTF-8: its bytes count as characters of
//! Latin-1.
#![tactic(auto)]

mod entry;
mod findings;
mod joining;
pub mod laws;
mod matching;
mod notes;
mod notices;
mod object;
mod reaches;
mod string;
mod tests;
mod wide_findings;

pub use dp_answer::{Ask, ReachAnswer, ReachFinding, ReachedContext};
pub use dp_audit::{Candidate, Finding, Verdict};
pub use dp_files::SourceFile;
pub use dp_notices::{NotedLine, Notice, Shown};
pub use dp_plan::{Dialplan, EntryId, NoMemory, Note, NoteKind, Priority, Text};
pub use dp_wide_runs::WideFinding;
pub use findings::{push_finding_count, push_findings};
pub use matching::{push_candidates, push_match};
pub use notes::{push_notes, push_plan_counts};
pub use notices::{push_fault_count, push_notices, push_queue_count};
pub use reaches::push_reach;
pub use tests::{TestFailure, TestPoint, push_covered, push_never, push_test, push_test_count};
pub use wide_findings::push_wide_findings;
