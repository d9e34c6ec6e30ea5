//! Questions of an engineer about a dialplan before it goes live: which extensions match a dialled text, and what its writer may not have
//! meant. These questions go beyond Asterisk's own tools, and are this program's own choice.
#![tactic(auto)]

mod candidate;
mod cycle;
mod entry_place;
mod fall_through;
mod finder;
mod finding;
mod findings;
mod firsts;
mod gap;
mod hidden_entries;
mod jump;
mod labels;
mod loops;
mod marks;
mod missing;
mod names;
mod neighbours;
mod onward_names;
mod order;
mod pieces;
mod scene;
mod spelling;
mod successor;
mod target;
mod unset_variables;

pub use candidate::{Candidate, Verdict, candidates, ranked_is_the_ranking};
pub use dp_lookup::SearchOrder;
pub use dp_plan::{Dialplan, EntryId, NoMemory, Text};
pub use fall_through::{FallThrough, find_fall_throughs};
pub use finder::PlanFinder;
pub use finding::Finding;
pub use findings::audit;
pub use hidden_entries::hidden_is_never_found;
pub use jump::{Jump, JumpParts, Targets, jump_of, parts_of, parts_stand, targets_in};
pub use loops::{Loop, find_loops, loop_never_ends};
pub use missing::{Jumps, TargetAt, find_missing};
pub use names::AppNames;
pub use onward_names::OnwardNames;
pub use pieces::standing_label_is_never_unused;
pub use successor::priority_of;
pub use target::exten_of;
