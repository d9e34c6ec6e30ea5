//! Loading a dialplan: its global variables, and its contexts with their entries.
#![tactic(auto)]

mod all_faults;
mod application;
mod context;
mod context_name;
mod draft;
mod entry;
mod entry_line;
mod entry_lines;
mod extension;
mod fault;
mod known_applications;
mod label;
mod line_results;
mod lines;
mod naming;
mod note;
mod numbering;
mod numbers;
mod plan;
mod plan_loading;
mod priority;
mod ranking;
mod reader;
mod remark;
mod section;
mod shared_name;
mod shared_text;
mod taken_places;

pub use all_faults::{plan_faults, show_faultless_lines_stand_alone, show_faults_decide_loading};
pub use context::Context;
pub use dp_conf::{ConfFault, LineKind, NoMemory, ShallowText, Text};
pub use dp_pattern::{Name, NameFault};
pub use entry::{Entry, EntryId};
pub use entry_lines::EntryLines;
pub use extension::same_names_are_equal;
pub use fault::{LoadFault, LoadKind, PlanKind, Word};
pub use note::{Note, NoteKind};
pub use plan::{Dialplan, GlobalVariable, LoadedPlan, show_loaded_entries_known};
pub use priority::{MOST_PRIORITY, Priority};
pub use shared_name::SharedName;
pub use shared_text::SharedText;
