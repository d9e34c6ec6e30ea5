//! The duties of each application, over any table that says them, and whether a claim about where channels may be is closed.
#![tactic(auto)]

mod area;
mod audit;
mod claim;
mod claim_check;
mod claim_names;
mod duty;
mod duty_table;
mod finding;
mod marks;
mod outside;
mod reach;
mod rows;
mod sets;
mod settings;
mod shapes;
mod standard;
mod subroutines;
mod targets;
mod waiting;

pub use area::KeptArea;
pub use audit::Audit;
pub use claim::KeptClaim;
pub use duty::{KeptDuty, push_area, push_name};
pub use duty_table::DutyTable;
pub use finding::{Meeting, found_shape, is_excluded};
pub use marks::Marks;
pub use outside::KeptOutside;
pub use reach::ReachShapes;
pub use rows::{duties, duties_by_arguments, push_duties};
pub use sets::{bytes_in, set_of};
pub use subroutines::{push_gosub, push_inside};
pub use targets::push_goto_if;
