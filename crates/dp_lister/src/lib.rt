//! The lister, which writes the canonical text of a dialplan.
#![tactic(auto)]

mod listing;
mod sink;
mod whole;

pub use dp_plan::{Dialplan, NoMemory};
pub use listing::{list, list_to, listings_load_again};
pub use sink::ListingSink;
