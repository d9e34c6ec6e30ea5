//! The applications of this program as one table.
#![tactic(auto)]

mod standard;

pub use standard::StandardApps;
