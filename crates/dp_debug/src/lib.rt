//! A debugger of dialplans: a run of the machine that halts before a step at which a break holds.
#![tactic(auto)]

mod breaks;
mod debugger;
mod halt;
pub mod laws;

pub use breaks::{Break, first_before};
pub use debugger::Debugger;
pub use dp_machine::{Event, Machine, NoMemory, Place, Reply, Text};
pub use halt::{Halt, Why};
