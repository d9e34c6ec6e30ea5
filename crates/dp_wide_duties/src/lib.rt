//! What each application of the wide table owes, given the pieces of its arguments.
#![tactic(auto)]

mod arguments;
mod besides;
mod calling;
mod calls;
mod choices;
mod devices;
mod held_bytes;
pub mod laws;
mod macros;
mod naming;
mod options;
mod places;
mod rows;
mod settings;
mod table;
mod transfers;

pub use choices::duties;
pub use table::WideDuties;
