//! A picture of a dialplan in the DOT language of Graphviz: its contexts as boxes, with the includes and jumps between them. What the picture
//! has is this program's own choice.
#![tactic(auto)]

mod arrow;
mod arrows;
mod boxes;
mod exec_if;
mod exit;
mod extensions;
mod fault;
mod graph;
mod inclusions;
mod jumps;
mod label;
pub mod laws;
mod names;
mod shade;
mod shading;

pub use dp_plan::{Dialplan, EntryId, NoMemory, Text};
pub use exit::QueueExit;
pub use fault::GraphFault;
pub use graph::{picture_text, write_graph};
pub use shading::Shading;
