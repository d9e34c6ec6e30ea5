//! One dialplan machine for many threads: each call is one event under one lock, and one history records all calls.
#![tactic(auto)]

mod attend;
mod board;
mod difference;
mod entry;
mod fault;
mod history;
mod joining;
pub mod laws;
mod places;
mod presence;
mod seat;
mod seat_call;
mod session;
mod settle;
mod shared;
mod sheet;

pub use attend::{Attended, AttendedWhy, Gate};
pub use board::Board;
pub use difference::{Disagree, first_difference};
pub use dp_machine::{Event, Machine, NoMemory, Phase, Refusal, Reply, Text};
pub use entry::Entry;
pub use fault::SettleFault;
pub use history::History;
pub use seat::Seat;
pub use seat_call::SeatCall;
pub use session::Session;
pub use settle::{Back, Unsettled};
pub use shared::Shared;
