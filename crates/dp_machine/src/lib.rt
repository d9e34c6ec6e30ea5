//! The dialplan machine: channels that step through the priorities of a dialplan, wait in its queues and come to an end, one event after
//! another, over any lawful table of applications.
#![tactic(auto)]

mod agents;
mod ahead;
mod assigning;
mod channel;
mod channel_event;
mod channel_numbers;
mod channel_view;
mod dial_status;
mod dialling;
mod directory;
mod ending;
mod event;
mod exchange;
pub mod laws;
mod machine;
mod queues;
mod redirect;
mod refusal;
mod reload;
mod reply;
mod shared_state;
mod starting;
mod step;
mod target;
mod templates;
mod unknown;
mod waiting;

pub use channel::Channel;
pub use dial_status::DialStatus;
pub use dp_app::{Exten, Phase, Place};
pub use dp_plan::{Dialplan, EntryId, NoMemory, SharedText, Text};
pub use dp_queue::Queues;
pub use dp_vars::Expanded;
pub use event::Event;
pub use machine::Machine;
pub use refusal::Refusal;
pub use reply::Reply;
pub use shared_state::expand_by_globals;
pub use starting::MOST_CHANNELS;
pub use unknown::Unknown;
