//! The call queues of an exchange, after the Asterisk documentation's pages on queues.
#![tactic(auto)]

mod agent;
mod agents;
mod all_faults;
mod answering;
mod asking;
mod call;
mod change;
mod choice;
mod fault;
mod file;
mod freeing;
mod join;
mod joining;
mod member;
mod members;
mod membership;
mod offer;
mod places;
mod queue;
mod queue_list;
mod queues;
mod queues_loading;
mod setting;
mod settings;
mod standing;
mod waiting_seat;

pub use agent::{Agent, AgentState};
pub use all_faults::{queue_faults, show_faultless_lines_stand_alone, show_faults_decide_loading};
pub use call::Call;
pub use change::{Added, Removed};
pub use dp_conf::{NoMemory, Text};
pub use fault::{OfferFault, QueueFault, QueueKind, QueueLoadKind};
pub use join::Join;
pub use member::Member;
pub use offer::Offered;
pub use queue::Queue;
pub use queues::Queues;
pub use settings::{EmptyRule, Settings, Strategy};
