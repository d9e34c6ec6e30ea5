//! Look-up in a dialplan, after the Asterisk documentation's pages on the dialplan and on pattern matching. Searching a
//! context and then its includes, depth first, is this program's own choice, as in the classic search.
#![tactic(auto)]

mod look_up;
mod order;
mod visit;

pub use dp_plan::{Dialplan, EntryId, NoMemory, Text};
pub use look_up::{
    could_be_more, exists, find, find_label, found_entry_is_the_least, found_label_is_of_the_least,
    goes_on_more_is_some_ending,
};
pub use order::{SearchOrder, visit_is_the_visit};
