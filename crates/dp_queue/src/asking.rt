//! The results of adding, removing or pausing a member, computed before anything changes.
ghost use Rattle.std.specs.Prelude.{◌≡◌, ℕ, Bool};
ghost use Rattle.std.specs.Option.{option_copied};
ghost use Rattle.dp_queue.specs.Members as spec;

use crate::change::{Added, Removed};
use crate::membership::{is_member, is_member_at, member_at};
use crate::queues::Queues;

impl Queues {
    /// The result of adding this interface to the queue with this name, whatever the penalty.
    pub fn would_add(&self, queue: &[u8], interface: &[u8]) -> Added
        ensures { (penalty : ℕ) → result ≡ (spec.add_row self.now queue.now interface.now penalty).1 }
    {
        let Some(number) = self.queues.number_of(queue) else {
            return Added::NoSuchQueue;
        };
        let agent = self.agents.number_of(interface);
        if is_member_at(self.queues.list(), number, agent) {
            return Added::MemberAlready;
        }
        Added::Added
    }

    /// The result of removing this interface from the queue with this name.
    pub fn would_remove(&self, queue: &[u8], interface: &[u8]) -> Removed
        ensures { result ≡ (spec.remove_row self.now queue.now interface.now).1 }
    {
        let Some(number) = self.queues.number_of(queue) else {
            return Removed::NoSuchQueue;
        };
        let agent = self.agents.number_of(interface);
        match member_at(self.queues.list(), number, agent) {
            None => Removed::NotInQueue,
            Some(member) => {
                if member.is_dynamic {
                    Removed::Removed
                } else {
                    Removed::NotDynamic
                }
            }
        }
    }

    /// The result of pausing this interface in the queue with this name, or in all queues, or of ending its pause:
    /// whether it is a member there.
    pub fn would_pause(&self, queue: Option<&[u8]>, interface: &[u8]) -> bool
        ensures { (is_paused : Bool)
            → result ≡ (spec.pause_row self.now (option_copied queue.entry) interface.now is_paused).1 }
    {
        let agent = self.agents.number_of(interface);
        match queue {
            None => is_member(self.queues.list(), agent),
            Some(name) => match self.queues.number_of(name) {
                None => false,
                Some(number) => is_member_at(self.queues.list(), number, agent),
            },
        }
    }
}
