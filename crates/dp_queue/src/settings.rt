//! The settings of a queue, after the Asterisk documentation's page on queues.
use dp_conf::Text;

/// The strategy by which a queue chooses the members to which it offers a call.
#[derive(Clone, Copy, Debug, PartialEq, Eq)]
pub enum Strategy {
    /// All members.
    RingAll,
    /// The first member, chosen anew at each offer (a choice of this program).
    Linear,
    /// The member whose last finished call of the queue is the longest ago.
    LeastRecent,
    /// The member with the fewest finished calls of the queue.
    FewestCalls,
    /// The first member after the one that was chosen last, wrapping around.
    RrMemory,
}

/// The rule that says when a queue is too empty to join, or to stay in.
#[derive(Clone, Copy, Debug, PartialEq, Eq)]
pub enum EmptyRule {
    /// `joinempty=yes`: never. `leavewhenempty=yes`: if there is no unpaused member.
    Yes,
    /// `joinempty=no`: if there is no unpaused member. `leavewhenempty=no`: never.
    No,
    /// If there is no unpaused member, because the states of devices are not known here (a choice of this program).
    Strict,
    /// If there is no member.
    Loose,
}

/// The settings of a queue.
#[derive(Debug, PartialEq, Eq, Drop)]
pub struct Settings {
    pub strategy: Strategy,
    /// The greatest number of calls that wait; 0 is no limit.
    pub maxlen: u32,
    pub joinempty: EmptyRule,
    pub leavewhenempty: EmptyRule,
    /// The context in which a digit of a waiting call is looked up; empty if there is none.
    pub context: Text,
}
