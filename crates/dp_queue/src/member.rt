//! A member of a queue.
ghost use Rattle.std.specs.Prelude.{◌≡◌, IfSome, ◌<◌, length};
ghost use Rattle.std.specs.List.{position};
ghost use Rattle.dp_queue.specs.Calls as calls;
ghost use Rattle.dp_queue.specs.Changes.{one_more};
ghost use Rattle.dp_queue.specs.Members as spec;

/// A member of a queue, with what the queue knows of it.
#[derive(Clone, Copy, Debug, PartialEq, Eq)]
pub struct Member {
    /// The number of its agent.
    pub agent: usize,
    pub penalty: u32,
    pub is_paused: bool,
    /// Whether an application added it, rather than the file.
    pub is_dynamic: bool,
    /// The number of calls of the queue that it has finished.
    pub calls: u64,
    /// The count of finished calls of all queues when it last finished one; 0 if it has finished none.
    pub last: u64,
}

/// A member that has not finished a call.
pub(crate) fn new_member(agent: usize, penalty: u32, is_dynamic: bool) -> Member
    ensures { result ≡ spec.new_member agent penalty is_dynamic }
{
    Member {
        agent,
        penalty,
        is_paused: false,
        is_dynamic,
        calls: 0,
        last: 0,
    }
}

/// Whether some member is not paused.
pub(crate) fn has_active(members: &[Member]) -> bool
    ensures { result ≡ spec.has_active members.now }
{
    members.iter().any(|member| !member.is_paused)
}

/// The place of the member that is this agent.
pub(crate) fn place_of(members: &[Member], agent: usize) -> Option<usize>
    ensures place { result ≡ position (spec.is_agent agent) members.now }
    ensures within { IfSome result (λ place. place < length members.now) }
{
    members.iter().position(|member| member.agent == agent)
}

/// The member, paused or unpaused if it is the agent.
pub(crate) fn paused_member(member: Member, agent: usize, is_paused: bool) -> Member
    ensures { result ≡ spec.paused_member agent is_paused member }
{
    if member.agent == agent {
        Member {
            is_paused,
            ..member
        }
    } else {
        member
    }
}

/// One more, up to the greatest count.
pub(crate) fn one_more(count: u64) -> u64
    ensures { result ≡ one_more count }
{
    count.saturating_add(1)
}

/// The member after a call of the agent ends.
pub(crate) fn finished_member(member: Member, agent: usize, count: u64) -> Member
    ensures { result ≡ calls.finished_member agent count member }
{
    if member.agent == agent {
        Member {
            calls: one_more(member.calls),
            last: count,
            ..member
        }
    } else {
        member
    }
}
