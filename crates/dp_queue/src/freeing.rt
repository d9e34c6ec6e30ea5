//! How the agents that ring for a channel become idle. Their number is known, so they are looked for among the members of the queue and not
//! among all agents.
ghost use Rattle.std.specs.Prelude.{◌≡◌};
ghost use Rattle.dp_queue.specs.Agents.{all_freed};
ghost use Rattle.dp_queue.specs.steps.Seats.{rung_count};

use crate::agent::{AgentState, rings_for, state_at};
use crate::agents::Agents;
use crate::member::Member;

/// Makes the agent with a number idle if it is one of the agents that ring for the channel. Takes and returns the number of these agents.
fn free_one(agents: &mut Agents, number: usize, channel: u32, rung: usize) -> usize
    requires { rung ≡ rung_count agents.old channel }
    ensures agents { all_freed channel agents.new ≡ all_freed channel agents.old }
    ensures left { result ≡ rung_count agents.new channel }
{
    if rings_for(state_at(agents.list(), number), channel) {
        agents.set_state(number, AgentState::Idle);
        return rung - 1;
    }
    rung
}

/// Makes the agents of some members idle if they ring for the channel. Takes and returns the number of agents that ring for it.
fn free_members(agents: &mut Agents, members: &[Member], channel: u32, rung: usize) -> usize
    requires { rung ≡ rung_count agents.old channel }
    ensures agents { all_freed channel agents.new ≡ all_freed channel agents.old }
    ensures left { result ≡ rung_count agents.new channel }
{
    let mut left = rung;
    for member in members {
        if left == 0 {
            return 0;
        }
        left = free_one(agents, member.agent, channel, left);
    }
    left
}

/// Makes the agents idle that ring for the channel, given their number. They are members of its queue, unless one was removed in the
/// meantime.
pub(crate) fn free_rung(agents: &mut Agents, members: &[Member], channel: u32, rung: usize)
    requires { rung ≡ rung_count agents.old channel }
    ensures { agents.new ≡ all_freed channel agents.old }
{
    let left = free_members(agents, members, channel, rung);
    if left > 0 {
        agents.free_all(channel);
    }
}
