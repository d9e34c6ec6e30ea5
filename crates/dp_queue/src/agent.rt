//! The agents that answer the calls of queues.
ghost use Rattle.std.specs.Prelude.{◌≡◌};
ghost use Rattle.dp_queue.specs.Agents as spec;

use dp_conf::Text;

/// The state of an agent, one for all queues. Queues and channels are given by their numbers.
#[derive(Clone, Copy, Debug, PartialEq, Eq)]
pub enum AgentState {
    Idle,
    /// A call that waits in the queue is being offered to the agent.
    Ringing { queue: usize, channel: u32 },
    /// The agent has answered a call of the queue.
    Talking { queue: usize, channel: u32 },
}

/// An agent, named by its interface, which is case sensitive.
#[derive(Debug, PartialEq, Eq, Drop)]
pub struct Agent {
    pub name: Text,
    pub state: AgentState,
}

/// The state of the agent with a number; idle if there is none.
pub(crate) fn state_at(agents: &[Agent], number: usize) -> AgentState
    ensures { result ≡ spec.state_at agents.now number }
{
    match agents.get(number) {
        Some(agent) => agent.state,
        None => AgentState::Idle,
    }
}

/// Whether an agent in this state rings for the channel.
pub(crate) fn rings_for(state: AgentState, channel: u32) -> bool
    ensures { result ≡ spec.rings_for channel state }
{
    match state {
        AgentState::Ringing {
            queue: _,
            channel: other,
        } => other == channel,
        AgentState::Idle | AgentState::Talking { .. } => false,
    }
}

/// Whether an agent in this state talks with the channel.
pub(crate) fn talks_with(state: AgentState, channel: u32) -> bool
    ensures { result ≡ spec.talks_with channel state }
{
    match state {
        AgentState::Talking {
            queue: _,
            channel: other,
        } => other == channel,
        AgentState::Idle | AgentState::Ringing { .. } => false,
    }
}

/// Sets the state of the agent with a number. An unknown agent stays idle.
pub(crate) fn set_state(agents: &mut Vec<Agent>, number: usize, state: AgentState)
    ensures { agents.new.items ≡ spec.with_state_at number state agents.old.items }
{
    if let Some(agent) = agents.get_mut(number) {
        agent.state = state;
    }
}

/// The state of an agent after a channel no longer waits.
fn state_without_call(state: AgentState, channel: u32) -> AgentState
    ensures { result ≡ spec.freed_state channel state }
{
    if rings_for(state, channel) {
        AgentState::Idle
    } else {
        state
    }
}

/// Makes the agents in a slice idle that ring for the channel.
fn free_each(agents: &mut [Agent], channel: u32)
    ensures { agents.new ≡ spec.all_freed channel agents.old }
{
    for agent in agents.iter_mut() {
        agent.state = state_without_call(agent.state, channel);
    }
}

/// Makes the agents idle that ring for the channel.
pub(crate) fn free_all(agents: &mut Vec<Agent>, channel: u32)
    ensures { agents.new.items ≡ spec.all_freed channel agents.old.items }
{
    free_each(agents, channel);
}
