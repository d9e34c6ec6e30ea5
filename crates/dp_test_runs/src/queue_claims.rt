//! Claims about queues and refusals.
ghost use Rattle.std.specs.Prelude.{◌≡◌, ◌==◌, map};
ghost use Rattle.std.specs.List.{list_all, list_any};
ghost use Rattle.dp_queue.specs.Agents as agents_of;
ghost use Rattle.dp_queue.specs.Joining.{waiting_count};
ghost use Rattle.dp_conf.specs.Words.{same_text};
ghost use Rattle.dp_test_runs.specs.Verdicts as spec;

use dp_machine::{Queues, Refusal};
use dp_plan::Text;
use dp_queue::{Agent, AgentState};
use dp_vars::Counts;

/// Whether an agent in this state rings for a channel.
pub(crate) fn rings_for(channel: u32, state: AgentState) -> bool
    ensures { result ≡ agents_of.rings_for channel state }
{
    match state {
        AgentState::Ringing {
            queue: _,
            channel: other,
        } => other == channel,
        AgentState::Idle | AgentState::Talking { .. } => false,
    }
}

/// Whether the agent with a name rings for a channel.
fn rings(agents: &[Agent], channel: u32, name: &Text) -> bool
    ensures { result ≡ spec.rings agents.now channel name.now }
{
    agents.iter().any(|agent| rings_for(channel, agent.state) && agent.name.bytes() == name.bytes())
}

/// Whether a name is one of these.
fn is_one_of(names: &[Text], name: &Text) -> bool
    ensures { result ≡ list_any (same_text name.now) names.now }
{
    names.iter().any(|other| name.bytes() == other.bytes())
}

/// Whether an agent is one of those with these names, if it rings for a channel.
fn is_called_if_rings(channel: u32, names: &[Text], agent: &Agent) -> bool
    ensures { result ≡ spec.is_called_if_rings channel names.now agent.now }
{
    !rings_for(channel, agent.state) || is_one_of(names, &agent.name)
}

/// Whether each of the agents with these names rings for a channel.
fn each_rings(agents: &[Agent], channel: u32, names: &[Text]) -> bool
    ensures { result ≡ list_all (spec.rings agents.now channel) names.now }
{
    names.iter().all(|name| rings(agents, channel, name))
}

/// Whether no agent rings for a channel besides those with these names.
fn none_rings_besides(agents: &[Agent], channel: u32, names: &[Text]) -> bool
    ensures { result ≡ list_all (spec.is_called_if_rings channel names.now) agents.now }
{
    agents
        .iter()
        .all(|agent| is_called_if_rings(channel, names, agent))
}

/// Whether exactly the agents with these names ring for a channel.
fn exactly_ring(agents: &[Agent], channel: u32, names: &[Text]) -> bool
    ensures { result ≡ spec.exactly_ring agents.now channel names.now }
{
    each_rings(agents, channel, names) && none_rings_besides(agents, channel, names)
}

/// Whether exactly the agents with these names ring for the channel of the last offer.
pub(crate) fn ring_after(agents: &[Agent], offered: Option<u32>, names: &[Text]) -> bool
    ensures { result ≡ spec.ring_after agents.now offered names.now }
{
    match offered {
        Some(channel) => exactly_ring(agents, channel, names),
        None => false,
    }
}

/// Whether so many channels wait in the queue with a name.
pub(crate) fn wait_in(queues: &Queues, queue: &[u8], count: u32) -> bool
    ensures { result ≡ (waiting_count queues.now.queues queue.now == count) }
{
    queues.waiting(queue) == count as usize
}

/// Whether a refusal is the one that is claimed, if one is.
fn is_refusal(claimed: Option<Refusal>, refusal: Refusal) -> bool
    ensures { result ≡ spec.is_refusal claimed refusal }
{
    match claimed {
        Some(other) => refusal.code() == other.code(),
        None => true,
    }
}

/// Whether the last event line was refused so.
pub(crate) fn is_refused_so(claimed: Option<Refusal>, refusal: Option<Refusal>) -> bool
    ensures { result ≡ spec.was_refused claimed refusal }
{
    match refusal {
        Some(refusal) => is_refusal(claimed, refusal),
        None => false,
    }
}
