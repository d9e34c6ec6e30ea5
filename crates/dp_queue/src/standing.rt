//! An exchange without queues, and the call with which an agent talks.
ghost use Rattle.std.specs.Prelude.{◌≡◌};
ghost use Rattle.dp_queue.specs.Calls as calls;
ghost use Rattle.dp_queue.specs.Queues.{no_queues};
ghost use Rattle.dp_queue.specs.Rest.{IsAtRest};

use crate::agent::{AgentState, state_at};
use crate::agents::Agents;
use crate::call::Call;
use crate::queue_list::QueueList;
use crate::queues::Queues;
use crate::waiting_seat::Seats;
use std::alloc::Global;

impl Queues {
    /// An exchange without queues and agents. It never allocates.
    pub fn none(alloc: Global) -> Self
        ensures none { result ≡ no_queues }
        ensures rest { IsAtRest result }
    {
        Queues {
            queues: QueueList::new(alloc),
            agents: Agents::new(alloc),
            seats: Seats::new(alloc),
            finished: 0,
        }
    }

    /// The call that [`Queues::done`] would end for the agent with this interface, or None if the agent does not talk.
    pub fn talk_of(&self, agent: &[u8]) -> Option<Call>
        ensures { result ≡ (calls.done_row self.now agent.now).1 }
    {
        let number = self.agents.number_of(agent);
        match state_at(self.agents.list(), number) {
            AgentState::Talking { queue, channel } => Some(Call {
                queue,
                agent: number,
                channel,
            }),
            AgentState::Idle | AgentState::Ringing { .. } => None,
        }
    }
}
