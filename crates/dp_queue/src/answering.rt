//! How agents answer, decline and end the calls that are offered to them.
ghost use Rattle.std.specs.Prelude.{◌≡◌};
ghost use Rattle.dp_queue.specs.Agents.{state_at, talker};
ghost use Rattle.dp_queue.specs.Calls as spec;
ghost use Rattle.dp_queue.specs.steps.Seats.{AreFound};

use crate::agent::{Agent, AgentState, state_at, talks_with};
use crate::call::Call;
use crate::joining::unseat;
use crate::member::one_more;
use crate::queues::Queues;
use crate::waiting_seat::{Seats, WaitingSeat, leave_seat, put_seat, put_talk, rung_at, talk_at};

/// The number of the agent that talks with the channel, or the number of agents if there is none.
fn talker(agents: &[Agent], seats: &Seats, channel: u32) -> usize
    requires { AreFound seats.now agents.now }
    ensures { result ≡ talker agents.now channel }
{
    match talk_at(seats, channel) {
        None => agents.len(),
        Some(agent) => {
            if talks_with(state_at(agents, agent), channel) {
                agent
            } else {
                agents.len()
            }
        }
    }
}

impl Queues {
    /// The agent with this interface answers the call for which it rings: the call leaves the waiting list, the agent
    /// and the channel talk, and the other agents that ring for it become idle. Returns the call, or None if the agent
    /// does not ring.
    pub fn answer(&mut self, agent: &[u8]) -> Option<Call>
        ensures { spec.answer_row self.old agent.now ≡ (self.new, result) }
    {
        let number = self.agents.number_of(agent);
        match state_at(self.agents.list(), number) {
            AgentState::Ringing { queue, channel } => {
                let rung = rung_at(&self.seats, channel) - 1;
                self.agents
                    .set_state(number, AgentState::Talking { queue, channel });
                unseat(
                    &mut self.queues,
                    &mut self.agents,
                    &self.seats,
                    WaitingSeat { queue, rung },
                    channel,
                );
                put_talk(&mut self.seats, channel, number);
                Some(Call {
                    queue,
                    agent: number,
                    channel,
                })
            }
            AgentState::Idle | AgentState::Talking { .. } => None,
        }
    }

    /// The agent with this interface declines the call for which it rings, and becomes idle. Returns false if it does
    /// not ring.
    pub fn decline(&mut self, agent: &[u8]) -> bool
        ensures { spec.decline_row self.old agent.now ≡ (self.new, result) }
    {
        let number = self.agents.number_of(agent);
        match state_at(self.agents.list(), number) {
            AgentState::Ringing { queue, channel } => {
                let rung = rung_at(&self.seats, channel) - 1;
                self.agents.set_state(number, AgentState::Idle);
                put_seat(&mut self.seats, channel, WaitingSeat { queue, rung });
                true
            }
            AgentState::Idle | AgentState::Talking { .. } => false,
        }
    }

    /// Ends the talk of the agent with a number, if it talks.
    fn end_talk_of(&mut self, number: usize) -> Option<Call>
        ensures { spec.done_row_at self.old number (state_at self.old.agents number) ≡ (self.new, result) }
    {
        match state_at(self.agents.list(), number) {
            AgentState::Talking { queue, channel } => {
                self.agents.set_state(number, AgentState::Idle);
                leave_seat(&mut self.seats, channel);
                let finished = one_more(self.finished);
                self.finished = finished;
                self.queues.finish(queue, number, finished);
                Some(Call {
                    queue,
                    agent: number,
                    channel,
                })
            }
            AgentState::Idle | AgentState::Ringing { .. } => None,
        }
    }

    /// The agent with this interface ends its call: it becomes idle, one more call is finished, and its member record
    /// in the queue, if it still exists, counts the call. Returns the call, or None if the agent does not talk.
    pub fn done(&mut self, agent: &[u8]) -> Option<Call>
        ensures { spec.done_row self.old agent.now ≡ (self.new, result) }
    {
        let number = self.agents.number_of(agent);
        self.end_talk_of(number)
    }

    /// Ends the talk of a channel, as [`Queues::done`] does for the agent that talks with it. Returns the call, or None
    /// if the channel does not talk.
    pub fn end_talk(&mut self, channel: u32) -> Option<Call>
        ensures { spec.end_talk_row self.old channel ≡ (self.new, result) }
    {
        let number = talker(self.agents.list(), &self.seats, channel);
        self.end_talk_of(number)
    }
}
