//! The agents of an exchange, with their numbers and names.
ghost use Rattle.std.specs.Prelude.{◌≡◌, [], OnOk, OnErr, false, length, nat_lt};
ghost use Rattle.dp_queue.specs.Agents as spec;
ghost use Rattle.dp_queue.specs.Members.{with_agent};

use crate::agent::{Agent, AgentState, free_all, set_state};
use dp_conf::{NoMemory, Text};
use std::alloc::Global;
use std::collections::BTreeMap;
use std::marker::Model;

/// The agents, in the order in which they were first named. They are never dropped, and no two have the same name.
#[derive(Drop)]
pub(crate) struct Agents {
    list: Vec<Agent>,
    // The number of each agent, ordered by name: names may come from callers, and no choice of names makes a look-up expensive.
    numbers: BTreeMap<Vec<u8>, usize>,
}

impl Model for Agents {
    ghost use Rattle.std.specs.Prelude.{List};
    ghost use Rattle.dp_queue.specs.Agents.{AreNumbered};
    ghost use Rattle.dp_queue.specs.declared.agent.Agent.{Agent};

    ghost Value = { List Agent };

    ghost view = { λ agents. agents.list.items };

    ghost invariant = { λ agents. AreNumbered agents.numbers agents.list.items };
}

impl Agents {
    /// Without agents. It never allocates.
    pub(crate) fn new(alloc: Global) -> Self
        ensures { result ≡ [] }
    {
        Agents {
            list: Vec::new(alloc),
            numbers: BTreeMap::new(alloc),
        }
    }

    /// The agents; the number of an agent is its place.
    pub(crate) fn list(&self) -> &[Agent]
        ensures { result.now ≡ self.now }
    {
        &self.list
    }

    /// The number of the agent with this name, or the number of agents if there is none.
    pub(crate) fn number_of(&self, name: &[u8]) -> usize
        ensures { result ≡ spec.agent_number self.now name.now }
    {
        self.numbers.get(name).copied().unwrap_or(self.list.len())
    }

    /// Sets the state of the agent with a number. An unknown agent stays idle.
    pub(crate) fn set_state(&mut self, number: usize, state: AgentState)
        ensures { self.new ≡ spec.with_state_at number state self.old }
    {
        set_state(&mut self.list, number, state);
    }

    /// Makes the agents idle that ring for the channel.
    pub(crate) fn free_all(&mut self, channel: u32)
        ensures { self.new ≡ spec.all_freed channel self.old }
    {
        free_all(&mut self.list, channel);
    }

    /// Adds an idle agent with a name that no agent has. If memory runs out nothing changes.
    fn push(&mut self, alloc: Global, name: &[u8]) -> Result<(), NoMemory>
        requires { nat_lt (spec.agent_number self.old name.now) (length self.old) ≡ false }
        ensures ok { OnOk result (self.new ≡ with_agent self.old name.now) }
        ensures err { OnErr result (self.new ≡ self.old) }
    {
        self.list.reserve(1)?;
        let text = Text::copy_of(alloc, name)?;
        let key = Vec::from_slice(alloc, name)?;
        let number = self.list.len();
        self.numbers.insert(key, number)?;
        self.list
            .push(Agent {
                name: text,
                state: AgentState::Idle,
            })
            .unwrap();
        Ok(())
    }

    /// Adds the agent with a name unless it is known. If memory runs out nothing changes.
    pub(crate) fn know(&mut self, alloc: Global, name: &[u8]) -> Result<(), NoMemory>
        ensures ok { OnOk result (self.new ≡ with_agent self.old name.now) }
        ensures err { OnErr result (self.new ≡ self.old) }
    {
        let number = self.number_of(name);
        if number < self.list.len() {
            return Ok(());
        }
        self.push(alloc, name)
    }
}
