//! The events that a machine is given.
ghost use Rattle.std.specs.Prelude.{◌≡◌, IfOk};
ghost use Rattle.dp_machine.specs.Events.{channel_of};
ghost use Rattle.dp_machine.specs.declared.event.Event.TheVariants.{Assign, Start};

use crate::dial_status::DialStatus;
use dp_app::Place;
use dp_plan::{NoMemory, SharedText, Text};

/// An event of a machine. Channels are numbers; queues are named in any ASCII case, and agents by their interfaces.
#[derive(Debug, PartialEq, Eq, Drop)]
pub enum Event {
    /// A phone call comes in at priority 1 of the extension of the context.
    Start {
        context: Text,
        exten: Text,
        caller: Text,
    },
    /// The channel takes its next step.
    Step {
        channel: u32,
    },
    /// The caller dials a digit: the byte of `0` to `9`, `*`, `#` or `A` to `D`.
    Digit {
        channel: u32,
        digit: u8,
    },
    /// The time of what the channel waits for is over.
    Timeout {
        channel: u32,
    },
    /// The channel asks whether it has to leave its queue because the queue is too empty.
    Poll {
        channel: u32,
    },
    /// The caller hangs up.
    Hangup {
        channel: u32,
    },
    /// The call to devices for which the channel waits had this result.
    DialResult {
        channel: u32,
        status: DialStatus,
    },
    /// A call of the queue is offered to agents.
    Offer {
        queue: Text,
    },
    /// The agent answers the call for which it rings.
    Answer {
        agent: Text,
    },
    /// The agent declines the call for which it rings.
    Decline {
        agent: Text,
    },
    /// The agent is done with the call with which it talks.
    AgentDone {
        agent: Text,
    },
    /// The dialplan of this text is put in force. A reply to an earlier event names an entry of the dialplan that was in force at that
    /// event, and must be read there. Copies of the event share the text, because it can be long.
    Reload {
        text: SharedText,
    },
    /// A name is set from outside, like AMI's `Setvar` does: with a channel, what the table's functions say that the name is; without a
    /// channel, the global.
    Assign {
        channel: Option<u32>,
        name: Text,
        value: Text,
    },
    /// The channel is sent to a place from outside, like AMI's `Redirect` does.
    Redirect {
        channel: u32,
        place: Place,
    },
}

impl Event {
    /// The number of the channel that the event names; 0, which no channel has, if it names none.
    pub fn channel(&self) -> u32
        ensures { result ≡ channel_of self.now }
    {
        match self {
            Event::Step { channel }
            | Event::Digit { channel, .. }
            | Event::Timeout { channel }
            | Event::Poll { channel }
            | Event::Hangup { channel }
            | Event::DialResult { channel, .. }
            | Event::Redirect { channel, .. } => *channel,
            Event::Assign { channel, .. } => channel.unwrap_or(0),
            Event::Start { .. }
            | Event::Offer { .. }
            | Event::Answer { .. }
            | Event::Decline { .. }
            | Event::AgentDone { .. }
            | Event::Reload { .. } => 0,
        }
    }

    /// A copy of the event.
    pub fn copy(&self) -> Result<Self, NoMemory>
        ensures { IfOk result (λ event. event ≡ self.now) }
    {
        match self {
            Event::Start {
                context,
                exten,
                caller,
            } => copy_start(context, exten, caller),
            Event::Step { channel } => Ok(Event::Step { channel: *channel }),
            Event::Digit { channel, digit } => Ok(Event::Digit {
                channel: *channel,
                digit: *digit,
            }),
            Event::Timeout { channel } => Ok(Event::Timeout { channel: *channel }),
            Event::Poll { channel } => Ok(Event::Poll { channel: *channel }),
            Event::Hangup { channel } => Ok(Event::Hangup { channel: *channel }),
            Event::DialResult { channel, status } => Ok(Event::DialResult {
                channel: *channel,
                status: *status,
            }),
            Event::Offer { queue } => {
                let queue = queue.clone()?;
                Ok(Event::Offer { queue })
            }
            Event::Answer { agent } => {
                let agent = agent.clone()?;
                Ok(Event::Answer { agent })
            }
            Event::Decline { agent } => {
                let agent = agent.clone()?;
                Ok(Event::Decline { agent })
            }
            Event::AgentDone { agent } => {
                let agent = agent.clone()?;
                Ok(Event::AgentDone { agent })
            }
            Event::Reload { text } => {
                let text = text.clone()?;
                Ok(Event::Reload { text })
            }
            Event::Assign {
                channel,
                name,
                value,
            } => copy_assign(*channel, name, value),
            Event::Redirect { channel, place } => {
                let place = place.clone()?;
                Ok(Event::Redirect {
                    channel: *channel,
                    place,
                })
            }
        }
    }
}

/// A copy of the start of a call.
fn copy_start(context: &Text, exten: &Text, caller: &Text) -> Result<Event, NoMemory>
    ensures { IfOk result (λ event. event ≡ Start context.now exten.now caller.now) }
{
    let context = context.clone()?;
    let exten = exten.clone()?;
    let caller = caller.clone()?;
    Ok(Event::Start {
        context,
        exten,
        caller,
    })
}

/// A copy of the setting of a name.
fn copy_assign(channel: Option<u32>, name: &Text, value: &Text) -> Result<Event, NoMemory>
    ensures { IfOk result (λ event. event ≡ Assign channel name.now value.now) }
{
    let name = name.clone()?;
    let value = value.clone()?;
    Ok(Event::Assign {
        channel,
        name,
        value,
    })
}
