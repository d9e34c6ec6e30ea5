//! What an `expect` line of a test expects.
use crate::items::Items;
use dp_machine::Refusal;
use dp_plan::{SharedName, Text};

/// An application as it was called: its name, and its expanded arguments if the line gives them.
#[derive(Drop)]
pub struct ExpectedCall {
    pub application: Text,
    pub arguments: Option<Text>,
}

/// The place of an entry: its context, its name by its meaning, and its priority if the line gives one.
#[derive(Drop)]
pub struct ExpectedPlace {
    pub context: Text,
    pub name: SharedName,
    pub priority: Option<u32>,
}

/// What a line claims.
#[derive(Drop)]
pub enum LineClaim {
    /// `CH STATE`: the channel's state, as it is printed, begins with this text.
    State {
        channel: u32,
        state: Text,
    },
    /// `CH ran APP[(ARGS)]`: the last entry that the channel ran is this call.
    Ran {
        channel: u32,
        call: ExpectedCall,
    },
    /// `CH passed APP[(ARGS)]`: the channel ran such a call in this test.
    Passed {
        channel: u32,
        call: ExpectedCall,
    },
    /// `CH at CONTEXT,NAME[,PRIORITY]`: the last entry that the channel ran is at this place.
    At {
        channel: u32,
        place: ExpectedPlace,
    },
    /// `CH NAME=VALUE` or, without a channel, `global NAME=VALUE`: the name has this value.
    Value {
        channel: Option<u32>,
        name: Text,
        value: Text,
    },
    /// `rings AGENT..`: exactly these agents ring.
    Rings {
        agents: Items<Text>,
    },
    /// `waiting QUEUE N`: this number of channels wait in the queue.
    Waiting {
        queue: Text,
        count: u32,
    },
    /// `refused [CODE]`: the event before was refused, for this reason if the line gives one.
    Refused {
        refusal: Option<Refusal>,
    },
}

/// What an `expect` line expects: that its claim holds or, after `not`, that it does not hold.
#[derive(Drop)]
pub struct Expectation {
    pub is_negated: bool,
    pub claim: LineClaim,
}
