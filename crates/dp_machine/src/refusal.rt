//! Why an event is refused.
ghost use Rattle.std.specs.Prelude.{◌≡◌};
ghost use Rattle.dp_machine.specs.Codes.{refusal_code, refusal_name};

/// Why an event is refused. A refused event changes nothing.
#[derive(Clone, Copy, Debug, PartialEq, Eq)]
pub enum Refusal {
    /// No channel has the number.
    NoChannel,
    /// The channel waits, and takes no step.
    NotReady,
    /// The channel waits for nothing that the event could be.
    NotWaiting,
    /// The channel waits in a queue, or for a call to devices, without a time-out.
    NoTimer,
    /// There is no queue with the name.
    NoQueue,
    /// Every channel that waits in the queue already has an agent ringing for it, or none waits.
    NobodyWaiting,
    /// No member of the queue may be chosen.
    NoMember,
    /// The agent does not ring.
    NotRinging,
    /// The agent does not talk.
    NotTalking,
    /// The channel has ended.
    Ended,
    /// All 65,535 channel numbers were given.
    NumbersSpent,
    /// The byte is no telephone digit.
    BadDigit,
    /// The text of a dialplan has a fault.
    BadPlan,
    /// The channel waits for no call to devices.
    NotDialling,
}

impl Refusal {
    /// The number of the refusal.
    pub fn code(self) -> u8
        ensures { result ≡ refusal_code self }
    {
        match self {
            Refusal::NoChannel => 40,
            Refusal::NotReady => 41,
            Refusal::NotWaiting => 42,
            Refusal::NoTimer => 43,
            Refusal::NoQueue => 44,
            Refusal::NobodyWaiting => 45,
            Refusal::NoMember => 46,
            Refusal::NotRinging => 47,
            Refusal::NotTalking => 48,
            Refusal::Ended => 49,
            Refusal::NumbersSpent => 50,
            Refusal::BadDigit => 51,
            Refusal::BadPlan => 52,
            Refusal::NotDialling => 53,
        }
    }

    /// The printed name of the refusal.
    pub fn name(self) -> &'static str
        ensures { result.now ≡ refusal_name self }
    {
        match self {
            Refusal::NoChannel => "NoChannel",
            Refusal::NotReady => "NotReady",
            Refusal::NotWaiting => "NotWaiting",
            Refusal::NoTimer => "NoTimer",
            Refusal::NoQueue => "NoQueue",
            Refusal::NobodyWaiting => "NobodyWaiting",
            Refusal::NoMember => "NoMember",
            Refusal::NotRinging => "NotRinging",
            Refusal::NotTalking => "NotTalking",
            Refusal::Ended => "Ended",
            Refusal::NumbersSpent => "NumbersSpent",
            Refusal::BadDigit => "BadDigit",
            Refusal::BadPlan => "BadPlan",
            Refusal::NotDialling => "NotDialling",
        }
    }
}
