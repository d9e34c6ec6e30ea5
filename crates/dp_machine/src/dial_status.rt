//! The results of a call to devices, after the Asterisk documentation's page on `Dial`.
ghost use Rattle.std.specs.Prelude.{◌≡◌};
ghost use Rattle.dp_machine.specs.Codes.{status_name};

/// The result of a call to devices. Its name becomes the value of the variable `DIALSTATUS`. That variable has two more values without such
/// a result: `CANCEL` if the caller hangs up first, and `NOANSWER` if the time is over.
#[derive(Clone, Copy, Debug, PartialEq, Eq)]
pub enum DialStatus {
    /// The far side answered, and has hung up: the talk itself is media, and is already over (a choice of this program).
    Answer,
    /// The far side is busy.
    Busy,
    /// Nobody answered.
    NoAnswer,
    /// The call did not get through.
    Congestion,
    /// No device can be called.
    ChanUnavail,
    /// With privacy or screening: the called side sent the caller away.
    DontCall,
    /// With privacy or screening: the called side sent the caller to the menus that keep callers busy.
    Torture,
    /// The arguments of `Dial` are not valid.
    InvalidArgs,
}

impl DialStatus {
    /// The value that the variable `DIALSTATUS` has.
    pub fn name(self) -> &'static [u8]
        ensures { result.now ≡ status_name self }
    {
        match self {
            DialStatus::Answer => b"ANSWER",
            DialStatus::Busy => b"BUSY",
            DialStatus::NoAnswer => b"NOANSWER",
            DialStatus::Congestion => b"CONGESTION",
            DialStatus::ChanUnavail => b"CHANUNAVAIL",
            DialStatus::DontCall => b"DONTCALL",
            DialStatus::Torture => b"TORTURE",
            DialStatus::InvalidArgs => b"INVALIDARGS",
        }
    }
}
