//! Why a board was not settled.
ghost use Rattle.std.specs.Prelude.{◌≡◌};
ghost use Rattle.dp_board.specs.Codes.{fault_code, fault_name};
ghost use Rattle.dp_board.specs.declared.fault.SettleFault.TheVariants.{NoMemory};

use crate::difference::Disagree;
use std::alloc::AllocError;

/// Why a board was not settled.
#[derive(Clone, Copy, Debug, PartialEq, Eq)]
pub enum SettleFault {
    /// This seat, the least that is absent, was not handed in.
    SeatMissing { seat: u32 },
    /// The entries of a seat are not what it was told: of the seats that differ, the one with the least number.
    Differs(Disagree),
    /// Memory ran out.
    NoMemory,
}

impl From<AllocError> for SettleFault {
    ghost from_gives = { λ _ fault. fault ≡ NoMemory };

    fn from(_: AllocError) -> Self {
        SettleFault::NoMemory
    }
}

impl SettleFault {
    /// The number of the fault.
    pub fn code(self) -> u8
        ensures { result ≡ fault_code self }
    {
        match self {
            SettleFault::SeatMissing { .. } => 60,
            SettleFault::Differs(_) => 61,
            SettleFault::NoMemory => 62,
        }
    }

    /// The printed name of the fault.
    pub fn name(self) -> &'static str
        ensures { result.now ≡ fault_name self }
    {
        match self {
            SettleFault::SeatMissing { .. } => "SeatMissing",
            SettleFault::Differs(_) => "Disagree",
            SettleFault::NoMemory => "NoMemory",
        }
    }
}
