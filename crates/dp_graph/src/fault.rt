//! Why a picture could not be written.
use dp_conf::WriteFailed;
use dp_plan::NoMemory;
use std::alloc::AllocFailed;

/// Why a picture could not be written.
#[derive(Clone, Copy, Debug, PartialEq, Eq)]
pub enum GraphFault {
    /// A write failed.
    WriteFailed,
    /// Memory ran out.
    NoMemory,
}

impl From<WriteFailed> for GraphFault {
    ghost use Rattle.std.specs.Prelude.{◌≡◌};
    ghost use Rattle.dp_graph.specs.declared.fault.GraphFault.TheVariants.{WriteFailed as write_failed};

    ghost from_gives = { λ _ fault. fault ≡ write_failed };

    fn from(_: WriteFailed) -> Self {
        GraphFault::WriteFailed
    }
}

impl From<NoMemory> for GraphFault {
    ghost use Rattle.std.specs.Prelude.{◌≡◌};
    ghost use Rattle.dp_graph.specs.declared.fault.GraphFault.TheVariants.{NoMemory};

    ghost from_gives = { λ _ fault. fault ≡ NoMemory };

    fn from(_: NoMemory) -> Self {
        GraphFault::NoMemory
    }
}

impl<T: Drop> From<AllocFailed<T>> for GraphFault {
    ghost use Rattle.std.specs.Prelude.{◌≡◌};
    ghost use Rattle.dp_graph.specs.declared.fault.GraphFault.TheVariants.{NoMemory};

    ghost from_gives = { λ _ fault. fault ≡ NoMemory };

    fn from(_: AllocFailed<T>) -> Self {
        GraphFault::NoMemory
    }
}
