//! Why differences could not be written.
use dp_conf::WriteFailed;
use dp_plan::NoMemory;
use std::alloc::AllocFailed;

/// Why differences could not be written.
#[derive(Clone, Copy, Debug, PartialEq, Eq)]
pub enum DiffFault {
    /// A write failed.
    WriteFailed,
    /// Memory ran out.
    NoMemory,
}

impl From<WriteFailed> for DiffFault {
    ghost use Rattle.std.specs.Prelude.{◌≡◌};
    ghost use Rattle.dp_diff.specs.declared.fault.DiffFault.TheVariants.{WriteFailed as write_failed};

    ghost from_gives = { λ _ fault. fault ≡ write_failed };

    fn from(_: WriteFailed) -> Self {
        DiffFault::WriteFailed
    }
}

impl From<NoMemory> for DiffFault {
    ghost use Rattle.std.specs.Prelude.{◌≡◌};
    ghost use Rattle.dp_diff.specs.declared.fault.DiffFault.TheVariants.{NoMemory};

    ghost from_gives = { λ _ fault. fault ≡ NoMemory };

    fn from(_: NoMemory) -> Self {
        DiffFault::NoMemory
    }
}

impl<T: Drop> From<AllocFailed<T>> for DiffFault {
    ghost use Rattle.std.specs.Prelude.{◌≡◌};
    ghost use Rattle.dp_diff.specs.declared.fault.DiffFault.TheVariants.{NoMemory};

    ghost from_gives = { λ _ fault. fault ≡ NoMemory };

    fn from(_: AllocFailed<T>) -> Self {
        DiffFault::NoMemory
    }
}
