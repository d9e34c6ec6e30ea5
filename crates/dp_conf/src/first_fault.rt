//! The first line of a text that the taker of its lines refuses.
ghost use Rattle.std.specs.Prelude.{◌≡◌, is_err, is_some, MatchOption, None, Ok, Err};
ghost use Rattle.dp_conf.specs.FirstFaults as spec;

use std::alloc::AllocError;
use std::marker::Model;

/// A refused line, counted from 1, and the reason.
#[derive(Clone, Copy, Debug, PartialEq, Eq, Drop)]
pub struct FaultyLine<K> {
    pub line: usize,
    pub kind: K,
}

/// Why a line was not taken.
#[derive(Clone, Copy, Debug, PartialEq, Eq, Drop)]
pub enum TakeFault<K> {
    /// The line was refused.
    Line(FaultyLine<K>),
    /// Memory ran out.
    NoMemory,
}

impl<K> From<AllocError> for TakeFault<K> {
    ghost use Rattle.std.specs.Prelude.{◌≡◌};
    ghost use Rattle.dp_conf.specs.declared.first_fault.TakeFault.TheVariants.{NoMemory};

    ghost from_gives = { λ _ fault. fault ≡ NoMemory };

    fn from(_: AllocError) -> Self {
        TakeFault::NoMemory
    }
}

/// The first of the faults that it was given, if any.
#[derive(Drop)]
pub struct FirstFault<K> {
    first: Option<FaultyLine<K>>,
}

impl<K> Model for FirstFault<K> {
    ghost use Rattle.std.specs.Prelude.{Option};
    ghost use Rattle.dp_conf.specs.declared.first_fault.FaultyLine.{FaultyLine};

    ghost Value = { Option (FaultyLine K) };

    ghost view = { λ kept. kept.first };
}

impl<K: Drop> FirstFault<K> {
    /// One that was given no fault.
    pub fn none() -> Self
        ensures { result ≡ None }
    {
        FirstFault { first: None }
    }

    /// Whether a fault was given.
    pub fn is_kept(&self) -> bool
        ensures { result ≡ is_some self.now }
    {
        self.first.is_some()
    }

    /// Keeps the fault of a line, unless one is kept already. Out-of-memory is passed on.
    pub fn keep(&mut self, taken: Result<(), TakeFault<K>>) -> Result<(), AllocError>
        ensures kept { self.new ≡ spec.first_fault self.old taken }
        ensures memory { is_err result ≡ spec.wants_memory taken }
    {
        match taken {
            Ok(()) => Ok(()),
            Err(TakeFault::NoMemory) => Err(AllocError),
            Err(TakeFault::Line(fault)) => {
                if self.first.is_none() {
                    self.first = Some(fault);
                }
                Ok(())
            }
        }
    }

    /// The first fault, if one was given.
    pub fn into_result(self) -> Result<(), FaultyLine<K>>
        ensures { MatchOption self (result ≡ Ok tt) (λ fault. result ≡ Err fault) }
    {
        let FirstFault { first } = self;
        match first {
            Some(fault) => Err(fault),
            None => Ok(()),
        }
    }
}
