//! A number for each entry of a context: that of its extension, or that of its line.
ghost use Rattle.std.specs.Prelude.{◌≡◌, [], ◌∷◌, ◌++◌, IfOk, OnOk, slice_get};
ghost use Rattle.dp_plan.specs.steps.Numbers as spec;

use dp_conf::NoMemory;
use smallvec::SmallVec;
use std::alloc::Global;
use std::marker::Model;

/// A number for each entry, in file order. A contract sees it as their list. The numbers of a small context need no memory on the heap.
#[derive(Debug, Drop)]
pub(crate) struct Numbers {
    numbers: SmallVec<u32, 4>,
}

impl Model for Numbers {
    ghost use Rattle.std.specs.Prelude.{ℕ, List};

    ghost Value = { List ℕ };

    ghost view = { λ numbers. numbers.numbers.items };
}

/// A number in four bytes. A table of 2^32 extensions or more, or a line with a number of that size, is refused as out-of-memory, which is
/// a choice of this program.
pub(crate) fn short_number(number: usize) -> Result<u32, NoMemory>
    ensures { IfOk result (λ short. short ≡ number) }
{
    match u32::try_from(number) {
        Ok(short) => Ok(short),
        Err(_) => Err(NoMemory),
    }
}

impl Numbers {
    /// The numbers of no entries.
    pub(crate) fn new(alloc: Global) -> Self
        ensures { result ≡ [] }
    {
        Numbers {
            numbers: SmallVec::new(alloc),
        }
    }

    /// Adds the number of one more entry.
    #[inline(always)]
    pub(crate) fn push(&mut self, number: u32) -> Result<(), NoMemory>
        ensures { OnOk result (self.new ≡ spec.with_number number self.old) }
    {
        self.numbers.push(number)?;
        Ok(())
    }

    /// The number of the entry at the place, or None if there is no such entry.
    pub(crate) fn number_at(&self, place: usize) -> Option<u32>
        ensures { result ≡ slice_get self.now place }
    {
        self.numbers.as_slice().get(place).copied()
    }

    /// Whether the entries at the two places have the same number.
    pub(crate) fn are_one(&self, left: usize, right: usize) -> bool
        ensures { result ≡ spec.are_one self.now left right }
    {
        let numbers = self.numbers.as_slice();
        match (numbers.get(left), numbers.get(right)) {
            (Some(left), Some(right)) => left == right,
            _ => false,
        }
    }
}
