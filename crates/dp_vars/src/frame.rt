//! The frames of a channel, which may have locals.
ghost use Rattle.std.specs.Prelude.{◌≡◌, ◌∷◌, ◌++◌, [], OnErr, OnOk};
ghost use Rattle.dp_vars.specs.steps.Tables.{with_number};

use dp_conf::NoMemory;
use smallvec::SmallVec;
use std::alloc::Global;
use std::marker::Model;

/// The numbers of names, of which the first two need no memory on the heap.
#[derive(Drop)]
pub(crate) struct NameNumbers {
    held: SmallVec<usize, 2>,
}

impl Model for NameNumbers {
    ghost use Rattle.std.specs.Prelude.{ℕ, List};

    ghost Value = { List ℕ };

    ghost view = { λ numbers. numbers.held.items };
}

impl NameNumbers {
    /// Without numbers. It never allocates.
    pub(crate) fn new(alloc: Global) -> Self
        ensures { result ≡ [] }
    {
        NameNumbers {
            held: SmallVec::new(alloc),
        }
    }

    /// Adds a number at the end. If memory runs out nothing changes.
    pub(crate) fn add(&mut self, number: usize) -> Result<(), NoMemory>
        ensures ok { OnOk result (self.new ≡ self.old ++ number ∷ []) }
        ensures err { OnErr result (self.new ≡ self.old) }
    {
        self.held.push(number)?;
        Ok(())
    }

    /// The numbers, in the order in which they were added.
    pub(crate) fn all(&self) -> &[usize]
        ensures { result.now ≡ self.now }
    {
        self.held.as_slice()
    }
}

/// The place to which a subroutine returns, and the numbers of its locals, whose values are in a table.
#[derive(Drop)]
pub(crate) struct HeldFrame<B> {
    pub(crate) back: B,
    pub(crate) numbers: NameNumbers,
}

/// Adds a number to those of the innermost frame, which is the last. If memory runs out nothing changes.
pub(crate) fn note<B>(frames: &mut Vec<HeldFrame<B>>, number: usize) -> Result<(), NoMemory>
    ensures ok { OnOk result (frames.new.items ≡ with_number number frames.old.items) }
    ensures err { OnErr result (frames.new.items ≡ frames.old.items) }
{
    if let Some(frame) = frames.last_mut() {
        frame.numbers.add(number)?;
    }
    Ok(())
}

impl Clone for NameNumbers {
    ghost is_clone = { λ numbers copy. copy ≡ numbers };

    fn clone(&self) -> Result<Self, NoMemory> {
        let held = self.held.clone()?;
        Ok(NameNumbers { held })
    }
}

impl<B: Clone> Clone for HeldFrame<B> {
    ghost is_clone = { λ frame copy. B.is_clone frame.back copy.back × (copy.numbers ≡ frame.numbers) };

    fn clone(&self) -> Result<Self, NoMemory> {
        let back = self.back.clone()?;
        let numbers = self.numbers.clone()?;
        Ok(HeldFrame { back, numbers })
    }
}
