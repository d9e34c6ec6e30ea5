//! Changes that are made after a setting has allocated its memory and before it takes effect.
ghost use Rattle.std.specs.Prelude.{◌≡◌, OnErr, OnOk};

use dp_conf::NoMemory;
use std::alloc::Global;

/// A change of a target, which fails if memory runs out.
pub trait Change<T> {
    // The target after the change.
    ghost after: { Self → T → T };

    /// Changes the target. If memory runs out the target is as before.
    fn run(&self, alloc: Global, target: &mut T) -> Result<(), NoMemory>
        ensures ok { OnOk result (target.new ≡ after self.now target.old) }
        ensures err { OnErr result (target.new ≡ target.old) };
}

/// No change.
pub(crate) struct Nothing;

impl Change<()> for Nothing {
    ghost after = { λ _ target. target };

    fn run(&self, _: Global, _: &mut ()) -> Result<(), NoMemory> {
        Ok(())
    }
}
