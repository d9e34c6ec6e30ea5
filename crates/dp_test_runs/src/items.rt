//! Items in order, which contracts see as their list.
ghost use Rattle.std.specs.Prelude.{◌≡◌, ◌∷◌, ◌++◌, [], OnErr, OnOk};

use dp_plan::NoMemory;
use std::alloc::Global;
use std::marker::Model;

/// Items in order. Contracts see them as their list.
#[derive(Drop)]
pub struct RunItems<T> {
    kept: Vec<T>,
}

impl<T> Model for RunItems<T> {
    ghost use Rattle.std.specs.Prelude.{List};

    ghost Value = { List T };

    ghost view = { λ items. items.kept.items };
}

impl<T> RunItems<T> {
    /// No items. It never allocates.
    pub fn none(alloc: Global) -> Self
        ensures { result ≡ [] }
    {
        RunItems {
            kept: Vec::new(alloc),
        }
    }

    /// The items, in order.
    pub fn as_slice(&self) -> &[T]
        ensures { result.now ≡ self.now }
    {
        &self.kept
    }
}

impl<T: Drop> RunItems<T> {
    /// Adds an item after the others. After a refused growth all is as before.
    pub fn push(&mut self, item: T) -> Result<(), NoMemory>
        ensures ok { OnOk result (self.new ≡ self.old ++ item ∷ []) }
        ensures err { OnErr result (self.new ≡ self.old) }
    {
        self.kept.push(item)?;
        Ok(())
    }

    /// Adds other items after these. After a refused growth all is as before.
    pub fn append(&mut self, other: Self) -> Result<(), NoMemory>
        ensures ok { OnOk result (self.new ≡ self.old ++ other) }
        ensures err { OnErr result (self.new ≡ self.old) }
    {
        let RunItems { mut kept } = other;
        self.kept.append(&mut kept)?;
        Ok(())
    }
}
