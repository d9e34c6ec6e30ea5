//! The names of locals.
ghost use Rattle.std.specs.Prelude.{◌≡◌, ◌++◌, IfOk, OnErr, OnOk};

use dp_conf::NoMemory;
use smallvec::SmallVec;
use std::alloc::Global;
use std::marker::Model;

/// The name of a local, which is not allocated if it is short, such as `ARG1`.
///
/// A contract sees it as its bytes.
pub struct LocalName {
    bytes: SmallVec<u8, 24>,
}

impl Drop for LocalName {
    #[inline(always)]
    fn drop(self) {
        let LocalName { bytes: _ } = self;
    }
}

impl Model for LocalName {
    ghost use Rattle.std.specs.Prelude.{ℕ, List};

    ghost Value = { List ℕ };

    ghost view = { λ name. name.bytes.items };
}

impl LocalName {
    /// A name with the same bytes. It allocates only if there are more than 24, and fails only if memory runs out.
    pub fn copy_of(alloc: Global, bytes: &[u8]) -> Result<Self, NoMemory>
        ensures { IfOk result (λ name. name ≡ bytes.now) }
    {
        let bytes = SmallVec::from_slice(alloc, bytes)?;
        Ok(LocalName { bytes })
    }

    /// Adds bytes at the end. If memory runs out nothing changes.
    pub fn push_all(&mut self, bytes: &[u8]) -> Result<(), NoMemory>
        ensures ok { OnOk result (self.new ≡ self.old ++ bytes.now) }
        ensures err { OnErr result (self.new ≡ self.old) }
    {
        self.bytes.extend_from_slice(bytes)?;
        Ok(())
    }

    /// The bytes of the name.
    pub fn bytes(&self) -> &[u8]
        ensures { result.now ≡ self.now }
    {
        self.bytes.as_slice()
    }
}
