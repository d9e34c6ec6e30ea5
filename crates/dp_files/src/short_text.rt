//! Texts that are short, as most names of extensions are.
ghost use Rattle.std.specs.Prelude.{◌≡◌, IfOk};

use dp_conf::NoMemory;
use smallvec::SmallVec;
use std::alloc::Global;
use std::marker::Model;

/// A text that needs memory of its own only if it has more than 24 bytes. A contract sees it as its bytes.
#[derive(Drop)]
pub(crate) struct ShortText {
    bytes: SmallVec<u8, 24>,
}

impl Model for ShortText {
    ghost use Rattle.std.specs.Prelude.{ℕ, List};

    ghost Value = { List ℕ };

    ghost view = { λ text. text.bytes.items };
}

impl ShortText {
    /// A text with these bytes.
    pub(crate) fn copy_of(alloc: Global, bytes: &[u8]) -> Result<Self, NoMemory>
        ensures { IfOk result (λ text. text ≡ bytes.now) }
    {
        let bytes = SmallVec::from_slice(alloc, bytes)?;
        Ok(ShortText { bytes })
    }

    /// A copy of the text.
    pub(crate) fn copy(&self) -> Result<Self, NoMemory>
        ensures { IfOk result (λ copy. copy ≡ self.now) }
    {
        let bytes = self.bytes.clone()?;
        Ok(ShortText { bytes })
    }

    /// The bytes of the text.
    pub(crate) fn bytes(&self) -> &[u8]
        ensures { result.now ≡ self.now }
    {
        self.bytes.as_slice()
    }
}
