//! A text in memory that grows with what it is given.

use crate::sink::ListingSink;
use dp_plan::NoMemory;
use std::alloc::Global;

/// A text in memory, or the error if memory ran out.
#[derive(Drop)]
pub(crate) struct Whole {
    text: Result<Vec<u8>, NoMemory>,
}

impl Whole {
    ghost use Rattle.std.specs.Prelude.{◌≡◌, [], IfOk};

    /// An empty text.
    pub(crate) fn new(alloc: Global) -> Self
        ensures { IfOk result.text (λ text. text.items ≡ []) }
    {
        Whole {
            text: Ok(Vec::new(alloc)),
        }
    }

    /// The text with all bytes that it was given. The error is out of memory.
    pub(crate) fn into_text(self) -> Result<Vec<u8>, NoMemory>
        ensures { result ≡ self.text }
    {
        let Whole { text } = self;
        text
    }
}

impl ListingSink for Whole {
    ghost use Rattle.dp_lister.specs.laws.Growing.{grows_laws};
    ghost use Rattle.dp_lister.specs.steps.Growing.{Grows};

    ghost takes = { λ old new bytes. Grows (λ text. text.items) old.text new.text bytes };

    ghost laws = { grows_laws (λ whole. whole.text) (λ text. text.items) };

    fn has_failed(&self) -> bool {
        self.text.is_err()
    }

    fn put(&mut self, bytes: &[u8]) {
        let Ok(text) = &mut self.text else {
            return;
        };
        if let Err(fault) = text.extend_from_slice(bytes) {
            self.text = Err(fault);
        }
    }
}
