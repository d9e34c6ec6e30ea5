//! A text that is kept once and shared.
ghost use Rattle.std.specs.Prelude.{◌≡◌, IfOk, nat_eq, Some};
ghost use Rattle.std.specs.Hash as fed;
ghost use Rattle.std.specs.Cmp.Lexicographic.{pointwise, nat_list_eq_equiv};
ghost use Rattle.std.specs.Cmp.{partial_equiv_from_equiv};
ghost use Rattle.std.specs.Cmp.Rules.{hashing};
ghost use Rattle.std.proofs.Common.{rules};
ghost use Rattle.dp_conf.specs.Printed.{printed_text};

use dp_conf::{NoMemory, Text};
use indexmap::Equivalent;
use std::alloc::Global;
use std::fmt;
use std::hash::{Hash, Hasher};
use std::marker::Model;
use std::sync::Arc;

/// A text that may have several owners. Copying it never allocates. A contract sees it as its bytes, and two texts are
/// equal if their bytes are equal.
pub struct SharedText {
    text: Arc<Text>,
}

impl Drop for SharedText {
    #[inline(always)]
    fn drop(self) {
        let SharedText { text: _ } = self;
    }
}

impl Model for SharedText {
    ghost use Rattle.std.specs.Prelude.{ℕ, List};
    ghost use Rattle.std.specs.Arc.{arc_value};

    ghost Value = { List ℕ };

    ghost view = { λ shared. arc_value shared.text };
}

impl SharedText {
    /// The text, to be shared.
    ///
    /// It fails only if memory runs out.
    pub fn new(alloc: Global, text: Text) -> Result<Self, NoMemory>
        ensures { IfOk result (λ shared. shared ≡ text) }
    {
        let text = Arc::new(alloc, text)?;
        Ok(SharedText { text })
    }

    /// A text with the same bytes, to be shared.
    pub(crate) fn copy_of(alloc: Global, bytes: &[u8]) -> Result<Self, NoMemory>
        ensures { IfOk result (λ shared. shared ≡ bytes.now) }
    {
        let text = Text::copy_of(alloc, bytes)?;
        SharedText::new(alloc, text)
    }

    /// The text.
    pub fn text(&self) -> &Text
        ensures { result.now ≡ self.now }
    {
        &self.text
    }

    /// The bytes of the text.
    pub fn bytes(&self) -> &[u8]
        ensures { result.now ≡ self.now }
    {
        self.text.bytes()
    }
}

impl Clone for SharedText {
    ghost use Rattle.std.specs.Prelude.{◌≡◌};

    ghost is_clone = { λ shared copy. copy ≡ shared };

    fn clone(&self) -> Result<SharedText, NoMemory> {
        let text = self.text.clone()?;
        Ok(SharedText { text })
    }
}

impl PartialEq for SharedText {
    ghost eq = { pointwise nat_eq };

    ghost laws = { partial_equiv_from_equiv nat_list_eq_equiv };

    fn eq(&self, other: &SharedText) -> bool {
        self.text() == other.text()
    }
}

impl Eq for SharedText {
    ghost laws = { nat_list_eq_equiv };
}

impl Hash for SharedText {
    ghost hash_input = { fed.slice fed.u8 };

    ghost respects_eq = { Prim.search (hashing, rules) };

    fn hash<H: Hasher>(&self, state: &mut H) {
        self.text().hash(state);
    }
}

impl Equivalent<SharedText> for &Text {
    ghost equivalent = { λ text shared. pointwise nat_eq text.now shared };

    ghost respects_hash = { Prim.search (hashing, rules) };

    ghost respects_eq = { λ text. nat_list_eq_equiv.congr text.now };

    fn equivalent(&self, key: &SharedText) -> bool {
        *self == key.text()
    }
}

impl fmt::Debug for SharedText {
    fn fmt<W: fmt::Write>(&self, f: &mut fmt::Formatter<W>) -> fmt::Result {
        fmt::Debug::fmt(self.text(), f)
    }
}

impl fmt::Display for SharedText {
    ghost output = { λ shared. Some (printed_text shared) };

    fn fmt<W: fmt::Write>(&self, f: &mut fmt::Formatter<W>) -> fmt::Result {
        fmt::Display::fmt(self.text(), f)
    }
}
