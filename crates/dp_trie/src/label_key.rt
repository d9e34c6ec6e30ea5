//! A label, by which the names that have it are looked up.
ghost use Rattle.std.specs.Prelude.{◌≡◌, IfOk, nat_eq};
ghost use Rattle.std.specs.Hash as fed;
ghost use Rattle.std.specs.Cmp.Lexicographic.{pointwise, nat_list_eq_equiv};
ghost use Rattle.std.specs.Cmp.{partial_equiv_from_equiv};
ghost use Rattle.std.specs.Cmp.Rules.{hashing};
ghost use Rattle.std.proofs.Common.{rules};

use dp_lookup::NoMemory;
use dp_plan::SharedText;
use indexmap::Equivalent;
use std::hash::{Hash, Hasher};
use std::marker::Model;

/// A label. A contract sees it as its bytes, which alone decide a look-up.
#[derive(Drop)]
pub(crate) struct LabelKey {
    label: SharedText,
}

impl Model for LabelKey {
    ghost use Rattle.std.specs.Prelude.{ℕ, List};

    ghost Value = { List ℕ };

    ghost view = { λ key. key.label };
}

impl LabelKey {
    /// The key of the label. It never allocates.
    pub(crate) fn of(label: &SharedText) -> Result<Self, NoMemory>
        ensures { IfOk result (λ key. key ≡ label.now) }
    {
        let label = label.clone()?;
        Ok(LabelKey { label })
    }

    /// The bytes of the label.
    fn bytes(&self) -> &[u8]
        ensures { result.now ≡ self.now }
    {
        self.label.bytes()
    }
}

impl PartialEq for LabelKey {
    ghost eq = { pointwise nat_eq };

    ghost laws = { partial_equiv_from_equiv nat_list_eq_equiv };

    fn eq(&self, other: &LabelKey) -> bool {
        self.bytes() == other.bytes()
    }
}

impl Eq for LabelKey {
    ghost laws = { nat_list_eq_equiv };
}

impl Hash for LabelKey {
    ghost hash_input = { fed.slice fed.u8 };

    ghost respects_eq = { Prim.search (hashing, rules) };

    fn hash<H: Hasher>(&self, state: &mut H) {
        self.bytes().hash(state);
    }
}

impl Equivalent<LabelKey> for &[u8] {
    ghost equivalent = { λ label key. pointwise nat_eq label.now key };

    ghost respects_hash = { Prim.search (hashing, rules) };

    ghost respects_eq = { λ label. nat_list_eq_equiv.congr label.now };

    fn equivalent(&self, key: &LabelKey) -> bool {
        *self == key.bytes()
    }
}
