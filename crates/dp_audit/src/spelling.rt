//! The spelling of the name of an extension, by which it is looked up.
ghost use Rattle.std.specs.Prelude.{◌≡◌, IfOk, nat_eq};
ghost use Rattle.std.specs.Hash as fed;
ghost use Rattle.std.specs.Cmp.Lexicographic.{pointwise, nat_list_eq_equiv};
ghost use Rattle.std.specs.Cmp.{partial_equiv_from_equiv};
ghost use Rattle.std.specs.Cmp.Rules.{hashing};
ghost use Rattle.std.proofs.Common.{rules};
ghost use Rattle.dp_pattern.specs.Spelling.{spelling};

use dp_plan::{NoMemory, SharedName};
use std::hash::{Hash, Hasher};
use std::marker::Model;

/// The canonical spelling of a name. A contract sees it as its bytes.
#[derive(Drop)]
pub(crate) struct Spelling {
    name: SharedName,
}

impl Model for Spelling {
    ghost use Rattle.std.specs.Prelude.{ℕ, List};
    ghost use Rattle.dp_pattern.specs.Spelling.{spelling};

    ghost Value = { List ℕ };

    ghost view = { λ held. spelling held.name };
}

impl Spelling {
    /// The spelling of the name. It never allocates.
    pub(crate) fn of(name: &SharedName) -> Result<Self, NoMemory>
        ensures { IfOk result (λ held. held ≡ spelling name.now) }
    {
        let name = name.clone()?;
        Ok(Spelling { name })
    }

    /// The bytes of the spelling.
    fn bytes(&self) -> &[u8]
        ensures { result.now ≡ self.now }
    {
        self.name.spelling()
    }
}

impl PartialEq for Spelling {
    ghost eq = { pointwise nat_eq };

    ghost laws = { partial_equiv_from_equiv nat_list_eq_equiv };

    fn eq(&self, other: &Spelling) -> bool {
        self.bytes() == other.bytes()
    }
}

impl Eq for Spelling {
    ghost laws = { nat_list_eq_equiv };
}

impl Hash for Spelling {
    ghost hash_input = { fed.slice fed.u8 };

    ghost respects_eq = { Prim.search (hashing, rules) };

    fn hash<H: Hasher>(&self, state: &mut H) {
        self.bytes().hash(state);
    }
}
