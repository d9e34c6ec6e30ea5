//! The name of an extension, shared by all its entries.
ghost use Rattle.std.specs.Prelude.{◌≡◌, IfOk, nat_eq};
ghost use Rattle.std.specs.Hash as fed;
ghost use Rattle.std.specs.Cmp.Lexicographic.{pointwise, nat_list_eq_equiv};
ghost use Rattle.std.specs.Cmp.{partial_equiv_from_equiv};
ghost use Rattle.std.specs.Cmp.Rules.{hashing};
ghost use Rattle.std.proofs.Common.{rules};
ghost use Rattle.dp_pattern.specs.Name.{Meaning, IsName};
ghost use Rattle.dp_pattern.specs.Spelling.{spelling};
ghost use Rattle.dp_plan.specs.steps.SharedName.{spelled_by};

use dp_conf::NoMemory;
use dp_pattern::{Name, Parts};
use std::alloc::Global;
use std::hash::{Hash, Hasher};
use std::marker::Model;
use std::sync::Arc;

/// A name, with the spelling of a pattern. A plain name is its own spelling, so that it needs no other.
#[derive(Debug, Drop)]
pub(crate) struct Spelled {
    name: Name,
    written: Vec<u8>,
}

/// The name of an extension with its canonical spelling. It may have several owners, and copying it never allocates. A
/// contract sees it as the meaning of the name.
#[derive(Debug)]
pub struct SharedName {
    spelled: Arc<Spelled>,
}

impl Drop for SharedName {
    #[inline(always)]
    fn drop(self) {
        let SharedName { spelled: _ } = self;
    }
}

impl Model for SharedName {
    ghost use Rattle.std.specs.Prelude.{◌≡◌};
    ghost use Rattle.std.specs.Arc.{arc_value};
    ghost use Rattle.dp_pattern.specs.Name.{Meaning};
    ghost use Rattle.dp_pattern.specs.Spelling.{spelling};
    ghost use Rattle.dp_plan.specs.steps.SharedName.{spelled_by};

    ghost Value = { Meaning };

    ghost view = { λ shared. (arc_value shared.spelled).name };

    ghost invariant = { λ shared. spelled_by (arc_value shared.spelled).name (arc_value shared.spelled).written.items
        ≡ spelling (arc_value shared.spelled).name };
}

/// The text that is kept next to a name: the spelling of a pattern.
#[tactic(auto, unfolding(dp_pattern::specs::Spelling::spelling))]
fn written_beside(alloc: Global, name: &Name) -> Result<Vec<u8>, NoMemory>
    ensures { IfOk result (λ written. spelled_by name.now written.items ≡ spelling name.now) }
{
    match name.parts() {
        Parts::Plain(_) => Ok(Vec::new(alloc)),
        Parts::Pattern(_, _) => name.text(alloc),
    }
}

impl SharedName {
    /// The name, to be shared.
    ///
    /// It fails only if memory runs out.
    pub fn new(alloc: Global, name: Name) -> Result<Self, NoMemory>
        ensures { IfOk result (λ shared. shared ≡ name) }
    {
        let written = written_beside(alloc, &name)?;
        let spelled = Arc::new(alloc, Spelled { name, written })?;
        Ok(SharedName { spelled })
    }

    /// The name.
    pub fn name(&self) -> &Name
        ensures { result.now ≡ self.now }
    {
        &self.spelled.name
    }

    /// The canonical spelling of the name, which is made once. It never allocates.
    pub fn spelling(&self) -> &[u8]
        ensures { result.now ≡ spelling self.now }
    {
        match self.spelled.name.parts() {
            Parts::Plain(text) => text,
            Parts::Pattern(_, _) => &self.spelled.written,
        }
    }
}

impl Clone for SharedName {
    ghost use Rattle.std.specs.Prelude.{◌≡◌};

    ghost is_clone = { λ shared copy. copy ≡ shared };

    fn clone(&self) -> Result<SharedName, NoMemory> {
        let spelled = self.spelled.clone()?;
        Ok(SharedName { spelled })
    }
}

/// The canonical spelling of a name. A contract sees it as its bytes.
#[derive(Drop)]
pub(crate) struct SharedSpelling {
    name: SharedName,
}

impl Model for SharedSpelling {
    ghost use Rattle.std.specs.Prelude.{ℕ, List};
    ghost use Rattle.dp_pattern.specs.Spelling.{spelling};

    ghost Value = { List ℕ };

    ghost view = { λ shared. spelling shared.name };
}

impl SharedSpelling {
    /// The spelling of the name. It never allocates.
    pub(crate) fn of(name: &SharedName) -> Result<Self, NoMemory>
        ensures { IfOk result (λ shared. shared ≡ spelling name.now) }
    {
        let name = name.clone()?;
        Ok(SharedSpelling { name })
    }

    /// The bytes of the spelling.
    fn bytes(&self) -> &[u8]
        ensures { result.now ≡ self.now }
    {
        self.name.spelling()
    }
}

impl PartialEq for SharedSpelling {
    ghost eq = { pointwise nat_eq };

    ghost laws = { partial_equiv_from_equiv nat_list_eq_equiv };

    fn eq(&self, other: &SharedSpelling) -> bool {
        self.bytes() == other.bytes()
    }
}

impl Eq for SharedSpelling {
    ghost laws = { nat_list_eq_equiv };
}

impl Hash for SharedSpelling {
    ghost hash_input = { fed.slice fed.u8 };

    ghost respects_eq = { Prim.search (hashing, rules) };

    fn hash<H: Hasher>(&self, state: &mut H) {
        self.bytes().hash(state);
    }
}
