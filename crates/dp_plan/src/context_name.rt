//! The name of the context to whose section lines belong.
ghost use Rattle.std.specs.Prelude.{◌≡◌, IfOk, nat_eq};
ghost use Rattle.std.specs.Hash as fed;
ghost use Rattle.std.specs.Cmp.Lexicographic.{pointwise, nat_list_eq_equiv};
ghost use Rattle.std.specs.Cmp.{partial_equiv_from_equiv};
ghost use Rattle.std.specs.Cmp.Rules.{hashing};
ghost use Rattle.std.proofs.Common.{rules};
ghost use Rattle.dp_plan.specs.steps.ContextName as spec;

use crate::shared_text::SharedText;
use dp_conf::NoMemory;
use std::alloc::Global;
use std::hash::{DefaultHasher, Hash, Hasher};
use std::marker::Model;

/// The name of a context with its hash, so that extensions are hashed without hashing the name of their context again. Copying it never
/// allocates. A contract sees it as its bytes.
#[derive(Drop)]
pub(crate) struct ContextName {
    text: SharedText,
    hash: u64,
}

impl Model for ContextName {
    ghost use Rattle.std.specs.Prelude.{◌≡◌, ℕ, List};
    ghost use Rattle.dp_plan.specs.steps.ContextName.{name_hash};

    ghost Value = { List ℕ };

    ghost view = { λ name. name.text };

    ghost invariant = { λ name. name.hash ≡ name_hash name.text };
}

/// The hash of a name, by SipHash: names with equal full hashes are hard to find.
#[tactic(auto, unfolding(crate::specs::steps::ContextName::name_hash))]
fn name_hash(name: &[u8]) -> u64
    ensures { result ≡ spec.name_hash name.now }
{
    let mut hasher = DefaultHasher::new();
    hasher.write(name);
    hasher.finish()
}

impl ContextName {
    /// A shared name with these bytes.
    pub(crate) fn copy_of(alloc: Global, bytes: &[u8]) -> Result<Self, NoMemory>
        ensures { IfOk result (λ name. name ≡ bytes.now) }
    {
        let text = SharedText::copy_of(alloc, bytes)?;
        let hash = name_hash(bytes);
        Ok(ContextName { text, hash })
    }

    /// The text of the name.
    pub(crate) fn text(&self) -> &SharedText
        ensures { result.now ≡ self.now }
    {
        &self.text
    }
}

impl Clone for ContextName {
    ghost use Rattle.std.specs.Prelude.{◌≡◌};

    ghost is_clone = { λ name copy. copy ≡ name };

    fn clone(&self) -> Result<ContextName, NoMemory> {
        let text = self.text.clone()?;
        Ok(ContextName {
            text,
            hash: self.hash,
        })
    }
}

impl PartialEq for ContextName {
    ghost eq = { pointwise nat_eq };

    ghost laws = { partial_equiv_from_equiv nat_list_eq_equiv };

    fn eq(&self, other: &ContextName) -> bool {
        self.text() == other.text()
    }
}

impl Eq for ContextName {
    ghost laws = { nat_list_eq_equiv };
}

impl Hash for ContextName {
    ghost use Rattle.std.proofs.Common.{ap};
    ghost use Rattle.std.specs.Cmp.Lexicographic.{bytes_decides};

    ghost hash_input = { λ name. fed.u64 (spec.name_hash name) };

    ghost respects_eq = { λ a b same. ap (λ name. fed.u64 (spec.name_hash name)) ((bytes_decides a b).0 same) };

    fn hash<H: Hasher>(&self, state: &mut H) {
        self.hash.hash(state);
    }
}
