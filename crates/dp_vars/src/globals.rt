//! The global variables, after the Asterisk documentation's page on variables.
ghost use Rattle.std.specs.Prelude.{◌≡◌, ◌∷◌, [], OnErr, OnOk, is_some};
ghost use Rattle.std.specs.FinMap as finite;
ghost use Rattle.std.specs.Option.{option_map};
ghost use Rattle.dp_vars.specs.Variables.{first_value, value_or_empty, without_tree};

use crate::variables::Variables;
use dp_conf::NoMemory;
use std::alloc::Global;
use std::marker::Model;

/// The global variables with their values. A contract sees them as a finite map from names to values.
///
/// Names are case sensitive.
pub struct Globals {
    variables: Variables,
}

impl Drop for Globals {
    #[inline(always)]
    fn drop(self) {
        let Globals { variables: _ } = self;
    }
}

impl Model for Globals {
    ghost use Rattle.std.specs.Prelude.{ℕ, List};
    ghost use Rattle.std.specs.Ordering.{nat_cmp};
    ghost use Rattle.std.specs.Cmp.Lexicographic.{slice_cmp};
    ghost use Rattle.std.specs.FinMap as finite;
    ghost use Rattle.std.specs.Coded.{coded_ℕ, coded_list};

    ghost Value = { finite.FinMap (slice_cmp nat_cmp) (List ℕ) };

    ghost coded = { finite.code (coded_list coded_ℕ) (coded_list coded_ℕ) };

    ghost view = { λ globals. globals.variables };
}

impl Globals {
    /// Without globals. It never allocates.
    pub fn new(alloc: Global) -> Self
        ensures { result ≡ finite.empty }
    {
        Globals {
            variables: Variables::new(alloc),
        }
    }

    /// Sets the value of the global with that name. If memory runs out nothing changes.
    pub fn put(&mut self, alloc: Global, name: &[u8], value: &[u8]) -> Result<(), NoMemory>
        ensures ok { OnOk result (self.new ≡ finite.insert self.old name.now value.now) }
        ensures err { OnErr result (self.new ≡ self.old) }
    {
        self.variables.insert(alloc, name, value)
    }

    /// Whether there is a global with that name.
    pub fn has(&self, name: &[u8]) -> bool
        ensures { result ≡ is_some (first_value (self.now ∷ []) name.now) }
    {
        self.variables.get(name).is_some()
    }

    /// The value of the global with that name, if there is one.
    pub fn get(&self, name: &[u8]) -> Option<&[u8]>
        ensures { option_map (λ value. value.now) result ≡ first_value (self.now ∷ []) name.now }
    {
        match self.variables.get(name) {
            Some(value) => Some(value),
            None => None,
        }
    }

    /// The value of the global with that name, or the empty text if there is none.
    pub fn at(&self, name: &[u8]) -> &[u8]
        ensures { result.now ≡ value_or_empty (self.now ∷ []) name.now }
    {
        match self.variables.get(name) {
            Some(value) => value,
            None => b"",
        }
    }

    /// Removes the global whose name is the root, and each one whose name begins with the front.
    pub fn remove_tree(&mut self, root: &[u8], front: &[u8])
        ensures { self.new ≡ without_tree root.now front.now self.old }
    {
        self.variables.remove_tree(root, front);
    }
}

impl Clone for Globals {
    ghost is_clone = { λ globals copy. copy ≡ globals };

    fn clone(&self) -> Result<Self, NoMemory> {
        let variables = self.variables.clone()?;
        Ok(Globals { variables })
    }
}
