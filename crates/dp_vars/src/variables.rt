//! A map from the names of variables to their values.
ghost use Rattle.std.specs.Prelude.{◌≡◌, OnErr, OnOk};
ghost use Rattle.std.specs.FinMap as finite;
ghost use Rattle.std.specs.Option.{option_map};
ghost use Rattle.dp_vars.specs.Variables.{without_tree};

use dp_conf::{NoMemory, Text};
use std::alloc::Global;
use std::collections::BTreeMap;
use std::marker::Model;

/// Variables with their values. Names are compared by their bytes, and a look-up takes time logarithmic in their
/// number, whatever names a dialplan chooses.
#[derive(Drop)]
pub(crate) struct Variables {
    held: BTreeMap<Vec<u8>, Text>,
}

impl Model for Variables {
    ghost use Rattle.std.specs.Prelude.{ℕ, List, map};
    ghost use Rattle.std.specs.Ordering.{nat_cmp};
    ghost use Rattle.std.specs.Cmp.Lexicographic.{slice_cmp};
    ghost use Rattle.std.specs.FinMap as finite;
    ghost use Rattle.std.specs.Coded.{coded_ℕ, coded_list};

    ghost Value = { finite.FinMap (slice_cmp nat_cmp) (List ℕ) };

    ghost coded = { finite.code (coded_list coded_ℕ) (coded_list coded_ℕ) };

    ghost view = { λ variables. finite.from_entries (map (λ entry. (entry.0.items, entry.1)) variables.held.entries) };
}

impl Variables {
    /// Without variables. It never allocates.
    pub(crate) fn new(alloc: Global) -> Self
        ensures { result ≡ finite.empty }
    {
        Variables {
            held: BTreeMap::new(alloc),
        }
    }

    /// The value of a name, if it has one.
    pub(crate) fn get(&self, name: &[u8]) -> Option<&[u8]>
        ensures { option_map (λ value. value.now) result ≡ finite.get self.now name.now }
    {
        match self.held.get(name) {
            Some(value) => Some(value.bytes()),
            None => None,
        }
    }

    /// Sets the value of a name. If memory runs out nothing changes.
    pub(crate) fn insert(
        &mut self,
        alloc: Global,
        name: &[u8],
        value: &[u8],
    ) -> Result<(), NoMemory>
        ensures ok { OnOk result (self.new ≡ finite.insert self.old name.now value.now) }
        ensures err { OnErr result (self.new ≡ self.old) }
    {
        let value = Text::copy_of(alloc, value)?;
        if let Some(held) = self.held.get_mut(name) {
            *held = value;
            return Ok(());
        }
        let key = Vec::from_slice(alloc, name)?;
        self.held.insert(key, value)?;
        Ok(())
    }

    /// Removes the variable whose name is the root, and each one whose name begins with the front.
    pub(crate) fn remove_tree(&mut self, root: &[u8], front: &[u8])
        ensures { self.new ≡ without_tree root.now front.now self.old }
    {
        self.held.retain(|name, _| !(name.as_slice() == root || name.starts_with(front)));
    }
}

impl Clone for Variables {
    ghost is_clone = { λ variables copy. copy ≡ variables };

    fn clone(&self) -> Result<Self, NoMemory> {
        let held = self.held.clone()?;
        Ok(Variables { held })
    }
}
