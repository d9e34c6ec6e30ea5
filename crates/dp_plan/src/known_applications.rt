//! The names of applications that occur in lines, each kept once.
ghost use Rattle.std.specs.Prelude.{◌≡◌, [], IfOk, IfSome, OnOk};
ghost use Rattle.dp_plan.specs.steps.KnownApplications.{is_known, with_known_name};

use crate::shared_text::SharedText;
use dp_conf::NoMemory;
use std::alloc::Global;
use std::marker::Model;

/// The greatest number of names that are kept, so that a search among them stays short (a choice of this program).
const MOST_KNOWN: usize = 32;

/// The first names of applications as written, at most 32. Lines that write one of them share its text. A contract sees the names in the
/// order in which they came.
#[derive(Drop)]
pub(crate) struct KnownApplications {
    names: Vec<SharedText>,
}

impl Model for KnownApplications {
    ghost use Rattle.std.specs.Prelude.{ℕ, List, ◌≤◌, length};

    ghost Value = { List (List ℕ) };

    ghost view = { λ known. known.names.items };

    ghost invariant = { λ known. length known.names.items ≤ 32 };
}

impl KnownApplications {
    /// Without names.
    pub(crate) fn new(alloc: Global) -> Self
        ensures { result ≡ [] }
    {
        KnownApplications {
            names: Vec::new(alloc),
        }
    }

    /// The name that is written this way, if it is kept.
    fn find(&self, name: &[u8]) -> Option<&SharedText>
        ensures { IfSome result (λ known. known.now ≡ name.now) }
    {
        self.names.iter().find(|known| known.bytes() == name)
    }

    /// Whether a name that is written this way is kept.
    fn is_known(&self, name: &SharedText) -> bool
        ensures { result ≡ is_known self.now name.now }
    {
        self.names.contains(name)
    }

    /// Keeps the name too, unless it is kept already or there are 32.
    fn keep(&mut self, name: &SharedText) -> Result<(), NoMemory>
        ensures { OnOk result (self.new ≡ with_known_name self.old name.now) }
    {
        if self.names.len() >= MOST_KNOWN || self.is_known(name) {
            return Ok(());
        }
        let name = name.clone()?;
        self.names.push(name)?;
        Ok(())
    }

    /// The shared name if it is kept. Otherwise a new text, which is kept from then on if there is room.
    pub(crate) fn share(&mut self, alloc: Global, name: &[u8]) -> Result<SharedText, NoMemory>
        ensures { IfOk result (λ shared. shared ≡ name.now) }
    {
        if let Some(known) = self.find(name) {
            return known.clone();
        }
        let shared = SharedText::copy_of(alloc, name)?;
        self.keep(&shared)?;
        Ok(shared)
    }
}
