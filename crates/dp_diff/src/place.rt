//! The place of an entry in a look-up.
ghost use Rattle.std.specs.Prelude.{◌≡◌, ◌++◌};
ghost use Rattle.std.specs.Cmp.{partial_equiv_from_equiv};
ghost use Rattle.std.specs.Hash as fed;
ghost use Rattle.std.specs.Cmp.Rules.{hashing};
ghost use Rattle.std.proofs.Common.{rules};
ghost use Rattle.dp_pattern.specs.Spelling.{spelling};
ghost use Rattle.dp_plan.specs.Ranking.{shares_place};
ghost use Rattle.dp_diff.specs.steps.Places.{shares_place_equiv};

use dp_plan::Entry;
use std::hash::{Hash, Hasher};
use std::marker::Model;

/// An entry in a table of places. A contract sees it as the entry. Two of them are equal if their names have one meaning and their
/// priorities are equal.
#[derive(Drop)]
pub(crate) struct TablePlace<'a> {
    entry: &'a Entry,
}

impl<'a> Model for TablePlace<'a> {
    ghost use Rattle.dp_plan.specs.declared.entry.Entry.{Entry};

    ghost Value = { Entry };

    ghost view = { λ place. place.entry.now };
}

impl<'a> TablePlace<'a> {
    /// The place of the entry.
    pub(crate) fn of(entry: &'a Entry) -> Self
        ensures { result ≡ entry.now }
    {
        TablePlace { entry }
    }

    /// The entry.
    pub(crate) fn entry(&self) -> &'a Entry
        ensures { result.now ≡ self.now }
    {
        self.entry
    }
}

impl<'a> PartialEq for TablePlace<'a> {
    ghost eq = { shares_place };

    ghost laws = { partial_equiv_from_equiv shares_place_equiv };

    fn eq(&self, other: &Self) -> bool {
        let (one, other) = (self.entry(), other.entry());
        one.name.spelling() == other.name.spelling() && one.priority == other.priority
    }
}

impl<'a> Eq for TablePlace<'a> {
    ghost laws = { shares_place_equiv };
}

impl<'a> Hash for TablePlace<'a> {
    ghost hash_input = { λ place. fed.slice fed.u8 (spelling place.name) ++ fed.u32 place.priority };

    ghost respects_eq = { Prim.search (hashing, rules) };

    fn hash<H: Hasher>(&self, state: &mut H) {
        self.entry.name.spelling().hash(state);
        self.entry.priority.get().hash(state);
    }
}
