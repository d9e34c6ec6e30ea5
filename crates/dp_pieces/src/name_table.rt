//! A table of what is known of the values of names.
ghost use Rattle.std.specs.Prelude.{◌≡◌, ℕ, List, false, ◌&&◌, ◌||◌, OnErr, OnOk, IsTrue};
ghost use Rattle.dp_conf.specs.Words.{same_text};
ghost use Rattle.dp_pieces.specs.Bytes.{IsPart, digits, either};
ghost use Rattle.dp_pieces.specs.Names.{IsWhole};
ghost use Rattle.dp_pieces.specs.Sets.{set_by};
ghost use Rattle.dp_pieces.specs.Tables.{names_in, own_set};

use crate::byte_set::ByteSet;
use dp_conf::NoMemory;
use indexmap::IndexMap;
use std::alloc::Global;
use std::marker::Model;

/// The bytes that the values of names may have: some that each name may have, and further ones for some names.
#[derive(Drop)]
pub struct NameTable {
    own: IndexMap<Vec<u8>, ByteSet>,
    shared: ByteSet,
    caller: ByteSet,
    all: ByteSet,
}

impl Model for NameTable {
    ghost use Rattle.dp_pieces.specs.Tables.{Table};

    ghost Value = { Table };

    ghost view = { λ table. record { own = table.own.entries; shared = table.shared; caller = table.caller; all = table.all } };
}

impl NameTable {
    /// The table in which no name has bytes.
    pub fn new(alloc: Global) -> Self
        ensures bytes { (name : List ℕ) (b : ℕ) → (names_in result).bytes name b ≡ false }
        ensures caller { (b : ℕ) → (names_in result).caller b ≡ false }
        ensures all { (b : ℕ) → (names_in result).all b ≡ false }
    {
        NameTable {
            own: IndexMap::new(alloc),
            shared: ByteSet::none(),
            caller: ByteSet::none(),
            all: ByteSet::none(),
        }
    }

    /// The bytes that the values of the name may have.
    #[tactic(auto, using(crate::proofs::BlankLemmas::no_bytes))]
    pub fn bytes(&self, name: &[u8]) -> ByteSet
        ensures { (b : ℕ) → set_by result b ≡ (names_in self.now).bytes name.now b }
    {
        let mut set = self.shared;
        if let Some(more) = self.own.get(name) {
            set.add(more);
        }
        set
    }

    /// The bytes that the caller's number may have.
    pub fn caller(&self) -> &ByteSet
        ensures { set_by result.now ≡ (names_in self.now).caller }
    {
        &self.caller
    }

    /// The bytes that any value may have.
    pub fn all(&self) -> &ByteSet
        ensures { set_by result.now ≡ (names_in self.now).all }
    {
        &self.all
    }

    /// Whether any value may have each name's own bytes.
    fn has_own(&self) -> bool
        ensures { IsTrue result → (name : List ℕ) → IsPart (own_set self.now.own name) (set_by self.now.all) }
    {
        let entries = self.own.as_slice();
        for at in 0..entries.len() {
            if let Some((_, set)) = entries.get_index(at) {
                if !set.is_part(&self.all) {
                    return false;
                }
            }
        }
        true
    }

    /// Whether any value may have the bytes of each name.
    fn has_names(&self) -> bool
        ensures { IsTrue result → (name : List ℕ) → IsPart ((names_in self.now).bytes name) (names_in self.now).all }
    {
        self.shared.is_part(&self.all) && self.has_own()
    }

    /// Whether any value may have the bytes of the caller's number, and the digits.
    fn has_numbers(&self) -> bool
        ensures caller { IsTrue result → IsPart (names_in self.now).caller (names_in self.now).all }
        ensures digits { IsTrue result → IsPart digits (names_in self.now).all }
    {
        self.caller.is_part(&self.all) && ByteSet::digits().is_part(&self.all)
    }

    /// Whether any value may have the bytes of each name, those of the caller's number, and the digits. A new table has no digits:
    /// `hold_anywhere` adds them.
    pub fn is_whole(&self) -> bool
        ensures { IsTrue result → IsWhole (names_in self.now) }
    {
        self.has_names() && self.has_numbers()
    }

    /// Whether the values of the name may have all bytes of the set.
    pub fn has(&self, name: &[u8], set: &ByteSet) -> bool
        ensures { IsTrue result → IsPart (set_by set.now) ((names_in self.now).bytes name.now) }
    {
        set.is_part(&self.bytes(name))
    }

    /// Whether the values of each name may have all bytes of the set, as far as can be seen.
    pub fn has_everywhere(&self, set: &ByteSet) -> bool
        ensures { IsTrue result → (name : List ℕ) → IsPart (set_by set.now) ((names_in self.now).bytes name) }
    {
        set.is_part(&self.shared)
    }

    /// The bytes of the set, and the name's own bytes.
    #[tactic(auto, using(crate::proofs::BlankLemmas::no_bytes))]
    fn own_with(&self, name: &[u8], set: &ByteSet) -> ByteSet
        ensures { (b : ℕ) → set_by result b ≡ either (own_set self.now.own name.now) (set_by set.now) b }
    {
        match self.own.get(name) {
            Some(more) => more.with(set),
            None => *set,
        }
    }

    /// Lets the values of the name have the bytes of the set. If memory runs out nothing changes.
    pub fn hold(&mut self, alloc: Global, name: &[u8], set: &ByteSet) -> Result<(), NoMemory>
        ensures bytes { OnOk result ((other : List ℕ) (b : ℕ) → (names_in self.new).bytes other b
            ≡ ((names_in self.old).bytes other b || (same_text other name.now && set_by set.now b))) }
        ensures caller { OnOk result (self.new.caller ≡ self.old.caller) }
        ensures all { OnOk result ((b : ℕ) → (names_in self.new).all b ≡ either (names_in self.old).all (set_by set.now) b) }
        ensures err { OnErr result (self.new ≡ self.old) }
    {
        let wider = self.own_with(name, set);
        let mut key = Vec::new(alloc);
        key.extend_from_slice(name)?;
        self.own.insert(key, wider)?;
        self.all.add(set);
        Ok(())
    }

    /// Lets the values of each name have the bytes of the set.
    pub fn hold_everywhere(&mut self, set: &ByteSet)
        ensures bytes { (name : List ℕ) (b : ℕ) → (names_in self.new).bytes name b ≡ ((names_in self.old).bytes name b || set_by set.now b) }
        ensures caller { self.new.caller ≡ self.old.caller }
        ensures all { (b : ℕ) → (names_in self.new).all b ≡ either (names_in self.old).all (set_by set.now) b }
    {
        self.shared.add(set);
        self.all.add(set);
    }

    /// Lets the caller's number have the bytes of the set.
    pub fn hold_caller(&mut self, set: &ByteSet)
        ensures bytes { (name : List ℕ) (b : ℕ) → (names_in self.new).bytes name b ≡ (names_in self.old).bytes name b }
        ensures caller { (b : ℕ) → (names_in self.new).caller b ≡ either (names_in self.old).caller (set_by set.now) b }
        ensures all { (b : ℕ) → (names_in self.new).all b ≡ either (names_in self.old).all (set_by set.now) b }
    {
        self.caller.add(set);
        self.all.add(set);
    }

    /// Lets any value have the bytes of the set.
    pub fn hold_anywhere(&mut self, set: &ByteSet)
        ensures bytes { (name : List ℕ) (b : ℕ) → (names_in self.new).bytes name b ≡ (names_in self.old).bytes name b }
        ensures caller { self.new.caller ≡ self.old.caller }
        ensures all { (b : ℕ) → (names_in self.new).all b ≡ either (names_in self.old).all (set_by set.now) b }
    {
        self.all.add(set);
    }
}
