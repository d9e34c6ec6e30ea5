//! The places of the elements of a list, given the hashes of their names. The places with one hash are a chain, the last of them first, so
//! that a name is found without a walk over the list.
ghost use Rattle.std.specs.Prelude.{◌≡◌, ◌++◌, ◌∷◌, [], OnOk, OnErr, slice_get};
ghost use Rattle.dp_queue.specs.steps.Places as spec;

use dp_conf::NoMemory;
use std::alloc::Global;
use std::collections::HashMap;
use std::hash::{FoldHasher, Hasher};
use std::marker::Model;

/// The hash of an element, and the last place before it with that hash.
#[derive(Clone, Copy, PartialEq, Eq)]
pub(crate) struct Link {
    pub(crate) hash: u64,
    pub(crate) before: Option<usize>,
}

/// The hashes of the elements of a list. A contract sees them in list order.
#[derive(Drop)]
pub(crate) struct Places {
    // The last place with each hash.
    lasts: HashMap<u64, usize>,
    links: Vec<Link>,
}

impl Model for Places {
    ghost use Rattle.std.specs.Prelude.{ℕ, List};
    ghost use Rattle.dp_queue.specs.steps.Places.{hashes_of, AreLasts, AreChained};

    ghost Value = { List ℕ };

    ghost view = { λ places. hashes_of places.links.items };

    ghost invariant = { λ places. AreLasts places.lasts (hashes_of places.links.items) × AreChained places.links.items };
}

/// The hash of a word, which does not depend on ASCII case.
#[tactic(auto, unfolding(crate::specs::steps::Places::word_hash))]
pub(crate) fn word_hash(word: &[u8]) -> u64
    ensures { result ≡ spec.word_hash word.now }
{
    let mut hasher = FoldHasher::default();
    for letter in word {
        hasher.write(&[letter.to_ascii_lowercase()]);
    }
    hasher.finish()
}

impl Places {
    /// Without elements. It never allocates.
    pub(crate) fn new(alloc: Global) -> Self
        ensures { result ≡ [] }
    {
        Places {
            lasts: HashMap::new(alloc),
            links: Vec::new(alloc),
        }
    }

    /// The last place with a hash.
    pub(crate) fn last(&self, hash: u64) -> Option<usize>
        ensures { result ≡ spec.last_place self.now hash }
    {
        self.lasts.get(&hash).copied()
    }

    /// The last place before this one with the same hash.
    pub(crate) fn before(&self, place: usize) -> Option<usize>
        ensures { result ≡ spec.place_before self.now place (slice_get self.now place) }
    {
        match self.links.get(place) {
            Some(link) => link.before,
            None => None,
        }
    }

    /// Adds one more element at the end. If memory runs out nothing changes.
    pub(crate) fn push(&mut self, hash: u64) -> Result<(), NoMemory>
        ensures ok { OnOk result (self.new ≡ self.old ++ hash ∷ []) }
        ensures err { OnErr result (self.new ≡ self.old) }
    {
        let place = self.links.len();
        let before = self.lasts.get(&hash).copied();
        self.links.reserve(1)?;
        self.lasts.insert(hash, place)?;
        self.links.push(Link { hash, before }).unwrap();
        Ok(())
    }
}
