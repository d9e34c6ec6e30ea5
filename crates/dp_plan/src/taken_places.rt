//! The places that entries have taken.
ghost use Rattle.std.specs.Prelude.{◌≡◌, ℕ, ◌≤◌, ◌++◌, [], ◌∷◌, IfOk, OnOk, OnErr, IsTrue, false, get_or, length};
ghost use Rattle.std.specs.List.{list_any, IsDistinct};
ghost use Rattle.dp_plan.specs.steps.Places as spec;

use dp_conf::NoMemory;
use indexmap::IndexSet;
use std::alloc::Global;
use std::marker::Model;

/// A place in a dialplan, which at most one entry has: the number of an extension, and a priority.
#[derive(Clone, Copy, PartialEq, Eq, Hash)]
pub(crate) struct Slot {
    pub(crate) extension: u32,
    pub(crate) priority: u32,
}

/// The form in which the places are kept: in a list, and in a table as soon as a place is requested that is not above
/// all others of its extension.
#[derive(Drop)]
pub(crate) enum Kept {
    Listed(Vec<Slot>),
    Looked(IndexSet<Slot>),
}

/// The taken places, in order, and for each number of an extension the greatest priority of its places. A place above
/// that is free, and no table is needed to know it.
#[derive(Drop)]
pub(crate) struct TakenPlaces {
    kept: Kept,
    greatest: Vec<u32>,
}

impl Model for TakenPlaces {
    ghost use Rattle.std.specs.Prelude.{List};
    ghost use Rattle.std.specs.List.{IsDistinct};
    ghost use Rattle.dp_plan.specs.steps.Places.{slots_in, same_slot, AreBounded};
    ghost use Rattle.dp_plan.specs.declared.taken_places.Slot.{Slot};

    ghost Value = { List Slot };

    ghost view = { λ places. slots_in places.kept };

    ghost invariant = { λ places.
        AreBounded places.greatest.items (slots_in places.kept) × IsDistinct same_slot (slots_in places.kept) };
}

/// The greatest priority of an extension, or 0 if it has none.
fn greatest_of(greatest: &[u32], extension: u32) -> u32
    ensures { result ≡ get_or greatest.now extension 0 }
{
    match greatest.get(extension as usize) {
        Some(priority) => *priority,
        None => 0,
    }
}

/// Extends the list to at least this many numbers. The new ones are 0.
fn fill(greatest: &mut Vec<u32>, count: usize) -> Result<(), NoMemory>
    ensures filled { OnOk result (count ≤ length greatest.new.items) }
    ensures same { (extension : ℕ) → get_or greatest.new.items extension 0 ≡ get_or greatest.old.items extension 0 }
{
    let there = greatest.len();
    // A new extension is usually the next one.
    if count == there + 1 {
        greatest.push(0)?;
    } else if count > there {
        greatest.resize(count, 0)?;
    }
    Ok(())
}

/// Raises the greatest priority of the extension to that of the place.
fn raise(greatest: &mut Vec<u32>, slot: Slot) -> Result<(), NoMemory>
    ensures reached { OnOk result (slot.priority ≤ get_or greatest.new.items slot.extension 0) }
    ensures kept { (extension : ℕ) → get_or greatest.old.items extension 0 ≤ get_or greatest.new.items extension 0 }
{
    let at = slot.extension as usize;
    fill(greatest, at + 1)?;
    if greatest[at] < slot.priority {
        greatest[at] = slot.priority;
    }
    Ok(())
}

/// The table of the places.
fn table_of(alloc: Global, slots: &[Slot]) -> Result<IndexSet<Slot>, NoMemory>
    requires { IsDistinct spec.same_slot slots.now }
    ensures { IfOk result (λ table. table.keys ≡ slots.now) }
{
    let mut table = IndexSet::with_capacity(alloc, slots.len())?;
    for slot in slots {
        table.insert(*slot)?;
    }
    Ok(table)
}

/// Keeps a free place.
fn keep(kept: &mut Kept, slot: Slot) -> Result<(), NoMemory>
    requires { list_any (spec.same_slot slot) (spec.slots_in kept.old) ≡ false }
    ensures ok { OnOk result (spec.slots_in kept.new ≡ spec.slots_in kept.old ++ slot ∷ []) }
    ensures err { OnErr result (spec.slots_in kept.new ≡ spec.slots_in kept.old) }
{
    match kept {
        Kept::Listed(slots) => {
            slots.push(slot)?;
        }
        Kept::Looked(table) => {
            table.insert(slot)?;
        }
    }
    Ok(())
}

impl TakenPlaces {
    /// Without places.
    pub(crate) fn new(alloc: Global) -> Self
        ensures { result ≡ [] }
    {
        TakenPlaces {
            kept: Kept::Listed(Vec::new(alloc)),
            greatest: Vec::new(alloc),
        }
    }

    /// Whether the place is above all others of its extension.
    #[tactic(auto, using(crate::proofs::PlaceLemmas::free_above))]
    fn is_above(&self, slot: Slot) -> bool
        ensures { IsTrue result → list_any (spec.same_slot slot) self.now ≡ false }
    {
        slot.priority > greatest_of(&self.greatest, slot.extension)
    }

    /// Whether the place is in the table. The table is made if there is none.
    fn look_up(&mut self, alloc: Global, slot: Slot) -> Result<bool, NoMemory>
        ensures taken { IfOk result (λ taken. taken ≡ list_any (spec.same_slot slot) self.old) }
        ensures same { self.new ≡ self.old }
    {
        match &self.kept {
            Kept::Listed(slots) => {
                let table = table_of(alloc, slots)?;
                let is_taken = table.contains(&slot);
                self.kept = Kept::Looked(table);
                Ok(is_taken)
            }
            Kept::Looked(table) => Ok(table.contains(&slot)),
        }
    }

    /// Whether the place is taken.
    pub(crate) fn is_taken(&mut self, alloc: Global, slot: Slot) -> Result<bool, NoMemory>
        ensures taken { IfOk result (λ taken. taken ≡ list_any (spec.same_slot slot) self.old) }
        ensures same { self.new ≡ self.old }
    {
        if self.is_above(slot) {
            return Ok(false);
        }
        self.look_up(alloc, slot)
    }

    /// Takes a free place.
    #[tactic(auto, using(crate::proofs::PlaceLemmas::bounded_raised, crate::proofs::PlaceLemmas::bounded_more, crate::proofs::PlaceLemmas::distinct_more))]
    pub(crate) fn take(&mut self, slot: Slot) -> Result<(), NoMemory>
        requires { list_any (spec.same_slot slot) self.old ≡ false }
        ensures { OnOk result (self.new ≡ self.old ++ slot ∷ []) }
    {
        raise(&mut self.greatest, slot)?;
        keep(&mut self.kept, slot)
    }
}
