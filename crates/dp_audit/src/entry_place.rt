//! The places of entries: two entries in different contexts with the same place have names with the same meaning, and the same priority.
ghost use Rattle.std.specs.Prelude.{◌≡◌, IfOk, OnOk};
ghost use Rattle.std.specs.List.{list_any};
ghost use Rattle.dp_audit.specs.steps.Hiding as spec;

use crate::spelling::Spelling;
use dp_plan::{Entry, NoMemory};
use indexmap::IndexSet;

/// The place of an entry: the spelling of its name, and its priority.
#[derive(PartialEq, Eq, Hash, Drop)]
pub(crate) struct EntryPlace {
    name: Spelling,
    priority: u32,
}

impl EntryPlace {
    /// The place of the entry. It never allocates.
    fn of(entry: &Entry) -> Result<Self, NoMemory>
        ensures { IfOk result (λ place. place ≡ spec.place_of entry.now) }
    {
        let name = Spelling::of(&entry.name)?;
        let priority = entry.priority.get();
        Ok(EntryPlace { name, priority })
    }
}

/// Whether the place of the entry is among these.
pub(crate) fn is_among(places: &IndexSet<EntryPlace>, entry: &Entry) -> Result<bool, NoMemory>
    ensures { IfOk result (λ found. found ≡ list_any (spec.same_place (spec.place_of entry.now)) places.now.keys) }
{
    let place = EntryPlace::of(entry)?;
    Ok(places.contains(&place))
}

/// Adds the place of the entry.
fn add_place(places: &mut IndexSet<EntryPlace>, entry: &Entry) -> Result<(), NoMemory>
    ensures { OnOk result (spec.Adds (λ place. spec.is_at place entry.now) places.old.keys places.new.keys) }
{
    let place = EntryPlace::of(entry)?;
    places.insert(place)?;
    Ok(())
}

/// Adds the places of the entries.
pub(crate) fn add_places(
    places: &mut IndexSet<EntryPlace>,
    entries: &[Entry],
) -> Result<(), NoMemory>
    ensures { OnOk result (spec.Adds (λ place. list_any
        (spec.is_at place) entries.now) places.old.keys places.new.keys) }
{
    for entry in entries {
        add_place(places, entry)?;
    }
    Ok(())
}
