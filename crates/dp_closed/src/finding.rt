//! The entries that may be found from the places of an area.
ghost use Rattle.std.specs.Prelude.{◌≡◌, ℕ, List, IfOk, IfSome, IsTrue, MatchOption, Some, slice_get};
ghost use Rattle.std.specs.Option.{option_copied};
ghost use Rattle.dp_closed.specs.Found.{Hides, IsMeeting, IsUnfound, IsUnmatched};
ghost use Rattle.dp_closed.specs.Shown.{shown_area};
ghost use Rattle.dp_pieces.specs.Met.{after_match};
ghost use Rattle.dp_pieces.specs.Shown.{shown_all};
ghost use Rattle.dp_plan.specs.declared.entry.Entry.{Entry};
ghost use Rattle.dp_reach.specs.Areas as areas;

use crate::area::KeptArea;
use dp_conf::NoMemory;
use dp_pattern::{Name, Parts, compare};
use dp_pieces::{Piece, covers, may_match, pieces_after_match};
use dp_plan::{Entry, SharedName};
use std::alloc::Global;
use std::cmp::Ordering;

/// Whether the other entry has the same priority and a better name, which each text of the shape is seen to match.
fn hides(other: &Entry, entry: &Entry, met: &[Piece]) -> bool
    ensures { IsTrue result → Hides (shown_all met.now) entry.now other.now }
{
    other.priority == entry.priority
        && covers(met, other.name.name())
        && compare(other.name.name(), entry.name.name()) == Ordering::Less
}

/// Whether one of these entries is seen to hide the entry.
fn is_hidden(entries: &[Entry], entry: &Entry, met: &[Piece]) -> bool
    ensures { IsTrue result → (k : ℕ) × (other : Entry) × (slice_get entries.now k ≡ Some other) × Hides (shown_all met.now) entry.now other }
{
    // What matches a plain name matches no better one.
    if let Parts::Plain(_) = entry.name.name().parts() {
        return false;
    }
    for other in entries {
        if hides(other, entry, met) {
            return true;
        }
    }
    false
}

/// What is known of the extensions of a shape that match a name, or None if none does.
fn met_shape(alloc: Global, exten: &[Piece], name: &Name) -> Result<Option<Vec<Piece>>, NoMemory>
    ensures { IfOk result (λ found. MatchOption found (IsUnmatched (shown_all exten.now) name.now)
        (λ met. shown_all met.items ≡ after_match (shown_all exten.now) name.now)) }
{
    if !may_match(exten, name) {
        return Ok(None);
    }
    let met = pieces_after_match(alloc, exten, name)?;
    Ok(Some(met))
}

/// What is known of the extensions of a shape by which an entry is found in a context of these entries, or None if none is: no extension of
/// the shape matches its name, or each that does finds a better entry. It fails only if memory runs out.
pub fn found_shape(
    alloc: Global,
    entries: &[Entry],
    entry: &Entry,
    exten: &[Piece],
) -> Result<Option<Vec<Piece>>, NoMemory>
    ensures { IfOk result (λ found. MatchOption found (IsUnfound entries.now entry.now (shown_all exten.now))
        (λ met. shown_all met.items ≡ after_match (shown_all exten.now) entry.now.name)) }
{
    let matching = met_shape(alloc, exten, entry.name.name())?;
    let Some(met) = matching else {
        return Ok(None);
    };
    if is_hidden(entries, entry, &met) {
        return Ok(None);
    }
    Ok(Some(met))
}

/// The area of a context and an extension of a shape.
fn area_beside(alloc: Global, context: &[Piece], exten: Vec<Piece>) -> Result<KeptArea, NoMemory>
    ensures { IfOk result (λ area. shown_area area ≡ areas.area_at (shown_all context.now) (shown_all exten.items)) }
{
    let mut kept = Vec::new(alloc);
    kept.extend_from_slice(context)?;
    Ok(KeptArea {
        context: kept,
        exten,
    })
}

/// Whether two names mean the same, by their spellings.
fn is_same(name: &SharedName, other: &SharedName) -> bool
    ensures { IsTrue result → name.now ≡ other.now }
{
    match (name.name().parts(), other.name().parts()) {
        (Parts::Plain(text), Parts::Plain(another)) => text == another,
        (Parts::Pattern(_, _), Parts::Pattern(_, _)) => name.spelling() == other.spelling(),
        _ => false,
    }
}

/// The name of an extension, met with an area: what is known of the places of the area whose extensions match the name, or None if none
/// does.
#[derive(Drop)]
pub struct Meeting<'a> {
    name: &'a SharedName,
    met: Option<KeptArea>,
}

impl<'a> Meeting<'a> {
    /// The meeting of an area with a name.
    fn new(alloc: Global, area: &KeptArea, name: &'a SharedName) -> Result<Self, NoMemory>
        ensures { IfOk result (λ meeting. IsMeeting (shown_area area.now) meeting × (meeting.name.now ≡ name.now)) }
    {
        let matching = met_shape(alloc, &area.exten, name.name())?;
        let Some(exten) = matching else {
            return Ok(Meeting { name, met: None });
        };
        let met = area_beside(alloc, &area.context, exten)?;
        Ok(Meeting {
            name,
            met: Some(met),
        })
    }

    /// The meeting of an area with a name. It is the one before it if that has the same name: the entries of an extension are mostly next
    /// to each other. It fails only if memory runs out.
    pub fn after(
        alloc: Global,
        area: &KeptArea,
        name: &'a SharedName,
        before: Option<Meeting<'a>>,
    ) -> Result<Self, NoMemory>
        ensures { IfOk result (λ meeting. IfSome before.entry (IsMeeting (shown_area area.now))
            → IsMeeting (shown_area area.now) meeting × (meeting.name.now ≡ name.now)) }
    {
        if let Some(meeting) = before {
            if is_same(meeting.name, name) {
                return Ok(meeting);
            }
        }
        Meeting::new(alloc, area, name)
    }

    /// Whether the name is that of the meeting, and no place of the area has an extension that matches it.
    fn excludes(&self, name: &SharedName) -> bool
        ensures { IsTrue result → (area : areas.Area) → IsMeeting area self.now → IsUnmatched area.exten name.now }
    {
        match &self.met {
            None => is_same(self.name, name),
            Some(_) => false,
        }
    }

    /// The places of the area at which an entry with the name is found in a context of these entries, or None if it is found at none.
    pub fn found_area(&self, entries: &[Entry], entry: &Entry) -> Option<&KeptArea>
        ensures { (area : areas.Area) → IsMeeting area self.now → entry.now.name ≡ self.now.name.now
            → MatchOption result (IsUnfound entries.now entry.now area.exten) (λ met. shown_area met.now ≡ areas.area_matched area entry.now.name) }
    {
        let Some(met) = &self.met else {
            return None;
        };
        if is_hidden(entries, entry, &met.exten) {
            return None;
        }
        Some(met)
    }
}

/// Whether the meeting before has this name, and no place of its area has an extension that matches it. Then an entry with the name is
/// found at none of these places.
pub fn is_excluded(before: Option<&Meeting<'_>>, name: &SharedName) -> bool
    ensures { IsTrue result → (area : areas.Area) → IfSome (option_copied before.entry) (IsMeeting area) → IsUnmatched area.exten name.now }
{
    match before {
        Some(meeting) => meeting.excludes(name),
        None => false,
    }
}
