//! The pieces of the arguments of applications that a table lacks, which may name a label.
ghost use Rattle.std.specs.Prelude.{◌≡◌, ◌<◌, ◌∷◌, [], Bool, false, IfOk, IfSome, List, MatchOption, OnOk, Some, length, position, ℕ};
ghost use Rattle.std.specs.List.{list_any, slice_split};
ghost use Rattle.dp_conf.specs.Words.{same_text};
ghost use Rattle.dp_plan.specs.Lookup.{entry_at};
ghost use Rattle.dp_plan.specs.Plan.{PlanOf};
ghost use Rattle.dp_plan.specs.declared.entry.Entry.{Entry};
ghost use Rattle.dp_plan.specs.declared.entry.EntryId.{EntryId};
ghost use Rattle.dp_audit.specs.Labels.{is_unused};
ghost use Rattle.dp_audit.specs.Pieces as spec;
ghost use Rattle.dp_audit.specs.steps.Firsts.{Adds};

use crate::names::AppNames;
use dp_conf::trim;
use dp_plan::{Context, Dialplan, Entry, NoMemory, Text};
use indexmap::IndexSet;
use std::alloc::Global;

/// Whether applications cut their arguments at the byte.
fn cuts(byte: u8) -> bool
    ensures { result ≡ spec.cuts byte }
{
    byte == b',' || byte == b'?' || byte == b':' || byte == b'(' || byte == b')' || byte == b'^'
}

/// The place of the first byte at which applications cut their arguments.
fn cut_place(text: &[u8]) -> Option<usize>
    ensures { result ≡ position spec.cuts text.now }
{
    text.iter().position(|byte| cuts(*byte))
}

/// The bytes before the first byte at which applications cut their arguments, and the bytes after it, if there is one.
fn cut_first(text: &[u8]) -> (&[u8], Option<&[u8]>)
    ensures pieces { MatchOption result.1 (slice_split spec.cuts text.now ≡ result.0.now ∷ [])
        (λ rest. slice_split spec.cuts text.now ≡ result.0.now ∷ slice_split spec.cuts rest.now) }
    ensures shorter { IfSome result.1 (λ rest. length rest.now < length text.now) }
{
    match cut_place(text) {
        None => (text, None),
        Some(at) => (&text[..at], Some(&text[at + 1..])),
    }
}

/// The first piece of a text.
pub(crate) fn first_piece(text: &[u8]) -> &[u8]
    ensures { result.now ≡ spec.first_piece text.now }
{
    let (piece, _rest) = cut_first(text);
    trim(piece)
}

/// Adds the piece.
fn insert_piece(pieces: &mut IndexSet<Text>, alloc: Global, piece: &[u8]) -> Result<(), NoMemory>
    ensures { OnOk result (Adds (λ text. same_text text piece.now) pieces.old.keys pieces.new.keys) }
{
    let piece = Text::copy_of(alloc, piece)?;
    pieces.insert(piece)?;
    Ok(())
}

/// Adds the pieces of the text.
fn insert_pieces(pieces: &mut IndexSet<Text>, alloc: Global, text: &[u8]) -> Result<(), NoMemory>
    ensures { OnOk result (Adds (λ piece. list_any (same_text piece) (spec.pieces text.now)) pieces.old.keys pieces.new.keys) }
{
    let mut left = Some(text);
    while let Some(now) = left {
        let (piece, rest) = cut_first(now);
        insert_piece(pieces, alloc, trim(piece))?;
        left = rest;
    }
    Ok(())
}

/// Adds the pieces of the arguments of the entry, if the table lacks its application.
fn insert_of<N: AppNames>(
    pieces: &mut IndexSet<Text>,
    alloc: Global,
    entry: &Entry,
) -> Result<(), NoMemory>
    ensures { OnOk result (Adds (λ text. spec.holds N.known text entry.now) pieces.old.keys pieces.new.keys) }
{
    if !N::has_application(entry.application.bytes()) {
        insert_pieces(pieces, alloc, entry.arguments.text().bytes())?;
    }
    Ok(())
}

/// Adds the pieces of the arguments of those entries whose applications the table lacks.
fn insert_of_entries<N: AppNames>(
    pieces: &mut IndexSet<Text>,
    alloc: Global,
    entries: &[Entry],
) -> Result<(), NoMemory>
    ensures { OnOk result (Adds (λ text. list_any (spec.holds N.known text) entries.now) pieces.old.keys pieces.new.keys) }
{
    for entry in entries {
        insert_of::<N>(pieces, alloc, entry)?;
    }
    Ok(())
}

/// The pieces of the arguments of those entries of a dialplan whose applications the table lacks.
pub(crate) fn pieces_of<N: AppNames>(
    alloc: Global,
    plan: &Dialplan,
) -> Result<IndexSet<Text>, NoMemory>
    ensures { IfOk result (λ pieces. Adds (spec.is_held N.known plan.now) [] pieces.keys) }
{
    let mut pieces = IndexSet::new(alloc);
    for context in plan.contexts() {
        insert_of_entries::<N>(&mut pieces, alloc, context.entries())?;
    }
    Ok(pieces)
}

/// A label is never unused if it is in the arguments of an application that the table lacks, between two bytes at which applications cut
/// them, or between one of them and an end, in any dialplan and with any table.
pub fn standing_label_is_never_unused()
    ensures { (known : List ℕ → Bool) (plan : PlanOf) (id : EntryId) (other entry : Entry) (label : List ℕ)
        → entry_at plan id ≡ Some other → known other.application ≡ false → spec.StandsBetween label other.arguments
        → entry.label ≡ Some label → is_unused known plan entry ≡ false }
{}
