//! The remarks on lines, of which some become notes only if no context has a name.
ghost use Rattle.std.specs.Prelude.{◌≡◌, ◌++◌, OnOk, IfOk};
ghost use Rattle.std.specs.List.{flat_map};
ghost use Rattle.std.specs.Option.{option_to_list};
ghost use Rattle.dp_plan.specs.Plan as plan;
ghost use Rattle.dp_plan.specs.steps.Draft as spec;

use crate::note::{Note, NoteKind};
use crate::shared_text::SharedText;
use dp_conf::{NoMemory, Text};
use indexmap::IndexSet;
use std::alloc::Global;

/// A note, or an include whose line gets a note if no context has the name.
#[derive(Drop)]
pub(crate) enum Remark {
    /// The note.
    Noted(Note),
    /// The line, and the included name.
    Asks { line: usize, name: Text },
}

/// Whether a context has the name.
fn is_named(names: &IndexSet<SharedText>, name: &Text) -> bool
    ensures { result ≡ plan.is_named names.now.keys name.now }
{
    names.contains(name)
}

/// The note of a remark, if it becomes one.
fn note_of(names: &IndexSet<SharedText>, remark: &Remark) -> Option<Note>
    ensures { option_to_list result ≡ spec.remark_notes names.now.keys remark.now }
{
    match remark {
        Remark::Noted(note) => Some(*note),
        Remark::Asks { line: _, name } if is_named(names, name) => None,
        Remark::Asks { line, name: _ } => Some(Note {
            line: *line,
            kind: NoteKind::UnknownContext,
        }),
    }
}

/// Adds the note, if there is one.
fn push_note(notes: &mut Vec<Note>, note: Option<Note>) -> Result<(), NoMemory>
    ensures { OnOk result (notes.new.items ≡ notes.old.items ++ option_to_list note) }
{
    if let Some(note) = note {
        notes.push(note)?;
    }
    Ok(())
}

/// The notes of the remarks, given the names of all contexts.
pub(crate) fn settle(
    alloc: Global,
    names: &IndexSet<SharedText>,
    remarks: &[Remark],
) -> Result<Vec<Note>, NoMemory>
    ensures { IfOk result (λ notes. notes.items ≡ flat_map (spec.remark_notes names.now.keys) remarks.now) }
{
    let mut notes = Vec::new(alloc);
    for remark in remarks {
        push_note(&mut notes, note_of(names, remark))?;
    }
    Ok(notes)
}
