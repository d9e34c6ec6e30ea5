//! The notes on loading a dialplan, and its counts.
ghost use Rattle.std.specs.Prelude.{◌≡◌, ◌++◌, OnOk};
ghost use Rattle.dp_json.specs.Notes as spec;
ghost use Rattle.dp_json.specs.Objects.{object_text};

use crate::object::{begin_object, end_object, push_number, push_text};
use dp_plan::{NoMemory, Note};

/// Adds the line of a note.
#[tactic(auto, unfolding(crate::specs::Notes::note_line, crate::specs::Objects::object_text))]
fn push_note(out: &mut Vec<u8>, note: Note) -> Result<(), NoMemory>
    ensures { OnOk result (out.new.items ≡ out.old.items ++ spec.note_line note) }
{
    begin_object(out, b"note")?;
    push_number(out, b"line", note.line as u128)?;
    push_text(out, b"kind", note.kind.name().as_bytes())?;
    end_object(out)
}

/// Adds the lines of notes, in their order. Each is an object of the type `note` with its `line` and its `kind`. It fails only if memory
/// runs out.
pub fn push_notes(out: &mut Vec<u8>, notes: &[Note]) -> Result<(), NoMemory>
    ensures { OnOk result (out.new.items ≡ out.old.items ++ spec.notes_text notes.now) }
{
    for note in notes {
        push_note(out, *note)?;
    }
    Ok(())
}

/// Adds the line of a dialplan that loads: an object of the type `count` with the number of its `contexts` and that of its `entries`. It
/// fails only if memory runs out.
#[tactic(auto, unfolding(crate::specs::Objects::object_text))]
pub fn push_plan_counts(out: &mut Vec<u8>, contexts: usize, entries: u128) -> Result<(), NoMemory>
    ensures { OnOk result (out.new.items ≡ out.old.items ++ object_text (spec.counts_object contexts entries)) }
{
    begin_object(out, b"count")?;
    push_number(out, b"contexts", contexts as u128)?;
    push_number(out, b"entries", entries)?;
    end_object(out)
}
