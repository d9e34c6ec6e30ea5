//! The entry that answers a dialled text, and all extensions that match it.
ghost use Rattle.std.specs.Prelude.{◌≡◌, ◌++◌, OnOk};
ghost use Rattle.dp_json.specs.Matches as spec;
ghost use Rattle.dp_json.specs.Objects.{fields_text, object_text};

use crate::entry::{context_name, push_entry, push_place};
use crate::object::{begin_object, end_object, push_text};
use dp_audit::{Candidate, Verdict};
use dp_plan::{Dialplan, EntryId, NoMemory, Priority};

/// Adds the line of the entry that answers: an object of the type `match` with the fields of the entry, or one of the type `none`. It fails
/// only if memory runs out.
#[tactic(auto, unfolding(crate::specs::Objects::object_text))]
pub fn push_match(
    out: &mut Vec<u8>,
    plan: &Dialplan,
    found: Option<EntryId>,
) -> Result<(), NoMemory>
    ensures { OnOk result (out.new.items ≡ out.old.items ++ object_text (spec.match_object plan.now found)) }
{
    match found {
        Some(id) => {
            begin_object(out, b"match")?;
            push_entry(out, plan, id)?;
            end_object(out)
        }
        None => {
            begin_object(out, b"none")?;
            end_object(out)
        }
    }
}

/// The word for what decides about an extension.
fn verdict_word(verdict: Verdict) -> &'static [u8]
    ensures { result.now ≡ spec.verdict_word verdict }
{
    match verdict {
        Verdict::Answers => b"Answers",
        Verdict::LessSpecific => b"LessSpecific",
        Verdict::LaterContext => b"LaterContext",
        Verdict::NoSuchPriority => b"NoSuchPriority",
    }
}

/// Adds the fields of the extension of the entry with these numbers, with a priority that it may lack.
#[tactic(auto, unfolding(crate::specs::Matches::extension_fields))]
fn push_extension(
    out: &mut Vec<u8>,
    plan: &Dialplan,
    priority: Priority,
    id: EntryId,
) -> Result<(), NoMemory>
    ensures { OnOk result (out.new.items ≡ out.old.items ++ fields_text (spec.extension_fields plan.now priority id)) }
{
    match plan.entry(id) {
        Some(entry) => push_place(
            out,
            context_name(plan, id.context),
            entry.name.spelling(),
            priority.get(),
        ),
        None => Ok(()),
    }
}

/// Adds the fields of the subject of a decision.
fn push_decided(
    out: &mut Vec<u8>,
    plan: &Dialplan,
    priority: Priority,
    candidate: Candidate,
) -> Result<(), NoMemory>
    ensures { OnOk result (out.new.items ≡ out.old.items
        ++ fields_text (spec.decided_fields plan.now priority candidate.id candidate.verdict)) }
{
    match candidate.verdict {
        Verdict::Answers | Verdict::LessSpecific | Verdict::LaterContext => {
            push_entry(out, plan, candidate.id)
        }
        Verdict::NoSuchPriority => push_extension(out, plan, priority, candidate.id),
    }
}

/// Adds the line of a candidate.
#[tactic(auto, unfolding(crate::specs::Matches::candidate_line, crate::specs::Objects::object_text))]
fn push_candidate(
    out: &mut Vec<u8>,
    plan: &Dialplan,
    priority: Priority,
    candidate: Candidate,
) -> Result<(), NoMemory>
    ensures { OnOk result (out.new.items ≡ out.old.items ++ spec.candidate_line plan.now priority candidate) }
{
    begin_object(out, b"candidate")?;
    push_text(out, b"kind", verdict_word(candidate.verdict))?;
    push_decided(out, plan, priority, candidate)?;
    end_object(out)
}

/// Adds the lines of the extensions that match a dialled text, in their order. Each is an object of the type `candidate` with what decides
/// about it as its `kind`: `Answers`, `LessSpecific` or `LaterContext` with the fields of its entry, or `NoSuchPriority` with its `context`
/// and `name` and with the `priority` that it lacks. It fails only if memory runs out.
pub fn push_candidates(
    out: &mut Vec<u8>,
    plan: &Dialplan,
    priority: Priority,
    candidates: &[Candidate],
) -> Result<(), NoMemory>
    ensures { OnOk result (out.new.items ≡ out.old.items ++ spec.candidates_text plan.now priority candidates.now) }
{
    for candidate in candidates {
        push_candidate(out, plan, priority, *candidate)?;
    }
    Ok(())
}
