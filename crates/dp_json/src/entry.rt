//! The fields of an entry of a dialplan.
ghost use Rattle.std.specs.Prelude.{◌≡◌, ◌++◌, OnOk};
ghost use Rattle.std.specs.Option.{option_copied};
ghost use Rattle.dp_audit.specs.Findings.{context_name};
ghost use Rattle.dp_json.specs.Entries as spec;
ghost use Rattle.dp_json.specs.Objects.{fields_text, more_text};

use crate::object::{push_number, push_text};
use dp_plan::{Dialplan, Entry, EntryId, NoMemory, SharedText};

/// The name of the context with the number.
pub(crate) fn context_name(plan: &Dialplan, number: usize) -> &[u8]
    ensures { result.now ≡ context_name plan.now number }
{
    match plan.contexts().get(number) {
        Some(context) => context.name().bytes(),
        None => b"",
    }
}

/// Adds the fields of a priority of an extension.
#[tactic(auto, unfolding(crate::specs::Entries::place_fields))]
pub(crate) fn push_place(
    out: &mut Vec<u8>,
    context: &[u8],
    name: &[u8],
    priority: u32,
) -> Result<(), NoMemory>
    ensures { OnOk result (out.new.items ≡ out.old.items ++ fields_text (spec.place_fields context.now name.now priority)) }
{
    push_text(out, b"context", context)?;
    push_text(out, b"name", name)?;
    push_number(out, b"priority", u128::from(priority))
}

/// Adds the field of a label, if there is one.
fn push_label(out: &mut Vec<u8>, label: Option<&SharedText>) -> Result<(), NoMemory>
    ensures { OnOk result (out.new.items ≡ out.old.items ++ fields_text (spec.label_fields (option_copied label.entry))) }
{
    match label {
        Some(label) => push_text(out, b"label", label.bytes()),
        None => Ok(()),
    }
}

/// Adds the field of the application that an entry runs.
#[tactic(auto, unfolding(crate::specs::Entries::application_field))]
pub(crate) fn push_application(out: &mut Vec<u8>, application: &[u8]) -> Result<(), NoMemory>
    ensures { OnOk result (out.new.items ≡ out.old.items ++ more_text (spec.application_field application.now)) }
{
    push_text(out, b"application", application)
}

/// Adds the field of the arguments of an application.
#[tactic(auto, unfolding(crate::specs::Entries::arguments_field))]
fn push_arguments(out: &mut Vec<u8>, arguments: &[u8]) -> Result<(), NoMemory>
    ensures { OnOk result (out.new.items ≡ out.old.items ++ more_text (spec.arguments_field arguments.now)) }
{
    push_text(out, b"arguments", arguments)
}

/// Adds the fields of what an entry runs.
#[tactic(auto, unfolding(crate::specs::Entries::action_fields))]
fn push_action(out: &mut Vec<u8>, application: &[u8], arguments: &[u8]) -> Result<(), NoMemory>
    ensures { OnOk result (out.new.items ≡ out.old.items ++ fields_text (spec.action_fields application.now arguments.now)) }
{
    push_application(out, application)?;
    push_arguments(out, arguments)
}

/// Adds the fields of an entry of the context with a name.
#[tactic(auto, unfolding(crate::specs::Entries::fields_of_entry))]
fn push_fields(out: &mut Vec<u8>, context: &[u8], entry: &Entry) -> Result<(), NoMemory>
    ensures { OnOk result (out.new.items ≡ out.old.items ++ fields_text (spec.fields_of_entry context.now entry.now)) }
{
    push_place(out, context, entry.name.spelling(), entry.priority.get())?;
    push_label(out, entry.label.as_ref())?;
    push_action(out, entry.application.bytes(), entry.arguments.bytes())
}

/// Adds the fields of the entry with these numbers, or nothing if there is no such entry.
#[tactic(auto, unfolding(crate::specs::Entries::entry_fields))]
pub(crate) fn push_entry(out: &mut Vec<u8>, plan: &Dialplan, id: EntryId) -> Result<(), NoMemory>
    ensures { OnOk result (out.new.items ≡ out.old.items ++ fields_text (spec.entry_fields plan.now id)) }
{
    match plan.entry(id) {
        Some(entry) => push_fields(out, context_name(plan, id.context), entry),
        None => Ok(()),
    }
}
