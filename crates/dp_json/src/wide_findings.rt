//! The findings of an audit that may use the wide table.
ghost use Rattle.std.specs.Prelude.{◌≡◌, ◌++◌, OnOk};
ghost use Rattle.dp_json.specs.Objects.{fields_text, more_text};
ghost use Rattle.dp_json.specs.WideFindings as spec;

use crate::entry::{context_name, push_entry};
use crate::findings::{begin_finding, kind_of, push_subject};
use crate::object::{end_object, push_number, push_text};
use dp_plan::{Dialplan, EntryId, NoMemory};
use dp_wide_runs::WideFinding;

/// The word for the kind of a finding.
fn wide_kind(finding: &WideFinding) -> &'static [u8]
    ensures { result.now ≡ spec.wide_kind finding.now }
{
    match finding {
        WideFinding::Plain(finding) => kind_of(finding),
        WideFinding::FallsThrough(_) => b"FallsThrough",
        WideFinding::EndlessRun(_) => b"Loop",
        WideFinding::NoFunction { .. } => b"NoFunction",
    }
}

/// Adds the field of the context in which a call goes on.
#[tactic(auto, unfolding(crate::specs::WideFindings::next_context))]
fn push_next_context(out: &mut Vec<u8>, context: &[u8]) -> Result<(), NoMemory>
    ensures { OnOk result (out.new.items ≡ out.old.items ++ more_text (spec.next_context context.now)) }
{
    push_text(out, b"next_context", context)
}

/// Adds the field of the name of the extension in which a call goes on.
#[tactic(auto, unfolding(crate::specs::WideFindings::next_name))]
fn push_next_name(out: &mut Vec<u8>, name: &[u8]) -> Result<(), NoMemory>
    ensures { OnOk result (out.new.items ≡ out.old.items ++ more_text (spec.next_name name.now)) }
{
    push_text(out, b"next_name", name)
}

/// Adds the field of the priority at which a call goes on.
#[tactic(auto, unfolding(crate::specs::WideFindings::next_priority))]
fn push_next_priority(out: &mut Vec<u8>, priority: u32) -> Result<(), NoMemory>
    ensures { OnOk result (out.new.items ≡ out.old.items ++ more_text (spec.next_priority priority)) }
{
    push_number(out, b"next_priority", u128::from(priority))
}

/// Adds the fields of the entry at which a call goes on.
#[tactic(auto, unfolding(crate::specs::WideFindings::next_fields))]
fn push_next(out: &mut Vec<u8>, plan: &Dialplan, id: EntryId) -> Result<(), NoMemory>
    ensures { OnOk result (out.new.items ≡ out.old.items ++ fields_text (spec.next_fields plan.now id)) }
{
    let Some(entry) = plan.entry(id) else {
        return Ok(());
    };
    push_next_context(out, context_name(plan, id.context))?;
    push_next_name(out, entry.name.spelling())?;
    push_next_priority(out, entry.priority.get())
}

/// Adds the fields of what a finding is about.
#[tactic(auto, unfolding(crate::specs::WideFindings::wide_fields))]
fn push_wide_subject(
    out: &mut Vec<u8>,
    plan: &Dialplan,
    finding: &WideFinding,
) -> Result<(), NoMemory>
    ensures { OnOk result (out.new.items ≡ out.old.items ++ fields_text (spec.wide_fields plan.now finding.now)) }
{
    match finding {
        WideFinding::Plain(finding) => push_subject(out, plan, finding),
        WideFinding::FallsThrough(found) => {
            push_entry(out, plan, found.entry)?;
            push_next(out, plan, found.next)
        }
        WideFinding::EndlessRun(run) => push_entry(out, plan, run.first),
        WideFinding::NoFunction { entry, name } => {
            push_entry(out, plan, *entry)?;
            push_text(out, b"function", name.bytes())
        }
    }
}

/// Adds the line of a finding.
#[tactic(auto, unfolding(crate::specs::WideFindings::wide_line, crate::specs::Objects::object_text))]
fn push_wide_finding(
    out: &mut Vec<u8>,
    plan: &Dialplan,
    finding: &WideFinding,
) -> Result<(), NoMemory>
    ensures { OnOk result (out.new.items ≡ out.old.items ++ spec.wide_line plan.now finding.now) }
{
    begin_finding(out, wide_kind(finding))?;
    push_wide_subject(out, plan, finding)?;
    end_object(out)
}

/// Adds the lines of the findings of an audit that may use the wide table, in their order, as [`crate::push_findings`] does. The subject of
/// the kind `FallsThrough` is the entry at which a call goes on, as `next_context`, `next_name` and `next_priority`; that of `NoFunction`
/// is the name of the `function`. The kind `Loop` has the first entry of an endless run.
///
/// It fails only if memory runs out.
pub fn push_wide_findings(
    out: &mut Vec<u8>,
    plan: &Dialplan,
    findings: &[WideFinding],
) -> Result<(), NoMemory>
    ensures { OnOk result (out.new.items ≡ out.old.items ++ spec.wide_text plan.now findings.now) }
{
    for finding in findings {
        push_wide_finding(out, plan, finding)?;
    }
    Ok(())
}
