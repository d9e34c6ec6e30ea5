//! The findings of an audit.
ghost use Rattle.std.specs.Prelude.{◌≡◌, ◌++◌, OnOk};
ghost use Rattle.dp_json.specs.Findings as spec;
ghost use Rattle.dp_json.specs.Objects.{fields_text, object_text};

use crate::entry::{context_name, push_entry};
use crate::object::{begin_object, end_object, push_number, push_text};
use dp_audit::Finding;
use dp_plan::{Dialplan, EntryId, NoMemory};

/// The word for the kind of a finding.
pub(crate) fn kind_of(finding: &Finding) -> &'static [u8]
    ensures { result.now ≡ spec.kind_of finding.now }
{
    match finding {
        Finding::Cycle { .. } => b"Cycle",
        Finding::NoApplication { .. } => b"NoApplication",
        Finding::NoTarget { .. } => b"NoTarget",
        Finding::Gap { .. } => b"Gap",
        Finding::NoFirst { .. } => b"NoFirst",
        Finding::Hidden { .. } => b"Hidden",
        Finding::Unset { .. } => b"Unset",
        Finding::Unused { .. } => b"Unused",
    }
}

/// Adds the field of the priority after that of the entry with these numbers.
fn push_missing(out: &mut Vec<u8>, plan: &Dialplan, id: EntryId) -> Result<(), NoMemory>
    ensures { OnOk result (out.new.items ≡ out.old.items ++ fields_text (spec.missing_fields plan.now id)) }
{
    match plan.entry(id) {
        Some(entry) => push_number(out, b"missing", u128::from(entry.priority.get()) + 1),
        None => Ok(()),
    }
}

/// Adds the fields of what a finding is about.
#[tactic(auto, unfolding(crate::specs::Findings::subject_fields))]
pub(crate) fn push_subject(
    out: &mut Vec<u8>,
    plan: &Dialplan,
    finding: &Finding,
) -> Result<(), NoMemory>
    ensures { OnOk result (out.new.items ≡ out.old.items ++ fields_text (spec.subject_fields plan.now finding.now)) }
{
    match finding {
        Finding::Cycle { context } => push_text(out, b"context", context_name(plan, *context)),
        Finding::NoApplication { entry } | Finding::NoFirst { entry } | Finding::Unused { entry } =>
            push_entry(out, plan, *entry),
        Finding::NoTarget { entry, target } => {
            push_entry(out, plan, *entry)?;
            push_text(out, b"target", target.bytes())
        }
        Finding::Gap { entry } => {
            push_entry(out, plan, *entry)?;
            push_missing(out, plan, *entry)
        }
        Finding::Hidden { entry, from } => {
            push_entry(out, plan, *entry)?;
            push_text(out, b"from", context_name(plan, *from))
        }
        Finding::Unset { entry, name } => {
            push_entry(out, plan, *entry)?;
            push_text(out, b"variable", name.bytes())
        }
    }
}

/// Begins the object of a finding, with its kind.
pub(crate) fn begin_finding(out: &mut Vec<u8>, kind: &[u8]) -> Result<(), NoMemory>
    ensures { OnOk result (out.new.items ≡ out.old.items ++ spec.finding_opening kind.now) }
{
    begin_object(out, b"finding")?;
    push_text(out, b"kind", kind)
}

/// Adds the line of a finding.
#[tactic(auto, unfolding(crate::specs::Findings::finding_line, crate::specs::Objects::object_text))]
fn push_finding(out: &mut Vec<u8>, plan: &Dialplan, finding: &Finding) -> Result<(), NoMemory>
    ensures { OnOk result (out.new.items ≡ out.old.items ++ spec.finding_line plan.now finding.now) }
{
    begin_finding(out, kind_of(finding))?;
    push_subject(out, plan, finding)?;
    end_object(out)
}

/// Adds the lines of findings, in their order. Each is an object of the type `finding` with its `kind`, the fields of the entry that it is
/// about (`context`, `name`, `priority`, `label` if it has one, `application` and `arguments`), and one of its own subject: `target`,
/// `missing` for the priority of a gap, `from` for the context from which an entry is hidden, or `variable`. A cycle has its `context`
/// alone.
///
/// It fails only if memory runs out.
pub fn push_findings(
    out: &mut Vec<u8>,
    plan: &Dialplan,
    findings: &[Finding],
) -> Result<(), NoMemory>
    ensures { OnOk result (out.new.items ≡ out.old.items ++ spec.findings_text plan.now findings.now) }
{
    for finding in findings {
        push_finding(out, plan, finding)?;
    }
    Ok(())
}

/// Adds the last line of an audit: an object of the type `count` with the number of `findings`. It fails only if memory runs out.
#[tactic(auto, unfolding(crate::specs::Objects::object_text))]
pub fn push_finding_count(out: &mut Vec<u8>, count: usize) -> Result<(), NoMemory>
    ensures { OnOk result (out.new.items ≡ out.old.items ++ object_text (spec.count_object count)) }
{
    begin_object(out, b"count")?;
    push_number(out, b"findings", count as u128)?;
    end_object(out)
}
