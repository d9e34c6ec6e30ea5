//! The report of an audit of a dialplan.
ghost use Rattle.std.specs.Prelude.{◌≡◌, ◌++◌, ◌||◌, IfOk, OnOk, false};
ghost use Rattle.std.specs.List.{flat_map};
ghost use Rattle.dp_conf.specs.Answers.{Answers};
ghost use Rattle.dp_audit.specs.Findings.{context_name, findings_of};
ghost use Rattle.dp_commands.specs.Audit as spec;
ghost use Rattle.dp_commands.specs.Faults.{is_write_failed, reason_of};
ghost use Rattle.dp_app.specs.Rows.{has_row};
ghost use Rattle.dp_table.specs.Standard.{standard_rows};

use crate::block::Block;
use crate::fault::PbxFault;
use crate::report::read_plan;
use crate::trace::{push_entry, push_number, push_place};
use dp_app::AppTable;
use dp_audit::{AppNames, Finding};
use dp_conf::WriteTold;
use dp_plan::{Dialplan, EntryId, NoMemory};
use dp_table::StandardApps;
use std::alloc::Global;
use std::marker::PhantomData;

/// The names of the applications of a table.
struct NamesOf<T> {
    table: PhantomData<T>,
}

impl<T: AppTable> AppNames for NamesOf<T> {
    ghost use Rattle.dp_app.specs.Rows.{has_row};

    ghost known = { has_row T.rows };

    fn has_application(name: &[u8]) -> bool {
        T::number_of(name).is_some()
    }
}

/// The name of the context with the number.
fn context_name(plan: &Dialplan, number: usize) -> &[u8]
    ensures { result.now ≡ context_name plan.now number }
{
    match plan.contexts().get(number) {
        Some(context) => context.name().bytes(),
        None => b"",
    }
}

/// Adds the position of the entry with these numbers, `CONTEXT,NAME,PRIORITY`, or nothing if there is no such entry. It fails only if
/// memory runs out.
pub fn push_spot(out: &mut Block, plan: &Dialplan, id: EntryId) -> Result<(), NoMemory>
    ensures { OnOk result (out.new.begun ≡ out.old.begun ++ spec.spot_text plan.now id) }
{
    let Some(entry) = plan.entry(id) else {
        return Ok(());
    };
    let context = context_name(plan, id.context);
    push_place(out, context, entry.name.spelling(), entry.priority.get())
}

/// Adds the priority after that of the entry with these numbers.
fn push_next_priority(out: &mut Block, plan: &Dialplan, id: EntryId) -> Result<(), NoMemory>
    ensures { OnOk result (out.new.begun ≡ out.old.begun ++ spec.next_priority plan.now id) }
{
    match plan.entry(id) {
        Some(entry) => push_number(out, entry.priority.get() + 1),
        None => Ok(()),
    }
}

/// Adds the label of the entry with these numbers.
fn push_label(out: &mut Block, plan: &Dialplan, id: EntryId) -> Result<(), NoMemory>
    ensures { OnOk result (out.new.begun ≡ out.old.begun ++ spec.label_text plan.now id) }
{
    let Some(entry) = plan.entry(id) else {
        return Ok(());
    };
    match &entry.label {
        Some(label) => out.push(label.bytes()),
        None => Ok(()),
    }
}

/// Adds a finding, `KIND CONTEXT,NAME,PRIORITY` and its subject.
fn push_finding(out: &mut Block, plan: &Dialplan, finding: &Finding) -> Result<(), NoMemory>
    ensures { OnOk result (out.new.begun ≡ out.old.begun ++ spec.finding_text plan.now finding.now) }
{
    match finding {
        Finding::Cycle { context } => {
            out.push(b"Cycle ")?;
            out.push(context_name(plan, *context))
        }
        Finding::NoApplication { entry } => {
            out.push(b"NoApplication ")?;
            push_entry(out, plan, *entry)
        }
        Finding::NoTarget { entry, target } => {
            out.push(b"NoTarget ")?;
            push_spot(out, plan, *entry)?;
            out.push(b" ")?;
            out.push(target.bytes())
        }
        Finding::Gap { entry } => {
            out.push(b"Gap ")?;
            push_spot(out, plan, *entry)?;
            out.push(b" ")?;
            push_next_priority(out, plan, *entry)
        }
        Finding::NoFirst { entry } => {
            out.push(b"NoFirst ")?;
            push_spot(out, plan, *entry)
        }
        Finding::Hidden { entry, from } => {
            out.push(b"Hidden ")?;
            push_spot(out, plan, *entry)?;
            out.push(b" ")?;
            out.push(context_name(plan, *from))
        }
        Finding::Unset { entry, name } => {
            out.push(b"Unset ")?;
            push_spot(out, plan, *entry)?;
            out.push(b" ")?;
            out.push(name.bytes())
        }
        Finding::Unused { entry } => {
            out.push(b"Unused ")?;
            push_spot(out, plan, *entry)?;
            out.push(b" ")?;
            push_label(out, plan, *entry)
        }
    }
}

/// Adds the line of a finding. It fails only if memory runs out.
pub fn push_finding_line(
    out: &mut Block,
    plan: &Dialplan,
    finding: &Finding,
) -> Result<(), NoMemory>
    ensures { OnOk result (out.new.begun ≡ out.old.begun ++ spec.finding_line plan.now finding.now) }
{
    push_finding(out, plan, finding)?;
    out.push(b"\n")
}

/// Adds the lines of the findings.
fn push_findings(out: &mut Block, plan: &Dialplan, findings: &[Finding]) -> Result<(), NoMemory>
    ensures { OnOk result (out.new.begun ≡ out.old.begun ++ flat_map (spec.finding_line plan.now) findings.now) }
{
    for finding in findings {
        push_finding_line(out, plan, finding)?;
    }
    Ok(())
}

/// Adds the lines of the findings, then their number.
fn push_audit(out: &mut Block, plan: &Dialplan, findings: &[Finding]) -> Result<(), NoMemory>
    ensures { OnOk result (out.new.begun ≡ out.old.begun ++ spec.audit_text plan.now findings.now) }
{
    push_findings(out, plan, findings)?;
    out.push(b"ok ")?;
    push_number(out, findings.len())?;
    out.push(b" findings\n")
}

/// The result of an audit: its text, and its status.
#[derive(Drop)]
struct AuditOutcome {
    text: Block,
    status: u8,
}

/// The report of the findings in a dialplan.
fn report_of(alloc: Global, plan: &Dialplan, findings: &[Finding]) -> Result<AuditOutcome, NoMemory>
    ensures { IfOk result (λ report. spec.outcome_told report ≡ spec.audit_outcome plan.now findings.now) }
{
    let mut text = Block::new(alloc, 0)?;
    push_audit(&mut text, plan, findings)?;
    Ok(AuditOutcome {
        text,
        status: u8::from(!findings.is_empty()),
    })
}

/// The report of an audit of a dialplan.
fn report(alloc: Global, plan: &Dialplan) -> Result<AuditOutcome, NoMemory>
    ensures { IfOk result (λ report. spec.outcome_told report ≡ spec.audit_outcome plan.now (findings_of (has_row standard_rows) plan.now)) }
{
    let findings = dp_audit::audit::<NamesOf<StandardApps>>(alloc, plan)?;
    report_of(alloc, plan, &findings)
}

/// The report of an audit of a dialplan's text, or the text's fault.
#[tactic(auto, unfolding(crate::specs::Audit::audit_of))]
fn audit_report(alloc: Global, plan: &[u8]) -> Result<AuditOutcome, PbxFault>
    ensures report { Answers spec.outcome_told reason_of result (spec.audit_of plan.now) }
    ensures quiet { is_write_failed result ≡ false }
{
    let read = read_plan(alloc, plan)?;
    let report = report(alloc, &read.plan)?;
    Ok(report)
}

/// Loads a dialplan and writes what an audit finds in it: a line `KIND CONTEXT,NAME,PRIORITY` for each finding, followed by its subject, in
/// the order of the file, and then `ok N findings`. The status is 0 if nothing is found, else 1.
///
/// A faulty dialplan has its first fault, and nothing is written. Everything is written at once; if that write fails, what was written
/// stays written. Which findings there are is this program's own choice.
pub fn audit<W: WriteTold>(alloc: Global, plan: &[u8], writer: &mut W) -> Result<u8, PbxFault>
    ensures writes { spec.WritesAudit (W.contents writer.old) (W.contents writer.new) (spec.audit_of plan.now) result }
    ensures told { W.has_failed writer.new ≡ (W.has_failed writer.old || is_write_failed result) }
{
    let report = audit_report(alloc, plan)?;
    writer.write_told(report.text.bytes())?;
    Ok(report.status)
}
