//! Audits of a dialplan for some kinds of findings, over this program's applications or over the wide table.
ghost use Rattle.std.specs.Prelude.{◌≡◌, ◌++◌, ◌||◌, IfOk, OnOk, Ok};
ghost use Rattle.std.specs.List.{flat_map};
ghost use Rattle.dp_commands.specs.Faults.{is_write_failed};
ghost use Rattle.dp_wide_runs.specs.Kinds.{choice_of};
ghost use Rattle.dp_wide_runs.specs.WideAudits as spec;

use crate::audit_findings::find_told;
use crate::kinds::AuditChoice;
use crate::wide_finding::WideFinding;
use dp_audit::{FallThrough, Loop};
use dp_commands::{Block, PbxFault, push_finding_line, push_number, push_spot, read_plan};
use dp_conf::WriteTold;
use dp_plan::{Dialplan, EntryId, NoMemory};
use std::alloc::Global;

/// Adds that a channel goes on in another extension after an entry, with the entry that it meets there.
fn push_fall_through(out: &mut Block, plan: &Dialplan, found: &FallThrough) -> Result<(), NoMemory>
    ensures { OnOk result (out.new.begun ≡ out.old.begun ++ spec.wide_text plan.now (WideFinding.FallsThrough found.now)) }
{
    out.push(b"FallsThrough ")?;
    push_spot(out, plan, found.entry)?;
    out.push(b" ")?;
    push_spot(out, plan, found.next)?;
    Ok(())
}

/// Adds that a run is endless, with its first entry.
fn push_endless_run(out: &mut Block, plan: &Dialplan, run: &Loop) -> Result<(), NoMemory>
    ensures { OnOk result (out.new.begun ≡ out.old.begun ++ spec.wide_text plan.now (WideFinding.EndlessRun run.now)) }
{
    out.push(b"Loop ")?;
    push_spot(out, plan, run.first)
}

/// Adds that an entry names a function that Asterisk lacks.
fn push_no_function(
    out: &mut Block,
    plan: &Dialplan,
    entry: EntryId,
    name: &[u8],
) -> Result<(), NoMemory>
    ensures { OnOk result (out.new.begun ≡ out.old.begun ++ spec.wide_text plan.now (WideFinding.NoFunction entry name.now)) }
{
    out.push(b"NoFunction ")?;
    push_spot(out, plan, entry)?;
    out.push(b" ")?;
    out.push(name)?;
    Ok(())
}

/// Adds the line of a finding.
fn push_line(out: &mut Block, plan: &Dialplan, finding: &WideFinding) -> Result<(), NoMemory>
    ensures { OnOk result (out.new.begun ≡ out.old.begun ++ spec.wide_line plan.now finding.now) }
{
    match finding {
        WideFinding::Plain(finding) => push_finding_line(out, plan, finding),
        WideFinding::FallsThrough(found) => {
            push_fall_through(out, plan, found)?;
            out.push(b"\n")
        }
        WideFinding::EndlessRun(run) => {
            push_endless_run(out, plan, run)?;
            out.push(b"\n")
        }
        WideFinding::NoFunction { entry, name } => {
            push_no_function(out, plan, *entry, name.bytes())?;
            out.push(b"\n")
        }
    }
}

/// Adds the lines of the findings.
fn push_lines(out: &mut Block, plan: &Dialplan, findings: &[WideFinding]) -> Result<(), NoMemory>
    ensures { OnOk result (out.new.begun ≡ out.old.begun ++ flat_map (spec.wide_line plan.now) findings.now) }
{
    for finding in findings {
        push_line(out, plan, finding)?;
    }
    Ok(())
}

/// Adds the lines of the findings, then their number.
fn push_text(out: &mut Block, plan: &Dialplan, findings: &[WideFinding]) -> Result<(), NoMemory>
    ensures { OnOk result (out.new.begun ≡ out.old.begun ++ spec.findings_text plan.now findings.now) }
{
    push_lines(out, plan, findings)?;
    out.push(b"ok ")?;
    push_number(out, findings.len())?;
    out.push(b" findings\n")
}

/// The result of an audit: its text, and its status.
#[derive(Drop)]
struct WideAuditOutcome {
    text: Block,
    status: u8,
}

/// The report of the findings in a dialplan.
fn report_of(
    alloc: Global,
    plan: &Dialplan,
    findings: &[WideFinding],
) -> Result<WideAuditOutcome, NoMemory>
    ensures { IfOk result (λ report. spec.outcome_report report ≡ spec.report_of plan.now findings.now) }
{
    let mut text = Block::new(alloc, 0)?;
    push_text(&mut text, plan, findings)?;
    Ok(WideAuditOutcome {
        text,
        status: u8::from(!findings.is_empty()),
    })
}

/// The report of an audit of a dialplan.
fn report(
    alloc: Global,
    plan: &Dialplan,
    choice: AuditChoice<'_>,
) -> Result<WideAuditOutcome, NoMemory>
    ensures { IfOk result (λ report. spec.IsAuditReport (choice_of choice.entry) plan.now (spec.outcome_report report)) }
{
    let findings = find_told(alloc, plan, choice)?;
    report_of(alloc, plan, &findings)
}

/// Writes the report of an audit of a dialplan.
fn write_audit<W: WriteTold>(
    alloc: Global,
    plan: &Dialplan,
    choice: AuditChoice<'_>,
    writer: &mut W,
) -> Result<u8, PbxFault>
    ensures writes { spec.WritesChoice (choice_of choice.entry) (W.contents writer.old) (W.contents writer.new) (Ok plan.now) result }
    ensures told { W.has_failed writer.new ≡ (W.has_failed writer.old || is_write_failed result) }
{
    let report = report(alloc, plan, choice)?;
    writer.write_told(report.text.bytes())?;
    Ok(report.status)
}

/// Loads a dialplan and writes the findings of an audit for some kinds, over this program's applications or over the wide table: a line for
/// each finding, as [`dp_commands::audit`] does, and then `ok N findings`. The status is 0 if nothing is reported, else 1.
///
/// Over the wide table an application that this table has is not a finding, and neither is a variable that nothing sets. After the other
/// findings come the entries after which a channel goes on in another extension, the endless runs, and the names of functions that Asterisk
/// lacks.
///
/// A faulty dialplan has its first fault, and nothing is written. Everything is written at once; if that write fails, what was written
/// stays written. Which findings there are is this program's own choice.
#[tactic(auto, unfolding(crate::specs::WideAudits::plan_of))]
pub fn audit_by<W: WriteTold>(
    alloc: Global,
    plan: &[u8],
    choice: AuditChoice<'_>,
    writer: &mut W,
) -> Result<u8, PbxFault>
    ensures writes { spec.WritesChoice (choice_of choice.entry) (W.contents writer.old) (W.contents writer.new) (spec.plan_of plan.now) result }
    ensures told { W.has_failed writer.new ≡ (W.has_failed writer.old || is_write_failed result) }
{
    match read_plan(alloc, plan) {
        Ok(read) => write_audit(alloc, &read.plan, choice, writer),
        Err(fault) => Err(fault),
    }
}
