//! The reports of `audit` as JSON.
ghost use Rattle.std.specs.Prelude.{◌≡◌, ◌||◌, IfOk, Ok, false};
ghost use Rattle.dp_app.specs.Rows.{has_row};
ghost use Rattle.dp_audit.specs.Findings.{findings_of};
ghost use Rattle.dp_conf.specs.Answers.{Answers};
ghost use Rattle.dp_commands.specs.Audit.{WritesAudit};
ghost use Rattle.dp_commands.specs.Faults.{is_write_failed, reason_of};
ghost use Rattle.dp_program.specs.JsonAudits as spec;
ghost use Rattle.dp_table.specs.Standard.{standard_rows};
ghost use Rattle.dp_wide_runs.specs.Kinds.{choice_of};
ghost use Rattle.dp_wide_runs.specs.WideAudits.{plan_of};

use dp_app::AppTable;
use dp_audit::{AppNames, Finding};
use dp_commands::{PbxFault, read_plan};
use dp_conf::WriteTold;
use dp_json::{push_finding_count, push_findings, push_wide_findings};
use dp_plan::{Dialplan, NoMemory};
use dp_table::StandardApps;
use dp_wide_runs::{AuditChoice, WideFinding, find_told};
use std::alloc::Global;

/// The names of the applications of this program.
struct TableNames;

impl AppNames for TableNames {
    ghost use Rattle.dp_app.specs.Rows.{has_row};
    ghost use Rattle.dp_table.specs.Standard.{standard_rows};

    ghost known = { has_row standard_rows };

    fn has_application(name: &[u8]) -> bool {
        StandardApps::number_of(name).is_some()
    }
}

/// The result of an audit: its lines, and its status.
#[derive(Drop)]
struct AuditLines {
    lines: Vec<u8>,
    status: u8,
}

/// The report of the findings in a dialplan.
fn report_of(alloc: Global, plan: &Dialplan, findings: &[Finding]) -> Result<AuditLines, NoMemory>
    ensures { IfOk result (λ report. spec.audit_report report ≡ spec.report_of plan.now findings.now) }
{
    let mut lines = Vec::new(alloc);
    push_findings(&mut lines, plan, findings)?;
    push_finding_count(&mut lines, findings.len())?;
    Ok(AuditLines {
        lines,
        status: u8::from(!findings.is_empty()),
    })
}

/// The report of an audit of a dialplan.
fn report(alloc: Global, plan: &Dialplan) -> Result<AuditLines, NoMemory>
    ensures { IfOk result (λ report. spec.audit_report report ≡ spec.report_of plan.now (findings_of (has_row standard_rows) plan.now)) }
{
    let findings = dp_audit::audit::<TableNames>(alloc, plan)?;
    report_of(alloc, plan, &findings)
}

/// The report of an audit of a dialplan's text, or the text's fault.
#[tactic(auto, unfolding(crate::specs::JsonAudits::audit_json_of))]
fn audit_report(alloc: Global, text: &[u8]) -> Result<AuditLines, PbxFault>
    ensures report { Answers spec.audit_report reason_of result (spec.audit_json_of text.now) }
    ensures quiet { is_write_failed result ≡ false }
{
    let read = read_plan(alloc, text)?;
    let report = report(alloc, &read.plan)?;
    Ok(report)
}

/// Loads a dialplan and writes as JSON what an audit finds in it. Otherwise it does what [`dp_commands::audit`] does.
pub(crate) fn audit_json<W: WriteTold>(
    alloc: Global,
    plan: &[u8],
    output: &mut W,
) -> Result<u8, PbxFault>
    ensures audits { WritesAudit (W.contents output.old) (W.contents output.new) (spec.audit_json_of plan.now) result }
    ensures told { W.has_failed output.new ≡ (W.has_failed output.old || is_write_failed result) }
{
    let report = audit_report(alloc, plan)?;
    output.write_told(&report.lines)?;
    Ok(report.status)
}

/// The report of the findings of an audit that may use the wide table.
fn wide_report_of(
    alloc: Global,
    plan: &Dialplan,
    findings: &[WideFinding],
) -> Result<AuditLines, NoMemory>
    ensures { IfOk result (λ report. spec.audit_report report ≡ spec.wide_report_of plan.now findings.now) }
{
    let mut lines = Vec::new(alloc);
    push_wide_findings(&mut lines, plan, findings)?;
    push_finding_count(&mut lines, findings.len())?;
    Ok(AuditLines {
        lines,
        status: u8::from(!findings.is_empty()),
    })
}

/// The report of such an audit of a dialplan.
fn wide_report(
    alloc: Global,
    plan: &Dialplan,
    choice: AuditChoice<'_>,
) -> Result<AuditLines, NoMemory>
    ensures { IfOk result (λ report. spec.IsJsonAudit (choice_of choice.entry) plan.now (spec.audit_report report)) }
{
    let findings = find_told(alloc, plan, choice)?;
    wide_report_of(alloc, plan, &findings)
}

/// Writes the report of such an audit of a dialplan.
fn write_audit<W: WriteTold>(
    alloc: Global,
    plan: &Dialplan,
    choice: AuditChoice<'_>,
    output: &mut W,
) -> Result<u8, PbxFault>
    ensures writes { spec.WritesJsonChoice (choice_of choice.entry) (W.contents output.old) (W.contents output.new) (Ok plan.now) result }
    ensures told { W.has_failed output.new ≡ (W.has_failed output.old || is_write_failed result) }
{
    let report = wide_report(alloc, plan, choice)?;
    output.write_told(&report.lines)?;
    Ok(report.status)
}

/// Loads a dialplan and writes as JSON the findings of an audit for some kinds, over this program's applications or over the wide table.
/// Otherwise it does what [`dp_wide_runs::audit_by`] does.
#[tactic(auto, unfolding(dp_wide_runs::specs::WideAudits::plan_of))]
pub(crate) fn audit_json_by<W: WriteTold>(
    alloc: Global,
    plan: &[u8],
    choice: AuditChoice<'_>,
    output: &mut W,
) -> Result<u8, PbxFault>
    ensures audits { spec.WritesJsonChoice (choice_of choice.entry) (W.contents output.old) (W.contents output.new) (plan_of plan.now) result }
    ensures told { W.has_failed output.new ≡ (W.has_failed output.old || is_write_failed result) }
{
    match read_plan(alloc, plan) {
        Ok(read) => write_audit(alloc, &read.plan, choice, output),
        Err(fault) => Err(fault),
    }
}
