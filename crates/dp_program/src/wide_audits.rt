//! The request that audits a dialplan for some kinds of findings, or over the wide table.
ghost use Rattle.std.specs.Prelude.{◌≡◌, ◌||◌};
ghost use Rattle.dp_commands.specs.Faults.{is_write_failed};
ghost use Rattle.dp_program.specs.Faulted.{without_place};
ghost use Rattle.dp_program.specs.Hints.{Tells, audit_hint_of, status_in};
ghost use Rattle.dp_program.specs.Serves as spec;
ghost use Rattle.dp_wide_runs.specs.Kinds.{choice_of};
ghost use Rattle.dp_wide_runs.specs.WideAudits.{plan_of};

use crate::fault_places::{Faulted, with_place};
use crate::files::ReadFiles;
use crate::hints::{ServedRequest, audit_hint};
use crate::json_audits::audit_json_by;
use crate::options::Options;
use crate::texts::read_text;
use dp_commands::PbxFault;
use dp_conf::WriteTold;
use dp_wide_runs::{AuditChoice, audit_by};
use std::alloc::Global;

/// An audit of some kinds of findings, or over the wide table: its file, what it reports, and the options of the request.
#[derive(Clone, Copy)]
pub(crate) struct ChosenAudit<'a, 'w> {
    pub(crate) file: &'a str,
    pub(crate) choice: AuditChoice<'w>,
    pub(crate) options: Options<'w>,
}

/// Audits a dialplan for these findings, and writes text or JSON.
fn audit_chosen<W: WriteTold>(
    alloc: Global,
    plan: &[u8],
    choice: AuditChoice<'_>,
    is_json: bool,
    output: &mut W,
) -> Result<u8, PbxFault>
    ensures audits { spec.WritesChoiceBy is_json (choice_of choice.entry) (W.contents output.old) (W.contents output.new) (plan_of plan.now) result }
    ensures told { W.has_failed output.new ≡ (W.has_failed output.old || is_write_failed result) }
{
    if is_json {
        audit_json_by(alloc, plan, choice, output)
    } else {
        audit_by(alloc, plan, choice, output)
    }
}

/// Audits a dialplan as requested, and hints if the file may not be a dialplan.
#[tactic(auto, using(crate::proofs::HintsLemmas::choice_hint_refused))]
fn audit_told<W: WriteTold>(
    alloc: Global,
    plan: &[u8],
    asked: ChosenAudit<'_, '_>,
    output: &mut W,
) -> Result<ServedRequest, PbxFault>
    ensures audits { spec.WritesChoiceBy asked.entry.options.is_json (choice_of asked.entry.choice) (W.contents output.old) (W.contents output.new)
        (plan_of plan.now) (status_in result) }
    ensures tells { Tells (audit_hint_of asked.entry.file.now plan.now) result }
    ensures told { W.has_failed output.new ≡ (W.has_failed output.old || is_write_failed result) }
{
    let hint = audit_hint(alloc, asked.file, plan)?;
    let status = audit_chosen(alloc, plan, asked.choice, asked.options.is_json, output)?;
    Ok(ServedRequest { status, hint })
}

/// Audits the dialplan of a file as requested.
pub(crate) fn serve_audit_by<'a, F: ReadFiles, W: WriteTold>(
    files: &F,
    alloc: Global,
    asked: ChosenAudit<'a, '_>,
    output: &mut W,
) -> Result<ServedRequest, Faulted<'a>>
    ensures serves { spec.AuditsFileBy asked.entry.options.is_json (choice_of asked.entry.choice) asked.entry.file.now
        (F.source_at files.now asked.entry.file.now) (W.contents output.old) (W.contents output.new) result }
    ensures told { W.has_failed output.new ≡ (W.has_failed output.old || is_write_failed (without_place result)) }
{
    let plan = read_text(files, alloc, asked.file)?;
    with_place(asked.file, &plan, audit_told(alloc, &plan, asked, output))
}
