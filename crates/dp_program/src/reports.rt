//! The requests that list, audit or query a dialplan, or that explain a fault.
ghost use Rattle.std.specs.Prelude.{◌≡◌, ◌||◌, false};
ghost use Rattle.dp_commands.specs.Audit.{WritesAudit};
ghost use Rattle.dp_commands.specs.Faults.{is_write_failed};
ghost use Rattle.dp_commands.specs.Report.{Reports, list_of};
ghost use Rattle.dp_program.specs.Entries.{entry_of};
ghost use Rattle.dp_program.specs.Faulted.{without_place};
ghost use Rattle.dp_program.specs.Hints.{Tells, audit_hint_of, match_hint_of, status_in};
ghost use Rattle.dp_program.specs.Requests.{lookup_of, options_of};
ghost use Rattle.dp_program.specs.Serves as spec;

use crate::entries::FaultNumber;
use crate::fault_places::{Faulted, placed_nowhere, with_place};
use crate::files::ReadFiles;
use crate::hints::{ServedRequest, audit_hint, match_hint};
use crate::json_audits::audit_json;
use crate::json_matches::match_json;
use crate::options::Options;
use crate::request::Lookup;
use crate::texts::read_text;
use dp_commands::{PbxFault, audit, list_plan, match_all, match_one};
use dp_conf::WriteTold;
use std::alloc::Global;

/// Audits a dialplan, and writes text or JSON.
fn audit_by<W: WriteTold>(
    alloc: Global,
    plan: &[u8],
    is_json: bool,
    output: &mut W,
) -> Result<u8, PbxFault>
    ensures audits { WritesAudit (W.contents output.old) (W.contents output.new) (spec.audit_by is_json plan.now) result }
    ensures told { W.has_failed output.new ≡ (W.has_failed output.old || is_write_failed result) }
{
    if is_json {
        audit_json(alloc, plan, output)
    } else {
        audit(alloc, plan, output)
    }
}

/// Audits a dialplan in this way, and hints if the file may not be a dialplan.
#[tactic(auto, using(crate::proofs::HintsLemmas::audit_hint_refused))]
fn audit_told<W: WriteTold>(
    alloc: Global,
    file: &str,
    plan: &[u8],
    is_json: bool,
    output: &mut W,
) -> Result<ServedRequest, PbxFault>
    ensures audits { WritesAudit (W.contents output.old) (W.contents output.new) (spec.audit_by is_json plan.now) (status_in result) }
    ensures tells { Tells (audit_hint_of file.now plan.now) result }
    ensures told { W.has_failed output.new ≡ (W.has_failed output.old || is_write_failed result) }
{
    let hint = audit_hint(alloc, file, plan)?;
    let status = audit_by(alloc, plan, is_json, output)?;
    Ok(ServedRequest { status, hint })
}

/// Audits the dialplan of a file.
pub(crate) fn serve_audit<'a, F: ReadFiles, W: WriteTold>(
    files: &F,
    alloc: Global,
    file: &'a str,
    is_json: bool,
    output: &mut W,
) -> Result<ServedRequest, Faulted<'a>>
    ensures serves { spec.AuditsFile is_json file.now (F.source_at files.now file.now) (W.contents output.old)
        (W.contents output.new) result }
    ensures told { W.has_failed output.new ≡ (W.has_failed output.old || is_write_failed (without_place result)) }
{
    let plan = read_text(files, alloc, file)?;
    with_place(file, &plan, audit_told(alloc, file, &plan, is_json, output))
}

/// Lists the dialplan of a file.
pub(crate) fn serve_list<'a, F: ReadFiles, W: WriteTold>(
    files: &F,
    alloc: Global,
    file: &'a str,
    output: &mut W,
) -> Result<u8, Faulted<'a>>
    ensures serves { spec.ReportsOn file.now (F.source_at files.now file.now) list_of (W.contents output.old)
        (W.contents output.new) result }
    ensures told { W.has_failed output.new ≡ (W.has_failed output.old || is_write_failed (without_place result)) }
{
    let plan = read_text(files, alloc, file)?;
    with_place(file, &plan, list_plan(alloc, &plan, output))
}

/// How to look up an entry: whether to report all extensions that match, and the options of the request. If it explains, it suggests names
/// for one that does not exist.
#[derive(Clone, Copy)]
pub(crate) struct LookUpManner<'w> {
    pub(crate) all: bool,
    pub(crate) options: Options<'w>,
}

/// Reports as text which entry of a dialplan answers and, if all are asked for, what decides about each extension that matches.
fn look_up_text<W: WriteTold>(
    alloc: Global,
    plan: &[u8],
    lookup: &Lookup<'_>,
    all: bool,
    output: &mut W,
) -> Result<u8, PbxFault>
    ensures reports { Reports (W.contents output.old) (W.contents output.new)
        (spec.look_up false (lookup_of lookup.now) all plan.now) result }
    ensures told { W.has_failed output.new ≡ (W.has_failed output.old || is_write_failed result) }
{
    let context = lookup.context.as_bytes();
    let text = lookup.text.as_bytes();
    if all {
        match_all(alloc, plan, context, text, lookup.priority, output)
    } else {
        match_one(alloc, plan, context, text, lookup.priority, output)
    }
}

/// Reports the same as text or as JSON.
fn look_up<W: WriteTold>(
    alloc: Global,
    plan: &[u8],
    lookup: &Lookup<'_>,
    manner: LookUpManner<'_>,
    output: &mut W,
) -> Result<u8, PbxFault>
    ensures reports { Reports (W.contents output.old) (W.contents output.new)
        (spec.look_up manner.entry.options.is_json (lookup_of lookup.now) manner.entry.all plan.now) result }
    ensures told { W.has_failed output.new ≡ (W.has_failed output.old || is_write_failed result) }
{
    if manner.options.is_json {
        match_json(alloc, plan, lookup, manner.all, output)
    } else {
        look_up_text(alloc, plan, lookup, manner.all, output)
    }
}

/// Reports in the same way, and hints if the file may not be a dialplan, or has no context with the name.
#[tactic(auto, using(crate::proofs::HintsLemmas::match_hint_refused))]
fn look_up_told<W: WriteTold>(
    alloc: Global,
    plan: &[u8],
    lookup: &Lookup<'_>,
    manner: LookUpManner<'_>,
    output: &mut W,
) -> Result<ServedRequest, PbxFault>
    ensures reports { Reports (W.contents output.old) (W.contents output.new)
        (spec.look_up manner.entry.options.is_json (lookup_of lookup.now) manner.entry.all plan.now) (status_in result) }
    ensures tells { Tells (match_hint_of (lookup_of lookup.now) manner.entry.options.explains plan.now) result }
    ensures told { W.has_failed output.new ≡ (W.has_failed output.old || is_write_failed result) }
{
    let hint = match_hint(alloc, lookup, manner.options.explains, plan)?;
    let status = look_up(alloc, plan, lookup, manner, output)?;
    Ok(ServedRequest { status, hint })
}

/// Looks up an entry in the dialplan of a file.
pub(crate) fn serve_match<'a, F: ReadFiles, W: WriteTold>(
    files: &F,
    alloc: Global,
    lookup: &Lookup<'a>,
    manner: LookUpManner<'_>,
    output: &mut W,
) -> Result<ServedRequest, Faulted<'a>>
    ensures serves { spec.LooksUp (lookup_of lookup.now) (F.source_at files.now lookup.now.file.now) manner.entry.all
        (options_of manner.entry.options) (W.contents output.old) (W.contents output.new) result }
    ensures told { W.has_failed output.new ≡ (W.has_failed output.old || is_write_failed (without_place result)) }
{
    let plan = read_text(files, alloc, lookup.file)?;
    with_place(
        lookup.file,
        &plan,
        look_up_told(alloc, &plan, lookup, manner, output),
    )
}

/// Writes the manual's entry on a fault.
fn write_entry<W: WriteTold>(fault: FaultNumber, output: &mut W) -> Result<u8, PbxFault>
    ensures reports { Reports (W.contents output.old) (W.contents output.new) (Ok (entry_of fault)) result }
    ensures told { W.has_failed output.new ≡ (W.has_failed output.old || is_write_failed result) }
{
    output.write_told(fault.entry().as_bytes())?;
    Ok(0)
}

/// Answers with the manual's entry on a fault.
pub(crate) fn serve_explain<'a, W: WriteTold>(
    fault: FaultNumber,
    output: &mut W,
) -> Result<u8, Faulted<'a>>
    ensures serves { spec.WritesEntry fault (W.contents output.old) (W.contents output.new) result }
    ensures told { W.has_failed output.new ≡ (W.has_failed output.old || is_write_failed (without_place result)) }
{
    placed_nowhere(write_entry(fault, output))
}
