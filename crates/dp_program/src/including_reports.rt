//! The requests that list, audit or query a dialplan that is read with the files that it includes.
ghost use Rattle.std.specs.Prelude.{◌≡◌, ◌||◌};
ghost use Rattle.std.specs.Option.{option_map};
ghost use Rattle.dp_commands.specs.Faults.{is_write_failed};
ghost use Rattle.dp_program.specs.Dialplans.{text_now};
ghost use Rattle.dp_program.specs.Faulted.{without_place};
ghost use Rattle.dp_program.specs.Requests.{lookup_of, options_of};
ghost use Rattle.dp_program.specs.Serves as spec;
ghost use Rattle.dp_wide_runs.specs.Kinds.{choice_of};

use crate::assumptions::look_up_use;
use crate::dialplans::{PlanText, PlanUse, ReadDialplan, faulty, read_dialplan};
use crate::fault_places::Faulted;
use crate::files::ReadFiles;
use crate::hints::{ServedRequest, without_hint};
use crate::reports::{LookUpManner, serve_list, serve_match};
use crate::request::Lookup;
use crate::wide_audits::{ChosenAudit, serve_audit_by};
use dp_conf::WriteTold;
use std::alloc::Global;

/// Lists the dialplan of a file, given its text.
fn list_text<'a, F: ReadFiles, W: WriteTold>(
    files: &F,
    alloc: Global,
    file: &'a str,
    plan: &PlanText,
    output: &mut W,
) -> Result<ServedRequest, Faulted<'a>>
    ensures serves { spec.ListsText file.now (F.source_at files.now) (W.contents output.old) (W.contents output.new) (text_now plan.now) result }
    ensures told { W.has_failed output.new ≡ (W.has_failed output.old || is_write_failed (without_place result)) }
{
    let made = plan.made_files(files, file);
    without_hint(alloc, serve_list(&made, alloc, file, output))
}

/// Lists the dialplan of a file and of those that it includes, given the word of `--clock`.
pub(crate) fn serve_list_including<'a, F: ReadFiles, W: WriteTold>(
    files: &F,
    alloc: Global,
    file: &'a str,
    clock: Option<&str>,
    output: &mut W,
) -> Result<ServedRequest, Faulted<'a>>
    ensures serves { spec.ListsIncluding (option_map (λ word. word.now) clock.entry) file.now (F.source_at files.now) (W.contents output.old)
        (W.contents output.new) result }
    ensures told { W.has_failed output.new ≡ (W.has_failed output.old || is_write_failed (without_place result)) }
{
    match read_dialplan(files, alloc, file, PlanUse::Report, clock) {
        Ok(ReadDialplan::Loads(plan)) => list_text(files, alloc, file, &plan, output),
        Ok(ReadDialplan::Faulty(told)) => Ok(faulty(told)),
        Err(unread) => Err(Faulted::from(unread)),
    }
}

/// Looks up an entry in the dialplan of a file and of those that it includes.
pub(crate) fn serve_match_including<'a, F: ReadFiles, W: WriteTold>(
    files: &F,
    alloc: Global,
    lookup: &Lookup<'a>,
    manner: LookUpManner<'_>,
    output: &mut W,
) -> Result<ServedRequest, Faulted<'a>>
    ensures serves { spec.LooksUpIncluding (lookup_of lookup.now) (F.source_at files.now)
        manner.entry.all (options_of manner.entry.options) (W.contents output.old) (W.contents output.new) result }
    ensures told { W.has_failed output.new ≡ (W.has_failed output.old || is_write_failed (without_place result)) }
{
    match read_dialplan(
        files,
        alloc,
        lookup.file,
        look_up_use(manner.options),
        manner.options.clock,
    ) {
        Ok(ReadDialplan::Loads(plan)) => {
            let made = plan.made_files(files, lookup.file);
            serve_match(&made, alloc, lookup, manner, output)
        }
        Ok(ReadDialplan::Faulty(told)) => Ok(faulty(told)),
        Err(unread) => Err(Faulted::from(unread)),
    }
}

/// Audits the dialplan of a file and of those that it includes as requested.
pub(crate) fn serve_audit_including<'a, F: ReadFiles, W: WriteTold>(
    files: &F,
    alloc: Global,
    asked: ChosenAudit<'a, '_>,
    output: &mut W,
) -> Result<ServedRequest, Faulted<'a>>
    ensures serves { spec.AuditsIncluding (options_of asked.entry.options) (choice_of asked.entry.choice) asked.entry.file.now
        (F.source_at files.now) (W.contents output.old) (W.contents output.new) result }
    ensures told { W.has_failed output.new ≡ (W.has_failed output.old || is_write_failed (without_place result)) }
{
    match read_dialplan(
        files,
        alloc,
        asked.file,
        PlanUse::Report,
        asked.options.clock,
    ) {
        Ok(ReadDialplan::Loads(plan)) => {
            let made = plan.made_files(files, asked.file);
            serve_audit_by(&made, alloc, asked, output)
        }
        Ok(ReadDialplan::Faulty(told)) => Ok(faulty(told)),
        Err(unread) => Err(Faulted::from(unread)),
    }
}
