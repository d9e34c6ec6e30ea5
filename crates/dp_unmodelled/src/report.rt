//! The report of the names that a run meets and that the program does not model.
ghost use Rattle.std.specs.Prelude.{◌≡◌, ◌||◌, [], IfOk, Ok, false, if◌then◌else◌};
ghost use Rattle.std.specs.List.{list_any};
ghost use Rattle.std.specs.Option.{option_map};
ghost use Rattle.dp_conf.specs.Answers.{Answers};
ghost use Rattle.dp_queue.specs.Rest.{IsAtRest};
ghost use Rattle.dp_commands.specs.Faults.{is_write_failed, reason_of};
ghost use Rattle.dp_commands.specs.Run.{Writes, run_of_texts};
ghost use Rattle.dp_unmodelled.specs.Report as spec;

use crate::lines::Reported;
use crate::memory_lines::WrittenLines;
use crate::model_table::ModelledApps;
use dp_app::AppTable;
use dp_commands::{PbxFault, RunContents, RunTexts, read_run, run_contents, run_lines};
use dp_conf::WriteTold;
use dp_machine::NoMemory;
use dp_plan::{Dialplan, Entry};
use dp_table::StandardApps;
use std::alloc::Global;

/// Whether a text has a byte.
fn has(text: &[u8], wanted: u8) -> bool
    ensures { result ≡ spec.has text.now wanted }
{
    text.iter().any(|byte| *byte == wanted)
}

/// Whether an entry may meet something that is not modelled: its application is not, or its arguments may call a function.
fn may_meet(entry: &Entry) -> bool
    ensures { result ≡ spec.may_meet entry.now }
{
    if StandardApps::number_of(entry.application.bytes()).is_none() {
        return true;
    }
    let arguments = entry.arguments.bytes();
    has(arguments, b'$') && has(arguments, b'(')
}

/// Whether one of some entries may.
fn any_may_meet(entries: &[Entry]) -> bool
    ensures { result ≡ list_any spec.may_meet entries.now }
{
    entries.iter().any(|entry| may_meet(entry))
}

/// Whether an entry of a dialplan may.
fn plan_may_meet(plan: &Dialplan) -> bool
    ensures { result ≡ spec.plan_may_meet plan.now }
{
    plan.contexts()
        .iter()
        .any(|context| any_may_meet(context.entries()))
}

/// Whether a run meets nothing that is not modelled, whatever its script: no entry of its dialplan may, and there is no second dialplan.
fn meets_nothing(second_plan: Option<&[u8]>, plan: &Dialplan) -> bool
    ensures { result ≡ spec.meets_nothing (option_map (λ text. text.now) second_plan.entry) plan.now }
{
    second_plan.is_none() && !plan_may_meet(plan)
}

/// The lines of the names that a run meets.
fn met_lines(alloc: Global, contents: RunContents) -> Result<Vec<u8>, NoMemory>
    requires { IsAtRest contents.files.queues }
    ensures { IfOk result (λ lines. lines.items ≡ spec.met_lines (record { plan = contents.files.plan; queues = contents.files.queues; lines = contents.lines.items })) }
{
    let RunContents { files, lines } = contents;
    let machine = files.into_machine::<ModelledApps>(alloc)?;
    let mut written = WrittenLines::none(alloc);
    match run_lines(alloc, Reported::none(alloc), machine, &lines, &mut written) {
        Ok(_) => Ok(written.into_bytes()),
        Err(_) => Err(NoMemory),
    }
}

/// The lines of the applications and functions that a run of these texts meets and that the program does not model without `--asterisk`, each
/// name once, in the order in which it meets them. Of an entry only the first one counts. The script runs once more for this, unless no entry
/// of the dialplan can meet any and there is no second dialplan.
///
/// The error is the first fault of the texts, as that of [`dp_commands::run_script`], or that memory ran out.
#[tactic(auto, unfolding(crate::specs::Report::unmodelled_of))]
pub fn unmodelled_lines(alloc: Global, texts: RunTexts<'_>) -> Result<Vec<u8>, PbxFault>
    ensures lines { Answers (λ lines. lines.items) reason_of result
        (spec.unmodelled_of texts.entry.plan.now (option_map (λ text. text.now) texts.entry.queues)
        (option_map (λ text. text.now) texts.entry.second_plan) texts.entry.script.now) }
    ensures quiet { is_write_failed result ≡ false }
{
    let contents = read_run(alloc, texts)?;
    if meets_nothing(texts.second_plan, &contents.files.plan) {
        return Ok(Vec::new(alloc));
    }
    let lines = met_lines(alloc, contents)?;
    Ok(lines)
}

/// The result of a run whose names are reported.
#[derive(Drop)]
pub struct RunReport {
    /// The status: 1 if a turn was refused, else 0.
    pub status: u8,
    /// The lines of the applications and functions that the run met and that the program does not model.
    pub lines: Vec<u8>,
}

/// The lines of a run whose texts have no fault, so that the error is only that memory ran out. A quiet run meets nothing, and has none.
fn report_lines(alloc: Global, is_quiet: bool, texts: RunTexts<'_>) -> Result<Vec<u8>, NoMemory>
    ensures { IfOk result (λ lines. Ok lines.items ≡ (if is_quiet then Ok [] else spec.unmodelled_in texts.entry)) }
{
    if is_quiet {
        return Ok(Vec::new(alloc));
    }
    match unmodelled_lines(alloc, texts) {
        Ok(lines) => Ok(lines),
        Err(_) => Err(NoMemory),
    }
}

/// Runs a script on a dialplan with its queues as [`dp_commands::run_script`] does, and gives the lines of [`unmodelled_lines`] beside the
/// status. Its texts are read a second time only if the run may meet a name that is not modelled.
pub fn run_reported<W: WriteTold>(
    alloc: Global,
    texts: RunTexts<'_>,
    writer: &mut W,
) -> Result<RunReport, PbxFault>
    ensures writes { Writes (W.contents writer.old) (W.contents writer.new) (run_of_texts texts.entry) (spec.status_in result) }
    ensures lines { IfOk result (λ report. spec.unmodelled_in texts.entry ≡ Ok report.lines.items) }
    ensures told { W.has_failed writer.new ≡ (W.has_failed writer.old || is_write_failed result) }
{
    let contents = read_run(alloc, texts)?;
    let is_quiet = meets_nothing(texts.second_plan, &contents.files.plan);
    let status = run_contents(alloc, contents, writer)?;
    let lines = report_lines(alloc, is_quiet, texts)?;
    Ok(RunReport { status, lines })
}
