//! The requests that run a script one turn after another. Beside the output they report what the run meets and the program does not model.
ghost use Rattle.std.specs.Prelude.{◌≡◌, ◌||◌, IfOk, Ok, true};
ghost use Rattle.dp_commands.specs.Faults.{is_write_failed};
ghost use Rattle.dp_commands.specs.Run.{Writes};
ghost use Rattle.dp_program.specs.Faulted.{without_place};
ghost use Rattle.dp_program.specs.Hints.{Tells, status_in};
ghost use Rattle.dp_program.specs.Serves as spec;
ghost use Rattle.dp_program.specs.Texts.{paths_of, sources_of, texts_of};

use crate::fault_places::{Faulted, placed_in_run};
use crate::files::ReadFiles;
use crate::hints::ServedRequest;
use crate::request::RunFiles;
use crate::texts::{Texts, read_texts};
use crate::verbose_runs::run_verbosely;
use dp_commands::PbxFault;
use dp_conf::WriteTold;
use dp_plan::NoMemory;
use dp_unmodelled::{run_reported, unmodelled_lines};
use std::alloc::Global;

/// A run by its files, verbose or not.
#[derive(Clone, Copy)]
pub(crate) struct ReportedRun<'r, 'a> {
    pub(crate) files: &'r RunFiles<'a>,
    pub(crate) is_verbose: bool,
}

/// The lines of what a run meets that is not modelled. Its texts have no fault, so it fails only if memory runs out.
fn unmodelled_hint(alloc: Global, texts: &Texts) -> Result<Vec<u8>, NoMemory>
    ensures { IfOk result (λ lines. Ok lines.items ≡ spec.unmodelled_of_texts (texts_of texts.now)) }
{
    match unmodelled_lines(alloc, texts.lend()) {
        Ok(lines) => Ok(lines),
        Err(_) => Err(NoMemory),
    }
}

/// Runs the script of a run verbosely on its dialplan, and gives the lines of what it meets that is not modelled beside its status.
fn run_verbosely_reported<W: WriteTold>(
    alloc: Global,
    files: &RunFiles<'_>,
    texts: &Texts,
    output: &mut W,
) -> Result<ServedRequest, PbxFault>
    ensures runs { spec.RunsRead true (paths_of files.now) (W.contents output.old) (W.contents output.new)
        (Ok (texts_of texts.now)) (status_in result) }
    ensures tells { Tells (spec.unmodelled_of_texts (texts_of texts.now)) result }
    ensures told { W.has_failed output.new ≡ (W.has_failed output.old || is_write_failed result) }
{
    let status = run_verbosely(alloc, files, texts, output)?;
    let hint = unmodelled_hint(alloc, texts)?;
    Ok(ServedRequest { status, hint })
}

/// The same with only the lines of the turns.
fn run_plainly_reported<W: WriteTold>(
    alloc: Global,
    texts: &Texts,
    output: &mut W,
) -> Result<ServedRequest, PbxFault>
    ensures runs { Writes (W.contents output.old) (W.contents output.new) (spec.run_of_texts (texts_of texts.now)) (status_in result) }
    ensures tells { Tells (spec.unmodelled_of_texts (texts_of texts.now)) result }
    ensures told { W.has_failed output.new ≡ (W.has_failed output.old || is_write_failed result) }
{
    let report = run_reported(alloc, texts.lend(), output)?;
    Ok(ServedRequest {
        status: report.status,
        hint: report.lines,
    })
}

/// Runs the script of a run on its dialplan, verbosely or not, and gives the lines of what it meets that is not modelled beside its status.
fn run_texts<W: WriteTold>(
    alloc: Global,
    run: ReportedRun<'_, '_>,
    texts: &Texts,
    output: &mut W,
) -> Result<ServedRequest, PbxFault>
    ensures runs { spec.RunsRead run.entry.is_verbose (paths_of run.entry.files.now) (W.contents output.old) (W.contents output.new)
        (Ok (texts_of texts.now)) (status_in result) }
    ensures tells { Tells (spec.unmodelled_of_texts (texts_of texts.now)) result }
    ensures told { W.has_failed output.new ≡ (W.has_failed output.old || is_write_failed result) }
{
    if run.is_verbose {
        return run_verbosely_reported(alloc, run.files, texts, output);
    }
    run_plainly_reported(alloc, texts, output)
}

/// Runs the script of one file on the dialplan of another, verbosely or not, with the queues and the second dialplan of further files if they
/// are named. The hint has a line for each application and function that the run meets and that is not modelled.
pub(crate) fn serve_run_reported<'a, F: ReadFiles, W: WriteTold>(
    files: &F,
    alloc: Global,
    run: ReportedRun<'_, 'a>,
    output: &mut W,
) -> Result<ServedRequest, Faulted<'a>>
    ensures serves { spec.RunsReported (paths_of run.entry.files.now) (sources_of (F.source_at files.now) (paths_of run.entry.files.now))
        run.entry.is_verbose (W.contents output.old) (W.contents output.new) result }
    ensures told { W.has_failed output.new ≡ (W.has_failed output.old || is_write_failed (without_place result)) }
{
    let texts = read_texts(files, alloc, run.files)?;
    let answered = run_texts(alloc, run, &texts, output);
    placed_in_run(run.files, &texts, answered)
}
