//! The requests that run a script verbosely.
ghost use Rattle.std.specs.Prelude.{◌≡◌, ◌||◌};
ghost use Rattle.dp_commands.specs.Faults.{is_write_failed};
ghost use Rattle.dp_commands.specs.Verbose.{WritesVerbose, WritesVerboseDebug};
ghost use Rattle.dp_program.specs.Entries.{explanation_of};
ghost use Rattle.dp_program.specs.Faulted.{without_place};
ghost use Rattle.dp_program.specs.Serves as spec;
ghost use Rattle.dp_program.specs.Texts.{paths_of, sources_of, texts_of};

use crate::entries::ManualEntries;
use crate::fault_places::{Faulted, placed_in_run};
use crate::files::ReadFiles;
use crate::request::RunFiles;
use crate::texts::{Texts, read_texts};
use dp_commands::{PbxFault, debug_verbose, run_verbose};
use dp_conf::WriteTold;
use std::alloc::Global;

/// Runs the script of a run verbosely on its dialplan.
pub(crate) fn run_verbosely<W: WriteTold>(
    alloc: Global,
    run: &RunFiles<'_>,
    texts: &Texts,
    output: &mut W,
) -> Result<u8, PbxFault>
    ensures writes { WritesVerbose explanation_of (spec.in_force_at_first (paths_of run.now) (texts_of texts.now))
        (W.contents output.old) (W.contents output.new) (spec.run_of_texts (texts_of texts.now)) result }
    ensures told { W.has_failed output.new ≡ (W.has_failed output.old || is_write_failed result) }
{
    run_verbose::<ManualEntries, W>(alloc, texts.lend(), run.plan_names(), output)
}

/// Debugs the script of a run verbosely on its dialplan, with the break that a text names.
fn debug_texts<W: WriteTold>(
    alloc: Global,
    run: &RunFiles<'_>,
    texts: &Texts,
    held: &str,
    output: &mut W,
) -> Result<u8, PbxFault>
    ensures debugs { WritesVerboseDebug explanation_of (spec.in_force_at_first (paths_of run.now) (texts_of texts.now))
        (W.contents output.old) (W.contents output.new) (spec.debug_of_texts held.now (texts_of texts.now)) result }
    ensures told { W.has_failed output.new ≡ (W.has_failed output.old || is_write_failed result) }
{
    debug_verbose::<ManualEntries, W>(
        alloc,
        texts.lend(),
        run.plan_names(),
        held.as_bytes(),
        output,
    )
}

/// Debugs the script of one file verbosely on the dialplan of another, with the queues and the second dialplan of further files if they are
/// named, and with the break that a text names.
pub(crate) fn serve_debug_verbose<'a, F: ReadFiles, W: WriteTold>(
    files: &F,
    alloc: Global,
    run: &RunFiles<'a>,
    held: &str,
    output: &mut W,
) -> Result<u8, Faulted<'a>>
    ensures serves { spec.DebugsFilesVerbosely (paths_of run.now) (sources_of (F.source_at files.now) (paths_of run.now)) held.now
        (W.contents output.old) (W.contents output.new) result }
    ensures told { W.has_failed output.new ≡ (W.has_failed output.old || is_write_failed (without_place result)) }
{
    let texts = read_texts(files, alloc, run)?;
    let answered = debug_texts(alloc, run, &texts, held, output);
    placed_in_run(run, &texts, answered)
}
