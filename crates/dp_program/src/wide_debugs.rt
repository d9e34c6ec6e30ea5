//! The requests that debug a script over the wide table.
ghost use Rattle.std.specs.Prelude.{◌≡◌, ◌||◌};
ghost use Rattle.dp_commands.specs.Faults.{is_write_failed};
ghost use Rattle.dp_program.specs.Faulted.{without_place};
ghost use Rattle.dp_program.specs.Serves as spec;
ghost use Rattle.dp_program.specs.Texts.{paths_of, sources_of, texts_of};
ghost use Rattle.dp_program.specs.WideRuns.{places_of};

use crate::entries::ManualEntries;
use crate::fault_places::{Faulted, placed_in_run};
use crate::files::ReadFiles;
use crate::request::RunFiles;
use crate::texts::{Texts, read_texts};
use dp_commands::{PbxFault, PlanPlaces};
use dp_conf::WriteTold;
use dp_wide_runs::{debug_wide, debug_wide_verbose};
use std::alloc::Global;

/// The files of a debugged run, and the text of its break.
#[derive(Clone, Copy)]
pub(crate) struct HeldRun<'r, 'a> {
    pub(crate) files: &'r RunFiles<'a>,
    pub(crate) held: &'r str,
}

/// Debugs the script of a run on its dialplan over the wide table, with the break that a text names.
fn debug_texts<W: WriteTold>(
    alloc: Global,
    texts: &Texts,
    held: &str,
    output: &mut W,
) -> Result<u8, PbxFault>
    ensures debugs { spec.DebugsWide (W.contents output.old) (W.contents output.new)
        (spec.wide_debug_of_texts held.now (texts_of texts.now)) result }
    ensures told { W.has_failed output.new ≡ (W.has_failed output.old || is_write_failed result) }
{
    debug_wide(alloc, texts.lend(), held.as_bytes(), output)
}

/// Debugs the script of one file on the dialplan of another over the wide table, with the queues and the second dialplan of further files if
/// they are named, and with the break that a text names.
pub(crate) fn serve_debug_wide<'a, F: ReadFiles, W: WriteTold>(
    files: &F,
    alloc: Global,
    run: HeldRun<'_, 'a>,
    output: &mut W,
) -> Result<u8, Faulted<'a>>
    ensures serves { spec.DebugsFilesWide (paths_of run.entry.files.now)
        (sources_of (F.source_at files.now) (paths_of run.entry.files.now)) run.entry.held.now (W.contents output.old)
        (W.contents output.new) result }
    ensures told { W.has_failed output.new ≡ (W.has_failed output.old || is_write_failed (without_place result)) }
{
    let texts = read_texts(files, alloc, run.files)?;
    let answered = debug_texts(alloc, &texts, run.held, output);
    placed_in_run(run.files, &texts, answered)
}

/// Debugs the script of a run verbosely on its dialplan over the wide table, with the break that a text names.
fn debug_texts_verbosely<W: WriteTold>(
    alloc: Global,
    places: PlanPlaces<'_>,
    texts: &Texts,
    held: &str,
    output: &mut W,
) -> Result<u8, PbxFault>
    ensures debugs { spec.DebugsWideVerbosely (spec.in_force_at (places_of places.entry) (texts_of texts.now))
        (W.contents output.old) (W.contents output.new) (spec.wide_debug_of_texts held.now (texts_of texts.now)) result }
    ensures told { W.has_failed output.new ≡ (W.has_failed output.old || is_write_failed result) }
{
    debug_wide_verbose::<ManualEntries, W>(alloc, texts.lend(), places, held.as_bytes(), output)
}

/// Debugs the script of one file verbosely on the dialplan of another over the wide table, with the queues and the second dialplan of
/// further files if they are named, and with the break that a text names.
pub(crate) fn serve_debug_wide_verbose<'a, F: ReadFiles, W: WriteTold>(
    files: &F,
    alloc: Global,
    run: HeldRun<'_, 'a>,
    places: PlanPlaces<'_>,
    output: &mut W,
) -> Result<u8, Faulted<'a>>
    ensures serves { spec.DebugsFilesWideVerbosely (paths_of run.entry.files.now) (places_of places.entry)
        (sources_of (F.source_at files.now) (paths_of run.entry.files.now)) run.entry.held.now (W.contents output.old)
        (W.contents output.new) result }
    ensures told { W.has_failed output.new ≡ (W.has_failed output.old || is_write_failed (without_place result)) }
{
    let texts = read_texts(files, alloc, run.files)?;
    let answered = debug_texts_verbosely(alloc, places, &texts, run.held, output);
    placed_in_run(run.files, &texts, answered)
}
