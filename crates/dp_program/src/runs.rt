//! The requests that run a script.
ghost use Rattle.std.specs.Prelude.{◌≡◌, ◌||◌, Some, max};
ghost use Rattle.dp_commands.specs.Debug.{WritesDebug};
ghost use Rattle.dp_commands.specs.Faults.{is_write_failed};
ghost use Rattle.dp_program.specs.Faulted.{without_place};
ghost use Rattle.dp_program.specs.Files.{has_read_failed, source};
ghost use Rattle.dp_program.specs.Serves as spec;
ghost use Rattle.dp_program.specs.Texts.{paths_of, sources_of, texts_of};

use crate::fault_places::{Faulted, placed_in_run, placed_nowhere};
use crate::files::{ReadFiles, read_source};
use crate::request::RunFiles;
use crate::texts::{Texts, read_texts};
use dp_board::Gate;
use dp_commands::{PbxFault, Sharing, debug_script, run_joined, run_threads};
use dp_conf::{ReadTold, WriteTold};
use dp_machine::Reply;
use std::alloc::Global;
use std::sync::Wait;
use std::thread::Threads;

/// The gate of the program, which holds no thread.
struct OpenGate;

impl Gate for OpenGate {
    fn before(&self, _channel: u32, _turn: u64) {}

    fn after(&self, _channel: u32, _reply: &Reply) {}
}

/// Runs the joined text of the input.
fn run_input<I: ReadTold, W: WriteTold>(
    alloc: Global,
    input: &mut I,
    output: &mut W,
) -> Result<u8, PbxFault>
    ensures runs { spec.RunsInput (source (I.remaining input.old) (I.has_failed input.new)) (W.contents output.old)
        (W.contents output.new) result }
    ensures told { W.has_failed output.new ≡ (W.has_failed output.old || is_write_failed result) }
    ensures heard { I.has_failed input.new ≡ (I.has_failed input.old || has_read_failed result) }
{
    let text = read_source(alloc, input)?;
    run_joined(alloc, &text, output)
}

/// Runs the joined text of the input. A fault in it has no place in a file.
pub(crate) fn serve_joined<'a, I: ReadTold, W: WriteTold>(
    alloc: Global,
    input: &mut I,
    output: &mut W,
) -> Result<u8, Faulted<'a>>
    ensures serves { spec.RunsJoined (source (I.remaining input.old) (I.has_failed input.new))
        (W.contents output.old) (W.contents output.new) result }
    ensures told { W.has_failed output.new ≡ (W.has_failed output.old || is_write_failed (without_place result)) }
    ensures heard { I.has_failed input.new ≡ (I.has_failed input.old || has_read_failed (without_place result)) }
{
    placed_nowhere(run_input(alloc, input, output))
}

/// The status of a run whose history is dropped.
fn status_of<H: Drop>(ran: (u8, H)) -> u8
    ensures { result ≡ ran.0 }
{
    let (status, _history) = ran;
    status
}

/// Runs the script of a run on its dialplan in this number of threads, which no gate holds, and gives the status.
fn run_in_threads<W: WriteTold, R: Threads + Wait + Sync>(
    rt: &R,
    alloc: Global,
    texts: &Texts,
    threads: u32,
    output: &mut W,
) -> Result<u8, PbxFault>
    ensures shares { spec.SharesSome (max 1 threads) (W.contents output.old) (W.contents output.new)
        (spec.run_of_texts (texts_of texts.now)) result }
    ensures told { W.has_failed output.new ≡ (W.has_failed output.old || is_write_failed result) }
{
    let sharing = Sharing {
        threads,
        gate: &OpenGate,
    };
    let ran = run_threads(rt, alloc, texts.lend(), sharing, output)?;
    Ok(status_of(ran))
}

/// A run by its files in this number of threads.
#[derive(Clone, Copy)]
pub(crate) struct ThreadRun<'r, 'a> {
    pub(crate) files: &'r RunFiles<'a>,
    pub(crate) threads: u32,
}

/// Runs the script of one file on the dialplan of another, with the queues and the second dialplan of further files if they are named, in
/// threads.
pub(crate) fn serve_run_in_threads<'a, F: ReadFiles, W: WriteTold, R: Threads + Wait + Sync>(
    rt: &R,
    files: &F,
    alloc: Global,
    run: ThreadRun<'_, 'a>,
    output: &mut W,
) -> Result<u8, Faulted<'a>>
    ensures serves { spec.RunsFiles (paths_of run.entry.files.now)
        (sources_of (F.source_at files.now) (paths_of run.entry.files.now)) (Some run.entry.threads) (W.contents output.old)
        (W.contents output.new) result }
    ensures told { W.has_failed output.new ≡ (W.has_failed output.old || is_write_failed (without_place result)) }
{
    let texts = read_texts(files, alloc, run.files)?;
    let answered = run_in_threads(rt, alloc, &texts, run.threads, output);
    placed_in_run(run.files, &texts, answered)
}

/// Debugs the script of a run on its dialplan, with the break that a text names.
fn debug_texts<W: WriteTold>(
    alloc: Global,
    texts: &Texts,
    held: &str,
    output: &mut W,
) -> Result<u8, PbxFault>
    ensures debugs { WritesDebug (W.contents output.old) (W.contents output.new)
        (spec.debug_of_texts held.now (texts_of texts.now)) result }
    ensures told { W.has_failed output.new ≡ (W.has_failed output.old || is_write_failed result) }
{
    debug_script(alloc, texts.lend(), held.as_bytes(), output)
}

/// Debugs the script of one file on the dialplan of another, with the queues and the second dialplan of further files if they are named,
/// and with the break that a text names.
pub(crate) fn serve_debug<'a, F: ReadFiles, W: WriteTold>(
    files: &F,
    alloc: Global,
    run: &RunFiles<'a>,
    held: &str,
    output: &mut W,
) -> Result<u8, Faulted<'a>>
    ensures serves { spec.DebugsFiles (paths_of run.now)
        (sources_of (F.source_at files.now) (paths_of run.now)) held.now (W.contents output.old)
        (W.contents output.new) result }
    ensures told { W.has_failed output.new ≡ (W.has_failed output.old || is_write_failed (without_place result)) }
{
    let texts = read_texts(files, alloc, run)?;
    let answered = debug_texts(alloc, &texts, held, output);
    placed_in_run(run, &texts, answered)
}
