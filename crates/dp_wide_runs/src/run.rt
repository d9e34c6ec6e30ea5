//! Runs of a script that states facts, over the wide table.
ghost use Rattle.std.specs.Prelude.{◌≡◌, ◌||◌, IfOk, Ok};
ghost use Rattle.dp_commands.specs.Faults.{is_write_failed};
ghost use Rattle.dp_commands.specs.Script.{turns_of};
ghost use Rattle.dp_wide_runs.specs.Beside.{WritesBeside};
ghost use Rattle.dp_wide_runs.specs.Runs as spec;

use crate::beginning::{WideBegun, begin};
use crate::manner::{Manner, PlainManner};
use crate::taker::WideRunner;
use dp_commands::{PbxFault, RunTexts, run_lines};
use dp_conf::WriteTold;
use std::alloc::Global;

/// Takes the turns of a run that has begun, and writes all their lines.
pub(crate) fn run_begun<M: Manner, W: WriteTold>(
    alloc: Global,
    begun: WideBegun,
    manner: M,
    writer: &mut W,
) -> Result<u8, PbxFault>
    ensures writes { WritesBeside M.after M.above M.above_refusal M.last manner (W.contents writer.old) (W.contents writer.new)
        (Ok (spec.run_on begun.machine (turns_of begun.lines.items))) result }
    ensures told { W.has_failed writer.new ≡ (W.has_failed writer.old || is_write_failed result) }
{
    let (machine, lines) = begun.into_parts();
    run_lines(alloc, WideRunner::new(manner), machine, &lines, writer)
}

/// Begins the run of the texts, takes its turns, and writes all their lines.
pub(crate) fn run_texts<M: Manner, W: WriteTold>(
    alloc: Global,
    texts: RunTexts<'_>,
    manner: M,
    writer: &mut W,
) -> Result<u8, PbxFault>
    ensures writes { WritesBeside M.after M.above M.above_refusal M.last manner (W.contents writer.old) (W.contents writer.new)
        (spec.run_of_texts texts.entry) result }
    ensures told { W.has_failed writer.new ≡ (W.has_failed writer.old || is_write_failed result) }
{
    let begun = begin(alloc, texts)?;
    run_begun(alloc, begun, manner, writer)
}

/// Runs a script that may state facts on a dialplan with its queues over the wide table, and writes the trace as it goes, a block of lines
/// at a time. A step is taken only if nothing is unknown ahead of its channel; else its line is `unknown CH WHAT -> STATE`, and the further
/// steps of the same line of the script are left out. A `show` of a call, whose name has a `(` and ends with `)`, shows the value of its
/// group as the arguments of an entry of the channel read it; while a group in it is unknown, its line is `unknown CH WHAT -> STATE` too.
/// The status is 1 if a turn was refused, else 4 if a step was not taken or a value not shown, else 0.
///
/// The texts are read first, with the same faults as in [`dp_commands::run_script`]. If memory runs out the lines of the earlier turns are
/// written. If memory runs out or a write fails, what was written stays written.
pub fn run_wide<W: WriteTold>(
    alloc: Global,
    texts: RunTexts<'_>,
    writer: &mut W,
) -> Result<u8, PbxFault>
    ensures writes { spec.WritesWide (W.contents writer.old) (W.contents writer.new) (spec.run_of_texts texts.entry) result }
    ensures plain { IfOk result (spec.IsPlain (spec.run_of_texts texts.entry)) }
    ensures told { W.has_failed writer.new ≡ (W.has_failed writer.old || is_write_failed result) }
{
    run_texts(alloc, texts, PlainManner, writer)
}
