//! Verbose runs of a script that states facts, over the wide table.
ghost use Rattle.std.specs.Prelude.{◌≡◌, ◌||◌, IfOk};
ghost use Rattle.std.specs.Option.{option_map};
ghost use Rattle.dp_commands.specs.Faults.{is_write_failed};
ghost use Rattle.dp_commands.specs.LinePlaces.{places_of};
ghost use Rattle.dp_commands.specs.Verbose.{first_in_force_at};
ghost use Rattle.dp_wide_runs.specs.Runs.{IsPlain, run_of_texts};
ghost use Rattle.dp_wide_runs.specs.Verbose as spec;

use crate::run::run_texts;
use dp_commands::{Explanations, PbxFault, PlanPlaces, RunTexts, VerboseTaker};
use dp_conf::WriteTold;
use std::alloc::Global;

/// Runs the script of the texts, whose dialplan is first in force, and writes more above the lines.
fn run_in_force<E: Explanations, W: WriteTold>(
    alloc: Global,
    texts: RunTexts<'_>,
    taker: VerboseTaker<'_, E>,
    writer: &mut W,
) -> Result<u8, PbxFault>
    ensures writes { spec.WritesWideVerbose E.explanation_of taker.entry (W.contents writer.old) (W.contents writer.new)
        (run_of_texts texts.entry) result }
    ensures status { IfOk result (spec.HasPlainStatus (run_of_texts texts.entry)) }
    ensures told { W.has_failed writer.new ≡ (W.has_failed writer.old || is_write_failed result) }
{
    run_texts(alloc, texts, taker, writer)
}

/// Runs a script that may state facts as [`crate::run_wide`] does, and writes more above some of the lines: above the line of a step that
/// runs an entry `FILE:LINE APP(ARGS)`, with its expanded arguments, and above the line of a refusal its explanation. Each is indented by
/// two blanks. FILE and LINE are where the entry's line comes from, after a reload in the second dialplan. Nothing is added above the line
/// of a step that is not taken, or of a call.
pub fn run_wide_verbose<E: Explanations, W: WriteTold>(
    alloc: Global,
    texts: RunTexts<'_>,
    places: PlanPlaces<'_>,
    writer: &mut W,
) -> Result<u8, PbxFault>
    ensures writes { spec.WritesWideVerbose E.explanation_of (first_in_force_at (places_of places.entry.plan)
        (option_map places_of places.entry.second_plan) texts.entry.plan.now) (W.contents writer.old)
        (W.contents writer.new) (run_of_texts texts.entry) result }
    ensures status { IfOk result (spec.HasPlainStatus (run_of_texts texts.entry)) }
    ensures plain { IfOk result (IsPlain (run_of_texts texts.entry)) }
    ensures told { W.has_failed writer.new ≡ (W.has_failed writer.old || is_write_failed result) }
{
    match VerboseTaker::<E>::first_at(alloc, places, texts.plan) {
        Ok(taker) => run_in_force::<E, W>(alloc, texts, taker, writer),
        Err(fault) => Err(fault),
    }
}
