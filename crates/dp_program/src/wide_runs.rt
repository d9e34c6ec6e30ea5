//! The requests that run a script over the wide table.
ghost use Rattle.std.specs.Prelude.{◌≡◌, ◌||◌, None, Some};
ghost use Rattle.std.specs.Option.{option_map};
ghost use Rattle.dp_commands.specs.Faults.{is_write_failed};
ghost use Rattle.dp_program.specs.Dialplans.{text_now};
ghost use Rattle.dp_program.specs.Faulted.{without_place};
ghost use Rattle.dp_program.specs.Serves as spec;
ghost use Rattle.dp_program.specs.Texts.{paths_of, sources_of, texts_of};
ghost use Rattle.dp_program.specs.WideRuns.{manner_of, places_of, reading_of};

use crate::assumptions::file_assumptions;
use crate::dialplans::{PlanText, PlanUse, ReadDialplan, faulty, read_dialplan};
use crate::entries::ManualEntries;
use crate::fault_places::{Faulted, placed_in_run};
use crate::files::ReadFiles;
use crate::hints::{ServedRequest, without_hint};
use crate::made_files::MadeFiles;
use crate::queue_texts::{ReadQueues, read_queue_text};
use crate::request::RunFiles;
use crate::texts::{Texts, read_texts};
use crate::wide_debugs::{HeldRun, serve_debug_wide, serve_debug_wide_verbose};
use dp_commands::{PbxFault, PlanPlaces};
use dp_conf::WriteTold;
use dp_notices::Assumptions;
use dp_wide_runs::{run_wide, run_wide_verbose};
use std::alloc::Global;

/// Runs the script of a run on its dialplan over the wide table.
fn run_texts<W: WriteTold>(alloc: Global, texts: &Texts, output: &mut W) -> Result<u8, PbxFault>
    ensures runs { spec.RunsWide (W.contents output.old) (W.contents output.new)
        (spec.wide_run_of_texts (texts_of texts.now)) result }
    ensures told { W.has_failed output.new ≡ (W.has_failed output.old || is_write_failed result) }
{
    run_wide(alloc, texts.lend(), output)
}

/// Runs the script of one file on the dialplan of another over the wide table, with the queues and the second dialplan of further files if
/// they are named. The script may state facts, and the run stops before anything unknown.
fn serve_run_wide<'a, F: ReadFiles, W: WriteTold>(
    files: &F,
    alloc: Global,
    run: &RunFiles<'a>,
    output: &mut W,
) -> Result<u8, Faulted<'a>>
    ensures serves { spec.RunsFilesWide (paths_of run.now) (sources_of (F.source_at files.now) (paths_of run.now))
        (W.contents output.old) (W.contents output.new) result }
    ensures told { W.has_failed output.new ≡ (W.has_failed output.old || is_write_failed (without_place result)) }
{
    let texts = read_texts(files, alloc, run)?;
    let answered = run_texts(alloc, &texts, output);
    placed_in_run(run, &texts, answered)
}

/// Runs the script of a run verbosely on its dialplan over the wide table.
fn run_texts_verbosely<W: WriteTold>(
    alloc: Global,
    places: PlanPlaces<'_>,
    texts: &Texts,
    output: &mut W,
) -> Result<u8, PbxFault>
    ensures runs { spec.RunsWideVerbosely (spec.in_force_at (places_of places.entry) (texts_of texts.now))
        (W.contents output.old) (W.contents output.new) (spec.wide_run_of_texts (texts_of texts.now)) result }
    ensures told { W.has_failed output.new ≡ (W.has_failed output.old || is_write_failed result) }
{
    run_wide_verbose::<ManualEntries, W>(alloc, texts.lend(), places, output)
}

/// Runs the script of one file verbosely on the dialplan of another over the wide table, with the queues and the second dialplan of further
/// files if they are named. The script may state facts, and the run stops before anything unknown.
fn serve_run_wide_verbose<'a, F: ReadFiles, W: WriteTold>(
    files: &F,
    alloc: Global,
    run: &RunFiles<'a>,
    places: PlanPlaces<'_>,
    output: &mut W,
) -> Result<u8, Faulted<'a>>
    ensures serves { spec.RunsFilesWideVerbosely (paths_of run.now) (places_of places.entry)
        (sources_of (F.source_at files.now) (paths_of run.now)) (W.contents output.old) (W.contents output.new) result }
    ensures told { W.has_failed output.new ≡ (W.has_failed output.old || is_write_failed (without_place result)) }
{
    let texts = read_texts(files, alloc, run)?;
    let answered = run_texts_verbosely(alloc, places, &texts, output);
    placed_in_run(run, &texts, answered)
}

/// A run over the wide table: its files, whether it is verbose, the text of its break if it is debugged, the word of `--clock`, and what is
/// assumed of lines that are left out of its dialplans.
#[derive(Clone, Copy)]
pub(crate) struct WideRunOf<'r, 'a> {
    pub(crate) files: &'r RunFiles<'a>,
    pub(crate) is_verbose: bool,
    pub(crate) held: Option<&'a str>,
    pub(crate) clock: Option<&'a str>,
    pub(crate) assumed: Assumptions,
}

/// Runs the script of a run over files in which its dialplans have the generated texts.
fn run_made<'a, F: ReadFiles, W: WriteTold>(
    files: &F,
    alloc: Global,
    asked: WideRunOf<'_, 'a>,
    places: PlanPlaces<'_>,
    output: &mut W,
) -> Result<ServedRequest, Faulted<'a>>
    ensures serves { spec.Quietly (spec.RunsWideAsked (paths_of asked.entry.files.now) (places_of places.entry)
        (sources_of (F.source_at files.now) (paths_of asked.entry.files.now)) (manner_of asked.entry)
        (W.contents output.old) (W.contents output.new)) result }
    ensures told { W.has_failed output.new ≡ (W.has_failed output.old || is_write_failed (without_place result)) }
{
    match asked {
        WideRunOf {
            files: run,
            is_verbose: true,
            held: None,
            clock: _,
            assumed: _,
        } => without_hint(
            alloc,
            serve_run_wide_verbose(files, alloc, run, places, output),
        ),
        WideRunOf {
            files: run,
            is_verbose: false,
            held: None,
            clock: _,
            assumed: _,
        } => without_hint(alloc, serve_run_wide(files, alloc, run, output)),
        WideRunOf {
            files: run,
            is_verbose: true,
            held: Some(held),
            clock: _,
            assumed: _,
        } => {
            let debugged = HeldRun { files: run, held };
            without_hint(
                alloc,
                serve_debug_wide_verbose(files, alloc, debugged, places, output),
            )
        }
        WideRunOf {
            files: run,
            is_verbose: false,
            held: Some(held),
            clock: _,
            assumed: _,
        } => {
            let debugged = HeldRun { files: run, held };
            without_hint(alloc, serve_debug_wide(files, alloc, debugged, output))
        }
    }
}

/// Runs the script of a run without a second dialplan, given the text of its dialplan.
fn run_alone<'a, F: ReadFiles, W: WriteTold>(
    files: &F,
    alloc: Global,
    asked: WideRunOf<'_, 'a>,
    plan: &PlanText,
    output: &mut W,
) -> Result<ServedRequest, Faulted<'a>>
    ensures serves { spec.RunsPlans (paths_of asked.entry.files.now) (F.source_at files.now) (manner_of asked.entry)
        (W.contents output.old) (W.contents output.new) (text_now plan.now) None result }
    ensures told { W.has_failed output.new ≡ (W.has_failed output.old || is_write_failed (without_place result)) }
{
    let made = plan.made_files(files, asked.files.plan);
    let places = places_alone(plan);
    run_made(&made, alloc, asked, places, output)
}

/// The texts of the dialplans of a run, and the path of the second one.
#[derive(Clone, Copy)]
struct PlanTexts<'r, 'a> {
    plan: &'r PlanText,
    path: &'a str,
    second_plan: &'r PlanText,
}

/// Where the lines of a run's dialplan come from, if there is no second one.
fn places_alone(plan: &PlanText) -> PlanPlaces<'_>
    ensures { places_of result ≡ spec.places_read (text_now plan.now) None }
{
    let plan = plan.places();
    let second_plan = None;
    PlanPlaces { plan, second_plan }
}

/// Where the lines of a run's dialplans come from.
fn places_of_both<'r>(plans: PlanTexts<'r, '_>) -> PlanPlaces<'r>
    ensures { places_of result ≡ spec.places_read (text_now plans.entry.plan.now)
        (Some (plans.entry.path.now, text_now plans.entry.second_plan.now)) }
{
    let plan = plans.plan.places();
    let second_plan = Some(plans.second_plan.places());
    PlanPlaces { plan, second_plan }
}

/// Runs the script of a run, given the texts of its two dialplans.
fn run_both<'a, F: ReadFiles, W: WriteTold>(
    files: &F,
    alloc: Global,
    asked: WideRunOf<'_, 'a>,
    plans: PlanTexts<'_, '_>,
    output: &mut W,
) -> Result<ServedRequest, Faulted<'a>>
    ensures serves { spec.RunsPlans (paths_of asked.entry.files.now) (F.source_at files.now) (manner_of asked.entry)
        (W.contents output.old) (W.contents output.new) (text_now plans.entry.plan.now)
        (Some (plans.entry.path.now, text_now plans.entry.second_plan.now)) result }
    ensures told { W.has_failed output.new ≡ (W.has_failed output.old || is_write_failed (without_place result)) }
{
    let made = plans.plan.made_files(files, asked.files.plan);
    let both = plans.second_plan.made_files(&made, plans.path);
    let places = places_of_both(plans);
    run_made(&both, alloc, asked, places, output)
}

/// The text of a run's dialplan, and the path of the next file that is read.
#[derive(Clone, Copy)]
struct FirstPlan<'r, 'a> {
    plan: &'r PlanText,
    path: &'a str,
}

/// Reads the second dialplan of a run and runs its script, given the text of its dialplan.
fn run_after<'a, F: ReadFiles, W: WriteTold>(
    files: &F,
    alloc: Global,
    asked: WideRunOf<'_, 'a>,
    first: FirstPlan<'_, 'a>,
    output: &mut W,
) -> Result<ServedRequest, Faulted<'a>>
    ensures serves { spec.RunsSecond (reading_of asked.entry) (paths_of asked.entry.files.now) (F.source_at files.now) (manner_of asked.entry)
        (W.contents output.old) (W.contents output.new) (text_now first.entry.plan.now) first.entry.path.now result }
    ensures told { W.has_failed output.new ≡ (W.has_failed output.old || is_write_failed (without_place result)) }
{
    match read_dialplan(
        files,
        alloc,
        first.path,
        PlanUse::Run(asked.assumed),
        asked.clock,
    ) {
        Ok(ReadDialplan::Loads(second)) => {
            let plans = PlanTexts {
                plan: first.plan,
                path: first.path,
                second_plan: &second,
            };
            run_both(files, alloc, asked, plans, output)
        }
        Ok(ReadDialplan::Faulty(told)) => Ok(faulty(told)),
        Err(unread) => Err(Faulted::from(unread)),
    }
}

/// Runs the script of a run, given the text of its dialplan: its second dialplan is read, if there is one.
fn run_beside<'a, F: ReadFiles, W: WriteTold>(
    files: &F,
    alloc: Global,
    asked: WideRunOf<'_, 'a>,
    plan: &PlanText,
    output: &mut W,
) -> Result<ServedRequest, Faulted<'a>>
    ensures serves { spec.RunsPlan (reading_of asked.entry) (paths_of asked.entry.files.now) (F.source_at files.now) (manner_of asked.entry)
        (W.contents output.old) (W.contents output.new) (text_now plan.now) result }
    ensures told { W.has_failed output.new ≡ (W.has_failed output.old || is_write_failed (without_place result)) }
{
    match asked.files.second_plan {
        None => run_alone(files, alloc, asked, plan, output),
        Some(path) => {
            let first = FirstPlan { plan, path };
            run_after(files, alloc, asked, first, output)
        }
    }
}

/// Reads the queues of a run and runs its script, given the text of its dialplan.
fn run_after_queues<'a, F: ReadFiles, W: WriteTold>(
    files: &F,
    alloc: Global,
    asked: WideRunOf<'_, 'a>,
    first: FirstPlan<'_, 'a>,
    output: &mut W,
) -> Result<ServedRequest, Faulted<'a>>
    ensures serves { spec.RunsWithQueues (reading_of asked.entry) (paths_of asked.entry.files.now) (F.source_at files.now) (manner_of asked.entry)
        (W.contents output.old) (W.contents output.new) (text_now first.entry.plan.now) (Some first.entry.path.now) result }
    ensures told { W.has_failed output.new ≡ (W.has_failed output.old || is_write_failed (without_place result)) }
{
    match read_queue_text(files, alloc, first.path) {
        Ok(ReadQueues::Given(Some(text))) => {
            let made = MadeFiles {
                files,
                path: first.path,
                text: &text,
            };
            run_beside(&made, alloc, asked, first.plan, output)
        }
        Ok(ReadQueues::Given(None)) => run_beside(files, alloc, asked, first.plan, output),
        Ok(ReadQueues::Unread(told)) => Ok(faulty(told)),
        Err(unread) => Err(Faulted::from(unread)),
    }
}

/// Runs the script of a run, given the text of its dialplan: its queues are read, if it has some, and then its second dialplan.
fn run_with_queues<'a, F: ReadFiles, W: WriteTold>(
    files: &F,
    alloc: Global,
    asked: WideRunOf<'_, 'a>,
    plan: &PlanText,
    output: &mut W,
) -> Result<ServedRequest, Faulted<'a>>
    ensures serves { spec.RunsQueues (reading_of asked.entry) (paths_of asked.entry.files.now) (F.source_at files.now) (manner_of asked.entry)
        (W.contents output.old) (W.contents output.new) (text_now plan.now) result }
    ensures told { W.has_failed output.new ≡ (W.has_failed output.old || is_write_failed (without_place result)) }
{
    match asked.files.queues {
        None => run_beside(files, alloc, asked, plan, output),
        Some(path) => {
            let first = FirstPlan { plan, path };
            run_after_queues(files, alloc, asked, first, output)
        }
    }
}

/// Runs the script of one file on the dialplan of another over the wide table, with the queues and the second dialplan of further files if
/// they are named, given what is assumed of lines that are left out. Each dialplan and the queues are read with the files that they include.
/// The script may state facts, and the run stops before anything unknown. If it is debugged, it halts at each step where its break holds.
fn serve_run_assuming<'a, F: ReadFiles, W: WriteTold>(
    files: &F,
    alloc: Global,
    asked: WideRunOf<'_, 'a>,
    output: &mut W,
) -> Result<ServedRequest, Faulted<'a>>
    ensures serves { spec.RunsAssuming (reading_of asked.entry) (paths_of asked.entry.files.now) (F.source_at files.now) (manner_of asked.entry)
        (W.contents output.old) (W.contents output.new) result }
    ensures told { W.has_failed output.new ≡ (W.has_failed output.old || is_write_failed (without_place result)) }
{
    match read_dialplan(
        files,
        alloc,
        asked.files.plan,
        PlanUse::Run(asked.assumed),
        asked.clock,
    ) {
        Ok(ReadDialplan::Loads(plan)) => run_with_queues(files, alloc, asked, &plan, output),
        Ok(ReadDialplan::Faulty(told)) => Ok(faulty(told)),
        Err(unread) => Err(Faulted::from(unread)),
    }
}

/// Runs the script of one file in the same way. What is assumed of lines that are left out is what the script assumes.
pub(crate) fn serve_run_including<'a, F: ReadFiles, W: WriteTold>(
    files: &F,
    alloc: Global,
    asked: WideRunOf<'_, 'a>,
    output: &mut W,
) -> Result<ServedRequest, Faulted<'a>>
    ensures serves { spec.RunsIncluding (option_map (λ word. word.now) asked.entry.clock) (paths_of asked.entry.files.now) (F.source_at files.now) (manner_of asked.entry)
        (W.contents output.old) (W.contents output.new) result }
    ensures told { W.has_failed output.new ≡ (W.has_failed output.old || is_write_failed (without_place result)) }
{
    match file_assumptions(files, alloc, asked.files.script) {
        Ok(assumed) => {
            let assuming = WideRunOf {
                files: asked.files,
                is_verbose: asked.is_verbose,
                held: asked.held,
                clock: asked.clock,
                assumed,
            };
            serve_run_assuming(files, alloc, assuming, output)
        }
        Err(refused) => Err(Faulted::from(PbxFault::from(refused))),
    }
}
