//! The request that writes what a call from a context reaches in two dialplans, before and after a change.
ghost use Rattle.std.specs.Prelude.{◌≡◌, ◌++◌, ◌||◌, IfOk, Ok, false, length};
ghost use Rattle.std.specs.Option.{option_map};
ghost use Rattle.dp_answer.specs.Asks.{ask_of as ask_texts};
ghost use Rattle.dp_app.specs.Rows.{with_functions};
ghost use Rattle.dp_commands.specs.Faults.{is_write_failed};
ghost use Rattle.dp_program.specs.Faulted.{without_place};
ghost use Rattle.dp_program.specs.Meanings.{wide_meanings};
ghost use Rattle.dp_program.specs.ReachDiffs as spec;
ghost use Rattle.dp_program.specs.Requests.{options_of, reach_diff_of};
ghost use Rattle.dp_table.specs.Standard.{standard_meanings};

use crate::diffs::load_file;
use crate::fault_places::{Faulted, placed_nowhere};
use crate::files::ReadFiles;
use crate::graphs::ask_from;
use crate::hints::{HintedPlan, ServedRequest, push_told};
use crate::options::Options;
use crate::plan_pairs::{AskingBoth, answer_both_including};
use crate::plan_questions::PlanQuestion;
use crate::request::ReachDiffQuestion;
use dp_answer::{Ask, reached_entries};
use dp_closed::DutyTable;
use dp_commands::{Code, PbxFault};
use dp_conf::WriteTold;
use dp_diff::{DiffFault, PlanReach, write_reach_changes};
use dp_plan::{Dialplan, EntryId, NoMemory};
use dp_queue::Queues;
use dp_table::StandardApps;
use dp_wide_duties::WideDuties;
use std::alloc::Global;

/// Two dialplans, before and after a change.
#[derive(Clone, Copy)]
struct BothPlans<'r> {
    before: &'r Dialplan,
    after: &'r Dialplan,
}

/// The entries that a call may run of two dialplans, before and after a change.
#[derive(Drop)]
struct ReachedEntries {
    before: Vec<EntryId>,
    after: Vec<EntryId>,
}

/// The entries that a call with this question may run of each dialplan, without queues.
fn reached_in<T: DutyTable>(
    alloc: Global,
    plans: BothPlans<'_>,
    ask: &Ask<'_>,
) -> Result<ReachedEntries, NoMemory>
    ensures { IfOk result (λ reached. spec.AreReachedBoth (with_functions T.rows T.Functions.table) (plans.entry.before.now, plans.entry.after.now) (ask_texts ask.now)
        (spec.reached_by reached.before.items reached.after.items)) }
{
    let queues = Queues::none(alloc);
    let before = reached_entries::<T>(alloc, plans.before, &queues, ask)?;
    let after = reached_entries::<T>(alloc, plans.after, &queues, ask)?;
    Ok(ReachedEntries { before, after })
}

/// Writes the lines on what a call reaches only before the change or only after it, and returns whether there are none.
#[tactic(auto, using(crate::proofs::ReachDiffLemmas::zero_up_to_limit))]
fn write_changes<W: WriteTold>(
    alloc: Global,
    plans: BothPlans<'_>,
    reached: &ReachedEntries,
    output: &mut W,
) -> Result<bool, PbxFault>
    ensures writes { spec.WritesChanges (W.contents output.old) (W.contents output.new) (plans.entry.before.now, plans.entry.after.now)
        (spec.reached_by reached.now.before.items reached.now.after.items) result }
    ensures told { W.has_failed output.new ≡ (W.has_failed output.old || is_write_failed result) }
{
    let before = PlanReach {
        plan: plans.before,
        entries: &reached.before,
    };
    let after = PlanReach {
        plan: plans.after,
        entries: &reached.after,
    };
    match write_reach_changes(alloc, before, after, output) {
        Ok(count) => Ok(count == 0),
        Err(DiffFault::WriteFailed) => Err(PbxFault::Coded {
            code: Code::WriteFailed,
            line: None,
        }),
        Err(DiffFault::NoMemory) => Err(PbxFault::NoMemory),
    }
}

/// The hints on the context, if a dialplan lacks it.
fn hint_of(
    alloc: Global,
    question: &ReachDiffQuestion<'_>,
    explains: bool,
    plans: BothPlans<'_>,
) -> Result<Vec<u8>, NoMemory>
    ensures { IfOk result (λ hint. hint.items
        ≡ spec.hint_of (reach_diff_of question.now) explains (plans.entry.before.now, plans.entry.after.now)) }
{
    let mut hint = Vec::new(alloc);
    let before = HintedPlan {
        file: question.files.before,
        plan: plans.before,
        explains,
    };
    push_told(alloc, &mut hint, before, question.from.as_bytes())?;
    let after = HintedPlan {
        file: question.files.after,
        plan: plans.after,
        explains,
    };
    push_told(alloc, &mut hint, after, question.from.as_bytes())?;
    Ok(hint)
}

/// Writes what a call from the context reaches in only one of two dialplans.
#[tactic(auto, using(crate::proofs::ReachDiffLemmas::changes_front, crate::proofs::ReachDiffLemmas::changes_nothing))]
fn answer_plans<T: DutyTable, W: WriteTold>(
    alloc: Global,
    question: &ReachDiffQuestion<'_>,
    explains: bool,
    plans: BothPlans<'_>,
    output: &mut W,
) -> Result<ServedRequest, PbxFault>
    ensures writes { spec.ReachChanges (with_functions T.rows T.Functions.table) (reach_diff_of question.now) explains (Ok (plans.entry.before.now, plans.entry.after.now))
        (W.contents output.old) (W.contents output.new) result }
    ensures told { W.has_failed output.new ≡ (W.has_failed output.old || is_write_failed result) }
{
    let hint = hint_of(alloc, question, explains, plans)?;
    let reached = reached_in::<T>(alloc, plans, &ask_from(question.from, question.facts))?;
    let is_same = write_changes(alloc, plans, &reached, output)?;
    let status = if is_same && hint.is_empty() { 0 } else { 1 };
    Ok(ServedRequest { status, hint })
}

/// Writes what a call from a context reaches in only one of the dialplans of two files, given the table by which calls run.
fn serve_reach_diff_over<'a, T: DutyTable, F: ReadFiles, W: WriteTold>(
    files: &F,
    alloc: Global,
    question: &ReachDiffQuestion<'a>,
    explains: bool,
    output: &mut W,
) -> Result<ServedRequest, Faulted<'a>>
    ensures serves { spec.ReachDiffsFiles (with_functions T.rows T.Functions.table) (reach_diff_of question.now) explains (F.source_at files.now)
        (W.contents output.old) (W.contents output.new) result }
    ensures told { W.has_failed output.new ≡ (W.has_failed output.old || is_write_failed (without_place result)) }
{
    let before = load_file(files, alloc, question.files.before)?;
    let after = load_file(files, alloc, question.files.after)?;
    let plans = BothPlans {
        before: &before,
        after: &after,
    };
    placed_nowhere(answer_plans::<T, W>(alloc, question, explains, plans, output))
}

/// Writes what a call from a context reaches in only one of the dialplans of two files.
pub(crate) fn serve_reach_diff<'a, F: ReadFiles, W: WriteTold>(
    files: &F,
    alloc: Global,
    question: &ReachDiffQuestion<'a>,
    explains: bool,
    output: &mut W,
) -> Result<ServedRequest, Faulted<'a>>
    ensures serves { spec.ReachDiffsFiles standard_meanings (reach_diff_of question.now) explains (F.source_at files.now)
        (W.contents output.old) (W.contents output.new) result }
    ensures told { W.has_failed output.new ≡ (W.has_failed output.old || is_write_failed (without_place result)) }
{
    serve_reach_diff_over::<StandardApps, F, W>(files, alloc, question, explains, output)
}

/// The same question over the applications of `--asterisk`, and whether names that are similar to a missing one are suggested.
#[derive(Clone, Copy)]
struct WideReachDiff<'r, 'a> {
    question: &'r ReachDiffQuestion<'a>,
    explains: bool,
}

impl<'a> PlanQuestion<'a> for WideReachDiff<'_, 'a> {
    ghost serves = { λ asked. spec.ReachDiffsFiles wide_meanings (reach_diff_of asked.question.now) asked.explains };

    fn answer<F: ReadFiles, W: WriteTold>(
        &self,
        files: &F,
        alloc: Global,
        output: &mut W,
    ) -> Result<ServedRequest, Faulted<'a>> {
        serve_reach_diff_over::<WideDuties, F, W>(
            files,
            alloc,
            self.question,
            self.explains,
            output,
        )
    }

    fn may_lack_memory(&self) {}
}

/// Writes what a call from a context reaches in only one of the dialplans of two files and of those that they include. The applications are
/// those of `--asterisk`.
pub(crate) fn serve_reach_diff_including<'a, F: ReadFiles, W: WriteTold>(
    files: &F,
    alloc: Global,
    question: &ReachDiffQuestion<'a>,
    options: Options<'_>,
    output: &mut W,
) -> Result<ServedRequest, Faulted<'a>>
    ensures serves { spec.ReachDiffsIncluding (options_of options.entry).clock (F.source_at files.now) (reach_diff_of question.now)
        (options_of options.entry).explains (W.contents output.old) (W.contents output.new) result }
    ensures told { W.has_failed output.new ≡ (W.has_failed output.old || is_write_failed (without_place result)) }
{
    let wide = WideReachDiff {
        question,
        explains: options.explains,
    };
    let asked = AskingBoth {
        question: &wide,
        files: question.files,
        clock: options.clock,
    };
    answer_both_including(files, alloc, &asked, output)
}
