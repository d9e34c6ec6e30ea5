//! Questions that are asked of a dialplan and its queues, which are read with the files that they include.
ghost use Rattle.std.specs.Prelude.{◌≡◌, ◌||◌, ℕ, List, Option, Err};
ghost use Rattle.std.specs.Option.{option_map};
ghost use Rattle.dp_commands.specs.Faults.{is_write_failed};
ghost use Rattle.dp_commands.specs.declared.fault.PbxFault.TheVariants as faults;
ghost use Rattle.dp_program.specs.Dialplans.{text_now};
ghost use Rattle.dp_program.specs.Faulted.{nowhere, without_place};
ghost use Rattle.dp_program.specs.Files.{ByteSource};
ghost use Rattle.dp_program.specs.PlanQuestions as spec;

use crate::dialplans::{PlanText, PlanUse, ReadDialplan, faulty, read_dialplan};
use crate::fault_places::Faulted;
use crate::files::ReadFiles;
use crate::hints::ServedRequest;
use crate::made_files::MadeFiles;
use crate::plan_and_queues::PlanPaths;
use crate::queue_texts::{ReadQueues, read_queue_text};
use dp_conf::WriteTold;
use std::alloc::Global;

/// A question that is asked of the files of a dialplan and of its queues.
pub(crate) trait PlanQuestion<'a> {
    // The output and result, given the files, and the contents of the output before and after.
    ghost serves: { Self → spec.Serving };

    /// Answers the question from the files.
    fn answer<F: ReadFiles, W: WriteTold>(
        &self,
        files: &F,
        alloc: Global,
        output: &mut W,
    ) -> Result<ServedRequest, Faulted<'a>>
        ensures serves { serves self.now (F.source_at files.now) (W.contents output.old) (W.contents output.new) result }
        ensures told { W.has_failed output.new ≡ (W.has_failed output.old || is_write_failed (without_place result)) };

    /// States that memory may run out before anything is done. It does nothing.
    fn may_lack_memory(&self)
        ensures { (files : List ℕ → ByteSource) (old : Option (List ℕ)) → serves self.now files old old (Err (nowhere faults.NoMemory)) };
}

/// How a question is asked of files that include others.
#[derive(Drop)]
pub(crate) struct Asking<'r, 'a, Q> {
    /// The question.
    pub(crate) question: &'r Q,
    /// The paths of the files.
    pub(crate) paths: PlanPaths<'a>,
    /// What the dialplan is read for.
    pub(crate) purpose: PlanUse,
    /// The word of `--clock`, if there is one.
    pub(crate) clock: Option<&'r str>,
}

/// Answers a question, given the text of the dialplan.
fn answer_plan<'a, Q: PlanQuestion<'a>, F: ReadFiles, W: WriteTold>(
    files: &F,
    alloc: Global,
    asking: &Asking<'_, 'a, Q>,
    plan: &PlanText,
    output: &mut W,
) -> Result<ServedRequest, Faulted<'a>>
    ensures serves { spec.OverPlan (Q.serves asking.now.question.now) (F.source_at files.now) asking.now.paths.plan.now
        (W.contents output.old) (W.contents output.new) (text_now plan.now) result }
    ensures told { W.has_failed output.new ≡ (W.has_failed output.old || is_write_failed (without_place result)) }
{
    let made = plan.made_files(files, asking.paths.plan);
    asking.question.answer(&made, alloc, output)
}

/// The text of a dialplan, and the path of its queues.
#[derive(Clone, Copy)]
struct QueuedPlan<'r, 'a> {
    plan: &'r PlanText,
    queues: &'a str,
}

/// Reads the queues with the files that they include, and answers a question, given the text of the dialplan.
fn answer_after_queues<'a, Q: PlanQuestion<'a>, F: ReadFiles, W: WriteTold>(
    files: &F,
    alloc: Global,
    asking: &Asking<'_, 'a, Q>,
    queued: QueuedPlan<'_, 'a>,
    output: &mut W,
) -> Result<ServedRequest, Faulted<'a>>
    ensures serves { spec.AfterQueues (Q.serves asking.now.question.now) (F.source_at files.now) asking.now.paths.plan.now
        (W.contents output.old) (W.contents output.new) (text_now queued.entry.plan.now) queued.entry.queues.now result }
    ensures told { W.has_failed output.new ≡ (W.has_failed output.old || is_write_failed (without_place result)) }
{
    match read_queue_text(files, alloc, queued.queues) {
        Ok(ReadQueues::Given(Some(text))) => {
            let made = MadeFiles {
                files,
                path: queued.queues,
                text: &text,
            };
            answer_plan(&made, alloc, asking, queued.plan, output)
        }
        Ok(ReadQueues::Given(None)) => answer_plan(files, alloc, asking, queued.plan, output),
        Ok(ReadQueues::Unread(told)) => Ok(faulty(told)),
        Err(unread) => {
            asking.question.may_lack_memory();
            Err(Faulted::from(unread))
        }
    }
}

/// Answers a question, given the text of the dialplan: its queues are read, if it has some.
fn answer_with_queues<'a, Q: PlanQuestion<'a>, F: ReadFiles, W: WriteTold>(
    files: &F,
    alloc: Global,
    asking: &Asking<'_, 'a, Q>,
    plan: &PlanText,
    output: &mut W,
) -> Result<ServedRequest, Faulted<'a>>
    ensures serves { spec.WithQueues (Q.serves asking.now.question.now) (F.source_at files.now) asking.now.paths.plan.now
        (W.contents output.old) (W.contents output.new) (text_now plan.now) (option_map (λ path. path.now) asking.now.paths.queues) result }
    ensures told { W.has_failed output.new ≡ (W.has_failed output.old || is_write_failed (without_place result)) }
{
    match asking.paths.queues {
        None => answer_plan(files, alloc, asking, plan, output),
        Some(queues) => {
            let queued = QueuedPlan { plan, queues };
            answer_after_queues(files, alloc, asking, queued, output)
        }
    }
}

/// Answers a question on a dialplan and its queues, after reading both with the files that they include.
pub(crate) fn answer_including<'a, Q: PlanQuestion<'a>, F: ReadFiles, W: WriteTold>(
    files: &F,
    alloc: Global,
    asking: &Asking<'_, 'a, Q>,
    output: &mut W,
) -> Result<ServedRequest, Faulted<'a>>
    ensures serves { spec.OverIncluded (Q.serves asking.now.question.now) asking.now.purpose (option_map (λ word. word.now) asking.now.clock)
        (F.source_at files.now) asking.now.paths.plan.now (option_map (λ path. path.now) asking.now.paths.queues)
        (W.contents output.old) (W.contents output.new) result }
    ensures told { W.has_failed output.new ≡ (W.has_failed output.old || is_write_failed (without_place result)) }
{
    match read_dialplan(
        files,
        alloc,
        asking.paths.plan,
        asking.purpose,
        asking.clock,
    ) {
        Ok(ReadDialplan::Loads(plan)) => answer_with_queues(files, alloc, asking, &plan, output),
        Ok(ReadDialplan::Faulty(told)) => Ok(faulty(told)),
        Err(unread) => {
            asking.question.may_lack_memory();
            Err(Faulted::from(unread))
        }
    }
}
