//! Questions that are asked of two dialplans, before and after a change, which are read with the files that they include.
ghost use Rattle.std.specs.Prelude.{◌≡◌, ◌||◌, None};
ghost use Rattle.std.specs.Option.{option_map};
ghost use Rattle.dp_commands.specs.Faults.{is_write_failed};
ghost use Rattle.dp_program.specs.Faulted.{without_place};
ghost use Rattle.dp_program.specs.PlanQuestions as spec;

use crate::dialplans::PlanUse;
use crate::fault_places::Faulted;
use crate::files::ReadFiles;
use crate::hints::ServedRequest;
use crate::plan_and_queues::PlanPaths;
use crate::plan_questions::{Asking, PlanQuestion, answer_including};
use crate::request::DiffFiles;
use dp_conf::WriteTold;
use std::alloc::Global;

/// A question on files in which the dialplan at a path has the text that is made from its file and from those that it includes.
#[derive(Drop)]
struct OnMadePlan<'r, 'a, Q> {
    question: &'r Q,
    path: &'a str,
    clock: Option<&'r str>,
}

impl<'a, Q: PlanQuestion<'a>> PlanQuestion<'a> for OnMadePlan<'_, 'a, Q> {
    ghost serves = { λ asked. spec.OverMadePlan (Q.serves asked.question.now) (option_map (λ word. word.now) asked.clock) asked.path.now };

    fn answer<F: ReadFiles, W: WriteTold>(
        &self,
        files: &F,
        alloc: Global,
        output: &mut W,
    ) -> Result<ServedRequest, Faulted<'a>> {
        let asking = Asking {
            question: self.question,
            paths: PlanPaths {
                plan: self.path,
                queues: None,
            },
            purpose: PlanUse::Report,
            clock: self.clock,
        };
        answer_including(files, alloc, &asking, output)
    }

    fn may_lack_memory(&self) {
        self.question.may_lack_memory();
    }
}

/// How a question is asked of two dialplans that include other files.
#[derive(Drop)]
pub(crate) struct AskingBoth<'r, 'a, Q> {
    /// The question.
    pub(crate) question: &'r Q,
    /// The paths of the dialplans.
    pub(crate) files: DiffFiles<'a>,
    /// The word of `--clock`, if there is one.
    pub(crate) clock: Option<&'r str>,
}

/// Answers a question on two dialplans, after reading each with the files that it includes.
pub(crate) fn answer_both_including<'a, Q: PlanQuestion<'a>, F: ReadFiles, W: WriteTold>(
    files: &F,
    alloc: Global,
    asked: &AskingBoth<'_, 'a, Q>,
    output: &mut W,
) -> Result<ServedRequest, Faulted<'a>>
    ensures serves { spec.OverBothIncluded (Q.serves asked.now.question.now) (option_map (λ word. word.now) asked.now.clock)
        (F.source_at files.now) asked.now.files.before.now asked.now.files.after.now (W.contents output.old) (W.contents output.new) result }
    ensures told { W.has_failed output.new ≡ (W.has_failed output.old || is_write_failed (without_place result)) }
{
    let second = OnMadePlan {
        question: asked.question,
        path: asked.files.after,
        clock: asked.clock,
    };
    let first = OnMadePlan {
        question: &second,
        path: asked.files.before,
        clock: asked.clock,
    };
    first.answer(files, alloc, output)
}
