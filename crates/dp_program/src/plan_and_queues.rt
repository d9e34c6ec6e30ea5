//! The texts of a dialplan and of its queues.
ghost use Rattle.std.specs.Prelude.{◌≡◌, false};
ghost use Rattle.std.specs.Option.{option_map};
ghost use Rattle.dp_commands.specs.Faults.{is_write_failed, reason_of};
ghost use Rattle.dp_commands.specs.Run.{files_of};
ghost use Rattle.dp_conf.specs.Answers.{Answers};
ghost use Rattle.dp_program.specs.Faulted.{StandsIn, without_place};
ghost use Rattle.dp_program.specs.PlanAndQueues as spec;

use crate::fault_places::{Faulted, placed_in_two, with_place};
use crate::texts::TextWithPath;
use dp_commands::{LoadedFiles, PbxFault, read_files};
use std::alloc::Global;

/// The files of a dialplan and of its queues, by their paths.
#[derive(Clone, Copy)]
pub(crate) struct PlanPaths<'a> {
    /// The dialplan.
    pub(crate) plan: &'a str,
    /// The queues; without a file there are none.
    pub(crate) queues: Option<&'a str>,
}

/// The text of a dialplan, and that of its queues if their file is named.
#[derive(Drop)]
pub(crate) struct PlanAndQueues {
    pub(crate) plan: Vec<u8>,
    pub(crate) queues: Option<Vec<u8>>,
}

/// The contents of these texts, or their first fault.
pub(crate) fn files_in(alloc: Global, texts: &PlanAndQueues) -> Result<LoadedFiles, PbxFault>
    ensures files { Answers (λ files. record { plan = files.plan; queues = files.queues }) reason_of result
        (files_of texts.now.plan.items (option_map (λ text. text.items) texts.now.queues)) }
    ensures quiet { is_write_failed result ≡ false }
{
    read_files(alloc, &texts.plan, texts.queues.as_deref())
}

/// A result for these texts, with the place of its fault.
pub(crate) fn placed_over<'a, T>(
    paths: PlanPaths<'a>,
    texts: PlanAndQueues,
    answered: Result<T, PbxFault>,
) -> Result<T, Faulted<'a>>
    ensures same { without_place result ≡ answered }
    ensures stands { StandsIn (spec.place_over paths.entry.plan.now (option_map (λ path. path.now) paths.entry.queues) texts.plan.items
        (option_map (λ text. text.items) texts.queues)) result }
{
    let PlanAndQueues { plan, queues } = texts;
    let Some(path) = paths.queues else {
        return with_place(paths.plan, &plan, answered);
    };
    let Some(queues) = queues else {
        return with_place(paths.plan, &plan, answered);
    };
    let plan = TextWithPath {
        path: paths.plan,
        text: plan,
    };
    let queues = TextWithPath { path, text: queues };
    placed_in_two(&plan, &queues, answered)
}
