//! The request that writes what answers differently in two dialplans.
ghost use Rattle.std.specs.Prelude.{◌≡◌, ◌||◌, Ok, false};
ghost use Rattle.std.specs.Option.{option_map};
ghost use Rattle.dp_conf.specs.Answers.{Answers};
ghost use Rattle.dp_commands.specs.Faults.{is_write_failed, reason_of};
ghost use Rattle.dp_program.specs.Diffs as spec;
ghost use Rattle.dp_program.specs.Faulted.{without_place};
ghost use Rattle.dp_program.specs.Files.{Reads};
ghost use Rattle.dp_program.specs.Serves as serves;

use crate::fault_places::{Faulted, placed_nowhere, with_place};
use crate::files::ReadFiles;
use crate::hints::{ServedRequest, without_hint};
use crate::plan_pairs::{AskingBoth, answer_both_including};
use crate::plan_questions::PlanQuestion;
use crate::request::DiffFiles;
use crate::texts::read_text;
use dp_commands::{Code, PbxFault};
use dp_conf::WriteTold;
use dp_diff::{DiffFault, write_differences};
use dp_plan::Dialplan;
use std::alloc::Global;

/// The dialplan that a text holds, or the text's fault.
fn load_plan(alloc: Global, text: &[u8]) -> Result<Dialplan, PbxFault>
    ensures plan { Answers (λ plan. plan) reason_of result (spec.plan_in text.now) }
    ensures quiet { is_write_failed result ≡ false }
{
    let (plan, _notes) = Dialplan::load(alloc, text)?;
    Ok(plan)
}

/// Loads the dialplan of a file.
pub(crate) fn load_file<'a, F: ReadFiles>(
    files: &F,
    alloc: Global,
    path: &'a str,
) -> Result<Dialplan, Faulted<'a>>
    ensures loads { Reads (F.source_at files.now path.now) (spec.LoadsFrom path.now result) }
    ensures quiet { is_write_failed (without_place result) ≡ false }
{
    let text = read_text(files, alloc, path)?;
    with_place(path, &text, load_plan(alloc, &text))
}

/// Writes the differences between two dialplans. The status is 1 if there are any.
#[tactic(auto, using(crate::proofs::DiffLemmas::status_none, crate::proofs::DiffLemmas::status_some))]
fn write_diff<W: WriteTold>(
    alloc: Global,
    before: &Dialplan,
    after: &Dialplan,
    output: &mut W,
) -> Result<u8, PbxFault>
    ensures writes { spec.WritesDiff (W.contents output.old) (W.contents output.new) (Ok (before.now, after.now)) result }
    ensures told { W.has_failed output.new ≡ (W.has_failed output.old || is_write_failed result) }
{
    match write_differences(alloc, before, after, output) {
        Ok(count) => Ok(if count == 0 { 0 } else { 1 }),
        Err(DiffFault::WriteFailed) => Err(PbxFault::Coded {
            code: Code::WriteFailed,
            line: None,
        }),
        Err(DiffFault::NoMemory) => Err(PbxFault::NoMemory),
    }
}

/// Writes the differences between the dialplans of two files.
pub(crate) fn serve_diff<'a, F: ReadFiles, W: WriteTold>(
    files: &F,
    alloc: Global,
    paths: &DiffFiles<'a>,
    output: &mut W,
) -> Result<u8, Faulted<'a>>
    ensures serves { spec.DiffsFiles (F.source_at files.now) paths.now.before.now paths.now.after.now (W.contents output.old)
        (W.contents output.new) result }
    ensures told { W.has_failed output.new ≡ (W.has_failed output.old || is_write_failed (without_place result)) }
{
    let before = load_file(files, alloc, paths.before)?;
    let after = load_file(files, alloc, paths.after)?;
    placed_nowhere(write_diff(alloc, &before, &after, output))
}

/// A comparison of the dialplans of two files.
#[derive(Clone, Copy)]
struct Comparison<'r, 'a> {
    paths: &'r DiffFiles<'a>,
}

impl<'a> PlanQuestion<'a> for Comparison<'_, 'a> {
    ghost serves = { λ asked. serves.Compares asked.paths.now.before.now asked.paths.now.after.now };

    fn answer<F: ReadFiles, W: WriteTold>(
        &self,
        files: &F,
        alloc: Global,
        output: &mut W,
    ) -> Result<ServedRequest, Faulted<'a>> {
        without_hint(alloc, serve_diff(files, alloc, self.paths, output))
    }

    fn may_lack_memory(&self) {}
}

/// Writes the differences between the dialplans of two files and of those that they include, given the word of `--clock`.
pub(crate) fn serve_diff_including<'a, F: ReadFiles, W: WriteTold>(
    files: &F,
    alloc: Global,
    paths: &DiffFiles<'a>,
    clock: Option<&str>,
    output: &mut W,
) -> Result<ServedRequest, Faulted<'a>>
    ensures serves { serves.DiffsIncluding (option_map (λ word. word.now) clock.entry) (F.source_at files.now) paths.now.before.now paths.now.after.now
        (W.contents output.old) (W.contents output.new) result }
    ensures told { W.has_failed output.new ≡ (W.has_failed output.old || is_write_failed (without_place result)) }
{
    let comparison = Comparison { paths };
    let asked = AskingBoth {
        question: &comparison,
        files: *paths,
        clock,
    };
    answer_both_including(files, alloc, &asked, output)
}
