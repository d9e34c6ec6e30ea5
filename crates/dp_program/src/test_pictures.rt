//! The picture of the dialplan that tests are on, by what they ran.
ghost use Rattle.std.specs.Prelude.{◌≡◌, ◌++◌, [], IfOk, OnOk};
ghost use Rattle.std.specs.List.{flat_map};
ghost use Rattle.indexmap.specs.IndexSet.{insert_all};
ghost use Rattle.dp_audit.specs.Candidates.{same_id};
ghost use Rattle.dp_commands.specs.Faults.{reason_of};
ghost use Rattle.dp_conf.specs.Answers.{Answers};
ghost use Rattle.dp_graph.specs.Picture.{picture_of};
ghost use Rattle.dp_graph.specs.Printing.{text_of};
ghost use Rattle.dp_graph.specs.Shading.{ByTests};
ghost use Rattle.dp_program.specs.Graphs.{exits_of};
ghost use Rattle.dp_program.specs.TestSuites as spec;

use crate::graphs::{add_entries, push_exits};
use crate::plan_coverage::{entered_on, is_same_plan};
use crate::test_reports::TestReport;
use crate::test_results::PlanRun;
use dp_commands::{LoadedFiles, PbxFault, read_files};
use dp_graph::{Shading, picture_text};
use dp_plan::{EntryId, NoMemory, Text};
use indexmap::IndexSet;
use std::alloc::Global;

/// The picture of a dialplan, with the ways out of its queues, by the entries that tests ran.
fn draw(alloc: Global, files: &LoadedFiles, ran: &[EntryId]) -> Result<Vec<u8>, NoMemory>
    ensures { IfOk result (λ text. text.items
        ≡ text_of (picture_of files.now.plan (ByTests (insert_all same_id [] ran.now)) (exits_of files.now.queues.queues))) }
{
    let mut entries = IndexSet::new(alloc);
    add_entries(&mut entries, ran)?;
    let mut exits = Vec::new(alloc);
    push_exits(alloc, &mut exits, files.queues.queues())?;
    let text = picture_text(alloc, &files.plan, Shading::Tested(&entries), &exits)?;
    Ok(text)
}

/// The picture of the dialplan of a test file by the entries of it that tests ran, or the first fault of its texts.
#[tactic(auto, unfolding(crate::specs::TestSuites::picture_in))]
fn picture_in(alloc: Global, plan: &PlanRun<'_>, ran: &[EntryId]) -> Result<Vec<u8>, PbxFault>
    ensures { Answers (λ text. text.items) reason_of result (spec.picture_in plan.now ran.now) }
{
    let files = read_files(alloc, plan.tested.texts.plan, plan.tested.texts.queues)?;
    match draw(alloc, &files, ran) {
        Ok(text) => Ok(text),
        Err(refused) => Err(PbxFault::from(refused)),
    }
}

/// The picture of the dialplan of a test file, by the tests of all files that are on it. It has no fault, since tests ran on the dialplan.
fn picture_by(alloc: Global, runs: &[PlanRun<'_>], plan: &PlanRun<'_>) -> Result<Text, NoMemory>
    ensures { IfOk result (λ text. text ≡ spec.picture_by runs.now plan.now) }
{
    let entered = entered_on(alloc, runs, plan)?;
    match picture_in(alloc, plan, entered.as_slice()) {
        Ok(text) => Ok(Text::new(text)),
        Err(PbxFault::NoMemory) => Err(NoMemory),
        Err(PbxFault::Coded { code: _, line: _ }) => Ok(Text::new(Vec::new(alloc))),
    }
}

/// Adds the end of the line about a test file on another dialplan.
#[tactic(auto, unfolding(crate::specs::TestSuites::other_reason))]
fn push_other_reason(out: &mut Vec<u8>) -> Result<(), NoMemory>
    ensures { OnOk result (out.new.items ≡ out.old.items ++ spec.other_reason) }
{
    out.extend_from_slice(b" is on another dialplan than the first test file\n")
}

/// Adds the line about a test file on another dialplan, given its path.
fn push_other_line(out: &mut Vec<u8>, path: &[u8]) -> Result<(), NoMemory>
    ensures { OnOk result (out.new.items ≡ out.old.items ++ spec.other_text path.now) }
{
    out.extend_from_slice(b"pbx: ")?;
    out.extend_from_slice(path)?;
    push_other_reason(out)
}

/// Adds the line about a test file, if it is on another dialplan than the one that is drawn.
fn push_other(out: &mut Vec<u8>, drawn: &PlanRun<'_>, run: &PlanRun<'_>) -> Result<(), NoMemory>
    ensures { OnOk result (out.new.items ≡ out.old.items ++ spec.other_line drawn.now run.now) }
{
    if is_same_plan(drawn, run) {
        return Ok(());
    }
    push_other_line(out, run.tested.path)
}

/// Adds the lines about the test files that are on another dialplan than the one that is drawn.
fn push_others(out: &mut Vec<u8>, drawn: &PlanRun<'_>, runs: &[PlanRun<'_>]) -> Result<(), NoMemory>
    ensures { OnOk result (out.new.items ≡ out.old.items ++ flat_map (spec.other_line drawn.now) runs.now) }
{
    for run in runs {
        push_other(out, drawn, run)?;
    }
    Ok(())
}

/// The report with the picture of the dialplan of a test file.
fn report_drawn(
    alloc: Global,
    runs: &[PlanRun<'_>],
    plan: &PlanRun<'_>,
) -> Result<TestReport, NoMemory>
    ensures { IfOk result (λ report. spec.report_now report
        ≡ spec.picture_report (spec.picture_by runs.now plan.now) (flat_map (spec.other_line plan.now) runs.now)) }
{
    let written = picture_by(alloc, runs, plan)?;
    let mut told = Vec::new(alloc);
    push_others(&mut told, plan, runs)?;
    let status = if told.is_empty() { 0 } else { 1 };
    Ok(TestReport {
        written,
        told,
        status,
    })
}

/// The report with the picture of the dialplan of the first test file. Test files on another dialplan are named, and the status is then 1.
pub(crate) fn report_picture(alloc: Global, runs: &[PlanRun<'_>]) -> Result<TestReport, NoMemory>
    ensures { IfOk result (λ report. spec.report_now report ≡ spec.drawn_by runs.now runs.now) }
{
    match runs {
        [] => Ok(TestReport {
            written: Text::new(Vec::new(alloc)),
            told: Vec::new(alloc),
            status: 0,
        }),
        [plan, ..] => report_drawn(alloc, runs, plan),
    }
}
