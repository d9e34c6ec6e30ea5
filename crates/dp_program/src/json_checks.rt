//! The reports of `check` as JSON.
ghost use Rattle.std.specs.Prelude.{◌≡◌, ◌++◌, ◌||◌, IfOk, OnOk, false};
ghost use Rattle.dp_conf.specs.Answers.{Answers};
ghost use Rattle.dp_commands.specs.Faults.{is_write_failed, reason_of};
ghost use Rattle.dp_commands.specs.Report.{Reports, entries_in};
ghost use Rattle.dp_notices.specs.Checks.{faults_of, faults_of_both, faults_of_queues};
ghost use Rattle.dp_notices.specs.PlanFiles.{plan_now};
ghost use Rattle.dp_notices.specs.QueueFiles.{queues_now};
ghost use Rattle.dp_program.specs.JsonChecks as spec;

use dp_commands::PbxFault;
use dp_conf::WriteTold;
use dp_json::{push_fault_count, push_notes, push_notices, push_plan_counts, push_queue_count};
use dp_notices::{CheckReport, PlanCounts, PlanFiles, QueueFiles, Shown};
use dp_plan::{Context, Dialplan, NoMemory, Note};
use std::alloc::Global;

/// The total number of entries in the contexts. No list is longer than a `usize`, so 128 bits hold the sum.
fn count_entries(contexts: &[Context]) -> u128
    ensures { result ≡ entries_in contexts.now }
{
    let mut count: u128 = 0;
    for context in contexts {
        count += context.entries().len() as u128;
    }
    count
}

/// The lines on a dialplan with its notes.
fn check_lines(alloc: Global, plan: &Dialplan, notes: &[Note]) -> Result<Vec<u8>, NoMemory>
    ensures { IfOk result (λ lines. lines.items ≡ spec.check_lines (plan.now, notes.now)) }
{
    let mut lines = Vec::new(alloc);
    push_notes(&mut lines, notes)?;
    push_plan_counts(
        &mut lines,
        plan.contexts().len(),
        count_entries(plan.contexts()),
    )?;
    Ok(lines)
}

/// The lines on the dialplan of a text, or the text's fault.
#[tactic(auto, unfolding(crate::specs::JsonChecks::check_json_of))]
fn check_report(alloc: Global, text: &[u8]) -> Result<Vec<u8>, PbxFault>
    ensures lines { Answers (λ lines. lines.items) reason_of result (spec.check_json_of text.now) }
    ensures quiet { is_write_failed result ≡ false }
{
    let (plan, notes) = Dialplan::load(alloc, text)?;
    let lines = check_lines(alloc, &plan, &notes)?;
    Ok(lines)
}

/// Loads a dialplan and writes how it loads, as JSON. Otherwise it does what [`dp_commands::check`] does.
pub(crate) fn check_json<W: WriteTold>(
    alloc: Global,
    plan: &[u8],
    output: &mut W,
) -> Result<u8, PbxFault>
    ensures reports { Reports (W.contents output.old) (W.contents output.new) (spec.check_json_of plan.now) result }
    ensures told { W.has_failed output.new ≡ (W.has_failed output.old || is_write_failed result) }
{
    let lines = check_report(alloc, plan)?;
    output.write_told(&lines)?;
    Ok(0)
}

/// Adds the last line: the counts, or the number of faults if there are any.
fn push_last(out: &mut Vec<u8>, counts: PlanCounts, faults: u128) -> Result<(), NoMemory>
    ensures { OnOk result (out.new.items ≡ out.old.items ++ spec.last_line counts faults) }
{
    if faults == 0 {
        push_plan_counts(out, counts.contexts, counts.entries)
    } else {
        push_fault_count(out, faults)
    }
}

/// The report on a dialplan that is read from files, as JSON.
#[tactic(auto, unfolding(crate::specs::JsonChecks::plan_lines))]
pub(crate) fn plan_report(alloc: Global, plan: &PlanFiles) -> Result<CheckReport, NoMemory>
    ensures text { IfOk result (λ report. report.text.items ≡ spec.plan_lines (plan_now plan.now)) }
    ensures faults { IfOk result (λ report. report.faults ≡ faults_of (plan_now plan.now)) }
{
    let faults = plan.count_faults();
    let mut text = Vec::new(alloc);
    push_notices(alloc, &mut text, Shown::All, &plan.files, &plan.lines)?;
    push_last(&mut text, plan.counts, faults)?;
    Ok(CheckReport { text, faults })
}

/// Adds the last line on queues: how many there are, or the number of faults if there are any.
fn push_last_of_queues(out: &mut Vec<u8>, count: usize, faults: u128) -> Result<(), NoMemory>
    ensures { OnOk result (out.new.items ≡ out.old.items ++ spec.last_line_of_queues count faults) }
{
    if faults == 0 {
        push_queue_count(out, count)
    } else {
        push_fault_count(out, faults)
    }
}

/// The report on queues that are read from files, as JSON.
#[tactic(auto, unfolding(crate::specs::JsonChecks::queues_lines))]
pub(crate) fn queues_report(alloc: Global, queues: &QueueFiles) -> Result<CheckReport, NoMemory>
    ensures text { IfOk result (λ report. report.text.items ≡ spec.queues_lines (queues_now queues.now)) }
    ensures faults { IfOk result (λ report. report.faults ≡ faults_of_queues (queues_now queues.now)) }
{
    let faults = queues.count_faults();
    let count = queues.count_queues(alloc)?;
    let mut text = Vec::new(alloc);
    push_notices(alloc, &mut text, Shown::All, &queues.files, &queues.lines)?;
    push_last_of_queues(&mut text, count, faults)?;
    Ok(CheckReport { text, faults })
}

/// Adds the last lines on a dialplan and queues: the counts of both, or the number of faults if there are any.
fn push_last_of_both(
    out: &mut Vec<u8>,
    counts: PlanCounts,
    count: usize,
    faults: u128,
) -> Result<(), NoMemory>
    ensures { OnOk result (out.new.items ≡ out.old.items ++ spec.last_lines_of_both counts count faults) }
{
    if faults == 0 {
        push_plan_counts(out, counts.contexts, counts.entries)?;
        push_queue_count(out, count)
    } else {
        push_fault_count(out, faults)
    }
}

/// The report on a dialplan and on queues that are read from files, as JSON.
#[tactic(auto, unfolding(crate::specs::JsonChecks::both_lines))]
pub(crate) fn both_report(
    alloc: Global,
    plan: &PlanFiles,
    queues: &QueueFiles,
) -> Result<CheckReport, NoMemory>
    ensures text { IfOk result (λ report. report.text.items ≡ spec.both_lines (plan_now plan.now) (queues_now queues.now)) }
    ensures faults { IfOk result (λ report. report.faults ≡ faults_of_both (plan_now plan.now) (queues_now queues.now)) }
{
    let faults = plan.count_faults().saturating_add(queues.count_faults());
    let count = queues.count_queues(alloc)?;
    let mut text = Vec::new(alloc);
    push_notices(alloc, &mut text, Shown::All, &plan.files, &plan.lines)?;
    push_notices(alloc, &mut text, Shown::All, &queues.files, &queues.lines)?;
    push_last_of_both(&mut text, plan.counts, count, faults)?;
    Ok(CheckReport { text, faults })
}
