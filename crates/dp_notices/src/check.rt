//! The reports on a dialplan and on queues that are read from files.
ghost use Rattle.std.specs.Prelude.{◌≡◌, ◌++◌, IfOk, OnOk};
ghost use Rattle.dp_notices.specs.Checks as spec;
ghost use Rattle.dp_notices.specs.PlanFiles.{plan_now};
ghost use Rattle.dp_notices.specs.QueueFiles.{queues_now};

use crate::line_notices::count_faults;
use crate::loading::PlanCounts;
use crate::plan_files::PlanFiles;
use crate::printing::{Shown, print_notices, print_queue_notices};
use crate::queue_files::QueueFiles;
use dp_conf::NoMemory;
use itoa::Buffer;
use std::alloc::Global;

/// The report on a dialplan, on queues, or on both.
#[derive(Drop)]
pub struct CheckReport {
    pub text: Vec<u8>,
    /// How many faults there are.
    pub faults: u128,
}

/// Adds the line of a dialplan that loads, `ok C contexts E entries`.
fn push_counts(out: &mut Vec<u8>, counts: PlanCounts) -> Result<(), NoMemory>
    ensures { OnOk result (out.new.items ≡ out.old.items ++ spec.counts_line counts) }
{
    let mut buffer = Buffer::new();
    out.extend_from_slice(b"ok ")?;
    out.extend_from_slice(buffer.format(counts.contexts).as_bytes())?;
    out.extend_from_slice(b" contexts ")?;
    out.extend_from_slice(buffer.format(counts.entries).as_bytes())?;
    out.extend_from_slice(b" entries\n")?;
    Ok(())
}

/// Adds the line of queues that load, `ok Q queues`.
fn push_queue_count(out: &mut Vec<u8>, count: usize) -> Result<(), NoMemory>
    ensures { OnOk result (out.new.items ≡ out.old.items ++ spec.queues_line count) }
{
    let mut buffer = Buffer::new();
    out.extend_from_slice(b"ok ")?;
    out.extend_from_slice(buffer.format(count).as_bytes())?;
    out.extend_from_slice(b" queues\n")?;
    Ok(())
}

/// Adds the line of files with faults, `N faults`.
fn push_faults(out: &mut Vec<u8>, faults: u128) -> Result<(), NoMemory>
    ensures { OnOk result (out.new.items ≡ out.old.items ++ spec.faults_line faults) }
{
    let mut buffer = Buffer::new();
    out.extend_from_slice(buffer.format(faults).as_bytes())?;
    out.extend_from_slice(b" faults\n")?;
    Ok(())
}

/// Adds the last line: the counts, or the number of faults if there are any.
fn push_last(out: &mut Vec<u8>, counts: PlanCounts, faults: u128) -> Result<(), NoMemory>
    ensures { OnOk result (out.new.items ≡ out.old.items ++ spec.last_line counts faults) }
{
    if faults == 0 {
        push_counts(out, counts)
    } else {
        push_faults(out, faults)
    }
}

/// Reports on a dialplan that is read from files. The report has the lines of all its notices, and then `ok C contexts E entries`, or
/// `N faults` if there are any. The error comes only if a growth was refused.
#[tactic(auto, unfolding(crate::specs::Checks::check_text))]
pub fn check_plan(alloc: Global, plan: &PlanFiles) -> Result<CheckReport, NoMemory>
    ensures text { IfOk result (λ report. report.text.items ≡ spec.check_text (plan_now plan.now)) }
    ensures faults { IfOk result (λ report. report.faults ≡ spec.faults_of (plan_now plan.now)) }
{
    let faults = plan.count_faults();
    let mut text = print_notices(alloc, Shown::All, plan)?;
    push_last(&mut text, plan.counts, faults)?;
    Ok(CheckReport { text, faults })
}

/// Adds the last line of a report on queues: how many there are, or the number of faults if there are any.
fn push_last_of_queues(out: &mut Vec<u8>, count: usize, faults: u128) -> Result<(), NoMemory>
    ensures { OnOk result (out.new.items ≡ out.old.items ++ spec.last_line_of_queues count faults) }
{
    if faults == 0 {
        push_queue_count(out, count)
    } else {
        push_faults(out, faults)
    }
}

/// Reports on queues that are read from files. The report has the lines of all their notices, and then `ok Q queues`, or `N faults` if there
/// are any. The error comes only if a growth was refused.
#[tactic(auto, unfolding(crate::specs::Checks::queues_check_text))]
pub fn check_queues(alloc: Global, queues: &QueueFiles) -> Result<CheckReport, NoMemory>
    ensures text { IfOk result (λ report. report.text.items ≡ spec.queues_check_text (queues_now queues.now)) }
    ensures faults { IfOk result (λ report. report.faults ≡ spec.faults_of_queues (queues_now queues.now)) }
{
    let faults = queues.count_faults();
    let count = queues.count_queues(alloc)?;
    let mut text = print_queue_notices(alloc, Shown::All, queues)?;
    push_last_of_queues(&mut text, count, faults)?;
    Ok(CheckReport { text, faults })
}

/// Adds the last lines of a report on a dialplan and queues: the counts of both, or the number of faults if there are any.
fn push_last_of_both(
    out: &mut Vec<u8>,
    counts: PlanCounts,
    count: usize,
    faults: u128,
) -> Result<(), NoMemory>
    ensures { OnOk result (out.new.items ≡ out.old.items ++ spec.last_lines_of_both counts count faults) }
{
    if faults == 0 {
        push_counts(out, counts)?;
        push_queue_count(out, count)
    } else {
        push_faults(out, faults)
    }
}

/// Reports on a dialplan and on queues that are read from files. The report has the lines of all notices on the dialplan and then of those on
/// the queues. Then it has `ok C contexts E entries` and `ok Q queues`, or `N faults` if there are any. The error comes only if a growth was
/// refused.
#[tactic(auto, unfolding(crate::specs::Checks::both_check_text))]
pub fn check_plan_and_queues(
    alloc: Global,
    plan: &PlanFiles,
    queues: &QueueFiles,
) -> Result<CheckReport, NoMemory>
    ensures text { IfOk result (λ report. report.text.items ≡ spec.both_check_text (plan_now plan.now) (queues_now queues.now)) }
    ensures faults { IfOk result (λ report. report.faults ≡ spec.faults_of_both (plan_now plan.now) (queues_now queues.now)) }
{
    let faults = plan.count_faults().saturating_add(queues.count_faults());
    let count = queues.count_queues(alloc)?;
    let mut text = print_notices(alloc, Shown::All, plan)?;
    let told = print_queue_notices(alloc, Shown::All, queues)?;
    text.extend_from_slice(&told)?;
    push_last_of_both(&mut text, plan.counts, count, faults)?;
    Ok(CheckReport { text, faults })
}
