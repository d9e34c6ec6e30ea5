//! The coverage of dialplans by the tests of several files.
ghost use Rattle.std.specs.Prelude.{◌≡◌, ◌++◌, [], IfOk, OnOk, false, true};
ghost use Rattle.std.specs.List.{flat_map, list_any};
ghost use Rattle.dp_program.specs.TestSuites as spec;

use crate::json_tests::coverage_json;
use crate::test_reports::TestManner;
use crate::test_results::PlanRun;
use dp_commands::PbxFault;
use dp_plan::{EntryId, NoMemory};
use dp_test_runs::{CoveredPlan, RunItems, coverage_text};
use std::alloc::Global;

/// Whether two test files are on the same dialplan: on the same text of a file at the same path.
pub(crate) fn is_same_plan(a: &PlanRun<'_>, b: &PlanRun<'_>) -> bool
    ensures { result ≡ spec.same_plan a.now b.now }
{
    a.path.bytes() == b.path.bytes() && a.tested.texts.plan == b.tested.texts.plan
}

/// Whether the dialplan of a test file is that of one of these files.
fn is_told(told: &[PlanRun<'_>], run: &PlanRun<'_>) -> bool
    ensures { result ≡ list_any (spec.same_plan run.now) told.now }
{
    for plan in told {
        if is_same_plan(run, plan) {
            return true;
        }
    }
    false
}

/// Adds entries.
fn push_each(entered: &mut RunItems<EntryId>, ids: &[EntryId]) -> Result<(), NoMemory>
    ensures { OnOk result (entered.new ≡ entered.old ++ ids.now) }
{
    for id in ids {
        entered.push(*id)?;
    }
    Ok(())
}

/// Adds the entries of a dialplan that the tests of one file ran, if it is on this dialplan.
fn push_entered(
    entered: &mut RunItems<EntryId>,
    plan: &PlanRun<'_>,
    run: &PlanRun<'_>,
) -> Result<(), NoMemory>
    ensures { OnOk result (entered.new ≡ entered.old ++ spec.entered_by plan.now run.now) }
{
    if is_same_plan(plan, run) {
        return push_each(entered, run.entered.as_slice());
    }
    Ok(())
}

/// The entries of a dialplan that the tests of all files that are on it ran.
pub(crate) fn entered_on(
    alloc: Global,
    runs: &[PlanRun<'_>],
    plan: &PlanRun<'_>,
) -> Result<RunItems<EntryId>, NoMemory>
    ensures { IfOk result (λ entered. entered ≡ flat_map (spec.entered_by plan.now) runs.now) }
{
    let mut entered = RunItems::none(alloc);
    for run in runs {
        push_entered(&mut entered, plan, run)?;
    }
    Ok(entered)
}

/// Adds the coverage of a dialplan by these entries as text. It has no fault, since tests ran on the dialplan.
fn push_text(
    alloc: Global,
    out: &mut Vec<u8>,
    plan: &PlanRun<'_>,
    entered: &[EntryId],
) -> Result<(), NoMemory>
    ensures { OnOk result (out.new.items ≡ out.old.items ++ spec.coverage_by false plan.now entered.now) }
{
    let covered = CoveredPlan {
        text: plan.tested.texts.plan,
        places: plan.tested.places,
    };
    match coverage_text(alloc, covered, entered) {
        Ok(text) => out.extend_from_slice(text.bytes()),
        Err(PbxFault::NoMemory) => Err(NoMemory),
        Err(PbxFault::Coded { code: _, line: _ }) => Ok(()),
    }
}

/// Adds the same as JSON.
fn push_json(
    alloc: Global,
    out: &mut Vec<u8>,
    plan: &PlanRun<'_>,
    entered: &[EntryId],
) -> Result<(), NoMemory>
    ensures { OnOk result (out.new.items ≡ out.old.items ++ spec.coverage_by true plan.now entered.now) }
{
    match coverage_json(alloc, plan, entered) {
        Ok(text) => out.extend_from_slice(&text),
        Err(PbxFault::NoMemory) => Err(NoMemory),
        Err(PbxFault::Coded { code: _, line: _ }) => Ok(()),
    }
}

/// Adds the coverage of a dialplan by these entries.
fn push_by(
    alloc: Global,
    out: &mut Vec<u8>,
    is_json: bool,
    plan: &PlanRun<'_>,
    entered: &[EntryId],
) -> Result<(), NoMemory>
    ensures { OnOk result (out.new.items ≡ out.old.items ++ spec.coverage_by is_json plan.now entered.now) }
{
    if is_json {
        return push_json(alloc, out, plan, entered);
    }
    push_text(alloc, out, plan, entered)
}

/// Adds the coverage of a dialplan by the tests of all files that are on it.
fn push_coverage(
    alloc: Global,
    out: &mut Vec<u8>,
    is_json: bool,
    runs: &[PlanRun<'_>],
    plan: &PlanRun<'_>,
) -> Result<(), NoMemory>
    ensures { OnOk result (out.new.items ≡ out.old.items ++ spec.plan_coverage is_json runs.now plan.now) }
{
    let entered = entered_on(alloc, runs, plan)?;
    push_by(alloc, out, is_json, plan, entered.as_slice())?;
    Ok(())
}

/// Test files by their dialplans, and those before one of them, whose coverage is told already.
#[derive(Clone, Copy)]
struct ToldRuns<'r, 'a> {
    runs: &'r [PlanRun<'a>],
    told: &'r [PlanRun<'a>],
}

/// Adds the coverage of the dialplan of a test file, unless it is that of a file before it.
fn push_untold(
    alloc: Global,
    out: &mut Vec<u8>,
    is_json: bool,
    before: ToldRuns<'_, '_>,
    run: &PlanRun<'_>,
) -> Result<(), NoMemory>
    ensures { OnOk result (out.new.items ≡ out.old.items ++ spec.untold_coverage is_json before.entry.runs.now before.entry.told.now run.now) }
{
    if is_told(before.told, run) {
        return Ok(());
    }
    push_coverage(alloc, out, is_json, before.runs, run)
}

/// Adds the coverage of the dialplans of test files, each once.
fn push_each_coverage(
    alloc: Global,
    out: &mut Vec<u8>,
    is_json: bool,
    runs: &[PlanRun<'_>],
) -> Result<(), NoMemory>
    ensures { OnOk result (out.new.items ≡ out.old.items ++ spec.coverage_after is_json runs.now [] runs.now) }
{
    let mut count: usize = 0;
    for run in runs {
        let before = ToldRuns {
            runs,
            told: &runs[..count],
        };
        push_untold(alloc, out, is_json, before, run)?;
        count += 1;
    }
    Ok(())
}

/// Adds the coverage of all dialplans, if it is asked for.
pub(crate) fn push_coverage_asked(
    alloc: Global,
    out: &mut Vec<u8>,
    manner: TestManner,
    runs: &[PlanRun<'_>],
) -> Result<(), NoMemory>
    ensures { OnOk result (out.new.items ≡ out.old.items ++ spec.coverage_asked manner.is_json manner.covers runs.now) }
{
    if !manner.covers {
        return Ok(());
    }
    push_each_coverage(alloc, out, manner.is_json, runs)
}
