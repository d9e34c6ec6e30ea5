//! The findings that an audit reports, given the kinds that it is asked for.
ghost use Rattle.std.specs.Prelude.{◌≡◌, ◌++◌, ◌&&◌, IfOk, OnOk, map, true};
ghost use Rattle.std.specs.List.{flat_map};
ghost use Rattle.dp_app.specs.Rows.{has_row};
ghost use Rattle.dp_audit.specs.Findings.{findings_of};
ghost use Rattle.dp_lookup.specs.FoundEntry.{passes};
ghost use Rattle.dp_table.specs.Standard.{standard_rows};
ghost use Rattle.dp_wide_runs.specs.Kinds.{choice_of, is_told, kinds_told};
ghost use Rattle.dp_wide_runs.specs.WideFindings as spec;
ghost use Rattle.dp_wide_runs.specs.steps.Runs.{AddsRuns};

use crate::functions_called::push_no_functions;
use crate::kinds::AuditChoice;
use crate::mentions::MentionedPlan;
use crate::wide_finding::{WideFinding, kind_of};
use crate::wide_targets::WideJumps;
use dp_app::AppTable;
use dp_audit::{
    AppNames, FallThrough, Finding, Loop, OnwardNames, find_fall_throughs, find_loops, find_missing,
};
use dp_conf::same_word;
use dp_plan::{Dialplan, EntryId, NoMemory};
use dp_table::StandardApps;
use dp_wide::WideApps;
use std::alloc::Global;

/// The names of the applications of this program.
struct StandardNames;

impl AppNames for StandardNames {
    ghost use Rattle.dp_app.specs.Rows.{has_row};
    ghost use Rattle.dp_table.specs.Standard.{standard_rows};

    ghost known = { has_row standard_rows };

    fn has_application(name: &[u8]) -> bool {
        StandardApps::number_of(name).is_some()
    }
}

/// The names of applications after which a channel goes on at once.
struct GoesOnAtOnce;

impl OnwardNames for GoesOnAtOnce {
    ghost use Rattle.dp_wide_runs.specs.WideFindings.{goes_on_at_once};

    ghost onward = { goes_on_at_once };

    fn goes_on(name: &[u8]) -> bool {
        same_word(name, b"NoOp")
            || same_word(name, b"Verbose")
            || same_word(name, b"Log")
            || same_word(name, b"Set")
            || same_word(name, b"MSet")
            || same_word(name, b"Answer")
            || same_word(name, b"Ringing")
            || same_word(name, b"Progress")
            || same_word(name, b"Proceeding")
            || same_word(name, b"UserEvent")
    }
}

/// Whether the wide table has the application of the entry with these numbers.
fn has_wide_application(plan: &Dialplan, id: EntryId) -> bool
    ensures { result ≡ spec.has_wide_application plan.now id }
{
    match plan.entry(id) {
        Some(entry) => WideApps::number_of(entry.application.bytes()).is_some(),
        None => false,
    }
}

/// Whether a finding is one over the wide table too.
fn is_wide_finding(scene: &MentionedPlan<'_>, finding: &Finding) -> bool
    ensures { result ≡ spec.is_wide_finding scene.now finding.now }
{
    match finding {
        Finding::NoApplication { entry } => !has_wide_application(scene.plan(), *entry),
        Finding::Unset { entry: _, name } => scene.is_strange(name),
        Finding::Cycle { .. }
        | Finding::NoTarget { .. }
        | Finding::Gap { .. }
        | Finding::NoFirst { .. }
        | Finding::Hidden { .. }
        | Finding::Unused { .. } => true,
    }
}

/// Whether a finding is one over the applications that are asked for.
fn stands(is_wide: bool, scene: &MentionedPlan<'_>, finding: &Finding) -> bool
    ensures { result ≡ spec.stands is_wide scene.now finding.now }
{
    if is_wide {
        return is_wide_finding(scene, finding);
    }
    true
}

/// Whether a finding is one over these applications and its kind is reported.
fn is_finding(scene: &MentionedPlan<'_>, choice: AuditChoice<'_>, finding: &Finding) -> bool
    ensures { result ≡ (is_told (kinds_told choice.entry.kinds) (spec.kind_of finding.now)
        && spec.stands choice.entry.is_wide scene.now finding.now) }
{
    choice.kinds.tells(kind_of(finding)) && stands(choice.is_wide, scene, finding)
}

/// Adds the finding if it is one over these applications and its kind is reported.
fn push_finding(
    list: &mut Vec<WideFinding>,
    scene: &MentionedPlan<'_>,
    choice: AuditChoice<'_>,
    finding: Finding,
) -> Result<(), NoMemory>
    ensures { OnOk result (list.new.items ≡ list.old.items ++ spec.finding_if (choice_of choice.entry) scene.now finding) }
{
    if is_finding(scene, choice, &finding) {
        list.push(WideFinding::Plain(finding))?;
    }
    Ok(())
}

/// Adds those of the findings that are reported.
fn push_findings(
    list: &mut Vec<WideFinding>,
    scene: &MentionedPlan<'_>,
    choice: AuditChoice<'_>,
    findings: Vec<Finding>,
) -> Result<(), NoMemory>
    ensures { OnOk result (list.new.items
        ≡ list.old.items ++ flat_map (spec.finding_if (choice_of choice.entry) scene.now) findings.items) }
{
    for finding in findings {
        push_finding(list, scene, choice, finding)?;
    }
    Ok(())
}

/// Adds the reported findings of an audit with the applications of this program.
fn push_plain(
    list: &mut Vec<WideFinding>,
    alloc: Global,
    scene: &MentionedPlan<'_>,
    choice: AuditChoice<'_>,
) -> Result<(), NoMemory>
    ensures { OnOk result (list.new.items ≡ list.old.items ++ spec.findings_told (choice_of choice.entry) scene.now) }
{
    let findings = dp_audit::audit::<StandardNames>(alloc, scene.plan())?;
    push_findings(list, scene, choice, findings)
}

/// Whether a kind that only an audit over the wide table has is reported.
fn tells_wide(choice: AuditChoice<'_>, kind: &[u8]) -> bool
    ensures { result ≡ spec.tells_wide (choice_of choice.entry) kind.now }
{
    choice.is_wide && choice.kinds.tells(kind)
}

/// Adds the targets of applications of the wide table that lead nowhere, if they are reported.
fn push_targets(
    list: &mut Vec<WideFinding>,
    alloc: Global,
    scene: &MentionedPlan<'_>,
    choice: AuditChoice<'_>,
) -> Result<(), NoMemory>
    ensures { OnOk result (list.new.items ≡ list.old.items ++ spec.targets_told (choice_of choice.entry) scene.now) }
{
    if !tells_wide(choice, b"NoTarget") {
        return Ok(());
    }
    let findings = find_missing::<WideJumps>(alloc, scene.plan())?;
    push_findings(list, scene, choice, findings)
}

/// Whether a channel never goes on to the next priority after an application with this name.
fn ends_there(name: &[u8]) -> bool
    ensures { result ≡ spec.ends_there name.now }
{
    same_word(name, b"Hangup")
        || same_word(name, b"Goto")
        || same_word(name, b"Return")
        || same_word(name, b"Busy")
        || same_word(name, b"Congestion")
}

/// Whether a channel never goes on after the entry with these numbers.
fn is_end(plan: &Dialplan, id: EntryId) -> bool
    ensures { result ≡ passes plan.now (λ entry. spec.ends_there entry.application) id }
{
    match plan.entry(id) {
        Some(entry) => ends_there(entry.application.bytes()),
        None => false,
    }
}

/// Adds an entry with the entry of another name that a channel meets after it, unless the channel never goes on after it.
fn push_fall_through(
    list: &mut Vec<WideFinding>,
    plan: &Dialplan,
    found: FallThrough,
) -> Result<(), NoMemory>
    ensures { OnOk result (list.new.items ≡ list.old.items ++ spec.fall_through_if plan.now found) }
{
    if is_end(plan, found.entry) {
        return Ok(());
    }
    list.push(WideFinding::FallsThrough(found))?;
    Ok(())
}

/// Adds those of these entries after which a channel goes on.
fn push_each_fall_through(
    list: &mut Vec<WideFinding>,
    plan: &Dialplan,
    all: &[FallThrough],
) -> Result<(), NoMemory>
    ensures { OnOk result (list.new.items ≡ list.old.items ++ flat_map (spec.fall_through_if plan.now) all.now) }
{
    for found in all {
        push_fall_through(list, plan, *found)?;
    }
    Ok(())
}

/// Adds the entries after which a channel goes on in another extension, if they are reported.
fn push_fall_throughs(
    list: &mut Vec<WideFinding>,
    alloc: Global,
    plan: &Dialplan,
    choice: AuditChoice<'_>,
) -> Result<(), NoMemory>
    ensures { OnOk result (list.new.items ≡ list.old.items ++ spec.fall_throughs_told (choice_of choice.entry) plan.now) }
{
    if !tells_wide(choice, b"FallsThrough") {
        return Ok(());
    }
    let all = find_fall_throughs(alloc, plan)?;
    push_each_fall_through(list, plan, &all)
}

/// Adds endless runs.
fn push_each_run(list: &mut Vec<WideFinding>, runs: &[Loop]) -> Result<(), NoMemory>
    ensures { OnOk result (list.new.items ≡ list.old.items ++ map WideFinding.EndlessRun runs.now) }
{
    for run in runs {
        list.push(WideFinding::EndlessRun(*run))?;
    }
    Ok(())
}

/// Adds the endless runs of a dialplan.
fn push_endless(list: &mut Vec<WideFinding>, alloc: Global, plan: &Dialplan) -> Result<(), NoMemory>
    ensures { OnOk result (AddsRuns true plan.now list.old.items list.new.items) }
{
    let runs = find_loops::<GoesOnAtOnce>(alloc, plan)?;
    push_each_run(list, &runs)?;
    Ok(())
}

/// Adds the endless runs, if they are reported.
fn push_runs(
    list: &mut Vec<WideFinding>,
    alloc: Global,
    plan: &Dialplan,
    is_told: bool,
) -> Result<(), NoMemory>
    ensures { OnOk result (AddsRuns is_told plan.now list.old.items list.new.items) }
{
    if is_told {
        return push_endless(list, alloc, plan);
    }
    Ok(())
}

/// Adds the functions that Asterisk lacks, if they are reported.
fn push_functions(
    list: &mut Vec<WideFinding>,
    alloc: Global,
    plan: &Dialplan,
    choice: AuditChoice<'_>,
) -> Result<(), NoMemory>
    ensures { OnOk result (list.new.items ≡ list.old.items ++ spec.functions_told (choice_of choice.entry) plan.now) }
{
    if !tells_wide(choice, b"NoFunction") {
        return Ok(());
    }
    push_no_functions(list, alloc, plan)
}

/// All findings on a dialplan that an audit with this choice reports, in their order. It fails only if memory runs out.
pub fn find_told(
    alloc: Global,
    plan: &Dialplan,
    choice: AuditChoice<'_>,
) -> Result<Vec<WideFinding>, NoMemory>
    ensures { IfOk result (λ list. spec.AreTold (choice_of choice.entry) plan.now list.items) }
{
    let mut list = Vec::new(alloc);
    let scene = MentionedPlan::new(alloc, plan)?;
    push_plain(&mut list, alloc, &scene, choice)?;
    push_targets(&mut list, alloc, &scene, choice)?;
    push_fall_throughs(&mut list, alloc, plan, choice)?;
    push_runs(&mut list, alloc, plan, tells_wide(choice, b"Loop"))?;
    push_functions(&mut list, alloc, plan, choice)?;
    Ok(list)
}
