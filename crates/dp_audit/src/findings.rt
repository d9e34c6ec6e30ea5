//! The audit of a loaded dialplan.
ghost use Rattle.std.specs.Prelude.{◌≡◌, ◌<◌, ◌++◌, Some, IfOk, OnOk};
ghost use Rattle.std.specs.List.{flat_map, range_with_len};
ghost use Rattle.dp_audit.specs.Findings as spec;
ghost use Rattle.dp_audit.specs.Orders.{order_at};
ghost use Rattle.dp_audit.specs.steps.Scene.{IsKnown, IsScene};
ghost use Rattle.dp_lookup.specs.SearchOrder.{context_count, search_order};
ghost use Rattle.dp_plan.specs.Lookup.{entry_at};

use crate::finder::PlanFinder;
use crate::finding::Finding;
use crate::gap::{is_gap, lacks_first};
use crate::hidden_entries::{Hidings, push_hidden};
use crate::labels::Naming;
use crate::names::AppNames;
use crate::neighbours::{entries_at, greater_marks, lower_marks};
use crate::order::name_at;
use crate::scene::{PlanKnowledge, Scene};
use crate::target::push_missing;
use crate::unset_variables::{SetNames, push_unset};
use dp_plan::{Dialplan, Entry, EntryId, NoMemory, Text};
use std::alloc::Global;

/// Adds the finding, if the condition holds.
fn push_if(findings: &mut Vec<Finding>, is_one: bool, finding: Finding) -> Result<(), NoMemory>
    ensures { OnOk result (findings.new.items ≡ findings.old.items ++ spec.found_if is_one finding) }
{
    if is_one {
        findings.push(finding)?;
    }
    Ok(())
}

/// Adds the findings on the priorities of the entry's extension.
fn push_of_priorities(
    findings: &mut Vec<Finding>,
    finder: &mut PlanFinder<'_>,
    scene: &Scene<'_>,
    id: EntryId,
    entry: &Entry,
) -> Result<(), NoMemory>
    requires scene { IsScene finder.old id.context scene.now }
    requires there { entry_at finder.old id ≡ Some entry.now }
    ensures found { OnOk result (findings.new.items
        ≡ findings.old.items ++ spec.of_priorities finder.old id entry.now) }
    ensures same { finder.new ≡ finder.old }
{
    let is_gap = is_gap(finder, scene, id, entry);
    push_if(findings, is_gap, Finding::Gap { entry: id })?;
    let lacks_first = lacks_first(finder, scene, id, entry)?;
    push_if(findings, lacks_first, Finding::NoFirst { entry: id })?;
    Ok(())
}

/// Adds the findings on the texts of the entry: those on its targets come before those on its priorities.
fn push_of_texts<N: AppNames>(
    findings: &mut Vec<Finding>,
    finder: &PlanFinder<'_>,
    scene: &Scene<'_>,
    id: EntryId,
    entry: &Entry,
) -> Result<(), NoMemory>
    requires scene { IsScene finder.now id.context scene.now }
    requires known { IsKnown N.known finder.now scene.now.known }
    ensures { OnOk result (findings.new.items
        ≡ findings.old.items ++ spec.of_texts N.known finder.now id entry.now) }
{
    push_unset(findings, finder.alloc(), scene.known.set, id, entry)?;
    let is_unused = scene.known.naming.is_unused(finder.alloc(), entry)?;
    push_if(findings, is_unused, Finding::Unused { entry: id })?;
    Ok(())
}

/// Adds the findings on an entry with these numbers.
#[tactic(auto, using(crate::proofs::FindingsLemmas::five))]
fn push_of<N: AppNames>(
    findings: &mut Vec<Finding>,
    finder: &mut PlanFinder<'_>,
    scene: &Scene<'_>,
    id: EntryId,
    entry: &Entry,
) -> Result<(), NoMemory>
    requires scene { IsScene finder.old id.context scene.now }
    requires there { entry_at finder.old id ≡ Some entry.now }
    requires known { IsKnown N.known finder.old scene.now.known }
    ensures found { OnOk result (findings.new.items
        ≡ findings.old.items ++ spec.of_entry N.known finder.old id entry.now) }
    ensures same { finder.new ≡ finder.old }
{
    let is_unknown = !N::has_application(entry.application.bytes());
    push_if(findings, is_unknown, Finding::NoApplication { entry: id })?;
    push_missing(findings, finder, scene.context, id, entry)?;
    push_of_priorities(findings, finder, scene, id, entry)?;
    push_hidden(findings, scene.known.hidden, id)?;
    push_of_texts::<N>(findings, finder, scene, id, entry)?;
    Ok(())
}

/// Adds the findings on the entry with these numbers.
fn push_of_entry<N: AppNames>(
    findings: &mut Vec<Finding>,
    finder: &mut PlanFinder<'_>,
    scene: &Scene<'_>,
    id: EntryId,
) -> Result<(), NoMemory>
    requires scene { IsScene finder.old id.context scene.now }
    requires known { IsKnown N.known finder.old scene.now.known }
    ensures found { OnOk result (findings.new.items
        ≡ findings.old.items ++ spec.findings_of_entry N.known finder.old id) }
    ensures same { finder.new ≡ finder.old }
{
    match finder.plan().entry(id) {
        Some(entry) => push_of::<N>(findings, finder, scene, id, entry),
        None => Ok(()),
    }
}

/// Adds the findings on the entries of the context with the number.
#[tactic(auto, using(crate::proofs::FindingsLemmas::entries_more))]
fn push_of_entries<N: AppNames>(
    findings: &mut Vec<Finding>,
    finder: &mut PlanFinder<'_>,
    scene: &Scene<'_>,
    number: usize,
) -> Result<(), NoMemory>
    requires scene { IsScene finder.old number scene.now }
    requires known { IsKnown N.known finder.old scene.now.known }
    ensures found { OnOk result (findings.new.items
        ≡ findings.old.items ++ spec.findings_of_entries N.known finder.old number) }
    ensures same { finder.new ≡ finder.old }
{
    for entry in 0..entries_at(finder.plan(), number).len() {
        let id = EntryId {
            context: number,
            entry,
        };
        push_of_entry::<N>(findings, finder, scene, id)?;
    }
    Ok(())
}

/// Adds the findings on the entries of the context with the name and number.
fn push_of_named<N: AppNames>(
    findings: &mut Vec<Finding>,
    finder: &mut PlanFinder<'_>,
    known: PlanKnowledge<'_>,
    context: &Text,
    number: usize,
) -> Result<(), NoMemory>
    requires known { IsKnown N.known finder.old known }
    requires context { context.now ≡ spec.context_name finder.old number }
    requires order { search_order finder.old context.now ≡ order_at finder.old number }
    ensures found { OnOk result (findings.new.items
        ≡ findings.old.items ++ spec.findings_of_entries N.known finder.old number) }
    ensures same { finder.new ≡ finder.old }
{
    let plan = finder.plan();
    let greater = greater_marks(finder.alloc(), plan, number)?;
    let lower = lower_marks(finder.alloc(), plan, number)?;
    let firsts = finder.firsts(context)?;
    let scene = Scene {
        greater: &greater,
        lower: &lower,
        firsts: &firsts,
        context,
        known,
    };
    push_of_entries::<N>(findings, finder, &scene, number)?;
    Ok(())
}

/// Adds the findings on the context with the number and on its entries.
fn push_of_context<N: AppNames>(
    findings: &mut Vec<Finding>,
    finder: &mut PlanFinder<'_>,
    known: PlanKnowledge<'_>,
    number: usize,
) -> Result<(), NoMemory>
    requires context { number < context_count finder.old }
    requires known { IsKnown N.known finder.old known }
    ensures found { OnOk result (findings.new.items
        ≡ findings.old.items ++ spec.findings_of_context N.known finder.old number) }
    ensures same { finder.new ≡ finder.old }
{
    let context = name_at(finder.plan(), number);
    let is_cycle = finder.is_included(context, number);
    push_if(findings, is_cycle, Finding::Cycle { context: number })?;
    push_of_named::<N>(findings, finder, known, context, number)?;
    Ok(())
}

/// The findings on the contexts, in the order of the file.
fn findings_of<N: AppNames>(
    finder: &mut PlanFinder<'_>,
    known: PlanKnowledge<'_>,
) -> Result<Vec<Finding>, NoMemory>
    requires known { IsKnown N.known finder.old known }
    ensures { IfOk result (λ findings. findings.items
        ≡ flat_map (spec.findings_of_context N.known finder.old) (range_with_len 0 (context_count finder.old))) }
{
    let mut findings = Vec::new(finder.alloc());
    for number in 0..finder.plan().contexts().len() {
        push_of_context::<N>(&mut findings, finder, known, number)?;
    }
    Ok(findings)
}

/// The findings of an audit of the dialplan, in the order of the file: for each context first whether it includes itself. Then for each of
/// its entries: whether the table lacks its application, which of its targets lead nowhere, whether it is followed by a gap, whether its
/// extension has no beginning, from which contexts it is hidden, which variables in its arguments nothing sets, and whether nothing may
/// name its label: no target, and no piece of the arguments of an application that the table lacks.
///
/// The cost is linear in the dialplan and its search orders, apart from look-ups in tries. It fails only if memory runs out.
#[tactic(auto, unfolding(crate::specs::Findings::findings_of))]
pub fn audit<N: AppNames>(alloc: Global, plan: &Dialplan) -> Result<Vec<Finding>, NoMemory>
    ensures { IfOk result (λ findings. findings.items ≡ spec.findings_of N.known plan.now) }
{
    let naming = Naming::of::<N>(alloc, plan)?;
    let set = SetNames::of(alloc, plan)?;
    let hidden = Hidings::of(alloc, plan)?;
    let mut finder = PlanFinder::new(alloc, plan)?;
    let known = PlanKnowledge {
        naming: &naming,
        set: &set,
        hidden: &hidden,
    };
    let findings = findings_of::<N>(&mut finder, known)?;
    Ok(findings)
}
