//! Targets that lead nowhere, of applications that only another table has.
ghost use Rattle.std.specs.Prelude.{◌≡◌, ◌++◌, ◌∷◌, [], IfOk, List, OnOk, filter, map, ℕ};
ghost use Rattle.std.specs.List.{flat_map, range_with_len};
ghost use Rattle.dp_audit.specs.Missing as spec;
ghost use Rattle.dp_audit.specs.Missing.{TargetOf};

use crate::finder::PlanFinder;
use crate::finding::Finding;
use crate::jump::Jump;
use crate::neighbours::entries_at;
use crate::target::is_missing;
use dp_plan::{Dialplan, EntryId, NoMemory, Text};
use std::alloc::Global;

/// A target in the arguments of an entry: how its application jumps there, and its text.
#[derive(Clone, Copy, Debug)]
pub struct TargetAt<'a> {
    /// The entry.
    pub entry: EntryId,
    /// How the application jumps.
    pub jump: Jump,
    /// The text of the target, as it is written.
    pub text: &'a [u8],
}

/// The targets in the arguments of applications.
pub trait Jumps {
    // The targets in the arguments of the application with a name.
    ghost targets: { List ℕ → List ℕ → List TargetOf };

    /// Adds the targets in the arguments of the application of an entry, in their order. It fails only if memory runs out.
    fn push_targets<'a>(
        list: &mut Vec<TargetAt<'a>>,
        entry: EntryId,
        name: &[u8],
        arguments: &'a [u8],
    ) -> Result<(), NoMemory>
        ensures { OnOk result (map spec.target_now list.new.items
            ≡ map spec.target_now list.old.items ++ map (spec.target_at entry) (targets name.now arguments.now)) };
}

/// Adds the targets in the arguments of the entry with these numbers.
fn push_of_id<'a, J: Jumps>(
    list: &mut Vec<TargetAt<'a>>,
    plan: &'a Dialplan,
    id: EntryId,
) -> Result<(), NoMemory>
    ensures { OnOk result (map spec.target_now list.new.items ≡ map spec.target_now list.old.items ++ spec.of_id J.targets plan.now id) }
{
    match plan.entry(id) {
        Some(entry) => {
            let arguments = entry.arguments.text().bytes();
            J::push_targets(list, id, entry.application.bytes(), arguments)
        }
        None => Ok(()),
    }
}

/// Adds the targets in the arguments of the entries of the context with the number.
#[tactic(auto, using(crate::proofs::FindingsLemmas::entries_more))]
fn push_of_context<'a, J: Jumps>(
    list: &mut Vec<TargetAt<'a>>,
    plan: &'a Dialplan,
    number: usize,
) -> Result<(), NoMemory>
    ensures { OnOk result (map spec.target_now list.new.items
        ≡ map spec.target_now list.old.items ++ spec.of_context J.targets plan.now number) }
{
    for entry in 0..entries_at(plan, number).len() {
        let id = EntryId {
            context: number,
            entry,
        };
        push_of_id::<J>(list, plan, id)?;
    }
    Ok(())
}

/// The targets in the arguments of all entries, in the order of the file.
#[tactic(auto, unfolding(crate::specs::Missing::targets_of))]
fn targets_of<J: Jumps>(alloc: Global, plan: &Dialplan) -> Result<Vec<TargetAt<'_>>, NoMemory>
    ensures { IfOk result (λ list. map spec.target_now list.items ≡ spec.targets_of J.targets plan.now) }
{
    let mut list = Vec::new(alloc);
    for number in 0..plan.contexts().len() {
        push_of_context::<J>(&mut list, plan, number)?;
    }
    Ok(list)
}

/// Whether a target of an entry is literal and leads nowhere.
fn is_missing_at(finder: &mut PlanFinder<'_>, target: TargetAt<'_>) -> Result<bool, NoMemory>
    ensures missing { IfOk result (λ missing. missing ≡ spec.is_missing_at finder.old (spec.target_now target.entry)) }
    ensures same { finder.new ≡ finder.old }
{
    let plan = finder.plan();
    let Some(context) = plan.contexts().get(target.entry.context) else {
        return Ok(false);
    };
    let Some(entry) = plan.entry(target.entry) else {
        return Ok(false);
    };
    let name = entry.name.name();
    is_missing(finder, context.name(), name, target.jump, target.text)
}

/// Adds a target of an entry if it is literal and leads nowhere.
fn push_missing_at(
    findings: &mut Vec<Finding>,
    finder: &mut PlanFinder<'_>,
    target: TargetAt<'_>,
) -> Result<(), NoMemory>
    ensures found { OnOk result (findings.new.items
        ≡ findings.old.items ++ spec.missing_among finder.old (spec.target_now target.entry ∷ [])) }
    ensures same { finder.new ≡ finder.old }
{
    if is_missing_at(finder, target)? {
        let text = Text::copy_of(finder.alloc(), target.text)?;
        findings.push(Finding::NoTarget {
            entry: target.entry,
            target: text,
        })?;
    }
    Ok(())
}

/// The findings on those of the targets that are literal and lead nowhere.
fn missing_among(
    alloc: Global,
    plan: &Dialplan,
    targets: &[TargetAt<'_>],
) -> Result<Vec<Finding>, NoMemory>
    ensures { IfOk result (λ findings. findings.items ≡ spec.missing_among plan.now (map spec.target_now targets.now)) }
{
    let mut finder = PlanFinder::new(alloc, plan)?;
    let mut findings = Vec::new(alloc);
    for target in targets {
        push_missing_at(&mut findings, &mut finder, *target)?;
    }
    Ok(findings)
}

/// The targets of a table's applications that are literal and lead nowhere, each as a finding `NoTarget`, in the order of the file and of
/// the arguments. A target is literal if no group begins or ends in it.
///
/// The cost is linear in the dialplan, apart from look-ups in tries. It fails only if memory runs out.
#[tactic(auto, unfolding(crate::specs::Missing::missing_of))]
pub fn find_missing<J: Jumps>(alloc: Global, plan: &Dialplan) -> Result<Vec<Finding>, NoMemory>
    ensures { IfOk result (λ findings. findings.items ≡ spec.missing_of J.targets plan.now) }
{
    let targets = targets_of::<J>(alloc, plan)?;
    if targets.is_empty() {
        return Ok(Vec::new(alloc));
    }
    let findings = missing_among(alloc, plan, &targets)?;
    Ok(findings)
}
