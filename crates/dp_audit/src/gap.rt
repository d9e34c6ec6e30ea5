//! Priorities that an extension lacks.
ghost use Rattle.std.specs.Prelude.{◌≡◌, ◌+◌, [], Some, IfOk, false, get_or, nat_eq};
ghost use Rattle.std.specs.Cmp.Lexicographic.{pointwise};
ghost use Rattle.std.specs.List.{list_any};
ghost use Rattle.dp_audit.specs.Findings as spec;
ghost use Rattle.dp_audit.specs.steps.Firsts.{Adds};
ghost use Rattle.dp_audit.specs.steps.Scene.{IsScene};
ghost use Rattle.dp_lookup.specs.SearchOrder.{search_order};
ghost use Rattle.dp_pattern.specs.Spelling.{spelling};
ghost use Rattle.dp_plan.specs.Lookup.{entry_at};

use crate::finder::PlanFinder;
use crate::scene::Scene;
use crate::spelling::Spelling;
use dp_pattern::{Name, Parts};
use dp_plan::{Entry, EntryId, NoMemory, SharedName, Text};
use indexmap::IndexSet;

/// Whether the number is marked.
fn is_marked(marks: &[bool], number: usize) -> bool
    ensures { result ≡ get_or marks.now number false }
{
    match marks.get(number) {
        Some(mark) => *mark,
        None => false,
    }
}

/// Whether the name is plain, and no entry is found for its text at the priority.
#[tactic(auto, unfolding(crate::specs::Finders::answers))]
fn lacks(finder: &mut PlanFinder<'_>, context: &Text, name: &Name, priority: u32) -> bool
    ensures lacks { result ≡ spec.lacks finder.old (search_order finder.old context.now) name.now priority }
    ensures same { finder.new ≡ finder.old }
{
    match name.parts() {
        Parts::Plain(text) => !finder.answers(context, text, priority),
        Parts::Pattern(_, _) => false,
    }
}

/// Whether a call that runs the entry ends at the next priority although its extension goes on after it.
pub(crate) fn is_gap(
    finder: &mut PlanFinder<'_>,
    scene: &Scene<'_>,
    id: EntryId,
    entry: &Entry,
) -> bool
    requires scene { IsScene finder.old id.context scene.now }
    requires there { entry_at finder.old id ≡ Some entry.now }
    ensures gap { result ≡ spec.is_gap finder.old id entry.now }
    ensures same { finder.new ≡ finder.old }
{
    let next = entry.priority.get() + 1;
    is_marked(scene.greater, id.entry) && lacks(finder, scene.context, entry.name.name(), next)
}

/// Whether the name is among these.
fn has_name(names: &IndexSet<Spelling>, name: &SharedName) -> Result<bool, NoMemory>
    ensures { IfOk result (λ found. found ≡ list_any (pointwise nat_eq (spelling name.now)) names.now.keys) }
{
    let held = Spelling::of(name)?;
    Ok(names.contains(&held))
}

/// Whether no call for the name finds priority 1.
#[tactic(auto, unfolding(crate::specs::Finders::answers))]
fn lacks_beginning(
    finder: &mut PlanFinder<'_>,
    scene: &Scene<'_>,
    name: &SharedName,
) -> Result<bool, NoMemory>
    requires { Adds (spec.some_first finder.old (search_order finder.old scene.now.context.now)) [] scene.now.firsts.now.keys }
    ensures lacks { IfOk result (λ lacks. lacks
        ≡ spec.lacks_beginning finder.old (search_order finder.old scene.now.context.now) name.now) }
    ensures same { finder.new ≡ finder.old }
{
    match name.name().parts() {
        Parts::Plain(text) => Ok(!finder.answers(scene.context, text, 1)),
        Parts::Pattern(_, _) => {
            let is_found = has_name(scene.firsts, name)?;
            Ok(!is_found)
        }
    }
}

/// Whether the entry has the lowest priority of its extension, and no call for it finds priority 1.
pub(crate) fn lacks_first(
    finder: &mut PlanFinder<'_>,
    scene: &Scene<'_>,
    id: EntryId,
    entry: &Entry,
) -> Result<bool, NoMemory>
    requires scene { IsScene finder.old id.context scene.now }
    requires there { entry_at finder.old id ≡ Some entry.now }
    ensures lacks { IfOk result (λ lacks. lacks ≡ spec.lacks_first finder.old id entry.now) }
    ensures same { finder.new ≡ finder.old }
{
    if is_marked(scene.lower, id.entry) {
        return Ok(false);
    }
    let lacks = lacks_beginning(finder, scene, &entry.name)?;
    Ok(lacks)
}
