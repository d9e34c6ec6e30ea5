//! The question, with the names and the bytes that it names.
ghost use Rattle.std.specs.Prelude.{◌≡◌, ◌∷◌, ◌++◌, [], IfOk, OnOk, is_none, map, option_map, unwrap_or};
ghost use Rattle.std.specs.List.{list_any};
ghost use Rattle.dp_answer.specs.Asks.{ask_of, is_lacking, outside_of, starts_of, target_names};
ghost use Rattle.dp_closed.specs.Answers.{shown_outside};
ghost use Rattle.dp_conf.specs.Levels.{arguments_of};
ghost use Rattle.dp_plan.specs.Lookup.{number_of};

use crate::ask::Ask;
use crate::ranges::set_of_ranges;
use dp_closed::KeptOutside;
use dp_conf::{NoMemory, split_args};
use dp_plan::{Dialplan, Text};
use std::alloc::Global;

/// The bytes of a dialled extension by default.
pub(crate) const USUAL_EXTEN: &[u8] = b"0-9A-Za-z*#+_.";

/// The bytes of a caller's number by default.
pub(crate) const USUAL_CALLER: &[u8] = b"0-9+";

/// The bytes of what names are set to from outside by default: nothing is set.
const USUAL_FACTS: &[u8] = b"";

/// Adds a copy of a name.
fn push_name(alloc: Global, names: &mut Vec<Vec<u8>>, name: &[u8]) -> Result<(), NoMemory>
    ensures { OnOk result (map (λ name. name.items) names.new.items ≡ map (λ name. name.items) names.old.items ++ name.now ∷ []) }
{
    names.push(Vec::from_slice(alloc, name)?)?;
    Ok(())
}

/// The names of all contexts.
fn all_names(alloc: Global, plan: &Dialplan) -> Result<Vec<Vec<u8>>, NoMemory>
    ensures { IfOk result (λ names. map (λ name. name.items) names.items ≡ map (λ context. context.name) plan.now.contexts) }
{
    let mut names = Vec::new(alloc);
    for context in plan.contexts() {
        push_name(alloc, &mut names, context.name().bytes())?;
    }
    Ok(names)
}

/// The name of a context, and those of others, separated by commas.
fn given_names(alloc: Global, context: &[u8], starts: &[u8]) -> Result<Vec<Vec<u8>>, NoMemory>
    ensures { IfOk result (λ names. map (λ name. name.items) names.items ≡ context.now ∷ arguments_of starts.now) }
{
    let mut names = Vec::new(alloc);
    push_name(alloc, &mut names, context)?;
    let arguments = split_args(alloc, starts)?;
    for argument in &arguments {
        push_name(alloc, &mut names, argument)?;
    }
    Ok(names)
}

/// The contexts where calls come in.
fn starts_of(alloc: Global, plan: &Dialplan, ask: &Ask<'_>) -> Result<Vec<Vec<u8>>, NoMemory>
    ensures { IfOk result (λ starts. map (λ name. name.items) starts.items ≡ starts_of plan.now (ask_of ask.now)) }
{
    match ask.starts {
        None => all_names(alloc, plan),
        Some(starts) => given_names(alloc, ask.context, starts),
    }
}

/// The given bytes, else the default ones.
pub(crate) fn given_or<'a>(given: Option<&'a [u8]>, usual: &'a [u8]) -> &'a [u8]
    ensures { result.now ≡ unwrap_or (option_map (λ text. text.now) given.entry) usual.now }
{
    match given {
        Some(text) => text,
        None => usual,
    }
}

/// Everything that may come in.
pub(crate) fn outside_of(
    alloc: Global,
    plan: &Dialplan,
    ask: &Ask<'_>,
) -> Result<KeptOutside, NoMemory>
    ensures { IfOk result (λ outside. shown_outside outside ≡ outside_of plan.now (ask_of ask.now)) }
{
    let contexts = starts_of(alloc, plan, ask)?;
    Ok(KeptOutside {
        exten: set_of_ranges(given_or(ask.exten, USUAL_EXTEN)),
        caller: set_of_ranges(given_or(ask.caller, USUAL_CALLER)),
        facts: set_of_ranges(given_or(ask.facts, USUAL_FACTS)),
        contexts,
    })
}

/// Whether the dialplan lacks a context with the name.
fn lacks(alloc: Global, plan: &Dialplan, name: &[u8]) -> Result<bool, NoMemory>
    ensures { IfOk result (λ yes. yes ≡ is_none (number_of plan.now name.now)) }
{
    let name = Text::copy_of(alloc, name)?;
    Ok(plan.number_of(&name).is_none())
}

/// Whether the dialplan lacks a context with one of the names.
fn lacks_one(alloc: Global, plan: &Dialplan, names: &[Vec<u8>]) -> Result<bool, NoMemory>
    ensures { IfOk result (λ yes. yes ≡ list_any (λ name. is_none (number_of plan.now name)) (map (λ name. name.items) names.now)) }
{
    for name in names {
        if lacks(alloc, plan, name)? {
            return Ok(true);
        }
    }
    Ok(false)
}

/// Whether the dialplan lacks the target, if one is named.
fn lacks_target(alloc: Global, plan: &Dialplan, target: Option<&[u8]>) -> Result<bool, NoMemory>
    ensures { IfOk result (λ yes. yes
        ≡ list_any (λ name. is_none (number_of plan.now name)) (target_names (option_map (λ text. text.now) target.entry))) }
{
    match target {
        Some(target) => lacks(alloc, plan, target),
        None => Ok(false),
    }
}

/// Whether the dialplan lacks a context with one of the names in the question: that of the context, that of the target, and those where
/// calls come in.
pub(crate) fn is_lacking(
    alloc: Global,
    plan: &Dialplan,
    ask: &Ask<'_>,
    starts: &[Vec<u8>],
) -> Result<bool, NoMemory>
    requires { map (λ name. name.items) starts.now ≡ starts_of plan.now (ask_of ask.now) }
    ensures { IfOk result (λ yes. yes ≡ is_lacking plan.now (ask_of ask.now)) }
{
    if lacks(alloc, plan, ask.context)? {
        return Ok(true);
    }
    if lacks_target(alloc, plan, ask.target)? {
        return Ok(true);
    }
    lacks_one(alloc, plan, starts)
}
