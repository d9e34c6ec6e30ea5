//! Targets that lead nowhere.
ghost use Rattle.std.specs.Prelude.{◌≡◌, ◌++◌, IfOk, OnOk, filter, map};
ghost use Rattle.std.specs.Option.{option_map, option_to_list};
ghost use Rattle.dp_audit.specs.Targets as spec;

use crate::finder::PlanFinder;
use crate::finding::Finding;
use crate::jump::{Jump, JumpParts, Targets, jump_of, parts_of, parts_stand, targets_in};
use dp_conf::read_number;
use dp_pattern::{Name, Parts as NameParts};
use dp_plan::{Entry, EntryId, MOST_PRIORITY, NoMemory, Text};
use std::alloc::Global;

/// The extension of a target: the given one, or the entry's own if its name is plain.
pub fn exten_of<'a>(name: &'a Name, part: &'a [u8]) -> Option<&'a [u8]>
    ensures { option_map (λ exten. exten.now) result ≡ spec.exten_of name.now part.now }
{
    if !part.is_empty() {
        return Some(part);
    }
    match name.parts() {
        NameParts::Plain(text) => Some(text),
        NameParts::Pattern(_, _) => None,
    }
}

/// Whether the number is a priority at which an entry answers.
fn number_leads(finder: &mut PlanFinder<'_>, context: &Text, exten: &[u8], number: u64) -> bool
    ensures leads { result ≡ spec.number_leads finder.old context.now exten.now number }
    ensures same { finder.new ≡ finder.old }
{
    match u32::try_from(number) {
        Ok(number) if number >= 1 && number <= MOST_PRIORITY => {
            finder.answers(context, exten, number)
        }
        _ => false,
    }
}

/// Whether a text names a priority that is found in an extension of a context: the number that it writes, else the priority of the label.
fn priority_leads(finder: &mut PlanFinder<'_>, context: &Text, exten: &[u8], text: &[u8]) -> bool
    ensures leads { result ≡ spec.priority_leads finder.old context.now exten.now text.now }
    ensures same { finder.new ≡ finder.old }
{
    if text.is_empty() {
        return false;
    }
    match read_number(text) {
        Some(number) => number_leads(finder, context, exten, number),
        None => finder.has_label(context, exten, text),
    }
}

/// Whether the priority is found in the given extension of the context, else in the entry's own.
fn exten_leads(
    finder: &mut PlanFinder<'_>,
    own: &Text,
    parts: JumpParts<'_>,
    exten: &[u8],
) -> Result<bool, NoMemory>
    ensures leads { IfOk result (λ leads. leads
        ≡ spec.priority_leads finder.old (spec.part_or own.now parts.entry.context.now) exten.now parts.entry.priority.now) }
    ensures same { finder.new ≡ finder.old }
{
    if parts.context.is_empty() {
        return Ok(priority_leads(finder, own, exten, parts.priority));
    }
    let context = Text::copy_of(finder.alloc(), parts.context)?;
    Ok(priority_leads(finder, &context, exten, parts.priority))
}

/// Whether the parts lead to an entry, from an entry with this name in this context.
fn leads(
    finder: &mut PlanFinder<'_>,
    own: &Text,
    name: &Name,
    parts: Option<JumpParts<'_>>,
) -> Result<bool, NoMemory>
    ensures leads { IfOk result (λ leads. leads
        ≡ spec.leads finder.old own.now name.now (option_map spec.parts_of_jump parts.entry)) }
    ensures same { finder.new ≡ finder.old }
{
    let Some(parts) = parts else {
        return Ok(false);
    };
    match exten_of(name, parts.exten) {
        Some(exten) => exten_leads(finder, own, parts, exten),
        None => Ok(true),
    }
}

/// Whether a target is literal and leads nowhere.
pub(crate) fn is_missing(
    finder: &mut PlanFinder<'_>,
    own: &Text,
    name: &Name,
    jump: Jump,
    text: &[u8],
) -> Result<bool, NoMemory>
    ensures missing { IfOk result (λ missing. missing ≡ spec.is_missing finder.old own.now name.now jump text.now) }
    ensures same { finder.new ≡ finder.old }
{
    let parts = parts_of(jump, text);
    if !parts_stand(text, parts) {
        return Ok(false);
    }
    let leads = leads(finder, own, name, parts)?;
    Ok(!leads)
}

/// The target, if there is one that is literal and leads nowhere.
fn keep_missing<'a>(
    finder: &mut PlanFinder<'_>,
    own: &Text,
    name: &Name,
    jump: Jump,
    target: Option<&'a [u8]>,
) -> Result<Option<&'a [u8]>, NoMemory>
    ensures kept { IfOk result (λ kept. option_map (λ text. text.now) kept
        ≡ spec.if_passes (spec.is_missing finder.old own.now name.now jump) (option_map (λ text. text.now) target.entry)) }
    ensures same { finder.new ≡ finder.old }
{
    let Some(text) = target else {
        return Ok(None);
    };
    let missing = is_missing(finder, own, name, jump, text)?;
    Ok(missing.then_some(text))
}

/// The targets among these that are literal and lead nowhere.
#[tactic(auto, using(crate::proofs::TargetsLemmas::filter_sides))]
fn keep_sides<'a>(
    finder: &mut PlanFinder<'_>,
    own: &Text,
    name: &Name,
    jump: Jump,
    targets: Targets<'a>,
) -> Result<Targets<'a>, NoMemory>
    ensures kept { IfOk result (λ kept. spec.texts_of_targets kept
        ≡ filter (spec.is_missing finder.old own.now name.now jump) (spec.texts_of_targets targets.entry)) }
    ensures same { finder.new ≡ finder.old }
{
    let first = keep_missing(finder, own, name, jump, targets.first)?;
    let second = keep_missing(finder, own, name, jump, targets.second)?;
    Ok(Targets { first, second })
}

/// The targets of an entry of this context that are literal and lead nowhere: at most two.
#[tactic(auto, unfolding(crate::specs::Targets::missing_targets))]
fn missing_targets<'a>(
    finder: &mut PlanFinder<'_>,
    own: &Text,
    entry: &'a Entry,
) -> Result<Targets<'a>, NoMemory>
    ensures missing { IfOk result (λ missing. spec.texts_of_targets missing ≡ spec.missing_targets finder.old own.now entry.now) }
    ensures same { finder.new ≡ finder.old }
{
    let Some(jump) = jump_of(entry.application.bytes()) else {
        return Ok(Targets {
            first: None,
            second: None,
        });
    };
    let targets = targets_in(jump, entry.arguments.text().bytes());
    keep_sides(finder, own, entry.name.name(), jump, targets)
}

/// Adds the target, if there is one.
fn push_target(
    findings: &mut Vec<Finding>,
    alloc: Global,
    id: EntryId,
    target: Option<&[u8]>,
) -> Result<(), NoMemory>
    ensures { OnOk result (findings.new.items ≡ findings.old.items
        ++ map (Finding.NoTarget id) (option_to_list (option_map (λ text. text.now) target.entry))) }
{
    if let Some(text) = target {
        let target = Text::copy_of(alloc, text)?;
        findings.push(Finding::NoTarget { entry: id, target })?;
    }
    Ok(())
}

/// Adds the targets.
#[tactic(auto, using(crate::proofs::TargetsLemmas::map_sides))]
fn push_targets(
    findings: &mut Vec<Finding>,
    alloc: Global,
    id: EntryId,
    targets: Targets<'_>,
) -> Result<(), NoMemory>
    ensures { OnOk result (findings.new.items
        ≡ findings.old.items ++ map (Finding.NoTarget id) (spec.texts_of_targets targets.entry)) }
{
    push_target(findings, alloc, id, targets.first)?;
    push_target(findings, alloc, id, targets.second)?;
    Ok(())
}

/// Adds the targets of an entry of this context that are literal and lead nowhere.
pub(crate) fn push_missing(
    findings: &mut Vec<Finding>,
    finder: &mut PlanFinder<'_>,
    own: &Text,
    id: EntryId,
    entry: &Entry,
) -> Result<(), NoMemory>
    ensures found { OnOk result (findings.new.items ≡ findings.old.items
        ++ map (Finding.NoTarget id) (spec.missing_targets finder.old own.now entry.now)) }
    ensures same { finder.new ≡ finder.old }
{
    let missing = missing_targets(finder, own, entry)?;
    push_targets(findings, finder.alloc(), id, missing)
}
