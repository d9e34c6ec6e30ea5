//! The name of an entry's line.
ghost use Rattle.std.specs.Prelude.{◌≡◌};
ghost use Rattle.dp_conf.specs.Answers.{Answers};
ghost use Rattle.dp_plan.specs.EntryLine as spec;
ghost use Rattle.dp_plan.specs.Faults.{name_at_line};
ghost use Rattle.dp_plan.specs.steps.ItemFaults.{item_reason};
ghost use Rattle.dp_pattern.specs.Name.{meaning_of};

use crate::fault::{ItemFault, LoadKind, PlanKind, Word, fault};
use crate::shared_name::SharedName;
use dp_conf::{FaultyLine, TakeFault};
use dp_pattern::{Name, PatternFault};
use std::alloc::Global;

/// Whether the text contains a `${`.
fn has_variable(text: &[u8]) -> bool
    ensures { result ≡ spec.has_variable text.now }
{
    // Few names contain a `$`, and the search for a single byte is faster.
    if !text.contains(&b'$') {
        return false;
    }
    let mut left = text;
    while let Some((byte, rest)) = left.split_first() {
        if *byte == b'$' && rest.first() == Some(&b'{') {
            return true;
        }
        left = rest;
    }
    false
}

/// The name that the text means.
fn name_at(alloc: Global, line: usize, text: &[u8]) -> Result<Name, ItemFault>
    ensures { Answers (λ name. name) item_reason result (name_at_line line (meaning_of text.now)) }
{
    match Name::read(alloc, text) {
        Ok(name) => Ok(name),
        Err(PatternFault::Name(fault)) => {
            let kind = LoadKind::Pattern(fault);
            Err(TakeFault::Line(FaultyLine { line, kind }))
        }
        Err(PatternFault::NoMemory) => Err(TakeFault::NoMemory),
    }
}

/// The name of a line.
#[tactic(auto, unfolding(crate::specs::EntryLine::name_of))]
pub(crate) fn read_name(alloc: Global, line: usize, text: &[u8]) -> Result<SharedName, ItemFault>
    ensures { Answers (λ name. name) item_reason result (spec.name_of line text.now) }
{
    if has_variable(text) {
        return Err(fault(line, PlanKind::LeftOut(Word::Variable)));
    }
    if text.contains(&b'/') {
        return Err(fault(line, PlanKind::LeftOut(Word::CallerId)));
    }
    let name = name_at(alloc, line, text)?;
    let name = SharedName::new(alloc, name)?;
    if has_variable(name.spelling()) {
        return Err(fault(line, PlanKind::LeftOut(Word::Variable)));
    }
    Ok(name)
}
