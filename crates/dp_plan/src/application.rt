//! The application of an entry's line.
ghost use Rattle.std.specs.Prelude.{◌≡◌, MatchOption, None, Some};
ghost use Rattle.std.specs.Option.{option_map};
ghost use Rattle.dp_conf.specs.Answers.{Answers};
ghost use Rattle.dp_conf.specs.Cut as cuts;
ghost use Rattle.dp_plan.specs.EntryLine as spec;
ghost use Rattle.dp_plan.specs.steps.ItemFaults.{item_reason};

use crate::fault::{ItemFault, PlanKind, Word, fault};
use dp_conf::{ShallowText, cut_once, trim};
use std::alloc::Global;

/// An application as written in a line: its name and its arguments.
#[derive(Clone, Copy)]
pub(crate) struct ApplicationCall<'a> {
    pub(crate) name: &'a [u8],
    pub(crate) arguments: &'a [u8],
}

/// The text without its last byte, if that is a `)`.
pub(crate) fn before_closing(text: &[u8]) -> Option<&[u8]>
    ensures { MatchOption result (spec.without_last 41 text.now ≡ None)
        (λ front. spec.without_last 41 text.now ≡ Some front.now) }
{
    let (last, front) = text.split_last()?;
    if *last != b')' {
        return None;
    }
    Some(front)
}

/// The text before the first `(` of an application, and the text between that and a final `)`.
#[inline(always)]
fn application_parts(text: &[u8]) -> (&[u8], Option<&[u8]>)
    ensures { spec.application_parts text.now (cuts.cut_once 40 text.now)
        ≡ (result.0.now, option_map (λ arguments. arguments.now) result.1) }
{
    match cut_once(text, b'(') {
        None => (text, Some(&text[..0])),
        Some((before, after)) => (before, before_closing(after)),
    }
}

/// The application of a line, written `name` or `name(arguments)`.
#[tactic(auto, unfolding(crate::specs::EntryLine::application_of))]
#[inline(always)]
pub(crate) fn read_application(text: &[u8]) -> Result<ApplicationCall<'_>, PlanKind>
    ensures { spec.application_of text.now ≡ spec.called_now result }
{
    let (name, arguments) = application_parts(text);
    if name.contains(&b',') {
        return Err(PlanKind::LeftOut(Word::OldForm));
    }
    let name = trim(name);
    if name.is_empty() {
        return Err(PlanKind::BadApplication);
    }
    match arguments {
        Some(arguments) => Ok(ApplicationCall { name, arguments }),
        None => Err(PlanKind::BadApplication),
    }
}

/// A copy of a text that is expanded later: the arguments of an application or the value of a global variable.
#[inline(always)]
pub(crate) fn read_shallow(
    alloc: Global,
    line: usize,
    text: &[u8],
) -> Result<ShallowText, ItemFault>
    ensures { Answers (λ shallow. shallow) item_reason result (spec.shallow_at line text.now) }
{
    match ShallowText::read(alloc, text)? {
        Some(shallow) => Ok(shallow),
        None => Err(fault(line, PlanKind::TooDeep)),
    }
}
