//! Variables and functions whose names are known before any expansion, so that they are read only once.
ghost use Rattle.std.specs.Prelude.{◌≡◌, ◌++◌, IfOk, OnOk};
ghost use Rattle.dp_conf.specs.Cut.{before_last};
ghost use Rattle.dp_vars.specs.Functions.{FunctionTable};
ghost use Rattle.dp_vars.specs.Heads as spec;
ghost use Rattle.dp_vars.specs.Shown.{value_bytes};
ghost use Rattle.dp_vars.specs.Sights.{Sight, sight_of};
ghost use Rattle.dp_vars.specs.Spans.{text_at};
ghost use Rattle.dp_vars.specs.steps.Told.{knows_seen, name_seen};
ghost use Rattle.dp_vars.specs.Values as values;

use crate::functions::{FunctionName, Functions};
use crate::naming::call_text;
use crate::part::Selection;
use crate::reference::{Called, called_value, named_value, no_value, push_value};
use crate::scope::{Counts, Scope};
use crate::span::Span;
use crate::value::{Function, function_name, function_of};
use dp_conf::{NoMemory, before_last, cut_once};
use std::alloc::Global;

/// A variable or a function, given by places in the text.
#[derive(Clone, Copy)]
pub(crate) enum Head {
    /// The variable whose name is at this place.
    Name(Span),
    /// The function whose argument is at this place.
    Call(Function, Span),
    /// Another function, whose name and argument are at these places.
    Other(Span, Span),
    /// A function whose argument has no end.
    Empty,
}

/// A part of the value of a head, with the text after the cut.
#[derive(Clone, Copy)]
pub(crate) struct CutPart {
    pub(crate) head: Head,
    pub(crate) tail: Span,
    pub(crate) asked: Selection,
}

/// The function whose name is at this place, with its argument from the text after the `(`.
fn read_call(text: &[u8], name: Span, after: Span) -> Head
    ensures { (functions : FunctionTable) (sight : Sight) → spec.head_seen functions sight text.now result
        ≡ values.call_argument_with functions sight (text_at text.now name) (before_last 41 (text_at text.now after)) }
{
    match before_last(after.of(text), b')') {
        None => Head::Empty,
        Some(argument) => {
            let argument = after.front(argument.len());
            match function_of(name.of(text)) {
                Some(function) => Head::Call(function, argument),
                None => Head::Other(name, argument),
            }
        }
    }
}

/// The head at this place.
pub(crate) fn read_head(text: &[u8], place: Span) -> Head
    ensures { (functions : FunctionTable) (sight : Sight)
        → spec.head_seen functions sight text.now result ≡ values.head_value_with functions sight (text_at text.now place) }
{
    let head = place.of(text);
    match cut_once(head, b'(') {
        None => Head::Name(place),
        Some((name, after)) => {
            let rest = place.after(head.len() - after.len());
            read_call(text, place.front(name.len()), rest)
        }
    }
}

/// The current value of a head.
#[inline(always)]
fn head_now<'a, F: Functions, B, C: Counts>(
    alloc: Global,
    scope: &Scope<'a, B, C>,
    text: &[u8],
    head: Head,
) -> Result<Called<'a>, NoMemory>
    ensures value { IfOk result (λ called. value_bytes called.value ≡ spec.head_seen F.table (sight_of C.count scope.now) text.now head) }
    ensures known { IfOk result (λ called. called.is_known ≡ knows_seen F.table (sight_of C.count scope.now) text.now head) }
{
    match head {
        Head::Name(name) => Ok(named_value::<F, B, C>(scope, name.of(text))),
        Head::Call(function, argument) => {
            let name = FunctionName::Known(function);
            called_value::<F, B, C>(alloc, scope, name, argument.of(text))
        }
        Head::Other(name, argument) => {
            let name = FunctionName::Other(name.of(text));
            called_value::<F, B, C>(alloc, scope, name, argument.of(text))
        }
        Head::Empty => Ok(no_value()),
    }
}

/// The name of a head.
pub(crate) fn head_name_at(alloc: Global, text: &[u8], head: Head) -> Result<Vec<u8>, NoMemory>
    ensures { IfOk result (λ name. name.items ≡ name_seen text.now head) }
{
    match head {
        Head::Name(name) => Vec::from_slice(alloc, name.of(text)),
        Head::Call(function, argument) => {
            call_text(alloc, function_name(function), argument.of(text))
        }
        Head::Other(name, argument) => call_text(alloc, name.of(text), argument.of(text)),
        Head::Empty => Ok(Vec::new(alloc)),
    }
}

/// Adds a part of the value of a head, and returns whether the head is known.
#[inline(always)]
pub(crate) fn push_cut<F: Functions, B, C: Counts>(
    alloc: Global,
    scope: &Scope<'_, B, C>,
    text: &[u8],
    cut: CutPart,
    out: &mut Vec<u8>,
) -> Result<bool, NoMemory>
    ensures value { OnOk result (out.new.items
        ≡ out.old.items ++ spec.part_seen text.now cut (spec.head_seen F.table (sight_of C.count scope.now) text.now cut.head)) }
    ensures known { IfOk result (λ is_known. is_known ≡ knows_seen F.table (sight_of C.count scope.now) text.now cut.head) }
{
    let Called { value, is_known } = head_now::<F, B, C>(alloc, scope, text, cut.head)?;
    push_value(alloc, out, value, cut.asked)?;
    Ok(is_known)
}

/// Adds the whole value of a head, and returns whether the head is known.
#[inline(always)]
pub(crate) fn push_full<F: Functions, B, C: Counts>(
    alloc: Global,
    scope: &Scope<'_, B, C>,
    text: &[u8],
    head: Head,
    out: &mut Vec<u8>,
) -> Result<bool, NoMemory>
    ensures value { OnOk result (out.new.items ≡ out.old.items ++ spec.head_seen F.table (sight_of C.count scope.now) text.now head) }
    ensures known { IfOk result (λ is_known. is_known ≡ knows_seen F.table (sight_of C.count scope.now) text.now head) }
{
    let Called { value, is_known } = head_now::<F, B, C>(alloc, scope, text, head)?;
    push_value(alloc, out, value, Selection::Whole)?;
    Ok(is_known)
}
