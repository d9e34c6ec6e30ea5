//! The value of a body in braces, after the Asterisk documentation's page on variables.
ghost use Rattle.std.specs.Prelude.{◌≡◌, [], ◌++◌, ◌<◌, ◌^◌, IfOk, OnOk, codes, length, true};
ghost use Rattle.std.specs.String.{string_bytes};
ghost use Rattle.std.specs.Fmt.{decimal};
ghost use Rattle.dp_conf.specs.Cut as cuts;
ghost use Rattle.dp_conf.specs.Levels.{cut_outside};
ghost use Rattle.dp_vars.specs.Parts.{part};
ghost use Rattle.dp_vars.specs.Shown.{name_bytes, value_bytes};
ghost use Rattle.dp_vars.specs.Sights as sights;
ghost use Rattle.dp_vars.specs.steps.Told as told;
ghost use Rattle.dp_vars.specs.Values as values;
ghost use Rattle.dp_vars.specs.Variables.{value_or_empty};

use crate::functions::{FunctionName, FunctionValue, Functions};
use crate::part::{Selection, part, read_asked};
use crate::scope::{Counts, Scope};
use crate::value::{FoundValue, variable};
use dp_conf::{NoMemory, before_last, cut_once, cut_outside};
use std::alloc::Global;

/// The value of a head, and whether the head is known.
#[derive(Drop)]
pub(crate) struct Called<'a> {
    pub(crate) value: FoundValue<'a>,
    pub(crate) is_known: bool,
}

/// The value of a head, and the requested part of it.
#[derive(Drop)]
pub(crate) struct Reference<'a> {
    pub(crate) called: Called<'a>,
    pub(crate) asked: Selection,
}

/// The value of a function with an argument.
#[inline(always)]
pub(crate) fn called_value<'a, F: Functions, B, C: Counts>(
    alloc: Global,
    scope: &Scope<'a, B, C>,
    name: FunctionName<'_>,
    argument: &[u8],
) -> Result<Called<'a>, NoMemory>
    ensures value { IfOk result (λ called. value_bytes called.value
        ≡ F.table.value (sights.sight_of C.count scope.now) (name_bytes name.entry) argument.now) }
    ensures known { IfOk result (λ called. called.is_known
        ≡ F.table.knows (sights.sight_of C.count scope.now) (name_bytes name.entry) argument.now) }
{
    let FunctionValue { value, is_known } = F::value(alloc, scope, name, argument)?;
    Ok(Called { value, is_known })
}

/// The value of a variable.
#[inline(always)]
pub(crate) fn named_value<'a, F: Functions, B, C: Counts>(
    scope: &Scope<'a, B, C>,
    name: &[u8],
) -> Called<'a>
    ensures value { value_bytes result.value ≡ F.table.variable (sights.sight_of C.count scope.now) name.now }
    ensures known { result.is_known ≡ F.table.knows_name (sights.sight_of C.count scope.now) name.now }
{
    Called {
        value: F::variable(scope, name),
        is_known: F::knows_name(scope, name),
    }
}

/// The value of a call whose argument has no end: it is empty.
#[inline(always)]
pub(crate) fn no_value<'a>() -> Called<'a>
    ensures value { value_bytes result.value ≡ [] }
    ensures known { result.is_known ≡ true }
{
    Called {
        value: FoundValue::Bytes(b""),
        is_known: true,
    }
}

/// The value of a function, given its name and the text after the `(`.
fn call_value<'a, F: Functions, B, C: Counts>(
    alloc: Global,
    scope: &Scope<'a, B, C>,
    name: &[u8],
    after: &[u8],
) -> Result<Called<'a>, NoMemory>
    ensures value { IfOk result (λ called. value_bytes called.value
        ≡ values.call_argument_with F.table (sights.sight_of C.count scope.now) name.now (cuts.before_last 41 after.now)) }
    ensures known { IfOk result (λ called. called.is_known
        ≡ told.knows_call F.table (sights.sight_of C.count scope.now) name.now (cuts.before_last 41 after.now)) }
{
    match before_last(after, b')') {
        Some(argument) => called_value::<F, B, C>(alloc, scope, FunctionName::of(name), argument),
        None => Ok(no_value()),
    }
}

/// The value of a variable, or of a function if there is a `(`.
#[tactic(auto, unfolding(crate::specs::Values::head_value_with, crate::specs::steps::Told::knows_head))]
fn head_value<'a, F: Functions, B, C: Counts>(
    alloc: Global,
    scope: &Scope<'a, B, C>,
    head: &[u8],
) -> Result<Called<'a>, NoMemory>
    ensures value { IfOk result (λ called. value_bytes called.value
        ≡ values.head_value_with F.table (sights.sight_of C.count scope.now) head.now) }
    ensures known { IfOk result (λ called. called.is_known
        ≡ told.knows_head F.table (sights.sight_of C.count scope.now) head.now) }
{
    match cut_once(head, b'(') {
        None => Ok(named_value::<F, B, C>(scope, head)),
        Some((name, after)) => call_value::<F, B, C>(alloc, scope, name, after),
    }
}

/// The reference of a body in braces.
pub(crate) fn read_reference<'a, F: Functions, B, C: Counts>(
    alloc: Global,
    scope: &Scope<'a, B, C>,
    body: &[u8],
) -> Result<Reference<'a>, NoMemory>
    ensures value { IfOk result (λ reference. length (value_bytes reference.called.value) < 2 ^ 64
        → part reference.asked (value_bytes reference.called.value)
        ≡ values.body_by_with F.table (sights.sight_of C.count scope.now) body.now (cut_outside 58 body.now)) }
    ensures known { IfOk result (λ reference. reference.called.is_known
        ≡ told.knows_body F.table (sights.sight_of C.count scope.now) body.now (cut_outside 58 body.now)) }
{
    match cut_outside(body, b':') {
        None => {
            let called = head_value::<F, B, C>(alloc, scope, body)?;
            Ok(Reference {
                called,
                asked: Selection::Whole,
            })
        }
        Some((head, tail)) => {
            let called = head_value::<F, B, C>(alloc, scope, head)?;
            Ok(Reference {
                called,
                asked: read_asked(tail),
            })
        }
    }
}

/// Adds bytes. Many runs of a text and many values are a single byte, which is added without a call that copies memory.
#[inline(always)]
pub(crate) fn push_bytes(out: &mut Vec<u8>, bytes: &[u8]) -> Result<(), NoMemory>
    ensures { OnOk result (out.new.items ≡ out.old.items ++ bytes.now) }
{
    match bytes {
        [byte] => {
            out.push(*byte)?;
            Ok(())
        }
        _ => out.extend_from_slice(bytes),
    }
}

/// Adds the requested part of some bytes.
#[inline(always)]
fn push_part(out: &mut Vec<u8>, value: &[u8], asked: Selection) -> Result<(), NoMemory>
    ensures ok { OnOk result (out.new.items ≡ out.old.items ++ part asked value.now) }
    ensures small { length value.now < 2 ^ 64 }
{
    push_bytes(out, part(value, asked))
}

/// Adds the requested part of a value. Most values are bytes that exist elsewhere, so these need no call.
#[inline(always)]
pub(crate) fn push_value(
    alloc: Global,
    out: &mut Vec<u8>,
    value: FoundValue<'_>,
    asked: Selection,
) -> Result<(), NoMemory>
    ensures ok { OnOk result (out.new.items ≡ out.old.items ++ part asked (value_bytes value.entry)) }
    ensures small { OnOk result (length (value_bytes value.entry) < 2 ^ 64) }
{
    match value {
        FoundValue::Bytes(bytes) => push_part(out, bytes, asked),
        made => push_made(alloc, out, made, asked),
    }
}

/// The same for a value that is made.
fn push_made(
    alloc: Global,
    out: &mut Vec<u8>,
    value: FoundValue<'_>,
    asked: Selection,
) -> Result<(), NoMemory>
    ensures ok { OnOk result (out.new.items ≡ out.old.items ++ part asked (value_bytes value.entry)) }
    ensures small { OnOk result (length (value_bytes value.entry) < 2 ^ 64) }
{
    match value {
        FoundValue::Bytes(bytes) => push_part(out, bytes, asked),
        FoundValue::Number(number) => {
            let text = format!(in alloc; "{number}")?;
            push_part(out, text.as_bytes(), asked)
        }
        FoundValue::Channel(number) => {
            let text = format!(in alloc; "Channel/{number}")?;
            push_part(out, text.as_bytes(), asked)
        }
        FoundValue::Owned(bytes) => push_part(out, &bytes, asked),
    }
}

/// The value of a name: what the channel gives, the local of the innermost frame that has one with the name, the
/// channel's variable, or the global; the empty text if none of them has the name.
///
/// It fails only if memory runs out.
pub fn value_of<B, C>(
    alloc: Global,
    scope: &Scope<'_, B, C>,
    name: &[u8],
) -> Result<Vec<u8>, NoMemory>
    ensures { IfOk result (λ value. value.items ≡ value_or_empty (sights.maps_of scope.now) name.now) }
{
    let mut out = Vec::new(alloc);
    push_value(alloc, &mut out, variable(scope, name), Selection::Whole)?;
    Ok(out)
}
