//! The names of what is not known: of a variable, of a call, or of an expression, as written in a text.
ghost use Rattle.std.specs.Prelude.{◌≡◌, [], IfOk, OnOk, if◌then◌else◌};
ghost use Rattle.dp_conf.specs.Cut.{before_last};
ghost use Rattle.dp_conf.specs.Levels.{cut_outside};
ghost use Rattle.dp_vars.specs.steps.Told as told;
ghost use Rattle.dp_vars.specs.Unknown as unknown;

use crate::head::{Head, head_name_at};
use dp_conf::{NoMemory, before_last, cut_once, cut_outside};
use dp_expr::ExpressionReading;
use std::alloc::Global;

/// A call as written in a text.
pub(crate) fn call_text(alloc: Global, name: &[u8], argument: &[u8]) -> Result<Vec<u8>, NoMemory>
    ensures { IfOk result (λ text. text.items ≡ unknown.call_text name.now argument.now) }
{
    let mut text = Vec::from_slice(alloc, name)?;
    text.push(b'(')?;
    text.extend_from_slice(argument)?;
    text.push(b')')?;
    Ok(text)
}

/// The name of a call, given the text after the `(`.
fn call_name(alloc: Global, name: &[u8], after: &[u8]) -> Result<Vec<u8>, NoMemory>
    ensures { IfOk result (λ text. text.items ≡ told.call_name name.now (before_last 41 after.now)) }
{
    match before_last(after, b')') {
        Some(argument) => call_text(alloc, name, argument),
        None => Ok(Vec::new(alloc)),
    }
}

/// The name of a head.
#[tactic(auto, unfolding(crate::specs::steps::Told::head_name))]
fn head_name(alloc: Global, head: &[u8]) -> Result<Vec<u8>, NoMemory>
    ensures { IfOk result (λ text. text.items ≡ told.head_name head.now) }
{
    match cut_once(head, b'(') {
        None => Vec::from_slice(alloc, head),
        Some((name, after)) => call_name(alloc, name, after),
    }
}

/// The name of what a body in braces refers to.
pub(crate) fn body_name(alloc: Global, body: &[u8]) -> Result<Vec<u8>, NoMemory>
    ensures { IfOk result (λ text. text.items ≡ told.body_name body.now (cut_outside 58 body.now)) }
{
    match cut_outside(body, b':') {
        None => head_name(alloc, body),
        Some((head, _)) => head_name(alloc, head),
    }
}

/// An expression as written in a text.
fn expression_text(alloc: Global, body: &[u8]) -> Result<Vec<u8>, NoMemory>
    ensures { IfOk result (λ text. text.items ≡ unknown.expression_text body.now) }
{
    let mut text = Vec::from_slice(alloc, b"$[")?;
    text.extend_from_slice(body)?;
    text.push(b']')?;
    Ok(text)
}

/// Keeps the name if it is the first that is not known.
fn note(noted: &mut Vec<u8>, name: Vec<u8>)
    ensures { noted.new.items ≡ unknown.earlier noted.old.items name.items }
{
    if noted.is_empty() {
        *noted = name;
    }
}

/// Keeps the name of what a body refers to, if it is the first that is not known.
pub(crate) fn note_body(
    alloc: Global,
    noted: &mut Vec<u8>,
    body: &[u8],
    is_known: bool,
) -> Result<(), NoMemory>
    ensures { OnOk result (noted.new.items
        ≡ unknown.earlier noted.old.items (if is_known then [] else told.body_name body.now (cut_outside 58 body.now))) }
{
    if is_known {
        return Ok(());
    }
    note(noted, body_name(alloc, body)?);
    Ok(())
}

/// Keeps the name of a head in a text, if it is the first that is not known.
#[inline(always)]
pub(crate) fn note_head(
    alloc: Global,
    noted: &mut Vec<u8>,
    text: &[u8],
    head: Head,
    is_known: bool,
) -> Result<(), NoMemory>
    ensures { OnOk result (noted.new.items
        ≡ unknown.earlier noted.old.items (if is_known then [] else told.name_seen text.now head)) }
{
    if is_known {
        return Ok(());
    }
    note(noted, head_name_at(alloc, text, head)?);
    Ok(())
}

/// Keeps an expression as written, if it is the first that is not known.
#[inline(always)]
pub(crate) fn note_expression(
    alloc: Global,
    noted: &mut Vec<u8>,
    body: &[u8],
    reading: ExpressionReading,
) -> Result<(), NoMemory>
    ensures { OnOk result (noted.new.items ≡ unknown.earlier noted.old.items (unknown.unknown_expression reading body.now)) }
{
    match reading {
        ExpressionReading::Value | ExpressionReading::Zero => Ok(()),
        ExpressionReading::Unknown => {
            note(noted, expression_text(alloc, body)?);
            Ok(())
        }
    }
}
