//! The pieces of a text with groups.
ghost use Rattle.std.specs.Prelude.{◌≡◌, ℕ, List, IfOk};
ghost use Rattle.dp_expr.specs.Expression.{expression_value};
ghost use Rattle.dp_vars.specs.Expanding.{WrittenSoFar};
ghost use Rattle.dp_vars.specs.Functions.{FunctionTable};
ghost use Rattle.dp_vars.specs.Pieces.{past, with_head};
ghost use Rattle.dp_vars.specs.steps.Pieces.{IsGroup};
ghost use Rattle.dp_vars.specs.Sights.{Sight};

use crate::head::{CutPart, Head, read_head};
use crate::part::read_asked;
use crate::span::Span;
use crate::value::Function;
use dp_conf::{GroupKind, NoMemory, cut_outside};
use dp_expr::evaluate;
use std::alloc::Global;
use std::mem::size_of;

/// A function that is not one of the five, given by the places of its name and its argument.
#[derive(Clone, Copy)]
pub(crate) struct OtherCall {
    pub(crate) name: Span,
    pub(crate) argument: Span,
}

/// An expression that contains no group, given by the place of its body, with its value.
#[derive(Drop)]
pub(crate) struct KnownExpression {
    pub(crate) body: Span,
    pub(crate) value: Vec<u8>,
}

/// A piece of a text: plain bytes, the meaning of a group that contains no group, or the beginning or the end of
/// another group.
#[derive(Drop)]
pub(crate) enum TextPiece {
    /// Plain bytes.
    Run(Span),
    /// The variable whose name is at this place.
    Name(Span),
    /// The function whose argument is at this place.
    Call(Function, Span),
    /// Another function.
    Other(Box<OtherCall>),
    /// A part of the value of one of these.
    Part(Box<CutPart>),
    /// An expression with its value.
    Known(Box<KnownExpression>),
    /// A value that is always empty.
    Empty,
    /// An opening. One that is never closed is plain.
    Begins(GroupKind),
    /// The end of the innermost group.
    Ends,
}

// A dialplan has some for each of its lines, so their size matters.
const _: () = prove!(size_of::<TextPiece>() == 24);

/// The whole value of a head.
fn full(alloc: Global, head: Head) -> Result<TextPiece, NoMemory>
    ensures { IfOk result (λ piece. (functions : FunctionTable) (sight : Sight) (text : List ℕ) (written : WrittenSoFar)
        → past functions sight text written piece ≡ with_head functions sight text written head) }
{
    match head {
        Head::Name(name) => Ok(TextPiece::Name(name)),
        Head::Call(function, argument) => Ok(TextPiece::Call(function, argument)),
        Head::Other(name, argument) => {
            let call = Box::new(alloc, OtherCall { name, argument })?;
            Ok(TextPiece::Other(call))
        }
        Head::Empty => Ok(TextPiece::Empty),
    }
}

/// The group in braces whose body is at this place.
fn read_braces(alloc: Global, text: &[u8], place: Span) -> Result<TextPiece, NoMemory>
    ensures { IfOk result (IsGroup text.now GroupKind.Braces place) }
{
    let body = place.of(text);
    match cut_outside(body, b':') {
        None => {
            let piece = full(alloc, read_head(text, place))?;
            Ok(piece)
        }
        Some((head, tail)) => {
            let cut = CutPart {
                head: read_head(text, place.front(head.len())),
                tail: place.after(body.len() - tail.len()),
                asked: read_asked(tail),
            };
            let cut = Box::new(alloc, cut)?;
            Ok(TextPiece::Part(cut))
        }
    }
}

/// The value of an expression.
fn read_constant(alloc: Global, body: &[u8]) -> Result<Vec<u8>, NoMemory>
    ensures { IfOk result (λ bytes. bytes.items ≡ expression_value body.now) }
{
    let value = evaluate(alloc, body)?;
    let mut bytes = Vec::new(alloc);
    value.push_onto(&mut bytes)?;
    Ok(bytes)
}

/// The group in brackets whose body is at this place.
fn read_brackets(alloc: Global, text: &[u8], place: Span) -> Result<TextPiece, NoMemory>
    ensures { IfOk result (IsGroup text.now GroupKind.Brackets place) }
{
    let value = read_constant(alloc, place.of(text))?;
    let known = Box::new(alloc, KnownExpression { body: place, value })?;
    Ok(TextPiece::Known(known))
}

impl TextPiece {
    /// The group of this kind whose body is at this place and contains no group.
    pub(crate) fn read(
        alloc: Global,
        text: &[u8],
        kind: GroupKind,
        body: Span,
    ) -> Result<Self, NoMemory>
        ensures { IfOk result (IsGroup text.now kind body) }
    {
        match kind {
            GroupKind::Braces => read_braces(alloc, text, body),
            GroupKind::Brackets => read_brackets(alloc, text, body),
        }
    }
}
