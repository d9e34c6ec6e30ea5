//! A text during its expansion, in one pass without recursion.
ghost use Rattle.std.specs.Option.{option_map, option_or};
ghost use Rattle.std.specs.Prelude.{◌≡◌, ◌+◌, ◌≤◌, [], ◌∷◌, ◌++◌, IfOk, OnOk, drop, length, take, vec_len};
ghost use Rattle.dp_conf.specs.Groups as groups;
ghost use Rattle.dp_conf.specs.GroupsRead.{first_of};
ghost use Rattle.dp_conf.specs.declared.groups.GroupKind.TheVariants as kinds;
ghost use Rattle.dp_vars.specs.Expanding as steps;
ghost use Rattle.dp_vars.specs.steps.Expanding as steps_steps;
ghost use Rattle.dp_vars.specs.Pieces.{blank, past, past_all, with_cut, with_expression, with_head};
ghost use Rattle.dp_vars.specs.Sights as sights;
ghost use Rattle.dp_vars.specs.Unknown.{any_text, earlier, unknown_group};
ghost use Rattle.dp_vars.specs.Unknown as unknowns;
ghost use Rattle.dp_vars.specs.Values as values;

use crate::functions::Functions;
use crate::head::{CutPart, Head, push_cut, push_full};
use crate::naming::{note_body, note_expression, note_head};
use crate::opening::has_opening;
use crate::reference::{Called, Reference, push_bytes, push_value, read_reference};
use crate::scope::{Counts, Scope};
use crate::text_piece::{KnownExpression, OtherCall, TextPiece};
use dp_conf::{GroupKind, Mark, NoMemory};
use dp_expr::{ExpressionReading, Value, evaluate};
use smallvec::SmallVec;
use std::alloc::Global;
use std::marker::Model;

/// An opening that waits for its end, with the place of its `$` in what is written.
#[derive(Clone, Copy)]
pub(crate) struct WaitingOpening {
    kind: GroupKind,
    start: usize,
}

impl Default for WaitingOpening {
    ghost is_default = { λ waiting. waiting ≡ record { kind = kinds.Braces; start = 0 } };

    fn default() -> Self {
        WaitingOpening {
            kind: GroupKind::Braces,
            start: 0,
        }
    }
}

/// An expanded text, and the first name, call or expression in it that is not known, such as `DB(a/b)`, or the text before its expansion if
/// it is read with other groups.
#[derive(Drop)]
pub struct Expanded {
    pub bytes: Vec<u8>,
    pub unknown: Option<Vec<u8>>,
}

/// The text, if the table reads other groups in it than this program does.
#[inline(always)]
fn read_otherwise<F: Functions>(alloc: Global, text: &[u8]) -> Result<Option<Vec<u8>>, NoMemory>
    ensures { IfOk result (λ otherwise. option_map (λ bytes. bytes.items) otherwise ≡ unknowns.read_otherwise F.table text.now) }
{
    if F::reads(alloc, text)? || !has_opening(text) {
        return Ok(None);
    }
    let text = Vec::from_slice(alloc, text)?;
    Ok(Some(text))
}

impl Expanded {
    /// The expansion of this text. The text itself is not known if the table reads other groups in it.
    #[inline(always)]
    pub(crate) fn of<F: Functions>(self, alloc: Global, text: &[u8]) -> Result<Self, NoMemory>
        ensures bytes { IfOk result (λ expanded. expanded.bytes.items ≡ self.bytes.items) }
        ensures unknown { IfOk result (λ expanded. option_map (λ bytes. bytes.items) expanded.unknown
            ≡ option_or (unknowns.read_otherwise F.table text.now) (option_map (λ bytes. bytes.items) self.unknown)) }
    {
        match read_otherwise::<F>(alloc, text)? {
            None => Ok(self),
            Some(text) => {
                let Expanded { bytes, unknown: _ } = self;
                Ok(Expanded {
                    bytes,
                    unknown: Some(text),
                })
            }
        }
    }
}

/// The bytes, if there are any.
fn any_text(bytes: Vec<u8>) -> Option<Vec<u8>>
    ensures { option_map (λ text. text.items) result ≡ any_text bytes.items }
{
    if bytes.is_empty() { None } else { Some(bytes) }
}

/// What is written so far, and the openings in it that wait, of which the first two need no memory on the heap. An opening that is never
/// closed is already written as plain bytes.
#[derive(Drop)]
pub(crate) struct Expanding {
    bytes: Vec<u8>,
    waiting: SmallVec<WaitingOpening, 2>,
    /// The first name, call or expression that is not known, or no bytes.
    unknown: Vec<u8>,
}

impl Model for Expanding {
    ghost use Rattle.std.specs.Prelude.{reverse};
    ghost use Rattle.dp_vars.specs.Expanding.{WrittenSoFar};

    ghost Value = { WrittenSoFar };

    ghost view = { λ expanding. record {
      bytes = expanding.bytes.items;
      waiting = reverse expanding.waiting.items;
      unknown = expanding.unknown.items;
    } };
}

/// Replaces the group with the value of a body in braces, and keeps the name to which the body refers if it is the first one that is not
/// known.
fn put_reference<F: Functions, B, C: Counts>(
    alloc: Global,
    scope: &Scope<'_, B, C>,
    bytes: &mut Vec<u8>,
    noted: &mut Vec<u8>,
    start: usize,
) -> Result<(), NoMemory>
    requires { start + 2 ≤ vec_len bytes.old }
    ensures value { OnOk result (bytes.new.items ≡ take start bytes.old.items
        ++ values.group_value_with F.table (sights.sight_of C.count scope.now) GroupKind.Braces (drop (start + 2) bytes.old.items)) }
    ensures unknown { OnOk result (noted.new.items ≡ earlier noted.old.items
        (unknown_group F.table (sights.sight_of C.count scope.now) GroupKind.Braces (drop (start + 2) bytes.old.items))) }
{
    let body = bytes.split_at(start + 2).1;
    let reference = read_reference::<F, B, C>(alloc, scope, body)?;
    let Reference { called, asked } = reference;
    let Called { value, is_known } = called;
    note_body(alloc, noted, body, is_known)?;
    bytes.truncate(start);
    push_value(alloc, bytes, value, asked)?;
    Ok(())
}

/// The value of the group in braces with this body, and the name or the call in it that is not known. Groups within the body are not
/// expanded.
///
/// It fails only if memory runs out.
#[tactic(auto, unfolding(crate::specs::Unknown::unknown_group, crate::specs::Values::group_value_with))]
pub fn group_value<F: Functions, B, C: Counts>(
    alloc: Global,
    scope: &Scope<'_, B, C>,
    body: &[u8],
) -> Result<Expanded, NoMemory>
    ensures bytes { IfOk result (λ expanded. expanded.bytes.items
        ≡ values.group_value_with F.table (sights.sight_of C.count scope.now) GroupKind.Braces body.now) }
    ensures unknown { IfOk result (λ expanded. option_map (λ bytes. bytes.items) expanded.unknown
        ≡ any_text (unknown_group F.table (sights.sight_of C.count scope.now) GroupKind.Braces body.now)) }
{
    let reference = read_reference::<F, B, C>(alloc, scope, body)?;
    let Reference { called, asked } = reference;
    let Called { value, is_known } = called;
    let mut noted = Vec::new(alloc);
    note_body(alloc, &mut noted, body, is_known)?;
    let mut bytes = Vec::new(alloc);
    push_value(alloc, &mut bytes, value, asked)?;
    let unknown = any_text(noted);
    Ok(Expanded { bytes, unknown })
}

/// Adds the result of an expression, given its value and how the table reads it.
fn push_expression(
    out: &mut Vec<u8>,
    value: &Value,
    reading: ExpressionReading,
) -> Result<(), NoMemory>
    ensures { OnOk result (out.new.items ≡ out.old.items ++ values.value_read reading value.now) }
{
    match reading {
        ExpressionReading::Value | ExpressionReading::Unknown => value.push_onto(out),
        ExpressionReading::Zero => {
            out.push(b'0')?;
            Ok(())
        }
    }
}

/// Replaces the group with the value of a body in brackets, and keeps the expression if it is the first one that is not known.
#[inline(always)]
fn put_expression<F: Functions>(
    alloc: Global,
    bytes: &mut Vec<u8>,
    noted: &mut Vec<u8>,
    start: usize,
) -> Result<(), NoMemory>
    requires { start + 2 ≤ vec_len bytes.old }
    ensures value { OnOk result ((sight : sights.Sight) → bytes.new.items ≡ take start bytes.old.items
        ++ values.group_value_with F.table sight GroupKind.Brackets (drop (start + 2) bytes.old.items)) }
    ensures unknown { OnOk result ((sight : sights.Sight) → noted.new.items ≡ earlier noted.old.items
        (unknown_group F.table sight GroupKind.Brackets (drop (start + 2) bytes.old.items))) }
{
    let body = bytes.split_at(start + 2).1;
    let reading = F::expression(alloc, body)?;
    note_expression(alloc, noted, body, reading)?;
    let value = evaluate(alloc, body)?;
    bytes.truncate(start);
    push_expression(bytes, &value, reading)?;
    Ok(())
}

/// Replaces a group with its value, and keeps what is not known in it if that is the first.
fn put_value<F: Functions, B, C: Counts>(
    alloc: Global,
    scope: &Scope<'_, B, C>,
    bytes: &mut Vec<u8>,
    noted: &mut Vec<u8>,
    waiting: WaitingOpening,
) -> Result<(), NoMemory>
    requires { waiting.start + 2 ≤ vec_len bytes.old }
    ensures value { OnOk result (bytes.new.items ≡ steps.with_value F.table (sights.sight_of C.count scope.now) waiting bytes.old.items) }
    ensures unknown { OnOk result (noted.new.items ≡ earlier noted.old.items
        (unknown_group F.table (sights.sight_of C.count scope.now) waiting.kind (steps.body_in waiting bytes.old.items))) }
{
    match waiting.kind {
        GroupKind::Braces => put_reference::<F, B, C>(alloc, scope, bytes, noted, waiting.start),
        GroupKind::Brackets => put_expression::<F>(alloc, bytes, noted, waiting.start),
    }
}

/// The byte after the `$` of an opening.
fn opener(kind: GroupKind) -> u8
    ensures { result ≡ groups.opener kind }
{
    match kind {
        GroupKind::Braces => b'{',
        GroupKind::Brackets => b'[',
    }
}

impl Expanding {
    /// An empty expansion with room for this many bytes.
    pub(crate) fn with_room(alloc: Global, room: usize) -> Result<Self, NoMemory>
        ensures { IfOk result (λ expanding. expanding ≡ blank) }
    {
        let bytes = Vec::with_capacity(alloc, room)?;
        Ok(Expanding {
            bytes,
            waiting: SmallVec::new(alloc),
            unknown: Vec::new(alloc),
        })
    }

    /// The kind of the innermost waiting opening.
    pub(crate) fn innermost(&self) -> Option<GroupKind>
        ensures { result ≡ first_of (steps_steps.kinds_of self.now.waiting) }
    {
        match self.waiting.as_slice().last() {
            Some(waiting) => Some(waiting.kind),
            None => None,
        }
    }

    /// Writes an opening, which waits from now on.
    #[inline(always)]
    fn open(&mut self, kind: GroupKind) -> Result<(), NoMemory>
        ensures { OnOk result (self.new ≡ record {
          bytes = self.old.bytes ++ 36 ∷ groups.opener kind ∷ [];
          waiting = record { kind = kind; start = length self.old.bytes } ∷ self.old.waiting;
          unknown = self.old.unknown;
        }) }
    {
        let start = self.bytes.len();
        self.waiting.push(WaitingOpening { kind, start })?;
        self.bytes.push(b'$')?;
        self.bytes.push(opener(kind))?;
        Ok(())
    }

    /// Closes the innermost group.
    fn close<F: Functions, B, C: Counts>(
        &mut self,
        alloc: Global,
        scope: &Scope<'_, B, C>,
    ) -> Result<(), NoMemory>
        requires { steps_steps.AreWritten self.old }
        ensures { OnOk result (self.new ≡ steps.after_group F.table (sights.sight_of C.count scope.now) self.old.waiting self.old.bytes self.old.unknown) }
    {
        match self.waiting.pop() {
            Some(waiting) => {
                put_value::<F, B, C>(alloc, scope, &mut self.bytes, &mut self.unknown, waiting)
            }
            None => Ok(()),
        }
    }

    /// Takes a mark.
    pub(crate) fn take<F: Functions, B, C: Counts>(
        &mut self,
        alloc: Global,
        scope: &Scope<'_, B, C>,
        mark: Mark,
    ) -> Result<(), NoMemory>
        requires { steps_steps.AreWritten self.old }
        ensures { OnOk result (self.new ≡ steps.after F.table (sights.sight_of C.count scope.now) mark self.old) }
    {
        match mark {
            Mark::End => self.close::<F, B, C>(alloc, scope),
            Mark::Opening(kind) => self.open(kind),
            Mark::Byte(byte) => {
                self.bytes.push(byte)?;
                Ok(())
            }
        }
    }

    /// Writes the value of a head.
    fn write_head<F: Functions, B, C: Counts>(
        &mut self,
        alloc: Global,
        scope: &Scope<'_, B, C>,
        text: &[u8],
        head: Head,
    ) -> Result<(), NoMemory>
        ensures { OnOk result (self.new ≡ with_head F.table (sights.sight_of C.count scope.now) text.now self.old head) }
    {
        let is_known = push_full::<F, B, C>(alloc, scope, text, head, &mut self.bytes)?;
        note_head(alloc, &mut self.unknown, text, head, is_known)
    }

    /// Writes a part of the value of a head.
    fn write_cut<F: Functions, B, C: Counts>(
        &mut self,
        alloc: Global,
        scope: &Scope<'_, B, C>,
        text: &[u8],
        cut: CutPart,
    ) -> Result<(), NoMemory>
        ensures { OnOk result (self.new ≡ with_cut F.table (sights.sight_of C.count scope.now) text.now self.old cut) }
    {
        let is_known = push_cut::<F, B, C>(alloc, scope, text, cut, &mut self.bytes)?;
        note_head(alloc, &mut self.unknown, text, cut.head, is_known)
    }

    /// Writes an expression whose value is known.
    fn write_expression<F: Functions>(
        &mut self,
        alloc: Global,
        text: &[u8],
        known: &KnownExpression,
    ) -> Result<(), NoMemory>
        ensures { OnOk result (self.new ≡ with_expression F.table text.now self.old known.now) }
    {
        let body = known.body.of(text);
        let reading = F::expression(alloc, body)?;
        note_expression(alloc, &mut self.unknown, body, reading)?;
        match reading {
            ExpressionReading::Value | ExpressionReading::Unknown => {
                push_bytes(&mut self.bytes, &known.value)
            }
            ExpressionReading::Zero => {
                self.bytes.push(b'0')?;
                Ok(())
            }
        }
    }

    /// Takes a piece of this text.
    fn write<F: Functions, B, C: Counts>(
        &mut self,
        alloc: Global,
        scope: &Scope<'_, B, C>,
        text: &[u8],
        piece: &TextPiece,
    ) -> Result<(), NoMemory>
        requires { steps_steps.AreWritten self.old }
        ensures { OnOk result (self.new ≡ past F.table (sights.sight_of C.count scope.now) text.now self.old piece.now) }
    {
        match piece {
            TextPiece::Run(span) => push_bytes(&mut self.bytes, span.of(text)),
            TextPiece::Name(name) => {
                self.write_head::<F, B, C>(alloc, scope, text, Head::Name(*name))
            }
            TextPiece::Call(function, argument) => {
                let head = Head::Call(*function, *argument);
                self.write_head::<F, B, C>(alloc, scope, text, head)
            }
            TextPiece::Other(call) => {
                let OtherCall { name, argument } = **call;
                let head = Head::Other(name, argument);
                self.write_head::<F, B, C>(alloc, scope, text, head)
            }
            TextPiece::Part(cut) => self.write_cut::<F, B, C>(alloc, scope, text, **cut),
            TextPiece::Known(known) => self.write_expression::<F>(alloc, text, known),
            TextPiece::Empty => self.write_head::<F, B, C>(alloc, scope, text, Head::Empty),
            TextPiece::Begins(kind) => self.open(*kind),
            TextPiece::Ends => self.close::<F, B, C>(alloc, scope),
        }
    }

    /// The expansion at the end of the text.
    pub(crate) fn finish(self) -> Expanded
        ensures bytes { result.bytes.items ≡ self.bytes }
        ensures unknown { option_map (λ bytes. bytes.items) result.unknown ≡ any_text self.unknown }
    {
        let Expanding {
            bytes,
            waiting,
            unknown,
        } = self;
        drop(waiting);
        let unknown = any_text(unknown);
        Expanded { bytes, unknown }
    }
}

/// Writes the pieces of a text.
pub(crate) fn write_pieces<F: Functions, B, C: Counts>(
    alloc: Global,
    scope: &Scope<'_, B, C>,
    text: &[u8],
    pieces: &[TextPiece],
) -> Result<Expanded, NoMemory>
    ensures bytes { IfOk result (λ expanded. expanded.bytes.items
        ≡ (past_all F.table (sights.sight_of C.count scope.now) text.now pieces.now).bytes) }
    ensures unknown { IfOk result (λ expanded. option_map (λ bytes. bytes.items) expanded.unknown
        ≡ any_text (past_all F.table (sights.sight_of C.count scope.now) text.now pieces.now).unknown) }
{
    let mut expanding = Expanding::with_room(alloc, text.len())?;
    let mut left = pieces;
    while let Some((piece, after)) = left.split_first() {
        expanding.write::<F, B, C>(alloc, scope, text, piece)?;
        left = after;
    }
    Ok(expanding.finish())
}
