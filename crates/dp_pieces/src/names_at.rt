//! What is known of the values of names in a channel, given the shapes of its extension and context.
ghost use Rattle.std.specs.Prelude.{◌≡◌, ℕ, List, IfOk, Some};
ghost use Rattle.dp_conf.specs.Cut.{before_last};
ghost use Rattle.dp_conf.specs.Levels.{cut_outside};
ghost use Rattle.dp_pieces.specs.Bytes as bytes;
ghost use Rattle.dp_pieces.specs.Cuts.{cut_known};
ghost use Rattle.dp_pieces.specs.Names as names;
ghost use Rattle.dp_pieces.specs.NamesAt.{names_of};
ghost use Rattle.dp_pieces.specs.Pieces.{exactly, text_known, any_bytes_of, pieces_set};
ghost use Rattle.dp_pieces.specs.Sets.{set_by};
ghost use Rattle.dp_pieces.specs.Shown.{shown_all};
ghost use Rattle.dp_pieces.specs.Texts as texts;
ghost use Rattle.dp_vars.specs.Parts.{asked_of};

use crate::byte_set::ByteSet;
use crate::cuts::cut_known;
use crate::name_table::NameTable;
use crate::parts::part_of;
use crate::piece::{Piece, any_bytes, bytes_of, copy_of, known_text};
use crate::reader::NamedPieces;
use dp_conf::{GroupKind, NoMemory, before_last, cut_once, cut_outside};
use dp_vars::{Function, function_of, read_asked};
use std::alloc::Global;

/// What is known of names if the channel's extension and context have these shapes.
#[derive(Clone, Copy)]
pub struct NamesAt<'a> {
    pub table: &'a NameTable,
    pub context: &'a [Piece],
    pub exten: &'a [Piece],
}

impl NamedPieces for NamesAt<'_> {
    ghost names = { names_of };

    fn named_group(
        &self,
        alloc: Global,
        kind: GroupKind,
        body: &[Piece],
    ) -> Result<Vec<Piece>, NoMemory> {
        match kind {
            GroupKind::Braces => self.braces(alloc, body),
            GroupKind::Brackets => expression_pieces(alloc, body),
        }
    }
}

/// The bytes of a number: digits, or a minus sign.
fn numeric() -> ByteSet
    ensures { (b : ℕ) → set_by result b ≡ bytes.numeric b }
{
    ByteSet::digits().with(&ByteSet::of(b'-'))
}

/// The pieces of an expression, given those of its body: any bytes of these or of a number. It fails only if memory runs out.
pub fn expression_pieces(alloc: Global, body: &[Piece]) -> Result<Vec<Piece>, NoMemory>
    ensures { IfOk result (λ pieces. shown_all pieces.items ≡ any_bytes_of (bytes.either (pieces_set (shown_all body.now)) bytes.numeric)) }
{
    let set = bytes_of(body).with(&numeric());
    let pieces = any_bytes(alloc, set)?;
    Ok(pieces)
}

impl NamesAt<'_> {
    /// The bytes of any value.
    pub fn all(&self) -> ByteSet
        ensures { (b : ℕ) → set_by result b ≡ (names_of self.now).all b }
    {
        *self.table.all()
    }

    /// The bytes of the caller's number.
    pub fn caller(&self) -> ByteSet
        ensures { (b : ℕ) → set_by result b ≡ (names_of self.now).caller b }
    {
        *self.table.caller()
    }

    /// The pieces of a variable. The channel's extension and context come before any other value of these names. It fails only if memory
    /// runs out.
    pub fn variable(&self, alloc: Global, name: &[u8]) -> Result<Vec<Piece>, NoMemory>
        ensures { IfOk result (λ pieces. shown_all pieces.items ≡ names.variable_pieces (names_of self.now) name.now) }
    {
        if name == b"EXTEN".as_slice() {
            copy_of(alloc, self.exten)
        } else if name == b"CONTEXT".as_slice() {
            copy_of(alloc, self.context)
        } else {
            any_bytes(alloc, self.table.bytes(name))
        }
    }

    /// The bytes of the caller's number, if that is requested.
    fn caller_set(&self, argument: &[u8]) -> ByteSet
        ensures { (b : ℕ) → set_by result b ≡ names.caller_set (names_of self.now).caller argument.now b }
    {
        if argument == b"num".as_slice() {
            self.caller()
        } else {
            ByteSet::none()
        }
    }

    /// The bytes of a function with an argument.
    fn function_set(&self, function: Option<Function>, argument: &[u8]) -> ByteSet
        ensures { (b : ℕ) → set_by result b ≡ names.function_set (names_of self.now) function argument.now b }
    {
        match function {
            None => ByteSet::none(),
            Some(Function::Global) | Some(Function::Local) => self.table.bytes(argument),
            Some(Function::Len) | Some(Function::QueueWaitingCount) => ByteSet::digits(),
            Some(Function::CallerId) => self.caller_set(argument),
        }
    }

    /// The bytes of a function, given its name and the text after its `(`. A call without a `)` is empty.
    fn called_set(&self, name: &[u8], rest: &[u8]) -> ByteSet
        ensures { (b : ℕ) → set_by result b ≡ names.called_set (names_of self.now) name.now (before_last 41 rest.now) b }
    {
        match before_last(rest, b')') {
            None => ByteSet::none(),
            Some(argument) => self.function_set(function_of(name), argument),
        }
    }

    /// The pieces of a head: a name, or a function with its argument in parentheses.
    fn head(&self, alloc: Global, head: &[u8]) -> Result<Vec<Piece>, NoMemory>
        ensures { IfOk result (λ pieces. shown_all pieces.items ≡ names.head_pieces (names_of self.now) head.now) }
    {
        match cut_once(head, b'(') {
            None => self.variable(alloc, head),
            Some((name, rest)) => any_bytes(alloc, self.called_set(name, rest)),
        }
    }

    /// The pieces of a head, of which the text after the first `:` requests a part.
    fn part(&self, alloc: Global, head: &[u8], tail: &[u8]) -> Result<Vec<Piece>, NoMemory>
        ensures { IfOk result (λ pieces. shown_all pieces.items
            ≡ names.part_pieces (asked_of (Some tail.now)) (names.head_pieces (names_of self.now) head.now)) }
    {
        let whole = self.head(alloc, head)?;
        let part = part_of(alloc, read_asked(tail), &whole)?;
        Ok(part)
    }

    /// The pieces of a text in braces without groups.
    fn body(&self, alloc: Global, body: &[u8]) -> Result<Vec<Piece>, NoMemory>
        ensures { IfOk result (λ pieces. shown_all pieces.items ≡ names.body_by (names_of self.now) body.now (cut_outside 58 body.now)) }
    {
        match cut_outside(body, b':') {
            None => self.head(alloc, body),
            Some((head, tail)) => self.part(alloc, head, tail),
        }
    }

    /// The bytes of a function with any argument.
    fn any_argument_set(&self, function: Option<Function>) -> ByteSet
        ensures { (b : ℕ) → set_by result b ≡ names.any_argument_set (names_of self.now) function b }
    {
        match function {
            None => ByteSet::none(),
            Some(Function::Global) | Some(Function::Local) => self.all(),
            Some(Function::Len) | Some(Function::QueueWaitingCount) => ByteSet::digits(),
            Some(Function::CallerId) => self.caller(),
        }
    }

    /// The bytes of a text in braces that begins with this name and a `(`, and of which nothing else is known.
    fn begun_set(&self, name: &[u8]) -> ByteSet
        ensures { (b : ℕ) → set_by result b ≡ texts.begun_set (names_of self.now) name.now b }
    {
        if name.contains(&b':') {
            self.all()
        } else {
            self.any_argument_set(function_of(name))
        }
    }

    /// The pieces of a text in braces that is known up to its first `(`, given the pieces before that.
    fn begun_pieces(&self, alloc: Global, front: &[Piece]) -> Result<Vec<Piece>, NoMemory>
        ensures { IfOk result (λ pieces. (name : List ℕ) → shown_all front.now ≡ exactly name
            → shown_all pieces.items ≡ texts.called_pieces (names_of self.now) name) }
    {
        let Some(name) = known_text(alloc, front)? else {
            let all = any_bytes(alloc, self.all())?;
            return Ok(all);
        };
        let pieces = any_bytes(alloc, self.begun_set(&name))?;
        Ok(pieces)
    }

    /// The pieces of a text in braces that is unknown, or partly known.
    fn unknown_pieces(&self, alloc: Global, body: &[Piece]) -> Result<Vec<Piece>, NoMemory>
        ensures { IfOk result (λ pieces. shown_all pieces.items ≡ texts.unknown_pieces (names_of self.now) (cut_known 40 (shown_all body.now))) }
    {
        match cut_known(body, b'(') {
            None => any_bytes(alloc, self.all()),
            Some((front, _)) => self.begun_pieces(alloc, front),
        }
    }

    /// The pieces of a text in braces, given its own pieces.
    fn braces(&self, alloc: Global, body: &[Piece]) -> Result<Vec<Piece>, NoMemory>
        ensures { IfOk result (λ pieces. shown_all pieces.items ≡ texts.braces_pieces (names_of self.now) (shown_all body.now) (text_known (shown_all body.now))) }
    {
        match known_text(alloc, body)? {
            None => self.unknown_pieces(alloc, body),
            Some(text) => self.body(alloc, &text),
        }
    }
}
