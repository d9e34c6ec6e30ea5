//! What is known of the values of names over the functions of the wide table.
ghost use Rattle.std.specs.Prelude.{◌≡◌, ℕ, IfOk, None, Some};
ghost use Rattle.dp_conf.specs.Cut.{before_last};
ghost use Rattle.dp_conf.specs.Levels.{cut_outside};
ghost use Rattle.dp_pieces.specs.Names.{part_pieces};
ghost use Rattle.dp_pieces.specs.NamesAt.{names_of};
ghost use Rattle.dp_pieces.specs.Pieces.{any_bytes_of, bytes_in, text_known};
ghost use Rattle.dp_pieces.specs.Sets.{set_by};
ghost use Rattle.dp_pieces.specs.Shown.{shown_all};
ghost use Rattle.dp_vars.specs.Parts.{asked_of};
ghost use Rattle.dp_vars.specs.Values.{function_of};
ghost use Rattle.dp_wide.specs.Cells as cells;
ghost use Rattle.dp_wide_pieces.specs.FunctionBytes.{function_bytes};
ghost use Rattle.dp_wide_pieces.specs.WideNames.{groups_of};
ghost use Rattle.dp_wide_pieces.specs.WideTexts as texts;

use crate::computed_bytes::function_bytes;
use dp_conf::{GroupKind, NoMemory, before_last, cut_once, cut_outside};
use dp_pieces::{
    ByteSet, GroupPieces, NamesAt, Piece, any_bytes, bytes_in, bytes_of, expression_pieces,
    known_text, part_of, read_pieces,
};
use dp_vars::{Function, function_of, read_asked};
use dp_wide::is_computed;
use std::alloc::Global;

/// What is known of names, as the groups of a text read them by the functions of the wide table.
#[derive(Clone, Copy)]
pub struct WideNamesAt<'a> {
    pub names: NamesAt<'a>,
}

/// Reads an unexpanded text over the functions of the wide table as pieces. It fails only if memory runs out.
pub fn read_wide_pieces(
    alloc: Global,
    names: &NamesAt<'_>,
    text: &[u8],
) -> Result<Vec<Piece>, NoMemory>
    ensures { IfOk result (λ pieces. shown_all pieces.items ≡ texts.wide_text_pieces (names_of names.now) text.now) }
{
    let wide = WideNamesAt { names: *names };
    let pieces = read_pieces(alloc, &wide, text)?;
    Ok(pieces)
}

impl GroupPieces for WideNamesAt<'_> {
    ghost groups = { groups_of };

    fn group(
        &self,
        alloc: Global,
        kind: GroupKind,
        body: &[Piece],
    ) -> Result<Vec<Piece>, NoMemory> {
        match kind {
            GroupKind::Braces => self.braces(alloc, body),
            GroupKind::Brackets => expression_pieces(alloc, body),
        }
    }
}

/// The name of the variable for a cell.
fn cell_name(alloc: Global, function: &[u8], argument: &[u8]) -> Result<Vec<u8>, NoMemory>
    ensures { IfOk result (λ name. name.items ≡ cells.cell_name function.now argument.now) }
{
    let mut name = Vec::from_slice(alloc, function)?;
    name.push(b'(')?;
    name.extend_from_slice(argument)?;
    name.push(b')')?;
    Ok(name)
}

impl WideNamesAt<'_> {
    /// The bytes of a cell.
    fn cell_set(&self, alloc: Global, function: &[u8], argument: &[u8]) -> Result<ByteSet, NoMemory>
        ensures { IfOk result (λ set. (b : ℕ) → set_by set b ≡ (names_of self.now.names).bytes (cells.cell_name function.now argument.now) b) }
    {
        let name = cell_name(alloc, function, argument)?;
        Ok(self.names.table.bytes(&name))
    }

    /// The bytes of a computed function, given its argument.
    fn computed_set(&self, argument: &[u8]) -> ByteSet
        ensures { (b : ℕ) → set_by result b ≡ function_bytes (names_of self.now.names) (bytes_in argument.now) b }
    {
        function_bytes(&self.names, &bytes_in(argument))
    }

    /// The bytes of `CALLERID` with an argument.
    fn caller_set(&self, alloc: Global, argument: &[u8]) -> Result<ByteSet, NoMemory>
        ensures { IfOk result (λ set. (b : ℕ) → set_by set b ≡ texts.caller_set (names_of self.now.names) argument.now b) }
    {
        if argument == b"num".as_slice() || argument == b"number".as_slice() {
            return Ok(self.names.caller());
        }
        if argument == b"all".as_slice() {
            return Ok(self.computed_set(argument));
        }
        self.cell_set(alloc, b"CALLERID", argument)
    }

    /// The bytes of one of the five functions of every dialplan.
    fn five_set(
        &self,
        alloc: Global,
        function: Function,
        argument: &[u8],
    ) -> Result<ByteSet, NoMemory>
        ensures { IfOk result (λ set. (b : ℕ) → set_by set b ≡ texts.five_set (names_of self.now.names) function argument.now b) }
    {
        match function {
            Function::Global | Function::Local => Ok(self.names.table.bytes(argument)),
            Function::Len | Function::QueueWaitingCount => Ok(ByteSet::digits()),
            Function::CallerId => self.caller_set(alloc, argument),
        }
    }

    /// The bytes of any other name with an argument.
    fn other_set(&self, alloc: Global, name: &[u8], argument: &[u8]) -> Result<ByteSet, NoMemory>
        ensures { IfOk result (λ set. (b : ℕ) → set_by set b ≡ texts.other_set (names_of self.now.names) name.now argument.now b) }
    {
        if is_computed(name) {
            return Ok(self.computed_set(argument));
        }
        self.cell_set(alloc, name, argument)
    }

    /// The bytes of a name with an argument.
    fn named_set(&self, alloc: Global, name: &[u8], argument: &[u8]) -> Result<ByteSet, NoMemory>
        ensures { IfOk result (λ set. (b : ℕ) → set_by set b ≡ texts.named_set (names_of self.now.names) (function_of name.now) name.now argument.now b) }
    {
        match function_of(name) {
            None => self.other_set(alloc, name, argument),
            Some(function) => self.five_set(alloc, function, argument),
        }
    }

    /// The bytes of a function, given its name and the text after its `(`. A call without a `)` is empty.
    fn called_set(&self, alloc: Global, name: &[u8], rest: &[u8]) -> Result<ByteSet, NoMemory>
        ensures { IfOk result (λ set. (b : ℕ) → set_by set b ≡ texts.called_set (names_of self.now.names) name.now (before_last 41 rest.now) b) }
    {
        match before_last(rest, b')') {
            None => Ok(ByteSet::none()),
            Some(argument) => self.named_set(alloc, name, argument),
        }
    }

    /// The pieces of a function, given its name and the text after its `(`.
    fn call_pieces(&self, alloc: Global, name: &[u8], rest: &[u8]) -> Result<Vec<Piece>, NoMemory>
        ensures { IfOk result (λ pieces. shown_all pieces.items
            ≡ any_bytes_of (texts.called_set (names_of self.now.names) name.now (before_last 41 rest.now))) }
    {
        let set = self.called_set(alloc, name, rest)?;
        let pieces = any_bytes(alloc, set)?;
        Ok(pieces)
    }

    /// The pieces of a head: a name, or a function with its argument in parentheses.
    #[tactic(auto, unfolding(crate::specs::WideTexts::wide_head_pieces))]
    fn head(&self, alloc: Global, head: &[u8]) -> Result<Vec<Piece>, NoMemory>
        ensures { IfOk result (λ pieces. shown_all pieces.items ≡ texts.wide_head_pieces (names_of self.now.names) head.now) }
    {
        match cut_once(head, b'(') {
            None => self.names.variable(alloc, head),
            Some((name, rest)) => self.call_pieces(alloc, name, rest),
        }
    }

    /// The pieces of a head, of which the text after the first `:` requests a part.
    fn part(&self, alloc: Global, head: &[u8], tail: &[u8]) -> Result<Vec<Piece>, NoMemory>
        ensures { IfOk result (λ pieces. shown_all pieces.items
            ≡ part_pieces (asked_of (Some tail.now)) (texts.wide_head_pieces (names_of self.now.names) head.now)) }
    {
        let whole = self.head(alloc, head)?;
        let part = part_of(alloc, read_asked(tail), &whole)?;
        Ok(part)
    }

    /// The pieces of a text in braces without groups.
    fn body(&self, alloc: Global, body: &[u8]) -> Result<Vec<Piece>, NoMemory>
        ensures { IfOk result (λ pieces. shown_all pieces.items ≡ texts.body_by (names_of self.now.names) body.now (cut_outside 58 body.now)) }
    {
        match cut_outside(body, b':') {
            None => self.head(alloc, body),
            Some((head, tail)) => self.part(alloc, head, tail),
        }
    }

    /// The pieces of a text in braces of which something is unknown.
    fn unknown_pieces(&self, alloc: Global, body: &[Piece]) -> Result<Vec<Piece>, NoMemory>
        ensures { IfOk result (λ pieces. shown_all pieces.items ≡ texts.braces_by (names_of self.now.names) (shown_all body.now) None) }
    {
        let set = function_bytes(&self.names, &bytes_of(body));
        let pieces = any_bytes(alloc, set)?;
        Ok(pieces)
    }

    /// The pieces of a text in braces, given its own pieces.
    fn braces(&self, alloc: Global, body: &[Piece]) -> Result<Vec<Piece>, NoMemory>
        ensures { IfOk result (λ pieces. shown_all pieces.items
            ≡ texts.braces_by (names_of self.now.names) (shown_all body.now) (text_known (shown_all body.now))) }
    {
        match known_text(alloc, body)? {
            None => self.unknown_pieces(alloc, body),
            Some(text) => self.body(alloc, &text),
        }
    }
}
