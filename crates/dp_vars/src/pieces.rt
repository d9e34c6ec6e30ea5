//! Texts that are read once and expanded often.
ghost use Rattle.std.specs.Option.{option_map};
ghost use Rattle.std.specs.Prelude.{◌≡◌, IfOk};
ghost use Rattle.dp_vars.specs.Pieces.{AreOf};
ghost use Rattle.dp_vars.specs.Sights.{sight_of};
ghost use Rattle.dp_vars.specs.Unknown.{first_unknown};
ghost use Rattle.dp_vars.specs.Values.{expansion, expansion_with};

use crate::expanding::{Expanded, write_pieces};
use crate::functions::{Functions, StandardFunctions};
use crate::parsing::parse;
use crate::scope::{Counts, Scope};
use crate::text_piece::TextPiece;
use dp_conf::NoMemory;
use std::alloc::Global;
use std::marker::Model;

/// The pieces of a text that is kept elsewhere, such as in a dialplan, and the place after them, from which all bytes
/// are plain.
///
/// A contract says to which text they belong; they are expanded with that text.
pub struct Pieces {
    pieces: Vec<TextPiece>,
    tail: usize,
}

impl Drop for Pieces {
    fn drop(self) {
        let Pieces { pieces: _, tail: _ } = self;
    }
}

impl Model for Pieces {
    ghost use Rattle.dp_vars.specs.Pieces.{PiecesOf};

    ghost Value = { PiecesOf };

    ghost view = { λ known. record { pieces = known.pieces.items; tail = known.tail } };
}

impl Pieces {
    /// The pieces of a text, however deep its groups are nested.
    ///
    /// It fails only if memory runs out.
    pub fn read(alloc: Global, text: &[u8]) -> Result<Self, NoMemory>
        ensures { IfOk result (AreOf text.now) }
    {
        let (mut pieces, tail) = parse(alloc, text)?.finish();
        pieces.shrink_to_fit();
        Ok(Pieces { pieces, tail })
    }

    /// The expansion of their text, if this is the one given: each group is replaced with its value, as `expand_text`
    /// does. With another text the result is some bytes, about which nothing is claimed.
    ///
    /// It fails only if memory runs out.
    pub fn expand<B, C: Counts>(
        &self,
        alloc: Global,
        text: &[u8],
        scope: &Scope<'_, B, C>,
    ) -> Result<Vec<u8>, NoMemory>
        ensures { AreOf text.now self.now
            → IfOk result (λ bytes. bytes.items ≡ expansion (sight_of C.count scope.now) text.now) }
    {
        self.expand_with::<StandardFunctions, B, C>(alloc, text, scope)
    }

    /// The expansion of their text with the functions of a table, as `expand` does with the standard ones.
    ///
    /// It fails only if memory runs out.
    pub fn expand_with<F: Functions, B, C: Counts>(
        &self,
        alloc: Global,
        text: &[u8],
        scope: &Scope<'_, B, C>,
    ) -> Result<Vec<u8>, NoMemory>
        ensures { AreOf text.now self.now
            → IfOk result (λ bytes. bytes.items ≡ expansion_with F.table (sight_of C.count scope.now) text.now) }
    {
        let expanded = self.expand_checked::<F, B, C>(alloc, text, scope)?;
        Ok(expanded.bytes)
    }

    /// The same, with the first name, call or expression in the text that is not known.
    ///
    /// It fails only if memory runs out.
    pub fn expand_checked<F: Functions, B, C: Counts>(
        &self,
        alloc: Global,
        text: &[u8],
        scope: &Scope<'_, B, C>,
    ) -> Result<Expanded, NoMemory>
        ensures bytes { AreOf text.now self.now
            → IfOk result (λ expanded. expanded.bytes.items ≡ expansion_with F.table (sight_of C.count scope.now) text.now) }
        ensures unknown { AreOf text.now self.now → IfOk result (λ expanded. option_map (λ bytes. bytes.items) expanded.unknown
            ≡ first_unknown F.table (sight_of C.count scope.now) text.now) }
    {
        let written = write_pieces::<F, B, C>(alloc, scope, text, &self.pieces)?;
        let Expanded { mut bytes, unknown } = written;
        bytes.extend_from_slice(text.split_at(self.tail.min(text.len())).1)?;
        Expanded { bytes, unknown }.of::<F>(alloc, text)
    }

    /// The first name, call or expression in their text that is not known, in the order in which groups are expanded,
    /// with its argument expanded, such as `DB(a/b)`; or the text itself, if it is read with other groups.
    ///
    /// It fails only if memory runs out.
    pub fn first_unknown<F: Functions, B, C: Counts>(
        &self,
        alloc: Global,
        text: &[u8],
        scope: &Scope<'_, B, C>,
    ) -> Result<Option<Vec<u8>>, NoMemory>
        ensures { AreOf text.now self.now → IfOk result (λ unknown. option_map (λ bytes. bytes.items) unknown
            ≡ first_unknown F.table (sight_of C.count scope.now) text.now) }
    {
        let expanded = self.expand_checked::<F, B, C>(alloc, text, scope)?;
        Ok(expanded.unknown)
    }
}
