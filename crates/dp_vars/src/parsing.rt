//! Reading a text into its pieces, in one pass without recursion.
ghost use Rattle.std.specs.Prelude.{◌≡◌, ◌≤◌, [], ◌∷◌, ◌++◌, IfOk, OnOk, drop, reverse};
ghost use Rattle.dp_conf.specs.GroupsRead.{first_of, outer_of};
ghost use Rattle.dp_vars.specs.Functions.{FunctionTable};
ghost use Rattle.dp_vars.specs.steps.Pieces as spec;
ghost use Rattle.dp_vars.specs.Sights.{Sight};
ghost use Rattle.dp_vars.specs.steps.Spans.{span_at};
ghost use Rattle.dp_vars.specs.Pieces.{Come};

use crate::span::Span;
use crate::text_piece::TextPiece;
use dp_conf::{GroupKind, Mark, NoMemory, next_mark};
use std::alloc::Global;
use std::marker::Model;

/// The pieces so far, the openings that wait for their ends, and the plain bytes after the last piece.
#[derive(Drop)]
pub(crate) struct Parsing {
    pieces: Vec<TextPiece>,
    waiting: Vec<GroupKind>,
    run: Span,
}

impl Model for Parsing {
    ghost use Rattle.std.specs.Prelude.{reverse};
    ghost use Rattle.dp_vars.specs.steps.Pieces.{ReadSoFar};

    ghost Value = { ReadSoFar };

    ghost view = { λ parsing. record {
      pieces = reverse parsing.pieces.items;
      waiting = reverse parsing.waiting.items;
      run = parsing.run;
    } };
}

impl Parsing {
    /// Nothing has been read yet.
    fn new(alloc: Global) -> Self
        ensures { result ≡ record { pieces = []; waiting = []; run = span_at 0 } }
    {
        Parsing {
            pieces: Vec::new(alloc),
            waiting: Vec::new(alloc),
            run: Span::at(0),
        }
    }

    /// The kind of the innermost waiting opening.
    fn innermost(&self) -> Option<GroupKind>
        ensures { result ≡ first_of self.now.waiting }
    {
        match self.waiting.last() {
            Some(kind) => Some(*kind),
            None => None,
        }
    }

    /// The kind of the last piece, if that is an opening.
    fn last_opening(&self) -> Option<GroupKind>
        ensures { result ≡ spec.opening_last self.now.pieces }
    {
        match self.pieces.last() {
            Some(TextPiece::Begins(kind)) => Some(*kind),
            _ => None,
        }
    }

    /// Makes a piece of the plain bytes, if there are any.
    fn end_run(&mut self) -> Result<(), NoMemory>
        ensures { OnOk result (self.new ≡ record self.old { pieces = spec.with_run self.old.run self.old.pieces }) }
    {
        if self.run.from < self.run.to {
            self.pieces.push(TextPiece::Run(self.run))?;
        }
        Ok(())
    }

    /// Takes an opening, which waits from now on.
    fn begin(&mut self, kind: GroupKind, place: usize) -> Result<(), NoMemory>
        ensures { OnOk result (self.new ≡ record {
          pieces = TextPiece.Begins kind ∷ spec.with_run self.old.run self.old.pieces;
          waiting = kind ∷ self.old.waiting;
          run = span_at place;
        }) }
    {
        self.end_run()?;
        self.pieces.push(TextPiece::Begins(kind))?;
        self.waiting.push(kind)?;
        self.run = Span::at(place);
        Ok(())
    }

    /// Replaces the opening with the piece of a group that contains no group.
    fn put_group(&mut self, piece: TextPiece) -> Result<(), NoMemory>
        ensures { OnOk result (self.new ≡ record self.old { pieces = piece ∷ spec.without_last self.old.pieces }) }
    {
        let _opening = self.pieces.pop();
        self.pieces.push(piece)?;
        Ok(())
    }

    /// Adds the end of a group that contains groups.
    fn put_end(&mut self) -> Result<(), NoMemory>
        ensures { OnOk result (self.new ≡ record self.old { pieces = TextPiece.Ends ∷ spec.with_run self.old.run self.old.pieces }) }
    {
        self.end_run()?;
        self.pieces.push(TextPiece::Ends)?;
        Ok(())
    }

    /// The innermost opening stops waiting, and there are no plain bytes after its group yet.
    fn go_out(&mut self, place: usize)
        ensures { self.new ≡ record self.old { waiting = outer_of self.old.waiting; run = span_at place } }
    {
        let _kind = self.waiting.pop();
        self.run = Span::at(place);
    }

    /// Takes the end of the innermost group.
    fn end(&mut self, alloc: Global, text: &[u8], place: usize) -> Result<(), NoMemory>
        ensures { OnOk result (spec.GoesAfter text.now Mark.End place self.old self.new) }
    {
        match self.last_opening() {
            Some(kind) => {
                let piece = TextPiece::read(alloc, text, kind, self.run)?;
                self.put_group(piece)?;
            }
            None => self.put_end()?,
        }
        self.go_out(place);
        Ok(())
    }

    /// Takes a mark that ends at this place.
    fn take(&mut self, alloc: Global, text: &[u8], mark: Mark, place: usize) -> Result<(), NoMemory>
        requires stands { spec.StandsAfter text.now self.old.run mark place }
        requires begins { self.old.run.from ≤ place }
        ensures { OnOk result (spec.GoesAfter text.now mark place self.old self.new) }
    {
        match mark {
            Mark::End => self.end(alloc, text, place)?,
            Mark::Opening(kind) => self.begin(kind, place)?,
            Mark::Byte(_) => self.run.to = place,
        }
        Ok(())
    }

    /// The pieces, and the place after them, from which all bytes are plain.
    pub(crate) fn finish(self) -> (Vec<TextPiece>, usize)
        ensures pieces { reverse result.0.items ≡ self.pieces }
        ensures tail { result.1 ≡ self.run.from }
    {
        let Parsing {
            pieces,
            waiting,
            run,
        } = self;
        drop(waiting);
        (pieces, run.from)
    }
}

/// Reads a text to its end.
pub(crate) fn parse(alloc: Global, text: &[u8]) -> Result<Parsing, NoMemory>
    ensures { IfOk result (λ parsing. (functions : FunctionTable) (sight : Sight)
        → Come functions sight text.now (spec.past_last functions sight text.now parsing.pieces) parsing.run.from) }
{
    let mut parsing = Parsing::new(alloc);
    let mut rest = text;
    while let Some((mark, after)) = next_mark(rest, parsing.innermost()) {
        parsing.take(alloc, text, mark, text.len() - after.len())?;
        rest = after;
    }
    Ok(parsing)
}
