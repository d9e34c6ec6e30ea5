//! Reading a text as pieces, in one pass without recursion.
ghost use Rattle.std.specs.Prelude.{◌≡◌, ◌+◌, ◌≤◌, ℕ, [], ◌∷◌, ◌++◌, IfOk, OnOk, drop, length, map, reverse, take};
ghost use Rattle.dp_conf.specs.Groups.{opener};
ghost use Rattle.dp_conf.specs.GroupsRead.{first_of, reading_of};
ghost use Rattle.dp_pieces.specs.Names.{Names};
ghost use Rattle.dp_pieces.specs.steps.Reader as steps;
ghost use Rattle.dp_pieces.specs.Texts.{GroupMeaning, group_pieces, pieces_by};
ghost use Rattle.dp_pieces.specs.Shown.{shown_all};
ghost use Rattle.dp_pieces.specs.steps.ReadSoFar.{read_of, StandIn};

use crate::piece::Piece;
use dp_conf::{GroupKind, Mark, NoMemory, next_mark};
use std::alloc::Global;

/// What the groups of a text mean.
pub trait GroupPieces {
    // The pieces of the value of a group, given those of its body.
    ghost groups: { Self → GroupMeaning };

    /// The pieces of the value of a group, given the pieces of its body. It fails only if memory runs out.
    fn group(&self, alloc: Global, kind: GroupKind, body: &[Piece]) -> Result<Vec<Piece>, NoMemory>
        ensures { IfOk result (λ pieces. shown_all pieces.items ≡ groups self.now kind (shown_all body.now)) };
}

/// What is known of the values of names.
pub trait NamedPieces {
    // What is known of the names.
    ghost names: { Self → Names };

    /// The pieces of the value of a group, given the pieces of its body. It fails only if memory runs out.
    fn named_group(
        &self,
        alloc: Global,
        kind: GroupKind,
        body: &[Piece],
    ) -> Result<Vec<Piece>, NoMemory>
        ensures { IfOk result (λ pieces. shown_all pieces.items ≡ group_pieces (names self.now) kind (shown_all body.now)) };
}

impl<N: NamedPieces> GroupPieces for N {
    ghost groups = { λ known. group_pieces (N.names known) };

    fn group(
        &self,
        alloc: Global,
        kind: GroupKind,
        body: &[Piece],
    ) -> Result<Vec<Piece>, NoMemory> {
        self.named_group(alloc, kind, body)
    }
}

/// The byte after the `$` that opens a group.
fn opener(kind: GroupKind) -> u8
    ensures { result ≡ opener kind }
{
    match kind {
        GroupKind::Braces => b'{',
        GroupKind::Brackets => b'[',
    }
}

/// Adds pieces at the end.
fn push_all(pieces: &mut Vec<Piece>, more: &[Piece]) -> Result<(), NoMemory>
    ensures { OnOk result (pieces.new.items ≡ pieces.old.items ++ more.now) }
{
    pieces.extend_from_slice(more)?;
    Ok(())
}

/// Replaces an opening and its body with the pieces of the group.
fn put_group<G: GroupPieces>(
    alloc: Global,
    groups: &G,
    pieces: &mut Vec<Piece>,
    kind: GroupKind,
    start: usize,
) -> Result<(), NoMemory>
    requires { start + 2 ≤ length pieces.old.items }
    ensures { OnOk result (shown_all pieces.new.items
        ≡ steps.with_group (G.groups groups.now) (record { kind = kind; start = start }) (shown_all pieces.old.items)) }
{
    let value = groups.group(alloc, kind, pieces.split_at(start + 2).1)?;
    pieces.truncate(start);
    push_all(pieces, &value)?;
    Ok(())
}

/// An opening that waits for its end, with the place of its `$` in the pieces.
#[derive(Clone, Copy)]
struct Open {
    kind: GroupKind,
    start: usize,
}

/// The pieces so far, and the waiting openings.
#[derive(Drop)]
struct PiecesReading {
    pieces: Vec<Piece>,
    waiting: Vec<Open>,
}

/// Reads an unexpanded text as pieces, by what its groups mean. It fails only if memory runs out.
pub fn read_pieces<G: GroupPieces>(
    alloc: Global,
    groups: &G,
    text: &[u8],
) -> Result<Vec<Piece>, NoMemory>
    ensures { IfOk result (λ pieces. shown_all pieces.items ≡ pieces_by (G.groups groups.now) (reading_of text.now)) }
{
    let pieces = Vec::with_capacity(alloc, text.len())?;
    let mut reading = PiecesReading {
        pieces,
        waiting: Vec::new(alloc),
    };
    let mut rest = text;
    while let Some((mark, after)) = next_mark(rest, reading.innermost()) {
        reading.take(alloc, groups, mark)?;
        rest = after;
    }
    Ok(reading.finish())
}

impl PiecesReading {
    /// The kind of the innermost waiting opening.
    fn innermost(&self) -> Option<GroupKind>
        ensures { result ≡ first_of (steps.kinds_of (read_of self.now).waiting) }
    {
        match self.waiting.last() {
            Some(open) => Some(open.kind),
            None => None,
        }
    }

    /// Takes a mark.
    fn take<G: GroupPieces>(
        &mut self,
        alloc: Global,
        groups: &G,
        mark: Mark,
    ) -> Result<(), NoMemory>
        requires { StandIn (read_of self.old).waiting (length (read_of self.old).pieces) }
        ensures { OnOk result (read_of self.new ≡ steps.after (G.groups groups.now) mark (read_of self.old)) }
    {
        match mark {
            Mark::End => {
                if let Some(open) = self.waiting.pop() {
                    put_group(alloc, groups, &mut self.pieces, open.kind, open.start)?;
                }
            }
            Mark::Opening(kind) => {
                self.waiting.push(Open {
                    kind,
                    start: self.pieces.len(),
                })?;
                self.pieces.push(Piece::Known(b'$'))?;
                self.pieces.push(Piece::Known(opener(kind)))?;
            }
            Mark::Byte(byte) => self.pieces.push(Piece::Known(byte))?,
        }
        Ok(())
    }

    /// The pieces at the end of the text.
    fn finish(self) -> Vec<Piece>
        ensures { shown_all result.items ≡ (read_of self).pieces }
    {
        let PiecesReading { pieces, waiting } = self;
        drop(waiting);
        pieces
    }
}
