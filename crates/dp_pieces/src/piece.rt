//! Pieces of a text with unknown parts.
ghost use Rattle.std.specs.Prelude.{◌≡◌, ◌||◌, ℕ, IfOk, MatchOption, None, Some};
ghost use Rattle.dp_pieces.specs.Pieces.{byte_of, bytes_in, text_known, any_bytes_of, piece_set, pieces_set};
ghost use Rattle.dp_pieces.specs.Sets.{set_by};
ghost use Rattle.dp_pieces.specs.Shown.{shown_piece, shown_all};

use crate::byte_set::ByteSet;
use dp_conf::NoMemory;
use std::alloc::Global;

/// A piece of a text: a known byte, one byte of a set, or any number of bytes of a set.
#[derive(Clone, Copy)]
pub enum Piece {
    Known(u8),
    OneOf(ByteSet),
    AnyOf(ByteSet),
}

impl Piece {
    /// The byte of the piece, if it is known.
    pub fn byte(&self) -> Option<u8>
        ensures { result ≡ byte_of (shown_piece self.now) }
    {
        match self {
            Piece::Known(byte) => Some(*byte),
            Piece::OneOf(_) | Piece::AnyOf(_) => None,
        }
    }

    /// Whether the byte is one of those of the piece.
    pub(crate) fn may_be(&self, byte: u8) -> bool
        ensures { result ≡ piece_set (shown_piece self.now) byte }
    {
        match self {
            Piece::Known(only) => byte == *only,
            Piece::OneOf(set) | Piece::AnyOf(set) => set.has(byte),
        }
    }
}

/// Adds the bytes of a piece to the set.
fn add_piece(set: &mut ByteSet, piece: &Piece)
    ensures { (b : ℕ) → set_by set.new b ≡ (set_by set.old b || piece_set (shown_piece piece.now) b) }
{
    match piece {
        Piece::Known(byte) => set.put(*byte),
        Piece::OneOf(other) | Piece::AnyOf(other) => set.add(other),
    }
}

/// Adds the bytes of all pieces to the set.
pub fn add_pieces(set: &mut ByteSet, pieces: &[Piece])
    ensures { (b : ℕ) → set_by set.new b ≡ (set_by set.old b || pieces_set (shown_all pieces.now) b) }
{
    for piece in pieces {
        add_piece(set, piece);
    }
}

/// The bytes of pieces.
pub fn bytes_of(pieces: &[Piece]) -> ByteSet
    ensures { (b : ℕ) → set_by result b ≡ pieces_set (shown_all pieces.now) b }
{
    let mut set = ByteSet::none();
    add_pieces(&mut set, pieces);
    set
}

/// The bytes of a text.
pub fn bytes_in(text: &[u8]) -> ByteSet
    ensures { (b : ℕ) → set_by result b ≡ bytes_in text.now b }
{
    let mut set = ByteSet::none();
    for byte in text {
        set.put(*byte);
    }
    set
}

/// Whether a text of the pieces may contain the byte.
#[tactic(auto, unfolding(crate::specs::Pieces::pieces_set))]
pub(crate) fn may_have(pieces: &[Piece], byte: u8) -> bool
    ensures { result ≡ pieces_set (shown_all pieces.now) byte }
{
    let mut left = pieces;
    while let Some((first, rest)) = left.split_first() {
        if first.may_be(byte) {
            return true;
        }
        left = rest;
    }
    false
}

/// Any number of bytes of the set, as a single piece. It fails only if memory runs out.
pub fn any_bytes(alloc: Global, set: ByteSet) -> Result<Vec<Piece>, NoMemory>
    ensures { IfOk result (λ all. shown_all all.items ≡ any_bytes_of (set_by set)) }
{
    let mut all = Vec::new(alloc);
    all.push(Piece::AnyOf(set))?;
    Ok(all)
}

/// A copy of the pieces.
pub(crate) fn copy_of(alloc: Global, pieces: &[Piece]) -> Result<Vec<Piece>, NoMemory>
    ensures { IfOk result (λ copy. shown_all copy.items ≡ shown_all pieces.now) }
{
    let mut copy = Vec::new(alloc);
    copy.extend_from_slice(pieces)?;
    Ok(copy)
}

/// The text of pieces that are all known, or None if one of them is not. It fails only if memory runs out.
pub fn known_text(alloc: Global, pieces: &[Piece]) -> Result<Option<Vec<u8>>, NoMemory>
    ensures { IfOk result (λ text. MatchOption text (text_known (shown_all pieces.now) ≡ None) (λ bytes. text_known (shown_all pieces.now) ≡ Some bytes.items)) }
{
    let mut text = Vec::with_capacity(alloc, pieces.len())?;
    let mut left = pieces;
    while let Some((first, rest)) = left.split_first() {
        let Some(byte) = first.byte() else {
            return Ok(None);
        };
        text.push(byte)?;
        left = rest;
    }
    Ok(Some(text))
}
