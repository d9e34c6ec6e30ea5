//! Whether the texts of shapes match names.
ghost use Rattle.std.specs.Prelude.{◌≤◌, ℕ, List, IsFalse, IsTrue, length};
ghost use Rattle.dp_pattern.specs.Kept.{parts_meaning};
ghost use Rattle.dp_pattern.specs.Matches.{FitsTail, Matches};
ghost use Rattle.dp_pattern.specs.Walk.{classes_of, tail_of};
ghost use Rattle.dp_pieces.specs.Bytes.{Within};
ghost use Rattle.dp_pieces.specs.Pieces.{Fits};
ghost use Rattle.dp_pieces.specs.Sets.{set_by};
ghost use Rattle.dp_pieces.specs.ShapeSteps.{AlwaysTakes, AlwaysTakesWithin, AreAllBytes, Misses, MissesWithin};
ghost use Rattle.dp_pieces.specs.Shown.{shown_all};

use crate::byte_set::ByteSet;
use crate::piece::{Piece, bytes_of, may_have};
use crate::shapes::length::{is_any, least_of, skip_nothing};
use crate::shapes::name_place::{all_be, all_stand, may_be, may_stand, next_place, tail_of};
use crate::shapes::sets::is_none;
use dp_pattern::{Name, Parts, Tail};

/// Whether the tail may allow this many bytes of the set, or more.
fn may_follow(set: &ByteSet, least: usize, tail: Tail) -> bool
    ensures { IsFalse result
        → (digits : List ℕ) → Within (set_by set.now) digits → least ≤ length digits → FitsTail tail digits → ⊥ }
{
    match tail {
        Tail::End => least == 0,
        Tail::Dot => !is_none(set),
        Tail::Bang => true,
    }
}

/// Whether this many bytes of the set, or more, may match.
fn may_hold(set: &ByteSet, least: usize, parts: Parts<'_>) -> bool
    requires { AreAllBytes (classes_of (parts_meaning parts)) }
    ensures { IsFalse result
        → MissesWithin (set_by set.now) least (classes_of (parts_meaning parts.entry)) (tail_of (parts_meaning parts.entry)) }
{
    let mut rest = parts;
    let mut more = least;
    while let Some((place, after)) = next_place(rest) {
        if !may_stand(set, place) {
            return false;
        }
        more = more.saturating_sub(1);
        rest = after;
    }
    may_follow(set, more, tail_of(rest))
}

/// Whether a text of the pieces may match, with a dash treated like any other byte.
fn may_meet(pieces: &[Piece], parts: Parts<'_>) -> bool
    requires { AreAllBytes (classes_of (parts_meaning parts)) }
    ensures { IsFalse result
        → Misses (shown_all pieces.now) (classes_of (parts_meaning parts.entry)) (tail_of (parts_meaning parts.entry)) }
{
    let mut left = pieces;
    let mut rest = parts;
    while let Some((place, after)) = next_place(rest) {
        let Some((piece, later)) = skip_nothing(left).split_first() else {
            return false;
        };
        if is_any(piece) {
            return may_hold(&bytes_of(left), least_of(left), rest);
        }
        if !may_be(piece, place) {
            return false;
        }
        left = later;
        rest = after;
    }
    may_follow(&bytes_of(left), least_of(left), tail_of(rest))
}

/// Whether a text of this shape may match the name of an extension: if it returns false none does.
///
/// Dashes are ignored in a match, so a shape that may contain one is treated as any number of bytes of its set.
pub fn may_match(pieces: &[Piece], name: &Name) -> bool
    ensures { IsFalse result → (text : List ℕ) → Fits (shown_all pieces.now) text → Matches name.now text → ⊥ }
{
    if may_have(pieces, b'-') {
        return may_hold(&bytes_of(pieces), 0, name.parts());
    }
    may_meet(pieces, name.parts())
}

/// Whether the tail allows any text of this many bytes of the set, or more.
fn all_follow(set: &ByteSet, least: usize, tail: Tail) -> bool
    ensures { IsTrue result → (digits : List ℕ) → Within (set_by set.now) digits → least ≤ length digits → FitsTail tail digits }
{
    match tail {
        Tail::End => is_none(set),
        Tail::Dot => least > 0,
        Tail::Bang => true,
    }
}

/// Whether any text of this many bytes of the set, or more, matches.
fn all_hold(set: &ByteSet, least: usize, parts: Parts<'_>) -> bool
    requires { AreAllBytes (classes_of (parts_meaning parts)) }
    ensures { IsTrue result
        → AlwaysTakesWithin (set_by set.now) least (classes_of (parts_meaning parts.entry)) (tail_of (parts_meaning parts.entry)) }
{
    let mut rest = parts;
    let mut more = least;
    while let Some((place, after)) = next_place(rest) {
        if more == 0 || !all_stand(set, place) {
            return false;
        }
        more -= 1;
        rest = after;
    }
    all_follow(set, more, tail_of(rest))
}

/// Whether each text of the pieces matches, with a dash treated like any other byte.
fn all_meet(pieces: &[Piece], parts: Parts<'_>) -> bool
    requires { AreAllBytes (classes_of (parts_meaning parts)) }
    ensures { IsTrue result
        → AlwaysTakes (shown_all pieces.now) (classes_of (parts_meaning parts.entry)) (tail_of (parts_meaning parts.entry)) }
{
    let mut left = pieces;
    let mut rest = parts;
    while let Some((place, after)) = next_place(rest) {
        let Some((piece, later)) = skip_nothing(left).split_first() else {
            return false;
        };
        if is_any(piece) {
            return all_hold(&bytes_of(left), least_of(left), rest);
        }
        if !all_be(piece, place) {
            return false;
        }
        left = later;
        rest = after;
    }
    all_follow(&bytes_of(left), least_of(left), tail_of(rest))
}

/// Whether each text of this shape is seen to match the name of an extension: if it returns true each does.
///
/// For a shape that may contain a dash it returns false.
pub fn covers(pieces: &[Piece], name: &Name) -> bool
    ensures { IsTrue result → (text : List ℕ) → Fits (shown_all pieces.now) text → Matches name.now text }
{
    // Most names differ at their first place.
    all_meet(pieces, name.parts()) && !may_have(pieces, b'-')
}
