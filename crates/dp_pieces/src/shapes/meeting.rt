//! Shapes met with names.
ghost use Rattle.std.specs.Prelude.{◌≡◌, true, ◌++◌, IfOk, MatchOption, OnOk};
ghost use Rattle.dp_pieces.specs.Met.{after_match, met_classes};
ghost use Rattle.dp_pieces.specs.Pieces.{exactly, any_bytes_of};
ghost use Rattle.dp_pieces.specs.Sets.{set_by};
ghost use Rattle.dp_pieces.specs.ShapeSteps.{AreAllBytes, AreBytes, IsMet, is_any};
ghost use Rattle.dp_pieces.specs.Shown.{shown_piece, shown_all};

use crate::byte_set::ByteSet;
use crate::piece::{Piece, bytes_of, may_have};
use crate::shapes::name_place::{NamePlace, meet};
use crate::shapes::sets::push_all;
use dp_conf::NoMemory;
use dp_pattern::{Class, Name, Parts, Tail};
use std::alloc::Global;

/// Adds any bytes of a set, met with the classes of a pattern, at the end.
fn push_any(
    pieces: &mut Vec<Piece>,
    set: &ByteSet,
    classes: &[Class],
    tail: Tail,
) -> Result<(), NoMemory>
    requires { AreAllBytes classes.now }
    ensures { OnOk result (shown_all pieces.new.items
        ≡ shown_all pieces.old.items ++ met_classes (any_bytes_of (set_by set.now)) classes.now tail) }
{
    for class in classes {
        pieces.push(Piece::OneOf(meet(set, NamePlace::Class(class))))?;
    }
    match tail {
        Tail::End => (),
        Tail::Dot | Tail::Bang => pieces.push(Piece::AnyOf(*set))?,
    }
    Ok(())
}

/// A piece with one byte, met with the class of that byte.
fn meet_one(piece: &Piece, class: &Class) -> Option<Piece>
    requires { AreBytes class.now }
    ensures { MatchOption result (is_any (shown_piece piece.now) ≡ true) (λ met. IsMet (shown_piece piece.now) class.now (shown_piece met)) }
{
    match piece {
        Piece::Known(byte) => Some(Piece::Known(*byte)),
        Piece::OneOf(set) => Some(Piece::OneOf(meet(set, NamePlace::Class(class)))),
        Piece::AnyOf(_) => None,
    }
}

/// Adds pieces, met with the classes of a pattern, at the end.
fn push_met(
    met: &mut Vec<Piece>,
    pieces: &[Piece],
    classes: &[Class],
    tail: Tail,
) -> Result<(), NoMemory>
    requires { AreAllBytes classes.now }
    ensures { OnOk result (shown_all met.new.items
        ≡ shown_all met.old.items ++ met_classes (shown_all pieces.now) classes.now tail) }
{
    let mut rest = pieces;
    let mut left = classes;
    while let Some((class, after)) = left.split_first() {
        let Some((piece, later)) = rest.split_first() else {
            return Ok(());
        };
        let Some(one) = meet_one(piece, class) else {
            push_any(met, &bytes_of(rest), left, tail)?;
            return Ok(());
        };
        met.push(one)?;
        rest = later;
        left = after;
    }
    match tail {
        Tail::End => Ok(()),
        Tail::Dot | Tail::Bang => push_all(met, rest),
    }
}

/// Adds the pieces of a known text at the end.
fn push_text(pieces: &mut Vec<Piece>, text: &[u8]) -> Result<(), NoMemory>
    ensures { OnOk result (shown_all pieces.new.items ≡ shown_all pieces.old.items ++ exactly text.now) }
{
    for byte in text {
        pieces.push(Piece::Known(*byte))?;
    }
    Ok(())
}

/// The greatest number of pieces in a shape that is met with the name.
fn most_pieces(pieces: &[Piece], name: &Name) -> usize {
    let places = match name.parts() {
        Parts::Plain(plain) => plain.len(),
        Parts::Pattern(classes, _) => classes.len(),
    };
    places.saturating_add(pieces.len())
}

/// What is known of a text of this shape that matches the name of an extension. It fails only if memory runs out.
///
/// Dashes are ignored in a match, so a shape that may contain one is unchanged.
pub fn pieces_after_match(
    alloc: Global,
    pieces: &[Piece],
    name: &Name,
) -> Result<Vec<Piece>, NoMemory>
    ensures { IfOk result (λ met. shown_all met.items ≡ after_match (shown_all pieces.now) name.now) }
{
    let mut met = Vec::with_capacity(alloc, most_pieces(pieces, name))?;
    if may_have(pieces, b'-') {
        push_all(&mut met, pieces)?;
        return Ok(met);
    }
    match name.parts() {
        Parts::Plain(plain) => push_text(&mut met, plain)?,
        Parts::Pattern(classes, tail) => push_met(&mut met, pieces, classes, tail)?,
    }
    Ok(met)
}
