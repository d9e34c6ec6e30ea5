//! Where devices lead a call: `Local/EXTEN@CONTEXT` leads to an extension.
ghost use Rattle.std.specs.Prelude.{◌≡◌, ◌||◌, ◌++◌, IfOk, OnOk};
ghost use Rattle.dp_closed.specs.Shown.{shown_duties};
ghost use Rattle.dp_pieces.specs.Cuts.{cut_pieces};
ghost use Rattle.dp_pieces.specs.Pieces.{pieces_set, text_known};
ghost use Rattle.dp_pieces.specs.Sets.{set_by};
ghost use Rattle.dp_pieces.specs.Shown.{shown_all, shown_piece};
ghost use Rattle.dp_wide_duties.specs.Devices as spec;

use crate::places::{DEFAULT, push_any_in};
use dp_closed::{KeptDuty, push_area, set_of};
use dp_conf::{NoMemory, same_word};
use dp_pieces::{ByteSet, Cutting, Piece, cut_pieces, known_text, trim_pieces};
use std::alloc::Global;

/// Adds any extension with these bytes, in any context with these bytes or in `default`.
fn push_anywhere(alloc: Global, set: ByteSet, duties: &mut Vec<KeptDuty>) -> Result<(), NoMemory>
    ensures { OnOk result (shown_duties duties.new.items ≡ shown_duties duties.old.items ++ spec.anywhere (set_by set)) }
{
    push_any_in(alloc, set, &[Piece::AnyOf(set)], duties)?;
    push_any_in(alloc, set, &DEFAULT, duties)
}

/// Whether the set has a letter, in any case.
fn has_letter(set: &ByteSet, small: u8, large: u8) -> bool
    ensures { result ≡ (set_by set.now small || set_by set.now large) }
{
    set.has(small) || set.has(large)
}

/// Whether a text with these bytes may be `local`, in any ASCII case.
fn may_be_local(set: &ByteSet) -> bool
    ensures { result ≡ spec.may_be_local (set_by set.now) }
{
    has_letter(set, b'l', b'L')
        && has_letter(set, b'o', b'O')
        && has_letter(set, b'c', b'C')
        && has_letter(set, b'a', b'A')
}

/// Adds the duties of a text that may hold a device with the bytes of these pieces.
fn push_unsure(alloc: Global, pieces: &[Piece], duties: &mut Vec<KeptDuty>) -> Result<(), NoMemory>
    ensures { OnOk result (shown_duties duties.new.items
        ≡ shown_duties duties.old.items ++ spec.unsure_owed (pieces_set (shown_all pieces.now))) }
{
    let set = set_of(pieces);
    if !may_be_local(&set) {
        return Ok(());
    }
    push_anywhere(alloc, set, duties)
}

/// Adds the duties of `EXTEN@CONTEXT`.
fn push_place(alloc: Global, text: &[Piece], duties: &mut Vec<KeptDuty>) -> Result<(), NoMemory>
    ensures { OnOk result (shown_duties duties.new.items
        ≡ shown_duties duties.old.items ++ spec.place_by (shown_all text.now) (cut_pieces 64 (shown_all text.now))) }
{
    match cut_pieces(text, b'@') {
        Cutting::Nowhere => push_area(alloc, &DEFAULT, text, duties),
        Cutting::Unsure => push_anywhere(alloc, set_of(text), duties),
        Cutting::At(exten, context) => push_area(alloc, context, exten, duties),
    }
}

/// Adds the duties of `EXTEN@CONTEXT/OPTIONS`.
fn push_local(alloc: Global, text: &[Piece], duties: &mut Vec<KeptDuty>) -> Result<(), NoMemory>
    ensures { OnOk result (shown_duties duties.new.items
        ≡ shown_duties duties.old.items ++ spec.local_by (shown_all text.now) (cut_pieces 47 (shown_all text.now))) }
{
    match cut_pieces(text, b'/') {
        Cutting::Nowhere => push_place(alloc, text, duties),
        Cutting::Unsure => push_anywhere(alloc, set_of(text), duties),
        Cutting::At(place, _) => push_place(alloc, place, duties),
    }
}

/// Whether a technology may be `Local`.
fn is_local(alloc: Global, technology: &[Piece]) -> Result<bool, NoMemory>
    ensures { IfOk result (λ is. is ≡ spec.is_local (text_known (shown_all technology.now)) (pieces_set (shown_all technology.now))) }
{
    match known_text(alloc, technology)? {
        None => Ok(may_be_local(&set_of(technology))),
        Some(name) => Ok(same_word(&name, b"Local")),
    }
}

/// Adds the duties of a device with a technology.
fn push_technology(
    alloc: Global,
    technology: &[Piece],
    place: &[Piece],
    duties: &mut Vec<KeptDuty>,
) -> Result<(), NoMemory>
    ensures { OnOk result (shown_duties duties.new.items ≡ shown_duties duties.old.items
        ++ spec.technology_owed (shown_all technology.now) (shown_all place.now)) }
{
    if !is_local(alloc, technology)? {
        return Ok(());
    }
    push_local(alloc, place, duties)
}

/// Adds the duties of a device.
fn push_device(alloc: Global, text: &[Piece], duties: &mut Vec<KeptDuty>) -> Result<(), NoMemory>
    ensures { OnOk result (shown_duties duties.new.items
        ≡ shown_duties duties.old.items ++ spec.device_owed (shown_all text.now)) }
{
    let device = trim_pieces(alloc, text)?;
    match cut_pieces(&device, b'/') {
        Cutting::Nowhere => Ok(()),
        Cutting::Unsure => push_unsure(alloc, &device, duties),
        Cutting::At(technology, place) => push_technology(alloc, technology, place, duties),
    }
}

/// Adds the duties of the first of several devices.
fn push_first(alloc: Global, text: &[Piece], duties: &mut Vec<KeptDuty>) -> Result<(), NoMemory>
    ensures { OnOk result (shown_duties duties.new.items
        ≡ shown_duties duties.old.items ++ spec.first_by (shown_all text.now) (cut_pieces 38 (shown_all text.now))) }
{
    match cut_pieces(text, b'&') {
        Cutting::Nowhere => push_device(alloc, text, duties),
        Cutting::Unsure => push_unsure(alloc, text, duties),
        Cutting::At(device, _) => push_device(alloc, device, duties),
    }
}

/// Adds the duties of the first of several devices, if it begins here.
fn push_begun(
    alloc: Global,
    begins: bool,
    text: &[Piece],
    duties: &mut Vec<KeptDuty>,
) -> Result<(), NoMemory>
    ensures { OnOk result (shown_duties duties.new.items
        ≡ shown_duties duties.old.items ++ spec.begun_owed begins (shown_all text.now)) }
{
    if !begins {
        return Ok(());
    }
    push_first(alloc, text, duties)
}

/// Whether a piece separates devices.
fn separates(piece: &Piece) -> bool
    ensures { result ≡ spec.separates (shown_piece piece.now) }
{
    match piece {
        Piece::Known(byte) => *byte == b'&',
        Piece::OneOf(_) | Piece::AnyOf(_) => false,
    }
}

/// Adds the duties of devices, which are separated by `&`.
pub(crate) fn push_devices(
    alloc: Global,
    pieces: &[Piece],
    duties: &mut Vec<KeptDuty>,
) -> Result<(), NoMemory>
    ensures { OnOk result (shown_duties duties.new.items
        ≡ shown_duties duties.old.items ++ spec.devices_owed (shown_all pieces.now)) }
{
    let mut begins = true;
    let mut left = pieces;
    while let Some((first, rest)) = left.split_first() {
        push_begun(alloc, begins, left, duties)?;
        begins = separates(first);
        left = rest;
    }
    Ok(())
}
