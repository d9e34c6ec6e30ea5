//! The duties of `Set`.
ghost use Rattle.std.specs.Prelude.{◌≡◌, ◌++◌, ◌∷◌, [], IfOk, OnOk};
ghost use Rattle.dp_closed.specs.Shown.{shown_duties};
ghost use Rattle.dp_closed.specs.Steps as steps;
ghost use Rattle.dp_conf.specs.Cut.{cut_once};
ghost use Rattle.dp_pieces.specs.Cuts.{cut_known};
ghost use Rattle.dp_pieces.specs.Pieces.{pieces_set};
ghost use Rattle.dp_pieces.specs.Sets.{set_by};
ghost use Rattle.dp_pieces.specs.Shown.{shown_piece, shown_all};
ghost use Rattle.dp_reach.specs.Settings as spec;

use crate::duty::{KeptDuty, push_name};
use crate::sets::set_of;
use dp_conf::{NoMemory, cut_once, trim, trim_start};
use dp_flow::argument_of;
use dp_pieces::{ByteSet, Piece, cut_known};
use std::alloc::Global;

/// Adds the byte of a piece, if it is known.
fn push_known(text: &mut Vec<u8>, piece: &Piece) -> Result<(), NoMemory>
    ensures { OnOk result (text.new.items ≡ text.old.items ++ steps.known_bytes (shown_piece piece.now ∷ [])) }
{
    match piece {
        Piece::Known(byte) => {
            text.push(*byte)?;
            Ok(())
        }
        Piece::OneOf(_) | Piece::AnyOf(_) => Ok(()),
    }
}

/// The known bytes.
fn known_bytes(alloc: Global, pieces: &[Piece]) -> Result<Vec<u8>, NoMemory>
    ensures { IfOk result (λ text. text.items ≡ steps.known_bytes (shown_all pieces.now)) }
{
    let mut text = Vec::with_capacity(alloc, pieces.len())?;
    for piece in pieces {
        push_known(&mut text, piece)?;
    }
    Ok(text)
}

/// Adds the duties if a function with an argument is set to a value with these bytes.
fn push_function(
    alloc: Global,
    function: &[u8],
    argument: &[u8],
    set: ByteSet,
    duties: &mut Vec<KeptDuty>,
) -> Result<(), NoMemory>
    ensures { OnOk result (shown_duties duties.new.items
        ≡ shown_duties duties.old.items ++ spec.function_duties function.now argument.now (set_by set)) }
{
    if function == b"GLOBAL".as_slice() || function == b"LOCAL".as_slice() {
        return push_name(alloc, argument, set, duties);
    }
    if function == b"CALLERID".as_slice() && argument == b"num".as_slice() {
        duties.push(KeptDuty::Calls(set))?;
    }
    Ok(())
}

/// Adds the duties if a name is set to a value with these bytes: a variable or a function.
fn push_setting(
    alloc: Global,
    name: &[u8],
    set: ByteSet,
    duties: &mut Vec<KeptDuty>,
) -> Result<(), NoMemory>
    ensures { OnOk result (shown_duties duties.new.items
        ≡ shown_duties duties.old.items ++ spec.name_duties name.now (cut_once 40 name.now) (set_by set)) }
{
    match cut_once(name, b'(') {
        None => push_name(alloc, name, set, duties),
        Some((function, after)) => match argument_of(after) {
            None => Ok(()),
            Some(argument) => push_function(alloc, function, argument, set, duties),
        },
    }
}

/// Adds the duties if a function is set whose argument is unknown.
fn push_any_argument(
    function: &[u8],
    set: ByteSet,
    duties: &mut Vec<KeptDuty>,
) -> Result<(), NoMemory>
    ensures { OnOk result (shown_duties duties.new.items
        ≡ shown_duties duties.old.items ++ spec.any_argument_duties function.now (set_by set)) }
{
    if function == b"GLOBAL".as_slice() || function == b"LOCAL".as_slice() {
        duties.push(KeptDuty::HoldsAll(set))?;
        return Ok(());
    }
    if function == b"CALLERID".as_slice() {
        duties.push(KeptDuty::Calls(set))?;
    }
    Ok(())
}

/// Adds the duties if no name is known before the first `=`: the name of a function may be.
fn push_unknown(alloc: Global, pieces: &[Piece], duties: &mut Vec<KeptDuty>) -> Result<(), NoMemory>
    ensures { OnOk result (shown_duties duties.new.items ≡ shown_duties duties.old.items
        ++ spec.unknown_duties (pieces_set (shown_all pieces.now)) (cut_known 40 (shown_all pieces.now))) }
{
    let set = set_of(pieces);
    match cut_known(pieces, b'(') {
        None => {
            duties.push(KeptDuty::HoldsAll(set))?;
            duties.push(KeptDuty::Calls(set))?;
            Ok(())
        }
        Some((function, _)) => {
            let function = known_bytes(alloc, function)?;
            push_any_argument(trim_start(&function), set, duties)
        }
    }
}

/// Adds the duties of `Set`.
pub(crate) fn push_set(
    alloc: Global,
    pieces: &[Piece],
    duties: &mut Vec<KeptDuty>,
) -> Result<(), NoMemory>
    ensures { OnOk result (shown_duties duties.new.items
        ≡ shown_duties duties.old.items ++ spec.set_duties steps.any_area (shown_all pieces.now)) }
{
    match cut_known(pieces, b'=') {
        None => push_unknown(alloc, pieces, duties),
        Some((name, value)) => {
            let name = known_bytes(alloc, name)?;
            push_setting(alloc, trim(&name), set_of(value), duties)
        }
    }
}
