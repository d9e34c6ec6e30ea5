//! The duties of the applications that set names, read names, and delete keys.
ghost use Rattle.std.specs.Prelude.{◌≡◌, ◌++◌, ◌∷◌, [], IfOk, OnOk, codes};
ghost use Rattle.dp_closed.specs.Shown.{shown_duties};
ghost use Rattle.dp_pieces.specs.Bytes.{either};
ghost use Rattle.dp_pieces.specs.Cuts.{cut_known};
ghost use Rattle.dp_pieces.specs.Pieces.{bytes_in, pieces_set, text_known};
ghost use Rattle.dp_pieces.specs.Sets.{set_by};
ghost use Rattle.dp_pieces.specs.Shown.{shown_all};
ghost use Rattle.dp_reach.specs.Bounds as bounds;
ghost use Rattle.dp_vars.specs.Functions.{target_seen};
ghost use Rattle.dp_wide.specs.Effects.{effect_seen};
ghost use Rattle.dp_wide.specs.ReadNames.{read_names};
ghost use Rattle.dp_wide.specs.Settings as wide;
ghost use Rattle.dp_wide_reach.specs.Settings as spec;

use crate::held_bytes::{known_front, push_each};
use dp_closed::{KeptDuty, bytes_in, push_name, set_of};
use dp_conf::{NoMemory, trim};
use dp_pieces::{ByteSet, Piece, known_text};
use dp_wide::{Effect, SetTarget, bare_name, deleted_mark, effect_of};
use std::alloc::Global;

/// Adds the duties if any name, and the caller's number, may have these bytes.
fn push_any(set: ByteSet, duties: &mut Vec<KeptDuty>) -> Result<(), NoMemory>
    ensures { OnOk result (shown_duties duties.new.items ≡ shown_duties duties.old.items ++ spec.any_duties (set_by set)) }
{
    duties.push(KeptDuty::HoldsAll(set))?;
    duties.push(KeptDuty::Calls(set))?;
    Ok(())
}

/// Adds the duties if any name, and the caller's number, may have the bytes of the pieces.
pub(crate) fn push_unknown(pieces: &[Piece], duties: &mut Vec<KeptDuty>) -> Result<(), NoMemory>
    ensures { OnOk result (shown_duties duties.new.items
        ≡ shown_duties duties.old.items ++ spec.any_duties (pieces_set (shown_all pieces.now))) }
{
    push_any(set_of(pieces), duties)
}

/// Adds the duties if one thing is set to a text with these bytes.
fn push_target(
    alloc: Global,
    target: SetTarget<'_>,
    set: ByteSet,
    duties: &mut Vec<KeptDuty>,
) -> Result<(), NoMemory>
    ensures { OnOk result (shown_duties duties.new.items
        ≡ shown_duties duties.old.items ++ spec.target_duties (set_by set) (target_seen target.entry)) }
{
    match target {
        SetTarget::Variable(name) => push_name(alloc, name, set, duties),
        SetTarget::Global(name) => push_name(alloc, name, set, duties),
        SetTarget::Local(name) => push_name(alloc, name, set, duties),
        SetTarget::Caller => {
            duties.push(KeptDuty::Calls(set))?;
            Ok(())
        }
        SetTarget::Nothing => Ok(()),
    }
}

/// Adds the duties of what a name sets, if it is set to a text with these bytes.
fn push_effect(
    alloc: Global,
    effect: Effect<'_>,
    set: ByteSet,
    duties: &mut Vec<KeptDuty>,
) -> Result<(), NoMemory>
    ensures { OnOk result (shown_duties duties.new.items
        ≡ shown_duties duties.old.items ++ spec.effect_duties (set_by set) (effect_seen effect.entry)) }
{
    match effect {
        Effect::OneTarget(target) => push_target(alloc, target, set, duties),
        Effect::NameAndNumber => {
            duties.push(KeptDuty::Calls(set))?;
            push_name(alloc, b"CALLERID(name)", set, duties)
        }
        Effect::EmptyKey(_) => Ok(()),
        Effect::EachName(_) => push_any(set, duties),
    }
}

/// Adds the duties if a name is set to a value of these pieces.
fn push_setting(
    alloc: Global,
    name: &[u8],
    value: &[Piece],
    duties: &mut Vec<KeptDuty>,
) -> Result<(), NoMemory>
    ensures { OnOk result (shown_duties duties.new.items ≡ shown_duties duties.old.items
        ++ spec.effect_duties (pieces_set (shown_all value.now)) (wide.effect_of (wide.bare_name name.now))) }
{
    push_effect(alloc, effect_of(bare_name(name)), set_of(value), duties)
}

/// Adds the duties of `Set`.
pub(crate) fn push_set(
    alloc: Global,
    pieces: &[Piece],
    duties: &mut Vec<KeptDuty>,
) -> Result<(), NoMemory>
    ensures { OnOk result (shown_duties duties.new.items ≡ shown_duties duties.old.items
        ++ spec.setting_duties (shown_all pieces.now) (cut_known 61 (shown_all pieces.now))) }
{
    match known_front(alloc, pieces, b'=')? {
        None => push_unknown(pieces, duties),
        Some((name, value)) => push_setting(alloc, &name, value, duties),
    }
}

/// Adds the duties of `DBdeltree`.
pub(crate) fn push_deletion(
    alloc: Global,
    pieces: &[Piece],
    duties: &mut Vec<KeptDuty>,
) -> Result<(), NoMemory>
    ensures { OnOk result (shown_duties duties.new.items
        ≡ shown_duties duties.old.items ++ spec.deletion_duties (text_known (shown_all pieces.now))) }
{
    match known_text(alloc, pieces)? {
        None => push_each(bytes_in(b"1"), duties),
        Some(text) => {
            let name = deleted_mark(alloc, trim(&text))?;
            push_name(alloc, &name, bytes_in(b"1"), duties)
        }
    }
}

/// The bytes of pieces, and the comma.
fn listed_set(pieces: &[Piece]) -> ByteSet
    ensures { set_by result ≡ either (pieces_set (shown_all pieces.now)) (bytes_in (codes ",")) }
{
    set_of(pieces).with(&bytes_in(b","))
}

/// Adds the duties of `Read`.
pub(crate) fn push_read(
    alloc: Global,
    pieces: &[Piece],
    duties: &mut Vec<KeptDuty>,
) -> Result<(), NoMemory>
    ensures { OnOk result (shown_duties duties.new.items ≡ shown_duties duties.old.items
        ++ bounds.Holds read_names (either (pieces_set (shown_all pieces.now)) (bytes_in (codes ","))) ∷ []) }
{
    push_name(alloc, b"READ()", listed_set(pieces), duties)
}
