//! Duties that names may have the bytes of pieces, and texts that are known in front of a byte.
ghost use Rattle.std.specs.Prelude.{◌≡◌, ◌++◌, ◌∷◌, [], IfOk, OnOk};
ghost use Rattle.std.specs.Option.{option_map};
ghost use Rattle.dp_closed.specs.Shown.{shown_duties};
ghost use Rattle.dp_pieces.specs.Bytes.{digits};
ghost use Rattle.dp_pieces.specs.Cuts.{cut_known};
ghost use Rattle.dp_pieces.specs.Pieces.{pieces_set};
ghost use Rattle.dp_pieces.specs.Sets.{set_by};
ghost use Rattle.dp_pieces.specs.Shown.{shown_all};
ghost use Rattle.dp_reach.specs.Bounds as bounds;
ghost use Rattle.dp_wide_duties.specs.Rows.{shown_front};

use dp_closed::{KeptDuty, push_name, set_of};
use dp_conf::NoMemory;
use dp_pieces::{ByteSet, Piece, cut_known, known_text};
use std::alloc::Global;

/// Adds that nothing is known of what an application does.
pub(crate) fn push_anything(duties: &mut Vec<KeptDuty>) -> Result<(), NoMemory>
    ensures { OnOk result (shown_duties duties.new.items ≡ shown_duties duties.old.items ++ bounds.Anything ∷ []) }
{
    duties.push(KeptDuty::Anything)?;
    Ok(())
}

/// Adds that a name may have the bytes of pieces.
pub(crate) fn push_held(
    alloc: Global,
    name: &[u8],
    pieces: &[Piece],
    duties: &mut Vec<KeptDuty>,
) -> Result<(), NoMemory>
    ensures { OnOk result (shown_duties duties.new.items
        ≡ shown_duties duties.old.items ++ bounds.Holds name.now (pieces_set (shown_all pieces.now)) ∷ []) }
{
    push_name(alloc, name, set_of(pieces), duties)
}

/// Adds that a name may have digits.
pub(crate) fn push_digits(
    alloc: Global,
    name: &[u8],
    duties: &mut Vec<KeptDuty>,
) -> Result<(), NoMemory>
    ensures { OnOk result (shown_duties duties.new.items ≡ shown_duties duties.old.items ++ bounds.Holds name.now digits ∷ []) }
{
    push_name(alloc, name, ByteSet::digits(), duties)
}

/// Adds that each name may have these bytes.
pub(crate) fn push_each(set: ByteSet, duties: &mut Vec<KeptDuty>) -> Result<(), NoMemory>
    ensures { OnOk result (shown_duties duties.new.items ≡ shown_duties duties.old.items ++ bounds.HoldsAll (set_by set) ∷ []) }
{
    duties.push(KeptDuty::HoldsAll(set))?;
    Ok(())
}

/// A known text before the first such byte, and the pieces after that, or None if an unknown piece comes first or there is no such byte.
pub(crate) fn known_front(
    alloc: Global,
    pieces: &[Piece],
    mark: u8,
) -> Result<Option<(Vec<u8>, &[Piece])>, NoMemory>
    ensures { IfOk result (λ cut. option_map shown_front cut ≡ cut_known mark (shown_all pieces.now)) }
{
    let Some((front, rest)) = cut_known(pieces, mark) else {
        return Ok(None);
    };
    match known_text(alloc, front)? {
        None => Ok(None),
        Some(text) => Ok(Some((text, rest))),
    }
}
