//! Empty sets, and adding pieces.
ghost use Rattle.std.specs.Prelude.{◌≡◌, ◌++◌, IsTrue, OnOk};
ghost use Rattle.dp_pieces.specs.Bytes.{IsPart, none};
ghost use Rattle.dp_pieces.specs.Sets.{set_by};
ghost use Rattle.dp_pieces.specs.Shown.{shown_all};

use crate::byte_set::ByteSet;
use crate::piece::Piece;
use dp_conf::NoMemory;

/// Adds pieces at the end.
pub(crate) fn push_all(pieces: &mut Vec<Piece>, more: &[Piece]) -> Result<(), NoMemory>
    ensures { OnOk result (shown_all pieces.new.items ≡ shown_all pieces.old.items ++ shown_all more.now) }
{
    pieces.extend_from_slice(more)?;
    Ok(())
}

/// Whether the set is empty.
pub(crate) fn is_none(set: &ByteSet) -> bool
    ensures { IsTrue result → IsPart (set_by set.now) none }
{
    set.is_part(&ByteSet::none())
}
