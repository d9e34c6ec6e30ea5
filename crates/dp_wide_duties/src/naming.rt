//! Names that lead a call elsewhere when they are set: the context of transfers, and what runs when a call ends.
ghost use Rattle.std.specs.Prelude.{◌≡◌, ◌++◌, OnOk};
ghost use Rattle.dp_closed.specs.Shown.{shown_area, shown_duties};
ghost use Rattle.dp_pieces.specs.Shown.{shown_all};
ghost use Rattle.dp_wide_duties.specs.Naming as spec;

use crate::calls::push_counted;
use crate::held_bytes::known_front;
use crate::places::{dialled_bytes, push_any_in};
use dp_closed::{KeptArea, KeptDuty};
use dp_conf::{NoMemory, same_word};
use dp_pieces::Piece;
use dp_wide::bare_name;
use std::alloc::Global;

/// Whether a name is that of the context of transfers, or of a global that is.
fn names_transfers(name: &[u8]) -> bool
    ensures { result ≡ spec.names_transfers name.now }
{
    same_word(name, b"TRANSFER_CONTEXT") || same_word(name, b"GLOBAL(TRANSFER_CONTEXT)")
}

/// Adds the duties of a name that is set to a value of these pieces.
fn push_named(
    alloc: Global,
    area: &KeptArea,
    name: &[u8],
    value: &[Piece],
    duties: &mut Vec<KeptDuty>,
) -> Result<(), NoMemory>
    ensures { OnOk result (shown_duties duties.new.items ≡ shown_duties duties.old.items
        ++ spec.named_owed (shown_area area.now) name.now (shown_all value.now)) }
{
    if names_transfers(name) {
        return push_any_in(alloc, dialled_bytes(), value, duties);
    }
    if same_word(name, b"CHANNEL(hangup_handler_push)") {
        return push_counted(alloc, area, value, duties);
    }
    Ok(())
}

/// Adds the duties of `Set`.
pub(crate) fn push_naming(
    alloc: Global,
    area: &KeptArea,
    pieces: &[Piece],
    duties: &mut Vec<KeptDuty>,
) -> Result<(), NoMemory>
    ensures { OnOk result (shown_duties duties.new.items ≡ shown_duties duties.old.items
        ++ spec.naming_leads (shown_area area.now) (shown_all pieces.now)) }
{
    match known_front(alloc, pieces, b'=')? {
        None => Ok(()),
        Some((name, value)) => push_named(alloc, area, bare_name(&name), value, duties),
    }
}
