//! Where a phone may transfer a call.
ghost use Rattle.std.specs.Prelude.{◌≡◌, ◌++◌, OnOk};
ghost use Rattle.dp_closed.specs.Shown.{shown_area, shown_duties};
ghost use Rattle.dp_pieces.specs.Shown.{shown_all};
ghost use Rattle.dp_wide_duties.specs.Transfers as spec;

use crate::places::dialled_bytes;
use dp_closed::{KeptArea, KeptDuty, push_area, set_of};
use dp_conf::NoMemory;
use dp_pieces::Piece;
use std::alloc::Global;

/// Whether these options may have `t` or `T`.
fn may_transfer(options: &[Piece]) -> bool
    ensures { result ≡ spec.may_transfer (shown_all options.now) }
{
    let set = set_of(options);
    set.has(b't') || set.has(b'T')
}

/// Adds where a phone may transfer a call with these options.
pub(crate) fn push_transfer(
    alloc: Global,
    area: &KeptArea,
    options: &[Piece],
    duties: &mut Vec<KeptDuty>,
) -> Result<(), NoMemory>
    ensures { OnOk result (shown_duties duties.new.items
        ≡ shown_duties duties.old.items ++ spec.transfer_owed (shown_area area.now) (shown_all options.now)) }
{
    if !may_transfer(options) {
        return Ok(());
    }
    push_area(
        alloc,
        &area.context,
        &[Piece::AnyOf(dialled_bytes())],
        duties,
    )
}
