//! The duties of an application.
ghost use Rattle.std.specs.Prelude.{◌≡◌, ◌++◌, ◌∷◌, [], OnOk};
ghost use Rattle.dp_closed.specs.Shown.{shown_duties};
ghost use Rattle.dp_pieces.specs.Sets.{set_by};
ghost use Rattle.dp_pieces.specs.Shown.{shown_all};
ghost use Rattle.dp_reach.specs.Areas.{area_at};
ghost use Rattle.dp_reach.specs.Bounds as bounds;

use crate::area::KeptArea;
use dp_conf::NoMemory;
use dp_pieces::{ByteSet, Piece};
use std::alloc::Global;

/// A duty of an application: that the reach has an area, that a name, each name, or the caller's number may have these bytes, that a digit
/// may lead out of each queue, or anything, which no claim meets: nothing is known of what the application does.
#[derive(Drop)]
pub enum KeptDuty {
    Leads(KeptArea),
    Holds(Vec<u8>, ByteSet),
    HoldsAll(ByteSet),
    Calls(ByteSet),
    Waits,
    Anything,
}

/// Adds the duty that the reach has the area of these shapes. It fails only if memory runs out.
pub fn push_area(
    alloc: Global,
    context: &[Piece],
    exten: &[Piece],
    duties: &mut Vec<KeptDuty>,
) -> Result<(), NoMemory>
    ensures { OnOk result (shown_duties duties.new.items
        ≡ shown_duties duties.old.items ++ bounds.Leads (area_at (shown_all context.now) (shown_all exten.now)) ∷ []) }
{
    let mut area = KeptArea {
        context: Vec::new(alloc),
        exten: Vec::new(alloc),
    };
    area.context.extend_from_slice(context)?;
    area.exten.extend_from_slice(exten)?;
    duties.push(KeptDuty::Leads(area))?;
    Ok(())
}

/// Adds the duty that a name may have these bytes. It fails only if memory runs out.
pub fn push_name(
    alloc: Global,
    name: &[u8],
    set: ByteSet,
    duties: &mut Vec<KeptDuty>,
) -> Result<(), NoMemory>
    ensures { OnOk result (shown_duties duties.new.items ≡ shown_duties duties.old.items ++ bounds.Holds name.now (set_by set) ∷ []) }
{
    let mut kept = Vec::new(alloc);
    kept.extend_from_slice(name)?;
    duties.push(KeptDuty::Holds(kept, set))?;
    Ok(())
}
