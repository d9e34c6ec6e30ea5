//! Tables of applications whose duties are known.
ghost use Rattle.std.specs.Prelude.{ℕ, List, IfOk};
ghost use Rattle.dp_closed.specs.Owed.{ComesTo, Owes};
ghost use Rattle.dp_closed.specs.Shown.{shown_area, shown_duties};
ghost use Rattle.dp_pieces.specs.NamesAt.{names_of};
ghost use Rattle.dp_pieces.specs.Sets.{set_by};
ghost use Rattle.dp_reach.specs.Bounds.{AreBounded, Duties, obligations};

use crate::area::KeptArea;
use crate::duty::KeptDuty;
use dp_app::AppTable;
use dp_conf::NoMemory;
use dp_pieces::{ByteSet, NamesAt};
use std::alloc::Global;

/// A table of applications that says what each of them owes: where it may lead a call, and what it may set names to.
pub trait DutyTable: AppTable {
    // The duties of the application with each name.
    ghost duties: { List ℕ → Duties };

    /// The duties in an area of the application with this name, given its arguments as written in the dialplan and what is known of names
    /// there. It fails only if memory runs out.
    fn duties_of(
        alloc: Global,
        names: &NamesAt<'_>,
        area: &KeptArea,
        name: &[u8],
        arguments: &[u8],
    ) -> Result<Vec<KeptDuty>, NoMemory>
        ensures { IfOk result (λ list. Owes (obligations Self.Functions.table duties) (names_of names.now) (shown_area area.now) name.now
            arguments.now (shown_duties list.items)) };

    /// The bytes that a text may come to when it is expanded. It fails only if memory runs out.
    fn expanded_bytes(alloc: Global, names: &NamesAt<'_>, text: &[u8]) -> Result<ByteSet, NoMemory>
        ensures { IfOk result (λ set. ComesTo Self.Functions.table (names_of names.now) text.now (set_by set)) };

    ghost bounded: { AreBounded duties Self.AppTable.rows };
}
