//! What the applications of this program's table owe.
ghost use Rattle.std.specs.Prelude.{◌≡◌};

use crate::area::KeptArea;
use crate::duty::KeptDuty;
use crate::duty_table::DutyTable;
use crate::rows::duties_by_arguments;
use crate::sets::set_of;
use dp_conf::NoMemory;
use dp_pieces::{ByteSet, NamesAt, read_pieces};
use dp_table::StandardApps;
use std::alloc::Global;

impl DutyTable for StandardApps {
    ghost use Rattle.dp_reach.specs.Standard.{standard_duties};
    ghost use Rattle.dp_reach.proofs.StandardRows.{standard-bounded};

    ghost duties = { standard_duties };

    ghost bounded = { standard-bounded };

    fn duties_of(
        alloc: Global,
        names: &NamesAt<'_>,
        area: &KeptArea,
        name: &[u8],
        arguments: &[u8],
    ) -> Result<Vec<KeptDuty>, NoMemory> {
        duties_by_arguments(alloc, names, area, name, arguments)
    }

    fn expanded_bytes(
        alloc: Global,
        names: &NamesAt<'_>,
        text: &[u8],
    ) -> Result<ByteSet, NoMemory> {
        let pieces = read_pieces(alloc, names, text)?;
        Ok(set_of(&pieces))
    }
}
