//! A table of which one application may do anything.
ghost use Rattle.std.specs.Prelude.{◌≡◌, ◌∷◌, [], IfOk};
ghost use Rattle.dp_closed.specs.Shown.{shown_duties};
ghost use Rattle.dp_reach.specs.Bounds.{Anything};

use dp_app::{AppNumber, AppTable, Cell, Move};
use dp_closed::{DutyTable, KeptArea, KeptDuty};
use dp_conf::{NoMemory, same_word};
use dp_pieces::{ByteSet, NamesAt};
use dp_table::StandardApps;
use dp_vars::StandardFunctions;
use std::alloc::Global;

/// The applications of this program. Nothing is known of what `Playback` does.
pub(super) struct HiddenApps;

impl AppTable for HiddenApps {
    ghost use Rattle.dp_table.specs.Standard.{standard_blind, standard_lawful, standard_rows, standard_touches};

    ghost rows = { standard_rows };

    ghost touches = { standard_touches };

    ghost lawful = { standard_lawful };

    ghost blind = { standard_blind };

    type Functions = StandardFunctions;

    fn number_of(name: &[u8]) -> Option<AppNumber> {
        StandardApps::number_of(name)
    }

    fn dispatch(
        alloc: Global,
        name: &[u8],
        arguments: &[u8],
        cell: &mut Cell,
    ) -> Result<Option<Move>, NoMemory> {
        StandardApps::dispatch(alloc, name, arguments, cell)
    }
}

/// The duties of `Playback`.
fn anything_owed(alloc: Global) -> Result<Vec<KeptDuty>, NoMemory>
    ensures { IfOk result (λ list. shown_duties list.items ≡ Anything ∷ []) }
{
    let mut list = Vec::new(alloc);
    list.push(KeptDuty::Anything)?;
    Ok(list)
}

impl DutyTable for HiddenApps {
    ghost use Rattle.dp_reach_cases.specs.Hidden.{hidden_bounded, hidden_duties};

    ghost duties = { hidden_duties };

    ghost bounded = { hidden_bounded };

    fn duties_of(
        alloc: Global,
        names: &NamesAt<'_>,
        area: &KeptArea,
        name: &[u8],
        arguments: &[u8],
    ) -> Result<Vec<KeptDuty>, NoMemory> {
        if same_word(name, b"Playback") {
            return anything_owed(alloc);
        }
        StandardApps::duties_of(alloc, names, area, name, arguments)
    }

    fn expanded_bytes(
        alloc: Global,
        names: &NamesAt<'_>,
        text: &[u8],
    ) -> Result<ByteSet, NoMemory> {
        StandardApps::expanded_bytes(alloc, names, text)
    }
}
