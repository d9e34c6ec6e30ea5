//! The wide table, as a table that says what its applications owe.
ghost use Rattle.std.specs.Prelude.{◌≡◌};

use crate::choices::duties;
use dp_app::{AppNumber, AppTable, Cell, Move};
use dp_closed::{DutyTable, KeptArea, KeptDuty, set_of};
use dp_conf::NoMemory;
use dp_pieces::{ByteSet, NamesAt};
use dp_wide::{WideApps, WideFunctions};
use dp_wide_pieces::read_wide_pieces;
use std::alloc::Global;

/// The wide table, which says what its applications owe, and where a real exchange may lead a call besides.
pub struct WideDuties;

impl AppTable for WideDuties {
    ghost use Rattle.dp_wide.specs.Wide.{wide_blind, wide_lawful, wide_rows, wide_touches};

    ghost rows = { wide_rows };

    ghost touches = { wide_touches };

    ghost lawful = { wide_lawful };

    ghost blind = { wide_blind };

    type Functions = WideFunctions;

    fn number_of(name: &[u8]) -> Option<AppNumber> {
        WideApps::number_of(name)
    }

    fn dispatch(
        alloc: Global,
        name: &[u8],
        arguments: &[u8],
        cell: &mut Cell,
    ) -> Result<Option<Move>, NoMemory> {
        WideApps::dispatch(alloc, name, arguments, cell)
    }
}

impl DutyTable for WideDuties {
    ghost use Rattle.dp_wide_duties.specs.Exchange.{exchange_duties};
    ghost use Rattle.dp_wide_duties.specs.ExchangeBounds.{exchange_bounded};

    ghost duties = { exchange_duties };

    ghost bounded = { exchange_bounded };

    fn duties_of(
        alloc: Global,
        names: &NamesAt<'_>,
        area: &KeptArea,
        name: &[u8],
        arguments: &[u8],
    ) -> Result<Vec<KeptDuty>, NoMemory> {
        let pieces = read_wide_pieces(alloc, names, arguments)?;
        duties(alloc, name, area, &pieces)
    }

    fn expanded_bytes(
        alloc: Global,
        names: &NamesAt<'_>,
        text: &[u8],
    ) -> Result<ByteSet, NoMemory> {
        let pieces = read_wide_pieces(alloc, names, text)?;
        Ok(set_of(&pieces))
    }
}
