//! Applications, and tables of them.
ghost use Rattle.std.specs.Prelude.{◌≡◌, ℕ, List, IfOk, OnErr, is_some};
ghost use Rattle.dp_app.specs.Cells.{KeepsLoans, cell_now};
ghost use Rattle.dp_app.specs.Lawful.{IsBlind, IsLawful, IsLawfulRow, MayRun};
ghost use Rattle.dp_app.specs.Listed.{Listed, row_at};
ghost use Rattle.dp_app.specs.Rows.{Row, Rows, after_dispatch, has_row};
ghost use Rattle.dp_app.specs.declared.touch.Touch as touches;

use crate::cell::Cell;
use crate::moves::Move;
use crate::number::AppNumber;
use crate::touch::Touch;
use dp_conf::NoMemory;
use dp_vars::Functions;
use std::alloc::Global;

/// An application of a dialplan, after the Asterisk documentation's application reference: its effect on the channel
/// that runs it, and where it sends the channel.
///
/// Its row must keep the laws of rows: it changes only the parts of the cell that `TOUCH` names, it parks a channel
/// only in a phase that an application may choose, and it never parks a closing channel: where it would park one, the
/// call ends instead, with nothing changed.
pub trait Application {
    // The outcome, given its arguments and a cell.
    ghost meaning: { Row };

    // Its printed name.
    ghost title: { List ℕ };

    // The parts of a cell that it may change.
    ghost TOUCH: { touches.Touch };

    ghost lawful: { IsLawfulRow TOUCH meaning };

    /// The parts of a cell that it may change.
    const TOUCH: Touch;

    /// The application's name. Names are compared without regard to ASCII case.
    fn name() -> &'static [u8]
        ensures { result.now ≡ title };

    /// Runs the application with its expanded arguments. If memory runs out the cell is as before.
    fn apply(alloc: Global, arguments: &[u8], cell: &mut Cell) -> Result<Move, NoMemory>
        requires { MayRun (cell_now cell.old) }
        ensures ok { IfOk result (λ going. meaning arguments.now (cell_now cell.old) ≡ record { cell = cell_now cell.new; next = going }) }
        ensures err { OnErr result (cell_now cell.new ≡ cell_now cell.old) }
        ensures loans { KeepsLoans cell.old cell.new };
}

/// A table of applications, each of which keeps the laws of rows. It does not distinguish case: each spelling of a
/// name, in ASCII letters of either case, has the same row and the same touch.
pub trait AppTable {
    // The row of each name in the table.
    ghost rows: { Rows };

    // The parts of a cell that the application with a name may change.
    ghost touches: { List ℕ → touches.Touch };

    ghost lawful: { IsLawful touches rows };

    ghost blind: { IsBlind touches rows };

    /// The functions in the texts that are expanded for the table's applications.
    type Functions: Functions;

    /// The number of the application with this name, with which `run_by_number` finds it, or None if the table lacks
    /// the name.
    fn number_of(name: &[u8]) -> Option<AppNumber>
        ensures { is_some result ≡ has_row rows name.now };

    /// Runs the application with this name and these expanded arguments, or gives None if the table lacks the name. If
    /// memory runs out the cell is as before.
    fn dispatch(
        alloc: Global,
        name: &[u8],
        arguments: &[u8],
        cell: &mut Cell,
    ) -> Result<Option<Move>, NoMemory>
        requires { MayRun (cell_now cell.old) }
        ensures ok { IfOk result (λ going. after_dispatch (rows name.now) arguments.now (cell_now cell.old) ≡ (cell_now cell.new, going)) }
        ensures err { OnErr result (cell_now cell.new ≡ cell_now cell.old) }
        ensures loans { KeepsLoans cell.old cell.new };

    /// The same as `dispatch`, but looks first at the place of the number.
    fn run_by_number(
        alloc: Global,
        _number: AppNumber,
        name: &[u8],
        arguments: &[u8],
        cell: &mut Cell,
    ) -> Result<Option<Move>, NoMemory>
        requires { MayRun (cell_now cell.old) }
        ensures ok { IfOk result (λ going. after_dispatch (rows name.now) arguments.now (cell_now cell.old) ≡ (cell_now cell.new, going)) }
        ensures err { OnErr result (cell_now cell.new ≡ cell_now cell.old) }
        ensures loans { KeepsLoans cell.old cell.new }
    {
        Self::dispatch(alloc, name, arguments, cell)
    }
}

/// Applications in an order.
pub trait AppList {
    // The name and the row of each application.
    ghost listed: { List Listed };

    /// Runs the application at this place of the list, which is the number of applications before it, if it has this
    /// name; otherwise nothing is run. If memory runs out the cell is as before.
    fn run_at(
        alloc: Global,
        place: u16,
        name: &[u8],
        arguments: &[u8],
        cell: &mut Cell,
    ) -> Result<Option<Move>, NoMemory>
        requires { MayRun (cell_now cell.old) }
        ensures ok { IfOk result (λ going. after_dispatch (row_at listed place name.now) arguments.now (cell_now cell.old)
            ≡ (cell_now cell.new, going)) }
        ensures err { OnErr result (cell_now cell.new ≡ cell_now cell.old) }
        ensures loans { KeepsLoans cell.old cell.new };
}
