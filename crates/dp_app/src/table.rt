//! The table of applications as a type.
ghost use Rattle.std.specs.Prelude.{◌≡◌, IfOk, OnErr};
ghost use Rattle.dp_app.specs.Cells.{KeepsLoans, cell_now};
ghost use Rattle.dp_app.specs.Lawful.{MayRun};
ghost use Rattle.dp_app.specs.Listed.{row_if_named};
ghost use Rattle.dp_app.specs.Rows.{after_dispatch};
ghost use Rattle.dp_conf.specs.Words.{same_word};

use crate::application::{AppList, AppTable, Application};
use crate::cell::Cell;
use crate::moves::Move;
use crate::number::AppNumber;
use dp_conf::{NoMemory, same_word};
use dp_vars::StandardFunctions;
use std::alloc::Global;
use std::marker::PhantomData;

/// The table without applications.
pub struct NoApps;

/// A table with one more application, whose name comes before the same name in the other table.
pub struct With<A, T> {
    types: PhantomData<(A, T)>,
}

/// Whether the application has this name.
fn is_name_of<A: Application>(name: &[u8]) -> bool
    ensures { result ≡ same_word name.now A.title }
{
    same_word(name, A::name())
}

/// Runs the application, if it has this name; otherwise nothing is run. It is separate from the walk over a list, so that a level of the
/// walk has no values of its own.
fn run_if_named<A: Application>(
    alloc: Global,
    name: &[u8],
    arguments: &[u8],
    cell: &mut Cell,
) -> Result<Option<Move>, NoMemory>
    requires { MayRun (cell_now cell.old) }
    ensures ok { IfOk result (λ going. after_dispatch (row_if_named A.title A.meaning name.now) arguments.now (cell_now cell.old)
        ≡ (cell_now cell.new, going)) }
    ensures err { OnErr result (cell_now cell.new ≡ cell_now cell.old) }
    ensures loans { KeepsLoans cell.old cell.new }
{
    if !is_name_of::<A>(name) {
        return Ok(None);
    }
    let going = A::apply(alloc, arguments, cell)?;
    Ok(Some(going))
}

impl AppTable for NoApps {
    ghost use Rattle.dp_app.specs.Tables.{no_rows, no_touch, no_rows_blind, no_rows_lawful};

    ghost rows = { no_rows };

    ghost touches = { no_touch };

    ghost lawful = { no_rows_lawful };

    ghost blind = { no_rows_blind };

    type Functions = StandardFunctions;

    fn number_of(_name: &[u8]) -> Option<AppNumber> {
        None
    }

    fn dispatch(
        _alloc: Global,
        _name: &[u8],
        _arguments: &[u8],
        _cell: &mut Cell,
    ) -> Result<Option<Move>, NoMemory> {
        Ok(None)
    }
}

impl<A: Application, T: AppTable> AppTable for With<A, T> {
    ghost use Rattle.dp_app.specs.Tables.{with_row, with_touch, with_row_blind, with_row_lawful};

    ghost rows = { with_row A.title A.meaning T.rows };

    ghost touches = { with_touch A.title A.TOUCH T.touches };

    ghost lawful = { with_row_lawful A.title A.TOUCH A.meaning T.touches T.rows A.lawful T.lawful };

    ghost blind = { with_row_blind A.title A.TOUCH A.meaning T.touches T.rows T.blind };

    type Functions = T::Functions;

    fn number_of(name: &[u8]) -> Option<AppNumber> {
        if is_name_of::<A>(name) {
            return Some(AppNumber::first());
        }
        let number = T::number_of(name)?;
        Some(number.after())
    }

    fn dispatch(
        alloc: Global,
        name: &[u8],
        arguments: &[u8],
        cell: &mut Cell,
    ) -> Result<Option<Move>, NoMemory> {
        if is_name_of::<A>(name) {
            let going = A::apply(alloc, arguments, cell)?;
            return Ok(Some(going));
        }
        T::dispatch(alloc, name, arguments, cell)
    }
}

impl AppList for NoApps {
    ghost use Rattle.std.specs.Prelude.{[]};

    ghost listed = { [] };

    #[inline(always)]
    fn run_at(
        _alloc: Global,
        _place: u16,
        _name: &[u8],
        _arguments: &[u8],
        _cell: &mut Cell,
    ) -> Result<Option<Move>, NoMemory> {
        Ok(None)
    }
}

impl<A: Application, T: AppList> AppList for With<A, T> {
    ghost use Rattle.dp_app.specs.Listed.{with_listed};

    ghost listed = { with_listed A.title A.meaning T.listed };

    #[inline(always)]
    fn run_at(
        alloc: Global,
        place: u16,
        name: &[u8],
        arguments: &[u8],
        cell: &mut Cell,
    ) -> Result<Option<Move>, NoMemory> {
        if place > 0 {
            return T::run_at(alloc, place - 1, name, arguments, cell);
        }
        run_if_named::<A>(alloc, name, arguments, cell)
    }
}
