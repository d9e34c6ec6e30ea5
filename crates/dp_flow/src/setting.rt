//! The application that sets variables, after the Asterisk documentation's page on `Set`.
ghost use Rattle.std.specs.Prelude.{◌≡◌, OnErr, OnOk, length};
ghost use Rattle.std.specs.Option.{option_map};
ghost use Rattle.dp_app.specs.Cells.{KeepsLoans, cell_now};
ghost use Rattle.dp_conf.specs.Cut.{cut_once};
ghost use Rattle.dp_flow.specs.Settings as spec;

use dp_app::{Application, Cell, Move, Touch};
use dp_conf::{NoMemory, Text, before_last, cut_once, trim};
use std::alloc::Global;

/// The argument of a function that is set, given the text after its `(`: the `)` has to be the last byte.
pub fn argument_of(after: &[u8]) -> Option<&[u8]>
    ensures { option_map (λ argument. argument.now) result ≡ spec.argument_of after.now }
{
    let argument = before_last(after, b')')?;
    if argument.len() + 1 == after.len() {
        Some(argument)
    } else {
        None
    }
}

/// Sets a function with an argument. If memory runs out the cell is as before.
fn set_function(
    alloc: Global,
    cell: &mut Cell,
    function: &[u8],
    argument: &[u8],
    value: &[u8],
) -> Result<(), NoMemory>
    ensures ok { OnOk result (cell_now cell.new ≡ spec.with_function (cell_now cell.old) function.now argument.now value.now) }
    ensures err { OnErr result (cell_now cell.new ≡ cell_now cell.old) }
    ensures loans { KeepsLoans cell.old cell.new }
{
    if function == b"GLOBAL".as_slice() {
        return cell.globals.put(alloc, argument, value);
    }
    if function == b"LOCAL".as_slice() {
        let _done = cell.store.set_local(alloc, argument, value)?;
        return Ok(());
    }
    if function == b"CALLERID".as_slice() && argument == b"num".as_slice() {
        *cell.caller = Text::copy_of(alloc, value)?;
    }
    Ok(())
}

/// Sets a name, a variable or a function. If memory runs out the cell is as before.
fn set_name(alloc: Global, cell: &mut Cell, name: &[u8], value: &[u8]) -> Result<(), NoMemory>
    ensures ok { OnOk result (cell_now cell.new ≡ spec.with_value (cell_now cell.old) name.now value.now) }
    ensures err { OnErr result (cell_now cell.new ≡ cell_now cell.old) }
    ensures loans { KeepsLoans cell.old cell.new }
{
    match cut_once(name, b'(') {
        None => {
            if !name.is_empty() {
                cell.store.set(alloc, name, value)?;
            }
            Ok(())
        }
        Some((function, after)) => match argument_of(after) {
            None => Ok(()),
            Some(argument) => set_function(alloc, cell, function, argument, value),
        },
    }
}

/// `Set(NAME=value)`: the name, without its blanks, has the value from now on, unchanged. It is written to the local of the innermost frame
/// that has one of that name, else to the channel's variable. `GLOBAL(name)`, `LOCAL(name)` and `CALLERID(num)` write a global, a local of
/// the innermost frame, and the caller's number; other functions have no effect.
pub struct Set;

impl Application for Set {
    ghost use Rattle.std.specs.Prelude.{codes};
    ghost use Rattle.dp_flow.specs.laws.Lawful.{set_lawful};
    ghost use Rattle.dp_flow.specs.Settings.{set_row};
    ghost use Rattle.dp_flow.specs.Touches.{settable};

    ghost meaning = { set_row };

    ghost title = { codes "Set" };

    ghost TOUCH = { settable };

    ghost lawful = { set_lawful };

    const TOUCH: Touch = Touch {
        variables: true,
        globals: true,
        caller: true,
        ..Touch::NOTHING
    };

    fn name() -> &'static [u8] {
        b"Set"
    }

    #[tactic(auto, unfolding(crate::specs::Settings::set_row))]
    fn apply(alloc: Global, arguments: &[u8], cell: &mut Cell) -> Result<Move, NoMemory> {
        if let Some((name, value)) = cut_once(arguments, b'=') {
            set_name(alloc, cell, trim(name), value)?;
        }
        Ok(Move::Next)
    }
}
