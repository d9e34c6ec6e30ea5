//! Settings that are made all together or not at all.
ghost use Rattle.std.specs.Prelude.{◌≡◌, IfOk, OnErr, OnOk};
ghost use Rattle.dp_app.specs.Cells.{KeepsLoans, cell_now};
ghost use Rattle.dp_wide.specs.Settings.{Settable, settable_of, with_settable};

use dp_app::{Cell, Place};
use dp_conf::{NoMemory, Text};
use dp_vars::{Globals, Store};
use std::alloc::Global;

/// Settings that are made one after another.
pub(super) trait Assignments {
    // What can be set after them.
    ghost after: { Self → Settable → Settable };

    /// Makes them. If memory runs out some of them are made.
    fn run(&self, alloc: Global, cell: &mut Cell) -> Result<(), NoMemory>
        ensures ok { OnOk result (cell_now cell.new ≡ with_settable (cell_now cell.old)
            (after self.now (settable_of (cell_now cell.old)))) }
        ensures err { OnErr result (cell.new.queues.now ≡ cell.old.queues.now) }
        ensures loans { KeepsLoans cell.old cell.new };
}

/// The settable parts of a cell, as copies.
#[derive(Drop)]
struct Copies {
    caller: Text,
    store: Store<Place>,
    globals: Globals,
}

/// Copies of the settable parts.
fn copies_of(caller: &Text, store: &Store<Place>, globals: &Globals) -> Result<Copies, NoMemory>
    ensures { IfOk result (λ copies. copies ≡ record { caller = caller.now; store = store.now; globals = globals.now }) }
{
    let caller = caller.clone()?;
    let store = store.clone()?;
    let globals = globals.clone()?;
    Ok(Copies {
        caller,
        store,
        globals,
    })
}

/// Replaces the settable parts with copies.
fn put_copies(cell: &mut Cell, copies: Copies)
    ensures cell { cell_now cell.new ≡ with_settable (cell_now cell.old)
        (record { caller = copies.caller; store = copies.store; globals = copies.globals }) }
    ensures loans { KeepsLoans cell.old cell.new }
{
    let Copies {
        caller,
        store,
        globals,
    } = copies;
    *cell.caller = caller;
    *cell.store = store;
    *cell.globals = globals;
}

/// Makes settings, all of them or none: they are made on copies, which then replace the originals. If memory runs out the cell is as
/// before.
pub(super) fn set_together<A: Assignments>(
    alloc: Global,
    cell: &mut Cell,
    assignments: &A,
) -> Result<(), NoMemory>
    ensures ok { OnOk result (cell_now cell.new ≡ with_settable (cell_now cell.old)
        (A.after assignments.now (settable_of (cell_now cell.old)))) }
    ensures err { OnErr result (cell_now cell.new ≡ cell_now cell.old) }
    ensures loans { KeepsLoans cell.old cell.new }
{
    let mut copies = copies_of(cell.caller, cell.store, cell.globals)?;
    let mut draft = Cell {
        number: cell.number,
        place: cell.place,
        is_closing: cell.is_closing,
        caller: &mut copies.caller,
        store: &mut copies.store,
        globals: &mut copies.globals,
        queues: &mut *cell.queues,
    };
    assignments.run(alloc, &mut draft)?;
    put_copies(cell, copies);
    Ok(())
}
