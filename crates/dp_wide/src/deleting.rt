//! The applications that delete from the database, after the Asterisk documentation's pages on `DBdel` and `DBdeltree`.
ghost use Rattle.std.specs.Prelude.{◌≡◌, IfOk, OnErr, OnOk};
ghost use Rattle.dp_wide.specs.Deleting as spec;

use crate::cell_values::{assumed_name, deleted_name};
use crate::cells::cell_name;
use dp_app::{Application, Cell, Move, Touch};
use dp_conf::{NoMemory, cut_once, trim};
use dp_vars::Globals;
use std::alloc::Global;

/// Empties the cell of a key of the database. If memory runs out the globals are as before.
pub(crate) fn empty_key(alloc: Global, globals: &mut Globals, key: &[u8]) -> Result<(), NoMemory>
    ensures ok { OnOk result (globals.new ≡ spec.with_empty_key globals.old key.now) }
    ensures err { OnErr result (globals.new ≡ globals.old) }
{
    let name = cell_name(alloc, b"DB", key)?;
    globals.put(alloc, &name, b"")
}

/// `DBdel(family/key)`: the cell `DB(family/key)` is empty from now on. The channel goes on.
///
/// A key that was deleted is known to be empty, while a key that nothing wrote is unknown. This is a choice of this program.
pub struct DbDel;

impl Application for DbDel {
    ghost use Rattle.std.specs.Prelude.{codes};
    ghost use Rattle.dp_wide.specs.Deleting.{delete_row, the_globals};
    ghost use Rattle.dp_wide.specs.laws.DeletingLawful.{delete_lawful};

    ghost meaning = { delete_row };

    ghost title = { codes "DBdel" };

    ghost TOUCH = { the_globals };

    ghost lawful = { delete_lawful };

    const TOUCH: Touch = Touch {
        globals: true,
        ..Touch::NOTHING
    };

    fn name() -> &'static [u8] {
        b"DBdel"
    }

    fn apply(alloc: Global, arguments: &[u8], cell: &mut Cell) -> Result<Move, NoMemory> {
        empty_key(alloc, cell.globals, trim(arguments))?;
        Ok(Move::Next)
    }
}

/// The first bytes of the names of the cells below a key.
fn front_below(alloc: Global, key: &[u8]) -> Result<Vec<u8>, NoMemory>
    ensures { IfOk result (λ front. front.items ≡ spec.front_below key.now) }
{
    let mut front = Vec::from_slice(alloc, b"DB(")?;
    front.extend_from_slice(key)?;
    front.push(b'/')?;
    Ok(front)
}

/// Deletes a key and all keys below it. If memory runs out the globals are as before.
fn delete_key(alloc: Global, globals: &mut Globals, key: &[u8]) -> Result<(), NoMemory>
    ensures ok { OnOk result (globals.new ≡ spec.without_key globals.old key.now) }
    ensures err { OnErr result (globals.new ≡ globals.old) }
{
    let cell = cell_name(alloc, b"DB", key)?;
    let front = front_below(alloc, key)?;
    let mark = deleted_name(alloc, key)?;
    globals.put(alloc, &mark, b"1")?;
    globals.remove_tree(&cell, &front);
    Ok(())
}

/// Deletes all keys. If memory runs out the globals are as before.
fn delete_all(alloc: Global, globals: &mut Globals) -> Result<(), NoMemory>
    ensures ok { OnOk result (globals.new ≡ spec.without_keys globals.old) }
    ensures err { OnErr result (globals.new ≡ globals.old) }
{
    let mark = assumed_name(alloc, b"DB")?;
    globals.put(alloc, &mark, b"1")?;
    globals.remove_tree(b"DB(", b"DB(");
    Ok(())
}

/// Whether an argument names all keys: its family is empty.
fn names_all(argument: &[u8]) -> bool
    ensures { result ≡ spec.names_all argument.now }
{
    match argument.first() {
        None => true,
        Some(byte) => *byte == b'/',
    }
}

/// The key that an argument names. A `/` with no key tree after it is left out.
fn tree_of(argument: &[u8]) -> &[u8]
    ensures { result.now ≡ spec.tree_of argument.now }
{
    let Some((family, tree)) = cut_once(argument, b'/') else {
        return argument;
    };
    if tree.is_empty() { family } else { argument }
}

/// The name of the global that says that the keys which the argument of `DBdeltree` names were deleted, given the argument without blanks at
/// its ends. It fails only if memory runs out.
pub fn deleted_mark(alloc: Global, argument: &[u8]) -> Result<Vec<u8>, NoMemory>
    ensures { IfOk result (λ name. name.items ≡ spec.deleted_mark argument.now) }
{
    if names_all(argument) {
        return assumed_name(alloc, b"DB");
    }
    deleted_name(alloc, tree_of(argument))
}

/// Deletes the keys that an argument names. If memory runs out the globals are as before.
fn delete_named(alloc: Global, globals: &mut Globals, argument: &[u8]) -> Result<(), NoMemory>
    ensures ok { OnOk result (globals.new ≡ spec.without_named globals.old argument.now) }
    ensures err { OnErr result (globals.new ≡ globals.old) }
{
    if names_all(argument) {
        return delete_all(alloc, globals);
    }
    delete_key(alloc, globals, tree_of(argument))
}

/// `DBdeltree(family[/keytree])`: the cells `DB(family/keytree)` and `DB(family/keytree/..)`, or with a family alone `DB(family)` and
/// `DB(family/..)`, are empty from now on, whether or not something wrote them. The channel goes on. An empty family means all keys.
///
/// A key that was deleted so is known to be empty until something writes it. This is a choice of this program.
pub struct DbDelTree;

impl Application for DbDelTree {
    ghost use Rattle.std.specs.Prelude.{codes};
    ghost use Rattle.dp_wide.specs.Deleting.{delete_tree_row, the_globals};
    ghost use Rattle.dp_wide.specs.laws.DeletingLawful.{delete_tree_lawful};

    ghost meaning = { delete_tree_row };

    ghost title = { codes "DBdeltree" };

    ghost TOUCH = { the_globals };

    ghost lawful = { delete_tree_lawful };

    const TOUCH: Touch = Touch {
        globals: true,
        ..Touch::NOTHING
    };

    fn name() -> &'static [u8] {
        b"DBdeltree"
    }

    fn apply(alloc: Global, arguments: &[u8], cell: &mut Cell) -> Result<Move, NoMemory> {
        delete_named(alloc, cell.globals, trim(arguments))?;
        Ok(Move::Next)
    }
}
