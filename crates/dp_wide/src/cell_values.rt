//! The values that were written to cells, after the Asterisk documentation's pages on functions.
//!
//! A cell keeps what was written to it. Before that it is unknown, unless a script says that it is empty or `DBdeltree` has emptied it. This
//! is a choice of this program.
ghost use Rattle.std.specs.Prelude.{◌≡◌, ◌&&◌, ◌||◌, ◌==◌, IfOk};
ghost use Rattle.dp_vars.specs.Shown.{value_bytes};
ghost use Rattle.dp_vars.specs.Sights.{sight_of};
ghost use Rattle.dp_wide.specs.CellValues as spec;

use crate::cells::{cell_name, is_of_all};
use crate::names::same_text;
use dp_conf::NoMemory;
use dp_vars::{Counts, FoundValue, FunctionValue, Scope, is_set, variable};
use std::alloc::Global;

/// The name of the global that says of a function that its unwritten cells are empty.
pub fn assumed_name(alloc: Global, function: &[u8]) -> Result<Vec<u8>, NoMemory>
    ensures { IfOk result (λ name. name.items ≡ spec.assumed_name function.now) }
{
    cell_name(alloc, b"ASSUMED", function)
}

/// Whether a script said of a function that its unwritten cells are empty.
fn is_assumed<B, C: Counts>(
    alloc: Global,
    scope: &Scope<'_, B, C>,
    function: &[u8],
) -> Result<bool, NoMemory>
    ensures { IfOk result (λ is_assumed. is_assumed ≡ spec.is_assumed (sight_of C.count scope.now) function.now) }
{
    let name = assumed_name(alloc, function)?;
    Ok(scope.globals.has(&name))
}

/// The name of the global that says of a key of the database that it was deleted with all keys below it.
pub(crate) fn deleted_name(alloc: Global, key: &[u8]) -> Result<Vec<u8>, NoMemory>
    ensures { IfOk result (λ name. name.items ≡ spec.deleted_name key.now) }
{
    cell_name(alloc, b"DBdeltree", key)
}

/// Whether a key was deleted with all keys below it.
fn is_root_deleted<B, C: Counts>(
    alloc: Global,
    scope: &Scope<'_, B, C>,
    key: &[u8],
) -> Result<bool, NoMemory>
    ensures { IfOk result (λ is_deleted. is_deleted ≡ spec.is_root_deleted (sight_of C.count scope.now) key.now) }
{
    let name = deleted_name(alloc, key)?;
    Ok(scope.globals.has(&name))
}

/// Whether the text before a byte is a key above, which was deleted with all keys below it.
fn is_deleted_before<B, C: Counts>(
    alloc: Global,
    scope: &Scope<'_, B, C>,
    front: &[u8],
    byte: u8,
) -> Result<bool, NoMemory>
    ensures { IfOk result (λ is_deleted. is_deleted ≡ (byte == 47 && spec.is_root_deleted (sight_of C.count scope.now) front.now)) }
{
    if byte != b'/' {
        return Ok(false);
    }
    let is_deleted = is_root_deleted(alloc, scope, front)?;
    Ok(is_deleted)
}

/// Whether a key, or one above it, was deleted with all keys below it.
fn is_deleted<B, C: Counts>(
    alloc: Global,
    scope: &Scope<'_, B, C>,
    key: &[u8],
) -> Result<bool, NoMemory>
    ensures { IfOk result (λ is_deleted. is_deleted ≡ spec.is_deleted (sight_of C.count scope.now) key.now) }
{
    let mut front = Vec::new(alloc);
    let mut left = key;
    while let Some((byte, after)) = left.split_first() {
        if is_deleted_before(alloc, scope, &front, *byte)? {
            return Ok(true);
        }
        front.push(*byte)?;
        left = after;
    }
    let is_deleted = is_root_deleted(alloc, scope, &front)?;
    Ok(is_deleted)
}

/// Whether an unwritten cell is empty.
fn is_emptied<B, C: Counts>(
    alloc: Global,
    scope: &Scope<'_, B, C>,
    function: &[u8],
    argument: &[u8],
) -> Result<bool, NoMemory>
    ensures { IfOk result (λ is_emptied. is_emptied ≡ spec.is_emptied (sight_of C.count scope.now) function.now argument.now) }
{
    if is_assumed(alloc, scope, function)? {
        return Ok(true);
    }
    if !same_text(function, b"DB") {
        return Ok(false);
    }
    let is_deleted = is_deleted(alloc, scope, argument)?;
    Ok(is_deleted)
}

/// Whether a cell is known, given whether something has written it.
pub(crate) fn knows_cell<B, C: Counts>(
    alloc: Global,
    scope: &Scope<'_, B, C>,
    function: &[u8],
    argument: &[u8],
    is_set: bool,
) -> Result<bool, NoMemory>
    ensures { IfOk result (λ is_known. is_known
        ≡ (is_set || spec.is_emptied (sight_of C.count scope.now) function.now argument.now)) }
{
    if is_set {
        return Ok(true);
    }
    let is_emptied = is_emptied(alloc, scope, function, argument)?;
    Ok(is_emptied)
}

/// The value of a function with an argument that is a cell. It is known if something has written it, if a script said that it is empty, or if
/// it was deleted with a tree of the database.
pub(crate) fn cell_value<'a, B, C: Counts>(
    alloc: Global,
    scope: &Scope<'a, B, C>,
    function: &[u8],
    argument: &[u8],
) -> Result<FunctionValue<'a>, NoMemory>
    ensures value { IfOk result (λ found. value_bytes found.value
        ≡ spec.cell_value (sight_of C.count scope.now) function.now argument.now) }
    ensures known { IfOk result (λ found. found.is_known
        ≡ spec.knows_cell (sight_of C.count scope.now) function.now argument.now) }
{
    let name = cell_name(alloc, function, argument)?;
    if is_of_all(function) {
        return Ok(FunctionValue {
            value: FoundValue::Bytes(scope.globals.at(&name)),
            is_known: knows_cell(alloc, scope, function, argument, scope.globals.has(&name))?,
        });
    }
    Ok(FunctionValue {
        value: variable(scope, &name),
        is_known: knows_cell(alloc, scope, function, argument, is_set(scope, &name))?,
    })
}
