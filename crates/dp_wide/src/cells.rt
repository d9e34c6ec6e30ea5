//! Cells: variables named after a function with its argument, such as `DB(fwd/200)`.
ghost use Rattle.std.specs.Prelude.{◌≡◌, IfOk};
ghost use Rattle.dp_wide.specs.Cells as spec;

use dp_conf::NoMemory;
use std::alloc::Global;

/// Whether the cells of a function belong to all channels, so that they are globals.
pub(crate) fn is_of_all(function: &[u8]) -> bool
    ensures { result ≡ spec.is_of_all function.now }
{
    function == b"DB".as_slice()
        || function == b"DEVICE_STATE".as_slice()
        || function == b"HINT".as_slice()
        || function == b"SHARED".as_slice()
        || function == b"ENV".as_slice()
}

/// The name of the variable for a cell.
pub(crate) fn cell_name(
    alloc: Global,
    function: &[u8],
    argument: &[u8],
) -> Result<Vec<u8>, NoMemory>
    ensures { IfOk result (λ name. name.items ≡ spec.cell_name function.now argument.now) }
{
    let mut name = Vec::from_slice(alloc, function)?;
    name.push(b'(')?;
    name.extend_from_slice(argument)?;
    name.push(b')')?;
    Ok(name)
}
