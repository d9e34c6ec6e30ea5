//! The names of nodes and of rows: letters, digits and `_` alone, whatever the texts.
ghost use Rattle.std.specs.Prelude.{◌≡◌, ◌++◌, OnOk};
ghost use Rattle.dp_graph.specs.Printing as spec;

use crate::label::{push_index, push_number};
use dp_plan::NoMemory;

/// Adds a byte as part of a name.
fn push_byte(out: &mut Vec<u8>, byte: u8) -> Result<(), NoMemory>
    ensures { OnOk result (out.new.items ≡ out.old.items ++ spec.name_byte byte) }
{
    if byte.is_ascii_alphanumeric() {
        out.push(byte)?;
        return Ok(());
    }
    out.extend_from_slice(b"_")?;
    push_number(out, u32::from(byte))?;
    out.extend_from_slice(b"_")
}

/// Adds a text as part of a name.
pub(crate) fn push_name(out: &mut Vec<u8>, text: &[u8]) -> Result<(), NoMemory>
    ensures { OnOk result (out.new.items ≡ out.old.items ++ spec.name_part text.now) }
{
    for byte in text {
        push_byte(out, *byte)?;
    }
    Ok(())
}

/// Adds the name of the node of the context with this number.
pub(crate) fn push_box_node(out: &mut Vec<u8>, number: usize) -> Result<(), NoMemory>
    ensures { OnOk result (out.new.items ≡ out.old.items ++ spec.box_node number) }
{
    out.extend_from_slice(b"c")?;
    push_index(out, number)
}
