//! Objects, a field at a time.
ghost use Rattle.std.specs.Prelude.{◌≡◌, ◌++◌, OnOk, codes};
ghost use Rattle.dp_json.specs.Objects as spec;

use crate::string::push_string;
use dp_plan::NoMemory;
use itoa::Buffer;

/// Adds the name of a field, and the sign behind it.
fn push_name(out: &mut Vec<u8>, name: &[u8]) -> Result<(), NoMemory>
    ensures { OnOk result (out.new.items ≡ out.old.items ++ spec.name_text name.now) }
{
    push_string(out, name)?;
    out.push(b':')?;
    Ok(())
}

/// Begins an object, with the word for what it tells of.
#[tactic(auto, unfolding(crate::specs::Objects::opening, crate::specs::Objects::field_text))]
pub(crate) fn begin_object(out: &mut Vec<u8>, word: &[u8]) -> Result<(), NoMemory>
    ensures { OnOk result (out.new.items ≡ out.old.items ++ spec.opening (spec.type_field word.now)) }
{
    out.push(b'{')?;
    push_name(out, b"type")?;
    push_string(out, word)
}

/// Adds a field with a text.
#[tactic(auto, unfolding(crate::specs::Objects::more_text, crate::specs::Objects::field_text))]
pub(crate) fn push_text(out: &mut Vec<u8>, name: &[u8], text: &[u8]) -> Result<(), NoMemory>
    ensures { OnOk result (out.new.items ≡ out.old.items ++ spec.more_text (spec.text_field name.now text.now)) }
{
    out.push(b',')?;
    push_name(out, name)?;
    push_string(out, text)
}

/// Adds a field with a number.
#[tactic(auto, unfolding(crate::specs::Objects::more_text, crate::specs::Objects::field_text))]
pub(crate) fn push_number(out: &mut Vec<u8>, name: &[u8], number: u128) -> Result<(), NoMemory>
    ensures { OnOk result (out.new.items ≡ out.old.items ++ spec.more_text (spec.number_field name.now number)) }
{
    let mut buffer = Buffer::new();
    out.push(b',')?;
    push_name(out, name)?;
    out.extend_from_slice(buffer.format(number).as_bytes())
}

/// Ends an object and its line.
pub(crate) fn end_object(out: &mut Vec<u8>) -> Result<(), NoMemory>
    ensures { OnOk result (out.new.items ≡ out.old.items ++ codes "}\n") }
{
    out.extend_from_slice(b"}\n")
}
