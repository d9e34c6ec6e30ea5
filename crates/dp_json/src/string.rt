//! Texts as strings of JSON.
ghost use Rattle.std.specs.Prelude.{◌≡◌, ◌<◌, ◌++◌, OnOk};
ghost use Rattle.std.specs.Char.{digit_char};
ghost use Rattle.std.specs.Str.{is_utf8};
ghost use Rattle.dp_json.specs.Strings as spec;

use dp_plan::NoMemory;
use std::str;

/// The hexadecimal digit of a number below 16.
fn hex_digit(number: u8) -> u8
    requires { number < 16 }
    ensures { result ≡ digit_char number }
{
    if number < 10 {
        b'0' + number
    } else {
        87 + number
    }
}

/// Adds a byte by its number.
fn push_code(out: &mut Vec<u8>, byte: u8) -> Result<(), NoMemory>
    ensures { OnOk result (out.new.items ≡ out.old.items ++ spec.code_text byte) }
{
    out.extend_from_slice(b"\\u00")?;
    out.push(hex_digit(byte / 16))?;
    out.push(hex_digit(byte % 16))?;
    Ok(())
}

/// Whether a byte stands for itself.
fn is_plain(utf8: bool, byte: u8) -> bool
    ensures { result ≡ spec.is_plain utf8 byte }
{
    byte >= 32 && (byte < 127 || (utf8 && byte > 127))
}

/// Adds a byte, given whether its text is UTF-8.
#[tactic(auto, unfolding(crate::specs::Strings::byte_text))]
fn push_byte(out: &mut Vec<u8>, utf8: bool, byte: u8) -> Result<(), NoMemory>
    ensures { OnOk result (out.new.items ≡ out.old.items ++ spec.byte_text utf8 byte) }
{
    if byte == b'"' || byte == b'\\' {
        out.push(b'\\')?;
        out.push(byte)?;
        return Ok(());
    }
    if is_plain(utf8, byte) {
        out.push(byte)?;
        return Ok(());
    }
    push_code(out, byte)
}

/// Adds the bytes of a text, given whether it is UTF-8.
fn push_bytes(out: &mut Vec<u8>, utf8: bool, text: &[u8]) -> Result<(), NoMemory>
    ensures { OnOk result (out.new.items ≡ out.old.items ++ spec.bytes_text utf8 text.now) }
{
    for byte in text {
        push_byte(out, utf8, *byte)?;
    }
    Ok(())
}

/// Whether a text is UTF-8.
fn is_utf8(text: &[u8]) -> bool
    ensures { result ≡ is_utf8 text.now }
{
    match str::from_utf8(text) {
        Ok(_) => true,
        Err(_) => false,
    }
}

/// Adds a text as a string.
#[tactic(auto, unfolding(crate::specs::Strings::string_text))]
pub(crate) fn push_string(out: &mut Vec<u8>, text: &[u8]) -> Result<(), NoMemory>
    ensures { OnOk result (out.new.items ≡ out.old.items ++ spec.string_text text.now) }
{
    out.push(b'"')?;
    push_bytes(out, is_utf8(text), text)?;
    out.push(b'"')?;
    Ok(())
}
