//! Texts as labels, in which each character that could end the label or confuse its reader is written by its number.
ghost use Rattle.std.specs.Prelude.{◌≡◌, ◌++◌, IfOk, OnOk, decimal};
ghost use Rattle.std.specs.List.{flat_map};
ghost use Rattle.std.specs.Str.{chars};
ghost use Rattle.dp_graph.specs.Labels as spec;
ghost use Rattle.dp_graph.specs.Printing.{label_end};

use dp_plan::NoMemory;
use itoa::Buffer;
use std::alloc::Global;
use std::str;

/// How many characters of a long text are shown.
const MOST_SHOWN: usize = 40;

/// The characters of a text in UTF-8.
fn chars_of(alloc: Global, text: &str) -> Result<Vec<char>, NoMemory>
    ensures { IfOk result (λ list. list.items ≡ chars text.now) }
{
    text.chars().collect(alloc)
}

/// The characters of a text in Latin-1.
fn latin_of(alloc: Global, text: &[u8]) -> Result<Vec<char>, NoMemory>
    ensures { IfOk result (λ list. list.items ≡ text.now) }
{
    let mut list = Vec::with_capacity(alloc, text.len())?;
    for byte in text {
        list.push(char::from(*byte))?;
    }
    Ok(list)
}

/// The characters of a text. The bytes of a text that is not UTF-8 count as characters of Latin-1.
fn characters_of(alloc: Global, text: &[u8]) -> Result<Vec<char>, NoMemory>
    ensures { IfOk result (λ list. list.items ≡ spec.characters text.now) }
{
    match str::from_utf8(text) {
        Ok(text) => chars_of(alloc, text),
        Err(_) => latin_of(alloc, text),
    }
}

/// Whether a character stands for itself in a label.
fn is_harmless(character: u32) -> bool
    ensures { result ≡ spec.is_harmless character }
{
    character >= 32
        && character <= 126
        && character != 34
        && character != 38
        && character != 60
        && character != 62
}

/// The number of the character that is shown for one that does not stand for itself.
fn shown_code(character: u32) -> u32
    ensures { result ≡ spec.shown_code character }
{
    match character {
        0..=31 => 9_216 + character,
        127 => 9_249,
        65_534 | 65_535 => 65_533,
        _ => character,
    }
}

/// Adds a number in decimal.
pub(crate) fn push_number(out: &mut Vec<u8>, number: u32) -> Result<(), NoMemory>
    ensures { OnOk result (out.new.items ≡ out.old.items ++ decimal number) }
{
    let mut buffer = Buffer::new();
    out.extend_from_slice(buffer.format(number).as_bytes())
}

/// Adds the number of a context, or a place, in decimal.
pub(crate) fn push_index(out: &mut Vec<u8>, number: usize) -> Result<(), NoMemory>
    ensures { OnOk result (out.new.items ≡ out.old.items ++ decimal number) }
{
    let mut buffer = Buffer::new();
    out.extend_from_slice(buffer.format(number).as_bytes())
}

/// Adds a character that does not stand for itself.
fn push_code(out: &mut Vec<u8>, code: u32) -> Result<(), NoMemory>
    ensures { OnOk result (out.new.items ≡ out.old.items ++ spec.code_text code) }
{
    out.extend_from_slice(b"&#")?;
    push_number(out, code)?;
    out.extend_from_slice(b";")
}

/// Adds a character.
fn push_character(out: &mut Vec<u8>, character: char) -> Result<(), NoMemory>
    ensures { OnOk result (out.new.items ≡ out.old.items ++ spec.character_text character) }
{
    let code = u32::from(character);
    match u8::try_from(code) {
        Ok(byte) if is_harmless(code) => {
            out.push(byte)?;
            Ok(())
        }
        _ => push_code(out, shown_code(code)),
    }
}

/// Adds characters.
fn push_characters(out: &mut Vec<u8>, characters: &[char]) -> Result<(), NoMemory>
    ensures { OnOk result (out.new.items ≡ out.old.items ++ flat_map spec.character_text characters.now) }
{
    for character in characters {
        push_character(out, *character)?;
    }
    Ok(())
}

/// Adds a text.
#[tactic(auto, unfolding(crate::specs::Labels::label_text))]
pub(crate) fn push_label(alloc: Global, out: &mut Vec<u8>, text: &[u8]) -> Result<(), NoMemory>
    ensures { OnOk result (out.new.items ≡ out.old.items ++ spec.label_text text.now) }
{
    let characters = characters_of(alloc, text)?;
    push_characters(out, &characters)
}

/// Adds characters, at most `MOST_SHOWN` of them, with a sign that some are left out.
fn push_first(out: &mut Vec<u8>, characters: &[char]) -> Result<(), NoMemory>
    ensures { OnOk result (out.new.items ≡ out.old.items ++ spec.first_text characters.now) }
{
    if characters.len() <= MOST_SHOWN {
        return push_characters(out, characters);
    }
    let (first, _rest) = characters.split_at(MOST_SHOWN);
    push_characters(out, first)?;
    out.extend_from_slice(b"...")
}

/// Adds a text, shortened if it is long.
#[tactic(auto, unfolding(crate::specs::Labels::short_text))]
pub(crate) fn push_short(alloc: Global, out: &mut Vec<u8>, text: &[u8]) -> Result<(), NoMemory>
    ensures { OnOk result (out.new.items ≡ out.old.items ++ spec.short_text text.now) }
{
    let characters = characters_of(alloc, text)?;
    push_first(out, &characters)
}

/// Adds the label of a node without a box, and the end of its statement.
#[tactic(auto, unfolding(crate::specs::Printing::label_end))]
pub(crate) fn push_label_end(alloc: Global, out: &mut Vec<u8>, text: &[u8]) -> Result<(), NoMemory>
    ensures { OnOk result (out.new.items ≡ out.old.items ++ label_end text.now) }
{
    out.extend_from_slice(b"label=<")?;
    push_short(alloc, out, text)?;
    out.extend_from_slice(b" >];\n")
}
