//! The canonical spelling of names.
ghost use Rattle.std.specs.Prelude.{◌≡◌, ◌++◌, ◌∷◌, [], OnOk, IfOk};
ghost use Rattle.std.specs.List.{flat_map};
ghost use Rattle.dp_pattern.specs.Name.{Pattern};
ghost use Rattle.dp_pattern.specs.Spelling.{stands_alone, class_spelling, tail_spelling, spelling};

use crate::class::Class;
use crate::tail::Tail;
use std::alloc::{AllocError, Global};

const DIGITS: &[u8] = b"0123456789";

const DIGITS_FROM_1: &[u8] = b"123456789";

const DIGITS_FROM_2: &[u8] = b"23456789";

// Whether the byte means itself outside sets.
fn means_itself(byte: u8) -> bool
    ensures { result ≡ stands_alone (byte ∷ []) }
{
    !matches!(
        byte,
        b'X' | b'x' | b'Z' | b'z' | b'N' | b'n' | b'[' | b'.' | b'!'
    )
}

// Whether this is a single byte that means itself outside sets.
fn stands_alone(members: &[u8]) -> bool
    ensures { result ≡ stands_alone members.now }
{
    match members {
        [byte] => means_itself(*byte),
        _ => false,
    }
}

// Writes the class of a single member.
fn push_only(text: &mut Vec<u8>, byte: u8) -> Result<(), AllocError>
    ensures { OnOk result (text.new.items ≡ text.old.items ++ class_spelling (byte ∷ [])) }
{
    if means_itself(byte) {
        text.push(byte)?;
    } else {
        text.extend_from_slice(&[b'[', byte, b']'])?;
    }
    Ok(())
}

// Writes the class of these members.
fn push_listed(text: &mut Vec<u8>, members: &[u8]) -> Result<(), AllocError>
    ensures { OnOk result (text.new.items ≡ text.old.items ++ class_spelling members.now) }
{
    if members == DIGITS {
        text.push(b'X')?;
    } else if members == DIGITS_FROM_1 {
        text.push(b'Z')?;
    } else if members == DIGITS_FROM_2 {
        text.push(b'N')?;
    } else if stands_alone(members) {
        text.extend_from_slice(members)?;
    } else {
        text.push(b'[')?;
        text.extend_from_slice(members)?;
        text.push(b']')?;
    }
    Ok(())
}

// Writes the class. The list is only used to collect its members, if they are needed.
fn push_class(text: &mut Vec<u8>, class: &Class, members: &mut Vec<u8>) -> Result<(), AllocError>
    ensures { OnOk result (text.new.items ≡ text.old.items ++ class_spelling class.now) }
{
    if let Some(letter) = class.letter() {
        text.push(letter)?;
        return Ok(());
    }
    if let Some(byte) = class.only() {
        return push_only(text, byte);
    }
    members.clear();
    class.push_members(members)?;
    push_listed(text, members)
}

// Writes the tail.
fn push_tail(text: &mut Vec<u8>, tail: Tail) -> Result<(), AllocError>
    ensures { OnOk result (text.new.items ≡ text.old.items ++ tail_spelling tail) }
{
    match tail {
        Tail::End => {}
        Tail::Dot => text.push(b'.')?,
        Tail::Bang => text.push(b'!')?,
    }
    Ok(())
}

// Writes the classes, with one list for the members of each in turn.
fn push_classes(alloc: Global, text: &mut Vec<u8>, classes: &[Class]) -> Result<(), AllocError>
    ensures { OnOk result (text.new.items ≡ text.old.items ++ flat_map class_spelling classes.now) }
{
    let mut members = Vec::new(alloc);
    for class in classes {
        push_class(text, class, &mut members)?;
    }
    Ok(())
}

/// The canonical spelling of a pattern. It fails only if memory runs out.
#[tactic(auto, unfolding(crate::specs::Spelling::spelling))]
pub(crate) fn pattern_text(
    alloc: Global,
    classes: &[Class],
    tail: Tail,
) -> Result<Vec<u8>, AllocError>
    ensures { IfOk result (λ text. text.items ≡ spelling (Pattern classes.now tail)) }
{
    // Most classes are written as a single byte.
    let mut text = Vec::with_capacity(alloc, classes.len().saturating_add(2))?;
    text.push(b'_')?;
    push_classes(alloc, &mut text, classes)?;
    push_tail(&mut text, tail)?;
    Ok(text)
}
