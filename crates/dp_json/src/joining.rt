//! Texts that are joined to one.
ghost use Rattle.std.specs.Prelude.{◌≡◌, ◌++◌, IfOk, OnOk, map};
ghost use Rattle.std.specs.List.{flat_map};
ghost use Rattle.dp_json.specs.Joining as spec;

use dp_plan::{NoMemory, Text};
use std::alloc::Global;

/// Adds a text behind a separator.
fn push_separated(out: &mut Vec<u8>, separator: u8, text: &[u8]) -> Result<(), NoMemory>
    ensures { OnOk result (out.new.items ≡ out.old.items ++ spec.behind_separator separator text.now) }
{
    out.push(separator)?;
    out.extend_from_slice(text)
}

/// Adds texts, each behind a separator.
fn push_texts(out: &mut Vec<u8>, separator: u8, texts: &[Text]) -> Result<(), NoMemory>
    ensures { OnOk result (out.new.items ≡ out.old.items ++ flat_map (spec.behind_separator separator) texts.now) }
{
    for text in texts {
        push_separated(out, separator, text.bytes())?;
    }
    Ok(())
}

/// Adds names, each behind a separator.
fn push_names(out: &mut Vec<u8>, separator: u8, names: &[Vec<u8>]) -> Result<(), NoMemory>
    ensures { OnOk result (out.new.items
        ≡ out.old.items ++ flat_map (spec.behind_separator separator) (map (λ name. name.items) names.now)) }
{
    for name in names {
        push_separated(out, separator, name)?;
    }
    Ok(())
}

/// Texts, with a separator between each two.
pub(crate) fn joined_texts(
    alloc: Global,
    separator: u8,
    texts: &[Text],
) -> Result<Vec<u8>, NoMemory>
    ensures { IfOk result (λ text. text.items ≡ spec.joined_texts separator texts.now) }
{
    let mut out = Vec::new(alloc);
    if let Some((first, others)) = texts.split_first() {
        out.extend_from_slice(first.bytes())?;
        push_texts(&mut out, separator, others)?;
    }
    Ok(out)
}

/// Names, with a separator between each two.
pub(crate) fn joined_names(
    alloc: Global,
    separator: u8,
    names: &[Vec<u8>],
) -> Result<Vec<u8>, NoMemory>
    ensures { IfOk result (λ text. text.items ≡ spec.joined_texts separator (map (λ name. name.items) names.now)) }
{
    let mut out = Vec::new(alloc);
    if let Some((first, others)) = names.split_first() {
        out.extend_from_slice(first)?;
        push_names(&mut out, separator, others)?;
    }
    Ok(out)
}
