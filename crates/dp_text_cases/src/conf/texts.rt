//! Texts as their bytes.
use dp_case_tables::{Question, bytes_of, push_bytes};
use dp_conf::{NoMemory, Text};
use std::alloc::Global;
use std::collections::HashMap;
use std::test::Fail;

fn push_same(out: &mut String, left: &Text, right: &Text) -> Result<(), NoMemory> {
    match (left == right, left != right) {
        (true, false) => out.push_str("same"),
        (false, true) => out.push_str("other"),
        _ => out.push_str("two answers"),
    }
}

/// The bytes of a text, how it compares with its clone, and with a copy of the bytes of another.
fn push_text(out: &mut String, alloc: Global, text: &Text, other: &[u8]) -> Result<(), NoMemory> {
    push_bytes(out, text.bytes())?;
    out.push(' ')?;
    let clone = text.clone()?;
    push_same(out, text, &clone)?;
    out.push(' ')?;
    let copy = Text::copy_of(alloc, other)?;
    push_same(out, text, &copy)
}

/// The text before the bar, whether its clone is the same, and whether a copy of the text after the bar is.
pub(super) struct SameClone;

impl Question for SameClone {
    fn answer(alloc: Global, asked: &str) -> Result<String, Fail> {
        let (left, right) = asked.split_once('|').ok_or("no two texts")?;
        let text = Text::new(bytes_of(alloc, left)?);
        let other = bytes_of(alloc, right)?;
        let mut out = String::new(alloc);
        push_text(&mut out, alloc, &text, &other)?;
        Ok(out)
    }
}

/// A text keeps its bytes.
pub(super) const SAME: &str = r"
a\x00\xFF|a\x00\xFF→a\x00ÿ same same
|→ same same
|a\x00\xFF→ same other
";

fn map_of_two(alloc: Global) -> Result<HashMap<Text, u32>, NoMemory> {
    let mut map = HashMap::new(alloc);
    map.insert(Text::new(Vec::from_slice(alloc, b"main")?), 1)?;
    map.insert(Text::new(Vec::from_slice(alloc, b"out")?), 2)?;
    Ok(map)
}

/// The value of the text in a map, where `main` has 1 and `out` has 2.
pub(super) struct MapPlaces;

impl Question for MapPlaces {
    fn answer(alloc: Global, asked: &str) -> Result<String, Fail> {
        let map = map_of_two(alloc)?;
        let text = Text::new(bytes_of(alloc, asked)?);
        let mut out = String::new(alloc);
        match map.get(&text) {
            Some(place) => write!(out, "{place}")?,
            None => out.push_str("none")?,
        }
        Ok(out)
    }
}

/// A text is the key of a map.
pub(super) const PLACES: &str = r"
main→1
out→2
Out→none
";
