//! Configuration texts and their contents, worked out by hand from the rules.
mod args;
mod codes;
mod files;
mod items;
mod terms;
mod texts;

use crate::conf::args::{ARGUMENTS, SplitArguments, TRIMMED, Trimmed};
use crate::conf::terms::{CUTS, FirstComma, NUMBERS, Number, SameWords, WORDS};
use crate::conf::texts::{MapPlaces, PLACES, SAME, SameClone};
use dp_case_tables::check;
use std::alloc::Global;
use std::test::Fail;

fn check_parts(alloc: Global) -> Result<(), Fail> {
    check::<SplitArguments>(alloc, ARGUMENTS)?;
    check::<Trimmed>(alloc, TRIMMED)?;
    check::<SameWords>(alloc, WORDS)?;
    check::<Number>(alloc, NUMBERS)?;
    check::<FirstComma>(alloc, CUTS)
}

/// Arguments, texts without blanks at their ends, words without regard to case, numbers, and texts cut once.
#[test]
fn parts_of_texts(rt: HostRuntime) -> Result<(), Fail> {
    check_parts(rt.alloc())
}

fn check_texts(alloc: Global) -> Result<(), Fail> {
    check::<SameClone>(alloc, SAME)?;
    check::<MapPlaces>(alloc, PLACES)
}

/// A text is its bytes, and the key of a map by them.
#[test]
fn texts_are_their_bytes(rt: HostRuntime) -> Result<(), Fail> {
    check_texts(rt.alloc())
}
