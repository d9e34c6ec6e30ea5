//! Texts that are cut, counted, filtered or written in one case, worked out by hand from the rules.
mod fields;
mod letters;

use crate::texts::fields::{COUNTS, CUTS, ChosenFields, DELIMITERS, Delimiter, FieldCount};
use crate::texts::letters::{CAPITALS, KeptBytes, Letters, SETS};
use dp_case_tables::check;
use std::alloc::Global;
use std::test::Fail;

fn check_fields(alloc: Global) -> Result<(), Fail> {
    check::<Delimiter>(alloc, DELIMITERS)?;
    check::<ChosenFields>(alloc, CUTS)?;
    check::<FieldCount>(alloc, COUNTS)
}

/// Values are cut into fields at a byte, and some of the fields are chosen.
#[test]
fn values_are_cut_into_fields(rt: HostRuntime) -> Result<(), Fail> {
    check_fields(rt.alloc())
}

fn check_letters(alloc: Global) -> Result<(), Fail> {
    check::<KeptBytes>(alloc, SETS)?;
    check::<Letters>(alloc, CAPITALS)
}

/// Texts keep the bytes of a set, and are written in one case.
#[test]
fn texts_are_filtered_and_change_case(rt: HostRuntime) -> Result<(), Fail> {
    check_letters(rt.alloc())
}
