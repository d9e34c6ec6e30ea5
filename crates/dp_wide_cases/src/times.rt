//! Moments, and the ranges in which they lie, worked out by hand from the rules.
mod moments;
mod ranges;

use crate::times::moments::{MOMENTS, WrittenMoment};
use crate::times::ranges::{DAYS, Lies, MONTHS, TIMES, TOGETHER, WEEKDAYS};
use dp_case_tables::{check, check_all};
use std::alloc::Global;
use std::test::Fail;

fn check_moments(alloc: Global) -> Result<(), Fail> {
    check::<WrittenMoment>(alloc, MOMENTS)
}

/// Moments are read as they are written, with two digits for each number except the year.
#[test]
fn moments_are_read(rt: HostRuntime) -> Result<(), Fail> {
    check_moments(rt.alloc())
}

fn check_ranges(alloc: Global) -> Result<(), Fail> {
    check_all::<Lies>(alloc, &[TIMES, WEEKDAYS, DAYS, MONTHS, TOGETHER])
}

/// Moments lie in ranges of times, weekdays, days and months, which may wrap around.
#[test]
fn moments_lie_in_ranges(rt: HostRuntime) -> Result<(), Fail> {
    check_ranges(rt.alloc())
}
