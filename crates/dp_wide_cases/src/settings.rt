//! Names that are set, keys that are deleted, and subroutines and macros that are entered, worked out by hand from the rules.
mod calls;
mod cells;
mod lists;
mod runs;
mod targets;
mod variables;

use crate::settings::calls::{MACROS, SUBROUTINES};
use crate::settings::cells::{CALLERS, CELLS, DELETED, FUNCTIONS};
use crate::settings::lists::{ARRAYS, SEVERAL};
use crate::settings::runs::SettingsRun;
use crate::settings::targets::{TARGETS, TargetOfSetting};
use crate::settings::variables::VARIABLES;
use dp_case_tables::{check, check_all};
use std::alloc::Global;
use std::test::Fail;

fn check_settings(alloc: Global) -> Result<(), Fail> {
    check_all::<SettingsRun>(
        alloc,
        &[
            VARIABLES, CELLS, FUNCTIONS, CALLERS, DELETED, ARRAYS, SEVERAL,
        ],
    )
}

/// Names are set, one or several at a time, and keys are deleted.
#[test]
fn names_are_set_and_keys_are_deleted(rt: HostRuntime) -> Result<(), Fail> {
    check_settings(rt.alloc())
}

fn check_calls(alloc: Global) -> Result<(), Fail> {
    check_all::<SettingsRun>(alloc, &[SUBROUTINES, MACROS])
}

/// Subroutines and macros are entered and left, and know their arguments.
#[test]
fn subroutines_and_macros_are_entered_and_left(rt: HostRuntime) -> Result<(), Fail> {
    check_calls(rt.alloc())
}

fn check_targets(alloc: Global) -> Result<(), Fail> {
    check::<TargetOfSetting>(alloc, TARGETS)
}

/// What a name sets from outside.
#[test]
fn targets_of_names_that_are_set_from_outside(rt: HostRuntime) -> Result<(), Fail> {
    check_targets(rt.alloc())
}
