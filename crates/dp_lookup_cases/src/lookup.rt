//! Look-ups in dialplans, worked out by hand from the rules.
mod includes;
mod labels;
mod large;
mod more;
mod names;
mod orders;
mod priorities;
pub(crate) mod render;
mod rows;

use crate::lookup::render::check;
use std::alloc::Global;
use std::test::Fail;

const TABLES: &[&str] = &[
    rows::ROWS,
    names::NAMES,
    priorities::PRIORITIES,
    includes::INCLUDES,
    labels::LABELS,
    more::MORE,
];

fn check_tables(alloc: Global) -> Result<(), Fail> {
    for table in TABLES {
        check(alloc, table)?;
    }
    Ok(())
}

#[test]
fn look_ups_in_small_dialplans(rt: HostRuntime) -> Result<(), Fail> {
    check_tables(rt.alloc())
}
