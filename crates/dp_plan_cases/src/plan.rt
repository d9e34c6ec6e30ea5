//! How dialplans load, worked out by hand from the rules.
pub(crate) mod cuts;
pub(crate) mod every_fault;
pub(crate) mod faults;
pub(crate) mod includes;
pub(crate) mod labels;
pub(crate) mod large;
pub(crate) mod manual;
pub(crate) mod names;
pub(crate) mod numbering;
pub(crate) mod orders;
pub(crate) mod places;
pub(crate) mod plans;
pub(crate) mod render;
pub(crate) mod rows;

use crate::plan::cuts::Fronts;
use crate::plan::every_fault::EveryPlanFault;
use crate::plan::render::PlanLoads;
use dp_case_tables::{check, check_all};
use std::alloc::Global;
use std::test::Fail;

const OF_TEXTS: &[&str] = &[
    rows::WORKED,
    rows::FAULT_LINES,
    rows::ESCAPED_SEMICOLONS,
    manual::EXAMPLES,
    plans::SECTIONS,
    plans::ENTRIES,
    plans::LINES,
    plans::GROUPS,
    plans::PRIORITIES,
    plans::APPLICATIONS,
    plans::NAMES_OF_APPLICATIONS,
    plans::WHOLE,
    plans::ONE_DIALPLAN,
];

/// The tables on whole dialplans and their lines: texts, and what each loads as, or its fault.
///
/// The tables on the parts of lines have a function of their own, since a function with many tables is costly.
pub(crate) fn tables_of_texts() -> &'static [&'static str] {
    OF_TEXTS
}

const OF_PARTS: &[&str] = &[
    names::PLAIN,
    names::PATTERNS,
    names::NO_NAMES,
    names::LEFT_OUT,
    numbering::NEXT,
    numbering::SAME,
    numbering::WHOLE,
    labels::LABELS,
    labels::TAKEN,
    labels::BAD,
    places::TAKEN,
    includes::INCLUDES,
    includes::WITH_TIMES,
    faults::OF_A_LINE,
    faults::OF_A_TEXT,
];

/// The tables on names, priorities, labels, includes and faults.
pub(crate) fn tables_of_parts() -> &'static [&'static str] {
    OF_PARTS
}

fn check_loads(alloc: Global) -> Result<(), Fail> {
    check_all::<PlanLoads>(alloc, tables_of_texts())?;
    check_all::<PlanLoads>(alloc, tables_of_parts())
}

#[test]
fn texts_load_as_a_dialplan_or_have_their_fault(rt: HostRuntime) -> Result<(), Fail> {
    check_loads(rt.alloc())
}

#[test]
fn cut_texts_load_or_have_a_fault_in_their_last_line(rt: HostRuntime) -> Result<(), Fail> {
    check::<Fronts>(rt.alloc(), cuts::CUT)
}

#[test]
fn every_fault_of_a_text_is_reported(rt: HostRuntime) -> Result<(), Fail> {
    check::<EveryPlanFault>(rt.alloc(), every_fault::EVERY)
}
