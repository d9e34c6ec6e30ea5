//! The longest text.
use crate::plan::render::plan_text;
use dp_case_tables::check_same;
use dp_plan::Dialplan;
use std::alloc::Global;
use std::test::Fail;

/// How many bytes a text may have: 16 MiB.
const MOST_BYTES: usize = 16_777_216;

fn check_line_feeds(alloc: Global) -> Result<(), Fail> {
    let text = vec![in alloc; b'\n'; MOST_BYTES]?;
    let read = Dialplan::load(alloc, &text);
    let got = plan_text(alloc, &read)?;
    check_same("a text of 16,777,216 line feeds", &got, "")
}

/// A text of 16,777,216 line feeds loads as the empty dialplan, without notes.
#[test]
fn the_longest_text_of_line_feeds_loads(rt: HostRuntime) -> Result<(), Fail> {
    check_line_feeds(rt.alloc())
}
