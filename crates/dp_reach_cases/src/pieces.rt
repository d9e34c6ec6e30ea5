//! Pieces of texts that are not expanded yet: how they are read, cut and trimmed, and which names and shapes they meet.
mod answers;
mod cuts;
mod duties;
mod entries;
mod exchange_duties;
mod hidden;
mod names;
mod notation;
mod reach_answers;
mod shapes;
mod texts;
mod wide_duties;
mod wide_texts;

use crate::pieces::answers::{ANSWERS, Answers, HIDDEN_ANSWERS, HiddenAnswers};
use crate::pieces::cuts::{CUTS, Cuts};
use crate::pieces::duties::{
    CLAIMED, Claimed, DUTIES, Duties, FOUND, FoundShapes, REACHED, Reached,
};
use crate::pieces::entries::{ENTRIES, Entries};
use crate::pieces::exchange_duties::EXCHANGE_OWED;
use crate::pieces::names::{NAMES, NameSteps};
use crate::pieces::reach_answers::{AnswerParts, HIDDEN_PARTS, HiddenParts, PARTS};
use crate::pieces::shapes::{SHAPES, ShapeAnswers};
use crate::pieces::texts::{ShapedTexts, TEXTS};
use crate::pieces::wide_duties::{WIDE_OWED, WideOwed};
use crate::pieces::wide_texts::{WIDE_TEXTS, WideTexts};
use dp_case_tables::check;
use std::test::Fail;

/// Pieces cut at a byte and into arguments, trimmed, and without their first bytes.
#[test]
fn pieces_are_cut_and_trimmed(rt: HostRuntime) -> Result<(), Fail> {
    check::<Cuts>(rt.alloc(), CUTS)
}

/// Shapes and the names of extensions that their texts may match, and shapes within others.
#[test]
fn shapes_match_extension_names(rt: HostRuntime) -> Result<(), Fail> {
    check::<ShapeAnswers>(rt.alloc(), SHAPES)
}

/// Which bytes the values of names may have, given a table.
#[test]
fn bytes_that_values_may_have(rt: HostRuntime) -> Result<(), Fail> {
    check::<NameSteps>(rt.alloc(), NAMES)
}

/// Texts read as pieces, given what is known of names.
#[test]
fn texts_are_read_as_pieces(rt: HostRuntime) -> Result<(), Fail> {
    check::<ShapedTexts>(rt.alloc(), TEXTS)
}

/// The same over the functions of the wide table.
#[test]
fn wide_texts_are_read_as_pieces(rt: HostRuntime) -> Result<(), Fail> {
    check::<WideTexts>(rt.alloc(), WIDE_TEXTS)
}

/// What each application owes because of the pieces of its arguments, which places a reach has, and what is found.
#[test]
fn duties_reached_places_and_findings(rt: HostRuntime) -> Result<(), Fail> {
    check::<Duties>(rt.alloc(), DUTIES)?;
    check::<Reached>(rt.alloc(), REACHED)?;
    check::<FoundShapes>(rt.alloc(), FOUND)?;
    check::<Claimed>(rt.alloc(), CLAIMED)
}

/// What each application of the wide table owes because of the pieces of its arguments.
#[test]
fn duties_of_the_wide_table(rt: HostRuntime) -> Result<(), Fail> {
    check::<WideOwed>(rt.alloc(), WIDE_OWED)?;
    check::<WideOwed>(rt.alloc(), EXCHANGE_OWED)
}

/// Which entries a call may run, or whether it may reach a context.
#[test]
fn entries_and_contexts_that_a_call_may_reach(rt: HostRuntime) -> Result<(), Fail> {
    check::<Answers>(rt.alloc(), ANSWERS)
}

/// The same over a table of which nothing is known of what one application does.
#[test]
fn entries_that_may_do_anything(rt: HostRuntime) -> Result<(), Fail> {
    check::<HiddenAnswers>(rt.alloc(), HIDDEN_ANSWERS)
}

/// Which entries a call may run, in the order of the dialplan.
#[test]
fn entries_that_a_call_may_run_in_order(rt: HostRuntime) -> Result<(), Fail> {
    check::<Entries>(rt.alloc(), ENTRIES)
}

/// The same in parts, for other tools.
#[test]
fn answers_in_parts(rt: HostRuntime) -> Result<(), Fail> {
    check::<AnswerParts>(rt.alloc(), PARTS)?;
    check::<HiddenParts>(rt.alloc(), HIDDEN_PARTS)
}
