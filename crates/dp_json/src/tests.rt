//! Tests that run, and the entries of dialplans that they ran.
ghost use Rattle.std.specs.Prelude.{◌≡◌, ◌++◌, OnOk};
ghost use Rattle.dp_json.specs.Objects.{fields_text, more_text, object_text};
ghost use Rattle.dp_json.specs.Tests as spec;

use crate::entry::{context_name, push_application, push_place};
use crate::joining::joined_texts;
use crate::object::{begin_object, end_object, push_number, push_text};
use dp_plan::{Dialplan, Entry, EntryId, NoMemory, Text};
use std::alloc::Global;

/// What is reported of a test that failed.
#[derive(Clone, Copy)]
pub struct TestFailure<'a> {
    /// Its place, `FILE:LINE`.
    pub at: &'a [u8],
    /// What was expected.
    pub expected: &'a [u8],
    /// What came of it.
    pub got: &'a [u8],
    /// The last entries that ran, line by line.
    pub trace: &'a [Text],
}

/// A test that ran.
#[derive(Clone, Copy)]
pub struct TestPoint<'a> {
    /// Its number, counted from 1.
    pub number: usize,
    /// Its name.
    pub name: &'a [u8],
    /// Its report, if it failed.
    pub failure: Option<TestFailure<'a>>,
}

/// The word for what a test comes to.
fn test_word(failure: &Option<TestFailure<'_>>) -> &'static [u8]
    ensures { result.now ≡ spec.test_word failure.now }
{
    match failure {
        None => b"Passed",
        Some(_) => b"Failed",
    }
}

/// Adds the fields of where a test failed, of what was expected, and of what came of it.
#[tactic(auto, unfolding(crate::specs::Tests::got_fields))]
fn push_got(out: &mut Vec<u8>, failure: &TestFailure<'_>) -> Result<(), NoMemory>
    ensures { OnOk result (out.new.items ≡ out.old.items ++ fields_text (spec.got_fields failure.now)) }
{
    push_text(out, b"at", failure.at)?;
    push_text(out, b"expected", failure.expected)?;
    push_text(out, b"got", failure.got)
}

/// Adds the field of the last entries that ran.
#[tactic(auto, unfolding(crate::specs::Tests::trace_field))]
fn push_trace(alloc: Global, out: &mut Vec<u8>, failure: &TestFailure<'_>) -> Result<(), NoMemory>
    ensures { OnOk result (out.new.items ≡ out.old.items ++ more_text (spec.trace_field failure.now)) }
{
    let trace = joined_texts(alloc, b'\n', failure.trace)?;
    push_text(out, b"trace", &trace)?;
    Ok(())
}

/// Adds the fields of the report of a test that failed.
fn push_failure(
    alloc: Global,
    out: &mut Vec<u8>,
    failure: &Option<TestFailure<'_>>,
) -> Result<(), NoMemory>
    ensures { OnOk result (out.new.items ≡ out.old.items ++ fields_text (spec.failure_fields failure.now)) }
{
    match failure {
        None => Ok(()),
        Some(failure) => {
            push_got(out, failure)?;
            push_trace(alloc, out, failure)
        }
    }
}

/// Adds the fields of the number of a test, of what it comes to, and of its name.
#[tactic(auto, unfolding(crate::specs::Tests::point_fields))]
fn push_point(out: &mut Vec<u8>, point: &TestPoint<'_>) -> Result<(), NoMemory>
    ensures { OnOk result (out.new.items ≡ out.old.items ++ fields_text (spec.point_fields point.now)) }
{
    push_number(out, b"number", point.number as u128)?;
    push_text(out, b"kind", test_word(&point.failure))?;
    push_text(out, b"name", point.name)
}

/// Adds the line of a test: an object of the type `test` with its `number`, `Passed` or `Failed` as its `kind`, and its `name`. If it
/// failed, there follow its place (`at`), what was `expected`, what came of it (`got`), and the last entries that ran (`trace`), with line
/// feeds between them.
///
/// It fails only if memory runs out.
#[tactic(auto, unfolding(crate::specs::Objects::object_text))]
pub fn push_test(alloc: Global, out: &mut Vec<u8>, point: &TestPoint<'_>) -> Result<(), NoMemory>
    ensures { OnOk result (out.new.items ≡ out.old.items ++ object_text (spec.test_object point.now)) }
{
    begin_object(out, b"test")?;
    push_point(out, point)?;
    push_failure(alloc, out, &point.failure)?;
    end_object(out)
}

/// Adds the last line of tests: an object of the type `count` with the number of `tests` and that of those that `failed`. It fails only if
/// memory runs out.
#[tactic(auto, unfolding(crate::specs::Objects::object_text))]
pub fn push_test_count(out: &mut Vec<u8>, tests: usize, failed: usize) -> Result<(), NoMemory>
    ensures { OnOk result (out.new.items ≡ out.old.items ++ object_text (spec.tests_object tests failed)) }
{
    begin_object(out, b"count")?;
    push_number(out, b"tests", tests as u128)?;
    push_number(out, b"failed", failed as u128)?;
    end_object(out)
}

/// Adds the line of the coverage of a dialplan: an object of the type `covered` with its `file`, the number of its `entries` that tests ran,
/// and the number of all its entries (`of`). It fails only if memory runs out.
#[tactic(auto, unfolding(crate::specs::Objects::object_text))]
pub fn push_covered(
    out: &mut Vec<u8>,
    file: &[u8],
    entries: usize,
    all: usize,
) -> Result<(), NoMemory>
    ensures { OnOk result (out.new.items ≡ out.old.items ++ object_text (spec.covered_object file.now entries all)) }
{
    begin_object(out, b"covered")?;
    push_text(out, b"file", file)?;
    push_number(out, b"entries", entries as u128)?;
    push_number(out, b"of", all as u128)?;
    end_object(out)
}

/// Adds the field of the number of a line, if there is one.
fn push_line_number(out: &mut Vec<u8>, line: Option<usize>) -> Result<(), NoMemory>
    ensures { OnOk result (out.new.items ≡ out.old.items ++ fields_text (spec.number_fields line)) }
{
    match line {
        Some(line) => push_number(out, b"line", line as u128),
        None => Ok(()),
    }
}

/// Adds the fields of a line of a file.
#[tactic(auto, unfolding(crate::specs::Tests::line_fields))]
fn push_line_fields(out: &mut Vec<u8>, file: &[u8], line: Option<usize>) -> Result<(), NoMemory>
    ensures { OnOk result (out.new.items ≡ out.old.items ++ fields_text (spec.line_fields file.now line)) }
{
    push_text(out, b"file", file)?;
    push_line_number(out, line)
}

/// Adds the fields of the place of an entry, and that of its application.
fn push_spot(out: &mut Vec<u8>, context: &[u8], entry: &Entry) -> Result<(), NoMemory>
    ensures { OnOk result (out.new.items ≡ out.old.items ++ fields_text (spec.never_by context.now (Some entry.now))) }
{
    push_place(out, context, entry.name.spelling(), entry.priority.get())?;
    push_application(out, entry.application.bytes())
}

/// Adds the same for the entry with these numbers, or nothing if there is no such entry.
#[tactic(auto, unfolding(crate::specs::Tests::never_fields))]
fn push_spot_at(out: &mut Vec<u8>, plan: &Dialplan, id: EntryId) -> Result<(), NoMemory>
    ensures { OnOk result (out.new.items ≡ out.old.items ++ fields_text (spec.never_fields plan.now id)) }
{
    match plan.entry(id) {
        Some(entry) => push_spot(out, context_name(plan, id.context), entry),
        None => Ok(()),
    }
}

/// Adds the line of an entry that no test ran: an object of the type `never` with the `file` and the `line` that it is made from, and its
/// `context`, `name`, `priority` and `application`. It fails only if memory runs out.
#[tactic(auto, unfolding(crate::specs::Objects::object_text))]
pub fn push_never(
    out: &mut Vec<u8>,
    file: &[u8],
    line: Option<usize>,
    plan: &Dialplan,
    id: EntryId,
) -> Result<(), NoMemory>
    ensures { OnOk result (out.new.items ≡ out.old.items ++ object_text (spec.never_object file.now line plan.now id)) }
{
    begin_object(out, b"never")?;
    push_line_fields(out, file, line)?;
    push_spot_at(out, plan, id)?;
    end_object(out)
}
