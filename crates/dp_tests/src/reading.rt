//! How a test file is read.
ghost use Rattle.std.specs.Prelude.{◌≡◌, ◌++◌, fold, IfOk, OnOk};
ghost use Rattle.dp_conf.specs.Answers.{Answers};
ghost use Rattle.dp_tests.specs.Faults.{reason_of};
ghost use Rattle.dp_tests.specs.Files.{fault_at, file_of, lines_of};
ghost use Rattle.dp_tests.specs.steps.Drafts as spec;

use crate::draft::TestDraft;
use crate::fault::{TestFault, TestFaultKind, TestFaults};
use crate::file::TestFile;
use crate::items::Items;
use crate::meaning::HeadWord;
use crate::meanings::read_meant;
use dp_conf::first_part;
use dp_plan::NoMemory;
use std::alloc::Global;

/// What the lines of a text make, and the faults that each has.
#[derive(Drop)]
struct TestReading {
    draft: TestDraft,
    faults: Items<TestFault>,
}

/// Adds the fault of a line at the end, if it has one.
fn push_fault(
    faults: &mut Items<TestFault>,
    line: usize,
    kind: Option<TestFaultKind>,
) -> Result<(), NoMemory>
    ensures { OnOk result (faults.new ≡ faults.old ++ fault_at line kind) }
{
    match kind {
        Some(kind) => faults.push(TestFault { line, kind }),
        None => Ok(()),
    }
}

/// Reads all lines of a text.
fn read_all(alloc: Global, text: &[u8]) -> Result<TestReading, NoMemory>
    ensures draft { IfOk result (λ reading. reading.draft ≡ fold spec.drafted_after spec.nothing_drafted (lines_of text.now)) }
    ensures faults { IfOk result (λ reading. reading.faults ≡ spec.faults_from spec.nothing_drafted (lines_of text.now)) }
{
    let mut draft = TestDraft::new(alloc);
    let mut faults = Items::none(alloc);
    let mut number: usize = 0;
    let mut rest = Some(text);
    while let Some(left) = rest {
        let (part, after) = first_part(left);
        number += 1;
        let meant = read_meant(alloc, number, part)?;
        push_fault(&mut faults, number, draft.fault(&meant.meaning))?;
        draft.take(alloc, meant)?;
        rest = after;
    }
    Ok(TestReading { draft, faults })
}

/// Adds, before the other faults, that the head names no dialplan, if that is so.
fn add_dialplan_fault(has_dialplan: bool, faults: &mut Items<TestFault>) -> Result<(), NoMemory>
    ensures { OnOk result (faults.new ≡ spec.with_dialplan_fault has_dialplan faults.old) }
{
    if has_dialplan {
        return Ok(());
    }
    faults.push_front(TestFault {
        line: 1,
        kind: TestFaultKind::NoDialplan,
    })
}

/// The file, if it has no faults.
fn file_or_faults(file: Option<TestFile>, faults: Items<TestFault>) -> Result<TestFile, TestFaults>
    ensures { Answers (λ file. file) reason_of result (spec.file_or_faults file faults) }
{
    if !faults.as_slice().is_empty() {
        return Err(TestFaults::Faulty(faults));
    }
    match file {
        Some(file) => Ok(file),
        None => Err(TestFaults::Faulty(faults)),
    }
}

/// The file of all lines, or all their faults.
fn finish(reading: TestReading) -> Result<TestFile, TestFaults>
    ensures { Answers (λ file. file) reason_of result (spec.draft_result reading.draft reading.faults) }
{
    let TestReading { draft, mut faults } = reading;
    add_dialplan_fault(draft.has_head(HeadWord::Dialplan), &mut faults)?;
    let file = draft.into_file()?;
    file_or_faults(file, faults)
}

/// The test file that a text is, or all faults of the text, in the order of its lines.
///
/// A line has at most one fault. A head that names no dialplan has its fault at line 1, before that of the line.
pub fn read_tests(alloc: Global, text: &[u8]) -> Result<TestFile, TestFaults>
    ensures { Answers (λ file. file) reason_of result (file_of text.now) }
{
    let reading = read_all(alloc, text)?;
    finish(reading)
}
