//! Test files, read with the files that they name.
ghost use Rattle.std.specs.Prelude.{◌≡◌, ◌++◌, map, IfOk, OnOk};
ghost use Rattle.dp_program.specs.TestFiles.{fault_line, fault_lines, inputs_now};
ghost use Rattle.dp_program.specs.TestSuites as spec;
ghost use Rattle.dp_program.specs.TestTexts.{text_in};

use crate::files::ReadFiles;
use crate::test_inputs::{ReadInputs, TestInputs, push_place, read_inputs};
use crate::texts::TextWithPath;
use dp_plan::NoMemory;
use dp_test_runs::{TestTexts, TestedFile};
use dp_tests::{TestFault, TestFaults, TestFile, read_tests};
use std::alloc::Global;

/// A test file whose tests can run: what it says, and the texts that they run on.
#[derive(Drop)]
pub(crate) struct ReadyTests<'a> {
    path: &'a str,
    text: &'a [u8],
    file: TestFile,
    inputs: TestInputs,
}

impl<'a> ReadyTests<'a> {
    ghost use Rattle.dp_program.specs.TestSuites as spec;

    /// The test file with the texts that its tests run on.
    pub(crate) fn tested_file(&self) -> TestedFile<'_>
        ensures { spec.IsReady result (spec.ready_now self.now) }
    {
        let texts = TestTexts {
            plan: &self.inputs.plan.text,
            queues: self.inputs.queues.as_deref(),
            reloaded: self.inputs.reloaded.as_slice(),
        };
        TestedFile {
            path: self.path.as_bytes(),
            text: self.text,
            file: &self.file,
            texts,
            places: self.inputs.plan.places(),
        }
    }
}

/// Test files that were read: those whose tests can run, and the lines about everything that is wrong with the others.
#[derive(Drop)]
pub(crate) struct Suite<'a> {
    pub(crate) ready: Vec<ReadyTests<'a>>,
    pub(crate) lines: Vec<u8>,
}

/// Adds the line about a fault of a test file.
fn push_fault(out: &mut Vec<u8>, path: &str, fault: TestFault) -> Result<(), NoMemory>
    ensures { OnOk result (out.new.items ≡ out.old.items ++ fault_line path.now fault) }
{
    push_place(out, path.as_bytes(), fault.line)?;
    out.extend_from_slice(b"fault ")?;
    out.extend_from_slice(fault.kind.name().as_bytes())?;
    out.extend_from_slice(b"\n")?;
    Ok(())
}

/// Adds the lines about the faults of a test file.
fn push_faults(out: &mut Vec<u8>, path: &str, faults: &[TestFault]) -> Result<(), NoMemory>
    ensures { OnOk result (out.new.items ≡ out.old.items ++ fault_lines path.now faults.now) }
{
    for fault in faults {
        push_fault(out, path, *fault)?;
    }
    Ok(())
}

/// Adds a test file, given the texts that its tests run on, or the lines about what is wrong with them.
fn push_file<'b, 'a>(
    suite: &mut Suite<'b>,
    source: &'b TextWithPath<'a>,
    file: TestFile,
    read: ReadInputs,
) -> Result<(), NoMemory>
    ensures { OnOk result (spec.suite_now suite.new ≡ spec.with_inputs (text_in source.now) file (spec.suite_now suite.old) (inputs_now read)) }
{
    match read {
        ReadInputs::Ready(inputs) => {
            suite.ready.push(ReadyTests {
                path: source.path,
                text: &source.text,
                file,
                inputs,
            })?;
            Ok(())
        }
        ReadInputs::Lacking(lines) => suite.lines.extend_from_slice(&lines),
    }
}

/// Reads the files that a test file names, and adds it.
fn add_file<'b, 'a, F: ReadFiles>(
    files: &F,
    alloc: Global,
    suite: &mut Suite<'b>,
    source: &'b TextWithPath<'a>,
    file: TestFile,
) -> Result<(), NoMemory>
    ensures { OnOk result (spec.AddsFile (F.source_at files.now) (text_in source.now) file (spec.suite_now suite.old) (spec.suite_now suite.new)) }
{
    let read = read_inputs(files, alloc, source.path, &file)?;
    push_file(suite, source, file, read)
}

/// Reads what the text of a test file says, and adds the file.
fn add_text<'b, 'a, F: ReadFiles>(
    files: &F,
    alloc: Global,
    suite: &mut Suite<'b>,
    source: &'b TextWithPath<'a>,
) -> Result<(), NoMemory>
    ensures { OnOk result (spec.AddsText (F.source_at files.now) (text_in source.now) (spec.suite_now suite.old) (spec.suite_now suite.new)) }
{
    match read_tests(alloc, &source.text) {
        Ok(file) => add_file(files, alloc, suite, source, file),
        Err(TestFaults::Faulty(faults)) => {
            push_faults(&mut suite.lines, source.path, faults.as_slice())
        }
        Err(TestFaults::NoMemory) => Err(NoMemory),
    }
}

/// Reads test files with the files that they name, one after another.
pub(crate) fn read_suite<'b, 'a, F: ReadFiles>(
    files: &F,
    alloc: Global,
    sources: &'b [TextWithPath<'a>],
) -> Result<Suite<'b>, NoMemory>
    ensures { IfOk result (λ suite. spec.AreRead (F.source_at files.now) (map text_in sources.now) spec.no_files (spec.suite_now suite)) }
{
    let mut suite = Suite {
        ready: Vec::new(alloc),
        lines: Vec::new(alloc),
    };
    for source in sources {
        add_text(files, alloc, &mut suite, source)?;
    }
    Ok(suite)
}
