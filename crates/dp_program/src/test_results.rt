//! The results of the tests of several files.
ghost use Rattle.std.specs.Prelude.{◌≡◌, ◌++◌, List, Result, map, IfOk, OnOk};
ghost use Rattle.dp_conf.specs.Answers.{Answers};
ghost use Rattle.dp_commands.specs.Faults.{reason_of};
ghost use Rattle.dp_commands.specs.declared.fault.PbxFault.{PbxFault as Fault};
ghost use Rattle.dp_commands.specs.declared.fault.PbxFault.TheVariants.{Coded};
ghost use Rattle.dp_program.specs.TestFiles as files;
ghost use Rattle.dp_program.specs.TestSuites as spec;
ghost use Rattle.dp_test_runs.specs.declared.tap.Point.{Point as AnyPoint};

use crate::test_inputs::{push_code, push_place};
use crate::test_suites::ReadyTests;
use dp_commands::{Code, PbxFault};
use dp_files::path_of;
use dp_plan::{EntryId, NoMemory, Text};
use dp_test_runs::{Point, RunItems, TestedFile, add_entered, run_tests};
use dp_tests::{HeadLine, TestFile};
use std::alloc::Global;

/// The entries of its dialplan that the tests of a file ran, in the order in which they ran, and the path of the dialplan.
#[derive(Drop)]
pub(crate) struct PlanRun<'a> {
    pub(crate) tested: TestedFile<'a>,
    pub(crate) path: Text,
    pub(crate) entered: RunItems<EntryId>,
}

/// What the tests of files came to: their points, the entries of its dialplan that the tests of each file ran, and the lines about texts
/// that tests cannot run on.
#[derive(Drop)]
pub(crate) struct Results<'a> {
    pub(crate) points: RunItems<Point>,
    pub(crate) plans: Vec<PlanRun<'a>>,
    pub(crate) lines: Vec<u8>,
}

/// The line of the head that names the queues, or else the dialplan.
fn queues_head(file: &TestFile) -> &HeadLine
    ensures { result.now ≡ files.queues_head file.now }
{
    match &file.queues {
        Some(head) => head,
        None => &file.dialplan,
    }
}

/// The line of the head whose file has a fault with this code.
fn head_of_fault(file: &TestFile, code: Code) -> &HeadLine
    ensures { result.now ≡ files.head_of_fault file.now code }
{
    match code {
        Code::QueueLine(_) | Code::Queue(_) => queues_head(file),
        Code::Line(_)
        | Code::Name(_)
        | Code::Plan(_)
        | Code::ReadFailed
        | Code::TooLong
        | Code::WriteFailed
        | Code::Settle(_)
        | Code::BadScript
        | Code::BadBreak => &file.dialplan,
    }
}

/// Adds the place of a fault in the file that a line of the head names. A fault without a line is at the line of the head.
fn push_place_by(
    alloc: Global,
    out: &mut Vec<u8>,
    path: &[u8],
    head: &HeadLine,
    line: Option<usize>,
) -> Result<(), NoMemory>
    ensures { OnOk result (out.new.items ≡ out.old.items ++ files.place_by path.now head.now line) }
{
    match line {
        Some(line) => {
            let at = path_of(alloc, path, head.text.bytes())?;
            push_place(out, at.bytes(), line)
        }
        None => push_place(out, path, head.line),
    }
}

/// Adds the line about a fault of the texts that tests run on.
fn push_refused(
    alloc: Global,
    out: &mut Vec<u8>,
    tested: TestedFile<'_>,
    code: Code,
    line: Option<usize>,
) -> Result<(), NoMemory>
    ensures { OnOk result (out.new.items ≡ out.old.items ++ files.refused_line tested.entry.path.now tested.entry.file.now code line) }
{
    push_place_by(
        alloc,
        out,
        tested.path,
        head_of_fault(tested.file, code),
        line,
    )?;
    push_code(out, code)?;
    out.extend_from_slice(b"\n")?;
    Ok(())
}

/// The entries of its dialplan that the tests with these points ran.
fn plan_run<'a>(
    alloc: Global,
    tested: TestedFile<'a>,
    points: &[Point],
) -> Result<PlanRun<'a>, NoMemory>
    ensures { IfOk result (λ run. run ≡ spec.plan_run tested.entry points.now) }
{
    let path = path_of(alloc, tested.path, tested.file.dialplan.text.bytes())?;
    let mut entered = RunItems::none(alloc);
    add_entered(&mut entered, points)?;
    Ok(PlanRun {
        tested,
        path,
        entered,
    })
}

/// Adds the points of a file.
fn push_points<'a>(
    alloc: Global,
    results: &mut Results<'a>,
    tested: TestedFile<'a>,
    points: RunItems<Point>,
) -> Result<(), NoMemory>
    ensures { OnOk result (spec.results_now results.new ≡ spec.with_points tested.entry points (spec.results_now results.old)) }
{
    let run = plan_run(alloc, tested, points.as_slice())?;
    results.plans.push(run)?;
    results.points.append(points)
}

/// Adds what the tests of a file came to.
fn push_outcome<'a>(
    alloc: Global,
    results: &mut Results<'a>,
    tested: TestedFile<'a>,
    ran: Result<RunItems<Point>, PbxFault>,
) -> Result<(), NoMemory>
    ensures { OnOk result ((outcome : Result (List AnyPoint) Fault) → Answers (λ points. points) reason_of ran outcome
        → spec.results_now results.new ≡ spec.with_outcome tested.entry (spec.results_now results.old) outcome) }
{
    match ran {
        Ok(points) => push_points(alloc, results, tested, points),
        Err(PbxFault::NoMemory) => Err(NoMemory),
        Err(PbxFault::Coded { code, line }) => {
            push_refused(alloc, &mut results.lines, tested, code, line)
        }
    }
}

/// Runs the tests of a file.
fn run_file<'b, 'a>(
    alloc: Global,
    results: &mut Results<'b>,
    tests: &'b ReadyTests<'a>,
) -> Result<(), NoMemory>
    ensures { OnOk result (spec.AddsResults (spec.ready_now tests.now) (spec.results_now results.old) (spec.results_now results.new)) }
{
    let tested = tests.tested_file();
    let ran = run_tests(alloc, &tested);
    push_outcome(alloc, results, tested, ran)
}

/// Runs the tests of files, one file after another.
pub(crate) fn run_suite<'b, 'a>(
    alloc: Global,
    tests: &'b [ReadyTests<'a>],
) -> Result<Results<'b>, NoMemory>
    ensures { IfOk result (λ results. spec.Run (map spec.ready_now tests.now) spec.no_results (spec.results_now results)) }
{
    let mut results = Results {
        points: RunItems::none(alloc),
        plans: Vec::new(alloc),
        lines: Vec::new(alloc),
    };
    for file in tests {
        run_file(alloc, &mut results, file)?;
    }
    Ok(results)
}
