//! How a test runs.
ghost use Rattle.std.specs.Prelude.{◌≡◌, ◌+◌, ◌-◌, IfOk, OnOk, false, length};
ghost use Rattle.std.specs.List.{find};
ghost use Rattle.std.specs.Option.{option_map};
ghost use Rattle.dp_conf.specs.Answers.{Answers};
ghost use Rattle.dp_commands.specs.Faults.{reason_of};
ghost use Rattle.dp_test_runs.specs.Results as results;
ghost use Rattle.dp_test_runs.specs.Settling.{numbers_of};
ghost use Rattle.dp_test_runs.specs.Tests as spec;
ghost use Rattle.dp_test_runs.specs.steps.Reloads as reloads;

use crate::course::{Course, PlanChange};
use crate::failure::{Failure, FailureKind};
use crate::items::RunItems;
use crate::lines::run_test_lines;
use crate::named_text::NamedFileText;
use crate::ran_entries::RanEntries;
use crate::settling::is_channel;
use crate::showing::got_text;
use dp_commands::{PbxFault, read_files};
use dp_machine::{Machine, NoMemory};
use dp_plan::Text;
use dp_tests::{Act, HeadLine, LineClaim, Test, TestFile, TestLine};
use dp_wide::WideApps;
use std::alloc::Global;

/// The texts that the tests of a file run on.
#[derive(Clone, Copy)]
pub struct TestTexts<'a> {
    /// The dialplan.
    pub plan: &'a [u8],
    /// The text of the queue file, if there is one. Without it there are no queues.
    pub queues: Option<&'a [u8]>,
    /// The dialplans that `reload` lines name.
    pub reloaded: &'a [NamedFileText],
}

/// The result of a test: its first failure, or None if it passes; what came of it in place of what was expected, which is empty if it passes;
/// the entries that ran up to its end, in order, with the calls inside theirs; and the dialplans that `reload` lines put in force.
#[derive(Drop)]
pub struct TestResult {
    pub failure: Option<Failure>,
    pub got: Text,
    pub ran: RanEntries,
    pub changes: RunItems<PlanChange>,
}

/// The channel that a claim is about.
fn claimed_channel(claim: &LineClaim) -> Option<u32>
    ensures { result ≡ spec.claimed_channel claim.now }
{
    match claim {
        LineClaim::State { channel, .. }
        | LineClaim::Ran { channel, .. }
        | LineClaim::Passed { channel, .. }
        | LineClaim::At { channel, .. } => Some(*channel),
        LineClaim::Value { channel, .. } => *channel,
        LineClaim::Rings { .. } | LineClaim::Waiting { .. } | LineClaim::Refused { .. } => None,
    }
}

/// Whether a claim is about a channel.
fn is_about(channel: u32, claim: &LineClaim) -> bool
    ensures { result ≡ spec.is_about channel claim.now }
{
    match claimed_channel(claim) {
        Some(number) => number == channel,
        None => false,
    }
}

/// Whether something was expected of a channel since the last event line, given whether that was so before a line.
fn expected_by(channel: u32, expected: bool, act: &Act) -> bool
    ensures { result ≡ spec.expected_by channel expected act.now }
{
    match act {
        Act::Turns(_) | Act::Reload(_) => false,
        Act::Expect(expectation) => expected || is_about(channel, &expectation.claim),
    }
}

/// Whether lines expect something of a channel after their last event line.
fn is_expected(lines: &[TestLine], channel: u32) -> bool
    ensures { result ≡ spec.is_expected lines.now channel }
{
    let mut expected = false;
    for line in lines {
        expected = expected_by(channel, expected, &line.act);
    }
    expected
}

/// Whether something is unknown ahead of a channel, and these lines expect nothing of it after their last event line.
fn is_left(
    alloc: Global,
    machine: &mut Machine<WideApps>,
    lines: &[TestLine],
    channel: u32,
) -> Result<bool, NoMemory>
    ensures left { IfOk result (λ left. left ≡ spec.is_left machine.old lines.now channel) }
    ensures same { machine.new ≡ machine.old }
{
    let unknown = machine.unknown_ahead(alloc, channel)?;
    Ok(unknown.is_some() && !is_expected(lines, channel))
}

/// The first channel that these lines leave with something unknown ahead.
fn first_left(
    alloc: Global,
    machine: &mut Machine<WideApps>,
    lines: &[TestLine],
) -> Result<Option<u32>, NoMemory>
    ensures left { IfOk result (λ left. left ≡ find (spec.is_left machine.old lines.now) (numbers_of machine.old)) }
    ensures same { machine.new ≡ machine.old }
{
    let mut number: u32 = 1;
    while is_channel(machine, number) {
        machine.show_good();
        if is_left(alloc, machine, lines, number)? {
            return Ok(Some(number));
        }
        number += 1;
    }
    Ok(None)
}

/// The number of the last line of a test.
fn last_line(test: &Test) -> usize
    ensures { result ≡ spec.last_line test.now }
{
    let mut number = test.line;
    for line in test.lines.as_slice() {
        number = line.line;
    }
    number
}

/// The failure of a test at its end.
fn failure_at_end(
    alloc: Global,
    machine: &mut Machine<WideApps>,
    test: &Test,
) -> Result<Option<Failure>, NoMemory>
    ensures failure { IfOk result (λ failure. failure ≡ spec.failure_at_end machine.old test.now) }
    ensures same { machine.new ≡ machine.old }
{
    match first_left(alloc, machine, test.lines.as_slice())? {
        Some(channel) => Ok(Some(Failure {
            line: last_line(test),
            kind: FailureKind::LeftUnknown(channel),
        })),
        None => Ok(None),
    }
}

/// Runs a test after its setup, and gives its failure.
fn run_after_setup(
    alloc: Global,
    files: &[NamedFileText],
    test: &Test,
    course: &mut Course,
) -> Result<Option<Failure>, NoMemory>
    ensures { IfOk result (λ failure. spec.test_end course.new failure ≡ spec.ended_test files.now test.now course.old) }
{
    let failure = run_test_lines(alloc, files, course, test.lines.as_slice())?;
    if failure.is_some() {
        return Ok(failure);
    }
    failure_at_end(alloc, &mut course.machine, test)
}

/// States what a line of the head states, if there is one.
fn take_fact(alloc: Global, course: &mut Course, head: Option<&HeadLine>) -> Result<(), NoMemory>
    ensures { IfOk result (λ done. course.new ≡ spec.after_fact course.old (option_map (λ head. head.now) head.entry)) }
{
    match head {
        Some(head) => course.take_turns(alloc, head.turns.as_slice()),
        None => Ok(()),
    }
}

/// Runs a test of a file from its beginning, and gives its failure.
fn run_in(
    alloc: Global,
    files: &[NamedFileText],
    file: &TestFile,
    test: &Test,
    course: &mut Course,
) -> Result<Option<Failure>, NoMemory>
    ensures { IfOk result (λ failure. spec.test_end course.new failure ≡ spec.ended_in files.now file.now test.now course.old) }
{
    take_fact(alloc, course, file.clock.as_ref())?;
    take_fact(alloc, course, file.assume.as_ref())?;
    let failure = run_test_lines(alloc, files, course, file.setup.as_slice())?;
    if failure.is_some() {
        return Ok(failure);
    }
    run_after_setup(alloc, files, test, course)
}

/// Runs a test of a file from its beginning. A test that does not reload leaves the dialplan in force as it is.
#[tactic(auto, using(crate::proofs::ReloadsLemmas::test_keeps))]
pub(crate) fn run_on(
    alloc: Global,
    files: &[NamedFileText],
    file: &TestFile,
    test: &Test,
    course: &mut Course,
) -> Result<TestResult, NoMemory>
    requires { course.old ≡ spec.beginning course.old.machine }
    ensures ended { IfOk result (λ ended. ended ≡ results.result_on files.now file.now test.now course.old.machine) }
    ensures plan { OnOk result (reloads.test_reloads file.now test.now ≡ false → course.new.machine.plan ≡ course.old.machine.plan) }
{
    let failure = run_in(alloc, files, file, test, course)?;
    let got = got_text(alloc, course, test.lines.as_slice(), failure)?;
    let (ran, changes) = course.take_ran(alloc);
    Ok(TestResult {
        failure,
        got: Text::new(got),
        ran,
        changes,
    })
}

/// The machine in which a test begins.
#[tactic(auto, unfolding(crate::specs::Results::opening_of))]
pub(crate) fn begin(
    alloc: Global,
    plan: &[u8],
    queues: Option<&[u8]>,
) -> Result<Machine<WideApps>, PbxFault>
    ensures { Answers (λ machine. machine) reason_of result
        (results.opening_of plan.now (option_map (λ text. text.now) queues.entry)) }
{
    let files = read_files(alloc, plan, queues)?;
    match files.into_machine(alloc) {
        Ok(machine) => Ok(machine),
        Err(refused) => Err(PbxFault::from(refused)),
    }
}

/// Runs a test of a file: what the head states, the setup, and then the test's own lines, in a machine of its own. The dialplan and its queues
/// are loaded anew for each test.
///
/// The error is the first fault of the dialplan or of the queues, or want of memory.
#[tactic(auto, unfolding(crate::specs::Results::result_of))]
pub fn run_test(
    alloc: Global,
    texts: TestTexts<'_>,
    file: &TestFile,
    test: &Test,
) -> Result<TestResult, PbxFault>
    ensures { Answers (λ ended. ended) reason_of result (results.result_of texts.entry file.now test.now) }
{
    let machine = begin(alloc, texts.plan, texts.queues)?;
    let mut course = Course::beginning(alloc, machine);
    match run_on(alloc, texts.reloaded, file, test, &mut course) {
        Ok(ended) => Ok(ended),
        Err(refused) => Err(PbxFault::from(refused)),
    }
}
