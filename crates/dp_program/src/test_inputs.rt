//! The files that the head of a test file names.
ghost use Rattle.std.specs.Prelude.{◌≡◌, ◌++◌, None, Result, IfOk, OnOk, map};
ghost use Rattle.std.specs.List.{flat_map};
ghost use Rattle.std.specs.Option.{option_map};
ghost use Rattle.dp_conf.specs.Answers.{Answers};
ghost use Rattle.dp_commands.specs.Codes.{code_text};
ghost use Rattle.dp_files.specs.Reading.{first_fault};
ghost use Rattle.dp_files.specs.declared.reading.ReadingFault.{ReadingFault as Reading};
ghost use Rattle.dp_notices.specs.PlanFiles.{PlanFilesOf, plan_now};
ghost use Rattle.dp_notices.specs.QueueFiles.{QueueFilesOf, queues_now};
ghost use Rattle.dp_program.specs.Dialplans.{dialplan_read, faulty, read_now, text_now};
ghost use Rattle.dp_program.specs.QueueTexts as queue_texts;
ghost use Rattle.dp_program.specs.QueueTexts.{unread};
ghost use Rattle.dp_program.specs.declared.dialplans.PlanUse.TheVariants.{LookUp};
ghost use Rattle.dp_program.specs.TestFiles as spec;

use crate::assumptions::test_assumptions;
use crate::dialplans::{PlanText, PlanUse, ReadDialplan, dialplan_of};
use crate::files::ReadFiles;
use crate::queue_texts::{ReadQueues, queues_or_notices};
use crate::system_paths::SystemPaths;
use dp_commands::Code;
use dp_files::{ReadingFault, path_of, text_path};
use dp_notices::{Assumptions, PlanFiles, QueueFiles, read_folder_plan, read_folder_queues};
use dp_plan::{NoMemory, SharedText, Text};
use dp_test_runs::{NamedFileText, RunItems};
use dp_tests::{Act, HeadLine, Test, TestFile, TestLine};
use dp_wide::{Moment, read_moment};
use itoa::Buffer;
use std::alloc::Global;

/// Adds the place of a line, `FILE:LINE: `.
pub(crate) fn push_place(out: &mut Vec<u8>, path: &[u8], line: usize) -> Result<(), NoMemory>
    ensures { OnOk result (out.new.items ≡ out.old.items ++ spec.place_text path.now line) }
{
    let mut buffer = Buffer::new();
    out.extend_from_slice(path)?;
    out.extend_from_slice(b":")?;
    out.extend_from_slice(buffer.format(line).as_bytes())?;
    out.extend_from_slice(b": ")?;
    Ok(())
}

/// Adds the words of a fault, `fault CODE NAME`.
pub(crate) fn push_code(out: &mut Vec<u8>, code: Code) -> Result<(), NoMemory>
    ensures { OnOk result (out.new.items ≡ out.old.items ++ code_text code) }
{
    let mut buffer = Buffer::new();
    out.extend_from_slice(b"fault ")?;
    out.extend_from_slice(buffer.format(code.number()).as_bytes())?;
    out.extend_from_slice(b" ")?;
    out.extend_from_slice(code.name().as_bytes())?;
    Ok(())
}

/// The name of a file, and the line of the test file that names it.
#[derive(Clone, Copy)]
struct FileMention<'a> {
    line: usize,
    name: &'a [u8],
}

/// The file that a line of the head names.
fn named_in(head: &HeadLine) -> FileMention<'_>
    ensures { spec.named_now result ≡ spec.named_in head.now }
{
    FileMention {
        line: head.line,
        name: head.text.bytes(),
    }
}

/// A file that a line of a test file names, with the path of the test file.
#[derive(Clone, Copy)]
struct NamedFile<'a> {
    path: &'a str,
    named: FileMention<'a>,
}

impl<'a> NamedFile<'a> {
    ghost use Rattle.std.specs.Prelude.{IfOk, ◌≡◌, ◌++◌, OnOk, codes};
    ghost use Rattle.dp_program.specs.TestFiles as spec;

    /// Adds a blank, the name of the file, and the end of the line.
    fn push_name(&self, out: &mut Vec<u8>) -> Result<(), NoMemory>
        ensures { OnOk result (out.new.items ≡ out.old.items ++ codes " " ++ self.now.named.name.now ++ codes "\n") }
    {
        out.extend_from_slice(b" ")?;
        out.extend_from_slice(self.named.name)?;
        out.extend_from_slice(b"\n")?;
        Ok(())
    }

    /// The line that says why the file was not read.
    fn unread_line(&self, alloc: Global, code: Code) -> Result<Vec<u8>, NoMemory>
        ensures { IfOk result (λ line. line.items ≡ spec.unread_line self.now.path.now (spec.named_now self.now.named) code) }
    {
        let mut line = Vec::new(alloc);
        push_place(&mut line, self.path.as_bytes(), self.named.line)?;
        push_code(&mut line, code)?;
        self.push_name(&mut line)?;
        Ok(line)
    }

    /// The path of the file.
    fn file_path(&self, alloc: Global) -> Result<Text, NoMemory>
        ensures { IfOk result (λ path. path ≡ spec.path_to self.now.path.now (spec.named_now self.now.named)) }
    {
        path_of(alloc, self.path.as_bytes(), self.named.name)
    }
}

/// How the dialplans of a test file are read: the moment by which includes with times are read, and what is assumed of lines that are left
/// out.
#[derive(Clone, Copy)]
struct PlanReading {
    clock: Option<Moment>,
    assumed: Assumptions,
}

/// The line about why a dialplan was not read, in its place.
fn unread_plan(alloc: Global, named: NamedFile<'_>, code: Code) -> Result<ReadDialplan, NoMemory>
    ensures { IfOk result (λ read. read_now read ≡ faulty (spec.unread_line named.entry.path.now (spec.named_now named.entry.named) code)) }
{
    let line = named.unread_line(alloc, code)?;
    Ok(ReadDialplan::Faulty(line))
}

/// The dialplan that was read, or the line about why it was not read.
fn plan_in(
    alloc: Global,
    named: NamedFile<'_>,
    assumed: Assumptions,
    read: Result<PlanFiles, ReadingFault>,
) -> Result<ReadDialplan, NoMemory>
    ensures { IfOk result (λ dialplan. (plan : Result PlanFilesOf Reading) → Answers plan_now first_fault read plan
        → read_now dialplan ≡ spec.plan_or_lines named.entry.path.now (spec.named_now named.entry.named) (dialplan_read (LookUp assumed) None plan)) }
{
    match read {
        Ok(plan) => dialplan_of(alloc, PlanUse::LookUp(assumed), None, &plan),
        Err(ReadingFault::NotFound) => unread_plan(alloc, named, Code::ReadFailed),
        Err(ReadingFault::TooLong) => unread_plan(alloc, named, Code::TooLong),
        Err(ReadingFault::NoMemory) => Err(NoMemory),
    }
}

/// Reads the dialplan at a path.
fn read_plan_at<F: ReadFiles>(
    files: &F,
    alloc: Global,
    named: NamedFile<'_>,
    reading: PlanReading,
    at: &str,
) -> Result<ReadDialplan, NoMemory>
    ensures { IfOk result (λ read. spec.IsPlanAt (F.source_at files.now) reading named.entry.path.now (spec.named_now named.entry.named) at.now (read_now read)) }
{
    let paths = SystemPaths { files };
    let read = read_folder_plan(alloc, &paths, at, reading.clock);
    let dialplan = plan_in(alloc, named, reading.assumed, read)?;
    Ok(dialplan)
}

/// Reads the dialplan that a line of the head names, with the files that it includes.
fn read_plan<F: ReadFiles>(
    files: &F,
    alloc: Global,
    named: NamedFile<'_>,
    reading: PlanReading,
) -> Result<ReadDialplan, NoMemory>
    ensures { IfOk result (λ read. spec.IsPlanRead (F.source_at files.now) reading named.entry.path.now (spec.named_now named.entry.named) (read_now read)) }
{
    let path = named.file_path(alloc)?;
    match text_path(path.bytes()) {
        Some(at) => read_plan_at(files, alloc, named, reading, at),
        None => unread_plan(alloc, named, Code::ReadFailed),
    }
}

/// The line about why queues were not read, in their place.
fn unread_queues(alloc: Global, named: NamedFile<'_>, code: Code) -> Result<ReadQueues, NoMemory>
    ensures { IfOk result (λ read. queue_texts.queues_now read ≡ unread (spec.unread_line named.entry.path.now (spec.named_now named.entry.named) code)) }
{
    let line = named.unread_line(alloc, code)?;
    Ok(ReadQueues::Unread(line))
}

/// The queues that were read, or the lines about what is wrong with them.
fn queues_in(
    alloc: Global,
    named: NamedFile<'_>,
    read: Result<QueueFiles, ReadingFault>,
) -> Result<ReadQueues, NoMemory>
    ensures { IfOk result (λ read_queues. (queues : Result QueueFilesOf Reading) → Answers queues_now first_fault read queues
        → queue_texts.queues_now read_queues ≡ spec.queues_or_lines named.entry.path.now (spec.named_now named.entry.named) queues) }
{
    match read {
        Ok(queues) => queues_or_notices(alloc, &queues),
        Err(ReadingFault::NotFound) => unread_queues(alloc, named, Code::ReadFailed),
        Err(ReadingFault::TooLong) => unread_queues(alloc, named, Code::TooLong),
        Err(ReadingFault::NoMemory) => Err(NoMemory),
    }
}

/// Reads the queues at a path.
fn read_queues_at<F: ReadFiles>(
    files: &F,
    alloc: Global,
    named: NamedFile<'_>,
    at: &str,
) -> Result<ReadQueues, NoMemory>
    ensures { IfOk result (λ read. spec.QueuesComeFrom (F.source_at files.now) named.entry.path.now (spec.named_now named.entry.named) at.now
        (queue_texts.queues_now read)) }
{
    let paths = SystemPaths { files };
    let read = read_folder_queues(alloc, &paths, at);
    let queues = queues_in(alloc, named, read)?;
    Ok(queues)
}

/// Reads the queues that a line of the head names.
fn read_named_queues<F: ReadFiles>(
    files: &F,
    alloc: Global,
    named: NamedFile<'_>,
) -> Result<ReadQueues, NoMemory>
    ensures { IfOk result (λ read. spec.AreQueuesAt (F.source_at files.now) named.entry.path.now (spec.named_now named.entry.named) (queue_texts.queues_now read)) }
{
    let path = named.file_path(alloc)?;
    match text_path(path.bytes()) {
        Some(at) => read_queues_at(files, alloc, named, at),
        None => unread_queues(alloc, named, Code::ReadFailed),
    }
}

/// Reads the queues that the head of a test file names, if it names some.
fn read_queues<F: ReadFiles>(
    files: &F,
    alloc: Global,
    path: &str,
    file: &TestFile,
) -> Result<ReadQueues, NoMemory>
    ensures { IfOk result (λ read. spec.AreQueuesRead (F.source_at files.now) path.now file.now.queues (queue_texts.queues_now read)) }
{
    match &file.queues {
        None => Ok(ReadQueues::Given(None)),
        Some(head) => {
            let named = named_in(head);
            let queues = read_named_queues(files, alloc, NamedFile { path, named })?;
            Ok(queues)
        }
    }
}

/// Adds the file that a line names, if it is a `reload` line.
fn push_reload<'a>(named: &mut Vec<FileMention<'a>>, line: &'a TestLine) -> Result<(), NoMemory>
    ensures { OnOk result (map spec.named_now named.new.items ≡ map spec.named_now named.old.items ++ spec.reload_in line.now) }
{
    match &line.act {
        Act::Reload(name) => {
            named.push(FileMention {
                line: line.line,
                name: name.bytes(),
            })?;
            Ok(())
        }
        Act::Turns(_) | Act::Expect(_) => Ok(()),
    }
}

/// Adds the files that the `reload` lines among some lines name.
fn push_reloads<'a>(named: &mut Vec<FileMention<'a>>, lines: &'a [TestLine]) -> Result<(), NoMemory>
    ensures { OnOk result (map spec.named_now named.new.items ≡ map spec.named_now named.old.items ++ flat_map spec.reload_in lines.now) }
{
    for line in lines {
        push_reload(named, line)?;
    }
    Ok(())
}

/// Adds the files that the `reload` lines of tests name.
fn push_reloads_of<'a>(named: &mut Vec<FileMention<'a>>, tests: &'a [Test]) -> Result<(), NoMemory>
    ensures { OnOk result (map spec.named_now named.new.items ≡ map spec.named_now named.old.items ++ flat_map spec.reloads_in tests.now) }
{
    for test in tests {
        push_reloads(named, test.lines.as_slice())?;
    }
    Ok(())
}

/// The files that the `reload` lines of a test file name.
fn reloads_of(alloc: Global, file: &TestFile) -> Result<Vec<FileMention<'_>>, NoMemory>
    ensures { IfOk result (λ named. map spec.named_now named.items ≡ spec.reloads_of file.now) }
{
    let mut named = Vec::new(alloc);
    push_reloads(&mut named, file.setup.as_slice())?;
    push_reloads_of(&mut named, file.tests.as_slice())?;
    Ok(named)
}

/// The texts of the dialplans that `reload` lines name, and the lines about what is wrong with those that were not read.
#[derive(Drop)]
struct Reloads {
    texts: RunItems<NamedFileText>,
    lines: Vec<u8>,
}

/// Adds a dialplan that was read.
fn push_plan(
    alloc: Global,
    reloads: &mut Reloads,
    name: &[u8],
    plan: PlanText,
) -> Result<(), NoMemory>
    ensures { OnOk result (spec.reloads_now reloads.new ≡ spec.with_plan name.now (spec.reloads_now reloads.old) (text_now plan)) }
{
    let PlanText {
        text,
        names: _,
        lines: _,
    } = plan;
    let text = SharedText::new(alloc, Text::new(text))?;
    let name = Text::copy_of(alloc, name)?;
    reloads.texts.push(NamedFileText { name, text })
}

/// Adds a dialplan that was read, or the lines about what is wrong with it.
fn push_read(
    alloc: Global,
    reloads: &mut Reloads,
    named: FileMention<'_>,
    read: ReadDialplan,
) -> Result<(), NoMemory>
    ensures { OnOk result (spec.reloads_now reloads.new ≡ spec.with_reload (spec.named_now named.entry) (spec.reloads_now reloads.old) (read_now read)) }
{
    match read {
        ReadDialplan::Loads(plan) => push_plan(alloc, reloads, named.name, plan),
        ReadDialplan::Faulty(lines) => reloads.lines.extend_from_slice(&lines),
    }
}

/// Reads the dialplans that lines name, one after another.
fn read_reloads<F: ReadFiles>(
    files: &F,
    alloc: Global,
    path: &str,
    reading: PlanReading,
    lines: &[FileMention<'_>],
) -> Result<Reloads, NoMemory>
    ensures { IfOk result (λ reloads. spec.AreReloads (F.source_at files.now) reading path.now (map spec.named_now lines.now) spec.no_reloads
        (spec.reloads_now reloads)) }
{
    let mut reloads = Reloads {
        texts: RunItems::none(alloc),
        lines: Vec::new(alloc),
    };
    for named in lines {
        let file = NamedFile {
            path,
            named: *named,
        };
        let read = read_plan(files, alloc, file, reading)?;
        push_read(alloc, &mut reloads, *named, read)?;
    }
    Ok(reloads)
}

/// The texts that the tests of a file run on.
#[derive(Drop)]
pub(crate) struct TestInputs {
    pub(crate) plan: PlanText,
    pub(crate) queues: Option<Vec<u8>>,
    pub(crate) reloaded: RunItems<NamedFileText>,
}

/// The texts that the tests of a file run on, or the lines about everything that is wrong with them.
#[derive(Drop)]
pub(crate) enum ReadInputs {
    Ready(TestInputs),
    Lacking(Vec<u8>),
}

/// Adds the lines about what is wrong with a dialplan.
fn push_plan_lines(out: &mut Vec<u8>, plan: &ReadDialplan) -> Result<(), NoMemory>
    ensures { OnOk result (out.new.items ≡ out.old.items ++ spec.plan_lines (read_now plan.now)) }
{
    match plan {
        ReadDialplan::Loads(_) => Ok(()),
        ReadDialplan::Faulty(lines) => out.extend_from_slice(lines),
    }
}

/// Adds the lines about what is wrong with queues.
fn push_queues_lines(out: &mut Vec<u8>, queues: &ReadQueues) -> Result<(), NoMemory>
    ensures { OnOk result (out.new.items ≡ out.old.items ++ spec.queues_lines (queue_texts.queues_now queues.now)) }
{
    match queues {
        ReadQueues::Given(_) => Ok(()),
        ReadQueues::Unread(line) => out.extend_from_slice(line),
    }
}

/// The lines about everything that is wrong.
fn wrong_lines(
    alloc: Global,
    plan: &ReadDialplan,
    queues: &ReadQueues,
    reloads: &Reloads,
) -> Result<Vec<u8>, NoMemory>
    ensures { IfOk result (λ lines. lines.items
        ≡ spec.wrong_lines (read_now plan.now) (queue_texts.queues_now queues.now) (spec.reloads_now reloads.now)) }
{
    let mut lines = Vec::new(alloc);
    push_plan_lines(&mut lines, plan)?;
    push_queues_lines(&mut lines, queues)?;
    lines.extend_from_slice(&reloads.lines)?;
    Ok(lines)
}

/// The texts, given what was read and the lines about what is wrong with it.
fn inputs_by(lines: Vec<u8>, plan: ReadDialplan, queues: ReadQueues, reloads: Reloads) -> ReadInputs
    ensures { spec.inputs_now result ≡ spec.inputs_by lines.items (read_now plan) (queue_texts.queues_now queues) (spec.reloads_now reloads) }
{
    let Reloads {
        texts: reloaded,
        lines: _,
    } = reloads;
    if !lines.is_empty() {
        return ReadInputs::Lacking(lines);
    }
    match (plan, queues) {
        (ReadDialplan::Loads(plan), ReadQueues::Given(queues)) => ReadInputs::Ready(TestInputs {
            plan,
            queues,
            reloaded,
        }),
        _ => ReadInputs::Lacking(lines),
    }
}

/// The moment of the `clock` line of a test file, by which includes with times are read.
fn clock_of(file: &TestFile) -> Option<Moment>
    ensures { result ≡ spec.clock_of file.now.clock }
{
    match &file.clock {
        Some(head) => read_moment(head.text.bytes()),
        None => None,
    }
}

/// How the dialplans of a test file are read.
fn reading_of(alloc: Global, file: &TestFile) -> Result<PlanReading, NoMemory>
    ensures { IfOk result (λ reading. reading ≡ spec.reading_of file.now) }
{
    let assumed = test_assumptions(alloc, file)?;
    Ok(PlanReading {
        clock: clock_of(file),
        assumed,
    })
}

/// Reads the dialplan that the head of a test file names.
fn read_first_plan<F: ReadFiles>(
    files: &F,
    alloc: Global,
    path: &str,
    file: &TestFile,
) -> Result<ReadDialplan, NoMemory>
    ensures { IfOk result (λ read. spec.IsPlanRead (F.source_at files.now) (spec.reading_of file.now) path.now (spec.named_in file.now.dialplan)
        (read_now read)) }
{
    let reading = reading_of(alloc, file)?;
    let named = named_in(&file.dialplan);
    let read = read_plan(files, alloc, NamedFile { path, named }, reading)?;
    Ok(read)
}

/// Reads the dialplans that the `reload` lines of a test file name.
fn read_all_reloads<F: ReadFiles>(
    files: &F,
    alloc: Global,
    path: &str,
    file: &TestFile,
) -> Result<Reloads, NoMemory>
    ensures { IfOk result (λ reloads. spec.AreReloads (F.source_at files.now) (spec.reading_of file.now) path.now (spec.reloads_of file.now)
        spec.no_reloads (spec.reloads_now reloads)) }
{
    let reading = reading_of(alloc, file)?;
    let named = reloads_of(alloc, file)?;
    let reloads = read_reloads(files, alloc, path, reading, &named)?;
    Ok(reloads)
}

/// Reads the files that a test file names, given its path.
pub(crate) fn read_inputs<F: ReadFiles>(
    files: &F,
    alloc: Global,
    path: &str,
    file: &TestFile,
) -> Result<ReadInputs, NoMemory>
    ensures { IfOk result (λ read. spec.AreInputs (F.source_at files.now) path.now file.now (spec.inputs_now read)) }
{
    let plan = read_first_plan(files, alloc, path, file)?;
    let queues = read_queues(files, alloc, path, file)?;
    let reloads = read_all_reloads(files, alloc, path, file)?;
    let lines = wrong_lines(alloc, &plan, &queues, &reloads)?;
    Ok(inputs_by(lines, plan, queues, reloads))
}
