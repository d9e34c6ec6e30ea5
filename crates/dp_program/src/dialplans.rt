//! Dialplans that are read with the files that they include.
ghost use Rattle.std.specs.Prelude.{◌≡◌, ◌++◌, ◌∷◌, [], IfOk, IfErr, OnOk, Result, map, true};
ghost use Rattle.std.specs.Option.{option_map};
ghost use Rattle.dp_conf.specs.Answers.{Answers};
ghost use Rattle.dp_commands.specs.LinePlaces.{places_of};
ghost use Rattle.dp_files.specs.FolderFiles.{ReadsFolder};
ghost use Rattle.dp_files.specs.Reading.{first_fault};
ghost use Rattle.dp_files.specs.declared.reading.ReadingFault.{ReadingFault as Reading};
ghost use Rattle.dp_notices.specs.PlanFiles.{PlanFilesOf, plan_now, plan_of};
ghost use Rattle.dp_notices.specs.Printing.{file_name};
ghost use Rattle.dp_program.specs.Dialplans as spec;
ghost use Rattle.dp_program.specs.Faulted.{unread_reason};
ghost use Rattle.dp_program.specs.Files.{is_read_fault};
ghost use Rattle.dp_program.specs.Including.{MayTellOf};

use crate::fault_places::Unread;
use crate::files::ReadFiles;
use crate::hints::ServedRequest;
use crate::including::reading_fault;
use crate::made_files::MadeFiles;
use crate::system_paths::SystemPaths;
use dp_commands::{LinePlaces, LinePosition, PbxFault, SourceLines};
use dp_files::{MadeLine, ReadingFault, SourceFile, path_of};
use dp_notices::{Assumptions, NotedLine, PlanFiles, Shown, print_notices, read_folder_plan};
use dp_plan::{NoMemory, Text};
use dp_wide::{Moment, read_moment};
use std::alloc::Global;

/// A dialplan's text, and where its lines come from.
#[derive(Drop)]
pub(crate) struct PlanText {
    /// The text.
    pub(crate) text: Vec<u8>,
    /// The paths of the files that were read.
    pub(crate) names: Vec<Text>,
    /// For each line of the text, the line of a file from which it is made.
    pub(crate) lines: Vec<LinePosition>,
}

impl PlanText {
    ghost use Rattle.std.specs.Prelude.{◌≡◌};
    ghost use Rattle.dp_commands.specs.LinePlaces.{places_of};
    ghost use Rattle.dp_program.specs.Dialplans as spec;

    /// Files of which the one at a path has this text.
    pub(crate) fn made_files<'a, F: ReadFiles>(
        &'a self,
        files: &'a F,
        path: &'a str,
    ) -> MadeFiles<'a, F>
        ensures { spec.with_text (F.source_at result.files.now) result.path.now result.text.now
            ≡ spec.with_text (F.source_at files.now) path.now (spec.text_now self.now).text }
    {
        MadeFiles {
            files,
            path,
            text: &self.text,
        }
    }

    /// Where its lines come from.
    pub(crate) fn places(&self) -> LinePlaces<'_>
        ensures { places_of result ≡ spec.places_in (spec.text_now self.now) }
    {
        LinePlaces::InFiles(SourceLines {
            files: &self.names,
            lines: &self.lines,
        })
    }
}

/// What a command reads a dialplan for.
#[derive(Clone, Copy)]
pub(crate) enum PlanUse {
    /// To report on it.
    Report,
    /// To look up an entry in it, given what is assumed of lines that are left out.
    LookUp(Assumptions),
    /// To run it, given the same.
    Run(Assumptions),
}

/// The notices for which a command does nothing, given what it reads a dialplan for.
fn shown_for(purpose: PlanUse) -> Shown
    ensures { result ≡ spec.shown_for purpose }
{
    match purpose {
        PlanUse::Report => Shown::Faults,
        PlanUse::LookUp(assumed) | PlanUse::Run(assumed) => Shown::Unfollowed(assumed),
    }
}

/// The moment that the word of `--clock` writes, if there is one.
pub(crate) fn moment_in(clock: Option<&str>) -> Option<Moment>
    ensures { result ≡ spec.moment_in (option_map (λ word. word.now) clock.entry) }
{
    let word = clock?;
    read_moment(word.as_bytes())
}

/// The result of reading a dialplan for a command.
#[derive(Drop)]
pub(crate) enum ReadDialplan {
    /// The text that the command uses.
    Loads(PlanText),
    /// The lines of the notices for which the command does nothing.
    Faulty(Vec<u8>),
}

/// The position of a line of a file.
fn position_of(noted: &NotedLine) -> LinePosition
    ensures { result ≡ spec.position_of noted.now }
{
    LinePosition {
        file: noted.line.file,
        line: noted.line.line,
    }
}

/// The position of the line from which a line is made.
fn source_position(lines: &[NotedLine], made: &MadeLine) -> LinePosition
    ensures { result ≡ spec.source_position lines.now made.now }
{
    match lines.get(made.source) {
        Some(noted) => position_of(noted),
        None => LinePosition { file: 0, line: 0 },
    }
}

/// Adds the positions of the lines from which lines are made.
fn push_positions(
    positions: &mut Vec<LinePosition>,
    lines: &[NotedLine],
    made: &[MadeLine],
) -> Result<(), NoMemory>
    ensures { OnOk result (positions.new.items ≡ positions.old.items ++ map (spec.source_position lines.now) made.now) }
{
    for line in made {
        positions.push(source_position(lines, line))?;
    }
    Ok(())
}

/// The name of the first file.
fn first_name(files: &[SourceFile]) -> &[u8]
    ensures { result.now ≡ file_name files.now 0 }
{
    match files.get(0) {
        Some(file) => file.name.bytes(),
        None => b"",
    }
}

/// Adds the paths of files, given the name of the first one.
fn push_paths(
    alloc: Global,
    paths: &mut Vec<Text>,
    first: &[u8],
    files: &[SourceFile],
) -> Result<(), NoMemory>
    ensures { OnOk result (paths.new.items ≡ paths.old.items ++ map (spec.path_in first.now) files.now) }
{
    for file in files {
        let path = path_of(alloc, first, file.name.bytes())?;
        paths.push(path)?;
    }
    Ok(())
}

/// Adds a line.
fn push_line(text: &mut Vec<u8>, line: &[u8]) -> Result<(), NoMemory>
    ensures { OnOk result (text.new.items ≡ text.old.items ++ (line.now ++ 10 ∷ [])) }
{
    text.extend_from_slice(line)?;
    text.push(b'\n')?;
    Ok(())
}

/// Adds the lines that set the global `CLOCK` to a word.
fn push_clock_text(text: &mut Vec<u8>, word: &[u8]) -> Result<(), NoMemory>
    ensures { OnOk result (text.new.items ≡ text.old.items ++ spec.clock_text word.now) }
{
    text.extend_from_slice(b"[globals]\nCLOCK=")?;
    push_line(text, word)
}

/// Adds these lines, if the word writes a moment.
fn push_clock(text: &mut Vec<u8>, word: &str) -> Result<(), NoMemory>
    ensures { OnOk result (text.new.items ≡ text.old.items ++ spec.clock_lines word.now) }
{
    match read_moment(word.as_bytes()) {
        Some(_) => push_clock_text(text, word.as_bytes()),
        None => Ok(()),
    }
}

/// Adds the lines that a command adds to a dialplan's text, given what it reads the dialplan for and the word of `--clock`.
fn push_lines(text: &mut Vec<u8>, purpose: PlanUse, clock: Option<&str>) -> Result<(), NoMemory>
    ensures { OnOk result (text.new.items ≡ text.old.items ++ spec.lines_added purpose (option_map (λ word. word.now) clock.entry)) }
{
    match (purpose, clock) {
        (PlanUse::Run(_), Some(word)) => push_clock(text, word),
        (PlanUse::Run(_), None) | (PlanUse::Report, _) | (PlanUse::LookUp(_), _) => Ok(()),
    }
}

/// The text of a dialplan that was read from files, and where its lines come from.
fn plan_text(
    alloc: Global,
    purpose: PlanUse,
    clock: Option<&str>,
    plan: &PlanFiles,
) -> Result<PlanText, NoMemory>
    ensures { IfOk result (λ text. spec.text_now text
        ≡ spec.plan_text purpose (option_map (λ word. word.now) clock.entry) (plan_now plan.now)) }
{
    let mut text = plan.text(alloc)?;
    push_lines(&mut text, purpose, clock)?;
    let mut names = Vec::with_capacity(alloc, plan.files.len())?;
    push_paths(alloc, &mut names, first_name(&plan.files), &plan.files)?;
    let mut lines = Vec::with_capacity(alloc, plan.made.len())?;
    push_positions(&mut lines, &plan.lines, &plan.made)?;
    Ok(PlanText { text, names, lines })
}

/// The result for a command of a dialplan that was read, given what the command reads it for and the word of `--clock`.
pub(crate) fn dialplan_of(
    alloc: Global,
    purpose: PlanUse,
    clock: Option<&str>,
    plan: &PlanFiles,
) -> Result<ReadDialplan, NoMemory>
    ensures { IfOk result (λ read. spec.read_now read
        ≡ spec.dialplan_of purpose (option_map (λ word. word.now) clock.entry) (plan_now plan.now)) }
{
    let told = print_notices(alloc, shown_for(purpose), plan)?;
    if !told.is_empty() {
        return Ok(ReadDialplan::Faulty(told));
    }
    let text = plan_text(alloc, purpose, clock, plan)?;
    Ok(ReadDialplan::Loads(text))
}

/// The same, given the result of reading the dialplan at a path.
fn dialplan_in<'a>(
    alloc: Global,
    path: &'a str,
    purpose: PlanUse,
    clock: Option<&str>,
    read: Result<PlanFiles, ReadingFault>,
) -> Result<ReadDialplan, Unread<'a>>
    ensures read { (plan : Result PlanFilesOf Reading) → Answers plan_now first_fault read plan
        → Answers spec.read_now unread_reason result (spec.dialplan_read purpose (option_map (λ word. word.now) clock.entry) plan) }
    ensures path { IfErr result (λ unread. unread.path.now ≡ path.now) }
    ensures fault { IfErr result (λ unread. is_read_fault unread.fault ≡ true) }
{
    let plan = match read {
        Ok(plan) => plan,
        Err(fault) => {
            return Err(Unread {
                path,
                fault: reading_fault(fault),
            });
        }
    };
    match dialplan_of(alloc, purpose, clock, &plan) {
        Ok(dialplan) => Ok(dialplan),
        Err(refused) => Err(Unread {
            path,
            fault: PbxFault::from(refused),
        }),
    }
}

/// Reads the dialplan at a path with the files that it includes, given what the command reads it for and the word of `--clock`.
pub(crate) fn read_dialplan<'a, F: ReadFiles>(
    files: &F,
    alloc: Global,
    path: &'a str,
    purpose: PlanUse,
    clock: Option<&str>,
) -> Result<ReadDialplan, Unread<'a>>
    ensures read { ReadsFolder (MayTellOf (F.source_at files.now) path.now)
        (λ has. Answers spec.read_now unread_reason result (spec.dialplan_read purpose (option_map (λ word. word.now) clock.entry)
        (plan_of (spec.moment_in (option_map (λ word. word.now) clock.entry)) has path.now))) }
    ensures path { IfErr result (λ unread. unread.path.now ≡ path.now) }
    ensures fault { IfErr result (λ unread. is_read_fault unread.fault ≡ true) }
{
    let paths = SystemPaths { files };
    let read = read_folder_plan(alloc, &paths, path, moment_in(clock));
    dialplan_in(alloc, path, purpose, clock, read)
}

/// The result of a command that does nothing because of these notices: they are printed beside it, and the status is 1.
pub(crate) fn faulty(told: Vec<u8>) -> ServedRequest
    ensures status { result.status ≡ 1 }
    ensures hint { result.hint.items ≡ told.items }
{
    ServedRequest {
        status: 1,
        hint: told,
    }
}
