//! The requests that check a dialplan, queues or both with the files that they include.
ghost use Rattle.std.specs.Prelude.{◌≡◌, ◌||◌, IfOk, Ok, Result};
ghost use Rattle.dp_conf.specs.Answers.{Answers};
ghost use Rattle.dp_commands.specs.Faults.{is_write_failed};
ghost use Rattle.dp_files.specs.Reading.{first_fault};
ghost use Rattle.dp_files.specs.declared.reading.ReadingFault.{ReadingFault as Reading};
ghost use Rattle.dp_notices.specs.Checks.{faults_of, faults_of_both, faults_of_queues};
ghost use Rattle.dp_notices.specs.PlanFiles.{PlanFilesOf, plan_now};
ghost use Rattle.dp_notices.specs.QueueFiles.{QueueFilesOf, queues_now};
ghost use Rattle.dp_program.specs.Dialplans.{moment_in};
ghost use Rattle.dp_program.specs.Faulted.{StandsIn, place_of, unread_place, without_place};
ghost use Rattle.dp_program.specs.Including as spec;
ghost use Rattle.dp_program.specs.Requests.{options_of};

use crate::dialplans::moment_in;
use crate::fault_places::{Faulted, Unread, placed_nowhere};
use crate::files::ReadFiles;
use crate::json_checks::{both_report, plan_report, queues_report};
use crate::options::Options;
use crate::request::CheckFiles;
use crate::system_paths::SystemPaths;
use dp_commands::{Code, PbxFault};
use dp_conf::WriteTold;
use dp_files::ReadingFault;
use dp_notices::{
    CheckReport, PlanFiles, QueueFiles, check_plan, check_plan_and_queues, check_queues,
    read_folder_plan, read_folder_queues,
};
use dp_plan::NoMemory;
use std::alloc::Global;

/// Why nothing was read, as a fault of the program.
pub(crate) fn reading_fault(fault: ReadingFault) -> PbxFault
    ensures { result ≡ spec.reading_fault fault }
{
    match fault {
        ReadingFault::NotFound => PbxFault::Coded {
            code: Code::ReadFailed,
            line: None,
        },
        ReadingFault::TooLong => PbxFault::Coded {
            code: Code::TooLong,
            line: None,
        },
        ReadingFault::NoMemory => PbxFault::NoMemory,
    }
}

/// The fault of a file that was not read, with its place.
fn unread_file<'a>(path: &'a str, fault: ReadingFault) -> Faulted<'a>
    ensures fault { result.fault ≡ spec.reading_fault fault }
    ensures place { place_of result.place ≡ unread_place path.now (spec.reading_fault fault) }
{
    Faulted::from(Unread {
        path,
        fault: reading_fault(fault),
    })
}

/// The report on a dialplan that was read, as text or as JSON.
fn plan_report_by(alloc: Global, is_json: bool, plan: &PlanFiles) -> Result<CheckReport, NoMemory>
    ensures text { IfOk result (λ report. report.text.items ≡ spec.plan_text is_json (plan_now plan.now)) }
    ensures faults { IfOk result (λ report. report.faults ≡ faults_of (plan_now plan.now)) }
{
    if is_json {
        plan_report(alloc, plan)
    } else {
        check_plan(alloc, plan)
    }
}

/// Reports on a dialplan that was read: its notices, and then its counts or the number of its faults. The status is 1 if it has any.
fn report_plan<W: WriteTold>(
    alloc: Global,
    is_json: bool,
    plan: &PlanFiles,
    output: &mut W,
) -> Result<u8, PbxFault>
    ensures writes { spec.WritesCheck (W.contents output.old) (W.contents output.new) (Ok (spec.check_of is_json (plan_now plan.now))) result }
    ensures told { W.has_failed output.new ≡ (W.has_failed output.old || is_write_failed result) }
{
    let report = plan_report_by(alloc, is_json, plan)?;
    output.write_told(&report.text)?;
    Ok(if report.faults == 0 { 0 } else { 1 })
}

/// Reports on a dialplan that was read, or gives the reason why it was not.
fn check_read<'a, W: WriteTold>(
    alloc: Global,
    file: &'a str,
    read: Result<PlanFiles, ReadingFault>,
    is_json: bool,
    output: &mut W,
) -> Result<u8, Faulted<'a>>
    ensures writes { (plan : Result PlanFilesOf Reading) → Answers plan_now first_fault read plan
        → spec.WritesCheck (W.contents output.old) (W.contents output.new) (spec.check_or_fault is_json plan) (without_place result)
        × StandsIn (spec.place_of_plan file.now plan) result }
    ensures told { W.has_failed output.new ≡ (W.has_failed output.old || is_write_failed (without_place result)) }
{
    match read {
        Ok(plan) => placed_nowhere(report_plan(alloc, is_json, &plan, output)),
        Err(fault) => Err(unread_file(file, fault)),
    }
}

/// Reports on the dialplan of a file and of the files that it includes.
pub(crate) fn serve_check_including<'a, F: ReadFiles, W: WriteTold>(
    files: &F,
    alloc: Global,
    file: &'a str,
    options: Options<'_>,
    output: &mut W,
) -> Result<u8, Faulted<'a>>
    ensures serves { spec.ChecksIncluding (options_of options.entry).is_json (moment_in (options_of options.entry).clock) file.now
        (F.source_at files.now) (W.contents output.old) (W.contents output.new) result }
    ensures told { W.has_failed output.new ≡ (W.has_failed output.old || is_write_failed (without_place result)) }
{
    let paths = SystemPaths { files };
    let read = read_folder_plan(alloc, &paths, file, moment_in(options.clock));
    check_read(alloc, file, read, options.is_json, output)
}

/// The report on queues that were read, as text or as JSON.
fn queues_report_by(
    alloc: Global,
    is_json: bool,
    queues: &QueueFiles,
) -> Result<CheckReport, NoMemory>
    ensures text { IfOk result (λ report. report.text.items ≡ spec.queues_text is_json (queues_now queues.now)) }
    ensures faults { IfOk result (λ report. report.faults ≡ faults_of_queues (queues_now queues.now)) }
{
    if is_json {
        queues_report(alloc, queues)
    } else {
        check_queues(alloc, queues)
    }
}

/// Reports on queues that were read: their notices, and then their number or the number of their faults. The status is 1 if there are any.
fn report_queues<W: WriteTold>(
    alloc: Global,
    is_json: bool,
    queues: &QueueFiles,
    output: &mut W,
) -> Result<u8, PbxFault>
    ensures writes { spec.WritesCheck (W.contents output.old) (W.contents output.new) (Ok (spec.queues_check_of is_json (queues_now queues.now))) result }
    ensures told { W.has_failed output.new ≡ (W.has_failed output.old || is_write_failed result) }
{
    let report = queues_report_by(alloc, is_json, queues)?;
    output.write_told(&report.text)?;
    Ok(if report.faults == 0 { 0 } else { 1 })
}

/// Reports on queues that were read, or gives the reason why they were not.
fn check_queues_read<'a, W: WriteTold>(
    alloc: Global,
    file: &'a str,
    read: Result<QueueFiles, ReadingFault>,
    is_json: bool,
    output: &mut W,
) -> Result<u8, Faulted<'a>>
    ensures writes { (queues : Result QueueFilesOf Reading) → Answers queues_now first_fault read queues
        → spec.WritesCheck (W.contents output.old) (W.contents output.new) (spec.queues_checked is_json queues) (without_place result)
        × StandsIn (spec.place_of_queues file.now queues) result }
    ensures told { W.has_failed output.new ≡ (W.has_failed output.old || is_write_failed (without_place result)) }
{
    match read {
        Ok(queues) => placed_nowhere(report_queues(alloc, is_json, &queues, output)),
        Err(fault) => Err(unread_file(file, fault)),
    }
}

/// Reports on the queues of a file and of the files that it includes.
pub(crate) fn serve_check_queues_including<'a, F: ReadFiles, W: WriteTold>(
    files: &F,
    alloc: Global,
    file: &'a str,
    is_json: bool,
    output: &mut W,
) -> Result<u8, Faulted<'a>>
    ensures serves { spec.ChecksQueuesIncluding is_json file.now (F.source_at files.now) (W.contents output.old) (W.contents output.new) result }
    ensures told { W.has_failed output.new ≡ (W.has_failed output.old || is_write_failed (without_place result)) }
{
    let paths = SystemPaths { files };
    let read = read_folder_queues(alloc, &paths, file);
    check_queues_read(alloc, file, read, is_json, output)
}

/// The report on a dialplan and queues that were read, as text or as JSON.
fn both_report_by(
    alloc: Global,
    is_json: bool,
    plan: &PlanFiles,
    queues: &QueueFiles,
) -> Result<CheckReport, NoMemory>
    ensures text { IfOk result (λ report. report.text.items ≡ spec.both_text is_json (plan_now plan.now) (queues_now queues.now)) }
    ensures faults { IfOk result (λ report. report.faults ≡ faults_of_both (plan_now plan.now) (queues_now queues.now)) }
{
    if is_json {
        both_report(alloc, plan, queues)
    } else {
        check_plan_and_queues(alloc, plan, queues)
    }
}

/// Reports on a dialplan and queues that were read: their notices, and then their counts or the number of their faults. The status is 1 if
/// there are any.
fn report_both<W: WriteTold>(
    alloc: Global,
    is_json: bool,
    plan: &PlanFiles,
    queues: &QueueFiles,
    output: &mut W,
) -> Result<u8, PbxFault>
    ensures writes { spec.WritesCheck (W.contents output.old) (W.contents output.new)
        (Ok (spec.both_check_of is_json (plan_now plan.now) (queues_now queues.now))) result }
    ensures told { W.has_failed output.new ≡ (W.has_failed output.old || is_write_failed result) }
{
    let report = both_report_by(alloc, is_json, plan, queues)?;
    output.write_told(&report.text)?;
    Ok(if report.faults == 0 { 0 } else { 1 })
}

/// A dialplan and queues that were read, or why they were not.
#[derive(Drop)]
struct ReadBoth {
    plan: Result<PlanFiles, ReadingFault>,
    queues: Result<QueueFiles, ReadingFault>,
}

/// Reports on a dialplan and queues that were read, or gives the reason why one of them was not: that of the dialplan comes first.
fn check_both_read<'a, W: WriteTold>(
    alloc: Global,
    paths: &CheckFiles<'a>,
    read: ReadBoth,
    is_json: bool,
    output: &mut W,
) -> Result<u8, Faulted<'a>>
    ensures writes { (plan : Result PlanFilesOf Reading) (queues : Result QueueFilesOf Reading)
        → Answers plan_now first_fault read.plan plan → Answers queues_now first_fault read.queues queues
        → spec.WritesCheck (W.contents output.old) (W.contents output.new) (spec.both_checked is_json plan queues) (without_place result)
        × StandsIn (spec.place_of_both paths.now.plan.now paths.now.queues.now plan queues) result }
    ensures told { W.has_failed output.new ≡ (W.has_failed output.old || is_write_failed (without_place result)) }
{
    match (read.plan, read.queues) {
        (Ok(plan), Ok(queues)) => {
            placed_nowhere(report_both(alloc, is_json, &plan, &queues, output))
        }
        (Ok(_), Err(fault)) => Err(unread_file(paths.queues, fault)),
        (Err(fault), _) => Err(unread_file(paths.plan, fault)),
    }
}

/// Reports on the dialplan of a file and of the files that it includes, and on the queues of another file and of the files that it includes.
pub(crate) fn serve_check_both_including<'a, F: ReadFiles, W: WriteTold>(
    files: &F,
    alloc: Global,
    paths: &CheckFiles<'a>,
    options: Options<'_>,
    output: &mut W,
) -> Result<u8, Faulted<'a>>
    ensures serves { spec.ChecksBothIncluding (options_of options.entry).is_json (moment_in (options_of options.entry).clock)
        paths.now.plan.now paths.now.queues.now (F.source_at files.now) (W.contents output.old) (W.contents output.new) result }
    ensures told { W.has_failed output.new ≡ (W.has_failed output.old || is_write_failed (without_place result)) }
{
    let system = SystemPaths { files };
    let plan = read_folder_plan(alloc, &system, paths.plan, moment_in(options.clock));
    let queues = read_folder_queues(alloc, &system, paths.queues);
    let read = ReadBoth { plan, queues };
    check_both_read(alloc, paths, read, options.is_json, output)
}
