//! The requests that check a dialplan, a queue file, or both.
ghost use Rattle.std.specs.Prelude.{◌≡◌, ◌||◌, List, ℕ, Result, IfOk, false};
ghost use Rattle.dp_conf.specs.Answers.{Answers, Refuses};
ghost use Rattle.dp_commands.specs.Faults.{is_write_failed, is_write_fault, reason_of};
ghost use Rattle.dp_commands.specs.Report.{Reports};
ghost use Rattle.dp_commands.specs.declared.fault.PbxFault.{PbxFault};
ghost use Rattle.dp_program.specs.Checks as spec;
ghost use Rattle.dp_program.specs.Faulted.{without_place};
ghost use Rattle.dp_program.specs.Serves.{ChecksBoth, ReportsOn};

use crate::fault_places::{Faulted, placed_in_two, with_place};
use crate::files::ReadFiles;
use crate::json_checks::check_json;
use crate::options::Options;
use crate::request::CheckFiles;
use crate::texts::{TextWithPath, read_text};
use dp_commands::{PbxFault, check, check_explained};
use dp_conf::WriteTold;
use dp_json::push_queue_count;
use dp_plan::{Dialplan, NoMemory};
use dp_queue::Queues;
use itoa::Buffer;
use std::alloc::Global;

/// Reports on a dialplan, given the path and the text of its file: as JSON, or with its notes explained, if that is asked for.
fn check_by<W: WriteTold>(
    alloc: Global,
    path: &str,
    plan: &[u8],
    options: Options<'_>,
    output: &mut W,
) -> Result<u8, PbxFault>
    ensures reports { Reports (W.contents output.old) (W.contents output.new)
        (spec.check_by options.entry.is_json options.entry.explains path.now plan.now) result }
    ensures told { W.has_failed output.new ≡ (W.has_failed output.old || is_write_failed result) }
{
    if options.is_json {
        return check_json(alloc, plan, output);
    }
    if options.explains {
        check_explained(alloc, path, plan, output)
    } else {
        check(alloc, plan, output)
    }
}

/// Reports on the dialplan of a file.
pub(crate) fn serve_check<'a, F: ReadFiles, W: WriteTold>(
    files: &F,
    alloc: Global,
    file: &'a str,
    options: Options<'_>,
    output: &mut W,
) -> Result<u8, Faulted<'a>>
    ensures serves { ReportsOn file.now (F.source_at files.now file.now)
        (spec.check_by options.entry.is_json options.entry.explains file.now)
        (W.contents output.old) (W.contents output.new) result }
    ensures told { W.has_failed output.new ≡ (W.has_failed output.old || is_write_failed (without_place result)) }
{
    let plan = read_text(files, alloc, file)?;
    with_place(file, &plan, check_by(alloc, file, &plan, options, output))
}

/// The line for a number of queues that were loaded.
fn queues_line(alloc: Global, is_json: bool, count: usize) -> Result<Vec<u8>, NoMemory>
    ensures { IfOk result (λ line. line.items ≡ spec.queues_line is_json count) }
{
    let mut line = Vec::new(alloc);
    if is_json {
        push_queue_count(&mut line, count)?;
        return Ok(line);
    }
    let mut buffer = Buffer::new();
    line.extend_from_slice(b"ok ")?;
    line.extend_from_slice(buffer.format(count).as_bytes())?;
    line.extend_from_slice(b" queues\n")?;
    Ok(line)
}

/// The report on the text of a queue file, or the text's fault.
#[tactic(auto, unfolding(crate::specs::Checks::queues_report))]
fn queues_report(alloc: Global, is_json: bool, text: &[u8]) -> Result<Vec<u8>, PbxFault>
    ensures line { Answers (λ line. line.items) reason_of result (spec.queues_report is_json text.now) }
    ensures quiet { is_write_failed result ≡ false }
{
    let queues = Queues::load(alloc, text)?;
    let line = queues_line(alloc, is_json, queues.queues().len())?;
    Ok(line)
}

/// Reports on the text of a queue file.
fn check_queues<W: WriteTold>(
    alloc: Global,
    queues: &[u8],
    is_json: bool,
    output: &mut W,
) -> Result<u8, PbxFault>
    ensures reports { Reports (W.contents output.old) (W.contents output.new) (spec.queues_report is_json queues.now) result }
    ensures told { W.has_failed output.new ≡ (W.has_failed output.old || is_write_failed result) }
{
    let line = queues_report(alloc, is_json, queues)?;
    output.write_told(&line)?;
    Ok(0)
}

/// Reports on the queues of a file.
pub(crate) fn serve_check_queues<'a, F: ReadFiles, W: WriteTold>(
    files: &F,
    alloc: Global,
    file: &'a str,
    is_json: bool,
    output: &mut W,
) -> Result<u8, Faulted<'a>>
    ensures serves { ReportsOn file.now (F.source_at files.now file.now) (spec.queues_report is_json)
        (W.contents output.old) (W.contents output.new) result }
    ensures told { W.has_failed output.new ≡ (W.has_failed output.old || is_write_failed (without_place result)) }
{
    let queues = read_text(files, alloc, file)?;
    with_place(file, &queues, check_queues(alloc, &queues, is_json, output))
}

/// Reports on a dialplan, then writes a line.
#[tactic(auto, using(crate::proofs::ChecksLemmas::line_refused, crate::proofs::ChecksLemmas::line_written, crate::proofs::ChecksLemmas::line_failed))]
fn check_before<W: WriteTold>(
    alloc: Global,
    plan: &TextWithPath<'_>,
    options: Options<'_>,
    line: &[u8],
    output: &mut W,
) -> Result<u8, PbxFault>
    ensures reports { Reports (W.contents output.old) (W.contents output.new)
        (spec.with_line line.now (spec.check_by options.entry.is_json options.entry.explains plan.now.path.now plan.now.text.items)) result }
    ensures told { W.has_failed output.new ≡ (W.has_failed output.old || is_write_failed result) }
{
    check_by(alloc, plan.path, &plan.text, options, output)?;
    output.write_told(line)?;
    Ok(0)
}

/// The fault of a dialplan's text, or the later fault if the text has no fault.
fn first_fault(alloc: Global, plan: &[u8], later: PbxFault) -> PbxFault
    ensures first { (given : Result (List ℕ) PbxFault) → Refuses (reason_of later) given
        → Refuses (reason_of result) (spec.after_plan plan.now given) }
    ensures quiet { is_write_fault later ≡ false → is_write_fault result ≡ false }
{
    match Dialplan::load(alloc, plan) {
        Ok(_) => later,
        Err(fault) => PbxFault::from(fault),
    }
}

/// Reports on the texts of a dialplan and of queues. If one of them has a fault nothing is written.
#[tactic(auto, using(crate::proofs::ChecksLemmas::both_refused, crate::proofs::ChecksLemmas::both_written))]
fn check_both<W: WriteTold>(
    alloc: Global,
    plan: &TextWithPath<'_>,
    queues: &TextWithPath<'_>,
    options: Options<'_>,
    output: &mut W,
) -> Result<u8, PbxFault>
    ensures reports { Reports (W.contents output.old) (W.contents output.new)
        (spec.both_report options.entry.is_json options.entry.explains plan.now.path.now plan.now.text.items queues.now.text.items) result }
    ensures told { W.has_failed output.new ≡ (W.has_failed output.old || is_write_failed result) }
{
    match queues_report(alloc, options.is_json, &queues.text) {
        Ok(line) => check_before(alloc, plan, options, &line, output),
        Err(fault) => Err(first_fault(alloc, &plan.text, fault)),
    }
}

/// Reports on the dialplan in one file and the queues in another.
pub(crate) fn serve_check_both<'a, F: ReadFiles, W: WriteTold>(
    files: &F,
    alloc: Global,
    paths: &CheckFiles<'a>,
    options: Options<'_>,
    output: &mut W,
) -> Result<u8, Faulted<'a>>
    ensures serves { ChecksBoth (F.source_at files.now) paths.now.plan.now paths.now.queues.now options.entry.is_json options.entry.explains
        (W.contents output.old) (W.contents output.new) result }
    ensures told { W.has_failed output.new ≡ (W.has_failed output.old || is_write_failed (without_place result)) }
{
    let plan = read_text(files, alloc, paths.plan)?;
    let queues = read_text(files, alloc, paths.queues)?;
    let plan = TextWithPath {
        path: paths.plan,
        text: plan,
    };
    let queues = TextWithPath {
        path: paths.queues,
        text: queues,
    };
    let answered = check_both(alloc, &plan, &queues, options, output);
    placed_in_two(&plan, &queues, answered)
}
