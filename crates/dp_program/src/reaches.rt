//! The request that asks what a phone call may run.
ghost use Rattle.std.specs.Prelude.{◌≡◌, ◌++◌, ◌||◌, [], IfOk, OnOk, map};
ghost use Rattle.std.specs.List.{flat_map};
ghost use Rattle.std.specs.Option.{option_map, option_map_or};
ghost use Rattle.dp_answer.specs.Asks.{ask_of as ask_texts, target_names};
ghost use Rattle.dp_app.specs.Rows.{with_functions};
ghost use Rattle.dp_commands.specs.Faults.{is_write_failed};
ghost use Rattle.dp_commands.specs.Run.{files_of};
ghost use Rattle.dp_conf.specs.Levels.{arguments_of};
ghost use Rattle.dp_program.specs.Faulted.{without_place};
ghost use Rattle.dp_program.specs.Reaches as spec;
ghost use Rattle.dp_program.specs.Reaches.{ReachesFiles};
ghost use Rattle.dp_program.specs.Meanings.{wide_meanings};
ghost use Rattle.dp_table.specs.Standard.{standard_meanings};
ghost use Rattle.dp_program.specs.Requests.{options_of, question_of};

use crate::assumptions::look_up_use;
use crate::fault_places::Faulted;
use crate::files::ReadFiles;
use crate::hints::{HintedPlan, ServedRequest, is_bare, lacking, push_bare_line, push_told};
use crate::options::Options;
use crate::plan_and_queues::{PlanAndQueues, PlanPaths, files_in, placed_over};
use crate::plan_questions::{Asking, PlanQuestion, answer_including};
use crate::request::ReachQuestion;
use crate::texts::{read_named, read_text};
use dp_answer::{Ask, ReachAnswer, Report, answer_on, report_on};
use dp_closed::DutyTable;
use dp_commands::{LoadedFiles, PbxFault};
use dp_conf::{WriteTold, split_args};
use dp_json::push_reach;
use dp_plan::NoMemory;
use dp_table::StandardApps;
use dp_wide_duties::WideDuties;
use std::alloc::Global;

/// The bytes of an optional word.
pub(crate) fn bytes_of(word: Option<&str>) -> Option<&[u8]>
    ensures { option_map (λ bytes. bytes.now) result ≡ option_map (λ word. word.now) word.entry }
{
    match word {
        Some(word) => Some(word.as_bytes()),
        None => None,
    }
}

/// The question on the dialplan.
fn ask_of<'a>(question: &ReachQuestion<'a>) -> Ask<'a>
    ensures { ask_texts result ≡ (question_of question.now).ask }
{
    Ask {
        context: question.context.as_bytes(),
        target: bytes_of(question.target),
        starts: bytes_of(question.starts),
        exten: bytes_of(question.exten),
        caller: bytes_of(question.caller),
        facts: bytes_of(question.facts),
    }
}

/// Adds the hints on the names of contexts.
fn push_names_told(
    alloc: Global,
    hint: &mut Vec<u8>,
    told: HintedPlan<'_>,
    names: &[&[u8]],
) -> Result<(), NoMemory>
    ensures { OnOk result (hint.new.items
        ≡ hint.old.items ++ flat_map (spec.told_of_name told.entry.file.now told.entry.explains told.entry.plan.now) (map (λ name. name.now) names.now)) }
{
    for name in names {
        push_told(alloc, hint, told, name)?;
    }
    Ok(())
}

/// Adds the hint on the target, if one is named.
fn push_target_told(
    alloc: Global,
    hint: &mut Vec<u8>,
    told: HintedPlan<'_>,
    target: Option<&[u8]>,
) -> Result<(), NoMemory>
    ensures { OnOk result (hint.new.items ≡ hint.old.items
        ++ flat_map (spec.told_of_name told.entry.file.now told.entry.explains told.entry.plan.now)
        (target_names (option_map (λ name. name.now) target.entry))) }
{
    match target {
        Some(target) => push_told(alloc, hint, told, target),
        None => Ok(()),
    }
}

/// Adds the hints on the contexts where other calls come in, if these are named.
fn push_starts_told(
    alloc: Global,
    hint: &mut Vec<u8>,
    told: HintedPlan<'_>,
    starts: Option<&[u8]>,
) -> Result<(), NoMemory>
    ensures { OnOk result (hint.new.items ≡ hint.old.items
        ++ flat_map (spec.told_of_name told.entry.file.now told.entry.explains told.entry.plan.now)
        (option_map_or arguments_of (option_map (λ names. names.now) starts.entry) [])) }
{
    match starts {
        Some(starts) => {
            let names = split_args(alloc, starts)?;
            push_names_told(alloc, hint, told, &names)
        }
        None => Ok(()),
    }
}

/// The hints beside a report.
fn hint_of(alloc: Global, ask: &Ask<'_>, told: HintedPlan<'_>) -> Result<Vec<u8>, NoMemory>
    ensures { IfOk result (λ hint. hint.items
        ≡ spec.hint_of told.entry.file.now (ask_texts ask.now) told.entry.explains told.entry.plan.now) }
{
    let mut hint = Vec::new(alloc);
    if is_bare(told.plan) {
        push_bare_line(&mut hint, told.file, lacking(told.plan))?;
        return Ok(hint);
    }
    push_told(alloc, &mut hint, told, ask.context)?;
    push_target_told(alloc, &mut hint, told, ask.target)?;
    push_starts_told(alloc, &mut hint, told, ask.starts)?;
    Ok(hint)
}

/// The report of an answer as JSON. The report for names that the dialplan lacks is empty.
fn report_of_answer(
    alloc: Global,
    files: &LoadedFiles,
    ask: &Ask<'_>,
    answer: &Option<ReachAnswer>,
) -> Result<Report, NoMemory>
    ensures { IfOk result (λ report. record { text = report.text.items; status = report.status }
        ≡ spec.json_report files.now.plan (ask_texts ask.now) answer.now) }
{
    let mut text = Vec::new(alloc);
    match answer {
        None => Ok(Report { text, status: 1 }),
        Some(answer) => {
            push_reach(alloc, &mut text, &files.plan, ask, answer)?;
            Ok(Report {
                text,
                status: answer.status,
            })
        }
    }
}

/// The report on a dialplan and queues as JSON.
fn report_json<T: DutyTable>(
    alloc: Global,
    files: &LoadedFiles,
    ask: &Ask<'_>,
) -> Result<Report, NoMemory>
    ensures { IfOk result (λ report. spec.IsJson (with_functions T.rows T.Functions.table) (record { plan = files.now.plan; queues = files.now.queues })
        (ask_texts ask.now) (record { text = report.text.items; status = report.status })) }
{
    let answer = answer_on::<T>(alloc, &files.plan, &files.queues, ask)?;
    let report = report_of_answer(alloc, files, ask, &answer)?;
    Ok(report)
}

/// The report on a dialplan and queues, as text or as JSON.
fn report_by<T: DutyTable>(
    alloc: Global,
    is_json: bool,
    files: &LoadedFiles,
    ask: &Ask<'_>,
) -> Result<Report, NoMemory>
    ensures { IfOk result (λ report. spec.IsReported is_json (with_functions T.rows T.Functions.table)
        (record { plan = files.now.plan; queues = files.now.queues }) (ask_texts ask.now) (record { text = report.text.items; status = report.status })) }
{
    if is_json {
        report_json::<T>(alloc, files, ask)
    } else {
        report_on::<T>(alloc, &files.plan, &files.queues, ask)
    }
}

/// A report, and the hints beside it.
#[derive(Drop)]
struct HintedReport {
    report: Report,
    hint: Vec<u8>,
}

/// The report on a dialplan and queues, and the hints beside it.
fn hinted_report<T: DutyTable>(
    alloc: Global,
    question: &ReachQuestion<'_>,
    options: Options<'_>,
    files: &LoadedFiles,
) -> Result<HintedReport, NoMemory>
    ensures { IfOk result (λ answered. spec.IsAnswered (with_functions T.rows T.Functions.table) (question_of question.now) (options_of options.entry) (record { plan = files.now.plan; queues = files.now.queues })
        answered.report.text.items answered.report.status answered.hint.items) }
{
    let ask = ask_of(question);
    let report = report_by::<T>(alloc, options.is_json, files, &ask)?;
    let told = HintedPlan {
        file: question.file,
        plan: &files.plan,
        explains: options.explains,
    };
    let hint = hint_of(alloc, &ask, told)?;
    Ok(HintedReport { report, hint })
}

/// Writes the report on the texts of a dialplan and of its queues.
#[tactic(auto, using(crate::proofs::ReachesLemmas::reaches_fault, crate::proofs::ReachesLemmas::reaches_failed, crate::proofs::ReachesLemmas::reaches_written, crate::proofs::ServesLemmas::reaches_lacks))]
fn reach_told<T: DutyTable, W: WriteTold>(
    alloc: Global,
    question: &ReachQuestion<'_>,
    options: Options<'_>,
    texts: &PlanAndQueues,
    output: &mut W,
) -> Result<ServedRequest, PbxFault>
    ensures reaches { spec.Reaches (with_functions T.rows T.Functions.table) (question_of question.now) (options_of options.entry)
        (files_of texts.now.plan.items (option_map (λ text. text.items) texts.now.queues)) (W.contents output.old) (W.contents output.new) result }
    ensures told { W.has_failed output.new ≡ (W.has_failed output.old || is_write_failed result) }
{
    let files = files_in(alloc, texts)?;
    let answered = hinted_report::<T>(alloc, question, options, &files)?;
    output.write_told(&answered.report.text)?;
    let HintedReport { report, hint } = answered;
    Ok(ServedRequest {
        status: report.status,
        hint,
    })
}

/// Reports what a phone call that comes in at a context may run, given the files of a question and the table by which calls run.
fn serve_reach_over<'a, T: DutyTable, F: ReadFiles, W: WriteTold>(
    files: &F,
    alloc: Global,
    question: &ReachQuestion<'a>,
    options: Options<'_>,
    output: &mut W,
) -> Result<ServedRequest, Faulted<'a>>
    ensures serves { ReachesFiles (with_functions T.rows T.Functions.table) (F.source_at files.now) (question_of question.now) (options_of options.entry)
        (W.contents output.old) (W.contents output.new) result }
    ensures told { W.has_failed output.new ≡ (W.has_failed output.old || is_write_failed (without_place result)) }
{
    let plan = read_text(files, alloc, question.file)?;
    let queues = read_named(files, alloc, question.queues)?;
    let texts = PlanAndQueues { plan, queues };
    let answered = reach_told::<T, W>(alloc, question, options, &texts, output);
    let paths = PlanPaths {
        plan: question.file,
        queues: question.queues,
    };
    placed_over(paths, texts, answered)
}

/// Reports what a phone call that comes in at a context may run, given the files of a question.
pub(crate) fn serve_reach<'a, F: ReadFiles, W: WriteTold>(
    files: &F,
    alloc: Global,
    question: &ReachQuestion<'a>,
    options: Options<'_>,
    output: &mut W,
) -> Result<ServedRequest, Faulted<'a>>
    ensures serves { ReachesFiles standard_meanings (F.source_at files.now) (question_of question.now) (options_of options.entry) (W.contents output.old)
        (W.contents output.new) result }
    ensures told { W.has_failed output.new ≡ (W.has_failed output.old || is_write_failed (without_place result)) }
{
    serve_reach_over::<StandardApps, F, W>(files, alloc, question, options, output)
}

/// A question about calls over the applications of `--asterisk`, and the options of the request.
#[derive(Clone, Copy)]
struct WideReach<'r, 'a> {
    question: &'r ReachQuestion<'a>,
    options: Options<'r>,
}

impl<'a> PlanQuestion<'a> for WideReach<'_, 'a> {
    ghost serves = { λ asked files. ReachesFiles wide_meanings files (question_of asked.question.now) (options_of asked.options) };

    fn answer<F: ReadFiles, W: WriteTold>(
        &self,
        files: &F,
        alloc: Global,
        output: &mut W,
    ) -> Result<ServedRequest, Faulted<'a>> {
        serve_reach_over::<WideDuties, F, W>(files, alloc, self.question, self.options, output)
    }

    fn may_lack_memory(&self) {}
}

/// Reports what a phone call that comes in at a context may run, after reading the files of a question with those that they include. The
/// applications are those of `--asterisk`.
pub(crate) fn serve_reach_including<'a, F: ReadFiles, W: WriteTold>(
    files: &F,
    alloc: Global,
    question: &ReachQuestion<'a>,
    options: Options<'_>,
    output: &mut W,
) -> Result<ServedRequest, Faulted<'a>>
    ensures serves { spec.ReachesIncluding (F.source_at files.now) (question_of question.now)
        (options_of options.entry) (W.contents output.old) (W.contents output.new) result }
    ensures told { W.has_failed output.new ≡ (W.has_failed output.old || is_write_failed (without_place result)) }
{
    let asked = WideReach { question, options };
    let asking = Asking {
        question: &asked,
        paths: PlanPaths {
            plan: question.file,
            queues: question.queues,
        },
        purpose: look_up_use(options),
        clock: options.clock,
    };
    answer_including(files, alloc, &asking, output)
}
