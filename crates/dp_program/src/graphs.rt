//! The requests that write a dialplan as a picture.
ghost use Rattle.std.specs.Prelude.{◌≡◌, ◌++◌, ◌||◌, IfOk, OnOk, Ok};
ghost use Rattle.std.specs.Option.{option_map};
ghost use Rattle.indexmap.specs.IndexSet.{insert_all};
ghost use Rattle.dp_answer.specs.Asks.{ask_of as ask_texts};
ghost use Rattle.dp_app.specs.Rows.{with_functions};
ghost use Rattle.dp_audit.specs.Candidates.{same_id};
ghost use Rattle.dp_commands.specs.Faults.{is_write_failed};
ghost use Rattle.dp_commands.specs.Run.{files_of};
ghost use Rattle.dp_graph.specs.Shading.{shading_now};
ghost use Rattle.dp_program.specs.Faulted.{without_place};
ghost use Rattle.dp_program.specs.Graphs as spec;
ghost use Rattle.dp_program.specs.Meanings.{wide_meanings};
ghost use Rattle.dp_table.specs.Standard.{standard_meanings};
ghost use Rattle.dp_program.specs.Requests.{drawing_of, options_of};

use crate::dialplans::PlanUse;
use crate::fault_places::Faulted;
use crate::files::ReadFiles;
use crate::hints::{HintedPlan, ServedRequest, push_told};
use crate::options::Options;
use crate::plan_and_queues::{PlanAndQueues, PlanPaths, files_in, placed_over};
use crate::plan_questions::{Asking, PlanQuestion, answer_including};
use crate::reaches::bytes_of;
use crate::request::GraphQuestion;
use crate::texts::{read_named, read_text};
use dp_answer::{Ask, reached_entries};
use dp_closed::DutyTable;
use dp_commands::{Code, LoadedFiles, PbxFault};
use dp_conf::WriteTold;
use dp_graph::{GraphFault, QueueExit, Shading, write_graph};
use dp_plan::{Dialplan, EntryId, NoMemory, Text};
use dp_queue::Queue;
use dp_table::StandardApps;
use dp_wide_duties::WideDuties;
use indexmap::IndexSet;
use std::alloc::Global;

/// Adds the way out of a queue, if it has one.
fn push_exit(alloc: Global, exits: &mut Vec<QueueExit>, queue: &Queue) -> Result<(), NoMemory>
    ensures { OnOk result (exits.new.items ≡ exits.old.items ++ spec.exits_at queue.now) }
{
    let context = queue.settings().context.bytes();
    if context.is_empty() {
        return Ok(());
    }
    let exit = QueueExit {
        queue: Text::copy_of(alloc, queue.name().bytes())?,
        context: Text::copy_of(alloc, context)?,
    };
    exits.push(exit)?;
    Ok(())
}

/// Adds the ways out of queues.
pub(crate) fn push_exits(
    alloc: Global,
    exits: &mut Vec<QueueExit>,
    queues: &[Queue],
) -> Result<(), NoMemory>
    ensures { OnOk result (exits.new.items ≡ exits.old.items ++ spec.exits_of queues.now) }
{
    for queue in queues {
        push_exit(alloc, exits, queue)?;
    }
    Ok(())
}

/// What the fills of a picture say, given the entries that are filled, if any are.
fn shading_of(filled: Option<&IndexSet<EntryId>>) -> Shading<'_>
    ensures { shading_now result ≡ spec.shading_of (option_map (λ set. set.now.keys) filled.entry) }
{
    match filled {
        None => Shading::Plain,
        Some(filled) => Shading::Reached(filled),
    }
}

/// Writes the picture of a dialplan, with the ways out of its queues. If entries are given, these are filled.
#[tactic(auto, using(crate::proofs::DiffLemmas::nothing_written), unfolding(crate::specs::Graphs::graph_text))]
fn write_picture<W: WriteTold>(
    alloc: Global,
    files: &LoadedFiles,
    filled: Option<&IndexSet<EntryId>>,
    output: &mut W,
) -> Result<u8, PbxFault>
    ensures writes { spec.WritesText (W.contents output.old) (W.contents output.new)
        (spec.graph_text (record { plan = files.now.plan; queues = files.now.queues }) (option_map (λ set. set.now.keys) filled.entry)) result }
    ensures told { W.has_failed output.new ≡ (W.has_failed output.old || is_write_failed result) }
{
    let mut exits = Vec::new(alloc);
    push_exits(alloc, &mut exits, files.queues.queues())?;
    match write_graph(alloc, &files.plan, shading_of(filled), &exits, output) {
        Ok(()) => Ok(0),
        Err(GraphFault::WriteFailed) => Err(PbxFault::Coded {
            code: Code::WriteFailed,
            line: None,
        }),
        Err(GraphFault::NoMemory) => Err(PbxFault::NoMemory),
    }
}

/// Adds entries, each once.
pub(crate) fn add_entries(
    filled: &mut IndexSet<EntryId>,
    entries: &[EntryId],
) -> Result<(), NoMemory>
    ensures { OnOk result (filled.new.keys ≡ insert_all same_id filled.old.keys entries.now) }
{
    for entry in entries {
        filled.insert(*entry)?;
    }
    Ok(())
}

/// The question about calls that come in at a context, whatever is dialled and wherever other calls come in, given the bytes of facts.
pub(crate) fn ask_from<'a>(context: &'a str, facts: Option<&'a str>) -> Ask<'a>
    ensures { ask_texts result ≡ spec.ask_from (option_map (λ facts. facts.now) facts.entry) context.now }
{
    Ask {
        context: context.as_bytes(),
        target: None,
        starts: None,
        exten: None,
        caller: None,
        facts: bytes_of(facts),
    }
}

/// The entries that a call with this question may run.
fn filled_by<T: DutyTable>(
    alloc: Global,
    files: &LoadedFiles,
    ask: &Ask<'_>,
) -> Result<IndexSet<EntryId>, NoMemory>
    ensures { IfOk result (λ filled. spec.Fills (with_functions T.rows T.Functions.table) (record { plan = files.now.plan; queues = files.now.queues })
        (ask_texts ask.now) filled.keys) }
{
    let entries = reached_entries::<T>(alloc, &files.plan, &files.queues, ask)?;
    let mut filled = IndexSet::new(alloc);
    add_entries(&mut filled, &entries)?;
    Ok(filled)
}

/// The entries that are filled, if a context is named.
fn filled_of<T: DutyTable>(
    alloc: Global,
    files: &LoadedFiles,
    question: &GraphQuestion<'_>,
) -> Result<Option<IndexSet<EntryId>>, NoMemory>
    ensures { IfOk result (λ filled. spec.IsFilled (with_functions T.rows T.Functions.table) (record { plan = files.now.plan; queues = files.now.queues })
        (drawing_of question.now).facts (drawing_of question.now).from (option_map (λ set. set.keys) filled)) }
{
    let Some(context) = question.from else {
        return Ok(None);
    };
    let filled = filled_by::<T>(alloc, files, &ask_from(context, question.facts))?;
    Ok(Some(filled))
}

/// The hint on the context, if one is named.
fn hint_of(
    alloc: Global,
    question: &GraphQuestion<'_>,
    explains: bool,
    plan: &Dialplan,
) -> Result<Vec<u8>, NoMemory>
    ensures { IfOk result (λ hint. hint.items ≡ spec.hint_of (drawing_of question.now) explains plan.now) }
{
    let mut hint = Vec::new(alloc);
    let told = HintedPlan {
        file: question.file,
        plan,
        explains,
    };
    if let Some(context) = question.from {
        push_told(alloc, &mut hint, told, context.as_bytes())?;
    }
    Ok(hint)
}

/// Writes the picture of a dialplan and its queues. The status is 1 if there is a hint.
#[tactic(auto, using(crate::proofs::GraphLemmas::draws_front, crate::proofs::GraphLemmas::draws_nothing))]
fn draw_files<T: DutyTable, W: WriteTold>(
    alloc: Global,
    question: &GraphQuestion<'_>,
    explains: bool,
    files: &LoadedFiles,
    output: &mut W,
) -> Result<ServedRequest, PbxFault>
    ensures draws { spec.Draws (with_functions T.rows T.Functions.table) (drawing_of question.now) explains (Ok (record { plan = files.now.plan; queues = files.now.queues }))
        (W.contents output.old) (W.contents output.new) result }
    ensures told { W.has_failed output.new ≡ (W.has_failed output.old || is_write_failed result) }
{
    let hint = hint_of(alloc, question, explains, &files.plan)?;
    let filled = filled_of::<T>(alloc, files, question)?;
    let status = if hint.is_empty() { 0 } else { 1 };
    write_picture(alloc, files, filled.as_ref(), output)?;
    Ok(ServedRequest { status, hint })
}

/// Writes the picture of the dialplan and of the queues that texts hold.
#[tactic(auto, using(crate::proofs::GraphLemmas::graph_fault, crate::proofs::GraphLemmas::graph_drawn))]
fn draw_texts<T: DutyTable, W: WriteTold>(
    alloc: Global,
    question: &GraphQuestion<'_>,
    explains: bool,
    texts: &PlanAndQueues,
    output: &mut W,
) -> Result<ServedRequest, PbxFault>
    ensures draws { spec.Draws (with_functions T.rows T.Functions.table) (drawing_of question.now) explains
        (files_of texts.now.plan.items (option_map (λ text. text.items) texts.now.queues)) (W.contents output.old) (W.contents output.new) result }
    ensures told { W.has_failed output.new ≡ (W.has_failed output.old || is_write_failed result) }
{
    let files = files_in(alloc, texts)?;
    draw_files::<T, W>(alloc, question, explains, &files, output)
}

/// Writes the picture of the dialplan of a file, with the ways out of the queues of another file, if it is named, given the table by which
/// calls run.
fn serve_graph_over<'a, T: DutyTable, F: ReadFiles, W: WriteTold>(
    files: &F,
    alloc: Global,
    question: &GraphQuestion<'a>,
    explains: bool,
    output: &mut W,
) -> Result<ServedRequest, Faulted<'a>>
    ensures serves { spec.GraphsFiles (with_functions T.rows T.Functions.table) (F.source_at files.now) (drawing_of question.now) explains
        (W.contents output.old) (W.contents output.new) result }
    ensures told { W.has_failed output.new ≡ (W.has_failed output.old || is_write_failed (without_place result)) }
{
    let plan = read_text(files, alloc, question.file)?;
    let queues = read_named(files, alloc, question.queues)?;
    let texts = PlanAndQueues { plan, queues };
    let answered = draw_texts::<T, W>(alloc, question, explains, &texts, output);
    let paths = PlanPaths {
        plan: question.file,
        queues: question.queues,
    };
    placed_over(paths, texts, answered)
}

/// Writes the picture of the dialplan of a file, with the ways out of the queues of another file, if it is named.
pub(crate) fn serve_graph<'a, F: ReadFiles, W: WriteTold>(
    files: &F,
    alloc: Global,
    question: &GraphQuestion<'a>,
    explains: bool,
    output: &mut W,
) -> Result<ServedRequest, Faulted<'a>>
    ensures serves { spec.GraphsFiles standard_meanings (F.source_at files.now) (drawing_of question.now) explains (W.contents output.old)
        (W.contents output.new) result }
    ensures told { W.has_failed output.new ≡ (W.has_failed output.old || is_write_failed (without_place result)) }
{
    serve_graph_over::<StandardApps, F, W>(files, alloc, question, explains, output)
}

/// What a picture shows over the applications of `--asterisk`, and whether names that are similar to a missing one are suggested.
#[derive(Clone, Copy)]
struct WideDrawing<'r, 'a> {
    question: &'r GraphQuestion<'a>,
    explains: bool,
}

impl<'a> PlanQuestion<'a> for WideDrawing<'_, 'a> {
    ghost serves = { λ asked files. spec.GraphsFiles wide_meanings files (drawing_of asked.question.now) asked.explains };

    fn answer<F: ReadFiles, W: WriteTold>(
        &self,
        files: &F,
        alloc: Global,
        output: &mut W,
    ) -> Result<ServedRequest, Faulted<'a>> {
        serve_graph_over::<WideDuties, F, W>(files, alloc, self.question, self.explains, output)
    }

    fn may_lack_memory(&self) {}
}

/// Writes the picture of the dialplan of a file and of those that it includes, with the ways out of the queues of another file and of those
/// that it includes, if it is named. The applications are those of `--asterisk`.
pub(crate) fn serve_graph_including<'a, F: ReadFiles, W: WriteTold>(
    files: &F,
    alloc: Global,
    question: &GraphQuestion<'a>,
    options: Options<'_>,
    output: &mut W,
) -> Result<ServedRequest, Faulted<'a>>
    ensures serves { spec.GraphsIncluding (options_of options.entry).clock (F.source_at files.now) (drawing_of question.now)
        (options_of options.entry).explains (W.contents output.old) (W.contents output.new) result }
    ensures told { W.has_failed output.new ≡ (W.has_failed output.old || is_write_failed (without_place result)) }
{
    let drawing = WideDrawing {
        question,
        explains: options.explains,
    };
    let asking = Asking {
        question: &drawing,
        paths: PlanPaths {
            plan: question.file,
            queues: question.queues,
        },
        purpose: PlanUse::Report,
        clock: options.clock,
    };
    answer_including(files, alloc, &asking, output)
}
