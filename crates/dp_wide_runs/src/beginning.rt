//! The start of a run of a script with facts.
ghost use Rattle.std.specs.Prelude.{◌≡◌, IfOk, false, filter, not};
ghost use Rattle.std.specs.Option.{option_map};
ghost use Rattle.dp_conf.specs.Answers.{Answers};
ghost use Rattle.dp_queue.specs.Rest.{IsAtRest};
ghost use Rattle.dp_commands.specs.Faults.{is_write_failed, reason_of};
ghost use Rattle.dp_commands.specs.Script.{turns_of};
ghost use Rattle.dp_wide_runs.specs.Debugging.{is_show as is_plain_show, shows as shows_a_value};
ghost use Rattle.dp_wide_runs.specs.Lines.{wide_script_of};
ghost use Rattle.dp_wide_runs.specs.Runs as spec;

use crate::wide_lines::WideLines;
use crate::wide_turn::WideTurn;
use dp_commands::{LoadedFiles, PbxFault, RunTexts, ScriptLine, Turn, read_files, read_script_by};
use dp_machine::Machine;
use dp_wide::WideApps;
use std::alloc::Global;

/// The lines of a script with facts in order, or the fault of its first faulty line.
fn read_script(
    alloc: Global,
    second_plan: Option<&[u8]>,
    text: &[u8],
) -> Result<Vec<ScriptLine<WideTurn>>, PbxFault>
    ensures lines { Answers (λ lines. lines.items) reason_of result
        (wide_script_of (option_map (λ text. text.now) second_plan.entry) text.now) }
    ensures quiet { is_write_failed result ≡ false }
{
    let reader = WideLines::beside(alloc, second_plan)?;
    read_script_by(alloc, &reader, text)
}

/// The contents of a run's texts.
#[derive(Drop)]
struct WideContents {
    files: LoadedFiles,
    lines: Vec<ScriptLine<WideTurn>>,
}

/// The contents of a run's texts: its files are read first, then the script.
fn read_texts(alloc: Global, texts: RunTexts<'_>) -> Result<WideContents, PbxFault>
    ensures told { Answers (λ told. record { plan = told.files.plan; queues = told.files.queues; lines = told.lines.items }) reason_of result
        (spec.contents_of texts.entry.plan.now (option_map (λ text. text.now) texts.entry.queues)
        (option_map (λ text. text.now) texts.entry.second_plan) texts.entry.script.now) }
    ensures rest { IfOk result (λ told. IsAtRest told.files.queues) }
    ensures quiet { is_write_failed result ≡ false }
{
    let files = read_files(alloc, texts.plan, texts.queues)?;
    match read_script(alloc, texts.second_plan, texts.script) {
        Ok(lines) => Ok(WideContents { files, lines }),
        Err(fault) => Err(fault),
    }
}

/// Whether a turn of a plain script shows a value.
fn is_show(turn: &Turn) -> bool
    ensures { result ≡ is_plain_show turn.now }
{
    match turn {
        Turn::Event(_) => false,
        Turn::Show { .. } => true,
    }
}

/// Whether a turn shows a value.
fn shows(turn: &WideTurn) -> bool
    ensures { result ≡ shows_a_value turn.now }
{
    match turn {
        WideTurn::Plain(turn) => is_show(turn),
        WideTurn::Further { .. } | WideTurn::Pass { .. } => false,
    }
}

/// Leaves out the lines that show a value.
fn skip_shows(lines: &mut Vec<ScriptLine<WideTurn>>)
    ensures { lines.new.items ≡ filter (λ line. not (shows_a_value line.turn)) lines.old.items }
{
    lines.retain(|line| !shows(&line.turn));
}

/// The state of a run before its first turn: its machine, and the lines of its script. It is dropped in one function, so that the drop is
/// proved once.
pub(crate) struct WideBegun {
    machine: Machine<WideApps>,
    lines: Vec<ScriptLine<WideTurn>>,
}

impl Drop for WideBegun {
    fn drop(self) {
        let WideBegun {
            machine: _,
            lines: _,
        } = self;
    }
}

impl WideBegun {
    ghost use Rattle.std.specs.Prelude.{◌≡◌};
    ghost use Rattle.dp_commands.specs.Script.{turns_of};
    ghost use Rattle.dp_wide_runs.specs.Debugging.{without_shows};

    /// The machine and the lines.
    pub(crate) fn into_parts(self) -> (Machine<WideApps>, Vec<ScriptLine<WideTurn>>)
        ensures machine { result.0 ≡ self.machine }
        ensures lines { result.1 ≡ self.lines }
    {
        let WideBegun { machine, lines } = self;
        (machine, lines)
    }

    /// The same run without the turns that show a value.
    #[tactic(auto, using(crate::proofs::ShowsLemmas::turns_of_skipped))]
    pub(crate) fn without_shows(self) -> Self
        ensures machine { result.machine ≡ self.machine }
        ensures turns { turns_of result.lines.items ≡ without_shows (turns_of self.lines.items) }
    {
        let WideBegun { machine, mut lines } = self;
        skip_shows(&mut lines);
        WideBegun { machine, lines }
    }
}

/// The state of a run before its first turn.
#[tactic(auto, unfolding(crate::specs::Runs::run_of))]
pub(crate) fn begin(alloc: Global, texts: RunTexts<'_>) -> Result<WideBegun, PbxFault>
    ensures run { Answers (λ begun. spec.run_on begun.machine (turns_of begun.lines.items)) reason_of result
        (spec.run_of_texts texts.entry) }
    ensures quiet { is_write_failed result ≡ false }
{
    let WideContents { files, lines } = read_texts(alloc, texts)?;
    match files.into_machine(alloc) {
        Ok(machine) => Ok(WideBegun { machine, lines }),
        Err(_) => Err(PbxFault::NoMemory),
    }
}
