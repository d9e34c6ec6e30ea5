//! The start of a run: its dialplan, its queues and the lines of its script.
ghost use Rattle.std.specs.Prelude.{◌≡◌, IfOk, Ok, false};
ghost use Rattle.std.specs.Option.{option_map};
ghost use Rattle.dp_conf.specs.Answers.{Answers};
ghost use Rattle.dp_queue.specs.Rest.{IsAtRest};
ghost use Rattle.dp_commands.specs.Faults.{is_write_failed, reason_of};
ghost use Rattle.dp_commands.specs.Run as spec;
ghost use Rattle.dp_commands.specs.Script.{turns_of};
ghost use Rattle.dp_machine.specs.World.{opening};

use crate::fault::PbxFault;
use crate::script::{ScriptLine, read_script};
use crate::texts::RunTexts;
use dp_app::AppTable;
use dp_conf::beside;
use dp_machine::Machine;
use dp_plan::{Dialplan, NoMemory};
use dp_queue::Queues;
use dp_table::StandardApps;
use std::alloc::Global;

/// The queues of a run, given the text of their file, if there is one.
fn load_queues(alloc: Global, text: Option<&[u8]>) -> Result<Queues, PbxFault>
    ensures queues { Answers (λ queues. queues) reason_of result
        (spec.queues_of (option_map (λ text. text.now) text.entry)) }
    ensures rest { IfOk result IsAtRest }
    ensures quiet { is_write_failed result ≡ false }
{
    let Some(text) = text else {
        return Ok(Queues::none(alloc));
    };
    let queues = Queues::load(alloc, text)?;
    Ok(queues)
}

/// A dialplan and its queues. They are dropped in one function, so that the drop is proved once, and not on each way out of everything that
/// holds them.
pub struct LoadedFiles {
    pub plan: Dialplan,
    pub queues: Queues,
}

impl Drop for LoadedFiles {
    fn drop(self) {
        let LoadedFiles { plan: _, queues: _ } = self;
    }
}

impl LoadedFiles {
    ghost use Rattle.std.specs.Prelude.{◌≡◌, IfOk};
    ghost use Rattle.dp_machine.specs.World.{opening_with};
    ghost use Rattle.dp_queue.specs.Rest.{IsAtRest};

    /// A machine over a table of applications in which nothing has happened. Nothing has happened in the queues before. It fails only if
    /// memory runs out.
    pub fn into_machine<A: AppTable>(self, alloc: Global) -> Result<Machine<A>, NoMemory>
        requires { IsAtRest self.queues }
        ensures { IfOk result (λ machine. machine ≡ opening_with A.Functions.table self.plan self.queues) }
    {
        let LoadedFiles { plan, queues } = self;
        Machine::new(alloc, plan, queues)
    }
}

/// The contents of the texts of a dialplan and of its queues. The dialplan is read first, then the queues. There are no queues if they have
/// no text. The error is the first fault.
pub fn read_files(
    alloc: Global,
    plan: &[u8],
    queues: Option<&[u8]>,
) -> Result<LoadedFiles, PbxFault>
    ensures files { Answers (λ files. record { plan = files.plan; queues = files.queues }) reason_of result
        (spec.files_of plan.now (option_map (λ text. text.now) queues.entry)) }
    ensures rest { IfOk result (λ files. IsAtRest files.queues) }
    ensures quiet { is_write_failed result ≡ false }
{
    let (plan, _) = Dialplan::load(alloc, plan)?;
    let queues = load_queues(alloc, queues);
    let (queues, plan) = beside(queues, plan)?;
    Ok(LoadedFiles { plan, queues })
}

/// The contents of a run's texts.
#[derive(Drop)]
pub struct RunContents {
    /// The dialplan and its queues.
    pub files: LoadedFiles,
    /// The lines of the script, in order.
    pub lines: Vec<ScriptLine>,
}

/// The contents of a run's texts. The dialplan is read first, then the queues, then the script. The error is the first fault.
#[tactic(auto, unfolding(crate::specs::Run::run_of))]
pub fn read_run(alloc: Global, texts: RunTexts<'_>) -> Result<RunContents, PbxFault>
    ensures told { Answers (λ told. record { plan = told.files.plan; queues = told.files.queues; lines = told.lines.items }) reason_of result
        (spec.contents_of texts.entry.plan.now (option_map (λ text. text.now) texts.entry.queues)
        (option_map (λ text. text.now) texts.entry.second_plan) texts.entry.script.now) }
    ensures run { Answers (λ told. spec.run_on (opening told.files.plan told.files.queues) (turns_of told.lines.items)) reason_of result
        (spec.run_of_texts texts.entry) }
    ensures rest { IfOk result (λ told. IsAtRest told.files.queues) }
    ensures quiet { is_write_failed result ≡ false }
{
    let files = read_files(alloc, texts.plan, texts.queues)?;
    match read_script(alloc, texts.second_plan, texts.script) {
        Ok(lines) => Ok(RunContents { files, lines }),
        Err(fault) => Err(fault),
    }
}

/// The state of a run before its first turn: its machine, and the lines of its script. It is dropped in one function, like the files.
pub(crate) struct Begun {
    pub(crate) machine: Machine<StandardApps>,
    pub(crate) lines: Vec<ScriptLine>,
}

impl Drop for Begun {
    fn drop(self) {
        let Begun {
            machine: _,
            lines: _,
        } = self;
    }
}

impl Begun {
    ghost use Rattle.std.specs.Prelude.{◌≡◌};

    /// The machine and the lines.
    pub(crate) fn into_parts(self) -> (Machine<StandardApps>, Vec<ScriptLine>)
        ensures machine { result.0 ≡ self.machine }
        ensures lines { result.1 ≡ self.lines }
    {
        let Begun { machine, lines } = self;
        (machine, lines)
    }

    /// The machine alone.
    pub(crate) fn into_machine(self) -> Machine<StandardApps>
        ensures { result ≡ self.machine }
    {
        let Begun { machine, lines: _ } = self;
        machine
    }
}

/// The state of a run before its first turn.
#[tactic(auto, unfolding(crate::specs::Run::run_of))]
pub(crate) fn begin(alloc: Global, texts: RunTexts<'_>) -> Result<Begun, PbxFault>
    ensures run { Answers (λ begun. spec.run_on begun.machine (turns_of begun.lines.items)) reason_of result
        (spec.run_of_texts texts.entry) }
    ensures quiet { is_write_failed result ≡ false }
{
    let RunContents { files, lines } = read_run(alloc, texts)?;
    match files.into_machine(alloc) {
        Ok(machine) => Ok(Begun { machine, lines }),
        Err(_) => Err(PbxFault::NoMemory),
    }
}
