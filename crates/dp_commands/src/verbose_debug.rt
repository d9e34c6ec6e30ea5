//! Verbose debugged runs of a dialplan by a script.
ghost use Rattle.std.specs.Prelude.{◌≡◌, ◌++◌, ◌||◌, IfOk, OnOk, OnErr, Ok};
ghost use Rattle.std.specs.Option.{option_map};
ghost use Rattle.dp_commands.specs.Debug.{DebugRun as debugs, debug_of, halt_text};
ghost use Rattle.dp_commands.specs.Faults.{is_write_failed};
ghost use Rattle.dp_commands.specs.Run.{run_of_texts};
ghost use Rattle.dp_commands.specs.Verbose as spec;
ghost use Rattle.dp_commands.specs.Verbose.{debug_status};

use crate::block::Block;
use crate::debug::{push_end, push_halt, read_break, step};
use crate::explanations::Explanations;
use crate::fault::PbxFault;
use crate::in_force::{PlanInForce, PlanNames, first_in_force};
use crate::run::run_texts;
use crate::script::Turn;
use crate::taker::Taker;
use crate::texts::RunTexts;
use crate::trace::push_reply;
use crate::verbose::{arguments_of, push_above};
use dp_conf::WriteTold;
use dp_debug::{Break, Debugger};
use dp_machine::{Event, Machine};
use dp_plan::NoMemory;
use dp_table::StandardApps;
use std::alloc::Global;
use std::marker::{Model, PhantomData};

/// Adds the line of a halt after a number of events, if there was one.
fn push_halted(out: &mut Block, halted: bool, taken: u64) -> Result<(), NoMemory>
    ensures kept { out.new.whole ≡ out.old.whole }
    ensures ok { OnOk result (out.new.begun ≡ out.old.begun ++ halt_text halted taken) }
{
    if halted {
        return push_halt(out, taken);
    }
    Ok(())
}

/// A debugger that takes the turns of a script and writes more above their lines. Contracts see it as its break, the number of events
/// taken, and the dialplan in force.
struct VerboseWatched<'a, E> {
    debugger: Debugger,
    held: Break,
    taken: u64,
    in_force: PlanInForce<'a>,
    explanations: PhantomData<E>,
}

impl<'a, E> Drop for VerboseWatched<'a, E> {
    fn drop(self) {
        let VerboseWatched {
            debugger: _,
            held: _,
            taken: _,
            in_force: _,
            explanations: _,
        } = self;
    }
}

impl<'a, E> Model for VerboseWatched<'a, E> {
    ghost use Rattle.dp_commands.specs.Verbose.{VerboseWatch};

    ghost Value = { VerboseWatch };

    ghost view = { λ watched. record { watch = record { held = watched.held; taken = watched.taken }; in_force = watched.in_force } };
}

impl<'a, E: Explanations> Taker for VerboseWatched<'a, E> {
    ghost use Rattle.dp_commands.specs.Run.{status_by};
    ghost use Rattle.dp_commands.specs.Verbose.{verbose_debug_turn, verbose_end};

    type Table = StandardApps;

    type Turn = Turn;

    ghost step = { verbose_debug_turn E.explanation_of };

    ghost last = { verbose_end };

    ghost status = { λ _ refused. status_by refused };

    fn take(
        &mut self,
        alloc: Global,
        machine: &mut Machine<StandardApps>,
        turn: &Turn,
        block: &mut Block,
    ) -> Result<bool, NoMemory> {
        match turn {
            Turn::Event(event) => self.take_event(alloc, machine, event, block),
            Turn::Show { .. } => Ok(false),
        }
    }

    fn finish(&self, block: &mut Block) -> Result<(), NoMemory> {
        push_end(block, self.taken)
    }

    fn status(&self, refused: bool) -> u8 {
        u8::from(refused)
    }
}

impl<'a, E: Explanations> VerboseWatched<'a, E> {
    /// Gives the debugger one event, and adds its lines to the waiting lines, with more text above that of the reply. It says whether the
    /// event was refused.
    #[tactic(auto, unfolding(crate::specs::Trace::event_line_by))]
    fn take_event(
        &mut self,
        alloc: Global,
        machine: &mut Machine<StandardApps>,
        event: &Event,
        block: &mut Block,
    ) -> Result<bool, NoMemory>
        ensures lines { OnOk result (block.new.whole ≡ block.old.whole
            ++ (spec.verbose_debug_turn E.explanation_of (self.old, machine.old) (Turn.Event event.now)).lines) }
        ensures state { OnOk result ((self.new, machine.new)
            ≡ (spec.verbose_debug_turn E.explanation_of (self.old, machine.old) (Turn.Event event.now)).state) }
        ensures refused { IfOk result (λ refused. refused
            ≡ (spec.verbose_debug_turn E.explanation_of (self.old, machine.old) (Turn.Event event.now)).refused) }
        ensures err { OnErr result (block.new.whole ≡ block.old.whole) }
    {
        let arguments = arguments_of(alloc, machine, event)?;
        let stepped = step(alloc, &mut self.debugger, machine, event, &self.held)?;
        let refused = stepped.reply.is_refusal();
        self.in_force.go_on(alloc, event, refused)?;
        block.begin_line();
        push_halted(block, stepped.halted, self.taken)?;
        push_above::<E>(
            block,
            &self.in_force,
            machine.plan(),
            &arguments,
            stepped.reply,
        )?;
        push_reply(block, machine, event.channel(), stepped.reply)?;
        block.end_line()?;
        self.taken = self.taken.saturating_add(1);
        Ok(refused)
    }
}

/// Debugs the script of the texts, whose dialplan is first in force, and writes more above the lines.
fn debug_in_force<E: Explanations, W: WriteTold>(
    alloc: Global,
    texts: RunTexts<'_>,
    in_force: PlanInForce<'_>,
    held: Break,
    writer: &mut W,
) -> Result<u8, PbxFault>
    ensures writes { spec.WritesVerboseDebug E.explanation_of in_force.entry (W.contents writer.old) (W.contents writer.new)
        (spec.debug_with held (run_of_texts texts.entry)) result }
    ensures status { IfOk result (λ status. (debug : debugs) → spec.debug_with held (run_of_texts texts.entry) ≡ Ok debug
        → status ≡ debug_status debug) }
    ensures told { W.has_failed writer.new ≡ (W.has_failed writer.old || is_write_failed result) }
{
    let watched: VerboseWatched<'_, E> = VerboseWatched {
        debugger: Debugger::new(alloc),
        held,
        taken: 0,
        in_force,
        explanations: PhantomData,
    };
    run_texts(alloc, texts, watched, writer)
}

/// Runs a script on a dialplan with its queues under a debugger as [`crate::debug_script`] does, and writes more above the lines of events,
/// as [`crate::run_verbose`] does. This text comes after the line of a halt, if there is one.
#[tactic(auto, unfolding(crate::specs::Debug::debug_of))]
pub fn debug_verbose<E: Explanations, W: WriteTold>(
    alloc: Global,
    texts: RunTexts<'_>,
    names: PlanNames<'_>,
    held: &[u8],
    writer: &mut W,
) -> Result<u8, PbxFault>
    ensures writes { spec.WritesVerboseDebug E.explanation_of (spec.first_in_force names.entry.plan.now
        (option_map (λ name. name.now) names.entry.second_plan) texts.entry.plan.now)
        (W.contents writer.old) (W.contents writer.new) (debug_of (run_of_texts texts.entry) held.now) result }
    ensures status { IfOk result (λ status. (debug : debugs) → debug_of (run_of_texts texts.entry) held.now ≡ Ok debug
        → status ≡ debug_status debug) }
    ensures told { W.has_failed writer.new ≡ (W.has_failed writer.old || is_write_failed result) }
{
    let held = read_break(alloc, held)?;
    match first_in_force(alloc, names, texts.plan) {
        Ok(in_force) => debug_in_force::<E, W>(alloc, texts, in_force, held, writer),
        Err(fault) => Err(fault),
    }
}
