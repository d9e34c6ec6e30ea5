//! How a run with facts takes the turns of a plain script that it is given: plainly, or verbosely.
ghost use Rattle.std.specs.Prelude.{◌≡◌, ℕ, ◌++◌, List, [], IfOk, OnOk, OnErr};
ghost use Rattle.dp_machine.specs.World.{World};
ghost use Rattle.dp_machine.specs.declared.refusal.Refusal.{Refusal as refusals};
ghost use Rattle.dp_commands.specs.Trace.{after_turn_by};
ghost use Rattle.dp_commands.specs.declared.script.Turn.{Turn as turns};
ghost use Rattle.dp_wide_runs.specs.Turns.{wide_meanings};
ghost use Rattle.dp_wide_runs.specs.Verbose as verbose;

use dp_commands::{
    Block, Explanations, Turn, VerboseTaker, push_explanation, take_event, take_show,
};
use dp_machine::{Machine, NoMemory, Refusal};
use dp_wide::WideApps;
use std::alloc::Global;
use std::marker::Model;

/// How a run with facts takes the turns of a plain script that it is given.
pub(crate) trait Manner: Drop {
    // The manner after a turn that a world meets.
    ghost after: { Self → World → turns → Self };

    // The text above the line of a turn that a world meets.
    ghost above: { Self → World → turns → List ℕ };

    // The text above the line of a pass that is refused.
    ghost above_refusal: { refusals → List ℕ };

    // The lines after the last turn.
    ghost last: { Self → List ℕ };

    /// Gives the machine one turn, and adds its line to the waiting lines, with the text above it. It says whether the turn was refused. It
    /// fails only if memory runs out; then no line was added.
    fn give_turn(
        &mut self,
        alloc: Global,
        machine: &mut Machine<WideApps>,
        turn: &Turn,
        block: &mut Block,
    ) -> Result<bool, NoMemory>
        ensures lines { OnOk result (block.new.whole ≡ block.old.whole
            ++ (above self.old machine.old turn.now ++ (after_turn_by wide_meanings machine.old turn.now).line)) }
        ensures manner { OnOk result (self.new ≡ after self.old machine.old turn.now) }
        ensures world { OnOk result (machine.new ≡ (after_turn_by wide_meanings machine.old turn.now).world) }
        ensures refused { IfOk result (λ refused. refused ≡ (after_turn_by wide_meanings machine.old turn.now).refused) }
        ensures err { OnErr result (block.new.whole ≡ block.old.whole) };

    /// Adds the text above the line of a pass that is refused.
    fn push_above(block: &mut Block, refusal: Refusal) -> Result<(), NoMemory>
        ensures kept { block.new.whole ≡ block.old.whole }
        ensures ok { OnOk result (block.new.begun ≡ block.old.begun ++ above_refusal refusal) };

    /// Adds the lines after the last turn to the waiting lines. It fails only if memory runs out; then no line was added.
    fn push_last(&self, block: &mut Block) -> Result<(), NoMemory>
        ensures ok { OnOk result (block.new.whole ≡ block.old.whole ++ last self.now) }
        ensures err { OnErr result (block.new.whole ≡ block.old.whole) };
}

/// Turns that are taken without further lines. Contracts see nothing of it.
#[derive(Drop)]
pub(crate) struct PlainManner;

impl Model for PlainManner {
    ghost use Rattle.std.specs.Prelude.{⊤};

    ghost Value = { ⊤ };

    ghost view = { λ _. tt };
}

impl Manner for PlainManner {
    ghost after = { λ manner _ _. manner };

    ghost above = { λ _ _ _. [] };

    ghost above_refusal = { λ _. [] };

    ghost last = { λ _. [] };

    fn give_turn(
        &mut self,
        alloc: Global,
        machine: &mut Machine<WideApps>,
        turn: &Turn,
        block: &mut Block,
    ) -> Result<bool, NoMemory> {
        match turn {
            Turn::Event(event) => take_event(alloc, machine, event, block),
            Turn::Show { channel, name } => take_show(alloc, machine, *channel, name, block),
        }
    }

    fn push_above(_block: &mut Block, _refusal: Refusal) -> Result<(), NoMemory> {
        Ok(())
    }

    fn push_last(&self, _block: &mut Block) -> Result<(), NoMemory> {
        Ok(())
    }
}

impl<'a, E: Explanations> Manner for VerboseTaker<'a, E> {
    ghost after = { verbose.in_force_after };

    ghost above = { verbose.above_turn E.explanation_of };

    ghost above_refusal = { verbose.above_refusal E.explanation_of };

    ghost last = { λ _. [] };

    fn give_turn(
        &mut self,
        alloc: Global,
        machine: &mut Machine<WideApps>,
        turn: &Turn,
        block: &mut Block,
    ) -> Result<bool, NoMemory> {
        self.take_turn(alloc, machine, turn, block)
    }

    fn push_above(block: &mut Block, refusal: Refusal) -> Result<(), NoMemory>
        ensures kept { block.new.whole ≡ block.old.whole }
        ensures ok { OnOk result (block.new.begun ≡ block.old.begun ++ verbose.above_refusal E.explanation_of refusal) }
    {
        push_explanation::<E>(block, refusal)
    }

    fn push_last(&self, _block: &mut Block) -> Result<(), NoMemory> {
        Ok(())
    }
}
