//! How the turns of a script are taken.
ghost use Rattle.std.specs.Prelude.{◌≡◌, ℕ, Bool, ◌++◌, List, IfOk, OnOk, OnErr};
ghost use Rattle.dp_machine.specs.World.{World};
ghost use Rattle.dp_commands.specs.Turns.{Taken};

use crate::block::Block;
use dp_app::AppTable;
use dp_machine::Machine;
use dp_plan::NoMemory;
use std::alloc::Global;

/// How the turns of a script are taken, over the machine of a table of applications.
pub trait Taker: Drop {
    /// The table of the applications.
    type Table: AppTable;

    /// The turn that a line of the script gives.
    type Turn;

    // What a turn makes of the taker and of a world, its lines, and whether it is refused.
    ghost step: { Self × World → Self.Turn → Taken (Self × World) };

    // The lines after the last turn.
    ghost last: { Self → List ℕ };

    // The status of a run after its last turn, by whether a turn was refused.
    ghost status: { Self → Bool → ℕ };

    /// Takes one turn, and adds its lines to the waiting lines. It says whether the turn was refused. It fails only if memory runs out;
    /// then no line was added.
    fn take(
        &mut self,
        alloc: Global,
        machine: &mut Machine<Self::Table>,
        turn: &Self::Turn,
        block: &mut Block,
    ) -> Result<bool, NoMemory>
        ensures lines { OnOk result (block.new.whole
            ≡ block.old.whole ++ (step (self.old, machine.old) turn.now).lines) }
        ensures state { OnOk result ((self.new, machine.new) ≡ (step (self.old, machine.old) turn.now).state) }
        ensures refused { IfOk result (λ refused. refused ≡ (step (self.old, machine.old) turn.now).refused) }
        ensures err { OnErr result (block.new.whole ≡ block.old.whole) };

    /// Adds the lines after the last turn to the waiting lines. It fails only if memory runs out; then no line was added.
    fn finish(&self, block: &mut Block) -> Result<(), NoMemory>
        ensures ok { OnOk result (block.new.whole ≡ block.old.whole ++ last self.now) }
        ensures err { OnErr result (block.new.whole ≡ block.old.whole) };

    /// The status of a run after its last turn, given whether a turn was refused.
    fn status(&self, refused: bool) -> u8
        ensures { result ≡ status self.now refused };
}
