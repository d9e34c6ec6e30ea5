//! How the turns of a script are taken to see what they meet.
ghost use Rattle.std.specs.Prelude.{◌≡◌, IfOk};
ghost use Rattle.dp_unmodelled.specs.Meeting as spec;

use crate::lines::Reported;
use crate::model_table::ModelledApps;
use dp_commands::{Block, Taker, Turn};
use dp_machine::{Event, Machine, NoMemory, Unknown};
use std::alloc::Global;

/// What an event meets that is not modelled.
fn met_by(
    alloc: Global,
    machine: &mut Machine<ModelledApps>,
    event: &Event,
) -> Result<Option<Unknown>, NoMemory>
    ensures met { IfOk result (λ met. met ≡ spec.met_by machine.old event.now) }
    ensures same { machine.new ≡ machine.old }
{
    let Event::Step { channel } = event else {
        return Ok(None);
    };
    machine.unknown_ahead(alloc, *channel)
}

/// A run that reports each name that it meets and that is not modelled, and writes nothing else. Contracts see it as the names.
impl Taker for Reported {
    ghost use Rattle.std.specs.Prelude.{[]};
    ghost use Rattle.dp_unmodelled.specs.Meeting.{meeting_turn};

    type Table = ModelledApps;

    type Turn = Turn;

    ghost step = { meeting_turn };

    ghost last = { λ names. [] };

    ghost status = { λ names refused. 0 };

    fn take(
        &mut self,
        alloc: Global,
        machine: &mut Machine<ModelledApps>,
        turn: &Turn,
        block: &mut Block,
    ) -> Result<bool, NoMemory> {
        match turn {
            Turn::Event(event) => {
                let met = met_by(alloc, machine, event)?;
                machine.apply_kept(alloc, event)?;
                self.report_met(alloc, met, block)?;
                Ok(false)
            }
            Turn::Show { .. } => Ok(false),
        }
    }

    fn finish(&self, _block: &mut Block) -> Result<(), NoMemory> {
        Ok(())
    }

    fn status(&self, _refused: bool) -> u8 {
        0
    }
}
