//! Putting another dialplan in force, after the Asterisk documentation's pages on reloading the dialplan.
ghost use Rattle.std.specs.Prelude.{◌≡◌, IfOk, List};
ghost use Rattle.dp_plan.specs.Loaded.{plan_and_notes};
ghost use Rattle.dp_machine.specs.steps.Follows.{Makes};
ghost use Rattle.dp_machine.specs.Reloading as spec;
ghost use Rattle.dp_machine.specs.World as worlds;
ghost use Rattle.dp_machine.specs.declared.channel.Channel.{Channel};

use crate::exchange::Exchange;
use crate::refusal::Refusal;
use crate::reply::Reply;
use dp_app::AppTable;
use dp_plan::{Dialplan, LoadFault, NoMemory};
use std::alloc::Global;

/// The dialplan that a text holds, or None if the text has a fault.
fn load(alloc: Global, text: &[u8]) -> Result<Option<Dialplan>, NoMemory>
    ensures { IfOk result (λ plan. plan ≡ spec.plan_in (plan_and_notes text.now)) }
{
    match Dialplan::load(alloc, text) {
        Ok((plan, _)) => Ok(Some(plan)),
        Err(LoadFault::NoMemory) => Err(NoMemory),
        Err(_) => Ok(None),
    }
}

/// Puts the dialplan of this text in force, and sets its globals. Everything is made before anything is replaced.
pub(crate) fn reload<T: AppTable>(
    alloc: Global,
    exchange: &mut Exchange,
    text: &[u8],
) -> Result<Reply, NoMemory>
    ensures { (channels : List Channel) → Makes (spec.after_reload T.Functions.table (worlds.world_in exchange.old channels) text.now)
        (worlds.world_in exchange.old channels) (worlds.world_in exchange.new channels) result }
{
    match load(alloc, text)? {
        Some(plan) => {
            exchange.replace::<T>(alloc, plan)?;
            Ok(Reply::Done)
        }
        None => Ok(Reply::Refused(Refusal::BadPlan)),
    }
}
