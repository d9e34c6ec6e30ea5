//! The terms of a question: what may come in from outside, and where queues let a call out.
ghost use Rattle.std.specs.Prelude.{◌≡◌, IfOk, map};
ghost use Rattle.dp_app.specs.Rows.{with_functions};
ghost use Rattle.dp_answer.specs.Asks.{ask_of};
ghost use Rattle.dp_answer.specs.Steps.{AreTermsIfAny, IsFoundBy};

use crate::answer::{OutsideQuestion, answer};
use crate::ask::Ask;
use crate::ask_parts::{is_lacking, outside_of};
use crate::trails::Found;
use crate::ways::ways_of;
use dp_closed::{DutyTable, KeptOutside};
use dp_conf::NoMemory;
use dp_pieces::Piece;
use dp_plan::Dialplan;
use dp_queue::Queues;
use std::alloc::Global;

/// Everything that may come in, and the contexts of the queues' ways out, each as the pieces of its name.
#[derive(Drop)]
pub(crate) struct Terms {
    pub(crate) outside: KeptOutside,
    pub(crate) ways: Vec<Vec<Piece>>,
}

impl Terms {
    /// The terms of the question, or `None` if the dialplan lacks a context that is named.
    pub(crate) fn of(
        alloc: Global,
        plan: &Dialplan,
        queues: &Queues,
        ask: &Ask<'_>,
    ) -> Result<Option<Self>, NoMemory>
        ensures { IfOk result (λ terms. AreTermsIfAny plan.now (map (λ queue. queue.settings) queues.now.queues) (ask_of ask.now) terms) }
    {
        let outside = outside_of(alloc, plan, ask)?;
        if is_lacking(alloc, plan, ask, &outside.contexts)? {
            return Ok(None);
        }
        let ways = ways_of(alloc, queues)?;
        Ok(Some(Terms { outside, ways }))
    }

    /// Which entries a call that comes in at the context may run.
    pub(crate) fn find<'a, T: DutyTable>(
        &'a self,
        alloc: Global,
        plan: &'a Dialplan,
        context: &'a [u8],
    ) -> Result<Found<'a>, NoMemory>
        ensures { IfOk result (λ found. IsFoundBy (with_functions T.rows T.Functions.table) self.now plan.now context.now found) }
    {
        let question = OutsideQuestion {
            plan,
            ways: &self.ways,
            outside: &self.outside,
            context,
        };
        let found = answer::<T>(alloc, question)?;
        Ok(found)
    }
}
