//! The claim about a dialplan, and whether a duty is met in it.
ghost use Rattle.std.specs.Prelude.{ℕ, List, [], ◌∷◌, IfOk, IsTrue};
ghost use Rattle.dp_closed.specs.Claimed.{AreWays, kept_claim};
ghost use Rattle.dp_closed.specs.Reach.{areas_in};
ghost use Rattle.dp_closed.specs.Shown.{shown_duties, shown_duty};
ghost use Rattle.dp_pieces.specs.Pieces.{OneOf};
ghost use Rattle.dp_pieces.specs.Shown.{shown_all};
ghost use Rattle.dp_machine.specs.Events.{is_digit};
ghost use Rattle.dp_queue.specs.declared.settings.Settings.{Settings};
ghost use Rattle.dp_reach.specs.Areas.{Includes, area_at};
ghost use Rattle.dp_reach.specs.Bounds.{Meets, MeetsAll};
ghost use Rattle.dp_reach.specs.Holding.{LeadsOut};

use crate::duty::KeptDuty;
use crate::reach::ReachShapes;
use crate::sets::digit_set;
use dp_conf::NoMemory;
use dp_pieces::{NameTable, Piece};
use dp_plan::Dialplan;
use std::alloc::Global;

/// A claim about a dialplan: the bytes that names may have, the extensions of each context where channels may be, and the contexts of the
/// queues' ways out, each as the pieces of its name.
#[derive(Clone, Copy)]
pub struct KeptClaim<'a> {
    pub plan: &'a Dialplan,
    pub names: &'a NameTable,
    pub reach: &'a ReachShapes,
    pub ways: &'a [Vec<Piece>],
}

impl KeptClaim<'_> {
    /// Whether each digit in the context of these pieces is seen to be in the reach.
    fn has_way(self, alloc: Global, context: &[Piece]) -> Result<bool, NoMemory>
        ensures { IfOk result (λ yes. IsTrue yes
            → Includes self.entry.plan.now (areas_in self.entry.plan.now.contexts self.entry.reach.now.shapes.items)
            (area_at (shown_all context.now) (OneOf is_digit ∷ []))) }
    {
        self.reach
            .includes(alloc, self.plan, context, &[Piece::OneOf(digit_set())])
    }

    /// Whether each digit is seen to lead out of each queue into the reach, and also in the context with the empty name, which is that of
    /// the ways out of a queue without a context.
    fn has_ways(self, alloc: Global) -> Result<bool, NoMemory>
        ensures { IfOk result (λ yes. IsTrue yes → (settings : List Settings) → AreWays settings self.entry.ways.now → (queue : ℕ)
            → LeadsOut (kept_claim self.entry settings) queue) }
    {
        if !self.has_way(alloc, &[])? {
            return Ok(false);
        }
        for way in self.ways {
            if !self.has_way(alloc, way)? {
                return Ok(false);
            }
        }
        Ok(true)
    }

    /// Whether the duty is seen to be met; if it is anything, it is not. It fails only if memory runs out.
    pub fn meets(self, alloc: Global, duty: &KeptDuty) -> Result<bool, NoMemory>
        ensures { IfOk result (λ yes. IsTrue yes → (settings : List Settings) → AreWays settings self.entry.ways.now
            → Meets (kept_claim self.entry settings) (shown_duty duty.now)) }
    {
        match duty {
            KeptDuty::Leads(area) => self
                .reach
                .includes(alloc, self.plan, &area.context, &area.exten),
            KeptDuty::Holds(name, set) => Ok(self.names.has(name, set)),
            KeptDuty::HoldsAll(set) => Ok(self.names.has_everywhere(set)),
            KeptDuty::Calls(set) => Ok(set.is_part(self.names.caller())),
            KeptDuty::Waits => self.has_ways(alloc),
            KeptDuty::Anything => Ok(false),
        }
    }

    /// Whether each of these duties is seen to be met. It fails only if memory runs out.
    pub fn meets_all(self, alloc: Global, duties: &[KeptDuty]) -> Result<bool, NoMemory>
        ensures { IfOk result (λ yes. IsTrue yes → (settings : List Settings) → AreWays settings self.entry.ways.now
            → MeetsAll (kept_claim self.entry settings) (shown_duties duties.now)) }
    {
        for duty in duties {
            if !self.meets(alloc, duty)? {
                return Ok(false);
            }
        }
        Ok(true)
    }
}
