//! The claim about phone calls that come in at a context, and whether it is seen to be right about every run.
ghost use Rattle.std.specs.Prelude.{ℕ, List, [], ◌∷◌, IfOk, IsTrue, map, option_map, true};
ghost use Rattle.std.specs.List.{AllByRecursion};
ghost use Rattle.dp_app.specs.Rows.{with_functions};
ghost use Rattle.dp_closed.specs.Answers.{answers_in, shown_outside};
ghost use Rattle.dp_closed.specs.Claimed.{AreWays, kept_claim};
ghost use Rattle.dp_closed.specs.Reach.{areas_in};
ghost use Rattle.dp_closed.specs.Steps.{AreFactsHeld, IsEntered};
ghost use Rattle.dp_pieces.specs.Tables.{names_in};
ghost use Rattle.dp_queue.specs.declared.settings.Settings.{Settings};
ghost use Rattle.dp_reach.specs.Areas.{Includes};
ghost use Rattle.dp_reach.specs.Audits.{IsAudit, IsGlobalWithin, RunsOnly, entrance};
ghost use Rattle.dp_reach.specs.Bounds.{obligations};

use crate::claim::KeptClaim;
use crate::claim_check::exact_pieces;
use crate::duty_table::DutyTable;
use crate::marks::Marks;
use crate::outside::KeptOutside;
use crate::reach::ReachShapes;
use dp_conf::NoMemory;
use dp_pieces::{NamesAt, Piece};
use dp_plan::{Dialplan, GlobalVariable};
use std::alloc::Global;

/// A claim about all calls, and about those that come in at the context: where their channels may be.
#[derive(Clone, Copy)]
pub struct Audit<'a> {
    pub wide: KeptClaim<'a>,
    pub reach: &'a ReachShapes,
    pub outside: &'a KeptOutside,
    pub context: &'a [u8],
}

/// Whether each extension that may come in at the context with this name is seen to be in the reach.
fn has_entrance(
    alloc: Global,
    reach: &ReachShapes,
    plan: &Dialplan,
    outside: &KeptOutside,
    name: &[u8],
) -> Result<bool, NoMemory>
    ensures { IfOk result (λ yes. IsTrue yes
        → Includes plan.now (areas_in plan.now.contexts reach.now.shapes.items) (entrance (shown_outside outside.now) name.now)) }
{
    let context = exact_pieces(alloc, name)?;
    reach.includes(alloc, plan, &context, &[Piece::AnyOf(outside.exten)])
}

impl Audit<'_> {
    /// Whether each call that comes in is seen to be in the reach of all calls.
    fn has_calls(self, alloc: Global) -> Result<bool, NoMemory>
        ensures { IfOk result (λ yes. IsTrue yes
            → AllByRecursion (λ name. Includes self.entry.wide.plan.now (areas_in self.entry.wide.plan.now.contexts self.entry.wide.reach.now.shapes.items)
            (entrance (shown_outside self.entry.outside.now) name)) (map (λ name. name.items) self.entry.outside.now.contexts.items)) }
    {
        for name in &self.outside.contexts {
            if !has_entrance(alloc, self.wide.reach, self.wide.plan, self.outside, name)? {
                return Ok(false);
            }
        }
        Ok(true)
    }

    /// Whether the name of a global may have the bytes of its value.
    fn has_global<T: DutyTable>(
        self,
        alloc: Global,
        global: &GlobalVariable,
    ) -> Result<bool, NoMemory>
        ensures { IfOk result (λ yes. IsTrue yes
            → IsGlobalWithin (obligations T.Functions.table T.duties) (names_in self.entry.wide.names.now) global.now) }
    {
        let names = NamesAt {
            table: self.wide.names,
            context: &[],
            exten: &[],
        };
        let set = T::expanded_bytes(alloc, &names, global.value.bytes())?;
        Ok(self.wide.names.has(global.name.bytes(), &set))
    }

    /// Whether the name of each global may have the bytes of its value.
    fn has_globals<T: DutyTable>(self, alloc: Global) -> Result<bool, NoMemory>
        ensures { IfOk result (λ yes. IsTrue yes
            → AllByRecursion (IsGlobalWithin (obligations T.Functions.table T.duties) (names_in self.entry.wide.names.now)) self.entry.wide.plan.now.globals) }
    {
        for global in self.wide.plan.globals() {
            if !self.has_global::<T>(alloc, global)? {
                return Ok(false);
            }
        }
        Ok(true)
    }

    /// Whether the names may have the numbers of callers, and they and the caller's number what is set from outside.
    fn has_facts(self) -> bool
        ensures { IsTrue result → AreFactsHeld (shown_outside self.entry.outside.now) (names_in self.entry.wide.names.now) }
    {
        if !self.outside.caller.is_part(self.wide.names.caller()) {
            return false;
        }
        if !self.outside.facts.is_part(self.wide.names.caller()) {
            return false;
        }
        self.wide.names.has_everywhere(&self.outside.facts)
    }

    /// Whether all calls, and those of the context, are seen to come in within their reach, with numbers, facts and globals that the names
    /// may have.
    fn is_entered<T: DutyTable>(self, alloc: Global) -> Result<bool, NoMemory>
        ensures { IfOk result (λ yes. IsTrue yes → IsEntered (obligations T.Functions.table T.duties) self.entry) }
    {
        if !self.has_calls(alloc)? {
            return Ok(false);
        }
        if !has_entrance(
            alloc,
            self.reach,
            self.wide.plan,
            self.outside,
            self.context,
        )? {
            return Ok(false);
        }
        if !self.has_facts() {
            return Ok(false);
        }
        self.has_globals::<T>(alloc)
    }

    /// Whether the audit is seen to be closed over the table, with the entries in the answer: the marked ones, or all without marks. Then a
    /// call that comes in at the context runs only these, in every run. It fails only if memory runs out.
    pub fn is_closed<T: DutyTable>(
        self,
        alloc: Global,
        answers: Option<&Marks>,
    ) -> Result<bool, NoMemory>
        ensures closed { IfOk result (λ yes. IsTrue yes → (settings : List Settings) → AreWays settings self.entry.wide.ways.now
            → IsAudit (obligations T.Functions.table T.duties) (shown_outside self.entry.outside.now) self.entry.context.now
            (kept_claim self.entry.wide settings) (λ id. true) (areas_in self.entry.wide.plan.now.contexts self.entry.reach.now.shapes.items) (answers_in (option_map (λ marks. marks.now) answers.entry))) }
        ensures runs { IfOk result (λ yes. IsTrue yes → (settings : List Settings) → AreWays settings self.entry.wide.ways.now
            → RunsOnly (with_functions T.rows T.Functions.table) (shown_outside self.entry.outside.now) self.entry.context.now
            self.entry.wide.plan.now settings (answers_in (option_map (λ marks. marks.now) answers.entry))) }
    {
        if !self.is_entered::<T>(alloc)? {
            return Ok(false);
        }
        if !self.wide.is_closed::<T>(alloc, None)? {
            return Ok(false);
        }
        let narrow = KeptClaim {
            plan: self.wide.plan,
            names: self.wide.names,
            reach: self.reach,
            ways: self.wide.ways,
        };
        narrow.is_closed::<T>(alloc, answers)
    }
}
