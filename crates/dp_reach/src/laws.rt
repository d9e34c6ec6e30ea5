//! Laws over the definitions of this crate.
ghost use Rattle.std.specs.Prelude.{◌≡◌, ℕ, ◌≤◌, Bool, List, Some, length};
ghost use Rattle.dp_app.specs.Rows.{with_functions};
ghost use Rattle.dp_app.specs.declared.place.Place.{Place};
ghost use Rattle.dp_machine.specs.Found.{Located, entry_found};
ghost use Rattle.dp_machine.specs.World.{World};
ghost use Rattle.dp_machine.specs.declared.event.Event.{Event};
ghost use Rattle.dp_plan.specs.Plan.{PlanOf};
ghost use Rattle.dp_plan.specs.declared.entry.EntryId.{EntryId};
ghost use Rattle.dp_table.specs.Standard.{standard_rows};
ghost use Rattle.dp_reach.specs.Areas.{Area, IsIn, area_matched};
ghost use Rattle.dp_reach.specs.Audits.{IsAudit, Outside, RunsOnly};
ghost use Rattle.dp_reach.specs.Bounds.{AreBounded, Duties, obligations};
ghost use Rattle.dp_reach.specs.Closed.{IsClosed};
ghost use Rattle.dp_reach.specs.Finding.{MayFind};
ghost use Rattle.dp_reach.specs.Holding.{Claim};
ghost use Rattle.dp_reach.specs.Runs.{AreAllowed, IsNumberIn, IsWorldIn, RunsWithin, with_reach};
ghost use Rattle.dp_reach.specs.Standard.{standard_duties};

use dp_app::AppTable;

/// In a world in which each channel is in a closed reach and calls come in within that reach only, a channel that is in a smaller closed
/// reach runs only the entries in the answer for that reach, in any list of events without another dialplan. This holds over every table
/// whose rows keep the laws and stay inside if their duties are met, with the table's own functions. This function does nothing.
pub fn runs<T: AppTable>()
    ensures { (duties : List ℕ → Duties) (wide : Claim) (others : EntryId → Bool) (reach : List Area) (answers : EntryId → Bool)
        (world : World) (events : List Event) (channel : ℕ)
        → AreBounded duties T.rows → IsClosed (obligations T.Functions.table duties) wide others
        → IsClosed (obligations T.Functions.table duties) (with_reach wide reach) answers
        → IsWorldIn wide world → IsNumberIn (with_reach wide reach) world channel → channel ≤ length world.channels
        → AreAllowed T.Functions.table wide events → RunsWithin (with_functions T.rows T.Functions.table) answers channel world events }
{}

/// Each row of this program's table stays inside if its duties are met. This function does nothing.
pub fn standard()
    ensures { AreBounded standard_duties standard_rows }
{}

/// An entry that is found at a place of an area may be found from the area, and what is known of its match is true of the place. This
/// function does nothing.
pub fn finding()
    ensures found { (plan : PlanOf) (area : Area) (place : Place) (found : Located) → IsIn area place → entry_found plan place ≡ Some found
        → MayFind plan area found.id found.entry }
    ensures matched { (plan : PlanOf) (area : Area) (place : Place) (found : Located) → IsIn area place → entry_found plan place ≡ Some found
        → IsIn (area_matched area found.entry.name) place }
{}

/// A closed audit is right about every run from the start: a call that comes in at the context runs only the entries in the answer. This
/// function does nothing.
pub fn audit<T: AppTable>()
    ensures { (duties : List ℕ → Duties) (outside : Outside) (context : List ℕ) (claim : Claim) (others : EntryId → Bool) (reach : List Area)
        (answers : EntryId → Bool) → AreBounded duties T.rows
        → IsAudit (obligations T.Functions.table duties) outside context claim others reach answers
        → RunsOnly (with_functions T.rows T.Functions.table) outside context claim.plan claim.settings answers }
{}
