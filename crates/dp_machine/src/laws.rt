//! Laws of the machine about whole lists of events.
ghost use Rattle.std.specs.Prelude.{◌≡◌, ℕ, List, false};
ghost use Rattle.std.specs.List.{list_any};
ghost use Rattle.dp_app.specs.Rows.{with_functions};
ghost use Rattle.dp_machine.specs.Isolation.{AreSameBut, IsUnseen, replies_without, without};
ghost use Rattle.dp_machine.specs.Reloading.{is_reload};
ghost use Rattle.dp_machine.specs.Replay.{final_world, replies_to, world_after};
ghost use Rattle.dp_machine.specs.World.{World};
ghost use Rattle.dp_machine.specs.declared.event.Event.{Event};

use dp_app::AppTable;

/// A channel is unseen in a list of events if each of its events leaves the dialplan, the globals, the queues, the agents and the count of
/// finished calls unchanged in the world that it meets. Then the list without these events gives each other event the same reply, and ends
/// in the same world but for this channel. This holds in every world, including every good one, and over every table. This function does
/// nothing.
pub fn isolation<T: AppTable>()
    ensures replies { (world : World) (events : List Event) (channel : ℕ) → IsUnseen (with_functions T.rows T.Functions.table) channel world events
        → replies_to (with_functions T.rows T.Functions.table) world (without channel events)
        ≡ replies_without channel events (replies_to (with_functions T.rows T.Functions.table) world events) }
    ensures world { (world : World) (events : List Event) (channel : ℕ) → IsUnseen (with_functions T.rows T.Functions.table) channel world events
        → AreSameBut channel (world_after (with_functions T.rows T.Functions.table) world (without channel events)) (world_after (with_functions T.rows T.Functions.table) world events) }
{}

/// An event that is no reload leaves the dialplan in force as it is, and so does a list of such events. This holds in every world, and over
/// every table. This function does nothing.
#[tactic(auto, using(crate::proofs::PlanLemmas::plan_stays, crate::proofs::PlanLemmas::plan_stays_after))]
pub fn plan_stays<T: AppTable>()
    ensures event { (world : World) (event : Event) → is_reload event ≡ false
        → (final_world (with_functions T.rows T.Functions.table) world event).plan ≡ world.plan }
    ensures events { (world : World) (events : List Event) → list_any is_reload events ≡ false
        → (world_after (with_functions T.rows T.Functions.table) world events).plan ≡ world.plan }
{}
