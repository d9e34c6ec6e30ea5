//! The parts that belong to no single channel: the dialplan, and what all channels share.
ghost use Rattle.std.specs.Prelude.{◌≡◌, [], IfOk, OnErr, OnOk};
ghost use Rattle.dp_machine.specs.Reloading.{shared_with};
ghost use Rattle.dp_machine.specs.Seen.{globals_of, globals_set};
ghost use Rattle.dp_machine.specs.steps.Tables.{AreTables};
ghost use Rattle.dp_machine.specs.World as worlds;

use crate::directory::{Directory, Tables};
use crate::queues::NoQueues;
use crate::shared_state::{SharedState, set_globals};
use dp_app::AppTable;
use dp_conf::beside;
use dp_plan::{Dialplan, NoMemory};
use dp_queue::Queues;
use dp_vars::{Counts, Globals};
use std::alloc::Global;

/// The dialplan and what all channels share.
#[derive(Drop)]
pub(crate) struct Exchange {
    pub(crate) plan: Directory,
    pub(crate) shared: SharedState,
}

/// The parts made from a dialplan before the first phone call.
#[derive(Drop)]
struct Groundwork {
    globals: Globals,
    tables: Tables,
}

/// The parts that a dialplan makes over these globals.
fn make_over<T: AppTable, C: Counts>(
    alloc: Global,
    plan: &Dialplan,
    globals: Globals,
    counts: &C,
) -> Result<Groundwork, NoMemory>
    ensures globals { IfOk result (λ made. made.globals ≡ globals_set T.Functions.table (C.count counts.now) globals plan.now.globals) }
    ensures tables { IfOk result (λ made. AreTables plan.now made.tables) }
{
    let mut globals = globals;
    set_globals::<T::Functions, C>(alloc, &mut globals, counts, plan.globals())?;
    let tables = Tables::of::<T>(alloc, plan)?;
    Ok(Groundwork { globals, tables })
}

/// The globals of a dialplan before the first phone call.
#[tactic(auto, unfolding(crate::specs::Seen::globals_of))]
fn opening_globals<T: AppTable>(alloc: Global, plan: &Dialplan) -> Result<Globals, NoMemory>
    ensures { IfOk result (λ globals. globals ≡ globals_of T.Functions.table plan.now.globals) }
{
    let mut globals = Globals::new(alloc);
    set_globals::<T::Functions, NoQueues>(alloc, &mut globals, &NoQueues, plan.globals())?;
    Ok(globals)
}

/// The parts that another dialplan makes over the existing globals.
fn renew<T: AppTable>(
    alloc: Global,
    plan: &Dialplan,
    shared: &SharedState,
) -> Result<Groundwork, NoMemory>
    ensures globals { IfOk result (λ made. made.globals ≡ (shared_with T.Functions.table shared.now plan.now.globals).globals) }
    ensures tables { IfOk result (λ made. AreTables plan.now made.tables) }
{
    let globals = shared.globals.clone()?;
    make_over::<T, Queues>(alloc, plan, globals, &shared.queues)
}

impl Exchange {
    /// The exchange of a dialplan and its queues before the first phone call: the globals are expanded in the order of the file.
    #[tactic(auto, unfolding(crate::specs::Seen::globals_of))]
    pub(crate) fn of<T: AppTable>(
        alloc: Global,
        plan: Dialplan,
        queues: Queues,
    ) -> Result<Self, NoMemory>
        ensures { IfOk result (λ exchange. worlds.world_in exchange [] ≡ worlds.opening_with T.Functions.table plan queues) }
    {
        let made = make_over::<T, NoQueues>(alloc, &plan, Globals::new(alloc), &NoQueues);
        let (Groundwork { globals, tables }, (plan, queues)) = beside(made, (plan, queues))?;
        Ok(Exchange {
            plan: Directory::with(plan, tables),
            shared: SharedState { globals, queues },
        })
    }

    /// Puts back what all channels share as it is before the first phone call, with these queues. The dialplan stays, with its tables. If
    /// memory runs out nothing changes.
    pub(crate) fn restart<T: AppTable>(
        &mut self,
        alloc: Global,
        queues: Queues,
    ) -> Result<(), NoMemory>
        ensures ok { OnOk result (worlds.world_in self.new [] ≡ worlds.opening_with T.Functions.table self.old.plan queues) }
        ensures err { OnErr result (self.new ≡ self.old) }
    {
        let made = opening_globals::<T>(alloc, self.plan.plan());
        let (globals, queues) = beside(made, queues)?;
        self.shared = SharedState { globals, queues };
        Ok(())
    }

    /// Puts another dialplan in force, and sets its globals over the existing ones. If memory runs out nothing changes.
    pub(crate) fn replace<T: AppTable>(
        &mut self,
        alloc: Global,
        plan: Dialplan,
    ) -> Result<(), NoMemory>
        ensures plan { OnOk result (self.new.plan ≡ plan) }
        ensures shared { OnOk result (self.new.shared ≡ shared_with T.Functions.table self.old.shared plan.globals) }
        ensures err { OnErr result (self.new ≡ self.old) }
    {
        let made = renew::<T>(alloc, &plan, &self.shared);
        let (Groundwork { globals, tables }, plan) = beside(made, plan)?;
        self.plan.replace(plan, tables);
        self.shared.globals = globals;
        Ok(())
    }
}
