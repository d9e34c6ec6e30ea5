//! The applications of the wide table that are found by number.
ghost use Rattle.std.specs.Prelude.{◌≡◌, is_some};
ghost use Rattle.dp_app.specs.Rows.{has_row};
ghost use Rattle.dp_wide.specs.steps.PlacedApplications as spec;

use crate::deleting::{DbDel, DbDelTree};
use crate::macros::{Macro, MacroExit};
use crate::settings::{MSet, SetWide};
use crate::subroutines::{GosubIfWide, GosubWide};
use crate::time_choice::GotoIfTime;
use crate::tones::{Busy, Congestion};
use dp_app::{AppNumber, AppTable, NoApps, With};
use dp_flow::{
    Answer, Background, Dial, Goto, GotoIf, Hangup, NoOp, Playback, Return, StackPop, Verbose,
    Wait, WaitExten,
};
use dp_qapps::{AddQueueMember, PauseQueueMember, QueueApp, RemoveQueueMember, UnpauseQueueMember};

/// The applications that add, remove and pause the members of queues.
type PlacedMembership = With<
    AddQueueMember,
    With<RemoveQueueMember, With<PauseQueueMember, With<UnpauseQueueMember, NoApps>>>,
>;

/// Those, and the applications that wait.
type PlacedWaiting = With<
    Wait,
    With<WaitExten, With<Background, With<Dial, With<QueueApp, PlacedMembership>>>>,
>;

/// Those, and the applications that end the call, or that play or print nothing here.
type PlacedSilent = With<
    Answer,
    With<Hangup, With<Verbose, With<Playback, With<Busy, With<Congestion, PlacedWaiting>>>>>,
>;

/// Those, and the applications that enter and leave subroutines and macros.
type PlacedCalling = With<
    GosubWide,
    With<GosubIfWide, With<Return, With<StackPop, With<Macro, With<MacroExit, PlacedSilent>>>>>,
>;

/// Those, and the applications that delete from the database.
type Deleting = With<DbDel, With<DbDelTree, PlacedCalling>>;

/// The applications of the wide table, each at its place, without `ExecIf`, those that only go on and those that run outside. The
/// applications that most lines of a dialplan name come first, because names are compared in this order.
pub(crate) type Placed = With<
    NoOp,
    With<Goto, With<SetWide, With<GotoIf, With<MSet, With<GotoIfTime, Deleting>>>>>,
>;

/// The number of all applications that only go on. It is greater than the number of each place.
pub(crate) const GOES_ON: AppNumber = AppNumber { place: 1000 };

/// The number of all applications that run outside.
pub(crate) const OUTSIDE: AppNumber = AppNumber { place: 1001 };

/// The number of `ExecIf`, whose name is the first of the table.
pub(crate) const BY_NAME: AppNumber = AppNumber { place: 1002 };

/// The number of a placed application.
#[tactic(auto, unfolding(crate::specs::steps::PlacedApplications::placed_applications))]
pub(crate) fn placed_number(name: &[u8]) -> Option<AppNumber>
    ensures { is_some result ≡ has_row (spec.rows_of spec.placed_applications) name.now }
{
    Placed::number_of(name)
}
