//! The table of the applications that this program has, after the Asterisk documentation's application reference.
ghost use Rattle.std.specs.Prelude.{◌≡◌};

use dp_app::{AppList, AppNumber, AppTable, Cell, KnownTable, Move, NoApps, With};
use dp_conf::NoMemory;
use dp_flow::{
    Answer, Background, Dial, Gosub, GosubIf, Goto, GotoIf, Hangup, NoOp, Playback, Return, Set,
    StackPop, Verbose, Wait, WaitExten,
};
use dp_qapps::{AddQueueMember, PauseQueueMember, QueueApp, RemoveQueueMember, UnpauseQueueMember};
use dp_vars::{Counts, Scope, StandardFunctions};
use std::alloc::Global;

/// The applications that add, remove and pause the members of queues.
type Membership = With<
    AddQueueMember,
    With<RemoveQueueMember, With<PauseQueueMember, With<UnpauseQueueMember, NoApps>>>,
>;

/// Those and the ones that wait.
type Waiting = With<
    Wait,
    With<WaitExten, With<Background, With<Dial, With<QueueApp, Membership>>>>,
>;

/// Those and the ones that answer and end the call, and that play or print nothing here.
type Silent = With<Answer, With<Hangup, With<Verbose, With<Playback, Waiting>>>>;

/// Those and the ones that enter and leave subroutines.
type Calling = With<Gosub, With<GosubIf, With<Return, With<StackPop, Silent>>>>;

/// Those and the ones that most lines of a dialplan name. They come first, since names are compared in this order.
type Everyday = With<NoOp, With<Goto, With<Set, With<GotoIf, Calling>>>>;

/// The applications that this program has. A name that is not among them ends the call that reaches it.
pub struct StandardApps;

impl AppTable for StandardApps {
    ghost use Rattle.dp_table.specs.Standard.{standard_blind, standard_lawful, standard_rows, standard_touches};

    ghost rows = { standard_rows };

    ghost touches = { standard_touches };

    ghost lawful = { standard_lawful };

    ghost blind = { standard_blind };

    type Functions = StandardFunctions;

    #[tactic(auto, unfolding(crate::specs::Standard::standard_table))]
    fn number_of(name: &[u8]) -> Option<AppNumber> {
        Everyday::number_of(name)
    }

    #[tactic(auto, unfolding(crate::specs::Standard::standard_table))]
    fn dispatch(
        alloc: Global,
        name: &[u8],
        arguments: &[u8],
        cell: &mut Cell,
    ) -> Result<Option<Move>, NoMemory> {
        Everyday::dispatch(alloc, name, arguments, cell)
    }

    #[inline(always)]
    fn run_by_number(
        alloc: Global,
        number: AppNumber,
        name: &[u8],
        arguments: &[u8],
        cell: &mut Cell,
    ) -> Result<Option<Move>, NoMemory> {
        match Everyday::run_at(alloc, number.place, name, arguments, cell)? {
            Some(going) => Ok(Some(going)),
            None => Self::dispatch(alloc, name, arguments, cell),
        }
    }
}

impl KnownTable for StandardApps {
    ghost use Rattle.dp_app.specs.Knowledge.{all_look, asks_nothing};
    ghost use Rattle.dp_table.specs.Standard.{standard_rows};

    ghost knowledge = { asks_nothing };

    ghost overlooks = { all_look standard_rows };

    fn looks_at_arguments(_name: &[u8]) -> bool {
        true
    }

    fn unknown_need<B, C: Counts>(
        alloc: Global,
        _scope: &Scope<'_, B, C>,
        _name: &[u8],
        _arguments: &[u8],
    ) -> Result<Vec<u8>, NoMemory> {
        Ok(Vec::new(alloc))
    }
}
