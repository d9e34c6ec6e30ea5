//! The wide table of applications, after the Asterisk documentation's application reference.
ghost use Rattle.std.specs.Prelude.{◌≡◌, IfOk, OnErr, Some, is_some};
ghost use Rattle.std.specs.Option.{option_map};
ghost use Rattle.dp_app.specs.Cells.{KeepsLoans, cell_now};
ghost use Rattle.dp_app.specs.Lawful.{MayRun};
ghost use Rattle.dp_app.specs.Rows.{after_dispatch, has_row};
ghost use Rattle.dp_conf.specs.Words.{same_word};
ghost use Rattle.dp_vars.specs.Sights.{sight_of};
ghost use Rattle.dp_wide.specs.Choices.{exec_if_title};
ghost use Rattle.dp_wide.specs.Wide as spec;
ghost use Rattle.dp_wide.specs.steps.Plain as kinds;

use crate::deleting::{DbDel, DbDelTree};
use crate::exec_if::{dispatch_with_exec_if, exec_if_application};
use crate::functions::WideFunctions;
use crate::going::{WithGoing, goes_on};
use crate::macros::{Macro, MacroExit};
use crate::names::is_word_of;
use crate::outside::{WithOutside, is_outside};
use crate::placed_applications::{BY_NAME, GOES_ON, OUTSIDE, Placed, placed_number};
use crate::requests::inner_asked;
use crate::settings::{MSet, SetWide};
use crate::subroutines::{GosubIfWide, GosubWide};
use crate::time_choice::GotoIfTime;
use crate::tones::{Busy, Congestion};
use dp_app::{AppList, AppNumber, AppTable, Cell, KnownTable, Move, NoApps, With};
use dp_conf::{NoMemory, same_word};
use dp_flow::{Answer, Hangup, NoOp, Verbose};
use dp_table::StandardApps;
use dp_vars::{Counts, Scope};
use std::alloc::Global;

/// The applications that only go on, those that run outside, and the twenty-one of this program.
type ListedApps = WithGoing<WithOutside<StandardApps>>;

/// Those, and the applications that enter and leave subroutines and macros, or delete what is kept.
type ListedCalling = With<
    GosubWide,
    With<GosubIfWide, With<Macro, With<MacroExit, With<DbDel, With<DbDelTree, ListedApps>>>>>,
>;

/// Those, and the applications that set names, or jump by the clock.
type ListedOwn = With<SetWide, With<MSet, With<GotoIfTime, ListedCalling>>>;

/// Those, and the applications that do not look at their arguments: all but `ExecIf`.
type Inner = With<
    NoOp,
    With<Verbose, With<Answer, With<Hangup, With<Busy, With<Congestion, ListedOwn>>>>>,
>;

/// The applications that do not look at their arguments, besides those that only go on or run outside.
const QUIET: [&[u8]; 6] = [
    b"NoOp",
    b"Verbose",
    b"Answer",
    b"Hangup",
    b"Busy",
    b"Congestion",
];

/// The table's own applications that look at their arguments.
const OWN: [&[u8]; 9] = [
    b"Set",
    b"MSet",
    b"GotoIfTime",
    b"Gosub",
    b"GosubIf",
    b"Macro",
    b"MacroExit",
    b"DBdel",
    b"DBdeltree",
];

/// Whether an application other than `ExecIf` looks at its arguments.
#[tactic(auto, unfolding(crate::specs::Wide::inner_looks))]
fn inner_looks(name: &[u8]) -> bool
    ensures { result ≡ spec.inner_looks name.now }
{
    if is_word_of(&QUIET, name) {
        return false;
    }
    if is_word_of(&OWN, name) {
        return true;
    }
    ListedApps::looks_at_arguments(name)
}

/// Applications of the table that look at their arguments, and never ask for anything.
const PLAIN: [&[u8]; 19] = [
    b"Goto",
    b"GotoIf",
    b"Gosub",
    b"GosubIf",
    b"Return",
    b"Playback",
    b"Background",
    b"Wait",
    b"WaitExten",
    b"Queue",
    b"Macro",
    b"MacroExit",
    b"DBdel",
    b"DBdeltree",
    b"StackPop",
    b"AddQueueMember",
    b"RemoveQueueMember",
    b"PauseQueueMember",
    b"UnpauseQueueMember",
];

/// Whether an application is one of these. The names that most lines of a dialplan have come first.
#[tactic(auto, unfolding(crate::specs::steps::Plain::plain_names))]
fn is_plain(name: &[u8]) -> bool
    ensures { result ≡ kinds.is_plain name.now }
{
    is_word_of(&PLAIN, name)
}

/// Whether an application is `ExecIf`.
fn is_exec_if(name: &[u8]) -> bool
    ensures { result ≡ same_word name.now exec_if_title }
{
    same_word(name, b"ExecIf")
}

/// The application that finally runs, with its arguments, if an `ExecIf` may run another.
fn call_in_the_end<'a>(name: &'a [u8], arguments: &'a [u8]) -> Option<(&'a [u8], &'a [u8])>
    ensures { option_map (λ call. (call.0.now, call.1.now)) result ≡ spec.call_in_the_end 8 name.now arguments.now }
{
    let mut name = name;
    let mut arguments = arguments;
    let mut left: u32 = 8;
    while left > 0 && is_exec_if(name) {
        match exec_if_application(arguments) {
            None => return None,
            Some(call) => {
                name = call.0;
                arguments = call.1;
            }
        }
        left -= 1;
    }
    if is_exec_if(name) {
        return None;
    }
    Some((name, arguments))
}

/// The number of an application that is not among the placed ones, and is no `ExecIf`. It is found by name in lists.
#[tactic(auto, using(crate::proofs::PlacedLemmas::going_has, crate::proofs::PlacedLemmas::outside_has), unfolding(crate::specs::Wide::inner_table))]
fn number_by_lists(name: &[u8]) -> Option<AppNumber>
    ensures { is_some result ≡ has_row spec.inner_table.rows name.now }
{
    if goes_on(name) {
        return Some(GOES_ON);
    }
    if is_outside(name) {
        return Some(OUTSIDE);
    }
    Inner::number_of(name)
}

/// The wide table without `ExecIf`.
struct InnerApps;

impl AppTable for InnerApps {
    ghost use Rattle.dp_wide.specs.Wide.{inner_table};

    ghost rows = { inner_table.rows };

    ghost touches = { inner_table.touches };

    ghost lawful = { inner_table.lawful };

    ghost blind = { inner_table.blind };

    type Functions = WideFunctions;

    #[tactic(auto, using(crate::proofs::PlacedLemmas::placed_has_inner))]
    fn number_of(name: &[u8]) -> Option<AppNumber> {
        match placed_number(name) {
            Some(number) => Some(number),
            None => number_by_lists(name),
        }
    }

    #[tactic(auto, unfolding(crate::specs::Wide::inner_table))]
    fn dispatch(
        alloc: Global,
        name: &[u8],
        arguments: &[u8],
        cell: &mut Cell,
    ) -> Result<Option<Move>, NoMemory> {
        match Placed::dispatch(alloc, name, arguments, cell)? {
            Some(going) => Ok(Some(going)),
            None => Inner::dispatch(alloc, name, arguments, cell),
        }
    }
}

/// What the application that finally runs, which is no `ExecIf`, asks for: itself if the table lacks it.
fn call_asked<B, C: Counts>(
    alloc: Global,
    scope: &Scope<'_, B, C>,
    name: &[u8],
    arguments: &[u8],
) -> Result<Vec<u8>, NoMemory>
    ensures { IfOk result (λ text. text.items ≡ spec.call_asked (sight_of C.count scope.now) (Some (name.now, arguments.now))) }
{
    if InnerApps::number_of(name).is_none() {
        return Vec::from_slice(alloc, name);
    }
    if !inner_looks(name) {
        return Ok(Vec::new(alloc));
    }
    inner_asked(alloc, scope, name, arguments)
}

/// The wide table: the applications that people use. Those of this program's twenty-one that it does not have in another form are
/// unchanged.
///
/// Nothing is known of an application that it lacks, and neither of the results of a time zone in `GotoIfTime`, of the clock while the
/// global `CLOCK` is unset, and of setting `HASH`, `PUSH`, `UNSHIFT` and `CHANNEL(hangup_handler_push)`.
pub struct WideApps;

impl AppTable for WideApps {
    ghost use Rattle.dp_wide.specs.Wide.{wide_blind, wide_lawful, wide_rows, wide_touches};

    ghost rows = { wide_rows };

    ghost touches = { wide_touches };

    ghost lawful = { wide_lawful };

    ghost blind = { wide_blind };

    type Functions = WideFunctions;

    #[tactic(auto, using(crate::proofs::PlacedLemmas::placed_has), unfolding(crate::specs::Wide::wide_table))]
    fn number_of(name: &[u8]) -> Option<AppNumber> {
        if let Some(number) = placed_number(name) {
            return Some(number);
        }
        if is_exec_if(name) {
            return Some(BY_NAME);
        }
        number_by_lists(name)
    }

    #[tactic(auto, unfolding(crate::specs::Wide::wide_table))]
    fn dispatch(
        alloc: Global,
        name: &[u8],
        arguments: &[u8],
        cell: &mut Cell,
    ) -> Result<Option<Move>, NoMemory> {
        dispatch_with_exec_if::<InnerApps>(alloc, name, arguments, cell)
    }

    #[inline(always)]
    fn run_by_number(
        alloc: Global,
        number: AppNumber,
        name: &[u8],
        arguments: &[u8],
        cell: &mut Cell,
    ) -> Result<Option<Move>, NoMemory> {
        match Placed::run_at(alloc, number.place, name, arguments, cell)? {
            Some(going) => Ok(Some(going)),
            None => run_from_lists(alloc, number, name, arguments, cell),
        }
    }
}

/// Runs an application that runs outside, if it has this name, else does as the table does.
fn run_outside(
    alloc: Global,
    name: &[u8],
    arguments: &[u8],
    cell: &mut Cell,
) -> Result<Option<Move>, NoMemory>
    requires { MayRun (cell_now cell.old) }
    ensures ok { IfOk result (λ going. after_dispatch (spec.wide_rows name.now) arguments.now (cell_now cell.old)
        ≡ (cell_now cell.new, going)) }
    ensures err { OnErr result (cell_now cell.new ≡ cell_now cell.old) }
    ensures loans { KeepsLoans cell.old cell.new }
{
    match WithOutside::<NoApps>::dispatch(alloc, name, arguments, cell)? {
        Some(going) => Ok(Some(going)),
        None => WideApps::dispatch(alloc, name, arguments, cell),
    }
}

/// Runs an application that is not among the placed ones: the number says which list has its name.
#[tactic(auto, using(crate::proofs::PlacedLemmas::going_row))]
fn run_from_lists(
    alloc: Global,
    number: AppNumber,
    name: &[u8],
    arguments: &[u8],
    cell: &mut Cell,
) -> Result<Option<Move>, NoMemory>
    requires { MayRun (cell_now cell.old) }
    ensures ok { IfOk result (λ going. after_dispatch (spec.wide_rows name.now) arguments.now (cell_now cell.old)
        ≡ (cell_now cell.new, going)) }
    ensures err { OnErr result (cell_now cell.new ≡ cell_now cell.old) }
    ensures loans { KeepsLoans cell.old cell.new }
{
    if number == GOES_ON && goes_on(name) {
        return Ok(Some(Move::Next));
    }
    if number == OUTSIDE {
        return run_outside(alloc, name, arguments, cell);
    }
    WideApps::dispatch(alloc, name, arguments, cell)
}

impl KnownTable for WideApps {
    ghost use Rattle.dp_wide.specs.Wide.{wide_knowledge};
    ghost use Rattle.dp_wide.specs.laws.WideOverlooks.{wide_overlooks};

    ghost knowledge = { wide_knowledge };

    ghost overlooks = { wide_overlooks };

    // The everyday names come first: `NoOp` is the first word of the first list, and `Goto` that of the second.
    #[tactic(auto, using(crate::proofs::KindsLemmas::quiet_looks, crate::proofs::KindsLemmas::plain_looks))]
    fn looks_at_arguments(name: &[u8]) -> bool {
        if is_word_of(&QUIET, name) {
            return false;
        }
        is_plain(name) || is_exec_if(name) || inner_looks(name)
    }

    #[tactic(auto, unfolding(crate::specs::Wide::wide_asks))]
    fn unknown_need<B, C: Counts>(
        alloc: Global,
        scope: &Scope<'_, B, C>,
        name: &[u8],
        arguments: &[u8],
    ) -> Result<Vec<u8>, NoMemory> {
        if is_plain(name) {
            return Ok(Vec::new(alloc));
        }
        match call_in_the_end(name, arguments) {
            None => Ok(Vec::new(alloc)),
            Some((name, arguments)) => call_asked(alloc, scope, name, arguments),
        }
    }
}
