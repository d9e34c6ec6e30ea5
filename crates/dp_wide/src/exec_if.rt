//! The application that runs another one, after the Asterisk documentation's page on `ExecIf`.
ghost use Rattle.std.specs.Prelude.{◌≡◌, IfOk, OnErr, unwrap_or};
ghost use Rattle.std.specs.Option.{option_map};
ghost use Rattle.dp_app.specs.Cells.{KeepsLoans, cell_now};
ghost use Rattle.dp_app.specs.Lawful.{MayRun};
ghost use Rattle.dp_app.specs.Rows.{after_dispatch};
ghost use Rattle.dp_conf.specs.Cut.{before_last};
ghost use Rattle.dp_conf.specs.Levels.{cut_outside};
ghost use Rattle.dp_wide.specs.Choices as spec;
ghost use Rattle.dp_wide.specs.Sides as sides;

use dp_app::{AppTable, Application, Cell, Move, Touch, With};
use dp_conf::{NoMemory, before_last, cut_once, cut_outside, trim};
use dp_flow::{holds, taken_side};
use std::alloc::Global;
use std::marker::PhantomData;

/// The text before its last `)`, or all of it if there is none.
fn before_closing(text: &[u8]) -> &[u8]
    ensures { result.now ≡ unwrap_or (before_last 41 text.now) text.now }
{
    match before_last(text, b')') {
        None => text,
        Some(front) => front,
    }
}

/// The application that a side names, with its arguments.
fn called_side(side: &[u8]) -> (&[u8], &[u8])
    ensures { (result.0.now, result.1.now) ≡ sides.called_side side.now }
{
    let text = trim(side);
    match cut_once(text, b'(') {
        None => (text, b""),
        Some((name, after)) => (trim(name), before_closing(after)),
    }
}

/// An application with its name and arguments, unless the name is empty.
fn named_call<'a>(name: &'a [u8], arguments: &'a [u8]) -> Option<(&'a [u8], &'a [u8])>
    ensures { option_map (λ call. (call.0.now, call.1.now)) result ≡ spec.named_call name.now arguments.now }
{
    if name.is_empty() {
        return None;
    }
    Some((name, arguments))
}

/// The application that `NAME,ARGUMENTS` names.
fn called_part(text: &[u8]) -> Option<(&[u8], &[u8])>
    ensures { option_map (λ call. (call.0.now, call.1.now)) result ≡ spec.called_part text.now (cut_outside 44 text.now) }
{
    match cut_outside(text, b',') {
        None => named_call(trim(text), b""),
        Some((name, arguments)) => named_call(trim(name), arguments),
    }
}

/// The application that the old form runs.
fn called_old(arguments: &[u8]) -> Option<(&[u8], &[u8])>
    ensures { option_map (λ call. (call.0.now, call.1.now)) result ≡ spec.called_old (cut_outside 44 arguments.now) }
{
    let (condition, rest) = cut_outside(arguments, b',')?;
    if !holds(condition) {
        return None;
    }
    called_part(rest)
}

/// The name and the arguments of the application that an `ExecIf` with these expanded arguments runs, or None if it runs none.
///
/// In `CONDITION?[SIDE][:SIDE]` the condition ends at the first `?`, and the sides are separated like those of `GotoIf`. A side is `NAME`
/// or `NAME(ARGUMENTS)`; the arguments end at its last `)`. Without a `)` they go to the end of the side. A side that is missing, or of
/// blanks alone, runs nothing (choices of this program).
///
/// If a comma outside parentheses comes before the first `?`, or there is no `?`, it is the old form `CONDITION,NAME[,ARGUMENTS]`. Its
/// arguments are everything after the second comma outside parentheses, unchanged.
#[tactic(auto, unfolding(crate::specs::Choices::exec_if_application, dp_flow::specs::Conditions::chosen_side))]
pub fn exec_if_application(arguments: &[u8]) -> Option<(&[u8], &[u8])>
    ensures { option_map (λ call. (call.0.now, call.1.now)) result ≡ spec.exec_if_application arguments.now }
{
    let Some((condition, sides)) = cut_once(arguments, b'?') else {
        return called_old(arguments);
    };
    if cut_outside(condition, b',').is_some() {
        return called_old(arguments);
    }
    match taken_side(holds(condition), sides) {
        None => None,
        Some(side) => Some(called_side(side)),
    }
}

/// An application that a side of an `ExecIf` names, with its arguments.
#[derive(Clone, Copy, Debug)]
pub struct SideCall<'a> {
    /// The name of the application, without blanks at its ends.
    pub name: &'a [u8],
    /// Its arguments, as they are written.
    pub arguments: &'a [u8],
}

/// The applications that an `ExecIf` may run: that of its first side, and that of its second.
#[derive(Clone, Copy, Debug)]
pub struct SideCalls<'a> {
    pub first: Option<SideCall<'a>>,
    pub second: Option<SideCall<'a>>,
}

/// The application that a side names, if there is a side.
fn call_of_side(side: Option<&[u8]>) -> Option<SideCall<'_>>
    ensures { option_map spec.call_now result ≡ option_map sides.called_side (option_map (λ side. side.now) side.entry) }
{
    let (name, arguments) = called_side(side?);
    Some(SideCall { name, arguments })
}

/// The application that the old form names.
fn old_call(arguments: &[u8]) -> Option<SideCall<'_>>
    ensures { option_map spec.call_now result ≡ spec.old_call (cut_outside 44 arguments.now) }
{
    let (_condition, rest) = cut_outside(arguments, b',')?;
    let (name, arguments) = called_part(rest)?;
    Some(SideCall { name, arguments })
}

/// The applications that an `ExecIf` with these arguments may run, whichever side its condition takes. The arguments may have groups that
/// are not expanded yet. How they are cut is as in [`exec_if_application`]; the old form has only one side.
#[tactic(auto, unfolding(crate::specs::Choices::exec_if_calls))]
pub fn exec_if_calls(arguments: &[u8]) -> SideCalls<'_>
    ensures { spec.calls_in result ≡ spec.exec_if_calls arguments.now }
{
    let old = SideCalls {
        first: old_call(arguments),
        second: None,
    };
    let Some((condition, sides)) = cut_once(arguments, b'?') else {
        return old;
    };
    if cut_outside(condition, b',').is_some() {
        return old;
    }
    SideCalls {
        first: call_of_side(taken_side(true, sides)),
        second: call_of_side(taken_side(false, sides)),
    }
}

/// Runs an application of a table. A name that the table lacks ends the call.
fn run_or_end<T: AppTable>(
    alloc: Global,
    name: &[u8],
    arguments: &[u8],
    cell: &mut Cell,
) -> Result<Move, NoMemory>
    requires { MayRun (cell_now cell.old) }
    ensures ok { IfOk result (λ going. spec.row_or_end (T.rows name.now) arguments.now (cell_now cell.old)
        ≡ record { cell = cell_now cell.new; next = going }) }
    ensures err { OnErr result (cell_now cell.new ≡ cell_now cell.old) }
    ensures loans { KeepsLoans cell.old cell.new }
{
    match T::dispatch(alloc, name, arguments, cell)? {
        Some(going) => Ok(going),
        None => Ok(Move::Hang),
    }
}

/// `ExecIf(condition?[side][:side])`: the side that is taken names an application of the table `T`, which runs. Without such a side the
/// channel goes on, and a name that the table lacks ends the call (a choice of this program).
pub struct ExecIf<T> {
    table: PhantomData<T>,
}

impl<T: AppTable> Application for ExecIf<T> {
    ghost use Rattle.dp_wide.specs.Choices.{everything, exec_if_row, exec_if_title};
    ghost use Rattle.dp_wide.specs.laws.Choices.{exec_if_lawful};

    ghost meaning = { exec_if_row T.rows };

    ghost title = { exec_if_title };

    ghost TOUCH = { everything };

    ghost lawful = { exec_if_lawful T.touches T.rows T.lawful };

    const TOUCH: Touch = Touch {
        variables: true,
        frames: true,
        globals: true,
        caller: true,
        members: true,
        waiting: true,
    };

    fn name() -> &'static [u8] {
        b"ExecIf"
    }

    fn apply(alloc: Global, arguments: &[u8], cell: &mut Cell) -> Result<Move, NoMemory> {
        match exec_if_application(arguments) {
            None => Ok(Move::Next),
            Some((name, arguments)) => run_or_end::<T>(alloc, name, arguments, cell),
        }
    }
}

/// `ExecIf` inside 8 others: the call ends.
pub struct ExecIfEnd;

impl Application for ExecIfEnd {
    ghost use Rattle.dp_flow.specs.laws.Lawful.{hangup_lawful};
    ghost use Rattle.dp_flow.specs.Plain.{hangup_row};
    ghost use Rattle.dp_flow.specs.Touches.{nothing};
    ghost use Rattle.dp_wide.specs.Choices.{exec_if_title};

    ghost meaning = { hangup_row };

    ghost title = { exec_if_title };

    ghost TOUCH = { nothing };

    ghost lawful = { hangup_lawful };

    const TOUCH: Touch = Touch::NOTHING;

    fn name() -> &'static [u8] {
        b"ExecIf"
    }

    fn apply(_alloc: Global, _arguments: &[u8], _cell: &mut Cell) -> Result<Move, NoMemory> {
        Ok(Move::Hang)
    }
}

/// The table `T` with an `ExecIf` that runs the applications of another table.
type AroundExecIf<Inner, T> = With<ExecIf<Inner>, T>;

/// The same with two of them, nested.
type Two<Inner, T> = AroundExecIf<AroundExecIf<Inner, T>, T>;

/// The same with four of them, nested.
type FourExecIfs<Inner, T> = Two<Two<Inner, T>, T>;

/// The table `T` with `ExecIf`, which runs the applications of this table; an `ExecIf` inside 8 others ends the call (a choice of this
/// program).
pub type WithExecIf<T> = FourExecIfs<FourExecIfs<With<ExecIfEnd, T>, T>, T>;

/// Runs the application with this name from the table `T` with `ExecIf`, or gives None if the table lacks the name. If memory runs out the
/// cell is as before.
pub(crate) fn dispatch_with_exec_if<T: AppTable>(
    alloc: Global,
    name: &[u8],
    arguments: &[u8],
    cell: &mut Cell,
) -> Result<Option<Move>, NoMemory>
    requires { MayRun (cell_now cell.old) }
    ensures ok { IfOk result (λ going. after_dispatch (spec.with_exec_if T.rows name.now) arguments.now (cell_now cell.old)
        ≡ (cell_now cell.new, going)) }
    ensures err { OnErr result (cell_now cell.new ≡ cell_now cell.old) }
    ensures loans { KeepsLoans cell.old cell.new }
{
    WithExecIf::<T>::dispatch(alloc, name, arguments, cell)
}
