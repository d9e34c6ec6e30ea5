//! Applications and values that a condition chooses, worked out by hand from the rules.
mod runs;
mod sides;
mod times;

use crate::choices::runs::{DEPTHS, RUNS, Ran};
use crate::choices::sides::{CALLS, CalledSide, IfValue, VALUES};
use crate::choices::times::{CLOCKS, RANGES, SIDES, Timed};
use dp_app::{AppTable, Cell, Exten, Move, Place, Target, TargetParts, With};
use dp_case_tables::{check, check_all, push_bytes};
use dp_conf::{NoMemory, Text};
use dp_queue::Queues;
use dp_table::StandardApps;
use dp_vars::{Globals, Store};
use dp_wide::{GotoIfTime, WithExecIf};
use std::alloc::Global;
use std::test::Fail;

/// The applications of the program, and the two that choose.
type ChoosingApps = WithExecIf<With<GotoIfTime, StandardApps>>;

/// The parts of a target, each with a bar before it.
fn push_parts(out: &mut String, parts: &TargetParts) -> Result<(), NoMemory> {
    let Some((front, last)) = parts.apart() else {
        return out.push_str("|more than three parts");
    };
    for part in front {
        out.push('|')?;
        push_bytes(out, part.bytes())?;
    }
    out.push('|')?;
    push_bytes(out, last)
}

/// A jump, by its target.
fn push_jump(out: &mut String, target: &Target) -> Result<(), NoMemory> {
    match target {
        Target::Parts(parts) => {
            out.push_str("jump")?;
            push_parts(out, parts)
        }
        Target::To(_) => out.push_str("return"),
        Target::Existing(parts) => {
            out.push_str("call")?;
            push_parts(out, parts)
        }
    }
}

/// Where a channel goes.
fn push_going(out: &mut String, going: &Option<Move>) -> Result<(), NoMemory> {
    match going {
        None => out.push_str("no such application"),
        Some(Move::Next) => out.push_str("next"),
        Some(Move::Jump(target)) => push_jump(out, target),
        Some(Move::Enter(parts)) => {
            out.push_str("enter")?;
            push_parts(out, parts)
        }
        Some(Move::Park(_)) => out.push_str("park"),
        Some(Move::Hang) => out.push_str("hang"),
    }
}

/// The variable `A`, if it is set.
fn push_variable(out: &mut String, store: &Store<Place>) -> Result<(), NoMemory> {
    let Some(value) = store.get(b"A") else {
        return Ok(());
    };
    out.push_str(", A=")?;
    push_bytes(out, value)
}

/// Adds where an application sends a channel whose only variable is `CLOCK`, and the variable `A` after it. Nothing is queued.
fn push_run(
    out: &mut String,
    alloc: Global,
    globals: &mut Globals,
    name: &[u8],
    arguments: &[u8],
) -> Result<(), NoMemory> {
    let place = Place {
        context: Text::copy_of(alloc, b"main")?,
        exten: Exten::of_byte(b's'),
        priority: 1,
    };
    let mut caller = Text::new(Vec::new(alloc));
    let mut store = Store::new(alloc);
    store.set(alloc, b"CLOCK", b"Sat 2026-11-28 12:44")?;
    let mut queues = Queues::none(alloc);
    let mut cell = Cell {
        number: 1,
        place: &place,
        is_closing: false,
        caller: &mut caller,
        store: &mut store,
        globals,
        queues: &mut queues,
    };
    let going = ChoosingApps::dispatch(alloc, name, arguments, &mut cell)?;
    push_going(out, &going)?;
    push_variable(out, &store)
}

fn check_sides(alloc: Global) -> Result<(), Fail> {
    check::<CalledSide>(alloc, CALLS)?;
    check::<IfValue>(alloc, VALUES)
}

/// A condition chooses between two sides, and a side is an application or a value.
#[test]
fn conditions_choose_between_two_sides(rt: HostRuntime) -> Result<(), Fail> {
    check_sides(rt.alloc())
}

fn check_runs(alloc: Global) -> Result<(), Fail> {
    check_all::<Ran>(alloc, &[RUNS, DEPTHS])
}

/// `ExecIf` runs what it chooses, and may be nested 8 deep.
#[test]
fn exec_if_runs_the_chosen_application(rt: HostRuntime) -> Result<(), Fail> {
    check_runs(rt.alloc())
}

fn check_times(alloc: Global) -> Result<(), Fail> {
    check_all::<Timed>(alloc, &[RANGES, SIDES, CLOCKS])
}

/// `GotoIfTime` jumps by the global `CLOCK`.
#[test]
fn goto_if_time_jumps_by_the_clock(rt: HostRuntime) -> Result<(), Fail> {
    check_times(rt.alloc())
}
