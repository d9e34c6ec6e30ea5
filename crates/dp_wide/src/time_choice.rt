//! The application that jumps by the clock, after the Asterisk documentation's page on `GotoIfTime`.
ghost use Rattle.std.specs.Prelude.{◌≡◌, IfOk, map};
ghost use Rattle.std.specs.Option.{option_map};
ghost use Rattle.dp_app.specs.Parts as parts;
ghost use Rattle.dp_wide.specs.TimeChoice as spec;

use crate::times::{Moment, lies_in, read_moment};
use dp_app::{Application, Cell, Move, Touch, part};
use dp_conf::{NoMemory, cut_once, split_args};
use dp_flow::{jump_if, taken_side};
use dp_vars::Globals;
use std::alloc::Global;

/// The moment in the global `CLOCK`, if it has one.
fn clock_in(globals: &Globals) -> Option<Moment>
    ensures { result ≡ spec.clock_in globals.now }
{
    read_moment(globals.at(b"CLOCK"))
}

/// Whether a moment is in the four ranges that the parts write.
fn lies_in_parts(parts: &[&[u8]], moment: Moment) -> bool
    ensures { result ≡ spec.lies_in_parts (map (λ part. part.now) parts.now) moment }
{
    lies_in(
        moment,
        part(parts, 0),
        part(parts, 1),
        part(parts, 2),
        part(parts, 3),
    )
}

/// Whether the clock is in the ranges. Without a moment it is in none.
fn is_time(alloc: Global, clock: Option<Moment>, ranges: &[u8]) -> Result<bool, NoMemory>
    ensures { IfOk result (λ is. is ≡ spec.is_time clock ranges.now) }
{
    let Some(moment) = clock else {
        return Ok(false);
    };
    let parts = split_args(alloc, ranges)?;
    Ok(lies_in_parts(&parts, moment))
}

/// The side that is taken, if there is one.
fn timed_side<'a>(
    alloc: Global,
    clock: Option<Moment>,
    arguments: &'a [u8],
) -> Result<Option<&'a [u8]>, NoMemory>
    ensures { IfOk result (λ side. option_map (λ side. side.now) side ≡ spec.timed_side clock arguments.now) }
{
    let Some((ranges, sides)) = cut_once(arguments, b'?') else {
        return Ok(None);
    };
    let is_first = is_time(alloc, clock, ranges)?;
    Ok(taken_side(is_first, sides))
}

/// `GotoIfTime(times,weekdays,days,months[,zone]?[target][:target])`: the channel goes to the first target if the clock is in all four
/// ranges, else to the second. A side that is missing, or of blanks alone, means the next priority, and so does everything if there is no
/// `?`. A missing part means all, and the zone has no effect.
///
/// The clock is the global `CLOCK`, as `WEEKDAY YYYY-MM-DD HH:MM`. If it is unset, or is no such text, it is in no range, and the second
/// side is taken (choices of this program). A machine that stops at anything unknown does not get that far.
pub struct GotoIfTime;

impl Application for GotoIfTime {
    ghost use Rattle.std.specs.Prelude.{codes};
    ghost use Rattle.dp_flow.specs.Touches.{nothing};
    ghost use Rattle.dp_wide.specs.laws.Choices.{goto_if_time_lawful};
    ghost use Rattle.dp_wide.specs.TimeChoice.{goto_if_time_row};

    ghost meaning = { goto_if_time_row };

    ghost title = { codes "GotoIfTime" };

    ghost TOUCH = { nothing };

    ghost lawful = { goto_if_time_lawful };

    const TOUCH: Touch = Touch::NOTHING;

    fn name() -> &'static [u8] {
        b"GotoIfTime"
    }

    fn apply(alloc: Global, arguments: &[u8], cell: &mut Cell) -> Result<Move, NoMemory> {
        let clock = clock_in(cell.globals);
        let side = timed_side(alloc, clock, arguments)?;
        jump_if(alloc, side)
    }
}
