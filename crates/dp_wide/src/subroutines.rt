//! Subroutines that know the number of their arguments, after the Asterisk documentation's pages on `Gosub` and `GosubIf`.
ghost use Rattle.std.specs.Prelude.{◌≡◌, ℕ, List, ◌++◌, ◌∷◌, ◌≤◌, [], Some, IfOk, OnErr, OnOk, map};
ghost use Rattle.std.specs.Fmt.{decimal};
ghost use Rattle.dp_app.specs.Cells.{CellOf, KeepsLoans, cell_now};
ghost use Rattle.dp_conf.specs.Numbers.{most_priority};
ghost use Rattle.dp_flow.specs.Calls.{called_now};
ghost use Rattle.dp_flow.specs.Jumps as jumps;
ghost use Rattle.dp_flow.specs.Jumps.{inner_arguments};
ghost use Rattle.dp_wide.specs.Subroutines as spec;

use dp_app::{Application, Cell, Move, Target, TargetParts, Touch};
use dp_conf::{NoMemory, Text, split_args};
use dp_flow::{SubroutineCall, called_by, chosen_side, locals_of, place_after};
use dp_vars::{Local, LocalName};
use itoa::Buffer;
use std::alloc::Global;

/// Adds a local.
pub(crate) fn push_local(
    alloc: Global,
    locals: &mut Vec<Local>,
    name: &[u8],
    value: &[u8],
) -> Result<(), NoMemory>
    ensures { OnOk result (locals.new.items ≡ locals.old.items ++ spec.local name.now value.now ∷ []) }
{
    let name = LocalName::copy_of(alloc, name)?;
    let value = Text::copy_of(alloc, value)?;
    locals.push(Local { name, value })?;
    Ok(())
}

/// Adds a local whose value is a number.
pub(crate) fn push_number(
    alloc: Global,
    locals: &mut Vec<Local>,
    name: &[u8],
    number: usize,
) -> Result<(), NoMemory>
    ensures { OnOk result (locals.new.items ≡ locals.old.items ++ spec.local name.now (decimal number) ∷ []) }
{
    let mut buffer = Buffer::new();
    push_local(alloc, locals, name, buffer.format(number).as_bytes())
}

/// The locals of a subroutine, given the text of its arguments, and their number.
#[tactic(auto, using(crate::proofs::CallsLemmas::locals_count))]
pub(crate) fn counted_locals(alloc: Global, arguments: &[u8]) -> Result<Vec<Local>, NoMemory>
    ensures { IfOk result (λ locals. locals.items ≡ spec.counted_locals (inner_arguments arguments.now)) }
{
    let mut locals = locals_of(alloc, arguments)?;
    let count = locals.len();
    push_number(alloc, &mut locals, b"ARGC", count)?;
    Ok(locals)
}

/// Pushes a frame that returns to the place after this one, with these locals. If memory runs out the cell is as before.
pub(crate) fn push_call(alloc: Global, locals: Vec<Local>, cell: &mut Cell) -> Result<(), NoMemory>
    requires { cell.old.place.now.priority ≤ most_priority }
    ensures ok { OnOk result (cell_now cell.new ≡ spec.with_call (cell_now cell.old) locals.items) }
    ensures err { OnErr result (cell_now cell.new ≡ cell_now cell.old) }
    ensures loans { KeepsLoans cell.old cell.new }
{
    let back = place_after(cell.place)?;
    cell.store.push_frame(alloc, back, locals)
}

/// Enters a subroutine with these locals. If memory runs out the cell is as before.
fn enter_with(
    alloc: Global,
    target: TargetParts,
    locals: Vec<Local>,
    cell: &mut Cell,
) -> Result<Move, NoMemory>
    requires { cell.old.place.now.priority ≤ most_priority }
    ensures ok { IfOk result (λ going. spec.entered_with (cell_now cell.old) locals.items target
        ≡ record { cell = cell_now cell.new; next = going }) }
    ensures err { OnErr result (cell_now cell.new ≡ cell_now cell.old) }
    ensures loans { KeepsLoans cell.old cell.new }
{
    push_call(alloc, locals, cell)?;
    Ok(Move::Jump(Target::Existing(target)))
}

/// Enters a subroutine, given the parts of its target, with the last part separate. If memory runs out the cell is as before.
fn enter(
    alloc: Global,
    front: &[&[u8]],
    called: SubroutineCall<'_>,
    cell: &mut Cell,
) -> Result<Move, NoMemory>
    requires { cell.old.place.now.priority ≤ most_priority }
    ensures ok { IfOk result (λ going. spec.enter_counted (cell_now cell.old) (map (λ part. part.now) front.now)
        (Some (called_now called.entry)) ≡ record { cell = cell_now cell.new; next = going }) }
    ensures err { OnErr result (cell_now cell.new ≡ cell_now cell.old) }
    ensures loans { KeepsLoans cell.old cell.new }
{
    let target = TargetParts::with_last(alloc, front, called.priority)?;
    let locals = counted_locals(alloc, called.arguments)?;
    let going = enter_with(alloc, target, locals, cell)?;
    Ok(going)
}

/// Enters a subroutine, given the parts of its target. If memory runs out the cell is as before.
fn enter_by_parts(alloc: Global, parts: &[&[u8]], cell: &mut Cell) -> Result<Move, NoMemory>
    requires { cell.old.place.now.priority ≤ most_priority }
    ensures ok { IfOk result (λ going. spec.enter_parts (map (λ part. part.now) parts.now) (cell_now cell.old)
        ≡ record { cell = cell_now cell.new; next = going }) }
    ensures err { OnErr result (cell_now cell.new ≡ cell_now cell.old) }
    ensures loans { KeepsLoans cell.old cell.new }
{
    let Some((last, front)) = parts.split_last() else {
        return Ok(Move::Hang);
    };
    let Some(called) = called_by(last) else {
        return Ok(Move::Hang);
    };
    let going = enter(alloc, front, called, cell)?;
    Ok(going)
}

/// Enters a subroutine, given the text of its target. If memory runs out the cell is as before.
#[tactic(auto, unfolding(crate::specs::Subroutines::gosub_row))]
fn enter_by_text(alloc: Global, target: &[u8], cell: &mut Cell) -> Result<Move, NoMemory>
    requires { cell.old.place.now.priority ≤ most_priority }
    ensures ok { IfOk result (λ going. spec.gosub_row target.now (cell_now cell.old) ≡ record { cell = cell_now cell.new; next = going }) }
    ensures err { OnErr result (cell_now cell.new ≡ cell_now cell.old) }
    ensures loans { KeepsLoans cell.old cell.new }
{
    let parts = split_args(alloc, target)?;
    let going = enter_by_parts(alloc, &parts, cell)?;
    Ok(going)
}

/// `Gosub([[context,]extension,]priority[(arguments)])`: pushes a frame that returns to the place after this one, with the arguments as its
/// locals `ARG1`, `ARG2` and so on, and their number as `ARGC`. The channel goes to the target if an entry is found there.
pub struct GosubWide;

impl Application for GosubWide {
    ghost use Rattle.std.specs.Prelude.{codes};
    ghost use Rattle.dp_flow.specs.Touches.{the_frames};
    ghost use Rattle.dp_wide.specs.Subroutines.{gosub_row};
    ghost use Rattle.dp_wide.specs.laws.SubroutinesLawful.{gosub_lawful};

    ghost meaning = { gosub_row };

    ghost title = { codes "Gosub" };

    ghost TOUCH = { the_frames };

    ghost lawful = { gosub_lawful };

    const TOUCH: Touch = Touch {
        frames: true,
        ..Touch::NOTHING
    };

    fn name() -> &'static [u8] {
        b"Gosub"
    }

    fn apply(alloc: Global, arguments: &[u8], cell: &mut Cell) -> Result<Move, NoMemory> {
        let going = enter_by_text(alloc, arguments, cell)?;
        Ok(going)
    }
}

/// `GosubIf(condition?[target][:target])`: does `Gosub` with the side that is taken. A side that is missing, or of blanks alone, means the
/// next priority.
pub struct GosubIfWide;

impl Application for GosubIfWide {
    ghost use Rattle.std.specs.Prelude.{codes};
    ghost use Rattle.dp_flow.specs.Touches.{the_frames};
    ghost use Rattle.dp_wide.specs.Subroutines.{gosub_if_row};
    ghost use Rattle.dp_wide.specs.laws.SubroutinesLawful.{gosub_if_lawful};

    ghost meaning = { gosub_if_row };

    ghost title = { codes "GosubIf" };

    ghost TOUCH = { the_frames };

    ghost lawful = { gosub_if_lawful };

    const TOUCH: Touch = Touch {
        frames: true,
        ..Touch::NOTHING
    };

    fn name() -> &'static [u8] {
        b"GosubIf"
    }

    #[tactic(auto, unfolding(crate::specs::Subroutines::gosub_if_row))]
    fn apply(alloc: Global, arguments: &[u8], cell: &mut Cell) -> Result<Move, NoMemory> {
        match chosen_side(arguments) {
            None => Ok(Move::Next),
            Some(side) => {
                let going = enter_by_text(alloc, side, cell)?;
                Ok(going)
            }
        }
    }
}

/// A channel that enters a subroutine which knows the number of its arguments goes where `Gosub` with the same arguments goes. This
/// function does nothing.
pub fn goes_where_gosub_goes()
    ensures { (arguments : List ℕ) (cell : CellOf) → (spec.gosub_row arguments cell).next ≡ (jumps.gosub_row arguments cell).next }
{}
