//! Subroutines, after the Asterisk documentation's pages on `Gosub`, `GosubIf`, `Return` and `StackPop`.
ghost use Rattle.std.specs.Prelude.{◌≡◌, ◌+◌, ◌++◌, ◌≤◌, ◌<◌, ◌^◌, [], ◌∷◌, Some, IfOk, OnOk, OnErr, codes, length, map};
ghost use Rattle.std.specs.Fmt.{decimal};
ghost use Rattle.std.specs.Option.{option_map};
ghost use Rattle.dp_app.specs.Cells.{KeepsLoans, cell_now};
ghost use Rattle.dp_conf.specs.Cut.{cut_once};
ghost use Rattle.dp_conf.specs.Levels.{arguments_of};
ghost use Rattle.dp_conf.specs.Numbers.{most_priority};
ghost use Rattle.dp_flow.specs.Calls as calls;
ghost use Rattle.dp_flow.specs.Jumps as spec;

use crate::choice::chosen_side;
use dp_app::{Application, Cell, Move, Place, Target, TargetParts, Touch};
use dp_conf::{NoMemory, Text, before_last, cut_once, first_argument, split_args, trim};
use dp_vars::{Local, LocalName};
use itoa::Buffer;
use std::alloc::Global;

/// The priority of a subroutine, and the text of its arguments, if it has any.
#[derive(Clone, Copy)]
pub struct SubroutineCall<'a> {
    pub priority: &'a [u8],
    pub arguments: &'a [u8],
}

/// The last part of a subroutine's target. Its arguments are between its first `(` and its last `)`, and without a `)` it is no target (a
/// choice of this program).
pub fn called_by(part: &[u8]) -> Option<SubroutineCall<'_>>
    ensures { option_map calls.called_now result ≡ spec.called_by part.now (cut_once 40 part.now) }
{
    match cut_once(part, b'(') {
        None => Some(SubroutineCall {
            priority: part,
            arguments: b"",
        }),
        Some((priority, after)) => {
            let arguments = before_last(after, b')')?;
            Some(SubroutineCall {
                priority: trim(priority),
                arguments,
            })
        }
    }
}

/// `ARG` and the number.
fn argument_name(alloc: Global, number: usize) -> Result<LocalName, NoMemory>
    ensures { IfOk result (λ name. name ≡ codes "ARG" ++ decimal number) }
{
    let mut name = LocalName::copy_of(alloc, b"ARG")?;
    let mut buffer = Buffer::new();
    name.push_all(buffer.format(number).as_bytes())?;
    Ok(name)
}

/// Adds the local with a number.
fn push_local(
    alloc: Global,
    locals: &mut Vec<Local>,
    number: usize,
    value: &[u8],
) -> Result<(), NoMemory>
    ensures { OnOk result (locals.new.items ≡ locals.old.items ++ spec.argument_locals number (value.now ∷ [])) }
{
    let name = argument_name(alloc, number)?;
    let value = Text::copy_of(alloc, value)?;
    locals.push(Local { name, value })?;
    Ok(())
}

/// The locals of a subroutine, given the text of its arguments: `ARG1`, `ARG2` and so on.
///
/// It fails only if memory runs out.
pub fn locals_of(alloc: Global, arguments: &[u8]) -> Result<Vec<Local>, NoMemory>
    ensures { IfOk result (λ locals. locals.items ≡ spec.argument_locals 1 (spec.inner_arguments arguments.now)) }
{
    let mut locals = Vec::new(alloc);
    if arguments.is_empty() {
        return Ok(locals);
    }
    let mut number: usize = 0;
    let mut rest = Some(arguments);
    while let Some(left) = rest {
        let (argument, after) = first_argument(left);
        number += 1;
        push_local(alloc, &mut locals, number, trim(argument))?;
        rest = after;
    }
    Ok(locals)
}

/// The place after a place. It fails only if memory runs out.
pub fn place_after(place: &Place) -> Result<Place, NoMemory>
    requires { place.now.priority ≤ most_priority }
    ensures { IfOk result (λ after. after ≡ spec.place_after place.now) }
{
    let mut after = place.clone()?;
    after.priority += 1;
    Ok(after)
}

/// Enters a subroutine, given the parts of its target, with the last part separate. If memory runs out the cell is as before.
fn enter(
    alloc: Global,
    front: &[&[u8]],
    called: SubroutineCall<'_>,
    cell: &mut Cell,
) -> Result<Move, NoMemory>
    requires { cell.old.place.now.priority ≤ most_priority }
    ensures ok { IfOk result (λ going. spec.enter_subroutine (cell_now cell.old) (map (λ part. part.now) front.now)
        (Some (calls.called_now called.entry)) ≡ record { cell = cell_now cell.new; next = going }) }
    ensures err { OnErr result (cell_now cell.new ≡ cell_now cell.old) }
    ensures loans { KeepsLoans cell.old cell.new }
{
    let target = TargetParts::with_last(alloc, front, called.priority)?;
    let locals = locals_of(alloc, called.arguments)?;
    let back = place_after(cell.place)?;
    cell.store.push_frame(alloc, back, locals)?;
    Ok(Move::Jump(Target::Existing(target)))
}

/// Enters a subroutine, given the parts of its target. If memory runs out the cell is as before.
#[inline(always)]
fn enter_by_parts(alloc: Global, parts: &[&[u8]], cell: &mut Cell) -> Result<Move, NoMemory>
    requires { cell.old.place.now.priority ≤ most_priority }
    ensures ok { IfOk result (λ going. spec.gosub_parts (map (λ part. part.now) parts.now) (cell_now cell.old)
        ≡ record { cell = cell_now cell.new; next = going }) }
    ensures err { OnErr result (cell_now cell.new ≡ cell_now cell.old) }
    ensures loans { KeepsLoans cell.old cell.new }
{
    let Some((last, front)) = parts.split_last() else {
        return Ok(Move::Hang);
    };
    let Some(called) = called_by(last) else {
        return Ok(Move::Hang);
    };
    let going = enter(alloc, front, called, cell)?;
    Ok(going)
}

/// Enters a subroutine, given the text of a target with more than three parts.
fn enter_by_many(alloc: Global, target: &[u8], cell: &mut Cell) -> Result<Move, NoMemory>
    requires { cell.old.place.now.priority ≤ most_priority }
    ensures ok { IfOk result (λ going. spec.gosub_parts (arguments_of target.now) (cell_now cell.old)
        ≡ record { cell = cell_now cell.new; next = going }) }
    ensures err { OnErr result (cell_now cell.new ≡ cell_now cell.old) }
    ensures loans { KeepsLoans cell.old cell.new }
{
    let parts = split_args(alloc, target)?;
    let going = enter_by_parts(alloc, &parts, cell)?;
    Ok(going)
}

/// Enters a subroutine, given the text of its target. If memory runs out the cell is as before.
#[tactic(auto, unfolding(crate::specs::Jumps::gosub_row))]
fn enter_by_text(alloc: Global, target: &[u8], cell: &mut Cell) -> Result<Move, NoMemory>
    requires { cell.old.place.now.priority ≤ most_priority }
    ensures ok { IfOk result (λ going. spec.gosub_row target.now (cell_now cell.old) ≡ record { cell = cell_now cell.new; next = going }) }
    ensures err { OnErr result (cell_now cell.new ≡ cell_now cell.old) }
    ensures loans { KeepsLoans cell.old cell.new }
{
    let (first, rest) = first_argument(target);
    let Some(rest) = rest else {
        return enter_by_parts(alloc, &[trim(first)], cell);
    };
    let (second, rest) = first_argument(rest);
    let Some(rest) = rest else {
        return enter_by_parts(alloc, &[trim(first), trim(second)], cell);
    };
    let (third, rest) = first_argument(rest);
    if rest.is_some() {
        return enter_by_many(alloc, target, cell);
    }
    enter_by_parts(alloc, &[trim(first), trim(second), trim(third)], cell)
}

/// `Gosub([[context,]extension,]priority[(arguments)])`: pushes a frame that returns to the place after this one, with the arguments as its
/// locals `ARG1`, `ARG2` and so on. The channel goes to the target if an entry is found there.
pub struct Gosub;

impl Application for Gosub {
    ghost use Rattle.std.specs.Prelude.{codes};
    ghost use Rattle.dp_flow.specs.Jumps.{gosub_row};
    ghost use Rattle.dp_flow.specs.laws.Lawful.{gosub_lawful};
    ghost use Rattle.dp_flow.specs.Touches.{the_frames};

    ghost meaning = { gosub_row };

    ghost title = { codes "Gosub" };

    ghost TOUCH = { the_frames };

    ghost lawful = { gosub_lawful };

    const TOUCH: Touch = Touch {
        frames: true,
        ..Touch::NOTHING
    };

    fn name() -> &'static [u8] {
        b"Gosub"
    }

    fn apply(alloc: Global, arguments: &[u8], cell: &mut Cell) -> Result<Move, NoMemory> {
        let going = enter_by_text(alloc, arguments, cell)?;
        Ok(going)
    }
}

/// `GosubIf(condition?[target][:target])`: does `Gosub` with the side that is taken. A side that is missing, or of blanks alone, means the
/// next priority.
pub struct GosubIf;

impl Application for GosubIf {
    ghost use Rattle.std.specs.Prelude.{codes};
    ghost use Rattle.dp_flow.specs.Jumps.{gosub_if_row};
    ghost use Rattle.dp_flow.specs.laws.Lawful.{gosub_if_lawful};
    ghost use Rattle.dp_flow.specs.Touches.{the_frames};

    ghost meaning = { gosub_if_row };

    ghost title = { codes "GosubIf" };

    ghost TOUCH = { the_frames };

    ghost lawful = { gosub_if_lawful };

    const TOUCH: Touch = Touch {
        frames: true,
        ..Touch::NOTHING
    };

    fn name() -> &'static [u8] {
        b"GosubIf"
    }

    #[tactic(auto, unfolding(crate::specs::Jumps::gosub_if_row))]
    fn apply(alloc: Global, arguments: &[u8], cell: &mut Cell) -> Result<Move, NoMemory> {
        match chosen_side(arguments) {
            None => Ok(Move::Next),
            Some(side) => {
                let going = enter_by_text(alloc, side, cell)?;
                Ok(going)
            }
        }
    }
}

/// `Return([value])`: removes the innermost frame, sets `GOSUB_RETVAL` to the value, and sends the channel back to the frame's place.
/// Without a frame the call ends.
pub struct Return;

impl Application for Return {
    ghost use Rattle.std.specs.Prelude.{codes};
    ghost use Rattle.dp_flow.specs.Jumps.{return_row};
    ghost use Rattle.dp_flow.specs.laws.Lawful.{return_lawful};
    ghost use Rattle.dp_flow.specs.Touches.{variables_and_frames};

    ghost meaning = { return_row };

    ghost title = { codes "Return" };

    ghost TOUCH = { variables_and_frames };

    ghost lawful = { return_lawful };

    const TOUCH: Touch = Touch {
        variables: true,
        frames: true,
        ..Touch::NOTHING
    };

    fn name() -> &'static [u8] {
        b"Return"
    }

    #[tactic(auto, unfolding(crate::specs::Jumps::return_row))]
    fn apply(alloc: Global, arguments: &[u8], cell: &mut Cell) -> Result<Move, NoMemory> {
        match cell
            .store
            .pop_frame_setting(alloc, b"GOSUB_RETVAL", arguments)?
        {
            None => Ok(Move::Hang),
            Some(place) => Ok(Move::Jump(Target::To(place))),
        }
    }
}

/// `StackPop()`: removes the innermost frame, if there is one, and the channel goes on.
pub struct StackPop;

impl Application for StackPop {
    ghost use Rattle.std.specs.Prelude.{codes};
    ghost use Rattle.dp_flow.specs.Jumps.{stack_pop_row};
    ghost use Rattle.dp_flow.specs.laws.Lawful.{stack_pop_lawful};
    ghost use Rattle.dp_flow.specs.Touches.{the_frames};

    ghost meaning = { stack_pop_row };

    ghost title = { codes "StackPop" };

    ghost TOUCH = { the_frames };

    ghost lawful = { stack_pop_lawful };

    const TOUCH: Touch = Touch {
        frames: true,
        ..Touch::NOTHING
    };

    fn name() -> &'static [u8] {
        b"StackPop"
    }

    fn apply(_alloc: Global, _arguments: &[u8], cell: &mut Cell) -> Result<Move, NoMemory> {
        let _back = cell.store.pop_frame();
        Ok(Move::Next)
    }
}
