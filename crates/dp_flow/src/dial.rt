//! The application that calls devices, after the Asterisk documentation's page on `Dial`. Media and devices are left out: an event gives
//! the result of the call.
ghost use Rattle.std.specs.Prelude.{◌≡◌, IfOk, OnErr, map};
ghost use Rattle.dp_app.specs.Cells.{KeepsLoans, cell_now};
ghost use Rattle.dp_flow.specs.Dialling as spec;

use crate::waiting::park_move;
use dp_app::{Application, Cell, Move, Phase, Touch, has_option, is_given, part};
use dp_conf::{NoMemory, split_args};
use std::alloc::Global;

/// Calls the devices that the parts of the arguments name. If memory runs out the cell is as before.
fn dial_by_parts(alloc: Global, parts: &[&[u8]], cell: &mut Cell) -> Result<Move, NoMemory>
    ensures ok { IfOk result (λ going. spec.dial_by (map (λ part. part.now) parts.now) (cell_now cell.old)
        ≡ record { cell = cell_now cell.new; next = going }) }
    ensures err { OnErr result (cell_now cell.new ≡ cell_now cell.old) }
    ensures loans { KeepsLoans cell.old cell.new }
{
    if is_given(part(parts, 0)) {
        let phase = Phase::Dialling {
            goes_on: has_option(part(parts, 2), b'g'),
            has_timer: is_given(part(parts, 1)),
        };
        return Ok(park_move(phase, cell.is_closing));
    }
    cell.store.set(alloc, b"DIALSTATUS", b"CHANUNAVAIL")?;
    Ok(Move::Next)
}

/// `Dial(devices[,time[,options[,URL]]])`: the devices are called, and the channel waits for the result, which is then the value of
/// `DIALSTATUS`. The devices are one text, which is not examined. If there is a time, a time-out ends the call to the devices. With the
/// option `g` outside parentheses the channel goes on when the far side has answered and hung up; other options and the URL have no effect
/// (a choice of this program). Without devices `DIALSTATUS` is `CHANUNAVAIL` and the channel goes on, and during `h` the call ends instead
/// of waiting (both choices of this program).
pub struct Dial;

impl Application for Dial {
    ghost use Rattle.std.specs.Prelude.{codes};
    ghost use Rattle.dp_flow.specs.Dialling.{dial_row};
    ghost use Rattle.dp_flow.specs.laws.Lawful.{dial_lawful};
    ghost use Rattle.dp_flow.specs.Touches.{the_variables};

    ghost meaning = { dial_row };

    ghost title = { codes "Dial" };

    ghost TOUCH = { the_variables };

    ghost lawful = { dial_lawful };

    const TOUCH: Touch = Touch {
        variables: true,
        ..Touch::NOTHING
    };

    fn name() -> &'static [u8] {
        b"Dial"
    }

    #[tactic(auto, unfolding(crate::specs::Dialling::dial_row))]
    fn apply(alloc: Global, arguments: &[u8], cell: &mut Cell) -> Result<Move, NoMemory> {
        let parts = split_args(alloc, arguments)?;
        let going = dial_by_parts(alloc, &parts, cell)?;
        Ok(going)
    }
}
