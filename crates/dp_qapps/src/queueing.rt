//! The application that lets a call wait for an agent, after the Asterisk documentation's page on `Queue`.
ghost use Rattle.std.specs.Prelude.{◌≡◌, IfOk, None, OnErr, false, map};
ghost use Rattle.dp_app.specs.Cells.{KeepsLoans, cell_now};
ghost use Rattle.dp_app.specs.Lawful.{MayRun};
ghost use Rattle.dp_queue.specs.Agents.{is_talking};
ghost use Rattle.dp_queue.specs.Joining.{join_row, waits_in};
ghost use Rattle.dp_qapps.specs.Queueing as spec;

use dp_app::{Application, Cell, Move, Phase, Touch, has_option, is_given, part};
use dp_conf::{NoMemory, split_args};
use dp_queue::Join;
use std::alloc::Global;

/// The request of a `Queue`: the queue's name, whether the channel goes on when the agent is done, and whether a time-out takes it out of
/// the queue.
#[derive(Clone, Copy)]
struct Asked<'a> {
    queue: &'a [u8],
    goes_on: bool,
    has_timer: bool,
}

/// Sets the status of a channel that does not wait and goes on. If memory runs out the cell is as before.
fn refuse(alloc: Global, status: &[u8], cell: &mut Cell) -> Result<Move, NoMemory>
    ensures ok { IfOk result (λ going. spec.stays_out (cell_now cell.old) status.now ≡ record { cell = cell_now cell.new; next = going }) }
    ensures err { OnErr result (cell_now cell.new ≡ cell_now cell.old) }
    ensures loans { KeepsLoans cell.old cell.new }
{
    cell.store.set(alloc, b"QUEUESTATUS", status)?;
    Ok(Move::Next)
}

/// The channel asks to join the queue. If memory runs out the cell is as before.
fn ask(alloc: Global, asked: Asked<'_>, cell: &mut Cell) -> Result<Move, NoMemory>
    requires { MayRun (cell_now cell.old) }
    ensures ok { IfOk result (λ going. spec.asked_for (cell_now cell.old) asked.entry.goes_on asked.entry.has_timer
        (join_row cell.old.queues.now asked.entry.queue.now cell.old.number) ≡ record { cell = cell_now cell.new; next = going }) }
    ensures err { OnErr result (cell_now cell.new ≡ cell_now cell.old) }
    ensures loans { KeepsLoans cell.old cell.new }
{
    let told = if cell.is_closing {
        cell.queues.would_join(asked.queue)
    } else {
        cell.queues.join(asked.queue, cell.number)?
    };
    match told {
        Join::Unknown => refuse(alloc, b"UNKNOWN", cell),
        Join::Empty => refuse(alloc, b"JOINEMPTY", cell),
        Join::Full => refuse(alloc, b"FULL", cell),
        // A channel that runs the extension `h` is hung up and cannot wait.
        Join::Joined(_) if cell.is_closing => Ok(Move::Hang),
        Join::Joined(number) => Ok(Move::Park(Phase::Queued {
            queue: number,
            goes_on: asked.goes_on,
            has_timer: asked.has_timer,
        })),
    }
}

/// The channel asks to join the queue that the parts of the arguments name. If memory runs out the cell is as before.
fn ask_by_parts(alloc: Global, parts: &[&[u8]], cell: &mut Cell) -> Result<Move, NoMemory>
    requires { MayRun (cell_now cell.old) }
    ensures ok { IfOk result (λ going. spec.queue_by (map (λ part. part.now) parts.now) (cell_now cell.old)
        ≡ record { cell = cell_now cell.new; next = going }) }
    ensures err { OnErr result (cell_now cell.new ≡ cell_now cell.old) }
    ensures loans { KeepsLoans cell.old cell.new }
{
    let asked = Asked {
        queue: part(parts, 0),
        goes_on: has_option(part(parts, 1), b'c'),
        has_timer: is_given(part(parts, 4)),
    };
    let going = ask(alloc, asked, cell)?;
    Ok(going)
}

/// `Queue(queue[,options[,URL[,announcement[,time]]]])`: the channel waits in the queue for an agent. `QUEUESTATUS` is `UNKNOWN` if there
/// is no such queue, `JOINEMPTY` if it is too empty and `FULL` if it is full, and then the channel goes on. With the option `c` outside
/// parentheses it goes on when the agent is done, and if there is a time, a time-out takes it out of the queue. During `h` the call ends
/// instead of waiting (a choice of this program).
pub struct QueueApp;

impl Application for QueueApp {
    ghost use Rattle.std.specs.Prelude.{codes};
    ghost use Rattle.dp_qapps.specs.laws.Lawful.{queue_lawful};
    ghost use Rattle.dp_qapps.specs.Queueing.{queue_row};
    ghost use Rattle.dp_qapps.specs.Touches.{variables_and_waiting};

    ghost meaning = { queue_row };

    ghost title = { codes "Queue" };

    ghost TOUCH = { variables_and_waiting };

    ghost lawful = { queue_lawful };

    const TOUCH: Touch = Touch {
        variables: true,
        waiting: true,
        ..Touch::NOTHING
    };

    fn name() -> &'static [u8] {
        b"Queue"
    }

    fn apply(alloc: Global, arguments: &[u8], cell: &mut Cell) -> Result<Move, NoMemory> {
        let parts = split_args(alloc, arguments)?;
        let going = ask_by_parts(alloc, &parts, cell)?;
        Ok(going)
    }
}
