//! The applications that pause the members of queues, after the Asterisk documentation's pages on `PauseQueueMember` and
//! `UnpauseQueueMember`.
ghost use Rattle.std.specs.Prelude.{◌≡◌, Bool, IfOk, OnErr, map};
ghost use Rattle.std.specs.Option.{option_copied};
ghost use Rattle.dp_app.specs.Cells.{KeepsLoans, cell_now};
ghost use Rattle.dp_qapps.specs.Pausing as spec;

use dp_app::{Application, Cell, Move, Touch, part};
use dp_conf::{NoMemory, split_args};
use dp_queue::Queues;
use std::alloc::Global;

/// The queue that a part names; an empty part means all queues.
fn queue_asked(text: &[u8]) -> Option<&[u8]>
    ensures { option_copied result ≡ spec.queue_asked text.now }
{
    if text.is_empty() {
        return None;
    }
    Some(text)
}

/// Whether there is such a member; an empty interface names none.
fn is_there(queues: &Queues, queue: Option<&[u8]>, interface: &[u8]) -> bool
    ensures { (is_paused : Bool) → result ≡ (spec.after_pausing queues.now
        (option_copied queue.entry) interface.now is_paused).1 }
{
    if interface.is_empty() {
        return false;
    }
    queues.would_pause(queue, interface)
}

/// Pauses a member, or ends its pause; an empty interface names none.
fn pause(queues: &mut Queues, queue: Option<&[u8]>, interface: &[u8], is_paused: bool)
    ensures { queues.new ≡ (spec.after_pausing queues.old (option_copied queue.entry) interface.now is_paused).0 }
{
    if !interface.is_empty() {
        let _is_there = queues.pause(queue, interface, is_paused);
    }
}

/// The name of the status variable.
fn pause_variable(is_paused: bool) -> &'static [u8]
    ensures { result.now ≡ spec.pause_variable is_paused }
{
    if is_paused {
        b"PQMSTATUS"
    } else {
        b"UPQMSTATUS"
    }
}

/// The status if there is such a member.
fn pause_done(is_paused: bool) -> &'static [u8]
    ensures { result.now ≡ spec.pause_done is_paused }
{
    if is_paused { b"PAUSED" } else { b"UNPAUSED" }
}

/// The status of a pause or its end.
fn pause_status(is_paused: bool, is_there: bool) -> &'static [u8]
    ensures { result.now ≡ spec.pause_status is_paused is_there }
{
    if is_there {
        pause_done(is_paused)
    } else {
        b"NOTFOUND"
    }
}

/// Pauses a member, or ends its pause, and reports it. If memory runs out the cell is as before.
fn report_pause(
    alloc: Global,
    queue: Option<&[u8]>,
    interface: &[u8],
    is_paused: bool,
    cell: &mut Cell,
) -> Result<Move, NoMemory>
    ensures ok { IfOk result (λ going. spec.reported_paused is_paused (cell_now cell.old)
        (spec.after_pausing cell.old.queues.now (option_copied queue.entry) interface.now is_paused)
        ≡ record { cell = cell_now cell.new; next = going }) }
    ensures err { OnErr result (cell_now cell.new ≡ cell_now cell.old) }
    ensures loans { KeepsLoans cell.old cell.new }
{
    let is_there = is_there(cell.queues, queue, interface);
    let status = pause_status(is_paused, is_there);
    cell.store.set(alloc, pause_variable(is_paused), status)?;
    pause(cell.queues, queue, interface, is_paused);
    Ok(Move::Next)
}

/// Pauses the member that the arguments name, or ends its pause. If memory runs out the cell is as before.
#[tactic(auto, unfolding(crate::specs::Pausing::pausing_row))]
fn pause_by_text(
    alloc: Global,
    arguments: &[u8],
    is_paused: bool,
    cell: &mut Cell,
) -> Result<Move, NoMemory>
    ensures ok { IfOk result (λ going. spec.pausing_row is_paused arguments.now (cell_now cell.old)
        ≡ record { cell = cell_now cell.new; next = going }) }
    ensures err { OnErr result (cell_now cell.new ≡ cell_now cell.old) }
    ensures loans { KeepsLoans cell.old cell.new }
{
    let parts = split_args(alloc, arguments)?;
    let queue = queue_asked(part(&parts, 0));
    let going = report_pause(alloc, queue, part(&parts, 1), is_paused, cell)?;
    Ok(going)
}

/// `PauseQueueMember(queue,interface)`: no further call is offered to the member of the queue, or of all queues if the queue is empty.
/// `PQMSTATUS` is `PAUSED`, or `NOTFOUND` if there is no such member, and the channel goes on. A member that is already paused is paused
/// again. An empty interface names no member, so the status is `NOTFOUND`.
pub struct PauseQueueMember;

impl Application for PauseQueueMember {
    ghost use Rattle.std.specs.Prelude.{codes};
    ghost use Rattle.dp_qapps.specs.laws.Lawful.{pause_member_lawful};
    ghost use Rattle.dp_qapps.specs.Pausing.{pause_member_row};
    ghost use Rattle.dp_qapps.specs.Touches.{variables_and_members};

    ghost meaning = { pause_member_row };

    ghost title = { codes "PauseQueueMember" };

    ghost TOUCH = { variables_and_members };

    ghost lawful = { pause_member_lawful };

    const TOUCH: Touch = Touch {
        variables: true,
        members: true,
        ..Touch::NOTHING
    };

    fn name() -> &'static [u8] {
        b"PauseQueueMember"
    }

    fn apply(alloc: Global, arguments: &[u8], cell: &mut Cell) -> Result<Move, NoMemory> {
        let going = pause_by_text(alloc, arguments, true, cell)?;
        Ok(going)
    }
}

/// `UnpauseQueueMember(queue,interface)`: the pause of the member ends, in the queue or in all queues if the queue is empty. `UPQMSTATUS`
/// is `UNPAUSED`, or `NOTFOUND` if there is no such member, and the channel goes on. An empty interface names no member, so the status is
/// `NOTFOUND`.
pub struct UnpauseQueueMember;

impl Application for UnpauseQueueMember {
    ghost use Rattle.std.specs.Prelude.{codes};
    ghost use Rattle.dp_qapps.specs.laws.Lawful.{unpause_member_lawful};
    ghost use Rattle.dp_qapps.specs.Pausing.{unpause_member_row};
    ghost use Rattle.dp_qapps.specs.Touches.{variables_and_members};

    ghost meaning = { unpause_member_row };

    ghost title = { codes "UnpauseQueueMember" };

    ghost TOUCH = { variables_and_members };

    ghost lawful = { unpause_member_lawful };

    const TOUCH: Touch = Touch {
        variables: true,
        members: true,
        ..Touch::NOTHING
    };

    fn name() -> &'static [u8] {
        b"UnpauseQueueMember"
    }

    fn apply(alloc: Global, arguments: &[u8], cell: &mut Cell) -> Result<Move, NoMemory> {
        let going = pause_by_text(alloc, arguments, false, cell)?;
        Ok(going)
    }
}
