//! The applications that add members to queues and remove them, after the Asterisk documentation's pages on `AddQueueMember`
//! and `RemoveQueueMember`.
ghost use Rattle.std.specs.Prelude.{◌≡◌, IfOk, OnErr, map};
ghost use Rattle.dp_app.specs.Cells.{KeepsLoans, cell_now};
ghost use Rattle.dp_queue.specs.Members.{add_row, remove_row};
ghost use Rattle.dp_qapps.specs.Membership as spec;

use crate::reports::{interface_of, penalty_of};
use dp_app::{Application, Cell, Move, Touch, part};
use dp_conf::{NoMemory, split_args};
use dp_queue::{Added, Queues, Removed};
use dp_vars::Change;
use std::alloc::Global;

/// The status of an addition.
fn added_status(added: Added) -> &'static [u8]
    ensures { result.now ≡ spec.added_status added }
{
    match added {
        Added::NoSuchQueue => b"NOSUCHQUEUE",
        Added::MemberAlready => b"MEMBERALREADY",
        Added::Added => b"ADDED",
    }
}

/// The addition of a member to the queue with this name.
#[derive(Drop)]
struct MemberAddition<'a> {
    queue: &'a [u8],
    interface: &'a [u8],
    penalty: u32,
}

impl Change<Queues> for MemberAddition<'_> {
    ghost after = { λ addition queues.
        (add_row queues addition.queue.now addition.interface.now addition.penalty).0 };

    fn run(&self, alloc: Global, queues: &mut Queues) -> Result<(), NoMemory> {
        queues.add(alloc, self.queue, self.interface, self.penalty)?;
        Ok(())
    }
}

/// Adds a member and reports it. If memory runs out the cell is as before.
fn add(
    alloc: Global,
    queue: &[u8],
    interface: &[u8],
    penalty: u32,
    cell: &mut Cell,
) -> Result<Move, NoMemory>
    ensures ok { IfOk result (λ going. spec.reported_added (cell_now cell.old)
        (add_row cell.old.queues.now queue.now interface.now penalty)
        ≡ record { cell = cell_now cell.new; next = going }) }
    ensures err { OnErr result (cell_now cell.new ≡ cell_now cell.old) }
    ensures loans { KeepsLoans cell.old cell.new }
{
    let status = added_status(cell.queues.would_add(queue, interface));
    let addition = MemberAddition {
        queue,
        interface,
        penalty,
    };
    cell.store
        .set_after(alloc, b"AQMSTATUS", status, &addition, cell.queues)?;
    Ok(Move::Next)
}

/// Adds the member that the parts of the arguments name. If memory runs out the cell is as before.
fn add_by_parts(alloc: Global, parts: &[&[u8]], cell: &mut Cell) -> Result<Move, NoMemory>
    ensures ok { IfOk result (λ going. spec.add_by (map (λ part. part.now) parts.now) (cell_now cell.old)
        ≡ record { cell = cell_now cell.new; next = going }) }
    ensures err { OnErr result (cell_now cell.new ≡ cell_now cell.old) }
    ensures loans { KeepsLoans cell.old cell.new }
{
    let interface = interface_of(alloc, cell.number, part(parts, 1))?;
    let penalty = penalty_of(part(parts, 2));
    let going = add(alloc, part(parts, 0), interface.bytes(), penalty, cell)?;
    Ok(going)
}

/// The status of a removal.
fn removed_status(removed: Removed) -> &'static [u8]
    ensures { result.now ≡ spec.removed_status removed }
{
    match removed {
        Removed::NoSuchQueue => b"NOSUCHQUEUE",
        Removed::NotInQueue => b"NOTINQUEUE",
        Removed::NotDynamic => b"NOTDYNAMIC",
        Removed::Removed => b"REMOVED",
    }
}

/// Removes a member and reports it. If memory runs out the cell is as before.
fn remove(alloc: Global, queue: &[u8], interface: &[u8], cell: &mut Cell) -> Result<Move, NoMemory>
    ensures ok { IfOk result (λ going. spec.reported_removed (cell_now cell.old)
        (remove_row cell.old.queues.now queue.now interface.now)
        ≡ record { cell = cell_now cell.new; next = going }) }
    ensures err { OnErr result (cell_now cell.new ≡ cell_now cell.old) }
    ensures loans { KeepsLoans cell.old cell.new }
{
    let status = removed_status(cell.queues.would_remove(queue, interface));
    cell.store.set(alloc, b"RQMSTATUS", status)?;
    let _removed = cell.queues.remove(queue, interface);
    Ok(Move::Next)
}

/// Removes the member that the parts of the arguments name. If memory runs out the cell is as before.
fn remove_by_parts(alloc: Global, parts: &[&[u8]], cell: &mut Cell) -> Result<Move, NoMemory>
    ensures ok { IfOk result (λ going. spec.remove_by (map (λ part. part.now) parts.now) (cell_now cell.old)
        ≡ record { cell = cell_now cell.new; next = going }) }
    ensures err { OnErr result (cell_now cell.new ≡ cell_now cell.old) }
    ensures loans { KeepsLoans cell.old cell.new }
{
    let interface = interface_of(alloc, cell.number, part(parts, 1))?;
    let going = remove(alloc, part(parts, 0), interface.bytes(), cell)?;
    Ok(going)
}

/// `AddQueueMember(queue[,interface[,penalty]])`: the interface becomes the queue's last member, not paused. `AQMSTATUS` is `ADDED`,
/// `NOSUCHQUEUE` or `MEMBERALREADY`, and the channel goes on. An empty interface means the name of the channel, and a penalty that is no
/// number up to 2,147,483,647 is 0.
pub struct AddQueueMember;

impl Application for AddQueueMember {
    ghost use Rattle.std.specs.Prelude.{codes};
    ghost use Rattle.dp_qapps.specs.laws.Lawful.{add_member_lawful};
    ghost use Rattle.dp_qapps.specs.Membership.{add_member_row};
    ghost use Rattle.dp_qapps.specs.Touches.{variables_and_members};

    ghost meaning = { add_member_row };

    ghost title = { codes "AddQueueMember" };

    ghost TOUCH = { variables_and_members };

    ghost lawful = { add_member_lawful };

    const TOUCH: Touch = Touch {
        variables: true,
        members: true,
        ..Touch::NOTHING
    };

    fn name() -> &'static [u8] {
        b"AddQueueMember"
    }

    fn apply(alloc: Global, arguments: &[u8], cell: &mut Cell) -> Result<Move, NoMemory> {
        let parts = split_args(alloc, arguments)?;
        let going = add_by_parts(alloc, &parts, cell)?;
        Ok(going)
    }
}

/// `RemoveQueueMember(queue[,interface])`: the interface is no longer a member of the queue. `RQMSTATUS` is `REMOVED`, `NOSUCHQUEUE`,
/// `NOTINQUEUE`, or `NOTDYNAMIC` for a member of the file, and the channel goes on. An empty interface means the name of the channel.
pub struct RemoveQueueMember;

impl Application for RemoveQueueMember {
    ghost use Rattle.std.specs.Prelude.{codes};
    ghost use Rattle.dp_qapps.specs.laws.Lawful.{remove_member_lawful};
    ghost use Rattle.dp_qapps.specs.Membership.{remove_member_row};
    ghost use Rattle.dp_qapps.specs.Touches.{variables_and_members};

    ghost meaning = { remove_member_row };

    ghost title = { codes "RemoveQueueMember" };

    ghost TOUCH = { variables_and_members };

    ghost lawful = { remove_member_lawful };

    const TOUCH: Touch = Touch {
        variables: true,
        members: true,
        ..Touch::NOTHING
    };

    fn name() -> &'static [u8] {
        b"RemoveQueueMember"
    }

    fn apply(alloc: Global, arguments: &[u8], cell: &mut Cell) -> Result<Move, NoMemory> {
        let parts = split_args(alloc, arguments)?;
        let going = remove_by_parts(alloc, &parts, cell)?;
        Ok(going)
    }
}
