//! Two seats act on two threads.
use crate::play::{Play, perform};
use dp_board::{Board, History, Seat, Session};
use dp_board_fixture::{BoardMachine, Retry, SeatReply, give};
use dp_machine::{EntryId, Event, Phase, Reply};
use dp_table::StandardApps;
use std::alloc::Global;
use std::process::Abort;
use std::sync::Wait;

/// The last item of a seat's record.
fn last_told<S: Session>(seat: &Seat<S>) -> Option<SeatReply> {
    let call = seat.record().last()?;
    Some((call.place, call.reply))
}

/// The last items of the records of two seats, if there are two.
pub(super) fn told_of<S: Session>(seats: &[Seat<S>]) -> Option<(SeatReply, SeatReply)> {
    match seats {
        [first, second] => Some((last_told(first)?, last_told(second)?)),
        _ => None,
    }
}

/// The channel for which a seat acts: the one with its number, counted from 1.
pub(super) fn channel_of<S: Session>(seat: &Seat<S>) -> u32 {
    seat.number().saturating_add(1)
}

/// The result of a step of a channel by a seat, if memory does not run out.
pub(super) fn step<S: Session, R: Wait>(
    rt: &R,
    alloc: Global,
    board: &Board<StandardApps, S>,
    seat: &mut Seat<S>,
    channel: u32,
) -> Option<SeatReply> {
    give(rt, alloc, board, seat, Event::Step { channel })
}

/// One step of the seat's channel. If memory runs out, the record is unchanged, and the step is given again if that is asked for; then the
/// answer is the last item of the record.
pub(super) fn act_step<S: Session, R: Wait + Abort>(
    rt: &R,
    alloc: Global,
    board: &Board<StandardApps, S>,
    seat: &mut Seat<S>,
    retry: Retry,
) {
    let channel = channel_of(seat);
    let mut told = step(rt, alloc, board, seat, channel);
    if told.is_none() && retry == Retry::Once {
        assert!(rt; seat.record().is_empty());
        told = step(rt, alloc, board, seat, channel);
    }
    assert!(rt; told.is_some() && last_told(seat) == told);
}

pub(super) fn ran_entry(entry: usize) -> Reply {
    Reply::Ran(EntryId { context: 0, entry })
}

/// Whether the places are the first two, one each, and each seat's own entry of the plan ran.
fn are_told(add: SeatReply, ask: SeatReply) -> bool {
    let places = (add.0, ask.0);
    add.1 == ran_entry(0) && ask.1 == ran_entry(1) && (places == (0, 1) || places == (1, 0))
}

/// Whether the event is a step of this channel.
pub(super) fn steps(event: &Event, channel: u32) -> bool {
    match event {
        Event::Step { channel: stepped } => *stepped == channel,
        _ => false,
    }
}

/// Whether the entry at a place is this seat's step of this channel, with this reply.
fn is_step(history: &History<StandardApps>, told: SeatReply, seat: u32, channel: u32) -> bool {
    match history.entries().get(told.0) {
        Some(entry) => {
            entry.seat == seat && steps(&entry.event, channel) && entry.reply == told.1
        }
        None => false,
    }
}

/// Whether `Line/3` is the only member of the queue.
fn has_member(machine: &BoardMachine) -> bool {
    let queues = machine.queues();
    let (Some(queue), Some(agent)) = (queues.queues().get(0), queues.agents().get(0)) else {
        return false;
    };
    let members = queue.members();
    members.len() == 1 && members[0].agent == 0 && agent.name.bytes() == b"Line/3".as_slice()
}

/// The value of a name in a channel, which is requested again if memory runs out.
pub(super) fn has_value(
    rt: &impl Abort,
    alloc: Global,
    machine: &BoardMachine,
    channel: u32,
    name: &[u8],
    wanted: &[u8],
) -> bool {
    let value = match machine.value(alloc, channel, name) {
        Ok(value) => value,
        Err(_) => machine
            .value(alloc, channel, name)
            .ok()
            .expect(rt, "a value"),
    };
    value.as_slice() == wanted
}

/// Whether channel 2 waits if its queue had a member by then, and otherwise goes on and reads why it does not wait.
fn has_asked(rt: &impl Abort, alloc: Global, machine: &BoardMachine, is_added: bool) -> bool {
    let phase = machine.phase(2).expect(rt, "a channel");
    if is_added {
        matches!(phase, Phase::Queued { .. })
            && has_value(rt, alloc, machine, 2, b"QUEUESTATUS", b"")
    } else {
        *phase == Phase::Ready && has_value(rt, alloc, machine, 2, b"QUEUESTATUS", b"JOINEMPTY")
    }
}

/// Compares the history with the results of the two steps.
pub(super) fn check_steps(
    rt: &impl Abort,
    alloc: Global,
    told: (SeatReply, SeatReply),
    history: &History<StandardApps>,
) {
    let (add, ask) = told;
    assert!(rt; are_told(add, ask) && is_step(history, add, 0, 1) && is_step(history, ask, 1, 2));
    assert!(rt; has_member(history.machine()));
    assert!(rt; has_asked(rt, alloc, history.machine(), add.0 == 0));
}

/// Each call gets the place of its entry, and the board settles with both seats.
#[test]
fn two_seats_step_their_channels(rt: HostRuntime) {
    perform(&rt, rt.alloc(), b"add", b"ask", 2, Play::Steps);
}

/// A board without seats has an empty history.
#[test]
fn a_board_without_seats_has_an_empty_history(rt: HostRuntime) {
    perform(&rt, rt.alloc(), b"say", b"say", 0, Play::Nothing);
}
