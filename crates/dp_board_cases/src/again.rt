//! One seat acts after another, and each call that runs out of memory is repeated. So these cases pass whichever growth is refused.
use crate::acts::{channel_of, ran_entry, steps};
use crate::gates::ENDED;
use crate::play::{Play, perform};
use dp_board::{Attended, Board, Gate, Seat, SeatCall, Session};
use dp_board_fixture::attend;
use dp_machine::Reply;
use dp_table::StandardApps;
use std::alloc::Global;
use std::process::Abort;
use std::sync::Wait;
use std::sync::atomic::{AtomicU64, Ordering};

/// Holds nobody, and counts the steps that were given.
#[derive(Drop)]
struct Counting {
    given: AtomicU64,
}

impl Gate for Counting {
    fn before(&self, _channel: u32, _turn: u64) {}

    fn after(&self, _channel: u32, _reply: &Reply) {
        self.given.fetch_add(1, Ordering::SeqCst);
    }
}

/// Whether a call is a step of the channel with this reply.
fn is_told(call: &SeatCall, channel: u32, reply: Reply) -> bool {
    call.reply == reply && steps(&call.event, channel)
}

/// Whether a seat's record has this number of steps of its channel, of which the first runs its entry and the second finds none.
fn has_steps<S: Session>(seat: &Seat<S>, count: u64) -> bool {
    let channel = channel_of(seat);
    match seat.record() {
        [] => count == 0,
        [first] => count == 1 && is_told(first, channel, ran_entry(2)),
        [first, second] => {
            count == 2
                && is_told(first, channel, ran_entry(2))
                && is_told(second, channel, Reply::NoEntry)
        }
        _ => false,
    }
}

/// Attends the seat's channel for the remaining turns. The result includes the steps that were given before.
fn attend_rest<S: Session, R: Wait>(
    rt: &R,
    alloc: Global,
    board: &Board<StandardApps, S>,
    seat: &mut Seat<S>,
    gate: &Counting,
) -> Option<Attended> {
    let channel = channel_of(seat);
    let given = gate.given.load(Ordering::SeqCst);
    let left = 2u64.saturating_sub(given);
    let Attended { steps, why } = attend(rt, alloc, board, seat, channel, gate, left)?;
    Some(Attended {
        steps: steps.saturating_add(given),
        why,
    })
}

/// Attends the seat's channel for two turns. If memory runs out, the record has the earlier steps, and the channel is attended again.
pub(super) fn attend_again<S: Session, R: Wait + Abort>(
    rt: &R,
    alloc: Global,
    board: &Board<StandardApps, S>,
    seat: &mut Seat<S>,
) {
    let gate = Counting {
        given: AtomicU64::new(0),
    };
    let mut attended = attend_rest(rt, alloc, board, seat, &gate);
    if attended.is_none() {
        assert!(rt; has_steps(seat, gate.given.load(Ordering::SeqCst)));
        attended = attend_rest(rt, alloc, board, seat, &gate);
    }
    assert!(rt; attended == Some(ENDED) && has_steps(seat, 2));
}

/// A board opens, its seats act and attend, and it settles, also if memory runs out once.
#[test]
fn board_calls_are_retried_after_no_memory(rt: HostRuntime) {
    perform(&rt, rt.alloc(), b"add", b"ask", 2, Play::StepsAlone);
    perform(&rt, rt.alloc(), b"say", b"say", 2, Play::AttendedAlone);
}
