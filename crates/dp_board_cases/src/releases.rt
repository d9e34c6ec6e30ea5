//! Two channels pause, each with a seat that waits for it, and a third seat ends one pause after the other.
use crate::acts::channel_of;
use crate::gates::ENDED;
use crate::pauses::give_done;
use crate::play::{Play, perform};
use dp_board::{Board, Gate, Seat, Session};
use dp_board_fixture::{attend, hold_until};
use dp_machine::{Event, Reply};
use dp_table::StandardApps;
use std::alloc::Global;
use std::process::Abort;
use std::sync::Wait;
use std::sync::atomic::{AtomicU64, Ordering};

/// Counts the steps of both channels, and marks a thread that waits for one of them too long.
#[derive(Drop)]
pub(super) struct Released {
    // The channel whose pause ends first.
    leading: u32,
    first: AtomicU64,
    second: AtomicU64,
    marks: AtomicU64,
}

impl Released {
    fn steps_of(&self, channel: u32) -> &AtomicU64 {
        if channel == 1 {
            &self.first
        } else {
            &self.second
        }
    }

    /// Waits until the channel has had this number of steps.
    fn hold(&self, channel: u32, steps: u64) {
        hold_until(self.steps_of(channel), steps, &self.marks);
    }
}

impl Gate for Released {
    fn before(&self, _channel: u32, _turn: u64) {}

    fn after(&self, channel: u32, _reply: &Reply) {
        self.steps_of(channel).fetch_add(1, Ordering::SeqCst);
    }
}

/// Lets some time go by, so that the others wait.
fn idle(gate: &Released) {
    for _ in 0..1_000_000u32 {
        gate.marks.load(Ordering::SeqCst);
    }
}

/// Ends the pause of a channel, and waits until it has had its next step.
fn release<S: Session, R: Wait + Abort>(
    rt: &R,
    alloc: Global,
    board: &Board<StandardApps, S>,
    seat: &mut Seat<S>,
    gate: &Released,
    channel: u32,
) {
    give_done(rt, alloc, board, seat, Event::Timeout { channel });
    gate.hold(channel, 2);
}

/// The other of the two channels.
fn other_of(channel: u32) -> u32 {
    if channel == 1 { 2 } else { 1 }
}

/// Ends both pauses, once both channels pause.
fn release_both<S: Session, R: Wait + Abort>(
    rt: &R,
    alloc: Global,
    board: &Board<StandardApps, S>,
    seat: &mut Seat<S>,
    gate: &Released,
) {
    gate.hold(1, 1);
    gate.hold(2, 1);
    idle(gate);
    release(rt, alloc, board, seat, gate, gate.leading);
    release(rt, alloc, board, seat, gate, other_of(gate.leading));
}

/// The first two seats attend a channel each, and the third ends the pauses.
pub(super) fn act_released<S: Session, R: Wait + Abort>(
    rt: &R,
    alloc: Global,
    board: &Board<StandardApps, S>,
    seat: &mut Seat<S>,
    gate: &Released,
) {
    if seat.number() == 2 {
        release_both(rt, alloc, board, seat, gate);
        return;
    }
    let channel = channel_of(seat);
    let attended = attend(rt, alloc, board, seat, channel, gate, 2);
    assert!(rt; attended == Some(ENDED));
}

/// Whether no thread waited too long.
pub(super) fn has_released(gate: &Released) -> bool {
    gate.marks.load(Ordering::SeqCst) == 0
}

fn gate_of(leading: u32) -> Released {
    Released {
        leading,
        first: AtomicU64::new(0),
        second: AtomicU64::new(0),
        marks: AtomicU64::new(0),
    }
}

/// Each seat that waits is woken by the end of its own channel's pause, whichever ends first, while the other waits.
#[test]
fn each_waiting_seat_is_woken_by_its_own_channel(rt: HostRuntime) {
    for leading in 1..3u32 {
        perform(
            &rt,
            rt.alloc(),
            b"wait",
            b"wait",
            3,
            Play::Released(gate_of(leading)),
        );
    }
}
