//! Two channels are attended on two threads, and gates hold one until the other has acted.
use crate::acts::channel_of;
use crate::play::{Play, perform};
use dp_board::{Attended, AttendedWhy, Board, Seat, Session};
use dp_board_fixture::{Crossed, attend, gate_of};
use dp_table::StandardApps;
use std::alloc::Global;
use std::process::Abort;
use std::sync::Wait;

/// A channel that ended with its second step.
pub(super) const ENDED: Attended = Attended {
    steps: 2,
    why: AttendedWhy::Ended,
};

/// The seat's channel is attended to its end.
pub(super) fn act_crossed<S: Session, R: Wait + Abort>(
    rt: &R,
    alloc: Global,
    board: &Board<StandardApps, S>,
    seat: &mut Seat<S>,
    gate: &Crossed,
) {
    let channel = channel_of(seat);
    let attended = attend(rt, alloc, board, seat, channel, gate, 2);
    assert!(rt; attended == Some(ENDED));
}

/// Each of two channels is attended while the other's thread is held before its first step, and the gate is called around each step.
#[test]
fn a_gate_holds_one_seat_until_the_other_has_acted(rt: HostRuntime) {
    for held in 1..3u32 {
        perform(
            &rt,
            rt.alloc(),
            b"say",
            b"say",
            2,
            Play::Crossed(gate_of(held, 3 - held, "0 ran 1 none", "0 ran 1 none")),
        );
    }
}
