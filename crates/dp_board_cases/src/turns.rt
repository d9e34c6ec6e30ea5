//! A seat attends one channel after another.
use crate::play::{Play, perform};
use dp_board::{Attended, AttendedWhy, Board, Seat, Session};
use dp_board_fixture::{Crossed, attend, gate_of};
use dp_machine::Refusal;
use dp_table::StandardApps;
use std::alloc::Global;
use std::process::Abort;
use std::sync::Wait;

/// For each attendance on one board the channel, its turns, and the result: how many steps it gives, and why it is over.
type Attendances = &'static [(u32, u64, u64, AttendedWhy)];

/// Channels whose extension has one priority, and one that does not exist.
const TURNS: Attendances = &[
    (1, 0, 0, AttendedWhy::TurnsSpent),
    (1, 1, 1, AttendedWhy::TurnsSpent),
    (1, 9, 1, AttendedWhy::Ended),
    (1, 9, 1, AttendedWhy::Ended),
    (3, 1, 1, AttendedWhy::Refused(Refusal::NoChannel)),
    // From here on the refusal is in the record.
    (3, 0, 0, AttendedWhy::TurnsSpent),
    (2, 2, 2, AttendedWhy::Ended),
    (3, 9, 1, AttendedWhy::Refused(Refusal::NoChannel)),
];

/// The calls that the gate gets for channel 1, and for the others: each attendance counts its turns from 0.
const GIVEN: (&str, &str) = ("0 ran 0 none 0 refused", "0 refused 0 ran 1 none 0 refused");

/// Channels that the first step hangs up: one more step would be refused, and is not given.
const HUNG_UP: Attendances = &[
    (1, 2, 1, AttendedWhy::Ended),
    (2, 9, 1, AttendedWhy::Ended),
    (1, 2, 1, AttendedWhy::Ended),
];

/// The calls that the gate gets then.
const GIVEN_HUNG_UP: (&str, &str) = ("0 ran 0 refused", "0 ran");

/// The gate of attendances, which holds nobody.
fn gate(given: (&'static str, &'static str)) -> Crossed {
    gate_of(0, 0, given.0, given.1)
}

/// The first seat attends these channels, one after another.
fn attend_all<S: Session, R: Wait + Abort>(
    rt: &R,
    alloc: Global,
    board: &Board<StandardApps, S>,
    seat: &mut Seat<S>,
    gate: &Crossed,
    attendances: Attendances,
) {
    for &(channel, turns, steps, why) in attendances {
        let attended = attend(rt, alloc, board, seat, channel, gate, turns);
        assert!(rt; attended == Some(Attended { steps, why }));
    }
}

/// The first seat attends channels whose extension has one priority.
pub(super) fn act_turns<S: Session, R: Wait + Abort>(
    rt: &R,
    alloc: Global,
    board: &Board<StandardApps, S>,
    seat: &mut Seat<S>,
    gate: &Crossed,
) {
    if seat.number() == 0 {
        attend_all(rt, alloc, board, seat, gate, TURNS);
    }
}

/// The first seat attends channels that are hung up.
pub(super) fn act_hung_up<S: Session, R: Wait + Abort>(
    rt: &R,
    alloc: Global,
    board: &Board<StandardApps, S>,
    seat: &mut Seat<S>,
    gate: &Crossed,
) {
    if seat.number() == 0 {
        attend_all(rt, alloc, board, seat, gate, HUNG_UP);
    }
}

/// Without turns the attendance is over at once, and a channel that does not exist is refused, whatever is in the record before.
#[test]
fn a_seat_attends_one_channel_after_another(rt: HostRuntime) {
    perform(&rt, rt.alloc(), b"say", b"say", 2, Play::Turns(gate(GIVEN)));
}

/// A channel that a step has ended gets no further step, although turns are left.
#[test]
fn a_hung_up_channel_gets_no_further_step(rt: HostRuntime) {
    perform(
        &rt,
        rt.alloc(),
        b"bye",
        b"bye",
        2,
        Play::HungUp(gate(GIVEN_HUNG_UP)),
    );
}
