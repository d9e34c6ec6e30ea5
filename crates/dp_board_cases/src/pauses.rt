//! A channel pauses, and the other seat dials digits and ends the pause.
use crate::acts::step;
use crate::play::{Play, perform};
use dp_board::{Attended, AttendedWhy, Board, Gate, Seat, Session};
use dp_board_fixture::{attend, give, hold};
use dp_machine::{Event, Reply};
use dp_table::StandardApps;
use std::alloc::Global;
use std::process::Abort;
use std::sync::Wait;
use std::sync::atomic::{AtomicU64, Ordering};

/// Holds the thread after its first step until a digit was answered, and marks the turn after the pause if it comes too early.
#[derive(Drop)]
pub(super) struct Paced {
    // The turn after the pause: 0 if the channel pauses before it is attended.
    late: u64,
    stepped: AtomicU64,
    dialled: AtomicU64,
    due: AtomicU64,
    marks: AtomicU64,
}

impl Gate for Paced {
    fn before(&self, _channel: u32, turn: u64) {
        if turn == self.late && self.due.load(Ordering::SeqCst) == 0 {
            self.marks.store(1, Ordering::SeqCst);
        }
    }

    fn after(&self, _channel: u32, _reply: &Reply) {
        self.stepped.store(1, Ordering::SeqCst);
        hold(&self.dialled, &self.marks);
    }
}

/// Gives an event that is done.
pub(super) fn give_done<S: Session, R: Wait + Abort>(
    rt: &R,
    alloc: Global,
    board: &Board<StandardApps, S>,
    seat: &mut Seat<S>,
    event: Event,
) {
    let told = give(rt, alloc, board, seat, event);
    assert!(rt; matches!(told, Some((_, Reply::Done))));
}

/// Lets some time go by.
fn idle(gate: &Paced) {
    for _ in 0..1_000_000u32 {
        gate.marks.load(Ordering::SeqCst);
    }
}

/// Dials a digit once the channel pauses, another when somebody waits for it, and ends the pause some time later.
fn pace<S: Session, R: Wait + Abort>(
    rt: &R,
    alloc: Global,
    board: &Board<StandardApps, S>,
    seat: &mut Seat<S>,
    gate: &Paced,
) {
    let (channel, digit) = (1, b'5');
    hold(&gate.stepped, &gate.marks);
    give_done(rt, alloc, board, seat, Event::Digit { channel, digit });
    gate.dialled.store(1, Ordering::SeqCst);
    idle(gate);
    give_done(rt, alloc, board, seat, Event::Digit { channel, digit });
    idle(gate);
    gate.due.store(1, Ordering::SeqCst);
    give_done(rt, alloc, board, seat, Event::Timeout { channel });
}

/// Lets the channel pause before it is attended.
fn park<S: Session, R: Wait + Abort>(
    rt: &R,
    alloc: Global,
    board: &Board<StandardApps, S>,
    seat: &mut Seat<S>,
    gate: &Paced,
) {
    let told = step(rt, alloc, board, seat, 1);
    assert!(rt; told.is_some());
    gate.stepped.store(1, Ordering::SeqCst);
}

/// Attends the channel to its end, and lets it pause before if the gate says so.
fn attend_paced<S: Session, R: Wait + Abort>(
    rt: &R,
    alloc: Global,
    board: &Board<StandardApps, S>,
    seat: &mut Seat<S>,
    gate: &Paced,
) {
    let mut steps = 2;
    if gate.late == 0 {
        park(rt, alloc, board, seat, gate);
        steps = 1;
    }
    let why = AttendedWhy::Ended;
    let attended = attend(rt, alloc, board, seat, 1, gate, 2);
    assert!(rt; attended == Some(Attended { steps, why }));
}

/// The first seat attends the channel to its end, while the other one ends the pause.
pub(super) fn act_paced<S: Session, R: Wait + Abort>(
    rt: &R,
    alloc: Global,
    board: &Board<StandardApps, S>,
    seat: &mut Seat<S>,
    gate: &Paced,
) {
    if seat.number() == 0 {
        attend_paced(rt, alloc, board, seat, gate);
    } else {
        pace(rt, alloc, board, seat, gate);
    }
}

/// Whether nothing was marked.
pub(super) fn has_paced(gate: &Paced) -> bool {
    gate.marks.load(Ordering::SeqCst) == 0
}

fn gate_of(late: u64) -> Paced {
    Paced {
        late,
        stepped: AtomicU64::new(0),
        dialled: AtomicU64::new(0),
        due: AtomicU64::new(0),
        marks: AtomicU64::new(0),
    }
}

/// A channel that pauses is not stepped until its time ends, even if it pauses before it is attended; a digit wakes the thread that waits
/// for it, which then waits again.
#[test]
fn a_paused_channel_gets_no_step_until_its_time_ends(rt: HostRuntime) {
    for late in 0..2u64 {
        perform(
            &rt,
            rt.alloc(),
            b"wait",
            b"say",
            2,
            Play::Paced(gate_of(late)),
        );
    }
}
