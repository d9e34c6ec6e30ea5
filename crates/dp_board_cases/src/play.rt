//! Plays: a board is opened over a machine with two calls, its seats act, and it is settled. One function owns the history, and the plays
//! take it by reference.
ghost use Rattle.std.specs.Prelude.{◌≡◌, ◌+◌};

use crate::acts::{act_step, check_steps, told_of};
use crate::again::attend_again;
use crate::gates::act_crossed;
use crate::pauses::{Paced, act_paced, has_paced};
use crate::releases::{Released, act_released, has_released};
use crate::reloads::{act_reload, check_reload};
use crate::turns::{act_hung_up, act_turns};
use dp_board::{Board, History, Seat, Session};
use dp_board_fixture::{BoardMachine, Crossed, Retry, SeatReply, machine_of, settle};
use dp_table::StandardApps;
use std::alloc::Global;
use std::marker::Brand;
use std::process::Abort;
use std::sync::Wait;
use std::sync::ledger::Blank;
use std::thread::{Threads, for_each_mut};

/// What the seats of a board do.
#[derive(Drop)]
pub(super) enum Play {
    /// Each of two seats steps a channel of its own, in threads.
    Steps,
    /// Each of two seats steps a channel of its own, one after the other.
    StepsAlone,
    /// Each of two seats attends a channel of its own, in threads, through this gate.
    Crossed(Crossed),
    /// Each of two seats attends a channel of its own, one after the other.
    AttendedAlone,
    /// One seat attends a channel that pauses, and the other ends the pause.
    Paced(Paced),
    /// The first seat attends one channel after another, through this gate.
    Turns(Crossed),
    /// The first seat attends one channel after another, each of which is hung up at once, through this gate.
    HungUp(Crossed),
    /// Two seats attend a channel each, which pause, and the third ends one pause after the other.
    Released(Released),
    /// The second seat reloads between two steps of the first.
    Reload,
    /// There are no seats.
    Nothing,
}

/// Acts by one of the seats, whichever thread it is in.
fn act_one<S: Session, R: Wait + Abort>(
    rt: &R,
    alloc: Global,
    board: &Board<StandardApps, S>,
    seat: &mut Seat<S>,
    play: &Play,
) {
    match play {
        Play::Crossed(gate) => act_crossed(rt, alloc, board, seat, gate),
        Play::Paced(gate) => act_paced(rt, alloc, board, seat, gate),
        Play::AttendedAlone => attend_again(rt, alloc, board, seat),
        Play::Turns(gate) => act_turns(rt, alloc, board, seat, gate),
        Play::HungUp(gate) => act_hung_up(rt, alloc, board, seat, gate),
        Play::Released(gate) => act_released(rt, alloc, board, seat, gate),
        _ => act_step(rt, alloc, board, seat, retry_of(play)),
    }
}

/// Whether a call that runs out of memory is repeated. In all other plays there is memory, and no call may say otherwise.
fn retry_of(play: &Play) -> Retry {
    match play {
        Play::StepsAlone | Play::AttendedAlone => Retry::Once,
        _ => Retry::Never,
    }
}

/// The greatest number of threads of a play: one for each of its seats.
const MOST_THREADS: usize = 3;

/// Acts by all seats at once.
fn act_at_once<S: Session + Send + Sync, R: Threads + Wait + Abort + Sync>(
    rt: &R,
    alloc: Global,
    board: &Board<StandardApps, S>,
    seats: &mut [Seat<S>],
    play: &Play,
) {
    let act = |_place: usize, seat: &mut Seat<S>| act_one(rt, alloc, board, seat, play);
    for_each_mut(rt, seats, MOST_THREADS, &act);
}

/// Acts by one seat after another.
fn act_in_turn<S: Session, R: Wait + Abort>(
    rt: &R,
    alloc: Global,
    board: &Board<StandardApps, S>,
    seats: &mut [Seat<S>],
    play: &Play,
) {
    for seat in seats {
        act_one(rt, alloc, board, seat, play);
    }
}

/// Acts by the seats.
fn act<S: Session + Send + Sync, R: Threads + Wait + Abort + Sync>(
    rt: &R,
    alloc: Global,
    board: &Board<StandardApps, S>,
    seats: &mut [Seat<S>],
    play: &Play,
) {
    match play {
        Play::Steps | Play::Crossed(_) | Play::Paced(_) | Play::Released(_) => {
            act_at_once(rt, alloc, board, seats, play);
        }
        Play::Reload => act_reload(rt, alloc, board, seats),
        _ => act_in_turn(rt, alloc, board, seats, play),
    }
}

/// The number of calls that the seats make.
fn calls_of(play: &Play) -> usize {
    match play {
        Play::Steps | Play::StepsAlone => 2,
        Play::Crossed(_) | Play::AttendedAlone => 4,
        Play::Paced(_) => 5,
        Play::Released(_) => 6,
        Play::Turns(_) => 7,
        Play::Reload | Play::HungUp(_) => 3,
        Play::Nothing => 0,
    }
}

/// Compares the settled history with what the seats did, and their records.
fn check(
    rt: &impl Abort,
    alloc: Global,
    history: &History<StandardApps>,
    play: &Play,
    told: Option<(SeatReply, SeatReply)>,
) {
    assert!(rt; history.entries().len() == calls_of(play));
    match play {
        Play::Steps | Play::StepsAlone => {
            check_steps(rt, alloc, told.expect(rt, "two calls"), history);
        }
        Play::Crossed(gate) | Play::Turns(gate) | Play::HungUp(gate) => {
            assert!(rt; gate.fits(history.entries()));
        }
        Play::Paced(gate) => assert!(rt; has_paced(gate)),
        Play::Released(gate) => assert!(rt; has_released(gate)),
        Play::Reload => check_reload(rt, alloc, history),
        _ => {}
    }
}

/// The seats of a board act, it is settled, and its history is compared with what they did.
fn play_out<S: Session + Send + Sync, R: Threads + Wait + Abort + Sync>(
    rt: &R,
    alloc: Global,
    board: Board<StandardApps, S>,
    mut seats: Vec<Seat<S>>,
    play: &Play,
) {
    act(rt, alloc, &board, &mut seats, play);
    let told = told_of(&seats);
    let history = settle(alloc, board, seats, retry_of(play)).expect(rt, "settled");
    check(rt, alloc, &history, play, told);
}

/// Plays on a board with this number of seats over the machine, which is handed back if the board does not open.
fn play_on<S: Session + Send + Sync, R: Threads + Wait + Abort + Sync>(
    rt: &R,
    alloc: Global,
    blank: Blank,
    machine: BoardMachine,
    seats: u32,
    play: &Play,
) -> Option<BoardMachine>
    requires name { blank.name ≡ S.name }
    requires parts { (blank.parts ≡ S.parts) × (blank.parts ≡ seats + 1) }
    requires opening { machine ≡ S.opening }
{
    match Board::<StandardApps, S>::open(alloc, blank, machine, seats) {
        Ok((board, seats)) => {
            play_out(rt, alloc, board, seats, play);
            None
        }
        Err((machine, _)) => Some(machine),
    }
}

/// Does the same in a session of its own.
fn play_in_session<R: Threads + Wait + Abort + Sync>(
    rt: &R,
    alloc: Global,
    machine: BoardMachine,
    seats: u32,
    play: &Play,
) -> Option<BoardMachine> {
    let blank = Blank::new(u64::from(seats) + 1);
    play_on::<Brand, R>(rt, alloc, blank, machine, seats, play)
}

/// Plays on a board with this number of seats, with channel 1 at one extension and channel 2 at the other. If the machine is handed back
/// because memory ran out, the play is repeated if it is one for out of memory.
pub(super) fn perform<R: Threads + Wait + Abort + Sync>(
    rt: &R,
    alloc: Global,
    first: &[u8],
    second: &[u8],
    seats: u32,
    play: Play,
) {
    let machine = machine_of(alloc, first, second).expect(rt, "the machine");
    if let Some(machine) = play_in_session(rt, alloc, machine, seats, &play) {
        assert!(rt; retry_of(&play) == Retry::Once);
        let given_back = play_in_session(rt, alloc, machine, seats, &play);
        assert!(rt; given_back.is_none());
    }
}
