//! A seat reloads between the steps of another seat's channel.
use crate::acts::has_value;
use crate::play::{Play, perform};
use dp_board::{Board, Entry, History, Seat, Session};
use dp_board_fixture::give;
use dp_machine::{EntryId, Event, Phase, Reply, SharedText, Text};
use dp_table::StandardApps;
use std::alloc::Global;
use std::process::Abort;
use std::sync::Wait;

/// The dialplan of the reload.
const SECOND: &[u8] = b"[globals]
X=${X}2
[main]
exten => _1XX,2,Hangup()
";

/// The seat of each call in the history, and its reply: the first step runs an entry of the first dialplan, and the last one runs the only
/// entry of the second.
const CALLS: &[(u32, Reply)] = &[
    (
        0,
        Reply::Ran(EntryId {
            context: 0,
            entry: 4,
        }),
    ),
    (1, Reply::Done),
    (
        0,
        Reply::Ran(EntryId {
            context: 0,
            entry: 0,
        }),
    ),
];

/// The event of a call: channel 1 steps, and the other seat reloads.
fn event_of(rt: &impl Abort, alloc: Global, seat: u32) -> Event {
    if seat == 0 {
        return Event::Step { channel: 1 };
    }
    let text = Text::copy_of(alloc, SECOND).ok().expect(rt, "the text");
    let text = SharedText::new(alloc, text).ok();
    Event::Reload {
        text: text.expect(rt, "the text"),
    }
}

/// One call after another, each of which gets its place and its reply.
pub(super) fn act_reload<S: Session, R: Wait + Abort>(
    rt: &R,
    alloc: Global,
    board: &Board<StandardApps, S>,
    seats: &mut [Seat<S>],
) {
    for (place, call) in CALLS.iter().enumerate() {
        let event = event_of(rt, alloc, call.0);
        let seat = seats.get_mut(call.0 as usize).expect(rt, "a seat");
        let told = give(rt, alloc, board, seat, event);
        assert!(rt; told == Some((place, call.1)));
    }
}

fn is_call(entry: &Entry, seat: u32, reply: Reply) -> bool {
    entry.seat == seat
        && entry.reply == reply
        && matches!(entry.event, Event::Reload { .. }) == (seat == 1)
}

/// Whether the entries are the calls.
fn are_calls(entries: &[Entry]) -> bool {
    for (entry, call) in entries.iter().zip(CALLS) {
        if !is_call(entry, call.0, call.1) {
            return false;
        }
    }
    true
}

/// Compares the history with these results. The globals of the second dialplan are set over those of the first.
pub(super) fn check_reload(rt: &impl Abort, alloc: Global, history: &History<StandardApps>) {
    let machine = history.machine();
    assert!(rt; are_calls(history.entries()) && machine.phase(1) == Some(&Phase::Ended));
    assert!(rt; has_value(rt, alloc, machine, 1, b"X", b"12"));
    assert!(rt; has_value(rt, alloc, machine, 1, b"Y", b"5"));
}

/// The places rise, and the board settles.
#[test]
fn a_seat_reloads_between_the_steps_of_another(rt: HostRuntime) {
    perform(&rt, rt.alloc(), b"100", b"say", 2, Play::Reload);
}
