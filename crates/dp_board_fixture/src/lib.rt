//! What cases of boards share: gates, which hold a channel until another has acted and know which calls they should get, and types that own
//! a machine, a board or a history.
//!
//! This is only for tests.
#![tactic(auto)]

mod owned;

use dp_board::{Entry, Gate};
use dp_machine::Reply;
pub use owned::{BoardMachine, Retry, SeatReply, attend, give, machine_of, settle};
use std::sync::atomic::{AtomicU64, Ordering};
use std::thread::yield_now;

/// The number of turns of a loop for which a gate waits. A turn lets another thread run: ten million loads alone are over before one has
/// begun.
const MOST_TURNS: u32 = 10_000_000;

/// Waits until a count has come this far, and marks a failure if that takes too long.
pub fn hold_until(count: &AtomicU64, wanted: u64, marks: &AtomicU64) {
    for _ in 0..MOST_TURNS {
        if count.load(Ordering::SeqCst) >= wanted {
            return;
        }
        yield_now();
    }
    marks.store(1, Ordering::SeqCst);
}

/// Waits until a flag is set, and marks a failure if that takes too long.
pub fn hold(flag: &AtomicU64, marks: &AtomicU64) {
    hold_until(flag, 1, marks);
}

/// The calls that a gate should get for a channel: the turn and the reply of each event, separated by blanks, as `0 ran 1 none`.
#[derive(Drop)]
struct ExpectedCalls {
    wanted: &'static str,
    given: AtomicU64,
}

impl ExpectedCalls {
    fn of(wanted: &'static str) -> ExpectedCalls {
        ExpectedCalls {
            wanted,
            given: AtomicU64::new(0),
        }
    }

    /// The word of the next call, which is empty after the last one.
    fn next(&self) -> &'static str {
        let given = self.given.fetch_add(1, Ordering::SeqCst);
        self.wanted.split(' ').nth(given as usize).unwrap_or("")
    }

    fn are_given(&self) -> bool {
        self.given.load(Ordering::SeqCst) == self.wanted.split(' ').count() as u64
    }
}

/// The word of a reply to a step.
fn word_of(reply: &Reply) -> &'static str {
    match reply {
        Reply::Ran(_) => "ran",
        Reply::NoEntry => "none",
        Reply::Refused(_) => "refused",
        _ => "other",
    }
}

/// Holds one channel before its first turn until the other channel has had all its turns, and the other channel after each of its turns
/// until the first has come to the gate. So an event that is given before its gate is called comes too early in the history.
#[derive(Drop)]
pub struct Crossed {
    held: u32,
    other: u32,
    // For channel 1, and for any other.
    first: ExpectedCalls,
    second: ExpectedCalls,
    come: AtomicU64,
    done: AtomicU64,
    marks: AtomicU64,
}

impl Crossed {
    fn calls_of(&self, channel: u32) -> &ExpectedCalls {
        if channel == 1 {
            &self.first
        } else {
            &self.second
        }
    }

    /// Marks a call that is not the expected one.
    fn mark_unless(&self, is_wanted: bool) {
        if !is_wanted {
            self.marks.store(1, Ordering::SeqCst);
        }
    }

    /// Whether the calls were the expected ones, no thread was held for too long, and the events of the other channel come before those of
    /// the one that was held.
    pub fn fits(&self, entries: &[Entry]) -> bool {
        self.marks.load(Ordering::SeqCst) == 0
            && self.first.are_given()
            && self.second.are_given()
            && are_parted(entries, self.other)
    }
}

/// Whether all events of the channel come before those of others.
fn are_parted(entries: &[Entry], channel: u32) -> bool {
    let mut is_after = false;
    for entry in entries {
        if entry.event.channel() != channel {
            is_after = true;
        } else if is_after {
            return false;
        }
    }
    true
}

impl Gate for Crossed {
    fn before(&self, channel: u32, turn: u64) {
        let word = self.calls_of(channel).next();
        self.mark_unless(word.parse::<u64>().ok() == Some(turn));
        if channel == self.held && turn == 0 {
            self.come.store(1, Ordering::SeqCst);
            hold(&self.done, &self.marks);
        }
    }

    fn after(&self, channel: u32, reply: &Reply) {
        let calls = self.calls_of(channel);
        self.mark_unless(calls.next() == word_of(reply));
        if channel == self.other {
            hold(&self.come, &self.marks);
            if calls.are_given() {
                self.done.store(1, Ordering::SeqCst);
            }
        }
    }
}

/// A gate that holds a channel until the other is done, or nobody if both are 0; with the calls that it should get for channel 1, and for
/// others.
pub fn gate_of(held: u32, other: u32, first: &'static str, second: &'static str) -> Crossed {
    Crossed {
        held,
        other,
        first: ExpectedCalls::of(first),
        second: ExpectedCalls::of(second),
        come: AtomicU64::new(0),
        done: AtomicU64::new(0),
        marks: AtomicU64::new(0),
    }
}
