//! The first difference between a history and a record.
use dp_board::{Disagree, Entry, SeatCall, first_difference};
use dp_machine::{Event, Reply};
use std::process::Abort;

/// Compares the first differences of one entry and one call, which agree, with the expected ones.
fn check_differences(rt: &impl Abort, entries: &[Entry], told: &[SeatCall]) {
    let at_once = Some(Disagree { seat: 0, index: 0 });
    assert!(rt; first_difference(entries, 0, &[]) == at_once);
    assert!(rt; first_difference(entries, 0, told).is_none());
    assert!(rt; first_difference(entries, 1, &[]).is_none());
    assert!(rt; first_difference(&[], 0, told) == at_once);
}

/// The first difference of a history and a record.
#[test]
fn first_difference_of_a_history_and_a_record(rt: HostRuntime) {
    let event = Event::Step { channel: 1 };
    let reply = Reply::NoEntry;
    let entries = [Entry {
        seat: 0,
        event,
        reply,
    }];
    let told = [SeatCall {
        place: 0,
        event: Event::Step { channel: 1 },
        reply,
    }];
    check_differences(&rt, &entries, &told);
}
