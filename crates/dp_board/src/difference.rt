//! Where a history and the record of a seat differ.
ghost use Rattle.std.specs.Prelude.{◌≡◌, ◌↔◌, IsTrue, Some, MatchOption, slice_get};
ghost use Rattle.dp_board.specs.Difference as spec;

use crate::entry::Entry;
use crate::seat_call::SeatCall;
use dp_machine::{Event, Reply};

/// The entries of a seat and its record differ at this index of the record, but not before it.
#[derive(Clone, Copy, Debug, PartialEq, Eq)]
pub struct Disagree {
    pub seat: u32,
    pub index: usize,
}

/// Whether two events are the same.
fn is_same_event(left: &Event, right: &Event) -> bool
    ensures { IsTrue result ↔ (left.now ≡ right.now) }
{
    left == right
}

/// Whether two replies are the same.
fn is_same_reply(left: Reply, right: Reply) -> bool
    ensures { IsTrue result ↔ (left ≡ right) }
{
    left == right
}

/// Whether a seat was told of the entry at a place.
pub(crate) fn is_told(call: &SeatCall, place: usize, entry: &Entry) -> bool
    ensures { IsTrue result ↔ (call.now ≡ spec.told_of place entry.now) }
{
    call.place == place
        && is_same_event(&call.event, &entry.event)
        && is_same_reply(call.reply, entry.reply)
}

/// Whether a record has the entry at a place as its item of this index.
fn is_recorded(told: &[SeatCall], index: usize, place: usize, entry: &Entry) -> bool
    ensures { IsTrue result ↔ (slice_get told.now index ≡ Some (spec.told_of place entry.now)) }
{
    match told.get(index) {
        Some(call) => is_told(call, place, entry),
        None => false,
    }
}

/// The first difference between the entries of a seat, with their places from 0, and the seat's record: the least index at which one of
/// them has another item, or none. It is None exactly if they are equal.
pub fn first_difference(entries: &[Entry], seat: u32, told: &[SeatCall]) -> Option<Disagree>
    ensures { MatchOption result (spec.told_to seat entries.now ≡ told.now)
        (λ found. (found.seat ≡ seat) × spec.FirstDiffers (spec.told_to seat entries.now) told.now found.index) }
{
    let mut index = 0;
    for place in 0..entries.len() {
        let entry = &entries[place];
        if entry.seat == seat {
            if !is_recorded(told, index, place, entry) {
                return Some(Disagree { seat, index });
            }
            index += 1;
        }
    }
    if index < told.len() {
        Some(Disagree { seat, index })
    } else {
        None
    }
}
