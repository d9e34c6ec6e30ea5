//! Whether records agree with the entries of a history, checked by the places in them.
ghost use Rattle.std.specs.Prelude.{◌≡◌, ◌<◌, ◌↔◌, All, IsTrue, length, replicate, slice_get};
ghost use Rattle.dp_board.specs.Difference as spec;
ghost use Rattle.dp_board.specs.steps.Places as places;

use crate::difference::is_told;
use crate::entry::Entry;
use crate::seat_call::SeatCall;

/// Counts the entries of each seat. The counts start at 0.
pub(crate) fn count_entries(counts: &mut [usize], entries: &[Entry])
    requires fresh { counts.old ≡ replicate (length counts.old) 0 }
    requires seated { All (λ entry. entry.seat < length counts.old) entries.now }
    ensures len { length counts.new ≡ length counts.old }
    ensures counts { places.CountsEntries entries.now counts.new }
{
    for entry in entries {
        counts[entry.seat as usize] += 1;
    }
}

/// Whether a call is what the entry at its place tells the seat.
fn is_told_at_place(entries: &[Entry], seat: u32, call: &SeatCall) -> bool
    ensures { IsTrue result ↔ places.IsToldBy seat call.now (slice_get entries.now call.now.place) }
{
    match entries.get(call.place) {
        Some(entry) => entry.seat == seat && is_told(call, call.place, entry),
        None => false,
    }
}

/// Whether a record is what the entries tell the seat, which has so many of them. Only the record is walked: if each call is told at its
/// place, the places rise, and there are as many calls as entries of the seat, it has all of them.
pub(crate) fn is_record(entries: &[Entry], seat: u32, told: &[SeatCall], count: usize) -> bool
    requires { count ≡ length (spec.told_to seat entries.now) }
    ensures { IsTrue result ↔ (spec.told_to seat entries.now ≡ told.now) }
{
    let mut next = 0;
    for call in told {
        if call.place < next || !is_told_at_place(entries, seat, call) {
            return false;
        }
        next = call.place + 1;
    }
    told.len() == count
}
