//! Which seats of a board are present.
ghost use Rattle.std.specs.Prelude.{◌≡◌, ◌+◌, ◌≤◌, false, length, replicate, MatchOption};
ghost use Rattle.dp_board.specs.steps.Presence as marks;
ghost use Rattle.dp_board.specs.Settled as settled;

use crate::seat::Seat;
use crate::session::Session;

/// Marks the number of each seat.
fn mark_seats<S: Session>(present: &mut [bool], seats: &[Seat<S>])
    requires { S.parts ≡ length present.old + 1 }
    ensures len { length present.new ≡ length present.old }
    ensures marks { marks.MarksSeats present.old seats.now present.new }
    ensures count { marks.unmarked_in present.old ≤ marks.unmarked_in present.new + length seats.now }
{
    for i in 0..seats.len() {
        let number = seats[i].number() as usize;
        present[number] = true;
    }
}

/// The least number that has no mark.
fn least_unmarked(present: &[bool]) -> Option<usize>
    ensures { MatchOption result (marks.AllMarked present.now × (marks.unmarked_in present.now ≡ 0))
        (marks.IsLeastUnmarked present.now) }
{
    for number in 0..present.len() {
        if !present[number] {
            return Some(number);
        }
    }
    None
}

/// The least number of a seat that is not among these, on a board with so many seats. The table starts without marks. If all seats are
/// there, there are at least so many.
pub(crate) fn least_absent<S: Session>(
    present: &mut [bool],
    count: u32,
    seats: &[Seat<S>],
) -> Option<u32>
    requires parts { S.parts ≡ count + 1 }
    requires fresh { present.old ≡ replicate count false }
    ensures { MatchOption result (settled.AllPresent count seats.now × (count ≤ length seats.now))
        (settled.IsLeastAbsent count seats.now) }
{
    mark_seats(present, seats);
    let number = least_unmarked(present)?;
    Some(number as u32)
}
