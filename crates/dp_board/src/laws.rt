//! Laws of settled histories.
ghost use Rattle.std.specs.Prelude.{ℕ, List, All};
ghost use Rattle.dp_app.specs.Rows.{Meanings};
ghost use Rattle.dp_machine.specs.Isolation.{IsUnseen};
ghost use Rattle.dp_machine.specs.World.{World};
ghost use Rattle.dp_board.specs.Log.{Log, events_in};
ghost use Rattle.dp_board.specs.Settled.{IsSettled};
ghost use Rattle.dp_board.specs.Silence.{MayBeSilent};
ghost use Rattle.dp_board.specs.Sittings.{PlacesRise, SeatSitting};

/// The places in each seat's record rise: each of its calls occurs once in the history, in the order in which the seat made them. This
/// function does nothing.
pub fn places_rise()
    ensures { (meanings : Meanings) (first : World) (count : ℕ) (seats : List SeatSitting) (history : Log)
        → IsSettled meanings first count seats history → All PlacesRise seats }
{}

/// A channel that is unseen in the events of a history may as well be silent: without its events each other call has the reply in its
/// entry, and the last world is the same but for this channel. This function does nothing.
pub fn silence()
    ensures { (meanings : Meanings) (first : World) (count : ℕ) (seats : List SeatSitting) (history : Log) (channel : ℕ)
        → IsSettled meanings first count seats history → IsUnseen meanings channel first (events_in history.entries)
        → MayBeSilent meanings first channel history }
{}
