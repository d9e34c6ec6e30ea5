//! How a call gets to an area.
use dp_pieces::Piece;
use dp_plan::EntryId;

/// An area in which a call may be: the number of its context and the shape of its extension, and how the call gets there.
#[derive(Drop)]
pub struct Route {
    pub context: usize,
    pub exten: Vec<Piece>,
    pub cause: Cause,
}

/// How a call gets to an area.
#[derive(Clone, Copy, Debug, PartialEq, Eq)]
pub enum Cause {
    /// A call comes in.
    Entrance,
    /// The entry runs in the area of the route with this number.
    Jump(usize, EntryId),
    /// The call ends in the area of the route with this number.
    End(usize),
    /// In the area of the route with this number digits are dialled that no extension matches.
    Invalid(usize),
}
