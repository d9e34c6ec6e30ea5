//! Areas of a dialplan.
use dp_pieces::Piece;

/// The shapes of the context and of the extension of a place.
#[derive(Drop)]
pub struct KeptArea {
    pub context: Vec<Piece>,
    pub exten: Vec<Piece>,
}
