//! Unexpanded texts as pieces: a known byte, one byte of a set, or any number of bytes of a set.
#![tactic(auto)]

mod arguments;
mod byte_set;
mod cuts;
pub mod laws;
mod name_table;
mod names_at;
mod parts;
mod piece;
mod reader;
mod shapes;
mod trims;

pub use arguments::{front, shapes_of, without};
pub use byte_set::ByteSet;
pub use cuts::{Cutting, are_clean, cut_known, cut_last, cut_level, cut_pieces, first_part};
pub use name_table::NameTable;
pub use names_at::{NamesAt, expression_pieces};
pub use parts::part_of;
pub use piece::{Piece, add_pieces, any_bytes, bytes_in, bytes_of, known_text};
pub use reader::{GroupPieces, NamedPieces, read_pieces};
pub use shapes::{covers, is_within, may_fit, may_match, pieces_after_match};
pub use trims::trim_pieces;
