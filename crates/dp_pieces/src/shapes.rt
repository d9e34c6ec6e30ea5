//! Questions about shapes: lists of pieces that a text fits.
mod fitting;
mod length;
mod matching;
mod meeting;
mod name_place;
mod sets;
mod within;

pub use fitting::may_fit;
pub use matching::{covers, may_match};
pub use meeting::pieces_after_match;
pub use within::is_within;
