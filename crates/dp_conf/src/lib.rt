//! The text layer of the dialplan machine: lines of a configuration text, byte texts, and checked reading and writing.
#![tactic(auto)]

mod conf_line;
mod cut;
mod escaping;
mod fault;
mod first_fault;
mod groups;
mod lines;
mod nest;
mod owning;
mod shallow;
mod taking;
mod text;
mod told;
mod whole;
mod words;

pub use conf_line::{ConfLine, read_lines};
pub use cut::{
    before_last, cut_once, cut_outside, first_argument, first_part, is_blank, split_args, trim,
    trim_start,
};
pub use escaping::{escape, push_escaped};
pub use fault::{ConfFault, LineKind, ReadFault, WriteFailed};
pub use first_fault::{FaultyLine, FirstFault, TakeFault};
pub use groups::{GroupKind, Mark, next_mark, one_reading};
pub use lines::{Content, Line, line_content, opens_block, read_line, without_mark};
pub use nest::nesting;
pub use owning::beside;
pub use shallow::{MOST_NESTING, ShallowText};
pub use std::alloc::AllocError as NoMemory;
pub use taking::{TakeLine, take_lines};
pub use text::Text;
pub use told::{ReadTold, Told, WriteTold};
pub use whole::{MOST_BYTES, read_whole};
pub use words::{read_number, same_word};
