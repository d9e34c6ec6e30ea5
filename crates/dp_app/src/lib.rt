//! The meaning of an application of a dialplan, after the Asterisk documentation's application reference: a row, which
//! gives for its arguments and a cell the cell after it and where the channel goes, under laws that every table keeps.
#![tactic(auto)]

mod application;
mod cell;
mod exten;
mod knowledge;
mod moves;
mod number;
mod parts;
mod phase;
mod place;
mod table;
mod target;
mod touch;

pub use application::{AppList, AppTable, Application};
pub use cell::Cell;
pub use exten::Exten;
pub use knowledge::KnownTable;
pub use moves::Move;
pub use number::AppNumber;
pub use parts::{has_option, is_given, part};
pub use phase::Phase;
pub use place::Place;
pub use table::{NoApps, With};
pub use target::{Target, TargetParts};
pub use touch::Touch;
