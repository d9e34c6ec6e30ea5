//! The wide table: the applications and functions that people use in dialplans, after the Asterisk documentation's application and function
//! references, and the plain functions over texts and moments from which they are made.
#![tactic(auto)]

mod asterisk_functions;
mod brackets;
mod caller;
mod cell_values;
mod cells;
mod choices;
mod deleting;
mod exec_if;
mod fields;
mod functions;
mod going;
pub mod laws;
mod macros;
mod names;
mod outside;
mod placed_applications;
mod read_names;
mod requests;
mod settings;
mod sight_functions;
mod subroutines;
mod text_functions;
mod texts;
mod time_choice;
mod times;
mod tones;
mod wide_table;

pub use asterisk_functions::is_asterisk_function;
pub use cell_values::assumed_name;
pub use choices::if_value;
pub use deleting::{DbDel, DbDelTree, deleted_mark};
pub use dp_conf::NoMemory;
pub use dp_vars::SetTarget;
pub use exec_if::{
    ExecIf, ExecIfEnd, SideCall, SideCalls, WithExecIf, exec_if_application, exec_if_calls,
};
pub use functions::{WideFunctions, is_computed};
pub use going::{WithGoing, goes_on};
pub use macros::{Macro, MacroExit};
pub use names::{is_given_by_asterisk, is_status};
pub use outside::{WithOutside, is_outside, is_read};
pub use settings::{
    Effect, MSet, SetWide, bare_name, effect_of, outside_sets_what_set_sets, setting_target,
};
pub use subroutines::{GosubIfWide, GosubWide, goes_where_gosub_goes};
pub use texts::{cut_fields, delimiter_of, field_count, filter, to_lower, to_upper};
pub use time_choice::GotoIfTime;
pub use times::{Moment, lies_in, read_moment};
pub use tones::{Busy, Congestion};
pub use wide_table::WideApps;
