//! The applications for the flow of a call, after the Asterisk documentation's application reference: jumps, subroutines, variables, waits,
//! and those whose media is left out.
#![tactic(auto)]

mod choice;
mod dial;
mod gosub;
mod jump;
mod noop;
mod plain;
mod setting;
mod waiting;

pub use choice::{chosen_side, holds, taken_side};
pub use dial::Dial;
pub use gosub::{
    Gosub, GosubIf, Return, StackPop, SubroutineCall, called_by, locals_of, place_after,
};
pub use jump::{Goto, GotoIf, jump_if};
pub use noop::NoOp;
pub use plain::{Answer, Hangup, Playback, Verbose};
pub use setting::{Set, argument_of};
pub use waiting::{Background, Wait, WaitExten};
