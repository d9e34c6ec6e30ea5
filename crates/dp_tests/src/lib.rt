//! The language of test files: what `pbx test` reads, from the bytes of a file to its tests or to all its faults.
//!
//! ```text
//! file        = (head | event)* (`test NAME` (event | `expect` expectation)*)*
//! head        = `dialplan FILE` | `queues FILE` | `clock` moment | `assume NAME..`, each at most once, `dialplan` needed
//! event       = a line of a script with facts, but no `step` and no `show` | `reload FILE`
//!             | `call CONTEXT EXTEN [CALLER]` | `dial CH DIGITS`
//! expectation = [`not`] claim
//! claim       = `CH STATE` | `CH ran` call | `CH passed` call | `CH at CONTEXT,NAME[,PRIORITY]`
//!             | `CH NAME=VALUE` | `global NAME=VALUE` | `rings AGENT..` | `waiting QUEUE N` | `refused [CODE]`
//! call        = `APP` | `APP(ARGS)`
//! ```
//!
//! Blank lines, and lines that begin with `;`, are skipped. `clock` and `assume` after the first `test` are event lines of their test.
#![tactic(auto)]

mod claims;
mod draft;
mod events;
mod expectation;
mod fault;
mod file;
mod heads;
mod items;
mod meaning;
mod meanings;
mod places;
mod reading;
mod refusals;
mod words;

pub use dp_plan::NoMemory;
pub use expectation::{Expectation, ExpectedCall, ExpectedPlace, LineClaim};
pub use fault::{TestFault, TestFaultKind, TestFaults};
pub use file::{Act, HeadLine, Test, TestFile, TestLine, Turns};
pub use items::Items;
pub use reading::read_tests;
