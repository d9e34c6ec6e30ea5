//! Applications that go on, that run outside and that end a call, and names of variables, worked out by hand from the rules.
mod calls;
mod kinds;
mod looks;

use crate::names::calls::{STORIES, Story};
use crate::names::kinds::{KINDS, KindOfNames, VARIABLES, Variable};
use crate::names::looks::{AHEAD, Ahead};
use dp_app::AppTable;
use dp_case_tables::check;
use dp_machine::{Dialplan, Machine, Queues};
use std::alloc::Global;
use std::test::Fail;

/// A machine with the dialplan of these lines.
fn machine_of<T: AppTable>(alloc: Global, lines: &str) -> Result<Machine<T>, Fail> {
    let mut text = String::new(alloc);
    text.push_str("[main]\n")?;
    for line in lines.lines() {
        write!(text, "exten => {line}\n")?;
    }
    let (plan, _) = Dialplan::load(alloc, text.as_bytes())?;
    Ok(Machine::new(alloc, plan, Queues::none(alloc))?)
}

/// Each name of the lists does what its list says, in any case, and other names are those of the table after them.
#[test]
fn applications_of_the_lists_go_on_or_wait(rt: HostRuntime) -> Result<(), Fail> {
    check::<KindOfNames>(rt.alloc(), KINDS)
}

/// What is known of an application that runs outside is reported anew each time.
#[test]
fn applications_outside_clear_their_status(rt: HostRuntime) -> Result<(), Fail> {
    check::<Story>(rt.alloc(), STORIES)
}

/// Unknown arguments do not stop applications that do not look at them.
#[test]
fn applications_that_look_at_their_arguments(rt: HostRuntime) -> Result<(), Fail> {
    check::<Ahead>(rt.alloc(), AHEAD)
}

/// Each name that an application or Asterisk gives a value is distinguished from all others.
#[test]
fn variables_that_applications_or_asterisk_set(rt: HostRuntime) -> Result<(), Fail> {
    check::<Variable>(rt.alloc(), VARIABLES)
}
