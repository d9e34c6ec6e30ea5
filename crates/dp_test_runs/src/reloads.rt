//! Which tests may put another dialplan in force.
ghost use Rattle.std.specs.Prelude.{◌≡◌};
ghost use Rattle.std.specs.Option.{option_map};
ghost use Rattle.dp_machine.specs.Reloading.{is_reload};
ghost use Rattle.dp_test_runs.specs.steps.Reloads as spec;

use dp_commands::{ScriptLine, Turn};
use dp_machine::Event;
use dp_tests::{Act, HeadLine, Test, TestFile, TestLine};
use dp_wide_runs::WideTurn;

/// Whether an event is a reload.
fn event_reloads(event: &Event) -> bool
    ensures { result ≡ is_reload event.now }
{
    matches!(event, Event::Reload { .. })
}

/// Whether a turn is a reload.
fn turn_reloads(turn: &WideTurn) -> bool
    ensures { result ≡ spec.turn_reloads turn.now }
{
    match turn {
        WideTurn::Plain(Turn::Event(event)) => event_reloads(event),
        WideTurn::Plain(Turn::Show { .. }) | WideTurn::Further { .. } | WideTurn::Pass { .. } => {
            false
        }
    }
}

/// Whether one of these turns is a reload.
fn turns_reload(turns: &[ScriptLine<WideTurn>]) -> bool
    ensures { result ≡ spec.turns_reload turns.now }
{
    turns.iter().any(|line| turn_reloads(&line.turn))
}

/// Whether what a line does may be a reload.
fn act_reloads(act: &Act) -> bool
    ensures { result ≡ spec.act_reloads act.now }
{
    match act {
        Act::Turns(turns) => turns_reload(turns.as_slice()),
        Act::Reload(_) => true,
        Act::Expect(_) => false,
    }
}

/// Whether one of these lines may reload.
fn lines_reload(lines: &[TestLine]) -> bool
    ensures { result ≡ spec.lines_reload lines.now }
{
    lines.iter().any(|line| act_reloads(&line.act))
}

/// Whether a line of the head that states a fact may reload.
fn fact_reloads(head: Option<&HeadLine>) -> bool
    ensures { result ≡ spec.fact_reloads (option_map (λ head. head.now) head.entry) }
{
    match head {
        Some(head) => turns_reload(head.turns.as_slice()),
        None => false,
    }
}

/// Whether the head or the setup of a file may reload.
fn start_reloads(file: &TestFile) -> bool
    ensures { result ≡ spec.start_reloads file.now }
{
    fact_reloads(file.clock.as_ref())
        || fact_reloads(file.assume.as_ref())
        || lines_reload(file.setup.as_slice())
}

/// Whether a test of a file may reload. If not, it leaves the dialplan in force that it found.
pub(crate) fn test_reloads(file: &TestFile, test: &Test) -> bool
    ensures { result ≡ spec.test_reloads file.now test.now }
{
    start_reloads(file) || lines_reload(test.lines.as_slice())
}
