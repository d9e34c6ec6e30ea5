//! The debugger.
ghost use Rattle.std.specs.Prelude.{◌≡◌, ◌≤◌, ◌<◌, ◌+◌, ◌++◌, ◌∷◌, [], length, IfNone, IfSome, None, OnErr, OnOk};
ghost use Rattle.dp_app.specs.Rows.{with_functions};
ghost use Rattle.dp_machine.specs.Events.{event_row};
ghost use Rattle.dp_debug.specs.Breaks.{first_before};
ghost use Rattle.dp_debug.specs.Cut.{IsRun, IsWhy};
ghost use Rattle.dp_debug.specs.declared.halt.Why.TheVariants.{End};

use crate::breaks::{Break, first_before};
use crate::halt::{Halt, Why};
use dp_app::AppTable;
use dp_machine::{Event, Machine, NoMemory, Reply};
use std::alloc::Global;
use std::marker::Model;

/// A debugger. Contracts see it as the replies to the events that its run took.
#[derive(Drop)]
pub struct Debugger {
    trace: Vec<Reply>,
}

impl Model for Debugger {
    ghost use Rattle.std.specs.Prelude.{List};
    ghost use Rattle.dp_machine.specs.declared.reply.Reply.{Reply};

    ghost Value = { List Reply };

    ghost view = { λ debugger. debugger.trace.items };
}

impl Debugger {
    /// A debugger that has not run anything.
    pub fn new(alloc: Global) -> Self
        ensures { result ≡ [] }
    {
        Debugger {
            trace: Vec::new(alloc),
        }
    }

    /// The replies to the events that the run took. A reply that names an entry must be read in the dialplan that was in force at its
    /// event. The owner of the events knows it: it is that of the last successful `Reload` before the event, or the first one if there is
    /// none.
    pub fn trace(&self) -> &[Reply]
        ensures { result.now ≡ self.now }
    {
        &self.trace
    }

    /// Runs the machine over the events until a break holds before one, with an empty trace. If memory runs out it halts after the events
    /// that it took.
    pub fn run<T: AppTable>(
        &mut self,
        alloc: Global,
        machine: &mut Machine<T>,
        events: &[Event],
        breaks: &[Break],
    ) -> Halt
        ensures { IsRun (with_functions T.rows T.Functions.table) machine.old events.now breaks.now 0 0 [] result self.new machine.new }
    {
        self.trace.clear();
        let rest = EventsFrom { events, from: 0 };
        go_on(alloc, &mut self.trace, machine, rest, breaks)
    }

    /// Continues a run that has halted before the event with this number: it takes that event without checking the breaks, then does as
    /// [`Debugger::run`] does; the trace grows. If memory runs out at that event nothing has changed. If there is no such event it is at
    /// the end.
    pub fn resume<T: AppTable>(
        &mut self,
        alloc: Global,
        machine: &mut Machine<T>,
        events: &[Event],
        taken: usize,
        breaks: &[Break],
    ) -> Halt
        ensures on { taken < length events.now
            → IsRun (with_functions T.rows T.Functions.table) machine.old events.now breaks.now taken (taken + 1) self.old result self.new machine.new }
        ensures end { length events.now ≤ taken → result ≡ record { taken = length events.now; why = End } }
        ensures trace { length events.now ≤ taken → self.new ≡ self.old }
        ensures world { length events.now ≤ taken → machine.new ≡ machine.old }
    {
        let Some(event) = events.get(taken) else {
            return Halt {
                taken: events.len(),
                why: Why::End,
            };
        };
        match take(alloc, &mut self.trace, machine, event) {
            Ok(()) => {
                let rest = EventsFrom {
                    events,
                    from: taken + 1,
                };
                go_on(alloc, &mut self.trace, machine, rest, breaks)
            }
            Err(_) => Halt {
                taken,
                why: Why::NoMemory,
            },
        }
    }
}

/// The events of a run from the one with a number on.
#[derive(Clone, Copy)]
struct EventsFrom<'a> {
    events: &'a [Event],
    from: usize,
}

/// Runs the machine over these events until a break holds before one.
fn go_on<T: AppTable>(
    alloc: Global,
    trace: &mut Vec<Reply>,
    machine: &mut Machine<T>,
    rest: EventsFrom<'_>,
    breaks: &[Break],
) -> Halt
    requires { rest.from ≤ length rest.events.now }
    ensures { IsRun (with_functions T.rows T.Functions.table) machine.old rest.entry.events.now breaks.now rest.entry.from rest.entry.from
        trace.old.items result trace.new.items machine.new }
{
    let events = rest.events;
    for taken in rest.from..events.len() {
        if let Some(why) = turn(alloc, trace, machine, &events[taken], breaks) {
            return Halt { taken, why };
        }
    }
    Halt {
        taken: events.len(),
        why: Why::End,
    }
}

/// Gives the machine one event, or says why the run halts before it.
fn turn<T: AppTable>(
    alloc: Global,
    trace: &mut Vec<Reply>,
    machine: &mut Machine<T>,
    event: &Event,
    breaks: &[Break],
) -> Option<Why>
    ensures none { IfNone result (first_before machine.old event.now breaks.now ≡ None) }
    ensures trace { IfNone result (trace.new.items
        ≡ trace.old.items ++ (event_row (with_functions T.rows T.Functions.table) machine.old event.now).1 ∷ []) }
    ensures world { IfNone result (machine.new ≡ (event_row (with_functions T.rows T.Functions.table) machine.old event.now).0) }
    ensures why { IfSome result (λ why. IsWhy 1 0 0 (first_before machine.old event.now breaks.now) why) }
    ensures same_trace { IfSome result (λ why. trace.new.items ≡ trace.old.items) }
    ensures same_world { IfSome result (λ why. machine.new ≡ machine.old) }
{
    if let Some(number) = first_before(machine, event, breaks) {
        return Some(Why::Break(number));
    }
    match take(alloc, trace, machine, event) {
        Ok(()) => None,
        Err(_) => Some(Why::NoMemory),
    }
}

/// Gives the machine one event, and adds the reply to the trace.
fn take<T: AppTable>(
    alloc: Global,
    trace: &mut Vec<Reply>,
    machine: &mut Machine<T>,
    event: &Event,
) -> Result<(), NoMemory>
    ensures ok { OnOk result (trace.new.items ≡ trace.old.items ++ (event_row (with_functions T.rows T.Functions.table) machine.old event.now).1 ∷ []) }
    ensures world { OnOk result (machine.new ≡ (event_row (with_functions T.rows T.Functions.table) machine.old event.now).0) }
    ensures trace { OnErr result (trace.new.items ≡ trace.old.items) }
    ensures err { OnErr result (machine.new ≡ machine.old) }
{
    trace.reserve(1)?;
    let reply = machine.apply_kept(alloc, event)?;
    trace.push(reply).unwrap();
    Ok(())
}
