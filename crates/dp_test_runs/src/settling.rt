//! How a world settles after an event.
ghost use Rattle.std.specs.Prelude.{◌≡◌, ◌++◌, IfOk, OnOk, is_some};
ghost use Rattle.std.specs.Option.{option_map};
ghost use Rattle.dp_test_runs.specs.Ran.{ran_after};
ghost use Rattle.dp_test_runs.specs.Settling as spec;

use crate::ran_entries::{RanEntries, give};
use dp_machine::{Event, Machine, NoMemory, Phase};
use dp_wide::WideApps;
use std::alloc::Global;

/// The greatest number of steps after one event.
const MOST_STEPS: u32 = 10_000;

/// Whether there is a channel, and it is ready.
fn is_ready(phase: Option<&Phase>) -> bool
    ensures { result ≡ spec.is_ready (option_map (λ phase. phase.now) phase.entry) }
{
    matches!(phase, Some(Phase::Ready))
}

/// Whether there is a channel with this number.
pub(crate) fn is_channel(machine: &Machine<WideApps>, number: u32) -> bool
    ensures { result ≡ spec.is_channel machine.now number }
{
    machine.phase(number).is_some()
}

/// Whether the channel with this number can be stepped.
fn can_step(alloc: Global, machine: &mut Machine<WideApps>, number: u32) -> Result<bool, NoMemory>
    ensures can { IfOk result (λ can. can ≡ spec.can_step machine.old number) }
    ensures same { machine.new ≡ machine.old }
{
    if !is_ready(machine.phase(number)) {
        return Ok(false);
    }
    let unknown = machine.unknown_ahead(alloc, number)?;
    Ok(unknown.is_none())
}

/// The channel that is stepped next.
fn next_to_step(alloc: Global, machine: &mut Machine<WideApps>) -> Result<Option<u32>, NoMemory>
    ensures next { IfOk result (λ next. next ≡ spec.next_to_step machine.old) }
    ensures same { machine.new ≡ machine.old }
{
    let mut number: u32 = 1;
    while is_channel(machine, number) {
        machine.show_good();
        if can_step(alloc, machine, number)? {
            return Ok(Some(number));
        }
        number += 1;
    }
    Ok(None)
}

/// Takes so many steps at most, one after another, and adds what they run.
#[tactic(auto, using(crate::proofs::SettlingLemmas::settled_none))]
fn settle_within(
    alloc: Global,
    machine: &mut Machine<WideApps>,
    left: u32,
    ran: &mut RanEntries,
) -> Result<(), NoMemory>
    ensures world { OnOk result (machine.new ≡ spec.settled_within left machine.old) }
    ensures ran { OnOk result (ran.new ≡ ran.old ++ spec.ran_within left machine.old) }
{
    for _step in 0..left {
        let Some(channel) = next_to_step(alloc, machine)? else {
            return Ok(());
        };
        give(alloc, machine, Event::Step { channel }, ran)?;
    }
    Ok(())
}

/// Settles the machine after an event, and adds what its steps run. It says whether the machine does not settle.
#[tactic(auto, using(crate::proofs::SettlingLemmas::settled_is, crate::proofs::SettlingLemmas::ran_is))]
pub(crate) fn settle(
    alloc: Global,
    machine: &mut Machine<WideApps>,
    ran: &mut RanEntries,
) -> Result<bool, NoMemory>
    ensures world { OnOk result (machine.new ≡ spec.settled_world machine.old) }
    ensures ran { OnOk result (ran.new ≡ ran.old ++ ran_after machine.old (spec.steps_of machine.old)) }
    ensures endless { IfOk result (λ is_endless. is_endless ≡ spec.is_endless machine.old) }
{
    settle_within(alloc, machine, MOST_STEPS, ran)?;
    let next = next_to_step(alloc, machine)?;
    Ok(next.is_some())
}
