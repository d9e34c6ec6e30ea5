//! What all channels share.
ghost use Rattle.std.specs.Prelude.{◌≡◌, IfOk, OnOk};
ghost use Rattle.std.specs.Option.{option_map};
ghost use Rattle.dp_vars.specs.Sights.{sight_of};
ghost use Rattle.dp_vars.specs.Unknown.{first_unknown};
ghost use Rattle.dp_machine.specs.Seen as seen;

use crate::queues::NoQueues;
use dp_app::Place;
use dp_plan::{GlobalVariable, NoMemory};
use dp_queue::Queues;
use dp_vars::{Counts, Expanded, Functions, Globals, Pieces, Scope, expand_text_with};
use std::alloc::Global;

/// What all channels share: the global variables, and the queues.
#[derive(Drop)]
pub struct SharedState {
    pub globals: Globals,
    pub queues: Queues,
}

/// What the value of a global sees: the globals set so far, how many wait in queues, and no channel.
fn scope_of_globals<'a, C: Counts>(globals: &'a Globals, counts: &'a C) -> Scope<'a, Place, C>
    ensures { sight_of C.count result ≡ seen.sight_of_globals (C.count counts.now) globals.now }
{
    Scope {
        channel: None,
        store: None,
        globals,
        counts,
    }
}

/// The value of a global, given its text.
#[tactic(auto, unfolding(crate::specs::Seen::global_value))]
fn expand_global<F: Functions, C: Counts>(
    alloc: Global,
    globals: &Globals,
    counts: &C,
    value: &[u8],
) -> Result<Vec<u8>, NoMemory>
    ensures { IfOk result (λ bytes. bytes.items ≡ seen.global_value F.table (C.count counts.now) globals.now value.now) }
{
    let scope = scope_of_globals(globals, counts);
    let bytes = expand_text_with::<F, Place, C>(alloc, value, &scope)?;
    Ok(bytes)
}

/// Gives a global its value.
fn set_global<F: Functions, C: Counts>(
    alloc: Global,
    globals: &mut Globals,
    counts: &C,
    variable: &GlobalVariable,
) -> Result<(), NoMemory>
    ensures { OnOk result (globals.new ≡ seen.with_global F.table (C.count counts.now) globals.old variable.now) }
{
    let value = expand_global::<F, C>(alloc, globals, counts, variable.value.bytes())?;
    globals.put(alloc, variable.name.bytes(), &value)?;
    Ok(())
}

/// Sets the globals of a dialplan one after another, each expanded with the globals set so far.
pub(crate) fn set_globals<F: Functions, C: Counts>(
    alloc: Global,
    globals: &mut Globals,
    counts: &C,
    variables: &[GlobalVariable],
) -> Result<(), NoMemory>
    ensures { OnOk result (globals.new ≡ seen.globals_set F.table (C.count counts.now) globals.old variables.now) }
{
    for variable in variables {
        set_global::<F, C>(alloc, globals, counts, variable)?;
    }
    Ok(())
}

/// A text, expanded by these functions with these globals, without a channel and without queues, and the first group in it that is unknown.
///
/// It fails only if memory runs out.
#[tactic(auto, unfolding(crate::specs::Seen::global_value))]
pub fn expand_by_globals<F: Functions>(
    alloc: Global,
    globals: &Globals,
    text: &[u8],
) -> Result<Expanded, NoMemory>
    ensures bytes { IfOk result (λ expanded. expanded.bytes.items ≡ seen.global_value F.table seen.no_queues globals.now text.now) }
    ensures unknown { IfOk result (λ expanded. option_map (λ group. group.items) expanded.unknown
        ≡ first_unknown F.table (seen.sight_of_globals seen.no_queues globals.now) text.now) }
{
    let pieces = Pieces::read(alloc, text)?;
    let scope = scope_of_globals(globals, &NoQueues);
    let expanded = pieces.expand_checked::<F, Place, NoQueues>(alloc, text, &scope)?;
    Ok(expanded)
}
