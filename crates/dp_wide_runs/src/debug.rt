//! Debugged runs of a script that states facts, over the wide table.
ghost use Rattle.std.specs.Prelude.{◌≡◌, ◌++◌, ◌∷◌, ◌||◌, [], is_some, IfOk, OnOk, OnErr};
ghost use Rattle.std.specs.Option.{option_map};
ghost use Rattle.dp_commands.specs.Debug.{halt_line, halt_text};
ghost use Rattle.dp_commands.specs.Faults.{is_write_failed};
ghost use Rattle.dp_commands.specs.LinePlaces.{places_of};
ghost use Rattle.dp_commands.specs.Verbose.{first_in_force_at};
ghost use Rattle.dp_debug.specs.Breaks.{first_before as first_break_before};
ghost use Rattle.dp_wide_runs.specs.Debugging as spec;
ghost use Rattle.dp_wide_runs.specs.Runs.{run_of_texts};

use crate::beginning::begin;
use crate::manner::{Manner, PlainManner};
use crate::run::run_begun;
use dp_commands::{
    Block, Explanations, PbxFault, PlanPlaces, RunTexts, Turn, VerboseTaker, push_end, push_number,
    read_break,
};
use dp_conf::WriteTold;
use dp_debug::{Break, first_before};
use dp_machine::{Event, Machine, NoMemory, Refusal};
use dp_wide::WideApps;
use std::alloc::Global;
use std::marker::Model;
use std::slice;

/// Adds the line of a halt after a number of events to the waiting lines.
fn push_halt_line(block: &mut Block, taken: u64) -> Result<(), NoMemory>
    ensures line { OnOk result (block.new.whole ≡ block.old.whole ++ halt_line taken) }
    ensures err { OnErr result (block.new.whole ≡ block.old.whole) }
{
    block.begin_line();
    block.push(b"break ")?;
    push_number(block, taken)?;
    block.end_line()
}

/// Adds the line of the halt before an event to the waiting lines, if the break holds there.
fn push_halt_before(
    block: &mut Block,
    machine: &mut Machine<WideApps>,
    event: &Event,
    held: &Break,
    taken: u64,
) -> Result<(), NoMemory>
    ensures line { OnOk result (block.new.whole ≡ block.old.whole
        ++ halt_text (is_some (first_break_before machine.old event.now (held.now ∷ []))) taken) }
    ensures same { machine.new ≡ machine.old }
    ensures err { OnErr result (block.new.whole ≡ block.old.whole) }
{
    if first_before(machine, event, slice::from_ref(held)).is_none() {
        return Ok(());
    }
    push_halt_line(block, taken)
}

/// A break, and how many events the machine was given.
#[derive(Drop)]
pub(crate) struct BreakWatch {
    held: Break,
    taken: u64,
}

impl Model for BreakWatch {
    ghost use Rattle.dp_commands.specs.Debug.{Watch};

    ghost Value = { Watch };

    ghost view = { λ watch. record { held = watch.held; taken = watch.taken } };
}

impl BreakWatch {
    ghost use Rattle.std.specs.Prelude.{◌≡◌, ◌++◌, OnOk, OnErr};
    ghost use Rattle.dp_wide_runs.specs.Debugging as spec;

    /// The watch of a break, before the first event.
    fn new(held: Break) -> Self
        ensures { result ≡ spec.watching held }
    {
        BreakWatch { held, taken: 0 }
    }

    /// Adds the line of the halt before a turn to the waiting lines, if the break holds there.
    fn push_before(
        &self,
        machine: &mut Machine<WideApps>,
        turn: &Turn,
        block: &mut Block,
    ) -> Result<(), NoMemory>
        ensures line { OnOk result (block.new.whole ≡ block.old.whole ++ spec.halt_before self.now machine.old turn.now) }
        ensures same { machine.new ≡ machine.old }
        ensures err { OnErr result (block.new.whole ≡ block.old.whole) }
    {
        match turn {
            Turn::Event(event) => push_halt_before(block, machine, event, &self.held, self.taken),
            Turn::Show { .. } => Ok(()),
        }
    }

    /// Counts a turn that the machine was given.
    fn count(&mut self, turn: &Turn)
        ensures { self.new ≡ spec.watch_after self.old turn.now }
    {
        match turn {
            Turn::Event(_) => self.taken = self.taken.saturating_add(1),
            Turn::Show { .. } => {}
        }
    }
}

/// A manner in which turns are taken under a debugger with one break. Contracts see it as the watch and the manner without a break.
pub(crate) struct Debugged<M> {
    watch: BreakWatch,
    manner: M,
}

impl<M: Drop> Drop for Debugged<M> {
    fn drop(self) {
        let Debugged {
            watch: _,
            manner: _,
        } = self;
    }
}

impl<M> Model for Debugged<M> {
    ghost use Rattle.dp_commands.specs.Debug.{Watch};

    ghost Value = { Watch × M };

    ghost view = { λ debugged. (debugged.watch, debugged.manner) };
}

impl<M: Manner> Debugged<M> {
    ghost use Rattle.std.specs.Prelude.{◌≡◌};
    ghost use Rattle.dp_wide_runs.specs.Debugging as spec;

    /// The manner with a break, before the first event.
    fn new(held: Break, manner: M) -> Self
        ensures { result ≡ (spec.watching held, manner) }
    {
        Debugged {
            watch: BreakWatch::new(held),
            manner,
        }
    }
}

impl<M: Manner> Manner for Debugged<M> {
    ghost use Rattle.dp_wide_runs.specs.Debugging.{watched_after, watched_above, watched_last};

    ghost after = { watched_after M.after };

    ghost above = { watched_above M.above };

    ghost above_refusal = { M.above_refusal };

    ghost last = { watched_last };

    fn give_turn(
        &mut self,
        alloc: Global,
        machine: &mut Machine<WideApps>,
        turn: &Turn,
        block: &mut Block,
    ) -> Result<bool, NoMemory> {
        let before = block.whole_len();
        self.watch.push_before(machine, turn, block)?;
        match self.manner.give_turn(alloc, machine, turn, block) {
            Ok(refused) => {
                self.watch.count(turn);
                Ok(refused)
            }
            Err(error) => {
                block.keep_whole(before);
                Err(error)
            }
        }
    }

    fn push_above(block: &mut Block, refusal: Refusal) -> Result<(), NoMemory> {
        M::push_above(block, refusal)
    }

    fn push_last(&self, block: &mut Block) -> Result<(), NoMemory> {
        push_end(block, self.watch.taken)
    }
}

/// Takes the turns of the script of the texts that show no value, under a debugger with this break, and writes all their lines.
fn debug_texts<M: Manner, W: WriteTold>(
    alloc: Global,
    texts: RunTexts<'_>,
    held: Break,
    manner: M,
    writer: &mut W,
) -> Result<u8, PbxFault>
    ensures writes { spec.WritesDebugged M.after M.above M.above_refusal manner (W.contents writer.old) (W.contents writer.new)
        (spec.debug_with held (run_of_texts texts.entry)) result }
    ensures status { IfOk result (spec.HasSameStatus (spec.debug_with held (run_of_texts texts.entry))) }
    ensures told { W.has_failed writer.new ≡ (W.has_failed writer.old || is_write_failed result) }
{
    let begun = begin(alloc, texts)?;
    run_begun(
        alloc,
        begun.without_shows(),
        Debugged::new(held, manner),
        writer,
    )
}

/// Runs a script that may state facts as [`crate::run_wide`] does, under a debugger. Before an event that the machine is given, and at which
/// the break holds, it writes the line `break TAKEN`, and at the end `end TAKEN`: TAKEN counts the events that the machine was given. A step
/// that is not taken, a further step that is left out and a pass that is refused are none. The lines `show` of the script are left out.
///
/// The break is written `CONTEXT,EXTEN,PRIORITY`; its fault comes first, then those of [`crate::run_wide`]. If memory runs out the lines of
/// the earlier turns are written. If memory runs out or a write fails, what was written stays written.
#[tactic(auto, unfolding(crate::specs::Debugging::wide_debug_of))]
pub fn debug_wide<W: WriteTold>(
    alloc: Global,
    texts: RunTexts<'_>,
    held: &[u8],
    writer: &mut W,
) -> Result<u8, PbxFault>
    ensures writes { spec.WritesWideDebug (W.contents writer.old) (W.contents writer.new)
        (spec.wide_debug_of (run_of_texts texts.entry) held.now) result }
    ensures status { IfOk result (spec.HasSameStatus (spec.wide_debug_of (run_of_texts texts.entry) held.now)) }
    ensures told { W.has_failed writer.new ≡ (W.has_failed writer.old || is_write_failed result) }
{
    let held = read_break(alloc, held)?;
    debug_texts(alloc, texts, held, PlainManner, writer)
}

/// Runs a script that may state facts under a debugger as [`crate::debug_wide`] does, and writes more above some of the lines, as
/// [`crate::run_wide_verbose`] does. This text comes after the line of a halt, if there is one.
#[tactic(auto, unfolding(crate::specs::Debugging::wide_debug_of))]
pub fn debug_wide_verbose<E: Explanations, W: WriteTold>(
    alloc: Global,
    texts: RunTexts<'_>,
    places: PlanPlaces<'_>,
    held: &[u8],
    writer: &mut W,
) -> Result<u8, PbxFault>
    ensures writes { spec.WritesWideVerboseDebug E.explanation_of (first_in_force_at (places_of places.entry.plan)
        (option_map places_of places.entry.second_plan) texts.entry.plan.now) (W.contents writer.old)
        (W.contents writer.new) (spec.wide_debug_of (run_of_texts texts.entry) held.now) result }
    ensures status { IfOk result (spec.HasSameStatus (spec.wide_debug_of (run_of_texts texts.entry) held.now)) }
    ensures told { W.has_failed writer.new ≡ (W.has_failed writer.old || is_write_failed result) }
{
    let held = read_break(alloc, held)?;
    match VerboseTaker::<E>::first_at(alloc, places, texts.plan) {
        Ok(taker) => debug_texts(alloc, texts, held, taker, writer),
        Err(fault) => Err(fault),
    }
}
