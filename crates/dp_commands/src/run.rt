//! Runs of a dialplan by a script.
ghost use Rattle.std.specs.Prelude.{◌≡◌, ◌++◌, ◌||◌, [], IfOk, OnOk, OnErr, Ok};
ghost use Rattle.std.specs.Result.{is_err};
ghost use Rattle.dp_conf.specs.Fronts.{AppendsFront};
ghost use Rattle.dp_commands.specs.Faults.{is_write_failed};
ghost use Rattle.dp_commands.specs.Run as spec;
ghost use Rattle.dp_commands.specs.Script.{turns_of};
ghost use Rattle.dp_commands.specs.steps.Streams.{Ends, Flows, fails_at_the_end};
ghost use Rattle.dp_commands.specs.steps.Texts.{WritesRun};
ghost use Rattle.dp_commands.specs.Trace.{after_turn_by};
ghost use Rattle.dp_commands.specs.Turns.{WritesTurnsBy};
ghost use Rattle.dp_app.specs.Rows.{with_functions};
ghost use Rattle.dp_machine.specs.World.{opening};
ghost use Rattle.dp_queue.specs.Rest.{IsAtRest};

use crate::beginning::{Begun, RunContents, begin};
use crate::block::{Block, ROOM};
use crate::fault::PbxFault;
use crate::script::{ScriptLine, Turn};
use crate::taker::Taker;
use crate::texts::RunTexts;
use crate::trace::{push_line, push_show_line};
use dp_app::AppTable;
use dp_conf::{WriteFailed, WriteTold};
use dp_machine::{Event, Machine};
use dp_plan::{NoMemory, Text};
use dp_table::StandardApps;
use std::alloc::Global;

/// Gives the machine one event, and adds its line to the waiting lines. It says whether the event was refused. It fails only if memory runs
/// out; then no line was added.
#[tactic(auto, unfolding(crate::specs::Trace::event_line_by))]
pub fn take_event<A: AppTable>(
    alloc: Global,
    machine: &mut Machine<A>,
    event: &Event,
    block: &mut Block,
) -> Result<bool, NoMemory>
    ensures line { OnOk result (block.new.whole ≡ block.old.whole ++ (after_turn_by (with_functions A.rows A.Functions.table) machine.old (Turn.Event event.now)).line) }
    ensures world { OnOk result (machine.new ≡ (after_turn_by (with_functions A.rows A.Functions.table) machine.old (Turn.Event event.now)).world) }
    ensures refused { IfOk result (λ refused. refused ≡ (after_turn_by (with_functions A.rows A.Functions.table) machine.old (Turn.Event event.now)).refused) }
    ensures err { OnErr result (block.new.whole ≡ block.old.whole) }
{
    let reply = machine.apply_kept(alloc, event)?;
    push_line(block, machine, event.channel(), reply)?;
    Ok(reply.is_refusal())
}

/// Adds the line that shows a name in a channel to the waiting lines. It says whether that was refused. It fails only if memory runs out;
/// then no line was added.
pub fn take_show<A: AppTable>(
    alloc: Global,
    machine: &Machine<A>,
    channel: u32,
    name: &Text,
    block: &mut Block,
) -> Result<bool, NoMemory>
    ensures line { OnOk result (block.new.whole
        ≡ block.old.whole ++ (after_turn_by (with_functions A.rows A.Functions.table) machine.now (Turn.Show channel name.now)).line) }
    ensures refused { IfOk result (λ refused. refused ≡ (after_turn_by (with_functions A.rows A.Functions.table) machine.now (Turn.Show channel name.now)).refused) }
    ensures err { OnErr result (block.new.whole ≡ block.old.whole) }
{
    push_show_line(alloc, block, machine, channel, name.bytes())?;
    Ok(machine.phase(channel).is_none())
}

/// Turns that are taken without further lines.
#[derive(Drop)]
struct Plain;

impl Taker for Plain {
    ghost use Rattle.std.specs.Prelude.{[]};
    ghost use Rattle.dp_commands.specs.Run.{status_by};
    ghost use Rattle.dp_commands.specs.steps.Streams.{plainly};

    type Table = StandardApps;

    type Turn = Turn;

    ghost step = { plainly };

    ghost last = { λ _. [] };

    ghost status = { λ _ refused. status_by refused };

    fn take(
        &mut self,
        alloc: Global,
        machine: &mut Machine<StandardApps>,
        turn: &Turn,
        block: &mut Block,
    ) -> Result<bool, NoMemory> {
        match turn {
            Turn::Event(event) => take_event(alloc, machine, event, block),
            Turn::Show { channel, name } => take_show(alloc, machine, *channel, name, block),
        }
    }

    fn finish(&self, _block: &mut Block) -> Result<(), NoMemory> {
        Ok(())
    }

    fn status(&self, refused: bool) -> u8 {
        u8::from(refused)
    }
}

/// Writes the waiting lines if the block is full.
fn send_full<W: WriteTold>(block: &mut Block, writer: &mut W) -> Result<(), WriteFailed>
    ensures ok { OnOk result (Flows (W.contents writer.old) block.old.whole
        (W.contents writer.new) block.new.whole []) }
    ensures err { OnErr result (AppendsFront (W.contents writer.old) (W.contents writer.new) block.old.whole) }
    ensures told { W.has_failed writer.new ≡ (W.has_failed writer.old || is_err result) }
{
    if block.is_full() {
        return block.send(writer);
    }
    Ok(())
}

/// Ends a run, given its result: the waiting lines are written, unless a write has failed.
fn end<W: WriteTold>(
    block: &mut Block,
    writer: &mut W,
    ran: Result<u8, PbxFault>,
) -> Result<u8, PbxFault>
    ensures ends { Ends (W.contents writer.old) block.old.whole (W.contents writer.new) ran result }
    ensures told { W.has_failed writer.new ≡ (W.has_failed writer.old || fails_at_the_end ran result) }
{
    match ran {
        Ok(status) => {
            block.send(writer)?;
            Ok(status)
        }
        Err(PbxFault::NoMemory) => {
            block.send(writer)?;
            Err(PbxFault::NoMemory)
        }
        Err(PbxFault::Coded { code, line }) => Err(PbxFault::Coded { code, line }),
    }
}

/// The runner that takes the turns of a run: how it takes them, the machine, and the block of waiting lines.
struct Runner<T, A> {
    alloc: Global,
    taker: T,
    machine: Machine<A>,
    block: Block,
}

impl<T: Drop, A> Drop for Runner<T, A> {
    fn drop(self) {
        let Runner {
            alloc: _,
            taker: _,
            machine: _,
            block: _,
        } = self;
    }
}

impl<A: AppTable, T: Taker<Table = A>> Runner<T, A> {
    ghost use Rattle.std.specs.Prelude.{◌≡◌, ◌||◌, ◌∷◌, []};
    ghost use Rattle.dp_commands.specs.Faults.{is_write_failed};
    ghost use Rattle.dp_commands.specs.Script.{line_turns, turns_of};
    ghost use Rattle.dp_commands.specs.steps.Runners.{Takes};
    ghost use Rattle.dp_commands.specs.steps.Streams.{StreamsAll};
    ghost use Rattle.dp_commands.specs.Turns.{WritesTurnsBy};

    /// Takes one turn, and writes the waiting lines if they fill the block. It says whether the turn was refused.
    fn take_turn<W: WriteTold>(&mut self, turn: &T::Turn, writer: &mut W) -> Result<bool, PbxFault>
        ensures streams { Takes T.step (turn.now ∷ []) (W.contents writer.old) self.old (W.contents writer.new) self.new result }
        ensures told { W.has_failed writer.new ≡ (W.has_failed writer.old || is_write_failed result) }
    {
        let refused = self
            .taker
            .take(self.alloc, &mut self.machine, turn, &mut self.block)?;
        send_full(&mut self.block, writer)?;
        Ok(refused)
    }

    /// Takes the turns of a line.
    fn take_line<W: WriteTold>(
        &mut self,
        line: &ScriptLine<T::Turn>,
        writer: &mut W,
    ) -> Result<bool, PbxFault>
        ensures streams { Takes T.step (line_turns line.now) (W.contents writer.old) self.old (W.contents writer.new) self.new result }
        ensures told { W.has_failed writer.new ≡ (W.has_failed writer.old || is_write_failed result) }
    {
        let mut refused = false;
        for _turn in 0..line.count {
            refused |= self.take_turn(&line.turn, writer)?;
        }
        Ok(refused)
    }

    /// Takes the turns of the lines, one after another, and writes their lines as it goes. It says whether one was refused.
    fn take_lines<W: WriteTold>(
        &mut self,
        lines: &[ScriptLine<T::Turn>],
        writer: &mut W,
    ) -> Result<bool, PbxFault>
        ensures streams { Takes T.step (turns_of lines.now) (W.contents writer.old) self.old (W.contents writer.new) self.new result }
        ensures told { W.has_failed writer.new ≡ (W.has_failed writer.old || is_write_failed result) }
    {
        let mut refused = false;
        for line in lines {
            refused |= self.take_line(line, writer)?;
        }
        Ok(refused)
    }

    /// Takes the turns of all lines, and adds the lines after the last turn to the waiting lines. It gives the status.
    #[tactic(auto, using(crate::proofs::StreamsLemmas::StreamsAll_ends, crate::proofs::StreamsLemmas::StreamsAll_lacks, crate::proofs::StreamsLemmas::StreamsAll_stops))]
    fn take_all<W: WriteTold>(
        &mut self,
        lines: &[ScriptLine<T::Turn>],
        writer: &mut W,
    ) -> Result<u8, PbxFault>
        ensures streams { StreamsAll T.step (λ at. T.last at.0) (λ at. T.status at.0) (self.old.taker, self.old.machine) (turns_of lines.now)
            (W.contents writer.old) self.old.block.whole (W.contents writer.new) self.new.block.whole result }
        ensures told { W.has_failed writer.new ≡ (W.has_failed writer.old || is_write_failed result) }
    {
        let refused = self.take_lines(lines, writer)?;
        self.taker.finish(&mut self.block)?;
        Ok(self.taker.status(refused))
    }

    /// Takes the turns of all lines, and writes all their lines. Nothing waits before.
    fn run<W: WriteTold>(
        &mut self,
        lines: &[ScriptLine<T::Turn>],
        writer: &mut W,
    ) -> Result<u8, PbxFault>
        requires { self.old.block.whole ≡ [] }
        ensures writes { WritesTurnsBy T.step (λ at. T.last at.0) (λ at. T.status at.0) (self.old.taker, self.old.machine) (turns_of lines.now)
            (W.contents writer.old) (W.contents writer.new) result }
        ensures told { W.has_failed writer.new ≡ (W.has_failed writer.old || is_write_failed result) }
    {
        let ran = self.take_all(lines, writer);
        end(&mut self.block, writer, ran)
    }
}

/// Takes the turns of the lines one after another, and writes all their lines, a block of lines at a time. The status is that which the
/// taker gives at the end.
///
/// If memory runs out the lines of the earlier turns are written. If memory runs out or a write fails, what was written stays written.
pub fn run_lines<T: Taker, W: WriteTold>(
    alloc: Global,
    taker: T,
    machine: Machine<T::Table>,
    lines: &[ScriptLine<T::Turn>],
    writer: &mut W,
) -> Result<u8, PbxFault>
    ensures writes { WritesTurnsBy T.step (λ at. T.last at.0) (λ at. T.status at.0) (taker, machine) (turns_of lines.now)
        (W.contents writer.old) (W.contents writer.new) result }
    ensures told { W.has_failed writer.new ≡ (W.has_failed writer.old || is_write_failed result) }
{
    let block = Block::new(alloc, ROOM)?;
    let mut runner = Runner {
        alloc,
        taker,
        machine,
        block,
    };
    runner.run(lines, writer)
}

/// Takes the turns of a run that has begun, and writes all their lines.
fn run_begun<T: Taker<Table = StandardApps, Turn = Turn>, W: WriteTold>(
    alloc: Global,
    taker: T,
    begun: Begun,
    writer: &mut W,
) -> Result<u8, PbxFault>
    ensures writes { WritesRun T.step (λ at. T.last at.0) (λ at. T.status at.0) taker (W.contents writer.old) (W.contents writer.new)
        (Ok (spec.run_on begun.machine (turns_of begun.lines.items))) result }
    ensures told { W.has_failed writer.new ≡ (W.has_failed writer.old || is_write_failed result) }
{
    let (machine, lines) = begun.into_parts();
    run_lines(alloc, taker, machine, &lines, writer)
}

/// Begins the run of the texts, takes its turns, and writes all their lines.
pub(crate) fn run_texts<T: Taker<Table = StandardApps, Turn = Turn>, W: WriteTold>(
    alloc: Global,
    texts: RunTexts<'_>,
    taker: T,
    writer: &mut W,
) -> Result<u8, PbxFault>
    ensures writes { WritesRun T.step (λ at. T.last at.0) (λ at. T.status at.0) taker (W.contents writer.old) (W.contents writer.new)
        (spec.run_of_texts texts.entry) result }
    ensures told { W.has_failed writer.new ≡ (W.has_failed writer.old || is_write_failed result) }
{
    let begun = begin(alloc, texts)?;
    run_begun(alloc, taker, begun, writer)
}

/// Runs a script on a dialplan with its queues, and writes the trace as it goes, a block of lines at a time. The status is 1 if a turn was
/// refused, else 0.
///
/// The dialplan, the queues and the script are read before the first event; the fault of the dialplan comes first, then that of the queues,
/// then that of the script. If memory runs out the lines of the earlier turns are written. If memory runs out or a write fails, what was
/// written stays written.
pub fn run_script<W: WriteTold>(
    alloc: Global,
    texts: RunTexts<'_>,
    writer: &mut W,
) -> Result<u8, PbxFault>
    ensures writes { spec.Writes (W.contents writer.old) (W.contents writer.new) (spec.run_of_texts texts.entry) result }
    ensures told { W.has_failed writer.new ≡ (W.has_failed writer.old || is_write_failed result) }
{
    run_texts(alloc, texts, Plain, writer)
}

/// Runs a script on a dialplan with its queues as [`run_script`] does, after their texts were read.
pub fn run_contents<W: WriteTold>(
    alloc: Global,
    contents: RunContents,
    writer: &mut W,
) -> Result<u8, PbxFault>
    requires { IsAtRest contents.files.queues }
    ensures writes { spec.Writes (W.contents writer.old) (W.contents writer.new)
        (Ok (spec.run_on (opening contents.files.plan contents.files.queues) (turns_of contents.lines.items))) result }
    ensures told { W.has_failed writer.new ≡ (W.has_failed writer.old || is_write_failed result) }
{
    let RunContents { files, lines } = contents;
    let machine = files.into_machine(alloc)?;
    run_begun(alloc, Plain, Begun { machine, lines }, writer)
}
