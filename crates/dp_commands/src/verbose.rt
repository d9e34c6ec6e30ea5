//! Verbose runs of a dialplan by a script: above the line of a step is the entry that it runs, and above that of a refusal its explanation.
ghost use Rattle.std.specs.Prelude.{◌≡◌, ◌++◌, ◌||◌, IfOk, IfErr, OnOk, OnErr, Ok, false};
ghost use Rattle.std.specs.Option.{option_map};
ghost use Rattle.dp_app.specs.Rows.{with_functions};
ghost use Rattle.dp_conf.specs.Answers.{Refuses};
ghost use Rattle.dp_commands.specs.Faults.{is_write_failed, reason_of};
ghost use Rattle.dp_commands.specs.LinePlaces.{places_of};
ghost use Rattle.dp_commands.specs.Run.{Run as runs, plan_fault, run_of_texts, status_of};
ghost use Rattle.dp_commands.specs.Trace.{after_turn_by};
ghost use Rattle.dp_commands.specs.Verbose as spec;
ghost use Rattle.dp_plan.specs.Loaded.{plan_and_notes};
ghost use Rattle.dp_plan.specs.Lookup.{entry_at};

use crate::block::Block;
use crate::explanations::Explanations;
use crate::fault::PbxFault;
use crate::in_force::{PlanInForce, PlanNames, PlanPlaces, first_in_force, first_in_force_at};
use crate::line_places::push_line_place;
use crate::run::run_texts;
use crate::script::Turn;
use crate::taker::Taker;
use crate::texts::RunTexts;
use crate::trace::{push_reply, push_show};
use dp_app::AppTable;
use dp_conf::WriteTold;
use dp_machine::{EntryId, Event, Machine, Refusal, Reply};
use dp_plan::{Dialplan, NoMemory, Text};
use dp_table::StandardApps;
use std::alloc::Global;
use std::marker::{Model, PhantomData};

/// The arguments of the entry that an event runs, as they expand now. Only a step runs an entry.
pub(crate) fn arguments_of<A: AppTable>(
    alloc: Global,
    machine: &mut Machine<A>,
    event: &Event,
) -> Result<Vec<u8>, NoMemory>
    ensures arguments { IfOk result (λ arguments. arguments.items
        ≡ spec.arguments_of_by (with_functions A.rows A.Functions.table) machine.old event.now) }
    ensures same { machine.new ≡ machine.old }
{
    let Event::Step { channel } = event else {
        return Ok(Vec::new(alloc));
    };
    let arguments = machine.arguments_ahead(alloc, *channel)?;
    match arguments {
        Some(arguments) => Ok(arguments),
        None => Ok(Vec::new(alloc)),
    }
}

/// Adds the application of the entry with these numbers.
fn push_application(out: &mut Block, plan: &Dialplan, id: EntryId) -> Result<(), NoMemory>
    ensures kept { out.new.whole ≡ out.old.whole }
    ensures ok { OnOk result (out.new.begun ≡ out.old.begun ++ spec.application_in (entry_at plan.now id)) }
{
    match plan.entry(id) {
        Some(entry) => out.push(entry.application.bytes()),
        None => Ok(()),
    }
}

/// Adds the source of an entry, `FILE:LINE`, indented.
fn push_source(out: &mut Block, in_force: &PlanInForce<'_>, id: EntryId) -> Result<(), NoMemory>
    ensures kept { out.new.whole ≡ out.old.whole }
    ensures ok { OnOk result (out.new.begun ≡ out.old.begun ++ spec.source_text in_force.now id) }
{
    out.push(b"  ")?;
    push_line_place(out, in_force.places(), in_force.line(id))
}

/// Adds what an entry runs, `APP(ARGS)`.
fn push_call(
    out: &mut Block,
    plan: &Dialplan,
    id: EntryId,
    arguments: &[u8],
) -> Result<(), NoMemory>
    ensures kept { out.new.whole ≡ out.old.whole }
    ensures ok { OnOk result (out.new.begun ≡ out.old.begun ++ spec.call_text plan.now id arguments.now) }
{
    push_application(out, plan, id)?;
    out.push_byte(b'(')?;
    out.push(arguments)?;
    out.push_byte(b')')
}

/// Adds the entry that a step runs, `FILE:LINE APP(ARGS)`, on a line of its own.
fn push_ran_text(
    out: &mut Block,
    in_force: &PlanInForce<'_>,
    plan: &Dialplan,
    arguments: &[u8],
    id: EntryId,
) -> Result<(), NoMemory>
    ensures kept { out.new.whole ≡ out.old.whole }
    ensures ok { OnOk result (out.new.begun ≡ out.old.begun ++ spec.ran_text in_force.now plan.now id arguments.now) }
{
    push_source(out, in_force, id)?;
    out.push_byte(b' ')?;
    push_call(out, plan, id, arguments)?;
    out.push_byte(b'\n')
}

/// Adds a byte, with two blanks before it if it begins a line.
fn push_indented_byte(out: &mut Block, begins: bool, byte: u8) -> Result<(), NoMemory>
    ensures kept { out.new.whole ≡ out.old.whole }
    ensures ok { OnOk result (out.new.begun ≡ out.old.begun ++ spec.indented_byte begins byte) }
{
    if begins {
        out.push(b"  ")?;
    }
    out.push_byte(byte)
}

/// Adds a text with two blanks before each of its lines.
fn push_indented(out: &mut Block, text: &[u8]) -> Result<(), NoMemory>
    ensures kept { out.new.whole ≡ out.old.whole }
    ensures ok { OnOk result (out.new.begun ≡ out.old.begun ++ spec.indented_text text.now) }
{
    let mut begins = true;
    for byte in text {
        push_indented_byte(out, begins, *byte)?;
        begins = *byte == b'\n';
    }
    Ok(())
}

/// Adds the explanation of a refusal, each of its lines indented.
pub fn push_explanation<E: Explanations>(out: &mut Block, refusal: Refusal) -> Result<(), NoMemory>
    ensures kept { out.new.whole ≡ out.old.whole }
    ensures ok { OnOk result (out.new.begun ≡ out.old.begun ++ spec.indented_text (E.explanation_of refusal)) }
{
    push_indented(out, E::explanation(refusal).as_bytes())
}

/// Adds the text above the line of a reply, given the dialplan in force and the arguments of the entry that was run.
pub(crate) fn push_above<E: Explanations>(
    out: &mut Block,
    in_force: &PlanInForce<'_>,
    plan: &Dialplan,
    arguments: &[u8],
    reply: Reply,
) -> Result<(), NoMemory>
    ensures kept { out.new.whole ≡ out.old.whole }
    ensures ok { OnOk result (out.new.begun ≡ out.old.begun
        ++ spec.above_reply E.explanation_of in_force.now plan.now arguments.now reply) }
{
    match reply {
        Reply::Ran(id) => push_ran_text(out, in_force, plan, arguments, id),
        Reply::Refused(refusal) => push_explanation::<E>(out, refusal),
        Reply::Started(_) | Reply::NoEntry | Reply::Invalid | Reply::Offered { .. } | Reply::Done =>
            { Ok(()) }
    }
}

/// Adds the text above the line of a `show`, given whether the `show` is refused.
fn push_above_show<E: Explanations>(out: &mut Block, refused: bool) -> Result<(), NoMemory>
    ensures kept { out.new.whole ≡ out.old.whole }
    ensures ok { OnOk result (out.new.begun ≡ out.old.begun ++ spec.above_show E.explanation_of refused) }
{
    if !refused {
        return Ok(());
    }
    push_explanation::<E>(out, Refusal::NoChannel)
}

/// Adds the line that shows a name in a channel to the waiting lines, with an explanation above it if that is refused. It says whether it
/// was refused.
fn take_show<E: Explanations, A: AppTable>(
    alloc: Global,
    machine: &Machine<A>,
    channel: u32,
    name: &Text,
    block: &mut Block,
) -> Result<bool, NoMemory>
    ensures lines { OnOk result (block.new.whole ≡ block.old.whole
        ++ (spec.above_show E.explanation_of (after_turn_by (with_functions A.rows A.Functions.table) machine.now (Turn.Show channel name.now)).refused
        ++ (after_turn_by (with_functions A.rows A.Functions.table) machine.now (Turn.Show channel name.now)).line)) }
    ensures refused { IfOk result (λ refused. refused
        ≡ (after_turn_by (with_functions A.rows A.Functions.table) machine.now (Turn.Show channel name.now)).refused) }
    ensures err { OnErr result (block.new.whole ≡ block.old.whole) }
{
    let refused = machine.phase(channel).is_none();
    block.begin_line();
    push_above_show::<E>(block, refused)?;
    push_show(alloc, block, machine, channel, name.bytes())?;
    block.end_line()?;
    Ok(refused)
}

/// A taker of a script's turns that writes more above their lines. Contracts see it as the dialplan in force.
pub struct VerboseTaker<'a, E> {
    in_force: PlanInForce<'a>,
    explanations: PhantomData<E>,
}

impl<'a, E> Drop for VerboseTaker<'a, E> {
    fn drop(self) {
        let VerboseTaker {
            in_force: _,
            explanations: _,
        } = self;
    }
}

impl<'a, E> Model for VerboseTaker<'a, E> {
    ghost use Rattle.dp_commands.specs.Verbose.{InForce};

    ghost Value = { InForce };

    ghost view = { λ taker. taker.in_force };
}

impl<'a, E: Explanations> VerboseTaker<'a, E> {
    /// The state before the first turn, given where the lines of a run's dialplans come from and the text of the first; or the fault of
    /// that text.
    pub fn first_at(alloc: Global, places: PlanPlaces<'a>, text: &[u8]) -> Result<Self, PbxFault>
        ensures plan { IfOk result (λ taker. taker ≡ spec.first_in_force_at (places_of places.entry.plan)
            (option_map places_of places.entry.second_plan) text.now) }
        ensures fault { IfErr result (λ fault. Refuses (reason_of fault) (plan_fault (plan_and_notes text.now))) }
        ensures quiet { is_write_failed result ≡ false }
    {
        match first_in_force_at(alloc, places, text) {
            Ok(in_force) => Ok(VerboseTaker {
                in_force,
                explanations: PhantomData,
            }),
            Err(fault) => Err(fault),
        }
    }

    /// The same, given the names of the files of a run's dialplans.
    fn first(alloc: Global, names: PlanNames<'a>, text: &[u8]) -> Result<Self, PbxFault>
        ensures plan { IfOk result (λ taker. taker ≡ spec.first_in_force names.entry.plan.now
            (option_map (λ name. name.now) names.entry.second_plan) text.now) }
        ensures fault { IfErr result (λ fault. Refuses (reason_of fault) (plan_fault (plan_and_notes text.now))) }
        ensures quiet { is_write_failed result ≡ false }
    {
        match first_in_force(alloc, names, text) {
            Ok(in_force) => Ok(VerboseTaker {
                in_force,
                explanations: PhantomData,
            }),
            Err(fault) => Err(fault),
        }
    }

    /// Gives the machine one event, and adds its line to the waiting lines, with more text above it. It says whether the event was refused.
    #[tactic(auto, unfolding(crate::specs::Trace::event_line_by))]
    fn take_event<A: AppTable>(
        &mut self,
        alloc: Global,
        machine: &mut Machine<A>,
        event: &Event,
        block: &mut Block,
    ) -> Result<bool, NoMemory>
        ensures lines { OnOk result (block.new.whole ≡ block.old.whole
            ++ (spec.above_turn_by (with_functions A.rows A.Functions.table) E.explanation_of self.old machine.old (Turn.Event event.now)
            ++ (after_turn_by (with_functions A.rows A.Functions.table) machine.old (Turn.Event event.now)).line)) }
        ensures in_force { OnOk result (self.new
            ≡ spec.in_force_after_by (with_functions A.rows A.Functions.table) self.old machine.old (Turn.Event event.now)) }
        ensures world { OnOk result (machine.new ≡ (after_turn_by (with_functions A.rows A.Functions.table) machine.old (Turn.Event event.now)).world) }
        ensures refused { IfOk result (λ refused. refused
            ≡ (after_turn_by (with_functions A.rows A.Functions.table) machine.old (Turn.Event event.now)).refused) }
        ensures err { OnErr result (block.new.whole ≡ block.old.whole) }
    {
        let arguments = arguments_of(alloc, machine, event)?;
        let reply = machine.apply_kept(alloc, event)?;
        let refused = reply.is_refusal();
        self.in_force.go_on(alloc, event, refused)?;
        block.begin_line();
        push_above::<E>(block, &self.in_force, machine.plan(), &arguments, reply)?;
        push_reply(block, machine, event.channel(), reply)?;
        block.end_line()?;
        Ok(refused)
    }

    /// Takes one turn over the machine of a table of applications, and adds its line to the waiting lines, with more text above it. It says
    /// whether the turn was refused. It fails only if memory runs out; then no line was added.
    pub fn take_turn<A: AppTable>(
        &mut self,
        alloc: Global,
        machine: &mut Machine<A>,
        turn: &Turn,
        block: &mut Block,
    ) -> Result<bool, NoMemory>
        ensures lines { OnOk result (block.new.whole ≡ block.old.whole
            ++ (spec.above_turn_by (with_functions A.rows A.Functions.table) E.explanation_of self.old machine.old turn.now
            ++ (after_turn_by (with_functions A.rows A.Functions.table) machine.old turn.now).line)) }
        ensures in_force { OnOk result (self.new
            ≡ spec.in_force_after_by (with_functions A.rows A.Functions.table) self.old machine.old turn.now) }
        ensures world { OnOk result (machine.new ≡ (after_turn_by (with_functions A.rows A.Functions.table) machine.old turn.now).world) }
        ensures refused { IfOk result (λ refused. refused
            ≡ (after_turn_by (with_functions A.rows A.Functions.table) machine.old turn.now).refused) }
        ensures err { OnErr result (block.new.whole ≡ block.old.whole) }
    {
        match turn {
            Turn::Event(event) => self.take_event(alloc, machine, event, block),
            Turn::Show { channel, name } => {
                take_show::<E, A>(alloc, machine, *channel, name, block)
            }
        }
    }
}

impl<'a, E: Explanations> Taker for VerboseTaker<'a, E> {
    ghost use Rattle.std.specs.Prelude.{[]};
    ghost use Rattle.dp_commands.specs.Run.{status_by};
    ghost use Rattle.dp_commands.specs.Verbose.{verbose_turn};

    type Table = StandardApps;

    type Turn = Turn;

    ghost step = { verbose_turn E.explanation_of };

    ghost last = { λ _. [] };

    ghost status = { λ _ refused. status_by refused };

    fn take(
        &mut self,
        alloc: Global,
        machine: &mut Machine<StandardApps>,
        turn: &Turn,
        block: &mut Block,
    ) -> Result<bool, NoMemory> {
        self.take_turn(alloc, machine, turn, block)
    }

    fn finish(&self, _block: &mut Block) -> Result<(), NoMemory> {
        Ok(())
    }

    fn status(&self, refused: bool) -> u8 {
        u8::from(refused)
    }
}

/// Runs the script of the texts, whose dialplan is first in force, and writes more above the lines.
fn run_in_force<E: Explanations, W: WriteTold>(
    alloc: Global,
    texts: RunTexts<'_>,
    taker: VerboseTaker<'_, E>,
    writer: &mut W,
) -> Result<u8, PbxFault>
    ensures writes { spec.WritesVerbose E.explanation_of taker.entry (W.contents writer.old) (W.contents writer.new)
        (run_of_texts texts.entry) result }
    ensures status { IfOk result (λ status. (run : runs) → run_of_texts texts.entry ≡ Ok run → status ≡ status_of run) }
    ensures told { W.has_failed writer.new ≡ (W.has_failed writer.old || is_write_failed result) }
{
    run_texts(alloc, texts, taker, writer)
}

/// Runs a script on a dialplan with its queues as [`crate::run_script`] does, and writes more above some of the lines: above the line of a
/// step that runs an entry `FILE:LINE APP(ARGS)`, with its expanded arguments, and above the line of a refusal its explanation. Each is
/// indented by two blanks. After a reload FILE and LINE are those of the second dialplan.
pub fn run_verbose<E: Explanations, W: WriteTold>(
    alloc: Global,
    texts: RunTexts<'_>,
    names: PlanNames<'_>,
    writer: &mut W,
) -> Result<u8, PbxFault>
    ensures writes { spec.WritesVerbose E.explanation_of (spec.first_in_force names.entry.plan.now
        (option_map (λ name. name.now) names.entry.second_plan) texts.entry.plan.now) (W.contents writer.old)
        (W.contents writer.new) (run_of_texts texts.entry) result }
    ensures status { IfOk result (λ status. (run : runs) → run_of_texts texts.entry ≡ Ok run → status ≡ status_of run) }
    ensures told { W.has_failed writer.new ≡ (W.has_failed writer.old || is_write_failed result) }
{
    match VerboseTaker::<E>::first(alloc, names, texts.plan) {
        Ok(taker) => run_in_force::<E, W>(alloc, texts, taker, writer),
        Err(fault) => Err(fault),
    }
}
