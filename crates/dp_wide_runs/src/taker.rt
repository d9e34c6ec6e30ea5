//! How the turns of a script with facts are taken.
ghost use Rattle.std.specs.Prelude.{◌≡◌, ◌++◌, ◌∷◌, [], IfOk, OnOk, OnErr, Some};
ghost use Rattle.std.specs.Option.{option_and_then, option_map};
ghost use Rattle.dp_commands.specs.Trace.{refusal_text};
ghost use Rattle.dp_wide_runs.specs.Shows as shows;
ghost use Rattle.dp_wide_runs.specs.Turns as spec;

use crate::manner::Manner;
use crate::wide_lines::stepped_by;
use crate::wide_turn::WideTurn;
use dp_commands::{Block, Taker, Turn, push_after, push_refused, push_short};
use dp_machine::{Event, Expanded, Machine, NoMemory, Phase, Place, Refusal, Text, Unknown};
use dp_wide::WideApps;
use std::alloc::Global;
use std::marker::Model;

/// The name of something unknown.
fn unknown_name(unknown: &Unknown) -> &Text
    ensures { result.now ≡ spec.unknown_name unknown.now }
{
    match unknown {
        Unknown::Application(name) | Unknown::Group(name) | Unknown::Asked(name) => name,
    }
}

/// Adds the line of a step that is not taken to the waiting lines.
fn push_unknown(
    block: &mut Block,
    machine: &Machine<WideApps>,
    number: u32,
    unknown: &Unknown,
) -> Result<(), NoMemory>
    ensures line { OnOk result (block.new.whole ≡ block.old.whole ++ spec.unknown_line machine.now number unknown.now) }
    ensures err { OnErr result (block.new.whole ≡ block.old.whole) }
{
    block.begin_line();
    block.push(b"unknown ")?;
    push_short(block, number)?;
    block.push_byte(b' ')?;
    block.push(unknown_name(unknown).bytes())?;
    push_after(block, machine, number)?;
    block.end_line()
}

/// Why a channel does not pass if nothing is unknown ahead of it, given its phase, if there is a channel.
fn pass_refusal(phase: Option<&Phase>) -> Refusal
    ensures { result ≡ spec.pass_refusal (option_map (λ phase. phase.now) phase.entry) }
{
    match phase {
        None => Refusal::NoChannel,
        Some(Phase::Ended) => Refusal::Ended,
        Some(_) => Refusal::NotReady,
    }
}

/// Adds the line of a pass that is refused to the waiting lines, with the text above it.
fn push_refusal<M: Manner>(block: &mut Block, refusal: Refusal) -> Result<(), NoMemory>
    ensures line { OnOk result (block.new.whole ≡ block.old.whole ++ (M.above_refusal refusal ++ (refusal_text refusal ++ 10 ∷ []))) }
    ensures err { OnErr result (block.new.whole ≡ block.old.whole) }
{
    block.begin_line();
    M::push_above(block, refusal)?;
    push_refused(block, refusal)?;
    block.end_line()
}

/// The priority after another; the greatest 32-bit number, which no entry has, stays.
fn priority_after(priority: u32) -> u32
    ensures { result ≡ spec.priority_after priority }
{
    priority.saturating_add(1)
}

/// A copy of the place after another.
fn place_after(place: &Place) -> Result<Place, NoMemory>
    ensures { IfOk result (λ after. after ≡ spec.place_after place.now) }
{
    let mut after = place.clone()?;
    after.priority = priority_after(place.priority);
    Ok(after)
}

/// The place after that of a channel if something is unknown ahead of it.
fn place_past(
    alloc: Global,
    machine: &mut Machine<WideApps>,
    channel: u32,
) -> Result<Option<Place>, NoMemory>
    ensures place { IfOk result (λ place. place ≡ option_map spec.place_after (spec.place_of_unknown machine.old channel)) }
    ensures same { machine.new ≡ machine.old }
{
    let unknown = machine.unknown_ahead(alloc, channel)?;
    if unknown.is_none() {
        return Ok(None);
    }
    match machine.place(channel) {
        Some(place) => {
            let after = place_after(place)?;
            Ok(Some(after))
        }
        None => Ok(None),
    }
}

/// A call that a script shows in a channel.
#[derive(Clone, Copy)]
struct ShownCall<'a> {
    channel: u32,
    name: &'a [u8],
}

/// Whether a text has a `(`.
fn has_opening(text: &[u8]) -> bool
    ensures { result ≡ shows.has_opening text.now }
{
    text.iter().any(|byte| *byte == b'(')
}

/// Whether the last byte of a text, if it has one, is `)`.
fn is_closed(text: &[u8]) -> bool
    ensures { result ≡ shows.is_closed text.now }
{
    match text.last() {
        Some(byte) => *byte == b')',
        None => false,
    }
}

/// Whether a name is a call: it has a `(`, and ends with `)`.
fn is_call(name: &[u8]) -> bool
    ensures { result ≡ shows.is_call name.now }
{
    has_opening(name) && is_closed(name)
}

/// Whether the value of a name is that of its group: it is a call, or the name of the channel.
fn reads_group(name: &[u8]) -> bool
    ensures { result ≡ shows.reads_group name.now }
{
    is_call(name) || name == b"CHANNEL".as_slice()
}

/// The call that a turn shows.
fn shown_call(turn: &Turn) -> Option<ShownCall<'_>>
    ensures { option_map (λ call. (call.channel, call.name.now)) result ≡ shows.call_in turn.now }
{
    match turn {
        Turn::Show { channel, name } if reads_group(name.bytes()) => Some(ShownCall {
            channel: *channel,
            name: name.bytes(),
        }),
        _ => None,
    }
}

/// The group of a name, `${NAME}`.
fn group_of(alloc: Global, name: &[u8]) -> Result<Vec<u8>, NoMemory>
    ensures { IfOk result (λ group. group.items ≡ shows.group_of name.now) }
{
    let mut group = Vec::from_slice(alloc, b"${")?;
    group.extend_from_slice(name)?;
    group.push(b'}')?;
    Ok(group)
}

/// The expansion of the group of a call in its channel; None if there is no such channel.
fn expand_call(
    alloc: Global,
    machine: &Machine<WideApps>,
    call: ShownCall<'_>,
) -> Result<Option<Expanded>, NoMemory>
    ensures value { IfOk result (λ expanded. option_map (λ known. known.bytes.items) expanded
        ≡ shows.call_value machine.now (call.entry.channel, call.entry.name.now)) }
    ensures unknown { IfOk result (λ expanded. option_and_then (λ known. option_map (λ group. group.items) known.unknown) expanded
        ≡ shows.call_unknown machine.now (call.entry.channel, call.entry.name.now)) }
{
    let group = group_of(alloc, call.name)?;
    machine.expand(alloc, call.channel, &group)
}

/// Adds the line of a call with its value to the waiting lines.
fn push_value(block: &mut Block, name: &[u8], value: &[u8]) -> Result<(), NoMemory>
    ensures line { OnOk result (block.new.whole ≡ block.old.whole ++ shows.value_line name.now value.now) }
    ensures err { OnErr result (block.new.whole ≡ block.old.whole) }
{
    block.begin_line();
    block.push(name)?;
    block.push_byte(b'=')?;
    block.push(value)?;
    block.end_line()
}

/// A run over the wide table, which stops before anything unknown. Contracts see it as where it has stopped, and how turns are taken.
pub(crate) struct WideRunner<M> {
    line_is_over: bool,
    has_stopped: bool,
    manner: M,
}

impl<M: Drop> Drop for WideRunner<M> {
    fn drop(self) {
        let WideRunner {
            line_is_over: _,
            has_stopped: _,
            manner: _,
        } = self;
    }
}

impl<M> Model for WideRunner<M> {
    ghost use Rattle.dp_wide_runs.specs.Turns.{Stops};

    ghost Value = { Stops × M };

    ghost view = { λ runner. (record { line_is_over = runner.line_is_over; has_stopped = runner.has_stopped }, runner.manner) };
}

impl<M: Manner> WideRunner<M> {
    ghost use Rattle.std.specs.Prelude.{◌≡◌, ◌++◌, IfOk, OnOk, OnErr, Some, false};
    ghost use Rattle.std.specs.Option.{option_map};
    ghost use Rattle.dp_wide_runs.specs.Beside as beside;
    ghost use Rattle.dp_wide_runs.specs.Shows as shows;
    ghost use Rattle.dp_wide_runs.specs.Turns as spec;

    /// The state before the first turn.
    pub(crate) fn new(manner: M) -> Self
        ensures { result ≡ (spec.no_stops, manner) }
    {
        WideRunner {
            line_is_over: false,
            has_stopped: false,
            manner,
        }
    }

    /// Takes a step if nothing is unknown ahead of its channel; else adds the line that says what is. It says whether the step was refused.
    fn take_step(
        &mut self,
        alloc: Global,
        machine: &mut Machine<WideApps>,
        channel: u32,
        block: &mut Block,
    ) -> Result<bool, NoMemory>
        ensures lines { OnOk result (block.new.whole ≡ block.old.whole
            ++ (beside.step_beside M.after M.above self.old machine.old channel (spec.unknown_at machine.old channel)).lines) }
        ensures state { OnOk result ((self.new, machine.new)
            ≡ (beside.step_beside M.after M.above self.old machine.old channel (spec.unknown_at machine.old channel)).state) }
        ensures refused { IfOk result (λ refused. refused
            ≡ (beside.step_beside M.after M.above self.old machine.old channel (spec.unknown_at machine.old channel)).refused) }
        ensures err { OnErr result (block.new.whole ≡ block.old.whole) }
    {
        let unknown = machine.unknown_ahead(alloc, channel)?;
        if let Some(unknown) = unknown {
            push_unknown(block, machine, channel, &unknown)?;
            self.line_is_over = true;
            self.has_stopped = true;
            return Ok(false);
        }
        self.line_is_over = false;
        let step = Turn::Event(Event::Step { channel });
        self.manner.give_turn(alloc, machine, &step, block)
    }

    /// Shows a call that has this expansion; if a group in it is unknown, adds the line that says which. It is never refused.
    fn show_call(
        &mut self,
        machine: &Machine<WideApps>,
        call: ShownCall<'_>,
        expanded: Expanded,
        block: &mut Block,
    ) -> Result<bool, NoMemory>
        ensures lines { OnOk result (block.new.whole ≡ block.old.whole ++ (spec.value_turn self.old.0 machine.now (call.entry.channel, call.entry.name.now)
            expanded.bytes.items (option_map (λ group. group.items) expanded.unknown)).lines) }
        ensures state { OnOk result ((self.new.0, machine.now) ≡ (spec.value_turn self.old.0 machine.now (call.entry.channel, call.entry.name.now)
            expanded.bytes.items (option_map (λ group. group.items) expanded.unknown)).state) }
        ensures manner { self.new.1 ≡ self.old.1 }
        ensures refused { IfOk result (λ refused. refused ≡ false) }
        ensures err { OnErr result (block.new.whole ≡ block.old.whole) }
    {
        let Expanded { bytes, unknown } = expanded;
        match unknown {
            Some(group) => {
                let unknown = Unknown::Group(Text::new(group));
                push_unknown(block, machine, call.channel, &unknown)?;
                self.has_stopped = true;
            }
            None => push_value(block, call.name, &bytes)?,
        }
        Ok(false)
    }

    /// Takes a turn of a plain script that steps no channel. A call is shown with the value of its group.
    fn take_stepless(
        &mut self,
        alloc: Global,
        machine: &mut Machine<WideApps>,
        turn: &Turn,
        block: &mut Block,
    ) -> Result<bool, NoMemory>
        ensures lines { OnOk result (block.new.whole ≡ block.old.whole
            ++ (beside.stepless_beside M.after M.above self.old machine.old turn.now (shows.call_in turn.now)).lines) }
        ensures state { OnOk result ((self.new, machine.new)
            ≡ (beside.stepless_beside M.after M.above self.old machine.old turn.now (shows.call_in turn.now)).state) }
        ensures refused { IfOk result (λ refused. refused
            ≡ (beside.stepless_beside M.after M.above self.old machine.old turn.now (shows.call_in turn.now)).refused) }
        ensures err { OnErr result (block.new.whole ≡ block.old.whole) }
    {
        let Some(call) = shown_call(turn) else {
            return self.manner.give_turn(alloc, machine, turn, block);
        };
        match expand_call(alloc, machine, call)? {
            Some(expanded) => self.show_call(machine, call, expanded, block),
            None => self.manner.give_turn(alloc, machine, turn, block),
        }
    }

    /// Takes a turn of a plain script.
    fn take_plain(
        &mut self,
        alloc: Global,
        machine: &mut Machine<WideApps>,
        turn: &Turn,
        block: &mut Block,
    ) -> Result<bool, NoMemory>
        ensures lines { OnOk result (block.new.whole ≡ block.old.whole
            ++ (beside.turn_beside M.after M.above M.above_refusal (self.old, machine.old) (WideTurn.Plain turn.now)).lines) }
        ensures state { OnOk result ((self.new, machine.new)
            ≡ (beside.turn_beside M.after M.above M.above_refusal (self.old, machine.old) (WideTurn.Plain turn.now)).state) }
        ensures refused { IfOk result (λ refused. refused
            ≡ (beside.turn_beside M.after M.above M.above_refusal (self.old, machine.old) (WideTurn.Plain turn.now)).refused) }
        ensures err { OnErr result (block.new.whole ≡ block.old.whole) }
    {
        match stepped_by(turn) {
            Some(channel) => self.take_step(alloc, machine, channel, block),
            None => self.take_stepless(alloc, machine, turn, block),
        }
    }

    /// Takes a further step of a line, if the line is not over.
    fn take_further(
        &mut self,
        alloc: Global,
        machine: &mut Machine<WideApps>,
        channel: u32,
        block: &mut Block,
    ) -> Result<bool, NoMemory>
        ensures lines { OnOk result (block.new.whole ≡ block.old.whole
            ++ (beside.turn_beside M.after M.above M.above_refusal (self.old, machine.old) (WideTurn.Further channel)).lines) }
        ensures state { OnOk result ((self.new, machine.new)
            ≡ (beside.turn_beside M.after M.above M.above_refusal (self.old, machine.old) (WideTurn.Further channel)).state) }
        ensures refused { IfOk result (λ refused. refused
            ≡ (beside.turn_beside M.after M.above M.above_refusal (self.old, machine.old) (WideTurn.Further channel)).refused) }
        ensures err { OnErr result (block.new.whole ≡ block.old.whole) }
    {
        if self.line_is_over {
            return Ok(false);
        }
        self.take_step(alloc, machine, channel, block)
    }

    /// Takes a pass, given the place to which the channel goes if something is unknown ahead of it.
    fn take_pass(
        &mut self,
        alloc: Global,
        machine: &mut Machine<WideApps>,
        channel: u32,
        block: &mut Block,
    ) -> Result<bool, NoMemory>
        ensures lines { OnOk result (block.new.whole ≡ block.old.whole
            ++ (beside.turn_beside M.after M.above M.above_refusal (self.old, machine.old) (WideTurn.Pass channel)).lines) }
        ensures state { OnOk result ((self.new, machine.new)
            ≡ (beside.turn_beside M.after M.above M.above_refusal (self.old, machine.old) (WideTurn.Pass channel)).state) }
        ensures refused { IfOk result (λ refused. refused
            ≡ (beside.turn_beside M.after M.above M.above_refusal (self.old, machine.old) (WideTurn.Pass channel)).refused) }
        ensures err { OnErr result (block.new.whole ≡ block.old.whole) }
    {
        let Some(place) = place_past(alloc, machine, channel)? else {
            push_refusal::<M>(block, pass_refusal(machine.phase(channel)))?;
            return Ok(true);
        };
        let redirect = Turn::Event(Event::Redirect { channel, place });
        self.manner.give_turn(alloc, machine, &redirect, block)
    }
}

impl<M: Manner> Taker for WideRunner<M> {
    ghost use Rattle.dp_wide_runs.specs.Beside.{turn_beside};
    ghost use Rattle.dp_wide_runs.specs.Turns.{wide_status};

    type Table = WideApps;

    type Turn = WideTurn;

    ghost step = { turn_beside M.after M.above M.above_refusal };

    ghost last = { λ runner. M.last runner.1 };

    ghost status = { λ runner refused. wide_status runner.0 refused };

    fn take(
        &mut self,
        alloc: Global,
        machine: &mut Machine<WideApps>,
        turn: &WideTurn,
        block: &mut Block,
    ) -> Result<bool, NoMemory> {
        match turn {
            WideTurn::Plain(turn) => self.take_plain(alloc, machine, turn, block),
            WideTurn::Further { channel } => self.take_further(alloc, machine, *channel, block),
            WideTurn::Pass { channel } => self.take_pass(alloc, machine, *channel, block),
        }
    }

    fn finish(&self, block: &mut Block) -> Result<(), NoMemory> {
        self.manner.push_last(block)
    }

    fn status(&self, refused: bool) -> u8 {
        if refused {
            return 1;
        }
        if self.has_stopped { 4 } else { 0 }
    }
}
