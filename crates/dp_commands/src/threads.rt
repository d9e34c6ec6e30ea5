//! Runs in threads: the events of a script are dealt to the seats of a board, which act at once.
ghost use Rattle.std.specs.Prelude.{◌≡◌, ◌++◌, ◌<◌, ◌||◌, [], None, IfOk, IfErr, OnOk, OnErr, length, map, max, true, false, ◌+◌};
ghost use Rattle.std.specs.List.{list_any, range_with_len};
ghost use Rattle.std.specs.Io.KnownBytes.{Appends};
ghost use Rattle.dp_board.specs.Settled.{AllPresent, IsSettled};
ghost use Rattle.dp_board.specs.Sittings.{new_sitting};
ghost use Rattle.dp_machine.specs.Events.{is_refused as refuses};
ghost use Rattle.dp_machine.specs.Replay.{replies_to, world_after};
ghost use Rattle.dp_table.specs.Standard.{standard_meanings};
ghost use Rattle.dp_commands.specs.Block.{waiting};
ghost use Rattle.dp_commands.specs.Faults.{is_write_failed, reason_of};
ghost use Rattle.dp_conf.specs.Answers.{Answers};
ghost use Rattle.dp_commands.specs.Run as run;
ghost use Rattle.dp_commands.specs.Script.{turns_of};
ghost use Rattle.dp_commands.specs.Threads as spec;
ghost use Rattle.dp_commands.specs.steps.Deals.{begun_of};
ghost use Rattle.dp_commands.specs.declared.fault.Code.TheVariants.{Settle};
ghost use Rattle.dp_commands.specs.declared.fault.PbxFault.TheVariants.{Coded};

use crate::beginning::{Begun, begin};
use crate::block::Block;
use crate::deal::{Deal, calls_and_others, events_of, have_acted, leading_calls};
use crate::fault::{Code, PbxFault};
use crate::script::ScriptLine;
use crate::texts::RunTexts;
use crate::trace::push_number;
use dp_board::{Board, Entry, Gate, History, Seat, Session, SettleFault};
use dp_conf::{WriteTold, beside};
use dp_machine::{Event, Machine};
use dp_plan::NoMemory;
use dp_table::StandardApps;
use std::alloc::Global;
use std::marker::Brand;
use std::sync::Wait;
use std::sync::ledger::Blank;
use std::thread::Threads;

/// Why a board was not settled although each seat was handed in.
fn settle_fault(fault: SettleFault) -> PbxFault
    requires { spec.misses_no_seat fault ≡ true }
    ensures code { spec.is_settle_fault result ≡ true }
    ensures told { result ≡ Coded (Settle fault) None }
{
    PbxFault::Coded {
        code: Code::Settle(fault),
        line: None,
    }
}

/// The history of a board that all its seats settled, or why it was not settled.
fn settled_history<S: Session>(
    alloc: Global,
    board: Board<StandardApps, S>,
    seats: Vec<Seat<S>>,
) -> Result<History<StandardApps>, PbxFault>
    requires { AllPresent board seats.items }
    ensures settled { IfOk result (λ history. IsSettled standard_meanings S.opening board seats.items history) }
    ensures code { IfErr result (λ fault. spec.is_settle_fault fault ≡ true) }
{
    match board.settle(alloc, seats) {
        Ok(history) => Ok(history),
        Err(unsettled) => Err(settle_fault(unsettled.fault)),
    }
}

/// The history of the events that the seats of a board give at once.
fn act_and_settle<S: Session + Send + Sync, R: Threads + Wait + Sync, G: Gate + Sync>(
    rt: &R,
    board: Board<StandardApps, S>,
    mut seats: Vec<Seat<S>>,
    deal: Deal<'_, G>,
) -> Result<History<StandardApps>, PbxFault>
    requires some { 0 < board }
    requires seats { seats.items ≡ map new_sitting (range_with_len 0 board) }
    ensures dealt { IfOk result (λ history. spec.IsDealt S.opening board deal.entry.events.now history) }
    ensures code { IfErr result (λ fault. spec.is_settle_fault fault ≡ true) }
{
    deal.act_at_once(rt, &board, &mut seats);
    if have_acted(&seats, deal.events) {
        settled_history(deal.alloc, board, seats)
    } else {
        Err(PbxFault::NoMemory)
    }
}

/// Why a board did not open. The machine that was handed back is dropped.
fn open_fault(_back: (Machine<StandardApps>, NoMemory)) -> PbxFault
    ensures { spec.is_settle_fault result ≡ true }
{
    PbxFault::NoMemory
}

/// Gives the machine the events, and says whether one was refused.
fn run_events(
    alloc: Global,
    machine: &mut Machine<StandardApps>,
    events: &[Event],
) -> Result<bool, NoMemory>
    ensures world { OnOk result (machine.new ≡ world_after standard_meanings machine.old events.now) }
    ensures refused { IfOk result (λ refused. refused
        ≡ list_any refuses (replies_to standard_meanings machine.old events.now)) }
{
    let mut replies = Vec::new(alloc);
    machine.run(alloc, events, &mut replies)?;
    Ok(replies.iter().any(|reply| reply.is_refusal()))
}

/// Whether an entry was refused.
fn has_refusal(entries: &[Entry]) -> bool
    ensures { result ≡ list_any (λ entry. refuses entry.reply) entries.now }
{
    entries.iter().any(|entry| entry.reply.is_refusal())
}

/// The events of a run, of which the leading phone calls were given, and whether one of these was refused.
#[derive(Drop)]
struct GivenEvents {
    events: Vec<Event>,
    is_refused: bool,
}

/// Gives the machine the leading phone calls.
fn give_calls(
    alloc: Global,
    machine: &mut Machine<StandardApps>,
    lines: &[ScriptLine],
) -> Result<GivenEvents, NoMemory>
    ensures world { OnOk result (machine.new ≡ world_after standard_meanings machine.old
        (spec.leading_calls (spec.events_in (turns_of lines.now)))) }
    ensures events { IfOk result (λ given. given.events.items ≡ spec.events_in (turns_of lines.now)) }
    ensures refused { IfOk result (λ given. given.is_refused
        ≡ list_any refuses (replies_to standard_meanings machine.old
        (spec.leading_calls (spec.events_in (turns_of lines.now))))) }
{
    let events = events_of(alloc, lines)?;
    let (calls, _) = calls_and_others(&events);
    let is_refused = run_events(alloc, machine, calls)?;
    Ok(GivenEvents { events, is_refused })
}

/// The state of a run in threads before its board opens: the machine after the leading phone calls, and the events that were given.
#[derive(Drop)]
struct Opened {
    machine: Machine<StandardApps>,
    given: GivenEvents,
}

/// The run that has begun, after its leading phone calls.
fn opened_of(begun: Begun, given: GivenEvents) -> Opened
    ensures machine { result.machine ≡ begun.machine }
    ensures given { result.given ≡ given }
{
    Opened {
        machine: begun.into_machine(),
        given,
    }
}

/// The state of a run in threads before its board opens.
fn begin_shared(alloc: Global, texts: RunTexts<'_>) -> Result<Opened, PbxFault>
    ensures begun { Answers (λ opened. (opened.machine, spec.shared_events opened.given.events.items, opened.given.is_refused)) reason_of result
        (begun_of (run.run_of_texts texts.entry)) }
    ensures quiet { is_write_failed result ≡ false }
{
    let mut begun = begin(alloc, texts)?;
    match give_calls(alloc, &mut begun.machine, &begun.lines) {
        Ok(given) => Ok(opened_of(begun, given)),
        Err(_) => Err(PbxFault::NoMemory),
    }
}

/// Adds the line of a settled history to the waiting lines.
fn push_settled(block: &mut Block, seats: u32, calls: usize) -> Result<(), NoMemory>
    ensures ok { OnOk result (block.new ≡ waiting
        (block.old.whole ++ (block.old.begun ++ spec.settled_line seats calls)) []) }
    ensures err { OnErr result (block.new.whole ≡ block.old.whole) }
{
    block.push(b"settled ")?;
    push_number(block, seats)?;
    block.push(b" seats ")?;
    push_number(block, calls)?;
    block.push(b" calls")?;
    block.end_line()
}

/// Writes the line of a settled history.
fn write_settled<W: WriteTold>(
    block: &mut Block,
    seats: u32,
    calls: usize,
    writer: &mut W,
) -> Result<(), PbxFault>
    requires { block.old ≡ waiting [] [] }
    ensures ok { OnOk result (Appends (W.contents writer.old) (W.contents writer.new) (spec.settled_line seats calls)) }
    ensures err { IfErr result (spec.IsUnwritten seats calls (W.contents writer.old) (W.contents writer.new)) }
    ensures told { W.has_failed writer.new ≡ (W.has_failed writer.old || is_write_failed result) }
{
    push_settled(block, seats, calls)?;
    block.send(writer)?;
    Ok(())
}

/// Writes the line of a history, and gives the status: 1 if a leading phone call or an entry was refused.
fn report<W: WriteTold>(
    alloc: Global,
    history: &History<StandardApps>,
    seats: u32,
    is_refused: bool,
    writer: &mut W,
) -> Result<u8, PbxFault>
    ensures ok { OnOk result (Appends (W.contents writer.old) (W.contents writer.new)
        (spec.settled_line seats (length history.now.entries))) }
    ensures status { IfOk result (λ status. status
        ≡ run.status_by (is_refused || list_any (λ entry. refuses entry.reply) history.now.entries)) }
    ensures err { IfErr result (spec.IsUnwritten seats (length history.now.entries) (W.contents writer.old)
        (W.contents writer.new)) }
    ensures told { W.has_failed writer.new ≡ (W.has_failed writer.old || is_write_failed result) }
{
    let mut block = Block::new(alloc, 64)?;
    write_settled(&mut block, seats, history.entries().len(), writer)?;
    Ok(u8::from(is_refused || has_refusal(history.entries())))
}

/// How a run is shared.
#[derive_where(Clone, Copy)]
pub struct Sharing<'a, G> {
    /// The number of threads: with 0 it runs in one.
    pub threads: u32,
    /// The gate whose two function calls enclose each event.
    pub gate: &'a G,
}

/// The history of a run in threads over the board of a session that is yet to open. The board has a seat for each thread.
fn history_of<S: Session + Send + Sync, R: Threads + Wait + Sync, G: Gate + Sync>(
    rt: &R,
    alloc: Global,
    blank: Blank,
    opened: Opened,
    sharing: Sharing<'_, G>,
) -> Result<History<StandardApps>, PbxFault>
    requires name { blank.name ≡ S.name }
    requires parts { (blank.parts ≡ S.parts) × (blank.parts ≡ sharing.threads + 1) }
    requires opening { opened.machine ≡ S.opening }
    requires some { 0 < sharing.threads }
    ensures dealt { IfOk result (λ history. spec.IsDealt opened.machine sharing.entry.threads
        (spec.shared_events opened.given.events.items) history) }
    ensures code { IfErr result (λ fault. spec.is_settle_fault fault ≡ true) }
{
    let Opened { machine, given } = opened;
    let (_, events) = calls_and_others(&given.events);
    let gate = sharing.gate;
    match Board::<StandardApps, S>::open(alloc, blank, machine, sharing.threads) {
        Ok((board, seats)) => {
            let deal = Deal {
                alloc,
                events,
                gate,
            };
            act_and_settle(rt, board, seats, deal)
        }
        Err(back) => Err(open_fault(back)),
    }
}

/// The history of a run in threads whose board is yet to open. The board has a seat for each thread.
fn share<G: Gate + Sync, R: Threads + Wait + Sync>(
    rt: &R,
    alloc: Global,
    opened: Opened,
    sharing: Sharing<'_, G>,
) -> Result<History<StandardApps>, PbxFault>
    requires some { 0 < sharing.threads }
    ensures dealt { IfOk result (λ history. spec.IsDealt opened.machine sharing.entry.threads
        (spec.shared_events opened.given.events.items) history) }
    ensures code { IfErr result (λ fault. spec.is_settle_fault fault ≡ true) }
{
    let blank = Blank::new(u64::from(sharing.threads) + 1);
    history_of::<Brand, _, _>(rt, alloc, blank, opened, sharing)
}

/// A history and the status of its run, once its line is written.
fn conclude<W: WriteTold>(
    alloc: Global,
    history: History<StandardApps>,
    seats: u32,
    is_refused: bool,
    writer: &mut W,
) -> Result<(u8, History<StandardApps>), PbxFault>
    ensures ok { OnOk result (Appends (W.contents writer.old) (W.contents writer.new)
        (spec.settled_line seats (length history.entries))) }
    ensures history { IfOk result (λ ran. ran.1 ≡ history) }
    ensures status { IfOk result (λ ran. ran.0
        ≡ run.status_by (is_refused || list_any (λ entry. refuses entry.reply) history.entries)) }
    ensures err { IfErr result (spec.IsUnwritten seats (length history.entries) (W.contents writer.old)
        (W.contents writer.new)) }
    ensures told { W.has_failed writer.new ≡ (W.has_failed writer.old || is_write_failed result) }
{
    let status = report(alloc, &history, seats, is_refused, writer);
    beside(status, history)
}

/// Runs a script on a dialplan with its queues in several threads, and writes `settled N seats M calls`: the number of seats, and the
/// number of events that they shared, each of which is a call in the history. The phone calls at the start of the script come in first.
/// Then a board opens, and the events after these are dealt to its seats in turn. Each seat gives its events in a thread, between the
/// function calls of the gate. Lines that show a value are skipped. The results are the history and the status: 1 if an event was refused,
/// else 0.
///
/// All texts are read first, with the same faults as in a run without threads. If memory runs out nothing is written. Every seat is handed
/// in, so none is missing when the board is settled.
pub fn run_threads<G: Gate + Sync, W: WriteTold, R: Threads + Wait + Sync>(
    rt: &R,
    alloc: Global,
    texts: RunTexts<'_>,
    sharing: Sharing<'_, G>,
    writer: &mut W,
) -> Result<(u8, History<StandardApps>), PbxFault>
    ensures shares { spec.Shares (max 1 sharing.entry.threads) (W.contents writer.old) (W.contents writer.new)
        (run.run_of_texts texts.entry) result }
    ensures told { W.has_failed writer.new ≡ (W.has_failed writer.old || is_write_failed result) }
{
    let opened = begin_shared(alloc, texts)?;
    let threads = sharing.threads.max(1);
    let is_refused = opened.given.is_refused;
    let gate = sharing.gate;
    let history = share(rt, alloc, opened, Sharing { threads, gate })?;
    conclude(alloc, history, threads, is_refused, writer)
}
