//! Types that own a machine, a board or a history. The proofs of their drops are here, and in no crate of cases.
//!
//! If memory runs out, each call of a board hands back what it was given, or leaves it unchanged, and is repeated if that is asked for.
use dp_board::{
    Attended, Back, Board, Event, Gate, History, Machine, NoMemory, Reply, Seat, Session, Text,
    Unsettled,
};
use dp_machine::Dialplan;
use dp_queue::Queues;
use dp_table::StandardApps;
use std::alloc::Global;
use std::sync::Wait;

/// A machine with the applications of the program.
pub type BoardMachine = Machine<StandardApps>;

/// The result of a call: the place of its entry, and the reply.
pub type SeatReply = (usize, Reply);

const PLAN: &[u8] = b"[globals]
X=1
Y=5
[main]
exten => add,1,AddQueueMember(q,Line/3)
exten => ask,1,Queue(q)
exten => say,1,NoOp()
exten => wait,1,Wait(1)
exten => 100,1,NoOp(a)
exten => 100,2,NoOp(b)
exten => bye,1,Hangup()
";

const QUEUES: &[u8] = b"[q]
joinempty=no
";

/// A machine over the dialplan, with the queues.
fn with_queues(alloc: Global, plan: Dialplan) -> Option<BoardMachine> {
    let queues = Queues::load(alloc, QUEUES).ok()?;
    BoardMachine::new(alloc, plan, queues).ok()
}

/// A machine over the dialplan, if memory does not run out.
fn exchange(alloc: Global) -> Option<BoardMachine> {
    match Dialplan::load(alloc, PLAN) {
        Ok((plan, _notes)) => with_queues(alloc, plan),
        Err(_) => None,
    }
}

/// A machine over the dialplan, which is made again if memory runs out.
fn exchange_again(alloc: Global) -> Option<BoardMachine> {
    match exchange(alloc) {
        Some(machine) => Some(machine),
        None => exchange(alloc),
    }
}

fn call_to(alloc: Global, exten: &[u8]) -> Result<Event, NoMemory> {
    let context = Text::copy_of(alloc, b"main")?;
    let exten = Text::copy_of(alloc, exten)?;
    let caller = Text::new(Vec::new(alloc));
    Ok(Event::Start {
        context,
        exten,
        caller,
    })
}

fn start(alloc: Global, machine: &mut BoardMachine, exten: &[u8]) -> Result<Reply, NoMemory> {
    machine.apply(alloc, call_to(alloc, exten)?)
}

/// Whether a call comes in, repeated if memory runs out, and has this number.
fn has_started(alloc: Global, machine: &mut BoardMachine, exten: &[u8], channel: u32) -> bool {
    let reply = match start(alloc, machine, exten) {
        Ok(reply) => Some(reply),
        Err(_) => start(alloc, machine, exten).ok(),
    };
    reply == Some(Reply::Started(channel))
}

/// A machine with channel 1 at one extension and channel 2 at the other.
pub fn machine_of(alloc: Global, first: &[u8], second: &[u8]) -> Option<BoardMachine> {
    let mut machine = exchange_again(alloc)?;
    if has_started(alloc, &mut machine, first, 1) && has_started(alloc, &mut machine, second, 2) {
        return Some(machine);
    }
    None
}

/// What a seat gets for an event, if memory does not run out.
pub fn give<S: Session, R: Wait>(
    rt: &R,
    alloc: Global,
    board: &Board<StandardApps, S>,
    seat: &mut Seat<S>,
    event: Event,
) -> Option<SeatReply> {
    board.act(rt, alloc, seat, event).ok()
}

/// The result of a seat attending a channel, if memory does not run out.
pub fn attend<S: Session, R: Wait, G: Gate>(
    rt: &R,
    alloc: Global,
    board: &Board<StandardApps, S>,
    seat: &mut Seat<S>,
    channel: u32,
    gate: &G,
    turns: u64,
) -> Option<Attended> {
    board.attend(rt, alloc, seat, channel, gate, turns).ok()
}

/// A board with its seats.
type OpenedBoard<S> = (Board<StandardApps, S>, Vec<Seat<S>>);

/// The result of settling a board.
type Settled<S> = Result<History<StandardApps>, Unsettled<StandardApps, S>>;

/// The board and the seats that are handed back.
fn open_of<S: Session>(back: Back<StandardApps, S>) -> Option<OpenedBoard<S>> {
    match back {
        Back::Open { board, seats } => Some((board, seats)),
        Back::Closed { .. } => None,
    }
}

/// Whether a call that runs out of memory is repeated.
#[derive(Clone, Copy, PartialEq, Eq)]
pub enum Retry {
    /// It is repeated, since each growth is refused in turn.
    Once,
    /// It is not: there is memory, and a refusal would be false.
    Never,
}

/// Settles, and again if memory runs out, which is fault 62 and hands everything back, if that is asked for.
fn settle_again<S: Session>(
    alloc: Global,
    board: Board<StandardApps, S>,
    seats: Vec<Seat<S>>,
    retry: Retry,
) -> Option<Settled<S>> {
    match board.settle(alloc, seats) {
        Err(Unsettled { fault, back }) if fault.code() == 62 && retry == Retry::Once => {
            let (board, seats) = open_of(back)?;
            Some(board.settle(alloc, seats))
        }
        ended => Some(ended),
    }
}

/// What is handed back from a board that is settled without a seat, which is fault 60.
fn settle_none<S: Session>(
    alloc: Global,
    board: Board<StandardApps, S>,
    seats: Vec<Seat<S>>,
    retry: Retry,
) -> Option<OpenedBoard<S>> {
    match settle_again(alloc, board, seats, retry)? {
        Err(Unsettled { fault, back }) if fault.code() == 60 => open_of(back),
        _ => None,
    }
}

/// Settles with the last seat too.
fn settle_all<S: Session>(
    alloc: Global,
    opened: OpenedBoard<S>,
    last: Seat<S>,
    retry: Retry,
) -> Option<Settled<S>> {
    let (board, mut seats) = opened;
    seats.push(last).ok()?;
    settle_again(alloc, board, seats, retry)
}

/// Settles without the last seat, which hands everything back, and then with it.
fn settle_twice<S: Session>(
    alloc: Global,
    board: Board<StandardApps, S>,
    seats: Vec<Seat<S>>,
    last: Seat<S>,
    retry: Retry,
) -> Option<Settled<S>> {
    let opened = settle_none(alloc, board, seats, retry)?;
    settle_all(alloc, opened, last, retry)
}

/// The history of a board that settled.
fn history_of<S: Session>(settled: Option<Settled<S>>) -> Option<History<StandardApps>> {
    match settled {
        Some(Ok(history)) => Some(history),
        _ => None,
    }
}

/// The history of a board that settles with all its seats and, before that, if it has a seat, does not settle without the last one.
pub fn settle<S: Session>(
    alloc: Global,
    board: Board<StandardApps, S>,
    mut seats: Vec<Seat<S>>,
    retry: Retry,
) -> Option<History<StandardApps>> {
    match seats.pop() {
        Some(last) => history_of(settle_twice(alloc, board, seats, last, retry)),
        None => history_of(settle_again(alloc, board, seats, retry)),
    }
}
