//! The entries of the faults and of the refusals: which numbers have one, and with which number and name it begins.
use dp_board::{Disagree, SettleFault};
use dp_machine::Refusal;
use dp_plan::{LineKind, NameFault, PlanKind, Word};
use dp_program::{Code, FaultNumber};
use dp_queue::QueueKind;
use std::process::Abort;
use std::test::Fail;

/// Each fault that has a number, in their order.
const CODES: [Code; 33] = [
    Code::Line(LineKind::BlockComment),
    Code::Line(LineKind::NoSection),
    Code::Line(LineKind::BadHeader),
    Code::Line(LineKind::NoEquals),
    Code::Line(LineKind::Directive),
    Code::Line(LineKind::Template),
    Code::ReadFailed,
    Code::TooLong,
    Code::WriteFailed,
    Code::Name(NameFault::EmptyName),
    Code::Name(NameFault::EmptySet),
    Code::Name(NameFault::BadRange),
    Code::Name(NameFault::OpenSet),
    Code::Name(NameFault::AfterWildcard),
    Code::Name(NameFault::BadByte),
    Code::Plan(PlanKind::BadPriority),
    Code::Plan(PlanKind::NoPrevious),
    Code::Plan(PlanKind::BadLabel),
    Code::Plan(PlanKind::BadApplication),
    Code::Plan(PlanKind::LeftOut(Word::Switch)),
    Code::Plan(PlanKind::TooDeep),
    Code::Plan(PlanKind::NoExten),
    Code::Plan(PlanKind::PriorityLimit),
    Code::Plan(PlanKind::ShortLine),
    Code::Queue(QueueKind::BadStrategy),
    Code::Queue(QueueKind::BadNumber),
    Code::Queue(QueueKind::LeftOut),
    Code::Queue(QueueKind::DoubleQueue),
    Code::Settle(SettleFault::SeatMissing { seat: 0 }),
    Code::Settle(SettleFault::Differs(Disagree { seat: 0, index: 0 })),
    Code::Settle(SettleFault::NoMemory),
    Code::BadScript,
    Code::BadBreak,
];

/// Each refusal of an event, in the order of their numbers.
const REFUSALS: [Refusal; 14] = [
    Refusal::NoChannel,
    Refusal::NotReady,
    Refusal::NotWaiting,
    Refusal::NoTimer,
    Refusal::NoQueue,
    Refusal::NobodyWaiting,
    Refusal::NoMember,
    Refusal::NotRinging,
    Refusal::NotTalking,
    Refusal::Ended,
    Refusal::NumbersSpent,
    Refusal::BadDigit,
    Refusal::BadPlan,
    Refusal::NotDialling,
];

/// The name of two faults.
const TWICE: &str = "LeftOut";

/// Asserts that the entry of a number begins with it and with the name, on a line of their own, and that the name finds it, unless another
/// fault has the name too.
fn check_entry<R: Abort + AllocGlobal>(rt: &R, number: u8, name: &str) -> Result<(), Fail> {
    let fault = FaultNumber::new(u32::from(number)).ok_or("no entry")?;
    let head = format!(in rt.alloc(); "{number} {name}\n")?;
    let entry = fault.entry();
    assert!(rt; entry.starts_with(head.as_str()), "of {number}: {entry}");
    let named = FaultNumber::by_name(name);
    assert!(rt;
        named == Some(fault) || (name == TWICE && named.is_none()),
        "of {name}"
    );
    Ok(())
}

#[test]
fn each_fault_has_its_entry(rt: HostRuntime) -> Result<(), Fail> {
    for code in &CODES {
        check_entry(&rt, code.number(), code.name())?;
    }
    Ok(())
}

#[test]
fn each_refusal_has_its_entry(rt: HostRuntime) -> Result<(), Fail> {
    for refusal in &REFUSALS {
        check_entry(&rt, refusal.code(), refusal.name())?;
    }
    Ok(())
}

#[test]
fn no_other_number_has_an_entry(rt: HostRuntime) -> Result<(), Fail> {
    let count = (0..1000)
        .filter(|number| FaultNumber::new(*number).is_some())
        .count();
    assert_eq!(&rt; count, CODES.len() + REFUSALS.len());
    Ok(())
}
