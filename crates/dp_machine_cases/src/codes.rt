//! The numbers and the printed names of the refusals, and the names of the results of a call to devices.
use dp_case_tables::{check_same, push_bytes};
use dp_machine::{DialStatus, NoMemory, Refusal};
use std::alloc::Global;
use std::test::Fail;

const REFUSALS: [Refusal; 14] = [
    Refusal::NoChannel,
    Refusal::NotReady,
    Refusal::NotWaiting,
    Refusal::NoTimer,
    Refusal::NoQueue,
    Refusal::NobodyWaiting,
    Refusal::NoMember,
    Refusal::NotRinging,
    Refusal::NotTalking,
    Refusal::Ended,
    Refusal::NumbersSpent,
    Refusal::BadDigit,
    Refusal::BadPlan,
    Refusal::NotDialling,
];

/// The refusals, each with its number and its printed name.
const CODES: &str = "NoChannel 40 NoChannel
NotReady 41 NotReady
NotWaiting 42 NotWaiting
NoTimer 43 NoTimer
NoQueue 44 NoQueue
NobodyWaiting 45 NobodyWaiting
NoMember 46 NoMember
NotRinging 47 NotRinging
NotTalking 48 NotTalking
Ended 49 Ended
NumbersSpent 50 NumbersSpent
BadDigit 51 BadDigit
BadPlan 52 BadPlan
NotDialling 53 NotDialling
";

const STATUSES: [DialStatus; 8] = [
    DialStatus::Answer,
    DialStatus::Busy,
    DialStatus::NoAnswer,
    DialStatus::Congestion,
    DialStatus::ChanUnavail,
    DialStatus::DontCall,
    DialStatus::Torture,
    DialStatus::InvalidArgs,
];

/// The results of a call to devices, each with its name.
const NAMES: &str = "Answer ANSWER
Busy BUSY
NoAnswer NOANSWER
Congestion CONGESTION
ChanUnavail CHANUNAVAIL
DontCall DONTCALL
Torture TORTURE
InvalidArgs INVALIDARGS
";

fn push_refusal(out: &mut String, refusal: Refusal) -> Result<(), NoMemory> {
    write!(out, "{refusal:?} {} {}\n", refusal.code(), refusal.name())
}

fn push_status(out: &mut String, status: DialStatus) -> Result<(), NoMemory> {
    write!(out, "{status:?} ")?;
    push_bytes(out, status.name())?;
    out.push('\n')
}

fn check_codes(alloc: Global) -> Result<(), Fail> {
    let mut out = String::new(alloc);
    for refusal in &REFUSALS {
        push_refusal(&mut out, *refusal)?;
    }
    check_same("the refusals", &out, CODES)
}

fn check_names(alloc: Global) -> Result<(), Fail> {
    let mut out = String::new(alloc);
    for status in &STATUSES {
        push_status(&mut out, *status)?;
    }
    check_same("the statuses", &out, NAMES)
}

#[test]
fn numbers_and_names_of_refusals(rt: HostRuntime) -> Result<(), Fail> {
    check_codes(rt.alloc())
}

#[test]
fn names_of_dial_statuses(rt: HostRuntime) -> Result<(), Fail> {
    check_names(rt.alloc())
}
