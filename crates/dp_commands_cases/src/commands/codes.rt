//! The numbers and the printed names of the faults.
use dp_board::{Disagree, SettleFault};
use dp_case_tables::check_same;
use dp_commands::{Code, PbxFault};
use dp_commands_fixture::push_fault;
use dp_conf::{LineKind, NoMemory, ReadFault};
use dp_plan::{NameFault, PlanKind, Word};
use std::test::Fail;

/// All codes.
const CODES: [Code; 36] = [
    Code::Line(LineKind::BlockComment),
    Code::Line(LineKind::NoSection),
    Code::Line(LineKind::BadHeader),
    Code::Line(LineKind::NoEquals),
    Code::Line(LineKind::Directive),
    Code::Line(LineKind::Template),
    Code::ReadFailed,
    Code::TooLong,
    Code::WriteFailed,
    Code::Name(NameFault::EmptyName),
    Code::Name(NameFault::EmptySet),
    Code::Name(NameFault::BadRange),
    Code::Name(NameFault::OpenSet),
    Code::Name(NameFault::AfterWildcard),
    Code::Name(NameFault::BadByte),
    Code::Plan(PlanKind::BadPriority),
    Code::Plan(PlanKind::NoPrevious),
    Code::Plan(PlanKind::BadLabel),
    Code::Plan(PlanKind::BadApplication),
    Code::Plan(PlanKind::LeftOut(Word::Hint)),
    Code::Plan(PlanKind::LeftOut(Word::Switch)),
    Code::Plan(PlanKind::TooDeep),
    Code::Plan(PlanKind::NoExten),
    Code::Plan(PlanKind::PriorityLimit),
    Code::Plan(PlanKind::ShortLine),
    Code::QueueLine(LineKind::BlockComment),
    Code::QueueLine(LineKind::NoSection),
    Code::QueueLine(LineKind::BadHeader),
    Code::QueueLine(LineKind::NoEquals),
    Code::QueueLine(LineKind::Directive),
    Code::QueueLine(LineKind::Template),
    Code::Settle(SettleFault::SeatMissing { seat: 0 }),
    Code::Settle(SettleFault::Differs(Disagree { seat: 0, index: 0 })),
    Code::Settle(SettleFault::NoMemory),
    Code::BadScript,
    Code::BadBreak,
];

/// Each code as it is printed without a line. A failed read and a text that is too long have none.
const PRINTED: &str = "\
fault 1 BlockComment
fault 2 NoSection
fault 3 BadHeader
fault 4 NoEquals
fault 5 Directive
fault 6 Template
fault 7 ReadFailed
fault 8 TooLong
fault 9 WriteFailed
fault 10 EmptyName
fault 11 EmptySet
fault 12 BadRange
fault 13 OpenSet
fault 14 AfterWildcard
fault 15 BadByte
fault 20 BadPriority
fault 21 NoPrevious
fault 22 BadLabel
fault 23 BadApplication
fault 24 LeftOut
fault 24 LeftOut
fault 25 TooDeep
fault 26 NoExten
fault 27 PriorityLimit
fault 28 ShortLine
fault 1 BlockComment
fault 2 NoSection
fault 3 BadHeader
fault 4 NoEquals
fault 5 Directive
fault 6 Template
fault 60 SeatMissing
fault 61 Disagree
fault 62 NoMemory
fault 70 BadScript
fault 71 BadBreak
fault 7 ReadFailed
fault 8 TooLong
fault out of memory
";

fn push_line(out: &mut String, fault: PbxFault) -> Result<(), NoMemory> {
    push_fault(out, fault)?;
    out.push('\n')
}

fn push_codes(out: &mut String, codes: &[Code]) -> Result<(), NoMemory> {
    for code in codes {
        let fault = PbxFault::Coded {
            code: *code,
            line: None,
        };
        push_line(out, fault)?;
    }
    Ok(())
}

fn push_all_codes(out: &mut String) -> Result<(), NoMemory> {
    push_codes(out, &CODES)
}

fn push_faults(out: &mut String) -> Result<(), NoMemory> {
    push_all_codes(out)?;
    push_line(out, PbxFault::from(ReadFault::ReadFailed))?;
    push_line(out, PbxFault::from(ReadFault::TooLong))?;
    push_line(out, PbxFault::from(ReadFault::NoMemory))
}

#[test]
fn numbers_and_names_of_faults(rt: HostRuntime) -> Result<(), Fail> {
    let mut got = String::new(rt.alloc());
    push_faults(&mut got)?;
    check_same("the faults", &got, PRINTED)
}
