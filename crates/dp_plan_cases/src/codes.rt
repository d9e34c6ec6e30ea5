//! The numbers and the printed names of faults and notes.
use dp_plan::{ConfFault, LineKind, LoadFault, LoadKind, NameFault, NoteKind, PlanKind, Word};
use std::alloc::Global;
use std::process::Abort;
use std::test::Fail;

fn check_kinds(rt: &impl Abort, kinds: &[(PlanKind, u8, &str)]) {
    for (kind, code, name) in kinds {
        assert_eq!(rt; (kind.code(), kind.name()), (*code, *name));
    }
}

fn check_fault_codes(rt: &impl Abort) {
    let kinds = [
        (PlanKind::BadPriority, 20, "BadPriority"),
        (PlanKind::NoPrevious, 21, "NoPrevious"),
        (PlanKind::BadLabel, 22, "BadLabel"),
        (PlanKind::BadApplication, 23, "BadApplication"),
        (PlanKind::TooDeep, 25, "TooDeep"),
        (PlanKind::NoExten, 26, "NoExten"),
        (PlanKind::PriorityLimit, 27, "PriorityLimit"),
        (PlanKind::ShortLine, 28, "ShortLine"),
    ];
    check_kinds(rt, &kinds);
}

fn check_left_out_codes(rt: &impl Abort) {
    let kinds = [
        (PlanKind::LeftOut(Word::Switch), 24, "LeftOut"),
        (PlanKind::LeftOut(Word::IgnorePat), 24, "LeftOut"),
        (PlanKind::LeftOut(Word::Hint), 24, "LeftOut"),
        (PlanKind::LeftOut(Word::CallerId), 24, "LeftOut"),
        (PlanKind::LeftOut(Word::IncludeTimes), 24, "LeftOut"),
        (PlanKind::LeftOut(Word::Variable), 24, "LeftOut"),
        (PlanKind::LeftOut(Word::OldForm), 24, "LeftOut"),
        (PlanKind::LeftOut(Word::PriorityWord), 24, "LeftOut"),
    ];
    check_kinds(rt, &kinds);
}

/// The faults of names are those of the crate that reads names.
fn check_name_faults(rt: &impl Abort) {
    let faults = [
        (NameFault::EmptyName, 10, "EmptyName"),
        (NameFault::EmptySet, 11, "EmptySet"),
        (NameFault::BadRange, 12, "BadRange"),
        (NameFault::OpenSet, 13, "OpenSet"),
        (NameFault::AfterWildcard, 14, "AfterWildcard"),
        (NameFault::BadByte, 15, "BadByte"),
    ];
    for (fault, code, name) in faults {
        assert_eq!(rt; (fault.code(), fault.name()), (code, name));
    }
}

fn check_word(rt: &impl Abort, alloc: Global, word: Word, want: &str) -> Result<(), Fail> {
    let printed = format!(in alloc; "{word:?}")?;
    assert_eq!(rt; printed.as_str(), want);
    Ok(())
}

fn check_words(rt: &impl Abort, alloc: Global) -> Result<(), Fail> {
    let words = [
        (Word::Switch, "Switch"),
        (Word::IgnorePat, "IgnorePat"),
        (Word::Hint, "Hint"),
        (Word::CallerId, "CallerId"),
        (Word::IncludeTimes, "IncludeTimes"),
        (Word::Variable, "Variable"),
        (Word::OldForm, "OldForm"),
        (Word::PriorityWord, "PriorityWord"),
    ];
    for (word, want) in words {
        check_word(rt, alloc, word, want)?;
    }
    Ok(())
}

fn check_note_names(rt: &impl Abort) {
    let kinds = [
        (NoteKind::DoublePriority, "DoublePriority"),
        (NoteKind::DoubleLabel, "DoubleLabel"),
        (NoteKind::UnknownContext, "UnknownContext"),
        (NoteKind::UnknownKey, "UnknownKey"),
    ];
    for (kind, name) in kinds {
        assert_eq!(rt; kind.name(), name);
    }
}

fn check_printed_faults(rt: &impl Abort, alloc: Global) -> Result<(), Fail> {
    let of_text = LoadFault::Line {
        line: 12,
        kind: LoadKind::Conf(LineKind::NoEquals),
    };
    let of_name = LoadFault::Line {
        line: 7,
        kind: LoadKind::Pattern(NameFault::AfterWildcard),
    };
    let of_context = LoadFault::Line {
        line: 3,
        kind: LoadKind::Plan(PlanKind::LeftOut(Word::Hint)),
    };
    let printed = format!(in alloc;
        "{of_text}, {of_name}, {of_context}, {}",
        LoadFault::NoMemory
    )?;
    assert_eq!(rt;
        printed.as_str(),
        "NoEquals line 12, AfterWildcard line 7, LeftOut line 3, out of memory"
    );
    Ok(())
}

/// Out of memory is the same fault, whichever call met it, and a fault of the text keeps its line.
fn check_out_of_memory(rt: &impl Abort) {
    assert_eq!(rt; LoadFault::from(ConfFault::NoMemory), LoadFault::NoMemory);
    let fault = ConfFault::At {
        line: 1,
        kind: LineKind::Directive,
    };
    let of_text = LoadFault::Line {
        line: 1,
        kind: LoadKind::Conf(LineKind::Directive),
    };
    assert_eq!(rt; LoadFault::from(fault), of_text);
}

fn check_codes(rt: &impl Abort, alloc: Global) -> Result<(), Fail> {
    check_fault_codes(rt);
    check_left_out_codes(rt);
    check_name_faults(rt);
    check_note_names(rt);
    check_out_of_memory(rt);
    check_words(rt, alloc)?;
    check_printed_faults(rt, alloc)
}

/// The numbers and the names of faults, words and notes, and how faults are printed.
#[test]
fn faults_and_notes_have_their_codes_and_names(rt: HostRuntime) -> Result<(), Fail> {
    check_codes(&rt, rt.alloc())
}
