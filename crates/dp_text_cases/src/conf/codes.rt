//! The numbers and the printed names of the faults.
use dp_conf::{ConfFault, LineKind, NoMemory, ReadFault, WriteFailed};
use std::alloc::Global;
use std::test::Fail;

const KINDS: [LineKind; 6] = [
    LineKind::BlockComment,
    LineKind::NoSection,
    LineKind::BadHeader,
    LineKind::NoEquals,
    LineKind::Directive,
    LineKind::Template,
];

fn push_of_lines(out: &mut String) -> Result<(), NoMemory> {
    for kind in KINDS {
        write!(out, "{} {}\n", kind.code(), kind.name())?;
    }
    Ok(())
}

fn push_of_reader(out: &mut String, fault: ReadFault) -> Result<(), NoMemory> {
    match fault.code() {
        Some(code) => write!(out, "{code} {}\n", fault.name()),
        None => write!(out, "none {}\n", fault.name()),
    }
}

fn push_printed(out: &mut String) -> Result<(), NoMemory> {
    let fault = ConfFault::At {
        line: 12,
        kind: LineKind::Template,
    };
    let (none, long) = (ConfFault::NoMemory, ReadFault::TooLong);
    write!(out, "{fault}, {none}, {long}, {WriteFailed}\n")
}

/// The code and the name of each fault, each on a line, and some faults as they are printed.
fn show_codes(alloc: Global) -> Result<String, NoMemory> {
    let mut out = String::new(alloc);
    push_of_lines(&mut out)?;
    push_of_reader(&mut out, ReadFault::ReadFailed)?;
    push_of_reader(&mut out, ReadFault::TooLong)?;
    push_of_reader(&mut out, ReadFault::NoMemory)?;
    write!(out, "{} {}\n", WriteFailed.code(), WriteFailed.name())?;
    push_printed(&mut out)?;
    Ok(out)
}

const FAULTS: &str = "\
1 BlockComment
2 NoSection
3 BadHeader
4 NoEquals
5 Directive
6 Template
7 ReadFailed
8 TooLong
none out of memory
9 WriteFailed
Template line 12, out of memory, TooLong, WriteFailed
";

/// Faults of lines, of readers and of writers, and how faults are printed.
#[test]
fn faults_have_these_codes_and_names(rt: HostRuntime) -> Result<(), Fail> {
    let got = show_codes(rt.alloc())?;
    assert_eq!(rt; got.as_str(), FAULTS);
    Ok(())
}
