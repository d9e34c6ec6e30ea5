//! Texts that are not names, and what names consist of.
use dp_pattern::{NameFault, NoMemory, PatternFault};
use std::alloc::Global;
use std::test::Fail;

/// Texts that are not names.
pub(super) const FAULTS: &str = r"
read →fault 10
read -→fault 10
read ---→fault 10
read _→fault 10
read _-→fault 10
read -_→fault 10
read -_-→fault 10
read _[]→fault 11
read _1[]→fault 11
read _[]-→fault 11
read _[9-0]→fault 12
read _[b-a]→fault 12
read _[Z-A]→fault 12
read _[a-B]→fault 12
read _[A-z]→fault 12
read _[0-a]→fault 12
read _[#-*]→fault 12
read _[-]→fault 12
read _[-1]→fault 12
read _[1-]→fault 12
read _[1--]→fault 12
read _[0-9-]→fault 12
read _[1-2-3]→fault 12
read _[9-0 ]→fault 12
read _[\\-3]→fault 12
read _[3-\\]→fault 12
read _[→fault 13
read _[12→fault 13
read _1[2-→fault 13
read _[ →fault 13
read _1.2→fault 14
read _1.-2→fault 14
read _.X→fault 14
read _!.→fault 14
read _..→fault 14
read _1.[→fault 14
read _1.[]→fault 14
read _1! →fault 14
read a b→fault 15
read  →fault 15
read a\\→fault 15
read 1\x7F→fault 15
read _1 →fault 15
read _\\→fault 15
read _[1 ]→fault 15
read _[\\]→fault 15
read _[\\-]→fault 15
read _[ -]→fault 15
read _[ 9-0]→fault 15
read _ [→fault 15
";

/// What names consist of. The class with five members comes before that with eight.
pub(super) const PARTS: &str = r"
parts 1-00→100
parts _N[0-4]a.→[23456789][01234][a] dot
parts _!→ bang
parts _1-2→[1][2] end
classes _N[0-4]a.→after same
";

const NAME_FAULTS: [NameFault; 6] = [
    NameFault::EmptyName,
    NameFault::EmptySet,
    NameFault::BadRange,
    NameFault::OpenSet,
    NameFault::AfterWildcard,
    NameFault::BadByte,
];

/// The code and the name of each fault, and how it is printed, alone and as a fault of a reading.
fn push_faults(out: &mut String) -> Result<(), NoMemory> {
    for fault in NAME_FAULTS {
        let whole = PatternFault::from(fault);
        write!(out, "{} {} {fault} {whole}\n", fault.code(), fault.name())?;
    }
    write!(out, "{}\n", PatternFault::NoMemory)
}

fn show_reading(alloc: Global) -> Result<String, NoMemory> {
    let mut out = String::new(alloc);
    push_faults(&mut out)?;
    Ok(out)
}

const PRINTED: &str = "\
10 EmptyName EmptyName EmptyName
11 EmptySet EmptySet EmptySet
12 BadRange BadRange BadRange
13 OpenSet OpenSet OpenSet
14 AfterWildcard AfterWildcard AfterWildcard
15 BadByte BadByte BadByte
out of memory
";

#[test]
fn faults_have_these_codes_and_names(rt: HostRuntime) -> Result<(), Fail> {
    let got = show_reading(rt.alloc())?;
    assert_eq!(rt; got.as_str(), PRINTED);
    Ok(())
}
