//! Listings of dialplans.
use crate::plan::orders::ORDERS;
use crate::plan::render::shown_plan;
use crate::plan::{tables_of_parts, tables_of_texts};
use dp_case_tables::{Question, bytes_of, check};
use dp_conf::{NoMemory, escape};
use dp_lister::list;
use dp_plan::{Dialplan, Note, NoteKind};
use std::alloc::Global;
use std::process::Abort;
use std::test::Fail;

/// The listing of the dialplan that a text loads as.
struct Lists;

impl Question for Lists {
    fn answer(alloc: Global, asked: &str) -> Result<String, Fail> {
        let text = bytes_of(alloc, asked)?;
        listing_of(alloc, &text)
    }
}

fn listing_of(alloc: Global, text: &[u8]) -> Result<String, Fail> {
    let (plan, _) = Dialplan::load(alloc, text)?;
    listing(alloc, &plan)
}

/// The listing of a dialplan, with each byte as the character of its number.
fn listing(alloc: Global, plan: &Dialplan) -> Result<String, Fail> {
    let listed = list(alloc, plan)?;
    characters(alloc, &listed)
}

/// Each byte as the character of its number.
fn characters(alloc: Global, bytes: &[u8]) -> Result<String, Fail> {
    let mut out = String::new(alloc);
    for byte in bytes {
        out.push(char::from(*byte))?;
    }
    Ok(out)
}

const LISTINGS: &str = r"
# An empty text, and lines that a listing leaves out.
→
[general]\nstatic=yes\n[globals]\n→
; x\n\n[m] ; y\nfoo=1\n→[m]\n
# Global variables come first, in their order. Contexts are in the order of first appearance.
[b]\n[globals]\nB=2\n[a]\n[globals]\nA=1\nB=3\n[b]\n→[globals]\nB => 2\nA => 1\nB => 3\n[b]\n[a]\n
[globals]\nA=\n→[globals]\nA => \n
# Entries come before includes, both in the order of the file.
[m]\ninclude => b\nexten => s,2,B\ninclude => a\nexten => s,1,A(x,y)\n→[m]\nexten => s,2,B()\nexten => s,1,A(x,y)\ninclude => b\ninclude => a\n
[m]\ninclude =>\n→[m]\ninclude => \n
# Priorities are numbers, labels follow them, and names have their one spelling.
[m]\nexten => 1-00,1,A\nsame => n(x),B\n→[m]\nexten => 100,1,A()\nexten => 100,2(x),B()\n
[m]\nexten => _[0-9]x[0-9].,1,A\nsame => n,B\nexten => 1-0,1,C\nsame => n,D\n→[m]\nexten => _XXX.,1,A()\nexten => _XXX.,2,B()\nexten => 10,1,C()\nexten => 10,2,D()\n
[m]\nexten => _[2-9][5],1,A\nexten => _[.]x!,1,B\n→[m]\nexten => _N5,1,A()\nexten => _[.]X!,1,B()\n
[m]\nexten => s,1,App)\n→[m]\nexten => s,1,App)()\n
# Semicolons are escaped wherever they are.
[main]\nexten => s,1,NoOp(a\\;b\\\\;c)\n→[main]\nexten => s,1,NoOp(a\\;b\\\\;c)\n
[globals]\na\\;b=c\\;d\n[e\\;f]\nexten => g\\;h,1(i\\;j),k\\;l(\\;)\ninclude => e\\;f\n→[globals]\na\\;b => c\\;d\n[e\\;f]\nexten => g\\;h,1(i\\;j),k\\;l(\\;)\ninclude => e\\;f\n
# A usual file.
[general]\nstatic=yes\nwriteprotect=no\n\n[globals]\nTRUNK=Line/9\n\n[main]\nexten => _NXXXXXX,1,Answer()\n same => n,Playback(hello-world)\n same => n(q),Queue(support,c)\n same => n,Hangup()\ninclude => out\n→[globals]\nTRUNK => Line/9\n[main]\nexten => _NXXXXXX,1,Answer()\nexten => _NXXXXXX,2,Playback(hello-world)\nexten => _NXXXXXX,3(q),Queue(support,c)\nexten => _NXXXXXX,4,Hangup()\ninclude => out\n
";

fn check_notes(rt: &impl Abort, notes: &[Note]) {
    for note in notes {
        assert_eq!(rt; note.kind, NoteKind::UnknownContext);
    }
}

/// A dialplan, shown without its notes, and its listing.
#[derive(Drop)]
struct PlanListing {
    shown: String,
    bytes: Vec<u8>,
}

fn shown_and_listed(alloc: Global, plan: &Dialplan) -> Result<PlanListing, NoMemory> {
    let shown = shown_plan(alloc, plan)?;
    let bytes = list(alloc, plan)?;
    Ok(PlanListing { shown, bytes })
}

/// The dialplan that a listing loads as, and the listing of that dialplan.
fn listed_again(rt: &impl Abort, alloc: Global, listing: &[u8]) -> Result<PlanListing, Fail> {
    let (plan, notes) = Dialplan::load(alloc, listing)?;
    check_notes(rt, &notes);
    Ok(shown_and_listed(alloc, &plan)?)
}

fn check_same(rt: &impl Abort, got: &PlanListing, want: &PlanListing, asked: &str) {
    assert!(rt; got.shown.as_str() == want.shown.as_str(), "of {asked}");
    assert!(rt; got.bytes.as_slice() == want.bytes.as_slice(), "of {asked}");
}

/// Checks that a listing loads as the same dialplan, with notes only on includes, and that this is listed as the same text.
fn check_listing(rt: &impl Abort, alloc: Global, plan: &Dialplan, asked: &str) -> Result<(), Fail> {
    let first = shown_and_listed(alloc, plan)?;
    let again = listed_again(rt, alloc, &first.bytes)?;
    check_same(rt, &again, &first, asked);
    Ok(())
}

fn check_text(rt: &impl Abort, alloc: Global, asked: &str) -> Result<(), Fail> {
    let text = bytes_of(alloc, asked)?;
    match Dialplan::load(alloc, &text) {
        Ok((plan, _)) => check_listing(rt, alloc, &plan, asked),
        Err(_) => Ok(()),
    }
}

fn check_table(rt: &impl Abort, alloc: Global, table: &str) -> Result<(), Fail> {
    for line in table.lines() {
        if let Some((asked, _)) = line.split_once('→') {
            check_text(rt, alloc, asked)?;
        }
    }
    Ok(())
}

fn check_all_tables(rt: &impl Abort, alloc: Global, tables: &[&str]) -> Result<(), Fail> {
    for table in tables {
        check_table(rt, alloc, table)?;
    }
    Ok(())
}

/// Checks the listings of the dialplans in all tables of the loader, of orders and of listings.
fn check_listings(rt: &impl Abort, alloc: Global) -> Result<(), Fail> {
    check_all_tables(rt, alloc, tables_of_texts())?;
    check_all_tables(rt, alloc, tables_of_parts())?;
    check_table(rt, alloc, ORDERS)?;
    check_table(rt, alloc, LISTINGS)
}

#[test]
fn a_listing_loads_as_the_same_dialplan(rt: HostRuntime) -> Result<(), Fail> {
    check_listings(&rt, rt.alloc())
}

/// A text with its semicolons escaped.
struct Escapes;

impl Question for Escapes {
    fn answer(alloc: Global, asked: &str) -> Result<String, Fail> {
        let text = bytes_of(alloc, asked)?;
        escape_text(alloc, &text)
    }
}

fn escape_text(alloc: Global, text: &[u8]) -> Result<String, Fail> {
    let line = escape(alloc, text)?;
    characters(alloc, &line)
}

const ESCAPES: &str = r"
→
a→a
;→\\;
a;b;→a\\;b\\;
\\;→\\\\;
\\→\\
";

fn check_tables(alloc: Global) -> Result<(), Fail> {
    check::<Lists>(alloc, LISTINGS)?;
    check::<Escapes>(alloc, ESCAPES)
}

/// Dialplans are listed, and semicolons are escaped.
#[test]
fn dialplans_are_listed_and_semicolons_are_escaped(rt: HostRuntime) -> Result<(), Fail> {
    check_tables(rt.alloc())
}
