//! Listings that are longer than a block.
use dp_commands::{PbxFault, list_plan};
use dp_commands_fixture::{Command, Sink, check_into, check_text, make_sink};
use dp_conf::{NoMemory, Told};
use std::alloc::Global;
use std::str;
use std::test::Fail;

/// The listing of a dialplan.
pub(super) struct List;

impl Command for List {
    fn serve(alloc: Global, text: &[u8], writer: &mut Told<Sink>) -> Result<u8, PbxFault> {
        list_plan(alloc, text, writer)
    }
}

/// A dialplan that is its own listing: lines of 23 bytes below a header of seven.
fn many_entries(alloc: Global) -> Result<String, NoMemory> {
    let mut text = String::new(alloc);
    text.push_str("[main]\n")?;
    for number in 1_000_000..1_003_000 {
        write!(text, "exten => {number},1,A()\n")?;
    }
    Ok(text)
}

/// A dialplan that is its own listing: two entries of a name.
fn named_entries(alloc: Global, name: &str) -> Result<String, NoMemory> {
    format!(in alloc; "[main]\nexten => {name},1,A()\nexten => {name},2,A()\n")
}

/// Asserts that a text is its own listing.
fn check_own(alloc: Global, text: &str) -> Result<(), Fail> {
    let want = format!(in alloc; "{text}status 0")?;
    check_text::<List>(alloc, text.as_bytes(), want.as_bytes())
}

/// Asserts that these first bytes of its listing are written if write k of a writer that takes everything fails.
fn check_front(alloc: Global, text: &str, k: usize, front: usize) -> Result<(), Fail> {
    let bytes = text.as_bytes();
    if front > bytes.len() {
        return Err(Fail::new(format_args!("the listing has fewer bytes")));
    }
    let mut want = Vec::from_slice(alloc, &bytes[..front])?;
    want.extend_from_slice(b"fault 9 WriteFailed, told")?;
    let writer = make_sink(alloc, usize::MAX, Some(k));
    check_into::<List>(alloc, bytes, writer, &want)
}

/// The first block is full after 2,671 lines and the `exten => ` of the next one.
fn check_entries(alloc: Global) -> Result<(), Fail> {
    let text = many_entries(alloc)?;
    check_own(alloc, &text)?;
    check_front(alloc, &text, 0, 0)?;
    check_front(alloc, &text, 1, 61_449)
}

/// A name that is longer than a block is written by itself, after what waits.
fn check_name(alloc: Global) -> Result<(), Fail> {
    let name = vec![in alloc; b'7'; 70_000]?;
    let text = named_entries(alloc, str::from_utf8(&name)?)?;
    check_own(alloc, &text)?;
    check_front(alloc, &text, 1, 16)?;
    check_front(alloc, &text, 2, 70_016)
}

#[test]
fn listings_are_written_a_block_at_a_time(rt: HostRuntime) -> Result<(), Fail> {
    check_entries(rt.alloc())?;
    check_name(rt.alloc())
}
