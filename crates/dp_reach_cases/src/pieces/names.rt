//! What is known of the values of names, given a table, worked out by hand from the rules.
use crate::pieces::notation::push_pieces;
use dp_case_tables::Question;
use dp_pieces::{ByteSet, NameTable, Piece};
use std::alloc::Global;
use std::test::Fail;

/// The set of the bytes of a text.
pub(super) fn set_of(text: &str) -> ByteSet {
    let mut set = ByteSet::none();
    for byte in text.as_bytes() {
        set.put(*byte);
    }
    set
}

/// Does one step: `NAME=BYTES` for a name, `*=BYTES` for each, `caller=BYTES` and `any=BYTES`.
fn hold(alloc: Global, table: &mut NameTable, step: &str) -> Result<(), Fail> {
    let (name, bytes) = step.split_once('=').ok_or("no bytes")?;
    let set = set_of(bytes);
    match name {
        "*" => table.hold_everywhere(&set),
        "caller" => table.hold_caller(&set),
        "any" => table.hold_anywhere(&set),
        _ => table.hold(alloc, name.as_bytes(), &set)?,
    }
    Ok(())
}

fn yes_or_no(is: bool) -> &'static str {
    if is { "yes" } else { "no" }
}

/// Questions to a table.
fn answer_of(alloc: Global, table: &NameTable, asked: &str) -> Result<String, Fail> {
    let mut out = String::new(alloc);
    match asked.split_once('=') {
        Some(("*", bytes)) => out.push_str(yes_or_no(table.has_everywhere(&set_of(bytes))))?,
        Some((name, bytes)) => {
            out.push_str(yes_or_no(table.has(name.as_bytes(), &set_of(bytes))))?;
        }
        None if asked == "whole?" => out.push_str(yes_or_no(table.is_whole()))?,
        None => {
            let set = match asked {
                "caller" => *table.caller(),
                "any" => *table.all(),
                name => table.bytes(name.as_bytes()),
            };
            push_pieces(&mut out, &[Piece::OneOf(set)])?;
        }
    }
    Ok(out)
}

/// Steps with blanks between them, then a question after a bar: the bytes of a name, of the caller's number or of any value, whether a name
/// may have some, or whether any value may have all of them and the digits.
pub(super) struct NameSteps;

impl Question for NameSteps {
    fn answer(alloc: Global, asked: &str) -> Result<String, Fail> {
        let (steps, question) = asked.split_once('|').ok_or("no question")?;
        let mut table = NameTable::new(alloc);
        for step in steps.split(' ') {
            if !step.is_empty() {
                hold(alloc, &mut table, step)?;
            }
        }
        answer_of(alloc, &table, question)
    }
}

/// A name has its own bytes and those of every name. Any value may have what was given to any of them.
pub(super) const NAMES: &str = r"
|X→{}
|caller→{}
|any→{}
X=ab|X→{ab}
X=ab|Y→{}
X=ab|XX→{}
X=ab X=bc|X→{abc}
X=ab Y=cd|X→{ab}
X=ab Y=cd|Y→{cd}
X=ab Y=cd X=e|X→{abe}
X=ab *=c|X→{abc}
*=c X=ab|X→{abc}
X=ab *=c|Y→{c}
caller=12|caller→{12}
caller=12|X→{}
X=ab caller=12 *=c any=z|any→{12abcz}
any=z|X→{}
any=z|caller→{}
X=ab|X=b→yes
X=ab|X=bc→no
X=ab *=c|X=bc→yes
X=ab *=c|Y=c→yes
X=ab *=c|Y=a→no
X=ab *=c|*=c→yes
X=ab *=c|*=a→no
X=ab|X=→yes
|whole?→no
any=0123456789|whole?→yes
any=012345678|whole?→no
X=0123456789|whole?→yes
X=ab Y=c *=d caller=12 any=0123456789|whole?→yes
";
