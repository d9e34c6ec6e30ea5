//! The text before an answer: the assumptions about the outside, and whether a proof was found.
ghost use Rattle.std.specs.Prelude.{◌≡◌, ◌++◌, OnOk, codes, map, option_map};
ghost use Rattle.std.specs.List.{flat_map};
ghost use Rattle.dp_answer.specs.Asks.{ask_of};
ghost use Rattle.dp_answer.specs.Reports as spec;

use crate::ask::Ask;
use crate::ask_parts::{USUAL_CALLER, USUAL_EXTEN, given_or};
use dp_conf::NoMemory;

/// Adds a name after a blank.
fn push_start(out: &mut Vec<u8>, name: &[u8]) -> Result<(), NoMemory>
    ensures { OnOk result (out.new.items ≡ out.old.items ++ spec.start_text name.now) }
{
    out.push(b' ')?;
    out.extend_from_slice(name)?;
    Ok(())
}

/// Adds the names of the contexts where calls come in.
fn push_starts(out: &mut Vec<u8>, starts: &[Vec<u8>]) -> Result<(), NoMemory>
    ensures { OnOk result (out.new.items ≡ out.old.items ++ flat_map spec.start_text (map (λ name. name.items) starts.now)) }
{
    for start in starts {
        push_start(out, start)?;
    }
    Ok(())
}

/// Adds where calls come in, given whether contexts are given.
fn push_entrances(
    out: &mut Vec<u8>,
    given: Option<&[u8]>,
    starts: &[Vec<u8>],
) -> Result<(), NoMemory>
    ensures { OnOk result (out.new.items
        ≡ out.old.items ++ spec.entrances (option_map (λ text. text.now) given.entry) (map (λ name. name.items) starts.now)) }
{
    match given {
        Some(_) => push_starts(out, starts),
        None => {
            out.extend_from_slice(b" every context")?;
            Ok(())
        }
    }
}

/// Adds a text followed by the given bytes, or else by the default ones.
fn push_bytes(
    out: &mut Vec<u8>,
    text: &[u8],
    given: Option<&[u8]>,
    usual: &[u8],
) -> Result<(), NoMemory>
    ensures { OnOk result (out.new.items
        ≡ out.old.items ++ spec.bytes_text text.now (option_map (λ bytes. bytes.now) given.entry) usual.now) }
{
    out.extend_from_slice(text)?;
    out.extend_from_slice(given_or(given, usual))?;
    Ok(())
}

/// Adds the bytes of what names are set to from outside.
fn push_given(out: &mut Vec<u8>, given: &[u8]) -> Result<(), NoMemory>
    ensures { OnOk result (out.new.items ≡ out.old.items ++ codes "}*, values from outside of {" ++ given.now) }
{
    out.extend_from_slice(b"}*, values from outside of {")?;
    out.extend_from_slice(given)?;
    Ok(())
}

/// Adds the bytes of what names are set to from outside, if these are given.
fn push_facts(out: &mut Vec<u8>, given: Option<&[u8]>) -> Result<(), NoMemory>
    ensures { OnOk result (out.new.items ≡ out.old.items ++ spec.facts_text (option_map (λ text. text.now) given.entry)) }
{
    match given {
        Some(given) => push_given(out, given),
        None => Ok(()),
    }
}

/// Adds the assumptions about the outside: the bytes as given, and where calls come in.
fn push_assumed(out: &mut Vec<u8>, ask: &Ask<'_>, starts: &[Vec<u8>]) -> Result<(), NoMemory>
    ensures { OnOk result (out.new.items ≡ out.old.items ++ spec.assumptions (ask_of ask.now) (map (λ name. name.items) starts.now)) }
{
    push_bytes(out, b"assumed: extensions of {", ask.exten, USUAL_EXTEN)?;
    push_bytes(out, b"}*, callers' numbers of {", ask.caller, USUAL_CALLER)?;
    push_facts(out, ask.facts)?;
    out.extend_from_slice(b"}*, calls come in at")?;
    push_entrances(out, ask.starts, starts)?;
    out.extend_from_slice(b"\n")?;
    Ok(())
}

/// Adds that no proof was found, if there is none.
fn push_unproved(out: &mut Vec<u8>, is_proved: bool) -> Result<(), NoMemory>
    ensures { OnOk result (out.new.items ≡ out.old.items ++ spec.no_proof_line is_proved) }
{
    if is_proved {
        return Ok(());
    }
    out.extend_from_slice(b"no proof was found within the bounds: a call may run each entry\n")?;
    Ok(())
}

/// Adds the text before an answer.
pub(crate) fn push_head(
    out: &mut Vec<u8>,
    ask: &Ask<'_>,
    starts: &[Vec<u8>],
    is_proved: bool,
) -> Result<(), NoMemory>
    ensures { OnOk result (out.new.items
        ≡ out.old.items ++ (spec.assumptions (ask_of ask.now) (map (λ name. name.items) starts.now) ++ spec.no_proof_line is_proved)) }
{
    push_assumed(out, ask, starts)?;
    push_unproved(out, is_proved)
}
