//! Tables of cases in one text: each line is a case, with a question, an arrow and the expected answer. Both have the escapes of
//! `bytes_of`.
//!
//! An empty line, or one that begins with `# `, is a heading. A text of many lines is checked as one literal, while each cell of an array
//! would be one of its own.
//!
//! This is only for tests: a test that fails has the fault of a case as its message.
#![tactic(auto)]

ghost use Rattle.std.specs.Prelude.{◌≡◌, ◌≢◌, IfOk, IfErr, true, false};

use std::alloc::{AllocError, Global};
use std::test::Fail;

/// The question of the cases of a table.
pub trait Question {
    /// The answer to a question, as text.
    fn answer(alloc: Global, asked: &str) -> Result<String, Fail>;
}

/// A copy of a text.
pub fn text_of(alloc: Global, text: &str) -> Result<String, Fail> {
    let mut out = String::new(alloc);
    out.push_str(text)?;
    Ok(out)
}

/// Adds each byte as the character of its number.
pub fn push_bytes(out: &mut String, bytes: &[u8]) -> Result<(), AllocError> {
    for byte in bytes {
        out.push(char::from(*byte))?;
    }
    Ok(())
}

/// Whether a text is the expected one. If it is not, the failure says what the text is, and for which question.
pub fn check_same(of: &str, got: &str, want: &str) -> Result<(), Fail>
    ensures same { IfOk result (λ _. got.now ≡ want.now) }
    ensures other { IfErr result (λ _. got.now ≢ want.now) }
{
    if got == want {
        return Ok(());
    }
    Err(Fail::new(format_args!("{of} gives {got}, not {want}")))
}

/// Whether something holds. If it does not, the failure says what should.
pub fn check_that(holds: bool, what: &str) -> Result<(), Fail>
    ensures holds { IfOk result (λ _. holds ≡ true) }
    ensures other { IfErr result (λ _. holds ≡ false) }
{
    if holds {
        return Ok(());
    }
    Err(Fail::new(format_args!("{what} is not so")))
}

/// Whether a line without a case is a heading.
pub fn is_heading(line: &str) -> bool {
    line.is_empty() || line.starts_with("# ")
}

/// Whether an answer is these bytes, which `want` spells.
fn check_bytes(asked: &str, got: &str, want: &str, bytes: &[u8]) -> Result<(), Fail> {
    if got.as_bytes() == bytes {
        return Ok(());
    }
    Err(Fail::new(format_args!("{asked} gives {got}, not {want}")))
}

/// Whether an answer is the expected one, where `want` has the escapes of `bytes_of`.
pub fn check_answer(alloc: Global, asked: &str, got: &str, want: &str) -> Result<(), Fail> {
    let bytes = bytes_of(alloc, want)?;
    check_bytes(asked, got, want, &bytes)
}

fn check_case<Q: Question>(alloc: Global, asked: &str, want: &str) -> Result<(), Fail> {
    let got = Q::answer(alloc, asked)?;
    check_answer(alloc, asked, &got, want)
}

/// Whether a line without a case may have none.
pub fn check_heading(line: &str) -> Result<(), Fail> {
    if is_heading(line) {
        return Ok(());
    }
    Err(Fail::new(format_args!("no answer in {line:?}")))
}

/// Compares the answer to each case of the table with the expected one, up to the first difference.
pub fn check<Q: Question>(alloc: Global, table: &str) -> Result<(), Fail> {
    for line in table.lines() {
        match line.split_once('→') {
            Some((asked, want)) => check_case::<Q>(alloc, asked, want)?,
            None => check_heading(line)?,
        }
    }
    Ok(())
}

/// Does the same as `check`, for several tables.
pub fn check_all<Q: Question>(alloc: Global, tables: &[&str]) -> Result<(), Fail> {
    for table in tables {
        check::<Q>(alloc, table)?;
    }
    Ok(())
}

/// The state of reading an escape.
#[derive(Clone, Copy)]
enum EscapeReading {
    Plain,
    Escape,
    FirstDigit,
    SecondDigit(u8),
}

fn digit(byte: u8) -> u8 {
    match byte {
        b'0'..=b'9' => byte - b'0',
        b'A'..=b'F' => byte - b'A' + 10,
        b'a'..=b'f' => byte - b'a' + 10,
        _ => 0,
    }
}

/// The byte for the letter after a backslash.
fn escape_of(byte: u8) -> u8 {
    match byte {
        b'n' => b'\n',
        b'r' => b'\r',
        b't' => b'\t',
        other => other,
    }
}

fn push_read(out: &mut Vec<u8>, at: EscapeReading, byte: u8) -> Result<EscapeReading, AllocError> {
    match (at, byte) {
        (EscapeReading::Plain, b'\\') => Ok(EscapeReading::Escape),
        (EscapeReading::Escape, b'x') => Ok(EscapeReading::FirstDigit),
        (EscapeReading::FirstDigit, _) => Ok(EscapeReading::SecondDigit(digit(byte))),
        (EscapeReading::Plain, _) => {
            out.push(byte)?;
            Ok(EscapeReading::Plain)
        }
        (EscapeReading::Escape, _) => {
            out.push(escape_of(byte))?;
            Ok(EscapeReading::Plain)
        }
        (EscapeReading::SecondDigit(first), _) => {
            out.push((first << 4) | digit(byte))?;
            Ok(EscapeReading::Plain)
        }
    }
}

/// The bytes of a cell, in which `\n`, `\r`, `\t`, `\\` and `\xEF` are one byte each.
pub fn bytes_of(alloc: Global, cell: &str) -> Result<Vec<u8>, AllocError> {
    let mut out = Vec::new(alloc);
    let mut at = EscapeReading::Plain;
    for byte in cell.as_bytes() {
        at = push_read(&mut out, at, *byte)?;
    }
    Ok(out)
}
