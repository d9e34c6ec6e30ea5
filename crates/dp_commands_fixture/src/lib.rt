//! What cases of commands share: a writer over memory, and the output and result of commands.
//!
//! This is only for tests.
#![tactic(auto)]

use bstr::BStr;
use dp_case_tables::{bytes_of, check_heading, push_bytes};
use dp_commands::{PbxFault, RunTexts, check, run_joined};
use dp_conf::{NoMemory, Told};
use std::alloc::Global;
use std::io;
use std::io::{ErrorKind, Write};
use std::test::Fail;

/// A writer that takes at most `step` bytes at once, and whose write with the number `fails_at`, counted from 0, returns an error.
#[derive(Drop)]
pub struct Sink {
    held: Vec<u8>,
    step: usize,
    writes: usize,
    fails_at: Option<usize>,
}

impl Write for Sink {
    fn write(&mut self, bytes: &[u8]) -> io::Result<usize> {
        let turn = self.writes;
        self.writes = turn.saturating_add(1);
        if self.fails_at == Some(turn) {
            return Err(io::Error::from(ErrorKind::BrokenPipe));
        }
        let count = self.step.min(bytes.len());
        self.held.extend_from_slice(&bytes[..count])?;
        Ok(count)
    }

    fn flush(&mut self) -> io::Result<()> {
        Ok(())
    }
}

/// An empty writer.
pub fn make_sink(alloc: Global, step: usize, fails_at: Option<usize>) -> Told<Sink> {
    Told::new(Sink {
        held: Vec::new(alloc),
        step,
        writes: 0,
        fails_at,
    })
}

/// A command over one text.
pub trait Command {
    /// Does what the command does with the text.
    fn serve(alloc: Global, text: &[u8], writer: &mut Told<Sink>) -> Result<u8, PbxFault>;
}

/// The run of a joined text.
pub struct JoinedRun;

impl Command for JoinedRun {
    fn serve(alloc: Global, text: &[u8], writer: &mut Told<Sink>) -> Result<u8, PbxFault> {
        run_joined(alloc, text, writer)
    }
}

/// The result of loading a dialplan.
pub struct Check;

impl Command for Check {
    fn serve(alloc: Global, text: &[u8], writer: &mut Told<Sink>) -> Result<u8, PbxFault> {
        check(alloc, text, writer)
    }
}

/// Adds a fault as it is printed.
pub fn push_fault(out: &mut String, fault: PbxFault) -> Result<(), NoMemory> {
    match fault {
        PbxFault::Coded {
            code,
            line: Some(line),
        } => write!(out, "fault {} {} line {line}", code.number(), code.name()),
        PbxFault::Coded { code, line: None } => {
            write!(out, "fault {} {}", code.number(), code.name())
        }
        PbxFault::NoMemory => out.push_str("fault out of memory"),
    }
}

/// Adds the result of a command: `status STATUS`, or its fault as it is printed; and that a write failed, if one did.
fn push_ending(
    out: &mut String,
    ended: Result<u8, PbxFault>,
    has_failed: bool,
) -> Result<(), NoMemory> {
    match ended {
        Ok(status) => write!(out, "status {status}")?,
        Err(fault) => push_fault(out, fault)?,
    }
    if has_failed {
        return out.push_str(", told");
    }
    Ok(())
}

/// The result of a command, as text.
fn ending(
    alloc: Global,
    ended: Result<u8, PbxFault>,
    has_failed: bool,
) -> Result<String, NoMemory> {
    let mut out = String::new(alloc);
    push_ending(&mut out, ended, has_failed)?;
    Ok(out)
}

/// The whole output of a command, followed by its result.
fn outcome(
    alloc: Global,
    ended: Result<u8, PbxFault>,
    writer: Told<Sink>,
) -> Result<Vec<u8>, NoMemory> {
    let ending = ending(alloc, ended, writer.has_failed())?;
    let mut all = writer.into_inner().held;
    all.extend_from_slice(ending.as_bytes())?;
    Ok(all)
}

/// The same as text, in which each written byte is the character with its number.
pub fn outcome_text(
    alloc: Global,
    ended: Result<u8, PbxFault>,
    writer: Told<Sink>,
) -> Result<String, NoMemory> {
    let has_failed = writer.has_failed();
    let mut out = String::new(alloc);
    push_bytes(&mut out, &writer.into_inner().held)?;
    push_ending(&mut out, ended, has_failed)?;
    Ok(out)
}

/// Whether a command has written these bytes, followed by its result. The bytes `of` name the case.
fn check_outcome(of: &[u8], got: &[u8], want: &[u8]) -> Result<(), Fail> {
    if got == want {
        return Ok(());
    }
    let (of, got, want) = (BStr::new(of), BStr::new(got), BStr::new(want));
    Err(Fail::new(format_args!("{of:?} gives {got:?}, not {want:?}")))
}

/// The dialplan of a cell, which begins in `[main]`.
pub fn in_main(alloc: Global, plan: &str) -> Result<Vec<u8>, NoMemory> {
    let text = format!(in alloc; "[main]\\n{plan}")?;
    bytes_of(alloc, &text)
}

/// The texts of a run.
#[derive(Drop)]
pub struct RunTextsOf {
    pub plan: Vec<u8>,
    pub queues: Vec<u8>,
    pub second_plan: Option<Vec<u8>>,
    pub script: Vec<u8>,
}

impl RunTextsOf {
    /// The texts, as they are given to a run.
    pub fn lend(&self) -> RunTexts<'_> {
        RunTexts {
            plan: &self.plan,
            queues: Some(&self.queues),
            second_plan: self.second_plan.as_deref(),
            script: &self.script,
        }
    }
}

/// The texts of a run from three cells. The dialplan begins in `[main]`, and the last cell is the script, with a second dialplan after a
/// `¦`, if there is one.
pub fn read_texts(
    alloc: Global,
    plan: &str,
    queues: &str,
    script: &str,
) -> Result<RunTextsOf, NoMemory> {
    let (script, second_plan) = match script.split_once('¦') {
        Some((script, second_plan)) => (script, Some(bytes_of(alloc, second_plan)?)),
        None => (script, None),
    };
    Ok(RunTextsOf {
        plan: in_main(alloc, plan)?,
        queues: bytes_of(alloc, queues)?,
        second_plan,
        script: bytes_of(alloc, script)?,
    })
}

/// Whether a command writes these bytes into this writer, followed by its result.
pub fn check_into<C: Command>(
    alloc: Global,
    text: &[u8],
    mut writer: Told<Sink>,
    want: &[u8],
) -> Result<(), Fail> {
    let ended = C::serve(alloc, text, &mut writer);
    let got = outcome(alloc, ended, writer)?;
    check_outcome(text, &got, want)
}

/// The same for a text, if no write fails.
pub fn check_text<C: Command>(alloc: Global, text: &[u8], want: &[u8]) -> Result<(), Fail> {
    check_into::<C>(alloc, text, make_sink(alloc, 4096, None), want)
}

fn check_row<C: Command>(alloc: Global, asked: &str, want: &str) -> Result<(), Fail> {
    let text = bytes_of(alloc, asked)?;
    let want = bytes_of(alloc, want)?;
    check_text::<C>(alloc, &text, &want)
}

/// Checks each row of a table: a text, an arrow, and the whole output of the command, followed by its result.
pub fn check_table<C: Command>(alloc: Global, table: &str) -> Result<(), Fail> {
    for line in table.lines() {
        match line.split_once('→') {
            Some((asked, want)) => check_row::<C>(alloc, asked, want)?,
            None => check_heading(line)?,
        }
    }
    Ok(())
}
