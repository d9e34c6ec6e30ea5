//! What the program does with its command line.
ghost use Rattle.std.specs.Prelude.{◌≡◌, ◌≢◌, ◌||◌, [], All, IfErr, Some};
ghost use Rattle.clap.specs.Values.{kind_of};
ghost use Rattle.dp_commands.specs.Faults.{is_write_failed};
ghost use Rattle.dp_program.specs.Files.{source};
ghost use Rattle.dp_program.specs.Requests.{RequestOf, options_of as options_asked, request_asked};
ghost use Rattle.dp_cli.specs.CommandLine.{asked_of, options_of, texts};
ghost use Rattle.dp_cli.specs.Refusals.{refusals_of};
ghost use Rattle.dp_cli.specs.Status.{Explains, Fulfils, Refuses, RefusesAs, explained_status, sink};

use crate::command_line::{Invocation, read_words};
use clap::Error;
use clap::error::ErrorKind;
use dp_conf::{ReadTold, WriteTold};
use dp_program::{Faulted, PbxFault, ReadFiles, finish, serve};
use std::alloc::Global;
use std::sync::Wait;
use std::thread::Threads;

/// Prints the help or the mistake that replaces a request: help goes to the output with status 0, and a mistake goes to the errors with
/// status 2.
fn explain<W: WriteTold, E: WriteTold>(
    alloc: Global,
    error: &Error,
    output: &mut W,
    errors: &mut E,
) -> Result<u8, PbxFault>
    ensures explains { Explains (kind_of error.now) result }
    ensures help { explained_status (kind_of error.now) ≡ 0 → errors.new ≡ errors.old }
    ensures mistake { explained_status (kind_of error.now) ≡ 2 → output.new ≡ output.old }
    ensures fault { IfErr result (λ _. errors.new ≡ errors.old) }
    ensures told { W.has_failed output.new ≡ (W.has_failed output.old || is_write_failed result) }
{
    if error.kind() == ErrorKind::OutOfMemory {
        return Err(PbxFault::NoMemory);
    }
    let text = format!(in alloc; "{error}")?;
    if error.use_stderr() {
        let _ = errors.write_told(text.as_bytes());
        return Ok(2);
    }
    output.write_told(text.as_bytes())?;
    Ok(0)
}

/// Prints the help or the mistake that replaces a request, and gives the status.
fn refuse<W: WriteTold, E: WriteTold>(
    alloc: Global,
    error: &Error,
    output: &mut W,
    errors: &mut E,
) -> u8
    ensures refuses { RefusesAs (kind_of error.now) (sink (E.contents errors.old) (E.has_failed errors.old))
        (sink (E.contents errors.new) (E.has_failed errors.new)) result }
    ensures mistake { explained_status (kind_of error.now) ≡ 2 → output.new ≡ output.old }
{
    match explain(alloc, error, output, errors) {
        Ok(status) => status,
        Err(fault) => finish(errors, false, Err(Faulted::from(fault))),
    }
}

/// Does what a command line asks for, and gives the status.
fn fulfil<F: ReadFiles, I: ReadTold, W: WriteTold, E: WriteTold, R: Threads + Wait + Sync>(
    rt: &R,
    files: &F,
    alloc: Global,
    invocation: &Invocation<'_>,
    input: &mut I,
    output: &mut W,
    errors: &mut E,
) -> u8
    ensures { Fulfils (F.source_at files.now) (source (I.remaining input.old) (I.has_failed input.new))
        (request_asked invocation.now.request)
        (options_asked invocation.now.options)
        (sink (W.contents output.old) (W.has_failed output.old))
        (sink (W.contents output.new) (W.has_failed output.new))
        (sink (E.contents errors.old) (E.has_failed errors.old))
        (sink (E.contents errors.new) (E.has_failed errors.new)) result }
{
    let answered = serve(
        rt,
        files,
        alloc,
        &invocation.request,
        invocation.options,
        input,
        output,
    );
    finish(errors, invocation.options.explains, answered)
}

/// Does what the words of the command line ask for, and gives the status. The first word is the program's own name. The status is 0; 1 if a
/// fault was printed or an event was refused; 2 if the command line was refused; 4 if a run stopped because something is unknown.
///
/// What was asked for goes to `output`. Faults and mistakes go to `errors`; if these cannot be written, only the status reports them.
/// `input` is read only if there is no command, and never if the words have a fault.
///
/// `rt` is for the threads of a run that has them.
pub fn answer<F: ReadFiles, I: ReadTold, W: WriteTold, E: WriteTold, R: Threads + Wait + Sync>(
    rt: &R,
    files: &F,
    alloc: Global,
    words: &[String],
    input: &mut I,
    output: &mut W,
    errors: &mut E,
) -> u8
    ensures fulfils { (want : RequestOf) → refusals_of (texts words.now) ≡ [] → asked_of (texts words.now) ≡ Some want
        → Fulfils (F.source_at files.now) (source (I.remaining input.old) (I.has_failed input.new)) want
        (options_of (texts words.now))
        (sink (W.contents output.old) (W.has_failed output.old))
        (sink (W.contents output.new) (W.has_failed output.new))
        (sink (E.contents errors.old) (E.has_failed errors.old))
        (sink (E.contents errors.new) (E.has_failed errors.new)) result }
    ensures refuses { refusals_of (texts words.now) ≢ [] → Refuses (refusals_of (texts words.now))
        (sink (E.contents errors.old) (E.has_failed errors.old))
        (sink (E.contents errors.new) (E.has_failed errors.new)) result }
    ensures silent { refusals_of (texts words.now) ≢ []
        → All (λ kind. explained_status kind ≡ 2) (refusals_of (texts words.now))
        → output.new ≡ output.old }
    ensures unread { refusals_of (texts words.now) ≢ [] → input.new ≡ input.old }
{
    match read_words(alloc, words) {
        Ok(invocation) => fulfil(rt, files, alloc, &invocation, input, output, errors),
        Err(error) => refuse(alloc, &error, output, errors),
    }
}
