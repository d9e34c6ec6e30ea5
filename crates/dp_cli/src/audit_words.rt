//! The request of `audit`.
ghost use Rattle.std.specs.Prelude.{◌≡◌, IfOk, codes, option_map};
ghost use Rattle.clap.specs.Kinds.{FailsBy};
ghost use Rattle.clap.specs.Matches.{found_of};
ghost use Rattle.clap.specs.Values.{kind_of};
ghost use Rattle.clap.specs.Walk.{first_of, rows_of};
ghost use Rattle.clap.specs.declared.error.kind.ErrorKind.TheVariants.{ArgumentConflict, ValueValidation};
ghost use Rattle.dp_program.specs.Requests.{request_asked};
ghost use Rattle.dp_wide_runs.specs.Kinds.{are_kinds, kinds_told};
ghost use Rattle.dp_cli.specs.CommandLine as spec;
ghost use Rattle.dp_cli.specs.Refusals as refusals;

use crate::command_line::{is_set, refuse, word_of};
use crate::commands::audit_command;
use clap::error::ErrorKind;
use clap::{ArgMatches, Error};
use dp_plan::NoMemory;
use dp_program::{AuditChoice, KindChoice, Request, are_kinds};
use std::alloc::Global;

/// The request of `audit` on a file for all kinds of findings.
fn audit_all<'a>(is_wide: bool, file: &'a str) -> Request<'a>
    ensures { request_asked result ≡ spec.audit_all is_wide file.now }
{
    if is_wide {
        return Request::AuditBy {
            file,
            choice: AuditChoice {
                is_wide,
                kinds: KindChoice::All,
            },
        };
    }
    Request::Audit { file }
}

/// The request of `audit` on a file for these kinds of findings.
fn audit_over<'a>(is_wide: bool, kinds: KindChoice<'a>, file: &'a str) -> Request<'a>
    ensures { request_asked result ≡ spec.audit_over is_wide (kinds_told kinds.entry) file.now }
{
    match kinds {
        KindChoice::All => audit_all(is_wide, file),
        KindChoice::Only(_) | KindChoice::Except(_) => Request::AuditBy {
            file,
            choice: AuditChoice { is_wide, kinds },
        },
    }
}

/// The request of `audit` for these kinds of findings, or None if its words name no file.
fn audit_in<'a>(given: &ArgMatches<'a>, kinds: KindChoice<'a>) -> Option<Request<'a>>
    ensures { option_map request_asked result ≡ spec.audit_in (rows_of (found_of given.now)) (kinds_told kinds.entry) }
{
    let file = word_of(given, "FILE")?;
    Some(audit_over(is_set(given, "asterisk"), kinds, file))
}

/// The kinds of findings, as the message on an unknown one lists them.
fn kinds_there_are(is_wide: bool) -> &'static str {
    if is_wide {
        "with '--asterisk' the kinds are Cycle, NoApplication, NoTarget, Gap, NoFirst, Hidden, Unset, Unused, FallsThrough, Loop and NoFunction"
    } else {
        "without '--asterisk' the kinds are Cycle, NoApplication, NoTarget, Gap, NoFirst, Hidden, Unset and Unused"
    }
}

/// The refusal of a text in which a word is not a kind of findings.
fn refuse_kinds(alloc: Global, is_wide: bool, option: &str, text: &str) -> Result<Error, NoMemory>
    ensures { IfOk result (λ error. kind_of error ≡ ValueValidation) }
{
    let kinds = kinds_there_are(is_wide);
    let message = format!(in alloc; "invalid value '{text}' for '{option}': {kinds}")?;
    refuse(
        audit_command(alloc),
        "pbx audit",
        ErrorKind::ValueValidation,
        &message,
    )
}

/// The refusal of `--only` together with `--ignore`.
fn refuse_both(alloc: Global) -> Result<Error, NoMemory>
    ensures { IfOk result (λ error. kind_of error ≡ ArgumentConflict) }
{
    refuse(
        audit_command(alloc),
        "pbx audit",
        ErrorKind::ArgumentConflict,
        "the argument '--only <KINDS>' cannot be used with '--ignore <UNWANTED>'",
    )
}

/// The request of `audit` for the kinds that a text names, or the refusal of the text.
fn audit_named<'a>(
    alloc: Global,
    given: &ArgMatches<'a>,
    option: &str,
    text: &'a str,
    kinds: KindChoice<'a>,
) -> Result<Option<Request<'a>>, Error>
    ensures asked { IfOk result (λ request. option_map request_asked request
        ≡ spec.audit_named (rows_of (found_of given.now)) text.now (kinds_told kinds.entry)) }
    ensures kinds { FailsBy (refusals.unless_kinds
        (are_kinds (spec.is_set (codes "asterisk") (rows_of (found_of given.now))) text.now)) result }
{
    let is_wide = is_set(given, "asterisk");
    if are_kinds(is_wide, text.as_bytes()) {
        return Ok(audit_in(given, kinds));
    }
    Err(refuse_kinds(alloc, is_wide, option, text)?)
}

/// The request of `audit`, or the refusal of its kinds of findings.
pub(crate) fn audit_request<'a>(
    alloc: Global,
    given: &ArgMatches<'a>,
) -> Result<Option<Request<'a>>, Error>
    ensures asked { IfOk result (λ request. option_map request_asked request ≡ spec.audit_asked (rows_of (found_of given.now))) }
    ensures kinds { FailsBy (refusals.audit_kinds (rows_of (found_of given.now))) result }
{
    match (word_of(given, "KINDS"), word_of(given, "UNWANTED")) {
        (None, None) => Ok(audit_in(given, KindChoice::All)),
        (Some(text), None) => {
            audit_named(alloc, given, "--only <KINDS>", text, KindChoice::Only(text))
        }
        (None, Some(text)) => {
            audit_named(
                alloc,
                given,
                "--ignore <UNWANTED>",
                text,
                KindChoice::Except(text),
            )
        }
        (Some(_), Some(_)) => Err(refuse_both(alloc)?),
    }
}
