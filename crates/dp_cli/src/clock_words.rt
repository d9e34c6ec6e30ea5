//! What the word of `--clock` says.
ghost use Rattle.std.specs.Prelude.{◌≡◌, IfOk, codes, is_some, option_map, true};
ghost use Rattle.clap.specs.Kinds.{FailsBy};
ghost use Rattle.clap.specs.Matches.{found_of};
ghost use Rattle.clap.specs.Simple.{subcommand_rows_of};
ghost use Rattle.clap.specs.Values.{kind_of};
ghost use Rattle.clap.specs.Walk.{first_of, rows_of};
ghost use Rattle.clap.specs.declared.error.kind.ErrorKind.TheVariants.{MissingRequiredArgument, ValueValidation};
ghost use Rattle.dp_wide.specs.Times.{moment_of};
ghost use Rattle.dp_cli.specs.CommandLine as spec;
ghost use Rattle.dp_cli.specs.Refusals as refusals;

use crate::command_line::{is_set, refuse, word_of};
use crate::commands::{
    audit_command, check_command, debug_command, diff_command, graph_command, list_command,
    match_command, reach_command, run_command,
};
use clap::error::ErrorKind;
use clap::{ArgMatches, Error};
use dp_plan::NoMemory;
use dp_wide::read_moment;
use std::alloc::Global;

/// The word of `--clock` among those of a command, if there is a command.
pub(crate) fn clock_of<'a>(matches: &ArgMatches<'a>) -> Option<&'a str>
    ensures { option_map (λ word. word.now) result ≡ spec.clock_by (subcommand_rows_of matches.now) }
{
    match matches.subcommand() {
        Some((_, given)) => word_of(given, "MOMENT"),
        None => None,
    }
}

/// The refusal of a command line for one of the commands that have `--clock`.
fn refuse_for(
    alloc: Global,
    command: &str,
    kind: ErrorKind,
    message: &str,
) -> Result<Error, NoMemory>
    ensures { IfOk result (λ error. kind_of error ≡ kind) }
{
    match command {
        "check" => refuse(check_command(alloc), "pbx check", kind, message),
        "list" => refuse(list_command(alloc), "pbx list", kind, message),
        "match" => refuse(match_command(alloc), "pbx match", kind, message),
        "audit" => refuse(audit_command(alloc), "pbx audit", kind, message),
        "diff" => refuse(diff_command(alloc), "pbx diff", kind, message),
        "graph" => refuse(graph_command(alloc), "pbx graph", kind, message),
        "debug" => refuse(debug_command(alloc), "pbx debug", kind, message),
        "reach" => refuse(reach_command(alloc), "pbx reach", kind, message),
        _ => refuse(run_command(alloc), "pbx run", kind, message),
    }
}

/// The refusal of a word that writes no moment.
fn refuse_moment(alloc: Global, command: &str, word: &str) -> Result<Error, NoMemory>
    ensures { IfOk result (λ error. kind_of error ≡ ValueValidation) }
{
    let message = format!(in alloc;
        "invalid value '{word}' for '--clock <MOMENT>': a moment is written like 'fri 2026-11-27 09:30'"
    )?;
    refuse_for(alloc, command, ErrorKind::ValueValidation, &message)
}

/// The refusal of `--clock` without `--asterisk`.
fn refuse_alone(alloc: Global, command: &str) -> Result<Error, NoMemory>
    ensures { IfOk result (λ error. kind_of error ≡ MissingRequiredArgument) }
{
    refuse_for(
        alloc,
        command,
        ErrorKind::MissingRequiredArgument,
        "the following required arguments were not provided:\n  --asterisk",
    )
}

/// Refuses a word of `--clock` that writes no moment.
fn check_moment(alloc: Global, command: &str, word: &str) -> Result<(), Error>
    ensures kinds { FailsBy (refusals.unless_moment (is_some (moment_of word.now))) result }
    ensures moment { IfOk result (λ _. is_some (moment_of word.now) ≡ true) }
{
    match read_moment(word.as_bytes()) {
        Some(_) => Ok(()),
        None => Err(refuse_moment(alloc, command, word)?),
    }
}

/// Refuses the word of `--clock` of a command if it writes no moment, or does not stand beside `--asterisk`.
fn check_word(alloc: Global, command: &str, given: &ArgMatches<'_>) -> Result<(), Error>
    ensures kinds { FailsBy (refusals.clock_kinds (spec.is_set (codes "asterisk") (rows_of (found_of given.now)))
        (first_of (codes "MOMENT") (rows_of (found_of given.now)))) result }
    ensures takes { IfOk result (λ _. spec.takes_clock (spec.is_set (codes "asterisk") (rows_of (found_of given.now)))
        (first_of (codes "MOMENT") (rows_of (found_of given.now))) ≡ true) }
{
    match (word_of(given, "MOMENT"), is_set(given, "asterisk")) {
        (None, _) => Ok(()),
        (Some(word), true) => check_moment(alloc, command, word),
        (Some(_), false) => Err(refuse_alone(alloc, command)?),
    }
}

/// Refuses the word of `--clock` if its command does not take it.
pub(crate) fn check_clock(alloc: Global, matches: &ArgMatches<'_>) -> Result<(), Error>
    ensures kinds { FailsBy (refusals.clock_kinds_by (subcommand_rows_of matches.now)) result }
    ensures takes { IfOk result (λ _. spec.takes_clock_by (subcommand_rows_of matches.now) ≡ true) }
{
    match matches.subcommand() {
        Some((name, given)) => check_word(alloc, name, given),
        None => Ok(()),
    }
}
