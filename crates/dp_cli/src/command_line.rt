//! The command line: what its words ask for.
ghost use Rattle.std.specs.Prelude.{◌≡◌, [], IfOk, IfErr, Some, is_some, codes, map, option_map, true, false};
ghost use Rattle.std.specs.Option.{option_and_then};
ghost use Rattle.clap.specs.Faults.{fault_of};
ghost use Rattle.clap.specs.Kinds.{FailsBy};
ghost use Rattle.clap.specs.Matches.{found_of};
ghost use Rattle.clap.specs.Simple.{subcommand_of, subcommand_rows_of};
ghost use Rattle.clap.specs.Takes.{takes};
ghost use Rattle.clap.specs.Values.{kind_of};
ghost use Rattle.clap.specs.Walk.{all_of, first_of, rows_of};
ghost use Rattle.clap.specs.declared.error.kind.ErrorKind.TheVariants.{ArgumentConflict, MissingRequiredArgument, OutOfMemory, ValueValidation};
ghost use Rattle.dp_commands.specs.Script.{number_within};
ghost use Rattle.dp_program.specs.Entries.{fault_numbered};
ghost use Rattle.dp_program.specs.Requests.{drawing_of, options_of, question_of, reach_diff_of as question_texts, request_asked};
ghost use Rattle.dp_program.specs.Texts.{paths_of};
ghost use Rattle.dp_cli.specs.CommandLine as spec;
ghost use Rattle.dp_cli.specs.Refusals as refusals;

use crate::audit_words::audit_request;
use crate::check_words::check_request;
use crate::clock_words::{check_clock, clock_of};
use crate::commands::{
    check_of_dialplan, explain_command, match_command, pbx_command, run_command,
};
use clap::error::ErrorKind;
use clap::{ArgMatches, Command, Error};
use dp_commands::number_within;
use dp_plan::{MOST_PRIORITY, NoMemory, Priority};
use dp_program::{
    DiffFiles, FaultNumber, GraphQuestion, Lookup, Options, ReachDiffQuestion, ReachQuestion,
    Request, RunFiles,
};
use std::alloc::Global;

/// What a command line asks for.
#[derive(Debug, PartialEq, Eq, Drop)]
pub struct Invocation<'a> {
    /// What the program does.
    pub request: Request<'a>,
    /// The options that many commands have: `--explain`, `--clock`, `--assume` and `--json`.
    pub options: Options<'a>,
}

/// The greatest number of threads of a run. It is this program's own limit.
const MOST_THREADS: u32 = 64;

/// The priority in a word: digits that write a number from 1 to 2,147,483,647.
fn read_priority(word: &str) -> Option<Priority>
    ensures { result ≡ spec.priority_in word.now }
{
    let number = number_within(MOST_PRIORITY, word.as_bytes())?;
    Priority::new(number)
}

/// The refusal of a command line. The help calls the command by this full name.
pub(crate) fn refuse<'a>(
    command: Result<Command<'a>, NoMemory>,
    name: &'a str,
    kind: ErrorKind,
    message: &str,
) -> Result<Error, NoMemory>
    ensures { IfOk result (λ error. kind_of error ≡ kind) }
{
    command?.bin_name(name)?.error(kind, message)
}

/// The refusal of a word that is not a priority.
fn refuse_priority(alloc: Global, word: &str) -> Result<Error, NoMemory>
    ensures { IfOk result (λ error. kind_of error ≡ ValueValidation) }
{
    let message = format!(in alloc;
        "invalid value '{word}' for '[PRIORITY]': a priority is a number from 1 to {MOST_PRIORITY}"
    )?;
    refuse(
        match_command(alloc),
        "pbx match",
        ErrorKind::ValueValidation,
        &message,
    )
}

/// The number of threads in a word: digits that write a number from 1 to 64.
fn read_threads(word: &str) -> Option<u32>
    ensures { result ≡ spec.threads_in word.now }
{
    let number = number_within(MOST_THREADS, word.as_bytes())?;
    if number == 0 {
        return None;
    }
    Some(number)
}

/// The refusal of a word that is not a number of threads.
fn refuse_threads(alloc: Global, word: &str) -> Result<Error, NoMemory>
    ensures { IfOk result (λ error. kind_of error ≡ ValueValidation) }
{
    let message = format!(in alloc;
        "invalid value '{word}' for '--threads <N>': the number of threads is from 1 to {MOST_THREADS}"
    )?;
    refuse(
        run_command(alloc),
        "pbx run",
        ErrorKind::ValueValidation,
        &message,
    )
}

/// The fault whose number a word writes in digits.
fn read_fault_number(word: &str) -> Option<FaultNumber>
    ensures { result ≡ option_and_then fault_numbered (number_within spec.most_code word.now) }
{
    let number = number_within(u32::MAX, word.as_bytes())?;
    FaultNumber::new(number)
}

/// The fault whose number a word writes, or that alone has the word as its name.
fn read_fault(word: &str) -> Option<FaultNumber>
    ensures { result ≡ spec.fault_in word.now }
{
    match read_fault_number(word) {
        Some(fault) => Some(fault),
        None => FaultNumber::by_name(word),
    }
}

/// The refusal of a word that names no fault.
fn refuse_fault(alloc: Global, word: &str) -> Result<Error, NoMemory>
    ensures { IfOk result (λ error. kind_of error ≡ ValueValidation) }
{
    let message = format!(in alloc;
        "invalid value '{word}' for '<CODE>': neither the number of a fault nor the name of just one"
    )?;
    refuse(
        explain_command(alloc),
        "pbx explain",
        ErrorKind::ValueValidation,
        &message,
    )
}

/// The word with this name among the words of a command.
pub(crate) fn word_of<'a>(given: &ArgMatches<'a>, name: &str) -> Option<&'a str>
    ensures { option_map (λ word. word.now) result ≡ first_of name.now (rows_of (found_of given.now)) }
{
    given.get_str(name)
}

/// All words with this name among the words of a command, if there are any, as they are kept.
fn kept_words<'r, 'a>(given: &'r ArgMatches<'a>, name: &str) -> Option<&'r [&'a str]>
    ensures { option_map (λ words. map (λ word. word.now) words.now) result ≡ all_of name.now (rows_of (found_of given.now)) }
{
    given.get_strs(name)
}

/// The same, as a list of their own.
fn words_of<'a>(
    alloc: Global,
    given: &ArgMatches<'a>,
    name: &str,
) -> Result<Option<Vec<&'a str>>, NoMemory>
    ensures { IfOk result (λ words. option_map (λ words. map (λ word. word.now) words.items) words ≡ all_of name.now (rows_of (found_of given.now))) }
{
    match kept_words(given, name) {
        Some(words) => Ok(Some(Vec::from_slice(alloc, words)?)),
        None => Ok(None),
    }
}

/// Whether the flag with this name is given.
pub(crate) fn is_set(given: &ArgMatches<'_>, name: &str) -> bool
    ensures { result ≡ spec.is_set name.now (rows_of (found_of given.now)) }
{
    match word_of(given, name) {
        Some(word) => word == "true",
        None => false,
    }
}

/// The request of `list` on a file, given whether it reads the files that the dialplan includes.
fn list_of<'a>(includes: bool, file: &'a str) -> Request<'a>
    ensures { request_asked result ≡ spec.list_of includes file.now }
{
    if includes {
        Request::ListIncluding { file }
    } else {
        Request::Listing { file }
    }
}

/// The request of `list`.
fn list_request<'a>(given: &ArgMatches<'a>) -> Option<Request<'a>>
    ensures { option_map request_asked result ≡ spec.list_asked (rows_of (found_of given.now)) }
{
    let file = word_of(given, "FILE")?;
    Some(list_of(is_set(given, "asterisk"), file))
}

/// The request of `match`, or its refusal if its words name no priority.
fn match_request<'a>(alloc: Global, given: &ArgMatches<'a>) -> Result<Option<Request<'a>>, Error>
    ensures asked { IfOk result (λ request. option_map request_asked request
        ≡ spec.match_asked (rows_of (found_of given.now))) }
    ensures kinds { FailsBy (refusals.number_kinds spec.priority_in
        (first_of (codes "PRIORITY") (rows_of (found_of given.now)))) result }
{
    let Some(word) = word_of(given, "PRIORITY") else {
        return Ok(None);
    };
    match read_priority(word) {
        Some(priority) => Ok(match_at(given, priority)),
        None => Err(refuse_priority(alloc, word)?),
    }
}

/// The request of `match` at a priority, in the dialplan of one file.
fn plain_match<'a>(given: &ArgMatches<'a>, priority: Priority) -> Option<Request<'a>>
    ensures { option_map request_asked result ≡ option_map (spec.match_over (rows_of (found_of given.now)) false)
        (spec.lookup_at (rows_of (found_of given.now)) priority) }
{
    let lookup = Lookup {
        file: word_of(given, "FILE")?,
        context: word_of(given, "CONTEXT")?,
        text: word_of(given, "TEXT")?,
        priority,
    };
    let all = is_set(given, "all");
    Some(Request::Match { lookup, all })
}

/// The same in a dialplan that is read with the files that it includes.
fn including_match<'a>(given: &ArgMatches<'a>, priority: Priority) -> Option<Request<'a>>
    ensures { option_map request_asked result ≡ option_map (spec.match_over (rows_of (found_of given.now)) true)
        (spec.lookup_at (rows_of (found_of given.now)) priority) }
{
    let lookup = Lookup {
        file: word_of(given, "FILE")?,
        context: word_of(given, "CONTEXT")?,
        text: word_of(given, "TEXT")?,
        priority,
    };
    let all = is_set(given, "all");
    Some(Request::MatchIncluding { lookup, all })
}

/// The request of `match` at a priority.
fn match_at<'a>(given: &ArgMatches<'a>, priority: Priority) -> Option<Request<'a>>
    ensures { option_map request_asked result ≡ spec.match_at (rows_of (found_of given.now)) priority }
{
    if is_set(given, "asterisk") {
        return including_match(given, priority);
    }
    plain_match(given, priority)
}

/// The request of `explain`, or its refusal if its words name no fault.
fn explain_request<'a>(alloc: Global, given: &ArgMatches<'a>) -> Result<Option<Request<'a>>, Error>
    ensures asked { IfOk result (λ request. option_map request_asked request
        ≡ spec.explain_asked (rows_of (found_of given.now))) }
    ensures kinds { FailsBy (refusals.number_kinds spec.fault_in
        (first_of (codes "CODE") (rows_of (found_of given.now)))) result }
{
    let Some(word) = word_of(given, "CODE") else {
        return Ok(None);
    };
    match read_fault(word) {
        Some(fault) => Ok(Some(Request::Explain { fault })),
        None => Err(refuse_fault(alloc, word)?),
    }
}

/// The files that the words of a run name.
fn run_files<'a>(given: &ArgMatches<'a>) -> Option<RunFiles<'a>>
    ensures { option_map paths_of result ≡ spec.run_paths (rows_of (found_of given.now)) }
{
    Some(RunFiles {
        plan: word_of(given, "FILE")?,
        queues: word_of(given, "QUEUES"),
        second_plan: word_of(given, "DIALPLAN"),
        script: word_of(given, "SCRIPT")?,
    })
}

/// Whether a number of threads is given, which cannot be used with `--asterisk`.
fn has_threads(given: &ArgMatches<'_>) -> bool
    ensures { result ≡ spec.has_threads (rows_of (found_of given.now)) }
{
    word_of(given, "N").is_some()
}

/// The refusal of `--threads` together with `--asterisk`.
fn refuse_conflict(alloc: Global) -> Result<Error, NoMemory>
    ensures { IfOk result (λ error. kind_of error ≡ ArgumentConflict) }
{
    refuse(
        run_command(alloc),
        "pbx run",
        ErrorKind::ArgumentConflict,
        "the argument '--asterisk' cannot be used with '--threads <N>'",
    )
}

/// The request of `run --asterisk`, or its refusal if its words give a number of threads.
fn wide_request<'a>(alloc: Global, given: &ArgMatches<'a>) -> Result<Option<Request<'a>>, Error>
    ensures asked { IfOk result (λ request. option_map request_asked request
        ≡ spec.run_wide_in (rows_of (found_of given.now)) (spec.has_threads (rows_of (found_of given.now)))) }
    ensures kinds { FailsBy (refusals.conflict_kinds (spec.has_threads (rows_of (found_of given.now)))) result }
{
    if has_threads(given) {
        return Err(refuse_conflict(alloc)?);
    }
    Ok(run_wide_in(given))
}

/// The request of `run --asterisk`, or None if a required word is missing.
fn run_wide_in<'a>(given: &ArgMatches<'a>) -> Option<Request<'a>>
    ensures { option_map request_asked result ≡ spec.run_wide_in (rows_of (found_of given.now)) false }
{
    Some(Request::RunWide {
        files: run_files(given)?,
        is_verbose: is_set(given, "verbose"),
    })
}

/// The request of `run`, or its refusal.
fn run_request<'a>(alloc: Global, given: &ArgMatches<'a>) -> Result<Option<Request<'a>>, Error>
    ensures asked { IfOk result (λ request. option_map request_asked request ≡ spec.run_asked (rows_of (found_of given.now))) }
    ensures kinds { FailsBy (refusals.run_kinds (rows_of (found_of given.now))) result }
{
    if is_set(given, "asterisk") {
        return wide_request(alloc, given);
    }
    plain_request(alloc, given)
}

/// The request of `run` without `--asterisk`, or its refusal if the number of threads is not valid.
fn plain_request<'a>(alloc: Global, given: &ArgMatches<'a>) -> Result<Option<Request<'a>>, Error>
    ensures asked { IfOk result (λ request. option_map request_asked request
        ≡ spec.run_by (rows_of (found_of given.now)) (first_of (codes "N") (rows_of (found_of given.now)))) }
    ensures kinds { FailsBy (refusals.number_kinds spec.threads_in
        (first_of (codes "N") (rows_of (found_of given.now)))) result }
{
    let Some(word) = word_of(given, "N") else {
        return Ok(run_in(given, None));
    };
    match read_threads(word) {
        Some(threads) => Ok(run_in(given, Some(threads))),
        None => Err(refuse_threads(alloc, word)?),
    }
}

/// The request of `run` with an optional number of threads, given its other words.
fn run_in<'a>(given: &ArgMatches<'a>, threads: Option<u32>) -> Option<Request<'a>>
    ensures { option_map request_asked result ≡ spec.run_in (rows_of (found_of given.now)) threads }
{
    Some(Request::Run {
        files: run_files(given)?,
        threads,
        is_verbose: is_set(given, "verbose"),
    })
}

/// The request of `debug` on the files of a run, given whether it uses the wide table.
fn debug_of<'a>(is_wide: bool, files: RunFiles<'a>, held: &'a str, is_verbose: bool) -> Request<'a>
    ensures { request_asked result ≡ spec.debug_of is_wide (paths_of files.entry) held.now is_verbose }
{
    if is_wide {
        Request::DebugWide {
            files,
            held,
            is_verbose,
        }
    } else {
        Request::Debug {
            files,
            held,
            is_verbose,
        }
    }
}

/// The request of `debug`.
fn debug_request<'a>(given: &ArgMatches<'a>) -> Option<Request<'a>>
    ensures { option_map request_asked result ≡ spec.debug_asked (rows_of (found_of given.now)) }
{
    let files = run_files(given)?;
    let held = word_of(given, "CONTEXT,EXTEN,PRIORITY")?;
    let is_verbose = is_set(given, "verbose");
    Some(debug_of(is_set(given, "asterisk"), files, held, is_verbose))
}

/// The request of `test` on these files.
fn test_of<'a>(given: &ArgMatches<'_>, files: Vec<&'a str>) -> Request<'a>
    ensures { request_asked result ≡ spec.test_of (rows_of (found_of given.now)) (map (λ file. file.now) files.entry.items) }
{
    Request::Test {
        files,
        is_traced: is_set(given, "trace"),
        is_covered: is_set(given, "cover"),
        is_drawn: is_set(given, "graph"),
    }
}

/// The request of `test`.
fn test_request<'a>(alloc: Global, given: &ArgMatches<'a>) -> Result<Option<Request<'a>>, Error>
    ensures asked { IfOk result (λ request. option_map request_asked request ≡ spec.test_asked (rows_of (found_of given.now))) }
    ensures kinds { FailsBy [] result }
{
    match words_of(alloc, given, "FILE")? {
        Some(files) => Ok(Some(test_of(given, files))),
        None => Ok(None),
    }
}

/// The request of `diff` on two files, given whether it reads the files that the dialplans include.
fn diff_of<'a>(includes: bool, files: DiffFiles<'a>) -> Request<'a>
    ensures { request_asked result ≡ spec.diff_of includes files.entry.before.now files.entry.after.now }
{
    if includes {
        Request::DiffIncluding { files }
    } else {
        Request::Diff { files }
    }
}

/// The request of `diff` on what a call reaches, given whether it reads the files that the dialplans include.
fn reach_diff_of<'a>(includes: bool, question: ReachDiffQuestion<'a>) -> Request<'a>
    ensures { request_asked result ≡ spec.reach_diff_of includes (question_texts question.entry) }
{
    if includes {
        Request::ReachDiffIncluding { question }
    } else {
        Request::ReachDiff { question }
    }
}

/// The request of `diff` on what a call from a context reaches in two files.
fn reach_diff_at<'a>(given: &ArgMatches<'a>, files: DiffFiles<'a>, from: &'a str) -> Request<'a>
    ensures { request_asked result ≡ spec.reach_diff_of (spec.is_set (codes "asterisk") (rows_of (found_of given.now)))
        (spec.reach_diff_at (rows_of (found_of given.now)) files.entry.before.now files.entry.after.now from.now) }
{
    let question = ReachDiffQuestion {
        files,
        from,
        facts: facts_of(given),
    };
    reach_diff_of(is_set(given, "asterisk"), question)
}

/// The request of `diff` on two files.
fn diff_at<'a>(given: &ArgMatches<'a>, files: DiffFiles<'a>) -> Request<'a>
    ensures { request_asked result ≡ spec.diff_at (rows_of (found_of given.now)) files.entry.before.now files.entry.after.now }
{
    match word_of(given, "CONTEXT") {
        None => diff_of(is_set(given, "asterisk"), files),
        Some(from) => reach_diff_at(given, files, from),
    }
}

/// The request of `diff`.
fn diff_request<'a>(given: &ArgMatches<'a>) -> Option<Request<'a>>
    ensures { option_map request_asked result ≡ spec.diff_asked (rows_of (found_of given.now)) }
{
    let before = word_of(given, "OLD")?;
    let after = word_of(given, "NEW")?;
    Some(diff_at(given, DiffFiles { before, after }))
}

/// The request of `graph`, given whether it reads the files that the dialplan and its queues include.
fn graph_of<'a>(includes: bool, question: GraphQuestion<'a>) -> Request<'a>
    ensures { request_asked result ≡ spec.graph_of includes (drawing_of question.entry) }
{
    if includes {
        Request::GraphIncluding { question }
    } else {
        Request::Graph { question }
    }
}

/// The bytes of what names are set to from outside with `--asterisk`, as ranges, if no others are given.
const USUAL_FACTS: &str = "0-9A-Za-z_./ -";

/// The bytes of what names are set to from outside, as ranges, if something is set.
fn facts_of<'a>(given: &ArgMatches<'a>) -> Option<&'a str>
    ensures { option_map (λ bytes. bytes.now) result ≡ spec.facts_in (rows_of (found_of given.now)) }
{
    match word_of(given, "VALUES") {
        Some(bytes) => Some(bytes),
        None if is_set(given, "asterisk") => Some(USUAL_FACTS),
        None => None,
    }
}

/// The request of `graph`.
fn graph_request<'a>(given: &ArgMatches<'a>) -> Option<Request<'a>>
    ensures { option_map request_asked result ≡ spec.graph_asked (rows_of (found_of given.now)) }
{
    let file = word_of(given, "FILE")?;
    let question = GraphQuestion {
        file,
        queues: word_of(given, "QUEUES"),
        from: word_of(given, "CONTEXT"),
        facts: facts_of(given),
    };
    Some(graph_of(is_set(given, "asterisk"), question))
}

/// The request of `reach`, given whether it reads the files that the dialplan and its queues include.
fn reach_of<'a>(includes: bool, question: ReachQuestion<'a>) -> Request<'a>
    ensures { request_asked result ≡ spec.reach_of includes (question_of question.entry) }
{
    if includes {
        Request::ReachIncluding { question }
    } else {
        Request::Reach { question }
    }
}

/// The request of `reach`.
fn reach_request<'a>(given: &ArgMatches<'a>) -> Option<Request<'a>>
    ensures { option_map request_asked result ≡ spec.reach_asked (rows_of (found_of given.now)) }
{
    let question = ReachQuestion {
        file: word_of(given, "FILE")?,
        queues: word_of(given, "QUEUES"),
        context: word_of(given, "CONTEXT")?,
        target: word_of(given, "TARGET"),
        starts: word_of(given, "CONTEXTS"),
        exten: word_of(given, "BYTES"),
        caller: word_of(given, "NUMBERS"),
        facts: facts_of(given),
    };
    Some(reach_of(is_set(given, "asterisk"), question))
}

/// The request of a command, or None if a required word is missing.
fn command_request<'a>(
    alloc: Global,
    name: &str,
    given: &ArgMatches<'a>,
) -> Result<Option<Request<'a>>, Error>
    ensures asked { IfOk result (λ request. option_map request_asked request
        ≡ spec.command_asked name.now (rows_of (found_of given.now))) }
    ensures kinds { FailsBy (refusals.command_kinds name.now (rows_of (found_of given.now))) result }
{
    match name {
        "check" => Ok(check_request(given)),
        "list" => Ok(list_request(given)),
        "match" => match_request(alloc, given),
        "run" => run_request(alloc, given),
        "debug" => Ok(debug_request(given)),
        "test" => test_request(alloc, given),
        "audit" => audit_request(alloc, given),
        "diff" => Ok(diff_request(given)),
        "graph" => Ok(graph_request(given)),
        "reach" => Ok(reach_request(given)),
        "explain" => explain_request(alloc, given),
        _ => Ok(None),
    }
}

/// Whether the words of a command have the flag `--explain`.
fn explains(matches: &ArgMatches<'_>) -> bool
    ensures { result ≡ spec.explains_by (subcommand_rows_of matches.now) }
{
    match matches.subcommand() {
        Some((_, given)) => is_set(given, "explain"),
        None => false,
    }
}

/// Whether the words of a command have the flag `--json`.
fn is_json(matches: &ArgMatches<'_>) -> bool
    ensures { result ≡ spec.json_by (subcommand_rows_of matches.now) }
{
    match matches.subcommand() {
        Some((_, given)) => is_set(given, "json"),
        None => false,
    }
}

/// The word of `--assume` in the words of a command, if it is there.
fn assumed_of<'a>(matches: &ArgMatches<'a>) -> Option<&'a str>
    ensures { option_map (λ word. word.now) result ≡ spec.assumed_by (subcommand_rows_of matches.now) }
{
    match matches.subcommand() {
        Some((_, given)) => word_of(given, "NOTES"),
        None => None,
    }
}

/// The options of the program's commands.
fn options_in<'a>(matches: &ArgMatches<'a>) -> Options<'a>
    ensures { options_of result ≡ spec.options_by (subcommand_rows_of matches.now) }
{
    let clock = clock_of(matches);
    Options {
        explains: explains(matches),
        clock,
        assumed: assumed_of(matches),
        is_json: is_json(matches),
    }
}

/// The request of a command line that clap has read, or None if a required word is missing.
fn request_of<'a>(alloc: Global, matches: &ArgMatches<'a>) -> Result<Option<Request<'a>>, Error>
    ensures asked { IfOk result (λ request. option_map request_asked request ≡ spec.asked_by (subcommand_rows_of matches.now)) }
    ensures kinds { FailsBy (refusals.kinds_by (subcommand_rows_of matches.now)) result }
{
    match matches.subcommand() {
        Some((name, given)) => command_request(alloc, name, given),
        None => Ok(Some(Request::Joined)),
    }
}

/// The refusal of a command line that lacks a required word. Only `check` gets here, if it has neither a dialplan nor queues, since clap
/// refuses the other commands before. The message says that the dialplan is missing.
fn refuse_missing(alloc: Global, explains: bool) -> Result<Error, NoMemory>
    ensures { IfOk result (λ error. kind_of error ≡ MissingRequiredArgument) }
{
    refuse(
        check_of_dialplan(alloc, explains),
        "pbx check",
        ErrorKind::MissingRequiredArgument,
        "the following required arguments were not provided:\n  <FILE>",
    )
}

/// What `clap` reads in the words.
fn read_matches<'a>(alloc: Global, words: &'a [String]) -> Result<ArgMatches<'a>, Error>
    ensures command { IfOk result (λ matches. subcommand_rows_of matches
        ≡ subcommand_of spec.pbx_app (spec.texts words.now)) }
    ensures refused { IfErr result (λ error. takes spec.pbx_app (spec.texts words.now) ≡ true
        → kind_of error ≡ OutOfMemory) }
    ensures faults { FailsBy (fault_of spec.pbx_app (spec.texts words.now)) result }
{
    let commands = pbx_command(alloc)?;
    commands.try_get_matches_from(words)
}

/// What a command line asks for, given its words, of which the first is the program's own name. The error is the help that it asks for, or
/// what is wrong with it.
#[tactic(auto, unfolding(crate::specs::CommandLine::asked_of, crate::specs::CommandLine::options_of, crate::specs::Refusals::refusals_of))]
pub fn read_words<'a>(alloc: Global, words: &'a [String]) -> Result<Invocation<'a>, Error>
    ensures asked { IfOk result (λ read. spec.asked_of (spec.texts words.now) ≡ Some (request_asked read.request)) }
    ensures options { IfOk result (λ read. spec.options_of (spec.texts words.now) ≡ options_of read.options) }
    ensures refused { IfErr result (λ error. takes spec.pbx_app (spec.texts words.now) ≡ true
        → is_some (spec.asked_of (spec.texts words.now)) ≡ true → kind_of error ≡ OutOfMemory) }
    ensures kinds { FailsBy (refusals.refusals_of (spec.texts words.now)) result }
{
    let matches = read_matches(alloc, words)?;
    check_clock(alloc, &matches)?;
    let options = options_in(&matches);
    match request_of(alloc, &matches)? {
        Some(request) => Ok(Invocation { request, options }),
        None => Err(refuse_missing(alloc, options.explains)?),
    }
}
