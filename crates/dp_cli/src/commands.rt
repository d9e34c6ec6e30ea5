//! The program's commands, with what their help says. Each function takes what was made before, or its failure if memory ran out, which it
//! passes on.
ghost use Rattle.std.specs.Prelude.{◌≡◌, false};
ghost use Rattle.clap.specs.Simple.{App, app_of, new_app, with_rule, with_subcommand};
ghost use Rattle.clap.specs.Walk.{rule_of};
ghost use Rattle.clap.specs.declared.builder.command.Command.TheViews.{out-Command as fields_of};
ghost use Rattle.dp_cli.specs.CommandLine as spec;
ghost use Rattle.dp_cli.specs.steps.Made.{Makes};

use crate::help::{
    AUDIT_NOTES, CHECK_NOTES, DEBUG_NOTES, DIFF_NOTES, EXPLAIN_NOTES, GRAPH_NOTES, LIST_NOTES,
    MATCH_NOTES, PBX_NOTES, REACH_NOTES, RUN_NOTES, TEST_NOTES, VERSION,
};
use clap::{Arg, ArgAction, Command};
use dp_plan::NoMemory;
use std::alloc::Global;

/// A command without words, given what its help says above and below them.
fn command_of<'a>(
    alloc: Global,
    name: &'a str,
    about: &'a str,
    notes: &'a str,
) -> Result<Command<'a>, NoMemory>
    ensures { Makes (new_app name.now) result }
{
    Ok(Command::new(alloc, name).about(about).after_help(notes))
}

/// The command with one more word.
fn with_word<'a>(
    command: Result<Command<'a>, NoMemory>,
    word: Arg<'a>,
) -> Result<Command<'a>, NoMemory>
    requires { word.global ≡ false }
    ensures { (app : App) → Makes app command.entry → Makes (with_rule app (rule_of word.entry)) result }
{
    let with = command?.arg(word)?;
    Ok(with)
}

/// A word that must be given.
fn required_word<'a>(alloc: Global, name: &'a str, help: &'a str) -> Arg<'a>
    ensures rule { rule_of result ≡ spec.required_word name.now }
    ensures local { result.global ≡ false }
{
    Arg::new(alloc, name).required(true).help(help)
}

/// Words of which at least one must be given.
fn required_words<'a>(alloc: Global, name: &'a str, help: &'a str) -> Arg<'a>
    ensures rule { rule_of result ≡ spec.required_words name.now }
    ensures local { result.global ≡ false }
{
    Arg::new(alloc, name)
        .required(true)
        .action(ArgAction::Append)
        .help(help)
}

/// An optional word.
fn free_word<'a>(alloc: Global, name: &'a str, help: &'a str) -> Arg<'a>
    ensures rule { rule_of result ≡ spec.free_word name.now }
    ensures local { result.global ≡ false }
{
    Arg::new(alloc, name).help(help)
}

/// An optional word, with its default.
fn optional_word<'a>(alloc: Global, name: &'a str, help: &'a str, default: &'a str) -> Arg<'a>
    ensures rule { rule_of result ≡ spec.word_or name.now default.now }
    ensures local { result.global ≡ false }
{
    Arg::new(alloc, name).help(help).default_value(default)
}

/// An optional word, given after `--` and a name.
fn named_word<'a>(alloc: Global, name: &'a str, long: &'a str, help: &'a str) -> Arg<'a>
    ensures rule { rule_of result ≡ spec.named_word name.now long.now }
    ensures local { result.global ≡ false }
{
    Arg::new(alloc, name).long(long).help(help)
}

/// A word that must be given, after `--` and a name.
fn required_named_word<'a>(alloc: Global, name: &'a str, long: &'a str, help: &'a str) -> Arg<'a>
    ensures rule { rule_of result ≡ spec.required_named_word name.now long.now }
    ensures local { result.global ≡ false }
{
    Arg::new(alloc, name).long(long).required(true).help(help)
}

/// An optional flag, given as `--` and a name.
fn flag<'a>(alloc: Global, name: &'a str, long: &'a str, help: &'a str) -> Arg<'a>
    ensures rule { rule_of result ≡ spec.flag name.now long.now }
    ensures local { result.global ≡ false }
{
    Arg::new(alloc, name)
        .long(long)
        .action(ArgAction::SetTrue)
        .help(help)
}

/// The command with the word for the file of its dialplan.
fn with_dialplan<'a>(
    alloc: Global,
    command: Result<Command<'a>, NoMemory>,
) -> Result<Command<'a>, NoMemory>
    ensures { (app : App) → Makes app command.entry → Makes (with_rule app spec.file_word) result }
{
    let file = required_word(alloc, "FILE", "The dialplan, such as extensions.conf");
    with_word(command, file)
}

/// The command with the flag `--explain`, which is the last option of each command.
fn with_explain<'a>(
    alloc: Global,
    command: Result<Command<'a>, NoMemory>,
) -> Result<Command<'a>, NoMemory>
    ensures { (app : App) → Makes app command.entry → Makes (spec.with_explain app) result }
{
    let explain = flag(
        alloc,
        "explain",
        "explain",
        "Print below each fault, and below each note of `check`, where it is and what the manual says about it",
    );
    with_word(command, explain)
}

/// The command with the flag `--verbose`, which the commands that run a script have.
fn with_verbose<'a>(
    alloc: Global,
    command: Result<Command<'a>, NoMemory>,
) -> Result<Command<'a>, NoMemory>
    ensures { (app : App) → Makes app command.entry → Makes (spec.with_verbose app) result }
{
    let verbose = flag(
        alloc,
        "verbose",
        "verbose",
        "Print the line of its entry above each step, and what the manual says above each refusal",
    );
    with_word(command, verbose)
}

/// The command with the flag `--json`.
fn with_json<'a>(
    alloc: Global,
    command: Result<Command<'a>, NoMemory>,
) -> Result<Command<'a>, NoMemory>
    ensures { (app : App) → Makes app command.entry → Makes (spec.with_json app) result }
{
    let json = flag(
        alloc,
        "json",
        "json",
        "Print a JSON object in place of each line, for other tools",
    );
    with_word(command, json)
}

/// The command with the flag `--asterisk`, and with the moment by which it reads includes with times.
fn with_asterisk<'a>(
    alloc: Global,
    command: Result<Command<'a>, NoMemory>,
    help: &'a str,
) -> Result<Command<'a>, NoMemory>
    ensures { (app : App) → Makes app command.entry → Makes (spec.with_asterisk app) result }
{
    let asterisk = flag(alloc, "asterisk", "asterisk", help);
    let with = with_word(command, asterisk);
    let clock = named_word(
        alloc,
        "MOMENT",
        "clock",
        "With --asterisk: the moment by which includes with times are read, like 'fri 2026-11-27 09:30'",
    );
    with_word(with, clock)
}

/// The command with the names of notes, for lines that are assumed to have no effect.
fn with_assume<'a>(
    alloc: Global,
    command: Result<Command<'a>, NoMemory>,
) -> Result<Command<'a>, NoMemory>
    ensures { (app : App) → Makes app command.entry → Makes (spec.with_assume app) result }
{
    let notes = named_word(
        alloc,
        "NOTES",
        "assume",
        "With --asterisk: assume that lines with these notes have no effect, like Switch,CallerId",
    );
    with_word(command, notes)
}

/// The command with the words for the files that every run has: its dialplan and its script.
fn with_files<'a>(
    alloc: Global,
    command: Result<Command<'a>, NoMemory>,
) -> Result<Command<'a>, NoMemory>
    ensures { (app : App) → Makes app command.entry → Makes (spec.with_files app) result }
{
    let with = with_dialplan(alloc, command);
    let script = required_word(alloc, "SCRIPT", "The script of events");
    with_word(with, script)
}

/// The command with the word for a queue file.
fn with_queues<'a>(
    alloc: Global,
    command: Result<Command<'a>, NoMemory>,
    help: &'a str,
) -> Result<Command<'a>, NoMemory>
    ensures { (app : App) → Makes app command.entry → Makes (spec.with_queues app) result }
{
    let queues = named_word(alloc, "QUEUES", "queues", help);
    with_word(command, queues)
}

/// The command with the words for the optional files of a run: its queues and its second dialplan.
fn with_more_files<'a>(
    alloc: Global,
    command: Result<Command<'a>, NoMemory>,
) -> Result<Command<'a>, NoMemory>
    ensures { (app : App) → Makes app command.entry → Makes (spec.with_more_files app) result }
{
    let with = with_queues(
        alloc,
        command,
        "The queues, such as queues.conf; by default there are none",
    );
    let second_plan = named_word(
        alloc,
        "DIALPLAN",
        "reload",
        "The second dialplan, which replaces the first at a line `reload` of the script",
    );
    with_word(with, second_plan)
}

/// A command with one more subcommand.
fn add_command<'a>(
    command: Command<'a>,
    below: Result<Command<'a>, NoMemory>,
) -> Result<Command<'a>, NoMemory>
    ensures { (below_app : App) → (fields_of command.entry).has_globals ≡ false → Makes below_app below.entry
        → Makes (with_subcommand (app_of command.entry) below_app.top) result }
{
    let with = command.subcommand(below?)?;
    Ok(with)
}

/// The program's command with one more subcommand.
fn with_command<'a>(
    command: Result<Command<'a>, NoMemory>,
    below: Result<Command<'a>, NoMemory>,
) -> Result<Command<'a>, NoMemory>
    ensures { (app below_app : App) → Makes app command.entry → Makes below_app below.entry
        → Makes (with_subcommand app below_app.top) result }
{
    add_command(command?, below)
}

/// The command `check`.
pub(crate) fn check_command<'a>(alloc: Global) -> Result<Command<'a>, NoMemory>
    ensures { Makes spec.check_app result }
{
    let check = command_of(
        alloc,
        "check",
        "Load a dialplan, queues or both, and print notes and counts",
        CHECK_NOTES,
    );
    let check = with_asterisk(
        alloc,
        check,
        "Read included files, templates and block comments, and print every fault",
    );
    let check = with_queues(alloc, check, "The queues, such as queues.conf");
    let check = with_json(alloc, check);
    let file = free_word(alloc, "FILE", "The dialplan, such as extensions.conf");
    let check = with_word(check, file);
    with_explain(alloc, check)
}

/// The command `check` for the message that its file is missing: with a dialplan, and with the flag `--explain` if it was given.
pub(crate) fn check_of_dialplan<'a>(
    alloc: Global,
    explains: bool,
) -> Result<Command<'a>, NoMemory> {
    let check = Ok(Command::new(alloc, "check"));
    let check = with_dialplan(alloc, check);
    if explains {
        with_word(
            check,
            Arg::new(alloc, "explain")
                .long("explain")
                .required(true)
                .action(ArgAction::SetTrue),
        )
    } else {
        check
    }
}

/// The command with the words that name kinds of findings.
fn with_kinds<'a>(
    alloc: Global,
    command: Result<Command<'a>, NoMemory>,
) -> Result<Command<'a>, NoMemory>
    ensures { (app : App) → Makes app command.entry → Makes (spec.with_kinds app) result }
{
    let only = named_word(
        alloc,
        "KINDS",
        "only",
        "Print only the findings of these kinds, separated by commas",
    );
    let with = with_word(command, only);
    let ignore = named_word(
        alloc,
        "UNWANTED",
        "ignore",
        "Leave out the findings of these kinds, separated by commas",
    );
    with_word(with, ignore)
}

/// The command `audit`.
pub(crate) fn audit_command<'a>(alloc: Global) -> Result<Command<'a>, NoMemory>
    ensures { Makes spec.audit_app result }
{
    let audit = command_of(
        alloc,
        "audit",
        "Print what the writer of a dialplan may not have meant",
        AUDIT_NOTES,
    );
    let audit = with_asterisk(
        alloc,
        audit,
        "Know the applications and functions that people use, and look for endless runs and calls that go on elsewhere",
    );
    let audit = with_kinds(alloc, audit);
    let audit = with_json(alloc, audit);
    let audit = with_dialplan(alloc, audit);
    with_explain(alloc, audit)
}

/// The command with the word for a context where calls come in.
fn with_from<'a>(
    alloc: Global,
    command: Result<Command<'a>, NoMemory>,
    help: &'a str,
) -> Result<Command<'a>, NoMemory>
    ensures { (app : App) → Makes app command.entry → Makes (spec.with_from app) result }
{
    let from = named_word(alloc, "CONTEXT", "from", help);
    with_word(command, from)
}

/// The command `diff`.
pub(crate) fn diff_command<'a>(alloc: Global) -> Result<Command<'a>, NoMemory>
    ensures { Makes spec.diff_app result }
{
    let diff = command_of(
        alloc,
        "diff",
        "Print what answers differently in two dialplans",
        DIFF_NOTES,
    );
    let diff = with_asterisk(
        alloc,
        diff,
        "Read included files, templates and block comments",
    );
    let diff = with_from(
        alloc,
        diff,
        "A context where calls come in: print which contexts they can reach only in OLD or only in NEW",
    );
    let before = required_word(alloc, "OLD", "The dialplan before a change");
    let diff = with_word(diff, before);
    let after = required_word(alloc, "NEW", "The dialplan after it");
    let diff = with_word(diff, after);
    with_explain(alloc, diff)
}

/// The command `graph`.
pub(crate) fn graph_command<'a>(alloc: Global) -> Result<Command<'a>, NoMemory>
    ensures { Makes spec.graph_app result }
{
    let graph = command_of(
        alloc,
        "graph",
        "Draw a dialplan as a picture for Graphviz",
        GRAPH_NOTES,
    );
    let graph = with_asterisk(
        alloc,
        graph,
        "Know the applications and functions that people use, and read included files, templates and block comments",
    );
    let graph = with_queues(
        alloc,
        graph,
        "The queues, such as queues.conf, whose ways out are drawn",
    );
    let graph = with_from(
        alloc,
        graph,
        "A context where calls come in: what they can reach is filled, and the rest is grey",
    );
    let graph = with_dialplan(alloc, graph);
    with_explain(alloc, graph)
}

/// The command `list`.
pub(crate) fn list_command<'a>(alloc: Global) -> Result<Command<'a>, NoMemory>
    ensures { Makes spec.list_app result }
{
    let list = command_of(
        alloc,
        "list",
        "Print a dialplan as canonical text",
        LIST_NOTES,
    );
    let list = with_asterisk(
        alloc,
        list,
        "Read included files, templates and block comments",
    );
    let list = with_dialplan(alloc, list);
    with_explain(alloc, list)
}

/// The command with the words of a look-up: the context, what was dialled, and the priority.
fn with_lookup<'a>(
    alloc: Global,
    command: Result<Command<'a>, NoMemory>,
) -> Result<Command<'a>, NoMemory>
    ensures { (app : App) → Makes app command.entry → Makes (spec.with_lookup app) result }
{
    let context = required_word(alloc, "CONTEXT", "The context where the call begins");
    let with = with_word(command, context);
    let text = required_word(alloc, "TEXT", "The dialled text");
    let with = with_word(with, text);
    let priority = optional_word(
        alloc,
        "PRIORITY",
        "The requested priority, from 1 to 2147483647",
        "1",
    );
    with_word(with, priority)
}

/// The command `match`.
pub(crate) fn match_command<'a>(alloc: Global) -> Result<Command<'a>, NoMemory>
    ensures { Makes spec.match_app result }
{
    let matching = command_of(
        alloc,
        "match",
        "Print which entry of a dialplan answers a call",
        MATCH_NOTES,
    );
    let matching = with_asterisk(
        alloc,
        matching,
        "Read included files, templates and block comments",
    );
    let matching = with_assume(alloc, matching);
    let all = flag(
        alloc,
        "all",
        "all",
        "Also print what becomes of each extension that matches",
    );
    let matching = with_word(matching, all);
    let matching = with_json(alloc, matching);
    let matching = with_dialplan(alloc, matching);
    let matching = with_lookup(alloc, matching);
    with_explain(alloc, matching)
}

/// The command `explain`.
pub(crate) fn explain_command<'a>(alloc: Global) -> Result<Command<'a>, NoMemory>
    ensures { Makes spec.explain_app result }
{
    let explain = command_of(
        alloc,
        "explain",
        "Print what the manual says about a fault",
        EXPLAIN_NOTES,
    );
    let code = required_word(
        alloc,
        "CODE",
        "The number of the fault, from 1 to 71, or its name",
    );
    let explain = with_word(explain, code);
    with_explain(alloc, explain)
}

/// The command `run`.
pub(crate) fn run_command<'a>(alloc: Global) -> Result<Command<'a>, NoMemory>
    ensures { Makes spec.run_app result }
{
    let run = command_of(
        alloc,
        "run",
        "Run a script of events on a dialplan, and print the trace",
        RUN_NOTES,
    );
    let run = with_asterisk(
        alloc,
        run,
        "Use the applications and functions that people use, take facts from the script, and stop at anything unknown",
    );
    let run = with_more_files(alloc, run);
    let threads = named_word(
        alloc,
        "N",
        "threads",
        "Give the events from this many threads at once, from 1 to 64",
    );
    let run = with_word(run, threads);
    let run = with_verbose(alloc, run);
    let run = with_files(alloc, run);
    with_explain(alloc, run)
}

/// The command `debug`.
pub(crate) fn debug_command<'a>(alloc: Global) -> Result<Command<'a>, NoMemory>
    ensures { Makes spec.debug_app result }
{
    let debug = command_of(
        alloc,
        "debug",
        "Run a script of events on a dialplan, and halt before the steps at a place",
        DEBUG_NOTES,
    );
    let debug = with_asterisk(
        alloc,
        debug,
        "Use the applications and functions that people use, take facts from the script, and stop at anything unknown",
    );
    let debug = with_more_files(alloc, debug);
    let held = required_named_word(
        alloc,
        "CONTEXT,EXTEN,PRIORITY",
        "break",
        "The place where the run halts",
    );
    let debug = with_word(debug, held);
    let debug = with_verbose(alloc, debug);
    let debug = with_files(alloc, debug);
    with_explain(alloc, debug)
}

/// The command with the flag `--graph`.
fn with_graph<'a>(
    alloc: Global,
    command: Result<Command<'a>, NoMemory>,
) -> Result<Command<'a>, NoMemory>
    ensures { (app : App) → Makes app command.entry → Makes (spec.with_graph app) result }
{
    let graph = flag(
        alloc,
        "graph",
        "graph",
        "Draw the dialplan for Graphviz by what ran, in place of the results",
    );
    with_word(command, graph)
}

/// The command `test`.
fn test_command<'a>(alloc: Global) -> Result<Command<'a>, NoMemory>
    ensures { Makes spec.test_app result }
{
    let test = command_of(alloc, "test", "Run the tests of a dialplan", TEST_NOTES);
    let trace = flag(
        alloc,
        "trace",
        "trace",
        "Print above the result of each test what ran in it, as lines that begin with `#`",
    );
    let test = with_word(test, trace);
    let cover = flag(
        alloc,
        "cover",
        "cover",
        "Print at the end how many entries of each dialplan ran in a test, and each entry that did not",
    );
    let test = with_word(test, cover);
    let test = with_graph(alloc, test);
    let test = with_json(alloc, test);
    let files = required_words(alloc, "FILE", "The test files, such as office.test");
    let test = with_word(test, files);
    with_explain(alloc, test)
}

/// The command with the words for what may come in.
fn with_outside<'a>(
    alloc: Global,
    command: Result<Command<'a>, NoMemory>,
) -> Result<Command<'a>, NoMemory>
    ensures { (app : App) → Makes app command.entry → Makes (spec.with_outside app) result }
{
    let starts = named_word(
        alloc,
        "CONTEXTS",
        "start",
        "The contexts where other calls come in, separated by commas; by default every context",
    );
    let with = with_word(command, starts);
    let exten = named_word(
        alloc,
        "BYTES",
        "exten",
        "The bytes that may be dialled, such as 0-9*#; by default 0-9A-Za-z*#+_.",
    );
    let with = with_word(with, exten);
    let caller = named_word(
        alloc,
        "NUMBERS",
        "caller",
        "The bytes of a caller's number; by default 0-9+",
    );
    with_word(with, caller)
}

/// The command with the word for what is set from outside.
fn with_facts<'a>(
    alloc: Global,
    command: Result<Command<'a>, NoMemory>,
) -> Result<Command<'a>, NoMemory>
    ensures { (app : App) → Makes app command.entry → Makes (spec.with_facts app) result }
{
    let facts = named_word(
        alloc,
        "VALUES",
        "facts",
        "The bytes of what variables are set to from outside; by default 0-9A-Za-z_./ - with --asterisk, else none is set",
    );
    with_word(command, facts)
}

/// The command `reach`.
pub(crate) fn reach_command<'a>(alloc: Global) -> Result<Command<'a>, NoMemory>
    ensures { Makes spec.reach_app result }
{
    let reach = command_of(
        alloc,
        "reach",
        "Prove which entries a call from a context can never run",
        REACH_NOTES,
    );
    let reach = with_asterisk(
        alloc,
        reach,
        "Know the applications and functions that people use, and read included files, templates and block comments",
    );
    let reach = with_assume(alloc, reach);
    let reach = with_queues(
        alloc,
        reach,
        "The queues, such as queues.conf; by default there are none",
    );
    let reach = with_outside(alloc, reach);
    let reach = with_facts(alloc, reach);
    let target = named_word(
        alloc,
        "TARGET",
        "to",
        "Report only whether the call may reach this context",
    );
    let reach = with_word(reach, target);
    let reach = with_json(alloc, reach);
    let reach = with_dialplan(alloc, reach);
    let context = required_word(alloc, "CONTEXT", "The context where the call comes in");
    let reach = with_word(reach, context);
    with_explain(alloc, reach)
}

/// The program's own part of its commands.
fn bare_command<'a>(alloc: Global) -> Result<Command<'a>, NoMemory>
    ensures { Makes spec.bare_app result }
{
    let pbx = command_of(
        alloc,
        "pbx",
        "Say which priority of an Asterisk dialplan answers a call, and run calls through it",
        PBX_NOTES,
    );
    let pbx = pbx?.bin_name("pbx")?;
    Ok(pbx.version(VERSION))
}

/// The program's commands.
pub(crate) fn pbx_command<'a>(alloc: Global) -> Result<Command<'a>, NoMemory>
    ensures { Makes spec.pbx_app result }
{
    let pbx = bare_command(alloc);
    let pbx = with_command(pbx, check_command(alloc));
    let pbx = with_command(pbx, list_command(alloc));
    let pbx = with_command(pbx, match_command(alloc));
    let pbx = with_command(pbx, run_command(alloc));
    let pbx = with_command(pbx, debug_command(alloc));
    let pbx = with_command(pbx, test_command(alloc));
    let pbx = with_command(pbx, audit_command(alloc));
    let pbx = with_command(pbx, diff_command(alloc));
    let pbx = with_command(pbx, graph_command(alloc));
    let pbx = with_command(pbx, reach_command(alloc));
    with_command(pbx, explain_command(alloc))
}
