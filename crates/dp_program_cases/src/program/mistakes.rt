//! Command lines that are refused or that ask for help: their whole output, and their statuses.
use dp_program_fixture::{check_line, in_a_line, make_folder};
use std::rt::Files;
use std::sync::Wait;
use std::test::Fail;
use std::thread::Threads;
use std::{fs, process};

/// Command lines that are refused, each with its mistake and with the usage that is printed below it.
const MISTAKES: &str = "\
chekc @usual→unrecognized subcommand 'chekc'¶¶  tip: a similar subcommand exists: 'check'→pbx [COMMAND]
dial→unrecognized subcommand 'dial'→pbx [COMMAND]
--loud→unexpected argument '--loud' found→pbx [COMMAND]
check→the following required arguments were not provided:¶  <FILE>→pbx check <FILE>
check --explain→the following required arguments were not provided:¶  <FILE>→pbx check --explain <FILE>
check --→the following required arguments were not provided:¶  <FILE>→pbx check <FILE>
check --queues @help --queues @help→the argument '--queues <QUEUES>' cannot be used multiple times→pbx check [OPTIONS] [FILE]
check --queues @help a b→unexpected argument 'b' found→pbx check [OPTIONS] [FILE]
check --asterisk→the following required arguments were not provided:¶  <FILE>→pbx check <FILE>
check @usual more→unexpected argument 'more' found→pbx check [OPTIONS] [FILE]
check --loud x→unexpected argument '--loud' found¶¶  tip: to pass '--loud' as a value, use '-- --loud'→pbx check [OPTIONS] [FILE]
check --reload @usual @usual→unexpected argument '--reload' found¶¶  tip: to pass '--reload' as a value, use '-- --reload'→pbx check [OPTIONS] [FILE]
check --json --json @usual→the argument '--json' cannot be used multiple times→pbx check [OPTIONS] [FILE]
list --json @usual→unexpected argument '--json' found¶¶  tip: to pass '--json' as a value, use '-- --json'→pbx list [OPTIONS] <FILE>
list --clock friday @missing→the following required arguments were not provided:¶  --asterisk→pbx list [OPTIONS] <FILE>
list --asterisk --clock friday @missing→invalid value 'friday' for '--clock <MOMENT>': a moment is written like 'fri 2026-11-27 09:30'→pbx list [OPTIONS] <FILE>
list --asterisk→the following required arguments were not provided:¶  <FILE>→pbx list --asterisk <FILE>
match @usual→the following required arguments were not provided:¶  <CONTEXT>¶  <TEXT>→pbx match <FILE> <CONTEXT> <TEXT> [PRIORITY]
match @usual main 1 2 3→unexpected argument '3' found→pbx match [OPTIONS] <FILE> <CONTEXT> <TEXT> [PRIORITY]
match @usual main -5→unexpected argument '-5' found¶¶  tip: to pass '-5' as a value, use '-- -5'→pbx match [OPTIONS] <FILE> <CONTEXT> <TEXT> [PRIORITY]
match @usual main 5 0→invalid value '0' for '[PRIORITY]': a priority is a number from 1 to 2147483647→pbx match [OPTIONS] <FILE> <CONTEXT> <TEXT> [PRIORITY]
match @usual main 5 2147483648→invalid value '2147483648' for '[PRIORITY]': a priority is a number from 1 to 2147483647→pbx match [OPTIONS] <FILE> <CONTEXT> <TEXT> [PRIORITY]
match @usual main 5 n→invalid value 'n' for '[PRIORITY]': a priority is a number from 1 to 2147483647→pbx match [OPTIONS] <FILE> <CONTEXT> <TEXT> [PRIORITY]
match @usual main 5 +1→invalid value '+1' for '[PRIORITY]': a priority is a number from 1 to 2147483647→pbx match [OPTIONS] <FILE> <CONTEXT> <TEXT> [PRIORITY]
match @usual main 5 ''→invalid value '' for '[PRIORITY]': a priority is a number from 1 to 2147483647→pbx match [OPTIONS] <FILE> <CONTEXT> <TEXT> [PRIORITY]
# The command line comes before the files.
match @missing main 5 0→invalid value '0' for '[PRIORITY]': a priority is a number from 1 to 2147483647→pbx match [OPTIONS] <FILE> <CONTEXT> <TEXT> [PRIORITY]
match @usual main 5 --all --all→the argument '--all' cannot be used multiple times→pbx match [OPTIONS] <FILE> <CONTEXT> <TEXT> [PRIORITY]
match --all=1 @usual main 5→unexpected value '1' for '--all' found; no more were expected→pbx match --all <FILE> <CONTEXT> <TEXT> [PRIORITY]
audit→the following required arguments were not provided:¶  <FILE>→pbx audit <FILE>
audit a b→unexpected argument 'b' found→pbx audit [OPTIONS] <FILE>
audit --asterisk→the following required arguments were not provided:¶  <FILE>→pbx audit --asterisk <FILE>
audit --only Gap --ignore Hidden @missing→the argument '--only <KINDS>' cannot be used with '--ignore <UNWANTED>'→pbx audit [OPTIONS] <FILE>
audit --only Gap --only Hidden @missing→the argument '--only <KINDS>' cannot be used multiple times→pbx audit [OPTIONS] <FILE>
audit --only gaps @missing→invalid value 'gaps' for '--only <KINDS>': without '--asterisk' the kinds are Cycle, NoApplication, NoTarget, Gap, NoFirst, Hidden, Unset and Unused→pbx audit [OPTIONS] <FILE>
audit --ignore=Gap, @missing→invalid value 'Gap,' for '--ignore <UNWANTED>': without '--asterisk' the kinds are Cycle, NoApplication, NoTarget, Gap, NoFirst, Hidden, Unset and Unused→pbx audit [OPTIONS] <FILE>
audit --only Loop @missing→invalid value 'Loop' for '--only <KINDS>': without '--asterisk' the kinds are Cycle, NoApplication, NoTarget, Gap, NoFirst, Hidden, Unset and Unused→pbx audit [OPTIONS] <FILE>
audit --asterisk --only Gap,Strange @missing→invalid value 'Gap,Strange' for '--only <KINDS>': with '--asterisk' the kinds are Cycle, NoApplication, NoTarget, Gap, NoFirst, Hidden, Unset, Unused, FallsThrough, Loop and NoFunction→pbx audit [OPTIONS] <FILE>
reach @doors→the following required arguments were not provided:¶  <CONTEXT>→pbx reach <FILE> <CONTEXT>
reach --to safe→the following required arguments were not provided:¶  <FILE>¶  <CONTEXT>→pbx reach --to <TARGET> <FILE> <CONTEXT>
reach a b c→unexpected argument 'c' found→pbx reach [OPTIONS] <FILE> <CONTEXT>
reach a b --to x --to y→the argument '--to <TARGET>' cannot be used multiple times→pbx reach [OPTIONS] <FILE> <CONTEXT>
explain→the following required arguments were not provided:¶  <CODE>→pbx explain <CODE>
explain 20 21→unexpected argument '21' found→pbx explain [OPTIONS] <CODE>
explain 0→invalid value '0' for '<CODE>': neither the number of a fault nor the name of just one→pbx explain [OPTIONS] <CODE>
explain 16→invalid value '16' for '<CODE>': neither the number of a fault nor the name of just one→pbx explain [OPTIONS] <CODE>
explain 72→invalid value '72' for '<CODE>': neither the number of a fault nor the name of just one→pbx explain [OPTIONS] <CODE>
explain badPriority→invalid value 'badPriority' for '<CODE>': neither the number of a fault nor the name of just one→pbx explain [OPTIONS] <CODE>
explain 4294967316→invalid value '4294967316' for '<CODE>': neither the number of a fault nor the name of just one→pbx explain [OPTIONS] <CODE>
explain LeftOut→invalid value 'LeftOut' for '<CODE>': neither the number of a fault nor the name of just one→pbx explain [OPTIONS] <CODE>
explain NoEqual→invalid value 'NoEqual' for '<CODE>': neither the number of a fault nor the name of just one→pbx explain [OPTIONS] <CODE>
explain ''→invalid value '' for '<CODE>': neither the number of a fault nor the name of just one→pbx explain [OPTIONS] <CODE>
run→the following required arguments were not provided:¶  <FILE>¶  <SCRIPT>→pbx run <FILE> <SCRIPT>
run @missing→the following required arguments were not provided:¶  <SCRIPT>→pbx run <FILE> <SCRIPT>
run a b c→unexpected argument 'c' found→pbx run [OPTIONS] <FILE> <SCRIPT>
run --threads 0 @missing @missing→invalid value '0' for '--threads <N>': the number of threads is from 1 to 64→pbx run [OPTIONS] <FILE> <SCRIPT>
run --threads 65 @missing @missing→invalid value '65' for '--threads <N>': the number of threads is from 1 to 64→pbx run [OPTIONS] <FILE> <SCRIPT>
run --threads=two @missing @missing→invalid value 'two' for '--threads <N>': the number of threads is from 1 to 64→pbx run [OPTIONS] <FILE> <SCRIPT>
run --asterisk --verbose --threads 2 @missing @missing→the argument '--asterisk' cannot be used with '--threads <N>'→pbx run [OPTIONS] <FILE> <SCRIPT>
run --threads 0 --asterisk @missing @missing→the argument '--asterisk' cannot be used with '--threads <N>'→pbx run [OPTIONS] <FILE> <SCRIPT>
run --asterisk @missing→the following required arguments were not provided:¶  <SCRIPT>→pbx run --asterisk <FILE> <SCRIPT>
run --threads 2 @missing→the following required arguments were not provided:¶  <SCRIPT>→pbx run --threads <N> <FILE> <SCRIPT>
diff→the following required arguments were not provided:¶  <OLD>¶  <NEW>→pbx diff <OLD> <NEW>
diff @usual→the following required arguments were not provided:¶  <NEW>→pbx diff <OLD> <NEW>
diff @usual @usual @usual→unexpected argument '@usual' found→pbx diff [OPTIONS] <OLD> <NEW>
diff --clock friday a b→the following required arguments were not provided:¶  --asterisk→pbx diff [OPTIONS] <OLD> <NEW>
graph→the following required arguments were not provided:¶  <FILE>→pbx graph <FILE>
graph @usual @usual→unexpected argument '@usual' found→pbx graph [OPTIONS] <FILE>
reach --clock friday a b→the following required arguments were not provided:¶  --asterisk→pbx reach [OPTIONS] <FILE> <CONTEXT>
reach --asterisk --clock friday a b→invalid value 'friday' for '--clock <MOMENT>': a moment is written like 'fri 2026-11-27 09:30'→pbx reach [OPTIONS] <FILE> <CONTEXT>
graph --clock friday a→the following required arguments were not provided:¶  --asterisk→pbx graph [OPTIONS] <FILE>
debug @missing @missing→the following required arguments were not provided:¶  --break <CONTEXT,EXTEN,PRIORITY>→pbx debug --break <CONTEXT,EXTEN,PRIORITY> <FILE> <SCRIPT>
debug --clock friday --break main,s,1 a b→the following required arguments were not provided:¶  --asterisk→pbx debug [OPTIONS] --break <CONTEXT,EXTEN,PRIORITY> <FILE> <SCRIPT>
debug --asterisk --clock friday --break main,s,1 a b→invalid value 'friday' for '--clock <MOMENT>': a moment is written like 'fri 2026-11-27 09:30'→pbx debug [OPTIONS] --break <CONTEXT,EXTEN,PRIORITY> <FILE> <SCRIPT>
debug --break main,s,1 a b c→unexpected argument 'c' found→pbx debug [OPTIONS] --break <CONTEXT,EXTEN,PRIORITY> <FILE> <SCRIPT>
test→the following required arguments were not provided:¶  <FILE>...→pbx test <FILE>...
test --cover→the following required arguments were not provided:¶  <FILE>...→pbx test --cover <FILE>...
check --version→unexpected argument '--version' found¶¶  tip: to pass '--version' as a value, use '-- --version'→pbx check [OPTIONS] [FILE]
help dial→unrecognized subcommand 'dial'→pbx [COMMAND]
";

fn check_mistake<R: Files + Threads + Wait + Sync + AllocGlobal + Clone + Drop>(
    rt: &R,
    folder: &str,
    words: &str,
    mistake: &str,
    usage: &str,
) -> Result<(), Fail> {
    let want = format!(in rt.alloc();
        "2→→error: {mistake}¶¶Usage: {usage}¶¶For more information, try '--help'.¶"
    )?;
    check_line(rt, folder, words, &want)
}

/// Asserts the whole output of the refused command lines, and their statuses.
fn check_mistakes<R: Files + Threads + Wait + Sync + AllocGlobal + Clone + Drop>(
    rt: &R,
    folder: &str,
) -> Result<(), Fail> {
    for line in MISTAKES.lines() {
        if let Some((words, rest)) = line.split_once('→') {
            let (mistake, usage) = rest.split_once('→').unwrap_or((rest, ""));
            check_mistake(rt, folder, words, mistake, usage)?;
        }
    }
    Ok(())
}

/// The help.
const PBX_HELP: &str = "\
Say which priority of an Asterisk dialplan answers a call, and run calls through it

Usage: pbx [COMMAND]

Commands:
  check    Load a dialplan, queues or both, and print notes and counts
  list     Print a dialplan as canonical text
  match    Print which entry of a dialplan answers a call
  run      Run a script of events on a dialplan, and print the trace
  debug    Run a script of events on a dialplan, and halt before the steps at a place
  test     Run the tests of a dialplan
  audit    Print what the writer of a dialplan may not have meant
  diff     Print what answers differently in two dialplans
  graph    Draw a dialplan as a picture for Graphviz
  reach    Prove which entries a call from a context can never run
  explain  Print what the manual says about a fault
  help     Print this message or the help of the given subcommand(s)

Options:
  -h, --help     Print help
  -V, --version  Print version

Without a command, pbx reads one text from standard input and runs it: a dialplan, a line `;; script`, and a script. A line
`;; reload` and a second dialplan may come before the line `;; script`.

Examples:
  pbx check extensions.conf
  pbx list extensions.conf
  pbx match extensions.conf main 555-1234
  pbx run extensions.conf calls.script
  pbx debug --break main,100,2 extensions.conf calls.script
  pbx test office.test
  pbx audit extensions.conf
  pbx diff extensions.conf new.conf
  pbx graph extensions.conf | dot -Tsvg -o dialplan.svg
  pbx reach extensions.conf from-carrier --to international
  pbx explain 20
  pbx < joined.conf

Status: 0; 1 if a fault was printed, an event was refused, a test failed, an audit or a comparison found something or a context may be
reached; 2 if the command line was refused; 4 if a run with --asterisk stopped because something is unknown.
";

/// The help for `check`.
const CHECK_HELP: &str = "\
Load a dialplan, queues or both, and print notes and counts

Usage: pbx check [OPTIONS] [FILE]

Arguments:
  [FILE]  The dialplan, such as extensions.conf

Options:
      --asterisk         Read included files, templates and block comments, and print every fault
      --clock <MOMENT>   With --asterisk: the moment by which includes with times are read, like 'fri 2026-11-27 09:30'
      --queues <QUEUES>  The queues, such as queues.conf
      --json             Print a JSON object in place of each line, for other tools
      --explain          Print below each fault, and below each note of `check`, where it is and what the manual says about it
  -h, --help             Print help

Prints `note LINE KIND` for each line that is dropped and for each include that finds nothing, and then the counts. With
--queues a line with the number of queues follows; without FILE it is the only line. If a file does not load, its first fault
is printed on standard error with its line, and the status is 1.

With --asterisk the files are read as Asterisk reads them: with the files that they include, templates, block comments, and
priorities such as `n+1`. All notes and all faults are printed, each with its file and line, those of the dialplan before those of
the queues. Then come the counts, or `N faults` with status 1.

With --json each of these lines is a JSON object: of type `note`, `fault` or `count`.

Example:
  $ pbx check extensions.conf
  note 13 UnknownContext
  ok 1 contexts 4 entries
  $ pbx check --queues queues.conf
  ok 2 queues
";

/// The help for `list`.
const LIST_HELP: &str = "\
Print a dialplan as canonical text

Usage: pbx list [OPTIONS] <FILE>

Arguments:
  <FILE>  The dialplan, such as extensions.conf

Options:
      --asterisk        Read included files, templates and block comments
      --clock <MOMENT>  With --asterisk: the moment by which includes with times are read, like 'fri 2026-11-27 09:30'
      --explain         Print below each fault, and below each note of `check`, where it is and what the manual says about it
  -h, --help            Print help

Prints the dialplan as canonical text: its global variables, and each context with its entries and its includes. Each priority
is a number, and each name has its canonical spelling. The notes on the dialplan are not printed.

With --asterisk included files, templates and block comments are read too. If lines have faults, each fault is printed on standard
error with its file and line, and the status is 1.

Example:
  $ pbx list extensions.conf
  [main]
  exten => _NXXXXXX,1,Answer()
  exten => _NXXXXXX,2(q),Queue(support,c)
  include => out
";

/// The help for `match`.
const MATCH_HELP: &str = "\
Print which entry of a dialplan answers a call

Usage: pbx match [OPTIONS] <FILE> <CONTEXT> <TEXT> [PRIORITY]

Arguments:
  <FILE>      The dialplan, such as extensions.conf
  <CONTEXT>   The context where the call begins
  <TEXT>      The dialled text
  [PRIORITY]  The requested priority, from 1 to 2147483647 [default: 1]

Options:
      --asterisk        Read included files, templates and block comments
      --clock <MOMENT>  With --asterisk: the moment by which includes with times are read, like 'fri 2026-11-27 09:30'
      --assume <NOTES>  With --asterisk: assume that lines with these notes have no effect, like Switch,CallerId
      --all             Also print what becomes of each extension that matches
      --json            Print a JSON object in place of each line, for other tools
      --explain         Print below each fault, and below each note of `check`, where it is and what the manual says about it
  -h, --help            Print help

Prints `CONTEXT,NAME,PRIORITY APPLICATION` for the entry that answers, or `none`. The context is searched first, and then the
contexts that it includes. Write `--` before a word that begins with `-`.

With --all a line follows for each extension that matches, in the order in which a look-up tries them: `answers`,
`less specific`, `later context` or `no such priority`.

With --asterisk the files that the dialplan includes are read. If a line has a fault, or something that this program cannot follow
(`switch`, an extension for one caller, `autofallthrough=no`, `#exec`), each such line is printed on standard error, with status 1.
With --assume such lines have no effect: Switch, CallerId, AutoFallThrough and Exec, separated by commas.

With --json each line on standard output is a JSON object: of type `match`, `none` or `candidate`.

Example:
  $ pbx match extensions.conf main 555-1234 3
  main,_NXXXXXX,3 Queue
";

/// The help for `audit`.
const AUDIT_HELP: &str = "\
Print what the writer of a dialplan may not have meant

Usage: pbx audit [OPTIONS] <FILE>

Arguments:
  <FILE>  The dialplan, such as extensions.conf

Options:
      --asterisk           Know the applications and functions that people use, and look for endless runs and calls that go on elsewhere
      --clock <MOMENT>     With --asterisk: the moment by which includes with times are read, like 'fri 2026-11-27 09:30'
      --only <KINDS>       Print only the findings of these kinds, separated by commas
      --ignore <UNWANTED>  Leave out the findings of these kinds, separated by commas
      --json               Print a JSON object in place of each line, for other tools
      --explain            Print below each fault, and below each note of `check`, where it is and what the manual says about it
  -h, --help               Print help

Prints `KIND CONTEXT,NAME,PRIORITY` for each finding, followed by its details, and then the number of findings:
  Cycle          a context includes itself
  NoApplication  there is no such application
  NoTarget       a target leads to no entry
  Gap            the next priority is not found, but there are greater ones
  NoFirst        there is no priority 1
  Hidden         another entry with the same name and priority comes before it
  Unset          nothing sets the variable that is read
  Unused         no target names the label
The status is 0 if nothing is found, and 1 otherwise.

With --asterisk the files that the dialplan includes are read, the applications and functions that people use are known, `Unset` is
printed only for a variable that nothing else mentions, and these kinds come last:
  FallsThrough   a call goes on after the entry in another extension, which is printed after it
  Loop           a call that gets there comes back again and again, and nothing ends it
  NoFunction     there is no such function

With --only KINDS only findings of these kinds are printed, and with --ignore KINDS all others. A kind is one of the words above, in
any case.

With --json each line is a JSON object: of type `finding` or `count`.

Example:
  $ pbx audit extensions.conf
  Gap sales,s,1 2
  NoApplication sales,s,3 Voicemail
  ok 2 findings
";

/// The help for `reach`.
const REACH_HELP: &str = "\
Prove which entries a call from a context can never run

Usage: pbx reach [OPTIONS] <FILE> <CONTEXT>

Arguments:
  <FILE>     The dialplan, such as extensions.conf
  <CONTEXT>  The context where the call comes in

Options:
      --asterisk          Know the applications and functions that people use, and read included files, templates and block comments
      --clock <MOMENT>    With --asterisk: the moment by which includes with times are read, like 'fri 2026-11-27 09:30'
      --assume <NOTES>    With --asterisk: assume that lines with these notes have no effect, like Switch,CallerId
      --queues <QUEUES>   The queues, such as queues.conf; by default there are none
      --start <CONTEXTS>  The contexts where other calls come in, separated by commas; by default every context
      --exten <BYTES>     The bytes that may be dialled, such as 0-9*#; by default 0-9A-Za-z*#+_.
      --caller <NUMBERS>  The bytes of a caller's number; by default 0-9+
      --facts <VALUES>    The bytes of what variables are set to from outside; by default 0-9A-Za-z_./ - with --asterisk, else none is set
      --to <TARGET>       Report only whether the call may reach this context
      --json              Print a JSON object in place of each line, for other tools
      --explain           Print below each fault, and below each note of `check`, where it is and what the manual says about it
  -h, --help              Print help

Prints each entry that a call from CONTEXT may run, whatever is dialled, pressed, answered, waited for or done by other calls, and below
the entries of each context how a call gets there. It is proved that such a call runs no other entry. Conditions are not followed, so
an entry that is printed may never run.

With --to, prints `unreachable: TARGET` with status 0, or `may reach: ENTRY` with the way there and each jump that lets a call in,
with status 1.

With --asterisk the applications and functions are those that people use, and included files, templates and block comments are read too.
Scripts and other programs may then set variables to any text of the bytes after --facts. If lines have faults, or have what this
program cannot follow, each is printed on standard error with its file and line, and the status is 1. With --assume Switch, for
example, lines with this note have no effect.

With --json each line is a JSON object: of type `assumed`, `note`, `entry`, `way`, `verdict` or `count`.

Example:
  $ pbx reach extensions.conf from-carrier --to international
  assumed: extensions of {0-9A-Za-z*#+_.}*, callers' numbers of {0-9+}*, calls come in at every context
  unreachable: international
";

/// The help for `explain`.
const EXPLAIN_HELP: &str = "\
Print what the manual says about a fault

Usage: pbx explain [OPTIONS] <CODE>

Arguments:
  <CODE>  The number of the fault, from 1 to 71, or its name

Options:
      --explain  Print below each fault, and below each note of `check`, where it is and what the manual says about it
  -h, --help     Print help

Prints the number and the name of a fault or of the refusal of an event, when it comes, and an example of it, as in the manual.
CODE is the number or the name, which is case sensitive. `LeftOut` is the name of both 24 and 32, and is refused.

Example:
  $ pbx explain 20
  20 BadPriority
  a priority that is neither `n` nor a number from 1 on
  example: `exten => s,0,NoOp()`
";

/// The help for `run`.
const RUN_HELP: &str = "\
Run a script of events on a dialplan, and print the trace

Usage: pbx run [OPTIONS] <FILE> <SCRIPT>

Arguments:
  <FILE>    The dialplan, such as extensions.conf
  <SCRIPT>  The script of events

Options:
      --asterisk           Use the applications and functions that people use, take facts from the script, and stop at anything unknown
      --clock <MOMENT>     With --asterisk: the moment by which includes with times are read, like 'fri 2026-11-27 09:30'
      --queues <QUEUES>    The queues, such as queues.conf; by default there are none
      --reload <DIALPLAN>  The second dialplan, which replaces the first at a line `reload` of the script
      --threads <N>        Give the events from this many threads at once, from 1 to 64
      --verbose            Print the line of its entry above each step, and what the manual says above each refusal
      --explain            Print below each fault, and below each note of `check`, where it is and what the manual says about it
  -h, --help               Print help

A script has one event per line. Channels are numbered from 1 as they start; queues and agents have names:
  start CONTEXT EXTEN [CALLER]   a call comes in
  step CHANNEL [COUNT]           the channel takes COUNT steps, 1 by default
  digit CHANNEL D                the caller dials a digit
  timeout CHANNEL                what the channel waits for does not come in time
  poll CHANNEL                   the channel leaves its queue, if that is too empty
  hangup CHANNEL                 the caller hangs up
  result CHANNEL STATUS          the call to devices ends with ANSWER, BUSY, NOANSWER, CONGESTION or CHANUNAVAIL
  offer QUEUE                    agents ring for a call of the queue
  answer AGENT, decline AGENT    the agent takes or declines the call for which it rings
  done AGENT                     the agent is done with its call
  reload                         the second dialplan replaces the first
  show CHANNEL NAME              prints a variable
Prints a line for each.

With --threads N the calls at the beginning of the script come in first. The other events are dealt to N threads in turn, and
each thread gives its own in order; `show` is skipped. One line is printed: `settled N seats M calls`.

With --verbose the line `  FILE:LINE APP(ARGS)` is printed above the line of each step that runs an entry, and the text of
`pbx explain` above the line of each refusal. It has no effect with --threads.

With --asterisk the files that the dialplans and the queues include are read, and a run has the applications and functions that people
use. It never guesses: if a step depends on something unknown, it prints `unknown CHANNEL WHAT -> STATE` and skips the remaining steps
of that line. The status is then 4, unless an event was refused. If a line of a dialplan or of the queues has a fault, or something that
this program cannot follow (`switch`, an extension for one caller, `autofallthrough=no`, `#exec`, `strategy=random`), nothing runs: each
such line is printed on standard error, with status 1. These lines of a script say what would otherwise be unknown, or show it:
  let CHANNEL NAME=VALUE         a variable of the channel, or what `Set` would set
  global NAME=VALUE              a global variable
  assume NAME ..                 values that nothing has set in these functions, such as DB, are empty; with the names Switch, CallerId,
                                 AutoFallThrough and Exec: lines with these notes have no effect
  clock DAY YYYY-MM-DD HH:MM     the time
  go CHANNEL                     what the channel waits for ends
  redirect CHANNEL CONTEXT EXTEN [PRIORITY]   the channel goes to a place
  pass CHANNEL                   the channel skips an entry that is unknown
  show CHANNEL NAME(ARGUMENT)    prints the value of a function
--asterisk cannot be used with --threads.

Example:
  $ cat calls.script
  start main 100
  step 1 2
  $ pbx run extensions.conf calls.script
  started 1
  ran 1 main,100,1 NoOp -> ready main,100,2
  ran 1 main,100,2 Hangup -> ended
";

/// The help for `debug`.
const DEBUG_HELP: &str = "\
Run a script of events on a dialplan, and halt before the steps at a place

Usage: pbx debug [OPTIONS] --break <CONTEXT,EXTEN,PRIORITY> <FILE> <SCRIPT>

Arguments:
  <FILE>    The dialplan, such as extensions.conf
  <SCRIPT>  The script of events

Options:
      --asterisk                        Use the applications and functions that people use, take facts from the script, and stop at anything unknown
      --clock <MOMENT>                  With --asterisk: the moment by which includes with times are read, like 'fri 2026-11-27 09:30'
      --queues <QUEUES>                 The queues, such as queues.conf; by default there are none
      --reload <DIALPLAN>               The second dialplan, which replaces the first at a line `reload` of the script
      --break <CONTEXT,EXTEN,PRIORITY>  The place where the run halts
      --verbose                         Print the line of its entry above each step, and what the manual says above each refusal
      --explain                         Print below each fault, and below each note of `check`, where it is and what the manual says about it
  -h, --help                            Print help

Runs the script as `run` does, but skips `show`. Before a step of a channel that is ready at the place of the break it prints
`break TAKEN`, and goes on; at the end it prints `end TAKEN`. TAKEN is the number of events of the script that were taken. The context
and the extension are compared byte by byte with those of the channel: a pattern or an included context is not a place. With --verbose
it prints more, and with --asterisk it knows more and stops at anything unknown, as `run` does.

Example:
  $ cat calls.script
  start main 100
  step 1 2
  $ pbx debug --break main,100,2 extensions.conf calls.script
  started 1
  ran 1 main,100,1 NoOp -> ready main,100,2
  break 2
  ran 1 main,100,2 Hangup -> ended
  end 3
";

/// The help for `test`.
const TEST_HELP: &str = "\
Run the tests of a dialplan

Usage: pbx test [OPTIONS] <FILE>...

Arguments:
  <FILE>...  The test files, such as office.test

Options:
      --trace    Print above the result of each test what ran in it, as lines that begin with `#`
      --cover    Print at the end how many entries of each dialplan ran in a test, and each entry that did not
      --graph    Draw the dialplan for Graphviz by what ran, in place of the results
      --json     Print a JSON object in place of each line, for other tools
      --explain  Print below each fault, and below each note of `check`, where it is and what the manual says about it
  -h, --help     Print help

Runs each test of the files in a world of its own, on the dialplan that its file names, which is read as `check --asterisk` reads it.
Each event is followed by all steps that are possible. A test passes if no event is refused, nothing stays unknown, and each
`expect` line comes true. The results of all files are one list in the Test Anything Protocol, version 14. A test that fails has its
line, what was expected, what came instead, and the last entries that ran. If a test file or a file that it names has faults, those of
all files are printed on standard error with their files and lines, no test runs, and the status is 1.

With --graph a picture of the dialplan of the first file is printed in place of the results, as `pbx graph` draws it. Its extensions are
green if all of their entries ran in a test, yellow if some did, and white if none did.

With --json each result is a JSON object of type `test`, and the last one is of type `count`; with --cover objects of the types
`covered` and `never` follow. With --json nothing of --trace is printed.

Example:
  $ cat office.test
  dialplan extensions.conf
  test a call to the help desk waits in its queue
  call main 555-1234
  expect 1 queued helpdesk
  $ pbx test office.test
  TAP version 14
  1..1
  ok 1 - a call to the help desk waits in its queue
";

/// The version.
const VERSION: &str = "pbx 0.1.0 logic dac8208d650f15bf\n";

/// The help for `diff`.
const DIFF_HELP: &str = "\
Print what answers differently in two dialplans

Usage: pbx diff [OPTIONS] <OLD> <NEW>

Arguments:
  <OLD>  The dialplan before a change
  <NEW>  The dialplan after it

Options:
      --asterisk        Read included files, templates and block comments
      --clock <MOMENT>  With --asterisk: the moment by which includes with times are read, like 'fri 2026-11-27 09:30'
      --from <CONTEXT>  A context where calls come in: print which contexts they can reach only in OLD or only in NEW
      --explain         Print below each fault, and below each note of `check`, where it is and what the manual says about it
  -h, --help            Print help

Prints what answers differently in NEW than in OLD: for each context, name and priority the entry of OLD after `-`, and that of NEW
after `+`, as `CONTEXT,NAME,PRIORITY APPLICATION(ARGUMENTS)`. A context answers with its own entries and then with those of its
includes. The spelling of a name and a label make no difference. The status is 1 if there is a difference.

With --from CONTEXT it prints instead `- reaches NAME` for each context that a call from CONTEXT may reach in OLD but not in NEW, as
`pbx reach` finds it without queues, and `+ reaches NAME` for each that it may reach in NEW but not in OLD.

With --asterisk included files, templates and block comments are read too. If lines have faults, each fault is printed on standard
error with its file and line, and the status is 1.

Example:
  $ pbx diff extensions.conf new.conf
  - main,100,2 Hangup()
  + main,100,2 Playback(goodbye)
";

/// The help for `graph`.
const GRAPH_HELP: &str = "\
Draw a dialplan as a picture for Graphviz

Usage: pbx graph [OPTIONS] <FILE>

Arguments:
  <FILE>  The dialplan, such as extensions.conf

Options:
      --asterisk         Know the applications and functions that people use, and read included files, templates and block comments
      --clock <MOMENT>   With --asterisk: the moment by which includes with times are read, like 'fri 2026-11-27 09:30'
      --queues <QUEUES>  The queues, such as queues.conf, whose ways out are drawn
      --from <CONTEXT>   A context where calls come in: what they can reach is filled, and the rest is grey
      --explain          Print below each fault, and below each note of `check`, where it is and what the manual says about it
  -h, --help             Print help

Prints a picture in the DOT language, which `dot` of Graphviz makes into an image. Each context is a box with its extensions, in the order
in which a look-up tries them, and what each does first. Arrows are dashed for includes, solid for jumps, double for subroutines, and
dotted for the ways out of queues, which --queues names. A target that only the call decides is a diamond; one that does not exist is red.

With --from CONTEXT the entries that a call from CONTEXT may run are filled, as `pbx reach` finds them, and all others are grey.
`pbx test --graph` colours the dialplan of tests by what they ran.

With --asterisk included files, templates and block comments are read too. If lines have faults, each fault is printed on standard
error with its file and line, and the status is 1.

Example:
  $ pbx graph extensions.conf | dot -Tsvg -o dialplan.svg
";

/// Command lines that ask for help or for the version, and their output.
const HELPS: [(&str, &str); 18] = [
    ("help", PBX_HELP),
    ("-h", PBX_HELP),
    ("--help", PBX_HELP),
    ("help check", CHECK_HELP),
    ("check -h", CHECK_HELP),
    ("list --help", LIST_HELP),
    ("help match", MATCH_HELP),
    ("match @missing --help", MATCH_HELP),
    ("run --help", RUN_HELP),
    ("debug --help", DEBUG_HELP),
    ("test --help", TEST_HELP),
    ("audit --help", AUDIT_HELP),
    ("diff --help", DIFF_HELP),
    ("graph --help", GRAPH_HELP),
    ("help reach", REACH_HELP),
    ("help explain", EXPLAIN_HELP),
    ("--version", VERSION),
    ("-V", VERSION),
];

fn check_help<R: Files + Threads + Wait + Sync + AllocGlobal + Clone + Drop>(
    rt: &R,
    folder: &str,
    words: &str,
    help: &str,
) -> Result<(), Fail> {
    let help = in_a_line(rt.alloc(), help)?;
    let want = format!(in rt.alloc(); "0→{help}→")?;
    check_line(rt, folder, words, &want)
}

/// Asserts the whole output of the command lines that ask for help, and their statuses.
fn check_helps<R: Files + Threads + Wait + Sync + AllocGlobal + Clone + Drop>(
    rt: &R,
    folder: &str,
) -> Result<(), Fail> {
    for (words, help) in &HELPS {
        check_help(rt, folder, words, help)?;
    }
    Ok(())
}

#[test]
fn mistakes_are_refused(rt: HostRuntime) -> Result<(), Fail> {
    let folder = make_folder(&rt, "mistakes", process::id(rt.process()))?;
    check_mistakes(&rt, &folder)?;
    fs::remove_dir_all(&rt, folder.as_str())?;
    Ok(())
}

#[test]
fn help_is_printed(rt: HostRuntime) -> Result<(), Fail> {
    let folder = make_folder(&rt, "help", process::id(rt.process()))?;
    check_helps(&rt, &folder)?;
    fs::remove_dir_all(&rt, folder.as_str())?;
    Ok(())
}
