//! What the help says in addition to the words of the commands.

/// The version of the program, and the logic of the kit that it is proved with.
pub(crate) const VERSION: &str = "0.1.0 logic dac8208d650f15bf";

/// What the help says below the commands.
pub(crate) const PBX_NOTES: &str = "\
Without a command, pbx reads one text from standard input and runs it: a dialplan, a line `;; script`, and a script. A line
`;; reload` and a second dialplan may come before the line `;; script`.

Examples:
  pbx check extensions.conf
  pbx list extensions.conf
  pbx match extensions.conf main 555-1234
  pbx run extensions.conf calls.script
  pbx debug --break main,100,2 extensions.conf calls.script
  pbx test office.test
  pbx audit extensions.conf
  pbx diff extensions.conf new.conf
  pbx graph extensions.conf | dot -Tsvg -o dialplan.svg
  pbx reach extensions.conf from-carrier --to international
  pbx explain 20
  pbx < joined.conf

Status: 0; 1 if a fault was printed, an event was refused, a test failed, an audit or a comparison found something or a context may be
reached; 2 if the command line was refused; 4 if a run with --asterisk stopped because something is unknown.";

/// What the help of `check` says below its words.
pub(crate) const CHECK_NOTES: &str = "\
Prints `note LINE KIND` for each line that is dropped and for each include that finds nothing, and then the counts. With
--queues a line with the number of queues follows; without FILE it is the only line. If a file does not load, its first fault
is printed on standard error with its line, and the status is 1.

With --asterisk the files are read as Asterisk reads them: with the files that they include, templates, block comments, and
priorities such as `n+1`. All notes and all faults are printed, each with its file and line, those of the dialplan before those of
the queues. Then come the counts, or `N faults` with status 1.

With --json each of these lines is a JSON object: of type `note`, `fault` or `count`.

Example:
  $ pbx check extensions.conf
  note 13 UnknownContext
  ok 1 contexts 4 entries
  $ pbx check --queues queues.conf
  ok 2 queues";

/// What the help of `list` says below its words.
pub(crate) const LIST_NOTES: &str = "\
Prints the dialplan as canonical text: its global variables, and each context with its entries and its includes. Each priority
is a number, and each name has its canonical spelling. The notes on the dialplan are not printed.

With --asterisk included files, templates and block comments are read too. If lines have faults, each fault is printed on standard
error with its file and line, and the status is 1.

Example:
  $ pbx list extensions.conf
  [main]
  exten => _NXXXXXX,1,Answer()
  exten => _NXXXXXX,2(q),Queue(support,c)
  include => out";

/// What the help of `match` says below its words.
pub(crate) const MATCH_NOTES: &str = "\
Prints `CONTEXT,NAME,PRIORITY APPLICATION` for the entry that answers, or `none`. The context is searched first, and then the
contexts that it includes. Write `--` before a word that begins with `-`.

With --all a line follows for each extension that matches, in the order in which a look-up tries them: `answers`,
`less specific`, `later context` or `no such priority`.

With --asterisk the files that the dialplan includes are read. If a line has a fault, or something that this program cannot follow
(`switch`, an extension for one caller, `autofallthrough=no`, `#exec`), each such line is printed on standard error, with status 1.
With --assume such lines have no effect: Switch, CallerId, AutoFallThrough and Exec, separated by commas.

With --json each line on standard output is a JSON object: of type `match`, `none` or `candidate`.

Example:
  $ pbx match extensions.conf main 555-1234 3
  main,_NXXXXXX,3 Queue";

/// What the help of `test` says below its words.
pub(crate) const TEST_NOTES: &str = "\
Runs each test of the files in a world of its own, on the dialplan that its file names, which is read as `check --asterisk` reads it.
Each event is followed by all steps that are possible. A test passes if no event is refused, nothing stays unknown, and each
`expect` line comes true. The results of all files are one list in the Test Anything Protocol, version 14. A test that fails has its
line, what was expected, what came instead, and the last entries that ran. If a test file or a file that it names has faults, those of
all files are printed on standard error with their files and lines, no test runs, and the status is 1.

With --graph a picture of the dialplan of the first file is printed in place of the results, as `pbx graph` draws it. Its extensions are
green if all of their entries ran in a test, yellow if some did, and white if none did.

With --json each result is a JSON object of type `test`, and the last one is of type `count`; with --cover objects of the types
`covered` and `never` follow. With --json nothing of --trace is printed.

Example:
  $ cat office.test
  dialplan extensions.conf
  test a call to the help desk waits in its queue
  call main 555-1234
  expect 1 queued helpdesk
  $ pbx test office.test
  TAP version 14
  1..1
  ok 1 - a call to the help desk waits in its queue";

/// What the help of `audit` says below its words.
pub(crate) const AUDIT_NOTES: &str = "\
Prints `KIND CONTEXT,NAME,PRIORITY` for each finding, followed by its details, and then the number of findings:
  Cycle          a context includes itself
  NoApplication  there is no such application
  NoTarget       a target leads to no entry
  Gap            the next priority is not found, but there are greater ones
  NoFirst        there is no priority 1
  Hidden         another entry with the same name and priority comes before it
  Unset          nothing sets the variable that is read
  Unused         no target names the label
The status is 0 if nothing is found, and 1 otherwise.

With --asterisk the files that the dialplan includes are read, the applications and functions that people use are known, `Unset` is
printed only for a variable that nothing else mentions, and these kinds come last:
  FallsThrough   a call goes on after the entry in another extension, which is printed after it
  Loop           a call that gets there comes back again and again, and nothing ends it
  NoFunction     there is no such function

With --only KINDS only findings of these kinds are printed, and with --ignore KINDS all others. A kind is one of the words above, in
any case.

With --json each line is a JSON object: of type `finding` or `count`.

Example:
  $ pbx audit extensions.conf
  Gap sales,s,1 2
  NoApplication sales,s,3 Voicemail
  ok 2 findings";

/// What the help of `diff` says below its words.
pub(crate) const DIFF_NOTES: &str = "\
Prints what answers differently in NEW than in OLD: for each context, name and priority the entry of OLD after `-`, and that of NEW
after `+`, as `CONTEXT,NAME,PRIORITY APPLICATION(ARGUMENTS)`. A context answers with its own entries and then with those of its
includes. The spelling of a name and a label make no difference. The status is 1 if there is a difference.

With --from CONTEXT it prints instead `- reaches NAME` for each context that a call from CONTEXT may reach in OLD but not in NEW, as
`pbx reach` finds it without queues, and `+ reaches NAME` for each that it may reach in NEW but not in OLD.

With --asterisk included files, templates and block comments are read too. If lines have faults, each fault is printed on standard
error with its file and line, and the status is 1.

Example:
  $ pbx diff extensions.conf new.conf
  - main,100,2 Hangup()
  + main,100,2 Playback(goodbye)";

/// What the help of `graph` says below its words.
pub(crate) const GRAPH_NOTES: &str = "\
Prints a picture in the DOT language, which `dot` of Graphviz makes into an image. Each context is a box with its extensions, in the order
in which a look-up tries them, and what each does first. Arrows are dashed for includes, solid for jumps, double for subroutines, and
dotted for the ways out of queues, which --queues names. A target that only the call decides is a diamond; one that does not exist is red.

With --from CONTEXT the entries that a call from CONTEXT may run are filled, as `pbx reach` finds them, and all others are grey.
`pbx test --graph` colours the dialplan of tests by what they ran.

With --asterisk included files, templates and block comments are read too. If lines have faults, each fault is printed on standard
error with its file and line, and the status is 1.

Example:
  $ pbx graph extensions.conf | dot -Tsvg -o dialplan.svg";

/// What the help of `reach` says below its words.
pub(crate) const REACH_NOTES: &str = "\
Prints each entry that a call from CONTEXT may run, whatever is dialled, pressed, answered, waited for or done by other calls, and below
the entries of each context how a call gets there. It is proved that such a call runs no other entry. Conditions are not followed, so
an entry that is printed may never run.

With --to, prints `unreachable: TARGET` with status 0, or `may reach: ENTRY` with the way there and each jump that lets a call in,
with status 1.

With --asterisk the applications and functions are those that people use, and included files, templates and block comments are read too.
Scripts and other programs may then set variables to any text of the bytes after --facts. If lines have faults, or have what this
program cannot follow, each is printed on standard error with its file and line, and the status is 1. With --assume Switch, for
example, lines with this note have no effect.

With --json each line is a JSON object: of type `assumed`, `note`, `entry`, `way`, `verdict` or `count`.

Example:
  $ pbx reach extensions.conf from-carrier --to international
  assumed: extensions of {0-9A-Za-z*#+_.}*, callers' numbers of {0-9+}*, calls come in at every context
  unreachable: international";

/// What the help of `explain` says below its words.
pub(crate) const EXPLAIN_NOTES: &str = "\
Prints the number and the name of a fault or of the refusal of an event, when it comes, and an example of it, as in the manual.
CODE is the number or the name, which is case sensitive. `LeftOut` is the name of both 24 and 32, and is refused.

Example:
  $ pbx explain 20
  20 BadPriority
  a priority that is neither `n` nor a number from 1 on
  example: `exten => s,0,NoOp()`";

/// What the help of `run` says below its words.
pub(crate) const RUN_NOTES: &str = "\
A script has one event per line. Channels are numbered from 1 as they start; queues and agents have names:
  start CONTEXT EXTEN [CALLER]   a call comes in
  step CHANNEL [COUNT]           the channel takes COUNT steps, 1 by default
  digit CHANNEL D                the caller dials a digit
  timeout CHANNEL                what the channel waits for does not come in time
  poll CHANNEL                   the channel leaves its queue, if that is too empty
  hangup CHANNEL                 the caller hangs up
  result CHANNEL STATUS          the call to devices ends with ANSWER, BUSY, NOANSWER, CONGESTION or CHANUNAVAIL
  offer QUEUE                    agents ring for a call of the queue
  answer AGENT, decline AGENT    the agent takes or declines the call for which it rings
  done AGENT                     the agent is done with its call
  reload                         the second dialplan replaces the first
  show CHANNEL NAME              prints a variable
Prints a line for each.

With --threads N the calls at the beginning of the script come in first. The other events are dealt to N threads in turn, and
each thread gives its own in order; `show` is skipped. One line is printed: `settled N seats M calls`.

With --verbose the line `  FILE:LINE APP(ARGS)` is printed above the line of each step that runs an entry, and the text of
`pbx explain` above the line of each refusal. It has no effect with --threads.

With --asterisk the files that the dialplans and the queues include are read, and a run has the applications and functions that people
use. It never guesses: if a step depends on something unknown, it prints `unknown CHANNEL WHAT -> STATE` and skips the remaining steps
of that line. The status is then 4, unless an event was refused. If a line of a dialplan or of the queues has a fault, or something that
this program cannot follow (`switch`, an extension for one caller, `autofallthrough=no`, `#exec`, `strategy=random`), nothing runs: each
such line is printed on standard error, with status 1. These lines of a script say what would otherwise be unknown, or show it:
  let CHANNEL NAME=VALUE         a variable of the channel, or what `Set` would set
  global NAME=VALUE              a global variable
  assume NAME ..                 values that nothing has set in these functions, such as DB, are empty; with the names Switch, CallerId,
                                 AutoFallThrough and Exec: lines with these notes have no effect
  clock DAY YYYY-MM-DD HH:MM     the time
  go CHANNEL                     what the channel waits for ends
  redirect CHANNEL CONTEXT EXTEN [PRIORITY]   the channel goes to a place
  pass CHANNEL                   the channel skips an entry that is unknown
  show CHANNEL NAME(ARGUMENT)    prints the value of a function
--asterisk cannot be used with --threads.

Example:
  $ cat calls.script
  start main 100
  step 1 2
  $ pbx run extensions.conf calls.script
  started 1
  ran 1 main,100,1 NoOp -> ready main,100,2
  ran 1 main,100,2 Hangup -> ended";

/// What the help of `debug` says below its words.
pub(crate) const DEBUG_NOTES: &str = "\
Runs the script as `run` does, but skips `show`. Before a step of a channel that is ready at the place of the break it prints
`break TAKEN`, and goes on; at the end it prints `end TAKEN`. TAKEN is the number of events of the script that were taken. The context
and the extension are compared byte by byte with those of the channel: a pattern or an included context is not a place. With --verbose
it prints more, and with --asterisk it knows more and stops at anything unknown, as `run` does.

Example:
  $ cat calls.script
  start main 100
  step 1 2
  $ pbx debug --break main,100,2 extensions.conf calls.script
  started 1
  ran 1 main,100,1 NoOp -> ready main,100,2
  break 2
  ran 1 main,100,2 Hangup -> ended
  end 3";
