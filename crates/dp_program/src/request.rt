//! The requests to the program.
use crate::entries::FaultNumber;
use dp_commands::PlanNames;
use dp_plan::Priority;
use dp_wide_runs::AuditChoice;

/// A look-up in a dialplan: what was dialled, in the context where the call begins, and at which priority.
#[derive(Clone, Copy, Debug, PartialEq, Eq)]
pub struct Lookup<'a> {
    /// The file of the dialplan.
    pub file: &'a str,
    /// The name of the context.
    pub context: &'a str,
    /// What was dialled.
    pub text: &'a str,
    /// The priority.
    pub priority: Priority,
}

/// The files of a check of a dialplan and of queues, by their paths.
#[derive(Clone, Copy, Debug, PartialEq, Eq)]
pub struct CheckFiles<'a> {
    /// The dialplan.
    pub plan: &'a str,
    /// The queues.
    pub queues: &'a str,
}

/// What a picture shows, in words of the command line.
#[derive(Clone, Copy, Debug, PartialEq, Eq)]
pub struct GraphQuestion<'a> {
    /// The file of the dialplan.
    pub file: &'a str,
    /// The file of the queues; without it there are no queues.
    pub queues: Option<&'a str>,
    /// The name of a context: what a call that comes in there may reach is filled, and the rest is grey. Without it nothing is.
    pub from: Option<&'a str>,
    /// The bytes of what names may be set to from outside, as ranges; without them nothing is set.
    pub facts: Option<&'a str>,
}

/// The files of two dialplans that are compared, by their paths.
#[derive(Clone, Copy, Debug, PartialEq, Eq)]
pub struct DiffFiles<'a> {
    /// The dialplan before a change.
    pub before: &'a str,
    /// The dialplan after it.
    pub after: &'a str,
}

/// A question about what a call that comes in at a context reaches in two dialplans, in words of the command line.
#[derive(Clone, Copy, Debug, PartialEq, Eq)]
pub struct ReachDiffQuestion<'a> {
    /// The files of the dialplans.
    pub files: DiffFiles<'a>,
    /// The name of the context where the call comes in.
    pub from: &'a str,
    /// The bytes of what names may be set to from outside, as ranges; without them nothing is set.
    pub facts: Option<&'a str>,
}

/// A question about the calls that come in at a context of a dialplan, in words of the command line.
#[derive(Clone, Copy, Debug, PartialEq, Eq)]
pub struct ReachQuestion<'a> {
    /// The file of the dialplan.
    pub file: &'a str,
    /// The file of the queues; without it there are no queues.
    pub queues: Option<&'a str>,
    /// The name of the context where the call comes in.
    pub context: &'a str,
    /// The name of a context that the call may or may not reach; without it everything that the call may run is reported.
    pub target: Option<&'a str>,
    /// The names of the contexts where other calls come in, separated by commas; without them, every context of the dialplan.
    pub starts: Option<&'a str>,
    /// The bytes of a dialled extension, as ranges.
    pub exten: Option<&'a str>,
    /// The bytes of a caller's number, as ranges.
    pub caller: Option<&'a str>,
    /// The bytes of what names may be set to from outside, as ranges; without them nothing is set.
    pub facts: Option<&'a str>,
}

/// The files of a run, by their paths.
#[derive(Clone, Copy, Debug, PartialEq, Eq)]
pub struct RunFiles<'a> {
    /// The dialplan.
    pub plan: &'a str,
    /// The file of the queues; without it there are no queues.
    pub queues: Option<&'a str>,
    /// The second dialplan, which a line `reload` of the script puts in force.
    pub second_plan: Option<&'a str>,
    /// The script of events.
    pub script: &'a str,
}

impl<'a> RunFiles<'a> {
    ghost use Rattle.std.specs.Prelude.{◌≡◌};
    ghost use Rattle.std.specs.Option.{option_map};

    /// The paths of the dialplans, as a verbose run prints them.
    pub(crate) fn plan_names(&self) -> PlanNames<'a>
        ensures plan { result.plan.now ≡ self.now.plan.now }
        ensures second { option_map (λ name. name.now) result.second_plan ≡ option_map (λ path. path.now) self.now.second_plan }
    {
        PlanNames {
            plan: self.plan,
            second_plan: self.second_plan,
        }
    }
}

/// What a command line asks for.
#[derive(Debug, PartialEq, Eq, Drop)]
pub enum Request<'a> {
    /// No command: runs the joined text of the standard input.
    Joined,
    /// `check FILE`: loads a dialplan.
    Check {
        file: &'a str,
    },
    /// `check --asterisk FILE`: loads a dialplan from a file and from those that it includes, and reports each fault.
    CheckIncluding {
        file: &'a str,
    },
    /// `check --asterisk --queues QUEUES`: loads queues from a file and from those that it includes, and reports each fault.
    CheckQueuesIncluding {
        queues: &'a str,
    },
    /// `check --asterisk --queues QUEUES FILE`: does both.
    CheckBothIncluding {
        files: CheckFiles<'a>,
    },
    /// `check --queues QUEUES`: loads a queue file.
    CheckQueues {
        queues: &'a str,
    },
    /// `check --queues QUEUES FILE`: loads a dialplan and a queue file.
    CheckBoth {
        files: CheckFiles<'a>,
    },
    /// `list FILE`: lists a dialplan as its canonical text.
    Listing {
        file: &'a str,
    },
    /// `list --asterisk FILE`: lists a dialplan that is read from a file and from those that it includes.
    ListIncluding {
        file: &'a str,
    },
    /// `audit FILE`: reports what the writer of a dialplan may not have meant.
    Audit {
        file: &'a str,
    },
    /// `audit [--asterisk] [--only KINDS] [--ignore KINDS] FILE` with at least one of these options: reports the findings of some kinds, or
    /// those over the wide table. Over the wide table the dialplan is read from a file and from those that it includes.
    AuditBy {
        file: &'a str,
        choice: AuditChoice<'a>,
    },
    /// `match [--all] FILE CONTEXT TEXT [PRIORITY]`: finds the entry that answers and, if all are asked for, reports what decides about
    /// each extension that matches.
    Match {
        lookup: Lookup<'a>,
        all: bool,
    },
    /// `match --asterisk [--all] FILE CONTEXT TEXT [PRIORITY]`: does the same in a dialplan that is read from a file and from those that it
    /// includes. If the dialplan has something that this program cannot follow, nothing is looked up.
    MatchIncluding {
        lookup: Lookup<'a>,
        all: bool,
    },
    /// `explain CODE`: prints the manual's entry on a fault.
    Explain {
        fault: FaultNumber,
    },
    /// `run [--queues QUEUES] [--reload DIALPLAN] [--threads N] [--verbose] FILE SCRIPT`: runs a script on a dialplan, with the queues and
    /// the second dialplan of further files if they are named, in threads if their number is given. A verbose run prints more above the
    /// lines of steps and of refusals; a run in threads prints the same with or without `--verbose`.
    Run {
        files: RunFiles<'a>,
        threads: Option<u32>,
        is_verbose: bool,
    },
    /// `run --asterisk [--queues QUEUES] [--reload DIALPLAN] [--verbose] FILE SCRIPT`: runs a script on a dialplan in the same way, over
    /// the applications and functions of the wide table. Each dialplan is read from a file and from those that it includes, and so are the
    /// queues. The script may state facts, and the run stops before anything unknown. If a dialplan or the queues have something that this
    /// program cannot follow, nothing runs.
    RunWide {
        files: RunFiles<'a>,
        is_verbose: bool,
    },
    /// `debug [--queues QUEUES] [--reload DIALPLAN] --break BREAK [--verbose] FILE SCRIPT`: runs a script on a dialplan in the same way,
    /// and halts at each step where the break holds.
    Debug {
        files: RunFiles<'a>,
        held: &'a str,
        is_verbose: bool,
    },
    /// `debug --asterisk [--queues QUEUES] [--reload DIALPLAN] --break BREAK [--verbose] FILE SCRIPT`: runs a script as `run --asterisk`
    /// does, and halts at each step where the break holds.
    DebugWide {
        files: RunFiles<'a>,
        held: &'a str,
        is_verbose: bool,
    },
    /// `test [--trace] [--cover] [--graph] FILE..`: runs the tests of files, each on the dialplan and the queues that its head names, over the
    /// wide table. The report has what ran in each test if it is asked for, and the entries that ran in none. Or it is a picture of the
    /// dialplan by what ran.
    Test {
        files: Vec<&'a str>,
        is_traced: bool,
        is_covered: bool,
        is_drawn: bool,
    },
    /// `diff OLD NEW`: writes what answers differently in two dialplans.
    Diff {
        files: DiffFiles<'a>,
    },
    /// `diff --asterisk OLD NEW`: does the same for dialplans that are read from a file each and from those that it includes.
    DiffIncluding {
        files: DiffFiles<'a>,
    },
    /// `diff --from CONTEXT OLD NEW`: writes which contexts a call that comes in at a context reaches in only one of two dialplans.
    ReachDiff {
        question: ReachDiffQuestion<'a>,
    },
    /// `diff --asterisk --from CONTEXT OLD NEW`: does the same for dialplans that are read from a file each and from those that it includes,
    /// over the wide table.
    ReachDiffIncluding {
        question: ReachDiffQuestion<'a>,
    },
    /// `graph [--queues QUEUES] [--from CONTEXT] FILE`: writes a dialplan as a picture in the DOT language, with the ways out of its queues if
    /// they are named. If a context is named, what a call that comes in there may reach is filled.
    Graph {
        question: GraphQuestion<'a>,
    },
    /// `graph --asterisk [--queues QUEUES] [--from CONTEXT] FILE`: does the same for a dialplan and queues that are read from a file each and
    /// from those that it includes, over the wide table. If the dialplan has a fault, or the queues have anything that this program cannot
    /// follow, nothing is written.
    GraphIncluding {
        question: GraphQuestion<'a>,
    },
    /// `reach [--queues QUEUES] [--start CONTEXTS] [--exten BYTES] [--caller NUMBERS] [--to TARGET] FILE CONTEXT`: reports what a call that
    /// comes in at a context may run, or whether it may reach another context.
    Reach {
        question: ReachQuestion<'a>,
    },
    /// `reach --asterisk [--facts BYTES] ..`: does the same for a dialplan and queues that are read from a file each and from those that it
    /// includes, over the wide table. If the dialplan has a fault, or it or the queues have anything that this program cannot follow, nothing
    /// is written.
    ReachIncluding {
        question: ReachQuestion<'a>,
    },
}
