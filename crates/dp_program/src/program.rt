//! What a request does with the files and the input.
ghost use Rattle.std.specs.Prelude.{◌≡◌, ◌≢◌, ◌||◌};
ghost use Rattle.dp_commands.specs.Faults.{is_write_failed};
ghost use Rattle.dp_program.specs.Faulted.{without_place};
ghost use Rattle.dp_program.specs.Files.{source};
ghost use Rattle.dp_program.specs.Requests.{joined, options_of, request_asked};
ghost use Rattle.dp_program.specs.Serves as spec;

use crate::checks::{serve_check, serve_check_both, serve_check_queues};
use crate::diffs::{serve_diff, serve_diff_including};
use crate::fault_places::Faulted;
use crate::files::ReadFiles;
use crate::graphs::{serve_graph, serve_graph_including};
use crate::hints::{ServedRequest, without_hint};
use crate::including::{
    serve_check_both_including, serve_check_including, serve_check_queues_including,
};
use crate::including_reports::{
    serve_audit_including, serve_list_including, serve_match_including,
};
use crate::options::Options;
use crate::reach_diffs::{serve_reach_diff, serve_reach_diff_including};
use crate::reaches::{serve_reach, serve_reach_including};
use crate::reported_runs::{ReportedRun, serve_run_reported};
use crate::reports::{LookUpManner, serve_audit, serve_explain, serve_list, serve_match};
use crate::request::Request;
use crate::runs::{ThreadRun, serve_debug, serve_joined, serve_run_in_threads};
use crate::test_reports::{TestManner, serve_tests};
use crate::verbose_runs::serve_debug_verbose;
use crate::wide_audits::{ChosenAudit, serve_audit_by};
use crate::wide_runs::{WideRunOf, serve_run_including};
use dp_conf::{ReadTold, WriteTold};
use dp_notices::Assumptions;
use std::alloc::Global;
use std::sync::Wait;
use std::thread::Threads;

/// Does what a request asks for, and gives the status and the hints beside it. The files are read first, and then their texts. A fault
/// comes with its place: the line of a file, or the file that could not be read. If the options explain, each note of `check` has its
/// explanation below it. If they ask for JSON, `check`, `match`, `audit`, `reach` and `test` write an object in place of each
/// line or test.
///
/// `rt` is for the threads of a run that has them.
pub fn serve<'a, F: ReadFiles, I: ReadTold, W: WriteTold, R: Threads + Wait + Sync>(
    rt: &R,
    files: &F,
    alloc: Global,
    request: &Request<'a>,
    options: Options<'a>,
    input: &mut I,
    output: &mut W,
) -> Result<ServedRequest, Faulted<'a>>
    ensures serves { spec.Serves (F.source_at files.now) (source (I.remaining input.old) (I.has_failed input.new))
        (request_asked request.now) (options_of options.entry)
        (W.contents output.old) (W.contents output.new) result }
    ensures told { W.has_failed output.new ≡ (W.has_failed output.old || is_write_failed (without_place result)) }
    ensures heard { I.has_failed input.new ≡ (I.has_failed input.old || spec.fails_on_input (request_asked request.now)
        (without_place result)) }
    ensures unread { request_asked request.now ≢ joined → input.new ≡ input.old }
{
    match request {
        Request::Joined => without_hint(alloc, serve_joined(alloc, input, output)),
        Request::Check { file } => {
            without_hint(alloc, serve_check(files, alloc, file, options, output))
        }
        Request::CheckIncluding { file } => {
            without_hint(
                alloc,
                serve_check_including(files, alloc, file, options, output),
            )
        }
        Request::CheckQueuesIncluding { queues } => {
            without_hint(
                alloc,
                serve_check_queues_including(files, alloc, queues, options.is_json, output),
            )
        }
        Request::CheckBothIncluding { files: paths } => {
            without_hint(
                alloc,
                serve_check_both_including(files, alloc, paths, options, output),
            )
        }
        Request::CheckQueues { queues } => {
            without_hint(
                alloc,
                serve_check_queues(files, alloc, queues, options.is_json, output),
            )
        }
        Request::CheckBoth { files: paths } => {
            without_hint(
                alloc,
                serve_check_both(files, alloc, paths, options, output),
            )
        }
        Request::Listing { file } => without_hint(alloc, serve_list(files, alloc, file, output)),
        Request::ListIncluding { file } => {
            serve_list_including(files, alloc, file, options.clock, output)
        }
        Request::Audit { file } => serve_audit(files, alloc, file, options.is_json, output),
        Request::AuditBy { file, choice } if choice.is_wide => {
            let choice = *choice;
            let asked = ChosenAudit {
                file,
                choice,
                options,
            };
            serve_audit_including(files, alloc, asked, output)
        }
        Request::AuditBy { file, choice } => {
            let choice = *choice;
            let asked = ChosenAudit {
                file,
                choice,
                options,
            };
            serve_audit_by(files, alloc, asked, output)
        }
        Request::Match { lookup, all } => {
            let manner = LookUpManner { all: *all, options };
            serve_match(files, alloc, lookup, manner, output)
        }
        Request::MatchIncluding { lookup, all } => {
            let manner = LookUpManner { all: *all, options };
            serve_match_including(files, alloc, lookup, manner, output)
        }
        Request::Explain { fault } => without_hint(alloc, serve_explain(*fault, output)),
        Request::Run {
            files: run,
            threads: None,
            is_verbose,
        } => {
            let run = ReportedRun {
                files: run,
                is_verbose: *is_verbose,
            };
            serve_run_reported(files, alloc, run, output)
        }
        Request::Run {
            files: run,
            threads: Some(threads),
            is_verbose: _,
        } => {
            let run = ThreadRun {
                files: run,
                threads: *threads,
            };
            without_hint(alloc, serve_run_in_threads(rt, files, alloc, run, output))
        }
        Request::RunWide {
            files: run,
            is_verbose,
        } => {
            let asked = WideRunOf {
                files: run,
                is_verbose: *is_verbose,
                held: None,
                clock: options.clock,
                assumed: Assumptions::none(),
            };
            serve_run_including(files, alloc, asked, output)
        }
        Request::Debug {
            files: run,
            held,
            is_verbose: true,
        } => without_hint(alloc, serve_debug_verbose(files, alloc, run, held, output)),
        Request::Debug {
            files: run,
            held,
            is_verbose: false,
        } => without_hint(alloc, serve_debug(files, alloc, run, held, output)),
        Request::DebugWide {
            files: run,
            held,
            is_verbose,
        } => {
            let asked = WideRunOf {
                files: run,
                is_verbose: *is_verbose,
                held: Some(*held),
                clock: options.clock,
                assumed: Assumptions::none(),
            };
            serve_run_including(files, alloc, asked, output)
        }
        Request::Test {
            files: paths,
            is_traced,
            is_covered,
            is_drawn,
        } => {
            let manner = TestManner {
                traces: *is_traced,
                covers: *is_covered,
                is_json: options.is_json,
                draws: *is_drawn,
            };
            serve_tests(files, alloc, manner, paths, output)
        }
        Request::Diff { files: paths } => {
            without_hint(alloc, serve_diff(files, alloc, paths, output))
        }
        Request::DiffIncluding { files: paths } => {
            serve_diff_including(files, alloc, paths, options.clock, output)
        }
        Request::ReachDiff { question } => serve_reach_diff(
            files,
            alloc,
            question,
            options.explains,
            output,
        ),
        Request::ReachDiffIncluding { question } => {
            serve_reach_diff_including(files, alloc, question, options, output)
        }
        Request::Graph { question } => serve_graph(
            files,
            alloc,
            question,
            options.explains,
            output,
        ),
        Request::GraphIncluding { question } => {
            serve_graph_including(files, alloc, question, options, output)
        }
        Request::Reach { question } => serve_reach(files, alloc, question, options, output),
        Request::ReachIncluding { question } => {
            serve_reach_including(files, alloc, question, options, output)
        }
    }
}
