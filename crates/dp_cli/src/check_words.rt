//! The request of `check`.
ghost use Rattle.std.specs.Prelude.{◌≡◌, codes, option_map};
ghost use Rattle.clap.specs.Matches.{found_of};
ghost use Rattle.clap.specs.Walk.{first_of, rows_of};
ghost use Rattle.dp_program.specs.Requests.{request_asked};
ghost use Rattle.dp_cli.specs.CommandLine as spec;

use crate::command_line::{is_set, word_of};
use clap::ArgMatches;
use dp_program::{CheckFiles, Request};

/// The request of `check --asterisk`, or None if its words name no file.
fn including_request<'a>(given: &ArgMatches<'a>) -> Option<Request<'a>>
    ensures { option_map request_asked result
        ≡ spec.check_including (first_of (codes "FILE") (rows_of (found_of given.now))) (first_of (codes "QUEUES") (rows_of (found_of given.now))) }
{
    match (word_of(given, "FILE"), word_of(given, "QUEUES")) {
        (None, None) => None,
        (None, Some(queues)) => Some(Request::CheckQueuesIncluding { queues }),
        (Some(file), None) => Some(Request::CheckIncluding { file }),
        (Some(plan), Some(queues)) => Some(Request::CheckBothIncluding {
            files: CheckFiles { plan, queues },
        }),
    }
}

/// The request of `check` without `--asterisk`, or None if its words name no file.
fn plain_request<'a>(given: &ArgMatches<'a>) -> Option<Request<'a>>
    ensures { option_map request_asked result
        ≡ spec.check_request (first_of (codes "FILE") (rows_of (found_of given.now))) (first_of (codes "QUEUES") (rows_of (found_of given.now))) }
{
    match (word_of(given, "FILE"), word_of(given, "QUEUES")) {
        (None, None) => None,
        (None, Some(queues)) => Some(Request::CheckQueues { queues }),
        (Some(file), None) => Some(Request::Check { file }),
        (Some(plan), Some(queues)) => Some(Request::CheckBoth {
            files: CheckFiles { plan, queues },
        }),
    }
}

/// The request of `check`, or None if its words name no file.
pub(crate) fn check_request<'a>(given: &ArgMatches<'a>) -> Option<Request<'a>>
    ensures { option_map request_asked result ≡ spec.check_asked (rows_of (found_of given.now)) }
{
    if is_set(given, "asterisk") {
        return including_request(given);
    }
    plain_request(given)
}
