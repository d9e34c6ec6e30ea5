//! The applications that `ExecIf` may run, after the Asterisk documentation's page on it.
ghost use Rattle.std.specs.Prelude.{◌≡◌, unwrap_or};
ghost use Rattle.std.specs.Option.{option_map, option_to_list};
ghost use Rattle.dp_conf.specs.Cut.{before_last};
ghost use Rattle.dp_conf.specs.Levels.{cut_outside};
ghost use Rattle.dp_graph.specs.ExecIf as spec;

use dp_conf::{before_last, cut_once, cut_outside, trim};

/// The name of an application, and its arguments.
#[derive(Clone, Copy)]
pub(crate) struct CalledApplication<'a> {
    pub(crate) name: &'a [u8],
    pub(crate) arguments: &'a [u8],
}

/// The applications that an entry may run: at most two.
#[derive(Clone, Copy)]
pub(crate) struct CalledApplications<'a> {
    pub(crate) first: Option<CalledApplication<'a>>,
    pub(crate) second: Option<CalledApplication<'a>>,
}

/// The text before its last `)`, or all of it if there is none.
fn before_closing(text: &[u8]) -> &[u8]
    ensures { result.now ≡ unwrap_or (before_last 41 text.now) text.now }
{
    match before_last(text, b')') {
        None => text,
        Some(front) => front,
    }
}

/// The application of a side.
fn side_call(side: &[u8]) -> CalledApplication<'_>
    ensures { spec.call_now result ≡ spec.side_call side.now }
{
    let side = trim(side);
    match cut_once(side, b'(') {
        None => CalledApplication {
            name: side,
            arguments: b"",
        },
        Some((name, after)) => CalledApplication {
            name: trim(name),
            arguments: before_closing(after),
        },
    }
}

/// The applications of the sides.
fn side_calls(sides: &[u8]) -> CalledApplications<'_>
    ensures { spec.calls_now result ≡ spec.side_calls sides.now (cut_outside 58 sides.now) }
{
    match cut_outside(sides, b':') {
        None => CalledApplications {
            first: Some(side_call(sides)),
            second: None,
        },
        Some((first, second)) => CalledApplications {
            first: Some(side_call(first)),
            second: Some(side_call(second)),
        },
    }
}

/// The application that `NAME,ARGUMENTS` names.
fn named_call(text: &[u8]) -> CalledApplication<'_>
    ensures { spec.call_now result ≡ spec.old_by text.now (cut_outside 44 text.now) }
{
    match cut_outside(text, b',') {
        None => CalledApplication {
            name: trim(text),
            arguments: b"",
        },
        Some((name, arguments)) => CalledApplication {
            name: trim(name),
            arguments,
        },
    }
}

/// The application of the old form, if there is one.
fn old_calls(arguments: &[u8]) -> CalledApplications<'_>
    ensures { spec.calls_now result ≡ spec.old_calls (cut_outside 44 arguments.now) }
{
    let first = match cut_outside(arguments, b',') {
        None => None,
        Some((_condition, rest)) => Some(named_call(rest)),
    };
    CalledApplications {
        first,
        second: None,
    }
}

/// The applications that an `ExecIf` with these arguments may run, whichever side its condition takes.
///
/// In `CONDITION?[SIDE][:SIDE]` the condition ends at the first `?`, and the first `:` outside parentheses separates the sides. A side is
/// `NAME` or `NAME(ARGUMENTS)`; the arguments end at its last `)`. If a comma outside parentheses comes before the first `?`, or there is no
/// `?`, it is the old form `CONDITION,NAME[,ARGUMENTS]`.
#[tactic(auto, unfolding(crate::specs::ExecIf::exec_if_calls))]
pub(crate) fn exec_if_calls(arguments: &[u8]) -> CalledApplications<'_>
    ensures { spec.calls_now result ≡ spec.exec_if_calls arguments.now }
{
    let Some((condition, sides)) = cut_once(arguments, b'?') else {
        return old_calls(arguments);
    };
    if cut_outside(condition, b',').is_some() {
        return old_calls(arguments);
    }
    side_calls(sides)
}
