//! The targets in the arguments of an entry, after the Asterisk documentation's pages on the applications `Goto`, `GotoIf`, `Gosub` and
//! `GosubIf`.
ghost use Rattle.std.specs.Prelude.{◌≡◌};
ghost use Rattle.std.specs.List.{list_any};
ghost use Rattle.std.specs.Option.{option_map};
ghost use Rattle.dp_conf.specs.Blanks as blanks;
ghost use Rattle.dp_conf.specs.Cut as cuts;
ghost use Rattle.dp_audit.specs.Targets as spec;

use dp_conf::{cut_once, cut_outside, first_argument, same_word, trim};
use dp_vars::has_opening;

/// How an application jumps.
#[derive(Clone, Copy, Debug, PartialEq, Eq)]
pub struct Jump {
    /// Whether a condition chooses one of two sides.
    pub is_choice: bool,
    /// Whether it enters a subroutine, whose arguments come after the target.
    pub is_subroutine: bool,
}

/// How the application with this name jumps, if it does.
pub fn jump_of(name: &[u8]) -> Option<Jump>
    ensures { result ≡ spec.jump_of name.now }
{
    if same_word(name, b"Goto") {
        return Some(Jump {
            is_choice: false,
            is_subroutine: false,
        });
    }
    if same_word(name, b"GotoIf") {
        return Some(Jump {
            is_choice: true,
            is_subroutine: false,
        });
    }
    if same_word(name, b"Gosub") {
        return Some(Jump {
            is_choice: false,
            is_subroutine: true,
        });
    }
    if same_word(name, b"GosubIf") {
        return Some(Jump {
            is_choice: true,
            is_subroutine: true,
        });
    }
    None
}

/// The targets of an entry: at most two.
#[derive(Clone, Copy)]
pub struct Targets<'a> {
    pub first: Option<&'a [u8]>,
    pub second: Option<&'a [u8]>,
}

/// A side of a choice. A side of blanks alone counts as absent.
fn side(text: &[u8]) -> Option<&[u8]>
    ensures { option_map (λ side. side.now) result ≡ spec.side (blanks.trim text.now) }
{
    let side = trim(text);
    if side.is_empty() {
        return None;
    }
    Some(side)
}

/// The sides of a choice, given its arguments.
fn sides_of(arguments: &[u8]) -> Targets<'_>
    ensures { spec.texts_of_targets result ≡ spec.sides_of (cuts.cut_once 63 arguments.now) }
{
    match cut_once(arguments, b'?') {
        None => Targets {
            first: None,
            second: None,
        },
        Some((_condition, sides)) => match cut_outside(sides, b':') {
            None => Targets {
                first: side(sides),
                second: None,
            },
            Some((first, second)) => Targets {
                first: side(first),
                second: side(second),
            },
        },
    }
}

/// The targets in the arguments of an application that jumps: the sides of a choice that have more than blanks, or the whole arguments,
/// without blanks at their ends.
pub fn targets_in(jump: Jump, arguments: &[u8]) -> Targets<'_>
    ensures { spec.texts_of_targets result ≡ spec.targets_in jump arguments.now }
{
    if jump.is_choice {
        return sides_of(arguments);
    }
    Targets {
        first: Some(trim(arguments)),
        second: None,
    }
}

/// A target, in parts. A missing part is empty.
#[derive(Clone, Copy)]
pub struct JumpParts<'a> {
    pub context: &'a [u8],
    pub exten: &'a [u8],
    pub priority: &'a [u8],
}

/// The last part of a target; for a subroutine, the part before its arguments.
fn priority_in(jump: Jump, part: &[u8]) -> &[u8]
    ensures { result.now ≡ spec.priority_in jump.is_subroutine part.now }
{
    if !jump.is_subroutine {
        return part;
    }
    match cut_once(part, b'(') {
        None => part,
        Some((priority, _arguments)) => trim(priority),
    }
}

/// The parts of a target's text, if there are one to three of them.
pub fn parts_of(jump: Jump, text: &[u8]) -> Option<JumpParts<'_>>
    ensures { option_map spec.parts_of_jump result ≡ spec.parts_of jump text.now }
{
    let (first, after) = first_argument(text);
    let Some(after) = after else {
        return Some(JumpParts {
            context: b"",
            exten: b"",
            priority: priority_in(jump, trim(first)),
        });
    };
    let (second, after) = first_argument(after);
    let Some(after) = after else {
        return Some(JumpParts {
            context: b"",
            exten: trim(first),
            priority: priority_in(jump, trim(second)),
        });
    };
    let (third, after) = first_argument(after);
    let Some(after) = after else {
        return Some(JumpParts {
            context: trim(first),
            exten: trim(second),
            priority: priority_in(jump, trim(third)),
        });
    };
    // There is a fourth.
    let _fourth = first_argument(after);
    None
}

/// Whether the text has a byte that ends a group.
fn holds_end(text: &[u8]) -> bool
    ensures { result ≡ list_any spec.ends_group text.now }
{
    for byte in text {
        if *byte == b']' || *byte == b'}' {
            return true;
        }
    }
    false
}

/// Whether a text is literal: no group begins or ends in it.
fn stands(text: &[u8]) -> bool
    ensures { result ≡ spec.stands text.now }
{
    !(has_opening(text) || holds_end(text))
}

/// Whether each part of a target is literal; with more than three parts, whether the whole text is.
pub fn parts_stand(text: &[u8], parts: Option<JumpParts<'_>>) -> bool
    ensures { result ≡ spec.parts_stand text.now (option_map spec.parts_of_jump parts.entry) }
{
    match parts {
        None => stands(text),
        Some(parts) => stands(parts.context) && stands(parts.exten) && stands(parts.priority),
    }
}
