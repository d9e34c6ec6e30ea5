//! Short runs over a table of the applications that set and call.
use dp_app::{NoApps, With};
use dp_case_tables::{Question, bytes_of, push_bytes};
use dp_flow::{NoOp, Return};
use dp_machine::{Dialplan, Event, Machine, NoMemory, Phase, Place, Queues};
use dp_machine_fixture::call;
use dp_wide::{DbDel, DbDelTree, GosubIfWide, GosubWide, MSet, Macro, MacroExit, SetWide};
use std::alloc::Global;
use std::str;
use std::test::Fail;

/// The applications that call.
type CallingApps = With<
    GosubWide,
    With<GosubIfWide, With<Macro, With<MacroExit, With<Return, With<NoOp, NoApps>>>>>,
>;

/// Those and the ones that set.
type SettingApps = With<SetWide, With<MSet, With<DbDel, With<DbDelTree, CallingApps>>>>;

type SettingMachine = Machine<SettingApps>;

/// A case is the lines of the extension `s` in `main`, separated by `
/// `, where a line that begins with `[` or `exten` is used as it is; then the number of steps that the first of two calls takes there, and
/// questions, separated by `;`: the value of a name in the first call, with an `@` before it in the second, or with only `=` the place of
/// the first. The answers are separated by `|`.
pub(super) struct SettingsRun;

/// Adds a line of the dialplan.
fn push_line(text: &mut String, line: &str) -> Result<(), NoMemory> {
    if !line.starts_with('[') && !line.starts_with("exten") {
        text.push_str("exten => s,")?;
    }
    text.push_str(line)?;
    text.push('\n')
}

/// The dialplan of a case.
fn plan_of(alloc: Global, lines: &str) -> Result<Dialplan, Fail> {
    let mut text = String::new(alloc);
    text.push_str("[main]\n")?;
    for line in lines.lines() {
        push_line(&mut text, line)?;
    }
    let (plan, _) = Dialplan::load(alloc, text.as_bytes())?;
    Ok(plan)
}

/// Adds the place of a channel.
fn push_place(
    out: &mut String,
    phase: Option<&Phase>,
    place: Option<&Place>,
) -> Result<(), NoMemory> {
    match (phase, place) {
        (Some(Phase::Ready), Some(place)) => {
            write!(out, "{},{},{}", place.context, place.exten, place.priority)
        }
        (Some(Phase::Ended), _) => out.push_str("ended"),
        _ => out.push_str("elsewhere"),
    }
}

/// Adds the answer to a word.
fn push_word(
    out: &mut String,
    alloc: Global,
    machine: &SettingMachine,
    word: &str,
) -> Result<(), NoMemory> {
    if word == "=" {
        return push_place(out, machine.phase(1), machine.place(1));
    }
    let value = match word.strip_prefix('@') {
        Some(name) => machine.value(alloc, 2, name.as_bytes())?,
        None => machine.value(alloc, 1, word.as_bytes())?,
    };
    push_bytes(out, &value)
}

/// The answers to the words.
fn answers_to(alloc: Global, machine: &SettingMachine, words: &str) -> Result<String, NoMemory> {
    let mut out = String::new(alloc);
    let mut is_first = true;
    for word in words.split(';') {
        if !is_first {
            out.push('|')?;
        }
        is_first = false;
        push_word(&mut out, alloc, machine, word)?;
    }
    Ok(out)
}

/// Two calls, and steps of the first.
fn take_steps(alloc: Global, machine: &mut SettingMachine, steps: u32) -> Result<(), NoMemory> {
    for _call in 0..2 {
        machine.apply(alloc, call(alloc, b"main", b"s", b"5551234")?)?;
    }
    for _step in 0..steps {
        machine.apply(alloc, Event::Step { channel: 1 })?;
    }
    Ok(())
}

/// The answer of a new machine with these lines after this number of steps.
fn answers_of(alloc: Global, lines: &str, steps: u32, words: &str) -> Result<String, Fail> {
    let plan = plan_of(alloc, lines)?;
    let mut machine: SettingMachine = Machine::new(alloc, plan, Queues::none(alloc))?;
    take_steps(alloc, &mut machine, steps)?;
    Ok(answers_to(alloc, &machine, words)?)
}

impl Question for SettingsRun {
    fn answer(alloc: Global, asked: &str) -> Result<String, Fail> {
        let (lines, rest) = asked.split_once('¦').ok_or("no steps")?;
        let (steps, words) = rest.split_once('¦').ok_or("no words")?;
        let steps: u32 = steps.parse().ok().ok_or("no number")?;
        let lines = bytes_of(alloc, lines)?;
        answers_of(alloc, str::from_utf8(&lines)?, steps, words)
    }
}
