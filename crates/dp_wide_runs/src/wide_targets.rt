//! The targets of those applications of the wide table that an audit without this table does not know: `GotoIfTime`, and what an `ExecIf`
//! may run.
ghost use Rattle.std.specs.Prelude.{◌≡◌, ◌++◌, OnOk, map};
ghost use Rattle.std.specs.List.{flat_map};
ghost use Rattle.std.specs.Option.{option_map, option_to_list};
ghost use Rattle.dp_audit.specs.Missing.{target_at, target_now};
ghost use Rattle.dp_wide.specs.Choices.{call_now, exec_if_calls};
ghost use Rattle.dp_wide_runs.specs.WideTargets as spec;

use dp_audit::{Jump, Jumps, TargetAt, jump_of, targets_in};
use dp_conf::same_word;
use dp_plan::{EntryId, NoMemory};
use dp_wide::{SideCall, exec_if_calls};

/// How the application with this name jumps, if it does. `GotoIfTime` has sides like `GotoIf`.
fn wide_jump_of(name: &[u8]) -> Option<Jump>
    ensures { result ≡ spec.wide_jump_of name.now }
{
    if same_word(name, b"GotoIfTime") {
        return Some(Jump {
            is_choice: true,
            is_subroutine: false,
        });
    }
    jump_of(name)
}

/// Adds a target of an entry, if there is one.
fn push_target<'a>(
    list: &mut Vec<TargetAt<'a>>,
    entry: EntryId,
    jump: Jump,
    text: Option<&'a [u8]>,
) -> Result<(), NoMemory>
    ensures { OnOk result (map target_now list.new.items ≡ map target_now list.old.items
        ++ map (target_at entry) (map (spec.target jump) (option_to_list (option_map (λ text. text.now) text.entry)))) }
{
    if let Some(text) = text {
        list.push(TargetAt { entry, jump, text })?;
    }
    Ok(())
}

/// Adds the targets in the arguments of an application of an entry, given how the application jumps, if it does.
#[tactic(auto, using(crate::proofs::TargetLemmas::both_texts))]
fn push_by<'a>(
    list: &mut Vec<TargetAt<'a>>,
    entry: EntryId,
    jump: Option<Jump>,
    arguments: &'a [u8],
) -> Result<(), NoMemory>
    ensures { OnOk result (map target_now list.new.items ≡ map target_now list.old.items
        ++ map (target_at entry) (spec.targets_by jump arguments.now)) }
{
    let Some(jump) = jump else {
        return Ok(());
    };
    let targets = targets_in(jump, arguments);
    push_target(list, entry, jump, targets.first)?;
    push_target(list, entry, jump, targets.second)?;
    Ok(())
}

/// Adds the targets of an application that an entry runs, if there is one.
fn push_of_call<'a>(
    list: &mut Vec<TargetAt<'a>>,
    entry: EntryId,
    call: Option<SideCall<'a>>,
) -> Result<(), NoMemory>
    ensures { OnOk result (map target_now list.new.items ≡ map target_now list.old.items
        ++ map (target_at entry) (flat_map spec.targets_of_call (option_to_list (option_map call_now call.entry)))) }
{
    match call {
        Some(call) => push_by(list, entry, wide_jump_of(call.name), call.arguments),
        None => Ok(()),
    }
}

/// Adds the targets of the applications that an `ExecIf` of an entry may run.
#[tactic(auto, using(crate::proofs::TargetLemmas::both_calls))]
fn push_of_exec_if<'a>(
    list: &mut Vec<TargetAt<'a>>,
    entry: EntryId,
    arguments: &'a [u8],
) -> Result<(), NoMemory>
    ensures { OnOk result (map target_now list.new.items ≡ map target_now list.old.items
        ++ map (target_at entry) (flat_map spec.targets_of_call (exec_if_calls arguments.now))) }
{
    let calls = exec_if_calls(arguments);
    push_of_call(list, entry, calls.first)?;
    push_of_call(list, entry, calls.second)?;
    Ok(())
}

/// The targets of `GotoIfTime`, and those of the jumps that an `ExecIf` may run. An `ExecIf` inside another one is not followed.
pub(crate) struct WideJumps;

impl Jumps for WideJumps {
    ghost use Rattle.dp_wide_runs.specs.WideTargets.{wide_targets};

    ghost targets = { wide_targets };

    fn push_targets<'a>(
        list: &mut Vec<TargetAt<'a>>,
        entry: EntryId,
        name: &[u8],
        arguments: &'a [u8],
    ) -> Result<(), NoMemory> {
        if same_word(name, b"GotoIfTime") {
            return push_by(list, entry, wide_jump_of(name), arguments);
        }
        if same_word(name, b"ExecIf") {
            return push_of_exec_if(list, entry, arguments);
        }
        Ok(())
    }
}
