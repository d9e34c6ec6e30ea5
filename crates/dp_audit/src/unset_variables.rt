//! Variables that nothing sets.
ghost use Rattle.std.specs.Prelude.{◌≡◌, ◌+◌, ◌-◌, ◌^◌, ◌<◌, ◌++◌, ◌||◌, [], ◌∷◌, IfOk, OnOk, filter, length, map, position};
ghost use Rattle.std.specs.List.{flat_map};
ghost use Rattle.std.specs.Option.{option_map, option_to_list};
ghost use Rattle.dp_conf.specs.Blanks as blanks;
ghost use Rattle.dp_conf.specs.Cut as cuts;
ghost use Rattle.dp_plan.specs.Plan.{PlanOf};
ghost use Rattle.dp_audit.specs.Targets.{texts_of_targets};
ghost use Rattle.dp_audit.specs.Unset as spec;

use crate::finding::Finding;
use crate::jump::{Jump, Targets, jump_of, targets_in};
use dp_conf::{before_last, cut_once, same_word, split_args, trim};
use dp_plan::{Context, Dialplan, Entry, EntryId, GlobalVariable, NoMemory, Text};
use indexmap::IndexSet;
use itoa::Buffer;
use std::alloc::Global;

/// Whether the bytes before this byte are a name.
fn ends_name(byte: u8) -> bool
    ensures { result ≡ spec.ends_name byte }
{
    byte == b':' || byte == b'}'
}

/// Whether the byte cannot be part of a name.
fn stops_name(byte: u8) -> bool
    ensures { result ≡ spec.stops_name byte }
{
    ends_name(byte) || byte == b'$' || byte == b'('
}

/// The place of the first byte that cannot be part of a name.
fn name_end(body: &[u8]) -> Option<usize>
    ensures { result ≡ position spec.stops_name body.now }
{
    body.iter().position(|byte| stops_name(*byte))
}

/// The name at the start of a group in braces: the bytes before its first `:` or `}`, unless a `$` or a `(` comes first.
fn front_name(body: &[u8]) -> Option<&[u8]>
    ensures { option_map (λ name. name.now) result ≡ spec.front_name body.now }
{
    let end = name_end(body)?;
    if ends_name(body[end]) {
        return Some(&body[..end]);
    }
    None
}

/// The name in a group in braces, given the byte that opens the group and the bytes after it.
fn name_after(byte: u8, after: &[u8]) -> Option<&[u8]>
    ensures { option_map (λ name. name.now) result ≡ spec.name_after byte after.now }
{
    let (next, body) = after.split_first()?;
    if byte == b'$' && *next == b'{' {
        return front_name(body);
    }
    None
}

/// Whether a channel gives the name, or the machine sets it.
fn is_of_channel(name: &[u8]) -> bool
    ensures { result ≡ spec.is_of_channel name.now }
{
    name == b"EXTEN".as_slice()
        || name == b"CONTEXT".as_slice()
        || name == b"PRIORITY".as_slice()
        || name == b"CHANNEL".as_slice()
        || name == b"INVALID_EXTEN".as_slice()
}

/// Whether applications that call or return set the name.
fn is_status(name: &[u8]) -> bool
    ensures { result ≡ spec.is_status name.now }
{
    name == b"GOSUB_RETVAL".as_slice()
        || name == b"DIALSTATUS".as_slice()
        || name == b"QUEUESTATUS".as_slice()
}

/// Whether applications on members of queues set the name.
fn is_member_status(name: &[u8]) -> bool
    ensures { result ≡ spec.is_member_status name.now }
{
    name == b"AQMSTATUS".as_slice()
        || name == b"RQMSTATUS".as_slice()
        || name == b"PQMSTATUS".as_slice()
        || name == b"UPQMSTATUS".as_slice()
}

/// Whether a channel gives the name, or applications or the machine set it.
fn is_given(name: &[u8]) -> bool
    ensures { result ≡ spec.is_given name.now }
{
    is_of_channel(name) || is_status(name) || is_member_status(name)
}

/// Whether the function sets a variable that its argument names.
fn sets_argument(function: &[u8]) -> bool
    ensures { result ≡ spec.sets_argument function.now }
{
    function == b"GLOBAL".as_slice() || function == b"LOCAL".as_slice()
}

/// The variable that `Set` sets, given its arguments: the name before its `=` itself, or the argument of `GLOBAL` or `LOCAL`.
fn variable_of(arguments: &[u8]) -> Option<&[u8]>
    ensures { option_map (λ name. name.now) result ≡ spec.variable_of (cuts.cut_once 61 arguments.now) }
{
    let (front, _value) = cut_once(arguments, b'=')?;
    let name = trim(front);
    match cut_once(name, b'(') {
        None => Some(name),
        Some((function, argument)) => {
            if sets_argument(function) {
                return before_last(argument, b')');
            }
            None
        }
    }
}

/// The number of arguments of a subroutine, given its target's text.
fn count_arguments(alloc: Global, text: &[u8]) -> Result<usize, NoMemory>
    ensures { IfOk result (λ count. count ≡ length (spec.arguments_given text.now)) }
{
    let Some((_place, after)) = cut_once(text, b'(') else {
        return Ok(0);
    };
    let Some(inside) = before_last(after, b')') else {
        return Ok(0);
    };
    if inside.is_empty() {
        return Ok(0);
    }
    let arguments = split_args(alloc, inside)?;
    Ok(arguments.len())
}

/// The name of the argument with a number.
fn argument_name(alloc: Global, number: usize) -> Result<Text, NoMemory>
    ensures { IfOk result (λ name. name ≡ spec.argument_name number) }
{
    let mut buffer = Buffer::new();
    let mut name = Vec::from_slice(alloc, b"ARG")?;
    name.extend_from_slice(buffer.format(number).as_bytes())?;
    Ok(Text::new(name))
}

/// The names that a dialplan sets.
#[derive(Drop)]
pub(crate) struct SetNames {
    names: IndexSet<Text>,
}

impl SetNames {
    /// Records a name.
    fn add(&mut self, name: Text) -> Result<(), NoMemory>
        ensures { OnOk result (spec.Adds self.old self.new (name ∷ [])) }
    {
        self.names.insert(name)?;
        Ok(())
    }

    /// Records a name, if there is one.
    #[tactic(auto, using(crate::proofs::UnsetLemmas::adds_none))]
    fn add_variable(&mut self, alloc: Global, name: Option<&[u8]>) -> Result<(), NoMemory>
        ensures { OnOk result (spec.Adds self.old self.new
            (option_to_list (option_map (λ name. name.now) name.entry))) }
    {
        let Some(name) = name else {
            return Ok(());
        };
        self.add_copy(alloc, name)
    }

    /// Records the name of the argument after so many.
    fn add_argument(&mut self, alloc: Global, before: usize) -> Result<(), NoMemory>
        requires { before < 2 ^ 64 - 1 }
        ensures { OnOk result (spec.Adds self.old self.new (spec.argument_name (before + 1) ∷ [])) }
    {
        let name = argument_name(alloc, before + 1)?;
        self.add(name)
    }

    /// Records a copy of a name.
    fn add_copy(&mut self, alloc: Global, name: &[u8]) -> Result<(), NoMemory>
        ensures { OnOk result (spec.Adds self.old self.new (name.now ∷ [])) }
    {
        let name = Text::copy_of(alloc, name)?;
        self.add(name)
    }

    /// Records the names of so many arguments.
    #[tactic(auto, using(crate::proofs::UnsetLemmas::adds_none))]
    fn add_arguments(&mut self, alloc: Global, count: usize) -> Result<(), NoMemory>
        ensures { OnOk result (spec.Adds self.old self.new (spec.argument_names count)) }
    {
        for number in 0..count {
            self.add_argument(alloc, number)?;
        }
        Ok(())
    }

    /// Records the names that a target sets, if there is a target.
    #[tactic(auto, using(crate::proofs::UnsetLemmas::adds_none))]
    fn add_target(
        &mut self,
        alloc: Global,
        jump: Jump,
        target: Option<&[u8]>,
    ) -> Result<(), NoMemory>
        ensures { OnOk result (spec.Adds self.old self.new
            (flat_map (spec.target_sets jump) (option_to_list (option_map (λ text. text.now) target.entry)))) }
    {
        let Some(text) = target else {
            return Ok(());
        };
        if !jump.is_subroutine {
            return Ok(());
        }
        let count = count_arguments(alloc, text)?;
        self.add_arguments(alloc, count)
    }

    /// Records the names that the targets set.
    fn add_targets(
        &mut self,
        alloc: Global,
        jump: Jump,
        targets: Targets<'_>,
    ) -> Result<(), NoMemory>
        ensures { OnOk result (spec.Adds self.old self.new (flat_map (spec.target_sets jump) (texts_of_targets targets.entry))) }
    {
        self.add_target(alloc, jump, targets.first)?;
        self.add_target(alloc, jump, targets.second)?;
        Ok(())
    }

    /// Records the names that an entry sets.
    #[tactic(auto, using(crate::proofs::UnsetLemmas::adds_none))]
    fn add_entry(&mut self, alloc: Global, entry: &Entry) -> Result<(), NoMemory>
        ensures { OnOk result (spec.Adds self.old self.new (spec.entry_sets entry.now)) }
    {
        let application = entry.application.bytes();
        let arguments = entry.arguments.text().bytes();
        if same_word(application, b"Set") {
            return self.add_variable(alloc, variable_of(arguments));
        }
        match jump_of(application) {
            Some(jump) => self.add_targets(alloc, jump, targets_in(jump, arguments)),
            None => Ok(()),
        }
    }

    /// Records the names that the entries set.
    fn add_entries(&mut self, alloc: Global, entries: &[Entry]) -> Result<(), NoMemory>
        ensures { OnOk result (spec.Adds self.old self.new (flat_map spec.entry_sets entries.now)) }
    {
        for entry in entries {
            self.add_entry(alloc, entry)?;
        }
        Ok(())
    }

    /// Records the names that the entries of the contexts set.
    fn add_contexts(&mut self, alloc: Global, contexts: &[Context]) -> Result<(), NoMemory>
        ensures { OnOk result (spec.Adds self.old self.new
            (flat_map (λ context. flat_map spec.entry_sets context.entries) contexts.now)) }
    {
        for context in contexts {
            self.add_entries(alloc, context.entries())?;
        }
        Ok(())
    }

    /// Records the globals.
    fn add_globals(&mut self, alloc: Global, globals: &[GlobalVariable]) -> Result<(), NoMemory>
        ensures { OnOk result (spec.Adds self.old self.new (flat_map (λ global. global.name ∷ []) globals.now)) }
    {
        for global in globals {
            self.add_copy(alloc, global.name.bytes())?;
        }
        Ok(())
    }

    /// The names that a dialplan sets.
    #[tactic(auto, using(crate::proofs::UnsetLemmas::adds_both))]
    pub(crate) fn of(alloc: Global, plan: &Dialplan) -> Result<Self, NoMemory>
        ensures { IfOk result (spec.AreSet plan.now) }
    {
        let mut noted = SetNames {
            names: IndexSet::new(alloc),
        };
        noted.add_globals(alloc, plan.globals())?;
        noted.add_contexts(alloc, plan.contexts())?;
        Ok(noted)
    }

    /// Whether something sets the name.
    fn has(&self, name: &Text) -> bool
        ensures { result ≡ (spec.is_given name.now || spec.has_set self.now name.now) }
    {
        is_given(name.bytes()) || self.names.contains(name)
    }
}

/// Adds the name if there is one and nothing sets it.
fn push_name(
    findings: &mut Vec<Finding>,
    alloc: Global,
    noted: &SetNames,
    id: EntryId,
    name: Option<&[u8]>,
) -> Result<(), NoMemory>
    ensures { OnOk result (findings.new.items ≡ findings.old.items
        ++ map (Finding.Unset id) (filter (spec.lacks noted.now)
        (option_to_list (option_map (λ name. name.now) name.entry)))) }
{
    let Some(name) = name else {
        return Ok(());
    };
    let name = Text::copy_of(alloc, name)?;
    if !noted.has(&name) {
        findings.push(Finding::Unset { entry: id, name })?;
    }
    Ok(())
}

/// Adds the names that the text reads and that are not recorded.
fn push_names(
    findings: &mut Vec<Finding>,
    alloc: Global,
    noted: &SetNames,
    id: EntryId,
    text: &[u8],
) -> Result<(), NoMemory>
    ensures { OnOk result (findings.new.items ≡ findings.old.items
        ++ map (Finding.Unset id) (filter (spec.lacks noted.now) (spec.names_read text.now))) }
{
    let mut left = text;
    while let Some((byte, after)) = left.split_first() {
        push_name(findings, alloc, noted, id, name_after(*byte, after))?;
        left = after;
    }
    Ok(())
}

/// Adds the names that the arguments of an entry read but nothing sets.
#[tactic(auto, using(crate::proofs::UnsetLemmas::lacks_are_unset))]
pub(crate) fn push_unset(
    findings: &mut Vec<Finding>,
    alloc: Global,
    noted: &SetNames,
    id: EntryId,
    entry: &Entry,
) -> Result<(), NoMemory>
    ensures { OnOk result ((plan : PlanOf) → spec.AreSet plan noted.now
        → findings.new.items ≡ findings.old.items ++ map (Finding.Unset id) (spec.unset_names plan entry.now)) }
{
    push_names(findings, alloc, noted, id, entry.arguments.text().bytes())
}
