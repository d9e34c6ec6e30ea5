//! The names that a dialplan mentions other than by reading them. A variable that is read, but mentioned nowhere else, may be a mistake. That
//! a name counts as set if anything mentions it is this program's own choice: an application may set a variable that its arguments name.
ghost use Rattle.std.specs.Prelude.{◌≡◌, ◌||◌, [], ◌∷◌, IfOk, OnOk, position};
ghost use Rattle.std.specs.List.{flat_map};
ghost use Rattle.std.specs.Option.{option_map, option_to_list};
ghost use Rattle.dp_wide_runs.specs.Mentions as spec;

use dp_plan::{Context, Dialplan, Entry, NoMemory, Text};
use dp_wide::{is_given_by_asterisk, is_status};
use indexmap::IndexSet;
use std::alloc::Global;
use std::marker::Model;

/// Whether the byte is a bracket.
fn is_bracket(byte: u8) -> bool
    ensures { result ≡ spec.is_bracket byte }
{
    byte == b'(' || byte == b')' || byte == b'[' || byte == b']' || byte == b'{' || byte == b'}'
}

/// Whether the byte is a sign between parts of arguments.
fn is_sign(byte: u8) -> bool
    ensures { result ≡ spec.is_sign byte }
{
    byte == b'"'
        || byte == b'$'
        || byte == b'&'
        || byte == b','
        || byte == b':'
        || byte == b'='
        || byte == b'?'
        || byte == b'|'
}

/// Whether the byte separates names.
fn separates(byte: u8) -> bool
    ensures { result ≡ spec.separates byte }
{
    byte <= b' ' || is_bracket(byte) || is_sign(byte)
}

/// Whether a name that is not read begins at the byte, given the byte before it.
fn begins_name(before: u8, byte: u8) -> bool
    ensures { result ≡ spec.begins_name before byte }
{
    separates(before) && before != b'{' && !separates(byte)
}

/// The place of the first separator.
fn name_end(text: &[u8]) -> Option<usize>
    ensures { result ≡ position spec.separates text.now }
{
    text.iter().position(|byte| separates(*byte))
}

/// The bytes before the first separator.
fn front_name(text: &[u8]) -> &[u8]
    ensures { result.now ≡ spec.front_name text.now }
{
    match name_end(text) {
        Some(end) => &text[..end],
        None => text,
    }
}

/// The place of the first byte that is no mark of inheritance.
fn marks_end(name: &[u8]) -> Option<usize>
    ensures { result ≡ position spec.is_no_mark name.now }
{
    name.iter().position(|byte| *byte != b'_')
}

/// A name without the marks of inheritance in front of it.
fn without_marks(name: &[u8]) -> &[u8]
    ensures { result.now ≡ spec.without_marks name.now }
{
    match marks_end(name) {
        Some(start) => &name[start..],
        None => b"",
    }
}

/// The name that begins a text, given the byte before the text.
fn name_at(before: u8, text: &[u8]) -> Option<&[u8]>
    ensures { option_map (λ name. name.now) result ≡ spec.name_at before text.now }
{
    let (byte, _) = text.split_first()?;
    if begins_name(before, *byte) {
        return Some(without_marks(front_name(text)));
    }
    None
}

/// Whether `Macro` sets the name, to say where it was called.
fn is_macro_place(name: &[u8]) -> bool
    ensures { result ≡ spec.is_macro_place name.now }
{
    name == b"MACRO_EXTEN".as_slice()
        || name == b"MACRO_CONTEXT".as_slice()
        || name == b"MACRO_PRIORITY".as_slice()
        || name == b"MACRO_OFFSET".as_slice()
        || name == b"ARGC".as_slice()
}

/// Whether `Macro` sets the name to one of its arguments.
fn is_macro_argument(name: &[u8]) -> bool
    ensures { result ≡ spec.is_macro_argument name.now }
{
    name == b"ARG1".as_slice()
        || name == b"ARG2".as_slice()
        || name == b"ARG3".as_slice()
        || name == b"ARG4".as_slice()
        || name == b"ARG5".as_slice()
        || name == b"ARG6".as_slice()
        || name == b"ARG7".as_slice()
        || name == b"ARG8".as_slice()
        || name == b"ARG9".as_slice()
}

/// Whether Asterisk gives the name, or an application that is not modelled or a macro sets it.
fn is_given(name: &[u8]) -> bool
    ensures { result ≡ spec.is_given name.now }
{
    is_given_by_asterisk(name) || is_status(name) || is_macro_place(name) || is_macro_argument(name)
}

/// Names that a dialplan mentions.
#[derive(Drop)]
struct Mentions {
    names: IndexSet<Text>,
}

impl Mentions {
    /// Records a name.
    fn add(&mut self, name: Text) -> Result<(), NoMemory>
        ensures { OnOk result (spec.Adds self.old self.new (name ∷ [])) }
    {
        self.names.insert(name)?;
        Ok(())
    }

    /// Records a copy of a name, if there is one.
    #[tactic(auto, using(crate::proofs::MentionsLemmas::adds_none))]
    fn add_name(&mut self, alloc: Global, name: Option<&[u8]>) -> Result<(), NoMemory>
        ensures { OnOk result (spec.Adds self.old self.new (option_to_list (option_map (λ name. name.now) name.entry))) }
    {
        let Some(name) = name else {
            return Ok(());
        };
        let name = Text::copy_of(alloc, name)?;
        self.add(name)
    }

    /// Records the names in a text that are not read.
    fn add_names(&mut self, alloc: Global, text: &[u8]) -> Result<(), NoMemory>
        ensures { OnOk result (spec.Adds self.old self.new (spec.names_in text.now)) }
    {
        let mut before = b',';
        let mut left = text;
        while let Some((byte, after)) = left.split_first() {
            self.add_name(alloc, name_at(before, left))?;
            before = *byte;
            left = after;
        }
        Ok(())
    }

    /// Records the names that an entry mentions.
    fn add_entry(&mut self, alloc: Global, entry: &Entry) -> Result<(), NoMemory>
        ensures { OnOk result (spec.Adds self.old self.new (spec.entry_mentions entry.now)) }
    {
        self.add_names(alloc, entry.arguments.text().bytes())
    }

    /// Records the names that entries mention.
    fn add_entries(&mut self, alloc: Global, entries: &[Entry]) -> Result<(), NoMemory>
        ensures { OnOk result (spec.Adds self.old self.new (flat_map spec.entry_mentions entries.now)) }
    {
        for entry in entries {
            self.add_entry(alloc, entry)?;
        }
        Ok(())
    }

    /// Records the names that the entries of contexts mention.
    fn add_contexts(&mut self, alloc: Global, contexts: &[Context]) -> Result<(), NoMemory>
        ensures { OnOk result (spec.Adds self.old self.new (flat_map spec.context_mentions contexts.now)) }
    {
        for context in contexts {
            self.add_entries(alloc, context.entries())?;
        }
        Ok(())
    }

    /// The names that a dialplan mentions.
    #[tactic(auto, unfolding(crate::specs::Mentions::is_mentioned))]
    fn of(alloc: Global, plan: &Dialplan) -> Result<Self, NoMemory>
        ensures { IfOk result (spec.AreMentioned plan.now) }
    {
        let mut noted = Mentions {
            names: IndexSet::new(alloc),
        };
        noted.add_contexts(alloc, plan.contexts())?;
        Ok(noted)
    }

    /// Whether a name is recorded.
    fn has(&self, name: &Text) -> bool
        ensures { result ≡ spec.has_name self.now name.now }
    {
        self.names.contains(name)
    }
}

/// A dialplan, with the names that it mentions.
#[derive(Drop)]
pub(crate) struct MentionedPlan<'a> {
    plan: &'a Dialplan,
    mentions: Mentions,
}

impl<'a> Model for MentionedPlan<'a> {
    ghost use Rattle.dp_plan.specs.Plan.{PlanOf};
    ghost use Rattle.dp_wide_runs.specs.Mentions.{AreMentioned};

    ghost Value = { PlanOf };

    ghost view = { λ scene. scene.plan.now };

    ghost invariant = { λ scene. AreMentioned scene.plan.now scene.mentions };
}

impl<'a> MentionedPlan<'a> {
    /// The dialplan with the names that it mentions.
    pub(crate) fn new(alloc: Global, plan: &'a Dialplan) -> Result<Self, NoMemory>
        ensures { IfOk result (λ scene. scene ≡ plan.now) }
    {
        let mentions = Mentions::of(alloc, plan)?;
        Ok(MentionedPlan { plan, mentions })
    }

    /// The dialplan.
    pub(crate) fn plan(&self) -> &'a Dialplan
        ensures { result.now ≡ self.now }
    {
        self.plan
    }

    /// Whether a name is neither given nor mentioned.
    pub(crate) fn is_strange(&self, name: &Text) -> bool
        ensures { result ≡ spec.is_strange self.now name.now }
    {
        !(is_given(name.bytes()) || self.mentions.has(name))
    }
}
