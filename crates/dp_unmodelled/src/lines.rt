//! The names that are reported.
ghost use Rattle.std.specs.Prelude.{◌≡◌, ◌==◌, ◌++◌, OnOk, OnErr, position};
ghost use Rattle.dp_unmodelled.specs.Meeting as spec;

use dp_commands::Block;
use dp_conf::same_word;
use dp_machine::{NoMemory, Text, Unknown};
use std::alloc::Global;
use std::marker::Model;

/// The place of the first `(`.
fn parenthesis(call: &[u8]) -> Option<usize>
    ensures { result ≡ position (λ b. b == 40) call.now }
{
    call.iter().position(|byte| *byte == b'(')
}

/// The name of the function in a call of it.
fn called_name(call: &[u8]) -> &[u8]
    ensures { result.now ≡ spec.called_name call.now }
{
    match parenthesis(call) {
        Some(place) => &call[..place],
        None => call,
    }
}

/// The name of what is not modelled.
fn unmodelled_name(unknown: &Unknown) -> &[u8]
    ensures { result.now ≡ spec.unmodelled_name unknown.now }
{
    match unknown {
        Unknown::Application(name) | Unknown::Asked(name) => name.bytes(),
        Unknown::Group(call) => called_name(call.bytes()),
    }
}

/// Whether a name is among those that are reported, in any ASCII case.
fn is_reported(names: &[Text], name: &[u8]) -> bool
    ensures { result ≡ spec.is_reported names.now name.now }
{
    names
        .iter()
        .any(|reported| same_word(reported.bytes(), name))
}

/// Adds the line of a name to the waiting lines.
fn push_name_line(block: &mut Block, name: &[u8]) -> Result<(), NoMemory>
    ensures line { OnOk result (block.new.whole ≡ block.old.whole ++ spec.name_line name.now) }
    ensures err { OnErr result (block.new.whole ≡ block.old.whole) }
{
    block.begin_line();
    block.push(b"pbx: `")?;
    block.push(name)?;
    block.push(b"` is not modelled; --asterisk models it, or stops there")?;
    block.end_line()
}

/// The names that are reported. A contract sees it as the list of them.
#[derive(Drop)]
pub(crate) struct Reported {
    names: Vec<Text>,
}

impl Model for Reported {
    ghost use Rattle.std.specs.Prelude.{List, ℕ};

    ghost Value = { List (List ℕ) };

    ghost view = { λ reported. reported.names.items };
}

impl Reported {
    ghost use Rattle.std.specs.Prelude.{◌≡◌, ◌++◌, [], OnOk, OnErr};
    ghost use Rattle.dp_unmodelled.specs.Meeting as spec;

    /// No names.
    pub(crate) fn none(alloc: Global) -> Self
        ensures { result ≡ [] }
    {
        Reported {
            names: Vec::new(alloc),
        }
    }

    /// Adds the line of a name to the waiting lines, unless it is reported already.
    fn report(&mut self, alloc: Global, name: &[u8], block: &mut Block) -> Result<(), NoMemory>
        ensures names { OnOk result (self.new ≡ spec.with_name self.old name.now) }
        ensures lines { OnOk result (block.new.whole ≡ block.old.whole ++ spec.lines_for self.old name.now) }
        ensures err { OnErr result (block.new.whole ≡ block.old.whole) }
    {
        if is_reported(&self.names, name) {
            return Ok(());
        }
        self.names.push(Text::copy_of(alloc, name)?)?;
        push_name_line(block, name)
    }

    /// The same for what was met, if anything was.
    pub(crate) fn report_met(
        &mut self,
        alloc: Global,
        met: Option<Unknown>,
        block: &mut Block,
    ) -> Result<(), NoMemory>
        ensures names { OnOk result (self.new ≡ spec.names_after self.old met) }
        ensures lines { OnOk result (block.new.whole ≡ block.old.whole ++ spec.lines_after self.old met) }
        ensures err { OnErr result (block.new.whole ≡ block.old.whole) }
    {
        match met {
            Some(unknown) => self.report(alloc, unmodelled_name(&unknown), block),
            None => Ok(()),
        }
    }
}
