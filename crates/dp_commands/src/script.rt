//! Scripts: the turns that a person writes down.
ghost use Rattle.std.specs.Prelude.{◌≡◌, IfOk, false};
ghost use Rattle.std.specs.Option.{option_map};
ghost use Rattle.dp_conf.specs.Answers.{Answers};
ghost use Rattle.dp_commands.specs.Faults.{is_write_failed, reason_of};
ghost use Rattle.dp_commands.specs.Script as spec;

use crate::fault::PbxFault;
use crate::reading::{ReadLine, read_script_by};
use crate::script_line::{is_skipped, read_words, words};
use dp_machine::Event;
use dp_plan::{NoMemory, SharedText, Text};
use std::alloc::Global;
use std::marker::Model;

/// The turn that a line of a script gives.
#[derive(PartialEq, Eq, Drop)]
pub enum Turn {
    /// An event of the machine.
    Event(Event),
    /// `show CH NAME`: the value of a name in a channel is printed. This is not an event, and changes nothing.
    Show { channel: u32, name: Text },
}

/// One line of a script: a turn, and how many times it is taken.
#[derive(PartialEq, Eq, Drop)]
pub struct ScriptLine<U = Turn> {
    pub turn: U,
    pub count: u32,
}

/// The text of the second dialplan, which all `reload` lines share.
fn share_text(alloc: Global, second_plan: Option<&[u8]>) -> Result<Option<SharedText>, NoMemory>
    ensures { IfOk result (λ shared. shared ≡ option_map (λ text. text.now) second_plan.entry) }
{
    let Some(text) = second_plan else {
        return Ok(None);
    };
    let text = Text::copy_of(alloc, text)?;
    let shared = SharedText::new(alloc, text)?;
    Ok(Some(shared))
}

/// How the lines of a script are read, with an optional second dialplan. Contracts see it as the text of that dialplan.
#[derive(Drop)]
pub struct PlainLines {
    second_plan: Option<SharedText>,
}

impl Model for PlainLines {
    ghost use Rattle.std.specs.Prelude.{ℕ, List, Option};

    ghost Value = { Option (List ℕ) };

    ghost view = { λ lines. lines.second_plan };
}

impl PlainLines {
    /// How lines are read with the second dialplan of this text. It fails only if memory runs out.
    pub fn beside(alloc: Global, second_plan: Option<&[u8]>) -> Result<Self, NoMemory>
        ensures { IfOk result (λ lines. lines ≡ option_map (λ text. text.now) second_plan.entry) }
    {
        let second_plan = share_text(alloc, second_plan)?;
        Ok(PlainLines { second_plan })
    }
}

impl ReadLine for PlainLines {
    ghost use Rattle.dp_commands.specs.Script.{line_in};

    type Turn = Turn;

    ghost stands_for = { line_in };

    fn read_line(
        &self,
        alloc: Global,
        part: &[u8],
        lines: &mut Vec<ScriptLine>,
    ) -> Result<bool, NoMemory> {
        let words = words(alloc, part)?;
        if is_skipped(&words) {
            return Ok(true);
        }
        match read_words(alloc, self.second_plan.as_ref(), &words)? {
            Some(line) => {
                lines.push(line)?;
                Ok(true)
            }
            None => Ok(false),
        }
    }
}

/// The lines of a script in order, or the fault of its first faulty line. A `reload` line has the text of the second dialplan, and is
/// faulty if there is none.
#[tactic(auto, unfolding(crate::specs::Script::script_by, crate::specs::Script::script_of))]
pub fn read_script(
    alloc: Global,
    second_plan: Option<&[u8]>,
    text: &[u8],
) -> Result<Vec<ScriptLine>, PbxFault>
    ensures lines { Answers (λ lines. lines.items) reason_of result
        (spec.script_of (option_map (λ text. text.now) second_plan.entry) text.now) }
    ensures quiet { is_write_failed result ≡ false }
{
    let reader = PlainLines::beside(alloc, second_plan)?;
    read_script_by(alloc, &reader, text)
}
