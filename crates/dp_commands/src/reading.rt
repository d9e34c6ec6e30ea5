//! How scripts are read line by line, for lines of any kind.
ghost use Rattle.std.specs.Prelude.{◌≡◌, ℕ, ◌++◌, [], List, Option, IfOk, IfErr, OnOk, Ok, is_some, false};
ghost use Rattle.std.specs.Option.{unwrap_or};
ghost use Rattle.dp_conf.specs.Answers.{Answers, Refuses};
ghost use Rattle.dp_commands.specs.Faults.{is_write_failed, reason_of};
ghost use Rattle.dp_commands.specs.Script as spec;
ghost use Rattle.dp_commands.specs.declared.script.ScriptLine.{ScriptLine as Line};

use crate::fault::{Code, PbxFault};
use crate::script::ScriptLine;
use dp_conf::first_part;
use dp_plan::NoMemory;
use std::alloc::Global;

/// How the lines of a script are read.
pub trait ReadLine {
    /// The meaning of a line of the script.
    type Turn: Drop;

    // The meaning of a line of the text: empty if the line is skipped, and None if it is faulty.
    ghost stands_for: { Self → List ℕ → Option (List (Line Self.Turn)) };

    /// Adds the meaning of a line of the text at the end, and says whether the line is valid: a faulty line has no meaning. It fails only
    /// if memory runs out.
    fn read_line(
        &self,
        alloc: Global,
        part: &[u8],
        lines: &mut Vec<ScriptLine<Self::Turn>>,
    ) -> Result<bool, NoMemory>
        ensures sound { IfOk result (λ is_sound. is_sound ≡ is_some (stands_for self.now part.now)) }
        ensures lines { OnOk result (lines.new.items ≡ lines.old.items ++ unwrap_or (stands_for self.now part.now) []) };
}

/// Adds the meaning of the line with this number at the end, or gives the line's fault.
fn read_numbered<R: ReadLine>(
    alloc: Global,
    reader: &R,
    number: usize,
    part: &[u8],
    lines: &mut Vec<ScriptLine<R::Turn>>,
) -> Result<(), PbxFault>
    ensures read { OnOk result (spec.reading_at number (R.stands_for reader.now part.now)
        ≡ Ok (unwrap_or (R.stands_for reader.now part.now) [])) }
    ensures lines { OnOk result (lines.new.items ≡ lines.old.items ++ unwrap_or (R.stands_for reader.now part.now) []) }
    ensures fault { IfErr result (λ fault. Refuses (reason_of fault) (spec.reading_at number (R.stands_for reader.now part.now))) }
    ensures quiet { is_write_failed result ≡ false }
{
    let is_sound = reader.read_line(alloc, part, lines)?;
    if is_sound {
        Ok(())
    } else {
        Err(PbxFault::Coded {
            code: Code::BadScript,
            line: Some(number),
        })
    }
}

/// The meaning of the lines of a script, in order; or the fault of its first faulty line. A line is the text between two line feeds.
pub fn read_script_by<R: ReadLine>(
    alloc: Global,
    reader: &R,
    text: &[u8],
) -> Result<Vec<ScriptLine<R::Turn>>, PbxFault>
    ensures lines { Answers (λ lines. lines.items) reason_of result (spec.script_by (R.stands_for reader.now) text.now) }
    ensures quiet { is_write_failed result ≡ false }
{
    let mut lines = Vec::new(alloc);
    let mut number: usize = 0;
    let mut rest = Some(text);
    while let Some(left) = rest {
        let (part, after) = first_part(left);
        number += 1;
        read_numbered(alloc, reader, number, part, &mut lines)?;
        rest = after;
    }
    Ok(lines)
}
