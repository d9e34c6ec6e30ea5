//! A dialplan, an optional second dialplan and a script, joined in one text.
ghost use Rattle.std.specs.Prelude.{◌≡◌, ◌||◌, ◌<◌, None};
ghost use Rattle.std.specs.Option.{option_map};
ghost use Rattle.dp_conf.specs.Blanks as blanks;
ghost use Rattle.dp_commands.specs.Faults.{is_write_failed};
ghost use Rattle.dp_commands.specs.Joined as spec;
ghost use Rattle.dp_commands.specs.Run.{Writes};

use crate::fault::PbxFault;
use crate::run::run_script;
use crate::texts::RunTexts;
use dp_conf::{WriteTold, first_part, trim};
use std::alloc::Global;

/// Whether the line is the separator, apart from blanks at its ends.
fn is_separator(separator: &[u8], part: &[u8]) -> bool
    ensures { result ≡ spec.is_separator separator.now part.now }
{
    trim(part) == separator
}

/// The rest of a text, which may be empty.
fn or_empty(rest: Option<&[u8]>) -> &[u8]
    ensures { result.now ≡ spec.text_left (option_map (λ text. text.now) rest.entry) }
{
    match rest {
        Some(left) => left,
        None => b"",
    }
}

/// A text cut at its first line that is the separator, apart from blanks at its ends: the part before that line, and the part after it.
/// Without such a line the first part is the whole text, and there is no second part.
fn split_at_line<'a>(text: &'a [u8], separator: &[u8]) -> (&'a [u8], Option<&'a [u8]>)
    ensures before { result.0.now ≡ spec.text_before separator.now text.now }
    ensures after { option_map (λ text. text.now) result.1 ≡ spec.text_after separator.now text.now }
{
    let mut start: usize = 0;
    let mut rest = Some(text);
    while let Some(left) = rest {
        let (part, after) = first_part(left);
        if is_separator(separator, part) {
            return (&text[..start], Some(or_empty(after)));
        }
        start = text.len() - or_empty(after).len();
        rest = after;
    }
    (text, None)
}

/// Runs the script of a joined text on its dialplan, with its second dialplan, and writes the trace as it goes, as [`run_script`] does. The
/// script is the part after the first line `;; script`. The second dialplan is in the part before it, after the first line `;; reload`.
pub fn run_joined<W: WriteTold>(alloc: Global, text: &[u8], writer: &mut W) -> Result<u8, PbxFault>
    ensures writes { Writes (W.contents writer.old) (W.contents writer.new) (spec.joined_run text.now) result }
    ensures told { W.has_failed writer.new ≡ (W.has_failed writer.old || is_write_failed result) }
{
    let (plans, script) = split_at_line(text, b";; script");
    let (plan, second_plan) = split_at_line(plans, b";; reload");
    let texts = RunTexts {
        plan,
        queues: None,
        second_plan,
        script: or_empty(script),
    };
    run_script(alloc, texts, writer)
}
