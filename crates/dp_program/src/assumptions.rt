//! What a script, the head of a test file or the word of `--assume` assumes of lines that are left out of a dialplan although calls may
//! depend on them.
ghost use Rattle.std.specs.Prelude.{◌≡◌, IfOk, ℕ, List, Result, map};
ghost use Rattle.std.specs.List.{flat_map, fold};
ghost use Rattle.dp_commands.specs.declared.fault.PbxFault.{PbxFault as Fault};
ghost use Rattle.dp_conf.specs.Lines.{parts_of};
ghost use Rattle.dp_notices.specs.Printing.{with_assumed};
ghost use Rattle.dp_program.specs.Requests.{options_of};
ghost use Rattle.dp_program.specs.ScriptAssumptions as spec;
ghost use Rattle.dp_program.specs.Files.{Reads};

use crate::dialplans::PlanUse;
use crate::files::ReadFiles;
use crate::options::Options;
use dp_commands::{PbxFault, words};
use dp_conf::same_word;
use dp_notices::Assumptions;
use dp_plan::NoMemory;
use dp_tests::{HeadLine, TestFile};
use std::alloc::Global;

/// What is assumed, given what was assumed before, if the lines that get the notes with these names have no effect either.
fn assume_names(assumed: Assumptions, names: &[&[u8]]) -> Assumptions
    ensures { result ≡ fold with_assumed assumed (map (λ name. name.now) names.now) }
{
    let mut assumed = assumed;
    for name in names {
        assumed = assumed.assume(name);
    }
    assumed
}

/// The same, given a line of a script: it names the notes if its first word is `assume`.
fn assume_line(alloc: Global, assumed: Assumptions, line: &[u8]) -> Result<Assumptions, NoMemory>
    ensures { IfOk result (λ after. after ≡ fold with_assumed assumed (spec.names_in line.now)) }
{
    let words = words(alloc, line)?;
    match words.as_slice() {
        [word, names @ ..] if *word == b"assume".as_slice() => Ok(assume_names(assumed, names)),
        _ => Ok(assumed),
    }
}

/// The lines of a text.
fn lines_of(alloc: Global, text: &[u8]) -> Result<Vec<&[u8]>, NoMemory>
    ensures { IfOk result (λ lines. map (λ line. line.now) lines.items ≡ parts_of text.now) }
{
    text.split(|byte| *byte == b'\n').collect(alloc)
}

/// What the lines of a script assume.
fn assume_lines(alloc: Global, lines: &[&[u8]]) -> Result<Assumptions, NoMemory>
    ensures { IfOk result (λ assumed. assumed ≡ spec.assumed_by (map (λ line. line.now) lines.now)) }
{
    let mut assumed = Assumptions::none();
    for line in lines {
        assumed = assume_line(alloc, assumed, line)?;
    }
    Ok(assumed)
}

/// What a script assumes.
#[tactic(auto, unfolding(crate::specs::ScriptAssumptions::script_assumptions))]
fn script_assumptions(alloc: Global, text: &[u8]) -> Result<Assumptions, NoMemory>
    ensures { IfOk result (λ assumed. assumed ≡ spec.script_assumptions text.now) }
{
    let lines = lines_of(alloc, text)?;
    let assumed = assume_lines(alloc, &lines)?;
    Ok(assumed)
}

/// What the script of a file assumes. A file that cannot be read assumes nothing.
pub(crate) fn file_assumptions<F: ReadFiles>(
    files: &F,
    alloc: Global,
    path: &str,
) -> Result<Assumptions, NoMemory>
    ensures { IfOk result (λ assumed. Reads (F.source_at files.now path.now)
        (λ (text : Result (List ℕ) Fault). assumed ≡ spec.text_assumptions text)) }
{
    match files.read_file(alloc, path) {
        Ok(text) => script_assumptions(alloc, &text),
        Err(PbxFault::NoMemory) => Err(NoMemory),
        Err(PbxFault::Coded { .. }) => Ok(Assumptions::none()),
    }
}

/// What the `assume` line in the head of a test file assumes.
fn assume_head(alloc: Global, head: &HeadLine) -> Result<Assumptions, NoMemory>
    ensures { IfOk result (λ assumed. assumed ≡ spec.head_assumptions head.now) }
{
    let names = words(alloc, head.text.bytes())?;
    Ok(assume_names(Assumptions::none(), &names))
}

/// What the head of a test file assumes.
pub(crate) fn test_assumptions(alloc: Global, file: &TestFile) -> Result<Assumptions, NoMemory>
    ensures { IfOk result (λ assumed. assumed ≡ spec.test_assumptions file.now) }
{
    match &file.assume {
        Some(head) => assume_head(alloc, head),
        None => Ok(Assumptions::none()),
    }
}

/// Whether one of the names in a word, which commas separate, is this name in any ASCII case.
fn has_name(word: &[u8], name: &[u8]) -> bool
    ensures { result ≡ spec.has_name word.now name.now }
{
    word.split(|byte| *byte == b',')
        .any(|part| same_word(part, name))
}

/// What the word of `--assume` assumes.
fn word_assumptions(word: &[u8]) -> Assumptions
    ensures { result ≡ spec.word_assumptions word.now }
{
    Assumptions {
        exec: has_name(word, b"Exec"),
        switch: has_name(word, b"Switch"),
        auto_fall_through: has_name(word, b"AutoFallThrough"),
        caller_id: has_name(word, b"CallerId"),
    }
}

/// What a dialplan is read for if an entry is looked up in it.
pub(crate) fn look_up_use(options: Options<'_>) -> PlanUse
    ensures { result ≡ spec.look_up_use (options_of options.entry) }
{
    match options.assumed {
        Some(word) => PlanUse::LookUp(word_assumptions(word.as_bytes())),
        None => PlanUse::LookUp(Assumptions::none()),
    }
}
