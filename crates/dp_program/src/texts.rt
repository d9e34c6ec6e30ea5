//! The texts of named files.
ghost use Rattle.std.specs.Prelude.{◌≡◌, ◌++◌, ◌∷◌, ℕ, List, [], IfErr, IfOk, OnOk, map, true, unwrap_or};
ghost use Rattle.std.specs.Option.{option_map};
ghost use Rattle.dp_conf.specs.Answers.{Answers};
ghost use Rattle.dp_commands.specs.declared.fault.PbxFault.TheVariants.{NoMemory};
ghost use Rattle.dp_program.specs.Faulted.{unread_path, unread_place, unread_reason};
ghost use Rattle.dp_program.specs.Files.{Reads, is_read_fault};
ghost use Rattle.dp_program.specs.TestTexts as tests;
ghost use Rattle.dp_program.specs.Texts as spec;

use crate::fault_places::Unread;
use crate::files::ReadFiles;
use crate::request::RunFiles;
use dp_commands::{PbxFault, RunTexts};
use std::alloc::Global;

/// The text of a file, with its path.
#[derive(Drop)]
pub(crate) struct TextWithPath<'a> {
    pub(crate) path: &'a str,
    pub(crate) text: Vec<u8>,
}

/// The texts of a run's files: its dialplan, its queues and second dialplan if they are named, and its script.
#[derive(Drop)]
pub(crate) struct Texts {
    pub(crate) plan: Vec<u8>,
    pub(crate) queues: Option<Vec<u8>>,
    pub(crate) second_plan: Option<Vec<u8>>,
    pub(crate) script: Vec<u8>,
}

impl Texts {
    ghost use Rattle.std.specs.Prelude.{◌≡◌};
    ghost use Rattle.dp_commands.specs.Run.{run_of_texts};
    ghost use Rattle.dp_program.specs.Serves as serves;
    ghost use Rattle.dp_program.specs.Texts.{texts_of};
    ghost use Rattle.dp_unmodelled.specs.Report.{unmodelled_in};
    ghost use Rattle.dp_wide_runs.specs.Runs as wide;

    /// The texts as the run takes them.
    pub(crate) fn lend(&self) -> RunTexts<'_>
        ensures run { run_of_texts result ≡ serves.run_of_texts (texts_of self.now) }
        ensures wide { wide.run_of_texts result ≡ serves.wide_run_of_texts (texts_of self.now) }
        ensures unmodelled { unmodelled_in result ≡ serves.unmodelled_of_texts (texts_of self.now) }
        ensures plan { result.plan.now ≡ (texts_of self.now).plan }
    {
        RunTexts {
            plan: &self.plan,
            queues: self.queues.as_deref(),
            second_plan: self.second_plan.as_deref(),
            script: &self.script,
        }
    }
}

/// All bytes of the file at a path.
pub(crate) fn read_text<'a, F: ReadFiles>(
    files: &F,
    alloc: Global,
    path: &'a str,
) -> Result<Vec<u8>, Unread<'a>>
    ensures read { Reads (F.source_at files.now path.now)
        (λ text. Answers (λ read. read.items) unread_reason result text) }
    ensures path { IfErr result (λ unread. unread.path.now ≡ path.now) }
    ensures fault { IfErr result (λ unread. is_read_fault unread.fault ≡ true) }
{
    match files.read_file(alloc, path) {
        Ok(text) => Ok(text),
        Err(fault) => Err(Unread { path, fault }),
    }
}

/// All bytes of a file, if one is named.
pub(crate) fn read_named<'a, F: ReadFiles>(
    files: &F,
    alloc: Global,
    path: Option<&'a str>,
) -> Result<Option<Vec<u8>>, Unread<'a>>
    ensures read { spec.ReadsSome (option_map (F.source_at files.now) (option_map (λ path. path.now) path.entry))
        (λ text. Answers (λ read. option_map (λ text. text.items) read) unread_reason result (spec.some_text text)) }
    ensures path { IfErr result (λ unread. unread.path.now ≡ unwrap_or (option_map (λ path. path.now) path.entry) []) }
    ensures fault { IfErr result (λ unread. is_read_fault unread.fault ≡ true) }
{
    let Some(path) = path else {
        return Ok(None);
    };
    let text = read_text(files, alloc, path)?;
    Ok(Some(text))
}

/// The texts of a run's files: the dialplan is read first, then the queues, then the second dialplan, then the script, until one has a
/// fault.
pub(crate) fn read_texts<'a, F: ReadFiles>(
    files: &F,
    alloc: Global,
    run: &RunFiles<'a>,
) -> Result<Texts, Unread<'a>>
    ensures read { spec.ReadsTexts (spec.sources_of (F.source_at files.now) (spec.paths_of run.now))
        (λ read. Answers spec.texts_of unread_reason result (spec.all_texts read)
        × IfErr result (λ unread. unread_place unread.path.now unread.fault
        ≡ unread_place (unread_path (spec.paths_of run.now) read) unread.fault)) }
    ensures fault { IfErr result (λ unread. is_read_fault unread.fault ≡ true) }
{
    let plan = read_text(files, alloc, run.plan)?;
    let queues = read_named(files, alloc, run.queues)?;
    let second_plan = read_named(files, alloc, run.second_plan)?;
    let script = read_text(files, alloc, run.script)?;
    Ok(Texts {
        plan,
        queues,
        second_plan,
        script,
    })
}

/// Adds the text of a file.
fn push_text<'a>(
    texts: &mut Vec<TextWithPath<'a>>,
    path: &'a str,
    text: Vec<u8>,
) -> Result<(), Unread<'a>>
    ensures ok { OnOk result (map tests.text_in texts.new.items ≡ map tests.text_in texts.old.items ++ tests.text_at path.now text.items ∷ []) }
    ensures err { IfErr result (λ unread. unread.path.now ≡ path.now) }
    ensures memory { IfErr result (λ unread. unread.fault ≡ NoMemory) }
{
    match texts.push(TextWithPath { path, text }) {
        Ok(()) => Ok(()),
        Err(refused) => Err(Unread {
            path,
            fault: PbxFault::from(refused),
        }),
    }
}

/// Reads the file at a path, and adds its text.
fn add_text<'a, F: ReadFiles>(
    files: &F,
    alloc: Global,
    texts: &mut Vec<TextWithPath<'a>>,
    path: &'a str,
) -> Result<(), Unread<'a>>
    ensures ok { OnOk result ((text : tests.TestText) × tests.Gives (F.source_at files.now) path.now text
        × (map tests.text_in texts.new.items ≡ map tests.text_in texts.old.items ++ text ∷ [])) }
    ensures err { IfErr result (λ unread. tests.Fails (F.source_at files.now) path.now unread) }
    ensures fault { IfErr result (λ unread. is_read_fault unread.fault ≡ true) }
{
    let text = read_text(files, alloc, path)?;
    push_text(texts, path, text)
}

/// The texts of the files at these paths, which are read in this order until one has a fault.
pub(crate) fn read_all<'a, F: ReadFiles>(
    files: &F,
    alloc: Global,
    paths: &[&'a str],
) -> Result<Vec<TextWithPath<'a>>, Unread<'a>>
    ensures ok { IfOk result (λ texts. tests.GiveAll (F.source_at files.now) (map (λ path. path.now) paths.now) (map tests.text_in texts.items)) }
    ensures err { IfErr result (λ unread. tests.FailsAmong (F.source_at files.now) (map (λ path. path.now) paths.now) unread) }
    ensures fault { IfErr result (λ unread. is_read_fault unread.fault ≡ true) }
{
    let mut texts = Vec::new(alloc);
    for path in paths {
        add_text(files, alloc, &mut texts, *path)?;
    }
    Ok(texts)
}
