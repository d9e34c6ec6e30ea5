//! A dialplan that is read from files, with the notices on their lines.
ghost use Rattle.std.specs.Prelude.{◌≡◌, IfOk, OnOk, ◌++◌, map};
ghost use Rattle.dp_conf.specs.Answers.{Answers};
ghost use Rattle.dp_files.specs.Reading.{first_fault};
ghost use Rattle.dp_files.specs.Dialplan.{dialplan_now};
ghost use Rattle.dp_files.specs.FolderFiles.{MayTell, ReadsFolder};
ghost use Rattle.dp_files.specs.Sources.{Files, Telling};
ghost use Rattle.dp_notices.specs.PlanFiles as spec;

use crate::line_notices::{NotedLine, NoticeAt, count_faults, noted_lines};
use crate::loading::{LoadedLines, PlanCounts};
use crate::notice::Notice;
use crate::preparation::load_prepared;
use dp_conf::NoMemory;
use dp_files::{
    DialplanFiles, LineRemark, MadeLine, MadeText, Paths, ReadingFault, Source, SourceFile,
    read_dialplan, read_folder_dialplan, text_of,
};
use dp_wide::Moment;
use std::alloc::Global;

/// A dialplan that is read from files.
#[derive(Drop)]
pub struct PlanFiles {
    /// The files in the order in which they were opened.
    pub files: Vec<SourceFile>,
    /// The lines of all files, each with its notices, in the order in which they were read.
    pub lines: Vec<NotedLine>,
    /// The lines of the text that loads. A line with a fault is empty. The lines that end macros come last.
    pub made: Vec<MadeLine>,
    /// The counts of the dialplan that this text loads as.
    pub counts: PlanCounts,
}

impl PlanFiles {
    ghost use Rattle.std.specs.Prelude.{◌≡◌, IfOk};
    ghost use Rattle.dp_files.specs.DialplanText.{text_of};
    ghost use Rattle.dp_notices.specs.Checks.{faults_of};
    ghost use Rattle.dp_notices.specs.PlanFiles.{plan_now};

    /// How many faults its lines have.
    pub fn count_faults(&self) -> u128
        ensures { result ≡ faults_of (plan_now self.now) }
    {
        count_faults(&self.lines)
    }

    /// The text that loads. The error comes only if a growth was refused.
    pub fn text(&self, alloc: Global) -> Result<Vec<u8>, NoMemory>
        ensures { IfOk result (λ text. text.items ≡ text_of (plan_now self.now).made) }
    {
        text_of(alloc, &self.made)
    }
}

/// Adds the notices of remarks of the file reader.
pub(crate) fn push_remarks(
    notices: &mut Vec<NoticeAt>,
    remarks: &[LineRemark],
) -> Result<(), NoMemory>
    ensures { OnOk result (notices.new.items ≡ notices.old.items ++ map spec.reading_notice remarks.now) }
{
    for remark in remarks {
        notices.push(NoticeAt {
            source: remark.source,
            notice: Notice::of_reading(remark.kind),
        })?;
    }
    Ok(())
}

/// All notices: first those of the file reader, and then those of the loader.
fn all_notices(
    alloc: Global,
    remarks: &[LineRemark],
    loaded: &[NoticeAt],
) -> Result<Vec<NoticeAt>, NoMemory>
    ensures { IfOk result (λ notices. notices.items ≡ map spec.reading_notice remarks.now ++ loaded.now) }
{
    let mut notices = Vec::new(alloc);
    push_remarks(&mut notices, remarks)?;
    notices.extend_from_slice(loaded)?;
    Ok(notices)
}

/// Loads the dialplan of files that were read, at a moment if one is given.
fn load_files(
    alloc: Global,
    clock: Option<Moment>,
    read: DialplanFiles,
) -> Result<PlanFiles, NoMemory>
    ensures { IfOk result (λ plan. spec.plan_now plan ≡ spec.plan_by clock (dialplan_now read)) }
{
    let DialplanFiles { files, lines, made } = read;
    let MadeText {
        lines: made,
        remarks,
    } = made;
    let LoadedLines {
        lines: made,
        notices,
        counts,
    } = load_prepared(alloc, clock, made)?;
    let notices = all_notices(alloc, &remarks, &notices)?;
    let lines = noted_lines(alloc, lines, &notices)?;
    Ok(PlanFiles {
        files,
        lines,
        made,
        counts,
    })
}

/// Reads a dialplan from the file with a name and from the files that it includes, and loads it without the lines that have a fault.
///
/// The name of an extension or of an include may have groups. It is expanded by the global variables of the text, without a channel. The
/// line has the fault `LeftOut Variable` if something in the name, or in the value of any of these variables, is unknown. It has the same
/// fault if the expanded name has a comma, a line feed, or a blank at an end, since no line can say such a name. An extension whose expanded
/// name has a `/` is left out with the note `CallerId`. The lines `same` of an extension that is left out are left out with it.
///
/// An include with times is read as an include at all times if the moment lies in them, by the rule of `GotoIfTime`. At other moments it is
/// read as an empty line. Without a moment it is the fault `NoClock`.
///
/// In a context `macro-NAME`, an entry `MacroExit()` is added after each entry after which a step would find nothing. A macro of Asterisk
/// ends there, as its documentation's page on `Macro` says. The lines of these entries are added after all other lines. Two rules are
/// choices of this program. After an entry of a pattern, a step finds nothing if the context has no such priority of the same pattern. And
/// an entry that is itself `MacroExit`, or that has the greatest priority, needs no other entry after it.
///
/// [`read_dialplan`] says how files are read. In the text that it makes, each line that the loader refuses has a notice and is read as if
/// it were empty. The lines that `read_dialplan` itself leaves out are read in the same way. A notice is at the line of a file from which
/// the line is made. It is there once, however often a template copies the line. The notices on one line have this order: those of the file
/// reader, the faults of the loader, the notes of the loader.
///
/// The fault is `NotFound` if the first file is not there, `TooLong` if it has more than 16,777,216 bytes, or out-of-memory.
pub fn read_plan<S: Source>(
    alloc: Global,
    source: &mut S,
    name: &[u8],
    clock: Option<Moment>,
) -> Result<PlanFiles, ReadingFault>
    ensures read { (has : Files) → S.agrees source.new has
        → Answers spec.plan_now first_fault result (spec.plan_of clock has name.now) }
    ensures kept { (has : Files) → S.agrees source.new has → S.agrees source.old has }
    ensures same { (told : Telling) → S.may_tell source.new told → S.may_tell source.old told }
{
    let read = read_dialplan(alloc, source, name)?;
    let plan = load_files(alloc, clock, read)?;
    Ok(plan)
}

/// Reads a dialplan from the file at a path and from the files that it includes, as [`read_plan`] does with
/// [`FolderFiles`](dp_files::FolderFiles). The included files are looked for in the folder of the first file.
pub fn read_folder_plan<P: Paths>(
    alloc: Global,
    paths: &P,
    first: &str,
    clock: Option<Moment>,
) -> Result<PlanFiles, ReadingFault>
    ensures { ReadsFolder (MayTell (P.may_be paths.now) (P.may_list paths.now) first.now)
        (λ has. Answers spec.plan_now first_fault result (spec.plan_of clock has first.now)) }
{
    let read = read_folder_dialplan(alloc, paths, first)?;
    let plan = load_files(alloc, clock, read)?;
    Ok(plan)
}
