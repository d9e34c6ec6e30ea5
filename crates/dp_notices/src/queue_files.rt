//! A file of queues that is read with the files that it includes, with the notices on their lines.
ghost use Rattle.std.specs.Prelude.{◌≡◌, ◌++◌, IfOk, OnOk, map};
ghost use Rattle.std.specs.List.{flat_map};
ghost use Rattle.dp_conf.specs.Answers.{Answers};
ghost use Rattle.dp_files.specs.Configuration.{configuration_now};
ghost use Rattle.dp_files.specs.FolderFiles.{MayTell, ReadsFolder};
ghost use Rattle.dp_files.specs.Reading.{first_fault};
ghost use Rattle.dp_files.specs.Sources.{Files, Telling};
ghost use Rattle.dp_notices.specs.Loading.{notice_at_source};
ghost use Rattle.dp_notices.specs.PlanFiles.{reading_notice};
ghost use Rattle.dp_notices.specs.QueueFiles as spec;

use crate::line_notices::{NotedLine, NoticeAt, count_faults, noted_lines};
use crate::loading::{NumberedNotice, empty_lines, push_notices};
use crate::notice::{Notice, NoticeFault};
use crate::plan_files::push_remarks;
use crate::queue_lines::{QueueLines, read_queue_lines};
use dp_conf::NoMemory;
use dp_files::{
    ConfigurationFiles, Fault, LineRemark, MadeLine, Paths, ReadingFault, Source, SourceFile,
    read_configuration, read_folder_configuration, text_of,
};
use dp_queue::{QueueFault, QueueLoadKind, Queues, queue_faults};
use std::alloc::Global;

/// A file of queues, read with the files that it includes.
#[derive(Drop)]
pub struct QueueFiles {
    /// The files in the order in which they were opened.
    pub files: Vec<SourceFile>,
    /// The lines of all files, each with its notices, in the order in which they were read.
    pub lines: Vec<NotedLine>,
    /// The lines of the text that loads. A line with a fault is empty.
    pub made: Vec<MadeLine>,
}

impl QueueFiles {
    ghost use Rattle.std.specs.Prelude.{◌≡◌, IfOk};
    ghost use Rattle.dp_files.specs.DialplanText.{text_of};
    ghost use Rattle.dp_notices.specs.QueueFiles as spec;

    /// How many faults its lines have.
    pub fn count_faults(&self) -> u128
        ensures { result ≡ spec.queue_faults (spec.queues_now self.now) }
    {
        count_faults(&self.lines)
    }

    /// How many queues load. The error comes only if a growth was refused.
    #[tactic(auto, unfolding(crate::specs::QueueFiles::queue_count))]
    pub fn count_queues(&self, alloc: Global) -> Result<usize, NoMemory>
        ensures { IfOk result (λ count. count ≡ spec.queue_count (spec.queues_now self.now)) }
    {
        let text = self.text(alloc)?;
        match Queues::load(alloc, &text) {
            Ok(queues) => Ok(queues.queues().len()),
            Err(QueueFault::Line { .. }) => Ok(0),
            Err(QueueFault::NoMemory) => Err(NoMemory),
        }
    }

    /// The text that loads. The error comes only if a growth was refused.
    pub fn text(&self, alloc: Global) -> Result<Vec<u8>, NoMemory>
        ensures { IfOk result (λ text. text.items ≡ text_of (spec.queues_now self.now).made) }
    {
        text_of(alloc, &self.made)
    }
}

/// Why a line that the loader refuses is left out.
fn line_fault(kind: QueueLoadKind) -> NoticeFault
    ensures { result ≡ spec.queue_line_fault kind }
{
    match kind {
        QueueLoadKind::Conf(kind) => NoticeFault::Reading(Fault::Line(kind)),
        QueueLoadKind::Queue(kind) => NoticeFault::Queue(kind),
    }
}

/// The notice of a fault, if the fault is at a line.
fn fault_notice(fault: QueueFault) -> Option<NumberedNotice>
    ensures { result ≡ spec.queue_fault_notice fault }
{
    match fault {
        QueueFault::Line { line, kind } => Some(NumberedNotice {
            line,
            notice: Notice::Fault(line_fault(kind)),
        }),
        QueueFault::NoMemory => None,
    }
}

/// Adds the notice of a fault, if the fault is at a line.
fn push_fault(faults: &mut Vec<NumberedNotice>, fault: QueueFault) -> Result<(), NoMemory>
    ensures { OnOk result (faults.new.items ≡ faults.old.items ++ spec.queue_fault_notices fault) }
{
    match fault_notice(fault) {
        Some(notice) => {
            faults.push(notice)?;
            Ok(())
        }
        None => Ok(()),
    }
}

/// The notices of faults.
fn notices_of_faults(alloc: Global, faults: &[QueueFault]) -> Result<Vec<NumberedNotice>, NoMemory>
    ensures { IfOk result (λ notices. notices.items ≡ flat_map spec.queue_fault_notices faults.now) }
{
    let mut notices = Vec::new(alloc);
    for fault in faults {
        push_fault(&mut notices, *fault)?;
    }
    Ok(notices)
}

/// The notices of a fault of the text itself.
fn notices_of_text_fault(alloc: Global, fault: QueueFault) -> Result<Vec<NumberedNotice>, NoMemory>
    ensures { IfOk result (λ notices. notices.items ≡ spec.queue_fault_notices fault) }
{
    let mut notices = Vec::new(alloc);
    push_fault(&mut notices, fault)?;
    Ok(notices)
}

/// The notices of the faults of a text, given its lines: the faults of its lines, or the fault of the text itself.
#[tactic(auto, unfolding(crate::specs::QueueFiles::queue_faults_of))]
fn faults_of_lines(alloc: Global, lines: &[MadeLine]) -> Result<Vec<NumberedNotice>, NoMemory>
    ensures { IfOk result (λ notices. notices.items ≡ spec.queue_faults_of lines.now) }
{
    let text = text_of(alloc, lines)?;
    match queue_faults(alloc, &text) {
        Ok(faults) => notices_of_faults(alloc, &faults),
        Err(QueueFault::NoMemory) => Err(NoMemory),
        Err(fault) => notices_of_text_fault(alloc, fault),
    }
}

/// All notices: first those of the file reader, then the faults, and then the notes.
fn all_notices(
    alloc: Global,
    remarks: &[LineRemark],
    made: &[MadeLine],
    faults: &[NumberedNotice],
    notes: &[NoticeAt],
) -> Result<Vec<NoticeAt>, NoMemory>
    ensures { IfOk result (λ notices. notices.items ≡ map reading_notice remarks.now
        ++ (flat_map (notice_at_source made.now) faults.now ++ notes.now)) }
{
    let mut notices = Vec::new(alloc);
    push_remarks(&mut notices, remarks)?;
    push_notices(&mut notices, made, faults)?;
    notices.extend_from_slice(notes)?;
    Ok(notices)
}

/// Loads the queues of files that were read, given the lines with the words that the reader of queues knows.
fn load_lines(
    alloc: Global,
    read: ConfigurationFiles,
    lines: QueueLines,
) -> Result<QueueFiles, NoMemory>
    ensures { IfOk result (λ queues. spec.queues_now queues
        ≡ spec.queues_by (configuration_now read) lines.lines.items lines.notices.items) }
{
    let ConfigurationFiles {
        files,
        lines: read,
        made: _,
        remarks,
    } = read;
    let QueueLines {
        lines: mut made,
        notices: notes,
    } = lines;
    let faults = faults_of_lines(alloc, &made)?;
    let notices = all_notices(alloc, &remarks, &made, &faults, &notes)?;
    let lines = noted_lines(alloc, read, &notices)?;
    empty_lines(alloc, &mut made, &faults)?;
    Ok(QueueFiles { files, lines, made })
}

/// Loads the queues of files that were read.
fn load_files(alloc: Global, mut read: ConfigurationFiles) -> Result<QueueFiles, NoMemory>
    ensures { IfOk result (λ queues. spec.queues_now queues ≡ spec.queues_in (configuration_now read)) }
{
    let made = std::mem::replace(&mut read.made, Vec::new(alloc));
    let lines = read_queue_lines(alloc, made)?;
    load_lines(alloc, read, lines)
}

/// Reads a file of queues with a name and the files that it includes, and loads it without the lines that have a fault.
///
/// [`read_configuration`] says how files and sections are read: with `#include`, with block comments and with templates. In the text that it
/// makes, these values are read as others. The strategy `rrordered` is `rrmemory`. The strategies `random` and `wrandom` are `ringall`, with
/// the note `Random`. A list of words for `joinempty` or `leavewhenempty` is parted by commas. The words are `paused`, `penalty`, `inuse`,
/// `ringing`, `unavailable`, `invalid`, `unknown` and `wrapup`, in any case. With `paused` it is `no` for `joinempty` and `yes` for
/// `leavewhenempty`, and without it `loose` for both. With `inuse` it has the note `InUse`, since an agent that talks counts as a member
/// here.
///
/// Each line that the reader of queues then refuses has a notice and is read as if it were empty. A notice is there once, however often a
/// template copies the line. The notices on one line have this order: those of the file reader, the faults, the notes.
///
/// The fault is `NotFound` if the first file is not there, `TooLong` if it has more than 16,777,216 bytes, or out-of-memory.
pub fn read_queues<S: Source>(
    alloc: Global,
    source: &mut S,
    name: &[u8],
) -> Result<QueueFiles, ReadingFault>
    ensures read { (has : Files) → S.agrees source.new has
        → Answers spec.queues_now first_fault result (spec.queues_of has name.now) }
    ensures kept { (has : Files) → S.agrees source.new has → S.agrees source.old has }
    ensures same { (told : Telling) → S.may_tell source.new told → S.may_tell source.old told }
{
    let read = read_configuration(alloc, source, name)?;
    let queues = load_files(alloc, read)?;
    Ok(queues)
}

/// Reads the file of queues at a path and the files that it includes, as [`read_queues`] does with
/// [`FolderFiles`](dp_files::FolderFiles). The included files are looked for in the folder of the first file.
pub fn read_folder_queues<P: Paths>(
    alloc: Global,
    paths: &P,
    first: &str,
) -> Result<QueueFiles, ReadingFault>
    ensures { ReadsFolder (MayTell (P.may_be paths.now) (P.may_list paths.now) first.now)
        (λ has. Answers spec.queues_now first_fault result (spec.queues_of has first.now)) }
{
    let read = read_folder_configuration(alloc, paths, first)?;
    let queues = load_files(alloc, read)?;
    Ok(queues)
}
