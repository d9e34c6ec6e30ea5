//! Queues that are read with the files that they include.
ghost use Rattle.std.specs.Prelude.{◌≡◌, IfErr, IfOk, Result, true};
ghost use Rattle.dp_conf.specs.Answers.{Answers};
ghost use Rattle.dp_files.specs.FolderFiles.{ReadsFolder};
ghost use Rattle.dp_files.specs.Reading.{first_fault};
ghost use Rattle.dp_files.specs.declared.reading.ReadingFault.{ReadingFault as Reading};
ghost use Rattle.dp_notices.specs.QueueFiles.{QueueFilesOf, queues_now, queues_of};
ghost use Rattle.dp_program.specs.Faulted.{unread_reason};
ghost use Rattle.dp_program.specs.Files.{is_read_fault};
ghost use Rattle.dp_program.specs.Including.{MayTellOf};
ghost use Rattle.dp_program.specs.QueueTexts as spec;

use crate::fault_places::Unread;
use crate::files::ReadFiles;
use crate::including::reading_fault;
use crate::system_paths::SystemPaths;
use dp_commands::PbxFault;
use dp_files::ReadingFault;
use dp_notices::{QueueFiles, Shown, print_queue_notices, read_folder_queues};
use dp_plan::NoMemory;
use std::alloc::Global;

/// The text of queues, if there are some, or the lines about what is wrong with them.
#[derive(Drop)]
pub(crate) enum ReadQueues {
    Given(Option<Vec<u8>>),
    Unread(Vec<u8>),
}

/// The queues that were read, or the lines of the notices on them.
pub(crate) fn queues_or_notices(alloc: Global, queues: &QueueFiles) -> Result<ReadQueues, NoMemory>
    ensures { IfOk result (λ read. spec.queues_now read ≡ spec.queues_or_notices (queues_now queues.now)) }
{
    let told = print_queue_notices(alloc, Shown::All, queues)?;
    if !told.is_empty() {
        return Ok(ReadQueues::Unread(told));
    }
    let text = queues.text(alloc)?;
    Ok(ReadQueues::Given(Some(text)))
}

/// The same, given the result of reading the queues at a path.
fn queues_in<'a>(
    alloc: Global,
    path: &'a str,
    read: Result<QueueFiles, ReadingFault>,
) -> Result<ReadQueues, Unread<'a>>
    ensures read { (queues : Result QueueFilesOf Reading) → Answers queues_now first_fault read queues
        → Answers spec.queues_now unread_reason result (spec.queues_read queues) }
    ensures path { IfErr result (λ unread. unread.path.now ≡ path.now) }
    ensures fault { IfErr result (λ unread. is_read_fault unread.fault ≡ true) }
{
    let queues = match read {
        Ok(queues) => queues,
        Err(fault) => {
            return Err(Unread {
                path,
                fault: reading_fault(fault),
            });
        }
    };
    match queues_or_notices(alloc, &queues) {
        Ok(read) => Ok(read),
        Err(refused) => Err(Unread {
            path,
            fault: PbxFault::from(refused),
        }),
    }
}

/// Reads the queues at a path with the files that they include. A notice on them says that the exchange may do something else, so that a run
/// does not begin.
pub(crate) fn read_queue_text<'a, F: ReadFiles>(
    files: &F,
    alloc: Global,
    path: &'a str,
) -> Result<ReadQueues, Unread<'a>>
    ensures read { ReadsFolder (MayTellOf (F.source_at files.now) path.now)
        (λ has. Answers spec.queues_now unread_reason result (spec.queues_read (queues_of has path.now))) }
    ensures path { IfErr result (λ unread. unread.path.now ≡ path.now) }
    ensures fault { IfErr result (λ unread. is_read_fault unread.fault ≡ true) }
{
    let paths = SystemPaths { files };
    let read = read_folder_queues(alloc, &paths, path);
    queues_in(alloc, path, read)
}
