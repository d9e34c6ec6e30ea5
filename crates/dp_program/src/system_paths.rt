//! The files of a system, for the reader of a dialplan with its included files.
ghost use Rattle.std.specs.Prelude.{IfOk};
ghost use Rattle.dp_files.specs.FolderFiles.{MayRead};
ghost use Rattle.dp_files.specs.Sources.{text_now};
ghost use Rattle.dp_program.specs.Files.{ByteSource};
ghost use Rattle.dp_program.specs.Including.{AreBytes, MayHold};

use crate::files::ReadFiles;
use dp_commands::{Code, PbxFault};
use dp_conf::MOST_BYTES;
use dp_files::{FileText, Paths};
use dp_plan::{NoMemory, Text};
use std::alloc::Global;

/// Files that are read whole, by their paths.
#[derive(Clone, Copy)]
pub(crate) struct SystemPaths<'a, F: ReadFiles> {
    pub(crate) files: &'a F,
}

/// The bytes of a file, if it has no more than allowed.
fn text_of(bytes: Vec<u8>) -> FileText
    ensures { (source : ByteSource) → AreBytes source.bytes bytes.items → MayRead (MayHold source) (text_now result) }
{
    if bytes.len() > MOST_BYTES {
        return FileText::TooLong;
    }
    FileText::Bytes(bytes)
}

/// The result of reading the file at a path.
fn read_text<F: ReadFiles>(files: &F, alloc: Global, path: &str) -> Result<FileText, NoMemory>
    ensures { IfOk result (λ text. MayRead (MayHold (F.source_at files.now path.now)) (text_now text)) }
{
    match files.read_file(alloc, path) {
        Ok(bytes) => Ok(text_of(bytes)),
        Err(PbxFault::NoMemory) => Err(NoMemory),
        Err(
            PbxFault::Coded {
                code: Code::TooLong,
                line: _,
            },
        ) => Ok(FileText::TooLong),
        Err(PbxFault::Coded { code: _, line: _ }) => Ok(FileText::Absent),
    }
}

impl<'a, F: ReadFiles> Paths for SystemPaths<'a, F> {
    ghost use Rattle.dp_program.specs.Including.{MayHold};

    ghost may_be = { λ paths path text. MayHold (F.source_at paths.files.now path) text };

    // No contract knows what a folder contains.
    ghost may_list = { λ _ _ _. Unit {0} };

    fn read_path(&self, alloc: Global, path: &str) -> Result<FileText, NoMemory> {
        let text = read_text(self.files, alloc, path)?;
        Ok(text)
    }

    fn list_path(&self, alloc: Global, path: &str) -> Result<Vec<Text>, NoMemory> {
        let names = self.files.list_folder(alloc, path)?;
        Ok(names)
    }
}
