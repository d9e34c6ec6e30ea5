//! Files, read whole.
ghost use Rattle.std.specs.Prelude.{◌≡◌, ◌||◌, List, ℕ, IfErr, None, true};
ghost use Rattle.std.specs.IoError.{error_kind};
ghost use Rattle.dp_conf.specs.Answers.{Answers};
ghost use Rattle.dp_commands.specs.Faults.{reason_of};
ghost use Rattle.dp_program.specs.Files.{Reads, ByteSource, has_read_failed, is_read_fault, opening_fault, source};

use dp_commands::{Code, PbxFault};
use dp_conf::{ReadTold, Told, read_whole};
use dp_plan::{NoMemory, Text};
use std::alloc::{AllocGlobal, Global};
use std::fs::DirEntry;
use std::io::Read;
use std::rt::Files;
use std::{fs, io};

/// Files that are read whole.
pub trait ReadFiles {
    // What is known of the file at a path.
    ghost source_at: { Self → List ℕ → ByteSource };

    /// All bytes of a file.
    fn read_file(&self, alloc: Global, path: &str) -> Result<Vec<u8>, PbxFault>
        ensures read { Reads (source_at self.now path.now)
            (λ text. Answers (λ read. read.items) reason_of result text) }
        ensures fault { IfErr result (λ fault. is_read_fault fault ≡ true) };

    /// The names of the entries of a folder, in any order; none if it cannot be read. No contract knows them. It fails only if memory runs
    /// out.
    fn list_folder(&self, alloc: Global, path: &str) -> Result<Vec<Text>, NoMemory>;
}

/// Why a file could not be opened.
fn opening_fault(error: &io::Error) -> PbxFault
    ensures kind { result ≡ opening_fault (error_kind error.now) }
    ensures fault { is_read_fault result ≡ true }
{
    match error.kind() {
        io::ErrorKind::OutOfMemory => PbxFault::NoMemory,
        _ => PbxFault::Coded {
            code: Code::ReadFailed,
            line: None,
        },
    }
}

/// All bytes of a reader.
pub(crate) fn read_source<R: ReadTold>(alloc: Global, reader: &mut R) -> Result<Vec<u8>, PbxFault>
    ensures read { Reads (source (R.remaining reader.old) (R.has_failed reader.new))
        (λ text. Answers (λ read. read.items) reason_of result text) }
    ensures told { R.has_failed reader.new ≡ (R.has_failed reader.old || has_read_failed result) }
    ensures fault { IfErr result (λ fault. is_read_fault fault ≡ true) }
{
    let bytes = read_whole(alloc, reader)?;
    Ok(bytes)
}

/// All bytes of an open file.
fn read_open<R: Read + Drop>(alloc: Global, file: R) -> Result<Vec<u8>, PbxFault>
    ensures read { Reads (source (R.remaining file) true) (λ text. Answers (λ read. read.items) reason_of result text) }
    ensures fault { IfErr result (λ fault. is_read_fault fault ≡ true) }
{
    read_source(alloc, &mut Told::new(file))
}

/// Adds the name of an entry of a folder. An entry that cannot be read, or whose name is not UTF-8, is skipped.
fn push_name<R: Files + Drop>(
    alloc: Global,
    names: &mut Vec<Text>,
    entry: io::Result<DirEntry<R>>,
) -> Result<(), NoMemory> {
    match entry {
        Ok(entry) => {
            names.push(Text::copy_of(alloc, entry.file_name().as_bytes())?)?;
            Ok(())
        }
        Err(error) if error.kind() == io::ErrorKind::OutOfMemory => Err(NoMemory),
        Err(_) => Ok(()),
    }
}

/// The names of the entries of a folder.
fn names_in<R: Files + AllocGlobal + Clone + Drop>(
    rt: &R,
    alloc: Global,
    path: &str,
) -> Result<Vec<Text>, NoMemory> {
    let mut names = Vec::new(alloc);
    match fs::read_dir(rt, path) {
        Ok(entries) => {
            for entry in entries {
                push_name(alloc, &mut names, entry)?;
            }
            Ok(names)
        }
        Err(error) if error.kind() == io::ErrorKind::OutOfMemory => Err(NoMemory),
        Err(_) => Ok(names),
    }
}

/// The files of the system. No contract knows what they contain, and each read of them may fail.
impl<R: Files + AllocGlobal + Clone + Drop> ReadFiles for R {
    ghost use Rattle.std.specs.Prelude.{None, true};
    ghost use Rattle.dp_program.specs.Files.{source};

    ghost source_at = { λ _ _. source None true };

    fn read_file(&self, alloc: Global, path: &str) -> Result<Vec<u8>, PbxFault> {
        match fs::open(self, path) {
            Ok(file) => read_open(alloc, file),
            Err(error) => Err(opening_fault(&error)),
        }
    }

    fn list_folder(&self, alloc: Global, path: &str) -> Result<Vec<Text>, NoMemory> {
        names_in(self, alloc, path)
    }
}
