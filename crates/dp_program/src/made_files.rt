//! Files of a system, one of which has a generated text.
ghost use Rattle.std.specs.Prelude.{◌≡◌, IfErr, Some, true, false};
ghost use Rattle.dp_conf.specs.Answers.{Answers};
ghost use Rattle.dp_conf.specs.Words.{same_text};
ghost use Rattle.dp_commands.specs.Faults.{reason_of};
ghost use Rattle.dp_program.specs.Files.{Reads, is_read_fault, source, whole_text};

use crate::files::ReadFiles;
use dp_commands::{Code, PbxFault};
use dp_conf::MOST_BYTES;
use dp_plan::{NoMemory, Text};
use std::alloc::Global;

/// Files of which the one at a path has a generated text: the dialplan that was read from it and from the files that it includes.
#[derive(Clone, Copy)]
pub(crate) struct MadeFiles<'a, F: ReadFiles> {
    pub(crate) files: &'a F,
    pub(crate) path: &'a str,
    pub(crate) text: &'a [u8],
}

/// Whether two paths are the same.
fn is_same_path(path: &str, other: &str) -> bool
    ensures { result ≡ same_text path.now other.now }
{
    path.as_bytes() == other.as_bytes()
}

/// The bytes of a text, if it has no more than a file may have.
fn read_made(alloc: Global, text: &[u8]) -> Result<Vec<u8>, PbxFault>
    ensures read { Answers (λ read. read.items) reason_of result (whole_text text.now) }
    ensures fault { IfErr result (λ fault. is_read_fault fault ≡ true) }
{
    if text.len() > MOST_BYTES {
        return Err(PbxFault::Coded {
            code: Code::TooLong,
            line: None,
        });
    }
    let bytes = Vec::from_slice(alloc, text)?;
    Ok(bytes)
}

/// The same, as the result of reading a file with this text.
#[tactic(auto, using(crate::proofs::DialplanLemmas::reads_made))]
fn read_made_file(alloc: Global, text: &[u8]) -> Result<Vec<u8>, PbxFault>
    ensures read { Reads (source (Some text.now) false) (λ given. Answers (λ read. read.items) reason_of result given) }
    ensures fault { IfErr result (λ fault. is_read_fault fault ≡ true) }
{
    read_made(alloc, text)
}

impl<'a, F: ReadFiles> ReadFiles for MadeFiles<'a, F> {
    ghost use Rattle.dp_program.specs.Dialplans.{with_text};

    ghost source_at = { λ made. with_text (F.source_at made.files.now) made.path.now made.text.now };

    fn read_file(&self, alloc: Global, path: &str) -> Result<Vec<u8>, PbxFault> {
        if is_same_path(path, self.path) {
            return read_made_file(alloc, self.text);
        }
        self.files.read_file(alloc, path)
    }

    fn list_folder(&self, alloc: Global, path: &str) -> Result<Vec<Text>, NoMemory> {
        self.files.list_folder(alloc, path)
    }
}
