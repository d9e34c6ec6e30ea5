//! What is known of requested files and names.
ghost use Rattle.std.specs.Prelude.{◌≡◌, ◌≤◌, List, Option, ℕ, IfOk, Some};
ghost use Rattle.dp_files.specs.FolderFiles as spec;
ghost use Rattle.dp_files.specs.Sources.{length_read, text_now, text_read};

use crate::file_map::copy_text;
use crate::source::FileText;
use dp_conf::{NoMemory, Text};
use std::alloc::Global;
use std::marker::Model;

/// What is known of a requested file.
#[derive(Drop)]
pub enum KnownText {
    /// All its bytes.
    Bytes(Text),
    /// There is no such file, or it could not be read.
    Absent,
    /// It has more than 16,777,216 bytes.
    TooLong,
}

/// A list of names. A contract sees it as their list.
#[derive(Drop)]
pub struct NameList {
    names: Vec<Text>,
}

impl Model for NameList {
    ghost use Rattle.std.specs.Prelude.{ℕ, List};

    ghost Value = { List (List ℕ) };

    ghost view = { λ list. list.names.items };
}

impl NameList {
    ghost use Rattle.std.specs.Prelude.{◌≡◌, IfOk};

    /// The list of these names. It never allocates.
    pub(crate) fn new(names: Vec<Text>) -> Self
        ensures { result ≡ names.items }
    {
        NameList { names }
    }

    /// A copy of the names.
    pub(crate) fn copy(&self) -> Result<Vec<Text>, NoMemory>
        ensures { IfOk result (λ names. names.items ≡ self.now) }
    {
        let names = self.names.clone()?;
        Ok(names)
    }
}

/// What is known of a file after it was read.
pub(crate) fn known_text(text: FileText) -> KnownText
    ensures { result ≡ spec.known_of (text_now text) }
{
    match text {
        FileText::Bytes(bytes) => KnownText::Bytes(Text::new(bytes)),
        FileText::Absent => KnownText::Absent,
        FileText::TooLong => KnownText::TooLong,
    }
}

/// The result of reading a file of which this is known, if it may have this many bytes.
#[tactic(auto, using(crate::proofs::FolderFilesLemmas::long_for_any))]
pub(crate) fn read_known(
    alloc: Global,
    known: &KnownText,
    most: usize,
) -> Result<FileText, NoMemory>
    ensures text { IfOk result (λ text. (file : Option (List ℕ)) → spec.Fits known.now file → text_now text ≡ text_read most file) }
    ensures within { IfOk result (λ text. length_read (text_now text) ≤ most) }
{
    match known {
        KnownText::Bytes(bytes) => {
            let text = copy_text(alloc, Some(bytes.bytes()), most)?;
            Ok(text)
        }
        KnownText::Absent => Ok(FileText::Absent),
        KnownText::TooLong => Ok(FileText::TooLong),
    }
}
