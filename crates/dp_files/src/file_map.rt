//! Files in memory.
ghost use Rattle.std.specs.Prelude.{◌≡◌, ◌≤◌, IfOk, length};
ghost use Rattle.std.specs.Cmp.Lexicographic.{slice_cmp};
ghost use Rattle.std.specs.Option.{option_map};
ghost use Rattle.std.specs.Ordering.{is_lt, nat_cmp};
ghost use Rattle.dp_files.specs.FileMaps as spec;
ghost use Rattle.dp_files.specs.Sources as sources;

use crate::source::{FileText, Source};
use crate::wildcard::stands_for;
use dp_conf::{MOST_BYTES, NoMemory, Text};
use std::alloc::Global;
use std::cmp::Ordering;
use std::marker::Model;

/// A file with its name.
#[derive(Drop)]
pub struct NamedText {
    pub name: Text,
    pub text: Text,
}

/// Files in memory, such as those of an example or of a test. A contract sees them in the byte order of their names, each name once.
#[derive(Drop)]
pub struct FileMap {
    files: Vec<NamedText>,
}

impl Model for FileMap {
    ghost use Rattle.std.specs.Prelude.{List};
    ghost use Rattle.dp_files.specs.declared.file_map.NamedText.{NamedText};

    ghost Value = { List NamedText };

    ghost view = { λ map. map.files.items };
}

impl FileMap {
    ghost use Rattle.std.specs.Prelude.{◌≡◌, [], OnOk, OnErr};
    ghost use Rattle.dp_files.specs.FileMaps as spec;

    /// Without files. It never allocates.
    pub fn new(alloc: Global) -> Self
        ensures { result ≡ [] }
    {
        FileMap {
            files: Vec::new(alloc),
        }
    }

    /// Adds a file, or replaces one with the same name. If memory runs out nothing changes.
    #[tactic(auto, using(crate::proofs::FileMapsLemmas::file_at_its_place))]
    pub fn add(&mut self, file: NamedText) -> Result<(), NoMemory>
        ensures ok { OnOk result (self.new ≡ spec.with_file file self.old) }
        ensures err { OnErr result (self.new ≡ self.old) }
    {
        let place = place_of(&self.files, file.name.bytes());
        if begins_with_name(&self.files[place..], file.name.bytes()) {
            self.files[place] = file;
        } else {
            self.files.insert(place, file)?;
        }
        Ok(())
    }
}

/// Whether a name comes before another in byte order.
fn comes_before(name: &[u8], other: &[u8]) -> bool
    ensures { result ≡ is_lt (slice_cmp nat_cmp name.now other.now) }
{
    match name.cmp(other) {
        Ordering::Less => true,
        Ordering::Equal => false,
        Ordering::Greater => false,
    }
}

/// The number of files before the first one whose name does not come before this one.
fn place_of(files: &[NamedText], name: &[u8]) -> usize
    ensures place { result ≡ spec.place_in name.now files.now }
    ensures within { result ≤ length files.now }
{
    for (at, file) in files.iter().enumerate() {
        if !comes_before(file.name.bytes(), name) {
            return at;
        }
    }
    files.len()
}

/// Whether the first file has this name.
fn begins_with_name(files: &[NamedText], name: &[u8]) -> bool
    ensures { result ≡ spec.begins_with_name name.now files.now }
{
    match files.first() {
        None => false,
        Some(file) => file.name.bytes() == name,
    }
}

/// The text of the file with a name.
fn text_of<'a>(files: &'a [NamedText], name: &[u8]) -> Option<&'a [u8]>
    ensures { option_map (λ text. text.now) result ≡ spec.text_in files.now name.now }
{
    for file in files {
        if file.name.bytes() == name {
            return Some(file.text.bytes());
        }
    }
    None
}

/// A copy of a text, if it has at most `most` bytes, and at most 16,777,216.
pub(crate) fn copy_text(
    alloc: Global,
    text: Option<&[u8]>,
    most: usize,
) -> Result<FileText, NoMemory>
    ensures text { IfOk result (λ copy. sources.text_now copy ≡ sources.text_read most (option_map (λ text. text.now) text.entry)) }
    ensures within { IfOk result (λ copy. sources.length_read (sources.text_now copy) ≤ most) }
{
    let Some(text) = text else {
        return Ok(FileText::Absent);
    };
    if text.len() > most.min(MOST_BYTES) {
        return Ok(FileText::TooLong);
    }
    let bytes = Vec::from_slice(alloc, text)?;
    Ok(FileText::Bytes(bytes))
}

/// The names that match one with `*` and `?`.
fn names_of(alloc: Global, files: &[NamedText], pattern: &[u8]) -> Result<Vec<Text>, NoMemory>
    ensures { IfOk result (λ names. names.items ≡ spec.names_in files.now pattern.now) }
{
    let mut names = Vec::new(alloc);
    for file in files {
        if stands_for(pattern, file.name.bytes()) {
            let name = file.name.clone()?;
            names.push(name)?;
        }
    }
    Ok(names)
}

impl Source for FileMap {
    ghost use Rattle.std.specs.Prelude.{◌≡◌};
    ghost use Rattle.dp_files.specs.FileMaps.{files_in};
    ghost use Rattle.dp_files.specs.Sources.{Tells};

    ghost agrees = { λ map has. has ≡ files_in map };

    ghost may_tell = { λ map. Tells (files_in map) };

    fn read(&mut self, alloc: Global, name: &[u8], most: usize) -> Result<FileText, NoMemory> {
        let text = copy_text(alloc, text_of(&self.files, name), most)?;
        Ok(text)
    }

    fn names(&mut self, alloc: Global, pattern: &[u8]) -> Result<Vec<Text>, NoMemory> {
        let names = names_of(alloc, &self.files, pattern)?;
        Ok(names)
    }
}
