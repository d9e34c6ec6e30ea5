//! Files below the folder of a first file, each read once.
ghost use Rattle.std.specs.Prelude.{◌≡◌, ◌||◌, IfOk, IsPermutation, IsSorted, MatchOption, true, false};
ghost use Rattle.std.specs.Cmp.Lexicographic.{slice_cmp};
ghost use Rattle.std.specs.Option.{option_map};
ghost use Rattle.std.specs.Ordering.{nat_cmp};
ghost use Rattle.std.specs.Str.{is_utf8};
ghost use Rattle.dp_conf.specs.Answers.{Answers};
ghost use Rattle.dp_conf.specs.Cut.{begins_with};
ghost use Rattle.dp_conf.specs.Words.{same_text};
ghost use Rattle.dp_files.specs.Configuration.{configuration_now, configuration_of};
ghost use Rattle.dp_files.specs.Dialplan.{dialplan_now, dialplan_of};
ghost use Rattle.dp_files.specs.FolderFiles as spec;
ghost use Rattle.dp_files.specs.Reading.{first_fault};
ghost use Rattle.dp_files.specs.Sources.{NamesOf, text_now};

use crate::configuration::{ConfigurationFiles, read_configuration};
use crate::dialplan::{DialplanFiles, read_dialplan};
use crate::known_text::{KnownText, NameList, known_text, read_known};
use crate::paths::Paths;
use crate::reading::ReadingFault;
use crate::source::{FileText, Source};
use crate::wildcard::stands_for;
use dp_conf::{NoMemory, Text, before_last};
use indexmap::IndexMap;
use std::alloc::Global;
use std::marker::Model;

/// The files below the folder of a first file, each read once from a system.
///
/// The name of the first file is its path, as it was given. Another name that begins with `/` is a path too, and any other is looked for in
/// the folder of the first file. A path that is not UTF-8 is not that of a file.
///
/// What was read for a name is kept, and so are the names that match one with `*` and `?`: files that change while they are read are seen
/// as they were when first requested.
///
/// A contract sees the system, the path of the first file, and what is known of the files.
#[derive(Drop)]
pub struct FolderFiles<'a, P: Paths> {
    paths: &'a P,
    first: &'a str,
    texts: IndexMap<Text, KnownText>,
    lists: IndexMap<Text, NameList>,
}

impl<'a, P: Paths> Model for FolderFiles<'a, P> {
    ghost use Rattle.std.specs.Prelude.{ℕ, List};
    ghost use Rattle.dp_files.specs.FolderFiles.{KnownFiles, MayKnow, MayTell};

    ghost Value = { P × List ℕ × KnownFiles };

    ghost view = { λ source. (source.paths.now, source.first.now, record { texts = source.texts.entries; lists = source.lists.entries }) };

    ghost invariant = { λ source. MayKnow (MayTell (P.may_be source.paths.now) (P.may_list source.paths.now) source.first.now)
        (record { texts = source.texts.entries; lists = source.lists.entries }) };
}

impl<'a, P: Paths> FolderFiles<'a, P> {
    ghost use Rattle.std.specs.Prelude.{◌≡◌};
    ghost use Rattle.dp_files.specs.FolderFiles as spec;

    /// The files below the folder of the file with this path. It reads nothing, and never allocates.
    pub fn new(alloc: Global, paths: &'a P, first: &'a str) -> Self
        ensures paths { result.0 ≡ paths.now }
        ensures first { result.1 ≡ first.now }
        ensures known { result.2 ≡ spec.nothing_known }
    {
        FolderFiles {
            paths,
            first,
            texts: IndexMap::new(alloc),
            lists: IndexMap::new(alloc),
        }
    }

    /// States that everything known is something that the system may give. It does nothing.
    pub fn show_known(&self)
        ensures { spec.MayKnow (spec.MayTell (P.may_be self.now.0) (P.may_list self.now.0) self.now.1) self.now.2 }
    {
        let _ = &self.texts;
    }
}

/// Whether a name is a path: that of the first file, or one that begins with `/`.
fn is_path(first: &[u8], name: &[u8]) -> bool
    ensures { result ≡ (same_text name.now first.now || begins_with 47 name.now) }
{
    name == first || name.starts_with(b"/")
}

/// A name in a folder, or the name itself without a folder.
fn beside(alloc: Global, folder: Option<&[u8]>, name: &[u8]) -> Result<Text, NoMemory>
    ensures { IfOk result (λ path. path ≡ spec.beside (option_map (λ folder. folder.now) folder.entry) name.now) }
{
    let Some(folder) = folder else {
        let path = Text::copy_of(alloc, name)?;
        return Ok(path);
    };
    let mut path = Vec::from_slice(alloc, folder)?;
    path.push(b'/')?;
    path.extend_from_slice(name)?;
    Ok(Text::new(path))
}

/// The path at which the file with a name is opened, given the path of the first file. It fails only if memory runs out.
pub fn path_of(alloc: Global, first: &[u8], name: &[u8]) -> Result<Text, NoMemory>
    ensures { IfOk result (λ path. path ≡ spec.path_of first.now name.now) }
{
    if is_path(first, name) {
        let path = Text::copy_of(alloc, name)?;
        return Ok(path);
    }
    beside(alloc, before_last(first, b'/'), name)
}

/// The path, if it is UTF-8; files with other paths are not read.
pub fn text_path(path: &[u8]) -> Option<&str>
    ensures { MatchOption result (is_utf8 path.now ≡ false) (λ text. (is_utf8 path.now ≡ true) × (text.now ≡ path.now)) }
{
    match std::str::from_utf8(path) {
        Ok(text) => Some(text),
        Err(_) => None,
    }
}

/// The file with a path, if the path is a text.
fn read_at<P: Paths>(alloc: Global, paths: &P, path: &[u8]) -> Result<FileText, NoMemory>
    ensures { IfOk result (λ text. spec.MayRead (spec.MayBe (P.may_be paths.now) path.now) (text_now text)) }
{
    match text_path(path) {
        None => Ok(FileText::Absent),
        Some(path) => {
            let text = paths.read_path(alloc, path)?;
            Ok(text)
        }
    }
}

/// The names of the files in a folder, if its path is a text.
fn list_at<P: Paths>(alloc: Global, paths: &P, path: &[u8]) -> Result<Vec<Text>, NoMemory>
    ensures { IfOk result (λ names. spec.MayList (P.may_list paths.now) path.now names.items) }
{
    match text_path(path) {
        None => Ok(Vec::new(alloc)),
        Some(path) => {
            let names = paths.list_path(alloc, path)?;
            Ok(names)
        }
    }
}

/// What is known of the file with a name after it was requested.
fn ask_text<P: Paths>(
    alloc: Global,
    paths: &P,
    first: &[u8],
    name: &[u8],
) -> Result<KnownText, NoMemory>
    ensures { IfOk result (λ known. spec.MayFit (spec.MayBe (P.may_be paths.now) (spec.path_of first.now name.now)) known) }
{
    let path = path_of(alloc, first, name)?;
    let text = read_at(alloc, paths, path.bytes())?;
    Ok(known_text(text))
}

/// The names in its folder that match one with `*` and `?`.
fn names_among(alloc: Global, pattern: &[u8], found: &[Text]) -> Result<Vec<Text>, NoMemory>
    ensures { IfOk result (λ names. names.items ≡ spec.names_among pattern.now found.now) }
{
    let mut names = Vec::new(alloc);
    for part in found {
        let name = beside(alloc, before_last(pattern, b'/'), part.bytes())?;
        if stands_for(pattern, name.bytes()) {
            names.push(name)?;
        }
    }
    Ok(names)
}

/// Puts names in byte order.
fn sort_names(names: &mut Vec<Text>)
    ensures same { IsPermutation names.old.items names.new.items }
    ensures order { IsSorted (slice_cmp nat_cmp) names.new.items }
{
    names.sort_unstable_by(|left, right| left.bytes().cmp(right.bytes()));
}

/// The names in its folder that match one with `*` and `?`, in byte order.
fn names_in_order(alloc: Global, pattern: &[u8], found: &[Text]) -> Result<NameList, NoMemory>
    ensures { IfOk result (λ names. spec.IsListing pattern.now found.now names) }
{
    let mut names = names_among(alloc, pattern, found)?;
    sort_names(&mut names);
    let list = NameList::new(names);
    Ok(list)
}

/// The folder that contains the file with a path.
fn folder_at(alloc: Global, path: &[u8]) -> Result<Text, NoMemory>
    ensures { IfOk result (λ folder. folder ≡ spec.folder_at path.now) }
{
    beside(alloc, before_last(path, b'/'), b".")
}

/// The names in the folder of a name.
fn ask_folder<P: Paths>(
    alloc: Global,
    paths: &P,
    first: &[u8],
    name: &[u8],
) -> Result<Vec<Text>, NoMemory>
    ensures { IfOk result (λ found. spec.MayList (P.may_list paths.now) (spec.folder_at (spec.path_of first.now name.now)) found.items) }
{
    let path = path_of(alloc, first, name)?;
    let folder = folder_at(alloc, path.bytes())?;
    let found = list_at(alloc, paths, folder.bytes())?;
    Ok(found)
}

/// The names that match one with `*` and `?`, after its folder was requested.
fn ask_names<P: Paths>(
    alloc: Global,
    paths: &P,
    first: &[u8],
    pattern: &[u8],
) -> Result<NameList, NoMemory>
    ensures { IfOk result (λ names. spec.MayTell (P.may_be paths.now) (P.may_list paths.now) first.now (NamesOf pattern.now names)) }
{
    let found = ask_folder(alloc, paths, first, pattern)?;
    let names = names_in_order(alloc, pattern, found.as_slice())?;
    Ok(names)
}

impl<'a, P: Paths> Source for FolderFiles<'a, P> {
    ghost use Rattle.dp_files.specs.FolderFiles.{Agrees, MayTell};

    ghost agrees = { λ source has. Agrees source.2 has };

    ghost may_tell = { λ source. MayTell (P.may_be source.0) (P.may_list source.0) source.1 };

    fn read(&mut self, alloc: Global, name: &[u8], most: usize) -> Result<FileText, NoMemory> {
        let key = Text::copy_of(alloc, name)?;
        if let Some(known) = self.texts.get(&key) {
            let text = read_known(alloc, known, most)?;
            return Ok(text);
        }
        let known = ask_text(alloc, self.paths, self.first.as_bytes(), name)?;
        let text = read_known(alloc, &known, most)?;
        self.texts.insert(key, known)?;
        Ok(text)
    }

    fn names(&mut self, alloc: Global, pattern: &[u8]) -> Result<Vec<Text>, NoMemory> {
        let key = Text::copy_of(alloc, pattern)?;
        if let Some(known) = self.lists.get(&key) {
            let names = known.copy()?;
            return Ok(names);
        }
        let known = ask_names(alloc, self.paths, self.first.as_bytes(), pattern)?;
        let names = known.copy()?;
        self.lists.insert(key, known)?;
        Ok(names)
    }
}

/// The text of a dialplan for the loader, made from the file with a path and the files that it includes, which are looked for in its
/// folder: [`read_dialplan`] of [`FolderFiles`].
///
/// For all files that are as they were when requested, it is that of the definition. What is known of them is something that the system may
/// give.
pub fn read_folder_dialplan<P: Paths>(
    alloc: Global,
    paths: &P,
    first: &str,
) -> Result<DialplanFiles, ReadingFault>
    ensures { spec.ReadsFolder (spec.MayTell (P.may_be paths.now) (P.may_list paths.now) first.now)
        (λ has. Answers dialplan_now first_fault result (dialplan_of has first.now)) }
{
    let mut source = FolderFiles::new(alloc, paths, first);
    let read = read_dialplan(alloc, &mut source, first.as_bytes());
    source.show_known();
    read
}

/// The text of the file with a path and the files that it includes, which are looked for in its folder: [`read_configuration`] of
/// [`FolderFiles`].
///
/// For all files that are as they were when requested, it is that of the definition. What is known of them is something that the system may
/// give.
pub fn read_folder_configuration<P: Paths>(
    alloc: Global,
    paths: &P,
    first: &str,
) -> Result<ConfigurationFiles, ReadingFault>
    ensures { spec.ReadsFolder (spec.MayTell (P.may_be paths.now) (P.may_list paths.now) first.now)
        (λ has. Answers configuration_now first_fault result (configuration_of has first.now)) }
{
    let mut source = FolderFiles::new(alloc, paths, first);
    let read = read_configuration(alloc, &mut source, first.as_bytes());
    source.show_known();
    read
}
