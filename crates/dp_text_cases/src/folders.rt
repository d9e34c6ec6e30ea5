//! Dialplans below a folder, worked out by hand from the rules of configuration files: at which paths their files are opened, in which
//! order, and with how many remarks.
use dp_case_tables::{Question, bytes_of, check, push_bytes, text_of};
use dp_conf::{MOST_BYTES, Text};
use dp_files::{
    DialplanFiles, FileText, NamedText, NoMemory, Paths, path_of, read_folder_dialplan,
};
use std::alloc::Global;
use std::test::Fail;

/// The path of the first file, and then files, each as `PATH:TEXT`, all of them separated by `‖`; and the paths of the files that were
/// opened, separated by blanks, with the number of remarks after a `#`.
const FOLDERS: &str = r"
# A name is next to the first file, even if another file has it, and one that begins with `/` is a path.
conf/m‖conf/m:#include a\n#include sub/b\n#include /etc/c‖conf/a:‖conf/sub/b:#include a‖/etc/c:#include a→conf/m conf/a conf/sub/b conf/a /etc/c conf/a#0
m‖m:#include a\n#include sub/b‖a:‖sub/b:→m a sub/b#0
/etc/m‖/etc/m:#include a‖/etc/a:→/etc/m /etc/a#0
# The names that match a pattern are in byte order, whatever the order of the folder is.
conf/m‖conf/m:#include *.x\n#include sub/?.x‖conf/b.x:‖conf/a.x:‖conf/.c.x:‖conf/sub/2.x:‖conf/sub/1.x:‖a.x:→conf/m conf/.c.x conf/a.x conf/b.x conf/sub/1.x conf/sub/2.x#0
m‖m:#include *.x‖b.x:‖a.x:‖sub/c.x:→m a.x b.x#0
# Files that do not exist, and names that are not UTF-8.
conf/m‖conf/m:#include a\n#include *.x\n#tryinclude b‖a:→conf/m#2
m‖m:#include \xFF‖\xFF:→m#1
conf/m‖m:→not found
# A file that is included twice.
m‖m:#include a\n#include a‖a:x→m a a#2
";

/// Files of a system.
#[derive(Drop)]
struct Disk {
    files: Vec<NamedText>,
}

impl Disk {
    /// The text at a path.
    fn text(&self, path: &[u8]) -> Option<&[u8]> {
        for file in self.files.iter() {
            if file.name.bytes() == path {
                return Some(file.text.bytes());
            }
        }
        None
    }
}

/// The folder of a path with its `/`, and the text after that.
fn parts(path: &[u8]) -> (&[u8], &[u8]) {
    match path.iter().rposition(|byte| *byte == b'/') {
        Some(at) => path.split_at(at + 1),
        None => (b"", path),
    }
}

impl Paths for Disk {
    ghost may_be = { λ _ _ _. Unit {0} };

    ghost may_list = { λ _ _ _. Unit {0} };

    fn read_path(&self, alloc: Global, path: &str) -> Result<FileText, NoMemory> {
        let Some(text) = self.text(path.as_bytes()) else {
            return Ok(FileText::Absent);
        };
        if text.len() > MOST_BYTES {
            return Ok(FileText::Absent);
        }
        let bytes = Vec::from_slice(alloc, text)?;
        Ok(FileText::Bytes(bytes))
    }

    fn list_path(&self, alloc: Global, path: &str) -> Result<Vec<Text>, NoMemory> {
        let (folder, _) = parts(path.as_bytes());
        let mut names = Vec::new(alloc);
        for file in self.files.iter() {
            let (front, name) = parts(file.name.bytes());
            if front == folder {
                names.push(Text::copy_of(alloc, name)?)?;
            }
        }
        Ok(names)
    }
}

/// A file with its path and its text.
fn file_of(alloc: Global, file: &str) -> Result<NamedText, Fail> {
    let (name, text) = file.split_once(':').ok_or("no path")?;
    let name = Text::new(bytes_of(alloc, name)?);
    let text = Text::new(bytes_of(alloc, text)?);
    Ok(NamedText { name, text })
}

fn disk_of(alloc: Global, files: &str) -> Result<Disk, Fail> {
    let mut disk = Disk {
        files: Vec::new(alloc),
    };
    for file in files.split('‖') {
        disk.files.push(file_of(alloc, file)?)?;
    }
    Ok(disk)
}

/// The paths at which files were opened, and the number of remarks.
fn opened_paths(alloc: Global, first: &str, read: &DialplanFiles) -> Result<String, Fail> {
    let mut out = String::new(alloc);
    for (at, file) in read.files.iter().enumerate() {
        if at > 0 {
            out.push(' ')?;
        }
        let path = path_of(alloc, first.as_bytes(), file.name.bytes())?;
        push_bytes(&mut out, path.bytes())?;
    }
    write!(out, "#{}", read.made.remarks.len())?;
    Ok(out)
}

struct Folders;

impl Question for Folders {
    fn answer(alloc: Global, asked: &str) -> Result<String, Fail> {
        let (first, files) = asked.split_once('‖').ok_or("no first path")?;
        let disk = disk_of(alloc, files)?;
        match read_folder_dialplan(alloc, &disk, first) {
            Ok(read) => opened_paths(alloc, first, &read),
            Err(_) => text_of(alloc, "not found"),
        }
    }
}

#[test]
fn files_are_opened_next_to_the_first(rt: HostRuntime) -> Result<(), Fail> {
    check::<Folders>(rt.alloc(), FOLDERS)
}
