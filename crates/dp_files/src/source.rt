//! Sources of files.
ghost use Rattle.std.specs.Prelude.{◌≡◌, ◌≤◌, IfOk};
ghost use Rattle.dp_files.specs.Sources.{Files, Telling, length_read, text_now, text_read};

use dp_conf::{NoMemory, Text};
use std::alloc::Global;

/// The result of reading a file.
#[derive(Drop)]
pub enum FileText {
    /// All its bytes.
    Bytes(Vec<u8>),
    /// There is no such file, or it cannot be read.
    Absent,
    /// The file has more bytes than allowed.
    TooLong,
}

/// Files, given their names.
///
/// A name is given as written in a line. One that begins with `/` is itself the path, and any other is relative to the first file. A source
/// joins such a name with the folder of the first file, so it must know that folder.
///
/// The contents of a system's files are not known beforehand, and may change while they are read. So a contract speaks of all files that
/// agree with what a source has reported: what it reported for a name stays the same, and nothing is said of other names.
pub trait Source {
    // The files agree with everything that the source has reported.
    ghost agrees: { Self → Files → Type 0 };

    // What the source may report.
    ghost may_tell: { Self → Telling → Type 0 };

    /// The bytes of the file with a name, if it has at most `most` of them, and at most 16,777,216. It fails only if memory runs out.
    fn read(&mut self, alloc: Global, name: &[u8], most: usize) -> Result<FileText, NoMemory>
        ensures text { IfOk result (λ text. (has : Files) → agrees self.new has
            → text_now text ≡ text_read most (has.text name.now)) }
        ensures within { IfOk result (λ text. length_read (text_now text) ≤ most) }
        // What was reported before stays reported, and nothing may be reported that could not be before.
        ensures kept { (has : Files) → agrees self.new has → agrees self.old has }
        ensures same { (told : Telling) → may_tell self.new told → may_tell self.old told };

    /// The names in byte order that match a name with `*` and `?` in its last part, in the sense of [`stands_for`](crate::stands_for). Each
    /// can be passed to [`read`](Source::read). It fails only if memory runs out.
    fn names(&mut self, alloc: Global, pattern: &[u8]) -> Result<Vec<Text>, NoMemory>
        ensures names { IfOk result (λ names. (has : Files) → agrees self.new has → names.items ≡ has.names pattern.now) }
        ensures kept { (has : Files) → agrees self.new has → agrees self.old has }
        ensures same { (told : Telling) → may_tell self.new told → may_tell self.old told };
}
