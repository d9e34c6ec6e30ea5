//! The files and folders that a system gives at a path.
ghost use Rattle.std.specs.Prelude.{List, Option, ℕ, IfOk};
ghost use Rattle.dp_files.specs.FolderFiles.{MayRead};
ghost use Rattle.dp_files.specs.Sources.{text_now};

use crate::source::FileText;
use dp_conf::{NoMemory, Text};
use std::alloc::Global;

/// Files and folders of a system, given their paths.
pub trait Paths {
    // The file with this path may have this text; with None it may be absent or fail to be read.
    ghost may_be: { Self → List ℕ → Option (List ℕ) → Type 0 };

    // The folder with this path may have these names.
    ghost may_list: { Self → List ℕ → List (List ℕ) → Type 0 };

    /// The bytes of the file with a path, if it has at most 16,777,216 of them. It fails only if memory runs out.
    fn read_path(&self, alloc: Global, path: &str) -> Result<FileText, NoMemory>
        ensures { IfOk result (λ text. MayRead (may_be self.now path.now) (text_now text)) };

    /// The names of the files in a folder, each once and in any order; none if the folder cannot be read. It fails only if memory runs out.
    fn list_path(&self, alloc: Global, path: &str) -> Result<Vec<Text>, NoMemory>
        ensures { IfOk result (λ names. may_list self.now path.now names.items) };
}
