//! Laws about the definitions of this crate.
ghost use Rattle.std.specs.Prelude.{◌≡◌, ◌∷◌, [], ◌<◌, ℕ, Bool, List, Ok, length};
ghost use Rattle.std.specs.List.{AllByRecursion};
ghost use Rattle.dp_conf.specs.Lines.{Header, content_of, item_of};
ghost use Rattle.dp_files.specs.Headers.{HeaderOf, header_of, plain_header};
ghost use Rattle.dp_files.specs.Order.{IsPlainLine, KeepsOrder};
ghost use Rattle.dp_files.specs.PlainFiles as plain;
ghost use Rattle.dp_files.specs.Reading.{reading_of};
ghost use Rattle.dp_files.specs.Sources.{Files};
ghost use Rattle.dp_files.specs.declared.source_line.SourceFile.{SourceFile};
ghost use Rattle.dp_files.specs.declared.source_line.SourceLine.{SourceLine};

/// States that, to the reader of lines, the line made from a header with parentheses is a header with the same name. It does nothing.
pub fn plain_headers_say_names()
    ensures { (in_section : Bool) (line : ℕ) (inside : List ℕ) (header : HeaderOf) → header_of inside ≡ Ok header
        → item_of in_section line (content_of (plain_header header.name)) ≡ Ok (Header line header.name ∷ []) }
{}

/// States that the lines of one file without directives, whose headers have no parentheses, are those of their sections: the lines of the
/// sections with their headers, one section after another, are all lines in order, except those with a remark. It does nothing.
pub fn sections_keep_order()
    ensures { (files : List SourceFile) (lines : List SourceLine) → 0 < length files → AllByRecursion IsPlainLine lines
        → KeepsOrder files lines }
{}

/// States that a file without block comments and without lines whose content begins with `#` is read unchanged: it is the only file, its
/// lines are the parts between its line feeds, byte for byte and numbered from 1, and there are no remarks on them. It does nothing.
pub fn plain_files_are_kept()
    ensures { (files : Files) (name text : List ℕ) → plain.IsPlainFile files name text → reading_of files name ≡ Ok (plain.plain_reading name text) }
{}
