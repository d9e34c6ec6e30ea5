//! The files that a caller has read.
ghost use Rattle.std.specs.Prelude.{◌≡◌};
ghost use Rattle.std.specs.List.{find};
ghost use Rattle.std.specs.Option.{option_map};
ghost use Rattle.dp_conf.specs.Words.{same_text};
ghost use Rattle.dp_test_runs.specs.Courses as spec;

use dp_plan::{SharedText, Text};

/// The text of a file, with the name by which test files call it.
#[derive(Drop)]
pub struct NamedFileText {
    pub name: Text,
    pub text: SharedText,
}

/// The first file with this name.
fn file_named<'a>(files: &'a [NamedFileText], name: &[u8]) -> Option<&'a NamedFileText>
    ensures { option_map (λ file. file.now) result ≡ find (λ file. same_text file.name name.now) files.now }
{
    files.iter().find(|file| file.name.bytes() == name)
}

/// The text of the first file with this name.
pub(crate) fn text_named<'a>(files: &'a [NamedFileText], name: &[u8]) -> Option<&'a SharedText>
    ensures { option_map (λ text. text.now) result ≡ spec.text_named files.now name.now }
{
    match file_named(files, name) {
        Some(file) => Some(&file.text),
        None => None,
    }
}

/// The number of the first file with this name, counted from 0.
pub(crate) fn number_named(files: &[NamedFileText], name: &[u8]) -> Option<usize>
    ensures { result ≡ spec.number_named files.now name.now }
{
    files.iter().position(|file| file.name.bytes() == name)
}
