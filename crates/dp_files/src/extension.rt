//! The extension that a line names.
ghost use Rattle.std.specs.Prelude.{◌≡◌, IfOk, Some, false, true};
ghost use Rattle.std.specs.List.{list_all};
ghost use Rattle.std.specs.Option.{is_some};
ghost use Rattle.dp_conf.specs.Groups.{opening};
ghost use Rattle.dp_files.specs.ContextHistory as spec;
ghost use Rattle.dp_files.specs.NameSteps.{is_simple};
ghost use Rattle.dp_pattern.specs.Name.{meaning_of};
ghost use Rattle.dp_pattern.specs.Spelling.{spelling};

use crate::short_text::ShortText;
use dp_conf::NoMemory;
use dp_pattern::{Name, Parts, PatternFault};
use std::alloc::Global;

/// An extension: its name as written in a line, and the spelling that all names of the extension share.
///
/// Names with one meaning are one extension. Names without their dashes would not do: `_[1-3]` and `_[123]` are one extension, and `_[13]`
/// is another.
#[derive(Drop)]
pub(crate) struct WrittenExtension {
    pub(crate) name: ShortText,
    pub(crate) spelling: ShortText,
}

/// Whether a byte opens a group, given the bytes after it.
fn opens_group(byte: u8, after: &[u8]) -> bool
    ensures { result ≡ is_some (opening byte after.now) }
{
    match after.first() {
        Some(next) if byte == b'$' => *next == b'{' || *next == b'[',
        _ => false,
    }
}

/// Whether a group opens in the text: it contains `${` or `$[`.
pub fn has_group(text: &[u8]) -> bool
    ensures { result ≡ spec.has_group text.now }
{
    let mut left = text;
    while let Some((byte, after)) = left.split_first() {
        if opens_group(*byte, after) {
            return true;
        }
        left = after;
    }
    false
}

/// Whether there is a caller's number after the name. In a name with a group, this is not known before the group is expanded.
pub(crate) fn has_caller(name: &[u8]) -> bool
    ensures { result ≡ spec.has_caller name.now }
{
    name.contains(&b'/') && !has_group(name)
}

/// Whether only the text of the name is known: it has a group, or a caller's number.
fn is_known_by_text(name: &[u8]) -> bool
    ensures { result ≡ spec.is_known_by_text name.now }
{
    has_group(name) || has_caller(name)
}

/// Whether a byte means itself wherever it stands in a name.
fn is_simple_byte(byte: u8) -> bool
    ensures { result ≡ is_simple byte }
{
    byte > b'/' && byte != b'\\' && byte != b'_' && byte != 127
}

/// Whether a text has only such bytes.
fn has_simple_bytes(text: &[u8]) -> bool
    ensures { result ≡ list_all is_simple text.now }
{
    text.iter().all(|byte| is_simple_byte(*byte))
}

/// Whether the text is a name that is its own spelling, as most names are: it has only bytes that mean themselves.
#[inline(always)]
pub(crate) fn is_spelled(name: &[u8]) -> bool
    ensures extension { result ≡ true → spec.extension_of name.now ≡ Some (record { name = name.now; spelling = name.now }) }
    ensures caller { result ≡ true → spec.has_caller name.now ≡ false }
{
    !name.is_empty() && has_simple_bytes(name)
}

/// The canonical spelling of a name.
#[tactic(auto, unfolding(dp_pattern::specs::Spelling::spelling))]
fn spelling_of(alloc: Global, name: &Name) -> Result<ShortText, NoMemory>
    ensures { IfOk result (λ text. text ≡ spelling name.now) }
{
    match name.parts() {
        Parts::Plain(text) => ShortText::copy_of(alloc, text),
        Parts::Pattern(_, _) => {
            let text = name.text(alloc)?;
            ShortText::copy_of(alloc, &text)
        }
    }
}

impl WrittenExtension {
    /// A copy of the extension.
    pub(crate) fn copy(&self) -> Result<Self, NoMemory>
        ensures { IfOk result (λ copy. copy ≡ self.now) }
    {
        let name = self.name.copy()?;
        let spelling = self.spelling.copy()?;
        Ok(WrittenExtension { name, spelling })
    }

    /// The extension of a name that is spelled as it is written, or of which only the text is known.
    pub(crate) fn of_text(alloc: Global, name: &[u8]) -> Result<Self, NoMemory>
        ensures { IfOk result (λ extension. (extension.name ≡ name.now) × (extension.spelling ≡ name.now)) }
    {
        let spelling = ShortText::copy_of(alloc, name)?;
        let name = ShortText::copy_of(alloc, name)?;
        Ok(WrittenExtension { name, spelling })
    }

    /// The extension of a name without a group and without a caller's number, if the text is a name.
    fn of_name(alloc: Global, text: &[u8]) -> Result<Option<Self>, NoMemory>
        ensures { IfOk result (λ extension. extension ≡ spec.spelled_extension text.now (meaning_of text.now)) }
    {
        match Name::read(alloc, text) {
            Ok(meaning) => {
                let spelling = spelling_of(alloc, &meaning)?;
                let name = ShortText::copy_of(alloc, text)?;
                Ok(Some(WrittenExtension { name, spelling }))
            }
            Err(PatternFault::Name(_)) => Ok(None),
            Err(PatternFault::NoMemory) => Err(NoMemory),
        }
    }

    /// The extension of a name, if the text is one.
    pub(crate) fn read(alloc: Global, name: &[u8]) -> Result<Option<Self>, NoMemory>
        ensures { IfOk result (λ extension. extension ≡ spec.extension_of name.now) }
    {
        if is_spelled(name) {
            let extension = WrittenExtension::of_text(alloc, name)?;
            return Ok(Some(extension));
        }
        WrittenExtension::read_any(alloc, name)
    }

    /// The extension of a name, if the text is one, however it is spelled.
    #[tactic(auto, unfolding(crate::specs::ContextHistory::extension_of))]
    fn read_any(alloc: Global, name: &[u8]) -> Result<Option<Self>, NoMemory>
        ensures { IfOk result (λ extension. extension ≡ spec.extension_of name.now) }
    {
        if is_known_by_text(name) {
            let extension = WrittenExtension::of_text(alloc, name)?;
            return Ok(Some(extension));
        }
        WrittenExtension::of_name(alloc, name)
    }
}
