//! Brackets that Asterisk counts inside groups, after the Asterisk documentation's pages on variables and on expressions.
//!
//! Inside `${` Asterisk counts each `{` with its `}`, and inside `$[` each `[` with its `]`. This program does not. It does not read a text
//! at all if that makes a difference (a choice of this program).
ghost use Rattle.std.specs.Prelude.{◌≡◌, ◌≤◌, ◌∷◌, ℕ, List, [], IfOk, OnErr, OnOk, is_some, length};
ghost use Rattle.dp_conf.specs.Groups as groups;
ghost use Rattle.dp_conf.specs.GroupsRead as reading;
ghost use Rattle.dp_conf.specs.declared.groups.GroupKind.{GroupKind};
ghost use Rattle.dp_wide.specs.Brackets as spec;

use dp_conf::{GroupKind, Mark, NoMemory};
use std::alloc::Global;
use std::marker::Model;

/// Whether the byte ends a group of this kind, if there is one.
fn is_end(innermost: Option<GroupKind>, byte: u8) -> bool
    ensures { result ≡ reading.is_end_of innermost byte }
{
    match innermost {
        None => false,
        Some(GroupKind::Braces) => byte == b'}',
        Some(GroupKind::Brackets) => byte == b']',
    }
}

/// The kind of group that a `$` followed by this byte opens.
fn kind_of(byte: u8) -> Option<GroupKind>
    ensures { result ≡ groups.kind_of byte }
{
    match byte {
        b'{' => Some(GroupKind::Braces),
        b'[' => Some(GroupKind::Brackets),
        _ => None,
    }
}

/// The kind of group that a byte opens, given the bytes after it.
fn opening(byte: u8, after: &[u8]) -> Option<GroupKind>
    ensures { result ≡ groups.opening byte after.now }
{
    match after.first() {
        Some(next) if byte == b'$' => kind_of(*next),
        _ => None,
    }
}

/// Whether Asterisk counts the byte inside a group of this kind.
fn counts_in(byte: u8, kind: GroupKind) -> bool
    ensures { result ≡ spec.counts_in byte kind }
{
    match kind {
        GroupKind::Braces => byte == b'{' || byte == b'}',
        GroupKind::Brackets => byte == b'[' || byte == b']',
    }
}

/// The open groups at a place in a text. A contract sees their kinds, innermost first.
#[derive(Drop)]
struct OpenGroups {
    kinds: Vec<GroupKind>,
}

impl Model for OpenGroups {
    ghost use Rattle.std.specs.Prelude.{List, reverse};
    ghost use Rattle.dp_conf.specs.declared.groups.GroupKind.{GroupKind};

    ghost Value = { List GroupKind };

    ghost view = { λ groups. reverse groups.kinds.items };
}

impl OpenGroups {
    /// No groups. It never allocates.
    fn new(alloc: Global) -> Self
        ensures { result ≡ [] }
    {
        OpenGroups {
            kinds: Vec::new(alloc),
        }
    }

    /// The innermost group.
    fn innermost(&self) -> Option<GroupKind>
        ensures { result ≡ reading.first_of self.now }
    {
        match self.kinds.last() {
            Some(kind) => Some(*kind),
            None => None,
        }
    }

    /// The meaning of a byte, given the bytes after it.
    fn mark(&self, byte: u8, after: &[u8]) -> Mark
        ensures { result ≡ reading.mark_at self.now byte after.now }
    {
        if is_end(self.innermost(), byte) {
            return Mark::End;
        }
        match opening(byte, after) {
            None => Mark::Byte(byte),
            Some(kind) => Mark::Opening(kind),
        }
    }

    /// Whether Asterisk counts a byte inside one of these groups.
    fn count(&self, byte: u8) -> bool
        ensures { result ≡ spec.is_counted (Mark.Byte byte) self.now }
    {
        self.kinds.iter().any(|kind| counts_in(byte, *kind))
    }

    /// Whether a mark is a plain byte that Asterisk counts.
    fn is_counted(&self, mark: Mark) -> bool
        ensures { result ≡ spec.is_counted mark self.now }
    {
        match mark {
            Mark::End | Mark::Opening(_) => false,
            Mark::Byte(byte) => self.count(byte),
        }
    }

    /// Takes a mark. If memory runs out nothing changes.
    fn take(&mut self, mark: Mark) -> Result<(), NoMemory>
        ensures ok { OnOk result (self.new ≡ spec.open_after mark self.old) }
        ensures err { OnErr result (self.new ≡ self.old) }
    {
        match mark {
            Mark::End => {
                let _ended = self.kinds.pop();
                Ok(())
            }
            Mark::Opening(kind) => {
                self.kinds.push(kind)?;
                Ok(())
            }
            Mark::Byte(_) => Ok(()),
        }
    }
}

/// A text without its first byte, if it has one.
fn without_first(text: &[u8]) -> &[u8]
    ensures counted { (kinds : List GroupKind) → spec.has_counted result.now kinds 0 ≡ spec.has_counted text.now kinds 1 }
    ensures shorter { length result.now ≤ length text.now }
{
    match text.split_first() {
        Some((_, rest)) => rest,
        None => text,
    }
}

/// The text after a mark, given the bytes after its first.
fn behind(mark: Mark, after: &[u8]) -> &[u8]
    ensures counted { (kinds : List GroupKind) → spec.has_counted result.now kinds 0 ≡ spec.has_counted after.now kinds (spec.bytes_left mark) }
    ensures shorter { length result.now ≤ length after.now }
{
    match mark {
        Mark::Opening(_) => without_first(after),
        Mark::End | Mark::Byte(_) => after,
    }
}

/// Whether the groups of a text are the same as those that Asterisk reads in it.
///
/// It never allocates for a text without a `$`. It fails only if memory runs out.
pub(crate) fn reads(alloc: Global, text: &[u8]) -> Result<bool, NoMemory>
    ensures { IfOk result (λ is. is ≡ spec.reads text.now) }
{
    let mut open = OpenGroups::new(alloc);
    let mut left = text;
    while let Some((byte, after)) = left.split_first() {
        let mark = open.mark(*byte, after);
        if open.is_counted(mark) {
            return Ok(false);
        }
        open.take(mark)?;
        left = behind(mark, after);
    }
    Ok(true)
}
