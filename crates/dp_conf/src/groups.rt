//! The groups of a text, after the Asterisk documentation's pages on variables and expressions.
//!
//! A group is `${` up to its `}`, or `$[` up to its `]`. Openings nest: a byte that is the end of the innermost opening
//! closes it, and brackets without a `$` before them are plain. An opening without an end is two plain bytes, and
//! reading goes on after them (choices of this program).
ghost use Rattle.std.specs.Prelude.{◌≡◌, ◌↔◌, ◌<◌, ℕ, List, [], IfSome, MatchOption, Some, length};
ghost use Rattle.dp_conf.specs.Groups as groups;
ghost use Rattle.dp_conf.specs.Groups.{Reading, IsReading};
ghost use Rattle.dp_conf.specs.GroupsRead.{reading_of, is_end_of, IsMarked};

/// The kind of a group: a variable or a function in `${..}`, or an expression in `$[..]`.
#[derive(Clone, Copy, Debug)]
pub enum GroupKind {
    Braces,
    Brackets,
}

/// The mark at a place in a text.
#[derive(Clone, Copy)]
pub enum Mark {
    /// The end of the innermost group.
    End,
    /// The two bytes that open a group.
    Opening(GroupKind),
    /// A plain byte.
    Byte(u8),
}

/// Every text reads as groups and bytes in exactly one way.
pub fn one_reading()
    ensures { (text : List ℕ) (reading : Reading) → IsReading text reading ↔ (reading ≡ reading_of text) }
{}

/// Whether the byte ends the innermost group, if there is one.
fn is_end(innermost: Option<GroupKind>, byte: u8) -> bool
    ensures { result ≡ is_end_of innermost byte }
{
    match innermost {
        None => false,
        Some(GroupKind::Braces) => byte == b'}',
        Some(GroupKind::Brackets) => byte == b']',
    }
}

/// The kind of group that a `$` opens if this byte comes after it.
fn kind_of(byte: u8) -> Option<GroupKind>
    ensures { result ≡ groups.kind_of byte }
{
    match byte {
        b'{' => Some(GroupKind::Braces),
        b'[' => Some(GroupKind::Brackets),
        _ => None,
    }
}

/// The kind of group that a byte opens, given the bytes after it.
fn opening(byte: u8, after: &[u8]) -> Option<GroupKind>
    ensures kind { result ≡ groups.opening byte after.now }
    ensures two { IfSome result (λ _. 0 < length after.now) }
{
    match after.first() {
        Some(next) if byte == b'$' => kind_of(*next),
        _ => None,
    }
}

/// The first mark of a text and the text after it, given the innermost open group, if any; None for the empty text.
pub fn next_mark(text: &[u8], innermost: Option<GroupKind>) -> Option<(Mark, &[u8])>
    ensures marked { MatchOption result (text.now ≡ []) (λ cut. IsMarked innermost text.now cut.0 cut.1.now) }
    ensures shorter { IfSome result (λ cut. length cut.1.now < length text.now) }
{
    let (byte, after) = text.split_first()?;
    if is_end(innermost, *byte) {
        return Some((Mark::End, after));
    }
    match opening(*byte, after) {
        None => Some((Mark::Byte(*byte), after)),
        Some(kind) => Some((Mark::Opening(kind), after.split_at(1).1)),
    }
}
