//! The bytes that the value of a computed function may have.
ghost use Rattle.std.specs.Prelude.{◌≡◌, ◌||◌, ◌&&◌, ◌==◌, ℕ};
ghost use Rattle.dp_pieces.specs.NamesAt.{names_of};
ghost use Rattle.dp_pieces.specs.Sets.{set_by};
ghost use Rattle.dp_wide_pieces.specs.FunctionBytes as spec;

use dp_pieces::{ByteSet, NamesAt, bytes_in};

/// Whether the byte is a letter that the set contains in the other case.
fn has_other_case(set: &ByteSet, byte: u8) -> bool
    ensures { result ≡ spec.other_case (set_by set.now) byte }
{
    match byte {
        b'A'..=b'Z' => set.has(byte + 32),
        b'a'..=b'z' => set.has(byte - 32),
        _ => false,
    }
}

/// Adds the byte if it is a letter that the set contains in the other case.
fn put_other_case(bytes: &mut ByteSet, set: &ByteSet, byte: u8)
    ensures { (b : ℕ) → set_by bytes.new b ≡ (set_by bytes.old b || (b == byte && spec.other_case (set_by set.now) byte)) }
{
    if has_other_case(set, byte) {
        bytes.put(byte);
    }
}

/// The bytes of a set, and its letters in the other case.
fn either_case(set: &ByteSet) -> ByteSet
    ensures { (b : ℕ) → set_by result b ≡ spec.either_case (set_by set.now) b }
{
    let mut bytes = *set;
    for byte in b'A'..b'z' + 1 {
        put_other_case(&mut bytes, set, byte);
    }
    bytes
}

/// The marks that a function may write.
fn marks() -> ByteSet
    ensures { (b : ℕ) → set_by result b ≡ spec.marks b }
{
    bytes_in(b",-\" <>")
}

/// The bytes of a function whose argument has bytes of the set: those of any value, the argument in either case, a number, and the marks
/// that functions write.
pub fn function_bytes(names: &NamesAt<'_>, set: &ByteSet) -> ByteSet
    ensures { (b : ℕ) → set_by result b ≡ spec.function_bytes (names_of names.now) (set_by set.now) b }
{
    let written = ByteSet::digits().with(&marks());
    let own = either_case(set).with(&written);
    names.all().with(&own)
}
