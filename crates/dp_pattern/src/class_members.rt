//! The members of a class, kept in as little space as they need.
ghost use Rattle.std.specs.Prelude.{◌≡◌, ℕ, ◌<◌, ◌==◌, ◌++◌, ◌∷◌, [], length, false, true, IsTrue, IfOk, IfSome, OnOk};
ghost use Rattle.std.specs.Ordering.{nat_cmp};
ghost use Rattle.std.specs.Cmp.Lexicographic.{slice_cmp};
ghost use Rattle.dp_pattern.specs.Classes.{class_by, has_bit, has_digit, has_member, kept_members, members_of};
ghost use Rattle.dp_pattern.specs.Order.{class_cmp};
ghost use Rattle.dp_pattern.specs.Spelling.{class_spelling};

use crate::words::{add, bit_of, has, push_members, push_word, size};
use std::alloc::{AllocError, Global};
use std::cmp::Ordering;

/// The members of a class: one byte, some of the digits, or any bytes.
#[derive(Debug, Drop)]
pub(crate) enum ClassMembers {
    /// One byte.
    Byte(u8),
    /// Bit k is the byte `0` + k, a digit or one of the six bytes after the digits.
    Digits(u16),
    /// Bit k of word w is the byte 64 * w + k.
    Words(Box<[u64; 4]>),
}

// Whether the mask contains the byte.
#[tactic(auto, using(crate::proofs::KeptLemmas::outside_mask))]
fn has_digit(mask: u16, byte: u8) -> bool
    ensures { result ≡ has_digit mask byte }
{
    match byte {
        b'0'..=b'?' => bit_of(u64::from(mask), usize::from(byte - b'0')),
        _ => false,
    }
}

// The mask of the members, if every member is in a mask.
fn mask_of(words: &[u64; 4]) -> Option<u16>
    ensures { IfSome result (λ mask. members_of words.now ≡ class_by (has_digit mask)) }
{
    match *words {
        [first, 0, 0, 0] if first % (1 << 48) == 0 => Some((first >> 48) as u16),
        _ => None,
    }
}

// The words of one byte.
fn words_of_byte(byte: u8) -> [u64; 4]
    ensures { (b : ℕ) → b < 256 → has_bit result b ≡ (byte == b) }
{
    let mut words = [0; 4];
    add(&mut words, byte);
    words
}

// The words of a mask.
fn words_of_mask(mask: u16) -> [u64; 4]
    ensures { (b : ℕ) → b < 256 → has_bit result b ≡ has_digit mask b }
{
    [u64::from(mask) << 48, 0, 0, 0]
}

// The letter of the class that has these digits, if there is one.
fn letter_of(mask: u16) -> Option<u8>
    ensures { IfSome result (λ letter. class_spelling (class_by (has_digit mask)) ≡ letter ∷ []) }
{
    match mask {
        0b11_1111_1111 => Some(b'X'),
        0b11_1111_1110 => Some(b'Z'),
        0b11_1111_1100 => Some(b'N'),
        _ => None,
    }
}

// The first member.
fn first_of(words: &[u64; 4]) -> Option<u8>
    ensures { IfSome result (λ byte. has_bit words.now byte ≡ true) }
{
    for place in 0..4 {
        let word = words[usize::from(place)];
        if word != 0 {
            return Some(64 * place + word.trailing_zeros() as u8);
        }
    }
    None
}

// The only member, if there is exactly one.
fn only_of(words: &[u64; 4]) -> Option<u8>
    ensures { IfSome result (λ byte. members_of words.now ≡ class_by (λ b. byte == b)) }
{
    match first_of(words) {
        Some(byte) if size(words) == 1 => Some(byte),
        _ => None,
    }
}

// Compares two classes of equal size, by their members in byte order.
fn compare_members(left: &ClassMembers, right: &ClassMembers) -> Ordering
    requires { length (kept_members left.now) ≡ length (kept_members right.now) }
    ensures { result ≡ slice_cmp nat_cmp (kept_members left.now) (kept_members right.now) }
{
    for byte in left.least().min(right.least())..=u8::MAX {
        let in_left = left.has(byte);
        let in_right = right.has(byte);
        if in_left != in_right {
            return if in_left {
                Ordering::Less
            } else {
                Ordering::Greater
            };
        }
    }
    Ordering::Equal
}

impl ClassMembers {
    /// The members in the words. It fails only if memory runs out.
    pub(crate) fn of_words(alloc: Global, words: [u64; 4]) -> Result<ClassMembers, AllocError>
        ensures { IfOk result (λ members. kept_members members ≡ members_of words) }
    {
        if let Some(byte) = only_of(&words) {
            return Ok(ClassMembers::Byte(byte));
        }
        if let Some(mask) = mask_of(&words) {
            return Ok(ClassMembers::Digits(mask));
        }
        let words = Box::new(alloc, words)?;
        Ok(ClassMembers::Words(words))
    }

    /// A copy of the members. It fails only if memory runs out.
    pub(crate) fn copy(&self) -> Result<ClassMembers, AllocError>
        ensures { IfOk result (λ copy. kept_members copy ≡ kept_members self.now) }
    {
        match self {
            ClassMembers::Byte(byte) => Ok(ClassMembers::Byte(*byte)),
            ClassMembers::Digits(mask) => Ok(ClassMembers::Digits(*mask)),
            ClassMembers::Words(words) => {
                let words = words.clone()?;
                Ok(ClassMembers::Words(words))
            }
        }
    }

    /// Whether the byte is a member.
    pub(crate) fn has(&self, byte: u8) -> bool
        ensures { result ≡ has_member self.now byte }
    {
        match self {
            ClassMembers::Byte(only) => *only == byte,
            ClassMembers::Digits(mask) => has_digit(*mask, byte),
            ClassMembers::Words(words) => has(words, usize::from(byte)),
        }
    }

    /// The members as one bit for each byte.
    pub(crate) fn words(&self) -> [u64; 4]
        ensures { (b : ℕ) → b < 256 → has_bit result b ≡ has_member self.now b }
    {
        match self {
            ClassMembers::Byte(byte) => words_of_byte(*byte),
            ClassMembers::Digits(mask) => words_of_mask(*mask),
            ClassMembers::Words(words) => **words,
        }
    }

    /// The only member of a class that is kept as a byte.
    pub(crate) fn only(&self) -> Option<u8>
        ensures { IfSome result (λ byte. kept_members self.now ≡ byte ∷ []) }
    {
        match self {
            ClassMembers::Byte(byte) => Some(*byte),
            ClassMembers::Digits(_) | ClassMembers::Words(_) => None,
        }
    }

    /// The letter of a class of digits, if it has one.
    pub(crate) fn letter(&self) -> Option<u8>
        ensures { IfSome result (λ letter. class_spelling (kept_members self.now) ≡ letter ∷ []) }
    {
        match self {
            ClassMembers::Digits(mask) => letter_of(*mask),
            ClassMembers::Byte(_) | ClassMembers::Words(_) => None,
        }
    }

    // A byte with no member before it.
    fn least(&self) -> u8
        ensures { (b : ℕ) → b < result → has_member self.now b ≡ false }
    {
        match self {
            ClassMembers::Byte(only) => *only,
            ClassMembers::Digits(_) => b'0',
            ClassMembers::Words(_) => 0,
        }
    }

    // The number of members.
    fn size(&self) -> usize
        ensures { result ≡ length (kept_members self.now) }
    {
        match self {
            ClassMembers::Byte(only) => {
                // The byte that is read is known to be a member.
                let _only = *only;
                1
            }
            ClassMembers::Digits(mask) => mask.count_ones() as usize,
            ClassMembers::Words(words) => size(words),
        }
    }

    // Whether both are kept in the same form with the same value, and so have the same members.
    fn is_kept_as(&self, other: &ClassMembers) -> bool
        ensures { IsTrue result → kept_members self.now ≡ kept_members other.now }
    {
        match (self, other) {
            (ClassMembers::Byte(left), ClassMembers::Byte(right)) => left == right,
            (ClassMembers::Digits(left), ClassMembers::Digits(right)) => left == right,
            (ClassMembers::Words(left), ClassMembers::Words(right)) => left == right,
            _ => false,
        }
    }

    /// Fewer members come first, and equal sizes are ordered by their members in byte order.
    pub(crate) fn compare(&self, other: &ClassMembers) -> Ordering
        ensures { result ≡ class_cmp (kept_members self.now) (kept_members other.now) }
    {
        if self.is_kept_as(other) {
            return Ordering::Equal;
        }
        let sizes = self.size().cmp(&other.size());
        if sizes != Ordering::Equal {
            return sizes;
        }
        compare_members(self, other)
    }

    /// Adds the members to the bytes, in byte order. It fails only if memory runs out.
    pub(crate) fn push_to(&self, bytes: &mut Vec<u8>) -> Result<(), AllocError>
        ensures { OnOk result (bytes.new.items ≡ bytes.old.items ++ kept_members self.now) }
    {
        match self {
            ClassMembers::Byte(only) => bytes.push(*only)?,
            ClassMembers::Digits(mask) => push_word(u64::from(*mask), b'0', bytes)?,
            ClassMembers::Words(words) => push_members(words, bytes)?,
        }
        Ok(())
    }
}
