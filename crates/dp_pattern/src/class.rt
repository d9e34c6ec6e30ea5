//! A class: a finite set of bytes, and the texts that spell one.
ghost use Rattle.std.specs.Prelude.{◌≡◌, ◌↔◌, ℕ, ◌<◌, ◌||◌, [], ◌∷◌, ◌++◌, length, codes, Contains, None, Ok, Err, IfSome, IsTrue, MatchOption, MatchResult, OnOk};
ghost use Rattle.dp_pattern.specs.Classes.{has_bit, members_of};
ghost use Rattle.dp_pattern.specs.Order.{class_cmp};
ghost use Rattle.dp_pattern.specs.Spelling.{class_spelling};
ghost use Rattle.dp_pattern.specs.Name.{is_one_of, class_of, class_of_set, items_of, item_fault, lists, is_bad, is_range, IsReason};

use crate::class_members::ClassMembers;
use crate::fault::{NameFault, PatternFault};
use crate::words::{add, add_range};
use std::alloc::{AllocError, Global};
use std::cmp::Ordering;
use std::marker::Model;

/// A class of a pattern: a finite set of bytes. Contracts see it as its members in byte order.
#[derive(Debug)]
pub struct Class {
    members: ClassMembers,
}

impl Drop for Class {
    fn drop(self) {
        let Class { members: _ } = self;
    }
}

const _: () = prove!(size_of::<Class>() == 16);

impl Model for Class {
    ghost use Rattle.std.specs.Prelude.{ℕ, List};
    ghost use Rattle.dp_pattern.specs.Classes.{kept_members};

    ghost Value = { List ℕ };

    ghost view = { λ class. kept_members class.members };
}

impl Clone for Class {
    ghost is_clone = { λ class copy. copy ≡ class };

    fn clone(&self) -> Result<Class, AllocError> {
        let members = self.members.copy()?;
        Ok(Class { members })
    }
}

impl Class {
    /// Whether the class contains the byte.
    pub fn has(&self, byte: u8) -> bool
        ensures member { IsTrue result ↔ Contains self.now byte }
        ensures value { result ≡ is_one_of self.now byte }
    {
        self.members.has(byte)
    }

    /// The members as one bit for each byte: bit b % 64 of word b / 64 is byte b.
    pub fn words(&self) -> [u64; 4]
        ensures { (b : ℕ) → b < 256 → has_bit result b ≡ is_one_of self.now b }
    {
        self.members.words()
    }

    /// The only member, if the class is kept as a byte.
    pub(crate) fn only(&self) -> Option<u8>
        ensures { IfSome result (λ byte. self.now ≡ byte ∷ []) }
    {
        self.members.only()
    }

    /// The letter of a class of digits, if it has one.
    pub(crate) fn letter(&self) -> Option<u8>
        ensures { IfSome result (λ letter. class_spelling self.now ≡ letter ∷ []) }
    {
        self.members.letter()
    }

    /// Adds the members to the bytes, in byte order. It fails only if memory runs out.
    pub(crate) fn push_members(&self, bytes: &mut Vec<u8>) -> Result<(), AllocError>
        ensures { OnOk result (bytes.new.items ≡ bytes.old.items ++ self.now) }
    {
        self.members.push_to(bytes)
    }
}

/// An item of a set: one byte, or the bytes from one to another.
#[derive(Clone, Copy)]
pub(crate) enum SetItem {
    One(u8),
    Range(u8, u8),
}

// Whether the byte is one that no name may contain.
pub(crate) fn is_bad(byte: u8) -> bool
    ensures { result ≡ is_bad byte }
{
    byte < 33 || byte == 127 || byte == b'\\'
}

// Whether these are two digits, two capitals or two small letters in rising or equal order.
fn is_range(from: u8, to: u8) -> bool
    ensures { result ≡ is_range from to }
{
    let digits = b'0' <= from && from <= to && to <= b'9';
    let capitals = b'A' <= from && from <= to && to <= b'Z';
    let small = b'a' <= from && from <= to && to <= b'z';
    digits || capitals || small
}

// The reason why a set cannot list the item, if there is one.
fn fault_of(item: SetItem) -> Option<NameFault>
    ensures { result ≡ item_fault item }
{
    match item {
        SetItem::One(b'-') => Some(NameFault::BadRange),
        SetItem::One(byte) if is_bad(byte) => Some(NameFault::BadByte),
        SetItem::One(_) => None,
        SetItem::Range(from, to) if is_range(from, to) => None,
        SetItem::Range(_, _) => Some(NameFault::BadRange),
    }
}

// Adds the bytes that the item lists.
fn add_item(words: &mut [u64; 4], item: SetItem)
    requires { item_fault item ≡ None }
    ensures { (b : ℕ) → b < 256 → has_bit words.new b ≡ (has_bit words.old b || lists b item) }
{
    match item {
        SetItem::One(byte) => add(words, byte),
        SetItem::Range(from, to) => add_range(words, from, to),
    }
}

// The first item that the bytes of a set list, and the bytes after it.
fn first_item(bytes: &[u8]) -> Option<(SetItem, &[u8])>
    ensures { MatchOption result (bytes.now ≡ [])
        (λ x. (items_of bytes.now ≡ x.0 ∷ items_of x.1.now) × (length x.1.now < length bytes.now)) }
{
    let (byte, after) = bytes.split_first()?;
    if after.len() >= 2 && after[0] == b'-' {
        Some((SetItem::Range(*byte, after[1]), &after[2..]))
    } else {
        Some((SetItem::One(*byte), after))
    }
}

// The bytes that are listed between `[` and `]`, one bit for each byte.
fn words_of_set(bytes: &[u8]) -> Result<[u64; 4], NameFault>
    ensures { MatchResult result (λ words. class_of_set bytes.now ≡ Ok (members_of words))
        (λ fault. class_of_set bytes.now ≡ Err fault) }
{
    if bytes.is_empty() {
        return Err(NameFault::EmptySet);
    }
    let mut words = [0; 4];
    let mut rest = bytes;
    while let Some((item, after)) = first_item(rest) {
        if let Some(fault) = fault_of(item) {
            return Err(fault);
        }
        add_item(&mut words, item);
        rest = after;
    }
    Ok(words)
}

/// The class of the bytes that are listed between `[` and `]`.
pub(crate) fn class_of_set(alloc: Global, bytes: &[u8]) -> Result<Class, PatternFault>
    ensures { MatchResult result (λ class. class_of_set bytes.now ≡ Ok class)
        (λ fault. IsReason fault (class_of_set bytes.now)) }
{
    let words = words_of_set(bytes)?;
    let members = ClassMembers::of_words(alloc, words)?;
    Ok(Class { members })
}

// The digits.
fn digits() -> Class
    ensures { result ≡ codes "0123456789" }
{
    Class {
        members: ClassMembers::Digits(0b11_1111_1111),
    }
}

// The digits from 1.
fn digits_from_1() -> Class
    ensures { result ≡ codes "123456789" }
{
    Class {
        members: ClassMembers::Digits(0b11_1111_1110),
    }
}

// The digits from 2.
fn digits_from_2() -> Class
    ensures { result ≡ codes "23456789" }
{
    Class {
        members: ClassMembers::Digits(0b11_1111_1100),
    }
}

// The class of a single byte.
fn single(byte: u8) -> Class
    ensures { result ≡ byte ∷ [] }
{
    Class {
        members: ClassMembers::Byte(byte),
    }
}

/// The class of a byte outside sets.
pub(crate) fn class_of(byte: u8) -> Result<Class, NameFault>
    ensures { result ≡ class_of byte }
{
    match byte {
        b'X' | b'x' => Ok(digits()),
        b'Z' | b'z' => Ok(digits_from_1()),
        b'N' | b'n' => Ok(digits_from_2()),
        _ if is_bad(byte) => Err(NameFault::BadByte),
        _ => Ok(single(byte)),
    }
}

/// The order of two classes: the one with fewer members comes first, and classes of equal size are ordered by their members in byte order.
pub fn compare_classes(left: &Class, right: &Class) -> Ordering
    ensures { result ≡ class_cmp left.now right.now }
{
    left.members.compare(&right.members)
}
