//! The members of a class as one bit for each byte.
ghost use Rattle.std.specs.Prelude.{◌≡◌, ℕ, ◌+◌, ◌<◌, ◌≤◌, ◌==◌, ◌||◌, ◌&&◌, nat_le, ◌++◌, length, OnOk};
ghost use Rattle.std.specs.Int.{bit_at};
ghost use Rattle.dp_pattern.specs.Classes.{has_bit, members_of, members_in};

use std::alloc::AllocError;

// Bit k of a word.
pub(crate) fn bit_of(word: u64, k: usize) -> bool
    requires { k < 64 }
    ensures { result ≡ (bit_at word k == 1) }
{
    (word >> k) & 1 == 1
}

// The word with bit k set.
fn with_bit(word: u64, k: u8) -> u64
    requires { k < 64 }
    ensures set { bit_at result k ≡ 1 }
    ensures others { (i : ℕ) → (i ≡ k → ⊥) → bit_at result i ≡ bit_at word i }
{
    word | (1 << k)
}

// Whether the class contains the byte.
pub(crate) fn has(words: &[u64; 4], byte: usize) -> bool
    requires { byte < 256 }
    ensures { result ≡ has_bit words.now byte }
{
    bit_of(words[byte / 64], byte % 64)
}

// Adds a byte to the class.
pub(crate) fn add(words: &mut [u64; 4], byte: u8)
    ensures { (b : ℕ) → b < 256 → has_bit words.new b ≡ (has_bit words.old b || byte == b) }
{
    let place = usize::from(byte / 64);
    words[place] = with_bit(words[place], byte % 64);
}

// Adds the bytes from one to another, including both.
pub(crate) fn add_range(words: &mut [u64; 4], from: u8, to: u8)
    requires { from ≤ to }
    ensures { (b : ℕ) → b < 256 →
        has_bit words.new b ≡ (has_bit words.old b || (nat_le from b && nat_le b to)) }
{
    for byte in from..=to {
        add(words, byte);
    }
}

// The number of members of the class.
pub(crate) fn size(words: &[u64; 4]) -> usize
    ensures { result ≡ length (members_of words.now) }
{
    let mut count = 0;
    for word in words {
        count += word.count_ones() as usize;
    }
    count
}

// Adds the members among the 64 bytes of the word, which begin at the first one, in byte order.
pub(crate) fn push_word(word: u64, first: u8, bytes: &mut Vec<u8>) -> Result<(), AllocError>
    requires { first + 64 ≤ 256 }
    ensures { OnOk result (bytes.new.items ≡ bytes.old.items ++ members_in word first) }
{
    let mut left = word;
    while left != 0 {
        let lowest = left.trailing_zeros();
        bytes.push(first + lowest as u8)?;
        left &= !(1 << lowest);
    }
    Ok(())
}

// Adds the members of the class to the bytes, in byte order.
pub(crate) fn push_members(words: &[u64; 4], bytes: &mut Vec<u8>) -> Result<(), AllocError>
    ensures { OnOk result (bytes.new.items ≡ bytes.old.items ++ members_of words.now) }
{
    for place in 0..4 {
        push_word(words[usize::from(place)], 64 * place, bytes)?;
    }
    Ok(())
}
