//! Sets of bytes.
ghost use Rattle.dp_conf.specs.Blanks.{is_blank as blank};
ghost use Rattle.std.specs.Prelude.{◌≡◌, ◌<◌, ℕ, true, false, ◌&&◌, ◌||◌, ◌==◌, IsFalse, IsTrue, replicate};
ghost use Rattle.std.specs.Int.{bit_at};
ghost use Rattle.dp_pieces.specs.Bytes.{IsPart, both, digits, either, has_blank};
ghost use Rattle.dp_pieces.specs.Sets.{set_by};

use dp_conf::is_blank;
use std::marker::Model;

/// Bit k of a word.
fn has_bit(word: u64, k: u8) -> bool
    requires { k < 64 }
    ensures { result ≡ (bit_at word k == 1) }
{
    (word >> k) & 1 == 1
}

/// The word with bit k set.
fn with_bit(word: u64, k: u8) -> u64
    requires { k < 64 }
    ensures set { bit_at result k ≡ 1 }
    ensures others { (i : ℕ) → (i ≡ k → ⊥) → bit_at result i ≡ bit_at word i }
{
    word | (1 << k)
}

/// The word with the bits of both.
fn with_bits(word: u64, other: u64) -> u64
    ensures { (i : ℕ) → (bit_at result i == 1) ≡ (bit_at word i == 1 || bit_at other i == 1) }
{
    word | other
}

/// The word with the bits that are set in both.
fn shared_bits(word: u64, other: u64) -> u64
    ensures { (i : ℕ) → (bit_at result i == 1) ≡ (bit_at word i == 1 && bit_at other i == 1) }
{
    word & other
}

/// Whether each bit of the word is set in the other word.
fn are_bits_of(word: u64, other: u64) -> bool
    ensures part { IsTrue result → (i : ℕ) → (bit_at word i == 1) ≡ true → (bit_at other i == 1) ≡ true }
    ensures no_part { IsFalse result → ((i : ℕ) → i < 64 → (bit_at word i == 1) ≡ true → (bit_at other i == 1) ≡ true) → ⊥ }
{
    word | other == other
}

/// The bits of the blanks: those up to bit 32, except that of the line feed.
const BLANKS: u64 = 0x1_ffff_fbff;

/// A set of bytes. Bit b % 64 of word b / 64 is byte b.
#[derive(Clone, Copy)]
pub struct ByteSet {
    words: [u64; 4],
}

impl Model for ByteSet {
    ghost use Rattle.std.specs.Prelude.{ℕ, List};

    ghost Value = { List ℕ };

    ghost view = { λ s. s.words };

    ghost inverse = { λ words. record { words = words } };
}

impl ByteSet {
    /// The empty set.
    pub fn none() -> Self
        ensures { result ≡ replicate 4 0 }
    {
        ByteSet { words: [0; 4] }
    }

    /// The set with these words.
    pub(crate) fn of_words(words: [u64; 4]) -> Self
        ensures { result ≡ words }
    {
        ByteSet { words }
    }

    /// Whether the set contains the byte.
    #[tactic(auto, unfolding(crate::specs::Sets::set_by))]
    pub fn has(&self, byte: u8) -> bool
        ensures { result ≡ set_by self.now byte }
    {
        has_bit(self.words[usize::from(byte / 64)], byte % 64)
    }

    /// Adds a byte to the set.
    #[tactic(auto, unfolding(crate::specs::Sets::set_by))]
    pub fn put(&mut self, byte: u8)
        ensures { (b : ℕ) → set_by self.new b ≡ (b == byte || set_by self.old b) }
    {
        let place = usize::from(byte / 64);
        self.words[place] = with_bit(self.words[place], byte % 64);
    }

    /// Adds all bytes of the other set to this one.
    #[tactic(auto, unfolding(crate::specs::Sets::set_by))]
    pub fn add(&mut self, other: &ByteSet)
        ensures { (b : ℕ) → set_by self.new b ≡ either (set_by self.old) (set_by other.now) b }
    {
        for i in 0..4 {
            self.words[i] = with_bits(self.words[i], other.words[i]);
        }
    }

    /// Keeps only the bytes that the other set contains too.
    #[tactic(auto, unfolding(crate::specs::Sets::set_by))]
    fn keep(&mut self, other: &ByteSet)
        ensures { (b : ℕ) → set_by self.new b ≡ both (set_by self.old) (set_by other.now) b }
    {
        for i in 0..4 {
            self.words[i] = shared_bits(self.words[i], other.words[i]);
        }
    }

    /// The bytes that both sets contain.
    pub(crate) fn common(&self, other: &ByteSet) -> Self
        ensures { (b : ℕ) → set_by result b ≡ both (set_by self.now) (set_by other.now) b }
    {
        let mut shared = *self;
        shared.keep(other);
        shared
    }

    /// The set of a single byte.
    pub fn of(byte: u8) -> Self
        ensures { (b : ℕ) → set_by result b ≡ (b == byte) }
    {
        let mut set = ByteSet::none();
        set.put(byte);
        set
    }

    /// The set of the digits.
    pub fn digits() -> Self
        ensures { (b : ℕ) → set_by result b ≡ digits b }
    {
        let mut set = ByteSet::none();
        for digit in 48..58 {
            set.put(digit);
        }
        set
    }

    /// The bytes of both sets together.
    pub fn with(&self, other: &ByteSet) -> Self
        ensures { (b : ℕ) → set_by result b ≡ either (set_by self.now) (set_by other.now) b }
    {
        let mut both = *self;
        both.add(other);
        both
    }

    /// Whether the set contains a blank, a byte of 32 or less other than a line feed.
    pub fn has_blank(&self) -> bool
        ensures { result ≡ has_blank (set_by self.now) }
    {
        if shared_bits(self.words[0], BLANKS) == 0 {
            return false;
        }
        for byte in 0..33 {
            if self.has_as_blank(byte) {
                return true;
            }
        }
        false
    }

    /// Whether the byte is a blank and the set contains it.
    fn has_as_blank(&self, byte: u8) -> bool
        ensures { result ≡ (blank byte && set_by self.now byte) }
    {
        is_blank(byte) && self.has(byte)
    }

    /// Whether each byte of the set is in the other set.
    #[tactic(auto, unfolding(crate::specs::Sets::set_by))]
    pub fn is_part(&self, other: &ByteSet) -> bool
        ensures part { IsTrue result → IsPart (set_by self.now) (set_by other.now) }
        ensures no_part { IsFalse result → IsPart (set_by self.now) (set_by other.now) → ⊥ }
    {
        for i in 0..4 {
            if !are_bits_of(self.words[i], other.words[i]) {
                return false;
            }
        }
        true
    }
}
