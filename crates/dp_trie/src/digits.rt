//! The digits of a dialled text: its bytes without the dashes.
ghost use Rattle.std.specs.Prelude.{◌≡◌, ◌<◌, ◌≤◌, length, nat_lt, slice_get};
ghost use Rattle.std.specs.Option.{ForSome};
ghost use Rattle.dp_pattern.specs.Dashes.{without_dashes};
ghost use Rattle.dp_trie.specs.steps.Digits.{Stands, IsClear, AreNear};

/// A place in a text, and the number of its digits before it.
#[derive(Clone, Copy)]
pub(crate) struct Cursor {
    place: usize,
    number: usize,
}

/// The number of first digits that are kept beside a text with dashes.
const NEAR: usize = 32;

/// The number of first bytes of a text that are searched for dashes.
const LOOKED: usize = 64;

/// The first digits of a text, and their number.
#[derive(Clone, Copy)]
pub(crate) struct FirstDigits {
    bytes: [u8; 32],
    count: usize,
}

/// The digits of a dialled text, the number of its first bytes that are known to be no dashes, and the start of a walk. If there are dashes
/// among the first bytes, the first digits are kept beside the text.
#[derive(Clone, Copy)]
pub(crate) struct Digits<'a> {
    text: &'a [u8],
    clear: usize,
    near: Option<FirstDigits>,
    first: Cursor,
    ghost clears: { IsClear text.now clear },
    ghost stands: { Stands text.now first },
    ghost begins: { ForSome near (AreNear text.now) },
}

/// The number of first bytes that are known to be no dashes: 0 if one of the bytes that are searched is a dash. Few bytes are searched,
/// however long the text is.
fn count_clear(text: &[u8]) -> usize
    ensures { IsClear text.now result }
{
    let count = text.len().min(LOOKED);
    let (first, _) = text.split_at(count);
    if first.contains(&b'-') { 0 } else { count }
}

/// The first digits of the text.
fn near_digits(text: &[u8]) -> FirstDigits
    ensures { AreNear text.now result }
{
    let mut bytes = [0; NEAR];
    let mut count = 0;
    for byte in text {
        if count == NEAR {
            return FirstDigits { bytes, count };
        }
        if *byte != b'-' {
            bytes[count] = *byte;
            count += 1;
        }
    }
    FirstDigits { bytes, count }
}

/// Goes back until at most so many digits are before the cursor.
fn go_back(text: &[u8], from: Cursor, number: usize) -> Cursor
    requires { Stands text.now from }
    ensures stands { Stands text.now result }
    ensures most { result.number ≤ number }
{
    let mut cursor = from;
    while cursor.number > number {
        cursor.place -= 1;
        if text[cursor.place] != b'-' {
            cursor.number -= 1;
        }
    }
    cursor
}

/// Goes forward to the digit with this number, or to the end of the text if there are no more digits.
fn go_on(text: &[u8], from: Cursor, number: usize) -> Cursor
    requires stands { Stands text.now from }
    requires most { from.number ≤ number }
    ensures stands { Stands text.now result }
    ensures there { slice_get text.now result.place ≡ slice_get (without_dashes text.now) number }
{
    let mut cursor = from;
    while let Some(byte) = text.get(cursor.place) {
        if *byte != b'-' {
            if cursor.number == number {
                return cursor;
            }
            cursor.number += 1;
        }
        cursor.place += 1;
    }
    cursor
}

impl<'a> Digits<'a> {
    /// The digits of the text.
    pub(crate) fn of(text: &'a [u8]) -> Self
        ensures { without_dashes result.text.now ≡ without_dashes text.now }
    {
        let clear = count_clear(text);
        let start = Cursor {
            place: clear,
            number: clear,
        };
        if clear > 0 || text.is_empty() {
            return Digits {
                text,
                clear,
                near: None,
                first: start,
            };
        }
        Digits {
            text,
            clear,
            near: Some(near_digits(text)),
            first: go_on(text, start, 0),
        }
    }

    /// The text, if it is known to have no dashes.
    pub(crate) fn plain(&self) -> Option<&'a [u8]>
        ensures { ForSome result (λ text. text.now ≡ without_dashes self.now.text.now) }
    {
        if self.clear == self.text.len() {
            Some(self.text)
        } else {
            None
        }
    }

    /// A cursor from which a walk begins.
    pub(crate) fn first(&self) -> Cursor
        ensures { Stands self.now.text.now result }
    {
        self.first
    }

    /// The digit with this number, which is one of the first digits that are kept beside the text.
    fn near(&self, near: &FirstDigits, number: usize) -> Option<u8>
        requires number { number < 32 }
        requires near { AreNear self.now.text.now near.now }
        ensures { result ≡ slice_get (without_dashes self.now.text.now) number }
    {
        if number < near.count {
            Some(near.bytes[number])
        } else {
            None
        }
    }

    /// The digit with this number. It moves the cursor there.
    fn walk_to(&self, number: usize, cursor: &mut Cursor) -> Option<u8>
        requires { Stands self.now.text.now cursor.old }
        ensures value { result ≡ slice_get (without_dashes self.now.text.now) number }
        ensures stands { Stands self.now.text.now cursor.new }
    {
        *cursor = go_on(self.text, go_back(self.text, *cursor, number), number);
        self.text.get(cursor.place).copied()
    }

    /// The digit with this number, counted from 0, or None if there are no more. After the bytes that are known to be no dashes, and after
    /// the digits that are kept beside the text, it moves the cursor there from the digit that was asked for before.
    pub(crate) fn at(&self, number: usize, cursor: &mut Cursor) -> Option<u8>
        requires { Stands self.now.text.now cursor.old }
        ensures value { result ≡ slice_get (without_dashes self.now.text.now) number }
        ensures stands { Stands self.now.text.now cursor.new }
    {
        if number < self.clear {
            return Some(self.text[number]);
        }
        if self.clear == self.text.len() {
            return None;
        }
        match &self.near {
            Some(near) if number < NEAR => self.near(near, number),
            _ => self.walk_to(number, cursor),
        }
    }

    /// Whether there is a digit with this number.
    pub(crate) fn has(&self, number: usize, cursor: &mut Cursor) -> bool
        requires { Stands self.now.text.now cursor.old }
        ensures value { result ≡ nat_lt number (length (without_dashes self.now.text.now)) }
        ensures stands { Stands self.now.text.now cursor.new }
    {
        self.at(number, cursor).is_some()
    }

    /// Whether there are fewer digits than this number.
    pub(crate) fn are_fewer(&self, number: usize, cursor: &mut Cursor) -> bool
        requires { Stands self.now.text.now cursor.old }
        ensures value { result ≡ nat_lt (length (without_dashes self.now.text.now)) number }
        ensures stands { Stands self.now.text.now cursor.new }
    {
        number > 0 && !self.has(number - 1, cursor)
    }
}
