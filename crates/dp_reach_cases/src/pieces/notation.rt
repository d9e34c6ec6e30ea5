//! Pieces as a line writes them: a byte as it is, `{SET}` for one byte of a set and `{SET}*` for any bytes of one, where `a-b` in a set is
//! a range.
use dp_case_tables::bytes_of;
use dp_pieces::{ByteSet, Piece};
use std::alloc::{AllocError, Global};

/// Puts a range of bytes in the set.
fn put_range(set: &mut ByteSet, low: u8, high: u8) {
    for byte in low..=high {
        set.put(byte);
    }
}

/// The state of reading a notation: outside braces, in braces, or after their end.
#[derive(Clone, Copy)]
enum NotationState {
    Text,
    Set,
    Closed,
}

/// The pieces so far, the set in braces, the byte from which a range may go on, and whether a dash follows it.
#[derive(Drop)]
struct Notation {
    pieces: Vec<Piece>,
    state: NotationState,
    set: ByteSet,
    low: Option<u8>,
    is_range: bool,
}

impl Notation {
    /// Reads a byte outside braces.
    fn take_text(&mut self, byte: u8) -> Result<(), AllocError> {
        if byte == b'{' {
            self.state = NotationState::Set;
            self.set = ByteSet::none();
            self.low = None;
            self.is_range = false;
            return Ok(());
        }
        self.state = NotationState::Text;
        self.pieces.push(Piece::Known(byte))?;
        Ok(())
    }

    /// Puts a byte in the set, or the range that ends with it.
    fn put(&mut self, byte: u8) {
        match (self.low, self.is_range) {
            (Some(low), true) => {
                put_range(&mut self.set, low, byte);
                self.low = None;
                self.is_range = false;
            }
            (Some(_), false) if byte == b'-' => self.is_range = true,
            _ => {
                self.set.put(byte);
                self.low = Some(byte);
            }
        }
    }

    /// Reads a byte in braces. A dash at their end belongs to the set.
    fn take_set(&mut self, byte: u8) -> Result<(), AllocError> {
        if byte != b'}' {
            self.put(byte);
            return Ok(());
        }
        if self.is_range {
            self.set.put(b'-');
        }
        self.state = NotationState::Closed;
        self.pieces.push(Piece::OneOf(self.set))?;
        Ok(())
    }

    /// Reads the byte after the end of braces: `*` makes one byte any bytes.
    fn take_closed(&mut self, byte: u8) -> Result<(), AllocError> {
        if byte != b'*' {
            return self.take_text(byte);
        }
        self.state = NotationState::Text;
        let _one = self.pieces.pop();
        self.pieces.push(Piece::AnyOf(self.set))?;
        Ok(())
    }

    /// Reads a byte.
    fn take(&mut self, byte: u8) -> Result<(), AllocError> {
        match self.state {
            NotationState::Text => self.take_text(byte),
            NotationState::Set => self.take_set(byte),
            NotationState::Closed => self.take_closed(byte),
        }
    }
}

/// The pieces of a notation, in which bytes have the escapes of `bytes_of`.
pub(super) fn pieces_of(alloc: Global, notation: &str) -> Result<Vec<Piece>, AllocError> {
    let mut reading = Notation {
        pieces: Vec::new(alloc),
        state: NotationState::Text,
        set: ByteSet::none(),
        low: None,
        is_range: false,
    };
    for byte in &bytes_of(alloc, notation)? {
        reading.take(*byte)?;
    }
    let Notation { pieces, .. } = reading;
    Ok(pieces)
}

/// Adds the bytes of a set between braces.
fn push_set(out: &mut String, set: &ByteSet) -> Result<(), AllocError> {
    out.push('{')?;
    for byte in 0..=255u8 {
        if set.has(byte) {
            out.push(char::from(byte))?;
        }
    }
    out.push('}')
}

fn push_piece(out: &mut String, piece: &Piece) -> Result<(), AllocError> {
    match piece {
        Piece::Known(byte) => out.push(char::from(*byte)),
        Piece::OneOf(set) => push_set(out, set),
        Piece::AnyOf(set) => {
            push_set(out, set)?;
            out.push('*')
        }
    }
}

/// Adds the notation of the pieces, each byte of a set on its own.
pub(super) fn push_pieces(out: &mut String, pieces: &[Piece]) -> Result<(), AllocError> {
    for piece in pieces {
        push_piece(out, piece)?;
    }
    Ok(())
}
