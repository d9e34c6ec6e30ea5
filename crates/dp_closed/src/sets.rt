//! The bytes of pieces and of texts.
ghost use Rattle.std.specs.Prelude.{◌≡◌};
ghost use Rattle.dp_pieces.specs.Pieces.{bytes_in, pieces_set};
ghost use Rattle.dp_pieces.specs.Sets.{set_by};
ghost use Rattle.dp_pieces.specs.Shown.{shown_all};
ghost use Rattle.dp_machine.specs.Events.{is_digit};

use dp_pieces::{ByteSet, Piece, add_pieces};

/// The bytes of pieces.
pub fn set_of(pieces: &[Piece]) -> ByteSet
    ensures { set_by result ≡ pieces_set (shown_all pieces.now) }
{
    let mut set = ByteSet::none();
    add_pieces(&mut set, pieces);
    set
}

/// The bytes of a text.
pub fn bytes_in(text: &[u8]) -> ByteSet
    ensures { set_by result ≡ bytes_in text.now }
{
    let mut set = ByteSet::none();
    for byte in text {
        set.put(*byte);
    }
    set
}

/// The digits of a telephone.
pub(crate) fn digit_set() -> ByteSet
    ensures { set_by result ≡ is_digit }
{
    bytes_in(b"0123456789ABCD*#")
}
