//! An extension, after the Asterisk documentation's page on the special extensions of dialplans.
ghost use Rattle.std.specs.Prelude.{◌≡◌, [], ◌∷◌, nat_eq, Some};
ghost use Rattle.std.specs.Cmp.Lexicographic.{pointwise, nat_list_eq_equiv};
ghost use Rattle.std.specs.Cmp.{partial_equiv_from_equiv};
ghost use Rattle.bstr.specs.Show.{debug_text};
ghost use Rattle.dp_conf.specs.Printed.{printed_text};

use bstr::BStr;
use dp_conf::{NoMemory, Text};
use std::marker::Model;
use std::{fmt, slice};

/// The form in which the bytes of an extension are kept.
#[derive(Drop)]
pub(crate) enum HeldExten {
    Text(Text),
    Byte(u8),
}

/// An extension. One of a single byte is not allocated, such as `i`, `t` and `h`, to which a channel goes by itself, or a single digit.
///
/// A contract sees it as its bytes. Two extensions are equal if their bytes are equal.
pub struct Exten {
    held: HeldExten,
}

impl Drop for Exten {
    #[inline(always)]
    fn drop(self) {
        let Exten { held: _ } = self;
    }
}

impl Model for Exten {
    ghost use Rattle.std.specs.Prelude.{ℕ, List};
    ghost use Rattle.dp_app.specs.steps.Extensions.{held_bytes};

    ghost Value = { List ℕ };

    ghost view = { λ exten. held_bytes exten.held };
}

impl Exten {
    /// The extension with a text. It never allocates, and frees the text of a single byte.
    pub fn new(text: Text) -> Self
        ensures { result ≡ text }
    {
        match text.bytes() {
            [byte] => Exten::of_byte(*byte),
            _ => Exten {
                held: HeldExten::Text(text),
            },
        }
    }

    /// The extension with one byte. It never allocates.
    pub fn of_byte(byte: u8) -> Self
        ensures { result ≡ byte ∷ [] }
    {
        Exten {
            held: HeldExten::Byte(byte),
        }
    }

    /// The bytes of the extension.
    pub fn bytes(&self) -> &[u8]
        ensures { result.now ≡ self.now }
    {
        match &self.held {
            HeldExten::Text(text) => text.bytes(),
            HeldExten::Byte(byte) => slice::from_ref(byte),
        }
    }
}

impl Clone for Exten {
    ghost is_clone = { λ exten copy. copy ≡ exten };

    fn clone(&self) -> Result<Self, NoMemory> {
        match &self.held {
            HeldExten::Text(text) => {
                let text = text.clone()?;
                Ok(Exten::new(text))
            }
            HeldExten::Byte(byte) => Ok(Exten::of_byte(*byte)),
        }
    }
}

impl PartialEq for Exten {
    ghost eq = { pointwise nat_eq };

    ghost laws = { partial_equiv_from_equiv nat_list_eq_equiv };

    fn eq(&self, other: &Exten) -> bool {
        self.bytes() == other.bytes()
    }
}

impl Eq for Exten {
    ghost laws = { nat_list_eq_equiv };
}

impl fmt::Debug for Exten {
    ghost debug_output = { λ exten. debug_text exten };

    fn fmt<W: fmt::Write>(&self, f: &mut fmt::Formatter<W>) -> fmt::Result {
        fmt::Debug::fmt(&BStr::new(self.bytes()), f)
    }
}

impl fmt::Display for Exten {
    ghost output = { λ exten. Some (printed_text exten) };

    fn fmt<W: fmt::Write>(&self, f: &mut fmt::Formatter<W>) -> fmt::Result {
        fmt::Display::fmt(&BStr::new(self.bytes()), f)
    }
}
