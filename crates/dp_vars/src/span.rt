//! Places in a text.
ghost use Rattle.std.specs.Prelude.{◌≡◌, ◌-◌, drop, min, take};
ghost use Rattle.dp_vars.specs.Spans.{text_at};
ghost use Rattle.dp_vars.specs.steps.Spans.{after_of, front_of};

/// A part of a text, from one place to another.
#[derive(Clone, Copy)]
pub(crate) struct Span {
    pub(crate) from: usize,
    pub(crate) to: usize,
}

/// At most this many bytes from the front.
fn front(text: &[u8], size: usize) -> &[u8]
    ensures { result.now ≡ take size text.now }
{
    text.split_at(size.min(text.len())).0
}

/// The text after this many bytes.
fn after(text: &[u8], size: usize) -> &[u8]
    ensures { result.now ≡ drop size text.now }
{
    text.split_at(size.min(text.len())).1
}

impl Span {
    /// The empty span at a place.
    pub(crate) fn at(place: usize) -> Self
        ensures { result ≡ record { from = place; to = place } }
    {
        Span {
            from: place,
            to: place,
        }
    }

    /// The first bytes of it, this many.
    pub(crate) fn front(self, size: usize) -> Self
        ensures { result ≡ front_of self size }
    {
        Span {
            from: self.from,
            to: self.to.min(self.from.saturating_add(size)),
        }
    }

    /// The rest after them.
    pub(crate) fn after(self, size: usize) -> Self
        ensures { result ≡ after_of self size }
    {
        Span {
            from: self.to.min(self.from.saturating_add(size)),
            to: self.to,
        }
    }

    /// The bytes of the span in the text, as far as the text goes.
    pub(crate) fn of(self, text: &[u8]) -> &[u8]
        ensures { result.now ≡ text_at text.now self }
    {
        front(after(text, self.from), self.to.saturating_sub(self.from))
    }
}
