//! Readers and writers that report whether one of their calls failed.
ghost use Rattle.std.specs.Prelude.{◌≡◌, ℕ, Bool, ◌||◌, List, Option, OnOk, OnErr, IfOk, false};
ghost use Rattle.std.specs.Result.{is_err};
ghost use Rattle.std.specs.Io.{ReadsAtMost};
ghost use Rattle.std.specs.Io.KnownBytes.{Appends, ReadConsumes};
ghost use Rattle.dp_conf.specs.Fronts.{AppendsFront};
ghost use Rattle.dp_conf.specs.Counts.{one_more};

use crate::fault::WriteFailed;
use std::io;
use std::io::{Read, Write};

/// A reader or a writer that remembers whether one of its calls has failed, and how many times it was read.
#[derive(Drop)]
pub struct Told<T> {
    inner: T,
    failed: bool,
    reads: u64,
}

impl<T> Told<T> {
    ghost use Rattle.dp_conf.specs.Told.{told_inner, told_failed, told_reads};

    /// The reader or the writer, before any call.
    pub fn new(inner: T) -> Self
        ensures inner { told_inner result ≡ inner }
        ensures failed { told_failed result ≡ false }
        ensures reads { told_reads result ≡ 0 }
    {
        Told {
            inner,
            failed: false,
            reads: 0,
        }
    }

    /// Whether a call has failed.
    pub fn has_failed(&self) -> bool
        ensures { result ≡ told_failed self.now }
    {
        self.failed
    }

    /// The reader or the writer itself.
    pub fn into_inner(self) -> T
        ensures { result ≡ told_inner self }
    {
        let Told {
            inner,
            failed: _,
            reads: _,
        } = self;
        inner
    }
}

/// A reader whose contract says whether one of its reads has failed.
pub trait ReadTold {
    // The bytes that reads will give from here on, if they are known.
    ghost remaining: { Self → Option (List ℕ) };

    // Whether a read has failed.
    ghost has_failed: { Self → Bool };

    // The number of reads so far, counted up to the greatest number of 64 bits.
    ghost reads: { Self → ℕ };

    /// Reads some bytes into the buffer and returns their number, which is zero only at the end or if the buffer is empty.
    fn read_told(&mut self, buffer: &mut [u8]) -> io::Result<usize>
        ensures bound { ReadsAtMost result buffer.new }
        ensures bytes { ReadConsumes (remaining self.old) (remaining self.new) result buffer.new }
        ensures told { has_failed self.new ≡ (has_failed self.old || is_err result) }
        ensures counted { reads self.new ≡ one_more (reads self.old) };
}

impl<R: Read> ReadTold for Told<R> {
    ghost remaining = { λ told. R.remaining told.inner };

    ghost has_failed = { λ told. told.failed };

    ghost reads = { λ told. told.reads };

    fn read_told(&mut self, buffer: &mut [u8]) -> io::Result<usize> {
        let Told {
            inner,
            failed,
            reads,
        } = self;
        let result = inner.read(buffer);
        *failed = *failed || result.is_err();
        *reads = reads.saturating_add(1);
        result
    }
}

/// A writer whose contract says whether one of its writes has failed.
pub trait WriteTold {
    // The bytes that the writer contains, if they are known.
    ghost contents: { Self → Option (List ℕ) };

    // Whether a write has failed.
    ghost has_failed: { Self → Bool };

    /// Writes all the bytes, or fails if a write failed. What was written until then is a prefix of them.
    fn write_told(&mut self, bytes: &[u8]) -> Result<(), WriteFailed>
        ensures ok { OnOk result (Appends (contents self.old) (contents self.new) bytes.now) }
        ensures err { OnErr result (AppendsFront (contents self.old) (contents self.new) bytes.now) }
        ensures told { has_failed self.new ≡ (has_failed self.old || is_err result) };
}

/// Writes all the bytes, unless a write returns an error or takes none of them.
fn write_left<W: Write>(writer: &mut W, bytes: &[u8]) -> Result<(), WriteFailed>
    ensures ok { OnOk result (Appends (W.contents writer.old) (W.contents writer.new) bytes.now) }
    ensures err { OnErr result (AppendsFront (W.contents writer.old) (W.contents writer.new) bytes.now) }
{
    let mut left = bytes;
    while !left.is_empty() {
        match writer.write(left) {
            Ok(0) => return Err(WriteFailed),
            Ok(count) => left = &left[count..],
            Err(_) => return Err(WriteFailed),
        }
    }
    Ok(())
}

impl<W: Write> WriteTold for Told<W> {
    ghost contents = { λ told. W.contents told.inner };

    ghost has_failed = { λ told. told.failed };

    fn write_told(&mut self, bytes: &[u8]) -> Result<(), WriteFailed> {
        let Told {
            inner,
            failed,
            reads: _,
        } = self;
        let result = write_left(inner, bytes);
        *failed = *failed || result.is_err();
        result
    }
}
