//! The block in which lines wait until they are written.
ghost use Rattle.std.specs.Prelude.{◌≡◌, ◌++◌, ◌||◌, ◌∷◌, [], IfOk, OnOk, OnErr};
ghost use Rattle.std.specs.Io.KnownBytes.{Appends};
ghost use Rattle.std.specs.Result.{is_err};
ghost use Rattle.dp_conf.specs.Fronts.{AppendsFront};

use dp_conf::{WriteFailed, WriteTold};
use dp_plan::NoMemory;
use std::alloc::Global;
use std::marker::Model;

/// The room of a run's block, in bytes.
pub(crate) const ROOM: usize = 65_536;

/// A block is full if it has less room left than this number of bytes. A longer line makes it grow.
pub(crate) const LEAST_LEFT: usize = 4_096;

/// Bytes that wait to be written: whole lines, then the start of the next line.
#[derive(Drop)]
pub struct Block {
    bytes: Vec<u8>,
    // How many of the bytes are whole lines.
    whole: usize,
}

impl Model for Block {
    ghost use Rattle.std.specs.Prelude.{◌≤◌, length, take, drop};
    ghost use Rattle.dp_commands.specs.Block.{WaitingBytes};

    ghost Value = { WaitingBytes };

    ghost view = { λ block. record { whole = take block.whole block.bytes.items; begun = drop block.whole block.bytes.items } };

    ghost invariant = { λ block. block.whole ≤ length block.bytes.items };
}

impl Block {
    ghost use Rattle.std.specs.Prelude.{◌≡◌, ◌++◌, ◌||◌, ◌∷◌, [], length, take, IfOk, OnOk, OnErr};
    ghost use Rattle.dp_commands.specs.Block.{waiting};

    /// An empty block with room for this number of bytes. It fails only if memory runs out.
    pub fn new(alloc: Global, room: usize) -> Result<Self, NoMemory>
        ensures { IfOk result (λ block. block ≡ waiting [] []) }
    {
        let bytes = Vec::with_capacity(alloc, room)?;
        Ok(Block { bytes, whole: 0 })
    }

    /// Adds bytes to the line that was begun. If memory runs out the whole lines are as before, as with a single byte. Many names are one
    /// byte, which is added without a call that copies memory.
    #[inline(always)]
    pub fn push(&mut self, bytes: &[u8]) -> Result<(), NoMemory>
        ensures kept { self.new.whole ≡ self.old.whole }
        ensures ok { OnOk result (self.new.begun ≡ self.old.begun ++ bytes.now) }
        ensures err { OnErr result (self.new ≡ self.old) }
    {
        match bytes {
            [byte] => self.push_byte(*byte),
            _ => self.bytes.extend_from_slice(bytes),
        }
    }

    /// Adds one byte to the line that was begun.
    #[inline(always)]
    pub fn push_byte(&mut self, byte: u8) -> Result<(), NoMemory>
        ensures kept { self.new.whole ≡ self.old.whole }
        ensures ok { OnOk result (self.new.begun ≡ self.old.begun ++ byte ∷ []) }
        ensures err { OnErr result (self.new ≡ self.old) }
    {
        self.bytes.push(byte)?;
        Ok(())
    }

    /// The line that was begun.
    pub fn bytes(&self) -> &[u8]
        ensures { result.now ≡ self.now.begun }
    {
        &self.bytes[self.whole..]
    }

    /// Begins a line: a line that was begun before is dropped.
    pub fn begin_line(&mut self)
        ensures { self.new ≡ waiting self.old.whole [] }
    {
        self.bytes.truncate(self.whole);
    }

    /// Adds the line that was begun to the whole lines.
    pub(crate) fn close_line(&mut self)
        ensures { self.new ≡ waiting (self.old.whole ++ self.old.begun) [] }
    {
        self.whole = self.bytes.len();
    }

    /// Ends the line that was begun.
    pub fn end_line(&mut self) -> Result<(), NoMemory>
        ensures ok { OnOk result (self.new ≡ waiting (self.old.whole ++ (self.old.begun ++ 10 ∷ [])) []) }
        ensures err { OnErr result (self.new.whole ≡ self.old.whole) }
    {
        self.push_byte(b'\n')?;
        self.close_line();
        Ok(())
    }

    /// How many bytes the whole lines have.
    pub fn whole_len(&self) -> usize
        ensures { result ≡ length self.now.whole }
    {
        self.whole
    }

    /// Keeps this many of the first bytes of the whole lines, all of them if there are fewer. The others are dropped, and so is a line that
    /// was begun.
    pub fn keep_whole(&mut self, length: usize)
        ensures { self.new ≡ waiting (take length self.old.whole) [] }
    {
        self.whole = self.whole.min(length);
        self.begin_line();
    }

    /// Whether the block has hardly any room for another line.
    pub(crate) fn is_full(&self) -> bool {
        self.bytes.len() > ROOM - LEAST_LEFT
    }

    /// Writes the whole lines. Nothing waits afterwards; if the write fails, a prefix of the lines was written.
    pub(crate) fn send<W: WriteTold>(&mut self, writer: &mut W) -> Result<(), WriteFailed>
        ensures empty { self.new ≡ waiting [] [] }
        ensures ok { OnOk result (Appends (W.contents writer.old) (W.contents writer.new) self.old.whole) }
        ensures err { OnErr result (AppendsFront (W.contents writer.old) (W.contents writer.new) self.old.whole) }
        ensures told { W.has_failed writer.new ≡ (W.has_failed writer.old || is_err result) }
    {
        let sent = writer.write_told(&self.bytes[..self.whole]);
        self.bytes.clear();
        self.whole = 0;
        sent
    }
}
