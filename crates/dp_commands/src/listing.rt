//! The listing of a dialplan, written a block at a time.
ghost use Rattle.std.specs.Prelude.{◌≡◌, ◌||◌, [], OnOk, OnErr, false};
ghost use Rattle.std.specs.Result.{is_err};
ghost use Rattle.std.specs.Io.KnownBytes.{Appends};
ghost use Rattle.dp_conf.specs.Answers.{Answers};
ghost use Rattle.dp_conf.specs.Fronts.{AppendsFront};
ghost use Rattle.dp_commands.specs.Block.{waiting};
ghost use Rattle.dp_commands.specs.Faults.{is_write_failed, reason_of};
ghost use Rattle.dp_commands.specs.Report as report;
ghost use Rattle.dp_lister.specs.Listing.{listing};

use crate::block::{Block, LEAST_LEFT, ROOM};
use crate::fault::PbxFault;
use crate::report::{PlanWithNotes, read_plan};
use dp_conf::{WriteFailed, WriteTold};
use dp_lister::{ListingSink, list_to};
use dp_plan::Dialplan;
use std::alloc::Global;

/// What writes a text a block at a time: the block of bytes that wait, the writer, and whether a write has failed. It owns no memory, so
/// that the contracts know what its end leaves in the writer.
struct Spool<'w, W> {
    block: &'w mut Block,
    writer: &'w mut W,
    sent: Result<(), WriteFailed>,
}

impl<'w, W: WriteTold> Spool<'w, W> {
    ghost use Rattle.std.specs.Prelude.{◌≡◌, [], Ok};
    ghost use Rattle.dp_lister.specs.Listing.{listing};
    ghost use Rattle.dp_commands.specs.Block.{waiting};
    ghost use Rattle.dp_commands.specs.steps.Spools.{Spools, spooled};

    /// A spool with nothing that waits but what the block has.
    fn new(block: &'w mut Block, writer: &'w mut W) -> Self
        ensures same_reference { result.writer.ghost_name ≡ writer.entry.ghost_name }
        ensures writer { result.writer.now ≡ writer.old }
        ensures block { result.block.now ≡ block.old }
        ensures sent { result.sent ≡ Ok tt }
    {
        Spool {
            block,
            writer,
            sent: Ok(()),
        }
    }

    /// Writes what waits, unless a write has failed. Nothing waits afterwards.
    fn send(&mut self)
        ensures same_reference { self.new.writer.ghost_name ≡ self.old.writer.ghost_name }
        ensures empty { self.new.block.now ≡ waiting [] [] }
        ensures sends { Spools (spooled W.contents W.has_failed self.old.writer.now self.old.block.now self.old.sent)
            (spooled W.contents W.has_failed self.new.writer.now self.new.block.now self.new.sent) [] }
    {
        self.block.close_line();
        match self.sent {
            Ok(()) => self.sent = self.block.send(self.writer),
            Err(_) => self.block.keep_whole(0),
        }
    }

    /// Writes what waits and then these bytes, unless a write has failed.
    fn pass(&mut self, bytes: &[u8])
        ensures same_reference { self.new.writer.ghost_name ≡ self.old.writer.ghost_name }
        ensures passes { Spools (spooled W.contents W.has_failed self.old.writer.now self.old.block.now self.old.sent)
            (spooled W.contents W.has_failed self.new.writer.now self.new.block.now self.new.sent) bytes.now }
    {
        self.send();
        if self.sent.is_ok() {
            self.sent = self.writer.write_told(bytes);
        }
    }

    /// Writes the canonical listing of a dialplan after what waits, unless a write fails. Nothing waits afterwards.
    fn list(&mut self, plan: &Dialplan)
        ensures same_reference { self.new.writer.ghost_name ≡ self.old.writer.ghost_name }
        ensures empty { self.new.block.now ≡ waiting [] [] }
        ensures lists { Spools (spooled W.contents W.has_failed self.old.writer.now self.old.block.now self.old.sent)
            (spooled W.contents W.has_failed self.new.writer.now self.new.block.now self.new.sent) (listing plan.now) }
    {
        list_to(plan, self);
        self.send();
    }
}

impl<W: WriteTold> ListingSink for Spool<'_, W> {
    ghost use Rattle.std.specs.Prelude.{◌≡◌};
    ghost use Rattle.dp_commands.specs.laws.Spools.{spool_laws};
    ghost use Rattle.dp_commands.specs.steps.Spools.{Spools, spooled};

    ghost takes = { λ old new bytes. (new.writer.ghost_name ≡ old.writer.ghost_name)
        × Spools (spooled W.contents W.has_failed old.writer.now old.block.now old.sent)
        (spooled W.contents W.has_failed new.writer.now new.block.now new.sent) bytes };

    ghost laws = { spool_laws (λ spool. spool.writer.ghost_name) (λ spool. spooled W.contents W.has_failed spool.writer.now spool.block.now spool.sent) };

    fn has_failed(&self) -> bool {
        self.sent.is_err()
    }

    /// Adds the bytes to those that wait, and writes these if they fill the block. Many bytes at once are written without a copy, and so
    /// are bytes for which there is no memory: so the block never grows, and a listing that has begun does not end for want of memory. As
    /// a part of its callers it takes a third of the instructions.
    #[inline(always)]
    fn put(&mut self, bytes: &[u8]) {
        if bytes.len() > LEAST_LEFT || self.block.push(bytes).is_err() {
            self.pass(bytes);
        } else if self.block.is_full() {
            self.send();
        }
    }
}

/// Writes the canonical listing of a dialplan by an empty block.
fn write_listing<W: WriteTold>(
    block: &mut Block,
    plan: &Dialplan,
    writer: &mut W,
) -> Result<(), WriteFailed>
    requires { block.old ≡ waiting [] [] }
    ensures ok { OnOk result (Appends (W.contents writer.old) (W.contents writer.new) (listing plan.now)) }
    ensures err { OnErr result (AppendsFront (W.contents writer.old) (W.contents writer.new) (listing plan.now)) }
    ensures told { W.has_failed writer.new ≡ (W.has_failed writer.old || is_err result) }
{
    let mut spool = Spool::new(block, writer);
    spool.list(plan);
    let Spool {
        block: _,
        writer: _,
        sent,
    } = spool;
    sent
}

/// The dialplan of a text, whose listing is asked for, or the text's fault.
#[tactic(auto, unfolding(crate::specs::Report::list_of))]
fn read_to_list(alloc: Global, plan: &[u8]) -> Result<PlanWithNotes, PbxFault>
    ensures listing { Answers (λ read. listing read.plan) reason_of result (report.list_of plan.now) }
    ensures quiet { is_write_failed result ≡ false }
{
    let read = read_plan(alloc, plan)?;
    Ok(read)
}

/// Loads a dialplan and writes its canonical listing, a block at a time. The status is 0; its notes are not written.
///
/// A faulty dialplan has its first fault, and nothing is written. Memory runs out only before the first write. If a write fails, what was
/// written stays written.
pub fn list_plan<W: WriteTold>(alloc: Global, plan: &[u8], writer: &mut W) -> Result<u8, PbxFault>
    ensures writes { report.Reports (W.contents writer.old) (W.contents writer.new) (report.list_of plan.now) result }
    ensures told { W.has_failed writer.new ≡ (W.has_failed writer.old || is_write_failed result) }
{
    let read = read_to_list(alloc, plan)?;
    let mut block = Block::new(alloc, ROOM)?;
    write_listing(&mut block, &read.plan, writer)?;
    Ok(0)
}
