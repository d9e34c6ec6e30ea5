//! The nesting of groups in a text.
ghost use Rattle.std.specs.Prelude.{◌≡◌, ◌+◌, ◌^◌, ◌<◌, [], IfOk, OnErr, OnOk};
ghost use Rattle.dp_conf.specs.Groups.{Reading, IsReading, depth_of};
ghost use Rattle.dp_conf.specs.GroupsRead.{first_of, nesting_of};
ghost use Rattle.dp_conf.specs.steps.Nest as nests;

use crate::groups::{GroupKind, Mark, next_mark};
use std::alloc::{AllocError, Global};
use std::marker::Model;

/// An opening that waits for its end, with the nesting of the text before it on its level.
#[derive(Clone, Copy)]
pub(crate) struct WaitingGroup {
    kind: GroupKind,
    deepest: usize,
}

/// The openings that wait, and the nesting of the text after the innermost one.
#[derive(Drop)]
struct Nest {
    waiting: Vec<WaitingGroup>,
    deepest: usize,
}

impl Model for Nest {
    ghost use Rattle.std.specs.Prelude.{reverse};
    ghost use Rattle.dp_conf.specs.steps.Nest.{NestOf};

    ghost Value = { NestOf };

    ghost view = { λ nest. record { waiting = reverse nest.waiting.items; deepest = nest.deepest } };
}

impl Nest {
    fn new(alloc: Global) -> Self
        ensures { result ≡ record { waiting = []; deepest = 0 } }
    {
        Nest {
            waiting: Vec::new(alloc),
            deepest: 0,
        }
    }

    /// The kind of the innermost waiting opening.
    fn innermost(&self) -> Option<GroupKind>
        ensures { result ≡ first_of (nests.kinds_of self.now.waiting) }
    {
        match self.waiting.last() {
            Some(waiting) => Some(waiting.kind),
            None => None,
        }
    }

    /// A group ends.
    fn close(&mut self)
        requires { self.old.deepest + 1 < 2 ^ 64 }
        ensures { self.new ≡ nests.after_group self.old.waiting self.old.deepest }
    {
        if let Some(waiting) = self.waiting.pop() {
            self.deepest = waiting.deepest.max(self.deepest + 1);
        }
    }

    /// A group opens. If memory runs out nothing changes.
    fn open(&mut self, kind: GroupKind) -> Result<(), AllocError>
        ensures ok { OnOk result (self.new ≡ nests.nest_after (Mark.Opening kind) self.old) }
        ensures err { OnErr result (self.new ≡ self.old) }
    {
        let deepest = self.deepest;
        self.waiting.push(WaitingGroup { kind, deepest })?;
        self.deepest = 0;
        Ok(())
    }

    /// Takes a mark. If memory runs out nothing changes.
    fn take(&mut self, mark: Mark) -> Result<(), AllocError>
        requires { self.old.deepest + 1 < 2 ^ 64 }
        ensures ok { OnOk result (self.new ≡ nests.nest_after mark self.old) }
        ensures err { OnErr result (self.new ≡ self.old) }
    {
        match mark {
            Mark::End => {
                self.close();
                Ok(())
            }
            Mark::Opening(kind) => self.open(kind),
            Mark::Byte(_) => Ok(()),
        }
    }

    /// The nesting at the end of the text.
    fn finish(self) -> usize
        ensures { result ≡ nests.deepest_in self.waiting self.deepest }
    {
        let Nest {
            mut waiting,
            mut deepest,
        } = self;
        while let Some(last) = waiting.pop() {
            deepest = last.deepest.max(deepest);
        }
        deepest
    }
}

/// The nesting of groups in the text: the greatest number of groups inside each other.
///
/// It reads the text once. An opening without an end is not a group, whatever comes after it.
///
/// It fails only if memory runs out.
pub fn nesting(alloc: Global, text: &[u8]) -> Result<usize, AllocError>
    // The depth of the text's one reading.
    ensures reading { (reading : Reading) → IsReading text.now reading → IfOk result (λ depth. depth ≡ depth_of reading) }
    // The same, given by a function.
    ensures exact { IfOk result (λ depth. depth ≡ nesting_of text.now) }
{
    // Only a `$` opens a group.
    if !text.contains(&b'$') {
        return Ok(0);
    }
    let mut nest = Nest::new(alloc);
    let mut rest = text;
    while let Some((mark, after)) = next_mark(rest, nest.innermost()) {
        nest.take(mark)?;
        rest = after;
    }
    Ok(nest.finish())
}
