//! The frames that are open during a walk.

ghost use Rattle.std.specs.Prelude.{◌≡◌, ◌≤◌};
ghost use Rattle.dp_expr.specs.Trees.{most_depth};
ghost use Rattle.dp_expr.specs.Walk.{nesting};
ghost use Rattle.dp_expr.specs.steps.Frames.{frames_seen};

use crate::division::Division;
use crate::frame::Frame;
use crate::text_value::TextValue;
use smallvec::SmallVec;
use std::alloc::{AllocError, Global};

/// The greatest number of nested parentheses and unary operators.
pub const MOST_DEPTH: usize = 32;

/// The open frames, the innermost last. The first two need no memory on the heap.
#[derive(Drop)]
pub struct Stack<'a> {
    pub frames: SmallVec<Frame<'a>, 2>,
    pub depth: usize,
    ghost counted: { depth ≡ nesting (frames_seen frames.items) },
    ghost shallow: { depth ≤ most_depth },
}

impl<'a> Stack<'a> {
    ghost use Rattle.std.specs.Prelude.{◌≡◌, ◌≤◌, ◌∷◌, [], IfNone, IfSome, OnOk, is_some};
    ghost use Rattle.dp_expr.specs.Trees.{most_depth};
    ghost use Rattle.dp_expr.specs.steps.Texts.{value_seen};
    ghost use Rattle.dp_expr.specs.Walk.{depth_with, reduction};
    ghost use Rattle.dp_expr.specs.steps.Exact.{values_by};
    ghost use Rattle.dp_expr.specs.steps.Frames.{frame_seen, is_top_due};
    ghost use Rattle.dp_expr.specs.steps.Stacks.{stack_seen};

    pub fn new(alloc: Global) -> Self
        ensures { stack_seen result ≡ [] }
    {
        Stack {
            frames: SmallVec::new(alloc),
            depth: 0,
        }
    }

    /// Opens a frame. If memory runs out the frames are as before.
    pub fn push(&mut self, frame: Frame<'a>) -> Result<(), AllocError>
        requires { depth_with (frame_seen frame) self.old.depth ≤ most_depth }
        ensures { OnOk result (stack_seen self.new ≡ frame_seen frame.entry ∷ stack_seen self.old) }
    {
        let depth = self.depth + frame.depth();
        self.frames.push(frame)?;
        self.depth = depth;
        Ok(())
    }

    /// Removes and returns the innermost frame.
    pub fn pop(&mut self) -> Option<Frame<'a>>
        ensures none { IfNone result (stack_seen self.old ≡ []) }
        ensures some { IfSome result (λ frame. stack_seen self.old ≡ frame_seen frame ∷ stack_seen self.new) }
    {
        let frame = self.frames.pop()?;
        self.depth -= frame.depth();
        Some(frame)
    }

    /// Whether the innermost frame takes its operand before an operator of that level does.
    pub fn is_top_due(&self, level: u8) -> bool
        ensures { result ≡ is_top_due level (stack_seen self.now) }
    {
        match self.frames.as_slice().last() {
            Some(frame) => frame.is_due(level),
            None => false,
        }
    }

    /// Removes and returns the innermost frame if it is due before that level.
    fn pop_due(&mut self, level: u8) -> Option<Frame<'a>>
        ensures due { is_some result ≡ is_top_due level (stack_seen self.old) }
        ensures none { IfNone result (stack_seen self.new ≡ stack_seen self.old) }
        ensures some { IfSome result (λ frame. stack_seen self.old ≡ frame_seen frame ∷ stack_seen self.new) }
    {
        if self.is_top_due(level) {
            self.pop()
        } else {
            None
        }
    }

    /// The value after all frames that are due before that level have taken their operand.
    pub fn reduce(
        &mut self,
        level: u8,
        operand: Option<TextValue<'a>>,
        division: Division,
    ) -> Option<TextValue<'a>>
        ensures { reduction (values_by division) level (stack_seen self.old) (value_seen operand.entry)
            ≡ record { frames = stack_seen self.new; value = value_seen result } }
    {
        let mut value = operand;
        while let Some(frame) = self.pop_due(level) {
            value = frame.apply(value, division);
        }
        value
    }
}
