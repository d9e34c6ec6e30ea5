//! The value of an expression, as it is returned.

ghost use Rattle.std.specs.Prelude.{◌≡◌, ◌++◌, [], IfOk, OnErr, OnOk};
ghost use Rattle.dp_expr.specs.steps.Texts.{text_seen};

use crate::NoMemory;
use crate::text_value::TextValue;
use itoa::Buffer;
use std::alloc::Global;
use std::marker::Model;

/// The form in which a value is kept.
#[derive(Drop)]
pub(crate) enum HeldValue {
    Bytes(Vec<u8>),
    Number(i64),
}

/// The value of an expression. A computed number needs no memory on the heap.
///
/// A contract sees it as its bytes.
pub struct Value {
    held: HeldValue,
}

impl Drop for Value {
    #[inline(always)]
    fn drop(self) {
        let Value { held: _ } = self;
    }
}

impl Model for Value {
    ghost use Rattle.std.specs.Prelude.{ℕ, List};
    ghost use Rattle.dp_expr.specs.steps.Held.{held_bytes};

    ghost Value = { List ℕ };

    ghost view = { λ value. held_bytes value.held };
}

impl Value {
    /// The empty value. It never allocates.
    pub(crate) fn empty(alloc: Global) -> Self
        ensures { result ≡ [] }
    {
        Value {
            held: HeldValue::Bytes(Vec::new(alloc)),
        }
    }

    /// The value with this text. It fails only if memory runs out.
    pub(crate) fn of(alloc: Global, text: &TextValue<'_>) -> Result<Self, NoMemory>
        ensures { IfOk result (λ value. value ≡ text_seen text.now) }
    {
        let held = match text {
            TextValue::Written(operand) => HeldValue::Bytes(Vec::from_slice(alloc, operand.text)?),
            TextValue::Computed(number) => HeldValue::Number(*number),
        };
        Ok(Value { held })
    }

    /// Adds the value after other bytes. If memory runs out these are as before.
    pub fn push_onto(&self, bytes: &mut Vec<u8>) -> Result<(), NoMemory>
        ensures ok { OnOk result (bytes.new.items ≡ bytes.old.items ++ self.now) }
        ensures err { OnErr result (bytes.new.items ≡ bytes.old.items) }
    {
        match &self.held {
            HeldValue::Bytes(value) => bytes.extend_from_slice(value),
            HeldValue::Number(number) => {
                bytes.extend_from_slice(Buffer::new().format(*number).as_bytes())
            }
        }
    }
}
