//! The question.
ghost use Rattle.std.specs.Prelude.{◌≡◌};
ghost use Rattle.std.specs.Option.{unwrap_or};
ghost use Rattle.dp_answer.specs.Asks.{ask_of, usual_caller, usual_exten};

use crate::ask_parts::{USUAL_CALLER, USUAL_EXTEN, given_or};

/// The question on a dialplan about phone calls that come in at a context.
#[derive(Clone, Copy, Debug, PartialEq, Eq)]
pub struct Ask<'a> {
    /// The context where the call comes in.
    pub context: &'a [u8],
    /// The context for which the question is whether the call may run one of its entries; without one all entries are reported.
    pub target: Option<&'a [u8]>,
    /// The contexts where other calls come in, separated by commas; by default every context of the dialplan.
    pub starts: Option<&'a [u8]>,
    /// The bytes of a dialled extension, as ranges; by default `0-9A-Za-z*#+_.`.
    pub exten: Option<&'a [u8]>,
    /// The bytes of a caller's number, as ranges; by default `0-9+`.
    pub caller: Option<&'a [u8]>,
    /// The bytes of what names are set to from outside, as ranges; by default nothing is set.
    pub facts: Option<&'a [u8]>,
}

impl<'a> Ask<'a> {
    ghost use Rattle.std.specs.Prelude.{◌≡◌};
    ghost use Rattle.std.specs.Option.{unwrap_or};
    ghost use Rattle.dp_answer.specs.Asks.{ask_of, usual_caller, usual_exten};

    /// The bytes of a dialled extension, as ranges: the given ones, or else the default ones.
    pub fn extension_bytes(&self) -> &'a [u8]
        ensures { result.now ≡ unwrap_or (ask_of self.now).exten usual_exten }
    {
        given_or(self.exten, USUAL_EXTEN)
    }

    /// The bytes of a caller's number, as ranges: the given ones, or else the default ones.
    pub fn caller_bytes(&self) -> &'a [u8]
        ensures { result.now ≡ unwrap_or (ask_of self.now).caller usual_caller }
    {
        given_or(self.caller, USUAL_CALLER)
    }
}
