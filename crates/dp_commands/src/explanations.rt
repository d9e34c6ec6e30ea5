//! The explanations of refused events.
ghost use Rattle.std.specs.Prelude.{◌≡◌, ℕ, List};
ghost use Rattle.dp_machine.specs.declared.refusal.Refusal.{Refusal as refusals};

use dp_machine::Refusal;

/// The explanations of refused events.
pub trait Explanations {
    // The explanation of each refusal.
    ghost explanation_of: { refusals → List ℕ };

    /// The explanation of the refusal: lines, each of which ends with a line feed.
    fn explanation(refusal: Refusal) -> &'static str
        ensures { result.now ≡ explanation_of refusal };
}
