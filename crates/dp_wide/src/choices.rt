//! Choices between two sides, after the Asterisk documentation's page on the function `IF`.
ghost use Rattle.std.specs.Prelude.{◌≡◌};
ghost use Rattle.dp_wide.specs.Sides as spec;

use dp_conf::trim;
use dp_flow::chosen_side;

/// The value of `IF(condition?[side][:side])`, after the Asterisk documentation's page on the function `IF`: the side that is taken,
/// without blanks at its ends. The sides are separated like those of `GotoIf`, and a missing side is empty.
pub fn if_value(argument: &[u8]) -> &[u8]
    ensures { result.now ≡ spec.if_value argument.now }
{
    match chosen_side(argument) {
        None => b"",
        Some(side) => trim(side),
    }
}
