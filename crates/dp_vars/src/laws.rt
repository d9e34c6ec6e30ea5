//! Laws about the definitions of this crate.
ghost use Rattle.std.specs.Prelude.{◌≡◌, ℕ, List, None};
ghost use Rattle.dp_vars.specs.Sights.{Sight};
ghost use Rattle.dp_vars.specs.Unknown.{first_unknown};
ghost use Rattle.dp_vars.specs.Values.{standard_functions};

/// States that the functions of this program are known, whatever the text and whatever is seen. It does nothing.
pub fn standard_functions_are_known()
    ensures { (sight : Sight) (text : List ℕ) → first_unknown standard_functions sight text ≡ None }
{}
