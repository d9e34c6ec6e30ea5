//! Laws about the definitions of this crate.
ghost use Rattle.std.specs.Prelude.{ℕ, List};
ghost use Rattle.dp_pieces.specs.Names.{IsWithin, Names};
ghost use Rattle.dp_pieces.specs.Pieces.{Fits};
ghost use Rattle.dp_vars.specs.Sights.{Sight};
ghost use Rattle.dp_vars.specs.Values.{expansion_with};
ghost use Rattle.dp_wide.specs.Functions.{wide_functions};
ghost use Rattle.dp_wide_pieces.specs.WideTexts.{wide_text_pieces};

/// States that the expansion of a text by the functions of the wide table fits its pieces, for everything that may be seen within what is
/// known of the names. It does nothing.
pub fn wide_expansion_fits()
    ensures { (names : Names) (sight : Sight) (text : List ℕ) → IsWithin names sight
        → Fits (wide_text_pieces names text) (expansion_with wide_functions sight text) }
{}
