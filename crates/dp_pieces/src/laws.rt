//! Laws about the definitions of this crate.
ghost use Rattle.std.specs.Prelude.{◌≡◌, ℕ, List, true};
ghost use Rattle.dp_conf.specs.Blanks.{trim};
ghost use Rattle.dp_conf.specs.Cut.{before_last, cut_once};
ghost use Rattle.dp_conf.specs.Levels.{arguments_of, cut_outside};
ghost use Rattle.dp_pieces.specs.Arguments.{are_clean, shapes_of};
ghost use Rattle.dp_pieces.specs.Bytes.{IsPart, Within};
ghost use Rattle.dp_pieces.specs.Cuts.{cut_known, cut_last, cut_level, cut_pieces};
ghost use Rattle.dp_pieces.specs.Fitting.{AllFit, IsCutAs, IsCutKnown, IsLast};
ghost use Rattle.dp_pattern.specs.Matches.{Matches};
ghost use Rattle.dp_pattern.specs.Name.{Meaning};
ghost use Rattle.dp_pieces.specs.Met.{after_match};
ghost use Rattle.dp_pieces.specs.Names.{IsWithin, Names, part_pieces};
ghost use Rattle.dp_pieces.specs.Pieces.{Fits, PieceOf, pieces_set};
ghost use Rattle.dp_pieces.specs.Texts.{text_pieces};
ghost use Rattle.dp_pieces.specs.Trimmed.{without_end_blanks};
ghost use Rattle.dp_vars.specs.Parts.{part};
ghost use Rattle.dp_vars.specs.Sights.{Sight};
ghost use Rattle.dp_vars.specs.Values.{expansion};
ghost use Rattle.dp_vars.specs.declared.part.Selection.{Selection};

/// States that the expansion of a text fits its pieces, for everything that may be seen within what is known of the names. It does nothing.
pub fn expansion_fits()
    ensures { (names : Names) (sight : Sight) (text : List ℕ) → IsWithin names sight → Fits (text_pieces names text) (expansion sight text) }
{}

/// States that a text that fits pieces has only their bytes. It does nothing.
pub fn bytes_within()
    ensures { (pieces : List PieceOf) (text : List ℕ) → Fits pieces text → Within (pieces_set pieces) text }
{}

/// States that, if no unknown piece contains a comma or a parenthesis, a text that fits pieces has as many arguments as the pieces have
/// parts, and each argument fits its part without blanks at the ends. It does nothing.
pub fn arguments_fit()
    ensures { (pieces : List PieceOf) (text : List ℕ) → are_clean 0 pieces ≡ true → Fits pieces text → AllFit (shapes_of pieces) (arguments_of text) }
{}

/// States that a text is cut where its pieces are: at the first such byte, at the first one of level 0, before the last one, and after a
/// known text. It does nothing.
pub fn cuts_fit()
    ensures first { (mark : ℕ) (pieces : List PieceOf) (text : List ℕ) → Fits pieces text → IsCutAs (cut_pieces mark pieces) (cut_once mark text) }
    ensures level { (mark : ℕ) (pieces : List PieceOf) (text : List ℕ) → Fits pieces text → IsCutAs (cut_level mark 0 pieces) (cut_outside mark text) }
    ensures last { (mark : ℕ) (pieces : List PieceOf) (text : List ℕ) → Fits pieces text → IsLast (cut_last mark pieces) (before_last mark text) }
    ensures known { (mark : ℕ) (pieces : List PieceOf) (text : List ℕ) → Fits pieces text → IsCutKnown mark (cut_known mark pieces) text }
{}

/// States that a part of a text, as requested by `:offset:length`, fits that part of its pieces, and so does a text without the blanks at
/// its ends. It does nothing.
pub fn parts_fit()
    ensures part { (asked : Selection) (pieces : List PieceOf) (text : List ℕ) → Fits pieces text → Fits (part_pieces asked pieces) (part asked text) }
    ensures trimmed { (pieces : List PieceOf) (text : List ℕ) → Fits pieces text → Fits (without_end_blanks pieces) (trim text) }
{}

/// States that a text that fits a shape and matches the name of an extension fits the shape met with the name, and that the met shape has
/// only bytes of the shape. It does nothing.
pub fn meet_fits()
    ensures fits { (pieces : List PieceOf) (name : Meaning) (text : List ℕ) → Fits pieces text → Matches name text → Fits (after_match pieces name) text }
    ensures bytes { (pieces : List PieceOf) (name : Meaning) (text : List ℕ) → Fits pieces text → Matches name text → IsPart (pieces_set (after_match pieces name)) (pieces_set pieces) }
{}
