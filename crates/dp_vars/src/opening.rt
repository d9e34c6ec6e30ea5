//! Texts in which no group opens.
ghost use Rattle.std.specs.Prelude.{◌≡◌, None, false};
ghost use Rattle.std.specs.Option.{is_some};
ghost use Rattle.dp_conf.specs.Groups.{opening};
ghost use Rattle.dp_vars.specs.Functions.{FunctionTable};
ghost use Rattle.dp_vars.specs.Openings as openings;
ghost use Rattle.dp_vars.specs.Sights.{Sight};
ghost use Rattle.dp_vars.specs.Unknown.{first_unknown};
ghost use Rattle.dp_vars.specs.Values.{expansion, expansion_with};

/// Whether a byte opens a group, given the bytes after it.
fn opens(byte: u8, after: &[u8]) -> bool
    ensures { result ≡ is_some (opening byte after.now) }
{
    match after.first() {
        Some(next) if byte == b'$' => *next == b'{' || *next == b'[',
        _ => false,
    }
}

/// Whether the text contains an opening.
#[tactic(auto, unfolding(crate::specs::Openings::has_opening))]
fn holds_opening(text: &[u8]) -> bool
    ensures { result ≡ openings.has_opening text.now }
{
    let mut left = text;
    while let Some((first, after)) = left.split_first() {
        if opens(*first, after) {
            return true;
        }
        left = after;
    }
    false
}

/// Whether the text contains `${` or `$[`. A text in which no group opens is its own expansion.
///
/// It never allocates.
pub fn has_opening(text: &[u8]) -> bool
    ensures opening { result ≡ openings.has_opening text.now }
    // This holds for any functions.
    ensures any { result ≡ false → (functions : FunctionTable) (sight : Sight) → expansion_with functions sight text.now ≡ text.now }
    // Everything in it is known.
    ensures known { result ≡ false → (functions : FunctionTable) (sight : Sight) → first_unknown functions sight text.now ≡ None }
    // The same for the standard functions.
    ensures same { result ≡ false → (sight : Sight) → expansion sight text.now ≡ text.now }
{
    holds_opening(text)
}
