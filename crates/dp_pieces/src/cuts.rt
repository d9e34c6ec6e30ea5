//! Pieces cut at a byte: at the first one, at the first one outside parentheses, at the last one, and after a known text.
ghost use Rattle.std.specs.Prelude.{◌≡◌, ℕ, ◌+◌, ◌^◌, ◌<◌, List, IfSome, MatchOption, None, Some, [], ◌∷◌, length, map};
ghost use Rattle.dp_pieces.specs.Arguments.{are_clean, split_pieces};
ghost use Rattle.dp_pieces.specs.Cuts as cuts;
ghost use Rattle.dp_pieces.specs.Pieces.{Known, OneOf, exactly};
ghost use Rattle.dp_pieces.specs.Sets.{set_by};
ghost use Rattle.dp_pieces.specs.Shown.{shown_piece, shown_all};
ghost use Rattle.dp_pieces.specs.ShownCuts.{shown_cutting};
ghost use Rattle.dp_pieces.specs.steps.Stands.{cut_rule, is_clean_piece, level_after, stand_of};

use crate::byte_set::ByteSet;
use crate::piece::Piece;

/// Pieces cut at a byte: nowhere, unsure because an unknown piece may contain the byte, or between these two lists.
#[derive(Clone, Copy)]
pub enum Cutting<'a> {
    Nowhere,
    Unsure,
    At(&'a [Piece], &'a [Piece]),
}

/// The place of the cut: at the first such byte, at the first one outside parentheses, or at the first known comma outside these.
#[derive(Clone, Copy)]
enum Rule {
    First(u8),
    Outside(u8),
    Comma,
}

/// The relation of a piece to a rule: it is the byte of the cut, it may contain that byte, or it does not contain it.
#[derive(Clone, Copy)]
enum Stand {
    Here,
    Maybe,
    Apart,
}

/// The pieces cut at the first such byte.
pub fn cut_pieces(pieces: &[Piece], mark: u8) -> Cutting<'_>
    ensures { shown_cutting result ≡ cuts.cut_pieces mark (shown_all pieces.now) }
{
    cut_by(pieces, Rule::First(mark))
}

/// The pieces cut at the first such byte outside parentheses. An unknown piece may contain a parenthesis, and then nothing is known of the
/// pieces after it.
pub fn cut_level(pieces: &[Piece], mark: u8) -> Cutting<'_>
    ensures { shown_cutting result ≡ cuts.cut_level mark 0 (shown_all pieces.now) }
{
    cut_by(pieces, Rule::Outside(mark))
}

/// The pieces up to their first known comma outside parentheses, and those after it if there is such a comma.
pub fn first_part(pieces: &[Piece]) -> (&[Piece], Option<&[Piece]>)
    ensures parts { MatchOption result.1 (split_pieces 0 (shown_all pieces.now) ≡ shown_all result.0.now ∷ [])
        (λ rest. split_pieces 0 (shown_all pieces.now) ≡ shown_all result.0.now ∷ split_pieces 0 (shown_all rest.now)) }
    ensures shorter { IfSome result.1 (λ rest. length rest.now < length pieces.now) }
{
    match cut_by(pieces, Rule::Comma) {
        Cutting::At(part, rest) => (part, Some(rest)),
        Cutting::Nowhere | Cutting::Unsure => (pieces, None),
    }
}

/// The level of parentheses after a piece at this level. An unknown piece is assumed not to change the level.
fn level_after(level: usize, piece: &Piece) -> usize
    requires { level + 1 < 2 ^ 64 }
    ensures { result ≡ level_after level (shown_piece piece.now) }
{
    match piece {
        Piece::Known(b'(') => level + 1,
        Piece::Known(b')') => level.saturating_sub(1),
        Piece::Known(_) | Piece::OneOf(_) | Piece::AnyOf(_) => level,
    }
}

/// Whether a byte of the set may be the one to cut at, or change the level.
fn may_cut(mark: u8, level: usize, set: &ByteSet) -> bool
    ensures { result ≡ cuts.may_cut mark level (set_by set.now) }
{
    set.has(b'(') || set.has(b')') || (set.has(mark) && level == 0)
}

/// The relation of a known byte to a rule.
fn stand_known(rule: Rule, level: usize, byte: u8) -> Stand
    ensures { result ≡ stand_of rule level (Known byte) }
{
    let is_here = match rule {
        Rule::First(mark) => byte == mark,
        Rule::Outside(mark) => byte == mark && level == 0,
        Rule::Comma => byte == b',' && level == 0,
    };
    if is_here { Stand::Here } else { Stand::Apart }
}

/// The relation of a piece with any bytes of a set to a rule.
fn stand_unknown(rule: Rule, level: usize, set: &ByteSet) -> Stand
    ensures { result ≡ stand_of rule level (OneOf (set_by set.now)) }
{
    let may_be = match rule {
        Rule::First(mark) => set.has(mark),
        Rule::Outside(mark) => may_cut(mark, level, set),
        Rule::Comma => false,
    };
    if may_be { Stand::Maybe } else { Stand::Apart }
}

/// The relation of a piece to a rule at a level of parentheses.
fn stand_at(rule: Rule, level: usize, piece: &Piece) -> Stand
    ensures { result ≡ stand_of rule level (shown_piece piece.now) }
{
    match piece {
        Piece::Known(byte) => stand_known(rule, level, *byte),
        Piece::OneOf(set) | Piece::AnyOf(set) => stand_unknown(rule, level, set),
    }
}

/// The pieces cut by a rule.
fn cut_by(pieces: &[Piece], rule: Rule) -> Cutting<'_>
    ensures { shown_cutting result ≡ cut_rule rule 0 (shown_all pieces.now) }
{
    let mut level: usize = 0;
    for (at, piece) in pieces.iter().enumerate() {
        match stand_at(rule, level, piece) {
            Stand::Here => return Cutting::At(&pieces[..at], &pieces[at + 1..]),
            Stand::Maybe => return Cutting::Unsure,
            Stand::Apart => level = level_after(level, piece),
        }
    }
    Cutting::Nowhere
}

/// The pieces before the last such byte. The pieces after it are left out.
pub fn cut_last(pieces: &[Piece], mark: u8) -> Cutting<'_>
    ensures { shown_cutting result ≡ cuts.cut_last mark (shown_all pieces.now) }
{
    let mut left = pieces;
    while let Some((last, front)) = left.split_last() {
        match stand_at(Rule::First(mark), 0, last) {
            Stand::Here => return Cutting::At(front, &[]),
            Stand::Maybe => return Cutting::Unsure,
            Stand::Apart => left = front,
        }
    }
    Cutting::Nowhere
}

/// The pieces before the first such byte, all of them known, and those after it, or None if an unknown piece comes first.
pub fn cut_known(pieces: &[Piece], mark: u8) -> Option<(&[Piece], &[Piece])>
    ensures { MatchOption result (cuts.cut_known mark (shown_all pieces.now) ≡ None)
        (λ cut. (name : List ℕ) × (cuts.cut_known mark (shown_all pieces.now) ≡ Some (name, shown_all cut.1.now)) × (shown_all cut.0.now ≡ exactly name)) }
{
    for (at, piece) in pieces.iter().enumerate() {
        let Some(byte) = piece.byte() else {
            return None;
        };
        if byte == mark {
            return Some((&pieces[..at], &pieces[at + 1..]));
        }
    }
    None
}

/// Whether a piece at a level of parentheses is known, or neither separates arguments nor changes the level.
fn is_clean(level: usize, piece: &Piece) -> bool
    ensures { result ≡ is_clean_piece level (shown_piece piece.now) }
{
    match piece {
        Piece::Known(_) => true,
        Piece::OneOf(set) | Piece::AnyOf(set) => !may_cut(b',', level, set),
    }
}

/// Whether no unknown piece separates arguments: none contains a parenthesis, or a comma outside them.
pub fn are_clean(pieces: &[Piece]) -> bool
    ensures { result ≡ are_clean 0 (shown_all pieces.now) }
{
    let mut level: usize = 0;
    for piece in pieces {
        if !is_clean(level, piece) {
            return false;
        }
        level = level_after(level, piece);
    }
    true
}
