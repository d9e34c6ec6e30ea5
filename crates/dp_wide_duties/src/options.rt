//! The options of `Dial`, `Queue` and `Page` that run something on a channel.
ghost use Rattle.std.specs.Prelude.{◌≡◌, ◌∷◌, ◌++◌, [], IfOk, OnOk};
ghost use Rattle.dp_closed.specs.Shown.{shown_area, shown_duties};
ghost use Rattle.dp_pieces.specs.Cuts.{cut_level};
ghost use Rattle.dp_pieces.specs.Pieces.{any_bytes_of, piece_set, pieces_set};
ghost use Rattle.dp_pieces.specs.Sets.{set_by};
ghost use Rattle.dp_pieces.specs.Shown.{shown_all, shown_piece};
ghost use Rattle.dp_pieces.specs.Trimmed.{without_end_blanks};
ghost use Rattle.dp_reach.specs.Bounds as bounds;
ghost use Rattle.dp_wide_duties.specs.Options as spec;

use crate::arguments::any_of;
use crate::calls::push_counted;
use crate::held_bytes::{push_digits, push_each};
use crate::macros::push_macro;
use dp_closed::{KeptArea, KeptDuty, bytes_in, push_area, push_inside, set_of};
use dp_conf::NoMemory;
use dp_pieces::{ByteSet, Cutting, Piece, cut_level, trim_pieces};
use std::alloc::Global;

/// A set with a comma if it has a `^`.
fn comma_set(set: &ByteSet) -> ByteSet
    ensures { set_by result ≡ spec.comma_set (set_by set.now) }
{
    if set.has(b'^') {
        return set.with(&bytes_in(b","));
    }
    *set
}

/// A piece in which a `^` is a comma.
fn comma_piece(piece: &Piece) -> Piece
    ensures { shown_piece result ≡ spec.comma_piece (shown_piece piece.now) }
{
    match piece {
        Piece::Known(b'^') => Piece::Known(b','),
        Piece::Known(byte) => Piece::Known(*byte),
        Piece::OneOf(set) => Piece::OneOf(comma_set(set)),
        Piece::AnyOf(set) => Piece::AnyOf(comma_set(set)),
    }
}

/// The pieces with commas in place of each `^`.
fn with_commas(alloc: Global, pieces: &[Piece]) -> Result<Vec<Piece>, NoMemory>
    ensures { IfOk result (λ text. shown_all text.items ≡ spec.with_commas (shown_all pieces.now)) }
{
    let mut text = Vec::with_capacity(alloc, pieces.len())?;
    let mut left = pieces;
    while let Some((first, rest)) = left.split_first() {
        text.push(comma_piece(first))?;
        left = rest;
    }
    Ok(text)
}

/// Adds the start of a subroutine, given the pieces of its name.
fn push_start(alloc: Global, name: &[Piece], duties: &mut Vec<KeptDuty>) -> Result<(), NoMemory>
    ensures { OnOk result (shown_duties duties.new.items
        ≡ shown_duties duties.old.items ++ bounds.Leads (spec.start_area (shown_all name.now)) ∷ []) }
{
    push_area(alloc, name, &[Piece::Known(b's')], duties)
}

/// Adds the start of a subroutine, given the pieces of its name and the blanks at its ends.
fn push_named(alloc: Global, name: &[Piece], duties: &mut Vec<KeptDuty>) -> Result<(), NoMemory>
    ensures { OnOk result (shown_duties duties.new.items
        ≡ shown_duties duties.old.items ++ bounds.Leads (spec.start_area (without_end_blanks (shown_all name.now))) ∷ []) }
{
    let name = trim_pieces(alloc, name)?;
    push_start(alloc, &name, duties)
}

/// Adds the duties if any text of the bytes of these pieces may be the name of a subroutine, and its arguments.
fn push_any_routine(
    alloc: Global,
    pieces: &[Piece],
    duties: &mut Vec<KeptDuty>,
) -> Result<(), NoMemory>
    ensures { OnOk result (shown_duties duties.new.items ≡ shown_duties duties.old.items
        ++ bounds.Leads (spec.start_area (any_bytes_of (pieces_set (shown_all pieces.now)))) ∷ bounds.HoldsAll (pieces_set (shown_all pieces.now)) ∷ []) }
{
    let set = set_of(pieces);
    push_start(alloc, &[Piece::AnyOf(set)], duties)?;
    push_each(set, duties)
}

/// Adds the duties of the name and the arguments of a subroutine.
fn push_called(alloc: Global, text: &[Piece], duties: &mut Vec<KeptDuty>) -> Result<(), NoMemory>
    ensures { OnOk result (shown_duties duties.new.items
        ≡ shown_duties duties.old.items ++ spec.routine_by (shown_all text.now) (cut_level 44 0 (shown_all text.now))) }
{
    match cut_level(text, b',') {
        Cutting::Nowhere => push_named(alloc, text, duties),
        Cutting::Unsure => push_any_routine(alloc, text, duties),
        Cutting::At(name, rest) => {
            push_named(alloc, name, duties)?;
            push_inside(alloc, set_of(text), Cutting::At(rest, &[]), duties)
        }
    }
}

/// Adds the duties of a subroutine that starts at `s`.
fn push_routine(alloc: Global, text: &[Piece], duties: &mut Vec<KeptDuty>) -> Result<(), NoMemory>
    ensures { OnOk result (shown_duties duties.new.items
        ≡ shown_duties duties.old.items ++ spec.routine_owed (shown_all text.now)) }
{
    push_digits(alloc, b"ARGC", duties)?;
    push_called(alloc, text, duties)
}

/// Whether a letter may be one of those that name a place.
fn may_be_place(letter: &ByteSet) -> bool
    ensures { result ≡ spec.may_be_place (set_by letter.now) }
{
    letter.has(b'b') || letter.has(b'B') || letter.has(b'F') || letter.has(b'G')
}

/// Adds the duties of an option that names a place, if its letter may be one of those.
fn push_place_option(
    alloc: Global,
    area: &KeptArea,
    letter: &ByteSet,
    text: &[Piece],
    duties: &mut Vec<KeptDuty>,
) -> Result<(), NoMemory>
    ensures { OnOk result (shown_duties duties.new.items ≡ shown_duties duties.old.items
        ++ spec.place_owed (shown_area area.now) (set_by letter.now) (shown_all text.now)) }
{
    if !may_be_place(letter) {
        return Ok(());
    }
    push_counted(alloc, area, text, duties)
}

/// Adds the duties of an option that names a subroutine, if its letter may be `U`.
fn push_call_option(
    alloc: Global,
    letter: &ByteSet,
    text: &[Piece],
    duties: &mut Vec<KeptDuty>,
) -> Result<(), NoMemory>
    ensures { OnOk result (shown_duties duties.new.items ≡ shown_duties duties.old.items
        ++ spec.call_owed (set_by letter.now) (shown_all text.now)) }
{
    if !letter.has(b'U') {
        return Ok(());
    }
    push_routine(alloc, text, duties)
}

/// Adds the duties of an option that names a macro, if its letter may be `M`.
fn push_macro_option(
    alloc: Global,
    area: &KeptArea,
    letter: &ByteSet,
    text: &[Piece],
    duties: &mut Vec<KeptDuty>,
) -> Result<(), NoMemory>
    ensures { OnOk result (shown_duties duties.new.items ≡ shown_duties duties.old.items
        ++ spec.macro_owed (shown_area area.now) (set_by letter.now) (shown_all text.now)) }
{
    if !letter.has(b'M') {
        return Ok(());
    }
    push_macro(alloc, area, text, duties)
}

/// Adds the duties of an option with a text, given what its letter may be.
fn push_option(
    alloc: Global,
    area: &KeptArea,
    letter: &ByteSet,
    text: &[Piece],
    duties: &mut Vec<KeptDuty>,
) -> Result<(), NoMemory>
    ensures { OnOk result (shown_duties duties.new.items ≡ shown_duties duties.old.items
        ++ spec.option_owed (shown_area area.now) (set_by letter.now) (shown_all text.now)) }
{
    push_place_option(alloc, area, letter, text, duties)?;
    push_call_option(alloc, letter, text, duties)?;
    push_macro_option(alloc, area, letter, text, duties)
}

/// Adds the duties of an option, given what its letter may be, and the text in which a `^` stands for a comma.
fn push_marked(
    alloc: Global,
    area: &KeptArea,
    letter: &ByteSet,
    marked: &[Piece],
    duties: &mut Vec<KeptDuty>,
) -> Result<(), NoMemory>
    ensures { OnOk result (shown_duties duties.new.items ≡ shown_duties duties.old.items
        ++ spec.option_owed (shown_area area.now) (set_by letter.now) (spec.with_commas (shown_all marked.now))) }
{
    let text = with_commas(alloc, marked)?;
    push_option(alloc, area, letter, &text, duties)
}

/// Adds the duties of an option, given what its letter may be, and the pieces after its `(`.
fn push_opened(
    alloc: Global,
    area: &KeptArea,
    letter: &ByteSet,
    rest: &[Piece],
    duties: &mut Vec<KeptDuty>,
) -> Result<(), NoMemory>
    ensures { OnOk result (shown_duties duties.new.items ≡ shown_duties duties.old.items
        ++ spec.option_owed (shown_area area.now) (set_by letter.now) (spec.option_text (shown_all rest.now))) }
{
    match cut_level(rest, b')') {
        Cutting::Nowhere => push_marked(alloc, area, letter, rest, duties),
        Cutting::Unsure => {
            let any = [Piece::AnyOf(set_of(rest))];
            push_marked(alloc, area, letter, &any, duties)
        }
        Cutting::At(inside, _) => push_marked(alloc, area, letter, inside, duties),
    }
}

/// Whether a piece opens the text of an option.
fn opens(piece: &Piece) -> bool
    ensures { result ≡ spec.opens (shown_piece piece.now) }
{
    match piece {
        Piece::Known(byte) => *byte == b'(',
        Piece::OneOf(_) | Piece::AnyOf(_) => false,
    }
}

/// The bytes that a piece may be.
fn piece_set(piece: &Piece) -> ByteSet
    ensures { set_by result ≡ piece_set (shown_piece piece.now) }
{
    match piece {
        Piece::Known(byte) => ByteSet::of(*byte),
        Piece::OneOf(set) | Piece::AnyOf(set) => *set,
    }
}

/// Adds the duties of the option with a letter, given the pieces after the letter.
fn push_letter(
    alloc: Global,
    area: &KeptArea,
    letter: &Piece,
    rest: &[Piece],
    duties: &mut Vec<KeptDuty>,
) -> Result<(), NoMemory>
    ensures { OnOk result (shown_duties duties.new.items ≡ shown_duties duties.old.items
        ++ spec.letter_owed (shown_area area.now) (shown_piece letter.now) (shown_all rest.now)) }
{
    let Some((first, text)) = rest.split_first() else {
        return Ok(());
    };
    if !opens(first) {
        return Ok(());
    }
    push_opened(alloc, area, &piece_set(letter), text, duties)
}

/// Adds the duties of options with no unknown piece that may open the text of one.
fn push_known(
    alloc: Global,
    area: &KeptArea,
    options: &[Piece],
    duties: &mut Vec<KeptDuty>,
) -> Result<(), NoMemory>
    ensures { OnOk result (shown_duties duties.new.items ≡ shown_duties duties.old.items
        ++ spec.known_owed (shown_area area.now) (shown_all options.now)) }
{
    let mut left = options;
    while let Some((first, rest)) = left.split_first() {
        push_letter(alloc, area, first, rest, duties)?;
        left = rest;
    }
    Ok(())
}

/// Whether a piece is unknown and may open the text of an option.
fn may_open(piece: &Piece) -> bool
    ensures { result ≡ spec.may_open (shown_piece piece.now) }
{
    match piece {
        Piece::Known(_) => false,
        Piece::OneOf(set) | Piece::AnyOf(set) => set.has(b'('),
    }
}

/// Whether pieces begin with what opens the text of an option.
fn begin_open(pieces: &[Piece]) -> bool
    ensures { result ≡ spec.begin_open (shown_all pieces.now) }
{
    match pieces.first() {
        Some(piece) => opens(piece),
        None => false,
    }
}

/// Whether any number of unknown bytes, or none, stand right before the text of an option, so that its letter may be an earlier byte.
fn hides_letter(piece: &Piece, rest: &[Piece]) -> bool
    ensures { result ≡ spec.hides_letter (shown_piece piece.now) (shown_all rest.now) }
{
    match piece {
        Piece::Known(_) | Piece::OneOf(_) => false,
        Piece::AnyOf(_) => begin_open(rest),
    }
}

/// Whether it is not known where options have texts, or which letters they have.
fn are_unsure(pieces: &[Piece]) -> bool
    ensures { result ≡ spec.are_unsure (shown_all pieces.now) }
{
    let mut left = pieces;
    while let Some((first, rest)) = left.split_first() {
        if may_open(first) || hides_letter(first, rest) {
            return true;
        }
        left = rest;
    }
    false
}

/// Adds the duties of options.
pub(crate) fn push_options(
    alloc: Global,
    area: &KeptArea,
    options: &[Piece],
    duties: &mut Vec<KeptDuty>,
) -> Result<(), NoMemory>
    ensures { OnOk result (shown_duties duties.new.items ≡ shown_duties duties.old.items
        ++ spec.options_owed (shown_area area.now) (shown_all options.now)) }
{
    if !are_unsure(options) {
        return push_known(alloc, area, options, duties);
    }
    let any = any_of(alloc, options)?;
    push_marked(alloc, area, &set_of(options), &any, duties)
}

/// Adds the duties of the name of a macro with its arguments, unless it is empty.
fn push_started_macro(
    alloc: Global,
    area: &KeptArea,
    name: &[Piece],
    duties: &mut Vec<KeptDuty>,
) -> Result<(), NoMemory>
    ensures { OnOk result (shown_duties duties.new.items ≡ shown_duties duties.old.items
        ++ spec.started_macro (shown_area area.now) (shown_all name.now)) }
{
    if name.is_empty() {
        return Ok(());
    }
    let text = with_commas(alloc, name)?;
    push_macro(alloc, area, &text, duties)
}

/// Adds the duties of the name of a subroutine with its arguments, unless it is empty.
fn push_started_routine(
    alloc: Global,
    name: &[Piece],
    duties: &mut Vec<KeptDuty>,
) -> Result<(), NoMemory>
    ensures { OnOk result (shown_duties duties.new.items ≡ shown_duties duties.old.items ++ spec.started_routine (shown_all name.now)) }
{
    if name.is_empty() {
        return Ok(());
    }
    let text = with_commas(alloc, name)?;
    push_routine(alloc, &text, duties)
}

/// Adds the duties of a macro and of a subroutine that a member of a queue runs.
pub(crate) fn push_started(
    alloc: Global,
    area: &KeptArea,
    name: &[Piece],
    routine: &[Piece],
    duties: &mut Vec<KeptDuty>,
) -> Result<(), NoMemory>
    ensures { OnOk result (shown_duties duties.new.items ≡ shown_duties duties.old.items
        ++ spec.started_owed (shown_area area.now) (shown_all name.now) (shown_all routine.now)) }
{
    push_started_macro(alloc, area, name, duties)?;
    push_started_routine(alloc, routine, duties)
}
