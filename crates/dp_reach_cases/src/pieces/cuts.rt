//! Pieces that are cut and trimmed, worked out by hand from the rules.
use crate::pieces::notation::{pieces_of, push_pieces};
use dp_case_tables::{Question, text_of};
use dp_conf::read_number;
use dp_pieces::{
    Cutting, Piece, are_clean, bytes_of, cut_known, cut_last, cut_level, cut_pieces, front,
    shapes_of, trim_pieces, without,
};
use std::alloc::{AllocError, Global};
use std::test::Fail;

/// A question about pieces: a word, then what it needs, then the pieces after a bar.
pub(super) struct Cuts;

impl Question for Cuts {
    fn answer(alloc: Global, asked: &str) -> Result<String, Fail> {
        let (word, notation) = asked.split_once('|').ok_or("no pieces")?;
        let pieces = pieces_of(alloc, notation)?;
        match word.split_once(' ') {
            None => answer_whole(alloc, word, &pieces),
            Some((word, more)) => answer_part(alloc, word, more.as_bytes(), &pieces),
        }
    }
}

/// Questions about all pieces.
fn answer_whole(alloc: Global, word: &str, pieces: &[Piece]) -> Result<String, Fail> {
    let mut out = String::new(alloc);
    match word {
        "trim" => push_pieces(&mut out, &trim_pieces(alloc, pieces)?)?,
        "arguments" => push_shapes(alloc, &mut out, pieces)?,
        "clean" => out.push_str(if are_clean(pieces) { "yes" } else { "no" })?,
        "bytes" => push_pieces(&mut out, &[Piece::OneOf(bytes_of(pieces))])?,
        _ => out.push_str("no such word")?,
    }
    Ok(out)
}

fn push_shapes(alloc: Global, out: &mut String, pieces: &[Piece]) -> Result<(), Fail> {
    for shape in &shapes_of(alloc, pieces)? {
        out.push('<')?;
        push_pieces(out, shape)?;
        out.push('>')?;
    }
    Ok(())
}

/// Questions about pieces with a byte or a number.
fn answer_part(alloc: Global, word: &str, more: &[u8], pieces: &[Piece]) -> Result<String, Fail> {
    let mut out = String::new(alloc);
    let count = read_number(more).unwrap_or(0) as usize;
    let mark = more.first().copied().unwrap_or(0);
    match word {
        "first" => push_cutting(&mut out, cut_pieces(pieces, mark))?,
        "outside" => push_cutting(&mut out, cut_level(pieces, mark))?,
        "last" => push_cutting(&mut out, cut_last(pieces, mark))?,
        "known" => push_known(&mut out, cut_known(pieces, mark))?,
        "without" => push_pieces(&mut out, &without(alloc, count, pieces)?)?,
        "front" => push_pieces(&mut out, &front(alloc, count, pieces)?)?,
        _ => return Ok(text_of(alloc, "no such word")?),
    }
    Ok(out)
}

fn push_cutting(out: &mut String, cutting: Cutting<'_>) -> Result<(), AllocError> {
    match cutting {
        Cutting::Nowhere => out.push_str("nowhere"),
        Cutting::Unsure => out.push_str("unsure"),
        Cutting::At(before, after) => push_known(out, Some((before, after))),
    }
}

fn push_known(out: &mut String, cut: Option<(&[Piece], &[Piece])>) -> Result<(), AllocError> {
    match cut {
        None => out.push_str("none"),
        Some((before, after)) => {
            push_pieces(out, before)?;
            out.push('|')?;
            push_pieces(out, after)
        }
    }
}

/// An unknown piece may have the byte of the cut, a parenthesis, or a blank; each row says what is then known.
pub(super) const CUTS: &str = r"
# Without blanks at the ends.
trim|→
trim|   →
trim| a b →a{ }*b
trim|a→a
trim|\ta\t→a
trim|a\n→a\n
trim| {0-9}*→{0123456789}*
trim|{0-9}* →{ 0123456789}*
trim|a{0-9}* →a{0123456789}*
trim|{ x}*→{ x}*
trim|{ x}→{ x}*
trim|{ x}a→{ x}*a
trim|{xy}a→{xy}a
trim|{ x} a→{ ax}*
trim|{ x}*{ y}*→{ xy}*
trim|{ x}*{y}→{ x}*{y}
trim|a{ x}→a{ x}*
trim|a {xy}*→a{ }*{xy}*
trim|a {xy}* →a{ }*{xy}*
# At the first such byte.
first ?|→nowhere
first ?|a→nowhere
first ?|a?b?c→a|b?c
first ?|?→|
first ?|{0-9}*?b→{0123456789}*|b
first ?|{0-9?}*?b→unsure
first ?|a?{?}→a|{?}
first ?|{?}a→unsure
# At the first outside parentheses.
outside :|a:b→a|b
outside :|f(a:b):c→f(a:b)|c
outside :|f(a:b→nowhere
outside :|):a→)|a
outside :|{0-9}*:a→{0123456789}*|a
outside :|{:}:a→unsure
outside :|({:}):a→({:})|a
outside :|{(}:a→unsure
outside :|(a{)}):b→unsure
# Before the last.
last )|a)b)c→a)b|
last )|a→nowhere
last )|a{)}→unsure
last )|{)}a)→{)}a|
last )|a){xy}*→a|
last )|a)({)}*→unsure
# After a known text.
known =|ab=c→ab|c
known =|=c→|c
known =|ab→none
known =|a{xy}=c→none
known =|a{=}→none
known =|a={xy}*=→a|{xy}*=
# The arguments of a text, and whether their number is known.
arguments|→<>
arguments|a, b ,c→<a><b><c>
arguments|f(a,b),c→<f(a,b)><c>
arguments|{0-9}*,{ab}→<{0123456789}*><{ab}>
arguments|a,{ x},b→<a><{ x}*><b>
arguments|),a→<)><a>
clean|→yes
clean|a,b→yes
clean|{0-9}*,s,1→yes
clean|{,}→no
clean|({,})→yes
clean|({,}),{,}→no
clean|{(}→no
clean|a{)}*→no
# The bytes of all pieces.
bytes|→{}
bytes|ba{xy}{a-c}*→{abcxy}
# Without the first bytes, and only the first bytes.
without 0|abc→abc
without 2|abc→c
without 2|a→
without 1|{0-9}{ab}→{ab}
without 2|{*}{*}{0-9}*→{0123456789}*
without 3|{*}{*}{0-9}*→{0123456789}*
without 2|a{0-9}*b→{0123456789b}*
front 0|abc→
front 2|abc→ab
front 2|a→a
front 1|{0-9}{ab}→{0123456789}
front 2|a{0-9}*b→a{0123456789b}*
";
