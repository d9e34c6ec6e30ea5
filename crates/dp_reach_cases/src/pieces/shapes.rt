//! Shapes and the names that their texts may match, worked out by hand from the rules.
use crate::pieces::notation::{pieces_of, push_pieces};
use dp_case_tables::{Question, text_of};
use dp_pattern::Name;
use dp_pieces::{Piece, covers, is_within, may_fit, may_match, pieces_after_match};
use std::alloc::Global;
use std::test::Fail;

/// A word, then a name or a shape, then a shape after a bar.
pub(super) struct ShapeAnswers;

impl Question for ShapeAnswers {
    fn answer(alloc: Global, asked: &str) -> Result<String, Fail> {
        let (asked, notation) = asked.split_once('|').ok_or("no shape")?;
        let (word, of) = asked.split_once(' ').ok_or("no name")?;
        let shape = pieces_of(alloc, notation)?;
        if word == "within" {
            let wide = pieces_of(alloc, of)?;
            return Ok(text_of(alloc, yes_or_no(is_within(&shape, &wide)))?);
        }
        if word == "fit" {
            return Ok(text_of(alloc, yes_or_no(may_fit(&shape, of.as_bytes())))?);
        }
        let Ok(name) = Name::read(alloc, of.as_bytes()) else {
            return Ok(text_of(alloc, "no name")?);
        };
        answer_name(alloc, word, &name, &shape)
    }
}

fn yes_or_no(is: bool) -> &'static str {
    if is { "yes" } else { "no" }
}

/// Questions about a shape with a name.
fn answer_name(alloc: Global, word: &str, name: &Name, shape: &[Piece]) -> Result<String, Fail> {
    let mut out = String::new(alloc);
    match word {
        "may" => out.push_str(yes_or_no(may_match(shape, name)))?,
        "covers" => out.push_str(yes_or_no(covers(shape, name)))?,
        "meet" => push_pieces(&mut out, &pieces_after_match(alloc, shape, name)?)?,
        _ => out.push_str("no such word")?,
    }
    Ok(out)
}

/// `may` is yes if a text of the shape may match, `covers` if each does as far as is seen, `meet` is what is known of one that has matched,
/// `fit` is yes if the text may be of the shape, and `within` if each text of the last shape is of the first.
pub(super) const SHAPES: &str = r"
# A plain name is matched by itself.
may s|s→yes
may s|st→no
may s|{a-z}*→yes
may s|{0-9}*→no
may 100|{0-9}*→yes
may 100|{0-9}{0-9}→no
may 100|{0-9}{0-9}{0-9}{0-9}*→yes
may 100|{1-9}{1-9}{0-9}→no
may i|→no
covers s|s→yes
covers s|{s}→yes
covers s|{st}→no
covers 100|{0-9}*→no
meet 100|{0-9}*→100
# A pattern takes a byte of each class, and then what its end allows.
may _X|{0-9}→yes
may _X|→no
may _X|1→yes
may _X|a→no
may _X|12→no
may _1X|{2}{0-9}→no
may _1X|{12}{0-9}→yes
may _1X|2{0-9}→no
may _X|{0-9*}*→yes
may _X|{*#}*→no
may _**X.|{0-9}*→no
may _**X.|{0-9*}*→yes
may _X.|1→no
may _X.|12→yes
may _X.|1{}*→no
may _X!|1→yes
may _.|→no
may _!|→yes
covers _X|{0-9}→yes
covers _X|{0-9a}→no
covers _X.|{0-9}{0-9}{0-9}*→yes
covers _X.|{0-9}{0-9}*→no
covers _X!|{0-9}{0-9}*→yes
covers _X|{0-9}*→no
covers _X|1{}*→yes
covers _.|{a-z}→yes
covers _.|{a-z}*→no
covers _.|a{a-z}*→yes
covers _!|{a-z}*→yes
covers _1X|1{2-9}→yes
covers _1X|{12}{2-9}→no
meet _**X.|{0-9*}*→{*}{*}{0123456789}{*0123456789}*
meet _X|{0-9*}*→{0123456789}
meet _X.|1{ab}→1{ab}
meet _ZX|{0-9}{0-9}→{123456789}{0123456789}
meet _NX!|{0-9}{0-9a}*→{23456789}{0123456789}{0123456789a}*
meet _1X|1→1
# A dash does not count for a match, so a shape that may have one is unchanged.
may _XX|1{-}2→yes
may _XX|{0-9-}*→yes
may s|{0-9-}*→no
covers _XX|1-2→no
meet _XX|{0-9-}*→{-0123456789}*
meet _XX|1-2→1-2
# Texts that may be of a shape.
fit s|s→yes
fit s|{st}→yes
fit s|{tu}→no
fit s|→no
fit st|s→no
fit st|{a-z}*→yes
fit s1|{a-z}*→no
fit s1|{a-z}*1→yes
fit s1|s{0-9}*→yes
fit s|s{0-9}*→yes
fit s|s{0-9}→no
# Shapes within others.
within {0-9}*|→yes
within {0-9}*|12→yes
within {0-9}*|{1-3}{4}*→yes
within {0-9}*|a→no
within {0-9}*|{0-9a}*→no
within 1{0-9}*|1→yes
within 1{0-9}*|12{3-4}*→yes
within 1{0-9}*|2→no
within 1{0-9}*|→no
within 1{0-9}*|{1}→no
within {12}{0-9}|1{2-3}→yes
within {12}{0-9}|1{2-3}*→no
within 12|12→yes
within 12|123→no
within |→yes
within |a→no
within |{}*→yes
within {0-9}*{a-z}*|1a→no
";
