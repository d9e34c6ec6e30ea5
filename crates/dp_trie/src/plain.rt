//! The plain names of a context.
ghost use Rattle.std.specs.Prelude.{◌≡◌, ℕ, ◌<◌, ◌≤◌, [], ◌∷◌, length, map, take, drop, find, nat_lt, slice_range, ◌==◌, IfOk};
ghost use Rattle.std.specs.List.{AllByRecursion};
ghost use Rattle.std.specs.Option.{option_map};
ghost use Rattle.dp_pattern.specs.Dashes.{without_dashes};
ghost use Rattle.dp_trie.specs.Asked.{is_more, wants, is_wanted, is_asked, hit_of, Rise};
ghost use Rattle.dp_trie.specs.Names.{own_plain, known_plain, side_of, rank, rank_of, fitting, ArePlainRanges, RiseEach, NamesRise};
ghost use Rattle.dp_trie.specs.steps.Ranked.{known_now, hold_of, IsPlain, AreInOrder};

use crate::digits::Digits;
use crate::entry_question::{EntryQuestion, first_wanted, is_more};
use crate::node::HeldEntry;
use crate::ranked::{Ranked, group_end, name_of, plain_of};
use dp_lookup::{EntryId, NoMemory, Text};
use std::alloc::Global;
use std::cmp::Ordering;

/// A plain name, and which of the held entries are its own, from one place up to another.
#[derive(Drop)]
pub(crate) struct PlainName {
    pub(crate) name: Text,
    pub(crate) from: usize,
    pub(crate) until: usize,
}

/// On which side of the digits a plain name is.
#[derive(Clone, Copy)]
pub(crate) enum Side {
    /// Before them in the order of bytes.
    Before,
    /// It is the digits.
    Same,
    /// It continues the digits.
    Longer,
    /// After them and everything that continues them.
    After,
}

/// On which side of a text without dashes the name is.
fn side_of_text(name: &[u8], text: &[u8]) -> Side
    ensures { result ≡ side_of name.now text.now }
{
    match name.cmp(text) {
        Ordering::Less => Side::Before,
        Ordering::Equal => Side::Same,
        Ordering::Greater => {
            if name.starts_with(text) {
                Side::Longer
            } else {
                Side::After
            }
        }
    }
}

/// On which side of the digits the name is, comparing each digit in turn.
fn side_in_turn(name: &[u8], digits: &Digits<'_>) -> Side
    ensures { result ≡ side_of name.now (without_dashes digits.now.text.now) }
{
    let mut cursor = digits.first();
    for number in 0..name.len() {
        match digits.at(number, &mut cursor) {
            Some(digit) => match name[number].cmp(&digit) {
                Ordering::Less => return Side::Before,
                Ordering::Equal => {}
                Ordering::Greater => return Side::After,
            },
            None => return Side::Longer,
        }
    }
    if digits.has(name.len(), &mut cursor) {
        Side::Before
    } else {
        Side::Same
    }
}

/// On which side of the digits the name is.
pub(crate) fn side_of(name: &[u8], digits: &Digits<'_>) -> Side
    ensures { result ≡ side_of name.now (without_dashes digits.now.text.now) }
{
    match digits.plain() {
        Some(text) => side_of_text(name, text),
        None => side_in_turn(name, digits),
    }
}

/// The sides, numbered in the order of the names.
pub(crate) fn rank(side: Side) -> u8
    ensures { result ≡ rank side }
{
    match side {
        Side::Before => 0,
        Side::Same => 1,
        Side::Longer => 2,
        Side::After => 3,
    }
}

/// The side of the names that a question asks for: those that go on, or else the one that matches.
fn fitting(more: bool) -> Side
    ensures { result ≡ fitting more }
{
    if more { Side::Longer } else { Side::Same }
}

/// The rank of a name that is the digits.
const SAME: u8 = 1;

/// Whether the name is below a rank. If that is the rank of the digits, the order of bytes alone decides.
fn is_below(name: &[u8], digits: &Digits<'_>, limit: u8) -> bool
    ensures { result ≡ nat_lt (rank (side_of name.now (without_dashes digits.now.text.now))) limit }
{
    match digits.plain() {
        Some(text) if limit == SAME => name.cmp(text).is_lt(),
        _ => rank(side_of(name, digits)) < limit,
    }
}

/// The number of names below a rank.
fn count_below(names: &[PlainName], digits: &Digits<'_>, limit: u8) -> usize
    requires { NamesRise names.now }
    ensures within { result ≤ length names.now }
    ensures below { AllByRecursion (λ plain. rank_of (without_dashes digits.now.text.now) plain < limit)
        (take result names.now) }
    ensures above { AllByRecursion (λ plain. limit ≤ rank_of (without_dashes digits.now.text.now) plain)
        (drop result names.now) }
{
    names.partition_point(|plain| is_below(plain.name.bytes(), digits, limit))
}

/// Whether the name is one that the question asks for. A name that matches is the digits themselves.
#[inline(always)]
fn fits(plain: &PlainName, question: EntryQuestion, digits: &Digits<'_>) -> bool
    ensures { result ≡ (rank_of (without_dashes digits.now.text.now) plain.now == rank (fitting (is_more question))) }
{
    let more = is_more(question);
    match digits.plain() {
        Some(text) if !more => plain.name.bytes() == text,
        _ => rank(side_of(plain.name.bytes(), digits)) == rank(fitting(more)),
    }
}

/// The first entry of one plain name that the question asks for, apart from its name.
#[inline(always)]
fn find_own(plain: &PlainName, held: &[HeldEntry], question: EntryQuestion) -> Option<EntryId>
    requires from { plain.now.from ≤ plain.now.until }
    requires until { plain.now.until ≤ length held.now }
    requires rise { Rise (slice_range held.now plain.now.from plain.now.until) }
    ensures { result ≡ option_map hit_of (find (is_wanted (wants question)) (own_plain held.now plain.now)) }
{
    first_wanted(question, &held[plain.from..plain.until])
}

/// The first entry that the question asks for, among plain names none of which is below those that fit. The first name that does not fit
/// ends the search.
fn find_in_front(
    names: &[PlainName],
    held: &[HeldEntry],
    question: EntryQuestion,
    digits: &Digits<'_>,
) -> Option<EntryId>
    requires ranges { ArePlainRanges (length held.now) names.now }
    requires rise { RiseEach held.now names.now }
    requires order { NamesRise names.now }
    requires least { AllByRecursion (λ plain. rank (fitting (is_more question))
        ≤ rank_of (without_dashes digits.now.text.now) plain) names.now }
    ensures { result ≡ option_map hit_of
        (find (is_asked (is_more question) (wants question) (without_dashes digits.now.text.now))
        (known_plain held.now names.now)) }
{
    for plain in names {
        if !fits(plain, question, digits) {
            return None;
        }
        let found = find_own(plain, held, question);
        if found.is_some() {
            return found;
        }
    }
    None
}

/// The first entry of one plain name that the question asks for.
#[inline(always)]
fn find_only(
    plain: &PlainName,
    held: &[HeldEntry],
    question: EntryQuestion,
    digits: &Digits<'_>,
) -> Option<EntryId>
    requires from { plain.now.from ≤ plain.now.until }
    requires until { plain.now.until ≤ length held.now }
    requires rise { Rise (slice_range held.now plain.now.from plain.now.until) }
    ensures { result ≡ option_map hit_of
        (find (is_asked (is_more question) (wants question) (without_dashes digits.now.text.now))
        (own_plain held.now plain.now)) }
{
    if fits(plain, question, digits) {
        find_own(plain, held, question)
    } else {
        None
    }
}

/// The first entry of the plain names that the question asks for. The first name that fits is found by binary search.
pub(crate) fn find_plain(
    names: &[PlainName],
    held: &[HeldEntry],
    question: EntryQuestion,
    digits: &Digits<'_>,
) -> Option<EntryId>
    requires ranges { ArePlainRanges (length held.now) names.now }
    requires order { AreInOrder (known_plain held.now names.now) }
    ensures { result ≡ option_map hit_of
        (find (is_asked (is_more question) (wants question) (without_dashes digits.now.text.now))
        (known_plain held.now names.now)) }
{
    if let [only] = names {
        return find_only(only, held, question, digits);
    }
    let limit = rank(fitting(is_more(question)));
    let (_, rest) = names.split_at(count_below(names, digits, limit));
    find_in_front(rest, held, question, digits)
}

/// The plain names of these entries.
pub(crate) fn plain_names(alloc: Global, ranked: &[Ranked<'_>]) -> Result<Vec<PlainName>, NoMemory>
    requires { AllByRecursion (λ one. IsPlain (known_now one).name) ranked.now }
    ensures known { IfOk result (λ names. known_plain (map hold_of (map known_now ranked.now)) names.items
        ≡ map known_now ranked.now) }
    ensures ranges { IfOk result (λ names. ArePlainRanges (length ranked.now) names.items) }
{
    let mut names = Vec::new(alloc);
    let mut from = 0;
    while let Some(first) = ranked.get(from) {
        let name = name_of(first.entry);
        let until = group_end(ranked, from, &first.entry.name);
        let name = Text::new(Vec::from_slice(alloc, plain_of(name))?);
        names.push(PlainName { name, from, until })?;
        from = until;
    }
    Ok(names)
}
