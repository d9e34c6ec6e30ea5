//! The order of names, which says which of two matching names is more specific.
ghost use Rattle.std.specs.Prelude.{◌≡◌, ◌↔◌, IsTrue};
ghost use Rattle.std.specs.Ordering.{ordering_reverse};
ghost use Rattle.dp_pattern.specs.Order.{tail_cmp, tail_cmp_class, class_cmp_tail, pattern_cmp, name_cmp, OrdersNames};

use crate::class::{Class, compare_classes};
use crate::name::{Name, Parts};
use crate::tail::Tail;
use std::cmp::Ordering;

// Compares two patterns at the place where the classes of both have ended.
fn compare_tails(left: Tail, right: Tail) -> Ordering
    ensures { result ≡ tail_cmp left right }
{
    match (left, right) {
        (Tail::End, Tail::End) => Ordering::Equal,
        (Tail::End, _) => Ordering::Less,
        (_, Tail::End) => Ordering::Greater,
        (Tail::Dot, Tail::Dot) => Ordering::Equal,
        (Tail::Dot, Tail::Bang) => Ordering::Less,
        (Tail::Bang, Tail::Dot) => Ordering::Greater,
        (Tail::Bang, Tail::Bang) => Ordering::Equal,
    }
}

// Compares the tail of one pattern with a class of another.
fn compare_tail_with_class(tail: Tail) -> Ordering
    ensures left { result ≡ tail_cmp_class tail }
    ensures right { ordering_reverse result ≡ class_cmp_tail tail }
{
    match tail {
        Tail::End => Ordering::Less,
        Tail::Dot | Tail::Bang => Ordering::Greater,
    }
}

// Compares two patterns at the first place where they differ.
fn compare_patterns(left: &[Class], left_tail: Tail, right: &[Class], right_tail: Tail) -> Ordering
    ensures { result ≡ pattern_cmp left.now left_tail right.now right_tail }
{
    for i in 0..left.len().min(right.len()) {
        let order = compare_classes(&left[i], &right[i]);
        if order != Ordering::Equal {
            return order;
        }
    }
    match left.len().cmp(&right.len()) {
        Ordering::Equal => compare_tails(left_tail, right_tail),
        Ordering::Less => compare_tail_with_class(left_tail),
        Ordering::Greater => compare_tail_with_class(right_tail).reverse(),
    }
}

/// The order of two names, the more specific first, after the Asterisk documentation's page on pattern matching. Plain names come before
/// patterns, in the order of their bytes. Patterns are ordered by the first place where they differ: there the end of a pattern comes first
/// (this program's own choice), then a class, with fewer members first and equal sizes by their members, then `.`, then `!`.
#[tactic(auto, unfolding(crate::specs::Order::name_cmp))]
pub fn compare(left: &Name, right: &Name) -> Ordering
    ensures { result ≡ name_cmp left.now right.now }
{
    match (left.parts(), right.parts()) {
        (Parts::Plain(a), Parts::Plain(b)) => a.cmp(b),
        (Parts::Plain(_), Parts::Pattern(_, _)) => Ordering::Less,
        (Parts::Pattern(_, _), Parts::Plain(_)) => Ordering::Greater,
        (Parts::Pattern(a, s), Parts::Pattern(b, t)) => compare_patterns(a, s, b, t),
    }
}

/// Whether two names have the same meaning, however they were written.
pub fn same(left: &Name, right: &Name) -> bool
    ensures { IsTrue result ↔ (left.now ≡ right.now) }
{
    compare(left, right).is_eq()
}

/// The orders of names and of classes are total, and give `Equal` only for equal meanings and equal classes.
pub fn order_is_total()
    ensures { OrdersNames }
{}
