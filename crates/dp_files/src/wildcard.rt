//! Names of files with `*` and `?`, as in `#include`, after the Asterisk documentation's page on its configuration files.
ghost use Rattle.std.specs.Prelude.{◌≡◌, drop};
ghost use Rattle.std.specs.Option.{option_map};
ghost use Rattle.dp_conf.specs.Cut.{begins_with};
ghost use Rattle.dp_files.specs.Wildcards as spec;
ghost use Rattle.dp_files.specs.steps.Wildcards as steps;

use dp_conf::before_last;

/// A `*` that was found: the rest of the pattern after it, and the place in the name where it ends for now.
#[derive(Clone, Copy)]
struct Star<'a> {
    pattern: &'a [u8],
    name: &'a [u8],
}

/// The text without its first byte.
fn after_first(text: &[u8]) -> &[u8]
    ensures { result.now ≡ drop 1 text.now }
{
    match text.split_first() {
        None => text,
        Some((_, after)) => after,
    }
}

/// Whether a pattern begins with a `*`.
fn begins_with_star(pattern: &[u8]) -> bool
    ensures { result ≡ begins_with 42 pattern.now }
{
    match pattern.first() {
        None => false,
        Some(byte) => *byte == b'*',
    }
}

/// Whether the first byte of a pattern, which is not a `*`, matches the first byte of a name.
fn first_fits(pattern: &[u8], name: &[u8]) -> bool
    ensures { result ≡ steps.first_fits pattern.now name.now }
{
    match (pattern.first(), name.first()) {
        (Some(p), Some(b)) => *p == b'?' || p == b,
        _ => false,
    }
}

/// The last `*`, ending one byte later if possible.
fn next_star(star: Option<Star<'_>>) -> Option<Star<'_>>
    ensures { option_map steps.star_now result ≡ steps.next_star (option_map steps.star_now star.entry) }
{
    let star = star?;
    let (_, name) = star.name.split_first()?;
    Some(Star {
        pattern: star.pattern,
        name,
    })
}

/// Whether a pattern matches a text. `*` matches any number of bytes, `?` matches one byte, and every other byte matches itself.
///
/// It never allocates, and takes time at most proportional to the product of both lengths.
pub fn matches_wildcard(pattern: &[u8], text: &[u8]) -> bool
    ensures { result ≡ spec.matches pattern.now text.now }
{
    let mut left = pattern;
    let mut name = text;
    let mut last: Option<Star<'_>> = None;
    while !left.is_empty() || !name.is_empty() {
        if begins_with_star(left) {
            left = after_first(left);
            last = Some(Star {
                pattern: left,
                name,
            });
        } else if first_fits(left, name) {
            left = after_first(left);
            name = after_first(name);
        } else if let Some(star) = next_star(last) {
            left = star.pattern;
            name = star.name;
            last = Some(star);
        } else {
            return false;
        }
    }
    true
}

/// The last part of a name: the text after its last `/`, or all of it.
#[tactic(auto, using(crate::proofs::WildcardsLemmas::folder_shorter))]
fn last_part(name: &[u8]) -> &[u8]
    ensures { result.now ≡ spec.last_part name.now }
{
    match before_last(name, b'/') {
        None => name,
        Some(folder) => &name[folder.len() + 1..],
    }
}

/// Whether the last part of a name contains a `*` or a `?`, so that it matches other names.
pub fn is_wildcard(name: &[u8]) -> bool
    ensures { result ≡ spec.is_wildcard name.now }
{
    let part = last_part(name);
    part.contains(&b'*') || part.contains(&b'?')
}

/// Whether two folders are the same.
fn same_folder(a: Option<&[u8]>, b: Option<&[u8]>) -> bool
    ensures { result ≡ spec.same_folder (option_map (λ a. a.now) a.entry) (option_map (λ b. b.now) b.entry) }
{
    match (a, b) {
        (None, None) => true,
        (Some(a), Some(b)) => a == b,
        _ => false,
    }
}

/// Whether a name with `*` and `?` in its last part matches a name. Up to the last `/` both are the same, and the rest matches in the sense
/// of [`matches_wildcard`]. A name that begins with `.` is like any other (a choice of this program).
#[tactic(auto, unfolding(crate::specs::Wildcards::stands_for))]
pub fn stands_for(pattern: &[u8], name: &[u8]) -> bool
    ensures { result ≡ spec.stands_for pattern.now name.now }
{
    same_folder(before_last(pattern, b'/'), before_last(name, b'/'))
        && matches_wildcard(last_part(pattern), last_part(name))
}
