//! The tokens of a text, one at a time.

ghost use Rattle.std.specs.Prelude.{◌≡◌, ◌+◌, ◌<◌, ◌≤◌, ◌∷◌, [], length, take, MatchOption, ⊤};
ghost use Rattle.dp_expr.specs.Tokens.{Operand, Sign, is_blank, is_word_byte, word_size, quoted_size, begins_with, longest, mark_cut, cut_at, tokens_of};
ghost use Rattle.dp_expr.specs.AsteriskReading.{is_foreign_mark, has_foreign_mark};
ghost use Rattle.dp_expr.specs.steps.Seen.{token_seen, cut_seen, IsStart, IsNext};

use crate::operator::Operator;

/// A token, which borrows the text.
#[derive(Clone, Copy)]
pub enum Token<'a> {
    /// A word, or a quoted operand with both its quotes.
    Operand(&'a [u8]),
    Sign(Operator),
    /// A `!` without a `=` after it.
    Bang,
    Opening,
    Closing,
    /// A byte that no expression contains: `:`, `?` or `~` outside quotes, or a quote without an end.
    Stray,
}

/// A token, and the number of bytes after its first byte that belong to it.
#[derive(Clone, Copy)]
struct TokenCut<'a> {
    token: Token<'a>,
    more: usize,
}

fn is_blank(byte: u8) -> bool
    ensures { result ≡ is_blank byte }
{
    byte <= b' '
}

#[tactic(auto, unfolding(crate::specs::Tokens::is_word_byte))]
fn is_word_byte(byte: u8) -> bool
    ensures { result ≡ is_word_byte byte }
{
    match byte {
        0..=b' ' => false,
        b'"'
        | b'|'
        | b'&'
        | b'='
        | b'<'
        | b'>'
        | b'+'
        | b'-'
        | b'*'
        | b'/'
        | b'%'
        | b'!'
        | b'('
        | b')'
        | b':'
        | b'?'
        | b'~' => false,
        _ => true,
    }
}

/// The number of bytes of a word at the start of the text.
fn word_size(text: &[u8]) -> usize
    ensures size { result ≡ word_size text.now }
    ensures within { result ≤ length text.now }
{
    for (index, byte) in text.iter().enumerate() {
        if !is_word_byte(*byte) {
            return index;
        }
    }
    text.len()
}

/// The number of bytes of the text up to and including its first quote, if it has one.
fn quoted_size(text: &[u8]) -> Option<usize>
    ensures size { result ≡ quoted_size text.now }
    ensures within { MatchOption result ⊤ (λ size. size ≤ length text.now) }
{
    for (index, byte) in text.iter().enumerate() {
        if *byte == b'"' {
            return Some(index + 1);
        }
    }
    None
}

fn begins_with(text: &[u8], byte: u8) -> bool
    ensures { result ≡ begins_with byte text.now }
{
    match text.first() {
        Some(first) => *first == byte,
        None => false,
    }
}

/// The long token if the second byte comes next, else the short one.
fn longest<'a>(rest: &[u8], second: u8, long: Token<'a>, short: Token<'a>) -> TokenCut<'a>
    ensures cut { cut_seen result
        ≡ longest (begins_with second rest.now) (token_seen long.entry) (token_seen short.entry) }
    ensures within { result.more ≤ length rest.now }
{
    if begins_with(rest, second) {
        TokenCut {
            token: long,
            more: 1,
        }
    } else {
        only(short)
    }
}

fn longest_sign(rest: &[u8], second: u8, long: Operator, short: Operator) -> TokenCut<'static>
    ensures cut { cut_seen result ≡ longest (begins_with second rest.now) (Sign long) (Sign short) }
    ensures within { result.more ≤ length rest.now }
{
    longest(rest, second, Token::Sign(long), Token::Sign(short))
}

/// A token with one byte.
fn only(token: Token<'_>) -> TokenCut<'_>
    ensures { result ≡ record { token = token.entry; more = 0 } }
{
    TokenCut { token, more: 0 }
}

/// A mark other than a quote, before the rest.
#[tactic(auto, unfolding(crate::specs::Tokens::mark_cut))]
#[inline(always)]
fn mark_cut(first: u8, rest: &[u8]) -> TokenCut<'_>
    ensures cut { cut_seen result ≡ mark_cut first rest.now }
    ensures within { result.more ≤ length rest.now }
{
    match first {
        b'|' => longest_sign(rest, b'|', Operator::Or, Operator::Or),
        b'&' => longest_sign(rest, b'&', Operator::And, Operator::And),
        b'=' => longest_sign(rest, b'=', Operator::Equal, Operator::Equal),
        b'!' => longest(rest, b'=', Token::Sign(Operator::NotEqual), Token::Bang),
        b'<' => longest_sign(rest, b'=', Operator::AtMost, Operator::LessThan),
        b'>' => longest_sign(rest, b'=', Operator::AtLeast, Operator::MoreThan),
        b'+' => only(Token::Sign(Operator::Plus)),
        b'-' => only(Token::Sign(Operator::Minus)),
        b'*' => only(Token::Sign(Operator::Times)),
        b'/' => only(Token::Sign(Operator::Over)),
        b'%' => only(Token::Sign(Operator::Remainder)),
        b'(' => only(Token::Opening),
        b')' => only(Token::Closing),
        _ => only(Token::Stray),
    }
}

/// The token that begins with a byte that is not a blank; the text is that byte and the rest.
#[tactic(auto, unfolding(crate::specs::Tokens::cut_at))]
#[inline(always)]
fn cut_at<'a>(first: u8, rest: &'a [u8], text: &'a [u8]) -> TokenCut<'a>
    requires { text.now ≡ first ∷ rest.now }
    ensures cut { cut_seen result ≡ cut_at first rest.now }
    ensures within { result.more ≤ length rest.now }
{
    if first == b'"' {
        match quoted_size(rest) {
            Some(more) => operand(text, more),
            None => only(Token::Stray),
        }
    } else if is_word_byte(first) {
        operand(text, word_size(rest))
    } else {
        mark_cut(first, rest)
    }
}

/// An operand with one byte and this many more.
fn operand(text: &[u8], more: usize) -> TokenCut<'_>
    requires { more < length text.now }
    ensures { cut_seen result ≡ record { token = Operand (take (more + 1) text.now); more = more } }
{
    let (token, _) = text.split_at(more + 1);
    TokenCut {
        token: Token::Operand(token),
        more,
    }
}

/// The text from its first byte that is not a blank.
fn skip_blanks(text: &[u8]) -> &[u8]
    ensures same { tokens_of result.now ≡ tokens_of text.now }
    ensures start { IsStart result.now }
    ensures within { length result.now ≤ length text.now }
{
    let mut rest = text;
    while let Some((first, others)) = rest.split_first() {
        if !is_blank(*first) {
            return rest;
        }
        rest = others;
    }
    rest
}

/// The first token of a text, and the text after it, or None if only blanks are left.
#[inline(always)]
pub fn next_token(text: &[u8]) -> Option<(Token<'_>, &[u8])>
    ensures { MatchOption result (tokens_of text.now ≡ [])
        (λ next. IsNext text.now (token_seen next.0) next.1.now) }
{
    let text = skip_blanks(text);
    let (first, rest) = text.split_first()?;
    let cut = cut_at(*first, rest, text);
    let (_, after) = rest.split_at(cut.more);
    Some((cut.token, after))
}

/// Whether the byte is a mark that has a meaning only in Asterisk.
fn is_foreign_mark(byte: u8) -> bool
    ensures { result ≡ is_foreign_mark byte }
{
    byte == b':' || byte == b'?' || byte == b'~'
}

/// Whether there is such a mark outside quotes.
pub fn has_foreign_mark(text: &[u8]) -> bool
    ensures { result ≡ has_foreign_mark text.now }
{
    let mut rest = text;
    while let Some((first, others)) = rest.split_first() {
        if is_foreign_mark(*first) {
            return true;
        }
        let (_, after) = others.split_at(cut_at(*first, others, rest).more);
        rest = after;
    }
    false
}
