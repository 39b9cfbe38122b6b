//! The longest piece at the front of some bytes.
ghost use Rattle.std.specs.Prelude.{◌≡◌, ◌<◌, ◌≤◌, length, drop, take_while, slice_index, IsTrue, [], ◌∷◌};
ghost use Rattle.mo_lexer.specs.Bytes.{is_separator, is_digit, is_word_byte, is_in_line};
ghost use Rattle.mo_lexer.specs.Tokens.{Begins};
ghost use Rattle.mo_lexer.specs.private.Front.{BeginsWith, is_other, has_point, sign_len, HasExponent, EndsText, EndsComment, IsSymbolOf};

use crate::byte::{digit, exponent_letter, in_line, letter, separator, word_byte};
use crate::piece::Piece;
use crate::token::Sym;

/// How many bytes at the front are separators.
fn separators_len(text: &[u8]) -> usize
    ensures { result ≡ length (take_while is_separator text.now) }
{
    text.iter().take_while(|byte| separator(**byte)).count()
}

/// How many bytes at the front are letters, digits or `_`.
fn word_len(text: &[u8]) -> usize
    ensures { result ≡ length (take_while is_word_byte text.now) }
{
    text.iter().take_while(|byte| word_byte(**byte)).count()
}

/// How many bytes at the front are digits.
fn digits_len(text: &[u8]) -> usize
    ensures { result ≡ length (take_while is_digit text.now) }
{
    text.iter().take_while(|byte| digit(**byte)).count()
}

/// How many bytes at the front are in the line.
fn line_len(text: &[u8]) -> usize
    ensures { result ≡ length (take_while is_in_line text.now) }
{
    text.iter().take_while(|byte| in_line(**byte)).count()
}

/// The bytes from a place on.
pub(crate) fn rest_from(text: &[u8], at: usize) -> &[u8]
    requires { at ≤ length text.now }
    ensures { result.now ≡ drop at text.now }
{
    &text[at..]
}

/// How many bytes a sign at the front has.
fn sign_len(text: &[u8]) -> usize
    ensures { result ≡ sign_len text.now }
{
    match text {
        [b'+', ..] | [b'-', ..] => 1,
        _ => 0,
    }
}

/// How many bytes the exponent at the front has, or 0.
fn exponent_len(text: &[u8]) -> usize
    ensures { HasExponent text.now result }
{
    let Some(first) = text.first() else {
        return 0;
    };
    if !exponent_letter(*first) {
        return 0;
    }
    let behind = rest_from(text, 1);
    let sign = sign_len(behind);
    let digits = digits_len(rest_from(behind, sign));
    if digits == 0 { 0 } else { 1 + sign + digits }
}

/// Whether the bytes begin with a point.
fn has_point(text: &[u8]) -> bool
    ensures value { result ≡ has_point text.now }
    ensures some { IsTrue result → 1 ≤ length text.now }
{
    matches!(text, [b'.', ..])
}

/// The number that begins with this digit.
fn number(text: &[u8]) -> (Piece, usize)
    requires some { 0 < length text.now }
    requires digit { IsTrue (is_digit (slice_index text.now 0)) }
    ensures { Begins result.0 result.1 text.now }
{
    let whole = digits_len(text);
    let rest = rest_from(text, whole);
    if has_point(rest) {
        let behind = rest_from(rest, 1);
        let places = digits_len(behind);
        let exponent = exponent_len(rest_from(behind, places));
        return (Piece::Real, whole + 1 + places + exponent);
    }
    let exponent = exponent_len(rest);
    if exponent == 0 {
        (Piece::Integer, whole)
    } else {
        (Piece::Real, whole + exponent)
    }
}

/// Where the quote stands that ends a Text, in the bytes behind its first quote.
fn text_end(inside: &[u8]) -> Option<usize>
    ensures { EndsText inside.now result }
{
    let mut taken = false;
    for (at, byte) in inside.iter().enumerate() {
        if taken {
            taken = false;
        } else if *byte == b'"' {
            return Some(at);
        } else {
            taken = *byte == b'\\';
        }
    }
    None
}

/// Where the first `*/` stands.
fn comment_end(inside: &[u8]) -> Option<usize>
    ensures { EndsComment inside.now result }
{
    for at in 1..inside.len() {
        if inside[at - 1] == b'*' && inside[at] == b'/' {
            return Some(at - 1);
        }
    }
    None
}

/// The Text that begins with this quote.
fn quoted(text: &[u8]) -> (Piece, usize)
    requires some { 0 < length text.now }
    requires quote { slice_index text.now 0 ≡ 34 }
    ensures { Begins result.0 result.1 text.now }
{
    match text_end(rest_from(text, 1)) {
        Some(at) => (Piece::Text, at + 2),
        None => (Piece::Unended, text.len()),
    }
}

/// The comment or symbol that begins with this slash.
fn slash(text: &[u8]) -> (Piece, usize)
    requires some { 0 < length text.now }
    requires slash { slice_index text.now 0 ≡ 47 }
    ensures { Begins result.0 result.1 text.now }
{
    // 0, which stands in no comment's beginning, where the text ends here.
    let second = text.get(1).copied().unwrap_or(0);
    if second == b'/' {
        return (Piece::Comment, 2 + line_len(rest_from(text, 2)));
    }
    if second != b'*' {
        return (Piece::Symbol(Sym::Over), 1);
    }
    match comment_end(rest_from(text, 2)) {
        Some(at) => (Piece::Comment, at + 4),
        None => (Piece::Unended, text.len()),
    }
}

/// The symbol of one byte.
fn short_symbol(byte: u8) -> Option<Sym>
    ensures { IsSymbolOf (byte ∷ []) result }
{
    match byte {
        b'(' => Some(Sym::RoundOpen),
        b')' => Some(Sym::RoundClose),
        b'{' => Some(Sym::CurlyOpen),
        b'}' => Some(Sym::CurlyClose),
        b'[' => Some(Sym::SquareOpen),
        b']' => Some(Sym::SquareClose),
        b',' => Some(Sym::Comma),
        b';' => Some(Sym::Semicolon),
        b':' => Some(Sym::Colon),
        b'.' => Some(Sym::Dot),
        b'=' => Some(Sym::Equals),
        b'<' => Some(Sym::Less),
        b'>' => Some(Sym::Greater),
        b'+' => Some(Sym::Plus),
        b'-' => Some(Sym::Minus),
        b'*' => Some(Sym::Times),
        b'/' => Some(Sym::Over),
        b'^' => Some(Sym::Power),
        _ => None,
    }
}

/// The symbol of two bytes.
fn long_symbol(first: u8, second: u8) -> Option<Sym>
    ensures { IsSymbolOf (first ∷ second ∷ []) result }
{
    match (first, second) {
        (b'=', b'=') => Some(Sym::Equal),
        (b'<', b'>') => Some(Sym::Unequal),
        (b'<', b'=') => Some(Sym::LessEq),
        (b'>', b'=') => Some(Sym::GreaterEq),
        (b':', b'=') => Some(Sym::Assign),
        _ => None,
    }
}

/// The symbol at the front, where nothing else can begin.
fn marked(text: &[u8]) -> Option<(Piece, usize)>
    requires some { 0 < length text.now }
    requires other { IsTrue (is_other (slice_index text.now 0)) }
    ensures { BeginsWith text.now result }
{
    match text {
        [] => None,
        [first] => Some((Piece::Symbol(short_symbol(*first)?), 1)),
        [first, second, ..] => match long_symbol(*first, *second) {
            Some(symbol) => Some((Piece::Symbol(symbol), 2)),
            None => Some((Piece::Symbol(short_symbol(*first)?), 1)),
        },
    }
}

/// The longest piece at the front of the bytes, with its length.
pub(crate) fn next_piece(text: &[u8]) -> Option<(Piece, usize)>
    ensures { BeginsWith text.now result }
{
    let first = *text.first()?;
    if letter(first) {
        Some((Piece::Word, word_len(text)))
    } else if separator(first) {
        Some((Piece::Separator, separators_len(text)))
    } else if digit(first) {
        Some(number(text))
    } else if first == b'"' {
        Some(quoted(text))
    } else if first == b'/' {
        Some(slash(text))
    } else {
        marked(text)
    }
}
