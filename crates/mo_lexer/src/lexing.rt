ghost use Rattle.std.specs.Prelude.{◌≡◌, ◌≤◌, ◌<◌, ◌^◌, ◌++◌, length, IsTrue, OnOk, SomeIff};
ghost use Rattle.std.specs.List.{list_all};
ghost use Rattle.mo_lexer.specs.Bytes.{is_digit};
ghost use Rattle.mo_lexer.specs.Spelling.{Spells};
ghost use Rattle.mo_lexer.specs.Keywords.{keyword_of};
ghost use Rattle.mo_lexer.specs.Tokens.{Lexes, mark_len, token_of, value_of, word_token, model_limit};
ghost use Rattle.mo_lexer.specs.private.Front.{IsNext, noted};

use crate::fault::{LexCode, LexEnd};
use crate::front::{next_piece, rest_from};
use crate::keyword::keyword;
use crate::piece::Piece;
use crate::token::{Token, TokenKind};
use std::alloc::{AllocError, Global};
use sync_values::List;

const MAX_IDENT_LEN: usize = 128;

/// The number that digits stand for, where it is below 2^63.
fn value(digits: &[u8]) -> Option<u64>
    requires { IsTrue (list_all is_digit digits.now) }
    ensures { SomeIff result (value_of digits.now < 2 ^ 63) (value_of digits.now) }
{
    let mut value = 0u64;
    for byte in digits {
        let digit = (*byte - b'0') as u64;
        if value > (i64::MAX as u64 - digit) / 10 {
            return None;
        }
        value = 10 * value + digit;
    }
    Some(value)
}

/// The token of a name or keyword.
fn word_kind(word: &[u8]) -> Result<Option<TokenKind>, LexCode>
    ensures { result ≡ word_token (keyword_of word.now) word.now }
{
    match keyword(word) {
        Some(found) => Ok(Some(TokenKind::Keyword(found))),
        None if word.len() <= MAX_IDENT_LEN => Ok(Some(TokenKind::Ident)),
        None => Err(LexCode::L4),
    }
}

/// The token of a piece, or the code by which it is refused.
fn token_kind(piece: Piece, bytes: &[u8]) -> Result<Option<TokenKind>, LexCode>
    requires { Spells piece bytes.now }
    ensures { result ≡ token_of piece bytes.now }
{
    match piece {
        Piece::Separator | Piece::Comment => Ok(None),
        Piece::Unended => Err(LexCode::L2),
        Piece::Word => word_kind(bytes),
        Piece::Integer => match value(bytes) {
            Some(value) => Ok(Some(TokenKind::Integer(value as i64))),
            None => Err(LexCode::L3),
        },
        Piece::Real => Ok(Some(TokenKind::Real)),
        Piece::Text => Ok(Some(TokenKind::Text)),
        Piece::Symbol(symbol) => Ok(Some(TokenKind::Symbol(symbol))),
    }
}

/// The token, if any, and the length of the piece at a place, or the fault there.
fn next(text: &[u8], at: usize) -> Result<(Option<TokenKind>, usize), LexCode>
    requires { at < length text.now }
    ensures { IsNext text.now at result }
{
    let rest = rest_from(text, at);
    let Some((piece, len)) = next_piece(rest) else {
        return Err(LexCode::L1);
    };
    match token_kind(piece, &rest[..len]) {
        Ok(found) => Ok((found, len)),
        Err(code) => Err(code),
    }
}

/// Notes the token of a piece, if it has one.
fn note(
    tokens: &mut List<Token>,
    found: Option<TokenKind>,
    at: u32,
    end: u32,
) -> Result<(), AllocError>
    ensures { OnOk result (tokens.new ≡ tokens.old ++ noted found at end) }
{
    if let Some(kind) = found {
        tokens.push(Token { kind, at, end })?;
    }
    Ok(())
}

/// How many bytes the byte order mark at the start has.
fn mark_len(text: &[u8]) -> usize
    ensures value { result ≡ mark_len text.now }
    ensures within { result ≤ length text.now }
{
    match text {
        [0xEF, 0xBB, 0xBF, ..] => 3,
        _ => 0,
    }
}

/// The tokens of a text of at most 1 MiB, the last of which is `End`, or the lexical fault of least place.
///
/// Source: MLS 3.6, chapter 2, "Lexical Structure", in this project's profile.
pub fn lex(alloc: Global, text: &[u8]) -> Result<List<Token>, LexEnd>
    requires { length text.now ≤ model_limit }
    ensures { Lexes text.now result }
{
    let mut tokens = List::new(alloc);
    let mut at = mark_len(text);
    while at < text.len() {
        let (found, len) = match next(text, at) {
            Ok(next) => next,
            Err(code) => return Err(LexEnd::Fault {
                code,
                at: at as u32,
            }),
        };
        note(&mut tokens, found, at as u32, (at + len) as u32)?;
        at += len;
    }
    let end = at as u32;
    note(&mut tokens, Some(TokenKind::End), end, end)?;
    Ok(tokens)
}
