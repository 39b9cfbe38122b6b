use mo_lexer::TokenKind::{End, Ident, Integer, Keyword, Real, Symbol};
use mo_lexer::{LexCode, LexEnd, Sym, Token, TokenKind, Word, lex, tokens_law};
use std::alloc::Global;
use std::process::Abort;
use sync_values::List;

const LIMIT: usize = 1 << 20;

/// A kind with its first byte and the byte behind it.
type Place = (TokenKind, u32, u32);

/// The tokens of a text, or how it ends.
pub fn lexed(rt: &impl Abort, alloc: Global, text: &[u8]) -> Result<List<Token>, LexEnd> {
    assert!(rt; text.len() <= LIMIT);
    lex(alloc, text)
}

fn are_places(tokens: &[Token], wanted: &[Place]) -> bool {
    for (token, place) in tokens.iter().zip(wanted) {
        if token.kind != place.0 || token.at != place.1 || token.end != place.2 {
            return false;
        }
    }
    tokens.len() == wanted.len()
}

fn has_tokens(rt: &impl Abort, alloc: Global, text: &[u8], wanted: &[Place]) {
    let tokens = lexed(rt, alloc, text).expect(rt, "a text of tokens");
    assert!(rt; are_places(tokens.as_slice(), wanted), "at {text:?}");
}

fn has_fault(rt: &impl Abort, alloc: Global, text: &[u8], code: LexCode, at: u32) {
    let end = lexed(rt, alloc, text).err();
    assert!(rt; end == Some(LexEnd::Fault { code, at }), "at {text:?}");
}

static TEXTS: [(&[u8], &[Place]); 22] = [
    (b"", &[(End, 0, 0)]),
    (
        b"\xEF\xBB\xBFmodel M",
        &[
            (Keyword(Word::KwModel), 3, 8),
            (Ident, 9, 10),
            (End, 10, 10),
        ],
    ),
    (b" x_1\r\n", &[(Ident, 1, 4), (End, 6, 6)]),
    (
        b"if ifx",
        &[(Keyword(Word::KwIf), 0, 2), (Ident, 3, 6), (End, 6, 6)],
    ),
    (b"1.", &[(Real, 0, 2), (End, 2, 2)]),
    (b"1.e", &[(Real, 0, 2), (Ident, 2, 3), (End, 3, 3)]),
    (
        b"1e+",
        &[
            (Integer(1), 0, 1),
            (Ident, 1, 2),
            (Symbol(Sym::Plus), 2, 3),
            (End, 3, 3),
        ],
    ),
    (b"1e-05", &[(Real, 0, 5), (End, 5, 5)]),
    (b"1.25E5", &[(Real, 0, 6), (End, 6, 6)]),
    (
        b"1..2",
        &[
            (Real, 0, 2),
            (Symbol(Sym::Dot), 2, 3),
            (Integer(2), 3, 4),
            (End, 4, 4),
        ],
    ),
    (
        b".5",
        &[(Symbol(Sym::Dot), 0, 1), (Integer(5), 1, 2), (End, 2, 2)],
    ),
    (
        b"9223372036854775807",
        &[(Integer(9223372036854775807), 0, 19), (End, 19, 19)],
    ),
    (b"<>", &[(Symbol(Sym::Unequal), 0, 2), (End, 2, 2)]),
    (b":=", &[(Symbol(Sym::Assign), 0, 2), (End, 2, 2)]),
    (
        b"<==",
        &[
            (Symbol(Sym::LessEq), 0, 2),
            (Symbol(Sym::Equals), 2, 3),
            (End, 3, 3),
        ],
    ),
    (
        b"=<",
        &[
            (Symbol(Sym::Equals), 0, 1),
            (Symbol(Sym::Less), 1, 2),
            (End, 2, 2),
        ],
    ),
    (b"a//", &[(Ident, 0, 1), (End, 3, 3)]),
    (b"// \"\n*", &[(Symbol(Sym::Times), 5, 6), (End, 6, 6)]),
    (b"/*/*/a/**/", &[(Ident, 5, 6), (End, 10, 10)]),
    (b"/", &[(Symbol(Sym::Over), 0, 1), (End, 1, 1)]),
    (b"\"\\\"\\\\\"", &[(TokenKind::Text, 0, 6), (End, 6, 6)]),
    (
        b"\"\xC3\"\"\"",
        &[
            (TokenKind::Text, 0, 3),
            (TokenKind::Text, 3, 5),
            (End, 5, 5),
        ],
    ),
];

fn have_tokens(rt: &impl Abort, alloc: Global, rows: &[(&[u8], &[Place])]) {
    for row in rows {
        has_tokens(rt, alloc, row.0, row.1);
    }
}

#[test]
fn tokens_of_texts(rt: HostRuntime) {
    have_tokens(&rt, rt.alloc(), &TEXTS);
}

#[test]
fn tokens_follow_their_law() {
    tokens_law(b"x");
}

static FAULTS: [(&[u8], LexCode, u32); 14] = [
    (b"model M\n/* x\nend M;", LexCode::L2, 8),
    (b"model M @ end M;", LexCode::L1, 8),
    (b"model M Integer x = 9223372036854775808;", LexCode::L3, 20),
    (b"/* /* */ */ x @", LexCode::L1, 14),
    (b"a /*/", LexCode::L2, 2),
    (b"\"ab", LexCode::L2, 0),
    (b"\"ab\\", LexCode::L2, 0),
    (b"a \"\\\"", LexCode::L2, 2),
    (b"\xEF\xBB\xBF\xEF\xBB\xBF", LexCode::L1, 3),
    (b"a\xEF\xBB\xBF", LexCode::L1, 1),
    (b"\xEF\xBB", LexCode::L1, 0),
    (b"@ \"", LexCode::L1, 0),
    (b"\" @", LexCode::L2, 0),
    (b"9223372036854775808 @", LexCode::L3, 0),
];

#[test]
fn faults_of_texts(rt: HostRuntime) {
    for row in &FAULTS {
        has_fault(&rt, rt.alloc(), row.0, row.1, row.2);
    }
}

#[test]
fn limits_of_names(rt: HostRuntime) {
    let mut name = vec![in rt.alloc(); b'a'; 128].expect(&rt, "memory");
    has_tokens(&rt, rt.alloc(), &name, &[(Ident, 0, 128), (End, 128, 128)]);
    name.push(b'1').expect(&rt, "memory");
    has_fault(&rt, rt.alloc(), &name, LexCode::L4, 0);
}

#[test]
fn limits_of_numbers(rt: HostRuntime) {
    let mut digits = vec![in rt.alloc(); b'9'; 400].expect(&rt, "memory");
    has_fault(&rt, rt.alloc(), &digits, LexCode::L3, 0);
    digits.push(b'.').expect(&rt, "memory");
    has_tokens(&rt, rt.alloc(), &digits, &[(Real, 0, 401), (End, 401, 401)]);
}

const OF_WORDS: &[u8] = b"ABCDEFGHIJKLMNOPQRSTUVWXYZ_abcdefghijklmnopqrstuvwxyz0123456789";

const SYMBOLS: &[u8] = b"(){}[],;:.=<>+-*/^";

fn has_second_byte(rt: &impl Abort, alloc: Global, byte: u8) {
    let text = [b'm', byte, b' '];
    match byte {
        b'"' => has_fault(rt, alloc, &text, LexCode::L2, 1),
        b' ' | b'\t' | b'\n' | b'\r' => has_tokens(rt, alloc, &text, &[(Ident, 0, 1), (End, 3, 3)]),
        _ if OF_WORDS.contains(&byte) => has_tokens(
            rt,
            alloc,
            &text,
            &[(Ident, 0, 2), (End, 3, 3)],
        ),
        _ if SYMBOLS.contains(&byte) => {
            let tokens = lexed(rt, alloc, &text).expect(rt, "a symbol");
            assert!(rt; tokens.len() == 3, "at {byte}");
        }
        _ => has_fault(rt, alloc, &text, LexCode::L1, 1),
    }
}

#[test]
fn every_second_byte(rt: HostRuntime) {
    for byte in 0..=255u8 {
        has_second_byte(&rt, rt.alloc(), byte);
    }
}
