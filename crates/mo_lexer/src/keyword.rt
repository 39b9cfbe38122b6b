//! Which words are keywords. A word is compared with the keywords of its own length alone.
ghost use Rattle.std.specs.Prelude.{◌≡◌, bytes_eq};
ghost use Rattle.mo_lexer.specs.Keywords.{entries, entry_of, keyword_of};

use crate::token::Word;

const TWO: [(&[u8], Word); 3] = [
    (b"if", Word::KwIf),
    (b"in", Word::KwIn),
    (b"or", Word::KwOr),
];

const THREE: [(&[u8], Word); 5] = [
    (b"and", Word::KwAnd),
    (b"der", Word::KwDer),
    (b"end", Word::KwEnd),
    (b"for", Word::KwFor),
    (b"not", Word::KwNot),
];

const FOUR: [(&[u8], Word); 9] = [
    (b"each", Word::KwEach),
    (b"else", Word::KwElse),
    (b"flow", Word::KwFlow),
    (b"loop", Word::KwLoop),
    (b"pure", Word::KwPure),
    (b"then", Word::KwThen),
    (b"true", Word::KwTrue),
    (b"type", Word::KwType),
    (b"when", Word::KwWhen),
];

const FIVE: [(&[u8], Word); 10] = [
    (b"block", Word::KwBlock),
    (b"break", Word::KwBreak),
    (b"class", Word::KwClass),
    (b"false", Word::KwFalse),
    (b"final", Word::KwFinal),
    (b"inner", Word::KwInner),
    (b"input", Word::KwInput),
    (b"model", Word::KwModel),
    (b"outer", Word::KwOuter),
    (b"while", Word::KwWhile),
];

const SIX: [(&[u8], Word); 9] = [
    (b"elseif", Word::KwElseif),
    (b"import", Word::KwImport),
    (b"impure", Word::KwImpure),
    (b"output", Word::KwOutput),
    (b"public", Word::KwPublic),
    (b"record", Word::KwRecord),
    (b"return", Word::KwReturn),
    (b"stream", Word::KwStream),
    (b"within", Word::KwWithin),
];

const SEVEN: [(&[u8], Word); 5] = [
    (b"connect", Word::KwConnect),
    (b"extends", Word::KwExtends),
    (b"initial", Word::KwInitial),
    (b"package", Word::KwPackage),
    (b"partial", Word::KwPartial),
];

const EIGHT: [(&[u8], Word); 7] = [
    (b"constant", Word::KwConstant),
    (b"discrete", Word::KwDiscrete),
    (b"elsewhen", Word::KwElsewhen),
    (b"equation", Word::KwEquation),
    (b"external", Word::KwExternal),
    (b"function", Word::KwFunction),
    (b"operator", Word::KwOperator),
];

const NINE: [(&[u8], Word); 5] = [
    (b"algorithm", Word::KwAlgorithm),
    (b"connector", Word::KwConnector),
    (b"parameter", Word::KwParameter),
    (b"protected", Word::KwProtected),
    (b"redeclare", Word::KwRedeclare),
];

const TEN: [(&[u8], Word); 2] = [
    (b"annotation", Word::KwAnnotation),
    (b"expandable", Word::KwExpandable),
];

const ELEVEN: [(&[u8], Word); 2] = [
    (b"enumeration", Word::KwEnumeration),
    (b"replaceable", Word::KwReplaceable),
];

const TWELVE: [(&[u8], Word); 1] = [(b"encapsulated", Word::KwEncapsulated)];

const THIRTEEN: [(&[u8], Word); 1] = [(b"constrainedby", Word::KwConstrainedby)];

/// Whether two words have the same bytes.
fn same_word(a: &[u8], b: &[u8]) -> bool
    ensures { result ≡ bytes_eq a.now b.now }
{
    a == b
}

/// The entry of a table that has this spelling.
fn entry(mut table: &[(&[u8], Word)], word: &[u8]) -> Option<Word>
    ensures { result ≡ entry_of word.now (entries table.entry.now) }
{
    while let [first, rest @ ..] = table {
        if same_word(word, first.0) {
            return Some(first.1);
        }
        table = rest;
    }
    None
}

/// The keyword that these bytes spell, if they spell one.
pub(crate) fn keyword(word: &[u8]) -> Option<Word>
    ensures { result ≡ keyword_of word.now }
{
    match word.len() {
        2 => entry(&TWO, word),
        3 => entry(&THREE, word),
        4 => entry(&FOUR, word),
        5 => entry(&FIVE, word),
        6 => entry(&SIX, word),
        7 => entry(&SEVEN, word),
        8 => entry(&EIGHT, word),
        9 => entry(&NINE, word),
        10 => entry(&TEN, word),
        11 => entry(&ELEVEN, word),
        12 => entry(&TWELVE, word),
        13 => entry(&THIRTEEN, word),
        _ => None,
    }
}
