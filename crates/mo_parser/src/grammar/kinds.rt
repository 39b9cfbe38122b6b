//! What a single token is.
ghost use Rattle.std.specs.Prelude.{◌≡◌};
ghost use Rattle.mo_parser.specs.grammar.Kinds as spec;
ghost use Rattle.mo_parser.specs.reading.Starts as starts;

use crate::tree::{Causality, ClassKind, Variability};
use mo_lexer::{Sym, Token, TokenKind, Word};
use sync_values::{Rel, Value};

/// Whether a token is this symbol.
#[tactic(auto, unfolding(crate::specs::grammar::Kinds::is_symbol, crate::specs::grammar::Kinds::same_symbol))]
pub fn is_symbol(token: Token, symbol: Sym) -> bool
    ensures { result ≡ spec.is_symbol symbol token }
{
    match token.kind {
        TokenKind::Symbol(found) => found == symbol,
        _ => false,
    }
}

/// Whether a token is this keyword.
#[tactic(auto, unfolding(crate::specs::grammar::Kinds::is_word, crate::specs::grammar::Kinds::same_word))]
pub fn is_word(token: Token, word: Word) -> bool
    ensures { result ≡ spec.is_word word token }
{
    match token.kind {
        TokenKind::Keyword(found) => found == word,
        _ => false,
    }
}

/// Whether a token is an `Ident`.
#[tactic(auto, unfolding(crate::specs::grammar::Kinds::is_ident))]
pub fn is_ident(token: Token) -> bool
    ensures { result ≡ spec.is_ident token }
{
    matches!(token.kind, TokenKind::Ident)
}

/// Whether a token is a `Text`.
#[tactic(auto, unfolding(crate::specs::grammar::Kinds::is_text))]
pub fn is_text(token: Token) -> bool
    ensures { result ≡ spec.is_text token }
{
    matches!(token.kind, TokenKind::Text)
}

/// The value of a literal.
#[tactic(auto, unfolding(crate::specs::grammar::Kinds::literal_of))]
pub fn literal_of(token: Token) -> Option<Value>
    ensures { result ≡ spec.literal_of token }
{
    match token.kind {
        TokenKind::Integer(number) => Some(Value::Int(number)),
        TokenKind::Keyword(Word::KwTrue) => Some(Value::Bool(true)),
        TokenKind::Keyword(Word::KwFalse) => Some(Value::Bool(false)),
        _ => None,
    }
}

/// The relation that a token is.
#[tactic(auto, unfolding(crate::specs::grammar::Kinds::relation_of))]
pub fn relation_of(token: Token) -> Option<Rel>
    ensures { result ≡ spec.relation_of token }
{
    match token.kind {
        TokenKind::Symbol(Sym::Less) => Some(Rel::Less),
        TokenKind::Symbol(Sym::LessEq) => Some(Rel::LessEq),
        TokenKind::Symbol(Sym::Greater) => Some(Rel::Greater),
        TokenKind::Symbol(Sym::GreaterEq) => Some(Rel::GreaterEq),
        TokenKind::Symbol(Sym::Equal) => Some(Rel::Equal),
        TokenKind::Symbol(Sym::Unequal) => Some(Rel::Unequal),
        _ => None,
    }
}

/// Whether a token may stand in a note by itself, as no bracket and not the end.
#[tactic(auto, unfolding(crate::specs::grammar::Kinds::is_plain))]
pub fn is_plain(token: Token) -> bool
    ensures { result ≡ spec.is_plain token }
{
    !matches!(
        token.kind,
        TokenKind::End
            | TokenKind::Symbol(
                Sym::RoundOpen
                    | Sym::RoundClose
                    | Sym::CurlyOpen
                    | Sym::CurlyClose
                    | Sym::SquareOpen
                    | Sym::SquareClose
            )
    )
}

/// Whether a token begins a piece of a note.
#[tactic(auto, unfolding(crate::specs::reading::Starts::begins_balanced))]
pub fn begins_balanced(token: Token) -> bool
    ensures { result ≡ starts.begins_balanced token }
{
    !matches!(
        token.kind,
        TokenKind::End | TokenKind::Symbol(Sym::RoundClose | Sym::CurlyClose | Sym::SquareClose)
    )
}

/// The variability that a token is.
#[tactic(auto, unfolding(crate::specs::grammar::Kinds::variability_of))]
pub fn variability_of(token: Token) -> Option<Variability>
    ensures { result ≡ spec.variability_of token }
{
    match token.kind {
        TokenKind::Keyword(Word::KwParameter) => Some(Variability::Parameter),
        TokenKind::Keyword(Word::KwConstant) => Some(Variability::Constant),
        TokenKind::Keyword(Word::KwDiscrete) => Some(Variability::Plain),
        _ => None,
    }
}

/// The causality that a token is.
#[tactic(auto, unfolding(crate::specs::grammar::Kinds::causality_of))]
pub fn causality_of(token: Token) -> Option<Causality>
    ensures { result ≡ spec.causality_of token }
{
    match token.kind {
        TokenKind::Keyword(Word::KwInput) => Some(Causality::Input),
        TokenKind::Keyword(Word::KwOutput) => Some(Causality::Output),
        _ => None,
    }
}

/// The kind of a class that is no connector.
#[tactic(auto, unfolding(crate::specs::grammar::Kinds::class_of))]
pub fn class_of(token: Token) -> Option<ClassKind>
    ensures { result ≡ spec.class_of token }
{
    match token.kind {
        TokenKind::Keyword(Word::KwModel) => Some(ClassKind::Model),
        TokenKind::Keyword(Word::KwBlock) => Some(ClassKind::Block),
        TokenKind::Keyword(Word::KwClass) => Some(ClassKind::Class),
        _ => None,
    }
}

/// Whether a token begins a section of further elements.
#[tactic(auto, unfolding(crate::specs::grammar::Kinds::visibility_of))]
pub fn visibility_of(token: Token) -> Option<()>
    ensures { result ≡ spec.visibility_of token }
{
    match token.kind {
        TokenKind::Keyword(Word::KwPublic) => Some(()),
        TokenKind::Keyword(Word::KwProtected) => Some(()),
        _ => None,
    }
}

/// Whether a token begins an element.
#[tactic(auto, unfolding(crate::specs::reading::Starts::begins_element))]
pub fn begins_element(token: Token) -> bool
    ensures { result ≡ starts.begins_element token }
{
    matches!(
        token.kind,
        TokenKind::Ident
            | TokenKind::Keyword(
                Word::KwParameter
                    | Word::KwConstant
                    | Word::KwDiscrete
                    | Word::KwInput
                    | Word::KwOutput
            )
    )
}

/// Whether a token begins the left side of an equation.
#[tactic(auto, unfolding(crate::specs::reading::Starts::begins_simple))]
pub fn begins_simple(token: Token) -> bool
    ensures { result ≡ starts.begins_simple token }
{
    matches!(
        token.kind,
        TokenKind::Symbol(Sym::Plus | Sym::Minus | Sym::RoundOpen)
            | TokenKind::Keyword(Word::KwNot | Word::KwTrue | Word::KwFalse)
            | TokenKind::Integer(_)
            | TokenKind::Ident
    )
}

/// Whether a token begins an equation.
#[tactic(auto, unfolding(crate::specs::reading::Starts::begins_equation, crate::specs::reading::Starts::begins_simple))]
pub fn begins_equation(token: Token) -> bool
    ensures { result ≡ starts.begins_equation token }
{
    matches!(
        token.kind,
        TokenKind::Keyword(Word::KwWhen | Word::KwConnect)
    ) || begins_simple(token)
}

/// Whether a token begins a section.
#[tactic(auto, unfolding(crate::specs::reading::Starts::begins_section))]
pub fn begins_section(token: Token) -> bool
    ensures { result ≡ starts.begins_section token }
{
    matches!(
        token.kind,
        TokenKind::Keyword(Word::KwPublic | Word::KwProtected | Word::KwEquation)
    )
}

/// Whether a token begins a class.
#[tactic(auto, unfolding(crate::specs::reading::Starts::begins_class))]
pub fn begins_class(token: Token) -> bool
    ensures { result ≡ starts.begins_class token }
{
    matches!(
        token.kind,
        TokenKind::Keyword(Word::KwModel | Word::KwBlock | Word::KwClass | Word::KwConnector)
    )
}

/// Whether a token is the end.
#[tactic(auto, unfolding(crate::specs::grammar::Kinds::is_end))]
pub fn is_end(token: Token) -> bool
    ensures { result ≡ spec.is_end token }
{
    matches!(token.kind, TokenKind::End)
}

/// A keyword of the language that the profile has no place for.
fn foreign_word(word: Word) -> bool
    ensures { result ≡ spec.foreign_word word }
{
    match word {
        Word::KwAlgorithm
        | Word::KwBreak
        | Word::KwConstrainedby
        | Word::KwDer
        | Word::KwEach
        | Word::KwElsewhen
        | Word::KwEncapsulated
        | Word::KwEnumeration
        | Word::KwExpandable
        | Word::KwExtends
        | Word::KwExternal
        | Word::KwFinal
        | Word::KwFlow
        | Word::KwFor
        | Word::KwFunction
        | Word::KwImport
        | Word::KwImpure
        | Word::KwIn
        | Word::KwInitial
        | Word::KwInner
        | Word::KwLoop
        | Word::KwOperator
        | Word::KwOuter
        | Word::KwPackage
        | Word::KwPartial
        | Word::KwPure
        | Word::KwRecord
        | Word::KwRedeclare
        | Word::KwReplaceable
        | Word::KwReturn
        | Word::KwStream
        | Word::KwType
        | Word::KwWhile => true,
        _ => false,
    }
}

/// Whether a token is one of the language that the profile has no place for.
#[tactic(auto, unfolding(crate::specs::grammar::Kinds::is_foreign))]
pub fn is_foreign(token: Token) -> bool
    ensures { result ≡ spec.is_foreign token }
{
    match token.kind {
        TokenKind::Real => true,
        TokenKind::Text => true,
        TokenKind::Symbol(Sym::SquareOpen) => true,
        TokenKind::Symbol(Sym::CurlyOpen) => true,
        TokenKind::Symbol(Sym::Assign) => true,
        TokenKind::Keyword(word) => foreign_word(word),
        _ => false,
    }
}
