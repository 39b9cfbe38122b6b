/// A token with the bytes it stands on: from `at` up to, not including, `end`, counted from 0 in the text.
#[derive(Clone, Copy, PartialEq, Eq)]
pub struct Token {
    pub kind: TokenKind,
    pub at: u32,
    pub end: u32,
}

/// What a token is. Source: MLS 3.6, chapter 2, "Lexical Structure", in this project's profile.
#[derive(Clone, Copy, PartialEq, Eq)]
pub enum TokenKind {
    /// A name that is no keyword; its spelling is read from the text.
    Ident,
    Keyword(Word),
    /// An unsigned whole number of at most 2^63-1.
    Integer(i64),
    /// A decimal number, which the profile reads and never evaluates.
    Real,
    /// A text in double quotes.
    Text,
    Symbol(Sym),
    /// The end of the text, which is the last token of every list.
    End,
}

/// A keyword of the language.
#[derive(Clone, Copy, PartialEq, Eq)]
pub enum Word {
    KwAlgorithm,
    KwAnd,
    KwAnnotation,
    KwBlock,
    KwBreak,
    KwClass,
    KwConnect,
    KwConnector,
    KwConstant,
    KwConstrainedby,
    KwDer,
    KwDiscrete,
    KwEach,
    KwElse,
    KwElseif,
    KwElsewhen,
    KwEncapsulated,
    KwEnd,
    KwEnumeration,
    KwEquation,
    KwExpandable,
    KwExtends,
    KwExternal,
    KwFalse,
    KwFinal,
    KwFlow,
    KwFor,
    KwFunction,
    KwIf,
    KwImport,
    KwImpure,
    KwIn,
    KwInitial,
    KwInner,
    KwInput,
    KwLoop,
    KwModel,
    KwNot,
    KwOperator,
    KwOr,
    KwOuter,
    KwOutput,
    KwPackage,
    KwParameter,
    KwPartial,
    KwProtected,
    KwPublic,
    KwPure,
    KwRecord,
    KwRedeclare,
    KwReplaceable,
    KwReturn,
    KwStream,
    KwThen,
    KwTrue,
    KwType,
    KwWhen,
    KwWhile,
    KwWithin,
}

/// A symbol of one or two bytes.
#[derive(Clone, Copy, PartialEq, Eq)]
pub enum Sym {
    /// `(`
    RoundOpen,
    /// `)`
    RoundClose,
    /// `{`
    CurlyOpen,
    /// `}`
    CurlyClose,
    /// `[`
    SquareOpen,
    /// `]`
    SquareClose,
    /// `,`
    Comma,
    /// `;`
    Semicolon,
    /// `:`
    Colon,
    /// `.`
    Dot,
    /// `=`
    Equals,
    /// `==`
    Equal,
    /// `<>`
    Unequal,
    /// `<`
    Less,
    /// `<=`
    LessEq,
    /// `>`
    Greater,
    /// `>=`
    GreaterEq,
    /// `+`
    Plus,
    /// `-`
    Minus,
    /// `*`
    Times,
    /// `/`
    Over,
    /// `^`
    Power,
    /// `:=`
    Assign,
}
