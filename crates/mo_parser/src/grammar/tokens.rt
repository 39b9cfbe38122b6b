//! The tokens that are left to read.
ghost use Rattle.std.specs.Prelude.{◌≡◌, length};
ghost use Rattle.mo_parser.specs.grammar.Places.{head};
ghost use Rattle.mo_parser.specs.reading.Outcomes.{tail};

use mo_lexer::{Token, TokenKind};
use std::alloc::AllocError;
use std::marker::Model;

/// Why reading ended before its end.
#[derive(Clone, Copy)]
pub enum Halt {
    /// Nothing that the grammar allows begins with the tokens up to the next one.
    Stuck,
    /// The next token stands inside too many brackets and if-expressions.
    Deep,
    NoMemory,
}

impl From<AllocError> for Halt {
    ghost use Rattle.mo_parser.specs.declared.grammar.tokens.Halt.{Halt};

    ghost from_gives = { λ _ halt. halt ≡ Halt.NoMemory };

    fn from(_error: AllocError) -> Halt {
        Halt::NoMemory
    }
}

/// The tokens that are left to read.
#[derive(Drop)]
pub struct Tokens<'a> {
    left: &'a [Token],
}

impl<'a> Model for Tokens<'a> {
    ghost use Rattle.std.specs.Prelude.{List};
    ghost use Rattle.mo_lexer.specs.declared.token.Token.{Token};

    ghost Value = { List Token };

    ghost view = { λ t. t.left.now };
}

impl<'a> Tokens<'a> {
    /// All of these tokens.
    pub fn new(left: &'a [Token]) -> Tokens<'a>
        ensures { result ≡ left.entry.now }
    {
        Tokens { left }
    }

    /// The next token, and one of the kind `End` where none is left.
    pub fn peek(&self) -> Token
        ensures { result ≡ head self.now }
    {
        match self.left {
            [] => Token {
                kind: TokenKind::End,
                at: 0,
                end: 0,
            },
            [first, ..] => *first,
        }
    }

    /// Passes the next token.
    pub fn advance(&mut self)
        ensures { self.new ≡ tail self.old }
    {
        if let [_, rest @ ..] = self.left {
            self.left = rest;
        }
    }

    /// How many tokens are left.
    pub fn count(&self) -> usize
        ensures { result ≡ length self.now }
    {
        self.left.len()
    }
}
