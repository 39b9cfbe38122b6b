//! Tokens of a model text.
#![tactic(auto)]

mod byte;
mod fault;
mod front;
mod keyword;
mod law;
mod lexing;
mod piece;
mod token;

pub use fault::{LexCode, LexEnd};
pub use law::tokens_law;
pub use lexing::lex;
pub use token::{Sym, Token, TokenKind, Word};
