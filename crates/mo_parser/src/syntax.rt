//! The tree of a list of tokens.
ghost use Rattle.std.specs.Prelude.{◌≡◌};
ghost use Rattle.mo_parser.specs.grammar.Faults.{Answers, FaultLaw, OneTree, refused_at};

use crate::grammar::{Halt, Reader, Tokens, is_end, is_foreign};
use crate::tree::Tree;
use mo_lexer::Token;
use std::alloc::Global;
use std::error::Error;
use std::fmt;
use sync_values::List;

/// How many levels of round, curly and square brackets and if-expressions may be opened inside each other.
pub const LEVELS: usize = 64;

/// Why a list of tokens has no tree.
#[derive(Clone, Copy, Debug, PartialEq, Eq)]
pub enum ParseEnd {
    /// A fault at the token that begins at byte `at` of the text.
    Fault { code: SyntaxCode, at: u32 },
    NoMemory,
}

impl fmt::Display for ParseEnd {
    fn fmt<W: fmt::Write>(&self, f: &mut fmt::Formatter<W>) -> fmt::Result {
        match self {
            ParseEnd::Fault { code, at } => write!(f, "{code:?} at byte {at}"),
            ParseEnd::NoMemory => write!(f, "no memory"),
        }
    }
}

impl Error for ParseEnd {}

/// What is wrong at a token.
#[derive(Clone, Copy, Debug, PartialEq, Eq)]
pub enum SyntaxCode {
    /// No text of the grammar begins with the tokens up to this one.
    S1,
    /// The token stands inside more than 64 levels.
    S2,
    /// As `S1`, at a token that Modelica has and the profile has no place for.
    S3,
}

/// The refusal at a token that no text of the grammar has there.
fn refused(token: Token) -> ParseEnd
    ensures { result ≡ refused_at token }
{
    let code = if is_foreign(token) {
        SyntaxCode::S3
    } else {
        SyntaxCode::S1
    };
    ParseEnd::Fault { code, at: token.at }
}

/// The tree that the tokens of a text spell, with at most 64 levels of brackets and if-expressions.
///
/// It is the only such tree. A refusal is at the first token that no text of the grammar has after
/// the tokens before it, or at the first token inside more than 64 levels if that comes no later.
/// Nothing is asked of the tokens. They end before the first `End`, and where none is left one at
/// byte 0 is read. The recursion goes no deeper than the levels.
pub fn parse(alloc: Global, text: &[u8], tokens: &List<Token>) -> Result<Tree, ParseEnd>
    ensures { Answers text.now 64 tokens.now result }
{
    let mut left = Tokens::new(tokens.as_slice());
    let reader = Reader {
        alloc,
        depth: LEVELS,
    };
    match reader.file(text, &mut left) {
        Ok(tree) => {
            if is_end(left.peek()) {
                Ok(tree)
            } else {
                Err(refused(left.peek()))
            }
        }
        Err(Halt::NoMemory) => Err(ParseEnd::NoMemory),
        Err(Halt::Stuck) => Err(refused(left.peek())),
        Err(Halt::Deep) => Err(ParseEnd::Fault {
            code: SyntaxCode::S2,
            at: left.peek().at,
        }),
    }
}

/// At most one tree spells a list of tokens.
pub fn one_tree()
    ensures { OneTree }
{}

/// Each list of tokens has a tree or a fault, never both, and the fault has one code and one place.
pub fn fault_law()
    ensures { FaultLaw }
{}
