//! Names and single tokens.
ghost use Rattle.std.specs.Prelude.{◌≡◌, IfOk, IfErr};
ghost use Rattle.mo_parser.specs.grammar.Names.{named, same_name, span_of};
ghost use Rattle.mo_parser.specs.reading.Outcomes.{ReadsTokens};
ghost use Rattle.mo_parser.specs.reading.Names as spec;

use super::kinds::{is_ident, is_symbol, is_text, is_word};
use super::tokens::{Halt, Tokens};
use crate::span::spelled;
use crate::tree::{Path, Span};
use mo_lexer::{Sym, Token, Word};
use std::alloc::Global;
use sync_values::List;

/// A name and the bytes from its first part to its last.
#[derive(Drop)]
pub struct Named {
    pub path: Path,
    pub span: Span,
}

/// This symbol.
#[tactic(auto, unfolding(crate::specs::reading::Names::symbol))]
pub fn symbol(tokens: &mut Tokens<'_>, wanted: Sym) -> Result<Token, Halt>
    ensures { ReadsTokens (spec.symbol wanted tokens.old) result tokens.new }
{
    let next = tokens.peek();
    if !is_symbol(next, wanted) {
        return Err(Halt::Stuck);
    }
    tokens.advance();
    Ok(next)
}

/// This keyword.
#[tactic(auto, unfolding(crate::specs::reading::Names::word))]
pub fn word(tokens: &mut Tokens<'_>, wanted: Word) -> Result<Token, Halt>
    ensures { ReadsTokens (spec.word wanted tokens.old) result tokens.new }
{
    let next = tokens.peek();
    if !is_word(next, wanted) {
        return Err(Halt::Stuck);
    }
    tokens.advance();
    Ok(next)
}

/// `Ident`
#[tactic(auto, unfolding(crate::specs::reading::Names::ident))]
pub fn ident(tokens: &mut Tokens<'_>) -> Result<Token, Halt>
    ensures { ReadsTokens (spec.ident tokens.old) result tokens.new }
{
    let next = tokens.peek();
    if !is_ident(next) {
        return Err(Halt::Stuck);
    }
    tokens.advance();
    Ok(next)
}

/// `Text`
#[tactic(auto, unfolding(crate::specs::reading::Names::text))]
pub fn text(tokens: &mut Tokens<'_>) -> Result<Token, Halt>
    ensures { ReadsTokens (spec.text tokens.old) result tokens.new }
{
    let next = tokens.peek();
    if !is_text(next) {
        return Err(Halt::Stuck);
    }
    tokens.advance();
    Ok(next)
}

/// The bytes of a token.
pub fn span_of(token: Token) -> Span
    ensures { result ≡ span_of token }
{
    Span {
        at: token.at,
        end: token.end,
    }
}

/// Whether two tokens are spelled alike.
#[tactic(auto, unfolding(crate::specs::grammar::Names::same_name))]
pub fn same_name(text: &[u8], a: Token, b: Token) -> bool
    ensures { result ≡ same_name text.now a b }
{
    spelled(text, span_of(a)) == spelled(text, span_of(b))
}

/// A name of one part.
fn first_part(alloc: Global, token: Token) -> Result<Named, Halt>
    ensures ok { IfOk result (λ n. n ≡ named token) }
    ensures err { IfErr result (λ e. e ≡ Halt.NoMemory) }
{
    // Most names have one part.
    let mut parts = List::with_capacity(alloc, 1)?;
    parts.push(span_of(token))?;
    Ok(Named {
        path: Path { parts },
        span: span_of(token),
    })
}

/// `"." Ident`
#[tactic(auto, unfolding(crate::specs::reading::Names::dotted))]
fn dotted(tokens: &mut Tokens<'_>, mut found: Named) -> Result<Named, Halt>
    ensures { ReadsTokens (spec.dotted found tokens.old) result tokens.new }
{
    symbol(tokens, Sym::Dot)?;
    let part = ident(tokens)?;
    found.path.parts.push(span_of(part))?;
    found.span.end = part.end;
    Ok(found)
}

/// `Ident { "." Ident }`
#[tactic(auto, unfolding(crate::specs::reading::Names::name, crate::specs::reading::Outcomes::turns))]
pub fn name(alloc: Global, tokens: &mut Tokens<'_>) -> Result<Named, Halt>
    ensures { ReadsTokens (spec.name tokens.old) result tokens.new }
{
    let first = ident(tokens)?;
    let mut found = first_part(alloc, first)?;
    for _turn in 0..tokens.count() {
        if !is_symbol(tokens.peek(), Sym::Dot) {
            break;
        }
        found = dotted(tokens, found)?;
    }
    Ok(found)
}
