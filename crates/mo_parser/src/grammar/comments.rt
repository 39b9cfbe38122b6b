//! Description strings and annotations, which leave nothing in the tree.
ghost use Rattle.std.specs.Prelude.{◌≡◌, length};
ghost use Rattle.mo_lexer.specs.declared.token.Sym.TheVariants as s;
ghost use Rattle.mo_parser.specs.grammar.Kinds as kinds;
ghost use Rattle.mo_parser.specs.reading.Starts as starts;
ghost use Rattle.mo_parser.specs.reading.Outcomes.{ReadsTokens, dropped, many};
ghost use Rattle.mo_parser.specs.reading.Comments as spec;
ghost use Rattle.mo_parser.specs.reading.Nests.{NestsPairs};

use super::kinds::{begins_balanced, is_plain, is_symbol, is_text, is_word};
use super::names::{symbol, text, word};
use super::tokens::{Halt, Tokens};
use mo_lexer::{Sym, Word};

/// `"+" Text`
#[tactic(auto, unfolding(crate::specs::reading::Comments::more_text))]
fn more_text(tokens: &mut Tokens<'_>) -> Result<(), Halt>
    ensures { ReadsTokens (spec.more_text tt tokens.old) result tokens.new }
{
    symbol(tokens, Sym::Plus)?;
    text(tokens)?;
    Ok(())
}

/// `{ "+" Text }`
#[tactic(auto, unfolding(crate::specs::reading::Outcomes::turns))]
fn more_texts(tokens: &mut Tokens<'_>) -> Result<(), Halt>
    ensures { ReadsTokens (many (kinds.is_symbol s.Plus) spec.more_text tt tokens.old) result tokens.new }
{
    for _turn in 0..tokens.count() {
        if !is_symbol(tokens.peek(), Sym::Plus) {
            break;
        }
        more_text(tokens)?;
    }
    Ok(())
}

/// `Text { "+" Text }`
#[tactic(auto, unfolding(crate::specs::reading::Comments::texts))]
fn texts(tokens: &mut Tokens<'_>) -> Result<(), Halt>
    ensures { ReadsTokens (spec.texts tokens.old) result tokens.new }
{
    text(tokens)?;
    more_texts(tokens)
}

/// A description string, where one stands.
pub fn some_texts(tokens: &mut Tokens<'_>) -> Result<(), Halt>
    ensures { ReadsTokens (dropped kinds.is_text spec.texts tokens.old) result tokens.new }
{
    if is_text(tokens.peek()) {
        texts(tokens)?;
    }
    Ok(())
}

/// A token that is no bracket and not the end.
#[tactic(auto, unfolding(crate::specs::reading::Comments::plain))]
fn plain(tokens: &mut Tokens<'_>) -> Result<(), Halt>
    ensures { ReadsTokens (spec.plain tokens.old) result tokens.new }
{
    if !is_plain(tokens.peek()) {
        return Err(Halt::Stuck);
    }
    tokens.advance();
    Ok(())
}

/// Brackets of notes. Each rule takes the function that reads the tokens in a bracket as a parameter.
#[derive(Clone, Copy)]
pub struct Pairs<F> {
    /// How many levels of brackets may still be opened.
    pub depth: usize,
    pub balanced: F,
}

impl<F: Fn(&mut Tokens<'_>, usize) -> Result<(), Halt>> Pairs<F> {
    /// The tokens in a bracket, one level deeper.
    fn nested(&self, tokens: &mut Tokens<'_>) -> Result<(), Halt>
        requires { NestsPairs self.now.depth (F.pre self.now.balanced) (F.post self.now.balanced) }
        ensures { ReadsTokens (spec.balanced self.now.depth tokens.old) result tokens.new }
    {
        (self.balanced)(tokens, self.depth)
    }

    /// `[ pieces ]` behind an opening bracket, and the closing one
    #[tactic(auto, unfolding(crate::specs::reading::Comments::in_pair))]
    fn in_pair(&self, tokens: &mut Tokens<'_>, close: Sym) -> Result<(), Halt>
        requires { NestsPairs self.now.depth (F.pre self.now.balanced) (F.post self.now.balanced) }
        ensures { ReadsTokens (spec.in_pair (spec.balanced self.now.depth) close tokens.old) result tokens.new }
    {
        if !is_symbol(tokens.peek(), close) {
            self.nested(tokens)?;
        }
        symbol(tokens, close)?;
        Ok(())
    }

    /// A token that is no bracket, or a pair of brackets.
    #[tactic(auto, unfolding(crate::specs::reading::Comments::piece))]
    fn piece(&self, tokens: &mut Tokens<'_>) -> Result<(), Halt>
        requires { NestsPairs self.now.depth (F.pre self.now.balanced) (F.post self.now.balanced) }
        ensures { ReadsTokens (spec.piece (spec.balanced self.now.depth) tt tokens.old) result tokens.new }
    {
        let next = tokens.peek();
        if is_plain(next) {
            return plain(tokens);
        }
        if is_symbol(next, Sym::RoundOpen) {
            symbol(tokens, Sym::RoundOpen)?;
            return self.in_pair(tokens, Sym::RoundClose);
        }
        if is_symbol(next, Sym::CurlyOpen) {
            symbol(tokens, Sym::CurlyOpen)?;
            return self.in_pair(tokens, Sym::CurlyClose);
        }
        symbol(tokens, Sym::SquareOpen)?;
        self.in_pair(tokens, Sym::SquareClose)
    }

    /// `{ piece }`
    #[tactic(auto, unfolding(crate::specs::reading::Outcomes::turns))]
    fn more_pieces(&self, tokens: &mut Tokens<'_>) -> Result<(), Halt>
        requires { NestsPairs self.now.depth (F.pre self.now.balanced) (F.post self.now.balanced) }
        ensures { ReadsTokens (many starts.begins_balanced (spec.piece (spec.balanced self.now.depth)) tt tokens.old) result tokens.new }
    {
        for _turn in 0..tokens.count() {
            if !begins_balanced(tokens.peek()) {
                break;
            }
            self.piece(tokens)?;
        }
        Ok(())
    }

    /// `piece { piece }`
    #[tactic(auto, unfolding(crate::specs::reading::Comments::pieces))]
    fn pieces(&self, tokens: &mut Tokens<'_>) -> Result<(), Halt>
        requires { NestsPairs self.now.depth (F.pre self.now.balanced) (F.post self.now.balanced) }
        ensures { ReadsTokens (spec.pieces (spec.balanced self.now.depth) tokens.old) result tokens.new }
    {
        self.piece(tokens)?;
        self.more_pieces(tokens)
    }

    /// `"annotation" "(" [ pieces ] ")"`
    #[tactic(auto, unfolding(crate::specs::reading::Comments::note))]
    fn note(&self, tokens: &mut Tokens<'_>) -> Result<(), Halt>
        requires { NestsPairs self.now.depth (F.pre self.now.balanced) (F.post self.now.balanced) }
        ensures { ReadsTokens (spec.note (spec.balanced self.now.depth) tokens.old) result tokens.new }
    {
        word(tokens, Word::KwAnnotation)?;
        symbol(tokens, Sym::RoundOpen)?;
        self.in_pair(tokens, Sym::RoundClose)
    }
}

/// The tokens of a note in a bracket, at least one, inside fewer levels than the number.
pub fn balanced(tokens: &mut Tokens<'_>, depth: usize) -> Result<(), Halt>
    ensures { ReadsTokens (spec.balanced depth tokens.old) result tokens.new }
{
    if depth == 0 {
        return Err(Halt::Deep);
    }
    Pairs {
        depth: depth - 1,
        balanced,
    }
    .pieces(tokens)
}

/// An annotation in which so many levels may be opened behind its first bracket.
pub fn note(tokens: &mut Tokens<'_>, depth: usize) -> Result<(), Halt>
    ensures { ReadsTokens (spec.note (spec.balanced depth) tokens.old) result tokens.new }
{
    Pairs { depth, balanced }.note(tokens)
}

/// A description string and an annotation, each where one stands.
#[tactic(auto, unfolding(crate::specs::reading::Comments::comment))]
pub fn comment(tokens: &mut Tokens<'_>, depth: usize) -> Result<(), Halt>
    ensures { ReadsTokens (spec.comment (spec.balanced depth) tokens.old) result tokens.new }
{
    some_texts(tokens)?;
    if is_word(tokens.peek(), Word::KwAnnotation) {
        note(tokens, depth)?;
    }
    Ok(())
}
