//! Elements of classes.
ghost use Rattle.std.specs.Prelude.{◌≡◌, IfOk, IfErr, length};
ghost use Rattle.mo_lexer.specs.declared.token.Sym.TheVariants as s;
ghost use Rattle.mo_parser.specs.grammar.Kinds as kinds;
ghost use Rattle.mo_parser.specs.grammar.Elements.{element_of};
ghost use Rattle.mo_parser.specs.reading.Outcomes.{ReadsTokens, many};
ghost use Rattle.mo_parser.specs.reading.Elements as spec;

use super::comments::comment;
use super::kinds::{begins_element, causality_of, is_symbol, variability_of};
use super::modifications::modification;
use super::names::{Named, ident, name, span_of, symbol};
use super::parts::{Declared, Modification};
use super::reader::Reader;
use super::tokens::{Halt, Tokens};
use crate::tree::{Causality, Element, Path, Variability};
use mo_lexer::{Sym, Token};
use std::alloc::Global;
use sync_values::List;

/// `[ "parameter"|"constant"|"discrete" ]`
#[tactic(auto, unfolding(crate::specs::reading::Elements::some_variability))]
fn some_variability(tokens: &mut Tokens<'_>) -> Result<Variability, Halt>
    ensures { ReadsTokens (spec.some_variability tokens.old) result tokens.new }
{
    let Some(found) = variability_of(tokens.peek()) else {
        return Ok(Variability::Plain);
    };
    tokens.advance();
    Ok(found)
}

/// `[ "input"|"output" ]`
#[tactic(auto, unfolding(crate::specs::reading::Elements::some_causality))]
pub fn some_causality(tokens: &mut Tokens<'_>) -> Result<Causality, Halt>
    ensures { ReadsTokens (spec.some_causality tokens.old) result tokens.new }
{
    let Some(found) = causality_of(tokens.peek()) else {
        return Ok(Causality::Plain);
    };
    tokens.advance();
    Ok(found)
}

/// A component gets a type name of its own.
fn copied(alloc: Global, path: &Path) -> Result<Path, Halt>
    ensures ok { IfOk result (λ p. p ≡ path.now) }
    ensures err { IfErr result (λ e. e ≡ Halt.NoMemory) }
{
    let parts = Vec::from_slice(alloc, path.parts.as_slice())?;
    Ok(Path {
        parts: List::from_vec(parts),
    })
}

/// The component that a name and its modification declare.
fn element_of(
    alloc: Global,
    declared: &Declared,
    token: Token,
    modification: Modification,
) -> Result<Element, Halt>
    ensures ok { IfOk result (λ e. e ≡ element_of declared.now token modification) }
    ensures err { IfErr result (λ e. e ≡ Halt.NoMemory) }
{
    let base = copied(alloc, &declared.base);
    base.map(|base| Element {
        variability: declared.variability,
        causality: declared.causality,
        base,
        name: span_of(token),
        args: modification.args,
        binding: modification.binding,
    })
}

/// `[ "parameter"|"constant"|"discrete" ] [ "input"|"output" ] name`
#[tactic(auto, unfolding(crate::specs::reading::Elements::declared))]
fn declared(alloc: Global, tokens: &mut Tokens<'_>) -> Result<Declared, Halt>
    ensures { ReadsTokens (spec.declared tokens.old) result tokens.new }
{
    let variability = some_variability(tokens)?;
    let causality = some_causality(tokens)?;
    let Named { path, span: _ } = name(alloc, tokens)?;
    Ok(Declared {
        variability,
        causality,
        base: path,
    })
}

impl Reader {
    /// `Ident [ modif ] comment`
    #[tactic(auto, unfolding(crate::specs::reading::Elements::component))]
    fn component(
        &self,
        tokens: &mut Tokens<'_>,
        declared: &Declared,
        mut all: List<Element>,
    ) -> Result<List<Element>, Halt>
        ensures { ReadsTokens (spec.component self.now.depth declared.now all tokens.old) result tokens.new }
    {
        let token = ident(tokens)?;
        let modification = modification(self.alloc, tokens, self.depth)?;
        all.push(element_of(self.alloc, declared, token, modification)?)?;
        comment(tokens, self.depth)?;
        Ok(all)
    }

    /// `"," component`
    #[tactic(auto, unfolding(crate::specs::reading::Elements::further_component))]
    fn further_component(
        &self,
        tokens: &mut Tokens<'_>,
        declared: &Declared,
        all: List<Element>,
    ) -> Result<List<Element>, Halt>
        ensures { ReadsTokens (spec.further_component self.now.depth declared.now all tokens.old) result tokens.new }
    {
        symbol(tokens, Sym::Comma)?;
        self.component(tokens, declared, all)
    }

    /// `{ "," component }`
    #[tactic(auto, unfolding(crate::specs::reading::Outcomes::turns))]
    fn more_components(
        &self,
        tokens: &mut Tokens<'_>,
        declared: &Declared,
        mut all: List<Element>,
    ) -> Result<List<Element>, Halt>
        ensures { ReadsTokens (many (kinds.is_symbol s.Comma) (spec.further_component self.now.depth declared.now) all tokens.old) result tokens.new }
    {
        for _turn in 0..tokens.count() {
            if !is_symbol(tokens.peek(), Sym::Comma) {
                break;
            }
            all = self.further_component(tokens, declared, all)?;
        }
        Ok(all)
    }

    /// `component { "," component }`
    #[tactic(auto, unfolding(crate::specs::reading::Elements::components))]
    fn components(
        &self,
        tokens: &mut Tokens<'_>,
        declared: &Declared,
        all: List<Element>,
    ) -> Result<List<Element>, Halt>
        ensures { ReadsTokens (spec.components self.now.depth declared.now all tokens.old) result tokens.new }
    {
        let all = self.component(tokens, declared, all)?;
        self.more_components(tokens, declared, all)
    }

    /// `declared component { "," component } ";"`
    #[tactic(auto, unfolding(crate::specs::reading::Elements::element))]
    fn element(&self, tokens: &mut Tokens<'_>, all: List<Element>) -> Result<List<Element>, Halt>
        ensures { ReadsTokens (spec.element self.now.depth all tokens.old) result tokens.new }
    {
        let declared = declared(self.alloc, tokens)?;
        let all = self.components(tokens, &declared, all)?;
        symbol(tokens, Sym::Semicolon).and(Ok(all))
    }

    /// `{ element }`
    #[tactic(auto, unfolding(crate::specs::reading::Outcomes::turns))]
    pub fn elements(
        &self,
        tokens: &mut Tokens<'_>,
        mut all: List<Element>,
    ) -> Result<List<Element>, Halt>
        ensures { ReadsTokens (spec.elements self.now.depth all tokens.old) result tokens.new }
    {
        for _turn in 0..tokens.count() {
            if !begins_element(tokens.peek()) {
                break;
            }
            all = self.element(tokens, all)?;
        }
        Ok(all)
    }
}
