//! Modifications and their arguments. Each rule takes the function that reads arguments one level deeper as a parameter.
ghost use Rattle.std.specs.Prelude.{◌≡◌, length};
ghost use Rattle.mo_lexer.specs.declared.token.Sym.TheVariants as s;
ghost use Rattle.mo_parser.specs.grammar.Kinds as kinds;
ghost use Rattle.mo_parser.specs.reading.Outcomes.{ReadsTokens, many, optional};
ghost use Rattle.mo_parser.specs.reading.Expressions.{expr};
ghost use Rattle.mo_parser.specs.reading.Modifications as spec;
ghost use Rattle.mo_parser.specs.reading.Nests.{NestsArgs};

use super::comments::some_texts;
use super::expressions::whole_expr;
use super::kinds::is_symbol;
use super::names::{Named, name, symbol};
use super::parts::Modification;
use super::tokens::{Halt, Tokens};
use crate::tree::{Arg, TreeExpr};
use mo_lexer::Sym;
use std::alloc::Global;
use sync_values::List;

/// Reads modifications, where `args` reads the arguments one level deeper.
#[derive(Clone, Copy)]
pub struct Lists<F> {
    pub alloc: Global,
    /// How many levels of brackets and if-expressions may still be opened.
    pub depth: usize,
    pub args: F,
}

impl<F: Fn(Global, &mut Tokens<'_>, usize) -> Result<List<Arg>, Halt>> Lists<F> {
    /// Arguments one level deeper.
    fn nested(&self, tokens: &mut Tokens<'_>) -> Result<List<Arg>, Halt>
        requires { NestsArgs self.now.depth (F.pre self.now.args) (F.post self.now.args) }
        ensures { ReadsTokens (spec.args self.now.depth tokens.old) result tokens.new }
    {
        (self.args)(self.alloc, tokens, self.depth)
    }

    /// `"=" expr`
    #[tactic(auto, unfolding(crate::specs::reading::Modifications::value))]
    fn value(&self, tokens: &mut Tokens<'_>) -> Result<TreeExpr, Halt>
        ensures { ReadsTokens (spec.value (expr self.now.depth) tokens.old) result tokens.new }
    {
        symbol(tokens, Sym::Equals)?;
        whole_expr(self.alloc, tokens, self.depth)
    }

    /// `[ "=" expr ]`
    fn some_value(&self, tokens: &mut Tokens<'_>) -> Result<Option<TreeExpr>, Halt>
        ensures { ReadsTokens (optional (kinds.is_symbol s.Equals) (spec.value (expr self.now.depth)) tokens.old) result tokens.new }
    {
        if !is_symbol(tokens.peek(), Sym::Equals) {
            return Ok(None);
        }
        let value = self.value(tokens)?;
        Ok(Some(value))
    }

    /// `[ args ] ")"`
    #[tactic(auto, unfolding(crate::specs::reading::Modifications::in_brackets))]
    pub fn in_brackets(&self, tokens: &mut Tokens<'_>) -> Result<List<Arg>, Halt>
        requires { NestsArgs self.now.depth (F.pre self.now.args) (F.post self.now.args) }
        ensures { ReadsTokens (spec.in_brackets (spec.args self.now.depth) tokens.old) result tokens.new }
    {
        if is_symbol(tokens.peek(), Sym::RoundClose) {
            symbol(tokens, Sym::RoundClose)?;
            return Ok(List::new(self.alloc));
        }
        let args = self.nested(tokens)?;
        symbol(tokens, Sym::RoundClose).and(Ok(args))
    }

    /// `[ "(" [ args ] ")" ] [ "=" expr ]`
    #[tactic(auto, unfolding(crate::specs::reading::Modifications::modification))]
    pub fn modification(&self, tokens: &mut Tokens<'_>) -> Result<Modification, Halt>
        requires { NestsArgs self.now.depth (F.pre self.now.args) (F.post self.now.args) }
        ensures { ReadsTokens (spec.modification (expr self.now.depth) (spec.args self.now.depth) tokens.old) result tokens.new }
    {
        if !is_symbol(tokens.peek(), Sym::RoundOpen) {
            let binding = self.some_value(tokens)?;
            return Ok(Modification {
                args: List::new(self.alloc),
                binding,
            });
        }
        symbol(tokens, Sym::RoundOpen)?;
        let args = self.in_brackets(tokens)?;
        let binding = self.some_value(tokens)?;
        Ok(Modification { args, binding })
    }

    /// `name [ modif ] [ texts ]`
    #[tactic(auto, unfolding(crate::specs::reading::Modifications::argument))]
    fn argument(&self, tokens: &mut Tokens<'_>) -> Result<Arg, Halt>
        requires { NestsArgs self.now.depth (F.pre self.now.args) (F.post self.now.args) }
        ensures { ReadsTokens (spec.argument (expr self.now.depth) (spec.args self.now.depth) tokens.old) result tokens.new }
    {
        let Named { path, span: _ } = name(self.alloc, tokens)?;
        let Modification { args, binding } = self.modification(tokens)?;
        some_texts(tokens).and(Ok(Arg {
            name: path,
            args,
            binding,
        }))
    }

    /// `"," arg`
    #[tactic(auto, unfolding(crate::specs::reading::Modifications::further_argument))]
    fn further_argument(
        &self,
        tokens: &mut Tokens<'_>,
        mut all: List<Arg>,
    ) -> Result<List<Arg>, Halt>
        requires { NestsArgs self.now.depth (F.pre self.now.args) (F.post self.now.args) }
        ensures { ReadsTokens (spec.further_argument (expr self.now.depth) (spec.args self.now.depth) all tokens.old) result tokens.new }
    {
        symbol(tokens, Sym::Comma)?;
        let argument = self.argument(tokens)?;
        all.push(argument)?;
        Ok(all)
    }

    /// `{ "," arg }`
    #[tactic(auto, unfolding(crate::specs::reading::Outcomes::turns))]
    fn more_arguments(&self, tokens: &mut Tokens<'_>, mut all: List<Arg>) -> Result<List<Arg>, Halt>
        requires { NestsArgs self.now.depth (F.pre self.now.args) (F.post self.now.args) }
        ensures { ReadsTokens (many (kinds.is_symbol s.Comma) (spec.further_argument (expr self.now.depth) (spec.args self.now.depth)) all tokens.old) result tokens.new }
    {
        for _turn in 0..tokens.count() {
            if !is_symbol(tokens.peek(), Sym::Comma) {
                break;
            }
            all = self.further_argument(tokens, all)?;
        }
        Ok(all)
    }

    /// `arg { "," arg }`
    #[tactic(auto, unfolding(crate::specs::reading::Modifications::arguments))]
    fn arguments(&self, tokens: &mut Tokens<'_>) -> Result<List<Arg>, Halt>
        requires { NestsArgs self.now.depth (F.pre self.now.args) (F.post self.now.args) }
        ensures { ReadsTokens (spec.arguments (expr self.now.depth) (spec.args self.now.depth) tokens.old) result tokens.new }
    {
        // Most modifications have one argument.
        let mut all = List::with_capacity(self.alloc, 1)?;
        all.push(self.argument(tokens)?)?;
        self.more_arguments(tokens, all)
    }
}

/// Arguments in which a token stands inside fewer levels than the number.
pub fn args(alloc: Global, tokens: &mut Tokens<'_>, depth: usize) -> Result<List<Arg>, Halt>
    ensures { ReadsTokens (spec.args depth tokens.old) result tokens.new }
{
    if depth == 0 {
        return Err(Halt::Deep);
    }
    Lists {
        alloc,
        depth: depth - 1,
        args,
    }
    .arguments(tokens)
}

/// A modification in which so many levels may be opened.
pub fn modification(
    alloc: Global,
    tokens: &mut Tokens<'_>,
    depth: usize,
) -> Result<Modification, Halt>
    ensures { ReadsTokens (spec.modification (expr depth) (spec.args depth) tokens.old) result tokens.new }
{
    Lists { alloc, depth, args }.modification(tokens)
}

/// Arguments behind their opening bracket, with the closing one.
pub fn in_brackets(alloc: Global, tokens: &mut Tokens<'_>, depth: usize) -> Result<List<Arg>, Halt>
    ensures { ReadsTokens (spec.in_brackets (spec.args depth) tokens.old) result tokens.new }
{
    Lists { alloc, depth, args }.in_brackets(tokens)
}
