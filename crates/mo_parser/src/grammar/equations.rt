//! Equations of classes.
ghost use Rattle.std.specs.Prelude.{◌≡◌, length};
ghost use Rattle.mo_parser.specs.reading.Starts as starts;
ghost use Rattle.mo_parser.specs.reading.Outcomes.{ReadsTokens, many};
ghost use Rattle.mo_parser.specs.reading.Equations as spec;

use super::comments::comment;
use super::expressions::{simple_expr, whole_expr};
use super::kinds::{begins_equation, begins_simple, is_word};
use super::names::{name, symbol, word};
use super::reader::Reader;
use super::tokens::{Halt, Tokens};
use crate::tree::{TreeEq, TreeExpr};
use mo_lexer::{Sym, Word};
use std::alloc::Global;
use sync_values::List;

/// `"connect" "(" name "," name ")"`
#[tactic(auto, unfolding(crate::specs::reading::Equations::connect))]
fn connect(alloc: Global, tokens: &mut Tokens<'_>) -> Result<TreeEq, Halt>
    ensures { ReadsTokens (spec.connect tokens.old) result tokens.new }
{
    word(tokens, Word::KwConnect)?;
    symbol(tokens, Sym::RoundOpen)?;
    let first = name(alloc, tokens)?;
    symbol(tokens, Sym::Comma)?;
    let second = name(alloc, tokens)?;
    symbol(tokens, Sym::RoundClose).and(Ok(TreeEq::Connect(first.path, second.path)))
}

impl Reader {
    /// `"=" expr`
    #[tactic(auto, unfolding(crate::specs::reading::Equations::right_side))]
    fn right_side(&self, tokens: &mut Tokens<'_>) -> Result<TreeExpr, Halt>
        ensures { ReadsTokens (spec.right_side self.now.depth tokens.old) result tokens.new }
    {
        symbol(tokens, Sym::Equals)?;
        whole_expr(self.alloc, tokens, self.depth)
    }

    /// `simple "=" expr`
    #[tactic(auto, unfolding(crate::specs::reading::Equations::equal))]
    fn equal(&self, tokens: &mut Tokens<'_>) -> Result<TreeEq, Halt>
        ensures { ReadsTokens (spec.equal self.now.depth tokens.old) result tokens.new }
    {
        let left = simple_expr(self.alloc, tokens, self.depth)?;
        let right = self.right_side(tokens);
        right.map(|right| TreeEq::Equal(left, right))
    }

    /// `simple "=" expr comment ";"`
    #[tactic(auto, unfolding(crate::specs::reading::Equations::clause_equation))]
    fn clause_equation(
        &self,
        tokens: &mut Tokens<'_>,
        mut all: List<TreeEq>,
    ) -> Result<List<TreeEq>, Halt>
        ensures { ReadsTokens (spec.clause_equation self.now.depth all tokens.old) result tokens.new }
    {
        all.push(self.equal(tokens)?)?;
        comment(tokens, self.depth)?;
        symbol(tokens, Sym::Semicolon).and(Ok(all))
    }

    /// `{ simple "=" expr comment ";" }`
    #[tactic(auto, unfolding(crate::specs::reading::Outcomes::turns))]
    fn clause_equations(
        &self,
        tokens: &mut Tokens<'_>,
        mut all: List<TreeEq>,
    ) -> Result<List<TreeEq>, Halt>
        ensures { ReadsTokens (many starts.begins_simple (spec.clause_equation self.now.depth) all tokens.old) result tokens.new }
    {
        for _turn in 0..tokens.count() {
            if !begins_simple(tokens.peek()) {
                break;
            }
            all = self.clause_equation(tokens, all)?;
        }
        Ok(all)
    }

    /// `"then" { simple "=" expr comment ";" } "end" "when"`
    #[tactic(auto, unfolding(crate::specs::reading::Equations::clause_body))]
    fn clause_body(&self, tokens: &mut Tokens<'_>) -> Result<List<TreeEq>, Halt>
        ensures { ReadsTokens (spec.clause_body self.now.depth tokens.old) result tokens.new }
    {
        word(tokens, Word::KwThen)?;
        let equations = self.clause_equations(tokens, List::new(self.alloc))?;
        word(tokens, Word::KwEnd)?;
        word(tokens, Word::KwWhen).and(Ok(equations))
    }

    /// `"when" expr "then" { simple "=" expr comment ";" } "end" "when"`
    #[tactic(auto, unfolding(crate::specs::reading::Equations::clause))]
    fn clause(&self, tokens: &mut Tokens<'_>) -> Result<TreeEq, Halt>
        ensures { ReadsTokens (spec.clause self.now.depth tokens.old) result tokens.new }
    {
        word(tokens, Word::KwWhen)?;
        let clock = whole_expr(self.alloc, tokens, self.depth)?;
        let equations = self.clause_body(tokens);
        equations.map(|equations| TreeEq::When(clock, equations))
    }

    /// `simple "=" expr | when | connect`
    #[tactic(auto, unfolding(crate::specs::reading::Equations::any_equation))]
    fn any_equation(&self, tokens: &mut Tokens<'_>) -> Result<TreeEq, Halt>
        ensures { ReadsTokens (spec.any_equation self.now.depth tokens.old) result tokens.new }
    {
        let next = tokens.peek();
        if is_word(next, Word::KwWhen) {
            self.clause(tokens)
        } else if is_word(next, Word::KwConnect) {
            connect(self.alloc, tokens)
        } else {
            self.equal(tokens)
        }
    }

    /// `( simple "=" expr | when | connect ) comment ";"`
    #[tactic(auto, unfolding(crate::specs::reading::Equations::equation))]
    fn equation(&self, tokens: &mut Tokens<'_>, mut all: List<TreeEq>) -> Result<List<TreeEq>, Halt>
        ensures { ReadsTokens (spec.equation self.now.depth all tokens.old) result tokens.new }
    {
        all.push(self.any_equation(tokens)?)?;
        comment(tokens, self.depth)?;
        symbol(tokens, Sym::Semicolon).and(Ok(all))
    }

    /// `{ equation }`
    #[tactic(auto, unfolding(crate::specs::reading::Outcomes::turns))]
    pub fn equations(
        &self,
        tokens: &mut Tokens<'_>,
        mut all: List<TreeEq>,
    ) -> Result<List<TreeEq>, Halt>
        ensures { ReadsTokens (spec.equations self.now.depth all tokens.old) result tokens.new }
    {
        for _turn in 0..tokens.count() {
            if !begins_equation(tokens.peek()) {
                break;
            }
            all = self.equation(tokens, all)?;
        }
        Ok(all)
    }
}
