//! Expressions. Each rule is proved by itself: it takes the function that reads whole expressions one level deeper as a parameter.
ghost use Rattle.std.specs.Prelude.{◌≡◌, ◌++◌, ◌∷◌, [], IfOk, IfErr, length};
ghost use Rattle.mo_lexer.specs.declared.token.Sym.TheVariants as s;
ghost use Rattle.mo_lexer.specs.declared.token.Word.TheVariants as w;
ghost use Rattle.mo_parser.specs.grammar.Kinds as kinds;
ghost use Rattle.mo_parser.specs.grammar.Trees as trees;
ghost use Rattle.mo_parser.specs.reading.Outcomes.{ReadsTokens, many};
ghost use Rattle.mo_parser.specs.reading.Expressions as spec;
ghost use Rattle.mo_parser.specs.reading.Nests.{Nests};

use super::chains::{Conjunctions, Disjunctions, Products, Sums};
use super::kinds::{is_symbol, is_word, literal_of, relation_of};
use super::names::{Named, name, symbol, word};
use super::parts::{Arguments, Branches};
use super::tokens::{Halt, Tokens};
use crate::tree::{Span, TreeExpr, TreeNode};
use mo_lexer::{Sym, Word};
use sqlite_items::Boxed;
use std::alloc::Global;
use sync_values::{List, Rel};

/// A node on the bytes from `at` to `end`.
#[tactic(auto, unfolding(crate::specs::grammar::Trees::spanning))]
pub fn spanning(node: TreeNode, at: u32, end: u32) -> TreeExpr
    ensures { result ≡ trees.spanning node at end }
{
    TreeExpr {
        node,
        span: Span { at, end },
    }
}

/// The first byte of an expression.
#[tactic(auto, unfolding(crate::specs::grammar::Trees::begins))]
pub fn begins(expr: &TreeExpr) -> u32
    ensures { result ≡ trees.begins expr.now }
{
    expr.span.at
}

/// The byte behind an expression.
#[tactic(auto, unfolding(crate::specs::grammar::Trees::ends))]
pub fn ends(expr: &TreeExpr) -> u32
    ensures { result ≡ trees.ends expr.now }
{
    expr.span.end
}

/// An expression in brackets or behind a plus, which leave no node.
#[tactic(auto, unfolding(crate::specs::grammar::Trees::widened))]
fn widened(at: u32, end: u32, expr: TreeExpr) -> TreeExpr
    ensures { result ≡ trees.widened at end expr }
{
    let TreeExpr { node, span: _ } = expr;
    spanning(node, at, end)
}

/// `"-" expr`, with the sign at this byte
fn negated(alloc: Global, at: u32, expr: TreeExpr) -> Result<TreeExpr, Halt>
    ensures ok { IfOk result (λ e. e ≡ trees.negated at expr) }
    ensures err { IfErr result (λ e. e ≡ Halt.NoMemory) }
{
    let end = ends(&expr);
    Ok(spanning(TreeNode::Neg(Boxed::new(alloc, expr)?), at, end))
}

/// `"not" expr`, with the word at this byte
fn inverted(alloc: Global, at: u32, expr: TreeExpr) -> Result<TreeExpr, Halt>
    ensures ok { IfOk result (λ e. e ≡ trees.inverted at expr) }
    ensures err { IfErr result (λ e. e ≡ Halt.NoMemory) }
{
    let end = ends(&expr);
    Ok(spanning(TreeNode::Not(Boxed::new(alloc, expr)?), at, end))
}

/// `base "^" exponent`
fn powered(alloc: Global, base: TreeExpr, exponent: TreeExpr) -> Result<TreeExpr, Halt>
    ensures ok { IfOk result (λ e. e ≡ trees.powered base exponent) }
    ensures err { IfErr result (λ e. e ≡ Halt.NoMemory) }
{
    let at = begins(&base);
    let end = ends(&exponent);
    let base = Boxed::new(alloc, base);
    let exponent = Boxed::new(alloc, exponent)?;
    Ok(spanning(TreeNode::Power(base?, exponent), at, end))
}

/// `left rel right`
fn related(alloc: Global, rel: Rel, left: TreeExpr, right: TreeExpr) -> Result<TreeExpr, Halt>
    ensures ok { IfOk result (λ e. e ≡ trees.related rel left right) }
    ensures err { IfErr result (λ e. e ≡ Halt.NoMemory) }
{
    let at = begins(&left);
    let end = ends(&right);
    let left = Boxed::new(alloc, left);
    let right = Boxed::new(alloc, right)?;
    Ok(spanning(TreeNode::Relation(rel, left?, right), at, end))
}

/// An if-expression so far with one more branch.
fn branched(mut all: Branches, condition: TreeExpr, value: TreeExpr) -> Result<Branches, Halt>
    ensures ok { IfOk result (λ b. b ≡ trees.branched all condition value) }
    ensures err { IfErr result (λ e. e ≡ Halt.NoMemory) }
{
    let pushed = all.conditions.push(condition);
    all.branches.push(value)?;
    pushed?;
    Ok(all)
}

/// A whole if-expression, with its word at this byte.
fn chosen(alloc: Global, at: u32, all: Branches, other: TreeExpr) -> Result<TreeExpr, Halt>
    ensures ok { IfOk result (λ e. e ≡ trees.chosen at all other) }
    ensures err { IfErr result (λ e. e ≡ Halt.NoMemory) }
{
    let end = ends(&other);
    let other = Boxed::new(alloc, other)?;
    let Branches {
        conditions,
        branches,
    } = all;
    Ok(spanning(TreeNode::If(conditions, branches, other), at, end))
}

/// `Integer | "true" | "false"`
#[tactic(auto, unfolding(crate::specs::reading::Expressions::literal))]
fn literal(tokens: &mut Tokens<'_>) -> Result<TreeExpr, Halt>
    ensures { ReadsTokens (spec.literal tokens.old) result tokens.new }
{
    let next = tokens.peek();
    let Some(value) = literal_of(next) else {
        return Err(Halt::Stuck);
    };
    tokens.advance();
    Ok(spanning(TreeNode::Const(value), next.at, next.end))
}

/// Reads expressions, where `expr` reads those one level deeper.
#[derive(Clone, Copy)]
pub struct Grammar<F> {
    pub alloc: Global,
    /// How many levels of brackets and if-expressions may still be opened.
    pub depth: usize,
    pub expr: F,
}

impl<F: Fn(Global, &mut Tokens<'_>, usize) -> Result<TreeExpr, Halt>> Grammar<F> {
    /// `expr`, one level deeper
    pub fn whole(&self, tokens: &mut Tokens<'_>) -> Result<TreeExpr, Halt>
        requires { Nests self.now.depth (F.pre self.now.expr) (F.post self.now.expr) }
        ensures { ReadsTokens (spec.expr self.now.depth tokens.old) result tokens.new }
    {
        (self.expr)(self.alloc, tokens, self.depth)
    }

    /// `expr` behind an opening bracket
    #[tactic(auto, unfolding(crate::specs::reading::Expressions::inner))]
    fn inner(&self, tokens: &mut Tokens<'_>) -> Result<TreeExpr, Halt>
        requires { Nests self.now.depth (F.pre self.now.expr) (F.post self.now.expr) }
        ensures { ReadsTokens (spec.inner (spec.expr self.now.depth) tokens.old) result tokens.new }
    {
        if is_symbol(tokens.peek(), Sym::RoundClose) {
            return Err(Halt::Stuck);
        }
        self.whole(tokens)
    }

    /// `"(" expr ")"`
    #[tactic(auto, unfolding(crate::specs::reading::Expressions::bracketed))]
    fn bracketed(&self, tokens: &mut Tokens<'_>) -> Result<TreeExpr, Halt>
        requires { Nests self.now.depth (F.pre self.now.expr) (F.post self.now.expr) }
        ensures { ReadsTokens (spec.bracketed (spec.expr self.now.depth) tokens.old) result tokens.new }
    {
        let first = symbol(tokens, Sym::RoundOpen)?;
        let expr = self.inner(tokens)?;
        let last = symbol(tokens, Sym::RoundClose);
        last.map(|last| widened(first.at, last.end, expr))
    }

    /// `"," expr`
    #[tactic(auto, unfolding(crate::specs::reading::Expressions::further))]
    fn further(
        &self,
        tokens: &mut Tokens<'_>,
        mut all: List<TreeExpr>,
    ) -> Result<List<TreeExpr>, Halt>
        requires { Nests self.now.depth (F.pre self.now.expr) (F.post self.now.expr) }
        ensures { ReadsTokens (spec.further (spec.expr self.now.depth) all tokens.old) result tokens.new }
    {
        symbol(tokens, Sym::Comma)?;
        let expr = self.whole(tokens)?;
        all.push(expr)?;
        Ok(all)
    }

    /// `{ "," expr }`
    #[tactic(auto, unfolding(crate::specs::reading::Outcomes::turns))]
    fn all_further(
        &self,
        tokens: &mut Tokens<'_>,
        mut all: List<TreeExpr>,
    ) -> Result<List<TreeExpr>, Halt>
        requires { Nests self.now.depth (F.pre self.now.expr) (F.post self.now.expr) }
        ensures { ReadsTokens (many (kinds.is_symbol s.Comma) (spec.further (spec.expr self.now.depth)) all tokens.old) result tokens.new }
    {
        for _turn in 0..tokens.count() {
            if !is_symbol(tokens.peek(), Sym::Comma) {
                break;
            }
            all = self.further(tokens, all)?;
        }
        Ok(all)
    }

    /// `expr { "," expr }`
    #[tactic(auto, unfolding(crate::specs::reading::Expressions::listed))]
    fn listed(&self, tokens: &mut Tokens<'_>) -> Result<List<TreeExpr>, Halt>
        requires { Nests self.now.depth (F.pre self.now.expr) (F.post self.now.expr) }
        ensures { ReadsTokens (spec.listed (spec.expr self.now.depth) tokens.old) result tokens.new }
    {
        // Most calls have one argument or two.
        let mut all = List::with_capacity(self.alloc, 2)?;
        all.push(self.whole(tokens)?)?;
        self.all_further(tokens, all)
    }

    /// `[ expr { "," expr } ] ")"`
    #[tactic(auto, unfolding(crate::specs::reading::Expressions::arguments))]
    fn arguments(&self, tokens: &mut Tokens<'_>) -> Result<Arguments, Halt>
        requires { Nests self.now.depth (F.pre self.now.expr) (F.post self.now.expr) }
        ensures { ReadsTokens (spec.arguments (spec.expr self.now.depth) tokens.old) result tokens.new }
    {
        if is_symbol(tokens.peek(), Sym::RoundClose) {
            let last = symbol(tokens, Sym::RoundClose)?;
            return Ok(Arguments {
                all: List::new(self.alloc),
                end: last.end,
            });
        }
        let all = self.listed(tokens)?;
        let last = symbol(tokens, Sym::RoundClose)?;
        Ok(Arguments { all, end: last.end })
    }

    /// `name [ "(" [ expr { "," expr } ] ")" ]`
    #[tactic(auto, unfolding(crate::specs::reading::Expressions::reference))]
    fn reference(&self, tokens: &mut Tokens<'_>) -> Result<TreeExpr, Halt>
        requires { Nests self.now.depth (F.pre self.now.expr) (F.post self.now.expr) }
        ensures { ReadsTokens (spec.reference (spec.expr self.now.depth) tokens.old) result tokens.new }
    {
        let named = name(self.alloc, tokens)?;
        if !is_symbol(tokens.peek(), Sym::RoundOpen) {
            let Named { path, span } = named;
            return Ok(spanning(TreeNode::Name(path), span.at, span.end));
        }
        symbol(tokens, Sym::RoundOpen)?;
        let arguments = self.arguments(tokens)?;
        let Named { path, span } = named;
        Ok(spanning(TreeNode::Call(path, arguments.all), span.at, arguments.end))
    }

    /// `literal | "(" expr ")" | reference`
    #[tactic(auto, unfolding(crate::specs::reading::Expressions::primary))]
    fn primary(&self, tokens: &mut Tokens<'_>) -> Result<TreeExpr, Halt>
        requires { Nests self.now.depth (F.pre self.now.expr) (F.post self.now.expr) }
        ensures { ReadsTokens (spec.primary (spec.expr self.now.depth) tokens.old) result tokens.new }
    {
        let next = tokens.peek();
        if literal_of(next).is_some() {
            literal(tokens)
        } else if is_symbol(next, Sym::RoundOpen) {
            self.bracketed(tokens)
        } else {
            self.reference(tokens)
        }
    }

    /// `primary [ "^" primary ]`
    #[tactic(auto, unfolding(crate::specs::reading::Expressions::factor, crate::specs::reading::Names::symbol))]
    pub fn factor(&self, tokens: &mut Tokens<'_>) -> Result<TreeExpr, Halt>
        requires { Nests self.now.depth (F.pre self.now.expr) (F.post self.now.expr) }
        ensures { ReadsTokens (spec.factor (spec.expr self.now.depth) tokens.old) result tokens.new }
    {
        let base = self.primary(tokens)?;
        if !is_symbol(tokens.peek(), Sym::Power) {
            return Ok(base);
        }
        tokens.advance();
        let exponent = self.primary(tokens);
        exponent.and_then(|exponent| powered(self.alloc, base, exponent))
    }

    /// `factor { ("*"|"/") factor }`
    #[tactic(auto, unfolding(crate::specs::reading::Expressions::term))]
    pub fn term(&self, tokens: &mut Tokens<'_>) -> Result<TreeExpr, Halt>
        requires { Nests self.now.depth (F.pre self.now.expr) (F.post self.now.expr) }
        ensures { ReadsTokens (spec.term (spec.expr self.now.depth) tokens.old) result tokens.new }
    {
        let first = self.factor(tokens)?;
        self.links::<Products>(tokens, first)
    }

    /// `[ "+"|"-" ] term`
    #[tactic(auto, unfolding(crate::specs::reading::Expressions::signed))]
    fn signed(&self, tokens: &mut Tokens<'_>) -> Result<TreeExpr, Halt>
        requires { Nests self.now.depth (F.pre self.now.expr) (F.post self.now.expr) }
        ensures { ReadsTokens (spec.signed (spec.expr self.now.depth) tokens.old) result tokens.new }
    {
        let next = tokens.peek();
        if is_symbol(next, Sym::Plus) {
            let sign = symbol(tokens, Sym::Plus)?;
            let part = self.term(tokens)?;
            let end = ends(&part);
            return Ok(widened(sign.at, end, part));
        }
        if is_symbol(next, Sym::Minus) {
            let sign = symbol(tokens, Sym::Minus)?;
            let part = self.term(tokens)?;
            return negated(self.alloc, sign.at, part);
        }
        self.term(tokens)
    }

    /// `[ "+"|"-" ] term { ("+"|"-") term }`
    #[tactic(auto, unfolding(crate::specs::reading::Expressions::arith))]
    fn arith(&self, tokens: &mut Tokens<'_>) -> Result<TreeExpr, Halt>
        requires { Nests self.now.depth (F.pre self.now.expr) (F.post self.now.expr) }
        ensures { ReadsTokens (spec.arith (spec.expr self.now.depth) tokens.old) result tokens.new }
    {
        let first = self.signed(tokens)?;
        self.links::<Sums>(tokens, first)
    }

    /// `arith [ ("<"|"<="|">"|">="|"=="|"<>") arith ]`
    #[tactic(auto, unfolding(crate::specs::reading::Expressions::rel))]
    fn rel(&self, tokens: &mut Tokens<'_>) -> Result<TreeExpr, Halt>
        requires { Nests self.now.depth (F.pre self.now.expr) (F.post self.now.expr) }
        ensures { ReadsTokens (spec.rel (spec.expr self.now.depth) tokens.old) result tokens.new }
    {
        let left = self.arith(tokens)?;
        let Some(rel) = relation_of(tokens.peek()) else {
            return Ok(left);
        };
        tokens.advance();
        let right = self.arith(tokens);
        right.and_then(|right| related(self.alloc, rel, left, right))
    }

    /// `[ "not" ] rel`
    #[tactic(auto, unfolding(crate::specs::reading::Expressions::lit))]
    pub fn lit(&self, tokens: &mut Tokens<'_>) -> Result<TreeExpr, Halt>
        requires { Nests self.now.depth (F.pre self.now.expr) (F.post self.now.expr) }
        ensures { ReadsTokens (spec.lit (spec.expr self.now.depth) tokens.old) result tokens.new }
    {
        if !is_word(tokens.peek(), Word::KwNot) {
            return self.rel(tokens);
        }
        let not_word = word(tokens, Word::KwNot)?;
        let expr = self.rel(tokens)?;
        inverted(self.alloc, not_word.at, expr)
    }

    /// `lit { "and" lit }`
    #[tactic(auto, unfolding(crate::specs::reading::Expressions::conj))]
    pub fn conj(&self, tokens: &mut Tokens<'_>) -> Result<TreeExpr, Halt>
        requires { Nests self.now.depth (F.pre self.now.expr) (F.post self.now.expr) }
        ensures { ReadsTokens (spec.conj (spec.expr self.now.depth) tokens.old) result tokens.new }
    {
        let first = self.lit(tokens)?;
        self.links::<Conjunctions>(tokens, first)
    }

    /// `conj { "or" conj }`
    #[tactic(auto, unfolding(crate::specs::reading::Expressions::simple))]
    pub fn simple(&self, tokens: &mut Tokens<'_>) -> Result<TreeExpr, Halt>
        requires { Nests self.now.depth (F.pre self.now.expr) (F.post self.now.expr) }
        ensures { ReadsTokens (spec.simple (spec.expr self.now.depth) tokens.old) result tokens.new }
    {
        let first = self.conj(tokens)?;
        self.links::<Disjunctions>(tokens, first)
    }

    /// `"then" expr`
    #[tactic(auto, unfolding(crate::specs::reading::Expressions::consequence))]
    fn consequence(&self, tokens: &mut Tokens<'_>) -> Result<TreeExpr, Halt>
        requires { Nests self.now.depth (F.pre self.now.expr) (F.post self.now.expr) }
        ensures { ReadsTokens (spec.consequence (spec.expr self.now.depth) tokens.old) result tokens.new }
    {
        word(tokens, Word::KwThen)?;
        self.whole(tokens)
    }

    /// `expr "then" expr`, behind `"if"` or `"elseif"`
    #[tactic(auto, unfolding(crate::specs::reading::Expressions::branch))]
    fn branch(&self, tokens: &mut Tokens<'_>, all: Branches) -> Result<Branches, Halt>
        requires { Nests self.now.depth (F.pre self.now.expr) (F.post self.now.expr) }
        ensures { ReadsTokens (spec.branch (spec.expr self.now.depth) all tokens.old) result tokens.new }
    {
        let condition = self.whole(tokens)?;
        let value = self.consequence(tokens);
        value.and_then(|value| branched(all, condition, value))
    }

    /// `"elseif" expr "then" expr`
    #[tactic(auto, unfolding(crate::specs::reading::Expressions::other_branch))]
    fn other_branch(&self, tokens: &mut Tokens<'_>, all: Branches) -> Result<Branches, Halt>
        requires { Nests self.now.depth (F.pre self.now.expr) (F.post self.now.expr) }
        ensures { ReadsTokens (spec.other_branch (spec.expr self.now.depth) all tokens.old) result tokens.new }
    {
        word(tokens, Word::KwElseif)?;
        self.branch(tokens, all)
    }

    /// `{ "elseif" expr "then" expr }`
    #[tactic(auto, unfolding(crate::specs::reading::Outcomes::turns))]
    fn other_branches(&self, tokens: &mut Tokens<'_>, mut all: Branches) -> Result<Branches, Halt>
        requires { Nests self.now.depth (F.pre self.now.expr) (F.post self.now.expr) }
        ensures { ReadsTokens (many (kinds.is_word w.KwElseif) (spec.other_branch (spec.expr self.now.depth)) all tokens.old) result tokens.new }
    {
        for _turn in 0..tokens.count() {
            if !is_word(tokens.peek(), Word::KwElseif) {
                break;
            }
            all = self.other_branch(tokens, all)?;
        }
        Ok(all)
    }

    /// `"else" expr`
    #[tactic(auto, unfolding(crate::specs::reading::Expressions::otherwise))]
    fn otherwise(&self, tokens: &mut Tokens<'_>) -> Result<TreeExpr, Halt>
        requires { Nests self.now.depth (F.pre self.now.expr) (F.post self.now.expr) }
        ensures { ReadsTokens (spec.otherwise (spec.expr self.now.depth) tokens.old) result tokens.new }
    {
        word(tokens, Word::KwElse)?;
        self.whole(tokens)
    }

    /// `"if" expr "then" expr { "elseif" expr "then" expr } "else" expr`
    #[tactic(auto, unfolding(crate::specs::reading::Expressions::choice))]
    fn choice(&self, tokens: &mut Tokens<'_>) -> Result<TreeExpr, Halt>
        requires { Nests self.now.depth (F.pre self.now.expr) (F.post self.now.expr) }
        ensures { ReadsTokens (spec.choice (spec.expr self.now.depth) tokens.old) result tokens.new }
    {
        let if_word = word(tokens, Word::KwIf)?;
        let none = Branches {
            conditions: List::new(self.alloc),
            branches: List::new(self.alloc),
        };
        let all = self.branch(tokens, none)?;
        let all = self.other_branches(tokens, all)?;
        let other = self.otherwise(tokens);
        other.and_then(|other| chosen(self.alloc, if_word.at, all, other))
    }

    /// `choice | simple`
    #[tactic(auto, unfolding(crate::specs::reading::Expressions::level))]
    pub fn level(&self, tokens: &mut Tokens<'_>) -> Result<TreeExpr, Halt>
        requires { Nests self.now.depth (F.pre self.now.expr) (F.post self.now.expr) }
        ensures { ReadsTokens (spec.level (spec.expr self.now.depth) tokens.old) result tokens.new }
    {
        if is_word(tokens.peek(), Word::KwIf) {
            self.choice(tokens)
        } else {
            self.simple(tokens)
        }
    }
}

/// A whole expression in which a token stands inside fewer levels than the number.
pub fn expr(alloc: Global, tokens: &mut Tokens<'_>, depth: usize) -> Result<TreeExpr, Halt>
    ensures { ReadsTokens (spec.expr depth tokens.old) result tokens.new }
{
    if depth == 0 {
        return Err(Halt::Deep);
    }
    Grammar {
        alloc,
        depth: depth - 1,
        expr,
    }
    .level(tokens)
}

/// A whole expression in which so many levels may be opened.
pub fn whole_expr(alloc: Global, tokens: &mut Tokens<'_>, depth: usize) -> Result<TreeExpr, Halt>
    ensures { ReadsTokens (spec.level (spec.expr depth) tokens.old) result tokens.new }
{
    Grammar { alloc, depth, expr }.level(tokens)
}

/// An expression other than `if`, in which so many levels may be opened.
pub fn simple_expr(alloc: Global, tokens: &mut Tokens<'_>, depth: usize) -> Result<TreeExpr, Halt>
    ensures { ReadsTokens (spec.simple (spec.expr depth) tokens.old) result tokens.new }
{
    Grammar { alloc, depth, expr }.simple(tokens)
}
