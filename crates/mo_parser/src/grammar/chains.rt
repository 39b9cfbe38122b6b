//! Chains: parts with operators of one kind between them.
ghost use Rattle.std.specs.Prelude.{◌≡◌, IfOk, IfErr, Option, length};
ghost use Rattle.sync_values.specs.declared.value.ChainOp.{ChainOp};
ghost use Rattle.mo_lexer.specs.declared.token.Token.{Token};
ghost use Rattle.mo_parser.specs.declared.tree.TreeExpr.{TreeExpr};
ghost use Rattle.mo_parser.specs.grammar.Kinds as kinds;
ghost use Rattle.mo_parser.specs.grammar.Trees as trees;
ghost use Rattle.mo_parser.specs.reading.Outcomes.{Parser, ReadsTokens, many, one_by};
ghost use Rattle.mo_parser.specs.reading.Expressions as spec;
ghost use Rattle.mo_parser.specs.reading.Nests.{Nests};

use super::expressions::{Grammar, begins, ends, spanning};
use super::parts::Links;
use super::tokens::{Halt, Tokens};
use crate::tree::{TreeExpr, TreeNode};
use mo_lexer::{Sym, Token, TokenKind, Word};
use std::alloc::Global;
use sync_values::{ChainOp, List};

/// A kind of chain.
pub trait Chain {
    /// Which operator a token is, if it stands between two parts.
    ghost op_by: { Token → Option ChainOp };

    /// How a part is read, where the parameter reads whole expressions one level deeper.
    ghost part_by: { Parser TreeExpr → Parser TreeExpr };

    /// The operator that a token is, if it stands between two parts.
    fn op_of(token: Token) -> Option<ChainOp>
        ensures { result ≡ op_by token };

    /// One part.
    fn part<F: Fn(Global, &mut Tokens<'_>, usize) -> Result<TreeExpr, Halt>>(
        grammar: &Grammar<F>,
        tokens: &mut Tokens<'_>,
    ) -> Result<TreeExpr, Halt>
        requires { Nests grammar.now.depth (F.pre grammar.now.expr) (F.post grammar.now.expr) }
        ensures { ReadsTokens (part_by (spec.expr grammar.now.depth) tokens.old) result tokens.new };
}

/// `factor { ("*"|"/") factor }`
pub struct Products;

impl Chain for Products {
    ghost op_by = { kinds.product_of };

    ghost part_by = { spec.factor };

    #[tactic(auto, unfolding(crate::specs::grammar::Kinds::product_of))]
    fn op_of(token: Token) -> Option<ChainOp> {
        match token.kind {
            TokenKind::Symbol(Sym::Times) => Some(ChainOp::Times),
            TokenKind::Symbol(Sym::Over) => Some(ChainOp::Over),
            _ => None,
        }
    }

    fn part<F: Fn(Global, &mut Tokens<'_>, usize) -> Result<TreeExpr, Halt>>(
        grammar: &Grammar<F>,
        tokens: &mut Tokens<'_>,
    ) -> Result<TreeExpr, Halt> {
        grammar.factor(tokens)
    }
}

/// `term { ("+"|"-") term }`
pub struct Sums;

impl Chain for Sums {
    ghost op_by = { kinds.sum_of };

    ghost part_by = { spec.term };

    #[tactic(auto, unfolding(crate::specs::grammar::Kinds::sum_of))]
    fn op_of(token: Token) -> Option<ChainOp> {
        match token.kind {
            TokenKind::Symbol(Sym::Plus) => Some(ChainOp::Plus),
            TokenKind::Symbol(Sym::Minus) => Some(ChainOp::Minus),
            _ => None,
        }
    }

    fn part<F: Fn(Global, &mut Tokens<'_>, usize) -> Result<TreeExpr, Halt>>(
        grammar: &Grammar<F>,
        tokens: &mut Tokens<'_>,
    ) -> Result<TreeExpr, Halt> {
        grammar.term(tokens)
    }
}

/// `lit { "and" lit }`
pub struct Conjunctions;

impl Chain for Conjunctions {
    ghost op_by = { kinds.and_of };

    ghost part_by = { spec.lit };

    #[tactic(auto, unfolding(crate::specs::grammar::Kinds::and_of))]
    fn op_of(token: Token) -> Option<ChainOp> {
        match token.kind {
            TokenKind::Keyword(Word::KwAnd) => Some(ChainOp::And),
            _ => None,
        }
    }

    fn part<F: Fn(Global, &mut Tokens<'_>, usize) -> Result<TreeExpr, Halt>>(
        grammar: &Grammar<F>,
        tokens: &mut Tokens<'_>,
    ) -> Result<TreeExpr, Halt> {
        grammar.lit(tokens)
    }
}

/// `conj { "or" conj }`
pub struct Disjunctions;

impl Chain for Disjunctions {
    ghost op_by = { kinds.or_of };

    ghost part_by = { spec.conj };

    #[tactic(auto, unfolding(crate::specs::grammar::Kinds::or_of))]
    fn op_of(token: Token) -> Option<ChainOp> {
        match token.kind {
            TokenKind::Keyword(Word::KwOr) => Some(ChainOp::Or),
            _ => None,
        }
    }

    fn part<F: Fn(Global, &mut Tokens<'_>, usize) -> Result<TreeExpr, Halt>>(
        grammar: &Grammar<F>,
        tokens: &mut Tokens<'_>,
    ) -> Result<TreeExpr, Halt> {
        grammar.conj(tokens)
    }
}

/// The first part of a chain.
fn alone(alloc: Global, first: TreeExpr) -> Result<Links, Halt>
    ensures ok { IfOk result (λ l. l ≡ trees.alone first) }
    ensures err { IfErr result (λ e. e ≡ Halt.NoMemory) }
{
    let end = ends(&first);
    // Most chains have two parts.
    let mut parts = List::with_capacity(alloc, 2)?;
    parts.push(first)?;
    Ok(Links {
        parts,
        ops: List::new(alloc),
        end,
    })
}

/// A chain with one more operator and part.
fn linked(mut links: Links, op: ChainOp, part: TreeExpr) -> Result<Links, Halt>
    ensures ok { IfOk result (λ l. l ≡ trees.linked links op part) }
    ensures err { IfErr result (λ e. e ≡ Halt.NoMemory) }
{
    links.end = ends(&part);
    links.parts.push(part)?;
    links.ops.push(op)?;
    Ok(links)
}

/// The expression that a whole chain is.
fn chained(at: u32, links: Links) -> TreeExpr
    ensures { result ≡ trees.chained at links }
{
    let Links { parts, ops, end } = links;
    spanning(TreeNode::Chain(parts, ops), at, end)
}

/// The operator that the next token was found to be.
fn operator(tokens: &mut Tokens<'_>, found: Option<ChainOp>) -> Result<ChainOp, Halt>
    ensures { ReadsTokens (one_by found tokens.old) result tokens.new }
{
    let Some(op) = found else {
        return Err(Halt::Stuck);
    };
    tokens.advance();
    Ok(op)
}

impl<F: Fn(Global, &mut Tokens<'_>, usize) -> Result<TreeExpr, Halt>> Grammar<F> {
    /// `op part`, behind the parts before it
    #[tactic(auto, unfolding(crate::specs::reading::Expressions::link))]
    fn link<C: Chain>(&self, tokens: &mut Tokens<'_>, links: Links) -> Result<Links, Halt>
        requires { Nests self.now.depth (F.pre self.now.expr) (F.post self.now.expr) }
        ensures { ReadsTokens (spec.link C.op_by (C.part_by (spec.expr self.now.depth)) links tokens.old) result tokens.new }
    {
        let op = operator(tokens, C::op_of(tokens.peek()))?;
        let part = C::part(self, tokens)?;
        linked(links, op, part)
    }

    /// `{ op part }`, behind the parts before
    #[tactic(auto, unfolding(crate::specs::reading::Outcomes::turns))]
    fn more_links<C: Chain>(&self, tokens: &mut Tokens<'_>, mut links: Links) -> Result<Links, Halt>
        requires { Nests self.now.depth (F.pre self.now.expr) (F.post self.now.expr) }
        ensures { ReadsTokens (many (spec.is_op C.op_by) (spec.link C.op_by (C.part_by (spec.expr self.now.depth))) links tokens.old) result tokens.new }
    {
        for _turn in 0..tokens.count() {
            if C::op_of(tokens.peek()).is_none() {
                break;
            }
            links = self.link::<C>(tokens, links)?;
        }
        Ok(links)
    }

    /// `{ op part }`, behind the first part
    #[tactic(auto, unfolding(crate::specs::reading::Expressions::links))]
    pub fn links<C: Chain>(
        &self,
        tokens: &mut Tokens<'_>,
        first: TreeExpr,
    ) -> Result<TreeExpr, Halt>
        requires { Nests self.now.depth (F.pre self.now.expr) (F.post self.now.expr) }
        ensures { ReadsTokens (spec.links C.op_by (C.part_by (spec.expr self.now.depth)) first tokens.old) result tokens.new }
    {
        if C::op_of(tokens.peek()).is_none() {
            return Ok(first);
        }
        let at = begins(&first);
        let links = self.link::<C>(tokens, alone(self.alloc, first)?)?;
        let links = self.more_links::<C>(tokens, links)?;
        Ok(chained(at, links))
    }
}
