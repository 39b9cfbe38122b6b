//! Where a name stands in an expression.
ghost use Rattle.std.specs.Prelude.{◌≡◌, ℕ, Bool, ◌+◌, ◌&&◌, map, sum, true, false, MatchOption};
ghost use Rattle.std.specs.Bool.{Decides};
ghost use Rattle.std.specs.List.{list_all, list_any};
ghost use Rattle.flat_model.specs.Occurrences as spec;
ghost use Rattle.eq_orient.specs.Spine.{tally, is_bare, is_held, is_converted, count_in, IsSpineOf, Lags};

use crate::kinds::Spine;
use flat_model::{Equation, Expr};
use sync_values::ChainOp;

/// How often something stands: not at all, once, more often.
#[derive(Clone, Copy)]
pub enum Tally {
    Never,
    Once,
    Often,
}

/// How a name stands in an expression: by itself, as the argument of `hold`, or as that of a conversion.
#[derive(Clone, Copy)]
pub enum Manner {
    Bare,
    Held,
    Converted,
}

impl Manner {
    pub fn is_bare(self) -> bool
        ensures { result ≡ is_bare self }
    {
        matches!(self, Manner::Bare)
    }

    pub fn is_held(self) -> bool
        ensures { result ≡ is_held self }
    {
        matches!(self, Manner::Held)
    }

    pub fn is_converted(self) -> bool
        ensures { result ≡ is_converted self }
    {
        matches!(self, Manner::Converted)
    }
}

fn once_if(holds: bool) -> Tally
    ensures { result ≡ tally (spec.one_if holds) }
{
    if holds { Tally::Once } else { Tally::Never }
}

fn both(a: Tally, b: Tally) -> Tally
    ensures { (m n : ℕ) → a ≡ tally m → b ≡ tally n → result ≡ tally (m + n) }
{
    match (a, b) {
        (Tally::Never, _) => b,
        (_, Tally::Never) => a,
        _ => Tally::Often,
    }
}

/// How often a name stands in several expressions.
#[cycle(standing)]
fn standing_in_all(parts: &[Expr], name: u32, manner: Manner) -> Tally
    ensures { result ≡ tally (sum (map (count_in manner name) parts.now)) }
{
    let mut total = Tally::Never;
    for part in parts {
        total = both(total, standing_in(part, name, manner));
    }
    total
}

/// How often a name stands in an expression, outside of `sample`.
#[cycle(standing)]
#[tactic(auto, using(crate::proofs::Counts::counts))]
fn standing_in(expr: &Expr, name: u32, manner: Manner) -> Tally
    ensures { result ≡ tally (count_in manner name expr.now) }
{
    match expr {
        Expr::Read(other) => once_if(manner.is_bare() && *other == name),
        Expr::Hold(other) => once_if(manner.is_held() && *other == name),
        Expr::Convert(_, other) => once_if(manner.is_converted() && *other == name),
        Expr::Chain(parts, _) | Expr::Apply(_, parts) => {
            standing_in_all(parts.as_slice(), name, manner)
        }
        Expr::Relation(_, left, right) => both(
            standing_in(left.get(), name, manner),
            standing_in(right.get(), name, manner),
        ),
        Expr::Neg(part) | Expr::Not(part) => standing_in(part.get(), name, manner),
        Expr::If(conditions, branches, other) => both(
            both(
                standing_in_all(conditions.as_slice(), name, manner),
                standing_in_all(branches.as_slice(), name, manner),
            ),
            standing_in(other.get(), name, manner),
        ),
        Expr::Const(_) => Tally::Never,
        Expr::Previous(_) => Tally::Never,
        Expr::FirstTick(_) => Tally::Never,
        Expr::IntervalTimes(_, _) => Tally::Never,
        Expr::Sample(_, _) => Tally::Never,
    }
}

fn is_sum(op: ChainOp) -> bool
    ensures { result ≡ spec.is_sum op }
{
    matches!(op, ChainOp::Plus | ChainOp::Minus)
}

fn are_sums(ops: &[ChainOp]) -> bool
    ensures { result ≡ list_all spec.is_sum ops.now }
{
    ops.iter().all(|op| is_sum(*op))
}

#[cycle(reached)]
fn reached_in_any(parts: &[Expr], name: u32) -> bool
    ensures { result ≡ list_any (λ part. part) (map (spec.is_reached name) parts.now) }
{
    for part in parts {
        if reached_in(part, name) {
            return true;
        }
    }
    false
}

/// Whether a name is reached from the root through sums, differences, unary minus and `not` only.
#[cycle(reached)]
#[tactic(auto, using(crate::proofs::Reached::reachings))]
pub(crate) fn reached_in(expr: &Expr, name: u32) -> bool
    ensures { result ≡ spec.is_reached name expr.now }
{
    match expr {
        Expr::Read(other) => *other == name,
        Expr::Chain(parts, ops) => are_sums(ops.as_slice())
            && reached_in_any(parts.as_slice(), name),
        Expr::Neg(part) | Expr::Not(part) => reached_in(part.get(), name),
        Expr::Const(_) => false,
        Expr::Relation(_, _, _) => false,
        Expr::If(_, _, _) => false,
        Expr::Apply(_, _) => false,
        Expr::Previous(_) => false,
        Expr::FirstTick(_) => false,
        Expr::IntervalTimes(_, _) => false,
        Expr::Hold(_) => false,
        Expr::Convert(_, _) => false,
        Expr::Sample(_, _) => false,
    }
}

/// The side of an equation on which a name stands that it can be solved for: the name stands bare just once in the
/// equation, and is reached from the root of that side through sums, differences, unary minus and `not`.
///
/// Source: this project's own.
pub fn spine(equation: &Equation, name: u32) -> Option<Spine>
    ensures { MatchOption result ((side : Bool) → IsSpineOf name equation.now side → ⊥) (λ spine. IsSpineOf name equation.now spine.left) }
{
    let Equation::Valued { left, right, .. } = equation else {
        return None;
    };
    let Tally::Once = both(
        standing_in(left, name, Manner::Bare),
        standing_in(right, name, Manner::Bare),
    ) else {
        return None;
    };
    if reached_in(left, name) {
        return Some(Spine { left: true });
    }
    if reached_in(right, name) {
        return Some(Spine { left: false });
    }
    None
}

/// Whether a name is the argument of `hold` or of a conversion in an equation.
pub fn lags(equation: &Equation, name: u32) -> bool
    ensures { Decides result (Lags name equation.now) }
{
    let Equation::Valued { left, right, .. } = equation else {
        return false;
    };
    let held = both(
        standing_in(left, name, Manner::Held),
        standing_in(right, name, Manner::Held),
    );
    let converted = both(
        standing_in(left, name, Manner::Converted),
        standing_in(right, name, Manner::Converted),
    );
    match both(held, converted) {
        Tally::Never => false,
        _ => true,
    }
}
