//! What stands uncut in an expression.
ghost use Rattle.std.specs.Prelude.{◌≡◌, ◌<◌, length, OnOk, [], ◌∷◌};
ghost use Rattle.clock_terms.specs.Mentions.{Mention, Stands, Ticks, Samples, Holds, Converts, Gives, seen, seen_clock, mentions_of_exprs, stands_if, clock_mentions};
ghost use Rattle.clock_terms.specs.Gathered.{with_mention, with_mentions};

use crate::data::{Constructor, Relation, Terms};
use flat_model::{ClockExpr, Conversion, Expr, FlatName, copied_clock};
use mo_connect::Pair;
use std::alloc::{AllocError, Global};

/// A node and its equation.
#[derive(Clone, Copy)]
pub struct At {
    pub node: u32,
    pub equation: u32,
}

/// A name that stands uncut.
fn stand(terms: &mut Terms, names: &[FlatName], at: At, x: u32) -> Result<(), AllocError>
    ensures { OnOk result (terms.new ≡ with_mention names.now at terms.old (Stands x)) }
{
    let Some(name) = names.get(x as usize) else {
        return Ok(());
    };
    if name.input {
        terms.unclocked.push(at.node)
    } else {
        terms.joins.push(Pair { a: x, b: at.node })
    }
}

/// A call that asks for a clock.
fn tick(terms: &mut Terms, names: &[FlatName], at: At) -> Result<(), AllocError>
    ensures ticks { OnOk result (terms.new ≡ with_mention names.now at terms.old Ticks) }
    ensures samples { OnOk result (terms.new ≡ with_mention names.now at terms.old Samples) }
{
    terms.clocked.push(at.node)
}

fn tick_of(terms: &mut Terms, names: &[FlatName], at: At, x: Option<u32>) -> Result<(), AllocError>
    ensures { OnOk result (terms.new ≡ with_mentions names.now at terms.old (Ticks ∷ stands_if x)) }
{
    tick(terms, names, at)?;
    match x {
        Some(x) => stand(terms, names, at, x),
        None => Ok(()),
    }
}

fn hold(terms: &mut Terms, names: &[FlatName], at: At, x: u32) -> Result<(), AllocError>
    ensures { OnOk result (terms.new ≡ with_mention names.now at terms.old (Holds x)) }
{
    terms.holds.push(at.node)?;
    terms.unclocked.push(at.node)?;
    terms.clocked.push(x)
}

fn conversion(
    terms: &mut Terms,
    names: &[FlatName],
    at: At,
    by: Conversion,
    x: u32,
) -> Result<(), AllocError>
    ensures { OnOk result (terms.new ≡ with_mention names.now at terms.old (Converts by x)) }
{
    terms.clocked.push(at.node)?;
    terms.clocked.push(x)?;
    terms.conversions.push(Pair { a: at.node, b: x })?;
    if matches!(by, Conversion::NoClock) {
        return Ok(());
    }
    terms.relations.push(Relation {
        result: at.node,
        argument: x,
        equation: at.equation,
        by,
    })
}

fn constructor(
    alloc: Global,
    terms: &mut Terms,
    names: &[FlatName],
    at: At,
    clock: &ClockExpr,
) -> Result<(), AllocError>
    ensures { OnOk result (terms.new ≡ with_mention names.now at terms.old (Gives clock.now)) }
{
    let clock = copied_clock(alloc, clock)?;
    terms.constructors.push(Constructor {
        node: at.node,
        equation: at.equation,
        clock,
    })
}

/// What stands uncut in a clock.
#[tactic(auto, using(crate::proofs::Mentioned::clocks_mentioned))]
pub(crate) fn walk_clock(
    alloc: Global,
    terms: &mut Terms,
    names: &[FlatName],
    at: At,
    clock: &ClockExpr,
) -> Result<(), AllocError>
    ensures { OnOk result (terms.new ≡ with_mentions names.now at terms.old (seen_clock clock.now).mentions) }
{
    match clock {
        ClockExpr::Name(x) => stand(terms, names, at, *x),
        ClockExpr::Convert(by, x) => conversion(terms, names, at, *by, *x),
        ClockExpr::Inferred => constructor(alloc, terms, names, at, clock),
        ClockExpr::Rational(_, _) => constructor(alloc, terms, names, at, clock),
        ClockExpr::Event(_) => constructor(alloc, terms, names, at, clock),
    }
}

#[cycle(walk)]
fn walk_all(
    alloc: Global,
    terms: &mut Terms,
    names: &[FlatName],
    at: At,
    parts: &[Expr],
) -> Result<(), AllocError>
    ensures { OnOk result (terms.new ≡ with_mentions names.now at terms.old (mentions_of_exprs parts.now)) }
{
    for part in parts {
        walk(alloc, terms, names, at, part)?;
    }
    Ok(())
}

/// What stands uncut in an expression.
#[cycle(walk)]
#[tactic(auto, using(crate::proofs::Mentioned::mentioned, crate::proofs::Mentioned::mentions_in_turn))]
pub(crate) fn walk(
    alloc: Global,
    terms: &mut Terms,
    names: &[FlatName],
    at: At,
    expr: &Expr,
) -> Result<(), AllocError>
    ensures { OnOk result (terms.new ≡ with_mentions names.now at terms.old (seen expr.now).mentions) }
{
    match expr {
        Expr::Const(_) => Ok(()),
        Expr::Read(x) => stand(terms, names, at, *x),
        Expr::Chain(parts, _) => walk_all(alloc, terms, names, at, parts.as_slice()),
        Expr::Relation(_, left, right) => {
            walk(alloc, terms, names, at, left.get())?;
            walk(alloc, terms, names, at, right.get())
        }
        Expr::Neg(part) => walk(alloc, terms, names, at, part.get()),
        Expr::Not(part) => walk(alloc, terms, names, at, part.get()),
        Expr::If(conditions, branches, other) => {
            walk_all(alloc, terms, names, at, conditions.as_slice())?;
            walk_all(alloc, terms, names, at, branches.as_slice())?;
            walk(alloc, terms, names, at, other.get())
        }
        Expr::Apply(_, parts) => walk_all(alloc, terms, names, at, parts.as_slice()),
        Expr::Previous(x) => tick_of(terms, names, at, Some(*x)),
        Expr::FirstTick(x) => tick_of(terms, names, at, *x),
        Expr::IntervalTimes(x, _) => tick_of(terms, names, at, *x),
        Expr::Hold(x) => hold(terms, names, at, *x),
        Expr::Convert(by, x) => conversion(terms, names, at, *by, *x),
        Expr::Sample(_, clock) => {
            tick(terms, names, at)?;
            match clock {
                Some(clock) => walk_clock(alloc, terms, names, at, clock),
                None => Ok(()),
            }
        }
    }
}
