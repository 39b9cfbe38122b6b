//! The parts that are cut from expressions, each a node with what stands in it.
ghost use Rattle.std.specs.Prelude.{◌≡◌, ◌<◌, length, OnOk, [], ◌∷◌};
ghost use Rattle.clock_terms.specs.Mentions.{seen, seen_clock, cuts_of_exprs, clock_cuts};
ghost use Rattle.clock_terms.specs.Nodes.{cut_node};
ghost use Rattle.clock_terms.specs.Gathered.{with_node, with_cuts};

use crate::data::{Cause, Terms};
use crate::node;
use crate::walk::walk;
use flat_model::{ClockExpr, Expr, FlatName};
use std::alloc::{AllocError, Global};

/// A part that is cut, by itself.
fn part_terms(
    alloc: Global,
    terms: &mut Terms,
    names: &[FlatName],
    equation: u32,
    cause: Cause,
    part: &Expr,
) -> Result<(), AllocError>
    ensures { OnOk result (terms.new ≡ with_node names.now terms.old (cut_node equation (record { cause = cause; mentions = (seen part.now).mentions }))) }
{
    let at = node::cut_node(terms, names, equation, cause)?;
    walk(alloc, terms, names, at, part)
}

/// What is cut from a clock.
#[cycle(cuts)]
#[tactic(auto, using(crate::proofs::Cutting::clocks_cut, crate::proofs::Cutting::cuts_in_turn))]
pub(crate) fn clock_parts(
    alloc: Global,
    terms: &mut Terms,
    names: &[FlatName],
    equation: u32,
    clock: &ClockExpr,
) -> Result<(), AllocError>
    ensures { OnOk result (terms.new ≡ with_cuts names.now equation terms.old (seen_clock clock.now).cuts) }
{
    match clock {
        ClockExpr::Event(condition) => {
            part_terms(
                alloc,
                terms,
                names,
                equation,
                Cause::Condition,
                condition.get(),
            )?;
            parts(alloc, terms, names, equation, condition.get())
        }
        ClockExpr::Name(_) => Ok(()),
        ClockExpr::Convert(_, _) => Ok(()),
        ClockExpr::Inferred => Ok(()),
        ClockExpr::Rational(_, _) => Ok(()),
    }
}

#[cycle(cuts)]
fn parts_of_all(
    alloc: Global,
    terms: &mut Terms,
    names: &[FlatName],
    equation: u32,
    exprs: &[Expr],
) -> Result<(), AllocError>
    ensures { OnOk result (terms.new ≡ with_cuts names.now equation terms.old (cuts_of_exprs exprs.now)) }
{
    for expr in exprs {
        parts(alloc, terms, names, equation, expr)?;
    }
    Ok(())
}

/// What is cut from an expression.
#[cycle(cuts)]
#[tactic(auto, using(crate::proofs::Cutting::exprs_cut, crate::proofs::Cutting::cuts_in_turn))]
pub(crate) fn parts(
    alloc: Global,
    terms: &mut Terms,
    names: &[FlatName],
    equation: u32,
    expr: &Expr,
) -> Result<(), AllocError>
    ensures { OnOk result (terms.new ≡ with_cuts names.now equation terms.old (seen expr.now).cuts) }
{
    match expr {
        Expr::Const(_) => Ok(()),
        Expr::Read(_) => Ok(()),
        Expr::Chain(terms_of, _) => parts_of_all(
            alloc,
            terms,
            names,
            equation,
            terms_of.as_slice(),
        ),
        Expr::Relation(_, left, right) => {
            parts(alloc, terms, names, equation, left.get())?;
            parts(alloc, terms, names, equation, right.get())
        }
        Expr::Neg(part) => parts(alloc, terms, names, equation, part.get()),
        Expr::Not(part) => parts(alloc, terms, names, equation, part.get()),
        Expr::If(conditions, branches, other) => {
            parts_of_all(alloc, terms, names, equation, conditions.as_slice())?;
            parts_of_all(alloc, terms, names, equation, branches.as_slice())?;
            parts(alloc, terms, names, equation, other.get())
        }
        Expr::Apply(_, arguments) => parts_of_all(
            alloc,
            terms,
            names,
            equation,
            arguments.as_slice(),
        ),
        Expr::Previous(_) => Ok(()),
        Expr::FirstTick(_) => Ok(()),
        Expr::IntervalTimes(_, _) => Ok(()),
        Expr::Hold(_) => Ok(()),
        Expr::Convert(_, _) => Ok(()),
        Expr::Sample(part, clock) => {
            part_terms(alloc, terms, names, equation, Cause::Sampled, part.get())?;
            parts(alloc, terms, names, equation, part.get())?;
            match clock {
                Some(clock) => clock_parts(alloc, terms, names, equation, clock),
                None => Ok(()),
            }
        }
    }
}
