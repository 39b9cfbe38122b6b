//! The equations and clauses that a text has.
ghost use Rattle.std.specs.Prelude.{◌≡◌, ◌<◌, ℕ, All, Some, true, length, OnOk};
ghost use Rattle.flat_model.specs.RawModels.{HasConstants, HasClauseBelow, constants_fit};
ghost use Rattle.clock_tests.specs.Raws.{HasEquation, AreWhole};

use crate::expressions::Reader;
use flat_model::{RawEq, RawExpr};
use mo_parser::{TreeEq, TreeExpr};
use std::alloc::AllocError;
use std::process::Abort;
use sync_values::List;

/// Adds an equation that stands alone, or in a clause.
fn add(
    rt: &impl Abort,
    reader: &Reader,
    equations: &mut List<RawEq>,
    equation: &TreeEq,
    clause: Option<u32>,
) -> Result<(), AllocError>
    requires { All HasConstants equations.old }
    ensures { OnOk result (All HasConstants equations.new) }
{
    let TreeEq::Equal(left, right) = equation else {
        panic!(rt; "no equation of two sides");
    };
    let left = reader.expression(left)?;
    let right = reader.expression(right)?;
    equations.push(RawEq {
        left,
        right,
        clause,
    })?;
    Ok(())
}

fn add_all(
    rt: &impl Abort,
    reader: &Reader,
    equations: &mut List<RawEq>,
    inside: &[TreeEq],
    clause: u32,
) -> Result<(), AllocError>
    requires { All HasConstants equations.old }
    ensures { OnOk result (All HasConstants equations.new) }
{
    for equation in inside {
        add(rt, reader, equations, equation, Some(clause))?;
    }
    Ok(())
}

fn add_clock(
    reader: &Reader,
    clauses: &mut List<RawExpr>,
    clock: &TreeExpr,
) -> Result<(), AllocError>
    requires { All (λ clause. constants_fit clause ≡ true) clauses.old }
    ensures { OnOk result (All (λ clause. constants_fit clause ≡ true) clauses.new) }
{
    let clock = reader.expression(clock)?;
    clauses.push(clock)?;
    Ok(())
}

/// Adds the equations of a text, and the clocks of its clauses.
pub(crate) fn read(
    rt: &impl Abort,
    reader: &Reader,
    equations: &mut List<RawEq>,
    clauses: &mut List<RawExpr>,
    all: &[TreeEq],
) -> Result<(), AllocError>
    requires equations { All HasConstants equations.old }
    requires clauses { All (λ clause. constants_fit clause ≡ true) clauses.old }
    ensures equations { OnOk result (All HasConstants equations.new) }
    ensures clauses { OnOk result (All (λ clause. constants_fit clause ≡ true) clauses.new) }
{
    for equation in all {
        match equation {
            TreeEq::When(clock, inside) => {
                let clause = u32::try_from(clauses.len()).expect(rt, "few clauses");
                add_clock(reader, clauses, clock)?;
                add_all(rt, reader, equations, inside.as_slice(), clause)?;
            }
            _ => add(rt, reader, equations, equation, None)?,
        }
    }
    Ok(())
}

/// Whether the clause of each equation is one of the model.
fn are_below(equations: &[RawEq], count: usize) -> bool
    ensures { result ≡ true → All (HasClauseBelow count) equations.now }
{
    for equation in equations {
        if !is_below(equation.clause, count) {
            return false;
        }
    }
    true
}

fn is_below(clause: Option<u32>, count: usize) -> bool
    ensures { result ≡ true → (k : ℕ) → clause ≡ Some k → k < count }
{
    match clause {
        Some(clause) => (clause as usize) < count,
        None => true,
    }
}

fn stands_in(equation: &RawEq, clause: u32) -> bool
    ensures { result ≡ true → equation.now.clause ≡ Some clause }
{
    match equation.clause {
        Some(other) => other == clause,
        None => false,
    }
}

/// Whether the clause is that of an equation.
fn is_used(equations: &[RawEq], clause: u32) -> bool
    ensures { result ≡ true → HasEquation equations.now clause }
{
    for equation in equations {
        if stands_in(equation, clause) {
            return true;
        }
    }
    false
}

/// Whether each of so many clauses is that of an equation.
fn are_used(equations: &[RawEq], count: u32) -> bool
    ensures { result ≡ true → (k : ℕ) → k < count → HasEquation equations.now k }
{
    for clause in 0..count {
        if !is_used(equations, clause) {
            return false;
        }
    }
    true
}

/// Whether the equations are not too many, and stand in the clauses of their model, each of which has one.
pub(crate) fn are_whole(equations: &[RawEq], clauses: &[RawExpr]) -> bool
    ensures { result ≡ true → AreWhole equations.now (length clauses.now) }
{
    let Ok(count) = u32::try_from(clauses.len()) else {
        return false;
    };
    equations.len() <= 65_536 && are_below(equations, clauses.len()) && are_used(equations, count)
}
