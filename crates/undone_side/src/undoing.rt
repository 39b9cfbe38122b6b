//! The side of an equation that is solved for a name.
ghost use Rattle.std.specs.Prelude.{◌≡◌, true, IfOk, IfSome, MatchOption};
ghost use Rattle.eq_orient.specs.Solving.{is_formed};
ghost use Rattle.flat_model.specs.Occurrences as spec;
ghost use Rattle.undone_side.specs.Undone.{UndoesTo, IsSolvedSide, IsUnsolved};

use crate::sums::without_others;
use eq_orient::{around, spine};
use flat_model::{Equation, Expr, copied_expr};
use sqlite_items::Boxed;
use std::alloc::{AllocError, Global};

/// What a name is where an expression in which it is reached is equal to another one, `whole`. There is none where a sum
/// has not one operator fewer than parts.
#[tactic(auto, using(eq_orient::proofs::Reached::reachings))]
fn undone(alloc: Global, expr: &Expr, name: u32, whole: Expr) -> Result<Option<Expr>, AllocError>
    requires { spec.is_reached name expr.now ≡ true }
    ensures { IfOk result (λ side. MatchOption side (is_formed expr.now ≡ true → ⊥) (UndoesTo name expr.now whole)) }
{
    match expr {
        Expr::Read(_) => Ok(Some(whole)),
        Expr::Neg(part) => {
            let rest = Expr::Neg(Boxed::new(alloc, whole)?);
            undone(alloc, part.get(), name, rest)
        }
        Expr::Not(part) => {
            let rest = Expr::Not(Boxed::new(alloc, whole)?);
            undone(alloc, part.get(), name, rest)
        }
        Expr::Chain(parts, ops) => {
            let (front, part, back) = around(parts.as_slice(), name);
            if ops.len() != front.len() + back.len() {
                return Ok(None);
            }
            let rest = without_others(alloc, whole, front, ops.as_slice(), back)?;
            undone(alloc, part, name, rest)
        }
        Expr::Const(_) => unreachable!(),
        Expr::Relation(_, _, _) => unreachable!(),
        Expr::If(_, _, _) => unreachable!(),
        Expr::Apply(_, _) => unreachable!(),
        Expr::Previous(_) => unreachable!(),
        Expr::FirstTick(_) => unreachable!(),
        Expr::IntervalTimes(_, _) => unreachable!(),
        Expr::Hold(_) => unreachable!(),
        Expr::Convert(_, _) => unreachable!(),
        Expr::Sample(_, _) => unreachable!(),
    }
}

/// Another expression, where one in which a name is reached is the name itself.
#[tactic(auto, using(eq_orient::proofs::Reached::reachings))]
fn alone<'a>(expr: &Expr, name: u32, other: &'a Expr) -> Option<&'a Expr>
    requires { spec.is_reached name expr.now ≡ true }
    ensures { IfSome result (λ side. UndoesTo name expr.now other.now side.now) }
{
    match expr {
        Expr::Read(_) => Some(other),
        _ => None,
    }
}

/// The side of an equation that is solved for a name, where the name alone is the other side.
///
/// Source: this project's own.
pub fn bare_side<'a>(equation: &'a Equation, name: u32) -> Option<&'a Expr>
    ensures { IfSome result (λ side. IsSolvedSide name equation.now side.now) }
{
    let Equation::Valued { left, right, .. } = equation else {
        return None;
    };
    let spine = spine(equation, name)?;
    if spine.left {
        alone(left, name, right)
    } else {
        alone(right, name, left)
    }
}

/// The side of an equation that is solved for a name, made of its other side and of the parts beside the way to the name.
/// There is none only where the equation cannot be solved for the name, or a sum in it has not one operator fewer than parts.
/// Its cost is that of a copy of the equation.
///
/// # Errors
///
/// Want of memory.
///
/// Source: this project's own.
pub fn solved_side(
    alloc: Global,
    equation: &Equation,
    name: u32,
) -> Result<Option<Expr>, AllocError>
    ensures { IfOk result (λ side. MatchOption side (IsUnsolved name equation.now) (IsSolvedSide name equation.now)) }
{
    let Equation::Valued { left, right, .. } = equation else {
        return Ok(None);
    };
    let Some(spine) = spine(equation, name) else {
        return Ok(None);
    };
    if spine.left {
        undone(alloc, left, name, copied_expr(alloc, right)?)
    } else {
        undone(alloc, right, name, copied_expr(alloc, left)?)
    }
}
