//! The names that stand in an expression.
ghost use Rattle.std.specs.Prelude.{◌≡◌, ℕ, ◌+◌, ◌==◌, ◌&&◌, map, sum, OnOk};
ghost use Rattle.flat_model.specs.Occurrences.{one_if};
ghost use Rattle.eq_orient.specs.Gathered.{count_of};
ghost use Rattle.eq_orient.specs.Spine.{count_in};

use crate::standing::Manner;
use flat_model::Expr;
use std::alloc::AllocError;

/// Adds a name where something holds.
fn push_if(names: &mut Vec<u32>, holds: bool, name: u32) -> Result<(), AllocError>
    ensures { OnOk result ((x : ℕ) → count_of x names.new.items ≡ count_of x names.old.items + one_if (holds && name == x)) }
{
    if holds {
        names.push(name)?;
    }
    Ok(())
}

/// Adds the names that stand in several expressions.
#[cycle(gather)]
fn gather_all(parts: &[Expr], manner: Manner, names: &mut Vec<u32>) -> Result<(), AllocError>
    ensures { OnOk result ((x : ℕ) → count_of x names.new.items ≡ count_of x names.old.items + sum (map (count_in manner x) parts.now)) }
{
    for part in parts {
        gather(part, manner, names)?;
    }
    Ok(())
}

/// Adds the names that stand in an expression in a manner, outside of `sample`, each as often as it does. The cost is linear
/// in the expression.
///
/// # Errors
///
/// Where memory is refused.
///
/// Source: this project's own.
#[cycle(gather)]
#[tactic(auto, using(crate::proofs::Counts::counts))]
pub fn gather(expr: &Expr, manner: Manner, names: &mut Vec<u32>) -> Result<(), AllocError>
    ensures { OnOk result ((x : ℕ) → count_of x names.new.items ≡ count_of x names.old.items + count_in manner x expr.now) }
{
    match expr {
        Expr::Read(name) => push_if(names, manner.is_bare(), *name),
        Expr::Hold(name) => push_if(names, manner.is_held(), *name),
        Expr::Convert(_, name) => push_if(names, manner.is_converted(), *name),
        Expr::Chain(parts, _) => gather_all(parts.as_slice(), manner, names),
        Expr::Apply(_, parts) => gather_all(parts.as_slice(), manner, names),
        Expr::Relation(_, left, right) => {
            gather(left.get(), manner, names)?;
            gather(right.get(), manner, names)
        }
        Expr::Neg(part) => gather(part.get(), manner, names),
        Expr::Not(part) => gather(part.get(), manner, names),
        Expr::If(conditions, branches, other) => {
            gather_all(conditions.as_slice(), manner, names)?;
            gather_all(branches.as_slice(), manner, names)?;
            gather(other.get(), manner, names)
        }
        Expr::Const(_) => Ok(()),
        Expr::Previous(_) => Ok(()),
        Expr::FirstTick(_) => Ok(()),
        Expr::IntervalTimes(_, _) => Ok(()),
        Expr::Sample(_, _) => Ok(()),
    }
}
