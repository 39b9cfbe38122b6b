//! The names that an equation asks for.
ghost use Rattle.std.specs.Prelude.{◌≡◌, ◌++◌, ◌∷◌, [], IfOk, OnOk, slice_get};
ghost use Rattle.part_groups.specs.private.Asking as spec;

use flat_model::{Equation, Expr};
use std::alloc::{AllocError, Global};

fn add(names: &mut Vec<u32>, name: u32) -> Result<(), AllocError>
    ensures { OnOk result (names.new.items ≡ names.old.items ++ name ∷ []) }
{
    names.push(name)?;
    Ok(())
}

/// Adds the names that several expressions ask for.
#[cycle(asking)]
fn add_all(parts: &[Expr], names: &mut Vec<u32>) -> Result<(), AllocError>
    ensures { OnOk result (names.new.items ≡ names.old.items ++ spec.all_names parts.now) }
{
    for part in parts {
        add_names(part, names)?;
    }
    Ok(())
}

/// Adds the names that an expression asks for, at the moment or before it.
#[cycle(asking)]
#[tactic(auto, using(crate::proofs::Levels::namings))]
fn add_names(expr: &Expr, names: &mut Vec<u32>) -> Result<(), AllocError>
    ensures { OnOk result (names.new.items ≡ names.old.items ++ spec.names_in expr.now) }
{
    match expr {
        Expr::Read(name) => add(names, *name),
        Expr::Previous(name) => add(names, *name),
        Expr::Hold(name) => add(names, *name),
        Expr::Convert(_, name) => add(names, *name),
        Expr::Chain(parts, _) => add_all(parts.as_slice(), names),
        Expr::Apply(_, parts) => add_all(parts.as_slice(), names),
        Expr::Relation(_, left, right) => {
            add_names(left.get(), names)?;
            add_names(right.get(), names)
        }
        Expr::Neg(part) => add_names(part.get(), names),
        Expr::Not(part) => add_names(part.get(), names),
        Expr::If(conditions, branches, other) => {
            add_all(conditions.as_slice(), names)?;
            add_all(branches.as_slice(), names)?;
            add_names(other.get(), names)
        }
        Expr::Sample(part, _) => add_names(part.get(), names),
        Expr::Const(_) => Ok(()),
        Expr::FirstTick(_) => Ok(()),
        Expr::IntervalTimes(_, _) => Ok(()),
    }
}

/// Adds the names that an equation asks for.
fn add_sides(equation: &Equation, names: &mut Vec<u32>) -> Result<(), AllocError>
    ensures { OnOk result (names.new.items ≡ names.old.items ++ spec.names_of equation.now) }
{
    match equation {
        Equation::Valued { left, right, .. } => {
            add_names(left, names)?;
            add_names(right, names)
        }
        Equation::Clocks { .. } => Ok(()),
    }
}

/// The names that an equation asks for, by its number.
pub(crate) fn asked(
    alloc: Global,
    equations: &[Equation],
    equation: u32,
) -> Result<Vec<u32>, AllocError>
    ensures { IfOk result (λ names. names.items ≡ spec.names_at (slice_get equations.now equation)) }
{
    let mut names = Vec::new(alloc);
    if let Some(equation) = equations.get(equation as usize) {
        add_sides(equation, &mut names)?;
    }
    Ok(names)
}
