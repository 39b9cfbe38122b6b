//! Whether an equation reads something now that has no value.
ghost use Rattle.std.specs.Prelude.{◌≡◌, ◌||◌, map};
ghost use Rattle.std.specs.List.{list_any};
ghost use Rattle.tree_step.specs.private.Lacking as spec;

use crate::cell::{Cell, Standing, cell_at};
use flat_model::{Equation, Expr};

/// What is read: the cells of the names, and the name that the equation is solved for.
#[derive(Clone, Copy)]
pub(crate) struct Sought<'a> {
    pub places: &'a [u32],
    pub cells: &'a [Cell],
    pub own: u32,
}

/// Whether a name that stands bare has no value.
#[tactic(auto, unfolding(crate::specs::private::Lacking::is_missing))]
fn is_missing(sought: &Sought<'_>, name: u32) -> bool
    ensures { result ≡ spec.is_missing sought.now.places.now sought.now.cells.now sought.now.own name }
{
    if name == sought.own {
        return false;
    }
    match cell_at(sought.places, sought.cells, name) {
        Some(cell) => cell.now.is_none(),
        None => true,
    }
}

fn may_tick(standing: Standing) -> bool
    ensures { result ≡ spec.may_tick standing }
{
    match standing {
        Standing::Ticks => true,
        Standing::Rests => false,
        Standing::Unknown => true,
    }
}

/// Whether a name whose last value is read has none, and may tick.
#[tactic(auto, unfolding(crate::specs::private::Lacking::is_unsettled))]
fn is_unsettled(sought: &Sought<'_>, name: u32) -> bool
    ensures { result ≡ spec.is_unsettled sought.now.places.now sought.now.cells.now name }
{
    match cell_at(sought.places, sought.cells, name) {
        Some(cell) => cell.now.is_none() && may_tick(cell.standing),
        None => true,
    }
}

#[cycle(lacking)]
fn any_lacks(parts: &[Expr], sought: &Sought<'_>) -> bool
    ensures { result ≡ list_any (λ part. part) (map (spec.lacks (spec.is_missing sought.now.places.now sought.now.cells.now sought.now.own) (spec.is_unsettled sought.now.places.now sought.now.cells.now)) parts.now) }
{
    for part in parts {
        if lacks(part, sought) {
            return true;
        }
    }
    false
}

/// Whether a name is missing that an expression reads now.
#[cycle(lacking)]
#[tactic(auto, using(crate::proofs::Levels::lackings))]
fn lacks(expr: &Expr, sought: &Sought<'_>) -> bool
    ensures { result ≡ spec.lacks (spec.is_missing sought.now.places.now sought.now.cells.now sought.now.own) (spec.is_unsettled sought.now.places.now sought.now.cells.now) expr.now }
{
    match expr {
        Expr::Read(name) => is_missing(sought, *name),
        Expr::Chain(parts, _) => any_lacks(parts.as_slice(), sought),
        Expr::Apply(_, parts) => any_lacks(parts.as_slice(), sought),
        Expr::Relation(_, left, right) => {
            lacks(left.get(), sought) || lacks(right.get(), sought)
        }
        Expr::Neg(part) => lacks(part.get(), sought),
        Expr::Not(part) => lacks(part.get(), sought),
        Expr::If(conditions, branches, other) => any_lacks(conditions.as_slice(), sought)
            || any_lacks(branches.as_slice(), sought)
            || lacks(other.get(), sought),
        Expr::Hold(name) => is_unsettled(sought, *name),
        Expr::Convert(_, name) => is_unsettled(sought, *name),
        Expr::Const(_) => false,
        Expr::Previous(_) => false,
        Expr::FirstTick(_) => false,
        Expr::IntervalTimes(_, _) => false,
        Expr::Sample(_, _) => false,
    }
}

/// Whether a name is missing that an equation reads now, other than the one that it is solved for.
pub(crate) fn equation_lacks(equation: &Equation, sought: &Sought<'_>) -> bool
    ensures { result ≡ spec.equation_lacks sought.now.places.now sought.now.cells.now sought.now.own equation.now }
{
    match equation {
        Equation::Valued { left, right, .. } => lacks(left, sought) || lacks(right, sought),
        Equation::Clocks { .. } => true,
    }
}
