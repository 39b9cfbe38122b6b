//! Whether an equation rests on a clock.
ghost use Rattle.std.specs.Prelude.{◌≡◌, ◌||◌, map};
ghost use Rattle.std.specs.List.{list_any};
ghost use Rattle.moment_order.specs.private.Resting as spec;

use flat_model::{Equation, Expr};

#[cycle(resting)]
fn any_rests(parts: &[Expr], late: &[bool]) -> bool
    ensures { result ≡ list_any (λ part. part) (map (spec.rests late.now) parts.now) }
{
    for part in parts {
        if rests(part, late) {
            return true;
        }
    }
    false
}

/// Whether an expression asks for a last value, or reads a name with a flag.
#[cycle(resting)]
#[tactic(auto, using(crate::proofs::Levels::restings))]
fn rests(expr: &Expr, late: &[bool]) -> bool
    ensures { result ≡ spec.rests late.now expr.now }
{
    match expr {
        Expr::Read(name) => late.get(*name as usize).copied().unwrap_or(false),
        Expr::Chain(parts, _) => any_rests(parts.as_slice(), late),
        Expr::Apply(_, parts) => any_rests(parts.as_slice(), late),
        Expr::Relation(_, left, right) => rests(left.get(), late) || rests(right.get(), late),
        Expr::Neg(part) => rests(part.get(), late),
        Expr::Not(part) => rests(part.get(), late),
        Expr::If(conditions, branches, other) => any_rests(conditions.as_slice(), late)
            || any_rests(branches.as_slice(), late)
            || rests(other.get(), late),
        Expr::Hold(_) => true,
        Expr::Convert(_, _) => true,
        Expr::Const(_) => false,
        Expr::Previous(_) => false,
        Expr::FirstTick(_) => false,
        Expr::IntervalTimes(_, _) => false,
        Expr::Sample(_, _) => false,
    }
}

/// Whether an equation asks for a last value, or reads a name with a flag.
pub(crate) fn equation_rests(equation: &Equation, late: &[bool]) -> bool
    ensures { result ≡ spec.equation_rests late.now equation.now }
{
    match equation {
        Equation::Valued { left, right, .. } => rests(left, late) || rests(right, late),
        Equation::Clocks { .. } => false,
    }
}
