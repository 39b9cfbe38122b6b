//! Counters, factors and resolutions.
ghost use Rattle.std.specs.Prelude.{◌≡◌, map};
ghost use Rattle.std.specs.List.{list_all};
ghost use Rattle.flat_model.specs.Values.{stated};
ghost use Rattle.flat_types.specs.Outcomes as spec;

use crate::outcome::Outcome;
use flat_model::{Answer, Expr, NameKind, answer};
use sync_values::Value;

/// Whether all parts are made of constants alone.
#[cycle(constant)]
fn are_constant(parts: &[Expr]) -> bool
    ensures { result ≡ list_all (λ part. part) (map spec.is_constant parts.now) }
{
    for part in parts {
        if !is_constant(part) {
            return false;
        }
    }
    true
}

/// Whether an expression is made of constants alone, under operators and functions.
#[cycle(constant)]
#[tactic(auto, using(crate::proofs::Constants::constants))]
fn is_constant(expr: &Expr) -> bool
    ensures { result ≡ spec.is_constant expr.now }
{
    match expr {
        Expr::Const(_) => true,
        Expr::Chain(parts, _) => are_constant(parts.as_slice()),
        Expr::Relation(_, left, right) => is_constant(left.get()) && is_constant(right.get()),
        Expr::Neg(part) => is_constant(part.get()),
        Expr::Not(part) => is_constant(part.get()),
        Expr::If(conditions, branches, other) => {
            are_constant(conditions.as_slice())
                && are_constant(branches.as_slice())
                && is_constant(other.get())
        }
        Expr::Apply(_, parts) => are_constant(parts.as_slice()),
        Expr::Read(_) => false,
        Expr::Previous(_) => false,
        Expr::FirstTick(_) => false,
        Expr::IntervalTimes(_, _) => false,
        Expr::Hold(_) => false,
        Expr::Convert(_, _) => false,
        Expr::Sample(_, _) => false,
    }
}

/// No counter reaches it.
const COUNTER_LIMIT: u32 = 0x8000_0000;

/// A number from `least` to 2^31-1.
fn number_from(least: u32, number: i64) -> Option<u32>
    ensures { result ≡ spec.number_in least number }
{
    let number = u32::try_from(number).ok()?;
    (least <= number && number < COUNTER_LIMIT).then_some(number)
}

/// An answer that is such a number.
fn number_of(least: u32, answer: Answer) -> Option<u32>
    ensures { result ≡ spec.number_from least (stated answer) }
{
    match answer {
        Answer::Is(Value::Int(number)) => number_from(least, number),
        Answer::Is(Value::Bool(_)) => None,
        Answer::Fails(_) => None,
        Answer::Absent => None,
    }
}

/// The value of an expression of constants alone that is such a number.
fn constant_number(least: u32, expr: &Expr) -> Option<u32>
    ensures { result ≡ spec.constant_number least expr.now }
{
    if is_constant(expr) {
        number_of(least, answer(expr, &[]))
    } else {
        None
    }
}

/// The value of a counter, factor, resolution or k: an Integer expression of constants alone, from `least` to 2^31-1.
pub fn counter(least: u32, part: &Outcome) -> Option<u32>
    ensures { result ≡ spec.counter least part.now }
{
    match part {
        Outcome::Valued(expr, NameKind::Integer) => constant_number(least, expr),
        _ => None,
    }
}
