ghost use Rattle.std.specs.Prelude.{◌≡◌, IfOk};

use crate::clock::ClockExpr;
use crate::expression::Expr;
use sqlite_items::Boxed;
use std::alloc::{AllocError, Global};
use sync_values::List;

/// The same items once more.
fn copied_list<T: Copy + Drop>(alloc: Global, items: &[T]) -> Result<List<T>, AllocError>
    ensures { IfOk result (λ list. list ≡ items.now) }
{
    Ok(List::from_vec(Vec::from_slice(alloc, items)?))
}

/// The same expressions once more.
#[cycle(copy)]
fn copied_exprs(alloc: Global, parts: &[Expr]) -> Result<List<Expr>, AllocError>
    ensures { IfOk result (λ list. list ≡ parts.now) }
{
    let mut copies = List::new(alloc);
    for part in parts {
        copies.push(copied_expr(alloc, part)?)?;
    }
    Ok(copies)
}

/// The same expression once more, in a box.
#[cycle(copy)]
fn copied_box(alloc: Global, part: &Expr) -> Result<Boxed<Expr>, AllocError>
    ensures { IfOk result (λ copy. copy ≡ part.now) }
{
    Boxed::new(alloc, copied_expr(alloc, part)?)
}

/// The same expression for a clock once more.
///
/// # Errors
///
/// Where memory does not suffice.
#[cycle(copy)]
pub fn copied_clock(alloc: Global, clock: &ClockExpr) -> Result<ClockExpr, AllocError>
    ensures { IfOk result (λ copy. copy ≡ clock.now) }
{
    Ok(match clock {
        ClockExpr::Name(x) => ClockExpr::Name(*x),
        ClockExpr::Inferred => ClockExpr::Inferred,
        ClockExpr::Rational(counter, resolution) => ClockExpr::Rational(*counter, *resolution),
        ClockExpr::Event(condition) => ClockExpr::Event(copied_box(alloc, condition.get())?),
        ClockExpr::Convert(by, x) => ClockExpr::Convert(*by, *x),
    })
}

/// The same expression once more.
///
/// # Errors
///
/// Where memory does not suffice.
#[cycle(copy)]
pub fn copied_expr(alloc: Global, expr: &Expr) -> Result<Expr, AllocError>
    ensures { IfOk result (λ copy. copy ≡ expr.now) }
{
    Ok(match expr {
        Expr::Const(value) => Expr::Const(*value),
        Expr::Read(x) => Expr::Read(*x),
        Expr::Chain(parts, ops) => {
            let copies = copied_exprs(alloc, parts.as_slice())?;
            Expr::Chain(copies, copied_list(alloc, ops.as_slice())?)
        }
        Expr::Relation(rel, left, right) => {
            let left = copied_box(alloc, left.get())?;
            Expr::Relation(*rel, left, copied_box(alloc, right.get())?)
        }
        Expr::Neg(part) => Expr::Neg(copied_box(alloc, part.get())?),
        Expr::Not(part) => Expr::Not(copied_box(alloc, part.get())?),
        Expr::If(conditions, branches, other) => {
            let conditions = copied_exprs(alloc, conditions.as_slice())?;
            let branches = copied_exprs(alloc, branches.as_slice())?;
            Expr::If(conditions, branches, copied_box(alloc, other.get())?)
        }
        Expr::Apply(function, parts) => Expr::Apply(
            *function,
            copied_exprs(alloc, parts.as_slice())?,
        ),
        Expr::Previous(x) => Expr::Previous(*x),
        Expr::FirstTick(x) => Expr::FirstTick(*x),
        Expr::IntervalTimes(x, k) => Expr::IntervalTimes(*x, *k),
        Expr::Hold(x) => Expr::Hold(*x),
        Expr::Convert(by, x) => Expr::Convert(*by, *x),
        Expr::Sample(part, None) => Expr::Sample(copied_box(alloc, part.get())?, None),
        Expr::Sample(part, Some(clock)) => {
            let part = copied_box(alloc, part.get())?;
            Expr::Sample(part, Some(copied_clock(alloc, clock)?))
        }
    })
}
