//! Parts of a sum, undone.
ghost use Rattle.std.specs.Prelude.{◌≡◌, ◌+◌, ◌<◌, ◌∷◌, [], length, map, reverse, IfOk};
ghost use Rattle.undone_side.specs.Undone as spec;
ghost use Rattle.undone_side.specs.private.Steps.{LeadsTo};

use flat_model::{Expr, copied_expr};
use std::alloc::{AllocError, Global};
use sync_values::{ChainOp, List};

/// The operator that undoes another.
fn inverse(op: ChainOp) -> ChainOp
    ensures { result ≡ spec.inverse op }
{
    match op {
        ChainOp::Plus => ChainOp::Minus,
        ChainOp::Minus => ChainOp::Plus,
        other => other,
    }
}

/// The operators that undo others, the last one first.
fn turned_operators(alloc: Global, ops: &[ChainOp]) -> Result<List<ChainOp>, AllocError>
    ensures { IfOk result (λ turned. turned ≡ reverse (map spec.inverse ops.now)) }
{
    let mut turned = Vec::new(alloc);
    for op in ops {
        turned.push(inverse(*op))?;
    }
    turned.reverse();
    Ok(List::from_vec(turned))
}

/// The same parts once more.
fn copied_parts(alloc: Global, parts: &[Expr]) -> Result<List<Expr>, AllocError>
    ensures { IfOk result (λ copies. copies ≡ parts.now) }
{
    let mut copies = List::new(alloc);
    for part in parts {
        copies.push(copied_expr(alloc, part)?)?;
    }
    Ok(copies)
}

/// An expression, and behind it parts, the last one first.
fn turned_parts(alloc: Global, whole: Expr, back: &[Expr]) -> Result<List<Expr>, AllocError>
    ensures { IfOk result (λ parts. parts ≡ whole ∷ reverse back.now) }
{
    let mut parts = copied_parts(alloc, back)?.into_vec();
    parts.push(whole)?;
    parts.reverse();
    Ok(List::from_vec(parts))
}

/// What is left of a sum without its last parts.
fn without_back(
    alloc: Global,
    whole: Expr,
    ops: &[ChainOp],
    back: &[Expr],
) -> Result<Expr, AllocError>
    ensures { IfOk result (λ rest. rest ≡ spec.without_back whole ops.now back.now) }
{
    if back.is_empty() {
        return Ok(whole);
    }
    let parts = turned_parts(alloc, whole, back)?;
    Ok(Expr::Chain(parts, turned_operators(alloc, ops)?))
}

/// The first parts of a sum as one expression.
fn front_part(alloc: Global, front: &[Expr], ahead: &[ChainOp]) -> Result<Expr, AllocError>
    ensures { IfOk result (λ one. one ≡ spec.front_part front.now ahead.now) }
{
    if let [part] = front {
        return copied_expr(alloc, part);
    }
    let parts = copied_parts(alloc, front)?;
    let ops = List::from_vec(Vec::from_slice(alloc, ahead)?);
    Ok(Expr::Chain(parts, ops))
}

/// The difference of two expressions.
fn difference(alloc: Global, left: Expr, right: Expr) -> Result<Expr, AllocError>
    ensures { IfOk result (λ one. one ≡ spec.difference left right) }
{
    let mut parts = List::new(alloc);
    parts.push(left)?;
    parts.push(right)?;
    let mut ops = List::new(alloc);
    ops.push(ChainOp::Minus)?;
    Ok(Expr::Chain(parts, ops))
}

/// What is left of a sum without its first parts.
fn without_front(alloc: Global, op: ChainOp, front: Expr, whole: Expr) -> Result<Expr, AllocError>
    ensures { IfOk result (λ rest. rest ≡ spec.without_front op front whole) }
{
    match op {
        ChainOp::Minus => difference(alloc, front, whole),
        _ => difference(alloc, whole, front),
    }
}

/// What is left of a sum without all parts but one, by those in front of this one and those behind it.
pub(crate) fn without_others(
    alloc: Global,
    whole: Expr,
    front: &[Expr],
    ops: &[ChainOp],
    back: &[Expr],
) -> Result<Expr, AllocError>
    requires { length ops.now ≡ length front.now + length back.now }
    ensures { IfOk result (LeadsTo whole front.now ops.now back.now) }
{
    let (before, behind) = ops.split_at(front.len());
    let rest = without_back(alloc, whole, behind, back)?;
    match before.split_last() {
        Some((op, ahead)) => {
            let one = front_part(alloc, front, ahead)?;
            without_front(alloc, *op, one, rest)
        }
        None => Ok(rest),
    }
}
