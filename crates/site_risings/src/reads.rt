//! Whether a condition reads a name that has no value.
ghost use Rattle.std.specs.Prelude.{◌≡◌, ◌||◌, map};
ghost use Rattle.std.specs.List.{list_any};
ghost use Rattle.site_risings.specs.private.Lacking as spec;

use flat_model::Expr;
use sync_values::Value;

#[cycle(lacking)]
fn any_lacks(parts: &[Expr], now: &[Option<Value>]) -> bool
    ensures { result ≡ list_any (λ part. part) (map (spec.lacks now.now) parts.now) }
{
    for part in parts {
        if lacks(part, now) {
            return true;
        }
    }
    false
}

/// Whether a name has no value.
fn is_missing(now: &[Option<Value>], name: u32) -> bool
    ensures { result ≡ spec.is_missing now.now name }
{
    match now.get(name as usize) {
        Some(value) => value.is_none(),
        None => true,
    }
}

/// Whether a name that stands bare in an expression has no value.
#[cycle(lacking)]
#[tactic(auto, using(crate::proofs::Levels::lackings))]
pub(crate) fn lacks(expr: &Expr, now: &[Option<Value>]) -> bool
    ensures { result ≡ spec.lacks now.now expr.now }
{
    match expr {
        Expr::Read(name) => is_missing(now, *name),
        Expr::Chain(parts, _) => any_lacks(parts.as_slice(), now),
        Expr::Apply(_, parts) => any_lacks(parts.as_slice(), now),
        Expr::Relation(_, left, right) => lacks(left.get(), now) || lacks(right.get(), now),
        Expr::Neg(part) => lacks(part.get(), now),
        Expr::Not(part) => lacks(part.get(), now),
        Expr::If(conditions, branches, other) => any_lacks(conditions.as_slice(), now)
            || any_lacks(branches.as_slice(), now)
            || lacks(other.get(), now),
        Expr::Const(_) => false,
        Expr::Hold(_) => false,
        Expr::Convert(_, _) => false,
        Expr::Previous(_) => false,
        Expr::FirstTick(_) => false,
        Expr::IntervalTimes(_, _) => false,
        Expr::Sample(_, _) => false,
    }
}
