//! Nodes of expressions over parts that are lowered, or for which memory was refused.
ghost use Rattle.std.specs.Prelude.{◌≡◌};
ghost use Rattle.flat_model.specs.declared.raw.RawExpr.TheVariants as raw;
ghost use Rattle.flat_expressions.specs.Following.{Follows, FollowsBoth, FollowsAll};

use flat_model::RawExpr;
use sqlite_items::Boxed;
use std::alloc::{AllocError, Global};
use sync_values::{ChainOp, List, Rel, Text};

/// A call of a name.
pub fn called(
    name: Result<Text, AllocError>,
    arguments: Result<List<RawExpr>, AllocError>,
) -> Result<RawExpr, AllocError>
    ensures { FollowsBoth raw.Call name arguments result }
{
    Ok(RawExpr::Call(name?, arguments?))
}

/// A chain.
pub fn chained(
    alloc: Global,
    parts: Result<List<RawExpr>, AllocError>,
    ops: &List<ChainOp>,
) -> Result<RawExpr, AllocError>
    ensures { Follows (λ parts. raw.Chain parts ops.now) parts result }
{
    let parts = parts?;
    let ops = Vec::from_slice(alloc, ops.as_slice())?;
    Ok(RawExpr::Chain(parts, List::from_vec(ops)))
}

/// A relation.
pub fn related(
    rel: Rel,
    left: Result<Boxed<RawExpr>, AllocError>,
    right: Result<Boxed<RawExpr>, AllocError>,
) -> Result<RawExpr, AllocError>
    ensures { FollowsBoth (raw.Relation rel) left right result }
{
    Ok(RawExpr::Relation(rel, left?, right?))
}

/// A number with the other sign.
pub fn negated(part: Result<Boxed<RawExpr>, AllocError>) -> Result<RawExpr, AllocError>
    ensures { Follows raw.Neg part result }
{
    Ok(RawExpr::Neg(part?))
}

/// What is not.
pub fn inverted(part: Result<Boxed<RawExpr>, AllocError>) -> Result<RawExpr, AllocError>
    ensures { Follows raw.Not part result }
{
    Ok(RawExpr::Not(part?))
}

/// A power.
pub fn raised(
    base: Result<Boxed<RawExpr>, AllocError>,
    exponent: Result<Boxed<RawExpr>, AllocError>,
) -> Result<RawExpr, AllocError>
    ensures { FollowsBoth raw.Power base exponent result }
{
    Ok(RawExpr::Power(base?, exponent?))
}

/// A choice.
pub fn chosen(
    conditions: Result<List<RawExpr>, AllocError>,
    branches: Result<List<RawExpr>, AllocError>,
    other: Result<Boxed<RawExpr>, AllocError>,
) -> Result<RawExpr, AllocError>
    ensures { FollowsAll raw.If conditions branches other result }
{
    Ok(RawExpr::If(conditions?, branches?, other?))
}
