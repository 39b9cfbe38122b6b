//! Which units need one another.
ghost use Rattle.std.specs.Prelude.{◌≡◌, ◌++◌, length, slice_get, IfOk, OnOk};
ghost use Rattle.flat_model.specs.Setting.{flattened};
ghost use Rattle.part_groups.specs.private.Joining as spec;

use crate::asking::asked;
use crate::units::unit_at;
use eq_order::Use;
use flat_model::Equation;
use mo_connect::Pair;
use std::alloc::{AllocError, Global};
use sync_values::List;

/// Joins a unit with another, where there is one.
fn join_one(pairs: &mut List<Pair>, unit: u32, other: Option<u32>) -> Result<(), AllocError>
    ensures { OnOk result (pairs.new ≡ pairs.old ++ spec.pair_with unit other) }
{
    if let Some(other) = other {
        pairs.push(Pair { a: unit, b: other })?;
    }
    Ok(())
}

/// Joins a unit with those that reach names.
fn join_names(
    pairs: &mut List<Pair>,
    unit: u32,
    names: &[u32],
    owners: &[Option<u32>],
) -> Result<(), AllocError>
    ensures { OnOk result (pairs.new ≡ pairs.old ++ spec.pairs_of owners.now unit names.now) }
{
    for name in names {
        join_one(pairs, unit, unit_at(owners, *name as usize))?;
    }
    Ok(())
}

/// Joins the unit of a use with those that reach what its equation asks for.
fn join_use(
    alloc: Global,
    equations: &[Equation],
    owners: &[Option<u32>],
    unit: Option<u32>,
    entry: Use,
    pairs: &mut List<Pair>,
) -> Result<(), AllocError>
    ensures { OnOk result (pairs.new ≡ pairs.old ++ spec.pairs_for equations.now owners.now unit entry) }
{
    if let Some(unit) = unit {
        let names = asked(alloc, equations, entry.equation)?;
        join_names(pairs, unit, &names, owners)?;
    }
    Ok(())
}

/// Pairs of units of which the first needs the second.
pub(crate) fn needs(
    alloc: Global,
    equations: &[Equation],
    order: &[Use],
    units: &[Option<u32>],
    owners: &[Option<u32>],
) -> Result<List<Pair>, AllocError>
    ensures { IfOk result (spec.ArePairs equations.now owners.now order.now units.now (length order.now)) }
{
    let mut pairs = List::new(alloc);
    for at in 0..order.len() {
        join_use(
            alloc,
            equations,
            owners,
            unit_at(units, at),
            order[at],
            &mut pairs,
        )?;
    }
    Ok(pairs)
}
