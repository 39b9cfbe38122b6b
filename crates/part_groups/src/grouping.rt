ghost use Rattle.std.specs.Prelude.{map, IfOk};
ghost use Rattle.eq_order.specs.Order.{use_of};
ghost use Rattle.part_groups.specs.Groups.{AreGroups};
ghost use Rattle.part_groups.specs.Units.{AreDistinct};

use crate::first::firsts;
use crate::joining::needs;
use crate::units::{owners_of, units_of};
use eq_order::Use;
use flat_model::FlatModel;
use moment_order::Stage;
use std::alloc::{AllocError, Global};
use sync_values::List;

/// The group of each unit of work: of each of `count` base partitions, and behind these of each use that waits for a clock,
/// in their order. A unit needs another where one of its equations asks for a name that the other reaches, at a moment or
/// the one before it; a group is all that a chain of such needs joins, and its number is that of its first unit. So two
/// groups share inputs and names that pure uses reach, and nothing else. The cost is near linear in the size of the model.
///
/// # Errors
///
/// Want of memory, which 2^32 units and more are too.
///
/// Source: this project's own.
pub fn groups(
    alloc: Global,
    flat: &FlatModel,
    order: &[Use],
    stages: &[Stage],
    count: u32,
) -> Result<List<u32>, AllocError>
    ensures { IfOk result (λ groups. AreDistinct flat.now (map use_of order.now) → AreGroups flat.now.equations count stages.now (map use_of order.now) groups) }
{
    let units = units_of(alloc, stages, count)?;
    let of_use = units.of_use.as_slice();
    let owners = owners_of(alloc, flat.names.len(), order, of_use)?;
    let pairs = needs(alloc, flat.equations.as_slice(), order, of_use, &owners)?;
    let first = firsts(alloc, units.count, &pairs)?;
    Ok(List::from_vec(first))
}
