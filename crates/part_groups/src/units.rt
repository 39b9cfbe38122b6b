//! The units of work of a moment: base partitions, and uses that wait for a clock.
ghost use Rattle.std.specs.Prelude.{◌≡◌, ◌+◌, ◌∷◌, [], count_by, length, Some, IfOk, slice_get, slice_set};
ghost use Rattle.flat_model.specs.Setting.{flattened};
ghost use Rattle.part_groups.specs.Units.{is_waiting, unit_in};
ghost use Rattle.part_groups.specs.private.Owners as spec;

use eq_order::Use;
use moment_order::Stage;
use std::alloc::{AllocError, Global};
use sync_values::List;

/// The unit of each use that has one, and how many units there are.
#[derive(Drop)]
pub(crate) struct Units {
    pub of_use: List<Option<u32>>,
    pub count: u32,
}

/// The unit of a use: its base partition, where it has one of the first `count`, or the next unit where it waits for a clock.
fn unit_in(stage: Stage, count: u32, next: u32) -> Option<u32>
    ensures { result ≡ unit_in count next (Some stage) }
{
    match stage {
        Stage::Pure => None,
        Stage::Partition(partition) => {
            if partition < count {
                Some(partition)
            } else {
                None
            }
        }
        Stage::Waiting => Some(next),
    }
}

/// The unit behind this one, where a use waits for a clock. 2^32 units are want of memory.
fn next_unit(stage: Stage, next: u32) -> Result<u32, AllocError>
    ensures { IfOk result (λ unit. unit ≡ next + count_by is_waiting (stage ∷ [])) }
{
    match stage {
        Stage::Waiting => next.checked_add(1).ok_or(AllocError),
        _ => Ok(next),
    }
}

/// The units of uses, by their stages.
pub(crate) fn units_of(alloc: Global, stages: &[Stage], count: u32) -> Result<Units, AllocError>
    ensures { IfOk result (λ units. spec.AreUnits count stages.now units.of_use units.count) }
{
    let mut of_use = List::with_capacity(alloc, stages.len())?;
    let mut next = count;
    for stage in stages {
        of_use.push(unit_in(*stage, count, next))?;
        next = next_unit(*stage, next)?;
    }
    Ok(Units {
        of_use,
        count: next,
    })
}

/// The unit of a use, where it has one.
pub(crate) fn unit_at(units: &[Option<u32>], at: usize) -> Option<u32>
    ensures { result ≡ flattened (slice_get units.now at) }
{
    match units.get(at) {
        Some(unit) => *unit,
        None => None,
    }
}

/// Gives a name the unit that reaches it.
fn own(owners: &mut [Option<u32>], name: u32, unit: u32)
    ensures { owners.new ≡ slice_set owners.old name (Some unit) }
{
    if (name as usize) < owners.len() {
        owners[name as usize] = Some(unit);
    }
}

/// For each name the unit that reaches it, where one does.
pub(crate) fn owners_of(
    alloc: Global,
    names: usize,
    order: &[Use],
    units: &[Option<u32>],
) -> Result<Vec<Option<u32>>, AllocError>
    ensures { IfOk result (λ owners. spec.AreOwners names order.now units.now (length order.now) owners.items) }
{
    let mut owners = Vec::from_elem(alloc, None, names)?;
    for at in 0..order.len() {
        if let Some(unit) = unit_at(units, at) {
            own(&mut owners, order[at].name, unit);
        }
    }
    Ok(owners)
}
