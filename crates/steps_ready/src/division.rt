//! The uses of a model by their stages.
ghost use Rattle.std.specs.Prelude.{◌≡◌, ℕ, ◌<◌, [], ◌∷◌, ◌++◌, length, map, vec_len, IfOk, OnOk};
ghost use Rattle.moment_order.specs.declared.stage.Stage.TheVariants as stage_of;
ghost use Rattle.steps_ready.specs.Division as spec;

use eq_order::Use;
use moment_order::Stage;
use std::alloc::{AllocError, Global};
use sync_values::List;
use tree_step::Entry;

/// The unclocked uses with the clock that always ticks, and those of each base partition, each in their order.
#[derive(Drop)]
pub struct Division {
    pub pure: List<Entry>,
    pub waiting: List<Entry>,
    pub parts: Vec<List<Use>>,
}

fn entry_of(taken: Use) -> Entry
    ensures { result ≡ spec.entry_of taken }
{
    Entry {
        equation: taken.equation,
        name: taken.name,
        spine: taken.spine,
        clock: 0,
    }
}

fn add(list: &mut List<Use>, taken: Use) -> Result<(), AllocError>
    ensures { OnOk result (list.new ≡ list.old ++ taken ∷ []) }
{
    list.push(taken)?;
    Ok(())
}

/// Adds a use to those of a base partition, where it is one.
fn add_to(parts: &mut [List<Use>], partition: u32, taken: Use) -> Result<(), AllocError>
    ensures parts { OnOk result ((k : ℕ) → k < length parts.old → spec.part_of parts.new k ≡ spec.part_of parts.old k ++ spec.just (stage_of.Partition k) (stage_of.Partition partition) taken) }
    ensures size { length parts.new ≡ length parts.old }
{
    if (partition as usize) < parts.len() {
        add(&mut parts[partition as usize], taken)?;
    }
    Ok(())
}

/// Adds a use to those of its stage.
fn put(division: &mut Division, stage: Stage, taken: Use) -> Result<(), AllocError>
    ensures pure { OnOk result (division.new.pure ≡ division.old.pure ++ map spec.entry_of (spec.just stage_of.Pure stage taken)) }
    ensures waiting { OnOk result (division.new.waiting ≡ division.old.waiting ++ map spec.entry_of (spec.just stage_of.Waiting stage taken)) }
    ensures parts { OnOk result ((k : ℕ) → k < vec_len division.old.parts → spec.part_of division.new.parts.items k ≡ spec.part_of division.old.parts.items k ++ spec.just (stage_of.Partition k) stage taken) }
    ensures size { vec_len division.new.parts ≡ vec_len division.old.parts }
{
    match stage {
        Stage::Pure => division.pure.push(entry_of(taken))?,
        Stage::Partition(partition) => add_to(&mut division.parts, partition, taken)?,
        Stage::Waiting => division.waiting.push(entry_of(taken))?,
    }
    Ok(())
}

/// As many empty lists.
fn empty_parts(alloc: Global, count: usize) -> Result<Vec<List<Use>>, AllocError>
    ensures size { IfOk result (λ parts. vec_len parts ≡ count) }
    ensures empty { IfOk result (λ parts. (k : ℕ) → spec.part_of parts.items k ≡ []) }
{
    let mut parts = Vec::with_capacity(alloc, count)?;
    for _turn in 0..count {
        parts.push(List::new(alloc))?;
    }
    Ok(parts)
}

/// Divides uses by their stages, in one pass. `count` is that of the base partitions.
/// Memory that is refused is the only error.
///
/// Source: this project's own.
pub fn divide(
    alloc: Global,
    stages: &[Stage],
    order: &[Use],
    count: usize,
) -> Result<Division, AllocError>
    ensures { IfOk result (λ division. spec.AreDivided stages.now order.now count division.pure division.waiting division.parts.items) }
{
    let mut division = Division {
        pure: List::new(alloc),
        waiting: List::new(alloc),
        parts: empty_parts(alloc, count)?,
    };
    for at in 0..order.len().min(stages.len()) {
        put(&mut division, stages[at], order[at])?;
    }
    Ok(division)
}
