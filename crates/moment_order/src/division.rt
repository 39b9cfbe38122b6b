//! At which stage of a moment each use is taken.
ghost use Rattle.std.specs.Prelude.{◌≡◌, map, slice_get, slice_set, IfOk, true};
ghost use Rattle.flat_model.specs.Setting.{Setting, flattened};
ghost use Rattle.flat_model.specs.Uses.{AreUses};
ghost use Rattle.eq_order.specs.Order.{use_of};
ghost use Rattle.moment_order.specs.Stages.{stage_in, AreStages};
ghost use Rattle.moment_order.specs.private.Resting.{is_pure_at, place_in, late_after, stage_at};

use crate::resting::equation_rests;
use crate::stage::Stage;
use eq_order::Use;
use flat_model::{Clocking, Equation, FlatModel};
use std::alloc::{AllocError, Global};
use sync_values::List;

/// The class of an equation, where it has one.
fn class_at(classes: &[Option<u32>], at: u32) -> Option<u32>
    ensures { result ≡ flattened (slice_get classes.now at) }
{
    match classes.get(at as usize) {
        Some(class) => *class,
        None => None,
    }
}

/// The base partition of a class.
fn place_in(partitions: &[u32], class: Option<u32>) -> Option<u32>
    ensures { result ≡ place_in partitions.now class }
{
    match class {
        Some(class) => partitions.get(class as usize).copied(),
        None => None,
    }
}

/// Whether equation `i` rests on no clock.
fn is_pure(equations: &[Equation], class: Option<u32>, late: &[bool], i: u32) -> bool
    ensures { result ≡ is_pure_at equations.now class late.now i }
{
    if class.is_some() {
        return false;
    }
    match equations.get(i as usize) {
        Some(equation) => !equation_rests(equation, late),
        None => true,
    }
}

/// Sets the flag of a name, where there is one.
fn set_late(late: &mut [bool], name: u32)
    ensures { late.new ≡ slice_set late.old name true }
{
    if (name as usize) < late.len() {
        late[name as usize] = true;
    }
}

fn stage_in(pure: bool, place: Option<u32>) -> Stage
    ensures { result ≡ stage_in pure place }
{
    if pure {
        return Stage::Pure;
    }
    match place {
        Some(partition) => Stage::Partition(partition),
        None => Stage::Waiting,
    }
}

/// The stage of a use, by the names that rest on a clock; where it is not pure, its own is one of them.
fn next_stage(flat: &FlatModel, clocking: &Clocking, late: &mut [bool], entry: Use) -> Stage
    ensures stage { result ≡ stage_at flat.now.equations clocking.now late.old (use_of entry) }
    ensures late { late.new ≡ late_after flat.now.equations clocking.now late.old (use_of entry) }
{
    let class = class_at(clocking.of_equation.as_slice(), entry.equation);
    let pure = is_pure(flat.equations.as_slice(), class, late, entry.equation);
    if !pure {
        set_late(late, entry.name);
    }
    stage_in(pure, place_in(clocking.partitions.as_slice(), class))
}

/// The stage of each use of a model, in the order of the uses. Pure are the unclocked uses that rest on no clock: their
/// equations have no `hold` and no conversion, and read inputs and names that pure uses reach. The uses of a base
/// partition follow, then the unclocked uses that wait for a clock.
///
/// # Errors
///
/// Want of memory.
///
/// Source: this project's own.
pub fn stages(
    alloc: Global,
    flat: &FlatModel,
    clocking: &Clocking,
    uses: &[Use],
) -> Result<List<Stage>, AllocError>
    ensures { IfOk result (λ stages. (s : Setting) → s.model ≡ flat.now → s.clocking ≡ clocking.now
        → AreUses s (map use_of uses.now) → AreStages s (map use_of uses.now) stages) }
{
    let mut late = Vec::from_elem(alloc, false, flat.names.len())?;
    let mut stages = List::new(alloc);
    for entry in uses {
        stages.push(next_stage(flat, clocking, &mut late, *entry))?;
    }
    Ok(stages)
}
