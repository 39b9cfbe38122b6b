ghost use Rattle.std.specs.Prelude.{◌≡◌, ◌<◌, ◌^◌, length, IfOk, OnOk};
ghost use Rattle.steps_ready.specs.Ready.{ArePrepared};

use crate::counting::{count_partitions, numbered};
use crate::division::divide;
use crate::parting::prepare_parts;
use crate::reads::note_reads;
use crate::starting::{always, left_at_first, numbers, room};
use eq_order::Use;
use flat_model::{Clocking, FlatModel};
use moment_order::stages;
use moment_steps::{StagedSteps, UnclockedReads};
use std::alloc::{AllocError, Global};

/// The steps of a model before its first moment, from its uses in their order: the uses by their stages, a part for each
/// base partition, what unclocked equations read, and what is kept of names. At most `workers` threads will step base partitions. The cost is near linear
/// in the size of the model.
///
/// # Errors
///
/// Want of memory, which 2^32 names, uses, clocks or sites and more are too.
///
/// Source: this project's own.
pub fn prepare_steps(
    alloc: Global,
    flat: &FlatModel,
    clocking: &Clocking,
    order: &[Use],
    workers: u32,
) -> Result<StagedSteps, AllocError>
    ensures prepared { IfOk result (ArePrepared flat.now clocking.now order.now) }
    ensures few { OnOk result (length clocking.now.sites < 2 ^ 32) }
    ensures workers { IfOk result (λ steps. steps.workers ≡ workers) }
{
    numbered(clocking.sites.len())?;
    numbered(clocking.clocks.len())?;
    numbered(order.len())?;
    let names = numbered(flat.names.len())?;
    let stages = stages(alloc, flat, clocking, order)?;
    let count = count_partitions(clocking.partitions.as_slice());
    let division = divide(alloc, stages.as_slice(), order, count)?;
    let parted = prepare_parts(alloc, flat, clocking, &division.parts)?;
    let pure = note_reads(alloc, flat, division.pure.as_slice())?;
    let waiting = note_reads(alloc, flat, division.waiting.as_slice())?;
    let always = always(alloc)?;
    let numbers = numbers(alloc, names)?;
    let cells = room(alloc, flat.names.len())?;
    let ticks = Vec::from_elem(alloc, false, clocking.clocks.len())?;
    let left = left_at_first(alloc, flat.names.as_slice())?;
    Ok(StagedSteps {
        pure: division.pure,
        waiting: division.waiting,
        reads: UnclockedReads { pure, waiting },
        always,
        numbers,
        cells,
        ticks,
        places: parted.places,
        slots: parted.slots,
        left,
        workers,
        alloc,
    })
}
