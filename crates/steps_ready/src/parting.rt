//! The parts of the base partitions.
ghost use Rattle.std.specs.Prelude.{◌≡◌, ℕ, ◌<◌, ◌≤◌, ◌^◌, length, vec_len, IfOk};
ghost use Rattle.steps_ready.specs.Division.{part_of};
ghost use Rattle.steps_ready.specs.Parting.{AreReady};

use eq_order::Use;
use flat_model::{Clocking, FlatModel};
use fork_steps::Slot;
use moment_steps::Piece;
use partition_step::Part;
use std::alloc::{AllocError, Global};
use sync_values::List;

/// The place of each name's cell in the part that has it, and a slot with a part for each base partition.
#[derive(Drop)]
pub struct Parted {
    pub places: List<u32>,
    pub slots: Vec<Slot<Piece>>,
}

/// Prepares the part of each base partition from its uses.
/// Memory that is refused is the only error.
///
/// Source: this project's own.
pub fn prepare_parts(
    alloc: Global,
    flat: &FlatModel,
    clocking: &Clocking,
    parts: &[List<Use>],
) -> Result<Parted, AllocError>
    requires few { (k : ℕ) → length (part_of parts.now k) < 2 ^ 32 }
    requires numbers { length parts.now ≤ 2 ^ 32 }
    ensures size { IfOk result (λ parted. vec_len parted.slots ≡ length parts.now) }
    ensures ready { IfOk result (λ parted. AreReady flat.now clocking.now parts.now parted.places parted.slots.items) }
{
    let mut places = Vec::from_elem(alloc, 0, flat.names.len())?;
    let mut slots = Vec::with_capacity(alloc, parts.len())?;
    for k in 0..parts.len() {
        let part = Part::prepare(alloc, flat, clocking, parts[k].as_slice(), &mut places)?;
        slots.push(Slot {
            piece: Piece { part, told: None },
            number: k as u32,
            counts: false,
        })?;
    }
    Ok(Parted {
        places: List::from_vec(places),
        slots,
    })
}
