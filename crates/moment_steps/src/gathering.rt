//! The values of clocked names, from the base partitions that were stepped.
ghost use Rattle.std.specs.Prelude.{◌≡◌};
ghost use Rattle.moment_steps.specs.Gathered as spec;
ghost use Rattle.partition_step.specs.Writing.{IsWritten};

use crate::piece::Piece;
use flat_model::Clocking;
use fork_steps::Slot;
use sync_values::Value;

/// The base partition of a name, where a clock governs it.
fn partition_of(clocking: &Clocking, name: usize) -> Option<u32>
    ensures { result ≡ spec.partition_in clocking.now name }
{
    match clocking.of_name.as_slice().get(name) {
        Some(Some(class)) => clocking.partitions.as_slice().get(*class as usize).copied(),
        Some(None) => None,
        None => None,
    }
}

/// The value that a piece gave of a name, where it was stepped.
fn value_from(slot: &Slot<Piece>, places: &[u32], name: u32) -> Option<Value>
    ensures { result ≡ spec.value_from places.now name slot.now }
{
    if slot.counts {
        slot.piece.part.value(places, name)
    } else {
        None
    }
}

/// The value of a name: that of the slot of its partition, or the one that is there.
fn gathered(
    slots: &[Slot<Piece>],
    places: &[u32],
    partition: Option<u32>,
    name: Option<u32>,
    there: Option<Value>,
) -> Option<Value>
    ensures { result ≡ spec.gathered slots.now places.now partition name there }
{
    match (partition, name) {
        (Some(partition), Some(name)) => match slots.get(partition as usize) {
            Some(slot) => value_from(slot, places, name),
            None => None,
        },
        (Some(_), None) => None,
        (None, _) => there,
    }
}

/// The same by the number of the name.
fn gathered_at(
    clocking: &Clocking,
    numbers: &[u32],
    places: &[u32],
    slots: &[Slot<Piece>],
    at: usize,
    there: Option<Value>,
) -> Option<Value>
    ensures { result ≡ spec.gathered_at clocking.now numbers.now places.now slots.now at there }
{
    let name = numbers.get(at).copied();
    gathered(slots, places, partition_of(clocking, at), name, there)
}

/// Gives the names of base partitions their values, where these were stepped, and takes those away that rest.
pub(crate) fn gather(
    clocking: &Clocking,
    numbers: &[u32],
    places: &[u32],
    slots: &[Slot<Piece>],
    now: &mut [Option<Value>],
)
    ensures { IsWritten (spec.gathered_at clocking.now numbers.now places.now slots.now) now.old now.new }
{
    for at in 0..now.len() {
        now[at] = gathered_at(clocking, numbers, places, slots, at, now[at]);
    }
}
