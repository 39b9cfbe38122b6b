//! The values of clocked names, from the base partitions of a share.
ghost use Rattle.std.specs.Prelude.{◌≡◌};
ghost use Rattle.moment_steps.specs.Gathered.{value_from as value_by};
ghost use Rattle.partition_step.specs.Writing.{IsWritten};
ghost use Rattle.share_run.specs.private.Gathering as spec;

use fork_steps::Slot;
use moment_steps::Piece;
use sync_values::Value;

/// The value that a base partition gave of a name, where it was stepped.
fn value_from(slot: &Slot<Piece>, places: &[u32], name: u32) -> Option<Value>
    ensures { result ≡ value_by places.now name slot.now }
{
    if slot.counts {
        slot.piece.part.value(places, name)
    } else {
        None
    }
}

/// The value of a name: that of the slot that reaches it, or the one that is there.
fn owned(
    slots: &[Slot<Piece>],
    places: &[u32],
    owner: Option<u32>,
    name: Option<u32>,
    there: Option<Value>,
) -> Option<Value>
    ensures { result ≡ spec.owned slots.now places.now owner name there }
{
    match (owner, name) {
        (Some(owner), Some(name)) => match slots.get(owner as usize) {
            Some(slot) => value_from(slot, places, name),
            None => None,
        },
        (Some(_), None) => None,
        (None, _) => there,
    }
}

/// The same by the number of the name.
fn owned_at(
    owners: &[Option<u32>],
    numbers: &[u32],
    places: &[u32],
    slots: &[Slot<Piece>],
    at: usize,
    there: Option<Value>,
) -> Option<Value>
    ensures { result ≡ spec.owned_at owners.now numbers.now places.now slots.now at there }
{
    let owner = match owners.get(at) {
        Some(owner) => *owner,
        None => None,
    };
    owned(slots, places, owner, numbers.get(at).copied(), there)
}

/// Gives the names that the slots reach their values, where these were stepped.
pub(crate) fn gather(
    owners: &[Option<u32>],
    numbers: &[u32],
    places: &[u32],
    slots: &[Slot<Piece>],
    now: &mut [Option<Value>],
)
    ensures { IsWritten (spec.owned_at owners.now numbers.now places.now slots.now) now.old now.new }
{
    for at in 0..now.len() {
        now[at] = owned_at(owners, numbers, places, slots, at, now[at]);
    }
}
