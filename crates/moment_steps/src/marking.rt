//! Which base partitions count at a moment.
ghost use Rattle.std.specs.Prelude.{◌≡◌, ◌<◌, ◌+◌, length};
ghost use Rattle.moment_steps.specs.Ticked.{row_ticks};
ghost use Rattle.moment_steps.specs.private.Marking.{AreSamePieces, IsMarkedAt, AreMarkedTo, AreMarked};

use crate::ticks::ticks_at;
use fork_steps::Slot;

/// Lets no slot count.
fn clear<T>(slots: &mut [Slot<T>])
    ensures { AreSamePieces slots.old slots.new }
{
    for place in 0..slots.len() {
        slots[place].counts = false;
    }
}

/// Lets a slot count.
fn mark_one<T>(slots: &mut [Slot<T>], place: u32)
    ensures same { AreSamePieces slots.old slots.new }
    ensures marks { IsMarkedAt place slots.old slots.new }
{
    if (place as usize) < slots.len() {
        slots[place as usize].counts = true;
    }
}

/// Lets the slot count of whose partition a class ticks.
fn mark_class<T>(partitions: &[u32], ticks: &[bool], class: usize, slots: &mut [Slot<T>])
    requires { class < length partitions.now }
    ensures same { AreSamePieces slots.old slots.new }
    ensures marks { AreMarkedTo class partitions.now (row_ticks ticks.now) slots.old → AreMarkedTo (class + 1) partitions.now (row_ticks ticks.now) slots.new }
{
    if ticks_at(ticks, class) {
        mark_one(slots, partitions[class]);
    }
}

/// Lets the slots count of whose partitions a class ticks.
pub(crate) fn mark<T>(partitions: &[u32], ticks: &[bool], slots: &mut [Slot<T>])
    ensures same { AreSamePieces slots.old slots.new }
    ensures marked { AreMarked partitions.now (row_ticks ticks.now) slots.new }
{
    clear(slots);
    for class in 0..partitions.len() {
        mark_class(partitions, ticks, class, slots);
    }
}
