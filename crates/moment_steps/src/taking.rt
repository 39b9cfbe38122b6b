//! Unclocked uses, taken over the cells of all names.
ghost use Rattle.std.specs.Prelude.{◌≡◌, length};
ghost use Rattle.tree_step.specs.Changed.{CanStartChanged};
ghost use Rattle.tree_step.specs.Takes.{TakesUses};
ghost use Rattle.moment_steps.specs.Opening.{value_by};
ghost use Rattle.partition_step.specs.Writing.{IsWritten};

use first_failure::EquationFailing;
use flat_model::{FlatModel, Left};
use sync_values::{List, Value};
use tree_step::{Cell, ClockNow, Entry, Reads, Scene, take_changed};

/// What the equations of unclocked uses read, each in the place of its use: of those that no clock decides of, and of those
/// that wait for one.
#[derive(Drop)]
pub struct UnclockedReads {
    pub pure: List<Reads>,
    pub waiting: List<Reads>,
}

/// Copies the values of cells, each in its place.
pub fn copy_values(cells: &[Cell], now: &mut [Option<Value>])
    ensures { IsWritten (value_by cells.now) now.old now.new }
{
    for at in 0..now.len() {
        now[at] = match cells.get(at) {
            Some(cell) => cell.now,
            None => now[at],
        };
    }
}

/// Takes uses that no clock governs over open cells, and copies the values. Where nothing changed that an equation reads,
/// its name keeps its value.
pub(crate) fn take_unclocked(
    flat: &FlatModel,
    numbers: &[u32],
    left: &Left,
    always: &[ClockNow],
    entries: &[Entry],
    reads: &[Reads],
    cells: &mut [Cell],
    now: &mut [Option<Value>],
) -> Option<EquationFailing>
    requires { CanStartChanged (record { equations = flat.now.equations; places = numbers.now; left = left.now; clocks = always.now }) entries.now reads.now cells.old }
    ensures takes { TakesUses (record { equations = flat.now.equations; places = numbers.now; left = left.entry.now; clocks = always.now }) entries.now cells.old cells.new result }
    ensures size { length cells.new ≡ length cells.old }
    ensures values { IsWritten (value_by cells.new) now.old now.new }
{
    let scene = Scene {
        flat,
        places: numbers,
        left,
        clocks: always,
    };
    let told = take_changed(&scene, entries, reads, cells);
    copy_values(cells, now);
    told
}
