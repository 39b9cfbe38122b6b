//! The uses that no clock decides of.
ghost use Rattle.std.specs.Prelude.{◌≡◌, length};
ghost use Rattle.tree_step.specs.Starts.{CanStart};
ghost use Rattle.tree_step.specs.Takes.{TakesUses};
ghost use Rattle.partition_step.specs.Writing.{IsWritten};
ghost use Rattle.window_plan.specs.Pure.{CanTake, IsSameUses, Takes};
ghost use Rattle.window_plan.specs.private.Cells as spec;

use first_failure::EquationFailing;
use flat_model::{FlatModel, Left};
use sync_values::{List, Value};
use tree_step::{Cell, ClockNow, Entry, Scene, Standing, take_uses};

/// The uses of a model that no clock decides of, with room to take them at a moment.
#[derive(Drop)]
pub struct PureUses {
    /// The uses in their order.
    pub entries: List<Entry>,
    /// What is told of no clock: that it ticks.
    pub always: List<ClockNow>,
    /// The numbers of all names, which are also the places of their cells.
    pub numbers: List<u32>,
    /// A cell for each name.
    pub cells: Vec<Cell>,
    /// Nothing is read of the moment before.
    pub left: Left,
}

/// A cell with the value of the name of this number.
fn shown(numbers: &[u32], now: &[Option<Value>], at: usize, old: Cell) -> Cell
    ensures { result ≡ spec.shown_by numbers.now now.now at old }
{
    Cell {
        name: numbers.get(at).copied().unwrap_or(old.name),
        kept: old.kept,
        standing: Standing::Ticks,
        now: match now.get(at) {
            Some(value) => *value,
            None => None,
        },
    }
}

/// Puts values into the cells of their names.
fn show(numbers: &[u32], now: &[Option<Value>], cells: &mut [Cell])
    ensures { IsWritten (spec.shown_by numbers.now now.now) cells.old cells.new }
{
    for at in 0..cells.len() {
        cells[at] = shown(numbers, now, at, cells[at]);
    }
}

/// Copies the values of cells, each in its place.
fn copy_values(cells: &[Cell], now: &mut [Option<Value>])
    ensures { IsWritten (spec.value_by cells.now) now.old now.new }
{
    for at in 0..now.len() {
        now[at] = match cells.get(at) {
            Some(cell) => cell.now,
            None => now[at],
        };
    }
}

/// Takes uses over cells that show values, and copies what they give.
fn take_shown(
    flat: &FlatModel,
    numbers: &[u32],
    left: &Left,
    always: &[ClockNow],
    entries: &[Entry],
    cells: &mut [Cell],
    now: &mut [Option<Value>],
) -> Option<EquationFailing>
    requires { CanStart (record { equations = flat.now.equations; places = numbers.now; left = left.now; clocks = always.now }) entries.now cells.old }
    ensures takes { TakesUses (record { equations = flat.now.equations; places = numbers.now; left = left.entry.now; clocks = always.now }) entries.now cells.old cells.new result }
    ensures size { length cells.new ≡ length cells.old }
    ensures values { IsWritten (spec.value_by cells.new) now.old now.new }
{
    let scene = Scene {
        flat,
        places: numbers,
        left,
        clocks: always,
    };
    let told = take_uses(&scene, entries, cells);
    copy_values(cells, now);
    told
}

impl PureUses {
    /// Takes the uses over the values of the inputs. The answer is the failing equation of the least number. It takes no
    /// memory.
    pub(crate) fn take(
        &mut self,
        flat: &FlatModel,
        now: &mut [Option<Value>],
    ) -> Option<EquationFailing>
        requires { CanTake self.old flat.now now.old }
        ensures same { IsSameUses self.old self.new }
        ensures long { length now.new ≡ length now.old }
        ensures takes { Takes self.old flat.entry.now now.old now.new result }
    {
        let numbers = self.numbers.as_slice();
        let cells = self.cells.as_mut_slice();
        show(numbers, now, cells);
        take_shown(
            flat,
            numbers,
            &self.left,
            self.always.as_slice(),
            self.entries.as_slice(),
            cells,
            now,
        )
    }
}
