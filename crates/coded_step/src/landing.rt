//! Values that come back from the words into the cells of names.
ghost use Rattle.std.specs.Prelude.{◌≡◌, ℕ, ◌<◌, Some, length, slice_get};
ghost use Rattle.tree_step.specs.declared.taking.Entry.{Entry};
ghost use Rattle.part_code.specs.declared.coded.Landing.{Landing};
ghost use Rattle.coded_step.specs.private.Landing as spec;

use crate::running::ticks_at;
use part_code::Landing;
use sync_values::Value;
use tree_step::{Cell, ClockNow, Entry};

/// The value of a word.
fn value_from(boolean: bool, word: i64) -> Value
    ensures { result ≡ spec.value_from boolean word }
{
    if boolean {
        Value::Bool(word != 0)
    } else {
        Value::Int(word)
    }
}

/// The value of the use in a place, where its clock ticks.
fn value_of(
    clocks: &[ClockNow],
    entries: &[Entry],
    landings: &[Landing],
    words: &[i64],
    place: usize,
) -> Option<Value>
    requires { (i : ℕ) (entry : Entry) (landing : Landing) → slice_get entries.now i ≡ Some entry → slice_get landings.now i ≡ Some landing → landing.cell < length words.now }
    ensures { result ≡ spec.value_of clocks.now entries.now landings.now words.now place }
{
    let Some(entry) = entries.get(place) else {
        return None;
    };
    if !ticks_at(clocks, entry.clock) {
        return None;
    }
    match landings.get(place) {
        Some(landing) => Some(value_from(landing.boolean, words[landing.cell as usize])),
        None => None,
    }
}

/// A cell with a value, where there is one.
fn landed(cell: Cell, value: Option<Value>) -> Cell
    ensures { result ≡ spec.with_value value cell }
{
    match value {
        Some(_) => Cell {
            name: cell.name,
            kept: cell.kept,
            standing: cell.standing,
            now: value,
        },
        None => cell,
    }
}

/// Gives the name of each use whose clock ticks its value.
pub(crate) fn land(
    clocks: &[ClockNow],
    entries: &[Entry],
    landings: &[Landing],
    words: &[i64],
    cells: &mut [Cell],
)
    requires { (i : ℕ) (entry : Entry) (landing : Landing) → slice_get entries.now i ≡ Some entry → slice_get landings.now i ≡ Some landing → landing.cell < length words.now }
    ensures { spec.AreLanded clocks.now entries.now landings.now words.now cells.old cells.new }
{
    for i in 0..cells.len() {
        cells[i] = landed(cells[i], value_of(clocks, entries, landings, words, i));
    }
}
